// Links, and pairs of links of two machines, as single numbers: sorting these puts links by label, and
// pairs in the order of the product's links. They stay numbers, which the library sorts by their order, and
// lie in areas of fixed memory; a type around each would be opened at every key.
ghost use Rattle.std.specs.Prelude.{◌≡◌, ◌^◌, ◌<◌};
ghost use Rattle.tropical_weight.specs.Limits.{node_limit, link_limit};
ghost use Rattle.product.specs.Keys.{link_key, key_label, key_node, key_link, pair_key, pair_node, pair_first, pair_second};

use tropical_weight::{LINK_LIMIT, NODE_LIMIT};

const NODES: u64 = NODE_LIMIT as u64;

const LINKS: u64 = LINK_LIMIT as u64;

// The key of link l, with this label, out of this node.
pub fn link_key(label: u32, node: u32, l: u32) -> u64
    requires { (node < node_limit) × (l < link_limit) }
    ensures { result ≡ link_key label node l }
{
    (u64::from(label) * NODES + u64::from(node)) * LINKS + u64::from(l)
}

// The least key of a link with the label of this one.
pub fn least_alike(key: u64) -> u64
    ensures { result ≡ link_key (key_label key) 0 0 }
{
    key - key % (NODES * LINKS)
}

pub fn key_label(key: u64) -> u64
    ensures { result ≡ key_label key }
{
    key / LINKS / NODES
}

pub fn key_node(key: u64) -> u64
    ensures { (result ≡ key_node key) × (result < node_limit) }
{
    key / LINKS % NODES
}

pub fn key_link(key: u64) -> u64
    ensures { (result ≡ key_link key) × (result < link_limit) }
{
    key % LINKS
}

// The key of links l and k out of node v.
pub fn pair_key(v: u64, l: u64, k: u64) -> u64
    requires { (v < 2 ^ 32) × (l < link_limit) × (k < link_limit) }
    ensures { result ≡ pair_key v l k }
{
    (v * LINKS + l) * LINKS + k
}

pub fn pair_node(key: u64) -> u64
    ensures { result ≡ pair_node key }
{
    key / LINKS / LINKS
}

pub fn pair_first(key: u64) -> u64
    ensures { (result ≡ pair_first key) × (result < link_limit) }
{
    key / LINKS % LINKS
}

// The same digits as of key_link, of another key: the names tell which.
pub fn pair_second(key: u64) -> u64
    ensures { (result ≡ pair_second key) × (result < link_limit) }
{
    key % LINKS
}
