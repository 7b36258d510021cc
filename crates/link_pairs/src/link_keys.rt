// The keys of a machine's links.
ghost use Rattle.std.specs.Prelude.{◌≡◌, ◌+◌, ◌≤◌, ◌<◌, length};
ghost use Rattle.std.proofs.lemmas.List.Edits.{sets};
ghost use Rattle.tropical_weight.specs.Limits.{node_limit, link_limit};
ghost use Rattle.sheet.specs.Machine.{machine as machine_at};
ghost use Rattle.product.specs.Keys.{link_keys};
ghost use Rattle.link_pairs.specs.Found.{node_key, node_keys};

use machine::climbing::Machine;
use product::keys::link_key;
use sheet::source::{Source, Sources};

// The key of link i of a node.
fn key_of(source: &Source, i: u32) -> u64
    requires within { source.now.first + i < source.now.sheet.links }
    requires few { (source.now.sheet.nodes ≤ node_limit) × (source.now.sheet.links ≤ link_limit) }
    ensures { result ≡ node_key source.now.sheet.bytes.now source.now.node source.now.first i }
{
    let l = source.first + i;
    link_key(source.sheet.link(l).ilabel, source.node, l)
}

// Stores the keys of a node's links.
fn put_node_keys(source: &Source, keys: &mut [u64])
    requires room { source.now.sheet.links ≤ length keys.old }
    requires few { (source.now.sheet.nodes ≤ node_limit) × (source.now.sheet.links ≤ link_limit) }
    ensures { keys.new ≡ sets keys.old source.now.first (node_keys source.now.sheet.bytes.now source.now.sheet.links source.now.node source.now.first) }
{
    for i in 0..source.count() {
        keys[(source.first + i) as usize] = key_of(source, i);
    }
}

// Stores the keys of a machine's links, in the order of their numbers.
pub fn put_link_keys(machine: &Machine, keys: &mut [u64])
    requires { machine.now.sheet.links ≤ length keys.old }
    ensures { keys.new ≡ sets keys.old 0 (link_keys (machine_at machine.now.sheet.bytes.now)) }
{
    for source in Sources::new(&machine.sheet) {
        put_node_keys(&source, keys);
    }
}
