// The pairs of links with the same label, by the keys of the links.
ghost use Rattle.std.specs.Prelude.{◌≤◌, length};
ghost use Rattle.tropical_weight.specs.Limits.{node_limit, link_limit};
ghost use Rattle.sheet.specs.Machine.{machine as machine_at};
ghost use Rattle.sorted_keys.specs.Sorted.{FirstAtLeast};
ghost use Rattle.machine.proofs.Lists.{Perm};
ghost use Rattle.product.specs.Keys.{link_key, link_keys, key_label};
ghost use Rattle.link_pairs.specs.Found.{pairs_of, found, Put, PairsFound};

use crate::link_keys::put_link_keys;
use machine::climbing::Machine;
use product::keys::{key_label, key_link, key_node, least_alike, pair_key};
use sorted_keys::{InOrder, sort};
use tropical_weight::LINK_LIMIT;

// Puts the pairs of a link of the first machine, by its key, with its partners among the keys of the
// second's, which begin at `low`, from place `at` on. Answers the place behind them, or none where they are
// more than a machine may have links. The place goes beside the area, which is fixed memory: no Vec.
fn put_partners(
    key: u64,
    seconds: &InOrder,
    low: usize,
    nodes: u64,
    pairs: &mut [u64],
    at: usize,
) -> Option<usize>
    requires begins { FirstAtLeast (length seconds.now.keys.now) seconds.now.keys.now (link_key (key_label key) 0 0) low }
    requires nodes_le_node_limit { nodes ≤ node_limit }
    requires link_limit_in_bounds { (link_limit ≤ length pairs.old) × (at ≤ link_limit) }
    ensures { Put at (pairs_of nodes seconds.now.keys.now key) pairs.old pairs.new result }
{
    let label = key_label(key);
    let before = key_node(key) * nodes;
    let mut next = at;
    for second in &seconds.keys[low..] {
        if key_label(*second) != label {
            return Some(next);
        }
        if next == LINK_LIMIT {
            return None;
        }
        pairs[next] = pair_key(before + key_node(*second), key_link(key), key_link(*second));
        next += 1;
    }
    Some(next)
}

// Puts the pairs of all links of the first machine. Answers how many there are, or none where they are
// too many. Both lists of keys are in order, so that `low` goes on among the second's.
fn put_pairs(firsts: &InOrder, seconds: &InOrder, nodes: u64, pairs: &mut [u64]) -> Option<usize>
    requires nodes_le_node_limit { (nodes ≤ node_limit) × (link_limit ≤ length pairs.old) }
    ensures { Put 0 (found nodes seconds.now.keys.now firsts.now.keys.now) pairs.old pairs.new result }
{
    let mut next = 0usize;
    let mut low = 0usize;
    for key in firsts.keys {
        low = seconds.first_from(low, least_alike(*key));
        next = put_partners(*key, seconds, low, nodes, pairs, next)?;
    }
    Some(next)
}

// The keys of a machine's links, sorted in `keys`.
fn sorted_link_keys<'a>(machine: &Machine, keys: &'a mut [u64]) -> InOrder<'a>
    requires { link_limit ≤ length keys.old }
    ensures { Perm result.keys.now (link_keys (machine_at machine.now.sheet.bytes.now)) }
{
    let keys = &mut keys[..machine.sheet.links as usize];
    put_link_keys(machine, keys);
    sort(keys);
    InOrder { keys }
}

// Finds the pairs of links of two machines that have the same label: their keys in the order of the
// product's links, in the first cells of `pairs`. Answers how many there are, or none where they are more
// than a machine may have links. The keys of either's links are sorted in `firsts` and `seconds`.
pub fn find_pairs(
    first: &Machine,
    second: &Machine,
    firsts: &mut [u64],
    seconds: &mut [u64],
    pairs: &mut [u64],
) -> Option<usize>
    requires areas { (link_limit ≤ length firsts.old) × (link_limit ≤ length seconds.old) × (link_limit ≤ length pairs.old) }
    ensures { PairsFound (machine_at first.now.sheet.bytes.now) (machine_at second.now.sheet.bytes.now) pairs.new result }
{
    let firsts = sorted_link_keys(first, firsts);
    let seconds = sorted_link_keys(second, seconds);
    let count = put_pairs(&firsts, &seconds, u64::from(second.sheet.nodes), pairs)?;
    sort(&mut pairs[..count]);
    Some(count)
}
