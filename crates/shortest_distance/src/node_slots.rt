// The work area while distances are made: a slot a node. The area is lent and longer (C interface), so that
// counts stand beside it. That it has so many slots stays a clause of each function: the area is lent on as
// words, so that a value around it would be opened again at each call.
ghost use Rattle.std.specs.Prelude.{◌≡◌, ◌+◌, ◌*◌, ◌≤◌, length};
ghost use Rattle.std.proofs.lemmas.List.Edits.{sets};
ghost use Rattle.sheet.specs.Words.{bytes_of_all};
ghost use Rattle.sheet.specs.Records.{count_at};
ghost use Rattle.slots.specs.Slots.{slot_length};
ghost use Rattle.distance.specs.Written.{written_length};
ghost use Rattle.shortest_distance.specs.NodeSlots.{prepared, height_in, led_from, led_height, length_in};
ghost use Rattle.shortest_distance.specs.NodeSlots.{distance_words};

use crate::parent;
use distance::WRITTEN;
use sheet::accepted::Sheet;
use sheet::source::{Source, Sources};
use slots::SLOT;

// The word of a slot that holds the number of its node's first link.
pub const FIRST: usize = 4;

// Sets up the slots: each node is unreached and has no parent, its first link the links counted before it.
pub fn prepare(sheet: &Sheet, work: &mut [u32])
    requires { slot_length * sheet.now.nodes ≤ length work.old }
    ensures { work.new ≡ prepared sheet.now.bytes.now sheet.now.links sheet.now.nodes work.old }
{
    for source in Sources::new(sheet) {
        let at = SLOT * (source.node as usize);
        distance::put_distance(work, at, None);
        parent::store_parent(work, source.node, None);
        work[at + FIRST] = source.first;
    }
}

// One more than the highest node that is reached, or 0: scans down from the top.
fn reached_height(work: &[u32], nodes: u32) -> u32
    requires { slot_length * nodes ≤ length work.now }
    ensures { result ≡ height_in work.now nodes }
{
    for v in (0..nodes).rev() {
        if distance::distance_at(work, SLOT * (v as usize)).is_some() {
            return v + 1;
        }
    }
    0
}

// A height, raised above the nodes that the links of a node lead to.
fn led_from(source: &Source, height: u32) -> u32
    ensures { result ≡ led_from source.now.sheet.bytes.now source.now.first (count_at source.now.sheet.bytes.now source.now.sheet.links source.now.node) height }
{
    let mut top = height;
    for i in 0..source.count() {
        top = top.max(source.sheet.next(source.first + i) + 1);
    }
    top
}

// The height of the reached nodes, raised above those that links lead to from them, barred or not.
fn led_height(sheet: &Sheet, work: &[u32], reached: u32) -> u32
    requires { (slot_length * sheet.now.nodes ≤ length work.now) × (reached ≤ sheet.now.nodes) }
    ensures { result ≡ led_height sheet.now.bytes.now sheet.now.links work.now reached reached }
{
    let mut top = reached;
    for source in Sources::new(sheet).take(reached as usize) {
        let own = distance::distance_at(work, SLOT * (source.node as usize));
        if own.is_some() {
            top = led_from(&source, top);
        }
    }
    top
}

// One more than the highest node that is reached, or led to from a reached one, or 0. Where the last
// node is reached none is higher, and no link is looked at.
pub fn height(sheet: &Sheet, work: &[u32]) -> u32
    requires { slot_length * sheet.now.nodes ≤ length work.now }
    ensures { result ≡ length_in sheet.now.bytes.now sheet.now.links sheet.now.nodes work.now }
{
    let nodes = sheet.nodes;
    let reached = reached_height(work, nodes);
    if reached == nodes {
        return reached;
    }
    led_height(sheet, work, reached)
}

// Writes the distances of the first nodes at the front of the result.
pub fn put_distances(work: &[u32], count: u32, res: &mut [u8])
    requires { (slot_length * count ≤ length work.now) × (written_length * count ≤ length res.old) }
    ensures { res.new ≡ sets res.old 0 (bytes_of_all (distance_words work.now count)) }
{
    for v in 0..count {
        let d = distance::distance_at(work, SLOT * (v as usize));
        distance::write_distance(res, WRITTEN * (v as usize), d);
    }
}
