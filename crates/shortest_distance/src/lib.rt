// Distances (shortest_distance.rs of rustfst), one per node: reached at the least sum of weights along
// the runs from the start to it, or unreached.
#![tactic(auto)]

ghost use Rattle.std.specs.Prelude.{◌≡◌, ◌*◌, ◌≤◌, length};
ghost use Rattle.slots.specs.Slots.{slot_length};
ghost use Rattle.shortest_distance.specs.NodeSlots.{distance_words};
ghost use Rattle.shortest_distance.specs.Handed.{handed, handed_over};
ghost use Rattle.shortest_distance.specs.Outcome.{distance_answer, work_after, result_after};
ghost use Rattle.shortest_distance.specs.Promise.{Promised};
ghost use Rattle.shortest_distance.specs.Sound.{Made};

use distance::WRITTEN;
use machine::climbing::Machine;
use sheet::refusal::Refusal;
use slots::SLOT;
use state_order_queue::Queue;

mod node_slots;
pub mod parent;
mod relax;

// Hands the distances of the first nodes over, where the result area has room for them: so many, for the
// area is lent and longer (C interface).
fn hand_over(work: &[u32], count: u32, res: &mut [u8]) -> Result<u32, Refusal>
    requires { slot_length * count ≤ length work.now }
    ensures value { result ≡ handed count (length res.old) }
    ensures res_after { res.new ≡ handed_over (distance_words work.now count) res.old }
{
    if res.len() < WRITTEN * (count as usize) {
        return Err(Refusal::Room);
    }
    node_slots::put_distances(work, count, res);
    Ok(count)
}

// Makes the distances and the parents of a machine in the slots of its nodes.
pub fn make(m: &Machine, work: &mut [u32])
    requires { slot_length * m.now.sheet.nodes ≤ length work.old }
    ensures { Made m.now.sheet.bytes.now work.old work.new }
{
    node_slots::prepare(&m.sheet, work);
    if let Some(start) = m.sheet.start() {
        let begun = Some(tropical_weight::one());
        distance::put_distance(work, SLOT * (start as usize), begun);
        let q = Queue::new().enqueue_untested(start);
        relax::relax_heads(&m.sheet, work, q);
    }
}

// Distances of a machine: the tests of the areas, 20 and 21, and the answer.
fn distances_of(m: &Machine, work: &mut [u32], res: &mut [u8]) -> Result<u32, Refusal>
    ensures value { result ≡ distance_answer m.now.sheet.bytes.now (length work.old) (length res.old) }
    ensures work_new { work.new ≡ work_after m.now.sheet.bytes.now work.old (length res.old) }
    ensures res_after { res.new ≡ result_after m.now.sheet.bytes.now (length work.old) res.old }
{
    let nodes = m.sheet.nodes;
    if work.len() / SLOT < (nodes as usize) {
        return Err(Refusal::Work);
    }
    make(m, work);
    let answer = hand_over(work, node_slots::height(&m.sheet, work), res);
    slots::clear(work, nodes);
    answer
}

// Distances of a sheet's nodes, one per node up to the highest reached, or led to from a reached one,
// into the result area: two words each, 1 and the weight bits, or 0 and 0 where the node is unreached.
// Answers how many it wrote. A work slot is eight words; the slots of the nodes are left zero unless
// the sheet or the count of slots is refused.
pub fn shortest_distance(sheet: &[u8], work: &mut [u32], res: &mut [u8]) -> Result<u32, Refusal>
    ensures value { result ≡ distance_answer sheet.now (length work.old) (length res.old) }
    ensures work_new { work.new ≡ work_after sheet.now work.old (length res.old) }
    ensures res_after { res.new ≡ result_after sheet.now (length work.old) res.old }
    ensures promised { Promised sheet.now result res.new }
{
    let m = Machine::new(sheet)?;
    distances_of(&m, work, res)
}
