// Relaxation, link by link through the queue.
ghost use Rattle.std.specs.Prelude.{◌≡◌, ◌+◌, ◌*◌, ◌≤◌, length};
ghost use Rattle.slots.specs.Slots.{slot_length};
ghost use Rattle.distance.specs.Offer.{reaches};
ghost use Rattle.shortest_distance.specs.NodeSlots.{distance_at};
ghost use Rattle.shortest_distance.specs.Relaxation.{relaxed_words, relax_heads};
ghost use Rattle.shortest_distance.specs.Sound.{Sound};

use crate::node_slots::FIRST;
use crate::parent;
use crate::parent::Parent;
use sheet::accepted::Sheet;
use sheet::tr::Link;
use slots::SLOT;
use state_order_queue::{Queue, next_front};

// Offers a link's next node the distance by that link from its source at d. Where it is strictly less
// the node takes it, and the link becomes its parent: of equal offers the first stays. A strict
// comparison of exact sums is right in every rounding mode, and an offer of infinity reaches nothing.
// Answers whether it is the node's first.
fn relax_link(k: Link, by: Parent, d: f32, work: &mut [u32]) -> bool
    requires { slot_length * k.nextstate + slot_length ≤ length work.old }
    ensures value { result ≡ reaches (distance_at work.old k.nextstate) d k.weight }
    ensures work_new { work.new ≡ relaxed_words k by.link by.source d work.old }
{
    let at = SLOT * (k.nextstate as usize);
    let old = distance::distance_at(work, at);
    let own = distance::as_weight(old);
    let offer = tropical_weight::times(d, k.weight);
    if !tropical_weight::natural_less(offer, own) {
        return false;
    }
    distance::put_distance(work, at, Some(offer));
    parent::store_parent(work, k.nextstate, Some(by));
    old.is_none()
}

// Takes heads and relaxes their links until the queue is empty, and puts each next node in at the
// first distance that it gets. A turn a node is the most, so that the loop ends whatever the links
// are. A flag is stored where the queue lies, and the queue then goes by value for its ends.
pub fn relax_heads(sheet: &Sheet, work: &mut [u32], q: Queue)
    requires { Sound sheet.now.bytes.now sheet.now.links sheet.now.nodes work.old q }
    ensures { work.new ≡ (relax_heads sheet.now.bytes.now sheet.now.links sheet.now.nodes (record { work = work.old; queue = q })).work }
{
    let mut queue = q;
    for turn in 0..sheet.nodes {
        let front = queue.front;
        let Some(back) = queue.back else {
            return;
        };
        if back < front {
            return;
        }
        let v = front as usize;
        let first = work[SLOT * v + FIRST];
        let count = sheet.count(front);
        let d = distance::as_weight(distance::distance_at(work, SLOT * v));
        queue.flags[v] = false;
        let next = next_front(front, back, &queue.flags);
        queue = queue.dequeue_cleared(next);
        for i in 0..count {
            let link = first + i;
            let k = sheet.link(link);
            let by = Parent {
                link,
                source: front,
            };
            if relax_link(k, by, d, work) {
                let w = k.nextstate;
                queue.flags[w as usize] = true;
                queue = queue.enqueue_flagged(w);
            }
        }
    }
}
