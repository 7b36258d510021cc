// The heap of a search (shortest_path.rs of rustfst): numbers of entries, in a word of each slot.
// It stays functions over the part: its length is another at each call, and while an entry is put in or
// removed, so a struct of both would be plainer in none of them. The sifts are recursions, as their definitions are.
ghost use Rattle.std.specs.Prelude.{◌≡◌, ◌+◌, ◌-◌, ◌*◌, ◌≤◌, ◌<◌, length};
ghost use Rattle.slots.specs.Slots.{slot_length};
ghost use Rattle.n_shortest.specs.HeapWords.{Comparable, HeapFits, less_w, swap_w, sift_up_w, child_w, sift_down_w, push_w, pop_w};

use crate::entry;
use search_slots::PLACE;
use slots::SLOT;

// Whether entry a comes before entry b: by rank, and on equal rank half-built before finished.
// Not Ord: ranks are floats that lie in the part, compared as the Rust does.
#[tactic(auto, unfolding(crate::specs::HeapWords::less_w))]
fn less(part: &[u32], a: u32, b: u32) -> bool
    requires { Comparable part.now a × Comparable part.now b }
    ensures { result ≡ less_w part.now a b }
{
    let x = entry::rank_at(part, a);
    let y = entry::rank_at(part, b);
    if tropical_weight::natural_less(x, y) {
        return true;
    }
    if tropical_weight::natural_less(y, x) {
        return false;
    }
    entry::entry_at(part, a).half_first(entry::entry_at(part, b))
}

// Swaps what stands at two places. By hand: the library's swap compares the two indices first, and where many
// entries tie a list took a tenth more by it.
fn swap(part: &mut [u32], i: usize, j: usize)
    requires { (slot_length * i + 5 < length part.old) × (slot_length * j + 5 < length part.old) }
    ensures { part.new ≡ swap_w part.old i j }
{
    let x = part[SLOT * i + PLACE];
    part[SLOT * i + PLACE] = part[SLOT * j + PLACE];
    part[SLOT * j + PLACE] = x;
}

// Up from place i: swapped with the parent where it comes before it, and again from there.
fn sift_up(part: &mut [u32], i: usize)
    requires { HeapFits part.old (i + 1) }
    ensures { part.new ≡ sift_up_w i part.old i }
{
    if i == 0 {
        return;
    }
    let p = (i - 1) / 2;
    if less(part, part[SLOT * i + PLACE], part[SLOT * p + PLACE]) {
        swap(part, i, p);
        sift_up(part, p);
    }
}

// Of the children of place i in a heap of n, the second where it comes before the first.
#[tactic(auto, unfolding(crate::specs::HeapWords::child_w))]
fn child(part: &[u32], n: usize, i: usize) -> usize
    requires { HeapFits part.now n × (2 * i + 1 < n) }
    ensures value { result ≡ child_w part.now n i }
    ensures lower_bound { i < result }
    ensures upper_bound { result < n }
{
    let left = 2 * i + 1;
    let right = 2 * i + 2;
    if right < n && less(part, part[SLOT * right + PLACE], part[SLOT * left + PLACE]) {
        right
    } else {
        left
    }
}

// Down from place i in a heap of n: swapped with that child unless it comes before it, so on ties
// too, and again from there.
fn sift_down(part: &mut [u32], n: usize, i: usize)
    requires { HeapFits part.old n × (i ≤ n) }
    ensures { part.new ≡ sift_down_w (n - i) n part.old i }
{
    if n <= 2 * i + 1 {
        return;
    }
    let c = child(part, n, i);
    if less(part, part[SLOT * i + PLACE], part[SLOT * c + PLACE]) {
        return;
    }
    swap(part, i, c);
    sift_down(part, n, c);
}

// Puts entry x into a heap of len: at the end, and then up.
#[tactic(auto, unfolding(crate::specs::HeapWords::push_w))]
pub fn push(part: &mut [u32], len: usize, x: u32)
    requires { HeapFits part.old len × (slot_length * (len + 1) ≤ length part.old) × Comparable part.old x }
    ensures { part.new ≡ push_w part.old len x }
{
    part[SLOT * len + PLACE] = x;
    sift_up(part, len);
}

// Removes the head of a heap of len: the last goes to the root, and then down. Not inlined: its loop has the
// registers to itself so, and a search where many entries tie took a tenth more without it.
#[inline(never)]
#[tactic(auto, unfolding(crate::specs::HeapWords::pop_w))]
pub fn pop(part: &mut [u32], len: usize)
    requires { HeapFits part.old len × (0 < len) }
    ensures { part.new ≡ pop_w part.old len }
{
    let n = len - 1;
    part[PLACE] = part[SLOT * n + PLACE];
    sift_down(part, n, 0);
}
