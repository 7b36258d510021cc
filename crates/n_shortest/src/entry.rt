// Entries (shortest_path.rs of rustfst) in their slots: made by expansion, read by the heap.
ghost use Rattle.std.specs.Prelude.{◌≡◌, ◌+◌, ◌*◌, ◌<◌, length, unwrap_or};
ghost use Rattle.tropical_weight.specs.Single.{Number};
ghost use Rattle.slots.specs.Slots.{slot_length, nothing};
ghost use Rattle.search_slots.specs.Slots.{rank_word};
ghost use Rattle.n_shortest.specs.HeapWords.{half_first};
ghost use Rattle.n_shortest.specs.EntryWords.{node_of, cost_of, rank_w, Inside, entry_w, rank_of, stored};

use search_slots::{COST, FROM, INPUT, RANK};
use slots::{NOTHING, SLOT};

// An entry is half-built, with a node and a cost, or finished, with a cost: document 01's own enum, and no
// Option, since both have a cost.
#[derive(Clone, Copy)]
pub enum Entry {
    Half(u32, f32),
    Finished(f32),
}

impl Entry {
    // The word of its node. How a finished entry is stored is known here and in `entry_at` alone.
    fn node(self) -> u32
        ensures { result ≡ node_of self }
    {
        match self {
            Entry::Half(v, _) => v,
            Entry::Finished(_) => NOTHING,
        }
    }

    fn cost(self) -> f32
        ensures { result ≡ cost_of self }
    {
        match self {
            Entry::Half(_, c) | Entry::Finished(c) => c,
        }
    }

    // Whether it is half-built and another finished.
    pub fn half_first(self, other: Entry) -> bool
        ensures { result ≡ half_first self other }
    {
        matches!((self, other), (Entry::Half(_, _), Entry::Finished(_)))
    }

    // Distance plus cost, infinite where the node is unreached. The words of the nodes go along, since what
    // a search keeps of them does not hold while an entry is put in.
    fn rank(self, part: &[u32], nodes: usize) -> f32
        requires { Inside part.now nodes self }
        ensures { result ≡ rank_w part.now nodes self }
    {
        match self {
            Entry::Half(v, c) => {
                let d = distance::distance_at(part, nodes + SLOT * (v as usize));
                tropical_weight::times(distance::as_weight(d), c)
            }
            Entry::Finished(c) => c,
        }
    }
}

// The entry in slot x.
#[tactic(auto, unfolding(crate::specs::EntryWords::entry_w))]
pub fn entry_at(part: &[u32], x: u32) -> Entry
    requires { slot_length * x + 1 < length part.now }
    ensures { result ≡ entry_w part.now x }
{
    let at = SLOT * (x as usize);
    let node = part[at];
    let cost = tropical_weight::from_bits(part[at + COST]);
    if node == NOTHING {
        return Entry::Finished(cost);
    }
    Entry::Half(node, cost)
}

// The rank of the entry in slot x, as it was when it was stored.
pub fn rank_at(part: &[u32], x: u32) -> f32
    requires { (slot_length * x + 4 < length part.now) × Number (rank_word part.now x) }
    ensures { result ≡ rank_of part.now x }
{
    tropical_weight::from_number_bits(part[SLOT * (x as usize) + RANK])
}

// Stores an entry in slot i, with its rank, the entry it came from and the input link by which it is
// put in, if there is one.
pub fn store(part: &mut [u32], nodes: usize, i: u32, e: Entry, from: u32, input: Option<u32>)
    requires { (slot_length * i + 4 < length part.old) × Inside part.old nodes e }
    ensures { part.new ≡ stored part.old nodes i e from (unwrap_or input nothing) }
{
    let at = SLOT * (i as usize);
    let rank = tropical_weight::to_number_bits(e.rank(part, nodes));
    part[at] = e.node();
    part[at + COST] = tropical_weight::to_bits(e.cost());
    part[at + FROM] = from;
    part[at + INPUT] = input.unwrap_or(NOTHING);
    part[at + RANK] = rank;
}
