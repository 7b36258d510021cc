// The part of the work area that a search runs on: the words of the slots of its entries, nodes and
// reversed links. Numbers of words and no struct: the slots are lent from C as words, and entries, chains
// and the heap are numbers of slots, since there is no heap memory.
#![tactic(auto)]

// The words of an entry's slot, after its node: where it came from, and by which input link; a place
// of the heap, and one of the list.
pub const COST: usize = 1;

pub const FROM: usize = 2;

pub const INPUT: usize = 3;

pub const RANK: usize = 4;

pub const PLACE: usize = 5;

pub const LISTED: usize = 6;

// The word of an entry's state in the list machine.
pub const STATE: usize = 7;

// The words of a node's slot, after its distance: its first reversed link, and how often it has been
// taken.
pub const HEAD: usize = 2;

pub const VISITS: usize = 3;

// The words of a reversed link's slot, after the node that it leads to: the link that comes next out
// of the same node.
pub const WEIGHT: usize = 1;

pub const CHAIN: usize = 2;
