// Whether no node has two final rows, found in passes over the text.
ghost use Rattle.std.specs.Prelude.{◌≡◌, [], ◌+◌, ◌^◌, ◌≤◌, ◌<◌, length};
ghost use Rattle.row_reader.specs.Places.{rows_left};
ghost use Rattle.row_reader.specs.FinalRows.{most, falling, told, has, put_in, with_new, with_final, with_read, pass_from, once_in};

use crate::row::Row;
use crate::rows::Rows;

// So many final nodes are kept in a pass: as many as a machine that is searched may have.
const KEPT: usize = tropical_weight::NODE_LIMIT;

// Every node is below this.
const NODES: u64 = 0x1_0000_0000;

// A pass under way over the final rows at nodes from `first` on: the nodes kept, rising, and the node from which on all are left to the next pass.
// An array and a count: no heap, and so no Vec.
#[derive(Drop)]
struct Pass {
    first: u64,
    kept: [u32; KEPT],
    count: usize,
    limit: u64,
    ghost room: { count ≤ most },
}

// Puts a node among the kept ones; true where it is there already. From the back and not by binary_search: final rows mostly
// rise, so that one comparison finds the place, and the nodes behind it move in the same loop. The count stands beside the
// array, since the node that is put takes the slot behind the kept ones.
fn put(kept: &mut [u32; KEPT], count: usize, node: u32) -> bool
    requires { count < most }
    ensures value { result ≡ has node (falling kept.old count) }
    ensures kept_after { kept.new ≡ put_in node kept.old count }
{
    for j in (0..count).rev() {
        let before = kept[j];
        if before <= node {
            kept[j + 1] = node;
            return before == node;
        }
        kept[j + 1] = before;
    }
    kept[0] = node;
    false
}

impl Pass {
    fn new(first: u64) -> Pass
        ensures { (result.first ≡ first) × (result.count ≡ 0) × (result.limit ≡ 2 ^ 32) }
    {
        Pass {
            first,
            kept: [0; KEPT],
            count: 0,
            limit: NODES,
        }
    }

    // A node more is kept; none where it is there already.
    fn keep(&mut self, node: u32) -> Option<()>
        requires { self.old.count < most }
        ensures after { told result (falling self.new.kept self.new.count) self.new.limit ≡ with_new node (falling self.old.kept self.old.count) self.old.limit }
        ensures first { self.new.first ≡ self.old.first }
    {
        if put(&mut self.kept, self.count, node) {
            return None;
        }
        self.count += 1;
        Some(())
    }

    // A final row more; none where its node has one already. Where no more nodes can be kept, the greatest is left to the next pass.
    fn meet(&mut self, node: u32) -> Option<()>
        ensures after { told result (falling self.new.kept self.new.count) self.new.limit ≡ with_final self.old.first node (falling self.old.kept self.old.count) self.old.limit }
        ensures first { self.new.first ≡ self.old.first }
    {
        let v = u64::from(node);
        if v < self.first || self.limit <= v {
            return Some(());
        }
        if self.count < KEPT {
            return self.keep(node);
        }
        let left = KEPT - 1;
        let greatest = self.kept[left];
        self.count = left;
        self.limit = u64::from(greatest);
        if greatest <= node {
            return Some(());
        }
        self.keep(node)
    }

    // A row more.
    fn add(&mut self, row: Row) -> Option<()>
        ensures after { told result (falling self.new.kept self.new.count) self.new.limit ≡ with_read self.old.first (falling self.old.kept self.old.count) self.old.limit row }
        ensures first { self.new.first ≡ self.old.first }
    {
        match row {
            Row::Link(_) => Some(()),
            Row::Final { node, .. } => self.meet(node),
        }
    }
}

// One pass over the final rows at nodes from `first` on: where the next one begins; none where a node's second final row is met, or a row that cannot be read.
fn pass_from(text: &[u8], first: u64) -> Option<u64>
    ensures { result ≡ pass_from first [] (2 ^ 32) (rows_left text.now 0) }
{
    let mut pass = Pass::new(first);
    for row in Rows::new(text) {
        pass.add(row?)?;
    }
    Some(pass.limit)
}

// Whether no node has two final rows; false too where a row cannot be read.
pub fn finals_once(text: &[u8]) -> bool
    ensures { result ≡ once_in (rows_left text.now 0) }
{
    let mut first = 0u64;
    // A while: each pass tells where the next begins.
    while first < NODES {
        let Some(next) = pass_from(text, first) else {
            return false;
        };
        first = next;
    }
    true
}
