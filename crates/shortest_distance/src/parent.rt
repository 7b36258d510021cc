// The parent of a node, in its slot: the link by which the best way enters it.
ghost use Rattle.std.specs.Prelude.{◌≡◌, ◌+◌, ◌*◌, ◌≤◌, length};
ghost use Rattle.slots.specs.Slots.{slot_length};
ghost use Rattle.shortest_distance.specs.ParentWords.{parent_at, parent_stored};

use slots::{NOTHING, SLOT, number_in};

// The words of a slot that hold the parent: the link, and its source.
const LINK: usize = 2;

const SOURCE: usize = 3;

// The link by which the best way enters a node, and the link's source.
#[derive(Clone, Copy, Debug, PartialEq, Eq)]
pub struct Parent {
    pub link: u32,
    pub source: u32,
}

// The parent in a node's slot. How none is stored is known here and where it is stored alone.
pub fn parent_at(work: &[u32], v: u32) -> Option<Parent>
    requires { slot_length * v + slot_length ≤ length work.now }
    ensures { result ≡ parent_at work.now v }
{
    let at = SLOT * (v as usize);
    let link = number_in(work[at + LINK])?;
    let source = work[at + SOURCE];
    Some(Parent { link, source })
}

// Stores a parent there; for none the link's word tells it alone.
pub fn store_parent(work: &mut [u32], v: u32, parent: Option<Parent>)
    requires { slot_length * v + slot_length ≤ length work.old }
    ensures { work.new ≡ parent_stored work.old v parent }
{
    let at = SLOT * (v as usize);
    let Some(Parent { link, source }) = parent else {
        work[at + LINK] = NOTHING;
        return;
    };
    work[at + LINK] = link;
    work[at + SOURCE] = source;
}
