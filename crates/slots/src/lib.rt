// The work area: slots of eight words, and the word that stands for nothing.
#![tactic(auto)]

ghost use Rattle.std.specs.Prelude.{◌≡◌, ◌*◌, ◌≤◌, length};
ghost use Rattle.slots.specs.Slots.{slot_length, number_in, cleared};

// The words of a slot.
pub const SLOT: usize = 8;

// Where there is no node, no link or no entry: a number and no Option, since it stands in words of areas
// that are lent from C.
pub const NOTHING: u32 = 0xffff_ffff;

// The number that a word holds, none for NOTHING.
pub fn number_in(word: u32) -> Option<u32>
    ensures { result ≡ number_in word }
{
    (word != NOTHING).then_some(word)
}

// Leaves the first slots zero, so that nothing of a run remains. The count goes beside the area, which
// is lent from C and may be longer.
pub fn clear(work: &mut [u32], slots: u32)
    requires { slot_length * slots ≤ length work.old }
    ensures { work.new ≡ cleared slots work.old }
{
    let end = SLOT * (slots as usize);
    work[..end].fill(0);
}
