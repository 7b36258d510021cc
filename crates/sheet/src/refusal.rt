// The refusals, each with its condition. Documents 01 and 02 give the numbers; 30 and 31 are our own.
ghost use Rattle.std.specs.Prelude.{◌≡◌};

use std::error::Error;
use std::fmt;

#[derive(Clone, Copy, Debug, PartialEq, Eq)]
pub enum Refusal {
    // Length, offsets, a count or offset too big for its field, marks, an absent final's weight field
    // or the sum of link counts is not as laid out.
    Layout = 1,
    // The start is neither below N nor none.
    Start = 2,
    // A next node is not below N.
    Next = 3,
    // A weight is neither on the grid nor barred.
    Weight = 4,
    // More nodes or links than the limits.
    Limits = 5,
    // A link does not lead to a higher node.
    Climb = 6,
    // More readings are asked for than the limit.
    Count = 7,
    // A text has no rows, has a row that cannot be read, or has a second final row for a node.
    Rows = 8,
    // A sheet has no rows.
    NoRows = 9,
    // An input label is 0, or is not the output label.
    Labels = 10,
    // What two sheets both allow has more nodes or links than the limits.
    Product = 11,
    // The sum of two weights is finite and off the grid.
    Sum = 12,
    // A machine does not narrow to the node.
    Narrow = 13,
    // The unit is neither 64 nor 256, or that of a second sheet is not the first's.
    Unit = 14,
    // The work area is shorter than needed.
    Work = 20,
    // The result area is shorter than this very answer.
    Room = 21,
    // A queue's record is not valid, or a node is put in that is too high for it.
    Queue = 22,
    // An area holds no answer.
    NoAnswer = 30,
    // The answer has no such node, link or reading.
    Absent = 31,
}

impl From<Refusal> for u32 {
    ghost use Rattle.sheet.specs.Refusals.{number_of};

    ghost from_gives = { λ r k. k ≡ number_of r };

    fn from(refusal: Refusal) -> u32
        ensures { result ≡ number_of refusal }
    {
        refusal as u32
    }
}

impl fmt::Display for Refusal {
    fn fmt<W: fmt::Write>(&self, f: &mut fmt::Formatter<W>) -> fmt::Result {
        write!(f, "refused {}", u32::from(*self))
    }
}

impl Error for Refusal {}
