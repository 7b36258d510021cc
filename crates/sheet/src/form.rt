// The form of a sheet: how it ends, and so the unit of its weights.
ghost use Rattle.std.specs.Prelude.{◌≡◌, ◌≤◌, ◌*◌, ◌+◌, length};
ghost use Rattle.tropical_weight.specs.Units.{places};
ghost use Rattle.sheet.specs.Words.{word_length};
ghost use Rattle.sheet.specs.Sheet.{short_trailer, trailer_length, unit_of, unit_fits, field_back, laid_out, form_of};

use crate::tr::{LINK, NODE};
use crate::words::{WORD, word};
use tropical_weight::unit::Unit;

// In a trailer of five fields, where the weights are in 64ths; or of six, the last the unit, as it stands.
#[derive(Clone, Copy)]
pub enum Form {
    Short,
    Long(u32),
}

// The bytes of the two trailers.
pub const SHORT_TRAILER: usize = 20;

pub const LONG_TRAILER: usize = 24;

impl Form {
    // The bytes of the trailer.
    pub fn trailer(&self) -> usize
        ensures { result ≡ trailer_length self.now }
    {
        match *self {
            Form::Short => SHORT_TRAILER,
            Form::Long(_) => LONG_TRAILER,
        }
    }

    // Test 14.
    pub fn fits(&self) -> bool
        ensures { result ≡ unit_fits self.now }
    {
        match *self {
            Form::Short => true,
            Form::Long(unit) => unit == Unit::Of64.count() || unit == Unit::Of256.count(),
        }
    }

    // The unit of the weights; one that test 14 refuses counts as 64.
    pub fn unit(&self) -> Unit
        ensures { places result ≡ unit_of self.now }
    {
        match *self {
            Form::Short => Unit::Of64,
            Form::Long(unit) => {
                if unit == Unit::Of256.count() {
                    Unit::Of256
                } else {
                    Unit::Of64
                }
            }
        }
    }
}

// Field number i of a trailer of so many bytes.
fn field_back(sheet: &[u8], size: usize, i: usize) -> u32
    requires { (size ≤ length sheet.now) × (word_length * i + word_length ≤ size) }
    ensures { result ≡ field_back size sheet.now i }
{
    word(sheet, sheet.len() - size + WORD * i)
}

// Whether length and offsets are as laid out with a trailer of so many bytes.
fn laid_out(sheet: &[u8], size: usize) -> bool
    requires { short_trailer ≤ size }
    ensures { result ≡ laid_out size sheet.now }
{
    if sheet.len() < size {
        return false;
    }
    if field_back(sheet, size, 0) != 0 {
        return false;
    }
    let links = field_back(sheet, size, 3) as usize;
    if field_back(sheet, size, 1) as usize != LINK * links {
        return false;
    }
    let nodes = field_back(sheet, size, 2) as usize;
    sheet.len() == LINK * links + NODE * nodes + size
}

// The form of a byte string: short, unless it is laid out under the longer trailer.
pub fn form_of(sheet: &[u8]) -> Form
    ensures { result ≡ form_of sheet.now }
{
    if laid_out(sheet, LONG_TRAILER) {
        Form::Long(field_back(sheet, LONG_TRAILER, 5))
    } else {
        Form::Short
    }
}
