// The grid test by a table of shifts.

ghost use Rattle.std.specs.Prelude.{◌≡◌, ◌<◌};
ghost use Rattle.tropical_weight.specs.Limits.{weight_limit};
ghost use Rattle.tropical_weight.specs.Limits as Limits;
ghost use Rattle.tropical_weight.specs.Grid.{grid_bits, grid_shift, significand, ShiftTable};
ghost use Rattle.tropical_weight.specs.Units.{places};

use crate::unit::Unit;
use crate::{UNIT, WEIGHT_LIMIT};

// The exponent's field of the values from 2 ^ 23 64ths up to 2 ^ 24, whose last digit is a 64th.
const LAST_IS_UNIT: u32 = 150 - UNIT;

// For each exponent's field how many low digits of a significand lie below a 64th: 144 less the
// field, held between 0 and 24. In a finer unit a field's shift is that of a later one.
pub const SHIFTS: [u8; 256] = [
    24, 24, 24, 24, 24, 24, 24, 24, 24, 24, 24, 24, 24, 24, 24, 24, 24, 24, 24, 24, 24, 24, 24, 24,
    24, 24, 24, 24, 24, 24, 24, 24, 24, 24, 24, 24, 24, 24, 24, 24, 24, 24, 24, 24, 24, 24, 24, 24,
    24, 24, 24, 24, 24, 24, 24, 24, 24, 24, 24, 24, 24, 24, 24, 24, 24, 24, 24, 24, 24, 24, 24, 24,
    24, 24, 24, 24, 24, 24, 24, 24, 24, 24, 24, 24, 24, 24, 24, 24, 24, 24, 24, 24, 24, 24, 24, 24,
    24, 24, 24, 24, 24, 24, 24, 24, 24, 24, 24, 24, 24, 24, 24, 24, 24, 24, 24, 24, 24, 24, 24, 24,
    24, 23, 22, 21, 20, 19, 18, 17, 16, 15, 14, 13, 12, 11, 10, 9, 8, 7, 6, 5, 4, 3, 2, 1, 0, 0, 0,
    0, 0, 0, 0, 0, 0, 0, 0, 0, 0, 0, 0, 0, 0, 0, 0, 0, 0, 0, 0, 0, 0, 0, 0, 0, 0, 0, 0, 0, 0, 0, 0,
    0, 0, 0, 0, 0, 0, 0, 0, 0, 0, 0, 0, 0, 0, 0, 0, 0, 0, 0, 0, 0, 0, 0, 0, 0, 0, 0, 0, 0, 0, 0, 0,
    0, 0, 0, 0, 0, 0, 0, 0, 0, 0, 0, 0, 0, 0, 0, 0, 0, 0, 0, 0, 0, 0, 0, 0, 0, 0, 0, 0, 0, 0, 0, 0,
    0, 0, 0, 0, 0, 0, 0, 0, 0, 0, 0, 0, 0,
];

// The table, by which weights are tested. A constant array is laid out anew wherever it is read, so that
// a loop over weights makes this once.
#[derive(Clone, Copy)]
pub struct GridShifts {
    pub table: [u8; 256],
    pub unit: Unit,
    pub ghost rule: { ShiftTable Limits.unit table },
}

// The 24 digits of a finite value, by its exponent's field and its stored digits.
#[tactic(auto, unfolding(crate::specs::Grid::significand))]
fn significand_of(exponent: u32, digits: u32) -> u32
    requires { digits < 0x80_0000 }
    ensures { result ≡ significand exponent digits }
{
    if exponent == 0 {
        digits
    } else {
        0x80_0000 + digits
    }
}

impl GridShifts {
    pub fn new(unit: Unit) -> GridShifts
        ensures { result.unit ≡ unit }
    {
        GridShifts {
            table: SHIFTS,
            unit,
        }
    }

    // How many low digits of a significand lie below a 64th, held between 0 and 24.
    pub fn shift(&self, exponent: u32) -> u32
        requires { exponent < 256 }
        ensures { result ≡ grid_shift Limits.unit exponent }
    {
        u32::from(self.table[exponent as usize])
    }

    // The grid test of one of many weights.
    pub fn on_grid(&self, bits: u32) -> bool
        ensures { result ≡ grid_bits (places self.now.unit) weight_limit bits }
    {
        let exponent = bits / 0x80_0000 % 0x100;
        let finer = self.unit.finer();
        if LAST_IS_UNIT - finer < exponent {
            return false;
        }
        let digits = significand_of(exponent, bits % 0x80_0000);
        let shift = self.shift(exponent + finer);
        let units = digits >> shift;
        if units << shift != digits {
            return false;
        }
        if WEIGHT_LIMIT < units {
            return false;
        }
        bits != 0x8000_0000
    }
}
