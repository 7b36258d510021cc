// The test of one weight, in its field.
ghost use Rattle.std.specs.Prelude.{◌≡◌};
ghost use Rattle.tropical_weight.specs.Units.{places};
ghost use Rattle.sheet.specs.Sheet.{weight_fits};

use crate::tr::BARRED;
use tropical_weight::shifts::GridShifts;

// Whether a weight's field bars, or is on the grid of the unit.
pub fn weight_fits(shifts: &GridShifts, bits: u32) -> bool
    ensures { result ≡ weight_fits (places shifts.now.unit) bits }
{
    if bits == BARRED {
        return true;
    }
    shifts.on_grid(bits)
}
