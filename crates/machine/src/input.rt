// The trailer of a sheet that passes tests 1, 14 and 2 to 6.
ghost use Rattle.std.specs.Prelude.{◌≡◌};
ghost use Rattle.machine.specs.Answers.{input_answer};

use crate::climbing::Machine;
use sheet::refusal::Refusal;
use sheet::tr::{Trailer, trailer_of};

// Tests 1, 14 and 2 to 6 of a byte string as a sheet. No call of the library: a public function, as the documents have
// it; calls go by Machine.
pub fn input(sheet: &[u8]) -> Result<Trailer, Refusal>
    ensures { result ≡ input_answer sheet.now }
{
    Machine::new(sheet)?;
    Ok(trailer_of(sheet))
}
