// The unit of a sheet's weights.
ghost use Rattle.std.specs.Prelude.{◌≡◌};
ghost use Rattle.sheet_fields.specs.Units.{unit_told};

use sheet::accepted::Sheet;
use sheet::refusal::Refusal;

// Tests 1, 14 and 2 to 4 of a byte string as a sheet, and then how many of its units are 1: 64 or 256.
pub fn unit(sheet: &[u8]) -> Result<u32, Refusal>
    ensures { result ≡ unit_told sheet.now }
{
    let read = Sheet::new(sheet)?;
    Ok(read.unit().count())
}
