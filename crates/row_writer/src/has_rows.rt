// Which sheets have rows: those of the shorter trailer whose start is named first, and whose last node is named somewhere.
ghost use Rattle.std.specs.Prelude.{◌≡◌, ◌<◌};
ghost use Rattle.sheet.specs.Sheet.{parts_of};
ghost use Rattle.text_rows.specs.Written.{has_own, is_led, has_rows};

use sheet::accepted::Sheet;
use sheet::form::Form;

// A link or a mark.
fn has_own(sheet: &Sheet, v: u32) -> bool
    requires { v < sheet.now.nodes }
    ensures { result ≡ has_own (parts_of sheet.now.bytes.now) v }
{
    sheet.count(v) != 0 || sheet.final_bits(v).is_some()
}

// A link to node v.
fn is_led(sheet: &Sheet, v: u32) -> bool
    ensures { result ≡ is_led (parts_of sheet.now.bytes.now) v }
{
    for l in 0..sheet.links {
        if sheet.next(l) == v {
            return true;
        }
    }
    false
}

// Whether a sheet ends in the trailer that rows serve, and its text can name its start first, and all its nodes.
pub fn has_rows(sheet: &Sheet) -> bool
    ensures { result ≡ has_rows (parts_of sheet.now.bytes.now) }
{
    let Form::Short = sheet.form else {
        return false;
    };
    let Some(start) = sheet.start() else {
        return false;
    };
    let last = sheet.nodes - 1;
    has_own(sheet, start) && (has_own(sheet, last) || is_led(sheet, last))
}
