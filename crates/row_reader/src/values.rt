// Numbers and weights of fields. `as` narrows what the clauses bound: TryFrom would have a case that never comes.
ghost use Rattle.std.specs.Prelude.{◌≡◌, ◌∷◌, ◌≤◌, ◌==◌, position};
ghost use Rattle.std.specs.Option.{option_map};
ghost use Rattle.tropical_weight.specs.Limits.{weight_limit};
ghost use Rattle.text_rows.specs.Fields.{number_of, infinity_text, same_text, part_of, magnitude_of, decimal_of, weight_of};
ghost use Rattle.row_reader.specs.Reading.{most_millionths, millionths_held, units_read, signed_by, weight_by, decimal_read, weight_read};

use decimals::read::{HELD, digits_in};
use tropical_weight::{UNITS, WEIGHT_LIMIT};

// How many millionths are 1.
const MILLION: u64 = 1_000_000;

// A node or a label: digits within 32 bits.
pub fn number_in(field: &[u8]) -> Option<u32>
    ensures { result ≡ number_of field.now }
{
    let value = digits_in(field)?;
    u32::try_from(value).ok()
}

// Where the first point stands.
fn point_in(field: &[u8]) -> Option<usize>
    ensures { result ≡ position (λ c. c == 46) field.now }
{
    field.iter().position(|c| *c == b'.')
}

// The most decimals of a weight.
const DECIMALS: usize = 6;

// One to six decimals, in millionths.
fn part_in(decimals: &[u8]) -> Option<u64>
    ensures { result ≡ part_of (46 ∷ decimals.now) }
{
    let n = decimals.len();
    if DECIMALS < n {
        return None;
    }
    let value = digits_in(decimals)?;
    Some(value * 10u64.pow((DECIMALS - n) as u32))
}

// Digits, and perhaps a point and one to six digits: so many millionths, held where the ones are more than any weight has.
fn millionths_in(field: &[u8]) -> Option<u64>
    ensures { result ≡ millionths_held (magnitude_of field.now) }
{
    let Some(p) = point_in(field) else {
        let whole = digits_in(field)?;
        return Some(whole * MILLION);
    };
    let whole = digits_in(&field[..p])?;
    let part = part_in(&field[p + 1..])?;
    let all = whole * MILLION + part;
    Some(all.min(HELD * MILLION))
}

// So many millionths in units: none off the grid or past the limit.
fn units_in(millionths: u64) -> Option<u32>
    requires { millionths ≤ most_millionths }
    ensures { result ≡ units_read millionths }
{
    let scaled = millionths * u64::from(UNITS);
    if scaled % MILLION != 0 {
        return None;
    }
    let units = scaled / MILLION;
    if u64::from(WEIGHT_LIMIT) < units {
        return None;
    }
    Some(units as u32)
}

// A weight: a whole number of units within the limit, infinity, or one off the grid or past the limit.
#[derive(Clone, Copy, Debug, PartialEq, Eq)]
pub enum Weight {
    Units(i32),
    Barred,
    Off,
}

// So many units, by their sign.
fn by_sign(minus: bool, units: u32) -> i32
    requires { units ≤ weight_limit }
    ensures { result ≡ signed_by minus units }
{
    if minus { -(units as i32) } else { units as i32 }
}

// So many millionths, by their sign. It goes beside them: the grid and the limit are tested without it, so that
// a signed number would be split again.
fn weight_of(minus: bool, millionths: u64) -> Weight
    requires { millionths ≤ most_millionths }
    ensures { result ≡ weight_by minus (units_read millionths) }
{
    match units_in(millionths) {
        Some(units) => Weight::Units(by_sign(minus, units)),
        None => Weight::Off,
    }
}

// The weight of a field that is not infinity.
fn decimal_in(field: &[u8]) -> Option<Weight>
    ensures { result ≡ option_map decimal_read (decimal_of field.now) }
{
    if field.first() == Some(&b'-') {
        let millionths = millionths_in(&field[1..])?;
        return Some(weight_of(true, millionths));
    }
    let millionths = millionths_in(field)?;
    Some(weight_of(false, millionths))
}

// How infinity is written.
const INFINITY: [u8; 8] = *b"Infinity";

// Whether a field is infinity.
fn is_infinity(field: &[u8]) -> bool
    ensures { result ≡ same_text field.now infinity_text }
{
    field == INFINITY.as_slice()
}

// The weight of a field.
pub fn weight_in(field: &[u8]) -> Option<Weight>
    ensures { result ≡ option_map weight_read (weight_of field.now) }
{
    if is_infinity(field) {
        return Some(Weight::Barred);
    }
    decimal_in(field)
}
