// Reading digits.
ghost use Rattle.std.specs.Prelude.{◌≡◌, true, ◌^◌, ◌≤◌};
ghost use Rattle.decimals.specs.Decimal.{is_digit, with_digit, digits_of};
ghost use Rattle.decimals.specs.Held.{held, digits_held};

// Past every number of 32 bits. What is above is held here, so that any number of digits can be read.
pub const HELD: u64 = 0x1_0000_0000;

// A digit more.
fn with_digit(value: u64, c: u8) -> u64
    requires { (value ≤ 2 ^ 32) × (is_digit c ≡ true) }
    ensures { result ≡ held (with_digit value c) }
{
    let more = 10 * value + u64::from(c - b'0');
    more.min(HELD)
}

// The value of a field of digits, held to HELD where it is more; none where it has no byte or another among them.
pub fn digits_in(field: &[u8]) -> Option<u64>
    ensures { result ≡ digits_held (digits_of field.now) }
{
    if field.is_empty() {
        return None;
    }
    let mut value = 0u64;
    for c in field {
        if !c.is_ascii_digit() {
            return None;
        }
        value = with_digit(value, *c);
    }
    Some(value)
}
