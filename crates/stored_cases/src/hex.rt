// Bytes in hexadecimal.
ghost use Rattle.std.specs.Prelude.{◌≡◌, ◌≤◌, ◌<◌, cond, Some, None, length, IfSome};
ghost use Rattle.std.specs.Char.{digit_value};
ghost use Rattle.stored_cases.specs.Digits.{is_hex, byte_at};

// The value of a hexadecimal digit, in lower case alone: the library reads upper case too.
pub fn digit_of(c: u8) -> Option<u32>
    ensures { result ≡ cond (is_hex c) (Some (digit_value c)) None }
{
    if c.is_ascii_uppercase() {
        return None;
    }
    char::from(c).to_digit(16)
}

// The byte that a text begins with, two digits. `as`, since two digits are a byte: TryFrom would have a case that
// never comes.
pub fn byte_of(text: &[u8]) -> Option<u8>
    ensures fits { IfSome result (λ b. (b < 256) × (2 ≤ length text.now)) }
    ensures value { result ≡ byte_at text.now }
{
    let (high, rest) = text.split_first()?;
    let low = rest.first()?;
    let high = digit_of(*high)?;
    let low = digit_of(*low)?;
    Some((16 * high + low) as u8)
}
