// Text in a byte area: each function stores a text from a place on, and answers where it ends.
// The area is the caller's, and so the place goes along with it.
ghost use Rattle.std.specs.Prelude.{◌≡◌, ◌+◌, ◌≤◌, length};
ghost use Rattle.decimals.specs.Decimal.{decimal};
ghost use Rattle.decimals.specs.Stored.{Puts};

// Copies a text to its place.
pub fn put_text(out: &mut [u8], at: usize, text: &[u8]) -> usize
    requires { at + length text.now ≤ length out.old }
    ensures { Puts out.old at text.now out.new result }
{
    let end = at + text.len();
    out[at..end].copy_from_slice(text);
    end
}

// A number in decimal.
pub fn put_decimal(out: &mut [u8], at: usize, x: u32) -> usize
    requires { at + 10 ≤ length out.old }
    ensures puts { Puts out.old at (decimal x) out.new result }
    ensures upper_bound { result ≤ at + 10 }
{
    let mut digits = [0u8; 20];
    let k = io::decimal(u64::from(x), &mut digits);
    put_text(out, at, &digits[..k])
}

// How long a number is in decimal: its text is not kept, so that none is made.
pub fn decimal_length(x: u32) -> usize
    ensures value { result ≡ length (decimal x) }
    ensures upper_bound { result ≤ 10 }
{
    let mut digits = [0u8; 20];
    io::decimal(u64::from(x), &mut digits)
}
