// Bytes in hexadecimal (-: none): *bbcccccc repeats the last bb of them over cccccc bytes, and +bbcccccc
// too, with the last word one higher each time. They end at the first character that begins none.
ghost use Rattle.std.specs.Prelude.{◌≡◌, ◌+◌, ◌≤◌, ◌<◌, length, take, IfSome};
ghost use Rattle.io.specs.Counts.{IsPrefixLen};
ghost use Rattle.stored_cases.specs.Parts.{pair_behind, part_at, size_of, bytes_told};

use crate::filled::Filled;
use crate::hex::{byte_of, digit_of};

// What a text puts behind the bytes that are there: a byte, nothing for a digit alone, or `more`
// bytes by the last `back` of them.
#[derive(Clone, Copy)]
pub enum Part {
    Byte(u8),
    Nothing,
    Again { back: usize, more: usize },
    Raised { back: usize, more: usize },
}

// The byte behind so many characters, two digits, or 256 where they are none.
fn byte_behind(text: &[u8], at: usize) -> usize
    ensures value { result ≡ pair_behind text.now at }
    ensures most { result ≤ 256 }
{
    let pair = text.get(at..).unwrap_or(&[]);
    byte_of(pair).map_or(256, |b| usize::from(b))
}

impl Part {
    // The part that a text begins with.
    pub fn of(text: &[u8]) -> Option<Part>
        ensures value { result ≡ part_at text.now }
        ensures some { IfSome result (λ part. 0 < length text.now) }
    {
        let (mark, rest) = text.split_first()?;
        if *mark != b'*' && *mark != b'+' {
            digit_of(*mark)?;
            return Some(byte_of(text).map_or(Part::Nothing, |b| Part::Byte(b)));
        }
        let back = byte_behind(rest, 0);
        let high = byte_behind(rest, 2);
        let mid = byte_behind(rest, 4);
        let low = byte_behind(rest, 6);
        let more = 65536 * high + 256 * mid + low;
        Some(if *mark == b'+' {
            Part::Raised { back, more }
        } else {
            Part::Again { back, more }
        })
    }

    // How many characters it has.
    pub fn size(self) -> usize
        ensures value { result ≡ size_of self }
        ensures some { 0 < result }
    {
        match self {
            Part::Nothing | Part::Byte(_) => 2,
            _ => 9,
        }
    }
}

// Puts the bytes that a text begins with into out, and counts them.
pub fn bytes_of(text: &[u8], out: &mut [u8]) -> usize
    ensures prefix { IsPrefixLen result out.new }
    ensures value { take result out.new ≡ bytes_told text.now (length out.old) }
{
    let mut filled = Filled {
        area: out,
        count: 0,
    };
    filled.put_text(text);
    filled.count
}
