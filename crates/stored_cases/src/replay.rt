// The replay of stored cases, a line each, by what a program tests of one.
ghost use Rattle.std.specs.Prelude.{◌≡◌, ◌^◌, ◌<◌, length};
ghost use Rattle.std.specs.List.{before_first, after_first};
ghost use Rattle.stored_cases.specs.Fields.{is_end};

use crate::input::{read_full, zeros};
use crate::lines::Line;
use crate::tally::Tally;
use std::io;
use std::io::Read;

// The first line of a text, and what is behind it.
fn split_line(text: &[u8]) -> (&[u8], &[u8])
    requires { 0 < length text.now }
    ensures line { result.0.now ≡ before_first is_end text.now }
    ensures rest { result.1.now ≡ after_first is_end text.now }
    ensures shorter { length result.1.now < length text.now }
{
    match text.iter().position(|c| *c == b'\n') {
        Some(end) => (&text[..end], &text[end + 1..]),
        None => (text, &[]),
    }
}

// Replays each line of a text: prints the numbers of those whose case does not hold, and the tally. No
// clause says it, since the library promises nothing of what `println` prints.
fn replay_text<P: Print, F: Fn(Line<'_>) -> bool>(rt: &P, text: &[u8], holds: F) -> io::Result<()>
    requires { F.IsAlwaysCallable holds }
{
    let mut told = Tally::new();
    let mut rest = text;
    // A while: a `for` over `split_inclusive` in a generic function is refused by today's check.
    while !rest.is_empty() {
        let (line, after) = split_line(rest);
        let held = holds(Line { text: line });
        told.count(held);
        if !held {
            println!(rt; "differs: line {}", told.cases)?;
        }
        rest = after;
    }
    println!(rt; "{told}")
}

// Replays the first N bytes of what there is to read, as `replay_text` does: what it prints is its whole
// answer, of which no clause can speak.
pub fn replay<const N: usize, P: Print, R: Read, F: Fn(Line<'_>) -> bool>(
    rt: &P,
    input: &mut R,
    holds: F,
) -> io::Result<()>
    requires size { N < 2 ^ 63 }
    requires callable { F.IsAlwaysCallable holds }
{
    let mut text = zeros::<N>();
    let n = read_full(input, &mut text)?;
    replay_text(rt, &text[..n], holds)
}
