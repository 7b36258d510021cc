// Replays the stored runs of the listing program: a line a case on standard input, made by
// tools/listing_cases.py. A line has, with a space between: the bytes read, the text that must be
// printed, and what the case is. Prints the lines that differ, and how many there were.
#![tactic(auto)]

ghost use Rattle.std.specs.Prelude.{◌≡◌, true};
ghost use Rattle.listing.specs.Printed.{printed};
ghost use Rattle.stored_cases.specs.Fields.{rest_of};
ghost use Rattle.stored_cases.specs.Parts.{bytes_told};

use std::io;
use stored_cases::areas;
use stored_cases::areas::RESULT_MARK;
use stored_cases::lines::Line;
use stored_cases::replay::replay;

// Whether the program, reading this, prints this text and nothing more.
fn prints(read: &[u8], text: &[u8]) -> bool
    ensures { result ≡ true → printed read.now ≡ text.now }
{
    let mut out = [RESULT_MARK; 49152];
    let end = listing::print::print(read, &mut out);
    end == text.len() && areas::result_left(&out, text)
}

// Whether the case of a line holds.
fn holds(line: Line<'_>) -> bool
    ensures { result ≡ true → printed (bytes_told (rest_of line.entry.text.now 0) 65536) ≡ bytes_told (rest_of line.entry.text.now 1) 49152 }
{
    let mut read = [0u8; 65536];
    let mut text = [0u8; 49152];
    prints(line.bytes(0, &mut read), line.bytes(1, &mut text))
}

fn main(rt: HostRuntime) -> io::Result<()> {
    replay::<524288, _, _, _>(&rt, &mut rt.stdin(), holds)
}
