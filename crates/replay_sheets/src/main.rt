// Replays the stored sheets, whole and damaged: a line a case on standard input, the number that
// reading must answer (0: accepted), the bytes, the links that a link reader must give one by one
// before it gives none, and what the case is, with a space between. tools/sheet_cases.py made them.
// Prints the lines that differ, and how many there were.
#![tactic(auto)]

ghost use Rattle.std.specs.Prelude.{◌≡◌, true, ◌+◌, ◌≤◌, length};
ghost use Rattle.sheet.specs.Sheet.{link_length};
ghost use Rattle.sheet.specs.Refusals.{number_in};
ghost use Rattle.sheet.specs.Answers.{tested};
ghost use Rattle.replay_sheets.specs.Given.{SameFields, Given, Reads, Holds};

use sheet::reader::Reader;
use sheet::tr::{LINK, Link};
use sheet::words::{WORD, word};
use std::io;
use stored_cases::lines::Line;
use stored_cases::replay::replay;

// The number that reading answers, 0 where it accepts: the line tells it so.
fn answer(sheet: &[u8]) -> u32
    ensures { result ≡ number_in (tested sheet.now) }
{
    match sheet::read::read(sheet) {
        Ok(_) => 0,
        Err(refusal) => u32::from(refusal),
    }
}

// Whether a link has the four fields that stand at an index. By bits and not by ==: a NaN weight equals nothing.
fn same_fields(link: Link, links: &[u8], at: usize) -> bool
    requires { at + link_length ≤ length links.now }
    ensures { result ≡ true → SameFields link links.now at }
{
    link.ilabel == word(links, at)
        && link.olabel == word(links, at + WORD)
        && tropical_weight::to_bits(link.weight) == word(links, at + 2 * WORD)
        && link.nextstate == word(links, at + 3 * WORD)
}

// Whether a reader gave the link whose fields stand at an index, or none where the links end there.
fn given(link: Option<Link>, links: &[u8], at: usize) -> bool
    requires { at ≤ length links.now }
    ensures { result ≡ true → Given link links.now at }
{
    match link {
        Some(link) => LINK <= links.len() - at && same_fields(link, links, at),
        None => links.len() == at,
    }
}

// Whether a link reader gives these links, and then none for good. By number and not by chunks: the
// claim is of link k and the bytes from LINK * k on, and the end must come at such a place too.
fn reads(sheet: &[u8], links: &[u8]) -> bool
    ensures { result ≡ true → Reads sheet.now links.now }
{
    let mut reader = Reader::new(sheet);
    let count = links.len() / LINK;
    for k in 0..count {
        let link = reader.next();
        if !given(link, links, LINK * k) {
            return false;
        }
    }
    let end = reader.next;
    let none = reader.next();
    given(none, links, LINK * count) && reader.next == end
}

// Whether the bytes of a line are read as it says.
fn holds(line: Line<'_>) -> bool
    ensures { result ≡ true → Holds line.entry.text.now }
{
    let mut sheet = [0u8; 256];
    let mut links = [0u8; 256];
    let sheet = line.bytes(1, &mut sheet);
    let links = line.bytes(2, &mut links);
    (answer(sheet) as usize) == line.number(0) && reads(sheet, links)
}

fn main(rt: HostRuntime) -> io::Result<()> {
    replay::<524288, _, _, _>(&rt, &mut rt.stdin(), holds)
}
