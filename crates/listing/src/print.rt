// The whole text that the listing program prints, in a byte area; the areas for the list are on the
// stack.
ghost use Rattle.std.specs.Prelude.{◌≡◌, ℕ, ◌≤◌, ◌<◌, [], length, get_or, MatchResult};
ghost use Rattle.io.specs.Counts.{IsPrefixLen};
ghost use Rattle.sheet.specs.Refusals.{number_of, number_in};
ghost use Rattle.shortest_path.specs.Outcome.{tested_number};
ghost use Rattle.decimals.specs.Stored.{Puts};
ghost use Rattle.read_back.specs.Promise.{IsAnswer};
ghost use Rattle.listing.specs.Printed.{sheet_most, list_most, text_most, listing_number, listed_text, printing_number, printing_text, printed};

use crate::text::{Page, put_first_line, put_line, put_refused};
use decimals::write;
use list_answer::Listed;
use machine::climbing::Machine;
use read_back::count::count_readings;
use read_back::reading::reading;
use sheet::refusal::Refusal;
use tropical_weight::LIST_LIMIT;

// The most bytes of a sheet, and the largest n, that the areas are long enough for.
const SHEET_MOST: usize = 4096;

const LIST_MOST: u32 = 4;

// The words of the work area, the bytes of the result area, and the nodes of such a sheet, at the most: a
// reading has fewer links.
const WORK: usize = 10240;

const RESULT: usize = 36864;

const RUN: usize = 340;

// The list for n of a sheet, in the result of the call for lists, with what it told.
#[derive(Clone, Copy)]
struct List<'a> {
    sheet: &'a [u8],
    n: u32,
    res: &'a [u8],
    made: Listed,
    ghost bytes: { (i : ℕ) → get_or sheet.now i 0 < 256 },
    ghost answer: { IsAnswer sheet.now n res.now made.nodes made.links },
    ghost short: { length sheet.now ≤ sheet_most },
    ghost few: { n ≤ list_most },
}

impl<'a> List<'a> {
    ghost use Rattle.std.specs.Prelude.{◌++◌, ◌+◌};
    ghost use Rattle.sheet.specs.Machine.{machine as machine_for};
    ghost use Rattle.listing.specs.Text.{first_line};
    ghost use Rattle.listing.specs.Printed.{line_most, list_for, reading_line, reading_lines};

    // The line of reading k, from 0.
    fn put_reading(&self, k: u32, page: &mut Page)
        requires inside { k < length (list_for (machine_for self.now.sheet.now) self.now.n) }
        requires room { length page.old + line_most ≤ text_most }
        ensures text { page.new ≡ page.old ++ reading_line (machine_for self.now.sheet.now) (k + 1) (get_or (list_for (machine_for self.now.sheet.now) self.now.n) k []) }
        ensures upper_bound { length page.new ≤ length page.old + line_most }
    {
        let mut run = [0u32; RUN];
        let (nodes, links) = (self.made.nodes, self.made.links);
        // it is never refused: the list has the reading, and the area has room
        if let Ok(told) = reading(self.sheet, self.n, self.res, nodes, links, k, &mut run) {
            put_line(
                page,
                self.sheet,
                &run[..told.links as usize],
                k + 1,
                told.cost,
            );
        }
    }

    // The text of the list, on an empty page.
    fn put_text(&self, page: &mut Page)
        requires empty { page.old ≡ [] }
        ensures { page.new ≡ first_line (length (list_for (machine_for self.now.sheet.now) self.now.n)) self.now.made.taken ++ reading_lines (machine_for self.now.sheet.now) 1 (list_for (machine_for self.now.sheet.now) self.now.n) }
    {
        let (nodes, links) = (self.made.nodes, self.made.links);
        // nor is it refused how many they are
        if let Ok(count) = count_readings(self.res, self.n, nodes, links) {
            put_first_line(page, count, self.made.taken);
            for k in 0..count {
                self.put_reading(k, page);
            }
        }
    }
}

// Puts the text for a sheet and an n that the areas are long enough for on an empty page, or tells 1, 14 and 2 to 7.
fn list_few(sheet: &[u8], n: u32, page: &mut Page) -> Result<(), Refusal>
    requires few { (n ≤ list_most) × (length sheet.now ≤ sheet_most) }
    requires empty { page.old ≡ [] }
    ensures number { number_in result ≡ listing_number n sheet.now }
    ensures text { MatchResult result (λ _. page.new ≡ listed_text n sheet.now) (λ _. page.new ≡ []) }
{
    let mut work = [0u32; WORK];
    let mut result = [0u8; RESULT];
    let made = shortest_path::shortest_path(sheet, n, &mut work, &mut result)?;
    let list = List {
        sheet,
        n,
        res: &result,
        made,
    };
    list.put_text(page);
    Ok(())
}

// The refusal of an n that there are no areas for, after tests 1, 14 and 2 to 7.
fn refusal(sheet: &[u8], n: u32) -> Refusal
    ensures { number_of result ≡ tested_number sheet.now n 20 }
{
    match Machine::new(sheet) {
        Err(refusal) => refusal,
        Ok(_) => {
            if LIST_LIMIT < n {
                Refusal::Count
            } else {
                Refusal::Work
            }
        }
    }
}

// Puts the list of all that was read, one byte n and then a sheet, on an empty page, or tells why it is refused.
fn list_read(read: &[u8], page: &mut Page) -> Result<(), Refusal>
    requires { page.old ≡ [] }
    ensures number { number_in result ≡ printing_number read.now }
    ensures text { MatchResult result (λ _. page.new ≡ printing_text read.now) (λ _. page.new ≡ []) }
{
    let Some((first, sheet)) = read.split_first() else {
        return Err(Refusal::Layout);
    };
    let n = u32::from(*first);
    if SHEET_MOST < sheet.len() {
        return Err(Refusal::Work);
    }
    if LIST_MOST < n {
        return Err(refusal(sheet, n));
    }
    list_few(sheet, n, page)
}

// The text for all that was read, one byte n and then a sheet; answers its length. One page for all of it: a page that
// is handed on by value is copied whole.
pub fn print(read: &[u8], out: &mut [u8]) -> usize
    requires { text_most ≤ length out.old }
    ensures puts { Puts out.old 0 (printed read.now) out.new result }
    ensures prefix_len { IsPrefixLen result out.new }
{
    let mut page = Page::new();
    if let Err(refusal) = list_read(read, &mut page) {
        put_refused(&mut page, refusal);
    }
    write::put_text(out, 0, page.bytes())
}
