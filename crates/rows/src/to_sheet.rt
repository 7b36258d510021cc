// Rows to a sheet: 8, then 1, 4 and 21.
ghost use Rattle.std.specs.Prelude.{◌≡◌, ℕ, ◌+◌, ◌*◌, ◌^◌, ◌<◌, length};
ghost use Rattle.sheet.specs.Sheet.{link_length, node_length, short_trailer};
ghost use Rattle.text_rows.specs.Convert.{sheet_over};
ghost use Rattle.rows.specs.Answers.{sheet_answer, sheet_measured, Made};
ghost use Rattle.rows.specs.Judging.{judged};

use row_filler::fill::fill;
use row_reader::finals::finals_once;
use row_reader::survey::{Survey, start_of, survey_of};
use sheet::form::SHORT_TRAILER;
use sheet::refusal::Refusal;
use sheet::tr::{LINK, LINKS_PAST, NODE};

// What the rows of a text say, after the tests 8, 1 and 4, each over the whole text, in this order.
fn judge(text: &[u8]) -> Result<Survey, Refusal>
    ensures { result ≡ judged text.now }
{
    let Some(s) = survey_of(text) else {
        return Err(Refusal::Rows);
    };
    if !finals_once(text) {
        return Err(Refusal::Rows);
    }
    // N is one more than the highest node, and its field would not hold it.
    if s.highest == u32::MAX {
        return Err(Refusal::Layout);
    }
    if LINKS_PAST <= s.links {
        return Err(Refusal::Layout);
    }
    if !s.passing {
        return Err(Refusal::Weight);
    }
    Ok(s)
}

// The length of a sheet with so many links, this highest node and the shorter trailer.
fn length_of(links: usize, highest: u32) -> usize
    requires { links < 2 ^ 28 }
    ensures { result ≡ link_length * links + node_length * (highest + 1) + short_trailer }
{
    LINK * links + NODE * ((highest as usize) + 1) + SHORT_TRAILER
}

// How many bytes the sheet of these rows has, or the refusal: 8, then 1 and 4.
pub fn sheet_bytes(text: &[u8]) -> Result<usize, Refusal>
    ensures { result ≡ sheet_measured text.now }
{
    let s = judge(text)?;
    Ok(length_of(s.links, s.highest))
}

// Converts rows to a sheet in the result area, which is left alone where they are refused.
pub fn rows_to_sheet(text: &[u8], res: &mut [u8]) -> Result<usize, Refusal>
    ensures value { result ≡ sheet_answer text.now (length res.old) }
    ensures res_after { res.new ≡ sheet_over text.now res.old }
    ensures by_index { (size : ℕ) → result ≡ Ok size → Made text.now size res.new }
{
    let s = judge(text)?;
    let size = length_of(s.links, s.highest);
    if res.len() < size {
        return Err(Refusal::Room);
    }
    fill(text, s.links, s.highest + 1, start_of(text), res);
    Ok(size)
}
