// A sheet to rows: 1, 14 and 2 to 4, then 9 and 21.
ghost use Rattle.std.specs.Prelude.{◌≡◌, ℕ, true, length, MatchResult};
ghost use Rattle.sheet.specs.Refusals.{number_of};
ghost use Rattle.sheet.specs.Sheet.{parts_of};
ghost use Rattle.text_rows.specs.Written.{has_rows, text_number, text_over};
ghost use Rattle.rows.specs.Answers.{text_answer, text_measured, Returned, NoText};

use row_writer::has_rows::has_rows;
use row_writer::sheet_text::{put_rows, text_length};
use sheet::accepted::Sheet;
use sheet::refusal::Refusal;

// A sheet that has rows: refused are 1, 14 and 2 to 4, then 9.
fn with_rows<'a>(bytes: &'a [u8]) -> Result<Sheet<'a>, Refusal>
    ensures { MatchResult result (λ s. (s.bytes.now ≡ bytes.now) × (has_rows (parts_of bytes.now) ≡ true)) (λ r. (room : ℕ) → text_number bytes.now room ≡ number_of r) }
{
    let sheet = Sheet::new(bytes)?;
    if !has_rows(&sheet) {
        return Err(Refusal::NoRows);
    }
    Ok(sheet)
}

// How many bytes the text of a sheet has, or the refusal: 1, 14 and 2 to 4, then 9.
pub fn rows_bytes(sheet: &[u8]) -> Result<usize, Refusal>
    ensures { result ≡ text_measured sheet.now }
{
    let read = with_rows(sheet)?;
    Ok(text_length(&read))
}

// Writes the text of a sheet at the front of the result area, which no refusal changes.
pub fn sheet_to_rows(sheet: &[u8], res: &mut [u8]) -> Result<usize, Refusal>
    ensures value { result ≡ text_answer sheet.now (length res.old) }
    ensures res_after { res.new ≡ text_over sheet.now res.old }
    ensures by_index { (size : ℕ) → result ≡ Ok size → Returned sheet.now size res.new }
    ensures no_text { result ≡ Err Refusal.NoRows → NoText sheet.now }
{
    let read = with_rows(sheet)?;
    let size = text_length(&read);
    if res.len() < size {
        return Err(Refusal::Room);
    }
    put_rows(&read, res);
    Ok(size)
}
