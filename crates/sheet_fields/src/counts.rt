// The counts of a sheet, and its start.
ghost use Rattle.std.specs.Prelude.{◌≡◌};
ghost use Rattle.sheet_fields.specs.Counts.{counts_of};

use machine::finals::count_finals;
use sheet::accepted::Sheet;
use sheet::refusal::Refusal;

// N, T, F and the start's field: the word and no Option, since C is told the word.
#[derive(Clone, Copy)]
pub struct SheetCounts {
    pub nodes: u32,
    pub links: u32,
    pub finals: u32,
    pub start: u32,
}

// Tests 1, 14 and 2 to 4 of a byte string as a sheet, and then its counts.
pub fn counts(sheet: &[u8]) -> Result<SheetCounts, Refusal>
    ensures { result ≡ counts_of sheet.now }
{
    let read = Sheet::new(sheet)?;
    let finals = count_finals(read.bytes, read.links, read.nodes);
    Ok(SheetCounts {
        nodes: read.nodes,
        links: read.links,
        finals,
        start: read.start,
    })
}
