// Reading a sheet: tests 1, 14 and 2 to 4, each over the whole sheet, in their order.
ghost use Rattle.std.specs.Prelude.{◌≡◌, ◌&&◌, ◌*◌, eqb};
ghost use Rattle.sheet.specs.Sheet.{link_length, sheet_size};
ghost use Rattle.sheet.specs.Answers.{tested};

use crate::field::Bytes;
use crate::refusal::Refusal;
use crate::tests::{judge, test_links, test_nodes};
use crate::tr::{LINK, NODE, Trailer, stated_trailer};

// Offsets and length as laid out.
fn sizes_fit(t: Trailer, bytes: usize) -> bool
    ensures { result ≡ eqb t.link_offset 0 && eqb t.node_offset (link_length * t.links) && eqb bytes (sheet_size t.form t.links t.nodes) }
{
    let links = t.links as usize;
    let nodes = t.nodes as usize;
    if t.link_offset != 0 {
        return false;
    }
    if (t.node_offset as usize) != LINK * links {
        return false;
    }
    bytes == LINK * links + NODE * nodes + t.form.trailer()
}

// Tests a byte string as a sheet.
pub fn read(sheet: &[u8]) -> Result<Trailer, Refusal>
    ensures { result ≡ tested sheet.now }
{
    let Some(t) = stated_trailer(sheet) else {
        return Err(Refusal::Layout);
    };
    if !sizes_fit(t, sheet.len()) {
        return Err(Refusal::Layout);
    }
    let nodes = &sheet[LINK * (t.links as usize)..];
    let unit = t.form.unit();
    let n = test_nodes(&Bytes { bytes: nodes }, t.nodes, unit);
    let l = test_links(&Bytes { bytes: sheet }, t.links, t.nodes, unit);
    judge(n, l, t.links, t.nodes, t.start, t.form)?;
    Ok(t)
}
