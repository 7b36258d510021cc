// The rows of a sheet, measured and stored. Each row is made in an area of its own, so that both share the functions that
// make rows.
ghost use Rattle.std.specs.Prelude.{◌≡◌, true, ◌+◌, ◌*◌, ◌≤◌, length, None, IfSome};
ghost use Rattle.std.proofs.lemmas.List.Edits.{sets};
ghost use Rattle.sheet.specs.Sheet.{parts_of};
ghost use Rattle.sheet.specs.declared.form.Form.{Form};
ghost use Rattle.sheet.specs.Records.{count_at};
ghost use Rattle.decimals.specs.Stored.{Puts};
ghost use Rattle.text_rows.specs.Written.{node_rows, text_of, has_rows};
ghost use Rattle.row_writer.specs.Room.{row_most};

use crate::row_text::{final_length, final_row, link_length, link_row};
use decimals::write::put_text;
use sheet::accepted::Sheet;
use sheet::source::{Source, Sources};

// How long the rows of a node are.
fn length_of(source: &Source) -> usize
    requires { source.now.sheet.form ≡ Form.Short }
    ensures value { result ≡ length (node_rows (parts_of source.now.sheet.bytes.now) source.now.node) }
    ensures upper_bound { result ≤ row_most * count_at source.now.sheet.bytes.now source.now.sheet.links source.now.node + row_most }
{
    let mut size = final_length(&source.sheet, source.node);
    for i in 0..source.count() {
        size += link_length(&source.sheet, source.node, source.first + i);
    }
    size
}

// Stores the rows of a node: its links in their order, then its final row.
// The area is the caller's, and the text has to lie in it: that is why a place goes along with it here.
fn put(source: &Source, res: &mut [u8], at: usize) -> usize
    requires short { source.now.sheet.form ≡ Form.Short }
    requires text_in_bounds { at + length (node_rows (parts_of source.now.sheet.bytes.now) source.now.node) ≤ length res.old }
    ensures { Puts res.old at (node_rows (parts_of source.now.sheet.bytes.now) source.now.node) res.new result }
{
    let mut next = at;
    for i in 0..source.count() {
        let row = link_row(&source.sheet, source.node, source.first + i);
        next = put_text(res, next, row.bytes());
    }
    put_text(res, next, final_row(&source.sheet, source.node).bytes())
}

// The start, where it is a node: its links begin where those of the nodes before it end.
fn start_of<'a>(sheet: &Sheet<'a>) -> Option<Source<'a>>
    ensures same { IfSome result (λ s. (s.sheet ≡ sheet.now) × (s.node ≡ sheet.now.start)) }
    ensures none { result ≡ None → sheet.now.nodes ≤ sheet.now.start }
{
    for source in Sources::new(sheet) {
        if source.node == sheet.start {
            return Some(source);
        }
    }
    None
}

// How long the text is: the rows of all nodes.
pub fn text_length(sheet: &Sheet) -> usize
    requires { has_rows (parts_of sheet.now.bytes.now) ≡ true }
    ensures { result ≡ length (text_of (parts_of sheet.now.bytes.now)) }
{
    let mut size = 0;
    for source in Sources::new(sheet) {
        size += length_of(&source);
    }
    size
}

// Stores the text: the start's rows, then those of the others by rising node.
pub fn put_rows(sheet: &Sheet, res: &mut [u8])
    requires rows { has_rows (parts_of sheet.now.bytes.now) ≡ true }
    requires text_in_bounds { length (text_of (parts_of sheet.now.bytes.now)) ≤ length res.old }
    ensures { res.new ≡ sets res.old 0 (text_of (parts_of sheet.now.bytes.now)) }
{
    // a sheet that has rows has a start
    let Some(start) = start_of(sheet) else {
        return;
    };
    let mut next = put(&start, res, 0);
    for source in Sources::new(sheet) {
        if source.node != start.node {
            next = put(&source, res, next);
        }
    }
}
