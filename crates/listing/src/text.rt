// The lines of a listing: each function puts its text behind what a page holds already. By hand, and not
// by Display: the clauses state the bytes.
ghost use mathlib.Core.List.{flat_map};
ghost use Rattle.std.specs.Prelude.{◌≡◌, ℕ, ◌+◌, ◌*◌, ◌≤◌, ◌<◌, ◌++◌, length, get_or};
ghost use Rattle.sheet.specs.Sheet.{link_length};
ghost use Rattle.sheet.specs.Refusals.{number_of};
ghost use Rattle.listing.specs.Printed.{text_most};
ghost use Rattle.listing.specs.Text.{signed, first_line, refused_line, label_text, labels_of, line_of};

use decimals::text::Text;
use sheet::refusal::Refusal;
use sheet::tr::LINK;

// The text of a listing as it is made, in an area that every listing fits in.
pub type Page = Text<49152>;

// A cost in decimal, with a minus sign where negative.
pub fn put_cost(page: &mut Page, cost: i32)
    requires { length page.old + 11 ≤ text_most }
    ensures text { page.new ≡ page.old ++ signed cost }
    ensures upper_bound { length page.new ≤ length page.old + 11 }
{
    page.put_sign(cost);
    page.put_decimal(tropical_weight::magnitude(cost));
}

// The first line: how many readings are listed, and how many entries were taken.
pub fn put_first_line(page: &mut Page, readings: u32, taken: u32)
    requires { length page.old + 37 ≤ text_most }
    ensures text { page.new ≡ page.old ++ first_line readings taken }
    ensures upper_bound { length page.new ≤ length page.old + 37 }
{
    page.put_text(b"readings ");
    page.put_decimal(readings);
    page.put_text(b" taken ");
    page.put_decimal(taken);
    page.put_text(b"\n");
}

// The text of a refusal, a line.
pub fn put_refused(page: &mut Page, refusal: Refusal)
    requires { length page.old + 19 ≤ text_most }
    ensures text { page.new ≡ page.old ++ refused_line (number_of refusal) }
    ensures upper_bound { length page.new ≤ length page.old + 19 }
{
    page.put_text(b"refused ");
    page.put_decimal(u32::from(refusal));
    page.put_text(b"\n");
}

// A label of a reading, after a space. Apart from the rows' number: a space stands before it here, a
// tab there, and each clause names its text.
fn put_label(page: &mut Page, label: u32)
    requires { length page.old + 11 ≤ text_most }
    ensures text { page.new ≡ page.old ++ label_text label }
    ensures upper_bound { length page.new ≤ length page.old + 11 }
{
    page.put_text(b" ");
    page.put_decimal(label);
}

// The input labels of the links of a run, which are numbers of links of the sheet.
fn put_labels(page: &mut Page, sheet: &[u8], run: &[u32])
    requires by_index { (i : ℕ) → i < length run.now → link_length * get_or run.now i 0 + link_length ≤ length sheet.now }
    requires room { length page.old + 11 * length run.now ≤ text_most }
    ensures text { page.new ≡ page.old ++ flat_map label_text (labels_of sheet.now run.now) }
    ensures upper_bound { length page.new ≤ length page.old + 11 * length run.now }
{
    for l in run {
        put_label(page, sheet::words::word(sheet, LINK * (*l as usize)));
    }
}

// The line of a reading: its rank, its cost, and the labels of its links.
pub fn put_line(page: &mut Page, sheet: &[u8], run: &[u32], rank: u32, cost: i32)
    requires by_index { (i : ℕ) → i < length run.now → link_length * get_or run.now i 0 + link_length ≤ length sheet.now }
    requires room { length page.old + 23 + 11 * length run.now ≤ text_most }
    ensures text { page.new ≡ page.old ++ line_of rank cost (labels_of sheet.now run.now) }
    ensures upper_bound { length page.new ≤ length page.old + 23 + 11 * length run.now }
{
    page.put_decimal(rank);
    page.put_text(b" ");
    put_cost(page, cost);
    put_labels(page, sheet, run);
    page.put_text(b"\n");
}
