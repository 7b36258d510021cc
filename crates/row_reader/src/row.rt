// A row of a text.
ghost use Rattle.std.specs.Prelude.{◌≡◌, ◌≤◌, length, Some, IfSome};
ghost use Rattle.std.specs.Option.{option_map};
ghost use Rattle.text_rows.specs.Fields.{weight_of};
ghost use Rattle.text_rows.specs.Rows.{final_by, link_by, row_by};
ghost use Rattle.row_reader.specs.Places.{line_end, row_fields};
ghost use Rattle.row_reader.specs.RowReading.{row_read, row_at};

use crate::fields::Fields;
use crate::values::{Weight, number_in, weight_in};

// A link.
#[derive(Clone, Copy, Debug, PartialEq, Eq)]
pub struct Link {
    pub source: u32,
    pub next: u32,
    pub ilabel: u32,
    pub olabel: u32,
    pub weight: Weight,
}

// A link, or a final node and its weight.
#[derive(Clone, Copy, Debug, PartialEq, Eq)]
pub enum Row {
    Link(Link),
    Final { node: u32, weight: Weight },
}

// A row, and where the next one begins.
#[derive(Clone, Copy, Debug, PartialEq, Eq)]
pub struct Read {
    pub row: Row,
    pub end: usize,
}

// An absent weight is 0: the value, and no field that is read at each row without one.
const NO_WEIGHT: Weight = Weight::Units(0);

// A final row by its node and its weight's field.
fn final_of(node: u32, weight: &[u8]) -> Option<Row>
    ensures { result ≡ option_map row_read (final_by (Some node) (weight_of weight.now)) }
{
    let weight = weight_in(weight)?;
    Some(Row::Final { node, weight })
}

// A link by its numbers and its weight's field.
fn link_of(source: u32, next: u32, ilabel: u32, olabel: u32, w: &[u8]) -> Option<Row>
    ensures { result ≡ option_map row_read (link_by (Some source) (Some next) (Some ilabel) (Some olabel) (weight_of w.now)) }
{
    let weight = weight_in(w)?;
    Some(Row::Link(Link {
        source,
        next,
        ilabel,
        olabel,
        weight,
    }))
}

// The row of all fields that are left: `at` is its end then. A number is read as soon as it is
// known for one, so that four values are held until the row's end and not four slices.
fn row_of(fields: &mut Fields) -> Option<Row>
    ensures row { result ≡ option_map row_read (row_by (row_fields fields.old.text.now fields.old.at)) }
    ensures end { IfSome result (λ _. fields.new.at ≡ line_end fields.old.text.now fields.old.at) }
{
    let first = fields.next_field()?;
    let node = number_in(first)?;
    let Some(second) = fields.next_field() else {
        return Some(Row::Final {
            node,
            weight: NO_WEIGHT,
        });
    };
    let Some(third) = fields.next_field() else {
        return final_of(node, second);
    };
    let next = number_in(second)?;
    let ilabel = number_in(third)?;
    let fourth = fields.next_field()?;
    let olabel = number_in(fourth)?;
    let Some(fifth) = fields.next_field() else {
        return Some(Row::Link(Link {
            source: node,
            next,
            ilabel,
            olabel,
            weight: NO_WEIGHT,
        }));
    };
    match fields.next_field() {
        Some(_) => None,
        None => link_of(node, next, ilabel, olabel, fifth),
    }
}

// The row that begins at a place of a text: a newline ends it. By the place and not by the text's rest: the end that is
// told is a place of the same text.
pub fn row_at(text: &[u8], at: usize) -> Option<Read>
    requires { at ≤ length text.now }
    ensures { result ≡ row_at text.now at }
{
    let mut fields = Fields { text, at };
    let row = row_of(&mut fields)?;
    if fields.at == text.len() {
        return None;
    }
    Some(Read {
        row,
        end: fields.at + 1,
    })
}
