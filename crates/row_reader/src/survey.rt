// One pass over the rows of a text: whether all can be read, and what they say.
ghost use Rattle.std.specs.Prelude.{◌≡◌, ◌-◌, ◌^◌, ◌<◌};
ghost use Rattle.row_reader.specs.Surveying.{passes, survey_read, surveyed, node_of};
ghost use Rattle.row_reader.specs.RowReading.{row_at};

use crate::row::{Row, row_at};
use crate::rows::Rows;
use crate::values::Weight;

// What rows say: whether their weights pass, the highest node, and how many are links.
#[derive(Clone, Copy, Debug, PartialEq, Eq)]
pub struct Survey {
    // A flag, not a Result: test 4 comes after 8 and 1, which later rows may still break.
    pub passing: bool,
    pub highest: u32,
    pub links: usize,
}

fn passes(w: Weight) -> bool
    ensures { result ≡ passes w }
{
    w != Weight::Off
}

// A row more.
fn with_row(s: Survey, row: Row) -> Survey
    requires { s.links < 2 ^ 64 - 1 }
    ensures { result ≡ survey_read s row }
{
    match row {
        Row::Link(link) => Survey {
            passing: s.passing && passes(link.weight),
            highest: s.highest.max(link.source.max(link.next)),
            links: s.links + 1,
        },
        Row::Final { node, weight } => Survey {
            passing: s.passing && passes(weight),
            highest: s.highest.max(node),
            links: s.links,
        },
    }
}

// What all rows of a text say; none where one cannot be read or there is none. A text without a byte has no rows.
pub fn survey_of(text: &[u8]) -> Option<Survey>
    ensures { result ≡ surveyed text.now }
{
    if text.is_empty() {
        return None;
    }
    let mut s = Survey {
        passing: true,
        highest: 0,
        links: 0,
    };
    for row in Rows::new(text) {
        s = with_row(s, row?);
    }
    Some(s)
}

// The first row's first node: where every row can be read, the start.
pub fn start_of(text: &[u8]) -> u32
    ensures { result ≡ node_of (row_at text.now 0) }
{
    match row_at(text, 0) {
        Some(read) => match read.row {
            Row::Link(link) => link.source,
            Row::Final { node, .. } => node,
        },
        // 0 is never seen: callers have surveyed the text.
        None => 0,
    }
}
