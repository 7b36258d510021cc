// The rows of a text, one by one.
ghost use Rattle.std.specs.Prelude.{◌≡◌, ◌-◌, ◌≤◌, length};
ghost use Rattle.std.specs.Iterator.{at_most};
ghost use Rattle.row_reader.specs.RowReading.{Gives};

use crate::row::{Row, row_at};

// The rows of a text from a place on where a row begins; the last where one cannot be read is a none. A place beside the
// text, since a row that is read tells where the next begins as a place.
#[derive(Clone, Copy, Drop)]
pub struct Rows<'a> {
    text: &'a [u8],
    at: usize,
    ghost inside: { at ≤ length text.now },
}

impl<'a> Rows<'a> {
    // All of them.
    pub fn new(text: &'a [u8]) -> Rows<'a>
        ensures { (result.text ≡ text.entry) × (result.at ≡ 0) }
    {
        Rows { text, at: 0 }
    }
}

impl<'a> Iterator for Rows<'a> {
    type Item = Option<Row>;

    ghost next_gives = { λ s r t. (t.text ≡ s.text) × Gives s.text.now s.at r t.at };

    ghost remaining = { λ s. at_most (length s.text.now - s.at) };

    fn next(&mut self) -> Option<Option<Row>> {
        if self.at == self.text.len() {
            return None;
        }
        let Some(read) = row_at(self.text, self.at) else {
            self.at = self.text.len();
            return Some(None);
        };
        self.at = read.end;
        Some(Some(read.row))
    }
}
