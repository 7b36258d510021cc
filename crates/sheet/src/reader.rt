// A link reader: it borrows a sheet, accepted or not, and gives the sheet's links one by one.
ghost use Rattle.std.specs.Prelude.{◌≡◌};
ghost use Rattle.sheet.specs.Reading.{has_link, next_link};

use crate::tr::{LINK, Link, link_at, stated_trailer};

// Whether there is a link l: the trailer states it, and the links that it states lie before the
// trailer.
fn has_link(sheet: &[u8], l: usize) -> bool
    ensures { result ≡ has_link sheet.now l }
{
    let Some(t) = stated_trailer(sheet) else {
        return false;
    };
    let links = t.links as usize;
    if links <= l {
        return false;
    }
    LINK * links + t.form.trailer() <= sheet.len()
}

// Link number l of a sheet, or none past the last; on a byte string that is too short for the links
// that it states there is none.
pub fn link_or_end(sheet: &[u8], l: usize) -> Option<Link>
    ensures { result ≡ next_link sheet.now l }
{
    if has_link(sheet, l) {
        Some(link_at(sheet, l))
    } else {
        None
    }
}

// It remembers the number of the next link.
#[derive(Clone, Copy)]
pub struct Reader<'a> {
    pub sheet: &'a [u8],
    pub next: usize,
}

impl<'a> Reader<'a> {
    // A reader at the first link.
    pub fn new(sheet: &'a [u8]) -> Reader<'a>
        ensures { (result.sheet ≡ sheet.entry) × (result.next ≡ 0) }
    {
        Reader { sheet, next: 0 }
    }
}

impl<'a> Iterator for Reader<'a> {
    ghost use Rattle.std.specs.Iterator.{at_most};
    ghost use Rattle.sheet.specs.Readers.{Gives, links_left};

    type Item = Link;

    ghost next_gives = { Gives };

    ghost remaining = { λ r. at_most (links_left r) };

    fn next(&mut self) -> Option<Link> {
        let link = link_or_end(self.sheet, self.next)?;
        self.next += 1;
        Some(link)
    }
}
