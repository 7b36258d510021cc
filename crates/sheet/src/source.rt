// The nodes of a sheet as the sources of their links: a node's links follow one another, from its first one
// on, and those of the next node begin where they end.
ghost use Rattle.std.specs.Prelude.{◌≡◌, ◌+◌, ◌≤◌, ◌<◌};
ghost use Rattle.sheet.specs.Sheet.{parts_of, count};
ghost use Rattle.sheet.specs.Records.{count_at, first_link};

use crate::accepted::Sheet;

// A node, and the number of its first link.
#[derive(Clone, Copy)]
pub struct Source<'a> {
    pub sheet: Sheet<'a>,
    pub node: u32,
    pub first: u32,
    pub ghost inside: { node < sheet.nodes },
    pub ghost begins: { first ≡ first_link sheet.bytes.now sheet.links node },
}

impl<'a> Source<'a> {
    // How many links leave it: all are among the sheet's.
    pub fn count(&self) -> u32
        ensures word { result ≡ count_at self.now.sheet.bytes.now self.now.sheet.links self.now.node }
        ensures part { result ≡ count (parts_of self.now.sheet.bytes.now) self.now.node }
        ensures within { self.now.first + result ≤ self.now.sheet.links }
    {
        self.sheet.count(self.node)
    }
}

// The nodes of a sheet in their order, from one on. No Source itself: it also stands past the last node.
#[derive(Clone, Copy)]
pub struct Sources<'a> {
    pub sheet: Sheet<'a>,
    pub node: u32,
    pub first: u32,
    pub ghost upto: { node ≤ sheet.nodes },
    pub ghost begins: { first ≡ first_link sheet.bytes.now sheet.links node },
}

impl<'a> Sources<'a> {
    // All of them.
    pub fn new(sheet: &Sheet<'a>) -> Sources<'a>
        ensures { (result.sheet ≡ sheet.now) × (result.node ≡ 0) × (result.first ≡ 0) }
    {
        Sources {
            sheet: *sheet,
            node: 0,
            first: 0,
        }
    }
}

impl<'a> Iterator for Sources<'a> {
    ghost use Rattle.std.specs.Iterator.{at_most};
    ghost use Rattle.sheet.specs.NodeSources.{Gives, nodes_left};

    type Item = Source<'a>;

    ghost next_gives = { Gives };

    ghost remaining = { λ s. at_most (nodes_left s) };

    fn next(&mut self) -> Option<Source<'a>> {
        if self.node == self.sheet.nodes {
            return None;
        }
        let source = Source {
            sheet: self.sheet,
            node: self.node,
            first: self.first,
        };
        self.first += source.count();
        self.node += 1;
        Some(source)
    }
}
