// The records of a sheet (tr.rs of rustfst).
ghost use Rattle.std.specs.Prelude.{◌≡◌, ◌+◌, ◌*◌, ◌^◌, ◌≤◌, ◌<◌, length};
ghost use Rattle.std.proofs.lemmas.List.Edits.{sets};
ghost use Rattle.sheet.specs.Words.{bytes_of_all};
ghost use Rattle.sheet.specs.Sheet.{link_length, node_length, short_trailer, trailer_length};
ghost use Rattle.sheet.specs.Records.{link_at, node_at, trailer_at};
ghost use Rattle.sheet.specs.Accepted.{trailer_in, five_fields, trailer_fields, stated_trailer};

use crate::form::{Form, SHORT_TRAILER, form_of};
use crate::words::{WORD, put_word, put_words, word};

// A link: two labels, a weight and the node it leads to.
#[derive(Clone, Copy)]
pub struct Link {
    pub ilabel: u32,
    pub olabel: u32,
    pub weight: f32,
    pub nextstate: u32,
}

// A node: how many links leave it, its final mark, 0 or 1, and its final weight. As its fields are, and the
// mark no Option: C is given them, also of a sheet that is not accepted.
#[derive(Clone, Copy)]
pub struct Node {
    pub links: u32,
    pub mark: u32,
    pub weight: f32,
}

// The trailer: the offsets of links and nodes, their numbers, the start, and the form of the sheet.
#[derive(Clone, Copy)]
pub struct Trailer {
    pub link_offset: u32,
    pub node_offset: u32,
    pub nodes: u32,
    pub links: u32,
    pub start: u32,
    pub form: Form,
}

// The bits of positive infinity, the weight of what is barred.
pub const BARRED: u32 = tropical_weight::INFINITY;

// The start's field where there is none.
pub const NO_START: u32 = 0xffff_ffff;

// The bytes of a link and of a node, and their fields.
pub const LINK: usize = 16;

pub const NODE: usize = 12;

pub const LINK_WORDS: usize = 4;

pub const NODE_WORDS: usize = 3;

// So many links that their bytes, 16 each, are past a field of 32 bits.
pub const LINKS_PAST: usize = 0x1000_0000;

// Link number l of any bytes that hold it.
pub fn link_at(sheet: &[u8], l: usize) -> Link
    requires { link_length * l + link_length ≤ length sheet.now }
    ensures { result ≡ link_at sheet.now l }
{
    let at = LINK * l;
    Link {
        ilabel: word(sheet, at),
        olabel: word(sheet, at + WORD),
        weight: tropical_weight::from_bits(word(sheet, at + 2 * WORD)),
        nextstate: word(sheet, at + 3 * WORD),
    }
}

// Node number v of a sheet with so many links. The count goes beside the bytes: they need not be an accepted
// sheet, which has methods.
pub fn node_at(sheet: &[u8], links: usize, v: usize) -> Node
    requires { link_length * links + node_length * v + node_length ≤ length sheet.now }
    ensures { result ≡ node_at sheet.now links v }
{
    let at = LINK * links + NODE * v;
    Node {
        links: word(sheet, at),
        mark: word(sheet, at + WORD),
        weight: tropical_weight::from_bits(word(sheet, at + 2 * WORD)),
    }
}

impl Trailer {
    // The trailer of a sheet of so many links and nodes.
    pub fn of(links: u32, nodes: u32, start: u32, form: Form) -> Trailer
        requires { link_length * links < 2 ^ 32 }
        ensures { result ≡ trailer_in links nodes start form }
    {
        Trailer {
            link_offset: 0,
            node_offset: (LINK as u32) * links,
            nodes,
            links,
            start,
            form,
        }
    }

    // Its first five fields, in their order.
    fn words(&self) -> [u32; 5]
        ensures { result ≡ five_fields self.now }
    {
        [
            self.link_offset,
            self.node_offset,
            self.nodes,
            self.links,
            self.start,
        ]
    }

    // Stores it at a byte of the result.
    pub fn put(&self, res: &mut [u8], at: usize)
        requires { at + trailer_length self.now.form ≤ length res.old }
        ensures { res.new ≡ sets res.old at (bytes_of_all (trailer_fields self.now)) }
    {
        put_words(res, at, &self.words());
        if let Form::Long(unit) = self.form {
            put_word(res, at + SHORT_TRAILER, unit);
        }
    }
}

// The trailer of a sheet.
pub fn trailer_of(sheet: &[u8]) -> Trailer
    requires { short_trailer ≤ length sheet.now }
    ensures { result ≡ trailer_at sheet.now }
{
    let form = form_of(sheet);
    let at = sheet.len() - form.trailer();
    Trailer {
        link_offset: word(sheet, at),
        node_offset: word(sheet, at + WORD),
        nodes: word(sheet, at + 2 * WORD),
        links: word(sheet, at + 3 * WORD),
        start: word(sheet, at + 4 * WORD),
        form,
    }
}

// The trailer of a byte string, none where it is shorter than one.
pub fn stated_trailer(sheet: &[u8]) -> Option<Trailer>
    ensures { result ≡ stated_trailer sheet.now }
{
    (SHORT_TRAILER <= sheet.len()).then(|| trailer_of(sheet))
}
