// A sheet that has passed tests 1, 14 and 2 to 4, with the counts, the start and the form that its trailer states. Where
// one stands, its records may be read without a test. Its start is the trailer's word, as C is told it.
ghost use Rattle.std.specs.Prelude.{◌≡◌, ◌+◌, ◌*◌, ◌^◌, ◌<◌, length, unwrap_or, IfOk, IfSome};
ghost use Rattle.tropical_weight.specs.Units.{places};
ghost use Rattle.sheet.specs.Refusals.{number_in};
ghost use Rattle.sheet.specs.Words.{word_length, word as word_at};
ghost use Rattle.sheet.specs.Sheet.{link_length, node_length, node_words, sheet_size, unit_of, read_number, parts_of, count, link_bits, next};
ghost use Rattle.sheet.specs.Records.{link_at as record_at, trailer_at, count_at, final_at};
ghost use Rattle.sheet.specs.Accepted.{trailer_in, start_in, ending_at, ending};

use crate::form::Form;
use crate::read::read;
use crate::refusal::Refusal;
use crate::tr::{LINK, Link, NODE, link_at};
use crate::words::{WORD, word};
use tropical_weight::unit::Unit;

#[derive(Clone, Copy)]
pub struct Sheet<'a> {
    pub bytes: &'a [u8],
    pub links: u32,
    pub nodes: u32,
    pub start: u32,
    pub form: Form,
    pub ghost accepted: { read_number bytes.now ≡ 0 },
    pub ghost stated: { trailer_in links nodes start form ≡ trailer_at bytes.now },
    pub ghost sized: { length bytes.now ≡ sheet_size form links nodes },
    pub ghost few_links: { link_length * links < 2 ^ 32 },
    pub ghost few_nodes: { nodes < 2 ^ 32 },
}

impl<'a> Sheet<'a> {
    // Tests a byte string as a sheet.
    pub fn new(bytes: &'a [u8]) -> Result<Sheet<'a>, Refusal>
        ensures number { number_in result ≡ read_number bytes.now }
        ensures same { IfOk result (λ s. s.bytes ≡ bytes.entry) }
    {
        let t = read(bytes)?;
        Ok(Sheet {
            bytes,
            links: t.links,
            nodes: t.nodes,
            start: t.start,
            form: t.form,
        })
    }

    // The unit of its weights.
    pub fn unit(&self) -> Unit
        ensures { places result ≡ unit_of self.now.form }
    {
        self.form.unit()
    }

    // The start, where it is a node.
    pub fn start(&self) -> Option<u32>
        ensures value { result ≡ start_in self.now.nodes self.now.start }
        ensures below { IfSome result (λ v. (v ≡ self.now.start) × (v < self.now.nodes)) }
    {
        (self.start < self.nodes).then_some(self.start)
    }

    // Field number i of node v, 0 to 2.
    fn node_field(&self, v: u32, i: usize) -> u32
        requires { (v < self.now.nodes) × (i < node_words) }
        ensures { result ≡ word_at self.now.bytes.now (link_length * self.now.links + node_length * v + word_length * i) }
    {
        word(
            self.bytes,
            LINK * (self.links as usize) + NODE * (v as usize) + WORD * i,
        )
    }

    // How many links leave node v.
    pub fn count(&self, v: u32) -> u32
        requires { v < self.now.nodes }
        ensures word { result ≡ count_at self.now.bytes.now self.now.links v }
        ensures part { result ≡ count (parts_of self.now.bytes.now) v }
    {
        self.node_field(v, 0)
    }

    // The field of node v's final weight, none where it has no mark. Where there is none the field is 0.
    pub fn final_bits(&self, v: u32) -> Option<u32>
        requires { v < self.now.nodes }
        ensures word { result ≡ ending_at self.now.bytes.now self.now.links v }
        ensures part { result ≡ ending (parts_of self.now.bytes.now) v }
        ensures bits { unwrap_or result 0 ≡ final_at self.now.bytes.now self.now.links v }
    {
        if self.node_field(v, 1) == 0 {
            return None;
        }
        Some(self.node_field(v, 2))
    }

    // Link number l.
    pub fn link(&self, l: u32) -> Link
        requires { l < self.now.links }
        ensures { result ≡ record_at self.now.bytes.now l }
    {
        link_at(self.bytes, l as usize)
    }

    // The node that link l leads to.
    pub fn next(&self, l: u32) -> u32
        requires { l < self.now.links }
        ensures word { result ≡ word_at self.now.bytes.now (link_length * l + 3 * word_length) }
        ensures part { result ≡ next (parts_of self.now.bytes.now) l }
        ensures below { result < self.now.nodes }
    {
        word(self.bytes, LINK * (l as usize) + 3 * WORD)
    }

    // The field of link l's weight.
    pub fn link_bits(&self, l: u32) -> u32
        requires { l < self.now.links }
        ensures word { result ≡ word_at self.now.bytes.now (link_length * l + 2 * word_length) }
        ensures part { result ≡ link_bits (parts_of self.now.bytes.now) l }
    {
        word(self.bytes, LINK * (l as usize) + 2 * WORD)
    }
}
