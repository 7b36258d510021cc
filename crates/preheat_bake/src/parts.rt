// The two parts of a machine that narrows to a node, as they are written: tests 1, 14, 2 to 6 and 13 are
// passed. What is left is 21, and the bytes.
ghost use Rattle.std.specs.Prelude.{◌≡◌, ◌+◌, ◌-◌, ◌*◌, ◌^◌, ◌≤◌, ◌<◌, length};
ghost use mathlib.Core.List.{flat_map};
ghost use Rattle.std.proofs.lemmas.List.Edits.{sets};
ghost use Rattle.sheet.specs.Below.{list_below};
ghost use Rattle.sheet.specs.Words.{word_length, bytes_of_all};
ghost use Rattle.sheet.specs.Sheet.{link_length};
ghost use Rattle.sheet.specs.Machine.{unit_in, link_fields};
ghost use Rattle.machine.specs.Readings.{link as link_of};
ghost use Rattle.preheat_bake.specs.Outcome.{split_answer, split_over};
ghost use Rattle.preheat_bake.specs.Held.{bake_of, first_bytes, second_bytes, first_size, second_size, both_size};

use crate::counts::Counts;
use narrowing::Narrowing;
use sheet::refusal::Refusal;
use sheet::tr::{LINK, LINK_WORDS, NODE, Trailer};
use sheet::words::{WORD, put_bytes, put_word, put_words};

// The bytes of a link and of its number in the whole.
const NUMBERED: usize = LINK + WORD;

// Stores so many numbers, one after the other, from one on.
fn put_numbers(res: &mut [u8], at: usize, from: u32, count: u32)
    requires { (at + word_length * count ≤ length res.old) × (from + count < 2 ^ 32) }
    ensures { res.new ≡ sets res.old at (bytes_of_all (list_below count (λ i. from + i))) }
{
    for i in 0..count {
        put_word(res, at + WORD * (i as usize), from + i);
    }
}

// The fields of link i of the second part: its next node counts from the node.
fn later_link(whole: &Narrowing, i: u32) -> [u32; LINK_WORDS]
    requires { whole.now.before + i < whole.now.machine.sheet.links }
    ensures { result ≡ link_fields (unit_in (bake_of whole.now)) (link_of (bake_of whole.now) i) }
{
    let sheet = whole.machine.sheet;
    let link = sheet.link(whole.before + i);
    let bits = sheet.link_bits(whole.before + i);
    [link.ilabel, link.olabel, bits, link.nextstate - whole.node]
}

// Stores the links of the second part.
fn put_later_links(whole: &Narrowing, res: &mut [u8], at: usize)
    requires { at + link_length * (whole.now.machine.sheet.links - whole.now.before) ≤ length res.old }
    ensures { res.new ≡ sets res.old at (bytes_of_all (flat_map (link_fields (unit_in (bake_of whole.now))) (bake_of whole.now).links)) }
{
    for i in 0..whole.machine.sheet.links - whole.before {
        put_words(res, at + LINK * (i as usize), &later_link(whole, i));
    }
}

// Stores the first part: its links and its nodes below the last are those of the sheet.
fn put_first(whole: &Narrowing, res: &mut [u8])
    requires { first_size whole.now ≤ length res.old }
    ensures { res.new ≡ sets res.old 0 (first_bytes whole.now) }
{
    let sheet = whole.machine.sheet;
    let links = LINK * (whole.before as usize);
    let nodes = NODE * (whole.node as usize);
    let from = LINK * (sheet.links as usize);
    let trailer = Trailer::of(whole.before, whole.node + 1, sheet.start, sheet.form);
    put_bytes(res, 0, &sheet.bytes[..links]);
    put_bytes(res, links, &sheet.bytes[from..from + nodes]);
    put_words(res, links + nodes, &[0, 1, 0]);
    trailer.put(res, links + nodes + NODE);
    put_numbers(
        res,
        links + nodes + NODE + sheet.form.trailer(),
        0,
        whole.before,
    );
}

// Stores the second part from a byte on: its nodes are those of the sheet from the node on.
fn put_second(whole: &Narrowing, res: &mut [u8], at: usize)
    requires { at + second_size whole.now ≤ length res.old }
    ensures { res.new ≡ sets res.old at (second_bytes whole.now) }
{
    let sheet = whole.machine.sheet;
    let later = sheet.links - whole.before;
    let nodes = sheet.nodes - whole.node;
    let from = LINK * (sheet.links as usize) + NODE * (whole.node as usize);
    let links_end = at + LINK * (later as usize);
    let nodes_end = links_end + NODE * (nodes as usize);
    put_later_links(whole, res, at);
    put_bytes(
        res,
        links_end,
        &sheet.bytes[from..from + NODE * (nodes as usize)],
    );
    Trailer::of(later, nodes, 0, sheet.form).put(res, nodes_end);
    put_numbers(res, nodes_end + sheet.form.trailer(), whole.before, later);
}

// The bytes of the first part and of its numbers.
fn first_size(whole: &Narrowing) -> usize
    ensures { result ≡ first_size whole.now }
{
    let trailer = whole.machine.sheet.form.trailer();
    NUMBERED * (whole.before as usize) + NODE * (whole.node as usize + 1) + trailer
}

// The bytes of both parts and of their numbers, whatever the node is.
fn size(whole: &Narrowing) -> usize
    ensures { result ≡ both_size whole.now }
{
    let sheet = whole.machine.sheet;
    let trailer = sheet.form.trailer();
    NUMBERED * (sheet.links as usize) + NODE * (sheet.nodes as usize + 1) + 2 * trailer
}

// Test 21, and both parts.
pub fn write(whole: &Narrowing, res: &mut [u8]) -> Result<Counts, Refusal>
    ensures value { result ≡ split_answer whole.now.machine.sheet.bytes.now whole.now.node (length res.old) }
    ensures res_after { res.new ≡ split_over whole.now.machine.sheet.bytes.now whole.now.node res.old }
{
    if res.len() < size(whole) {
        return Err(Refusal::Room);
    }
    put_first(whole, res);
    put_second(whole, res, first_size(whole));
    Ok(Counts {
        first: whole.before,
        second: whole.machine.sheet.links - whole.before,
    })
}
