// Writing a sheet from lists of links and nodes in its own fields. The lists come as C lends them, words, four
// a link and three a node, and stay apart; `as` where `records_fit` has tested that a field holds the count.
ghost use Rattle.std.specs.Prelude.{◌≡◌, ◌&&◌, ℕ, ◌+◌, ◌*◌, ◌/◌, ◌%◌, ◌^◌, ◌≤◌, ◌<◌, eqb, ltb, length, Ok};
ghost use Rattle.std.proofs.lemmas.List.Edits.{sets};
ghost use Rattle.sheet.specs.Sheet.{link_length, link_words, node_words, sheet_size, sheet_of};
ghost use Rattle.sheet.specs.Answers.{parts, written, written_over, ReadBack};

use crate::field::Words;
use crate::form::Form;
use crate::refusal::Refusal;
use crate::tests::{judge, test_links, test_nodes};
use crate::tr::{LINK, LINK_WORDS, LINKS_PAST, NODE, NODE_WORDS, Trailer};
use crate::words::put_words;

// Whole records, and counts and offsets that their fields hold.
fn records_fit(links: usize, nodes: usize) -> bool
    ensures { result ≡ eqb (links % link_words) 0 && eqb (nodes % node_words) 0 && ltb (nodes / node_words) (2 ^ 32) && ltb (link_length * (links / link_words)) (2 ^ 32) }
{
    if links % LINK_WORDS != 0 {
        return false;
    }
    if nodes % NODE_WORDS != 0 {
        return false;
    }
    if 0xffff_ffff < nodes / NODE_WORDS {
        return false;
    }
    links / LINK_WORDS < LINKS_PAST
}

// Stores links, nodes and trailer.
fn put_sheet(res: &mut [u8], links: &[u32], nodes: &[u32], start: u32, form: Form)
    requires links_len { (length links.now % link_words ≡ 0) × (length nodes.now % node_words ≡ 0) × (length nodes.now / node_words < 2 ^ 32) × (link_length * (length links.now / link_words) < 2 ^ 32) }
    requires nodes_in_bounds { sheet_size form (length links.now / link_words) (length nodes.now / node_words) ≤ length res.old }
    ensures { res.new ≡ sets res.old 0 (sheet_of (parts links.now nodes.now start form)) }
{
    let t = links.len() / LINK_WORDS;
    let n = nodes.len() / NODE_WORDS;
    let trailer = Trailer::of(t as u32, n as u32, start, form);
    put_words(res, 0, links);
    put_words(res, LINK * t, nodes);
    trailer.put(res, LINK * t + NODE * n);
}

// Tests the lists, four words a link and three a node, and writes their sheet to the result area.
pub fn write(
    links: &[u32],
    nodes: &[u32],
    start: u32,
    form: Form,
    res: &mut [u8],
) -> Result<usize, Refusal>
    ensures value { result ≡ written (parts links.now nodes.now start form) (length res.old) }
    ensures res_after { res.new ≡ written_over (parts links.now nodes.now start form) res.old }
    ensures by_index { (size : ℕ) → result ≡ Ok size → ReadBack (parts links.now nodes.now start form) size res.new }
{
    if !records_fit(links.len(), nodes.len()) {
        return Err(Refusal::Layout);
    }
    let t = (links.len() / LINK_WORDS) as u32;
    let n = (nodes.len() / NODE_WORDS) as u32;
    let unit = form.unit();
    let node_tests = test_nodes(&Words { words: nodes }, n, unit);
    let link_tests = test_links(&Words { words: links }, t, n, unit);
    judge(node_tests, link_tests, t, n, start, form)?;
    let size = LINK * (t as usize) + NODE * (n as usize) + form.trailer();
    if res.len() < size {
        return Err(Refusal::Room);
    }
    put_sheet(res, links, nodes, start, form);
    Ok(size)
}
