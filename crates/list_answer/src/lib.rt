// What a call for a list answers, the slots that it needs, the empty answer, and the records that every
// answer is stored by.
#![tactic(auto)]

ghost use Rattle.std.specs.Prelude.{◌≡◌, ◌+◌, ◌*◌, ◌≤◌, length};
ghost use Rattle.std.proofs.lemmas.List.Edits.{sets};
ghost use Rattle.sheet.specs.Words.{bytes_of_all};
ghost use Rattle.sheet.specs.Sheet.{link_length, node_length};
ghost use Rattle.tropical_weight.specs.Limits.{node_limit, link_limit, list_limit};
ghost use Rattle.search.specs.ListMachine.{empty};
ghost use Rattle.list_answer.specs.ListAnswer.{listed_in, listed_over, slots_of, link_to, state_words};

use sheet::form::Form;
use sheet::refusal::Refusal;
use sheet::tr::{LINK, NO_START, NODE, Trailer};
use sheet::words::{WORD, put_words, word};

// What a list that is made has: the counts of the result's nodes and links, and of the entries taken.
#[derive(Clone, Copy, Debug, PartialEq, Eq)]
pub struct Listed {
    pub nodes: u32,
    pub links: u32,
    pub taken: u32,
}

// The work slots that a list for n needs.
pub fn slots_needed(nodes: u32, links: u32, finals: u32, n: u32) -> u32
    requires { (nodes ≤ node_limit) × (links ≤ link_limit) × (finals ≤ nodes) × (n ≤ list_limit) }
    ensures { result ≡ slots_of nodes links finals n }
{
    match n {
        0 => 0,
        1 => nodes,
        _ => nodes + links + 2 * finals + 2 + n * (links + 1),
    }
}

// The empty machine, where there is room for its sheet of that form.
pub fn put_none(res: &mut [u8], form: Form) -> Result<Listed, Refusal>
    ensures value { result ≡ listed_in (empty form) (length res.old) }
    ensures res_after { res.new ≡ listed_over (empty form) res.old }
{
    if res.len() < form.trailer() {
        return Err(Refusal::Room);
    }
    Trailer::of(0, 0, NO_START, form).put(res, 0);
    Ok(Listed {
        nodes: 0,
        links: 0,
        taken: 0,
    })
}

// The record of link l of the sheet with another next node, at a byte of the result.
pub fn put_link(sheet: &[u8], l: u32, next: u32, res: &mut [u8], at: usize)
    requires { (link_length * l + link_length ≤ length sheet.now) × (at + link_length ≤ length res.old) }
    ensures { res.new ≡ sets res.old at (bytes_of_all (link_to sheet.now l next)) }
{
    let from = LINK * (l as usize);
    let words = [
        word(sheet, from),
        word(sheet, from + WORD),
        word(sheet, from + 2 * WORD),
        next,
    ];
    put_words(res, at, &words);
}

// So many states of one link that are not final, from a byte of the result on. The count goes beside the
// result, which is lent whole.
pub fn put_states(count: usize, res: &mut [u8], at: usize)
    requires { at + node_length * count ≤ length res.old }
    ensures { res.new ≡ sets res.old at (bytes_of_all (state_words count)) }
{
    let state = [1, 0, 0];
    for k in 0..count {
        put_words(res, at + NODE * k, &state);
    }
}
