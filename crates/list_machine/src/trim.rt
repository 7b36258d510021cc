// The list machine of a search: the entries on a way numbered as its states, and its bytes written.
ghost use Rattle.std.specs.Prelude.{◌≡◌, ℕ, ◌+◌, ◌-◌, ◌*◌, ◌^◌, ◌≤◌, ◌<◌, length, replicate, None, IfSome};
ghost use Rattle.std.proofs.lemmas.List.Edits.{sets};
ghost use Rattle.sheet.specs.Words.{word_length, bytes_of_all};
ghost use Rattle.sheet.specs.Sheet.{link_length, node_length, trailer_length};
ghost use Rattle.slots.specs.Slots.{slot_length, nothing};
ghost use Rattle.search_slots.specs.Slots.{from_word, listed_word};
ghost use Rattle.list_machine.specs.TrimWords.{unmarked, mark_listed, mark_from, mark_back, marks};
ghost use Rattle.list_machine.specs.TrimWords.{mark_of, mark_count, number_one, states, stated, kept_count};
ghost use Rattle.list_machine.specs.TrimWords.{start_words, node_of, input_of, blank_bits, entry_words};
ghost use Rattle.list_machine.specs.TrimWords.{stated_words, link_words, repeat_words, input_words};
ghost use Rattle.list_machine.specs.TrimWords.{links_part, nodes_part, words_part, list_words};
ghost use Rattle.list_machine.specs.TrimWords.{list_answer, list_after};
ghost use Rattle.list_machine.specs.TrimWords.{Linked, Listable, list_length};

use list_answer::Listed;
use search_slots::{FROM, INPUT, LISTED, STATE};
use sheet::accepted::Sheet;
use sheet::form::Form;
use sheet::refusal::Refusal;
use sheet::tr::{LINK, NODE, Trailer};
use sheet::words::{WORD, put_word, put_words, word};
use slots::{NOTHING, SLOT, number_in};

// No entry has a mark: its word is 0. A number and no Option: the part is words of a lent area, and the same
// word holds the state's number afterwards.
fn clear_marks(part: &mut [u32], entries: usize)
    requires { slot_length * entries ≤ length part.old }
    ensures { part.new ≡ unmarked entries part.old }
{
    for i in 0..entries {
        part[SLOT * i + STATE] = 0;
    }
}

// Marks the listed entries.
fn mark_listed(part: &mut [u32], listed: usize)
    requires { (slot_length * listed ≤ length part.old)
        × ((k : ℕ) → k < listed → slot_length * listed_word part.old k + slot_length ≤ length part.old) }
    ensures { part.new ≡ mark_listed listed part.old }
{
    for k in 0..listed {
        let i = part[SLOT * k + LISTED] as usize;
        part[SLOT * i + STATE] = 1;
    }
}

// Marks the entry that a marked one came from.
fn mark_from(part: &mut [u32], i: usize)
    requires { (slot_length * i + slot_length ≤ length part.old) × (slot_length * from_word part.old i + slot_length ≤ length part.old) }
    ensures { part.new ≡ mark_from i part.old }
{
    if part[SLOT * i + STATE] == 0 {
        return;
    }
    let from = part[SLOT * i + FROM] as usize;
    part[SLOT * from + STATE] = 1;
}

// Marks those that marked ones came from, the last first: each comes from an earlier one.
fn mark_back(part: &mut [u32], entries: usize)
    requires { (0 < entries) × (slot_length * entries ≤ length part.old)
        × ((i : ℕ) → 0 < i → i < entries → slot_length * from_word part.old i + slot_length ≤ length part.old) }
    ensures { part.new ≡ mark_back (entries - 1) part.old }
{
    for i in (1..entries).rev() {
        mark_from(part, i);
    }
}

// Marks the entries on a way to one that is listed. The part and its counts go as parameters here, as
// each pass changes the part: a value that keeps the bounds is made once they are done.
fn mark(part: &mut [u32], entries: usize, listed: usize)
    requires { Linked part.old entries listed }
    ensures { part.new ≡ marks entries listed part.old }
{
    clear_marks(part, entries);
    mark_listed(part, listed);
    mark_back(part, entries);
}

// Numbers entry i where it has a mark, and counts it. The count is of states, not of the part's words.
fn number_one(part: &mut [u32], i: usize, count: u32) -> u32
    requires { (slot_length * i + slot_length ≤ length part.old) × (count + 2 < 2 ^ 32) }
    ensures value { result ≡ count + mark_of part.old i }
    ensures part_after { part.new ≡ number_one i count part.old }
{
    let at = SLOT * i + STATE;
    if part[at] == 0 {
        return count;
    }
    part[at] = 2 + count;
    count + 1
}

// Numbers the marked entries as states, and answers how many there are from 2 on.
fn number(part: &mut [u32], entries: usize) -> u32
    requires { (0 < entries) × (slot_length * entries ≤ length part.old) × (entries ≤ 2 ^ 28) }
    ensures value { result ≡ mark_count part.old (entries - 1) }
    ensures part_after { part.new ≡ states entries part.old }
{
    let mut count = 0u32;
    for i in 1..entries {
        count = number_one(part, i, count);
    }
    part[STATE] = 1;
    count
}

// A search's part whose states are numbered, and what its list machine is written from. The methods
// write one after another into the result, each its own words: from `at` on where they do not begin it.
#[derive(Clone, Copy)]
struct Numbered<'a> {
    sheet: Sheet<'a>,
    part: &'a [u32],
    entries: usize,
    listed: usize,
    ghost listable: { Listable sheet.bytes.now sheet.links part.now entries listed },
}

impl<'a> Numbered<'a> {
    // Writes the start's links to the listed entries, in their order.
    fn put_start_links(&self, res: &mut [u8])
        requires { link_length * self.now.listed ≤ length res.old }
        ensures { res.new
            ≡ sets res.old 0 (bytes_of_all (start_words self.now.part.now self.now.listed)) }
    {
        for k in 0..self.listed {
            let entry = self.part[SLOT * k + LISTED] as usize;
            let words = [0, 0, 0, self.part[SLOT * entry + STATE]];
            put_words(res, LINK * k, &words);
        }
    }

    // The input link of entry i, none where it repeats none.
    fn input_of(&self, i: usize) -> Option<u32>
        requires { (0 < i) × (i < self.now.entries) }
        ensures value { result ≡ input_of self.now.part.now i }
        ensures inside { IfSome result (λ l. link_length * l + link_length ≤ length self.now.sheet.bytes.now) }
    {
        number_in(self.part[SLOT * i + INPUT])
    }

    // The old node of an entry that repeats no input link, none where it is finished.
    fn node_of(&self, i: usize) -> Option<u32>
        requires { (0 < i) × (i < self.now.entries) × (input_of self.now.part.now i ≡ None) }
        ensures value { result ≡ node_of self.now.part.now i }
        ensures inside { IfSome result (λ v. (0 < v) × (link_length * self.now.sheet.links + node_length * v ≤ length self.now.sheet.bytes.now)) }
    {
        number_in(self.part[SLOT * i])
    }

    // The final weight's word of old node v, or 0 where there is none.
    fn blank_bits(&self, v: Option<u32>) -> u32
        requires { IfSome v (λ v. (0 < v) × (link_length * self.now.sheet.links + node_length * v ≤ length self.now.sheet.bytes.now)) }
        ensures { result ≡ blank_bits self.now.sheet.bytes.now self.now.sheet.links v }
    {
        let Some(v) = v else {
            return 0;
        };
        let at = LINK * (self.sheet.links as usize) + NODE * ((v - 1) as usize);
        word(self.sheet.bytes, at + 2 * WORD)
    }

    // Writes the link of entry i: its input link's labels and weight, or none and a final weight.
    fn put_link(&self, i: usize, res: &mut [u8], at: usize)
        requires { (0 < i) × (i < self.now.entries) × (at + link_length ≤ length res.old) }
        ensures { res.new
            ≡ sets res.old at (bytes_of_all (entry_words self.now.sheet.bytes.now self.now.sheet.links self.now.part.now i)) }
    {
        let to = self.part[SLOT * (self.part[SLOT * i + FROM] as usize) + STATE];
        match self.input_of(i) {
            Some(l) => list_answer::put_link(self.sheet.bytes, l, to, res, at),
            None => {
                let words = [0, 0, self.blank_bits(self.node_of(i)), to];
                put_words(res, at, &words);
            }
        }
    }

    // Writes the link of entry i where it is a state, and answers where the next one goes.
    fn put_stated(&self, i: usize, res: &mut [u8], at: usize) -> usize
        requires { (0 < i) × (i < self.now.entries) × (at + link_length * mark_of self.now.part.now i ≤ length res.old) }
        ensures value { result ≡ at + link_length * mark_of self.now.part.now i }
        ensures res_after { res.new
            ≡ sets res.old at (bytes_of_all (stated_words self.now.sheet.bytes.now self.now.sheet.links self.now.part.now i)) }
    {
        if self.part[SLOT * i + STATE] == 0 {
            return at;
        }
        self.put_link(i, res, at);
        at + LINK
    }

    // Writes the links of the entries that are states, in their order.
    fn put_entry_links(&self, res: &mut [u8], at: usize)
        requires { at + link_length * mark_count self.now.part.now (self.now.entries - 1) ≤ length res.old }
        ensures { res.new
            ≡ sets res.old at (bytes_of_all (link_words self.now.sheet.bytes.now self.now.sheet.links self.now.part.now (self.now.entries - 1))) }
    {
        let mut next = at;
        for i in 1..self.entries {
            next = self.put_stated(i, res, next);
        }
    }

    // Writes the word of entry i where it is a state, and answers where the next one goes. It stays apart
    // from `put_stated`: each promises its own words, which one function with a closure would not name.
    // The word is stored as it stands: NOTHING names no link in the result too.
    fn put_input(&self, i: usize, res: &mut [u8], at: usize) -> usize
        requires { (i < self.now.entries) × (at + word_length * mark_of self.now.part.now i ≤ length res.old) }
        ensures value { result ≡ at + word_length * mark_of self.now.part.now i }
        ensures res_after { res.new
            ≡ sets res.old at (bytes_of_all (repeat_words self.now.part.now i)) }
    {
        if self.part[SLOT * i + STATE] == 0 {
            return at;
        }
        put_word(res, at, self.part[SLOT * i + INPUT]);
        at + WORD
    }

    // Writes the words of the entries that are states, in their order. Apart from `put_entry_links` as
    // `put_input` is from `put_stated`.
    fn put_inputs(&self, res: &mut [u8], at: usize)
        requires { at + word_length * mark_count self.now.part.now (self.now.entries - 1) ≤ length res.old }
        ensures { res.new
            ≡ sets res.old at (bytes_of_all (input_words self.now.part.now (self.now.entries - 1))) }
    {
        let mut next = at;
        for i in 1..self.entries {
            next = self.put_input(i, res, next);
        }
    }

    // Writes all links: the start's, then the entries'.
    fn put_links(&self, res: &mut [u8])
        requires { link_length * (self.now.listed + mark_count self.now.part.now (self.now.entries - 1)) ≤ length res.old }
        ensures { res.new
            ≡ sets res.old 0 (bytes_of_all (links_part self.now.sheet.bytes.now self.now.sheet.links self.now.part.now self.now.entries self.now.listed)) }
    {
        self.put_start_links(res);
        self.put_entry_links(res, LINK * self.listed);
    }

    // Writes a word for each link: none for the start's.
    fn put_repeats(&self, res: &mut [u8], at: usize)
        requires { at + word_length * (self.now.listed + mark_count self.now.part.now (self.now.entries - 1)) ≤ length res.old }
        ensures { res.new
            ≡ sets res.old at (bytes_of_all (words_part self.now.part.now self.now.entries self.now.listed)) }
    {
        put_nothings(res, at, self.listed);
        self.put_inputs(res, at + WORD * self.listed);
    }

    // Writes the list machine and the words of its links.
    fn put_list(&self, kept: usize, res: &mut [u8])
        requires kept { kept ≡ mark_count self.now.part.now (self.now.entries - 1) }
        requires roomy { list_length self.now.sheet.form self.now.listed kept ≤ length res.old }
        ensures { res.new
            ≡ sets res.old 0 (bytes_of_all (list_words self.now.sheet.bytes.now self.now.sheet.links self.now.sheet.form self.now.part.now self.now.entries self.now.listed kept)) }
    {
        let form = self.sheet.form;
        let nodes_at = LINK * (self.listed + kept);
        let words_at = nodes_at + NODE * (2 + kept) + form.trailer();
        self.put_links(res);
        put_states(self.listed, kept, form, res, nodes_at);
        self.put_repeats(res, words_at);
    }
}

// Writes so many words that name no input link. By words and not fill(0xff): the bytes of NOTHING are
// known in crate slots alone. The count goes beside the result, which is lent whole.
fn put_nothings(res: &mut [u8], at: usize, count: usize)
    requires { at + word_length * count ≤ length res.old }
    ensures { res.new
        ≡ sets res.old at (bytes_of_all (replicate count nothing)) }
{
    for k in 0..count {
        put_word(res, at + WORD * k, NOTHING);
    }
}

// Writes the nodes, the start and the final one first, and the trailer of the form of the sheet.
fn put_states(listed: usize, kept: usize, form: Form, res: &mut [u8], at: usize)
    requires { (listed + kept < 2 ^ 28) × (at + node_length * (2 + kept) + trailer_length form ≤ length res.old) }
    ensures { res.new
        ≡ sets res.old at (bytes_of_all (nodes_part form listed kept)) }
{
    let links = listed + kept;
    let heads = [listed as u32, 0, 0, 0, 1, 0];
    let trailer = Trailer::of(links as u32, (2 + kept) as u32, 0, form);
    put_words(res, at, &heads);
    list_answer::put_states(kept, res, at + 2 * NODE);
    trailer.put(res, at + 2 * NODE + NODE * kept);
}

// Numbers the entries on a way as states, and writes their machine where the result has room. The
// counts go beside the part: it is a lent area, which is longer than the slots of the entries. `as`
// narrows what the clause bounds.
pub fn write_list(
    sheet: &Sheet,
    part: &mut [u32],
    entries: usize,
    listed: usize,
    taken: u32,
    res: &mut [u8],
) -> Result<Listed, Refusal>
    requires { Listable sheet.now.bytes.now sheet.now.links part.old entries listed }
    ensures value { result
        ≡ list_answer sheet.now.form listed (kept_count entries listed part.old) taken (length res.old) }
    ensures part_after { part.new ≡ stated entries listed part.old }
    ensures res_after { res.new
        ≡ list_after sheet.now.bytes.now sheet.now.links sheet.now.form part.old entries listed res.old }
{
    mark(part, entries, listed);
    let kept = number(part, entries) as usize;
    let made = listed + kept;
    if res.len() < LINK * made + NODE * (2 + kept) + sheet.form.trailer() + WORD * made {
        return Err(Refusal::Room);
    }
    let numbered = Numbered {
        sheet: *sheet,
        part,
        entries,
        listed,
    };
    numbered.put_list(kept, res);
    Ok(Listed {
        nodes: (2 + kept) as u32,
        links: made as u32,
        taken,
    })
}
