// The list that a result area holds: how many readings, and the way of each through its machine.
ghost use Rattle.std.specs.Prelude.{◌≡◌, ◌+◌, ◌≤◌, length};
ghost use Rattle.std.proofs.lemmas.List.Edits.{sets};
ghost use Rattle.read_back.specs.Way.{answer_bytes, links_before, told_by};

use crate::walk::Walk;
use sheet::form::Form;
use sheet::refusal::Refusal;
use sheet::tr::{LINK, NODE};
use sheet::words::{WORD, word};
use slots::number_in;
use tropical_weight::LIST_LIMIT;

// A result that is long enough for a list for n whose machine has so many nodes and links, and for its
// words; and how many links stand before the only links of the states above the last. n as it was asked for,
// no enum of two kinds of lists: the definitions go by n, and each method tests it once.
#[derive(Clone, Copy)]
pub struct HeldList<'a> {
    pub res: &'a [u8],
    pub n: u32,
    pub nodes: u32,
    pub links: u32,
    pub form: Form,
    pub before: u32,
    pub ghost long: { answer_bytes form res.now nodes links ≤ length res.now },
    pub ghost before_is: { before ≡ links_before res.now nodes links n },
}

impl<'a> HeldList<'a> {
    ghost use Rattle.std.specs.Prelude.{◌-◌, ◌<◌, IfOk};
    ghost use Rattle.sheet.specs.Refusals.{number_in};
    ghost use Rattle.std.proofs.Math.Option.{some};
    ghost use Rattle.sheet.specs.Machine.{machine as machine_for};
    ghost use Rattle.read_back.specs.Way.{next_at, number_at, number_told, count_in, last_state};
    ghost use Rattle.read_back.specs.Answers.{count_number, run_in};
    ghost use Rattle.read_back.specs.Walks.{outcome, BeginsBy, Comes, FallsBy, way_to};

    // 7, then 30 where there are too few bytes, or more readings than were asked for.
    pub fn new(
        res: &'a [u8],
        n: u32,
        nodes: u32,
        links: u32,
        form: Form,
    ) -> Result<HeldList<'a>, Refusal>
        ensures number { number_in result ≡ count_number form res.now n nodes links }
        ensures same { IfOk result (λ l. (l.res ≡ res.entry) × (l.n ≡ n) × (l.nodes ≡ nodes) × (l.links ≡ links) × (l.form ≡ form)) }
    {
        if LIST_LIMIT < n {
            return Err(Refusal::Count);
        }
        let count = links as usize;
        if res.len() < LINK * count + NODE * (nodes as usize) + form.trailer() + WORD * count {
            return Err(Refusal::NoAnswer);
        }
        let before = if n == 1 { 0 } else { word(res, LINK * count) };
        let list = HeldList {
            res,
            n,
            nodes,
            links,
            form,
            before,
        };
        if n < list.count() {
            return Err(Refusal::NoAnswer);
        }
        Ok(list)
    }

    // How many readings it says that it holds.
    pub fn count(&self) -> u32
        ensures { result ≡ count_in self.now.res.now self.now.nodes self.now.links self.now.n }
    {
        if self.nodes == 0 {
            return 0;
        }
        if self.n == 1 {
            return 1;
        }
        self.before
    }

    // The state that a way ends at.
    fn last(&self) -> u32
        ensures { result ≡ last_state self.now.n }
    {
        if self.n == 1 { 0 } else { 1 }
    }

    // The state where the way of reading k begins, where there is one.
    fn first_state(&self, k: u32) -> Option<u32>
        ensures { BeginsBy self.now k result }
    {
        if self.n == 1 {
            let start = word(
                self.res,
                LINK * (self.links as usize) + NODE * (self.nodes as usize) + 4 * WORD,
            );
            return Some(start);
        }
        if self.links <= k {
            return None;
        }
        Some(self.next(k as usize))
    }

    // The state that link l leads to.
    fn next(&self, l: usize) -> u32
        requires { l < self.now.links }
        ensures { result ≡ next_at self.now.res.now l }
    {
        word(self.res, LINK * l + 3 * WORD)
    }

    // The number of the input link that link l repeats, where it repeats one.
    fn number(&self, l: usize) -> Option<u32>
        requires { l < self.now.links }
        ensures { result ≡ number_told (number_at self.now.form self.now.res.now self.now.nodes self.now.links l) }
    {
        let machine = LINK * (self.links as usize) + NODE * (self.nodes as usize);
        number_in(word(self.res, machine + self.form.trailer() + WORD * l))
    }

    // The only link of a state above the last.
    fn only_link(&self, q: u32) -> usize
        requires { last_state self.now.n < q }
        ensures { result ≡ self.now.before + (q - 1 - last_state self.now.n) }
    {
        (self.before as usize) + ((q - 1 - self.last()) as usize)
    }

    // That link, where it is there and leads to a lower state.
    fn falls_by(&self, q: u32) -> Option<usize>
        requires { last_state self.now.n < q }
        ensures { FallsBy self.now q result }
    {
        let only = self.only_link(q);
        if self.nodes <= q {
            return None;
        }
        if (self.links as usize) <= only {
            return None;
        }
        if q <= self.next(only) {
            return None;
        }
        Some(only)
    }

    // A walk along the way of reading k: where it comes to, by as many links as the way tells, where a
    // reading may end there.
    pub fn walk<'s>(&self, begun: &Walk<'s>, k: u32) -> Option<Walk<'s>>
        ensures { Comes begun.now.at.sheet.bytes.now (outcome (machine_for begun.now.at.sheet.bytes.now) begun.now.at.node begun.now.count (way_to self.now k)) result }
    {
        let last = self.last();
        let mut w = *begun;
        let mut q = self.first_state(k)?;
        // A while: it goes by the states of the way, not by a number.
        while last < q {
            let only = self.falls_by(q)?;
            w = w.goes_on(self.number(only))?;
            q = self.next(only);
        }
        if q < last {
            return None;
        }
        if w.at_final() { Some(w) } else { None }
    }

    // Stores the numbers along the way of reading k, which there is. Not one pass with `walk`: the area is
    // written only once the way is known to be a reading that has room.
    pub fn store_way(&self, k: u32, run: &mut [u32])
        requires way { way_to self.now k ≡ some (run_in (way_to self.now k)) }
        requires room { length (run_in (way_to self.now k)) ≤ length run.old }
        ensures { run.new ≡ sets run.old 0 (run_in (way_to self.now k)) }
    {
        let last = self.last();
        let mut count = 0usize;
        let Some(mut q) = self.first_state(k) else {
            return;
        };
        // A while: it goes by the states of the way, not by a number.
        while last < q {
            let only = self.only_link(q);
            count = put_number(self.number(only), count, run);
            q = self.next(only);
        }
    }
}

// Stores a number behind so many, where it is one, and answers how many there are then. The count is not
// the area's own: the area is lent whole, and the numbers fill its front.
fn put_number(told: Option<u32>, count: usize, run: &mut [u32]) -> usize
    requires { count + length (told_by told) ≤ length run.old }
    ensures { (result ≡ count + length (told_by told)) × (run.new ≡ sets run.old count (told_by told)) }
{
    let Some(number) = told else {
        return count;
    };
    run[count] = number;
    count + 1
}
