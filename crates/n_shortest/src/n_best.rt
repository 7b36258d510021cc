// The search for the n cheapest readings (n_shortest_path of shortest_path.rs), on its part of the
// work area.
ghost use Rattle.std.specs.Prelude.{◌≡◌, ℕ, ◌+◌, ◌-◌, ◌*◌, ◌≤◌, ◌<◌, length, unwrap_or};
ghost use Rattle.std.specs.Float.{binary32};
ghost use Rattle.std.specs.Float.Ieee.{of_bits};
ghost use Rattle.slots.specs.Slots.{slot_length, nothing};
ghost use Rattle.search_slots.specs.Slots.{next_word, weight_word, chain_word};
ghost use Rattle.n_shortest.specs.EntryWords.{Inside};
ghost use Rattle.n_shortest.specs.SearchWords.{put_w, repeated, links_w, expand_w, finished_w, taken_w, step_w, after_w, none_w, begun_w, Sized, Chain, Expands, Takes, Ready, Begins, Runs};

use crate::entry::Entry;
use crate::{entry, heap};
use search_slots::{CHAIN, HEAD, LISTED, PLACE, VISITS, WEIGHT};
use slots::{NOTHING, SLOT};

// How many entries there are, how many of them the heap holds, and how many are listed and taken.
#[derive(Clone, Copy)]
pub struct Counts {
    pub entries: u32,
    pub heap: u32,
    pub listed: u32,
    pub taken: u32,
}

// The words at which the slots of nodes and of reversed links begin, how many of the links repeat
// an input link, and the node that the old start became.
#[derive(Clone, Copy)]
pub struct Places {
    pub nodes: usize,
    pub links: usize,
    pub inputs: u32,
    pub end: u32,
}

// The input link that reversed link k repeats, if it does.
fn input_of(inputs: u32, k: u32) -> Option<u32>
    ensures { unwrap_or result nothing ≡ repeated inputs k }
{
    (k < inputs).then_some(k)
}

// A reversed link: the node that it leads to, its weight, and the link that comes next out of the same
// node: a number, as the definition of a chain goes by the word, and an Option would be put back into it there.
#[derive(Clone, Copy)]
struct Link {
    next: u32,
    weight: f32,
    chain: u32,
}

fn link_at(part: &[u32], links: usize, k: u32) -> Link
    requires { links + slot_length * k + 2 < length part.now }
    ensures next { result.next ≡ next_word part.now links k }
    ensures weight { result.weight ≡ of_bits binary32 (weight_word part.now links k) }
    ensures chain { result.chain ≡ chain_word part.now links k }
{
    let at = links + SLOT * (k as usize);
    Link {
        next: part[at],
        weight: tropical_weight::from_bits(part[at + WEIGHT]),
        chain: part[at + CHAIN],
    }
}

// A search for n readings, over a part where a node has no more links out of it than `most`.
#[derive(Drop)]
struct Search<'a> {
    part: &'a mut [u32],
    places: Places,
    n: u32,
    most: u32,
    counts: Counts,
    ghost sized: { Sized places (record { part = part.now; counts = counts }) },
}

impl<'a> Search<'a> {
    ghost use Rattle.n_shortest.specs.Goes.{words_of, Goes};

    // Puts an entry in: into the next slot, and into the heap.
    fn put(&mut self, e: Entry, from: u32, input: Option<u32>)
        requires { (slot_length * (self.old.counts.entries + 1) ≤ self.old.places.nodes) × Inside self.old.part.now self.old.places.nodes e }
        ensures { Goes self.old self.new (put_w self.old.places.nodes e from (unwrap_or input nothing) (words_of self.old)) }
    {
        let entries = self.counts.entries;
        // lent once: a proof knows its words after each call
        let part = &mut *self.part;
        entry::store(part, self.places.nodes, entries, e, from, input);
        heap::push(part, self.counts.heap as usize, entries);
        self.counts.entries += 1;
        self.counts.heap += 1;
    }

    // Puts in an entry for each reversed link from `head` on, along their chain. There are no more
    // links than `most`, so that the loop ends whatever the words are.
    fn put_links(&mut self, x: u32, cost: f32, head: u32)
        requires { (n : ℕ) × Chain self.old.places self.old.part.now n head × (slot_length * (self.old.counts.entries + n) ≤ self.old.places.nodes) }
        ensures { Goes self.old self.new (links_w self.old.places x cost self.old.most head (words_of self.old)) }
    {
        let mut k = head;
        for turn in 0..self.most {
            if k == NOTHING {
                return;
            }
            let part = &mut *self.part;
            let link = link_at(part, self.places.links, k);
            let e = Entry::Half(link.next, tropical_weight::times(cost, link.weight));
            self.put(e, x, input_of(self.places.inputs, k));
            k = link.chain;
        }
    }

    // Expands entry x, which stands at node v: an entry for each link out of it, then a finished one
    // where it is the old start.
    fn expand(&mut self, x: u32, v: u32, cost: f32)
        requires { Expands self.old.places (words_of self.old) v }
        ensures { Goes self.old self.new (expand_w self.old.places self.old.most x v cost (words_of self.old)) }
    {
        let head = self.part[self.places.nodes + SLOT * (v as usize) + HEAD];
        self.put_links(x, cost, head);
        if v == self.places.end {
            self.put(Entry::Finished(cost), x, None);
        }
    }

    // Lists entry x, which has finished, next where its cost is finite. What is barred is taken alone.
    fn finish(&mut self, x: u32, cost: f32)
        requires { (slot_length * self.old.counts.listed + 6 < length self.old.part.now) × (self.old.counts.listed + 1 < 4294967296) }
        ensures { Goes self.old self.new (finished_w x cost (words_of self.old)) }
    {
        if !tropical_weight::natural_less(cost, tropical_weight::zero()) {
            return;
        }
        let listed = self.counts.listed;
        self.part[SLOT * (listed as usize) + LISTED] = x;
        self.counts.listed = listed + 1;
    }

    // Takes entry x, which the heap has given up: a finished one is listed next where its cost is
    // finite; a half-built one visits its node, and is expanded unless that has now been taken more
    // than n times.
    fn take(&mut self, x: u32, e: Entry)
        requires { Takes self.old.places self.old.n (words_of self.old) e }
        ensures { Goes self.old self.new (taken_w self.old.places self.old.n self.old.most x e (words_of self.old)) }
    {
        match e {
            Entry::Finished(cost) => self.finish(x, cost),
            Entry::Half(v, cost) => {
                let at = self.places.nodes + SLOT * (v as usize) + VISITS;
                let visits = self.part[at] + 1;
                self.part[at] = visits;
                if visits <= self.n {
                    self.expand(x, v, cost);
                }
            }
        }
    }

    // One removal: the heap's head is taken.
    fn step(&mut self)
        requires { Ready self.old.places self.old.n (words_of self.old) × (0 < self.old.counts.heap) }
        ensures { Goes self.old self.new (step_w self.old.places self.old.n self.old.most (words_of self.old)) }
    {
        let part = &mut *self.part;
        let x = part[PLACE];
        let e = entry::entry_at(part, x);
        heap::pop(part, self.counts.heap as usize);
        self.counts.heap -= 1;
        self.counts.taken += 1;
        self.take(x, e);
    }

    // The search, from its first entry on, until n are listed or the heap is empty.
    fn run(&mut self, allowed: u32)
        requires { (words_of self.old ≡ none_w self.old.part.now) × Begins self.old.places self.old.part.now × Runs self.old.places self.old.n self.old.most self.old.part.now }
        ensures { Goes self.old self.new (after_w self.old.places self.old.n self.old.most allowed (begun_w self.old.places self.old.part.now)) }
    {
        self.put(Entry::Half(0, 0.0), 0, None);
        for turn in 0..allowed {
            if self.counts.heap == 0 || self.n <= self.counts.listed {
                return;
            }
            self.step();
        }
    }
}

// The search for the n cheapest readings, which needs no more removals than are allowed.
pub fn n_shortest_path(part: &mut [u32], p: Places, n: u32, most: u32, allowed: u32) -> Counts
    requires { Begins p part.old × Runs p n most part.old }
    ensures value { result ≡ (after_w p n most allowed (begun_w p part.old)).counts }
    ensures part_after { part.new ≡ (after_w p n most allowed (begun_w p part.old)).part }
{
    let counts = Counts {
        entries: 0,
        heap: 0,
        listed: 0,
        taken: 0,
    };
    let mut search = Search {
        part,
        places: p,
        n,
        most,
        counts,
    };
    search.run(allowed);
    search.counts
}
