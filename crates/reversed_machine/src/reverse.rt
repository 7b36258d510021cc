// The reversed machine (reverse.rs of rustfst), in the slots of its nodes and links: node i becomes
// i + 1, and node 0 leads to the final ones. The links out of a node are a chain.
ghost use Rattle.std.specs.Prelude.{◌≡◌, ◌+◌, ◌*◌, ◌≤◌, ◌<◌, length};
ghost use Rattle.sheet.specs.Records.{count_at};
ghost use Rattle.slots.specs.Slots.{slot_length};
ghost use Rattle.reversed_machine.specs.Laid.{MeasuredIn};
ghost use Rattle.reversed_machine.specs.ReverseWords.{heads_cleared, chained, links_put, links_reversed, finals_reversed, least_distance, reversed_words};

use machine::climbing::Machine;
use machine::counted::Counted;
use search_slots::{CHAIN, HEAD, VISITS, WEIGHT};
use sheet::source::Source;
use slots::{NOTHING, SLOT};

// A machine with its count of final nodes, and at which words of a part the slots of the reversed
// machine's nodes and of its links begin. The part goes beside it, with room for it: a value over both
// would have two lifetimes, of which the check covers no call by a mutable borrow.
#[derive(Clone, Copy)]
struct Layout<'a> {
    counted: Counted<'a>,
    heads: usize,
    chains: usize,
    ghost apart: { heads + slot_length * (counted.machine.sheet.nodes + 1) ≤ chains },
}

impl<'a> Layout<'a> {
    ghost use Rattle.reversed_machine.specs.Roomy.{Roomy};

    // Puts link k, to a node at a weight, in front of the chain whose head is at a word.
    fn put_in_front(&self, part: &mut [u32], head: usize, k: u32, next: u32, weight: u32)
        requires { (head < length part.old) × (self.now.chains + slot_length * k + slot_length ≤ length part.old) }
        ensures { part.new ≡ chained head (self.now.chains + slot_length * k) k next weight part.old }
    {
        let at = self.chains + SLOT * (k as usize);
        let first = part[head];
        part[at] = next;
        part[at + WEIGHT] = weight;
        part[at + CHAIN] = first;
        part[head] = k;
    }

    // The chains of all nodes are empty, and none of these has been taken.
    fn clear_heads(&self, part: &mut [u32])
        requires { Roomy self.now part.old }
        ensures { part.new ≡ heads_cleared self.now.heads (self.now.counted.machine.sheet.nodes + 1) part.old }
    {
        for q in 0..self.counted.machine.sheet.nodes + 1 {
            let at = self.heads + SLOT * (q as usize);
            part[at + HEAD] = NOTHING;
            part[at + VISITS] = 0;
        }
    }

    // The links of a node, the last first: each goes in front of the chain of the node that it leads
    // to, and leads back to the source.
    fn reverse_node(&self, source: Source, part: &mut [u32])
        requires own { source.sheet ≡ self.now.counted.machine.sheet }
        requires room { Roomy self.now part.old }
        ensures { part.new ≡ links_put source.entry.sheet.bytes.now self.now.heads self.now.chains source.entry.node source.entry.first (count_at source.entry.sheet.bytes.now source.entry.sheet.links source.entry.node) part.old }
    {
        for i in (0..source.count()).rev() {
            let l = source.first + i;
            let head = self.heads + SLOT * ((source.sheet.next(l) as usize) + 1) + HEAD;
            self.put_in_front(part, head, l, source.node + 1, source.sheet.link_bits(l));
        }
    }

    // The links of all nodes, from the last to the first, so that a chain has them by source, then
    // position. `Sources` goes from the front alone, so that the first links are counted down here.
    fn reverse_links(&self, part: &mut [u32])
        requires { Roomy self.now part.old }
        ensures { part.new ≡ links_reversed self.now.counted.machine.sheet.bytes.now self.now.heads self.now.chains self.now.counted.machine.sheet.links self.now.counted.machine.sheet.nodes part.old }
    {
        let sheet = self.counted.machine.sheet;
        let mut first = sheet.links;
        for node in (0..sheet.nodes).rev() {
            first -= sheet.count(node);
            self.reverse_node(Source { sheet, node, first }, part);
        }
    }

    // The final nodes, from the last to the first: the chain of node 0 leads to each with its final
    // weight, over the slots after those of the input's links.
    fn reverse_finals(&self, part: &mut [u32])
        requires { Roomy self.now part.old }
        ensures { part.new ≡ finals_reversed self.now.counted.machine.sheet.bytes.now self.now.heads self.now.chains self.now.counted.machine.sheet.links self.now.counted.machine.sheet.nodes part.old }
    {
        let sheet = self.counted.machine.sheet;
        let mut k = sheet.links + self.counted.finals;
        for v in (0..sheet.nodes).rev() {
            if let Some(bits) = sheet.final_bits(v) {
                k -= 1;
                self.put_in_front(part, self.heads + HEAD, k, v + 1, bits);
            }
        }
    }

    // The least total, by the distances in the slots. It is unreached where no final node is reached
    // whose weight is finite.
    fn least_total(&self, part: &[u32]) -> Option<f32>
        requires { Roomy self.now part.now }
        ensures { result ≡ least_distance self.now.counted.machine.sheet.bytes.now self.now.heads self.now.counted.machine.sheet.links self.now.counted.machine.sheet.nodes part.now }
    {
        let sheet = self.counted.machine.sheet;
        let mut least = tropical_weight::zero();
        for v in 0..sheet.nodes {
            if let Some(bits) = sheet.final_bits(v) {
                let d = distance::distance_at(part, self.heads + SLOT * ((v as usize) + 1));
                least = tropical_weight::plus(least, distance::total(d, bits));
            }
        }
        distance::of_weight(least)
    }
}

// Makes the distances of a machine in the slots of its nodes, which follow that of node 0. Parents come
// with them, in the words of heads and visits, which a list sets anew.
pub fn measure(machine: &Machine, part: &mut [u32], heads: usize)
    requires { heads + slot_length * (machine.now.sheet.nodes + 1) ≤ length part.old }
    ensures { MeasuredIn machine.now.sheet.bytes.now heads part.old part.new }
{
    let from = heads + SLOT;
    shortest_distance::make(machine, &mut part[from..]);
}

// Reverses a machine, whose nodes' slots hold their distances: heads and chains of its links and its
// final nodes, no node taken, and the least total at node 0.
pub fn reverse(counted: &Counted, part: &mut [u32], heads: usize, chains: usize)
    requires { (heads + slot_length * (counted.now.machine.sheet.nodes + 1) ≤ chains) × (chains + slot_length * (counted.now.machine.sheet.links + counted.now.finals) ≤ length part.old) }
    ensures { part.new ≡ reversed_words counted.now.machine.sheet.bytes.now heads chains counted.now.machine.sheet.nodes counted.now.machine.sheet.links part.old }
{
    let layout = Layout {
        counted: *counted,
        heads,
        chains,
    };
    layout.clear_heads(part);
    layout.reverse_links(part);
    layout.reverse_finals(part);
    distance::put_distance(part, heads, layout.least_total(part));
}
