// The best reading (single_shortest_path and its backtrace in shortest_path.rs of rustfst), from the
// distances and parents that relaxation leaves in a slot a node.
ghost use Rattle.std.specs.Prelude.{◌≡◌, ◌+◌, ◌*◌, ◌≤◌, ◌<◌, length, drop};
ghost use Rattle.std.proofs.lemmas.List.Edits.{sets};
ghost use Rattle.sheet.specs.Words.{word_length, bytes_of_all};
ghost use Rattle.sheet.specs.Sheet.{link_length, node_length};
ghost use Rattle.slots.specs.Slots.{slot_length};
ghost use Rattle.search.specs.ListMachine.{result_for};
ghost use Rattle.shortest_distance.specs.Handed.{handed_over};
ghost use Rattle.sheet.specs.Machine.{machine as machine_in};
ghost use Rattle.single_path.specs.SingleWords.{total_value, best_below, Traced, way_back, Back};
ghost use Rattle.single_path.specs.SingleWords.{way_links, way_nodes, way_from, way_length, way_listed};
ghost use Rattle.list_answer.specs.ListAnswer.{listed_in, listed_over};

use list_answer::Listed;
use machine::climbing::Machine;
use sheet::refusal::Refusal;
use sheet::tr::{LINK, NODE, Trailer};
use sheet::words::{WORD, are_bytes, put_word, put_words};
use shortest_distance::parent::{Parent, parent_at};
use slots::SLOT;

// The bytes that an answer has for each link: its record, a state and its number.
const PER_LINK: usize = LINK + NODE + WORD;

// The total of a node, its distance and its final weight, or infinite where it has none.
fn total_at(machine: &Machine, v: u32, work: &[u32]) -> f32
    requires { (v < machine.now.sheet.nodes) × (slot_length * v + 1 < length work.now) }
    ensures { result ≡ total_value machine.now.sheet.bytes.now machine.now.sheet.links work.now v }
{
    let Some(bits) = machine.sheet.final_bits(v) else {
        return tropical_weight::zero();
    };
    distance::total(distance::distance_at(work, SLOT * (v as usize)), bits)
}

// The lowest node with the least total, where that is finite. A strict test keeps the lowest.
fn best_end(machine: &Machine, work: &[u32]) -> Option<u32>
    requires { slot_length * machine.now.sheet.nodes ≤ length work.now }
    ensures { result ≡ (best_below machine.now.sheet.bytes.now machine.now.sheet.links work.now machine.now.sheet.nodes).end }
{
    let mut best = None;
    let mut least = tropical_weight::zero();
    for v in 0..machine.sheet.nodes {
        let total = total_at(machine, v, work);
        if tropical_weight::natural_less(total, least) {
            best = Some(v);
            least = total;
        }
    }
    best
}

// Stores the states of a way of so many links, the final one first.
fn put_states(at: usize, bits: u32, count: u32, res: &mut [u8])
    requires { at + node_length * count + node_length ≤ length res.old }
    ensures { res.new ≡ sets res.old at (bytes_of_all (way_nodes bits count)) }
{
    let last = [0, 1, bits];
    put_words(res, at, &last);
    list_answer::put_states(count as usize, res, at + NODE);
}

// The way back from a node by way of the parents: its links, the last first. Its passes are loops: an
// iterator would need a law of what it yields, and be no plainer.
#[derive(Clone, Copy)]
struct Way<'a> {
    machine: Machine<'a>,
    work: &'a [u32],
    end: u32,
    ghost traced: { Traced machine.sheet.bytes.now work.now end },
    ghost inside: { end < machine.sheet.nodes },
}

impl<'a> Way<'a> {
    // The parent of a node on it, and so how the way goes on from there.
    fn parent(&self, v: u32) -> Option<Parent>
        requires { v ≤ self.now.end }
        ensures { Back self.now.machine.sheet.bytes.now self.now.work.now v result }
    {
        parent_at(self.work, v)
    }

    // How many links it has.
    fn length(&self) -> u32
        ensures value { result ≡ length (way_back self.now.work.now self.now.end self.now.end) }
        ensures upper_bound { result ≤ self.now.end }
    {
        let mut n = 0u32;
        let mut v = self.end;
        while let Some(parent) = self.parent(v) {
            v = parent.source;
            n += 1;
        }
        n
    }

    // Stores its links.
    fn put_links(&self, res: &mut [u8])
        requires { link_length * length (way_back self.now.work.now self.now.end self.now.end) ≤ length res.old }
        ensures { res.new
            ≡ sets res.old 0 (bytes_of_all (way_links self.now.machine.sheet.bytes.now 0 (way_back self.now.work.now self.now.end self.now.end))) }
    {
        let mut v = self.end;
        let mut i = 0u32;
        while let Some(parent) = self.parent(v) {
            list_answer::put_link(
                self.machine.sheet.bytes,
                parent.link,
                i,
                res,
                LINK * (i as usize),
            );
            v = parent.source;
            i += 1;
        }
    }

    // Stores the numbers of its links.
    fn put_numbers(&self, at: usize, res: &mut [u8])
        requires { at + word_length * length (way_back self.now.work.now self.now.end self.now.end) ≤ length res.old }
        ensures { res.new
            ≡ sets res.old at (bytes_of_all (way_back self.now.work.now self.now.end self.now.end)) }
    {
        let mut v = self.end;
        let mut next = at;
        while let Some(parent) = self.parent(v) {
            put_word(res, next, parent.link);
            v = parent.source;
            next += WORD;
        }
    }

    // Stores the answer for it, which has so many links.
    fn put(&self, count: u32, res: &mut [u8])
        requires counted { (count ≡ length (way_back self.now.work.now self.now.end self.now.end)) × (count ≤ self.now.end) }
        requires room { way_length self.now.machine.sheet.form count ≤ length res.old }
        ensures { res.new
            ≡ sets res.old 0 (bytes_of_all (way_from self.now.machine.sheet.bytes.now self.now.machine.sheet.links self.now.machine.sheet.form self.now.work.now self.now.end)) }
    {
        let bits = self.machine.sheet.final_bits(self.end).unwrap_or(0);
        let form = self.machine.sheet.form;
        let states = LINK * (count as usize);
        let trailer_at = states + NODE * (count as usize) + NODE;
        let trailer = Trailer::of(count, count + 1, count, form);
        self.put_links(res);
        put_states(states, bits, count, res);
        trailer.put(res, trailer_at);
        self.put_numbers(trailer_at + form.trailer(), res);
    }

    // The way as a machine from its start to the end, where there is room.
    fn backtrace(&self, res: &mut [u8]) -> Result<Listed, Refusal>
        ensures value { result ≡ way_listed self.now.machine.sheet.form (way_back self.now.work.now self.now.end self.now.end) (length res.old) }
        ensures res_after { res.new
            ≡ handed_over (way_from self.now.machine.sheet.bytes.now self.now.machine.sheet.links self.now.machine.sheet.form self.now.work.now self.now.end) res.old }
    {
        let count = self.length();
        if res.len() < PER_LINK * (count as usize) + NODE + self.machine.sheet.form.trailer() {
            return Err(Refusal::Room);
        }
        self.put(count, res);
        Ok(Listed {
            nodes: count + 1,
            links: count,
            taken: 0,
        })
    }
}

// The best reading of a machine, in the slots of its nodes: distances and parents, the best end, and
// the way back from it.
pub fn single_shortest_path(
    machine: &Machine,
    work: &mut [u32],
    res: &mut [u8],
) -> Result<Listed, Refusal>
    requires { slot_length * machine.now.sheet.nodes ≤ length work.old }
    ensures value { result
        ≡ listed_in (result_for (machine_in machine.now.sheet.bytes.now) 1) (length res.old) }
    ensures res_after { res.new
        ≡ listed_over (result_for (machine_in machine.now.sheet.bytes.now) 1) res.old }
    ensures work_len_unchanged { length work.new ≡ length work.old }
    ensures work_unchanged { drop (slot_length * machine.now.sheet.nodes) work.new ≡ drop (slot_length * machine.now.sheet.nodes) work.old }
{
    are_bytes(machine.sheet.bytes);
    shortest_distance::make(machine, work);
    let Some(end) = best_end(machine, work) else {
        return list_answer::put_none(res, machine.sheet.form);
    };
    let way = Way {
        machine: *machine,
        work,
        end,
    };
    way.backtrace(res)
}
