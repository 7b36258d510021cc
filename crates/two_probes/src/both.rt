// Two machines of one unit with the pairs of their links that have the same label: tests 10 and 11 are
// passed. What is left are 12 and 21, and the sheet.
ghost use Rattle.std.specs.Prelude.{◌≡◌, true, ◌&&◌, ℕ, ◌+◌, ◌*◌, ◌≤◌, ◌<◌, length};
ghost use mathlib.Core.List.{flat_map};
ghost use Rattle.std.proofs.lemmas.List.Edits.{sets};
ghost use Rattle.tropical_weight.specs.Limits.{finest, node_limit, link_limit};
ghost use Rattle.tropical_weight.specs.Tropical.{◌⊗◌};
ghost use Rattle.sheet.specs.Words.{bytes_of_all};
ghost use Rattle.sheet.specs.Sheet.{link_length, node_length, sheet_size, unit_of, weight_fits};
ghost use Rattle.sheet.specs.Machine.{machine as machine_at, weight_of, bits_of, link_fields, node_fields, start_field};
ghost use Rattle.machine.specs.Readings.{link as link_of, final};
ghost use Rattle.sorted_keys.specs.Sorted.{FirstAtLeast};
ghost use Rattle.product.specs.Keys.{pair_key, pair_keys};
ghost use Rattle.product.specs.Refusals.{labelled};
ghost use Rattle.product.specs.Fits.{links_fit, finals_fit, sums_fit};
ghost use Rattle.two_probes.specs.Outcome.{answer_of, both_answer, both_over};

use link_pairs::pairs::find_pairs;
use machine::climbing::Machine;
use product::keys::{pair_first, pair_key, pair_second};
use sheet::refusal::Refusal;
use sheet::tr::{LINK, LINK_WORDS, NO_START, NODE, NODE_WORDS, Trailer};
use sheet::weight::weight_fits;
use sheet::words::put_words;
use sorted_keys::InOrder;
use tropical_weight::shifts::GridShifts;
use tropical_weight::{LINK_LIMIT, NODE_LIMIT, from_bits, times, to_bits};

#[derive(Clone, Copy)]
pub struct Both<'a, 'b> {
    pub first: Machine<'a>,
    pub second: Machine<'a>,
    pub pairs: InOrder<'b>,
    pub ghost one_unit: { unit_of first.sheet.form ≡ unit_of second.sheet.form },
    pub ghost labels: { labelled (machine_at first.sheet.bytes.now) && labelled (machine_at second.sheet.bytes.now) ≡ true },
    pub ghost few_nodes: { first.sheet.nodes * second.sheet.nodes ≤ node_limit },
    pub ghost few_links: { length pairs.keys.now ≤ link_limit },
    pub ghost found: { pairs.keys.now ≡ pair_keys (machine_at first.sheet.bytes.now) (machine_at second.sheet.bytes.now) },
}

// The field of the sum of two weights of one unit, by their fields. What cancels is positive zero, also for
// a caller who rounds downward, where the sum alone would be off the grid.
fn sum_of(a: u32, b: u32) -> u32
    ensures { (j : ℕ) → j ≤ finest → weight_fits j a ≡ true → weight_fits j b ≡ true → result ≡ bits_of j (weight_of j a ⊗ weight_of j b) }
{
    let sum = times(from_bits(a), from_bits(b));
    if sum == 0.0 {
        return 0;
    }
    to_bits(sum)
}

impl<'a, 'b> Both<'a, 'b> {
    ghost use Rattle.two_probes.specs.Held.{allowed_by, unit_by, field_of, node_record};

    // How many nodes what both allow has.
    fn nodes(&self) -> u32
        ensures value { result ≡ self.now.first.sheet.nodes * self.now.second.sheet.nodes }
        ensures few { result ≤ node_limit }
    {
        self.first.sheet.nodes * self.second.sheet.nodes
    }

    // The node for node i of the first and node j of the second.
    fn node_for(&self, i: u32, j: u32) -> u32
        requires { (i < self.now.first.sheet.nodes) × (j < self.now.second.sheet.nodes) }
        ensures value { result ≡ i * self.now.second.sheet.nodes + j }
        ensures below { result < self.now.first.sheet.nodes * self.now.second.sheet.nodes }
    {
        i * self.second.sheet.nodes + j
    }

    // The start: the node for both starts, none where either has none.
    fn start(&self) -> u32
        ensures { result ≡ start_field (allowed_by self.now).start }
    {
        let Some(i) = self.first.sheet.start() else {
            return NO_START;
        };
        let Some(j) = self.second.sheet.start() else {
            return NO_START;
        };
        self.node_for(i, j)
    }

    // The field of the weight of link q: the sum of the weights of its pair.
    fn link_bits(&self, q: usize) -> u32
        requires { q < length self.now.pairs.keys.now }
        ensures { result ≡ bits_of (unit_by self.now) (link_of (allowed_by self.now) q).weight }
    {
        let pair = self.pairs.keys[q];
        let a = self.first.sheet.link_bits(pair_first(pair) as u32);
        let b = self.second.sheet.link_bits(pair_second(pair) as u32);
        sum_of(a, b)
    }

    // The fields of link q.
    fn link(&self, q: usize) -> [u32; LINK_WORDS]
        requires { q < length self.now.pairs.keys.now }
        ensures { result ≡ link_fields (unit_by self.now) (link_of (allowed_by self.now) q) }
    {
        let pair = self.pairs.keys[q];
        let a = self.first.sheet.link(pair_first(pair) as u32);
        let b = self.second.sheet.next(pair_second(pair) as u32);
        [
            a.ilabel,
            a.olabel,
            self.link_bits(q),
            self.node_for(a.nextstate, b),
        ]
    }

    // The field of node v's final weight, none where it is not final in both.
    fn final_bits(&self, v: u32) -> Option<u32>
        requires { v < self.now.first.sheet.nodes * self.now.second.sheet.nodes }
        ensures { result ≡ field_of (unit_by self.now) (final (allowed_by self.now) v) }
    {
        let nodes = self.second.sheet.nodes;
        let a = self.first.sheet.final_bits(v / nodes)?;
        let b = self.second.sheet.final_bits(v % nodes)?;
        Some(sum_of(a, b))
    }

    // The number of the first link that leaves node v or a later one.
    fn first_link(&self, v: u32) -> u32
        requires { v ≤ node_limit }
        ensures { FirstAtLeast (length self.now.pairs.keys.now) self.now.pairs.keys.now (pair_key v 0 0) result }
    {
        self.pairs.first_at_least(pair_key(u64::from(v), 0, 0)) as u32
    }

    // The fields of node v: how many links leave it, its mark, and its final weight.
    fn node(&self, v: u32) -> [u32; NODE_WORDS]
        requires { v < self.now.first.sheet.nodes * self.now.second.sheet.nodes }
        ensures { result ≡ node_record (unit_by self.now) (allowed_by self.now) v }
    {
        let links = self.first_link(v + 1) - self.first_link(v);
        match self.final_bits(v) {
            Some(bits) => [links, 1, bits],
            None => [links, 0, 0],
        }
    }

    // Whether the sum of each pair of links passes test 4.
    fn links_fit(&self) -> bool
        ensures { result ≡ links_fit (machine_at self.now.first.sheet.bytes.now) (machine_at self.now.second.sheet.bytes.now) }
    {
        let shifts = GridShifts::new(self.first.sheet.unit());
        for q in 0..self.pairs.keys.len() {
            if !weight_fits(&shifts, self.link_bits(q)) {
                return false;
            }
        }
        true
    }

    // And of each pair of final nodes.
    fn finals_fit(&self) -> bool
        ensures { result ≡ finals_fit (machine_at self.now.first.sheet.bytes.now) (machine_at self.now.second.sheet.bytes.now) }
    {
        let shifts = GridShifts::new(self.first.sheet.unit());
        for v in 0..self.nodes() {
            let Some(bits) = self.final_bits(v) else {
                continue;
            };
            if !weight_fits(&shifts, bits) {
                return false;
            }
        }
        true
    }

    // Test 12.
    fn sums_fit(&self) -> bool
        ensures { result ≡ sums_fit (machine_at self.now.first.sheet.bytes.now) (machine_at self.now.second.sheet.bytes.now) }
    {
        self.links_fit() && self.finals_fit()
    }

    // Stores the links.
    fn put_links(&self, res: &mut [u8])
        requires { link_length * length self.now.pairs.keys.now ≤ length res.old }
        ensures { res.new ≡ sets res.old 0 (bytes_of_all (flat_map (link_fields (unit_by self.now)) (allowed_by self.now).links)) }
    {
        for q in 0..self.pairs.keys.len() {
            put_words(res, LINK * q, &self.link(q));
        }
    }

    // Stores the nodes, from a byte of the result on.
    fn put_nodes(&self, res: &mut [u8], at: usize)
        requires { at + node_length * (self.now.first.sheet.nodes * self.now.second.sheet.nodes) ≤ length res.old }
        ensures { res.new ≡ sets res.old at (bytes_of_all (node_fields (unit_by self.now) (allowed_by self.now).links 0 (allowed_by self.now).finals)) }
    {
        for v in 0..self.nodes() {
            put_words(res, at + NODE * (v as usize), &self.node(v));
        }
    }

    // The bytes of the sheet.
    fn size(&self) -> usize
        ensures { result ≡ sheet_size self.now.first.sheet.form (length self.now.pairs.keys.now) (self.now.first.sheet.nodes * self.now.second.sheet.nodes) }
    {
        LINK * self.pairs.keys.len()
            + NODE * (self.nodes() as usize)
            + self.first.sheet.form.trailer()
    }

    // Stores the sheet.
    fn put(&self, res: &mut [u8])
        requires { sheet_size self.now.first.sheet.form (length self.now.pairs.keys.now) (self.now.first.sheet.nodes * self.now.second.sheet.nodes) ≤ length res.old }
        ensures { res.new ≡ sets res.old 0 (answer_of self.now.first.sheet.bytes.now self.now.second.sheet.bytes.now) }
    {
        let links = self.pairs.keys.len();
        let nodes = self.nodes();
        let trailer = Trailer::of(links as u32, nodes, self.start(), self.first.sheet.form);
        self.put_links(res);
        self.put_nodes(res, LINK * links);
        trailer.put(res, LINK * links + NODE * (nodes as usize));
    }

    // Tests 12 and 21, and the sheet.
    fn write(&self, res: &mut [u8]) -> Result<usize, Refusal>
        ensures value { result ≡ both_answer self.now.first.sheet.bytes.now self.now.second.sheet.bytes.now (length res.old) }
        ensures res_after { res.new ≡ both_over self.now.first.sheet.bytes.now self.now.second.sheet.bytes.now res.old }
    {
        if !self.sums_fit() {
            return Err(Refusal::Sum);
        }
        let size = self.size();
        if res.len() < size {
            return Err(Refusal::Room);
        }
        self.put(res);
        Ok(size)
    }
}

// Tests 11, 12 and 21, and the sheet of what both machines allow. The keys of the links of each
// and of the pairs lie in arrays of fixed memory, 128 KiB each.
pub fn write_both<'a>(
    first: &Machine<'a>,
    second: &Machine<'a>,
    res: &mut [u8],
) -> Result<usize, Refusal>
    requires units { unit_of first.now.sheet.form ≡ unit_of second.now.sheet.form }
    requires labels { labelled (machine_at first.now.sheet.bytes.now) && labelled (machine_at second.now.sheet.bytes.now) ≡ true }
    ensures value { result ≡ both_answer first.now.sheet.bytes.now second.now.sheet.bytes.now (length res.old) }
    ensures res_after { res.new ≡ both_over first.now.sheet.bytes.now second.now.sheet.bytes.now res.old }
{
    let nodes = first.sheet.nodes * second.sheet.nodes;
    if NODE_LIMIT < (nodes as usize) {
        return Err(Refusal::Product);
    }
    let mut firsts = [0u64; LINK_LIMIT];
    let mut seconds = [0u64; LINK_LIMIT];
    let mut pairs = [0u64; LINK_LIMIT];
    let Some(count) = find_pairs(first, second, &mut firsts, &mut seconds, &mut pairs) else {
        return Err(Refusal::Product);
    };
    let found = InOrder {
        keys: &pairs[..count],
    };
    let both = Both {
        first: *first,
        second: *second,
        pairs: found,
    };
    both.write(res)
}
