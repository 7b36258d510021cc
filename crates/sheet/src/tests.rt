// Tests 1, 14 and 2 to 4 record by record. The reader runs them over bytes, the writer over words, each in one
// pass over the nodes and one over the links. A pass makes the table of shifts, 256 bytes, once.
ghost use Rattle.std.specs.Prelude.{◌≡◌, ◌||◌, ◌+◌, ◌*◌, ◌^◌, ◌≤◌, ◌<◌, eqb};
ghost use Rattle.sheet.specs.Refusals.{answer};
ghost use Rattle.tropical_weight.specs.Units.{places};
ghost use Rattle.sheet.specs.Sheet.{link_words, node_words, well_marked, start_fits, weight_fits};
ghost use Rattle.sheet.specs.Tests.{with_node, with_link, node_tests, link_tests, judged};

use crate::field::Fields;
use crate::form::Form;
use crate::refusal::Refusal;
use crate::tr::{LINK_WORDS, NO_START, NODE_WORDS};
use crate::weight::weight_fits;
use tropical_weight::shifts::GridShifts;
use tropical_weight::unit::Unit;

// What the nodes so far pass: the marks and the weights of absent finals (test 1), the links that
// they count (test 1), and the final weights (test 4). Flags and no Result: each test is over the whole
// sheet, and an earlier one may still fail at a later record.
#[derive(Clone, Copy)]
pub struct NodeTests {
    pub marked: bool,
    pub links: u64,
    pub weights: bool,
}

// What the links so far pass: the next nodes (test 3) and the weights (test 4). Flags, as of the nodes.
#[derive(Clone, Copy)]
pub struct LinkTests {
    pub nexts: bool,
    pub weights: bool,
}

fn well_marked(mark: u32, bits: u32) -> bool
    ensures { result ≡ well_marked mark bits }
{
    if mark == 0 { bits == 0 } else { mark == 1 }
}

fn final_fits(shifts: &GridShifts, mark: u32, bits: u32) -> bool
    ensures { result ≡ eqb mark 0 || weight_fits (places shifts.now.unit) bits }
{
    if mark == 0 {
        return true;
    }
    weight_fits(shifts, bits)
}

fn start_fits(start: u32, nodes: u32) -> bool
    ensures { result ≡ start_fits nodes start }
{
    if start < nodes {
        return true;
    }
    start == NO_START
}

// One node more. The record's test goes before the flag: the flag first would be a branch at each record,
// by which the tests took a twentieth more.
fn with_node(shifts: &GridShifts, t: NodeTests, count: u32, mark: u32, bits: u32) -> NodeTests
    requires { t.links + count < 2 ^ 64 }
    ensures { result ≡ with_node (places shifts.now.unit) t count mark bits }
{
    NodeTests {
        marked: well_marked(mark, bits) && t.marked,
        links: t.links + u64::from(count),
        weights: final_fits(shifts, mark, bits) && t.weights,
    }
}

// One link more, in the same way.
fn with_link(shifts: &GridShifts, t: LinkTests, bits: u32, next: u32, nodes: u32) -> LinkTests
    ensures { result ≡ with_link (places shifts.now.unit) t bits next nodes }
{
    LinkTests {
        nexts: next < nodes && t.nexts,
        weights: weight_fits(shifts, bits) && t.weights,
    }
}

// The nodes, three fields a node. Not inlined, nor are the links: each loop has the registers to itself so,
// and the tests of a large sheet took a tenth more without it.
#[inline(never)]
pub fn test_nodes<F: Fields>(fields: &F, nodes: u32, unit: Unit) -> NodeTests
    requires { node_words * nodes ≤ F.count fields.now }
    ensures { result ≡ node_tests (places unit) nodes (λ v. F.value fields.now (node_words * v)) (λ v. F.value fields.now (node_words * v + 1)) (λ v. F.value fields.now (node_words * v + 2)) }
{
    let shifts = GridShifts::new(unit);
    let mut t = NodeTests {
        marked: true,
        links: 0,
        weights: true,
    };
    for v in 0..nodes {
        let from = NODE_WORDS * (v as usize);
        t = with_node(
            &shifts,
            t,
            fields.field(from),
            fields.field(from + 1),
            fields.field(from + 2),
        );
    }
    t
}

// The links, four fields a link. Apart from the nodes: records of another width, and other tests.
#[inline(never)]
pub fn test_links<F: Fields>(fields: &F, links: u32, nodes: u32, unit: Unit) -> LinkTests
    requires { link_words * links ≤ F.count fields.now }
    ensures { result ≡ link_tests (places unit) links nodes (λ l. F.value fields.now (link_words * l + 2)) (λ l. F.value fields.now (link_words * l + 3)) }
{
    let shifts = GridShifts::new(unit);
    let mut t = LinkTests {
        nexts: true,
        weights: true,
    };
    for l in 0..links {
        let from = LINK_WORDS * (l as usize);
        t = with_link(
            &shifts,
            t,
            fields.field(from + 2),
            fields.field(from + 3),
            nodes,
        );
    }
    t
}

// The first of tests 1, 14 and 2 to 4 that fails, where length and offsets are as laid out.
pub fn judge(
    n: NodeTests,
    l: LinkTests,
    links: u32,
    nodes: u32,
    start: u32,
    form: Form,
) -> Result<(), Refusal>
    ensures { result ≡ answer tt (judged n l links nodes start form) }
{
    if !(n.marked && n.links == u64::from(links)) {
        return Err(Refusal::Layout);
    }
    if !form.fits() {
        return Err(Refusal::Unit);
    }
    if !start_fits(start, nodes) {
        return Err(Refusal::Start);
    }
    if !l.nexts {
        return Err(Refusal::Next);
    }
    if !(l.weights && n.weights) {
        return Err(Refusal::Weight);
    }
    Ok(())
}
