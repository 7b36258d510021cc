// A machine that narrows to a node: refusal 13. What is left is to write its two parts.
#![tactic(auto)]

ghost use Rattle.std.specs.Prelude.{◌≡◌, true, ℕ, ◌≤◌, ◌<◌, slice_index, IfOk};
ghost use Rattle.sheet.specs.Refusals.{number_in};
ghost use Rattle.sheet.specs.Records.{first_link};
ghost use Rattle.sheet.specs.Machine.{machine as machine_at};
ghost use Rattle.narrowing.specs.Narrows.{starts_by, unmarked_below, none_past, narrows, narrow_number};

use machine::climbing::Machine;
use sheet::refusal::Refusal;
use sheet::words::are_bytes;

#[derive(Clone, Copy)]
pub struct Narrowing<'a> {
    pub machine: Machine<'a>,
    pub node: u32,
    // how many links leave nodes below it
    pub before: u32,
    // copies of the sheet's bytes need it
    pub ghost bytes: { (i : ℕ) → slice_index machine.sheet.bytes.now i < 256 },
    pub ghost inside: { node < machine.sheet.nodes },
    pub ghost narrow: { narrows node (machine_at machine.sheet.bytes.now) ≡ true },
    pub ghost counted: { before ≡ first_link machine.sheet.bytes.now machine.sheet.links node },
}

// Whether the start is present, and not above c.
fn starts_by(machine: &Machine, c: u32) -> bool
    ensures { result ≡ starts_by c (machine_at machine.now.sheet.bytes.now).start }
{
    match machine.sheet.start() {
        Some(start) => start <= c,
        None => false,
    }
}

// Whether no node below c has mark 1.
fn unmarked_below(machine: &Machine, c: u32) -> bool
    requires { c ≤ machine.now.sheet.nodes }
    ensures { result ≡ unmarked_below c (machine_at machine.now.sheet.bytes.now) }
{
    for v in 0..c {
        if machine.sheet.final_bits(v).is_some() {
            return false;
        }
    }
    true
}

// How many links leave nodes below c: the number of the first that leaves c or a higher one.
fn links_before(machine: &Machine, c: u32) -> u32
    requires { c ≤ machine.now.sheet.nodes }
    ensures value { result ≡ first_link machine.now.sheet.bytes.now machine.now.sheet.links c }
    ensures within { result ≤ machine.now.sheet.links }
{
    let mut links = 0;
    for v in 0..c {
        links += machine.sheet.count(v);
    }
    links
}

// Whether no link leads from below c to above it; the links from below c are so many.
fn none_past(machine: &Machine, before: u32, c: u32) -> bool
    requires counted { before ≡ first_link machine.now.sheet.bytes.now machine.now.sheet.links c }
    requires inside { c ≤ machine.now.sheet.nodes }
    ensures { result ≡ none_past c (machine_at machine.now.sheet.bytes.now) }
{
    for l in 0..before {
        if c < machine.sheet.next(l) {
            return false;
        }
    }
    true
}

impl<'a> Narrowing<'a> {
    // Test 13.
    pub fn new(machine: &Machine<'a>, c: u32) -> Result<Narrowing<'a>, Refusal>
        ensures number { number_in result ≡ narrow_number c (machine_at machine.now.sheet.bytes.now) }
        ensures same { IfOk result (λ x. (x.machine ≡ machine.now) × (x.node ≡ c)) }
    {
        if machine.sheet.nodes <= c {
            return Err(Refusal::Narrow);
        }
        if !starts_by(machine, c) {
            return Err(Refusal::Narrow);
        }
        if !unmarked_below(machine, c) {
            return Err(Refusal::Narrow);
        }
        let before = links_before(machine, c);
        if !none_past(machine, before, c) {
            return Err(Refusal::Narrow);
        }
        are_bytes(machine.sheet.bytes);
        Ok(Narrowing {
            machine: *machine,
            node: c,
            before,
        })
    }
}
