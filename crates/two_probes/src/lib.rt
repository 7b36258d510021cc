// What two probes of one bake both allow: of two sheets the sheet of the readings that both have.
#![tactic(auto)]

ghost use Rattle.std.specs.Prelude.{◌≡◌, not, ◌&&◌, cond, eqb, length, IfOk};
ghost use Rattle.product.specs.Refusals.{labelled};
ghost use Rattle.sheet.specs.Refusals.{number_of, number_in};
ghost use Rattle.sheet.specs.Sheet.{unit_of};
ghost use Rattle.sheet.specs.Machine.{machine as machine_at};
ghost use Rattle.two_probes.specs.Outcome.{second_number, both_answer, both_over};
ghost use Rattle.two_probes.specs.Promise.{Promised};

use machine::climbing::Machine;
use sheet::form::{Form, form_of};
use sheet::refusal::Refusal;
use sheet::tr::Link;

mod both;

// Whether the weights of sheets of these forms are in one unit.
fn one_unit(first: Form, second: Form) -> bool
    ensures { result ≡ eqb (unit_of first) (unit_of second) }
{
    first.unit().count() == second.unit().count()
}

// What a second sheet of another unit than the first's is refused for, by what it is refused for itself: 1
// comes before 14.
fn other_unit(own: Refusal) -> Refusal
    ensures { number_of result ≡ cond (eqb (number_of own) 1) 1 14 }
{
    if own == Refusal::Layout {
        own
    } else {
        Refusal::Unit
    }
}

// The second sheet's machine: its 1, then 14 where its unit is not the first's, then its own 14 and 2 to 6.
fn second_machine<'a>(first: &Machine, bytes: &'a [u8]) -> Result<Machine<'a>, Refusal>
    ensures number { number_in result ≡ second_number first.now.sheet.bytes.now bytes.now }
    ensures same { IfOk result (λ m. m.sheet.bytes ≡ bytes.entry) }
{
    let second = Machine::new(bytes);
    if one_unit(first.sheet.form, form_of(bytes)) {
        return second;
    }
    match second {
        Ok(_) => Err(Refusal::Unit),
        Err(own) => Err(other_unit(own)),
    }
}

// Whether a link's output label is its input label, and is not 0.
fn is_labelled(link: Link) -> bool
    ensures { result ≡ not (eqb link.ilabel 0) && eqb link.ilabel link.olabel }
{
    link.ilabel != 0 && link.ilabel == link.olabel
}

// Whether all links of a machine have one label each, which is not 0.
fn labelled(machine: &Machine) -> bool
    ensures { result ≡ labelled (machine_at machine.now.sheet.bytes.now) }
{
    for l in 0..machine.sheet.links {
        if !is_labelled(machine.sheet.link(l)) {
            return false;
        }
    }
    true
}

// Test 10.
fn both_labelled(first: &Machine, second: &Machine) -> bool
    ensures { result ≡ labelled (machine_at first.now.sheet.bytes.now) && labelled (machine_at second.now.sheet.bytes.now) }
{
    labelled(first) && labelled(second)
}

// Writes the sheet of what two sheets both allow to the result area, and answers its bytes: 1, 14 and 2
// to 6 of the first, the same of the second, where 14 is also that its unit is not the first's, then 10,
// 11 and 12, then 21. Its node for i and j is i times the second's nodes plus j; it has a link wherever
// both have one of the same label, by the first's link, then the second's; weights add. It ends in the
// first's trailer.
pub fn two_probes(first: &[u8], second: &[u8], res: &mut [u8]) -> Result<usize, Refusal>
    ensures value { result ≡ both_answer first.now second.now (length res.old) }
    ensures res_after { res.new ≡ both_over first.now second.now res.old }
    ensures promised { Promised first.now second.now (length res.old) result res.new }
{
    let a = Machine::new(first)?;
    let b = second_machine(&a, second)?;
    if !both_labelled(&a, &b) {
        return Err(Refusal::Labels);
    }
    both::write_both(&a, &b, res)
}
