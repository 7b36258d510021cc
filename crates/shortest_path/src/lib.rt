// Lists of the cheapest readings (shortest_path.rs of rustfst), in lent slots: the open call.
#![tactic(auto)]

ghost use Rattle.std.specs.Prelude.{◌≡◌, length};
ghost use Rattle.shortest_path.specs.Outcome.{list_answer, work_after, result_after};
ghost use Rattle.shortest_path.specs.Promise.{Promised};

use list_answer::Listed;
use machine::climbing::Machine;
use machine::counted::Counted;
use sheet::refusal::Refusal;
use slots::SLOT;
use tropical_weight::LIST_LIMIT;

mod lists;

// Lists of a machine: tests 7, 20 and 21, and the answer.
fn lists_of(machine: &Machine, n: u32, work: &mut [u32], res: &mut [u8]) -> Result<Listed, Refusal>
    ensures value { result ≡ list_answer machine.now.sheet.bytes.now n (length work.old) (length res.old) }
    ensures work_new { work.new ≡ work_after machine.now.sheet.bytes.now n work.old (length res.old) }
    ensures res_after { res.new ≡ result_after machine.now.sheet.bytes.now n (length work.old) res.old }
{
    if LIST_LIMIT < n {
        return Err(Refusal::Count);
    }
    let sheet = machine.sheet;
    let counted = Counted::new(machine);
    let needed = list_answer::slots_needed(sheet.nodes, sheet.links, counted.finals, n);
    if work.len() / SLOT < (needed as usize) {
        return Err(Refusal::Work);
    }
    let words = SLOT * (needed as usize);
    let answer = lists::list_in(&counted, n, &mut work[..words], res);
    slots::clear(work, needed);
    answer
}

// The n cheapest readings of a sheet, n up to 64, as a machine and its words in the result area. A
// work slot is eight words; the slots needed are left zero unless the sheet, n or the count of slots
// is refused.
pub fn shortest_path(
    sheet: &[u8],
    n: u32,
    work: &mut [u32],
    res: &mut [u8],
) -> Result<Listed, Refusal>
    ensures value { result ≡ list_answer sheet.now n (length work.old) (length res.old) }
    ensures work_new { work.new ≡ work_after sheet.now n work.old (length res.old) }
    ensures res_after { res.new ≡ result_after sheet.now n (length work.old) res.old }
    ensures promised { Promised sheet.now n result res.new }
{
    let machine = Machine::new(sheet)?;
    lists_of(&machine, n, work, res)
}
