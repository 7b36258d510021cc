// One reading of a list, read back from a result: the numbers of its links, its cost and its end.
ghost use Rattle.std.specs.Prelude.{◌≡◌, length};
ghost use Rattle.sheet.specs.Machine.{machine as machine_for};
ghost use Rattle.read_back.specs.Answers.{held_told, held_after, reading_answer, run_after};
ghost use Rattle.read_back.specs.Follows.{if_reading};
ghost use Rattle.read_back.specs.Walks.{way_to, Walked};
ghost use Rattle.read_back.specs.Promise.{ReadsList, TellsTrue};

use crate::cost::cost_of;
use crate::walk::Walk;
use crate::way::HeldList;
use machine::climbing::Machine;
use sheet::refusal::Refusal;

// How many links the reading has, its cost in units and the node where it ends.
#[derive(Clone, Copy)]
pub struct Told {
    pub links: u32,
    pub cost: i32,
    pub end: u32,
}

// The walk along the way of reading k, from the start of the machine, where it is a reading.
fn walked<'a>(machine: &Machine<'a>, list: &HeldList, k: u32) -> Option<Walk<'a>>
    ensures { Walked machine.now.sheet.bytes.now (way_to list.now k) result }
{
    let start = machine.sheet.start()?;
    list.walk(&Walk::begin(machine, start), k)
}

// Reading k of a list in the result of a machine: 30, then 21.
fn held(machine: &Machine, list: &HeldList, k: u32, run: &mut [u32]) -> Result<Told, Refusal>
    ensures value { result ≡ held_told (machine_for machine.now.sheet.bytes.now) (if_reading (machine_for machine.now.sheet.bytes.now) (way_to list.now k)) (length run.old) }
    ensures run_new { run.new ≡ held_after (if_reading (machine_for machine.now.sheet.bytes.now) (way_to list.now k)) run.old }
{
    let w = walked(machine, list, k).ok_or(Refusal::NoAnswer)?;
    let count = w.count as usize;
    if run.len() < count {
        return Err(Refusal::Room);
    }
    list.store_way(k, run);
    Ok(Told {
        links: w.count,
        cost: cost_of(&w, &run[..count]),
        end: w.at.node,
    })
}

// Reading k, from 0, of the list for n of a sheet, in a result whose machine has so many nodes and links;
// its links go to the front of the run's area. 1, 14 and 2 to 7, then 30, 31 where there is no reading k, 30
// where its way is no reading of the sheet, and 21 where it has more links than the area has words. All comes
// loose, as callers from C hold it.
pub fn reading(
    sheet: &[u8],
    n: u32,
    res: &[u8],
    nodes: u32,
    links: u32,
    k: u32,
    run: &mut [u32],
) -> Result<Told, Refusal>
    ensures value { result ≡ reading_answer sheet.now n res.now nodes links k (length run.old) }
    ensures run_new { run.new ≡ run_after sheet.now n res.now nodes links k run.old }
    ensures reads_list { ReadsList sheet.now n res.now nodes links k run.old result run.new }
    ensures tells_true { TellsTrue (machine_for sheet.now) result run.new }
{
    let machine = Machine::new(sheet)?;
    let list = HeldList::new(res, n, nodes, links, machine.sheet.form)?;
    if list.count() <= k {
        return Err(Refusal::Absent);
    }
    held(&machine, &list, k, run)
}
