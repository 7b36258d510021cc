// Lists of a machine, on a part of the work area with the slots that they need. n stands beside the
// counted machine: what the two functions ask of it differs, and a struct for both would be no shorter.
ghost use Rattle.std.specs.Prelude.{◌≡◌, ◌*◌, ◌≤◌, length};
ghost use Rattle.tropical_weight.specs.Limits.{list_limit};
ghost use Rattle.slots.specs.Slots.{slot_length};
ghost use Rattle.sheet.specs.Sheet.{parts_of};
ghost use Rattle.sheet.specs.Machine.{machine_of};
ghost use Rattle.search.specs.ListMachine.{result_for};
ghost use Rattle.list_answer.specs.ListAnswer.{slots_for, listed_in, listed_over};

use list_answer::Listed;
use list_machine::trim;
use machine::counted::Counted;
use n_shortest::n_best;
use reversed_machine::reverse;
use sheet::refusal::Refusal;
use sheet::words::are_bytes;
use single_path::single;
use slots::SLOT;

// The n cheapest readings of a machine, n from 2.
pub fn list_many(
    counted: &Counted,
    n: u32,
    part: &mut [u32],
    res: &mut [u8],
) -> Result<Listed, Refusal>
    requires { (2 ≤ n) × (n ≤ list_limit) × (slot_length * slots_for (machine_of (parts_of counted.now.machine.sheet.bytes.now)) n ≤ length part.old) }
    ensures value { result ≡ listed_in (result_for (machine_of (parts_of counted.now.machine.sheet.bytes.now)) n) (length res.old) }
    ensures res_after { res.new ≡ listed_over (result_for (machine_of (parts_of counted.now.machine.sheet.bytes.now)) n) res.old }
{
    let sheet = counted.machine.sheet;
    let allowed = 1 + counted.finals + n * (sheet.links + 1);
    let heads = SLOT * (allowed as usize);
    let chains = heads + SLOT * ((sheet.nodes as usize) + 1);
    are_bytes(sheet.bytes);
    reverse::measure(&counted.machine, part, heads);
    reverse::reverse(counted, part, heads, chains);
    // without a reading the least total is unreached; with one there is a start, whose field is read
    // below without another test
    if distance::distance_at(part, heads).is_none() {
        return list_answer::put_none(res, sheet.form);
    }
    let p = n_best::Places {
        nodes: heads,
        links: chains,
        inputs: sheet.links,
        end: sheet.start + 1,
    };
    let c = n_best::n_shortest_path(part, p, n, sheet.links + counted.finals, allowed);
    trim::write_list(
        &sheet,
        part,
        c.entries as usize,
        c.listed as usize,
        c.taken,
        res,
    )
}

// The n cheapest readings of a machine.
pub fn list_in(
    counted: &Counted,
    n: u32,
    part: &mut [u32],
    res: &mut [u8],
) -> Result<Listed, Refusal>
    requires { (n ≤ list_limit) × (slot_length * slots_for (machine_of (parts_of counted.now.machine.sheet.bytes.now)) n ≤ length part.old) }
    ensures value { result ≡ listed_in (result_for (machine_of (parts_of counted.now.machine.sheet.bytes.now)) n) (length res.old) }
    ensures res_after { res.new ≡ listed_over (result_for (machine_of (parts_of counted.now.machine.sheet.bytes.now)) n) res.old }
{
    match n {
        0 => list_answer::put_none(res, counted.machine.sheet.form),
        1 => single::single_shortest_path(&counted.machine, part, res),
        _ => list_many(counted, n, part, res),
    }
}
