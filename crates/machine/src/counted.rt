// A machine with the count of its final nodes, for calls that lay out a slot for each of them.
ghost use Rattle.std.specs.Prelude.{◌≡◌, ◌≤◌};
ghost use Rattle.machine.specs.Finals.{final_count};

use crate::climbing::Machine;
use crate::finals::count_finals;

#[derive(Clone, Copy)]
pub struct Counted<'a> {
    pub machine: Machine<'a>,
    pub finals: u32,
    pub ghost counted: { finals ≡ final_count machine.sheet.bytes.now machine.sheet.links machine.sheet.nodes },
}

impl<'a> Counted<'a> {
    // Counts them, no more than there are nodes.
    pub fn new(machine: &Machine<'a>) -> Counted<'a>
        ensures same { result.machine ≡ machine.now }
        ensures finals { result.finals ≡ final_count machine.now.sheet.bytes.now machine.now.sheet.links machine.now.sheet.nodes }
        ensures few { result.finals ≤ machine.now.sheet.nodes }
    {
        let sheet = machine.sheet;
        Counted {
            machine: *machine,
            finals: count_finals(sheet.bytes, sheet.links, sheet.nodes),
        }
    }
}
