// A machine that a call works on: a sheet that has passed tests 1, 14 and 2 to 6.
ghost use Rattle.std.specs.Prelude.{◌≡◌, IfOk};
ghost use Rattle.sheet.specs.Refusals.{number_in};
ghost use Rattle.machine.specs.Input.{input_number};
ghost use Rattle.machine.specs.Answers.{node_climbs, nodes_climb};

use crate::limits::within_limits;
use sheet::accepted::Sheet;
use sheet::refusal::Refusal;
use sheet::source::{Source, Sources};

#[derive(Clone, Copy)]
pub struct Machine<'a> {
    pub sheet: Sheet<'a>,
    pub ghost climbs: { input_number sheet.bytes.now ≡ 0 },
}

// Whether each link of a node leads to a higher one.
fn node_climbs(source: &Source) -> bool
    ensures { result ≡ node_climbs source.now.sheet.bytes.now source.now.sheet.links source.now.node }
{
    for i in 0..source.count() {
        if source.sheet.next(source.first + i) <= source.node {
            return false;
        }
    }
    true
}

// Whether each link leads to a higher node, node by node.
fn links_climb(sheet: &Sheet) -> bool
    ensures { result ≡ nodes_climb sheet.now.bytes.now sheet.now.links sheet.now.nodes }
{
    for source in Sources::new(sheet) {
        if !node_climbs(&source) {
            return false;
        }
    }
    true
}

impl<'a> Machine<'a> {
    // Tests 1, 14 and 2 to 6 of a byte string: those of reading, then the limits, then that links climb.
    pub fn new(bytes: &'a [u8]) -> Result<Machine<'a>, Refusal>
        ensures number { number_in result ≡ input_number bytes.now }
        ensures same { IfOk result (λ m. m.sheet.bytes ≡ bytes.entry) }
    {
        let sheet = Sheet::new(bytes)?;
        within_limits(sheet.nodes, sheet.links)?;
        if !links_climb(&sheet) {
            return Err(Refusal::Climb);
        }
        Ok(Machine { sheet })
    }
}
