// A walk over the links of a machine, by their numbers.
ghost use Rattle.std.specs.Prelude.{◌≡◌, ◌≤◌, ◌<◌};
ghost use Rattle.machine.specs.Input.{input_number};

use machine::climbing::Machine;
use sheet::source::Source;
use sheet::tr::BARRED;

// The node that it has come to, as the source of its links, and how many links it has taken.
#[derive(Clone, Copy)]
pub struct Walk<'a> {
    pub at: Source<'a>,
    pub count: u32,
    pub ghost climbs: { input_number at.sheet.bytes.now ≡ 0 },
    pub ghost few: { count ≤ at.node },
}

impl<'a> Walk<'a> {
    ghost use Rattle.std.specs.Prelude.{Some};
    ghost use Rattle.std.proofs.Math.Option.{some};
    ghost use Rattle.sheet.specs.Machine.{machine as machine_for};
    ghost use Rattle.machine.specs.Readings.{final};
    ghost use Rattle.read_back.specs.Follows.{is_ending};
    ghost use Rattle.read_back.specs.Walks.{goes_to, Comes};

    // The walk before its first link, at a node of the machine.
    pub fn begin(machine: &Machine<'a>, at: u32) -> Walk<'a>
        requires { at < machine.now.sheet.nodes }
        ensures { Comes machine.now.sheet.bytes.now (some (0, at)) (Some result) }
    {
        let lowest = Walk {
            at: Source {
                sheet: machine.sheet,
                node: 0,
                first: 0,
            },
            count: 0,
        };
        lowest.moved(at, 0)
    }

    // The walk at a node that is no lower, by so many links in all.
    fn moved(&self, to: u32, count: u32) -> Walk<'a>
        requires { (self.now.at.node ≤ to) × (to < self.now.at.sheet.nodes) × (count ≤ to) }
        ensures { Comes self.now.at.sheet.bytes.now (some (count, to)) (Some result) }
    {
        let sheet = self.at.sheet;
        let mut first = self.at.first;
        // Not by Sources, which begin at node 0: it goes on from where the walk stands.
        for v in self.at.node..to {
            first += sheet.count(v);
        }
        Walk {
            at: Source {
                sheet,
                node: to,
                first,
            },
            count,
        }
    }

    // The walk after what a result tells: it stays where that is no number, and else goes on by the
    // link, unless it leaves another node or is barred.
    pub fn goes_on(&self, told: Option<u32>) -> Option<Walk<'a>>
        ensures { Comes self.now.at.sheet.bytes.now (goes_to (machine_for self.now.at.sheet.bytes.now) self.now.at.node self.now.count told) result }
    {
        let Some(l) = told else {
            return Some(*self);
        };
        if l < self.at.first {
            return None;
        }
        if self.at.first + self.at.count() <= l {
            return None;
        }
        let sheet = &self.at.sheet;
        if sheet.link_bits(l) == BARRED {
            return None;
        }
        Some(self.moved(sheet.next(l), self.count + 1))
    }

    // Whether a reading may end at the node that it has come to: it has mark 1, and is not barred.
    pub fn at_final(&self) -> bool
        ensures { result ≡ is_ending (final (machine_for self.now.at.sheet.bytes.now) self.now.at.node) }
    {
        self.at
            .sheet
            .final_bits(self.at.node)
            .is_some_and(|bits| bits != BARRED)
    }
}
