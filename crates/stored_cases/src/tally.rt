// The tally of a replay: how many cases there were, and how many differ.
ghost use Rattle.std.specs.Prelude.{◌≡◌, cond, ◌+◌, ◌^◌, ◌≤◌, ◌<◌};

use std::fmt::{Display, Formatter, Result, Write};

#[derive(Clone, Copy)]
pub struct Tally {
    pub cases: u64,
    pub differ: u64,
    pub ghost at_most_all: { differ ≤ cases },
}

impl Tally {
    // The tally before any case.
    pub fn new() -> Tally
        ensures { (result.cases ≡ 0) × (result.differ ≡ 0) }
    {
        Tally {
            cases: 0,
            differ: 0,
        }
    }

    // Counts one case more.
    pub fn count(&mut self, holds: bool)
        requires { self.old.cases + 1 < 2 ^ 64 }
        ensures cases_value { self.new.cases ≡ self.old.cases + 1 }
        ensures differ_value { self.new.differ ≡ cond holds self.old.differ (self.old.differ + 1) }
    {
        self.cases += 1;
        if !holds {
            self.differ += 1;
        }
    }
}

// Both counts, a line each.
impl Display for Tally {
    fn fmt<W: Write>(&self, f: &mut Formatter<W>) -> Result {
        write!(f, "cases: {}\ndiffer: {}", self.cases, self.differ)
    }
}
