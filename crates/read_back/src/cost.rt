// The cost of a reading of an accepted sheet.
ghost use Rattle.std.specs.Prelude.{◌≡◌, ℕ, ◌<◌, length, get_or};
ghost use Rattle.tropical_weight.specs.Tropical.{fin};
ghost use Rattle.sheet.specs.Machine.{machine as machine_for};
ghost use Rattle.machine.specs.Readings.{IsReading, reading_of, reading_cost};
ghost use Rattle.read_back.specs.Costs.{run_sum};

use crate::walk::Walk;
use sheet::accepted::Sheet;

// The sum of the weights of the links of a run.
fn run_sum(sheet: &Sheet, run: &[u32]) -> f32
    requires { (i : ℕ) → i < length run.now → get_or run.now i 0 < sheet.now.links }
    ensures { result ≡ run_sum sheet.now.bytes.now run.now }
{
    let mut sum = tropical_weight::one();
    for l in run {
        let weight = tropical_weight::from_bits(sheet.link_bits(*l));
        sum = tropical_weight::times(sum, weight);
    }
    sum
}

// The cost of the reading that a walk has come to the end of: the sum of its weights and the final weight.
pub fn cost_of(w: &Walk, run: &[u32]) -> i32
    requires reading { IsReading (machine_for w.now.at.sheet.bytes.now) (reading_of (machine_for w.now.at.sheet.bytes.now) run.now) }
    requires end_value { w.now.at.node ≡ (reading_of (machine_for w.now.at.sheet.bytes.now) run.now).end }
    ensures { fin result ≡ reading_cost (machine_for w.now.at.sheet.bytes.now) (reading_of (machine_for w.now.at.sheet.bytes.now) run.now) }
{
    let sheet = &w.at.sheet;
    let sum = run_sum(sheet, run);
    // it has a final weight: a reading ends there
    let last = tropical_weight::from_bits(sheet.final_bits(w.at.node).unwrap_or(0));
    tropical_weight::cost(sheet.unit(), tropical_weight::times(sum, last))
}
