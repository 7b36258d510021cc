// Distances read back from the result of the call for distances, in a unit that the caller gives: the result
// does not say it.
#![tactic(auto)]

ghost use Rattle.std.specs.Prelude.{◌≡◌};
ghost use Rattle.tropical_weight.specs.Units.{places};
ghost use Rattle.read_distance.specs.Told.{pattern_tells, words_tell, distance_told};
ghost use Rattle.read_distance.specs.Promise.{ReadBack};

use distance::WRITTEN;
use sheet::refusal::Refusal;
use sheet::words::{WORD, word};
use tropical_weight::SUM_LIMIT;
use tropical_weight::unit::Unit;

// The distance of a reached node by its second word: the pattern of so many units within the limit.
fn reached_at(bits: u32, unit: Unit) -> Result<Option<i32>, Refusal>
    ensures { result ≡ pattern_tells (places unit) bits }
{
    let units = tropical_weight::cost(unit, tropical_weight::from_bits(bits));
    if SUM_LIMIT < tropical_weight::magnitude(units) {
        return Err(Refusal::NoAnswer);
    }
    if tropical_weight::to_bits(tropical_weight::from_units(unit, units)) != bits {
        return Err(Refusal::NoAnswer);
    }
    Ok(Some(units))
}

// The distance that two words say: the units of a reached node, or none of another.
fn distance_of(mark: u32, bits: u32, unit: Unit) -> Result<Option<i32>, Refusal>
    ensures { result ≡ words_tell (places unit) mark bits }
{
    match (mark, bits) {
        (1, _) => reached_at(bits, unit),
        (0, 0) => Ok(None),
        _ => Err(Refusal::NoAnswer),
    }
}

// The distance of a node, or none of an unreached one, from a result that is said to hold so many values:
// refused where the result is shorter, where the node is not among them, and where its words are no
// distance. The count is what a caller from C was told, and is tested.
#[inline(always)]
pub fn distance_at(res: &[u8], values: u32, node: u32, unit: Unit) -> Result<Option<i32>, Refusal>
    ensures value { result ≡ distance_told (places unit) res.now values node }
    ensures read_back { ReadBack (places unit) res.now values node result }
{
    if res.len() < WRITTEN * (values as usize) {
        return Err(Refusal::NoAnswer);
    }
    if values <= node {
        return Err(Refusal::Absent);
    }
    let at = WRITTEN * (node as usize);
    distance_of(word(res, at), word(res, at + WORD), unit)
}
