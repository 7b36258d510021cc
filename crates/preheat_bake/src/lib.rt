// A machine that narrows to a node, in two parts: preheat up to the node, and the bake from there on.
#![tactic(auto)]

ghost use Rattle.std.specs.Prelude.{◌≡◌, length};
ghost use Rattle.preheat_bake.specs.Outcome.{split_answer, split_over};
ghost use Rattle.preheat_bake.specs.Promise.{Promised};

use crate::counts::Counts;
use machine::climbing::Machine;
use narrowing::Narrowing;
use sheet::refusal::Refusal;

pub mod counts;
mod parts;

// Writes two sheets to the result area, and answers how many links each has: the nodes up to c, with c
// final at weight 0 and its links removed, and the nodes from c, starting there. Each ends in a trailer of
// the whole sheet's form, and is followed by one word per link, the number that link has in the whole.
// 1, 14, 2 to 6, then 13, then 21.
pub fn split(sheet: &[u8], c: u32, res: &mut [u8]) -> Result<Counts, Refusal>
    ensures value { result ≡ split_answer sheet.now c (length res.old) }
    ensures res_after { res.new ≡ split_over sheet.now c res.old }
    ensures promised { Promised sheet.now c (length res.old) result res.new }
{
    let machine = Machine::new(sheet)?;
    let narrowing = Narrowing::new(&machine, c)?;
    parts::write(&narrowing, res)
}
