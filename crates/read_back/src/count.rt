// How many readings a result holds.
ghost use Rattle.std.specs.Prelude.{◌≡◌};
ghost use Rattle.read_back.specs.Answers.{count_answer};
ghost use Rattle.read_back.specs.Promise.{CountsList};

use crate::way::HeldList;
use sheet::form::Form;
use sheet::refusal::Refusal;

// How many readings the list for n in a result holds, whose machine has so many nodes and links: 7, then
// 30. The result and its counts come loose, as callers from C hold them; no sheet tells the form, and the
// count is the same in both.
pub fn count_readings(res: &[u8], n: u32, nodes: u32, links: u32) -> Result<u32, Refusal>
    ensures value { result ≡ count_answer res.now n nodes links }
    ensures counts_list { CountsList res.now n nodes links result }
{
    Ok(HeldList::new(res, n, nodes, links, Form::Short)?.count())
}
