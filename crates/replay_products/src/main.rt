// Replays the stored calls for what two sheets both allow: a line a case on standard input, made by
// tools/product_cases.py. A line has, with a space between: the number that the call must answer (0: a
// sheet), the bytes of the result area, the bytes of the first sheet, those bytes, the bytes of the
// second, those bytes, the bytes of the answer, and what the case is. Prints the lines that differ, and
// how many there were.
#![tactic(auto)]

ghost use Rattle.std.specs.Prelude.{◌≡◌, true, IfOk, IfErr};
ghost use Rattle.sheet.specs.Refusals.{number_in};

use sheet::form::LONG_TRAILER;
use sheet::refusal::Refusal;
use sheet::tr::{LINK, NODE};
use std::io;
use stored_cases::areas::{RESULT_MARK, result_left};
use stored_cases::lines::Line;
use stored_cases::replay::replay;
use tropical_weight::{LINK_LIMIT, NODE_LIMIT};
use two_probes::two_probes;

// Bytes of the result area: for a link more than the longest answer has, with the longer trailer.
const RESULT: usize = LINK * (LINK_LIMIT + 1) + NODE * NODE_LIMIT + LONG_TRAILER;

// Bytes of a sheet: for a link more than there may be, two nodes, and the longer trailer.
const SHEET: usize = LINK * (LINK_LIMIT + 1) + NODE * 2 + LONG_TRAILER;

// Whether the call answered this number, and where it is 0 so many bytes.
// Apart in each program: crate stored_cases knows no refusals.
fn answered(answer: Result<usize, Refusal>, said: usize, bytes: usize) -> bool
    ensures number { result ≡ true → number_in answer ≡ said }
    ensures long { result ≡ true → IfOk answer (λ n. bytes ≡ n) × IfErr answer (λ e. bytes ≡ 0) }
{
    match answer {
        Ok(n) => said == 0 && bytes == n,
        Err(refusal) => said == (u32::from(refusal) as usize) && bytes == 0,
    }
}

// This, `does` and `holds` are apart in each program: the fields stand at other places, and the calls take
// and answer other types.
//
// The call with as many bytes of the area as the line says, none where there are fewer. Promises nothing
// itself: the call does, and the line's numbers have no definition.
fn call(
    line: Line<'_>,
    first: &[u8],
    second: &[u8],
    res: &mut [u8],
) -> Option<Result<usize, Refusal>> {
    let res = res.get_mut(..line.number(1))?;
    Some(two_probes(first, second, res))
}

// Whether the call on these sheets does what the line says. Promises nothing: what a line says has no
// definition, and what the area must hold is promised by the test of it.
fn does(line: Line<'_>, first: &[u8], second: &[u8]) -> bool {
    let mut result = [RESULT_MARK; RESULT];
    let mut bytes = [0u8; RESULT];
    let bytes = line.bytes(6, &mut bytes);
    call(line, first, second, &mut result).is_some_and(|answer| answered(
        answer,
        line.number(0),
        bytes.len(),
    )) && result_left(&result, bytes)
}

// Whether the case of a line holds. Promises nothing, as `does`.
fn holds(line: Line<'_>) -> bool {
    let mut first = [0u8; SHEET];
    let mut second = [0u8; SHEET];
    let first = line.bytes(3, &mut first);
    let second = line.bytes(5, &mut second);
    first.len() == line.number(2) && second.len() == line.number(4) && does(line, first, second)
}

fn main(rt: HostRuntime) -> io::Result<()> {
    replay::<524288, _, _, _>(&rt, &mut rt.stdin(), holds)
}
