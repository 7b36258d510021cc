// Replays the stored calls for the two parts of a machine: a line a case on standard input, made by
// tools/part_cases.py. A line has, with a space between: the number that the call must answer (0: two
// parts), the node, the bytes of the result area, the bytes of the sheet, those bytes, how many links the
// first part has and how many the second, the bytes of the answer, and what the case is. Prints the lines
// that differ, and how many there were.
#![tactic(auto)]

ghost use Rattle.std.specs.Prelude.{◌≡◌, true, IfOk, IfErr};
ghost use Rattle.sheet.specs.Refusals.{number_in};

use preheat_bake::counts::Counts;
use preheat_bake::split;
use sheet::form::LONG_TRAILER;
use sheet::refusal::Refusal;
use sheet::tr::{LINK, NODE};
use sheet::words::WORD;
use std::io;
use stored_cases::areas::{RESULT_MARK, result_left};
use stored_cases::lines::Line;
use stored_cases::replay::replay;
use tropical_weight::{LINK_LIMIT, NODE_LIMIT};

// Bytes of the result area: for three nodes more than the longest answer has.
const RESULT: usize = (LINK + WORD) * LINK_LIMIT + NODE * (NODE_LIMIT + 4) + 2 * LONG_TRAILER;

// Bytes of a sheet: for a link and a node more than there may be.
const SHEET: usize = LINK * (LINK_LIMIT + 1) + NODE * (NODE_LIMIT + 1) + LONG_TRAILER;

// Whether the call answered this number, and where it is 0 so many links of each part.
// Apart in each program: crate stored_cases knows no refusals.
fn answered(answer: Result<Counts, Refusal>, said: usize, first: usize, second: usize) -> bool
    ensures number { result ≡ true → number_in answer ≡ said }
    ensures counts { result ≡ true → IfOk answer (λ told. (told.first ≡ first) × (told.second ≡ second)) }
    ensures no_counts { result ≡ true → IfErr answer (λ e. (first ≡ 0) × (second ≡ 0)) }
{
    match answer {
        Ok(told) => { said == 0 && told.first as usize == first && told.second as usize == second }
        Err(refusal) => said == (u32::from(refusal) as usize) && first == 0 && second == 0,
    }
}

// The node that the line names, four bytes: a number in a line has six digits at the most.
fn node(line: Line<'_>) -> u32 {
    let mut bytes = [0u8; 4];
    line.bytes(1, &mut bytes);
    u32::from_le_bytes(bytes)
}

// This, `does` and `holds` are apart in each program: the fields stand at other places, and the calls take
// and answer other types.
//
// The call with as many bytes of the area as the line says, none where there are fewer. Promises nothing
// itself: the call does, and the line's numbers have no definition.
fn call(line: Line<'_>, sheet: &[u8], res: &mut [u8]) -> Option<Result<Counts, Refusal>> {
    let res = res.get_mut(..line.number(2))?;
    Some(split(sheet, node(line), res))
}

// Whether the call on this sheet does what the line says. Promises nothing: what a line says has no
// definition, and what the area must hold is promised by the test of it.
fn does(line: Line<'_>, sheet: &[u8]) -> bool {
    let mut result = [RESULT_MARK; RESULT];
    let mut bytes = [0u8; RESULT];
    let bytes = line.bytes(7, &mut bytes);
    call(line, sheet, &mut result).is_some_and(|answer| answered(
        answer,
        line.number(0),
        line.number(5),
        line.number(6),
    )) && result_left(&result, bytes)
}

// Whether the case of a line holds. Promises nothing, as `does`.
fn holds(line: Line<'_>) -> bool {
    let mut sheet = [0u8; SHEET];
    let sheet = line.bytes(4, &mut sheet);
    sheet.len() == line.number(3) && does(line, sheet)
}

fn main(rt: HostRuntime) -> io::Result<()> {
    replay::<524288, _, _, _>(&rt, &mut rt.stdin(), holds)
}
