// Replays the stored calls for distances: a line a case on standard input, made by
// tools/distance_cases.py. A line has, with a space between: the number that the call must answer (0:
// the distances), the words of the work area, the bytes of the result area, the words of the work
// area that must be left zero, the bytes of the sheet, those bytes, the bytes of the answer, and what
// the case is. Prints the lines that differ, and how many there were.
#![tactic(auto)]

ghost use Rattle.std.specs.Prelude.{◌≡◌, ◌*◌, true, IfOk, IfErr};
ghost use Rattle.sheet.specs.Refusals.{number_in};
ghost use Rattle.distance.specs.Written.{written_length};

use distance::WRITTEN;
use sheet::refusal::Refusal;
use sheet::tr::LINK;
use shortest_distance::shortest_distance;
use slots::SLOT;
use std::io;
use stored_cases::areas::{RESULT_MARK, WORK_MARK, result_left, work_left};
use stored_cases::lines::Line;
use stored_cases::replay::replay;
use tropical_weight::{LINK_LIMIT, NODE_LIMIT};

// Words of the work area and bytes of the result area: for two nodes more than there may be.
const CELLS: usize = SLOT * (NODE_LIMIT + 2);

// Bytes of a sheet: for a few links more than there may be, two nodes, and the longer trailer.
const SHEET: usize = LINK * (LINK_LIMIT + 8);

// Whether the call answered this number, and where it is 0 so many bytes of distances.
// Apart in each program: crate stored_cases knows no refusals.
fn answered(answer: Result<u32, Refusal>, said: usize, bytes: usize) -> bool
    ensures number { result ≡ true → number_in answer ≡ said }
    ensures long { result ≡ true → IfOk answer (λ n. bytes ≡ written_length * n) × IfErr answer (λ e. bytes ≡ 0) }
{
    match answer {
        Ok(n) => said == 0 && bytes == WRITTEN * (n as usize),
        Err(refusal) => said == (u32::from(refusal) as usize) && bytes == 0,
    }
}

// This, `does` and `holds` are apart in each program: the fields stand at other places, and the calls take
// and answer other types.
//
// The call for distances with as many words and bytes of the areas as the line says, none where there
// are fewer. Promises nothing itself: the call does, and the line's numbers have no definition.
fn call(
    line: Line<'_>,
    sheet: &[u8],
    work: &mut [u32],
    res: &mut [u8],
) -> Option<Result<u32, Refusal>> {
    let work = work.get_mut(..line.number(1))?;
    let res = res.get_mut(..line.number(2))?;
    Some(shortest_distance(sheet, work, res))
}

// Whether the call on this sheet does what the line says. Promises nothing: what a line says has no
// definition, and what the areas must hold is promised by the tests of them.
fn does(line: Line<'_>, sheet: &[u8]) -> bool {
    let mut work = [WORK_MARK; CELLS];
    let mut result = [RESULT_MARK; CELLS];
    let mut bytes = [0u8; CELLS];
    let bytes = line.bytes(6, &mut bytes);
    call(line, sheet, &mut work, &mut result).is_some_and(|answer| answered(
        answer,
        line.number(0),
        bytes.len(),
    )) && result_left(&result, bytes)
        && work_left(&work, line.number(3))
}

// Whether the case of a line holds. Promises nothing, as `does`.
fn holds(line: Line<'_>) -> bool {
    let mut sheet = [0u8; SHEET];
    let sheet = line.bytes(5, &mut sheet);
    sheet.len() == line.number(4) && does(line, sheet)
}

fn main(rt: HostRuntime) -> io::Result<()> {
    replay::<524288, _, _, _>(&rt, &mut rt.stdin(), holds)
}
