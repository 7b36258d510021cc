// Replays the stored calls for lists: a line a case on standard input, made by tools/list_cases.py. A
// line has, with a space between: the number that the call must answer (0: a list), n, the words of the
// work area, the bytes of the result area, the words of the work area that must be left zero, the
// nodes and links of the list's machine and the entries taken, the bytes of the sheet, those bytes,
// the bytes of the answer, and what the case is. Prints the lines that differ, and how many there
// were.
#![tactic(auto)]

ghost use Rattle.std.specs.Prelude.{◌≡◌, ◌+◌, ◌*◌, ◌==◌, true};
ghost use Rattle.stored_cases.specs.Digits.{number_on};
ghost use Rattle.stored_cases.specs.Fields.{field_of};
ghost use Rattle.sheet.specs.Words.{word_length};
ghost use Rattle.sheet.specs.Sheet.{link_length, node_length, trailer_length};
ghost use Rattle.replay_lists.specs.Told.{Told};

use list_answer::Listed;
use sheet::form::{Form, form_of};
use sheet::refusal::Refusal;
use sheet::tr::{LINK, NODE};
use sheet::words::WORD;
use shortest_path::shortest_path;
use slots::SLOT;
use std::io;
use stored_cases::areas::{RESULT_MARK, WORK_MARK, result_left, work_left};
use stored_cases::lines::Line;
use stored_cases::replay::replay;
use tropical_weight::{LINK_LIMIT, NODE_LIMIT};

// Words of the work area: for two nodes with as many links as there may be, n = 2.
const WORK: usize = SLOT * (3 * LINK_LIMIT + 12);

// Bytes of the result area: for the longest chain, n = 2.
const RESULT: usize = (LINK + NODE + WORD) * (NODE_LIMIT + 4);

// Bytes of a sheet: for a few links more than there may be, and two nodes.
const SHEET: usize = LINK * (LINK_LIMIT + 4);

// Whether the field behind so many spaces has this number.
fn says(line: Line<'_>, spaces: usize, n: u32) -> bool
    ensures { result ≡ (number_on 0 (field_of line.entry.text.now spaces) == n) }
{
    line.number(spaces) == (n as usize)
}

// The bytes of an answer: a sheet of that form, of so many nodes and links, and a word per link.
fn length_of(nodes: u32, links: u32, form: Form) -> usize
    ensures { result ≡ (link_length + word_length) * links + node_length * nodes + trailer_length form }
{
    (LINK + WORD) * (links as usize) + NODE * (nodes as usize) + form.trailer()
}

// Whether the call on a sheet of that form answered what the line says: 0 with the counts, or its number
// alone, and so many bytes.
// Apart in each program: crate stored_cases knows no refusals. By number: a case may tell one that no
// refusal has.
fn answered(answer: Result<Listed, Refusal>, line: Line<'_>, form: Form, bytes: usize) -> bool
    ensures { result ≡ true → Told answer line.entry.text.now form bytes }
{
    match answer {
        Ok(list) => {
            says(line, 0, 0)
                && says(line, 5, list.nodes)
                && says(line, 6, list.links)
                && says(line, 7, list.taken)
                && bytes == length_of(list.nodes, list.links, form)
        }
        Err(refusal) => says(line, 0, u32::from(refusal)) && bytes == 0,
    }
}

// The call for a list with as many words and bytes of the areas as the line says, none where there are
// fewer. `as`, since a line's number has six digits at most.
fn call(
    line: Line<'_>,
    sheet: &[u8],
    work: &mut [u32],
    res: &mut [u8],
) -> Option<Result<Listed, Refusal>> {
    let work = work.get_mut(..line.number(2))?;
    let res = res.get_mut(..line.number(3))?;
    Some(shortest_path(sheet, line.number(1) as u32, work, res))
}

// Whether the call on this sheet does what the line says. No clause says it: what the call leaves is in
// areas of this function's own, which a clause cannot name. What is tested of them is what `answered`,
// `result_left` and `work_left` promise.
fn does(line: Line<'_>, sheet: &[u8]) -> bool {
    let mut work = [WORK_MARK; WORK];
    let mut result = [RESULT_MARK; RESULT];
    let mut bytes = [0u8; RESULT];
    let bytes = line.bytes(10, &mut bytes);
    let Some(answer) = call(line, sheet, &mut work, &mut result) else {
        return false;
    };
    answered(answer, line, form_of(sheet), bytes.len())
        && result_left(&result, bytes)
        && work_left(&work, line.number(4))
}

// Whether the case of a line holds.
fn holds(line: Line<'_>) -> bool {
    let mut sheet = [0u8; SHEET];
    let sheet = line.bytes(9, &mut sheet);
    sheet.len() == line.number(8) && does(line, sheet)
}

fn main(rt: HostRuntime) -> io::Result<()> {
    replay::<655360, _, _, _>(&rt, &mut rt.stdin(), holds)
}
