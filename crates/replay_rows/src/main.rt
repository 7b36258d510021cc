// Replays the stored conversions: a line a case on standard input, made by tools/row_cases.py. A line
// has, with a space between: the call (0: rows to a sheet, 1: a sheet to rows), the bytes of the result
// area, the number that the call for the length must answer (0: a length), that length, the number
// that the conversion must answer, the text or sheet, the bytes of the answer, and what the case is.
// Prints the lines that differ, and how many there were.
#![tactic(auto)]

ghost use Rattle.std.specs.Prelude.{◌≡◌, true};
ghost use Rattle.replay_rows.specs.Told.{Told};

use rows::to_rows::{rows_bytes, sheet_to_rows};
use rows::to_sheet::{rows_to_sheet, sheet_bytes};
use sheet::refusal::Refusal;
use std::io;
use stored_cases::areas::{RESULT_MARK, result_left};
use stored_cases::lines::Line;
use stored_cases::replay::replay;

// Whether a call answered this length, with the number 0, or its number alone.
// Apart in each program: crate stored_cases knows no refusals. By number: a case may tell one that no
// refusal has.
fn answered(answer: Result<usize, Refusal>, said: usize, length: usize) -> bool
    ensures { result ≡ true → Told answer said length }
{
    match answer {
        Ok(n) => said == 0 && n == length,
        Err(refusal) => said == (u32::from(refusal) as usize) && length == 0,
    }
}

// The length that the line tells, eight bytes. `as`, since usize has 64 bits here.
fn length_told(line: Line<'_>) -> usize {
    let mut bytes = [0u8; 8];
    line.bytes(3, &mut bytes);
    u64::from_le_bytes(bytes) as usize
}

// Whether the conversion of this text or sheet into as many bytes of the area as the line says answers
// and leaves what it says. No clause says it: what the conversion leaves is in areas of this function's
// own, which a clause cannot name. What is tested of them is what `answered` and `result_left` promise.
fn converts<C>(line: Line<'_>, given: &[u8], converted: C) -> bool
where
    C: FnOnce(&[u8], &mut [u8]) -> Result<usize, Refusal>,
    requires { C.IsAlwaysCallable converted }
{
    let mut result = [RESULT_MARK; 16384];
    let mut bytes = [0u8; 16384];
    let bytes = line.bytes(6, &mut bytes);
    let Some(res) = result.get_mut(..line.number(1)) else {
        return false;
    };
    let answer = converted(given, res);
    answered(answer, line.number(4), bytes.len()) && result_left(&result, bytes)
}

// Whether the case of a line holds. By the line's number: two calls, chosen here alone.
fn holds(line: Line<'_>) -> bool {
    let mut given = [0u8; 8192];
    let given = line.bytes(5, &mut given);
    let (length, converted) = match line.number(0) {
        0 => (sheet_bytes(given), converts(line, given, rows_to_sheet)),
        _ => (rows_bytes(given), converts(line, given, sheet_to_rows)),
    };
    converted && answered(length, line.number(2), length_told(line))
}

fn main(rt: HostRuntime) -> io::Result<()> {
    replay::<524288, _, _, _>(&rt, &mut rt.stdin(), holds)
}
