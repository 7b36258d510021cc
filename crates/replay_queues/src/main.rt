// Replays the stored calls on a queue's record: a line a case on standard input, made by
// tools/queue_cases.py. A line has, with a space between: a record, the calls made on it one after
// the other with the answer that each must give, the record that must be left, and what the case is.
// A call is four words: which one, its node, the kind of its answer, and the answer's value. Prints
// the lines that differ, and how many there were.
#![tactic(auto)]

mod calls;
mod records;

use calls::Made;
use records::{record_of, same};
use state_order_queue::Queue;
use std::io;
use stored_cases::lines::Line;
use stored_cases::replay::replay;
use tropical_weight::NODE_LIMIT;

// Bytes of a stored record: front, back in two words, and a word for each node in.
const RECORD: usize = 12 + 4 * NODE_LIMIT;

// The record that the calls leave, where each gives its answer.
fn left(q: Queue, made: &[u8]) -> Option<Queue> {
    let mut queue = q;
    for call in made.chunks_exact(16) {
        queue = Made::of(call).ok()?.on(queue)?;
    }
    Some(queue)
}

// Whether the case of a line holds.
fn holds(line: Line<'_>) -> bool {
    let mut before = [0u8; RECORD];
    let mut made = [0u8; 1024];
    let mut after = [0u8; RECORD];
    let before = line.bytes(0, &mut before);
    let made = line.bytes(1, &mut made);
    let after = line.bytes(2, &mut after);
    if before.len() < 12 || after.len() < 12 || made.len() < 16 {
        return false;
    }
    left(record_of(before), made).is_some_and(|queue| same(&queue, &record_of(after)))
}

fn main(rt: HostRuntime) -> io::Result<()> {
    replay::<262144, _, _, _>(&rt, &mut rt.stdin(), holds)
}
