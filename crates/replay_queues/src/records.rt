// A queue's record as words, little-endian: front, 0 or 1 for back none or some, back, and each node
// whose flag is set.
ghost use Rattle.std.specs.Prelude.{◌≡◌, true, ◌≤◌, length};
ghost use Rattle.replay_queues.specs.Same.{Same};
ghost use Rattle.replay_queues.specs.Records.{queue_of};

use sheet::words::word;
use state_order_queue::Queue;
use tropical_weight::NODE_LIMIT;

// The record of these words.
pub fn record_of(words: &[u8]) -> Queue
    requires { 12 ≤ length words.now }
    ensures { result ≡ queue_of words.now }
{
    let mut flags = [false; NODE_LIMIT];
    for node in words[12..].chunks_exact(4) {
        let v = word(node, 0) as usize;
        if v < NODE_LIMIT {
            flags[v] = true;
        }
    }
    let has_back = word(words, 4) != 0;
    Queue {
        front: word(words, 0),
        back: has_back.then_some(word(words, 8)),
        flags,
    }
}

// Whether both records have the same ends and flags: by the derived equality, in a function for its clause.
pub fn same(a: &Queue, b: &Queue) -> bool
    ensures { result ≡ true → Same a.now b.now }
{
    a == b
}
