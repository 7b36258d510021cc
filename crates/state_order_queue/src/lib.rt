// The queue of nodes in their order (state_order_queue.rs, queue.rs of rustfst), as one record.
//
// Each call takes the record by value, tests it and hands it back: with refusal 22 it is unchanged.
// The methods without a test are for a caller that keeps the record valid. Relaxation stores a
// flag in its own record first, and the record then goes by value through `enqueue_flagged` and
// `dequeue_cleared`, which move its ends alone: that compiles to no copy of the flags. `enqueue` and
// `dequeue` go through the same two. Back is matched where the record is at hand and handed on as a
// number: an option that is handed on is read whole, and a read of what was just stored in parts waits.
#![tactic(auto)]

ghost use Rattle.std.specs.Prelude.{◌≡◌, Some, true, false, ◌-◌, ◌≤◌, ◌<◌};
ghost use Rattle.tropical_weight.specs.Limits.{node_limit};
ghost use Rattle.state_order_queue.specs.Queues.{first_set, next_front, holds, is_empty, ends_fit, ends_set, is_inside, flags_inside, is_valid, emptied, front_with, back_with, enqueued, dequeued};
ghost use Rattle.state_order_queue.specs.Answers.{refused, enqueue_answer, update_answer, clear_answer, dequeue_answer, head_answer, is_empty_answer};

use sheet::refusal::Refusal;

// One flag a node: the limits of the record follow the limit on nodes.
const FLAGS: usize = tropical_weight::NODE_LIMIT;

// A node that is put in is below this, front at most this.
const NODES: u32 = FLAGS as u32;

// Back is the last node that may be in: none where no node was put in since the queue was new or
// cleared. A node is in where its flag is set.
#[derive(Clone, Copy, PartialEq, Eq)]
pub struct Queue {
    pub front: u32,
    pub back: Option<u32>,
    pub flags: [bool; FLAGS],
}

// What a call answers, and the record that it hands back.
#[derive(Clone, Copy)]
pub struct Answered<T> {
    pub answer: Result<T, Refusal>,
    pub queue: Queue,
}

// The answer of a call where the record is refused: it is unchanged. Each of six calls tests the record
// itself and returns this: a combinator would take what follows the test as a closure over the record,
// and the six would be no shorter.
fn refused<T>(queue: Queue) -> Answered<T>
    ensures { result ≡ refused queue }
{
    Answered {
        answer: Err(Refusal::Queue),
        queue,
    }
}

// The first node with a flag, or the end.
fn first_set(flags: &[bool; FLAGS], from: u32, end: u32) -> u32
    requires { (from ≤ end) × (end ≤ node_limit) }
    ensures { result ≡ first_set (end - from) from flags.now }
{
    for v in from..end {
        if flags[v as usize] {
            return v;
        }
    }
    end
}

// The first node with a flag from front to back, or the one past back.
pub fn next_front(front: u32, back: u32, flags: &[bool; FLAGS]) -> u32
    requires { (front ≤ back) × (back < node_limit) }
    ensures { result ≡ next_front front (Some back) flags.now }
{
    first_set(flags, front, back + 1)
}

// A node below front, or the first of an empty queue, is the new front.
fn front_with(front: u32, back: u32, v: u32) -> u32
    ensures { result ≡ front_with front (Some back) v }
{
    if back < front || v < front { v } else { front }
}

// A node above back, or the first of an empty queue, is the new back.
fn back_with(front: u32, back: u32, v: u32) -> u32
    ensures { result ≡ back_with front (Some back) v }
{
    if back < front || back < v { v } else { back }
}

// ---- the tests of a record
impl Queue {
    // Front is at most the limit on nodes and back below it; front is 0 where back is none.
    fn ends_fit(&self) -> bool
        ensures { result ≡ ends_fit self.now.front self.now.back }
    {
        match self.back {
            None => self.front == 0,
            Some(b) => self.front <= NODES && b < NODES,
        }
    }

    // A queue not empty has a flag at front and at back.
    fn ends_set(&self) -> bool
        requires { ends_fit self.now.front self.now.back ≡ true }
        ensures { result ≡ ends_set self.now.front self.now.back self.now.flags }
    {
        match self.back {
            None => true,
            Some(b) => {
                if b < self.front {
                    return true;
                }
                let first = self.flags[self.front as usize];
                let last = self.flags[b as usize];
                first && last
            }
        }
    }

    // Whether a node is one of front to back.
    fn is_inside(&self, v: u32) -> bool
        ensures { result ≡ is_inside self.now.front self.now.back v }
    {
        match self.back {
            None => false,
            Some(b) => self.front <= v && v <= b,
        }
    }

    // No flag is set outside front to back.
    fn flags_inside(&self) -> bool
        ensures { result ≡ flags_inside self.now.front self.now.back self.now.flags }
    {
        for v in 0..NODES {
            if self.flags[v as usize] && !self.is_inside(v) {
                return false;
            }
        }
        true
    }

    // Whether a record breaks no condition of refusal 22.
    #[tactic(auto, unfolding(crate::specs::Queues::is_valid))]
    pub fn is_valid(&self) -> bool
        ensures { result ≡ is_valid self.now }
    {
        self.ends_fit() && self.ends_set() && self.flags_inside()
    }

    // Whether a queue with these ends is empty.
    fn holds_none(&self) -> bool
        ensures { result ≡ is_empty self.now }
    {
        match self.back {
            None => true,
            Some(b) => b < self.front,
        }
    }
}

// ---- without a test
impl Queue {
    // A queue without nodes.
    pub fn new() -> Queue
        ensures { result ≡ emptied }
    {
        Queue {
            front: 0,
            back: None,
            flags: [false; FLAGS],
        }
    }

    // The queue with a node put in whose flag is set already: only the ends move.
    pub fn enqueue_flagged(self, state: u32) -> Queue
        requires { holds self state ≡ true }
        ensures { result ≡ enqueued self state }
    {
        let front = self.front;
        let flags = self.flags;
        let Some(back) = self.back else {
            return Queue {
                front: state,
                back: Some(state),
                flags,
            };
        };
        Queue {
            front: front_with(front, back, state),
            back: Some(back_with(front, back, state)),
            flags,
        }
    }

    // The queue with a node put in.
    pub fn enqueue_untested(self, state: u32) -> Queue
        requires { state < node_limit }
        ensures { result ≡ enqueued self state }
    {
        let mut queue = self;
        queue.flags[state as usize] = true;
        queue.enqueue_flagged(state)
    }

    // The queue without its front, whose flag is cleared already: only front moves.
    pub fn dequeue_cleared(self, next: u32) -> Queue
        requires { (holds self self.front ≡ false) × (next ≡ next_front self.front self.back self.flags) }
        ensures { result ≡ dequeued self }
    {
        Queue {
            front: next,
            ..self
        }
    }

    // The queue without its front.
    fn dequeue_untested(self) -> Queue
        requires { (is_valid self ≡ true) × (is_empty self ≡ false) }
        ensures { result ≡ dequeued self }
    {
        let front = self.front;
        // a queue that is not empty has a back
        let Some(back) = self.back else {
            return self;
        };
        let mut queue = self;
        queue.flags[front as usize] = false;
        let next = next_front(front, back, &queue.flags);
        queue.dequeue_cleared(next)
    }
}

// ---- the calls
impl Queue {
    // Puts a node in.
    pub fn enqueue(self, state: u32) -> Answered<()>
        ensures { result ≡ enqueue_answer self state }
    {
        if !self.is_valid() || NODES <= state {
            return refused(self);
        }
        Answered {
            answer: Ok(()),
            queue: self.enqueue_untested(state),
        }
    }

    // Takes the least node out; none of an empty queue.
    #[tactic(auto, unfolding(crate::specs::Queues::dequeued))]
    pub fn dequeue(self) -> Answered<Option<u32>>
        ensures { result ≡ dequeue_answer self }
    {
        if !self.is_valid() {
            return refused(self);
        }
        let front = self.front;
        if self.holds_none() {
            return Answered {
                answer: Ok(None),
                queue: self,
            };
        }
        Answered {
            answer: Ok(Some(front)),
            queue: self.dequeue_untested(),
        }
    }

    // The front, also of an empty queue.
    pub fn head(self) -> Answered<Option<u32>>
        ensures { result ≡ head_answer self }
    {
        if !self.is_valid() {
            return refused(self);
        }
        Answered {
            answer: Ok(Some(self.front)),
            queue: self,
        }
    }

    // Changes nothing, since a node's place in the order never changes; any node will do.
    pub fn update(self, state: u32) -> Answered<()>
        ensures { result ≡ update_answer self state }
    {
        if !self.is_valid() {
            return refused(self);
        }
        Answered {
            answer: Ok(()),
            queue: self,
        }
    }

    // Whether there is no node.
    pub fn is_empty(self) -> Answered<bool>
        ensures { result ≡ is_empty_answer self }
    {
        if !self.is_valid() {
            return refused(self);
        }
        Answered {
            answer: Ok(self.holds_none()),
            queue: self,
        }
    }

    // Takes every node out.
    pub fn clear(self) -> Answered<()>
        ensures { result ≡ clear_answer self }
    {
        if !self.is_valid() {
            return refused(self);
        }
        Answered {
            answer: Ok(()),
            queue: Queue::new(),
        }
    }
}
