// The open calls on a queue's record by their numbers in the stored cases, and what they answer.
ghost use Rattle.std.specs.Prelude.{◌≡◌, ◌≤◌, length, MatchResult};
ghost use Rattle.replay_queues.specs.Calls.{made_of, given_by, Leaves};
ghost use Rattle.replay_queues.specs.declared.calls.Answer.TheVariants.{Refused};
ghost use Rattle.sheet.specs.Refusals.{number_of};

use sheet::words::word;
use state_order_queue::{Answered, Queue};

// The calls, by their numbers: each from the last one's on stands for it.
#[derive(Clone, Copy)]
pub enum Call {
    Enqueue,
    Dequeue,
    Head,
    Update,
    IsEmpty,
    Clear,
    IsValid,
}

// What a call answers: that it is done, a node, none, the number of the refusal, or a test.
#[derive(Clone, Copy, PartialEq, Eq)]
pub enum Answer {
    Done,
    Node(u32),
    None,
    // The number as the case tells it: a case may tell one that no refusal has.
    Refused(u32),
    Test(bool),
}

// A kind and a value that stand for no answer.
#[derive(Clone, Copy)]
pub struct Unknown;

impl From<u32> for Call {
    ghost use Rattle.replay_queues.specs.Calls.{call_of};

    ghost from_gives = { λ number r. r ≡ call_of number };

    fn from(number: u32) -> Call
        ensures { result ≡ call_of number }
    {
        match number {
            0 => Call::Enqueue,
            1 => Call::Dequeue,
            2 => Call::Head,
            3 => Call::Update,
            4 => Call::IsEmpty,
            5 => Call::Clear,
            _ => Call::IsValid,
        }
    }
}

// By a kind and a value.
impl TryFrom<(u32, u32)> for Answer {
    type Error = Unknown;

    ghost use Rattle.replay_queues.specs.Calls.{answer_of};

    ghost try_from_gives = { λ told r. r ≡ answer_of told.0 told.1 };

    fn try_from(told: (u32, u32)) -> Result<Answer, Unknown>
        ensures { result ≡ answer_of told.0 told.1 }
    {
        Ok(match told {
            (0, 0) => Answer::Done,
            (1, node) => Answer::Node(node),
            (2, 0) => Answer::None,
            (3, number) => Answer::Refused(number),
            (4, 0) => Answer::Test(false),
            (4, 1) => Answer::Test(true),
            _ => return Err(Unknown),
        })
    }
}

impl From<()> for Answer {
    ghost use Rattle.replay_queues.specs.declared.calls.Answer.TheVariants.{Done};

    ghost from_gives = { λ _ r. r ≡ Done };

    fn from(_done: ()) -> Answer
        ensures { result ≡ Done }
    {
        Answer::Done
    }
}

impl From<Option<u32>> for Answer {
    ghost use Rattle.replay_queues.specs.Calls.{node_answer};

    ghost from_gives = { λ node r. r ≡ node_answer node };

    fn from(node: Option<u32>) -> Answer
        ensures { result ≡ node_answer node }
    {
        node.map_or(Answer::None, |v| Answer::Node(v))
    }
}

impl From<bool> for Answer {
    ghost use Rattle.replay_queues.specs.declared.calls.Answer.TheVariants.{Test};

    ghost from_gives = { λ test r. r ≡ Test test };

    fn from(test: bool) -> Answer
        ensures { result ≡ Test test }
    {
        Answer::Test(test)
    }
}

// A stored call: which one, its node where it takes one, and the answer that it must give.
#[derive(Clone, Copy)]
pub struct Made {
    call: Call,
    node: u32,
    answer: Answer,
}

// What a call answered, and the record that it handed back.
fn told<T: Into<Answer>>(answered: Answered<T>) -> (Answer, Queue)
    ensures answer { MatchResult answered.answer (λ value. T.converts value result.0) (λ refusal. result.0 ≡ Refused (number_of refusal)) }
    ensures queue { result.1 ≡ answered.queue }
{
    let queue = answered.queue;
    match answered.answer {
        Ok(given) => (given.into(), queue),
        Err(refusal) => (Answer::Refused(u32::from(refusal)), queue),
    }
}

impl Made {
    // The call of sixteen bytes, which are four words.
    pub fn of(words: &[u8]) -> Result<Made, Unknown>
        requires { 16 ≤ length words.now }
        ensures { result ≡ made_of words.now }
    {
        Ok(Made {
            call: Call::from(word(words, 0)),
            node: word(words, 4),
            answer: Answer::try_from((word(words, 8), word(words, 12)))?,
        })
    }

    // What the call answers, and the record that it hands back. A match and no table of functions: a
    // call's answer is a node, a test or nothing, each of another type.
    fn given(&self, q: Queue) -> (Answer, Queue)
        ensures { result ≡ given_by self.now.call self.now.node q }
    {
        match self.call {
            Call::Enqueue => told(q.enqueue(self.node)),
            Call::Dequeue => told(q.dequeue()),
            Call::Head => told(q.head()),
            Call::Update => told(q.update(self.node)),
            Call::IsEmpty => told(q.is_empty()),
            Call::Clear => told(q.clear()),
            Call::IsValid => (Answer::Test(q.is_valid()), q),
        }
    }

    // The record that it hands back, where it gives its answer.
    pub fn on(&self, q: Queue) -> Option<Queue>
        ensures { Leaves self.now q result }
    {
        let (answer, queue) = self.given(q);
        (answer == self.answer).then_some(queue)
    }
}
