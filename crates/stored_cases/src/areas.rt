// What a call leaves in the areas that it is lent.
ghost use Rattle.std.specs.Prelude.{◌≡◌, true};
ghost use Rattle.stored_cases.specs.Left.{ResultLeft, WorkLeft};

// What the areas hold before a call.
pub const WORK_MARK: u32 = 0x5a5a5a5a;

pub const RESULT_MARK: u8 = 0xa5;

// Whether the result area holds these bytes, and what it held before behind them.
pub fn result_left(res: &[u8], bytes: &[u8]) -> bool
    ensures { result ≡ true → ResultLeft res.now bytes.now }
{
    // By places, and not by `all`: the compiler makes of this a loop that compares sixteen bytes at once.
    for at in 0..res.len() {
        let byte = if at < bytes.len() {
            bytes[at]
        } else {
            RESULT_MARK
        };
        if res[at] != byte {
            return false;
        }
    }
    bytes.len() <= res.len()
}

// Whether so many words of the work area are zero, and the others what they were before.
pub fn work_left(work: &[u32], zeros: usize) -> bool
    ensures { result ≡ true → WorkLeft work.now zeros }
{
    match work.split_at_checked(zeros) {
        Some((used, rest)) => {
            used.iter().all(|word| *word == 0) && rest.iter().all(|word| *word == WORK_MARK)
        }
        None => false,
    }
}
