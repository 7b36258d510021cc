// The listing program: reads one byte n and then a sheet on standard input, and prints the list.
#![tactic(auto)]

ghost use Rattle.std.specs.Prelude.{IfOk};
ghost use Rattle.io.specs.Counts.{IsPrefixLen};

use std::io;
use std::io::Read;

// Reads until the buffer is full or the input ends, and counts the bytes at the buffer's start.
// Its own copy: the program does not depend on the crate of test cases; the library's calls fill a buffer whole or take memory.
fn read_full(input: &mut impl Read, buf: &mut [u8]) -> io::Result<usize>
    ensures { IfOk result (λ n. IsPrefixLen n buf.new) }
{
    let mut done = 0usize;
    while done < buf.len() {
        let n = input.read(&mut buf[done..])?;
        if n == 0 {
            break;
        }
        done += n;
    }
    Ok(done)
}

fn main(rt: HostRuntime) -> io::Result<()> {
    // one byte more than the longest that is listed, so that a longer input is told
    let mut read = [0u8; 4098];
    let got = read_full(&mut rt.stdin(), &mut read)?;
    let mut out = [0u8; 49152];
    let end = listing::print::print(&read[..got], &mut out);
    rt.write_all(&out[..end])
}
