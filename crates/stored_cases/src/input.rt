// What a program is given to read.
ghost use Rattle.std.specs.Prelude.{◌≡◌, IfOk, length, replicate};
ghost use Rattle.io.specs.Counts.{IsPrefixLen};

use std::io;
use std::io::Read;

// So many bytes, all zero.
pub fn zeros<const N: usize>() -> [u8; N]
    ensures size { length result ≡ N }
    ensures zero { result ≡ replicate N 0 }
{
    [0; N]
}

// Reads until the buffer is full or the input ends, and counts the bytes at the buffer's start. The
// library's calls fill a buffer whole or take memory, so that this loop stays.
pub fn read_full(input: &mut impl Read, buf: &mut [u8]) -> io::Result<usize>
    ensures { IfOk result (λ n. IsPrefixLen n buf.new) }
{
    let mut done = 0usize;
    while done < buf.len() {
        let n = input.read(&mut buf[done..])?;
        if n == 0 {
            break;
        }
        done += n;
    }
    Ok(done)
}
