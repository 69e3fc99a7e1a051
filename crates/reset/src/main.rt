// Reads a sheet from standard input, searches for its reset, and writes the line of the answer.
#![tactic(auto)]

ghost use Rattle.std.specs.Prelude.{◌≤◌, length, IfOk};

use std::io;
use std::io::Read;

// No line is longer: `line_at_most` of `reply`.
const LONGEST: usize = 12300;

// Reads until the buffer is full or the input ends. How many bytes now stand at the start of the buffer.
// Kept as a loop over `read`: `read_exact` fails where the input ends early, and `read_to_end` fills a `Vec`, which is on the heap.
fn read_full<R: Read>(from: &mut R, buffer: &mut [u8]) -> io::Result<usize>
    ensures { IfOk result (λ n. n ≤ length buffer.new) }
{
    let mut done = 0;
    while done < buffer.len() {
        let n = from.read(&mut buffer[done..])?;
        if n == 0 {
            break;
        }
        done += n;
    }
    Ok(done)
}

// The arrays are fixed memory, and no heap; what they hold is cut to a slice at once.
fn main(rt: HostRuntime) -> io::Result<()> {
    let mut input = [0u8; 16408];
    let n = read_full(&mut rt.stdin(), &mut input)?;
    let mut out = [0u8; LONGEST];
    let end = reply::put(&input[..n], &mut out).unwrap();
    rt.write_all(&out[..end])
}
