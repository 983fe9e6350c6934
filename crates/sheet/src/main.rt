// Reads a trace file from standard input and prints its sheet (document 01, "The sheet").
// Input and sheet are arrays of a fixed length: the project has no heap.
#![tactic(auto)]

ghost use Rattle.std.specs.Prelude.{◌≤◌, IfOk, length};

use layout::{INPUT_MOST, SHEET_MOST};
use std::io;
use std::io::Read;

fn main(rt: HostRuntime) -> io::Result<()> {
    // One byte more than the most is enough to tell that there is too much.
    let mut input = [0u8; INPUT_MOST + 1];
    let got = read_full(&mut rt.stdin(), &mut input)?;
    let mut out = [0u8; SHEET_MOST];
    match layout::sheet(&input[..got], &mut out) {
        Ok(count) => rt.write_all(&out[..count]),
        Err(_) => Ok(()),
    }
}

// Reads until the buffer is full or the input ends, and says how many bytes were put at its start. A `while`: how much a read gives is known after it.
fn read_full<R: Read>(from: &mut R, buf: &mut [u8]) -> io::Result<usize>
    ensures { IfOk result (λ n. n ≤ length buf.new) }
{
    let mut done = 0;
    while done < buf.len() {
        let n = from.read(&mut buf[done..])?;
        if n == 0 {
            break;
        }
        done += n;
    }
    Ok(done)
}
