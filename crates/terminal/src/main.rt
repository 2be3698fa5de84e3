// The program: reads its input until the end or one byte past the limit, and writes what it answers. The output has room for twice the
// input and 16 bytes, which `session` asks for. A read or a write that fails ends it with that error.

#![tactic(auto)]

ghost use Rattle.std.specs.Prelude.{IfOk, ◌≤◌, length};

use session::MOST_BYTES;
use std::io;
use std::io::{Read, Write};

// Reads until the buffer is full or the input ends, and returns how many bytes it put at the buffer's start.
fn read_full<R: Read>(input: &mut R, buf: &mut [u8]) -> io::Result<usize>
    ensures { IfOk result (λ n. n ≤ length buf.new) }
{
    let mut done: usize = 0;
    // `read_exact` takes a short input for an error, and `read_to_end` asks for memory.
    while done < buf.len() {
        let n = input.read(&mut buf[done..])?;
        if n == 0 {
            break;
        }
        done += n;
    }
    Ok(done)
}

fn main(rt: HostRuntime) -> io::Result<()> {
    let mut text = [0u8; MOST_BYTES + 1];
    let mut out = [0u8; 2 * (MOST_BYTES + 1) + 16];
    let n = read_full(&mut rt.stdin(), &mut text)?;
    let count = session::session(&text[..n], &mut out);
    rt.stdout().write_all(&out[..count])
}
