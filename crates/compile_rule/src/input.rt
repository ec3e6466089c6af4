// Standard input, read whole into a buffer that the caller holds.
ghost use Rattle.std.specs.Prelude.{◌≡◌, ◌≤◌, length, take, IfOk};
ghost use Rattle.compile_rule.specs.Line.{Line};

use std::io::{Read, Result};

// Reads until the buffer is full or the input ends, and answers how many bytes were read. The other program's `fill` differs: it reads again
// where that may help, tells of a read that failed, and keeps what was read before.
pub fn fill<R: Read>(input: &mut R, buffer: &mut [u8]) -> Result<usize>
    ensures { IfOk result (λ n. n ≤ length buffer.old) }
{
    let mut end = 0;
    // A while: how far a turn goes is what a read gives.
    while end < buffer.len() {
        let got = input.read(&mut buffer[end..])?;
        if got == 0 {
            break;
        }
        end += got;
    }
    Ok(end)
}

// The text without one newline at its end, "\n" or "\r\n".
pub fn without_newline(text: &[u8]) -> &[u8]
    ensures { (result.now ≡ take (length result.now) text.now)
        × (length result.now ≤ length text.now)
        × Line text.now (length result.now) }
{
    match text.strip_suffix(b"\n") {
        Some(line) => line.strip_suffix(b"\r").unwrap_or(line),
        None => text,
    }
}
