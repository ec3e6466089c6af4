// What the two programs tell on standard error of a call to the system that failed.
#![tactic(auto)]

ghost use Rattle.std.specs.Prelude.{◌≤◌, length};

use std::io::{Error, Write};

// Standard error's descriptor.
const STDERR_FILENO: i32 = 2;

// How many bytes there are before the first that is 0.
fn text_end(text: &[u8]) -> usize
    ensures { result ≤ length text.now }
{
    text.iter().position(|b| *b == 0).unwrap_or(text.len())
}

// Where the system's words for an error end: before the last bracket, in which std puts the error's number, and the space in front of it.
fn words_end(text: &[u8]) -> usize
    ensures { result ≤ length text.now }
{
    match text.iter().rposition(|b| *b == b'(') {
        Some(at) => at.saturating_sub(1),
        None => text.len(),
    }
}

// Writes a line to standard error: what failed, as the caller names it, a colon and the system's words for the error.
pub fn tell(what: &[u8], error: Error) {
    let mut text = [0u8; 128];
    let _ = write!(&mut text[..], "{error}");
    let end = text_end(&text);
    let words = words_end(&text[..end]);
    io::write_all(STDERR_FILENO, what);
    io::write_all(STDERR_FILENO, b": ");
    io::write_all(STDERR_FILENO, &text[..words]);
    io::write_all(STDERR_FILENO, b"\n");
}
