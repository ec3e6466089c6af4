// Prints the reaches of the rules of policies, the vectors of standard input, and whether the rest of the lent buffer was kept.
//
// A line is a vector: how long the lent buffer is, 0 to 12 in decimal, every number of which is EEEE before; a space; and the policy, in
// hexadecimal with a space between bytes, of at most 512 (the longest has 510).
// Printed after it are how many reaches were written, and each of them, or why there are none; and then whether the rest of the lent buffer, all
// of it where there are none, is as it was before.
// A line that starts with '#' says what the next ones are, and is printed as it is.
#![tactic(auto)]

ghost use Rattle.std.specs.Prelude.{◌≤◌};

use hex_lines::{Bytes, InPieces, kept, spaced};
use refusal::Refusal;
use std::io;

// How long the longest lent buffer is.
const MOST_ROOM: usize = 12;

// What each number of it is before.
const BEFORE: u16 = 0xEEEE;

// The length of the lent buffer, and what follows it and a space. No vector has a length above 12.
fn room(line: &[u8]) -> (usize, &[u8])
    ensures { result.0 ≤ 12 }
{
    let end = line.iter().position(|c| *c == b' ');
    let (digits, rest) = line.split_at(end.unwrap_or(line.len()));
    let size = digits
        .iter()
        .fold(0, |size, c| size % 13 * 10 + usize::from(*c % 16));
    match rest {
        [_, policy @ ..] => (size % 13, policy),
        [] => (size % 13, rest),
    }
}

// What is answered: the reaches or why there are none, and the rest of the lent buffer.
fn show_answer(rt: &impl Print, answer: Result<usize, Refusal>, out: &[u16]) -> io::Result<()> {
    match answer {
        Ok(n) => {
            let (reaches, rest) = out.split_at(n.min(out.len()));
            print!(rt; " wrote {n}{}{}", spaced(reaches), kept(rest, BEFORE))
        }
        Err(r) => print!(rt; " refused {r}{}", kept(out, BEFORE)),
    }
}

fn show_vector(rt: &impl Print, line: &[u8]) -> io::Result<()> {
    let (size, digits) = room(line);
    let mut policy = [0u8; 512];
    let n = Bytes::of(digits).copy_to(&mut policy);
    let mut lent = [BEFORE; MOST_ROOM];
    let out = &mut lent[..size];
    let answer = reach::rule_reaches(&policy[..n], out);
    show_answer(rt, answer, out)
}

fn main(rt: HostRuntime) {
    let out = InPieces(&rt);
    hex_lines::echo_lines(&out, |line| show_vector(&out, line));
}
