// Prints what is answered to rules typed as text, the vectors of standard input, and whether the rest of the lent buffer was kept.
//
// A line is a vector: how many propositions, components and minutes there are, and how long the lent buffer is, at most 520 (the longest policy
// has 510), every byte of which is EE before; and then the text, all four numbers in decimal and a space behind each.
// Printed after it is the policy in hexadecimal, or why there is none.
// A line that starts with '#' says what the next ones are, and is printed as it is.
#![tactic(auto)]

use hex_lines::{Hex, InPieces, kept};
use refusal::Refusal;
use std::io;

// How long the longest lent buffer is.
const MOST_ROOM: usize = 520;

// What each byte of it is before.
const BEFORE: u8 = 0xEE;

// The number that a line starts with, and what follows it and a space. Of a number only the last six digits count; no vector needs one above a
// million.
fn number(line: &[u8]) -> (usize, &[u8]) {
    let end = line.iter().position(|c| !c.is_ascii_digit());
    let (digits, rest) = line.split_at(end.unwrap_or(line.len()));
    let value = digits
        .iter()
        .fold(0, |value, c| value % 100000 * 10 + usize::from(*c % 16));
    (value, rest.strip_prefix(b" ").unwrap_or(rest))
}

// What is answered: the policy or why there is none, and the rest of the lent buffer.
fn show_answer(rt: &impl Print, answer: Result<usize, Refusal>, out: &[u8]) -> io::Result<()> {
    match answer {
        Ok(n) => {
            let (policy, rest) = out.split_at(n.min(out.len()));
            print!(rt; " wrote {n} {}{}", Hex(policy), kept(rest, BEFORE))
        }
        Err(r) => print!(rt; " refused {r}{}", kept(out, BEFORE)),
    }
}

fn show_vector(rt: &impl Print, line: &[u8]) -> io::Result<()> {
    let (propositions, rest) = number(line);
    let (components, rest) = number(rest);
    let (minutes, rest) = number(rest);
    let (room, text) = number(rest);
    let mut lent = [BEFORE; MOST_ROOM];
    let out = &mut lent[..room.min(MOST_ROOM)];
    let answer = rule_parser::compile(text, propositions, components, minutes, out);
    print!(rt; ":")?;
    show_answer(rt, answer, out)
}

fn main(rt: HostRuntime) {
    let out = InPieces(&rt);
    hex_lines::echo_lines(&out, |line| show_vector(&out, line));
}
