// Prints what the writers of policies and messages answer to the vectors of standard input, and the whole lent buffer afterwards.
//
// A line is a vector, in hexadecimal with a space between bytes, the lower byte of a number first. Its first byte says what is written, the
// next 2 are the room: how long the lent buffer is, at most 520 (the longest policy has 510), every byte of which is EE before.
// A policy, 00: then propositions, components, minutes and how many lines, 2 bytes each; then 12 bytes for each line that is given, the others
// of 64 being all 0: kind, first, second, lower, upper, and not 0 for a rule, 2 bytes each.
// A message, 01: then component (2 bytes), not 0 for an alive slip (1), minute (2), number (4), named (4), values (4), and the encoded policy,
// of at most 256 bytes.
// Printed after it are the answer and the lent buffer. Where an event can hold a message's numbers, the writer of events is asked too, with a
// buffer of its own, and both are printed after the word event.
// A line that starts with '#' says what the next ones are, and is printed as it is.
#![tactic(auto)]

use hex_lines::{Bytes, Hex, InPieces};
use message::{Event, Message, MessageNumbers};
use policy::{LineNumbers, PolicyNumbers};
use refusal::Refusal;
use std::{array, io};

// How long the longest lent buffer is.
const MOST_ROOM: usize = 520;

// What a writer answered, and the lent buffer.
fn show_written(rt: &impl Print, answer: Result<usize, Refusal>, out: &[u8]) -> io::Result<()> {
    match answer {
        Ok(n) => print!(rt; " wrote {n}")?,
        Err(r) => print!(rt; " refused {r}")?,
    }
    if out.is_empty() {
        return Ok(());
    }
    print!(rt; " {}", Hex(out))
}

// ---- a policy

fn line_numbers(bytes: &mut Bytes<'_>) -> LineNumbers {
    LineNumbers {
        kind: bytes.number(),
        first: bytes.number(),
        second: bytes.number(),
        lower: bytes.number(),
        upper: bytes.number(),
        rule: bytes.number::<u16>() != 0,
    }
}

fn policy_numbers(bytes: &mut Bytes<'_>) -> PolicyNumbers {
    PolicyNumbers {
        propositions: usize::from(bytes.number::<u16>()),
        components: usize::from(bytes.number::<u16>()),
        minutes: usize::from(bytes.number::<u16>()),
        count: usize::from(bytes.number::<u16>()),
        lines: array::from_fn(|_| line_numbers(bytes)),
    }
}

fn show_policy(rt: &impl Print, bytes: &mut Bytes<'_>, out: &mut [u8]) -> io::Result<()> {
    let answer = policy_codec::encode(policy_numbers(bytes), out);
    show_written(rt, answer, out)
}

// ---- a message

fn message_numbers(bytes: &mut Bytes<'_>) -> MessageNumbers {
    MessageNumbers {
        component: usize::from(bytes.number::<u16>()),
        alive: bytes.number::<u8>() != 0,
        minute: usize::from(bytes.number::<u16>()),
        number: bytes.number::<u32>() as usize,
        named: bytes.number(),
        values: bytes.number(),
    }
}

// The message of the numbers, where an event can hold them: the sequence number has 2 bytes, and an alive slip names nothing.
fn message_of(n: MessageNumbers) -> Option<Message> {
    let minute = u16::try_from(n.minute).ok()?;
    let number = u16::try_from(n.number).ok()?;
    if n.alive & (n.named | n.values != 0) {
        return None;
    }
    let event = if n.alive {
        Event::Alive { minute, number }
    } else {
        Event::Observation {
            minute,
            number,
            named: n.named,
            values: n.values,
        }
    };
    Some(Message {
        component: n.component,
        event,
    })
}

// The other buffer is lent to the writer of events.
fn show_message(
    rt: &impl Print,
    bytes: &mut Bytes<'_>,
    out: &mut [u8],
    other: &mut [u8],
) -> io::Result<()> {
    let numbers = message_numbers(bytes);
    let mut lent = [0u8; 256];
    let n = bytes.copy_to(&mut lent);
    let policy = &lent[..n];
    let answer = message_codec::encode_numbers(policy, numbers, out);
    show_written(rt, answer, out)?;
    let Some(message) = message_of(numbers) else {
        return Ok(());
    };
    print!(rt; " event")?;
    let answer = message_codec::encode(policy, message, other);
    show_written(rt, answer, other)
}

// ---- lines

fn show_vector(rt: &impl Print, line: &[u8]) -> io::Result<()> {
    let mut bytes = Bytes::of(line);
    // A byte and no enum: it is looked at once, here.
    let kind: u8 = bytes.number();
    let room = usize::from(bytes.number::<u16>()) % (MOST_ROOM + 1);
    let mut out = [0xEEu8; MOST_ROOM];
    let mut other = [0xEEu8; MOST_ROOM];
    print!(rt; ":")?;
    if kind == 0 {
        show_policy(rt, &mut bytes, &mut out[..room])
    } else {
        show_message(rt, &mut bytes, &mut out[..room], &mut other[..room])
    }
}

fn main(rt: HostRuntime) {
    let out = InPieces(&rt);
    hex_lines::echo_lines(&out, |line| show_vector(&out, line));
}
