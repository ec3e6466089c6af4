// Prints what the message reader answers to the vectors of standard input, and how many bytes it hands back.
//
// A line is a vector, in hexadecimal with a space between bytes: propositions, components, minutes (2 bytes), then the packet whose first
// message is read, of at most 64 bytes.
// A line that starts with '#' says what the next ones are, and is printed as it is.
#![tactic(auto)]

use hex_lines::{Bytes, InPieces};
use message::{Event, Message};
use policy::Sizes;
use std::io::Result;

fn sizes_of(bytes: &mut Bytes<'_>) -> Sizes {
    Sizes {
        propositions: usize::from(bytes.number::<u8>()),
        components: usize::from(bytes.number::<u8>()),
        minutes: usize::from(bytes.number::<u16>()),
    }
}

// The component, its minute and sequence number, and for an observation the marks named and their values.
fn show_message(rt: &impl Print, message: Message) -> Result<()> {
    let component = message.component;
    match message.event {
        Event::Observation {
            minute,
            number,
            named,
            values,
        } => print!(rt; "observation {component} {minute} {number} {named} {values}"),
        Event::Alive { minute, number } => print!(rt; "alive {component} {minute} {number}"),
    }
}

// What the first message says, and how many bytes follow it.
fn show_vector(rt: &impl Print, line: &[u8]) -> Result<()> {
    let mut bytes = Bytes::of(line);
    let sizes = sizes_of(&mut bytes);
    let mut packet = [0u8; 64];
    let n = bytes.copy_to(&mut packet);
    let step = message_codec::first_step(&packet[..n], sizes);
    print!(rt; ": ")?;
    match step.decoded {
        Ok(message) => show_message(rt, message)?,
        Err(r) => print!(rt; "refused {r}")?,
    }
    print!(rt; " left {}", step.left)
}

fn main(rt: HostRuntime) {
    let out = InPieces(&rt);
    hex_lines::echo_lines(&out, |line| show_vector(&out, line));
}
