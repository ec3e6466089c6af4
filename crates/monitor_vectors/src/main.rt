// Every case of 01's small shift, and one of each reason to turn a call away, run through open, receive and receive_packet. It prints each
// call's answer, and then the state that the call left, or that it is unchanged.
#![tactic(auto)]

mod memory;

use hex_lines::BestEffort;
use memory::{Memory, Parts, ROOM, parts_of};
use refusal::Refusal;
use std::io::Result;

// K: proposition 0 at some time in the last 2 minutes.
const K: [u8; 13] = *b"\x01\x01\x04\x00\x03\x00\x01\x01\x35\x04\x01\x02\x00";

// U: K with its last line proposition 0 within the next minute. It needs what K needs.
const U: [u8; 13] = *b"\x01\x01\x04\x00\x03\x00\x01\x01\x35\x05\x01\x01\x00";

// A, packet A B and an empty packet.
const EACH: [u8; 29] =
    *b"\x08\x0c\x01\x00\x01\x00\x00\x00\x00\x92\x0c\x01\x00\x01\x00\x00\x00\x00\x0e\x02\x00\x02\x00\x01\x00\x00\x00\x01\x80";

// What a packet's length byte has more than a message's.
const PACKET: u8 = 128;

fn show_refusal(rt: &impl Print, refusal: Refusal, place: usize) -> Result<()> {
    println!(rt; "refused {} at {place}", refusal.number())
}

// The state, or that it is what it was before.
fn show_state(rt: &impl Print, before: &Memory, memory: &Memory) -> Result<()> {
    if *memory == *before {
        return println!(rt; "  unchanged");
    }
    print!(rt; "{memory}")
}

// Opens, and prints the answer and the state. Here and below a policy and a memory come apart: a case lends one memory under two policies.
fn show_open(rt: &impl Print, policy: &[u8], memory: &mut Memory) -> Result<()> {
    let before = *memory;
    print!(rt; "open: ")?;
    match memory.open(policy) {
        Ok(()) => println!(rt; "done")?,
        Err(r) => show_refusal(rt, r, r.place())?,
    }
    show_state(rt, &before, memory)
}

// Receives a message, and prints the answer and the state.
fn show_receive(rt: &impl Print, policy: &[u8], message: &[u8], memory: &mut Memory) -> Result<()> {
    let before = *memory;
    match memory.receive(policy, message) {
        Ok(standing) => println!(rt; "received {standing}")?,
        Err(r) => show_refusal(rt, r, r.place())?,
    }
    show_state(rt, &before, memory)
}

// Receives a packet, and prints how many messages were taken and why no more, and the state.
fn show_packet(rt: &impl Print, policy: &[u8], packet: &[u8], memory: &mut Memory) -> Result<()> {
    let before = *memory;
    let answer = memory.receive_packet(policy, packet);
    print!(rt; "taken {} ", answer.taken)?;
    match answer.stop {
        None => println!(rt; "at end")?,
        Some(stopped) => show_refusal(rt, stopped.refusal, stopped.place)?,
    }
    show_state(rt, &before, memory)
}

// Receives what stands after a length byte, a packet where its bit 7 stands and else a message, and prints it before the answer. The byte is looked at once, here, so that it is no enum.
fn show_offer(
    rt: &impl Print,
    length: u8,
    policy: &[u8],
    offer: &[u8],
    memory: &mut Memory,
) -> Result<()> {
    for byte in offer {
        print!(rt; "{byte:02x} ")?;
    }
    print!(rt; ": ")?;
    if length < PACKET {
        show_receive(rt, policy, offer, memory)
    } else {
        show_packet(rt, policy, offer, memory)
    }
}

// Receives the messages and packets, each after one length byte.
fn show_messages(
    rt: &impl Print,
    policy: &[u8],
    messages: &[u8],
    memory: &mut Memory,
) -> Result<()> {
    let mut left = messages;
    while let Some((length, rest)) = left.split_first() {
        let bytes = usize::from(*length % PACKET);
        let (offer, next) = rest.split_at(bytes.min(rest.len()));
        show_offer(rt, *length, policy, offer, memory)?;
        left = next;
    }
    Ok(())
}

// Opens, and receives the messages.
fn play(rt: &impl Print, policy: &[u8], messages: &[u8], memory: &mut Memory) -> Result<()> {
    show_open(rt, policy, memory)?;
    show_messages(rt, policy, messages, memory)
}

// Cases over parts of the memory, each with its messages.
fn run(rt: &impl Print, parts: Parts, policy: &[u8], cases: &[(&str, &[u8])]) -> Result<()> {
    for (title, messages) in cases {
        println!(rt; "{title}")?;
        play(rt, policy, messages, &mut Memory::new(parts))?;
    }
    Ok(())
}

// Cases of K.
fn small(rt: &impl Print, cases: &[(&str, &[u8])]) -> Result<()> {
    run(rt, parts_of(3), &K, cases)
}

// A case of K over other parts, with A, packet A B and an empty packet.
fn sized(rt: &impl Print, title: &str, parts: Parts) -> Result<()> {
    run(rt, parts, &K, &[(title, &EACH)])
}

// Policies that are refused, with the same.
fn refused(rt: &impl Print, cases: &[(&str, &[u8])]) -> Result<()> {
    for (title, policy) in cases {
        run(rt, parts_of(3), policy, &[(*title, &EACH)])?;
    }
    Ok(())
}

// K opened.
fn opened(rt: &impl Print, title: &str) -> Result<Memory> {
    let mut memory = Memory::new(parts_of(3));
    println!(rt; "{title}")?;
    show_open(rt, &K, &mut memory)?;
    Ok(memory)
}

// K opened, its record changed and the sheets overwritten by other values: 6 where no trace agrees with the record.
fn overwritten<R: Print, F: FnOnce(&mut Memory)>(
    rt: &R,
    title: &str,
    change: F,
    messages: &[u8],
) -> Result<()>
    requires { F.IsAlwaysCallable change }
{
    let mut memory = opened(rt, title)?;
    change(&mut memory);
    memory.valuation.fill(7);
    memory.verdicts.fill(2);
    show_messages(rt, &K, messages, &mut memory)
}

// K with such a record, and an alive message that changes nothing, a packet of two and an empty packet.
fn other_record<R: Print, F: FnOnce(&mut Memory)>(rt: &R, title: &str, change: F) -> Result<()>
    requires { F.IsAlwaysCallable change }
{
    overwritten(rt, title, change, b"\x01\x10\x82\x10\x10\x80")
}

// K opened, and then only the sheets overwritten.
fn other_sheets(rt: &impl Print, cases: &[(&str, &[u8])]) -> Result<()> {
    for (title, messages) in cases {
        overwritten(rt, title, |_| (), messages)?;
    }
    Ok(())
}

// K opened, and then what no call writes.
fn damaged<R: Print, F: FnOnce(&mut Memory)>(rt: &R, title: &str, change: F) -> Result<()>
    requires { F.IsAlwaysCallable change }
{
    let mut memory = opened(rt, title)?;
    change(&mut memory);
    show_messages(rt, &K, &EACH, &mut memory)
}

// Opens under one policy and receives the messages, and then offers the same with another: 12.
fn lend_with(
    rt: &impl Print,
    title: &str,
    policy: &[u8],
    other: &[u8],
    memory: &mut Memory,
) -> Result<()> {
    println!(rt; "{title}")?;
    play(rt, policy, &EACH, memory)?;
    show_messages(rt, other, &EACH, memory)
}

// One state, opened under K and lent with U, and then the other way round.
fn other_policy(rt: &impl Print) -> Result<()> {
    let mut memory = Memory::new(parts_of(3));
    lend_with(
        rt,
        "opened under K, and then lent with U",
        &K,
        &U,
        &mut memory,
    )?;
    lend_with(
        rt,
        "opened under U, and then lent with K",
        &U,
        &K,
        &mut memory,
    )
}

// ---- the cases

// Messages in one order and in another.
fn received(rt: &impl Print) -> Result<()> {
    small(
        rt,
        &[
            ("no message", b""),
            ("A", b"\x08\x0c\x01\x00\x01\x00\x00\x00\x00"),
            ("B", b"\x0a\x0e\x02\x00\x02\x00\x01\x00\x00\x00\x01"),
            (
                "A B",
                b"\x08\x0c\x01\x00\x01\x00\x00\x00\x00\x0a\x0e\x02\x00\x02\x00\x01\x00\x00\x00\x01",
            ),
            (
                "B A",
                b"\x0a\x0e\x02\x00\x02\x00\x01\x00\x00\x00\x01\x08\x0c\x01\x00\x01\x00\x00\x00\x00",
            ),
        ],
    )
}

fn received_with_d(rt: &impl Print) -> Result<()> {
    small(
        rt,
        &[
            (
                "A B D",
                b"\x08\x0c\x01\x00\x01\x00\x00\x00\x00\x0a\x0e\x02\x00\x02\x00\x01\x00\x00\x00\x01\x05\x06\x03\x00\x03\x00",
            ),
            ("D", b"\x05\x06\x03\x00\x03\x00"),
            ("an alive message that changes nothing", b"\x01\x10"),
        ],
    )
}

// Messages that are cut or bad: 7 and 8.
fn bad_messages(rt: &impl Print) -> Result<()> {
    small(
        rt,
        &[
            ("no count", b"\x01\x00"),
            ("no bytes", b"\x00"),
            ("cut by a byte", b"\x07\x0c\x01\x00\x01\x00\x00\x00"),
            ("a byte more", b"\x09\x0c\x01\x00\x01\x00\x00\x00\x00\x00"),
        ],
    )
}

// Messages that no trace could have sent: 9.
fn conflicts(rt: &impl Print) -> Result<()> {
    small(
        rt,
        &[
            ("more observations than minutes", b"\x03\x04\x02\x00"),
            (
                "A, and then none by minute 0",
                b"\x08\x0c\x01\x00\x01\x00\x00\x00\x00\x03\x12\x01\x00",
            ),
            (
                "A, and then A with another value",
                b"\x08\x0c\x01\x00\x01\x00\x00\x00\x00\x08\x0c\x01\x00\x01\x00\x00\x00\x01",
            ),
        ],
    )
}

// The last minute is 3: an alive message may say so, and nothing may come after.
fn past_the_last_minute(rt: &impl Print) -> Result<()> {
    small(
        rt,
        &[
            (
                "A, B, alive at minute 4",
                b"\x08\x0c\x01\x00\x01\x00\x00\x00\x00\x0a\x0e\x02\x00\x02\x00\x01\x00\x00\x00\x01\x05\x16\x04\x00\x02\x00",
            ),
            (
                "A, B, alive at minute 5",
                b"\x08\x0c\x01\x00\x01\x00\x00\x00\x00\x0a\x0e\x02\x00\x02\x00\x01\x00\x00\x00\x01\x05\x16\x05\x00\x02\x00",
            ),
            (
                "A, B, an observation at minute 4",
                b"\x08\x0c\x01\x00\x01\x00\x00\x00\x00\x0a\x0e\x02\x00\x02\x00\x01\x00\x00\x00\x01\x05\x06\x04\x00\x03\x00",
            ),
        ],
    )
}

// Packets whose messages are all taken.
fn packets(rt: &impl Print) -> Result<()> {
    small(
        rt,
        &[
            (
                "packet A B D",
                b"\x97\x0c\x01\x00\x01\x00\x00\x00\x00\x0e\x02\x00\x02\x00\x01\x00\x00\x00\x01\x06\x03\x00\x03\x00",
            ),
            (
                "packet B A",
                b"\x92\x0e\x02\x00\x02\x00\x01\x00\x00\x00\x01\x0c\x01\x00\x01\x00\x00\x00\x00",
            ),
            (
                "A, and then packet B D",
                b"\x08\x0c\x01\x00\x01\x00\x00\x00\x00\x8f\x0e\x02\x00\x02\x00\x01\x00\x00\x00\x01\x06\x03\x00\x03\x00",
            ),
            (
                "packet A, and then packet A A",
                b"\x88\x0c\x01\x00\x01\x00\x00\x00\x00\x90\x0c\x01\x00\x01\x00\x00\x00\x00\x0c\x01\x00\x01\x00\x00\x00\x00",
            ),
        ],
    )
}

// Packets that change nothing.
fn idle_packets(rt: &impl Print) -> Result<()> {
    small(
        rt,
        &[
            ("an empty packet", b"\x80"),
            (
                "A, and then an empty packet",
                b"\x08\x0c\x01\x00\x01\x00\x00\x00\x00\x80",
            ),
            (
                "packet of two alive messages that change nothing",
                b"\x82\x10\x10",
            ),
        ],
    )
}

// Packets that end inside a message: 7 at the packet's length.
fn cut_packets(rt: &impl Print) -> Result<()> {
    small(
        rt,
        &[
            (
                "packet A, and B cut by a byte",
                b"\x91\x0c\x01\x00\x01\x00\x00\x00\x00\x0e\x02\x00\x02\x00\x01\x00\x00\x00",
            ),
            (
                "packet A, and the first byte of B",
                b"\x89\x0c\x01\x00\x01\x00\x00\x00\x00\x0e",
            ),
            (
                "packet of A cut in its mark map",
                b"\x85\x0c\x01\x00\x01\x00",
            ),
            (
                "packet of an alive message that changes nothing, and D cut by a byte",
                b"\x85\x10\x06\x03\x00\x03",
            ),
        ],
    )
}

// Packets with a bad message: 8 at its first byte, and what follows it is not taken.
fn bad_packets(rt: &impl Print) -> Result<()> {
    small(
        rt,
        &[
            (
                "packet of no count, and A",
                b"\x89\x00\x0c\x01\x00\x01\x00\x00\x00\x00",
            ),
            (
                "packet A, no count, and B",
                b"\x93\x0c\x01\x00\x01\x00\x00\x00\x00\x00\x0e\x02\x00\x02\x00\x01\x00\x00\x00\x01",
            ),
            (
                "packet A B, and no count",
                b"\x93\x0c\x01\x00\x01\x00\x00\x00\x00\x0e\x02\x00\x02\x00\x01\x00\x00\x00\x01\x00",
            ),
            (
                "packet A, no count, and B cut by a byte",
                b"\x92\x0c\x01\x00\x01\x00\x00\x00\x00\x00\x0e\x02\x00\x02\x00\x01\x00\x00\x00",
            ),
        ],
    )
}

// Packets with a message that no trace could have sent: 9 at its first byte. The next packet goes on from what was taken.
fn conflicting_packets(rt: &impl Print) -> Result<()> {
    small(
        rt,
        &[
            (
                "packet of more observations than minutes, and A",
                b"\x8b\x04\x02\x00\x0c\x01\x00\x01\x00\x00\x00\x00",
            ),
            (
                "packet A, none by minute 0, and B; and then packet B D",
                b"\x95\x0c\x01\x00\x01\x00\x00\x00\x00\x12\x01\x00\x0e\x02\x00\x02\x00\x01\x00\x00\x00\x01\x8f\x0e\x02\x00\x02\x00\x01\x00\x00\x00\x01\x06\x03\x00\x03\x00",
            ),
            (
                "packet A B, A with another value, and D",
                b"\x9f\x0c\x01\x00\x01\x00\x00\x00\x00\x0e\x02\x00\x02\x00\x01\x00\x00\x00\x01\x0c\x01\x00\x01\x00\x00\x00\x01\x06\x03\x00\x03\x00",
            ),
        ],
    )
}

// Packets that go past the last minute.
fn packets_past_the_last_minute(rt: &impl Print) -> Result<()> {
    small(
        rt,
        &[
            (
                "packet A B, alive at minute 4",
                b"\x97\x0c\x01\x00\x01\x00\x00\x00\x00\x0e\x02\x00\x02\x00\x01\x00\x00\x00\x01\x16\x04\x00\x02\x00",
            ),
            (
                "packet A B, alive at minute 5, and D",
                b"\x9c\x0c\x01\x00\x01\x00\x00\x00\x00\x0e\x02\x00\x02\x00\x01\x00\x00\x00\x01\x16\x05\x00\x02\x00\x06\x03\x00\x03\x00",
            ),
            (
                "packet A B, an observation at minute 4, and D",
                b"\x9c\x0c\x01\x00\x01\x00\x00\x00\x00\x0e\x02\x00\x02\x00\x01\x00\x00\x00\x01\x06\x04\x00\x03\x00\x06\x03\x00\x03\x00",
            ),
        ],
    )
}

// A policy that shows a minute which is no time point: proposition 0 in the last 3 minutes, and no time point since.
fn no_time_point(rt: &impl Print) -> Result<()> {
    run(
        rt,
        parts_of(4),
        b"\x01\x01\x04\x00\x04\x00\x01\x02\x01\x01\x37\x04\x01\x02\x03\x00",
        &[
            (
                "none since: A, B, alive at minute 4",
                b"\x08\x0c\x01\x00\x01\x00\x00\x00\x00\x0a\x0e\x02\x00\x02\x00\x01\x00\x00\x00\x01\x05\x16\x04\x00\x02\x00",
            ),
            (
                "none since: A, B, D",
                b"\x08\x0c\x01\x00\x01\x00\x00\x00\x00\x0a\x0e\x02\x00\x02\x00\x01\x00\x00\x00\x01\x05\x06\x03\x00\x03\x00",
            ),
        ],
    )
}

// A policy whose one rule is true, so that its verdicts show which minutes are known to be time points: a component lost two messages at minutes
// 0 and 1, then reported number 3 at minute 2; reported number 2 there, and then none before minute 1; or was alive at minute 3 after three.
fn full_runs(rt: &impl Print) -> Result<()> {
    run(
        rt,
        parts_of(1),
        b"\x01\x01\x04\x00\x01\x20",
        &[
            (
                "two messages lost: number 3 at minute 2",
                b"\x05\x06\x02\x00\x03\x00",
            ),
            (
                "one message lost: number 2 at minute 2, and none before minute 1",
                b"\x05\x06\x02\x00\x02\x00\x03\x12\x01\x00",
            ),
            (
                "all messages lost: alive at minute 3 after three",
                b"\x05\x16\x03\x00\x03\x00",
            ),
        ],
    )
}

// Cases of U.
fn next_minute(rt: &impl Print) -> Result<()> {
    run(
        rt,
        parts_of(3),
        &U,
        &[
            (
                "next minute: false at minute 3",
                b"\x0a\x0e\x03\x00\x01\x00\x01\x00\x00\x00\x00",
            ),
            (
                "next minute: false at minute 2, alive at minute 4",
                b"\x0a\x0e\x02\x00\x01\x00\x01\x00\x00\x00\x00\x05\x16\x04\x00\x01\x00",
            ),
        ],
    )
}

// Buffers of another size: 5.
fn wrong_sizes(rt: &impl Print) -> Result<()> {
    sized(
        rt,
        "a number more",
        Parts {
            numbers: 6,
            facts: 8,
            valuation: 12,
            verdicts: 4,
            origin: ROOM,
        },
    )?;
    sized(
        rt,
        "a fact less",
        Parts {
            numbers: 5,
            facts: 7,
            valuation: 12,
            verdicts: 4,
            origin: ROOM,
        },
    )?;
    sized(
        rt,
        "no valuation",
        Parts {
            numbers: 5,
            facts: 8,
            valuation: 0,
            verdicts: 4,
            origin: ROOM,
        },
    )?;
    sized(
        rt,
        "a verdict more",
        Parts {
            numbers: 5,
            facts: 8,
            valuation: 12,
            verdicts: 5,
            origin: ROOM,
        },
    )?;
    sized(
        rt,
        "an origin of 516 bytes",
        Parts {
            numbers: 5,
            facts: 8,
            valuation: 12,
            verdicts: 4,
            origin: 516,
        },
    )
}

// Corrupt knowledge: 6; and sheets that hold anything, which are written anew.
fn overwritten_states(rt: &impl Print) -> Result<()> {
    other_record(rt, "the first number is not 0", |m| m.numbers[0] = 1)?;
    other_record(
        rt,
        "three observations in two minutes",
        |m| m.numbers[2] = 3,
    )?;
    other_record(
        rt,
        "a value of a proposition that is not known",
        |m| m.facts[1] = 1,
    )?;
    other_record(
        rt,
        "a proposition that the policy has not",
        |m| m.facts[0] = 2,
    )?;
    other_record(rt, "sheets that hold anything", |m| {
        m.numbers[2] = 1;
        m.facts[2] = 1;
    })
}

// Packets over sheets that hold anything: they are written anew if a message is taken, and else are left.
fn packets_over_other_sheets(rt: &impl Print) -> Result<()> {
    other_sheets(
        rt,
        &[
            ("other sheets: an empty packet", b"\x80"),
            (
                "other sheets: packet of A cut by a byte",
                b"\x87\x0c\x01\x00\x01\x00\x00\x00",
            ),
            (
                "other sheets: packet of no count, and A",
                b"\x89\x00\x0c\x01\x00\x01\x00\x00\x00\x00",
            ),
            (
                "other sheets: packet of more observations than minutes, and A",
                b"\x8b\x04\x02\x00\x0c\x01\x00\x01\x00\x00\x00\x00",
            ),
            (
                "other sheets: packet of an alive message that changes nothing, and no count",
                b"\x82\x10\x00",
            ),
        ],
    )
}

// Bytes that opening K doesn't write: 12, and that before 6.
fn damaged_origins(rt: &impl Print) -> Result<()> {
    damaged(rt, "another byte in the policy", |m| m.origin[9] = 5)?;
    damaged(rt, "another last byte of the policy", |m| m.origin[12] = 1)?;
    damaged(rt, "a byte after the policy", |m| m.origin[13] = 1)?;
    damaged(rt, "another last byte of the origin", |m| m.origin[516] = 1)?;
    let title = "another byte in the policy, and the first number is not 0";
    damaged(rt, title, |m| {
        m.numbers[0] = 1;
        m.origin[9] = 5;
    })
}

// Lengths that it doesn't write: 12.
fn damaged_extents(rt: &impl Print) -> Result<()> {
    damaged(rt, "an extent one less", |m| m.extent = 12)?;
    damaged(rt, "an extent above 517", |m| m.extent = 518)?;
    damaged(rt, "the largest extent", |m| m.extent = 65535)
}

// Policies that are cut, or followed by more: 1.
fn cut_policies(rt: &impl Print) -> Result<()> {
    refused(
        rt,
        &[
            ("an empty policy", b""),
            (
                "K cut by a byte",
                b"\x01\x01\x04\x00\x03\x00\x01\x01\x35\x04\x01\x02",
            ),
            (
                "K and a byte more",
                b"\x01\x01\x04\x00\x03\x00\x01\x01\x35\x04\x01\x02\x00\x00",
            ),
        ],
    )
}

// Policies with a bad heading: 2.
fn bad_headings(rt: &impl Print) -> Result<()> {
    refused(
        rt,
        &[
            (
                "no propositions",
                b"\x00\x01\x04\x00\x03\x00\x01\x01\x35\x04\x01\x02\x00",
            ),
            (
                "17 components",
                b"\x01\x11\x04\x00\x03\x00\x01\x01\x35\x04\x01\x02\x00",
            ),
            (
                "1025 minutes",
                b"\x01\x01\x01\x04\x03\x00\x01\x01\x35\x04\x01\x02\x00",
            ),
            ("no lines", b"\x01\x01\x04\x00\x00"),
        ],
    )
}

// Policies with a bad line, and with no rule or too many: 3 and 4.
fn bad_lines(rt: &impl Print) -> Result<()> {
    refused(
        rt,
        &[
            (
                "a field that is written as 0",
                b"\x01\x01\x04\x00\x03\x01\x00\x01\x01\x35\x04\x01\x02\x00",
            ),
            (
                "an operand that is no earlier line",
                b"\x01\x01\x04\x00\x03\x00\x01\x01\x35\x04\x02\x02\x00",
            ),
            (
                "no rule",
                b"\x01\x01\x04\x00\x03\x00\x01\x01\x15\x04\x01\x02\x00",
            ),
            (
                "nine rules",
                b"\x01\x01\x04\x00\x09\x20\x20\x20\x20\x20\x20\x20\x20\x20",
            ),
        ],
    )
}

fn show_all(rt: &impl Print) -> Result<()> {
    received(rt)?;
    received_with_d(rt)?;
    bad_messages(rt)?;
    conflicts(rt)?;
    past_the_last_minute(rt)?;
    packets(rt)?;
    idle_packets(rt)?;
    cut_packets(rt)?;
    bad_packets(rt)?;
    conflicting_packets(rt)?;
    packets_past_the_last_minute(rt)?;
    no_time_point(rt)?;
    full_runs(rt)?;
    next_minute(rt)?;
    wrong_sizes(rt)?;
    overwritten_states(rt)?;
    packets_over_other_sheets(rt)?;
    other_policy(rt)?;
    damaged_origins(rt)?;
    damaged_extents(rt)?;
    cut_policies(rt)?;
    bad_headings(rt)?;
    bad_lines(rt)
}

fn main(rt: HostRuntime) {
    let _ = show_all(&BestEffort(&rt));
}
