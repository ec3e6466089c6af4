// Prints what the functions over the knowledge answer to the vectors of standard input.
//
// A line is a vector, in hexadecimal with a space between bytes, where zeros at the end may be left out: propositions, components (at
// most 2), minutes (2 bytes), the message's length and the message, the sequence numbers (2 bytes each), the facts (4 bytes each).
// A line that starts with '?' is a search vector, its bytes right after that: minute (2 bytes), places of the run (2 bytes, 1 to 1,025) and
// the sequence numbers (2 bytes each). Printed are the answer (quiet, busy or open), the places of the nearest known numbers before the minute
// and at or after it (- where there is none at or after it), and how many places were read.
// A line that starts with '#' says what the next ones are, and is printed as it is.
#![tactic(auto)]

ghost use Rattle.std.specs.Prelude.{suc, ◌*◌, ◌≤◌, ◌<◌, ◌≡◌, length};
ghost use Rattle.message.specs.Fixes.{Fits};
ghost use Rattle.knowledge.specs.Knowledge.{Sized, Sound};
ghost use Rattle.knowledge.specs.Laws.{Limits};
ghost use Rattle.knowledge.specs.Run.{held, SteadyRuns};

use hex_lines::{Bytes, InPieces, joined, spaced};
use knowledge::Search;
use message::Message;
use policy::Sizes;
use std::io::Result;

fn sizes_of(bytes: &mut Bytes<'_>) -> Sizes
    ensures { Limits result × (result.components ≤ 2) }
{
    Sizes {
        propositions: usize::from(bytes.number::<u8>()) % 33,
        components: usize::from(bytes.number::<u8>()) % 3,
        minutes: usize::from(bytes.number::<u16>()) % 1025,
    }
}

// How many sequence numbers there are.
fn numbers_size(sizes: Sizes) -> usize
    requires { Limits sizes × (sizes.components ≤ 2) }
    ensures { (result ≡ sizes.components * suc sizes.minutes) × (result ≤ 2050) }
{
    sizes.components * (sizes.minutes + 1)
}

// A digit for each minute: 1 a time point, 2 none, 0 unknown.
fn show_row(rt: &impl Print, sizes: Sizes, numbers: &[u16]) -> Result<()>
    requires { Limits sizes
        × (length numbers.now ≡ sizes.components * suc sizes.minutes)
        × SteadyRuns sizes numbers.now }
{
    let row = knowledge_store::point_row(sizes, numbers);
    print!(rt; "{}", joined(&row[..sizes.minutes]))
}

// Offers a message in range to sound knowledge.
fn offer(
    rt: &impl Print,
    sizes: Sizes,
    numbers: &mut [u16],
    facts: &mut [u32],
    message: Message,
) -> Result<()>
    requires { Limits sizes
        × Sized sizes (held numbers.old facts.old)
        × Sound sizes (held numbers.old facts.old)
        × Fits sizes message }
{
    if !knowledge_store::admits_message(sizes, numbers, facts, message) {
        return print!(rt; " conflict");
    }
    knowledge_store::store(sizes, numbers, facts, message);
    print!(rt; " stored{} /{}", spaced(numbers), spaced(facts))
}

fn show_case(
    rt: &impl Print,
    sizes: Sizes,
    numbers: &mut [u16],
    facts: &mut [u32],
    message: &[u8],
) -> Result<()>
    requires { Limits sizes × Sized sizes (held numbers.old facts.old) }
{
    if !knowledge_store::is_sound(sizes, numbers, facts) {
        return print!(rt; "corrupt");
    }
    print!(rt; "sound ")?;
    show_row(rt, sizes, numbers)?;
    match message_codec::decode(message, sizes) {
        Ok(message) => offer(rt, sizes, numbers, facts, message),
        Err(r) => print!(rt; " refused {}", r.number()),
    }
}

fn show_vector(rt: &impl Print, line: &[u8]) -> Result<()> {
    let mut bytes = Bytes::of(line);
    let sizes = sizes_of(&mut bytes);
    let length = usize::from(bytes.number::<u8>());
    let mut all_bytes = [0u8; 256];
    let mut all_numbers = [0u16; 2050];
    let mut all_facts = [0u32; 2048];
    let message = &mut all_bytes[..length];
    let numbers = &mut all_numbers[..numbers_size(sizes)];
    let facts = &mut all_facts[..2 * sizes.minutes];
    bytes.fill(message);
    bytes.fill(numbers);
    bytes.fill(facts);
    show_case(rt, sizes, numbers, facts, message)
}

// What a search in a run of so many places found: the place at or after the minute is `-` where there is none.
fn show_found(rt: &impl Print, found: Search, places: usize) -> Result<()>
    requires { (found.before ≤ found.after) × (found.after ≤ 1025) }
{
    let answer = if found.level {
        "quiet"
    } else if counter_runs::is_full(found) {
        "busy"
    } else {
        "open"
    };
    print!(rt; "{answer} {}", found.before)?;
    if found.after == places {
        print!(rt; " -")?;
    } else {
        print!(rt; " {}", found.after)?;
    }
    print!(rt; " {}", found.reads)
}

fn show_search(rt: &impl Print, minute: usize, run: &[u16]) -> Result<()>
    requires { (minute < length run.now) × (length run.now ≤ 1025) }
{
    let found = counter_runs::search_outwards(run, minute);
    show_found(rt, found, run.len())
}

fn show_search_vector(rt: &impl Print, line: &[u8]) -> Result<()> {
    let mut bytes = Bytes::of(line);
    let minute = usize::from(bytes.number::<u16>());
    let places = (usize::from(bytes.number::<u16>()) + 1024) % 1025 + 1;
    let mut longest = [0u16; 1025];
    let run = &mut longest[..places];
    bytes.fill(run);
    show_search(rt, minute % places, run)
}

fn show_line(rt: &impl Print, line: &[u8]) -> Result<()> {
    match line {
        [b'#', ..] => rt.write_all(line),
        [b'?', vector @ ..] => show_search_vector(rt, vector),
        _ => show_vector(rt, line),
    }
}

fn main(rt: HostRuntime) {
    let out = InPieces(&rt);
    hex_lines::each_line(&out, |line| show_line(&out, line));
}
