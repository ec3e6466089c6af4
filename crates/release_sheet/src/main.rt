// Prints the verdicts of a trace (01: the printing program). Standard input holds the policy's length in two bytes, the policy, and then
// messages, each after one length byte, to the end; a piece that the end cuts is offered as it is. What is marked `inline(never)` is compiled
// apart, so that what a policy is read into or a line is put together in stands on the stack only then.
#![tactic(auto)]

mod input;
mod output;
mod parts;
mod report;
mod retry;
mod state;

ghost use Rattle.std.specs.Prelude.{◌≡◌, ◌+◌, ◌<◌};
ghost use Rattle.release_sheet.specs.Counting.{tallied};

use input::Source;
use monitor::Verdict;
use output::Page;
use parts::Parts;
use refusal::Refusal;
use state::State;
use std::io;
use std::io::{Input, Print, Write};
use std::rt::Clock;

// The longest policy: 5 bytes of heading and 64 lines of 8, as many as origin::LENGTH.
const LONGEST_POLICY: usize = 517;

// How many messages were received and how many refused.
#[derive(Clone, Copy)]
struct Tally {
    taken: u64,
    refused: u64,
}

impl Tally {
    // One message more, by its answer.
    fn counted(self, answer: Result<usize, Refusal>) -> Tally
        requires { self.taken + self.refused < 18446744073709551615 }
        ensures { (result ≡ tallied self answer) × (result.taken + result.refused ≡ self.taken + self.refused + 1) }
    {
        match answer {
            Ok(_) => Tally {
                taken: self.taken + 1,
                ..self
            },
            Err(_) => Tally {
                refused: self.refused + 1,
                ..self
            },
        }
    }
}

// Offers every message of the input; a refusal is told.
#[inline(never)]
fn receive_all<R: Input + Clock + Eprint>(
    rt: &R,
    source: &mut Source<'_, R>,
    state: &mut State<'_>,
) -> Tally {
    let mut tally = Tally {
        taken: 0,
        refused: 0,
    };
    for index in 0..u64::MAX {
        let Some((start, message)) = source.message() else {
            break;
        };
        let answer = state.receive(message);
        if let Err(refusal) = answer {
            report::message_refused(rt, index, start, refusal);
        }
        tally = tally.counted(answer);
    }
    tally
}

// Puts the verdicts, by minute and then by rule, and the tally.
#[inline(never)]
fn put_sheet<R: Print + Clock>(
    page: &mut Page<'_, R>,
    state: &State<'_>,
    tally: Tally,
) -> io::Result<()> {
    for minute in 0..state.minutes() {
        for rule in 0..state.rules() {
            page.make_room()?;
            match state.verdict(rule, minute) {
                Verdict::Satisfied => page.put_line(format_args!("{minute} {rule} kept"))?,
                Verdict::Violated => page.put_line(format_args!("{minute} {rule} broken"))?,
                Verdict::Unknown => {}
            }
        }
    }
    page.make_room()?;
    let Tally { taken, refused } = tally;
    page.put_line(format_args!("taken {taken} refused {refused}"))
}

// Prints the verdicts and the tally; nothing is left in the text.
fn print_sheet<R: Print + Clock>(
    page: &mut Page<'_, R>,
    state: &State<'_>,
    tally: Tally,
) -> io::Result<()>
    ensures { page.new.at ≡ 0 }
{
    let sheet = put_sheet(page, state, tally);
    sheet.and(page.flush())
}

// Puts the only line where the policy is refused.
#[inline(never)]
fn put_refused<R: Print + Clock>(page: &mut Page<'_, R>, refusal: Refusal) -> io::Result<()> {
    page.make_room()?;
    let number = refusal.number();
    let place = refusal.place();
    page.put_line(format_args!("card refused {number} at {place}"))
}

// Prints that line; nothing is left in the text.
fn print_refused<R: Print + Clock>(page: &mut Page<'_, R>, refusal: Refusal) -> io::Result<()>
    ensures { page.new.at ≡ 0 }
{
    let line = put_refused(page, refusal);
    line.and(page.flush())
}

// Prints that the policy, which starts at a byte of the input, is refused, and tells why.
fn refuse_policy<R: Print + Eprint + Clock>(
    rt: &R,
    page: &mut Page<'_, R>,
    start: u64,
    refusal: Refusal,
) -> io::Result<()>
    ensures { page.new.at ≡ 0 }
{
    report::policy_refused(rt, start, refusal);
    print_refused(page, refusal)
}

// The policy's length as the first two bytes say it; 0 where they are not there.
fn policy_length(bytes: &[u8]) -> usize {
    match bytes {
        [low, high] => usize::from(encoding::word(*low, *high)),
        _ => 0,
    }
}

// Reads the policy and the messages, and prints the sheet, or the line that says that the policy is refused.
fn watch<R: Input + Print + Eprint + Clock>(rt: &R) -> io::Result<()> {
    let mut page = Page::new(rt);
    let mut source = Source::new(rt);
    source.refill();
    let length = policy_length(source.take(2));
    let start = source.position();
    if length > LONGEST_POLICY {
        let refusal = Refusal::TruncatedPolicy(LONGEST_POLICY);
        return refuse_policy(rt, &mut page, start, refusal);
    }
    let mut policy = [0u8; LONGEST_POLICY];
    let read = source.take(length);
    let n = read.len();
    policy[..n].copy_from_slice(read);
    let policy = &policy[..n];
    let parts = match Parts::of(policy) {
        Ok(parts) => parts,
        Err(refusal) => return refuse_policy(rt, &mut page, start, refusal),
    };
    let mut state = State::new(policy, parts);
    if let Err(refusal) = state.open() {
        return refuse_policy(rt, &mut page, start, refusal);
    }
    let tally = receive_all(rt, &mut source, &mut state);
    print_sheet(&mut page, &state, tally)
}

fn main(rt: HostRuntime) {
    if let Err(error) = watch(&rt) {
        failures::tell(b"output cut", error);
    }
}
