// Makes a policy of one rule that is typed as text (02, request 7). The arguments say how many marks, stations and minutes there are; standard
// input holds the text, with or without a newline at its end. Standard output has the policy's bytes, or nothing where the text is refused;
// standard error tells why.
#![tactic(auto)]

mod arguments;
mod beginning;
mod excess;
mod input;
mod reason;
mod report;

use policy::Sizes;
use std::io::Print;

// The longest policy: 5 bytes of heading and 64 lines of 8, as many as origin::LENGTH.
const LONGEST_POLICY: usize = 517;

// The longest text that is read. The buffer has one byte more, so that a longer one is seen.
const LONGEST_TEXT: usize = 65536;

// Writes the policy's bytes to standard output.
fn print(rt: &impl Print, policy: &[u8]) {
    if let Err(error) = rt.write_all(policy) {
        failures::tell(b"output cut", error);
    }
}

// Prints the policy of a text, or tells why there is none; the text's bytes are then used up.
fn compile(rt: &impl Print, err: &impl Print, text: &mut [u8], sizes: Sizes) {
    let mut policy = [0u8; LONGEST_POLICY];
    match rule_parser::compile(
        text,
        sizes.propositions,
        sizes.components,
        sizes.minutes,
        &mut policy,
    ) {
        Ok(n) => print(rt, &policy[..n]),
        Err(refusal) => report::refused(err, text, sizes.propositions, refusal),
    }
}

fn main(rt: HostRuntime) {
    let err = rt.stderr();
    let Some(sizes) = arguments::read(&rt) else {
        report::usage(&err);
        return;
    };
    let mut text = [0u8; LONGEST_TEXT + 1];
    match input::fill(&mut rt.stdin(), &mut text) {
        Err(error) => failures::tell(b"input cut", error),
        Ok(end) if end > LONGEST_TEXT => report::too_long(&err),
        Ok(end) => {
            let length = input::without_newline(&text[..end]).len();
            compile(&rt, &err, &mut text[..length], sizes);
        }
    }
}
