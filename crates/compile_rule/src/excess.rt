// Which limit a text passes at a place (02, request 7, refusal 14).
ghost use Rattle.std.specs.Prelude.{◌≡◌, ◌≤◌, length};
ghost use Rattle.compile_rule.specs.Words as S;

use crate::beginning;
use crate::beginning::Expected;
use crate::report::{put, put_number};
use rule_lexer::byte_at;
use std::io::Print;

#[derive(Clone, Copy)]
pub enum Excess {
    Mark,
    Bound,
    Terms,
    Nesting,
    Interval,
}

// A 1 and 32 digits in base 2 behind it: as many brackets are open as may be.
const DEEPEST: u64 = 4294967296;

// Where a term would start.
#[tactic(auto, unfolding(crate::specs::Words::term_limit, crate::specs::Choices::choose))]
fn of_term(text: &[u8], at: usize, levels: u64) -> Excess
    ensures { result ≡ S.term_limit text.now at levels }
{
    if (byte_at(text, at) == b'(') & (DEEPEST <= levels) {
        Excess::Nesting
    } else {
        Excess::Terms
    }
}

// Which limit is passed at a place, before which the text is the beginning of one of the grammar. Only where a term, a number or a bracket
// comes next can one be passed.
#[tactic(auto, unfolding(crate::specs::Words::limit_at))]
pub fn limit_at(text: &[u8], at: usize) -> Excess
    requires { at ≤ length text.now }
    ensures { result ≡ S.limit_at text.now at }
{
    let b = beginning::scan(text, at);
    match b.expected {
        Expected::Term => of_term(text, at, b.levels),
        Expected::Mark => Excess::Mark,
        Expected::Bracket => Excess::Interval,
        Expected::Lower | Expected::Upper => Excess::Bound,
        Expected::True
        | Expected::Not
        | Expected::Space
        | Expected::Ended
        | Expected::Joint
        | Expected::Or
        | Expected::And
        | Expected::Since
        | Expected::Until => Excess::Terms,
    }
}

// How many digits some bytes begin with.
fn digits_end(text: &[u8]) -> usize
    ensures { S.DigitsEnd text.now 0 result }
{
    let end = text.iter().position(|c| !c.is_ascii_digit());
    end.unwrap_or(text.len())
}

// Tells the digits that some bytes begin with, at most 20 of them.
fn tell_digits(err: &impl Print, text: &[u8]) {
    let digits = &text[..digits_end(text)];
    if digits.len() > 20 {
        put(err, &digits[..20]);
        put(err, b"..");
    } else {
        put(err, digits);
    }
}

// Tells the bounds of the interval whose bracket these bytes begin with.
fn tell_interval(err: &impl Print, text: &[u8]) {
    if let Some((_, lower)) = text.split_first() {
        put(err, b"interval from ");
        tell_digits(err, lower);
        if let Some((_, upper)) = lower[digits_end(lower)..].split_first() {
            put(err, b" to ");
            tell_digits(err, upper);
        }
    }
}

impl Excess {
    // Tells which limit is passed, by how many propositions there are and by the text from there on.
    pub fn tell(self, err: &impl Print, propositions: usize, rest: &[u8]) {
        match self {
            Excess::Mark => {
                put(err, b"mark ");
                tell_digits(err, rest);
                put(err, b" of ");
                put_number(err, propositions);
            }
            Excess::Bound => {
                put(err, b"bound ");
                tell_digits(err, rest);
                put(err, b" above 1023");
            }
            Excess::Terms => put(err, b"more than 64 terms"),
            Excess::Nesting => put(err, b"brackets nested deeper than 32"),
            Excess::Interval => tell_interval(err, rest),
        }
    }
}
