// The words, numbers and intervals of a rule typed as text (02, request 7).
#![tactic(auto)]

ghost use Rattle.std.specs.Prelude.{◌≡◌, ℕ, ◌+◌, ◌-◌, ◌*◌, ◌≤◌, true, cond, ltb, leb, length, get_or};
ghost use Rattle.refusal.specs.declared.Refusal.TheVariants.{RuleLimit};
ghost use Rattle.rule_grammar.specs.Numeral.{digit, digits};
ghost use Rattle.rule_grammar.specs.Numbers.{Matching};
ghost use Rattle.rule_text.specs.Steps.{NumberAt, Comma, WordAt, IntervalRead, WordRead, TimedRead, JointRead, NotsRead};

use policy::LineKind;
use refusal::Refusal;
use rule_text::{Bounds, Joint, Run};

// The most terms of a rule, and the latest end of an interval.
const MOST_TERMS: usize = 64;

const MOST_BOUND: usize = 1023;

// Where the digits of a number end (where it should start, if there are none), and the number: below 1,024 as it is, else some number from there
// up to it.
#[derive(Clone, Copy)]
pub struct Numeral {
    pub end: usize,
    pub value: usize,
}

// The byte at a place; 0, which no rule has, where the text has ended.
// A text and a place stay two arguments: the place changes at each step, and a struct of both would be made anew for each call.
pub fn byte_at(text: &[u8], at: usize) -> u8
    ensures { result ≡ get_or text.now at 0 }
{
    text.get(at).copied().unwrap_or(0)
}

// How many bytes of a word stand at a place.
pub fn matching(text: &[u8], at: usize, word: &[u8]) -> usize
    requires { at ≤ length text.now }
    ensures { Matching text.now at word.now result }
{
    text[at..]
        .iter()
        .zip(word)
        .take_while(|(a, b)| a == b)
        .count()
}

// The place behind a word that stands at a place; a text with another byte is refused there.
pub fn word_at(text: &[u8], at: usize, word: &[u8]) -> Result<usize, Refusal>
    requires { at ≤ length text.now }
    ensures { WordAt text.now at word.now result }
{
    let n = matching(text, at, word);
    if n < word.len() {
        return Err(Refusal::RuleSyntax(at + n));
    }
    Ok(at + n)
}

// What stands for a number once a digit more has been read (`Numeral`).
fn with_digit(value: usize, byte: u8) -> usize
    requires { (value ≤ 10239) × (digit byte ≡ true) }
    ensures { result ≡ cond (leb value 1023) (value * 10 + (byte - 48)) value }
{
    if value <= MOST_BOUND {
        return value * 10 + usize::from(byte - b'0');
    }
    value
}

// The number at a place, with all its digits; behind "0" there are none.
pub fn number_at(text: &[u8], at: usize) -> Numeral
    ensures { NumberAt text.now at result.end result.value }
{
    if byte_at(text, at) == b'0' {
        return Numeral {
            end: at + 1,
            value: 0,
        };
    }
    let rest = &text[at.min(text.len())..];
    let mut end = at;
    let mut value = 0;
    for byte in rest {
        if !byte.is_ascii_digit() {
            return Numeral { end, value };
        }
        value = with_digit(value, *byte);
        end += 1;
    }
    Numeral { end, value }
}

// Is the first of two numerals the larger number: the longer, or of two as long the one whose first digit that differs is larger.
fn exceeds(first: &[u8], second: &[u8]) -> bool
    ensures { (x y : ℕ) → first.now ≡ digits x → second.now ≡ digits y → result ≡ ltb y x }
{
    if first.len() == second.len() {
        return second < first;
    }
    second.len() < first.len()
}

// The refusal, unless the number that starts at `place` is past its range.
fn unless_far(value: usize, place: usize, refusal: Refusal) -> Refusal
    ensures { result ≡ cond (leb value 1023) refusal (RuleLimit place) }
{
    if value <= MOST_BOUND {
        return refusal;
    }
    Refusal::RuleLimit(place)
}

// The rest of an interval, from its comma on; its "[" is at `at`, and the number behind that has been read.
fn upper_bound(text: &[u8], at: usize, lower: Numeral) -> Result<Bounds, Refusal>
    requires { Comma text.now at lower.end lower.value }
    ensures { IntervalRead text.now at result }
{
    let first = at + 1;
    let second = lower.end + 1;
    let upper = number_at(text, second);
    if upper.end == second {
        return Err(unless_far(lower.value, first, Refusal::RuleSyntax(second)));
    }
    if byte_at(text, upper.end) != b']' {
        let refusal = unless_far(upper.value, second, Refusal::RuleSyntax(upper.end));
        return Err(unless_far(lower.value, first, refusal));
    }
    if exceeds(&text[first..lower.end], &text[second..upper.end]) {
        return Err(Refusal::RuleLimit(at));
    }
    if MOST_BOUND < lower.value {
        return Err(Refusal::RuleLimit(first));
    }
    if MOST_BOUND < upper.value {
        return Err(Refusal::RuleLimit(second));
    }
    Ok(Bounds {
        at: upper.end + 1,
        lower: lower.value,
        upper: upper.value,
    })
}

// An interval.
fn interval_at(text: &[u8], at: usize) -> Result<Bounds, Refusal>
    ensures { IntervalRead text.now at result }
{
    if byte_at(text, at) != b'[' {
        return Err(Refusal::RuleSyntax(at));
    }
    let first = at + 1;
    let lower = number_at(text, first);
    if lower.end == first {
        return Err(Refusal::RuleSyntax(first));
    }
    if byte_at(text, lower.end) != b',' {
        return Err(unless_far(lower.value, first, Refusal::RuleSyntax(lower.end)));
    }
    upper_bound(text, at, lower)
}

// The rest of "or" or "and", and the space behind it.
fn plain_word(text: &[u8], at: usize, rest: &[u8], kind: LineKind) -> Result<Joint, Refusal>
    requires { at ≤ length text.now }
    ensures { WordRead text.now at rest.now kind result }
{
    let end = word_at(text, at, rest)?;
    Ok(Joint {
        at: end,
        kind,
        lower: 0,
        upper: 0,
    })
}

// The rest of "since" or "until", its interval, and the space behind it.
fn timed_word(text: &[u8], at: usize, rest: &[u8], kind: LineKind) -> Result<Joint, Refusal>
    requires { at ≤ length text.now }
    ensures { TimedRead text.now at rest.now kind result }
{
    let end = word_at(text, at, rest)?;
    let bounds = interval_at(text, end)?;
    if byte_at(text, bounds.at) != b' ' {
        return Err(Refusal::RuleSyntax(bounds.at));
    }
    Ok(Joint {
        at: bounds.at + 1,
        kind,
        lower: bounds.lower as u16,
        upper: bounds.upper as u16,
    })
}

// What joins the two terms of a group, with the spaces on both sides.
pub fn joint_at(text: &[u8], at: usize) -> Result<Joint, Refusal>
    ensures { JointRead text.now at result }
{
    if byte_at(text, at) != b' ' {
        return Err(Refusal::RuleSyntax(at));
    }
    match byte_at(text, at + 1) {
        b'o' => plain_word(text, at + 2, b"r ", LineKind::Or),
        b'a' => plain_word(text, at + 2, b"nd ", LineKind::And),
        b's' => timed_word(text, at + 2, b"ince", LineKind::Since),
        b'u' => timed_word(text, at + 2, b"ntil", LineKind::Until),
        _ => Err(Refusal::RuleSyntax(at + 1)),
    }
}

// A run of "not", and that a term other than it may start behind the run; so many terms have started before.
pub fn nots_at(text: &[u8], at: usize, started: usize) -> Result<Run, Refusal>
    requires { started ≤ 64 }
    ensures { NotsRead text.now at started result }
{
    let mut place = at;
    for count in 0..MOST_TERMS - started {
        if byte_at(text, place) != b'n' {
            return Ok(Run { at: place, count });
        }
        place = word_at(text, place + 1, b"ot ")?;
    }
    Err(Refusal::RuleLimit(place))
}
