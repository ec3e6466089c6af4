// The three numbers that the program is started with.
ghost use Rattle.std.specs.Prelude.{◌≡◌, ◌≤◌};
ghost use Rattle.compile_rule.specs.Arguments.{with_digit as more, number as typed};

use policy::Sizes;
use std::env::FillError;
use std::rt::Env;

// No size comes near this: a larger number counts as this one.
const LARGEST: usize = 1000000;

// A number with one digit more.
#[tactic(auto, unfolding(crate::specs::Arguments::with_digit, crate::specs::Choices::choose))]
fn with_digit(value: usize, c: u8) -> usize
    ensures { (result ≡ more value c) × (result ≤ 1000000) }
{
    let digit = usize::from(c % 16);
    value.saturating_mul(10).saturating_add(digit).min(LARGEST)
}

// The number that these bytes are the digits of.
fn number(digits: &[u8]) -> Option<usize>
    ensures { result ≡ typed digits.now }
{
    let whole = !digits.is_empty() & digits.iter().all(|c| c.is_ascii_digit());
    let value = digits.iter().copied().fold(0, with_digit);
    whole.then_some(value)
}

// Argument i as a number. One that is longer than the buffer is none.
fn argument(rt: &impl Env, i: usize) -> Option<usize> {
    let mut word = [0u8; 4096];
    let n = rt.arg(i, &mut word).ok()?;
    number(&word[..n])
}

// Has argument i not been given.
fn is_missing(rt: &impl Env, i: usize) -> bool {
    matches!(rt.arg(i, &mut [0u8; 1]), Err(FillError::NotPresent))
}

// The sizes, where there are three arguments and each is a number.
pub fn read(rt: &impl Env) -> Option<Sizes> {
    let sizes = Sizes {
        propositions: argument(rt, 1)?,
        components: argument(rt, 2)?,
        minutes: argument(rt, 3)?,
    };
    is_missing(rt, 4).then_some(sizes)
}
