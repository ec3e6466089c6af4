// How a buffer is printed.
ghost use Rattle.std.specs.Prelude.{◌≡◌, ◌↔◌, true, IsTrue, All, codes};

use std::fmt;
use std::fmt::InlineText;

// Bytes in hexadecimal, with nothing between them.
#[derive(Clone, Copy)]
pub struct Hex<'a>(pub &'a [u8]);

// Numbers, with a text before each.
#[derive(Clone, Copy)]
pub struct Listed<'a, T> {
    numbers: &'a [T],
    before: &'a str,
}

// Numbers, each after a space.
pub fn spaced<'a, T>(numbers: &'a [T]) -> Listed<'a, T>
    ensures numbers { result.numbers.now ≡ numbers.now }
    ensures before { result.before.now ≡ codes " " }
{
    Listed {
        numbers,
        before: " ",
    }
}

// Digits, with nothing between them.
pub fn joined<'a>(digits: &'a [u8]) -> Listed<'a, u8>
    ensures numbers { result.numbers.now ≡ digits.now }
    ensures before { result.before.now ≡ codes "" }
{
    Listed {
        numbers: digits,
        before: "",
    }
}

impl fmt::Display for Hex<'_> {
    fn fmt<W: fmt::Write>(&self, f: &mut fmt::Formatter<W>) -> fmt::Result {
        for byte in self.0 {
            // Both digits at once: they are one part of what is printed.
            f.write_str(InlineText::<2>::of(format_args!("{:02X}", *byte)).as_str())?;
        }
        Ok(())
    }
}

impl<T: fmt::Display> fmt::Display for Listed<'_, T> {
    fn fmt<W: fmt::Write>(&self, f: &mut fmt::Formatter<W>) -> fmt::Result {
        let before = self.before;
        for number in self.numbers {
            write!(f, "{before}{number}")?;
        }
        Ok(())
    }
}

// Is every cell of a part of a lent buffer what it was before?
fn is_kept<T: PartialEq>(part: &[T], before: &T) -> bool
    ensures { IsTrue result ↔ All (λ x. T.eq x before.now ≡ true) part.now }
{
    part.iter().all(|x| *x == *before)
}

// What is said of a part of a lent buffer, every cell of which held the same before.
pub fn kept<T: PartialEq + Drop>(part: &[T], before: T) -> &'static str
    ensures kept { All (λ x. T.eq x before ≡ true) part.now → result.now ≡ codes " kept" }
    ensures changed { (All (λ x. T.eq x before ≡ true) part.now → ⊥) → result.now ≡ codes " changed" }
{
    if is_kept(part, &before) {
        " kept"
    } else {
        " changed"
    }
}
