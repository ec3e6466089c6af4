// Lines of hexadecimal, as the programs that print vectors read them: two digits a byte, with a space between bytes, the lower byte of a number
// first. A byte past a line's end is 0.
#![tactic(auto)]

mod lines;
mod output;
mod show;

ghost use Rattle.std.specs.Prelude.{◌≡◌, ℕ, ◌+◌, ◌*◌, ◌≤◌, ◌<◌, List, length, min, drop, slice_index, slice_index_or};
ghost use Rattle.std.specs.Iterator.{YieldsFirst, item_count};
ghost use Rattle.hex_lines.specs.Hex.{digit_of, bytes_of};

pub use lines::{each_line, echo_lines};
pub use output::{BestEffort, InPieces};
pub use show::{Hex, Listed, joined, kept, spaced};

// The bytes of a line that are still to be read.
#[derive(Clone, Copy)]
pub struct Bytes<'a> {
    rest: &'a [u8],
}

// A number of one or more bytes, as it stands in a line. Those that a line lacks are 0.
pub trait Number: Copy {
    ghost width: { ℕ };

    ghost first: { List ℕ → Self };

    fn read(bytes: &mut Bytes<'_>) -> Self
        ensures value { result ≡ first (bytes_of bytes.old.rest.now) }
        ensures rest { bytes_of bytes.new.rest.now ≡ drop width (bytes_of bytes.old.rest.now) };
}

impl Number for u8 {
    ghost width = { 1 };

    ghost first = { λ bytes. slice_index bytes 0 };

    fn read(bytes: &mut Bytes<'_>) -> u8 {
        bytes.next().unwrap_or(0)
    }
}

impl Number for u16 {
    ghost width = { 2 };

    ghost first = { λ bytes. slice_index bytes 0 + 256 * slice_index bytes 1 };

    fn read(bytes: &mut Bytes<'_>) -> u16 {
        u16::from_le_bytes([u8::read(bytes), u8::read(bytes)])
    }
}

impl Number for u32 {
    ghost width = { 4 };

    ghost first = { λ bytes. slice_index bytes 0 + 256 * (slice_index bytes 1 + 256 * (slice_index bytes 2 + 256 * slice_index bytes 3)) };

    fn read(bytes: &mut Bytes<'_>) -> u32 {
        u32::from_le_bytes([
            u8::read(bytes),
            u8::read(bytes),
            u8::read(bytes),
            u8::read(bytes),
        ])
    }
}

// The value of a hexadecimal digit.
fn digit(c: u8) -> u8
    ensures below { result < 16 }
    ensures value { result ≡ digit_of c }
{
    if c < b'A' {
        c % 16
    } else {
        (c - b'A' + 10) % 16
    }
}

impl Iterator for Bytes<'_> {
    type Item = u8;

    ghost next_gives = { YieldsFirst (λ b. bytes_of b.rest.now) };

    ghost remaining = { item_count (λ b. bytes_of b.rest.now) };

    fn next(&mut self) -> Option<u8> {
        let (high, low, rest) = match self.rest {
            [high, low] => (*high, *low, &[][..]),
            [high, low, _, rest @ ..] => (*high, *low, rest),
            _ => return None,
        };
        self.rest = rest;
        Some(digit(high) * 16 + digit(low))
    }
}

impl<'a> Bytes<'a> {
    // All bytes of a line.
    pub fn of(line: &'a [u8]) -> Bytes<'a>
        ensures { result.rest.now ≡ line.now }
    {
        Bytes { rest: line }
    }

    // The next number.
    pub fn number<T: Number>(&mut self) -> T
        ensures value { result ≡ T.first (bytes_of self.old.rest.now) }
        ensures rest { bytes_of self.new.rest.now ≡ drop T.width (bytes_of self.old.rest.now) }
    {
        T::read(self)
    }

    // Fills a buffer with the next numbers.
    pub fn fill<T: Number>(&mut self, out: &mut [T])
        ensures numbers { (k : ℕ) (x : T) → k < length out.new → slice_index_or out.new k x ≡ T.first (drop (k * T.width) (bytes_of self.old.rest.now)) }
        ensures rest { bytes_of self.new.rest.now ≡ drop (length out.new * T.width) (bytes_of self.old.rest.now) }
    {
        for number in out.iter_mut() {
            *number = T::read(self);
        }
    }

    // Writes the next bytes to the start of a buffer, as far as both go, and answers how many.
    pub fn copy_to(&mut self, out: &mut [u8]) -> usize
        ensures within { result ≤ length out.new }
        ensures count { result ≡ min (length out.new) (length (bytes_of self.old.rest.now)) }
        ensures bytes { (k : ℕ) → k < result → slice_index out.new k ≡ slice_index (bytes_of self.old.rest.now) k }
    {
        let n = out.len().min((self.rest.len() + 1) / 3);
        self.fill(&mut out[..n]);
        n
    }
}
