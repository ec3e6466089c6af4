// Standard input, read in large pieces.
ghost use Rattle.std.specs.Prelude.{◌≡◌, ◌-◌, ◌≤◌, length, min, take, drop};

use crate::retry;
use std::io::{Input, Read};
use std::rt::Clock;

// How much is read at once.
const PIECE: usize = 65536;

// As many bytes as a message with its length byte can have.
const LONGEST_MESSAGE: usize = 256;

// Standard input and the bytes of it that are read: those of the buffer that are not yet used, whether more may come, and how many bytes came
// before the buffer's.
// A buffer beside its places: fixed memory, no heap.
#[derive(Drop)]
pub struct Source<'a, R> {
    rt: &'a R,
    buffer: [u8; PIECE],
    at: usize,
    end: usize,
    more: bool,
    before: u64,
    ghost read: { at ≤ end },
    ghost held: { end ≤ 65536 },
}

// Reads from a place on until the buffer is full or the input ends, and answers where the bytes end. What was read before a read that failed
// counts as all of the input.
fn fill(rt: &(impl Input + Clock), buffer: &mut [u8], from: usize) -> usize
    requires { from ≤ length buffer.old }
    ensures { result ≤ length buffer.old }
{
    let mut end = from;
    for _ in 0..retry::TURNS {
        if end == buffer.len() {
            break;
        }
        match rt.reader().read(&mut buffer[end..]) {
            Ok(0) => break,
            Ok(got) => end += got,
            Err(error) => {
                if let Err(error) = retry::again(rt, error) {
                    failures::tell(b"input cut", error);
                    break;
                }
            }
        }
    }
    end
}

impl<'a, R: Input + Clock> Source<'a, R> {
    // The input, of which nothing is read yet: a buffer that was filled and then handed out would stand on the stack twice.
    pub fn new(rt: &'a R) -> Source<'a, R> {
        Source {
            rt,
            buffer: [0; PIECE],
            at: 0,
            end: 0,
            more: true,
            before: 0,
        }
    }

    // The place in the input of the next byte. No input has 2 ^ 64 bytes.
    pub fn position(&self) -> u64 {
        self.before.wrapping_add(self.at as u64)
    }

    // Keeps what is not yet used, and fills the rest of the buffer.
    pub fn refill(&mut self) {
        self.before = self.position();
        let left = self.end - self.at;
        self.buffer.copy_within(self.at..self.end, 0);
        self.at = 0;
        self.end = fill(self.rt, &mut self.buffer, left);
        self.more = self.end == PIECE;
    }

    // The next so many bytes of the buffer, or all that it has.
    pub fn take(&mut self, bytes: usize) -> &[u8]
        ensures next { result.now ≡ take (min bytes (self.old.end - self.old.at)) (drop self.old.at self.old.buffer) }
        ensures bound { length result.now ≤ bytes }
    {
        let from = self.at;
        let to = from + bytes.min(self.end - from);
        self.at = to;
        let read = &*self;
        &read.buffer[from..to]
    }

    // The next message and where it starts in the input: so many bytes as its length byte says, or all that the input still has; none at the
    // input's end.
    pub fn message(&mut self) -> Option<(u64, &[u8])> {
        if self.more && self.end - self.at < LONGEST_MESSAGE {
            self.refill();
        }
        let length = *self.take(1).first()?;
        let start = self.position();
        Some((start, self.take(usize::from(length))))
    }
}
