// Standard output, written in large pieces.
ghost use Rattle.std.specs.Prelude.{◌≡◌, ◌+◌, ◌-◌, ◌≤◌, ◌<◌, length, min, eqb, cond, IsOk, OnOk, IfOk, IfSome, None, IsNone};
ghost use Rattle.std.specs.Fmt.{with_newline};
ghost use Rattle.std.specs.Io.{WritesAtMost};
ghost use Rattle.std.specs.Io.KnownBytes.{WriteAppends};
ghost use Rattle.release_sheet.specs.Lines.{LineFits, PutWhole};

use crate::retry;
use std::fmt;
use std::fmt::Display;
use std::io::{Error, ErrorKind, Print, Result, Write};
use std::rt::Clock;

// How much is written at once.
const PIECE: usize = 65536;

// No line is longer, its newline among it: `put_line` asks that of each.
const LONGEST_LINE: usize = 64;

// Standard output, the text that is to be written next, and why it was cut, where a write has failed.
// A buffer beside its places: fixed memory, no heap.
#[derive(Drop)]
pub struct Page<'a, R> {
    rt: &'a R,
    text: [u8; PIECE],
    at: usize,
    cut: Option<Error>,
    ghost held: { at ≤ 65536 },
}

// Writes all of these bytes.
fn write_all(rt: &(impl Print + Clock), bytes: &[u8]) -> Result<()> {
    let mut rest = bytes;
    for _ in 0..retry::TURNS {
        if rest.is_empty() {
            return Ok(());
        }
        match rt.write_some(rest) {
            Ok(0) => break,
            Ok(taken) => rest = &rest[taken..],
            Err(error) => retry::again(rt, error)?,
        }
    }
    Err(Error::from(ErrorKind::WriteZero))
}

impl<'a, R: Print + Clock> Page<'a, R> {
    pub fn new(rt: &'a R) -> Page<'a, R> {
        Page {
            rt,
            text: [0; PIECE],
            at: 0,
            cut: None,
        }
    }

    // Makes room for a line, so that each piece that is written ends with a line.
    pub fn make_room(&mut self) -> Result<()>
        ensures { self.new.at + 64 ≤ 65536 }
    {
        if PIECE - self.at < LONGEST_LINE {
            return self.flush();
        }
        Ok(())
    }

    // Puts a line that fits in the room that was made for it, whole: nothing is written before its end.
    pub fn put_line<D: Display + Drop>(&mut self, line: D) -> Result<()>
        requires room { self.old.at + 64 ≤ 65536 }
        requires fits { LineFits (D.output line) }
        ensures placed { OnOk result (IfSome (with_newline (D.output line)) (λ bs. self.new.at ≡ self.old.at + length bs)) }
    {
        Ok(fmt::Write::writeln(self, line)?)
    }
}

impl<'a, R: Print + Clock> fmt::Write for Page<'a, R> {
    ghost write_str_gives = { λ s bs t. PutWhole s.at bs t.at };

    // Puts a text that fits whole. A number comes in parts, some of them empty: none of those makes a full text be written.
    fn write_str(&mut self, s: &str) -> fmt::Result
        ensures ok { IsOk result → PutWhole self.old.at s.now self.new.at }
        ensures fits { self.old.at + length s.now ≤ 65536 → IsOk result }
    {
        if s.is_empty() {
            return Ok(());
        }
        match Write::write(self, s.as_bytes()) {
            Ok(n) if n == s.len() => Ok(()),
            _ => Err(fmt::Error),
        }
    }
}

impl<'a, R: Print + Clock> Write for Page<'a, R> {
    // Puts into the text what there is room for; a full text is written first.
    fn write(&mut self, bytes: &[u8]) -> Result<usize>
        ensures bound { WritesAtMost result bytes.now }
        ensures bytes { WriteAppends None None result bytes.now }
        ensures placed { IfOk result (λ n. self.new.at ≡ cond (eqb self.old.at 65536) 0 self.old.at + n) }
        ensures taken { self.old.at < 65536 → IsOk result }
        ensures filled { IfOk result (λ n. n ≡ min (length bytes.now) (65536 - cond (eqb self.old.at 65536) 0 self.old.at)) }
    {
        if self.at == PIECE {
            self.flush()?;
        }
        let n = bytes.len().min(PIECE - self.at);
        let end = self.at + n;
        self.text[self.at..end].copy_from_slice(&bytes[..n]);
        self.at = end;
        Ok(n)
    }

    // Writes the text, which is then empty. After a write that failed nothing is written, so that what is printed has no gap.
    fn flush(&mut self) -> Result<()>
        ensures empty { self.new.at ≡ 0 }
        ensures cut { IsNone self.new.cut → IsNone self.old.cut }
        ensures whole { OnOk result (IsNone self.new.cut) }
    {
        if self.cut.is_none() {
            self.cut = write_all(self.rt, &self.text[..self.at]).err();
        }
        self.at = 0;
        self.cut.map_or(Ok(()), Err)
    }
}
