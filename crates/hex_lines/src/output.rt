// Standard output, as the programs that print vectors write it.
ghost use Rattle.std.specs.Prelude.{IsOk};

use std::fmt;
use std::fmt::Display;
use std::io::{Print, Result};

// An output on which a write that fails is left out and those after it are tried, so that no call fails. What one call prints is gathered.
#[derive(Clone, Copy)]
pub struct BestEffort<'a, R>(pub &'a R);

impl<R: Print> Print for BestEffort<'_, R> {
    fn print<D: Display + Drop>(&self, value: D) -> Result<()>
        ensures { IsOk result }
    {
        let _ = self.0.print(value);
        Ok(())
    }

    fn println<D: Display + Drop>(&self, value: D) -> Result<()>
        ensures { IsOk result }
    {
        let _ = self.0.println(value);
        Ok(())
    }

    fn write_all(&self, bytes: &[u8]) -> Result<()>
        ensures { IsOk result }
    {
        let _ = self.0.write_all(bytes);
        Ok(())
    }
}

// The same, but each part of what is printed is a write of its own, so that only the part is lost whose write fails.
#[derive(Clone, Copy)]
pub struct InPieces<'a, R>(pub &'a R);

impl<R: Print> fmt::Write for InPieces<'_, R> {
    fn write_str(&mut self, s: &str) -> fmt::Result
        ensures { IsOk result }
    {
        let _ = self.0.write_all(s.as_bytes());
        Ok(())
    }
}

impl<R: Print> Print for InPieces<'_, R> {
    fn print<D: Display + Drop>(&self, value: D) -> Result<()>
        ensures { IsOk result }
    {
        let _ = fmt::Write::write(&mut InPieces(self.0), value);
        Ok(())
    }

    fn println<D: Display + Drop>(&self, value: D) -> Result<()>
        ensures { IsOk result }
    {
        let _ = fmt::Write::writeln(&mut InPieces(self.0), value);
        Ok(())
    }

    fn write_all(&self, bytes: &[u8]) -> Result<()>
        ensures { IsOk result }
    {
        BestEffort(self.0).write_all(bytes)
    }
}
