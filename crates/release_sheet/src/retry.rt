// Making a call to the system again that failed.
use std::io::{Error, ErrorKind, Result};
use std::rt::Clock;
use std::thread;
use std::time::Duration;

// A proved loop has to end, and nothing says that a call's trouble does: a loop has so many turns, which no run uses up.
pub const TURNS: u64 = u64::MAX;

// Whether a call that has just failed can be made again: where a signal interrupted it and, after ten milliseconds, where it would have had to
// wait on a descriptor that never waits. Else the error stands.
pub fn again(rt: &impl Clock, error: Error) -> Result<()> {
    match error.kind() {
        ErrorKind::Interrupted => Ok(()),
        ErrorKind::WouldBlock => {
            thread::sleep(rt, Duration::from_millis(10));
            Ok(())
        }
        _ => Err(error),
    }
}
