// The lines of standard input, each answered in its turn.
use std::io::Result;

// Prints what is answered to each line of standard input, of which 65,536 bytes are read, and a newline. A write that fails ends it.
pub fn each_line<R: Print, F: Fn(&[u8]) -> Result<()>>(rt: &R, answer: F)
    requires { F.IsAlwaysCallable answer }
{
    let mut text = [0u8; 65536];
    let n = io::read_full(0, &mut text);
    for line in text[..n].split_inclusive(|c| *c == b'\n') {
        let answered = answer(line.strip_suffix(b"\n").unwrap_or(line));
        if answered.and_then(|_| println!(rt)).is_err() {
            return;
        }
    }
}

// The same, with each line printed before what is answered to it. A line that starts with '#' says what the next ones are, and is printed as it
// is.
pub fn echo_lines<R: Print, F: Fn(&[u8]) -> Result<()>>(rt: &R, answer: F)
    requires { F.IsAlwaysCallable answer }
{
    each_line(rt, |line| {
        rt.write_all(line)?;
        match line {
            [] | [b'#', ..] => Ok(()),
            _ => answer(line),
        }
    });
}
