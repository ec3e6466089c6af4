// What the program tells on standard error: why a policy or a message is refused. What is marked `inline(never)` is compiled apart, so that the
// line that it puts together stands on the stack only while it is told.
use refusal::Refusal;
use std::fmt;
use std::fmt::{Display, Formatter};

// What is told of a refusal: where the refused bytes start in the input, its number and place, and why (01: the words of the table of reasons).
#[derive(Clone, Copy)]
struct Told {
    start: u64,
    refusal: Refusal,
}

impl Display for Told {
    fn fmt<W: fmt::Write>(&self, f: &mut Formatter<W>) -> fmt::Result {
        let start = self.start;
        let number = self.refusal.number();
        let place = self.refusal.place();
        let why = match self.refusal {
            Refusal::TruncatedPolicy(_) => "cut card, it ends early or bytes follow its last line",
            Refusal::BadHeading(_) => "bad heading, the number there is out of range",
            Refusal::BadSubformula(_) =>
                "bad line, the line whose map is there breaks a rule of the format",
            Refusal::RuleCount => "rule count, no line is a rule or more than 8 are",
            Refusal::TruncatedMessage(_) => "cut slip, it ends early or bytes follow it",
            Refusal::BadMessage =>
                "bad slip, it breaks a rule of the format or a range of the card",
            Refusal::Conflict => "clash, no shift could have sent it and the slips taken before it",
            // A call of this program is never refused so: it lends buffers of the exact sizes and its own record, under the policy that it was
            // opened under, makes no look and types no rule.
            _ => "refused",
        };
        write!(f, " at byte {start} refused {number} at {place}: {why}")
    }
}

// Tells why the policy, which starts at a byte of the input, is refused.
#[inline(never)]
pub fn policy_refused(rt: &impl Eprint, start: u64, refusal: Refusal) {
    let _ = eprintln!(rt; "card{}", Told { start, refusal });
}

// Tells why a message is refused: which one it is, counted from 0, and at which byte of the input it starts.
#[inline(never)]
pub fn message_refused(rt: &impl Eprint, index: u64, start: u64, refusal: Refusal) {
    let _ = eprintln!(rt; "slip {index}{}", Told { start, refusal });
}
