// What the calls over a lent state answer, where they are not refused: receive_packet, which stands with open and receive in `monitor_calls`, and
// lookup, in `monitor_lookup`. What is demanded of them stands in specs/Demands.antt.
#![tactic(auto)]

ghost use Rattle.std.specs.Prelude.{◌≡◌};
ghost use Rattle.monitor.specs.Lookup.{verdict_code, verdict_of};
ghost use Rattle.monitor.specs.State.{given, lengths_of};

use refusal::Refusal;

// 01: blank, kept or broken.
#[derive(Clone, Copy, Debug, PartialEq, Eq)]
pub enum Verdict {
    Unknown,
    Satisfied,
    Violated,
}

// What a code of the verdict sheet says.
impl From<u8> for Verdict {
    ghost from_gives = { λ code verdict. verdict ≡ verdict_of code };

    fn from(code: u8) -> Verdict {
        match code {
            1 => Verdict::Satisfied,
            2 => Verdict::Violated,
            _ => Verdict::Unknown,
        }
    }
}

// The code of a verdict, as the calls for C give it.
impl From<Verdict> for usize {
    ghost from_gives = { λ verdict code. code ≡ verdict_code verdict };

    fn from(verdict: Verdict) -> usize {
        match verdict {
            Verdict::Unknown => 0,
            Verdict::Satisfied => 1,
            Verdict::Violated => 2,
        }
    }
}

// Where a packet's messages stop being taken before its end: at one that is refused, as its take refuses it. The place beside the refusal is the
// packet's; one inside it (of 7) is counted from the message.
#[derive(Clone, Copy)]
pub struct Stopped {
    pub refusal: Refusal,
    pub place: usize,
}

// What a packet is answered: how many of its messages are taken, and why no more; nothing where it was taken to its end.
#[derive(Clone, Copy)]
pub struct PacketAnswer {
    pub taken: usize,
    pub stop: Option<Stopped>,
}

// The lent buffers of a call: the record (01: counts and facts), both sheets, and the policy that the record was opened under (02, request 5).
#[derive(Drop)]
pub struct Buffers<'a> {
    pub numbers: &'a mut [u16],
    pub facts: &'a mut [u32],
    pub valuation: &'a mut [u8],
    pub verdicts: &'a mut [u8],
    pub origin: &'a mut [u8],
    pub extent: &'a mut u16,
}

impl<'a> Buffers<'a> {
    // How long they are.
    pub fn lengths(&self) -> Lengths
        ensures { result ≡ lengths_of (given self.now) }
    {
        Lengths {
            numbers: self.numbers.len(),
            facts: self.facts.len(),
            valuation: self.valuation.len(),
            verdicts: self.verdicts.len(),
            origin: self.origin.len(),
        }
    }
}

// How long the lent buffers are.
#[derive(Clone, Copy)]
pub struct Lengths {
    pub numbers: usize,
    pub facts: usize,
    pub valuation: usize,
    pub verdicts: usize,
    pub origin: usize,
}
