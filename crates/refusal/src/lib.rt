// The reasons to turn a call away (01: the table of reasons), each with its number and place.
#![tactic(auto)]

ghost use Rattle.std.specs.Prelude.{◌≡◌, ◌+◌, ◌<◌, ◌^◌};
ghost use Rattle.refusal.specs.Numbers.{refusal_number, refusal_place, packet_place};

use std::fmt;

// A place stands beside each reason that has one; the others have place 0.
#[derive(Clone, Copy, Debug, PartialEq, Eq)]
pub enum Refusal {
    // 1, cut card
    TruncatedPolicy(usize),
    // 2, bad heading
    BadHeading(usize),
    // 3, bad line
    BadSubformula(usize),
    // 4, rule count
    RuleCount,
    // 5, wrong tray
    BufferSize,
    // 6, spoiled record
    CorruptKnowledge,
    // 7, cut slip
    TruncatedMessage(usize),
    // 8, bad slip
    BadMessage,
    // 9, clash
    Conflict,
    // 10, off the sheet
    OutOfRange,
    // 11, short paper (02, request 3): the lent buffer is shorter than the text
    ShortBuffer,
    // 12, other card (02, request 5): the lent state was not opened under this policy
    OtherPolicy,
    // 13, unreadable rule (02, request 7): no text of the grammar goes on so
    RuleSyntax(usize),
    // 14, too much rule (02, request 7): a limit is passed there
    RuleLimit(usize),
}

impl Refusal {
    // The number that a refusal carries.
    pub fn number(self) -> u8
        ensures { result ≡ refusal_number self }
    {
        match self {
            Refusal::TruncatedPolicy(_) => 1,
            Refusal::BadHeading(_) => 2,
            Refusal::BadSubformula(_) => 3,
            Refusal::RuleCount => 4,
            Refusal::BufferSize => 5,
            Refusal::CorruptKnowledge => 6,
            Refusal::TruncatedMessage(_) => 7,
            Refusal::BadMessage => 8,
            Refusal::Conflict => 9,
            Refusal::OutOfRange => 10,
            Refusal::ShortBuffer => 11,
            Refusal::OtherPolicy => 12,
            Refusal::RuleSyntax(_) => 13,
            Refusal::RuleLimit(_) => 14,
        }
    }

    // The place that a refusal carries.
    pub fn place(self) -> usize
        ensures { result ≡ refusal_place self }
    {
        match self {
            Refusal::TruncatedPolicy(at) => at,
            Refusal::BadHeading(at) => at,
            Refusal::BadSubformula(at) => at,
            Refusal::RuleCount => 0,
            Refusal::BufferSize => 0,
            Refusal::CorruptKnowledge => 0,
            Refusal::TruncatedMessage(at) => at,
            Refusal::BadMessage => 0,
            Refusal::Conflict => 0,
            Refusal::OutOfRange => 0,
            Refusal::ShortBuffer => 0,
            Refusal::OtherPolicy => 0,
            Refusal::RuleSyntax(at) => at,
            Refusal::RuleLimit(at) => at,
        }
    }

    // The place of a refusal in a packet, counted from the packet's start, where its message starts at byte `start`; what is checked before 7 keeps
    // its place.
    pub fn place_in_packet(self, start: usize) -> usize
        requires { packet_place start self < 2 ^ 64 }
        ensures { result ≡ packet_place start self }
    {
        match self {
            Refusal::TruncatedPolicy(_) => self.place(),
            Refusal::BadHeading(_) => self.place(),
            Refusal::BadSubformula(_) => self.place(),
            Refusal::RuleCount => self.place(),
            Refusal::BufferSize => self.place(),
            Refusal::CorruptKnowledge => self.place(),
            Refusal::TruncatedMessage(at) => start + at,
            Refusal::BadMessage => start,
            Refusal::Conflict => start,
            Refusal::OutOfRange => self.place(),
            Refusal::ShortBuffer => self.place(),
            Refusal::OtherPolicy => self.place(),
            Refusal::RuleSyntax(_) => self.place(),
            Refusal::RuleLimit(_) => self.place(),
        }
    }
}

// The number and the place, as the programs print them.
impl fmt::Display for Refusal {
    fn fmt<W: fmt::Write>(&self, f: &mut fmt::Formatter<W>) -> fmt::Result {
        write!(f, "{} at {}", self.number(), self.place())
    }
}
