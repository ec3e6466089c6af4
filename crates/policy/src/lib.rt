// The policy (01: the card): its sizes, its subformulas and which of them are rules, and the numbers from which it is written. `policy_codec` reads and
// writes it.
#![tactic(auto)]

ghost use Rattle.policy.specs.LineKinds.{KindRead};

use mtl::Formula;

// The most lines of a policy, and the most minutes (01: a policy has 1 to 1,024 minutes).
pub const MOST_LINES: usize = 64;

pub const MOST_MINUTES: usize = 1024;

// How many propositions (01: marks), components (01: stations) and minutes a trace has. Their ranges stand in clauses and no ghost field: sizes are
// also what refused bytes and numbers say.
#[derive(Clone, Copy)]
pub struct Sizes {
    pub propositions: usize,
    pub components: usize,
    pub minutes: usize,
}

// A line of the card: its meaning, and whether it is a rule.
#[derive(Clone, Copy)]
pub struct Subformula {
    pub formula: Formula,
    pub rule: bool,
}

// What a policy that was read keeps to (Proper) is asked for in clauses, and no ghost field: a policy is also what refused bytes say. An array
// beside its count: fixed memory, and the padding counts in no clause.
#[derive(Clone, Copy)]
pub struct Policy {
    pub sizes: Sizes,
    // how many subformulas there are; the others are padding
    pub count: usize,
    // how many of them are rules
    pub rules: usize,
    pub subformulas: [Subformula; MOST_LINES],
}

// A line's bit map and its fields, absent ones as 0, as the definition `fields_at` has them.
#[derive(Clone, Copy)]
pub struct Fields {
    pub map: u8,
    pub kind: u8,
    pub first: u8,
    pub second: u8,
    pub lower: u16,
    pub upper: u16,
}

// The numbers of a line as its maker has them, of any size, and whether it is a rule (02, request 3). The kind is a number: the writer refuses one
// that no kind has.
#[derive(Clone, Copy)]
pub struct LineNumbers {
    pub kind: u16,
    pub first: u16,
    pub second: u16,
    pub lower: u16,
    pub upper: u16,
    pub rule: bool,
}

// The numbers of a policy as its maker has them; 64 lines beside a count, as C lends them.
#[derive(Clone, Copy)]
pub struct PolicyNumbers {
    pub propositions: usize,
    pub components: usize,
    pub minutes: usize,
    // how many lines there are; the others are not looked at
    pub count: usize,
    pub lines: [LineNumbers; MOST_LINES],
}

// The kinds of a line, in the order of their numbers, from 0 (01: the table of kinds; those from And on by 02, request 6).
#[derive(Clone, Copy, Debug, PartialEq, Eq)]
pub enum LineKind {
    True,
    Proposition,
    Not,
    Or,
    Since,
    Until,
    And,
    Implies,
    Once,
    Historically,
    Eventually,
    Always,
}

// A number that no kind has.
#[derive(Clone, Copy, Debug, PartialEq, Eq)]
pub struct UnknownKind(pub u16);

impl TryFrom<u16> for LineKind {
    type Error = UnknownKind;

    ghost try_from_gives = { KindRead };

    fn try_from(number: u16) -> Result<LineKind, UnknownKind> {
        match number {
            0 => Ok(LineKind::True),
            1 => Ok(LineKind::Proposition),
            2 => Ok(LineKind::Not),
            3 => Ok(LineKind::Or),
            4 => Ok(LineKind::Since),
            5 => Ok(LineKind::Until),
            6 => Ok(LineKind::And),
            7 => Ok(LineKind::Implies),
            8 => Ok(LineKind::Once),
            9 => Ok(LineKind::Historically),
            10 => Ok(LineKind::Eventually),
            11 => Ok(LineKind::Always),
            _ => Err(UnknownKind(number)),
        }
    }
}

// What the operands of a kind are.
#[derive(Clone, Copy)]
pub enum Operands {
    Nothing,
    Proposition,
    Line,
    TwoLines,
}

// A row of the table of kinds: the fields that the kind allows besides itself, and what its operands are.
#[derive(Clone, Copy)]
pub struct Kind {
    pub first: bool,
    pub second: bool,
    pub lower: bool,
    pub upper: bool,
    pub operands: Operands,
}

// The lines read: the place after them, how many are rules, and the table, as in `Policy`.
#[derive(Clone, Copy)]
pub struct Scanned {
    pub at: usize,
    pub rules: usize,
    pub subformulas: [Subformula; MOST_LINES],
}
