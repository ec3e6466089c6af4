// A rule typed as text (02, request 7): what its reader finds at a place, unless it refuses the text. `rule_lexer` and `rule_parser` read it.
#![tactic(auto)]

use policy::LineKind;

// The two ends of an interval, and the place behind its "]".
#[derive(Clone, Copy)]
pub struct Bounds {
    pub at: usize,
    pub lower: usize,
    pub upper: usize,
}

// What joins the two terms of a group, the kind of its line and the interval, and the place where the second one is due.
#[derive(Clone, Copy)]
pub struct Joint {
    pub at: usize,
    pub kind: LineKind,
    pub lower: u16,
    pub upper: u16,
}

// How many "not" stand before a term, and where the term is due.
#[derive(Clone, Copy)]
pub struct Run {
    pub at: usize,
    pub count: usize,
}

// The place behind a term, and how many lines there are then; its own is the last.
#[derive(Clone, Copy)]
pub struct Cursor {
    pub at: usize,
    pub lines: usize,
}
