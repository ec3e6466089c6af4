// The valuation (01: the work sheet) and the verdicts (01: the verdict sheet). `operator_rows` and `evaluation` work them.
#![tactic(auto)]

pub use policy::MOST_MINUTES;

// The nearest minute at which a truth is surely so, and at which it may be so.
#[derive(Clone, Copy)]
pub struct Nearest {
    pub sure: usize,
    pub may: usize,
}
