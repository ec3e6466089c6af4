// Metric temporal logic (source document 001, section 2). Here the type of a subformula; its meaning is in specs/.
#![tactic(auto)]

// One subformula (01: the meaning of a line). An operand is the number of an earlier subformula; an interval's bounds are minutes.
#[derive(Clone, Copy)]
pub enum Formula {
    True,
    // 01: mark
    Proposition(u8),
    Not(u8),
    Or(u8, u8),
    // left since right
    Since {
        left: u8,
        right: u8,
        lower: u16,
        upper: u16,
    },
    // left until right
    Until {
        left: u8,
        right: u8,
        lower: u16,
        upper: u16,
    },
    // (02, request 6) both
    And(u8, u8),
    // the left one implies the right one
    Implies(u8, u8),
    // at some time point of the interval, back from the minute
    Once {
        operand: u8,
        lower: u16,
        upper: u16,
    },
    // at every one
    Historically {
        operand: u8,
        lower: u16,
        upper: u16,
    },
    // at some time point of the interval, ahead of the minute
    Eventually {
        operand: u8,
        lower: u16,
        upper: u16,
    },
    // at every one
    Always {
        operand: u8,
        lower: u16,
        upper: u16,
    },
}
