// Truth values, and the codes in which a row has them: 0 unknown, 1 true, 2 false.
use std::ops::Not;

// From the lowest to the highest: the lesser of two is their `and`, the greater their `or`.
#[derive(Clone, Copy, PartialEq, Eq, PartialOrd, Ord)]
pub enum Truth {
    False,
    Unknown,
    True,
}

impl From<u8> for Truth {
    fn from(code: u8) -> Truth {
        match code {
            1 => Truth::True,
            2 => Truth::False,
            _ => Truth::Unknown,
        }
    }
}

impl From<Truth> for u8 {
    fn from(truth: Truth) -> u8 {
        match truth {
            Truth::Unknown => 0,
            Truth::True => 1,
            Truth::False => 2,
        }
    }
}

impl Not for Truth {
    type Output = Truth;

    fn not(self) -> Truth {
        match self {
            Truth::False => Truth::True,
            Truth::Unknown => Truth::Unknown,
            Truth::True => Truth::False,
        }
    }
}
