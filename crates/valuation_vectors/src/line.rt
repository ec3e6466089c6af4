// A line of a policy, and the rows that it is worked from.
ghost use Rattle.std.specs.Prelude.{◌≡◌, ◌*◌, ◌<◌, ◌≤◌, length};

use crate::random::Random;
use policy::LineKind;

// Of any kind, more often a since or an until.
const KINDS: [LineKind; 16] = [
    LineKind::True,
    LineKind::Proposition,
    LineKind::Not,
    LineKind::Or,
    LineKind::Since,
    LineKind::Until,
    LineKind::And,
    LineKind::Implies,
    LineKind::Once,
    LineKind::Historically,
    LineKind::Eventually,
    LineKind::Always,
    LineKind::Since,
    LineKind::Until,
    LineKind::Since,
    LineKind::Until,
];

// A line of the card. A proposition has its mark in first.
#[derive(Clone, Copy)]
pub struct Line {
    pub kind: LineKind,
    pub first: usize,
    pub second: usize,
    pub lower: usize,
    pub upper: usize,
    ghost operands: { (first < 20) × (second < 20) },
    ghost interval: { (lower ≤ 1023) × (upper ≤ 1023) },
}

// What a line is worked from: which minutes are time points, the facts of each, and the rows of the operands.
#[derive(Clone, Copy)]
pub struct Rows<'a> {
    pub points: &'a [u8],
    pub facts: &'a [u32],
    pub first: &'a [u8],
    pub second: &'a [u8],
    ghost minutes: { length points.now ≤ 1024 },
    ghost alike: { (length facts.now ≡ 2 * length points.now)
        × (length first.now ≡ length points.now)
        × (length second.now ≡ length points.now) },
}

// A bound of an interval.
fn bound(x: Random, minutes: usize) -> usize
    requires { (0 < minutes) × (minutes ≤ 1024) }
    ensures { result ≤ 1023 }
{
    match x.below(6) {
        0 => 0,
        1 => 1,
        2 => minutes - 1,
        3 => 1023,
        _ => x.next().below(minutes),
    }
}

// The number of a line before line k, or of a mark.
fn operand(x: Random, k: usize) -> usize
    requires { k < 20 }
    ensures { result < 20 }
{
    if k == 0 { 0 } else { x.below(k) }
}

impl Line {
    // Line k of a policy of so many minutes. The first four are propositions.
    pub fn random(x: Random, k: usize, minutes: usize) -> Line
        requires { (k < 20) × (0 < minutes) × (minutes ≤ 1024) }
    {
        let a = x.next();
        let b = a.next();
        let c = b.next();
        let d = c.next();
        let from = bound(c, minutes);
        let to = bound(d, minutes);
        Line {
            kind: if k < 4 {
                LineKind::Proposition
            } else {
                KINDS[x.below(16)]
            },
            first: operand(a, k),
            second: operand(b, k),
            lower: from.min(to),
            upper: from.max(to),
        }
    }
}
