// Kleene's three truth values as codes: 0 unknown, 1 true, 2 false. A code above 2 reads as unknown.
#![tactic(auto)]

ghost use Rattle.std.specs.Prelude.{◌≡◌, ℕ, ◌<◌, [], get_or};
ghost use Rattle.kleene.specs.Truth.{code_of, value_of, not3, or3, and3};
ghost use Rattle.kleene.specs.Rank.{rank_of};
ghost use Rattle.kleene.specs.Tests.{known_code, literal};

// The codes: numbers and no enum, since the lent work sheet holds them as bytes, and the table of or is indexed by two of them.
pub const UNKNOWN: u8 = 0;

pub const TRUE: u8 = 1;

pub const FALSE: u8 = 2;

// Ranks, a value's places in the order false < unknown < true: it surely is not, it may be, it surely is. Numbers and no enum: a row's own bytes
// hold them before its codes, and a rank is compared with a threshold.
pub const SURELY_NOT: u8 = 0;

pub const MAY: u8 = 1;

pub const SURE: u8 = 2;

// What the two codes' or is: the row is the first code, the column the second.
const OR: [[u8; 3]; 3] = [
    [UNKNOWN, TRUE, UNKNOWN],
    [TRUE, TRUE, TRUE],
    [UNKNOWN, TRUE, FALSE],
];

// What a code's not is.
const NOT: [u8; 3] = [UNKNOWN, FALSE, TRUE];

// A code as an index of the tables.
pub fn index(x: u8) -> usize
    ensures { (result < 3) × (value_of result ≡ value_of x) }
{
    if x < 3 { x as usize } else { 0 }
}

// The code of `not x`.
pub fn not(x: u8) -> u8
    ensures { result ≡ code_of (not3 (value_of x)) }
{
    NOT[index(x)]
}

// The table of or itself, for a loop that asks it often.
pub fn or_table() -> [[u8; 3]; 3]
    ensures { (i j : ℕ) → i < 3 → j < 3 → get_or (get_or result i []) j 0 ≡ code_of (or3 (value_of i) (value_of j)) }
{
    OR
}

// The code of `x or y`.
pub fn or(x: u8, y: u8) -> u8
    ensures { result ≡ code_of (or3 (value_of x) (value_of y)) }
{
    OR[index(x)][index(y)]
}

// The code of a value that is known.
pub fn known(value: bool) -> u8
    ensures { result ≡ known_code value }
{
    if value { TRUE } else { FALSE }
}

// The rank of `x and y`, or where y is negated of `x and not y`. By tests and no table, for inner loops: there a table is built anew each time
// round.
pub fn rank_of_and(x: u8, y: u8, negated: bool) -> u8
    ensures { result ≡ rank_of (and3 (value_of x) (literal negated (value_of y))) }
{
    let no = known(negated);
    let yes = known(!negated);
    if (x == FALSE) | (y == no) {
        return SURELY_NOT;
    }
    if (x == TRUE) & (y == yes) {
        return SURE;
    }
    MAY
}
