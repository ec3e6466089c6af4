// A row: the truth of one subformula at every minute, worked from the rows of those that it names, a constant time a minute whatever the interval.
// What is marked `inline(never)` is compiled apart, so that a change of one row moves no other row's loop (docs/PERFORMANCE.md).
#![tactic(auto)]

ghost use Rattle.std.specs.Prelude.{◌≡◌, ℕ, ◌+◌, ◌-◌, ◌*◌, ◌≤◌, ◌<◌, length, get_or, leb};
ghost use Rattle.kleene.specs.Truth.{Truth, code_of, unknown, true3, not3, or3, and3};
ghost use Rattle.kleene.specs.Rank.{rank_of};
ghost use Rattle.kleene.specs.Tests.{literal};
ghost use Rattle.mtl.specs.Algebra.{three};
ghost use Rattle.mtl.specs.Reading.{World, point, since, until};
ghost use Rattle.knowledge.specs.Knowledge.{Knowledge, fact};
ghost use Rattle.valuation.specs.Rows.{most_minutes, most_bound, Shows, Row, Unbroken};
ghost use Rattle.valuation.specs.Indexes.{ranked, begun, broken, Ranks, moved, far, Lasts, Firsts};

use kleene::{FALSE, MAY, SURE, TRUE, UNKNOWN};
use valuation::{MOST_MINUTES, Nearest};

// How far from a minute an interval starts and ends.
#[derive(Clone, Copy)]
pub struct Interval {
    pub lower: usize,
    pub upper: usize,
}

// The nearest minutes once a minute of this rank is passed, whose index is here.
fn note(nearest: Nearest, here: usize, rank: u8) -> Nearest
    ensures { (result.sure ≡ moved 2 rank here nearest.sure) × (result.may ≡ moved 1 rank here nearest.may) }
{
    if SURE <= rank {
        return Nearest {
            sure: here,
            may: here,
        };
    }
    if MAY <= rank {
        return Nearest {
            may: here,
            ..nearest
        };
    }
    nearest
}

// The code of a value that is surely true, or may be true, or where it is negated of its not. `negated` is a flag here and below, as the definition
// `literal` has it.
fn signed_code(sure: bool, may: bool, negated: bool) -> u8
    ensures { (x : Truth) → sure ≡ leb 2 (rank_of x) → may ≡ leb 1 (rank_of x) → result ≡ code_of (literal negated x) }
{
    let yes = kleene::known(!negated);
    let no = kleene::known(negated);
    if sure {
        return yes;
    }
    if may {
        return UNKNOWN;
    }
    no
}

// ---- where a since or until may begin and break off, for all minutes at once before they are passed one by one

// By place, here and below: a cell is made of several rows' cells at one place, so that an iterator over one of them would be no plainer.

// Writes the rank of `e and operand` at each minute, where a since or until begins, or, negated, of `e and not operand`, where it breaks off.
#[inline(never)]
fn rank_row(points: &[u8], operand: &[u8], negated: bool, ranks: &mut [u8; MOST_MINUTES])
    requires { (length points.now ≤ most_minutes) × (length operand.now ≡ length points.now) }
    ensures { (e f : ℕ → Truth) → Shows points.now e → Shows operand.now f
        → Ranks (length points.now) (ranked negated e f) ranks.new }
{
    for t in 0..points.len() {
        ranks[t] = kleene::rank_of_and(points[t], operand[t], negated);
    }
}

// ---- since

// Passes the begin that comes into the interval at minute t, if there is one.
fn since_begin(ranks: &[u8; MOST_MINUTES], lower: usize, t: usize, begins: Nearest) -> Nearest
    requires { t < most_minutes }
    ensures { (m : ℕ) (f : ℕ → ℕ) → t < m → Ranks m f ranks.now → Lasts f (t - lower) begins
        → Lasts f (t + 1 - lower) result }
{
    if t < lower {
        return begins;
    }
    let j = t - lower;
    note(begins, j + 1, ranks[j])
}

// Where the interval starts at minute t + 1, from where it starts at minute t: not before minute 0.
fn next_start(start: usize, t: usize, upper: usize) -> usize
    requires { (start ≡ t - upper) × (t ≤ most_minutes) }
    ensures { result ≡ t + 1 - upper }
{
    if t < upper { start } else { start + 1 }
}

// The value at a minute that is passed, whose interval starts here: it reaches a threshold where the last begin that does is in the interval,
// with no break after it.
fn since_value(start: usize, begins: Nearest, breaks: Nearest) -> u8
    ensures { (w : World Truth) (α β : ℕ → Truth) (lower upper t : ℕ) → start ≡ t - upper
        → Lasts (begun (point three w) β) (t + 1 - lower) begins → Lasts (broken (point three w) α) (t + 1) breaks
        → result ≡ code_of (since three w α β lower upper t) }
{
    let sure = !(begins.sure <= start) & !(begins.sure < breaks.may);
    let may = !(begins.may <= start) & !(begins.may < breaks.sure);
    signed_code(sure, may, false)
}

// Since and until are no instances of one function: one goes up and keeps the last begins, the other goes down and keeps the first. Points, ranks and
// row come one by one: most of the other rows take one or two of them.

// The row of `left since right`: going up, the last begins up to t - lower and the last breaks up to t decide the value at t. A cell of the
// row has its minute's break before it has the value.
#[inline(never)]
pub fn since_row(
    points: &[u8],
    left: &[u8],
    right: &[u8],
    interval: Interval,
    ranks: &mut [u8; MOST_MINUTES],
    row: &mut [u8; MOST_MINUTES],
)
    requires { (length points.now ≤ most_minutes)
        × (length left.now ≡ length points.now) × (length right.now ≡ length points.now) }
    ensures { (length ranks.new ≡ most_minutes) × (length row.new ≡ most_minutes)
        × ((w : World Truth) (α β : ℕ → Truth) → Shows points.now (point three w)
        → Shows left.now α → Shows right.now β
        → Row (length points.now) (since three w α β interval.lower interval.upper) row.new) }
{
    rank_row(points, right, false, ranks);
    rank_row(points, left, true, row);
    let mut begins = Nearest { sure: 0, may: 0 };
    let mut breaks = Nearest { sure: 0, may: 0 };
    let mut start: usize = 0;
    for t in 0..points.len() {
        begins = since_begin(ranks, interval.lower, t, begins);
        breaks = note(breaks, t + 1, row[t]);
        row[t] = since_value(start, begins, breaks);
        start = next_start(start, t, interval.upper);
    }
}

// ---- until

// The rank of the begin at minute j, which is unknown from the end on.
fn until_begin(ranks: &[u8; MOST_MINUTES], minutes: usize, j: usize) -> u8
    requires { minutes ≤ most_minutes }
    ensures { (f : ℕ → ℕ) → Ranks minutes f ranks.now → (minutes ≤ j → f j ≡ 1) → result ≡ f j }
{
    if j < minutes { ranks[j] } else { MAY }
}

// The value at a minute that is passed, whose interval ends here: it reaches a threshold where the first begin that does is in the interval,
// with no break before it.
fn until_value(end: usize, begins: Nearest, breaks: Nearest) -> u8
    ensures { (w : World Truth) (α β : ℕ → Truth) (lower upper t : ℕ) → end ≡ t + upper → end < far
        → Firsts (begun (point three w) β) (t + lower) begins → Firsts (broken (point three w) α) t breaks
        → result ≡ code_of (until three w α β lower upper t) }
{
    let sure = !(end < begins.sure) & !(breaks.may < begins.sure);
    let may = !(end < begins.may) & !(breaks.sure < begins.may);
    signed_code(sure, may, false)
}

// No minute of the window is this far.
const FAR: usize = 4096;

// The row of `left until right`: going down, the first begins from t + lower on and the first breaks from t on decide the value at t. From
// the end on everything is unknown, so that there a begin and a break may be, and none is sure.
#[inline(never)]
pub fn until_row(
    points: &[u8],
    left: &[u8],
    right: &[u8],
    interval: Interval,
    ranks: &mut [u8; MOST_MINUTES],
    row: &mut [u8; MOST_MINUTES],
)
    requires { (length points.now ≤ most_minutes)
        × (length left.now ≡ length points.now) × (length right.now ≡ length points.now)
        × (interval.lower ≤ most_bound) × (interval.upper ≤ most_bound) }
    ensures { (length ranks.new ≡ most_minutes) × (length row.new ≡ most_minutes)
        × ((w : World Truth) (α β : ℕ → Truth) → Shows points.now (point three w)
        → Shows left.now α → Shows right.now β
        → Row (length points.now) (until three w α β interval.lower interval.upper) row.new) }
{
    rank_row(points, right, false, ranks);
    rank_row(points, left, true, row);
    let minutes = points.len();
    let mut begins = Nearest {
        sure: FAR,
        may: minutes + interval.lower,
    };
    let mut breaks = Nearest {
        sure: FAR,
        may: minutes,
    };
    for t in (0..minutes).rev() {
        let j = t + interval.lower;
        begins = note(begins, j, until_begin(ranks, minutes, j));
        breaks = note(breaks, t, row[t]);
        row[t] = until_value(t + interval.upper, begins, breaks);
    }
}

// ---- once, historically, eventually and always (02, request 6)

// No instances of since and until: their breaks, with two indexes and a row of ranks, would stand idle as arguments in each of these.

// The value of a once at a minute that is passed, whose interval starts here, or where it is negated of its not: a since that nothing breaks off.
fn once_value(start: usize, begins: Nearest, negated: bool) -> u8
    ensures { (w : World Truth) (τ β : ℕ → Truth) (lower upper t : ℕ) → start ≡ t - upper
        → Lasts (begun (point three w) β) (t + 1 - lower) begins → ((s : ℕ) → s < t + 1 → τ s ≡ true3)
        → result ≡ code_of (literal negated (since three w τ β lower upper t)) }
{
    let sure = !(begins.sure <= start);
    let may = !(begins.may <= start);
    signed_code(sure, may, negated)
}

// The row of `once operand`, or negated of `historically operand`, which is not once not: a since with nothing that breaks off.
#[inline(never)]
pub fn once_row(
    points: &[u8],
    operand: &[u8],
    negated: bool,
    interval: Interval,
    ranks: &mut [u8; MOST_MINUTES],
    row: &mut [u8; MOST_MINUTES],
)
    requires { (length points.now ≤ most_minutes) × (length operand.now ≡ length points.now) }
    ensures { (length ranks.new ≡ most_minutes) × (length row.new ≡ most_minutes)
        × ((w : World Truth) (α τ β : ℕ → Truth) → Shows points.now (point three w) → Shows operand.now α
        → Unbroken (length points.now) negated α τ β
        → Row (length points.now) (λ t. literal negated (since three w τ β interval.lower interval.upper t)) row.new) }
{
    rank_row(points, operand, negated, ranks);
    let mut begins = Nearest { sure: 0, may: 0 };
    let mut start: usize = 0;
    for t in 0..points.len() {
        begins = since_begin(ranks, interval.lower, t, begins);
        row[t] = once_value(start, begins, negated);
        start = next_start(start, t, interval.upper);
    }
}

// The value of an eventually at a minute that is passed, whose interval ends here, or where it is negated of its not: an until that nothing breaks off.
// From m on, the end of the minutes, everything is unknown: whatever breaks off there begins as little there.
fn eventually_value(end: usize, begins: Nearest, negated: bool) -> u8
    ensures { (w : World Truth) (τ β : ℕ → Truth) (lower upper t m : ℕ) → end ≡ t + upper → end < far
        → Firsts (begun (point three w) β) (t + lower) begins → ((s : ℕ) → s < m → τ s ≡ true3)
        → ((s : ℕ) → m ≤ s → point three w s ≡ unknown) → result ≡ code_of (literal negated (until three w τ β lower upper t)) }
{
    let sure = !(end < begins.sure);
    let may = !(end < begins.may);
    signed_code(sure, may, negated)
}

// The row of `eventually operand`, or negated of `always operand`, which is not eventually not: an until with nothing that breaks off.
#[inline(never)]
pub fn eventually_row(
    points: &[u8],
    operand: &[u8],
    negated: bool,
    interval: Interval,
    ranks: &mut [u8; MOST_MINUTES],
    row: &mut [u8; MOST_MINUTES],
)
    requires { (length points.now ≤ most_minutes) × (length operand.now ≡ length points.now)
        × (interval.lower ≤ most_bound) × (interval.upper ≤ most_bound) }
    ensures { (length ranks.new ≡ most_minutes) × (length row.new ≡ most_minutes)
        × ((w : World Truth) (α τ β : ℕ → Truth) → Shows points.now (point three w) → Shows operand.now α
        → Unbroken (length points.now) negated α τ β
        → Row (length points.now) (λ t. literal negated (until three w τ β interval.lower interval.upper t)) row.new) }
{
    rank_row(points, operand, negated, ranks);
    let minutes = points.len();
    let past = minutes + interval.lower;
    let mut begins = Nearest {
        sure: FAR,
        may: past,
    };
    for t in (0..minutes).rev() {
        let j = t + interval.lower;
        begins = note(begins, j, until_begin(ranks, minutes, j));
        row[t] = eventually_value(t + interval.upper, begins, negated);
    }
}

// ---- the other rows

// The row of true.
pub fn true_row(minutes: usize, row: &mut [u8; MOST_MINUTES])
    requires { minutes ≤ most_minutes }
    ensures { (length row.new ≡ most_minutes) × Row minutes (λ t. true3) row.new }
{
    row[..minutes].fill(TRUE);
}

// "A mark is its fact, else unknown": from the minute's two words, which propositions are known and their values.
fn fact_code(known: u32, values: u32, proposition: u8) -> u8
    requires { proposition < 32 }
    ensures { (k : Knowledge) (t : ℕ) → known ≡ get_or k.facts (2 * t) 0 → values ≡ get_or k.facts (2 * t + 1) 0
        → result ≡ code_of (fact k proposition t) }
{
    let place = proposition as u32;
    if (known >> place) % 2 == 0 {
        return UNKNOWN;
    }
    if (values >> place) % 2 == 0 {
        return FALSE;
    }
    TRUE
}

// The row of a proposition.
pub fn proposition_row(facts: &[u32], proposition: u8, minutes: usize, row: &mut [u8; MOST_MINUTES])
    requires { (minutes ≤ most_minutes) × (length facts.now ≡ 2 * minutes) × (proposition < 32) }
    ensures { (length row.new ≡ most_minutes)
        × ((k : Knowledge) → k.facts ≡ facts.now → Row minutes (fact k proposition) row.new) }
{
    for t in 0..minutes {
        let at = 2 * t;
        row[t] = fact_code(facts[at], facts[at + 1], proposition);
    }
}

// The row of `not operand`.
pub fn not_row(operand: &[u8], row: &mut [u8; MOST_MINUTES])
    requires { length operand.now ≤ most_minutes }
    ensures { (length row.new ≡ most_minutes)
        × ((f : ℕ → Truth) → Shows operand.now f
        → Row (length operand.now) (λ t. not3 (f t)) row.new) }
{
    for t in 0..operand.len() {
        row[t] = kleene::not(operand[t]);
    }
}

// The row of `left or right`.
pub fn or_row(left: &[u8], right: &[u8], row: &mut [u8; MOST_MINUTES])
    requires { (length left.now ≤ most_minutes) × (length right.now ≡ length left.now) }
    ensures { (length row.new ≡ most_minutes)
        × ((f g : ℕ → Truth) → Shows left.now f → Shows right.now g
        → Row (length left.now) (λ t. or3 (f t) (g t)) row.new) }
{
    let table = kleene::or_table();
    for t in 0..left.len() {
        let i = kleene::index(left[t]);
        let j = kleene::index(right[t]);
        row[t] = table[i][j];
    }
}

// The row of `left and right`, or negated of `left implies right`, which is not (left and not right).
#[inline(never)]
pub fn and_row(left: &[u8], right: &[u8], negated: bool, row: &mut [u8; MOST_MINUTES])
    requires { (length left.now ≤ most_minutes) × (length right.now ≡ length left.now) }
    ensures { (length row.new ≡ most_minutes)
        × ((f g : ℕ → Truth) → Shows left.now f → Shows right.now g
        → Row (length left.now) (λ t. literal negated (and3 (f t) (literal negated (g t)))) row.new) }
{
    for t in 0..left.len() {
        let rank = kleene::rank_of_and(left[t], right[t], negated);
        row[t] = signed_code(SURE <= rank, MAY <= rank, negated);
    }
}
