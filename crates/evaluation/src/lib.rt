// The valuation (01: the work sheet), worked row by row, each into an array of its own, and the verdicts (01: the verdict sheet).
#![tactic(auto)]

ghost use Rattle.std.specs.Prelude.{◌≡◌, ◌++◌, ℕ, ◌+◌, ◌-◌, ◌*◌, ◌≤◌, ◌<◌, length, get_or, take, drop};
ghost use Rattle.kleene.specs.Truth.{Truth};
ghost use Rattle.mtl.specs.Algebra.{three};
ghost use Rattle.mtl.specs.Abbreviations.{abbreviation};
ghost use Rattle.mtl.specs.Reading.{point, meaning};
ghost use Rattle.knowledge.specs.Knowledge.{Knowledge, world};
ghost use Rattle.policy.specs.Proper.{Proper};
ghost use Rattle.valuation.specs.Sheets.{valuation_of, verdicts_of, standing};
ghost use Rattle.valuation.specs.Rows.{Row, run, Rows, Points, Workable};
ghost use Rattle.valuation.specs.Verdicts.{verdict_code, one_stands, VerdictRow};

use kleene::TRUE;
use mtl::Formula;
use operator_rows::{
    Interval, and_row, eventually_row, not_row, once_row, or_row, proposition_row, since_row,
    true_row, until_row,
};
use policy::{Policy, Sizes};
use valuation::MOST_MINUTES;

// ---- the work sheet

// Row i of those that stand one after another: one flat list, as it is lent.
fn run_of(rows: &[u8], i: u8, minutes: usize) -> &[u8]
    requires { i * minutes + minutes ≤ length rows.now }
    ensures { result.now ≡ run minutes rows.now i }
{
    let at = i as usize * minutes;
    let end = at + minutes;
    &rows[at..end]
}

// The bounds of a subformula's interval.
fn interval_of(lower: u16, upper: u16) -> Interval
    ensures { (result.lower ≡ lower) × (result.upper ≡ upper) }
{
    Interval {
        lower: usize::from(lower),
        upper: usize::from(upper),
    }
}

// Works the row of a subformula from the rows of earlier ones.
fn work_row(
    sizes: Sizes,
    formula: Formula,
    points: &[u8],
    facts: &[u32],
    earlier: &[u8],
    ranks: &mut [u8; MOST_MINUTES],
    row: &mut [u8; MOST_MINUTES],
)
    requires { Workable sizes formula points.now facts.now earlier.now }
    ensures { (k : Knowledge) (v : ℕ → ℕ → Truth) → k.facts ≡ facts.now → Points sizes k points.now
        → Rows sizes.minutes earlier.now v
        → Row sizes.minutes (meaning three (world sizes k) v (abbreviation formula)) row.new }
{
    let minutes = sizes.minutes;
    let points = &points[..minutes];
    match formula {
        Formula::True => true_row(minutes, row),
        Formula::Proposition(proposition) => proposition_row(facts, proposition, minutes, row),
        Formula::Not(i) => not_row(run_of(earlier, i, minutes), row),
        Formula::Or(i, j) => or_row(
            run_of(earlier, i, minutes),
            run_of(earlier, j, minutes),
            row,
        ),
        Formula::Since {
            left,
            right,
            lower,
            upper,
        } => since_row(
            points,
            run_of(earlier, left, minutes),
            run_of(earlier, right, minutes),
            interval_of(lower, upper),
            ranks,
            row,
        ),
        Formula::Until {
            left,
            right,
            lower,
            upper,
        } => until_row(
            points,
            run_of(earlier, left, minutes),
            run_of(earlier, right, minutes),
            interval_of(lower, upper),
            ranks,
            row,
        ),
        Formula::And(i, j) => and_row(
            run_of(earlier, i, minutes),
            run_of(earlier, j, minutes),
            false,
            row,
        ),
        Formula::Implies(i, j) => and_row(
            run_of(earlier, i, minutes),
            run_of(earlier, j, minutes),
            true,
            row,
        ),
        Formula::Once {
            operand,
            lower,
            upper,
        } => once_row(
            points,
            run_of(earlier, operand, minutes),
            false,
            interval_of(lower, upper),
            ranks,
            row,
        ),
        Formula::Historically {
            operand,
            lower,
            upper,
        } => once_row(
            points,
            run_of(earlier, operand, minutes),
            true,
            interval_of(lower, upper),
            ranks,
            row,
        ),
        Formula::Eventually {
            operand,
            lower,
            upper,
        } => eventually_row(
            points,
            run_of(earlier, operand, minutes),
            false,
            interval_of(lower, upper),
            ranks,
            row,
        ),
        Formula::Always {
            operand,
            lower,
            upper,
        } => eventually_row(
            points,
            run_of(earlier, operand, minutes),
            true,
            interval_of(lower, upper),
            ranks,
            row,
        ),
    }
}

// Works the rows of all subformulas, one after another, from the time points and the facts. The rest of a longer list stays as it was.
pub fn evaluate(policy: Policy, points: &[u8; MOST_MINUTES], facts: &[u32], valuation: &mut [u8])
    requires { (Proper policy) × (length facts.now ≡ 2 * policy.sizes.minutes)
        × (policy.count * policy.sizes.minutes ≤ length valuation.old) }
    ensures { (k : Knowledge) → k.facts ≡ facts.now → Points policy.sizes k points.now
        → valuation.new ≡ valuation_of policy k ++ drop (policy.count * policy.sizes.minutes) valuation.old }
{
    let sizes = policy.sizes;
    let minutes = sizes.minutes;
    let mut ranks = [0u8; MOST_MINUTES];
    let mut row = [0u8; MOST_MINUTES];
    for i in 0..policy.count {
        let at = i * minutes;
        work_row(
            sizes,
            policy.subformulas[i].formula,
            points,
            facts,
            &valuation[..at],
            &mut ranks,
            &mut row,
        );
        valuation[at..at + minutes].copy_from_slice(&row[..minutes]);
    }
}

// ---- the verdict sheet

// 01: "0 blank, 1 kept, 2 broken"; the other two are the codes of true and false. A number, since the lent verdict sheet holds them as bytes.
const BLANK: u8 = 0;

// The verdict: the value where the minute is known to be a time point, and blank elsewhere.
fn verdict_code(point: u8, value: u8) -> u8
    ensures { result ≡ verdict_code point value }
{
    if point == TRUE { value } else { BLANK }
}

// How many verdicts one cell holds: a blank is none.
fn stands(verdict: u8) -> usize
    ensures { result ≡ one_stands verdict }
{
    if verdict == BLANK { 0 } else { 1 }
}

// Writes the verdicts of one rule, whose row is given, and answers how many stand.
fn verdict_row(points: &[u8], row: &[u8], verdicts: &mut [u8]) -> usize
    requires { (length row.now ≡ length verdicts.old) × (length verdicts.old ≤ length points.now) }
    ensures { VerdictRow points.now row.now verdicts.old verdicts.new result }
{
    let mut total: usize = 0;
    for t in 0..verdicts.len() {
        let verdict = verdict_code(points[t], row[t]);
        verdicts[t] = verdict;
        total += stands(verdict);
    }
    total
}

// Writes the verdicts of all rules, one after another, and answers how many stand. The rest of a longer list stays as it was. `at` is counted by
// hand: it moves on at a rule only.
pub fn conclude(
    policy: Policy,
    points: &[u8; MOST_MINUTES],
    valuation: &[u8],
    verdicts: &mut [u8],
) -> usize
    requires { (Proper policy) × (policy.count * policy.sizes.minutes ≤ length valuation.now)
        × (policy.rules * policy.sizes.minutes ≤ length verdicts.old) }
    ensures { (k : Knowledge) → Points policy.sizes k points.now
        → take (policy.count * policy.sizes.minutes) valuation.now ≡ valuation_of policy k
        → (verdicts.new ≡ verdicts_of policy k ++ drop (policy.rules * policy.sizes.minutes) verdicts.old)
        × (result ≡ standing (verdicts_of policy k)) }
{
    let minutes = policy.sizes.minutes;
    let mut total: usize = 0;
    let mut at: usize = 0;
    for i in 0..policy.count {
        if policy.subformulas[i].rule {
            let from = i * minutes;
            let end = at + minutes;
            total += verdict_row(
                points,
                &valuation[from..from + minutes],
                &mut verdicts[at..end],
            );
            at = end;
        }
    }
    total
}
