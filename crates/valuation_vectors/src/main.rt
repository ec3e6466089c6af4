// Rows of the kinds of request 6 (02) that were worked out by hand. Then rows of random policies over random knowledge, worked by `valuation` in one
// pass and, beside it, straight from the definition (01, "The reading", and 02's abbreviations), with windows of 0, 1, M - 1 and 1,023
// minutes among the bounds. It prints for each batch how many cells differ.
#![tactic(auto)]

mod definition;
mod line;
mod random;
mod truth;
mod worked;

ghost use Rattle.std.specs.Prelude.{◌≡◌, ◌*◌, ◌≤◌, ◌<◌, length, IfOk};

use hex_lines::{InPieces, joined};
use line::{Line, Rows};
use policy::LineKind;
use random::Random;
use std::io::Result;

// A line's kind, first, second, lower and upper, and its row's codes.
fn show_row(rt: &impl Print, line: Line, row: &[u8]) -> Result<()> {
    let kind = line.kind as u8;
    println!(rt;
        " {kind} {} {} {} {}: {}",
        line.first,
        line.second,
        line.lower,
        line.upper,
        joined(row)
    )
}

// ---- rows worked out by hand, of the kinds of request 6

// A line of a kind, of the first two lines.
fn line_of(kind: LineKind, lower: usize, upper: usize) -> Line
    requires { (lower ≤ 1023) × (upper ≤ 1023) }
{
    Line {
        kind,
        first: 0,
        second: 0,
        lower,
        upper,
    }
}

// Prints the row of a line of its operands' rows.
fn show_worked(rt: &impl Print, line: Line, rows: Rows<'_>) -> Result<()> {
    let row = worked::row(line, rows);
    println!(rt; ": {}", joined(&row[..rows.points.len()]))
}

// Every pair of values, of and and of implies; minutes that are time points or not don't count.
fn show_pairs(rt: &impl Print) -> Result<()> {
    let first = [1u8, 1, 1, 2, 2, 2, 0, 0, 0];
    let second = [1u8, 2, 0, 1, 2, 0, 1, 2, 0];
    let rows = Rows {
        points: &first,
        facts: &[0u32; 18],
        first: &first,
        second: &second,
    };
    print!(rt; "and")?;
    show_worked(rt, line_of(LineKind::And, 0, 0), rows)?;
    print!(rt; "implies")?;
    show_worked(rt, line_of(LineKind::Implies, 0, 0), rows)
}

// The minute itself, two minutes, one that is not the minute itself, and all from the third on.
fn show_windows(rt: &impl Print, name: &str, kind: LineKind, rows: Rows<'_>) -> Result<()> {
    for (lower, upper) in [(0usize, 0usize), (1, 2), (2, 2), (3, 1023)] {
        print!(rt; "{name} from {lower} to {upper}")?;
        show_worked(rt, line_of(kind, lower, upper), rows)?;
    }
    Ok(())
}

// Ten minutes: 2 and 7 are quiet, 3 and 5 open; the operand is true and false in both, and unknown at minute 6, a time point.
fn show_ten_minutes(rt: &impl Print) -> Result<()> {
    let operand = [1u8, 2, 1, 1, 1, 2, 0, 2, 1, 2];
    let rows = Rows {
        points: &[1u8, 1, 2, 0, 1, 0, 1, 2, 1, 1],
        facts: &[0u32; 20],
        first: &operand,
        second: &operand,
    };
    show_windows(rt, "once", LineKind::Once, rows)?;
    show_windows(rt, "historically", LineKind::Historically, rows)?;
    show_windows(rt, "eventually", LineKind::Eventually, rows)?;
    show_windows(rt, "always", LineKind::Always, rows)
}

// ---- batches

// How many minutes a batch has.
fn minutes_of(batch: usize) -> usize
    ensures { (0 < result) × (result ≤ 1024) }
{
    match batch % 10 {
        8 => 1023,
        9 => 1024,
        n => n * 7 + 1,
    }
}

// In how many cells two rows differ.
fn differences(x: &[u8], y: &[u8]) -> usize
    ensures { result ≤ length x.now }
{
    x.iter().zip(y).filter(|(a, b)| **a != **b).count()
}

// The lines of one batch, each worked both ways. The last one is printed where it is short.
fn lines(rt: &impl Print, points: &[u8], facts: &[u32], seed: u64) -> Result<usize>
    requires { (0 < length points.now) × (length points.now ≤ 1024) × (length facts.now ≡ 2 * length points.now) }
    ensures { IfOk result (λ n. n ≤ 20480) }
{
    let m = points.len();
    let mut sheet = [[0u8; 1024]; 20];
    let mut other = [[0u8; 1024]; 20];
    let mut x = Random(seed);
    let mut n = 0;
    for k in 0..20 {
        x = x.next();
        let line = Line::random(x, k, m);
        let row = worked::row(line, rows_of(line, points, facts, &sheet));
        let same = definition::row(line, rows_of(line, points, facts, &other));
        n += differences(&row[..m], &same[..m]);
        sheet[k] = row;
        other[k] = same;
    }
    if m < 40 {
        show_row(rt, Line::random(x, 19, m), &sheet[19][..m])?;
    }
    Ok(n)
}

// What a line is worked from, with its operands' rows in a sheet.
fn rows_of<'a>(
    line: Line,
    points: &'a [u8],
    facts: &'a [u32],
    sheet: &'a [[u8; 1024]; 20],
) -> Rows<'a>
    requires { (length points.now ≤ 1024) × (length facts.now ≡ 2 * length points.now) }
{
    let m = points.len();
    Rows {
        points,
        facts,
        first: &sheet[line.first][..m],
        second: &sheet[line.second][..m],
    }
}

fn batch(rt: &impl Print, number: usize) -> Result<usize>
    requires { number < 1000 }
    ensures { IfOk result (λ n. n ≤ 20480) }
{
    let m = minutes_of(number);
    let seed = number as u64 * 7919 + 1;
    let points = random::points(seed);
    let facts = random::facts(seed + 1);
    let n = lines(rt, &points[..m], &facts[..2 * m], seed + 2)?;
    println!(rt; "batch {number} minutes {m} rows 20 differences {n}")?;
    Ok(n)
}

fn show_batches(rt: &impl Print) -> Result<()> {
    let mut n = 0;
    for number in 0..60 {
        n += batch(rt, number)?;
    }
    println!(rt; "rows {} differences {n}", 60 * 20)
}

fn show_all(rt: &impl Print) -> Result<()> {
    show_pairs(rt)?;
    show_ten_minutes(rt)?;
    show_batches(rt)
}

fn main(rt: HostRuntime) {
    let _ = show_all(&InPieces(&rt));
}
