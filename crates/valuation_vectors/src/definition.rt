// Rows straight from the definition (01, "The reading", and 02's abbreviations).
ghost use Rattle.std.specs.Prelude.{◌≡◌, ◌<◌, ◌≤◌, length};

use crate::line::{Line, Rows};
use crate::truth::Truth;
use policy::LineKind;

// A row at a minute: unknown from the end on.
fn value(row: &[u8], t: usize) -> Truth {
    row.get(t).map_or(Truth::Unknown, |code| Truth::from(*code))
}

// A mark is its fact, else unknown.
fn fact(facts: &[u32], place: usize, t: usize) -> Truth
    requires { place < 32 }
{
    match facts.as_chunks::<2>().0.get(t) {
        Some([known, values]) if (*known >> place) % 2 == 1 => {
            if (*values >> place) % 2 == 1 {
                Truth::True
            } else {
                Truth::False
            }
        }
        _ => Truth::Unknown,
    }
}

// The or, over the minutes j that are the line's lower to upper away, of: e(j) and β(j) and, for all s that are less far away than j,
// (not e(s) or α(s)). The minutes that are away are given by how far; there may be none so far.
fn over<M: Fn(usize) -> Option<usize>, A: Fn(usize) -> Truth, B: Fn(usize) -> Truth>(
    line: Line,
    points: &[u8],
    away: M,
    left: A,
    right: B,
) -> Truth
    requires away { M.IsAlwaysCallable away }
    requires left { A.IsAlwaysCallable left }
    requires right { B.IsAlwaysCallable right }
{
    let mut any = Truth::False;
    let mut all = Truth::True;
    for far in 0..=line.upper {
        let Some(j) = away(far) else { break };
        let e = value(points, j);
        if line.lower <= far {
            any = any.max(e.min(right(j)).min(all));
        }
        all = all.min((!e).max(left(j)));
    }
    any
}

// α since β: over minutes back.
fn since<A: Fn(usize) -> Truth, B: Fn(usize) -> Truth>(
    line: Line,
    points: &[u8],
    t: usize,
    left: A,
    right: B,
) -> Truth
    requires left { A.IsAlwaysCallable left }
    requires right { B.IsAlwaysCallable right }
{
    over(line, points, |far| t.checked_sub(far), left, right)
}

// α until β: over minutes on.
fn until<A: Fn(usize) -> Truth, B: Fn(usize) -> Truth>(
    line: Line,
    points: &[u8],
    t: usize,
    left: A,
    right: B,
) -> Truth
    requires left { A.IsAlwaysCallable left }
    requires right { B.IsAlwaysCallable right }
{
    over(line, points, |far| t.checked_add(far), left, right)
}

// What a line is at a minute.
fn at(line: Line, rows: Rows<'_>, t: usize) -> Truth {
    let points = rows.points;
    let truth = |_| Truth::True;
    let first = |s| value(rows.first, s);
    let second = |s| value(rows.second, s);
    let not_first = |s| !value(rows.first, s);
    match line.kind {
        LineKind::True => Truth::True,
        LineKind::Proposition => fact(rows.facts, line.first, t),
        LineKind::Not => !first(t),
        LineKind::Or => first(t).max(second(t)),
        // not (not first or not second)
        LineKind::And => !(!first(t)).max(!second(t)),
        LineKind::Implies => (!first(t)).max(second(t)),
        LineKind::Since => since(line, points, t, first, second),
        LineKind::Until => until(line, points, t, first, second),
        LineKind::Once => since(line, points, t, truth, first),
        LineKind::Historically => !since(line, points, t, truth, not_first),
        LineKind::Eventually => until(line, points, t, truth, first),
        LineKind::Always => !until(line, points, t, truth, not_first),
    }
}

// A line's row.
pub fn row(line: Line, rows: Rows<'_>) -> [u8; 1024]
    ensures { length result ≡ 1024 }
{
    let mut row = [0u8; 1024];
    for (t, cell) in row[..rows.points.len()].iter_mut().enumerate() {
        *cell = u8::from(at(line, rows, t));
    }
    row
}
