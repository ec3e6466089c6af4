// Rows as the library works them, each in one pass.
ghost use Rattle.std.specs.Prelude.{◌≡◌, ◌≤◌, length};

use crate::line::{Line, Rows};
use operator_rows::Interval;
use policy::LineKind;

// A line's row.
pub fn row(line: Line, rows: Rows<'_>) -> [u8; 1024]
    ensures { length result ≡ 1024 }
{
    let points = rows.points;
    let first = rows.first;
    let second = rows.second;
    let interval = Interval {
        lower: line.lower,
        upper: line.upper,
    };
    let mut ranks = [0u8; 1024];
    let mut row = [0u8; 1024];
    match line.kind {
        LineKind::True => operator_rows::true_row(points.len(), &mut row),
        LineKind::Proposition => {
            operator_rows::proposition_row(rows.facts, line.first as u8, points.len(), &mut row)
        }
        LineKind::Not => operator_rows::not_row(first, &mut row),
        LineKind::Or => operator_rows::or_row(first, second, &mut row),
        LineKind::And => operator_rows::and_row(first, second, false, &mut row),
        LineKind::Implies => operator_rows::and_row(first, second, true, &mut row),
        LineKind::Since => {
            operator_rows::since_row(points, first, second, interval, &mut ranks, &mut row)
        }
        LineKind::Until => {
            operator_rows::until_row(points, first, second, interval, &mut ranks, &mut row)
        }
        LineKind::Once => {
            operator_rows::once_row(points, first, false, interval, &mut ranks, &mut row)
        }
        LineKind::Historically => {
            operator_rows::once_row(points, first, true, interval, &mut ranks, &mut row)
        }
        LineKind::Eventually => {
            operator_rows::eventually_row(points, first, false, interval, &mut ranks, &mut row)
        }
        LineKind::Always => {
            operator_rows::eventually_row(points, first, true, interval, &mut ranks, &mut row)
        }
    }
    row
}
