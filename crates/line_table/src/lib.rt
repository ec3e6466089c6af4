// A policy's lines as one array of numbers, six a line: kind, first, second, lower, upper, and any but 0 for a rule. C lends them so, and a rule
// typed as text is gathered so.
#![tactic(auto)]

ghost use Rattle.std.specs.Prelude.{◌≡◌, ◌<◌, length};
ghost use Rattle.line_table.specs.Table.{line_at, lines_from, set_line};

use policy::{LineNumbers, MOST_LINES};
use std::array;

// How many numbers each line has, and how many that makes: written out, for an array's length is no computed constant.
const PER_LINE: usize = 6;

pub const NUMBERS: usize = 384;

// The six numbers of line i. No From: they are a part of one array, as C lends it.
fn line_at(fields: &[u16; NUMBERS], i: usize) -> LineNumbers
    requires { i < 64 }
    ensures { result ≡ line_at fields.now i }
{
    let at = i * PER_LINE;
    LineNumbers {
        kind: fields[at],
        first: fields[at + 1],
        second: fields[at + 2],
        lower: fields[at + 3],
        upper: fields[at + 4],
        rule: fields[at + 5] != 0,
    }
}

// The numbers of 64 lines.
pub fn lines_from(fields: &[u16; NUMBERS]) -> [LineNumbers; MOST_LINES]
    ensures { result ≡ lines_from fields.now 64 }
{
    array::from_fn(|i| line_at(fields, i))
}

// Stores line i.
pub fn set_line(fields: &mut [u16; NUMBERS], i: usize, line: LineNumbers)
    requires { (i < 64) × (length fields.old ≡ 384) }
    ensures { fields.new ≡ set_line fields.old i line }
{
    let at = i * PER_LINE;
    fields[at] = line.kind;
    fields[at + 1] = line.first;
    fields[at + 2] = line.second;
    fields[at + 3] = line.lower;
    fields[at + 4] = line.upper;
    fields[at + 5] = line.rule as u16;
}
