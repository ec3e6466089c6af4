// A rule typed as text (02, request 7): read by descent, and written as a policy.
#![tactic(auto)]

ghost use Rattle.std.specs.Prelude.{◌≡◌, ◌+◌, ◌-◌, ◌≤◌, ◌<◌, false, set};
ghost use Rattle.refusal.specs.Writes.{Output};
ghost use Rattle.policy.specs.Text.{numbered, encode_of};
ghost use Rattle.line_table.specs.Table.{line_at, lines_from};
ghost use Rattle.rule_text.specs.Gathered.{Writes, not_lines, as_rule, gathered};
ghost use Rattle.policy.specs.LineKinds.{kind_number};
ghost use Rattle.rule_text.specs.Steps.{LeafRead, TermRead, GroupRead, Negated, ClosedBy, RuleRead};
ghost use Rattle.rule_text.specs.Compiled.{compile_of};

use line_table::{NUMBERS, lines_from, set_line};
use policy::{LineKind, LineNumbers, MOST_LINES, PolicyNumbers};
use policy_codec::{encode, heading_good};
use refusal::Refusal;
use rule_lexer::{byte_at, joint_at, nots_at, number_at, word_at};
use rule_text::{Cursor, Joint};

// How deep brackets may nest.
const NESTING: usize = 32;

// The text that is read, and how many propositions it may name.
#[derive(Clone, Copy)]
struct Source<'a> {
    text: &'a [u8],
    propositions: usize,
    ghost few: { propositions ≤ 32 },
}

// The line of a term without an interval.
fn line(kind: LineKind, first: usize) -> LineNumbers
    requires { first < 64 }
    ensures { result ≡ numbered (kind_number kind) first 0 0 0 false }
{
    LineNumbers {
        kind: kind as u16,
        first: first as u16,
        second: 0,
        lower: 0,
        upper: 0,
        rule: false,
    }
}

// The term that ends there with a run of "not" before it: a line for each, the innermost first.
fn negated(fields: &mut [u16; NUMBERS], inner: Cursor, count: usize) -> Cursor
    requires { (0 < inner.lines) × (inner.lines + count ≤ 64) }
    ensures { Negated inner count fields.old fields.new result }
{
    let lines = inner.lines;
    for i in 0..count {
        set_line(fields, lines + i, line(LineKind::Not, lines + i - 1));
    }
    Cursor {
        lines: lines + count,
        ..inner
    }
}

impl Source<'_> {
    // "true" or a mark, which becomes the next line.
    fn leaf(&self, fields: &mut [u16; NUMBERS], from: Cursor) -> Result<Cursor, Refusal>
        requires { from.lines < 64 }
        ensures { LeafRead self.now.propositions self.now.text.now from.at from.lines fields.old fields.new result }
    {
        match byte_at(self.text, from.at) {
            b't' => {
                let end = word_at(self.text, from.at + 1, b"rue")?;
                set_line(fields, from.lines, line(LineKind::True, 0));
                Ok(Cursor {
                    at: end,
                    lines: from.lines + 1,
                })
            }
            b'm' => {
                let first = from.at + 1;
                let number = number_at(self.text, first);
                if number.end == first {
                    return Err(Refusal::RuleSyntax(first));
                }
                if self.propositions <= number.value {
                    return Err(Refusal::RuleLimit(first));
                }
                set_line(
                    fields,
                    from.lines,
                    line(LineKind::Proposition, number.value),
                );
                Ok(Cursor {
                    at: number.end,
                    lines: from.lines + 1,
                })
            }
            _ => Err(Refusal::RuleSyntax(from.at)),
        }
    }

    // The end of a group: its ")", and its line behind those of its terms.
    fn close(
        &self,
        fields: &mut [u16; NUMBERS],
        right: Cursor,
        joint: Joint,
        left: usize,
    ) -> Result<Cursor, Refusal>
        requires { (0 < right.lines) × (right.lines + 1 ≤ 64) × (0 < left) × (left ≤ 64) }
        ensures { ClosedBy self.now.text.now right joint left fields.old fields.new result }
    {
        let lines = right.lines;
        if byte_at(self.text, right.at) != b')' {
            return Err(Refusal::RuleSyntax(right.at));
        }
        let line = LineNumbers {
            kind: joint.kind as u16,
            first: (left - 1) as u16,
            second: (lines - 1) as u16,
            lower: joint.lower,
            upper: joint.upper,
            rule: false,
        };
        set_line(fields, lines, line);
        Ok(Cursor {
            at: right.at + 1,
            lines: lines + 1,
        })
    }

    // A term: so many terms are around it, and brackets may nest so deep.
    #[cycle(group_term)]
    fn term(
        &self,
        fields: &mut [u16; NUMBERS],
        from: Cursor,
        around: usize,
        nesting: usize,
    ) -> Result<Cursor, Refusal>
        requires { from.lines + around ≤ 64 }
        ensures { TermRead self.now.propositions self.now.text.now from.at from.lines around nesting fields.old fields.new result }
    {
        let nots = nots_at(self.text, from.at, from.lines + around)?;
        if byte_at(self.text, nots.at) != b'(' {
            let first = Cursor {
                at: nots.at,
                ..from
            };
            let leaf = self.leaf(fields, first)?;
            return Ok(negated(fields, leaf, nots.count));
        }
        if nesting == 0 {
            return Err(Refusal::RuleLimit(nots.at));
        }
        let inside = Cursor {
            at: nots.at + 1,
            ..from
        };
        let group = self.group(fields, inside, around + nots.count, nesting - 1)?;
        Ok(negated(fields, group, nots.count))
    }

    // A group, behind its "("; so many terms are around it.
    #[cycle(group_term)]
    fn group(
        &self,
        fields: &mut [u16; NUMBERS],
        from: Cursor,
        around: usize,
        nesting: usize,
    ) -> Result<Cursor, Refusal>
        requires { from.lines + around < 64 }
        ensures { GroupRead self.now.propositions self.now.text.now from.at from.lines around nesting fields.old fields.new result }
    {
        let left = self.term(fields, from, around + 1, nesting)?;
        let joint = joint_at(self.text, left.at)?;
        let second = Cursor {
            at: joint.at,
            ..left
        };
        let right = self.term(fields, second, around + 1, nesting)?;
        self.close(fields, right, joint, left.lines)
    }

    // The whole text: a term, and nothing behind it.
    fn rule(&self, fields: &mut [u16; NUMBERS]) -> Result<Cursor, Refusal>
        ensures { RuleRead self.now.propositions self.now.text.now fields.new result }
    {
        let start = Cursor { at: 0, lines: 0 };
        let end = self.term(fields, start, 0, NESTING)?;
        if end.at < self.text.len() {
            return Err(Refusal::RuleSyntax(end.at));
        }
        Ok(end)
    }
}

// The lines, the last of which is the rule.
fn rule_lines(fields: &[u16; NUMBERS], count: usize) -> [LineNumbers; MOST_LINES]
    requires { (0 < count) × (count ≤ 64) }
    ensures { result ≡ set (lines_from fields.now 64) (count - 1) (as_rule (line_at fields.now (count - 1))) }
{
    let mut lines = lines_from(fields);
    lines[count - 1].rule = true;
    lines
}

// Reads the rule that a text is, and writes it as a policy with these numbers of propositions, components and minutes; or says why it is refused,
// and then nothing is written.
pub fn compile(
    text: &[u8],
    propositions: usize,
    components: usize,
    minutes: usize,
    out: &mut [u8],
) -> Result<usize, Refusal>
    ensures { ◌≡◌ {A = Output} (record { answer = result; out = out.new }) (compile_of propositions components minutes text.now out.old) }
{
    if !heading_good(propositions, components, minutes, 1) {
        return Err(Refusal::BadHeading(0));
    }
    // fixed memory: six numbers a line (`line_table`); how many lines there are stands in the cursor
    let mut fields = [0u16; NUMBERS];
    let source = Source { text, propositions };
    let end = source.rule(&mut fields)?;
    let count = end.lines;
    let numbers = PolicyNumbers {
        propositions,
        components,
        minutes,
        count,
        lines: rule_lines(&fields, count),
    };
    encode(numbers, out)
}
