// The policy (01: the card) read from bytes; and written, from its numbers.
#![tactic(auto)]

ghost use Rattle.std.specs.Prelude.{◌≡◌, ◌+◌, ◌/◌, ◌%◌, ◌≤◌, ◌<◌, true, length, get_or, eqb, leb};
ghost use Rattle.std.proofs.lemmas.List.Edits.{sets};
ghost use Rattle.encoding.specs.Fields.{size, written};
ghost use Rattle.refusal.specs.Checks.{first_failed};
ghost use Rattle.refusal.specs.Writes.{Output};
ghost use Rattle.policy.specs.Format.{line_length, fields_at, allowed, operands_good, keeps_kind, good_line, kind_of, formula_of, subformula_of, within, heading_checks, sizes_of, closing_checks, decode_of};
ghost use Rattle.policy.specs.LineKinds.{kind_number};
ghost use Rattle.policy.specs.Lines.{scan_of};
ghost use Rattle.policy.specs.Kinds.{zeros};
ghost use Rattle.policy.specs.Text.{rules_among, heading_good, line_good, lines_good, line_map, line_text, lines_text, heading_text, encode_of};

use encoding::{
    field_length, flag, flag_if, has, is_written, put, put_bytes, put_field, read8, read16,
    size_of, word,
};
use mtl::Formula;
use policy::{
    Fields, Kind, LineKind, LineNumbers, MOST_LINES, MOST_MINUTES, Operands, Policy, PolicyNumbers,
    Scanned, Sizes, Subformula,
};
use refusal::Refusal;

// How many bytes the heading takes.
const HEADING: usize = 5;

// The most propositions, components and rules of a policy, and the latest end of an interval.
const MOST_PROPOSITIONS: usize = 32;

const MOST_COMPONENTS: usize = 16;

const MOST_RULES: usize = 8;

const MOST_UPPER: u16 = 1023;

// The weights of a map's bits: a field that is written, and a rule. Bits 6 and 7 are 0, so that a map is below SPARE.
const HAS_KIND: u8 = 1;

const HAS_FIRST: u8 = 2;

const HAS_SECOND: u8 = 4;

const HAS_LOWER: u8 = 8;

const HAS_UPPER: u8 = 16;

const IS_RULE: u8 = 32;

const SPARE: u8 = 64;

// The row of true: no field besides kind.
const CONSTANT: Kind = Kind {
    first: false,
    second: false,
    lower: false,
    upper: false,
    operands: Operands::Nothing,
};

// The row of a proposition: first is its number.
const ATOM: Kind = Kind {
    first: true,
    second: false,
    lower: false,
    upper: false,
    operands: Operands::Proposition,
};

// The row of a kind with one earlier line.
const UNARY: Kind = Kind {
    first: true,
    second: false,
    lower: false,
    upper: false,
    operands: Operands::Line,
};

// The row of a kind with two earlier lines.
const BINARY: Kind = Kind {
    first: true,
    second: true,
    lower: false,
    upper: false,
    operands: Operands::TwoLines,
};

// The row of a kind with two earlier lines and an interval.
const TEMPORAL: Kind = Kind {
    first: true,
    second: true,
    lower: true,
    upper: true,
    operands: Operands::TwoLines,
};

// The row of a kind with one earlier line and an interval.
const WINDOW: Kind = Kind {
    first: true,
    second: false,
    lower: true,
    upper: true,
    operands: Operands::Line,
};

// The table of kinds, a row a kind; those from `and` on by 02, request 6.
fn row_of(kind: LineKind) -> Kind
    ensures { result ≡ kind_of (kind_number kind) }
{
    match kind {
        LineKind::True => CONSTANT,
        LineKind::Proposition => ATOM,
        LineKind::Not => UNARY,
        LineKind::Or | LineKind::And | LineKind::Implies => BINARY,
        LineKind::Since | LineKind::Until => TEMPORAL,
        LineKind::Once | LineKind::Historically | LineKind::Eventually | LineKind::Always => WINDOW,
    }
}

// How many bytes of a line the field of this weight takes.
fn field_size(map: u8, weight: u8, n: usize) -> usize
    requires { 0 < weight }
    ensures { (result ≡ size (eqb (map / weight % 2) 1) n) × (result ≤ n) }
{
    size_of(has(map, weight), n)
}

// The length of a line, its map included.
#[tactic(auto, unfolding(policy::specs::Format::line_length))]
fn line_length(map: u8) -> usize
    ensures { (result ≡ line_length map) × (result ≤ 8) }
{
    let kind = field_size(map, HAS_KIND, 1);
    let first = field_size(map, HAS_FIRST, 1);
    let second = field_size(map, HAS_SECOND, 1);
    let lower = field_size(map, HAS_LOWER, 2);
    let upper = field_size(map, HAS_UPPER, 2);
    1 + kind + first + second + lower + upper
}

// Are all bytes of the line at a place there.
#[tactic(auto, unfolding(policy::specs::Format::line_length))]
fn is_whole(s: &[u8], at: usize) -> bool
    requires { at ≤ length s.now }
    ensures { result ≡ leb (at + line_length (get_or s.now at 0)) (length s.now) }
{
    s.get(at)
        .is_some_and(|map| line_length(*map) <= s.len() - at)
}

// The fields of the line at a place.
#[tactic(auto, unfolding(policy::specs::Format::fields_at, policy::specs::Format::line_length))]
fn fields_at(s: &[u8], at: usize) -> Fields
    requires { at + line_length (get_or s.now at 0) ≤ length s.now }
    ensures { result ≡ fields_at s.now at }
{
    let map = s[at];
    let first = at + 1 + field_size(map, HAS_KIND, 1);
    let second = first + field_size(map, HAS_FIRST, 1);
    let lower = second + field_size(map, HAS_SECOND, 1);
    let upper = lower + field_size(map, HAS_LOWER, 2);
    Fields {
        map,
        kind: read8(s, has(map, HAS_KIND), at + 1),
        first: read8(s, has(map, HAS_FIRST), first),
        second: read8(s, has(map, HAS_SECOND), second),
        lower: read16(s, has(map, HAS_LOWER), lower),
        upper: read16(s, has(map, HAS_UPPER), upper),
    }
}

// Is the field of this weight absent or not 0.
fn field_good(map: u8, weight: u8, value: u32) -> bool
    requires { 0 < weight }
    ensures { result ≡ written (eqb (map / weight % 2) 1) value }
{
    is_written(has(map, weight), value)
}

// Does the map name only fields that the kind allows.
fn is_allowed(kind: Kind, map: u8) -> bool
    ensures { result ≡ allowed kind map }
{
    let first = kind.first | !has(map, HAS_FIRST);
    let second = kind.second | !has(map, HAS_SECOND);
    let lower = kind.lower | !has(map, HAS_LOWER);
    let upper = kind.upper | !has(map, HAS_UPPER);
    first & (second & (lower & upper))
}

// Is the proposition one of the policy, or are the operands earlier lines.
fn operands_good(
    operands: Operands,
    propositions: usize,
    line: usize,
    first: usize,
    second: usize,
) -> bool
    ensures { result ≡ operands_good operands propositions line first second }
{
    match operands {
        Operands::Nothing => true,
        Operands::Proposition => first < propositions,
        Operands::Line => first < line,
        Operands::TwoLines => (first < line) & (second < line),
    }
}

// Is there such a kind, and do the fields keep its row.
#[tactic(auto, unfolding(policy::specs::Format::keeps_kind))]
fn keeps_kind(propositions: u8, line: usize, fields: Fields) -> bool
    ensures { result ≡ keeps_kind propositions line fields }
{
    let Ok(kind) = LineKind::try_from(fields.kind as u16) else {
        return false;
    };
    let row = row_of(kind);
    let named = is_allowed(row, fields.map);
    let referred = operands_good(
        row.operands,
        propositions as usize,
        line,
        fields.first as usize,
        fields.second as usize,
    );
    named & referred
}

// Does the line keep every rule.
#[tactic(auto, unfolding(policy::specs::Format::good_line))]
fn good_line(propositions: u8, line: usize, fields: Fields) -> bool
    ensures { result ≡ good_line propositions line fields }
{
    let map = fields.map;
    let kind = field_good(map, HAS_KIND, fields.kind as u32);
    let first = field_good(map, HAS_FIRST, fields.first as u32);
    let second = field_good(map, HAS_SECOND, fields.second as u32);
    let lower = field_good(map, HAS_LOWER, fields.lower as u32);
    let upper = field_good(map, HAS_UPPER, fields.upper as u32);
    let row = keeps_kind(propositions, line, fields);
    let ordered = fields.lower <= fields.upper;
    let bounded = fields.upper <= MOST_UPPER;
    (map < SPARE) & (kind & (first & (second & (lower & (upper & (row & (ordered & bounded)))))))
}

// The meaning of a line.
#[tactic(auto, unfolding(policy::specs::Format::formula_of, policy::specs::Format::meaning))]
fn formula_of(fields: Fields) -> Formula
    ensures { result ≡ formula_of fields }
{
    let Fields {
        first,
        second,
        lower,
        upper,
        ..
    } = fields;
    match LineKind::try_from(fields.kind as u16) {
        Ok(LineKind::True) => Formula::True,
        Ok(LineKind::Proposition) => Formula::Proposition(first),
        Ok(LineKind::Not) => Formula::Not(first),
        Ok(LineKind::Or) => Formula::Or(first, second),
        Ok(LineKind::Since) => Formula::Since {
            left: first,
            right: second,
            lower,
            upper,
        },
        Ok(LineKind::Until) => Formula::Until {
            left: first,
            right: second,
            lower,
            upper,
        },
        Ok(LineKind::And) => Formula::And(first, second),
        Ok(LineKind::Implies) => Formula::Implies(first, second),
        Ok(LineKind::Once) => Formula::Once {
            operand: first,
            lower,
            upper,
        },
        Ok(LineKind::Historically) => Formula::Historically {
            operand: first,
            lower,
            upper,
        },
        Ok(LineKind::Eventually) => Formula::Eventually {
            operand: first,
            lower,
            upper,
        },
        Ok(LineKind::Always) | Err(_) => Formula::Always {
            operand: first,
            lower,
            upper,
        },
    }
}

// The line's meaning, and whether it is a rule.
#[tactic(auto, unfolding(policy::specs::Format::subformula_of))]
fn subformula_of(fields: Fields) -> Subformula
    ensures { result ≡ subformula_of fields }
{
    let formula = formula_of(fields);
    let rule = has(fields.map, IS_RULE);
    Subformula { formula, rule }
}

// Is a heading number from least to most.
fn in_range(least: usize, most: usize, n: usize) -> bool
    ensures { result ≡ within least most n }
{
    (least..=most).contains(&n)
}

// The first heading number that is out of range. That the heading is there stands in clauses, here and below: the definitions read all bytes.
#[tactic(auto, unfolding(policy::specs::Format::heading_checks))]
fn heading_answer(s: &[u8]) -> Result<(), Refusal>
    requires { 5 ≤ length s.now }
    ensures { result ≡ first_failed (heading_checks s.now) }
{
    if !in_range(1, MOST_PROPOSITIONS, s[0] as usize) {
        return Err(Refusal::BadHeading(0));
    }
    if !in_range(1, MOST_COMPONENTS, s[1] as usize) {
        return Err(Refusal::BadHeading(1));
    }
    if !in_range(1, MOST_MINUTES, word(s[2], s[3]) as usize) {
        return Err(Refusal::BadHeading(2));
    }
    if !in_range(1, MOST_LINES, s[4] as usize) {
        return Err(Refusal::BadHeading(4));
    }
    Ok(())
}

// Reads the first count lines, one after another.
fn scan(s: &[u8], count: usize) -> Result<Scanned, Refusal>
    requires { (5 ≤ length s.now) × (count ≤ 64) }
    ensures { result ≡ scan_of s.now count }
{
    let propositions = s[0];
    let none = Subformula {
        formula: Formula::True,
        rule: false,
    };
    let mut subformulas = [none; MOST_LINES];
    let mut rules = 0;
    let mut at = HEADING;
    for i in 0..count {
        if !is_whole(s, at) {
            return Err(Refusal::TruncatedPolicy(s.len()));
        }
        let fields = fields_at(s, at);
        if !good_line(propositions, i, fields) {
            return Err(Refusal::BadSubformula(at));
        }
        subformulas[i] = subformula_of(fields);
        rules += field_size(fields.map, IS_RULE, 1);
        at += line_length(fields.map);
    }
    Ok(Scanned {
        at,
        rules,
        subformulas,
    })
}

// Nothing follows the lines, and one to eight of them are rules.
#[tactic(auto, unfolding(policy::specs::Format::closing_checks))]
fn closing_answer(length: usize, at: usize, rules: usize) -> Result<(), Refusal>
    ensures { result ≡ first_failed (closing_checks length at rules) }
{
    if at != length {
        return Err(Refusal::TruncatedPolicy(at));
    }
    if !in_range(1, MOST_RULES, rules) {
        return Err(Refusal::RuleCount);
    }
    Ok(())
}

// The heading's numbers but the last.
fn sizes_of(s: &[u8]) -> Sizes
    requires { 5 ≤ length s.now }
    ensures { result ≡ sizes_of s.now }
{
    Sizes {
        propositions: s[0] as usize,
        components: s[1] as usize,
        minutes: word(s[2], s[3]) as usize,
    }
}

// Reads a policy, or says why it is refused.
pub fn decode(s: &[u8]) -> Result<Policy, Refusal>
    ensures { result ≡ decode_of s.now }
{
    let length = s.len();
    if length < HEADING {
        return Err(Refusal::TruncatedPolicy(length));
    }
    heading_answer(s)?;
    let count = s[4] as usize;
    let lines = scan(s, count)?;
    closing_answer(length, lines.at, lines.rules)?;
    let sizes = sizes_of(s);
    let subformulas = lines.subformulas;
    Ok(Policy {
        sizes,
        count,
        rules: lines.rules,
        subformulas,
    })
}

// ---- what is written (02, request 3)

// Is each heading number in range. The sizes come one by one, as the definitions and C's callers have them.
pub fn heading_good(propositions: usize, components: usize, minutes: usize, count: usize) -> bool
    ensures { result ≡ heading_good propositions components minutes count }
{
    let propositions_good = in_range(1, MOST_PROPOSITIONS, propositions);
    let components_good = in_range(1, MOST_COMPONENTS, components);
    let minutes_good = in_range(1, MOST_MINUTES, minutes);
    let count_good = in_range(1, MOST_LINES, count);
    propositions_good & (components_good & (minutes_good & count_good))
}

// Is each field that the kind doesn't allow 0. Of numbers, where `is_allowed` is of a map's bits, by two definitions.
fn is_zero_else(kind: Kind, line: LineNumbers) -> bool
    ensures { result ≡ zeros kind line.first line.second line.lower line.upper }
{
    let first = kind.first | (line.first == 0);
    let second = kind.second | (line.second == 0);
    let lower = kind.lower | (line.lower == 0);
    let upper = kind.upper | (line.upper == 0);
    first & (second & (lower & upper))
}

// Does line i, of these numbers, keep every rule of the format.
#[tactic(auto, unfolding(policy::specs::Text::line_good))]
fn line_good(propositions: usize, i: usize, line: LineNumbers) -> bool
    ensures { result ≡ line_good propositions i line }
{
    let Ok(kind) = LineKind::try_from(line.kind) else {
        return false;
    };
    let row = row_of(kind);
    let zeros = is_zero_else(row, line);
    let first = line.first as usize;
    let second = line.second as usize;
    let referred = operands_good(row.operands, propositions, i, first, second);
    let ordered = line.lower <= line.upper;
    let bounded = line.upper <= MOST_UPPER;
    zeros & (referred & (ordered & bounded))
}

// Do the lines, numbered from 0, keep them.
fn lines_good(propositions: usize, lines: &[LineNumbers]) -> bool
    ensures { result ≡ lines_good propositions lines.now (length lines.now) }
{
    lines
        .iter()
        .enumerate()
        .all(|(i, line)| line_good(propositions, i, *line))
}

// How many of the lines are rules.
#[tactic(auto, using(crate::proofs::Chains::all_rules))]
fn rules_among(lines: &[LineNumbers]) -> usize
    ensures { result ≡ rules_among lines.now (length lines.now) }
{
    lines.iter().filter(|line| line.rule).count()
}

// How many bytes a line takes.
#[tactic(auto, using(crate::proofs::Writing::line_long))]
fn line_size(line: LineNumbers) -> usize
    ensures { (result ≡ length (line_text line)) × (result ≤ 8) }
{
    let kind = field_length(line.kind as usize, 1);
    let first = field_length(line.first as usize, 1);
    let second = field_length(line.second as usize, 1);
    let lower = field_length(line.lower as usize, 2);
    let upper = field_length(line.upper as usize, 2);
    1 + kind + first + second + lower + upper
}

// How many bytes the lines take.
fn lines_size(lines: &[LineNumbers]) -> usize
    requires { length lines.now ≤ 64 }
    ensures { (result ≡ length (lines_text lines.now (length lines.now))) × (result ≤ 512) }
{
    lines.iter().map(|line| line_size(*line)).sum()
}

// The map of a line: the fields that are written, and whether it is a rule.
fn line_map(line: LineNumbers) -> u8
    ensures { result ≡ line_map line }
{
    let kind = flag(line.kind as usize, HAS_KIND);
    let first = flag(line.first as usize, HAS_FIRST);
    let second = flag(line.second as usize, HAS_SECOND);
    let lower = flag(line.lower as usize, HAS_LOWER);
    let upper = flag(line.upper as usize, HAS_UPPER);
    let rule = flag_if(line.rule, IS_RULE);
    kind + first + second + lower + upper + rule
}

// Writes a line, and says where the next one goes.
#[tactic(auto, using(crate::proofs::Writing::line_long))]
fn put_line(out: &mut [u8], at: usize, line: LineNumbers) -> usize
    requires { at + length (line_text line) ≤ length out.old }
    ensures { (result ≡ at + length (line_text line)) × (out.new ≡ sets out.old at (line_text line)) }
{
    let kind = put(out, at, line_map(line));
    let first = put_field(out, kind, 1, line.kind as usize);
    let second = put_field(out, first, 1, line.first as usize);
    let lower = put_field(out, second, 1, line.second as usize);
    let upper = put_field(out, lower, 2, line.lower as usize);
    put_field(out, upper, 2, line.upper as usize)
}

// Writes the lines behind the heading.
fn put_lines(out: &mut [u8], lines: &[LineNumbers])
    requires { 5 + length (lines_text lines.now (length lines.now)) ≤ length out.old }
    ensures { out.new ≡ sets out.old 5 (lines_text lines.now (length lines.now)) }
{
    let mut at = HEADING;
    for line in lines {
        at = put_line(out, at, *line);
    }
}

// Writes the heading.
fn put_heading(
    out: &mut [u8],
    propositions: usize,
    components: usize,
    minutes: usize,
    count: usize,
) -> usize
    requires { 5 ≤ length out.old }
    ensures { (result ≡ 5) × (out.new ≡ sets out.old 0 (heading_text propositions components minutes count)) }
{
    let second = put_bytes(out, 0, 1, propositions);
    let third = put_bytes(out, second, 1, components);
    let fifth = put_bytes(out, third, 2, minutes);
    put_bytes(out, fifth, 1, count)
}

// Writes the policy with these numbers, or says why it is refused; then nothing is written.
pub fn encode(p: PolicyNumbers, out: &mut [u8]) -> Result<usize, Refusal>
    ensures { ◌≡◌ {A = Output} (record { answer = result; out = out.new }) (encode_of p out.old) }
{
    let propositions = p.propositions;
    let components = p.components;
    let minutes = p.minutes;
    let count = p.count;
    if !heading_good(propositions, components, minutes, count) {
        return Err(Refusal::BadHeading(0)); // what is to be written has no places
    }
    let lines = &p.lines[..count];
    if !lines_good(propositions, lines) {
        return Err(Refusal::BadSubformula(0));
    }
    if !in_range(1, MOST_RULES, rules_among(lines)) {
        return Err(Refusal::RuleCount);
    }
    let size = HEADING + lines_size(lines);
    if out.len() < size {
        return Err(Refusal::ShortBuffer);
    }
    put_heading(out, propositions, components, minutes, count);
    put_lines(out, lines);
    Ok(size)
}
