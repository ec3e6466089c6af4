// Prints the reader's answer for policies (01: cards) at the edges of the format: accepted with propositions, components, minutes,
// lines and rules, or refused with number and place.
#![tactic(auto)]

ghost use Rattle.std.specs.Prelude.{◌≡◌, ◌≤◌, length};

use hex_lines::InPieces;
use std::io::Result;

// Card K of 01.
const K: [u8; 13] = *b"\x01\x01\x04\x00\x03\x00\x01\x01\x35\x04\x01\x02\x00";

// The bit of a line's map that makes it a rule.
const RULE: u8 = 32;

// A line of eight bytes that is no rule: every field is written.
const LONG_LINE: [u8; 8] = *b"\x1f\x05\x01\x01\x01\x00\xff\x03";

fn show_answer(rt: &impl Print, policy: &[u8]) -> Result<()> {
    match policy_codec::decode(policy) {
        Ok(p) => {
            let sizes = p.sizes;
            println!(rt;
                " accepted {} {} {} {} {}",
                sizes.propositions, sizes.components, sizes.minutes, p.count, p.rules
            )
        }
        Err(r) => println!(rt; " refused {r}"),
    }
}

fn case(rt: &impl Print, label: &str, policy: &[u8]) -> Result<()> {
    print!(rt; "{label}:")?;
    show_answer(rt, policy)
}

fn cases(rt: &impl Print, cases: &[(&str, &[u8])]) -> Result<()> {
    for (label, policy) in cases {
        case(rt, label, policy)?;
    }
    Ok(())
}

// Card K of 01, and its variant.
fn cards(rt: &impl Print) -> Result<()> {
    cases(
        rt,
        &[
            ("K", b"\x01\x01\x04\x00\x03\x00\x01\x01\x35\x04\x01\x02\x00"),
            (
                "K, until",
                b"\x01\x01\x04\x00\x03\x00\x01\x01\x35\x05\x01\x01\x00",
            ),
        ],
    )
}

// Each heading number at 0, at its largest and one above.
fn headings(rt: &impl Print) -> Result<()> {
    cases(
        rt,
        &[
            ("no propositions", b"\x00\x01\x04\x00\x01\x20"),
            ("32 propositions", b"\x20\x01\x04\x00\x01\x20"),
            ("33 propositions", b"\x21\x01\x04\x00\x01\x20"),
            ("no components", b"\x01\x00\x04\x00\x01\x20"),
            ("16 components", b"\x01\x10\x04\x00\x01\x20"),
            ("17 components", b"\x01\x11\x04\x00\x01\x20"),
            ("no minutes", b"\x01\x01\x00\x00\x01\x20"),
            ("1,024 minutes", b"\x01\x01\x00\x04\x01\x20"),
            ("1,025 minutes", b"\x01\x01\x01\x04\x01\x20"),
            ("no lines", b"\x01\x01\x04\x00\x00"),
            ("all numbers out of range", b"\x00\x00\x00\x00\x00"),
        ],
    )
}

// Bits 6 and 7, and a line that ends early and breaks a rule.
fn bits(rt: &impl Print) -> Result<()> {
    cases(
        rt,
        &[
            ("bit 6", b"\x01\x01\x04\x00\x01\x60"),
            ("bit 7", b"\x01\x01\x04\x00\x01\xa0"),
            ("bits 6 and 7 before a cut", b"\x01\x01\x04\x00\x01\xe1"),
        ],
    )
}

// Each field written as 0.
fn zeros(rt: &impl Print) -> Result<()> {
    cases(
        rt,
        &[
            ("kind 0 written", b"\x01\x01\x04\x00\x01\x21\x00"),
            ("first 0 written", b"\x01\x01\x04\x00\x01\x23\x01\x00"),
            ("second 0 written", b"\x01\x01\x04\x00\x02\x00\x25\x03\x00"),
            (
                "lower 0 written",
                b"\x01\x01\x04\x00\x02\x00\x29\x04\x00\x00",
            ),
            (
                "upper 0 written",
                b"\x01\x01\x04\x00\x02\x00\x31\x04\x00\x00",
            ),
        ],
    )
}

// Each field that a kind does not allow.
fn fields(rt: &impl Print) -> Result<()> {
    cases(
        rt,
        &[
            ("true with first", b"\x01\x01\x04\x00\x02\x00\x22\x01"),
            ("true with second", b"\x01\x01\x04\x00\x02\x00\x24\x01"),
            (
                "true with lower",
                b"\x01\x01\x04\x00\x02\x00\x38\x01\x00\x01\x00",
            ),
            ("true with upper", b"\x01\x01\x04\x00\x02\x00\x30\x01\x00"),
            (
                "proposition with second",
                b"\x02\x01\x04\x00\x02\x00\x25\x01\x01",
            ),
            (
                "proposition with lower",
                b"\x02\x01\x04\x00\x02\x00\x39\x01\x01\x00\x01\x00",
            ),
            (
                "proposition with upper",
                b"\x02\x01\x04\x00\x02\x00\x31\x01\x01\x00",
            ),
            (
                "not with second",
                b"\x01\x01\x04\x00\x03\x00\x00\x25\x02\x01",
            ),
            (
                "not with lower",
                b"\x01\x01\x04\x00\x02\x00\x39\x02\x01\x00\x01\x00",
            ),
            (
                "not with upper",
                b"\x01\x01\x04\x00\x02\x00\x31\x02\x01\x00",
            ),
            (
                "or with lower",
                b"\x01\x01\x04\x00\x02\x00\x39\x03\x01\x00\x01\x00",
            ),
            ("or with upper", b"\x01\x01\x04\x00\x02\x00\x31\x03\x01\x00"),
        ],
    )
}

// The kinds.
fn kinds(rt: &impl Print) -> Result<()> {
    cases(
        rt,
        &[
            ("kind 0", b"\x01\x01\x04\x00\x02\x00\x20"),
            ("kind 1", b"\x01\x01\x04\x00\x02\x00\x21\x01"),
            ("kind 2", b"\x01\x01\x04\x00\x02\x00\x21\x02"),
            ("kind 3", b"\x01\x01\x04\x00\x02\x00\x21\x03"),
            ("kind 4", b"\x01\x01\x04\x00\x02\x00\x21\x04"),
            ("kind 5", b"\x01\x01\x04\x00\x02\x00\x21\x05"),
        ],
    )
}

// Those of request 6 (02), and those that are none.
fn newer_kinds(rt: &impl Print) -> Result<()> {
    cases(
        rt,
        &[
            ("kind 6", b"\x01\x01\x04\x00\x02\x00\x21\x06"),
            ("kind 7", b"\x01\x01\x04\x00\x02\x00\x21\x07"),
            ("kind 8", b"\x01\x01\x04\x00\x02\x00\x21\x08"),
            ("kind 9", b"\x01\x01\x04\x00\x02\x00\x21\x09"),
            ("kind 10", b"\x01\x01\x04\x00\x02\x00\x21\x0a"),
            ("kind 11", b"\x01\x01\x04\x00\x02\x00\x21\x0b"),
            ("kind 12", b"\x01\x01\x04\x00\x02\x00\x21\x0c"),
            ("kind 255", b"\x01\x01\x04\x00\x02\x00\x21\xff"),
        ],
    )
}

// A line of each kind, in order, with numbers of its own: 2 propositions, 3 components, 258 minutes, line 4 a rule.
fn every_kind(rt: &impl Print) -> Result<()> {
    cases(
        rt,
        &[(
            "every kind",
            b"\x02\x03\x02\x01\x0c\x00\x03\x01\x01\x03\x02\x01\x07\x03\x01\x02\x3f\x04\x01\x02\x01\x00\x02\x01\x1f\x05\x03\x04\x00\x01\xff\x03\x07\x06\x01\x02\x07\x07\x02\x01\x13\x08\x03\x02\x01\x1b\x09\x04\x01\x00\xff\x03\x1b\x0a\x05\x00\x01\x00\x01\x1b\x0b\x0a\x02\x00\x03\x00",
        )],
    )
}

// Each field that a kind of request 6 does not allow.
fn newer_fields(rt: &impl Print) -> Result<()> {
    cases(
        rt,
        &[
            (
                "and with lower",
                b"\x01\x01\x04\x00\x02\x00\x39\x06\x01\x00\x01\x00",
            ),
            (
                "and with upper",
                b"\x01\x01\x04\x00\x02\x00\x31\x06\x01\x00",
            ),
            (
                "implies with lower",
                b"\x01\x01\x04\x00\x02\x00\x39\x07\x01\x00\x01\x00",
            ),
            (
                "implies with upper",
                b"\x01\x01\x04\x00\x02\x00\x31\x07\x01\x00",
            ),
            (
                "once with second",
                b"\x01\x01\x04\x00\x03\x00\x00\x25\x08\x01",
            ),
            (
                "historically with second",
                b"\x01\x01\x04\x00\x03\x00\x00\x25\x09\x01",
            ),
            (
                "eventually with second",
                b"\x01\x01\x04\x00\x03\x00\x00\x25\x0a\x01",
            ),
            (
                "always with second",
                b"\x01\x01\x04\x00\x03\x00\x00\x25\x0b\x01",
            ),
        ],
    )
}

// Their operands at their own line, and lower and upper.
fn newer_bounds(rt: &impl Print) -> Result<()> {
    cases(
        rt,
        &[
            ("and, first itself", b"\x01\x01\x04\x00\x02\x00\x23\x06\x01"),
            (
                "implies, second itself",
                b"\x01\x01\x04\x00\x02\x00\x25\x07\x01",
            ),
            ("once of itself", b"\x01\x01\x04\x00\x02\x00\x23\x08\x01"),
            (
                "historically, lower at upper",
                b"\x01\x01\x04\x00\x02\x00\x39\x09\x02\x00\x02\x00",
            ),
            (
                "historically, lower above upper",
                b"\x01\x01\x04\x00\x02\x00\x39\x09\x02\x00\x01\x00",
            ),
            (
                "eventually, lower alone",
                b"\x01\x01\x04\x00\x02\x00\x29\x0a\x01\x00",
            ),
            (
                "always, upper 1,023",
                b"\x01\x01\x04\x00\x02\x00\x31\x0b\xff\x03",
            ),
            (
                "always, upper 1,024",
                b"\x01\x01\x04\x00\x02\x00\x31\x0b\x00\x04",
            ),
        ],
    )
}

// Operands at their own line, and a proposition at the number of propositions.
fn operands(rt: &impl Print) -> Result<()> {
    cases(
        rt,
        &[
            ("not of itself, line 0", b"\x01\x01\x04\x00\x01\x21\x02"),
            (
                "not of itself, line 1",
                b"\x01\x01\x04\x00\x02\x00\x23\x02\x01",
            ),
            ("or, first itself", b"\x01\x01\x04\x00\x02\x00\x23\x03\x01"),
            ("or, second itself", b"\x01\x01\x04\x00\x02\x00\x25\x03\x01"),
            (
                "since, first itself",
                b"\x01\x01\x04\x00\x02\x00\x23\x04\x01",
            ),
            (
                "until, second itself",
                b"\x01\x01\x04\x00\x02\x00\x25\x05\x01",
            ),
            (
                "until of a later line",
                b"\x01\x01\x04\x00\x03\x00\x25\x05\x02\x00",
            ),
            ("last proposition", b"\x03\x01\x04\x00\x01\x23\x01\x02"),
            (
                "proposition after the last",
                b"\x03\x01\x04\x00\x01\x23\x01\x03",
            ),
        ],
    )
}

// Lower and upper.
fn intervals(rt: &impl Print) -> Result<()> {
    cases(
        rt,
        &[
            (
                "lower at upper",
                b"\x01\x01\x04\x00\x02\x00\x39\x04\x02\x00\x02\x00",
            ),
            (
                "lower above upper",
                b"\x01\x01\x04\x00\x02\x00\x39\x04\x02\x00\x01\x00",
            ),
            ("lower alone", b"\x01\x01\x04\x00\x02\x00\x29\x05\x01\x00"),
            ("upper 1,023", b"\x01\x01\x04\x00\x02\x00\x31\x05\xff\x03"),
            ("upper 1,024", b"\x01\x01\x04\x00\x02\x00\x31\x05\x00\x04"),
        ],
    )
}

// A policy cut at every length.
fn cuts(rt: &impl Print, policy: &[u8]) -> Result<()> {
    for n in 0..policy.len() {
        print!(rt; "K, {n} bytes:")?;
        show_answer(rt, &policy[..n])?;
    }
    Ok(())
}

// A policy of lines that are one byte each, the first of them rules; count is the heading's number of lines.
fn short_lines(rt: &impl Print, label: &str, count: u8, lines: usize, rules: usize) -> Result<()>
    requires { (rules ≤ lines) × (lines ≤ 65) }
{
    let mut policy = [0u8; 70];
    policy[..5].copy_from_slice(&[1, 1, 4, 0, count]);
    policy[5..5 + rules].fill(RULE);
    case(rt, label, &policy[..5 + lines])
}

// No rule, eight and nine; 64 lines and 65; the order of 1 and 4.
fn counts(rt: &impl Print) -> Result<()> {
    short_lines(rt, "no rule", 3, 3, 0)?;
    short_lines(rt, "eight rules", 9, 9, 8)?;
    short_lines(rt, "nine rules", 9, 9, 9)?;
    short_lines(rt, "no rule and a byte after", 3, 4, 0)?;
    short_lines(rt, "64 lines", 64, 64, 1)?;
    short_lines(rt, "64 lines and a byte after", 64, 65, 1)?;
    short_lines(rt, "65 lines", 65, 65, 1)
}

// A policy that starts with some bytes and has lines of eight bytes to the end, the first eight of them rules.
fn long_policy(start: &[u8]) -> [u8; 517]
    requires { length start.now ≤ 517 }
    ensures { length result ≡ 517 }
{
    let mut policy = [0u8; 517];
    let (first, lines) = policy.split_at_mut(start.len());
    first.copy_from_slice(start);
    for (i, line) in lines.chunks_exact_mut(8).enumerate() {
        line.copy_from_slice(&LONG_LINE);
        if i < 8 {
            line[0] += RULE;
        }
    }
    policy
}

// The longest policy that is accepted. Line 0 has no operands, and line 1 none but 0, so it has 510 bytes, and 64 lines of eight bytes
// are refused.
fn longest(rt: &impl Print) -> Result<()> {
    let policy = long_policy(b"\x02\x01\x04\x00\x40\x03\x01\x01\x19\x05\x01\x00\x02\x00");
    let (accepted, _) = policy.split_at(510);
    case(rt, "longest", accepted)?;
    case(rt, "longest and bytes after", &policy)?;
    let refused = long_policy(b"\x02\x01\x04\x00\x40");
    case(rt, "64 lines of eight bytes", &refused)
}

fn show_all(rt: &impl Print) -> Result<()> {
    cards(rt)?;
    cuts(rt, &K)?;
    case(
        rt,
        "K and a byte",
        b"\x01\x01\x04\x00\x03\x00\x01\x01\x35\x04\x01\x02\x00\x00",
    )?;
    headings(rt)?;
    bits(rt)?;
    zeros(rt)?;
    fields(rt)?;
    kinds(rt)?;
    newer_kinds(rt)?;
    every_kind(rt)?;
    operands(rt)?;
    intervals(rt)?;
    newer_fields(rt)?;
    newer_bounds(rt)?;
    counts(rt)?;
    longest(rt)
}

fn main(rt: HostRuntime) {
    let _ = show_all(&InPieces(&rt));
}
