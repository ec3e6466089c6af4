// Why no text of the grammar goes on as this one does (02, request 7, refusal 13): what was expected at the place.
ghost use Rattle.std.specs.Prelude.{◌≡◌, ◌≤◌, length};
ghost use Rattle.compile_rule.specs.Words as S;

use crate::beginning;
use crate::beginning::Expected;
use rule_lexer::byte_at;

#[derive(Clone, Copy)]
pub enum Reason {
    Term,
    True,
    Not,
    Space,
    Number,
    LeadingZero,
    End,
    Close,
    Joint,
    Or,
    And,
    Since,
    Until,
    Bracket,
    Comma,
    CloseInterval,
}

// The byte so many places before a place; 0 where there is none.
// A text and a place stay two arguments: the place changes at each step.
#[tactic(auto, unfolding(crate::specs::Words::byte_before, crate::specs::Choices::choose))]
fn byte_before(text: &[u8], at: usize, back: usize) -> u8
    ensures { result ≡ S.byte_before text.now at back }
{
    at.checked_sub(back)
        .map_or(0, |before| byte_at(text, before))
}

// Does a zero that begins a number stand before a place, and a digit at it.
#[tactic(auto, unfolding(crate::specs::Words::leading_zero, crate::specs::Choices::digit))]
fn leading_zero(text: &[u8], at: usize) -> bool
    ensures { result ≡ S.leading_zero text.now at }
{
    let zero = byte_before(text, at, 1) == b'0';
    let inside = byte_before(text, at, 2).is_ascii_digit();
    zero & !inside & byte_at(text, at).is_ascii_digit()
}

// Where a number should stand, or could go on: it is missing, or has a leading zero, or else something was expected behind it.
#[tactic(auto, unfolding(crate::specs::Words::number_reason, crate::specs::Choices::choose, crate::specs::Choices::digit))]
fn of_number(text: &[u8], at: usize, behind: Reason) -> Reason
    ensures { result ≡ S.number_reason text.now at behind }
{
    if !byte_before(text, at, 1).is_ascii_digit() {
        Reason::Number
    } else if leading_zero(text, at) {
        Reason::LeadingZero
    } else {
        behind
    }
}

// Behind a whole term.
#[tactic(auto, unfolding(crate::specs::Words::ended_reason, crate::specs::Choices::choose))]
fn of_ended(levels: u64) -> Reason
    ensures { result ≡ S.ended_reason levels }
{
    if levels < 2 {
        Reason::End
    } else if levels % 2 == 0 {
        Reason::Space
    } else {
        Reason::Close
    }
}

// What was expected at a place, before which the text is the beginning of one of the grammar.
#[tactic(auto, unfolding(crate::specs::Words::reason_at))]
pub fn reason_at(text: &[u8], at: usize) -> Reason
    requires { at ≤ length text.now }
    ensures { result ≡ S.reason_at text.now at }
{
    let b = beginning::scan(text, at);
    match b.expected {
        Expected::Term => Reason::Term,
        Expected::True => Reason::True,
        Expected::Not => Reason::Not,
        Expected::Space => Reason::Space,
        Expected::Mark => of_number(text, at, of_ended(b.levels)),
        Expected::Ended => of_ended(b.levels),
        Expected::Joint => Reason::Joint,
        Expected::Or => Reason::Or,
        Expected::And => Reason::And,
        Expected::Since => Reason::Since,
        Expected::Until => Reason::Until,
        Expected::Bracket => Reason::Bracket,
        Expected::Lower => of_number(text, at, Reason::Comma),
        Expected::Upper => of_number(text, at, Reason::CloseInterval),
    }
}

impl Reason {
    // What is told of it.
    pub fn words(self) -> &'static [u8] {
        match self {
            Reason::Term => b"expected a term",
            Reason::True => b"expected true",
            Reason::Not => b"expected not",
            Reason::Space => b"expected a space",
            Reason::Number => b"expected a number",
            Reason::LeadingZero => b"a number has no leading zero",
            Reason::End => b"expected the end",
            Reason::Close => b"expected \")\"",
            Reason::Joint => b"expected or, and, since or until",
            Reason::Or => b"expected or",
            Reason::And => b"expected and",
            Reason::Since => b"expected since",
            Reason::Until => b"expected until",
            Reason::Bracket => b"expected \"[\"",
            Reason::Comma => b"expected \",\"",
            Reason::CloseInterval => b"expected \"]\"",
        }
    }
}
