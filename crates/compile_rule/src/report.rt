// What the program tells on standard error.
ghost use Rattle.std.specs.Prelude.{◌≡◌, ◌≤◌, length};
ghost use Rattle.compile_rule.specs.Words as S;

use crate::excess::limit_at;
use crate::reason::reason_at;
use refusal::Refusal;
use std::fmt::InlineText;
use std::io::Print;

// Writes a piece of what is told by itself: where one can't be written, or in part, the next ones are tried all the same.
pub fn put(err: &impl Print, piece: &[u8]) {
    let _ = err.write_all(piece);
}

// A number's digits as a piece.
pub fn put_number(err: &impl Print, number: usize) {
    put(err, InlineText::<20>::of(number).as_str().as_bytes());
}

pub fn usage(err: &impl Print) {
    put(
        err,
        b"usage: compile_rule MARKS STATIONS MINUTES < RULE > CARD\n",
    );
}

pub fn too_long(err: &impl Print) {
    put(err, b"the text is longer than 65536 bytes\n");
}

// The number and the place of a refusal, before its words.
fn put_refusal(err: &impl Print, refusal: Refusal) {
    put_number(err, usize::from(refusal.number()));
    put(err, b" at ");
    put_number(err, refusal.place());
    put(err, b": ");
}

// The byte, or a question mark for one that is not printed.
#[tactic(auto, unfolding(crate::specs::Words::shown, crate::specs::Choices::choose))]
fn shown(byte: u8) -> u8
    ensures { result ≡ S.shown byte }
{
    match byte {
        b' '..=b'~' => byte,
        _ => b'?',
    }
}

// Shows the text and, below it, a caret under a place. The bytes are changed where they stand and written at once: a text may have 65,536 of
// them, and no memory beside it is as long.
fn point_at(err: &impl Print, text: &mut [u8], at: usize)
    requires { at ≤ length text.old }
    ensures { length text.new ≡ length text.old }
{
    for byte in text.iter_mut() {
        *byte = shown(*byte);
    }
    put(err, text);
    put(err, b"\n");
    text[..at].fill(b' ');
    put(err, &text[..at]);
    put(err, b"^ ");
}

// Tells why the text is refused. Its bytes are then used up. But for those of the first three there is no refusal: the buffer that the program
// lends is as long as the longest policy.
pub fn refused(err: &impl Print, text: &mut [u8], propositions: usize, refusal: Refusal) {
    let at = refusal.place().min(text.len());
    match refusal {
        Refusal::RuleSyntax(_) => {
            let reason = reason_at(text, at);
            point_at(err, text, at);
            put_refusal(err, refusal);
            put(err, reason.words());
            put(err, b"\n");
        }
        Refusal::RuleLimit(_) => {
            let limit = limit_at(text, at);
            point_at(err, text, at);
            put_refusal(err, refusal);
            limit.tell(err, propositions, &text[at..]);
            put(err, b"\n");
        }
        Refusal::BadHeading(_) => {
            put_refusal(err, refusal);
            put(err, b"marks 1 to 32, stations 1 to 16, minutes 1 to 1024\n");
        }
        _ => {
            put_refusal(err, refusal);
            put(err, b"refused\n");
        }
    }
}
