// What the grammar expects after the beginning of a text.
ghost use Rattle.std.specs.Prelude.{◌≡◌, ◌≤◌, length, take};
ghost use Rattle.compile_rule.specs.Begun as S;

// What comes next. Of a word it is the rest, of a number the first digit or a further one.
#[derive(Clone, Copy)]
pub enum Expected {
    Term,
    True,
    Not,
    // behind "not", a word between two terms, or an interval
    Space,
    Mark,
    // behind a term that no digit can go on with
    Ended,
    // a word between two terms
    Joint,
    Or,
    And,
    Since,
    Until,
    // behind "since" and "until"
    Bracket,
    Lower,
    Upper,
}

// How a text has begun. What is left of a word is how many of its bytes are to come. The levels are a 1 and, behind it, a digit in base 2 for
// each bracket that is open, the innermost last: 0 in its first term, 1 behind it. Brackets may nest to 32, so that they fit.
#[derive(Clone, Copy)]
pub struct Beginning {
    pub expected: Expected,
    pub left: u8,
    pub levels: u64,
}

// Far more levels than brackets may nest: what is above them is dropped, so that a further one fits.
const LEVELS: u64 = 4611686018427387904;

// Behind nothing.
const START: Beginning = Beginning {
    expected: Expected::Term,
    left: 0,
    levels: 1,
};

impl Beginning {
    // With the same levels, so many bytes of what is expected to come.
    fn expecting(self, expected: Expected, left: u8) -> Beginning
        ensures { result ≡ S.expecting expected left self.levels }
    {
        Beginning {
            expected,
            left,
            ..self
        }
    }

    // Behind the first byte of a term.
    #[tactic(auto, unfolding(crate::specs::Begun::begin_term, crate::specs::Choices::choose))]
    fn begin_term(self, byte: u8) -> Beginning
        ensures { result ≡ S.begin_term byte self.levels }
    {
        match byte {
            b't' => self.expecting(Expected::True, 3),
            b'n' => self.expecting(Expected::Not, 2),
            b'm' => self.expecting(Expected::Mark, 0),
            _ => Beginning {
                expected: Expected::Term,
                left: 0,
                levels: self.levels % LEVELS * 2,
            },
        }
    }

    // Behind the byte that follows a term.
    #[tactic(auto, unfolding(crate::specs::Begun::end_term, crate::specs::Choices::choose))]
    fn end_term(self, byte: u8) -> Beginning
        ensures { result ≡ S.end_term byte self.levels }
    {
        match byte {
            b')' => Beginning {
                expected: Expected::Ended,
                left: 0,
                levels: self.levels / 2,
            },
            _ => self.expecting(Expected::Joint, 0),
        }
    }

    // Behind the first byte of a word between two terms.
    #[tactic(auto, unfolding(crate::specs::Begun::begin_joint, crate::specs::Choices::choose))]
    fn begin_joint(self, byte: u8) -> Beginning
        ensures { result ≡ S.begin_joint byte self.levels }
    {
        let second = Beginning {
            levels: self.levels / 2 * 2 + 1,
            ..self
        };
        match byte {
            b'o' => second.expecting(Expected::Or, 1),
            b'a' => second.expecting(Expected::And, 2),
            b's' => second.expecting(Expected::Since, 4),
            _ => second.expecting(Expected::Until, 4),
        }
    }

    // Behind one byte more of a word, after which something else is expected.
    #[tactic(auto, unfolding(crate::specs::Begun::go_on, crate::specs::Choices::choose))]
    fn go_on(self, next: Expected) -> Beginning
        ensures { result ≡ S.go_on self next }
    {
        if self.left > 1 {
            self.expecting(self.expected, self.left - 1)
        } else {
            self.expecting(next, 0)
        }
    }

    // Behind a digit of a mark's number, or behind the byte that follows the mark.
    #[tactic(auto, unfolding(crate::specs::Begun::go_on_mark, crate::specs::Choices::choose, crate::specs::Choices::digit))]
    fn go_on_mark(self, byte: u8) -> Beginning
        ensures { result ≡ S.go_on_mark self byte }
    {
        if byte.is_ascii_digit() {
            self
        } else {
            self.end_term(byte)
        }
    }

    // Behind a digit of a bound, or behind the byte that ends it.
    #[tactic(auto, unfolding(crate::specs::Begun::go_on_bound, crate::specs::Choices::choose))]
    fn go_on_bound(self, byte: u8, end: u8, next: Expected) -> Beginning
        ensures { result ≡ S.go_on_bound self byte end next }
    {
        if byte == end {
            self.expecting(next, 0)
        } else {
            self
        }
    }

    // Behind one byte more of a text of the grammar.
    #[tactic(auto, unfolding(crate::specs::Begun::step))]
    fn step(self, byte: u8) -> Beginning
        ensures { result ≡ S.step self byte }
    {
        match self.expected {
            Expected::Term => self.begin_term(byte),
            Expected::True => self.go_on(Expected::Ended),
            Expected::Not | Expected::Or | Expected::And => self.go_on(Expected::Space),
            Expected::Since | Expected::Until => self.go_on(Expected::Bracket),
            Expected::Space => self.expecting(Expected::Term, 0),
            Expected::Mark => self.go_on_mark(byte),
            Expected::Ended => self.end_term(byte),
            Expected::Joint => self.begin_joint(byte),
            Expected::Bracket => self.expecting(Expected::Lower, 0),
            Expected::Lower => self.go_on_bound(byte, b',', Expected::Upper),
            Expected::Upper => self.go_on_bound(byte, b']', Expected::Space),
        }
    }
}

// How a text of the grammar has begun before a place.
#[tactic(auto, using(crate::proofs::Choices::folded), unfolding(crate::specs::Begun::begun))]
pub fn scan(text: &[u8], place: usize) -> Beginning
    requires { place ≤ length text.now }
    ensures { result ≡ S.begun (take place text.now) }
{
    text[..place]
        .iter()
        .copied()
        .fold(START, |b, byte| b.step(byte))
}
