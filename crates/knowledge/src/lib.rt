// The knowledge (01: the record): known sequence numbers and facts. `counter_runs` and `knowledge_store` work on it.
#![tactic(auto)]

// A sequence number that is not known: a number and no None, since so the lent record holds it.
pub const NONE: u16 = 65535;

// What reading on from a place, one place after another, found: the place of the first known number and the number itself, or where the
// reading ended and NONE, and how many places were read. A number and no Option: the definitions of a search (Forth,
// Back) have it as the record does.
#[derive(Clone, Copy)]
pub struct Found {
    pub place: usize,
    pub number: u16,
    pub reads: usize,
}

// What a search outwards from a minute finds: whether the minute is quiet for the component (01), the places of the nearest known number
// before the minute and of the nearest at or after it, these two numbers, and how many places it read. With none before it the first place is
// the run's start, with none at or after it the second is the run's length, and the number is NONE. Whether it is quiet is a flag, for the places count
// either way.
#[derive(Clone, Copy)]
pub struct Search {
    pub level: bool,
    pub before: usize,
    pub after: usize,
    pub earlier: u16,
    pub later: u16,
    pub reads: usize,
}
