// A component's run of sequence numbers (01: counts): the nearest known ones, whether it is steady, and which numbers may be stored.
#![tactic(auto)]

ghost use Rattle.std.specs.Prelude.{◌≡◌, ℕ, suc, ◌+◌, ◌-◌, ◌*◌, ◌≤◌, ◌<◌, true, false, not, length};
ghost use Rattle.mtl.specs.Algebra.{two, all};
ghost use Rattle.knowledge.specs.Knowledge.{most_minutes, run_of, Steady, follow, steady};
ghost use Rattle.knowledge.specs.Knowledge.{stored};
ghost use Rattle.knowledge.specs.Run.{cell, may, Forth, Back};
ghost use Rattle.knowledge.specs.Outwards.{full_gap, Outwards};

use knowledge::{Found, NONE, Search};

// Reads forth from `from` to the first known number, or to the run's end. It reads two places a turn, and so counts them by hand: a turn of one, as
// of a `for`, is so short that it takes one cycle or two, by where it is linked.
fn skip_unknown(run: &[u16], from: usize) -> Found
    requires { from ≤ length run.now }
    ensures { Forth (cell run.now) (length run.now) from result }
{
    let left = run.len() - from;
    let mut reads: usize = 0;
    while reads + 1 < left {
        let i = from + reads;
        let first = run[i];
        reads += 1;
        if first < NONE {
            return Found {
                place: i,
                number: first,
                reads,
            };
        }
        let j = from + reads;
        let second = run[j];
        reads += 1;
        if second < NONE {
            return Found {
                place: j,
                number: second,
                reads,
            };
        }
    }
    if reads < left {
        let i = from + reads;
        let last = run[i];
        reads += 1;
        if last < NONE {
            return Found {
                place: i,
                number: last,
                reads,
            };
        }
    }
    Found {
        place: run.len(),
        number: NONE,
        reads,
    }
}

// The same: the first place by itself, since in a bunch it is known and no loop is needed, and then the rest.
fn next_known(run: &[u16], from: usize) -> Found
    requires { from ≤ length run.now }
    ensures { Forth (cell run.now) (length run.now) from result }
{
    if from == run.len() {
        return Found {
            place: from,
            number: NONE,
            reads: 0,
        };
    }
    let w = run[from];
    if w < NONE {
        return Found {
            place: from,
            number: w,
            reads: 1,
        };
    }
    let rest = skip_unknown(run, from + 1);
    let reads = 1 + rest.reads;
    Found {
        place: rest.place,
        number: rest.number,
        reads,
    }
}

// Reads back from the place before `place` to the last known number, or to the run's start.
fn previous_known(run: &[u16], place: usize) -> Found
    requires { (0 < place) × (place ≤ length run.now) }
    ensures { Back (cell run.now) place result }
{
    let mut reads: usize = 0;
    for i in (0..place).rev() {
        let v = run[i];
        reads += 1;
        if v < NONE {
            return Found {
                place: i,
                number: v,
                reads,
            };
        }
    }
    Found {
        place: 0,
        number: NONE,
        reads,
    }
}

// Searches outwards from the minute. Each place is read once.
pub fn search_outwards(run: &[u16], minute: usize) -> Search
    requires { minute < length run.now }
    ensures { (m : ℕ) → suc m ≡ length run.now → Outwards (cell run.now) m minute result }
{
    let from = minute + 1;
    let back = previous_known(run, from);
    let forth = next_known(run, from);
    let v = back.number;
    let w = forth.number;
    let behind = back.reads;
    let reads = behind + forth.reads;
    Search {
        level: (v == w) & (v < NONE),
        before: back.place,
        after: forth.place,
        earlier: v,
        later: w,
        reads,
    }
}

// Is the minute busy by the component (02, request 4: a full run of counts)? The two numbers then differ by as much as their places.
pub fn is_full(found: Search) -> bool
    requires { (found.before ≤ found.after) × (found.after ≤ suc most_minutes) }
    ensures { result ≡ full_gap found }
{
    let places = found.after - found.before;
    (found.later as usize == found.earlier as usize + places) & (found.later < NONE)
}

// A number v, and a number w that stands d places later.
fn follows(v: u16, w: u16, d: usize) -> bool
    requires { d < 65536 }
    ensures { result ≡ follow v w d }
{
    v <= w && w as usize <= v as usize + d
}

// Is the run steady? What holds of neighbours among its known places holds of any two: p is a known place, or the run's end, and v its number. It
// goes from known place to known place: a loop over all places, with a jump for those known, cost 19 cycles more for each, by where it was linked.
fn is_steady(run: &[u16]) -> bool
    requires { (0 < length run.now) × (length run.now ≤ suc most_minutes) }
    ensures { result ≡ steady (cell run.now) (length run.now) }
{
    if run[0] != 0 {
        return false;
    }
    let mut p: usize = 0;
    let mut v: u16 = 0;
    while p + 1 < run.len() {
        let found = next_known(run, p + 1);
        let q = found.place;
        let w = found.number;
        if q < run.len() {
            if !follows(v, w, q - p) {
                return false;
            }
        }
        p = q;
        v = w;
    }
    true
}

// May the number v be stored at the place? That the run is steady stands in a clause: `is_steady` and the searches read runs of which it isn't known.
pub fn may_store(run: &[u16], place: usize, v: u16) -> bool
    requires { (length run.now ≤ suc most_minutes)
        × Steady (cell run.now) (length run.now)
        × (place < length run.now) }
    ensures { result ≡ may (cell run.now) (length run.now) place v }
{
    if v == NONE {
        return false;
    }
    let here = run[place];
    if here < NONE {
        return here == v;
    }
    let p = previous_known(run, place);
    if !follows(p.number, v, place - p.place) {
        return false;
    }
    let q = next_known(run, place + 1);
    if q.place < run.len() {
        return follows(v, q.number, q.place - place);
    }
    true
}

// Is every component's run steady? The chunks are as many as the components, so that their number stands in the contract alone.
pub fn are_steady(numbers: &[u16], components: usize, minutes: usize) -> bool
    requires { (minutes ≤ most_minutes) × (length numbers.now ≡ components * suc minutes) }
    ensures { result ≡ all two 0 components (λ c. steady (run_of numbers.now minutes c) (suc minutes)) }
{
    numbers.chunks_exact(minutes + 1).all(is_steady)
}
