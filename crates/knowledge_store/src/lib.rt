// The knowledge (01: the record): a fresh one, whether it is sound, whether it admits a message, what it holds after, and its time points.
#![tactic(auto)]

ghost use Rattle.std.specs.Prelude.{◌≡◌, ℕ, suc, ◌+◌, ◌-◌, ◌*◌, ◌%◌, ◌^◌, ◌≤◌, ◌<◌, min, true, false, not, cond, ◌&&◌, eqb, length, get_or, set, replicate};
ghost use Rattle.std.specs.Int.Bits.{bit_or};
ghost use Rattle.kleene.specs.Truth.{unknown, true3, false3, code_of, value_of, or3};
ghost use Rattle.rows.specs.Grid.{table};
ghost use Rattle.rows.specs.Over.{Over};
ghost use Rattle.mtl.specs.Algebra.{two, all};
ghost use Rattle.message.specs.Fixes.{Fits};
ghost use Rattle.knowledge.specs.Knowledge.{most_minutes, none, Steady, says, word_sound, words_agree};
ghost use Rattle.knowledge.specs.Knowledge.{Sized, Sound, sound, admits, stored};
ghost use Rattle.knowledge.specs.Laws.{Limits};
ghost use Rattle.knowledge.specs.Run.{cell, held, told, Codes, joined, may, may_observe, SteadyRuns, PointRow};
ghost use Rattle.knowledge.specs.Outwards.{full_gap};

use counter_runs::{are_steady, is_full, may_store, search_outwards};
use knowledge::Search;
use message::{Event, Message};
use policy::{MOST_MINUTES, Sizes};

// What is told of the one minute between two neighbouring known places, joined to its code: quiet leaves it as it is, and else it is busy.
fn merge_step(x: u8, level: bool) -> u8
    requires { x < 3 }
    ensures { result ≡ code_of (or3 (value_of x) (cond level false3 true3)) }
{
    if level { x } else { kleene::TRUE }
}

// What a longer gap that is not quiet tells of a minute, joined to its code: if the gap is full the minute is busy, and else it is so only if it was.
fn merge_wide(x: u8, full: bool) -> u8
    ensures { result ≡ code_of (or3 (value_of x) (cond full true3 unknown)) }
{
    if (x != kleene::TRUE) & !full {
        return kleene::UNKNOWN;
    }
    kleene::TRUE
}

// Joins the cells from lo up to hi with what such a gap tells of each of them.
fn join(row: &mut [u8; MOST_MINUTES], lo: usize, hi: usize, full: bool)
    requires { (lo ≤ hi) × (hi ≤ most_minutes) × (length row.old ≡ most_minutes) }
    ensures { Over (joined row.old (λ _. cond full true3 unknown)) lo hi row.old row.new }
{
    for i in lo..hi {
        row[i] = merge_wide(row[i], full);
    }
}

// Joins the cells of the gap that starts at a minute, as far as there are minutes, with what the search from there tells of each of them. Most
// gaps of a full record are one minute long and need no loop; such a minute is busy if it is not quiet. A quiet gap leaves all cells as they are.
fn join_gap(row: &mut [u8; MOST_MINUTES], minute: usize, found: Search, minutes: usize)
    requires { (minute < found.after)
        × (found.before ≤ found.after)
        × (found.after ≤ suc most_minutes)
        × (minute < minutes)
        × (minutes ≤ most_minutes)
        × (length row.old ≡ most_minutes)
        × Codes row.old
        × (found.after ≡ suc minute → full_gap found ≡ not found.level)
        × (found.level ≡ true → full_gap found ≡ false) }
    ensures { Over (joined row.old (λ _. says (full_gap found) found.level)) minute (min found.after minutes)
        row.old row.new }
{
    let last = found.after - 1;
    if minute == last {
        row[minute] = merge_step(row[minute], found.level);
        return;
    }
    if found.level {
        return;
    }
    join(row, minute, found.after.min(minutes), is_full(found));
}

// Joins a row with what the run tells of each minute: one search for each gap, from its first minute, so that no place is read more than
// twice. All minutes of a gap have one answer. How far a turn goes is what its search finds, so no counted range fits.
fn join_run(row: &mut [u8; MOST_MINUTES], run: &[u16])
    requires { (0 < length run.now)
        × (length run.now ≤ suc most_minutes)
        × Steady (cell run.now) (length run.now)
        × (length row.old ≡ most_minutes)
        × Codes row.old }
    ensures { (m : ℕ) → suc m ≡ length run.now
        → Over (joined row.old (told (cell run.now) m)) 0 m row.old row.new }
{
    let minutes = run.len() - 1;
    let mut minute: usize = 0;
    while minute < minutes {
        let found = search_outwards(run, minute);
        join_gap(row, minute, found, minutes);
        minute = found.after;
    }
}

// A minute's two words of facts: no value bit without its proposition, and none from the limit on.
fn is_word_sound(known: u32, values: u32, limit: usize) -> bool
    ensures { (p : ℕ) → limit ≡ 2 ^ p → result ≡ word_sound p known values }
{
    known | values == known && (known as usize) < limit
}

// Are the facts of every minute sound?
fn are_facts_sound(facts: &[u32], propositions: usize, minutes: usize) -> bool
    requires { (propositions ≤ 32) × (length facts.now ≡ 2 * minutes) }
    ensures { result ≡ all two 0 minutes
        (λ t. word_sound propositions (get_or facts.now (2 * t) 0) (get_or facts.now (2 * t + 1) 0)) }
{
    let limit = 1usize << propositions;
    facts
        .chunks_exact(2)
        .all(|words| is_word_sound(words[0], words[1], limit))
}

// Is the knowledge sound (01: the record is sound)? Its two parts come here and below as they are lent: a struct of `&mut` that is handed on whole
// leaves its caller without what became of them.
pub fn is_sound(sizes: Sizes, numbers: &[u16], facts: &[u32]) -> bool
    requires { Limits sizes × Sized sizes (held numbers.now facts.now) }
    ensures { result ≡ sound sizes (held numbers.now facts.now) }
{
    are_steady(numbers, sizes.components, sizes.minutes)
        && are_facts_sound(facts, sizes.propositions, sizes.minutes)
}

// No named proposition is known with another value.
fn do_words_agree(known: u32, old: u32, named: u32, values: u32) -> bool
    ensures { result ≡ words_agree known old named values }
{
    known & named & (old ^ values) == 0
}

// May an observation's two numbers be stored in the run? Each is tried by itself, and that decides both.
fn may_observe(run: &[u16], minute: usize, number: u16) -> bool
    requires { (length run.now ≤ suc most_minutes)
        × Steady (cell run.now) (length run.now)
        × (suc minute < length run.now)
        × (1 ≤ number) }
    ensures { result ≡ may_observe (cell run.now) (length run.now) minute number }
{
    may_store(run, minute + 1, number) && may_store(run, minute, number - 1)
}

// Does an observation go with its component's run and with its minute's facts?
fn admits_observation(
    run: &[u16],
    facts: &[u32],
    minute: usize,
    number: u16,
    named: u32,
    values: u32,
) -> bool
    requires { (length run.now ≤ suc most_minutes)
        × Steady (cell run.now) (length run.now)
        × (suc minute < length run.now)
        × (1 ≤ number)
        × (2 * minute + 1 < length facts.now) }
    ensures { result
        ≡ (words_agree (get_or facts.now (2 * minute) 0) (get_or facts.now (2 * minute + 1) 0) named values
        && may_observe (cell run.now) (length run.now) minute number) }
{
    do_words_agree(facts[2 * minute], facts[2 * minute + 1], named, values)
        && may_observe(run, minute, number)
}

// Does the message go with the knowledge, or is it a conflict (01: clash)?
pub fn admits_message(sizes: Sizes, numbers: &[u16], facts: &[u32], message: Message) -> bool
    requires { Limits sizes
        × Sized sizes (held numbers.now facts.now)
        × Sound sizes (held numbers.now facts.now)
        × Fits sizes message }
    ensures { result ≡ admits sizes (held numbers.now facts.now) message }
{
    let at = message.component * (sizes.minutes + 1);
    let run = &numbers[at..at + (sizes.minutes + 1)];
    match message.event {
        Event::Observation {
            minute,
            number,
            named,
            values,
        } => admits_observation(run, facts, minute as usize, number, named, values),
        Event::Alive { minute, number } => may_store(run, minute as usize, number),
    }
}

// Stores an observation's two numbers.
fn store_numbers(numbers: &mut [u16], place: usize, number: u16)
    requires { (suc place < length numbers.old) × (1 ≤ number) }
    ensures { numbers.new ≡ set (set numbers.old (suc place) number) place (number - 1) }
{
    numbers[place + 1] = number;
    numbers[place] = number - 1;
}

// Stores what an observation says of its minute's propositions.
fn store_facts(facts: &mut [u32], place: usize, named: u32, values: u32)
    requires { place + 1 < length facts.old }
    ensures { facts.new ≡ set
        (set facts.old place (bit_or (get_or facts.old place 0) named))
        (place + 1) (bit_or (get_or facts.old (place + 1) 0) values) }
{
    facts[place] |= named;
    facts[place + 1] |= values;
}

// A fresh sequence number: at the first place of a run it is 0, and else not known.
fn fresh_number(place: usize) -> u16
    ensures { result ≡ cond (eqb place 0) 0 none }
{
    if place == 0 { 0 } else { knowledge::NONE }
}

// Numbers of which only the first of each run is known, as 0.
pub fn clear_numbers(numbers: &mut [u16], minutes: usize)
    requires { minutes ≤ 1024 }
    ensures { numbers.new
        ≡ table (length numbers.old) (λ i. cond (eqb (i % (minutes + 1)) 0) 0 none) }
{
    for (i, number) in numbers.iter_mut().enumerate() {
        *number = fresh_number(i % (minutes + 1));
    }
}

// Facts of which none is known.
pub fn clear_facts(facts: &mut [u32])
    ensures { facts.new ≡ replicate (length facts.old) 0 }
{
    facts.fill(0);
}

// Stores what the message fixes, and nothing else.
pub fn store(sizes: Sizes, numbers: &mut [u16], facts: &mut [u32], message: Message)
    requires { Limits sizes × Sized sizes (held numbers.old facts.old) × Fits sizes message }
    ensures stores_numbers { numbers.new ≡ (stored sizes (held numbers.old facts.old) message).numbers }
    ensures stores_facts { facts.new ≡ (stored sizes (held numbers.old facts.old) message).facts }
{
    let at = message.component * (sizes.minutes + 1);
    match message.event {
        Event::Observation {
            minute,
            number,
            named,
            values,
        } => {
            let t = minute as usize;
            store_numbers(numbers, at + t, number);
            store_facts(facts, 2 * t, named, values);
        }
        Event::Alive { minute, number } => {
            numbers[at + minute as usize] = number;
        }
    }
}

// Which minutes are time points (01: busy, quiet or open), as truth codes; the cells past the last minute are 0.
pub fn point_row(sizes: Sizes, numbers: &[u16]) -> [u8; MOST_MINUTES]
    requires { (sizes.minutes ≤ most_minutes)
        × (length numbers.now ≡ sizes.components * suc sizes.minutes)
        × SteadyRuns sizes numbers.now }
    ensures { PointRow sizes numbers.now result }
{
    let mut row = [0u8; MOST_MINUTES];
    row[..sizes.minutes].fill(kleene::FALSE);
    for run in numbers.chunks_exact(sizes.minutes + 1) {
        join_run(&mut row, run);
    }
    row
}
