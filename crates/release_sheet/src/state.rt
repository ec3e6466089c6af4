// The state that the monitor works in: the largest buffers, of which a policy needs a part.
ghost use Rattle.std.specs.Prelude.{◌≡◌, ◌+◌, ◌*◌, ◌<◌, slice_index};
ghost use Rattle.monitor.specs.Lookup.{verdict_of};
ghost use Rattle.release_sheet.specs.Arrays.{Fits, Largest};

use crate::parts::Parts;
use monitor::{Buffers, Verdict};
use refusal::Refusal;

// A policy and what is known under it, in arrays of the sizes of the largest policy: 16 components of 1,025 numbers, two facts for each of 1,024
// minutes, 64 rows of the valuation and 8 of the verdicts, and the longest policy.
// Arrays of the largest sizes, of which parts are lent: the project names this form.
#[derive(Drop)]
pub struct State<'a> {
    policy: &'a [u8],
    parts: Parts,
    numbers: [u16; 16400],
    facts: [u32; 2048],
    valuation: [u8; 65536],
    verdicts: [u8; 8192],
    origin: [u8; 517],
    extent: u16,
}

impl<'a> State<'a> {
    // A state under a policy, of which it needs these parts, not yet opened: one that was opened and then handed out would stand on the stack twice.
    pub fn new(policy: &'a [u8], parts: Parts) -> State<'a> {
        State {
            policy,
            parts,
            numbers: [0; 16400],
            facts: [0; 2048],
            valuation: [0; 65536],
            verdicts: [0; 8192],
            origin: [0; 517],
            extent: 0,
        }
    }

    // Opens it afresh. Compiled apart, as main.rt says of others.
    #[inline(never)]
    pub fn open(&mut self) -> Result<(), Refusal> {
        monitor_calls::open(self.policy, self.buffers())
    }

    // The parts of the arrays that the policy needs.
    fn buffers(&mut self) -> Buffers<'_>
        ensures { Largest self.old.numbers self.old.facts self.old.valuation self.old.verdicts self.old.origin
            × Fits self.old.parts }
    {
        let State {
            parts,
            numbers,
            facts,
            valuation,
            verdicts,
            origin,
            extent,
            ..
        } = self;
        Buffers {
            numbers: &mut numbers[..parts.numbers],
            facts: &mut facts[..parts.facts],
            valuation: &mut valuation[..parts.valuation],
            verdicts: &mut verdicts[..parts.verdicts],
            origin,
            extent,
        }
    }

    // Offers a message; answers how many verdicts stand.
    pub fn receive(&mut self, message: &[u8]) -> Result<usize, Refusal> {
        monitor_calls::receive(self.policy, message, self.buffers())
    }

    pub fn minutes(&self) -> usize
        ensures { result ≡ self.now.parts.minutes }
    {
        self.parts.minutes
    }

    pub fn rules(&self) -> usize
        ensures { result ≡ self.now.parts.rules }
    {
        self.parts.rules
    }

    // The verdict on a rule at a minute.
    pub fn verdict(&self, rule: usize, minute: usize) -> Verdict
        requires { (rule < self.now.parts.rules) × (minute < self.now.parts.minutes) }
        ensures { result ≡ verdict_of (slice_index self.now.verdicts (rule * self.now.parts.minutes + minute)) }
    {
        Verdict::from(self.verdicts[rule * self.parts.minutes + minute])
    }
}
