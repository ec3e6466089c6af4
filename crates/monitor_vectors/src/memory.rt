// The arrays that a monitor is lent, and its state as text.
ghost use Rattle.std.specs.Prelude.{◌≤◌, length};

use hex_lines::spaced;
use monitor::{Buffers, PacketAnswer};
use refusal::Refusal;
use std::fmt;

// How many bytes the origin has.
pub const ROOM: usize = 517;

// How many elements of each array are lent.
#[derive(Clone, Copy, PartialEq, Eq)]
pub struct Parts {
    pub numbers: usize,
    pub facts: usize,
    pub valuation: usize,
    pub verdicts: usize,
    pub origin: usize,
    ghost fits: { (numbers ≤ 8) × (facts ≤ 16) × (valuation ≤ 16) × (verdicts ≤ 8) × (origin ≤ 517) },
}

// The parts that a policy of one component, four minutes and one rule needs, by its lines.
pub fn parts_of(lines: usize) -> Parts
    requires { lines ≤ 4 }
{
    Parts {
        numbers: 5,
        facts: 8,
        valuation: lines * 4,
        verdicts: 4,
        origin: ROOM,
    }
}

#[derive(Clone, Copy, PartialEq, Eq)]
pub struct Memory {
    pub parts: Parts,
    pub numbers: [u16; 8],
    pub facts: [u32; 16],
    pub valuation: [u8; 16],
    pub verdicts: [u8; 8],
    pub origin: [u8; ROOM],
    pub extent: u16,
}

impl Memory {
    // Arrays that hold 9 everywhere: what they held before an opening doesn't matter.
    pub fn new(parts: Parts) -> Memory {
        Memory {
            parts,
            numbers: [9; 8],
            facts: [9; 16],
            valuation: [9; 16],
            verdicts: [9; 8],
            origin: [9; ROOM],
            extent: 9,
        }
    }

    // The parts that are lent.
    fn buffers(&mut self) -> Buffers<'_> {
        let Memory {
            parts,
            numbers,
            facts,
            valuation,
            verdicts,
            origin,
            extent,
        } = self;
        Buffers {
            numbers: &mut numbers[..parts.numbers],
            facts: &mut facts[..parts.facts],
            valuation: &mut valuation[..parts.valuation],
            verdicts: &mut verdicts[..parts.verdicts],
            origin: &mut origin[..parts.origin],
            extent,
        }
    }

    pub fn open(&mut self, policy: &[u8]) -> Result<(), Refusal> {
        monitor_calls::open(policy, self.buffers())
    }

    pub fn receive(&mut self, policy: &[u8], message: &[u8]) -> Result<usize, Refusal> {
        monitor_calls::receive(policy, message, self.buffers())
    }

    pub fn receive_packet(&mut self, policy: &[u8], packet: &[u8]) -> PacketAnswer {
        monitor_calls::receive_packet(policy, packet, self.buffers())
    }
}

// A line for each array: the sequence numbers, 65535 for one that is not known; for each minute the known propositions and their values; the two
// sheets; and the length of the policy that the state was opened under, with the origin's bytes up to the last that is not 0.
impl fmt::Display for Memory {
    fn fmt<W: fmt::Write>(&self, f: &mut fmt::Formatter<W>) -> fmt::Result {
        let parts = self.parts;
        let origin = &self.origin[..parts.origin];
        let used = match origin.iter().rposition(|byte| *byte != 0) {
            Some(last) => &origin[..=last],
            None => &[],
        };
        writeln!(f, "  numbers{}", spaced(&self.numbers[..parts.numbers]))?;
        writeln!(f, "  facts{}", spaced(&self.facts[..parts.facts]))?;
        writeln!(
            f,
            "  valuation{}",
            spaced(&self.valuation[..parts.valuation])
        )?;
        writeln!(f, "  verdicts{}", spaced(&self.verdicts[..parts.verdicts]))?;
        writeln!(f, "  origin {}:{}", self.extent, spaced(used))
    }
}
