// The parts of the largest buffers.
ghost use Rattle.std.specs.Prelude.{◌≡◌, ◌*◌, ◌≤◌};

use policy::Policy;
use refusal::Refusal;

// How much of each buffer a policy needs.
#[derive(Clone, Copy)]
pub struct Parts {
    pub numbers: usize,
    pub facts: usize,
    pub valuation: usize,
    pub verdicts: usize,
    pub minutes: usize,
    pub rules: usize,
    ghost numbers_fit: { numbers ≤ 16400 },
    ghost facts_fit: { facts ≤ 2048 },
    ghost valuation_fits: { valuation ≤ 65536 },
    ghost verdicts_fit: { rules * minutes ≤ 8192 },
    ghost laid: { verdicts ≡ rules * minutes },
}

impl Parts {
    // What a policy needs; nothing can be told of one that is refused. Compiled apart, as main.rt says of others.
    #[inline(never)]
    pub fn of(policy: &[u8]) -> Result<Parts, Refusal> {
        let Policy {
            sizes,
            count,
            rules,
            ..
        } = policy_codec::decode(policy)?;
        let minutes = sizes.minutes;
        Ok(Parts {
            numbers: sizes.components * (minutes + 1),
            facts: 2 * minutes,
            valuation: count * minutes,
            verdicts: rules * minutes,
            minutes,
            rules,
        })
    }
}
