// What the calls check first: the policy, the lent buffers and the record.
#![tactic(auto)]

ghost use Rattle.std.specs.Prelude.{◌≡◌};
ghost use Rattle.policy.specs.Proper.{Proper};
ghost use Rattle.origin.specs.Origin.{stamped};
ghost use Rattle.monitor.specs.State.{lent, sizes_fit, size_checks, record_checks};
ghost use Rattle.monitor.specs.Checked.{checked_policy};

use monitor::Lengths;
use policy::Policy;
use refusal::Refusal;

// Are the lent buffers of the policy's sizes?
fn fit(policy: Policy, lengths: Lengths) -> bool
    requires { Proper policy }
    ensures { result ≡ sizes_fit policy lengths }
{
    let sizes = policy.sizes;
    let minutes = sizes.minutes;
    if lengths.numbers != sizes.components * (minutes + 1) {
        return false;
    }
    if lengths.facts != 2 * minutes {
        return false;
    }
    if lengths.valuation != policy.count * minutes {
        return false;
    }
    if lengths.verdicts != policy.rules * minutes {
        return false;
    }
    lengths.origin == origin::LENGTH
}

// Reads the policy and checks the sizes of the lent buffers: 1 to 5, with which every call that is lent a state starts.
pub fn check_sizes(policy: &[u8], lengths: Lengths) -> Result<Policy, Refusal>
    ensures { result ≡ checked_policy (size_checks policy.now lengths) policy.now }
{
    let p = policy_codec::decode(policy)?;
    if !fit(p, lengths) {
        return Err(Refusal::BufferSize);
    }
    Ok(p)
}

// And then that the lent record was opened under this policy and is sound: 1 to 5, 12 and 6, with which every call that is lent a record starts.
// The buffers come one by one: where a call reads them through `&Buffers`, it is not proved what it leaves behind.
pub fn check_record(
    policy: &[u8],
    numbers: &[u16],
    facts: &[u32],
    valuation: &[u8],
    verdicts: &[u8],
    origin: &[u8],
    extent: u16,
) -> Result<Policy, Refusal>
    ensures { result
        ≡ checked_policy
        (record_checks policy.now (lent numbers.now facts.now valuation.now verdicts.now (stamped origin.now extent)))
        policy.now }
{
    let lengths = Lengths {
        numbers: numbers.len(),
        facts: facts.len(),
        valuation: valuation.len(),
        verdicts: verdicts.len(),
        origin: origin.len(),
    };
    // Made first, and asked for in its turn: the loops over the record then keep their registers.
    let own = origin::is_of(policy, origin, extent);
    let p = check_sizes(policy, lengths)?;
    if !own {
        return Err(Refusal::OtherPolicy);
    }
    if !knowledge_store::is_sound(p.sizes, numbers, facts) {
        return Err(Refusal::CorruptKnowledge);
    }
    Ok(p)
}
