// The call that looks up a verdict (01: a look).
#![tactic(auto)]

ghost use Rattle.std.specs.Prelude.{◌≡◌};
ghost use Rattle.policy.specs.Proper.{Proper};
ghost use Rattle.monitor.specs.Lookup.{look_at, lookup_of};

use monitor::Verdict;
use policy::Policy;
use refusal::Refusal;

// The verdict of a rule at a minute, under a policy that was read.
fn verdict_at(
    policy: Policy,
    verdicts: &[u8],
    rule: usize,
    minute: usize,
) -> Result<Verdict, Refusal>
    requires { Proper policy }
    ensures { result ≡ look_at policy verdicts.now rule minute }
{
    let rules = policy.rules;
    let minutes = policy.sizes.minutes;
    if verdicts.len() != rules * minutes {
        return Err(Refusal::BufferSize);
    }
    if rules <= rule {
        return Err(Refusal::OutOfRange);
    }
    if minutes <= minute {
        return Err(Refusal::OutOfRange);
    }
    let code = verdicts[rule * minutes + minute];
    Ok(Verdict::from(code))
}

// The verdict of a rule at a minute (01: a look).
pub fn lookup(
    policy: &[u8],
    verdicts: &[u8],
    rule: usize,
    minute: usize,
) -> Result<Verdict, Refusal>
    ensures { result ≡ lookup_of policy.now verdicts.now rule minute }
{
    let p = policy_codec::decode(policy)?;
    verdict_at(p, verdicts, rule, minute)
}
