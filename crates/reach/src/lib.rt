// The reach of a policy's rules (02, request 8): how many minutes past a minute the verdict there may rest on. So a trace that is known whole leaves no
// blank at a time point from which the reach stays below its end.
#![tactic(auto)]

ghost use Rattle.std.specs.Prelude.{◌≡◌, ◌++◌, ℕ, ◌≤◌, ◌<◌, max, length, get_or, drop};
ghost use Rattle.refusal.specs.Writes.{Output};
ghost use Rattle.policy.specs.Proper.{Proper, formula_at};
ghost use Rattle.reach.specs.Reach.{reach_from, reach};
ghost use Rattle.reach.specs.Lines.{Workable};
ghost use Rattle.reach.specs.Reaches.{reaches_of, reaches_under, rule_reaches};

use mtl::Formula;
use policy::{MOST_LINES, Policy};
use refusal::Refusal;

// The reach of line i.
fn reach_at(reaches: &[u16; MOST_LINES], i: u8) -> u16
    requires { i < 64 }
    ensures { result ≡ get_or reaches.now i 0 }
{
    reaches[i as usize]
}

// The larger of the reaches of lines i and j.
fn larger_at(reaches: &[u16; MOST_LINES], i: u8, j: u8) -> u16
    requires { (i < 64) × (j < 64) }
    ensures { result ≡ max (get_or reaches.now i 0) (get_or reaches.now j 0) }
{
    reach_at(reaches, i).max(reach_at(reaches, j))
}

// The reach of a line, from the reaches of those before it: its operands', and upper more where it looks ahead.
fn reach_from(reaches: &[u16; MOST_LINES], formula: Formula) -> u16
    requires { Workable reaches.now formula }
    ensures { result ≡ reach_from (λ i. get_or reaches.now i 0) formula }
{
    match formula {
        Formula::True | Formula::Proposition(_) => 0,
        Formula::Not(i) => reach_at(reaches, i),
        Formula::Or(i, j) | Formula::And(i, j) | Formula::Implies(i, j) => larger_at(reaches, i, j),
        Formula::Since { left, right, .. } => larger_at(reaches, left, right),
        Formula::Until {
            left,
            right,
            upper,
            ..
        } => larger_at(reaches, left, right) + upper,
        Formula::Once { operand, .. } | Formula::Historically { operand, .. } => {
            reach_at(reaches, operand)
        }
        Formula::Eventually { operand, upper, .. } | Formula::Always { operand, upper, .. } => {
            reach_at(reaches, operand) + upper
        }
    }
}

// The reach of each line.
fn line_reaches(policy: Policy) -> [u16; MOST_LINES]
    requires { Proper policy }
    ensures { (k : ℕ) → k < policy.count → get_or result k 0 ≡ reach (formula_at policy) k }
{
    let mut reaches = [0u16; MOST_LINES];
    for i in 0..policy.count {
        reaches[i] = reach_from(&reaches, policy.subformulas[i].formula);
    }
    reaches
}

// Writes the reach of each rule, from the reaches of the lines. The rest of a longer buffer stays as it was. `at` is counted by hand: it moves on at a
// rule only.
fn put_reaches(policy: Policy, reaches: &[u16; MOST_LINES], out: &mut [u16])
    requires { (Proper policy) × (policy.rules ≤ length out.old)
        × ((k : ℕ) → k < policy.count → get_or reaches.now k 0 ≡ reach (formula_at policy) k) }
    ensures { out.new ≡ reaches_of policy ++ drop policy.rules out.old }
{
    let mut at: usize = 0;
    for i in 0..policy.count {
        if policy.subformulas[i].rule {
            out[at] = reaches[i];
            at += 1;
        }
    }
}

// The same for a policy that was read, where there is room for them.
#[tactic(auto, using(crate::proofs::Answering::short_refused, crate::proofs::Answering::all_written))]
fn reaches_under(policy: Policy, out: &mut [u16]) -> Result<usize, Refusal>
    requires { Proper policy }
    ensures { ◌≡◌ {A = Output} (record { answer = result; out = out.new }) (reaches_under policy out.old) }
{
    let rules = policy.rules;
    if out.len() < rules {
        return Err(Refusal::ShortBuffer);
    }
    let reaches = line_reaches(policy);
    put_reaches(policy, &reaches, out);
    Ok(rules)
}

// Writes the reach of each rule of an encoded policy, and gives how many there are; or says why it is refused, and then nothing is written.
pub fn rule_reaches(policy: &[u8], out: &mut [u16]) -> Result<usize, Refusal>
    ensures { ◌≡◌ {A = Output} (record { answer = result; out = out.new }) (rule_reaches policy.now out.old) }
{
    let p = policy_codec::decode(policy)?;
    reaches_under(p, out)
}
