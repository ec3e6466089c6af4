#![tactic(auto)]

// Tests and what they decide: definitions and laws only.
