#![tactic(auto)]

// That the calls of monitor meet what is demanded of them: proofs, and no code. What is demanded stands in crates/monitor/specs/Demands.antt.
