#![tactic(auto)]

// The binary digits of a number: definitions and laws only.
