#![tactic(auto)]

// The laws of Bool: laws only.
