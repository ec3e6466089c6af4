#![tactic(auto)]

// Rows of cells: definitions and laws only.
