#![tactic(auto)]

// Complete knowledge leaves no blanks (02, request 8). No code: when a record is complete, and that its sheet is then full, in specs/.
