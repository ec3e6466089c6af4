#![tactic(auto)]

// The grammar of rules typed as text (02, request 7): what a term looks like, which texts are refused and where, and what a term means. All of it is in specs/.
