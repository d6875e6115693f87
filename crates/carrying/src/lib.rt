// The theorem of the way over to the second edition (02, R-13). No code.
#![tactic(auto)]
