// Theorems over runs: what the pair named to be joined is good for (02, R-7). No code.
#![tactic(auto)]
