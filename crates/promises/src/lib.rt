// Theorems alone: what the definitions of the crates below promise. There is no code here.
#![tactic(auto)]
