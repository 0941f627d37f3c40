// Theorems about the definitions of the crates below; there is no code here.
#![tactic(auto)]
