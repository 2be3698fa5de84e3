// Theorems about the definitions of the crate model, and no code. proofs/Demands.antt is the page to read.

#![tactic(auto)]
