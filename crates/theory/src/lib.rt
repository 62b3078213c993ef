// The mathematics of canons. This crate has no code: specs/ says what is right, proofs/ what follows from it.
#![tactic(auto)]
