// Reading and writing undo each other. This crate has no code: proofs/ has what follows from the two promises.
#![tactic(auto)]
