// This crate has no code. specs/ says what document 01 says, and proofs/ what follows from that alone.
#![tactic(auto)]
