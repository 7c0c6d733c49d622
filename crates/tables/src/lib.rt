// This crate has no code: it runs the definitions of `meaning` on tables of images with known answers.
#![tactic(auto)]
