//! The book of small lemmas: facts of tests, choices, missing values, numbers and lists that proofs of several crates
//! cite. This crate has no code.
#![tactic(auto)]
