//! What is promised of a file that is built line by line, and that the dump of a file builds it again.
#![tactic(auto)]

pub mod laws;
