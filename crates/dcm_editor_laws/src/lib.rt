//! What is promised of what edits leave of a data set, once it is written and read again.
#![tactic(auto)]

pub mod laws;
