//! What is promised of a data set out of which identity was taken, once it is written and read again.
#![tactic(auto)]

pub mod laws;
