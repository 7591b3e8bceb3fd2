//! What is promised of an output that is read again, and of two runs beside each other.
#![tactic(auto)]

pub mod laws;
