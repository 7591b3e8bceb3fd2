//! What is promised of conversions one after another, and of one file that is read by two dictionaries.
#![tactic(auto)]

pub mod laws;
