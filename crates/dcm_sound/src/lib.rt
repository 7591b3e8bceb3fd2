//! What is promised of sound files, in the terms of whole data sets alone.
#![tactic(auto)]

pub mod laws;
