//! What is promised of a run over a tree, over a file system whose calls may each fail.
#![tactic(auto)]

pub mod ideal;
pub mod laws;
