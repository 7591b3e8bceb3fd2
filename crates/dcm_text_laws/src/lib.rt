//! What is promised of the characters of a dump and of a table: whatever the files are, they are valid UTF-8.
#![tactic(auto)]

pub mod laws;
