//! Laws of the definitions of dcm_base alone: what a full dump says is what it shows, what atoms show, and keywords.
//! `proofs/WorkedRows` has the definitions worked out on examples.
#![tactic(auto)]

pub mod laws;
