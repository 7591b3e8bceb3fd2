//! Files by their names, one after another: those among the words, and those in lists. This crate knows nothing of what
//! is done with a file.
//!
//! - `FileWork` is what does one file that is open.
//! - `do_all` goes over all names: it opens each file, has it done and gives it back, and reports a file or a list that
//!   cannot be opened or read.
//! - `specs/Each` says what is done then, by what the work does with one file.
#![tactic(auto)]

mod each;
mod work;

pub use each::do_all;
pub use work::{Ends, FileWork};
