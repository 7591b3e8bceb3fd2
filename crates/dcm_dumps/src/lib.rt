//! Dumps of several files, one after another: the run of dcmdump where its words name more than one file, or a list.
//!
//! - `dumps_plan` reads the words of a command line into a `DumpsPlan`; `asks_dumps` says whether they ask for one.
//! - `show_dumps` writes for each file a heading and its dump, and reports what is wrong with it.
//! - `obey_dumps` does so for words, over any system that opens files.
//! - `specs` says what is done and left: `Dumps` over any system, `DumpsInMemory` over files in memory.
#![tactic(auto)]

mod dumps;
mod heading;
pub mod laws;
mod plan;
mod program;

pub use dumps::{DumpWork, show_dumps};
pub use plan::{DumpsPlan, DumpsUsage, asks_dumps, dumps_plan};
pub use program::obey_dumps;
