//! Tables of files: the run of dcm2csv over any system that opens files, and the program with it.
//!
//! - `read_file` reads of one file what its row shows, into `Cells` of dcm_table.
//! - `write_table` goes over all names: it opens a file, writes its row, and reports what is wrong with it.
//! - `dcmtools` does what words say: dcm2csv here, dcmdump of several files in dcm_dumps, trees of files in dcm_trees,
//!   all else in dcm_cli. It answers how it `Ended`.
//! - `obey_in_memory` does so over files in memory.
#![tactic(auto)]

mod file;
mod in_memory;
pub mod laws;
mod program;
mod rows;
mod table;

pub use dcm_each::Ends;
pub use file::{FileEnd, read_file};
pub use in_memory::obey_in_memory;
pub use program::{Ended, dcmtools, obey, start};
pub use table::write_table;
