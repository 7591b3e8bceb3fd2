//! Command lines, and the jobs that they mean.
//!
//! - `plan` reads the words of a command line into a `Planned`: the paths, and a `Job` with all that its tool has to
//!   know.
//! - `dump_of_each` reads the options of dcmdump of several files.
//! - Words that are refused are a `Usage`: which word is wrong and why, which edit or element, or want of memory.
//! - `takes_next` says whether a word of a tool has the next one, and `two_paths` which words are the input and the
//!   output, for those who have words of their own among these.
//! - `asked` says whether words ask for a text about the program, a `Topic`, in place of a job.
//! - The words of dcmdeid may name a key. A `Planned` has its path; a `Deidentify` is to have its bytes.
//! - The words of dcmodify between its name and its two paths are edits, which `Edits` of dcm_edits reads.
//!
//! A conversion:
//!
//!     let words = [b"dcmconv".as_slice(), b"+te".as_slice(), b"in".as_slice(), b"out".as_slice()];
//!     let Ok(planned) = plan(rt.alloc(), &words) else { return Err("refused".into()) };
//!     assert!(rt; planned.input == b"in".as_slice() && matches!(planned.job, Job::Convert(_)));
#![tactic(auto)]

mod job;
mod naming;
mod options;
mod places;
mod plans;
mod tags;
mod texts;
mod topic;
mod usage;
mod words;

pub use job::{Build, Convert, Deidentify, Dump, Job, MOST_OF_KEY, Modify, Named, Planned, Texts};
pub use options::SEVERAL;
pub use places::{TwoPaths, takes_next, two_paths};
pub use plans::{dump_of_each, plan};
pub use tags::{MOST_NAMED, Tags};
pub use topic::{Topic, asked};
pub use usage::Usage;
pub use words::with_days;
