//! The program dcmtools: the run of a job over devices, lines on standard error, files, and the exit status.
//!
//! - `run::run` does a job: it reads its input in pieces of at most 262,144 bytes, writes its output as it goes,
//!   reports what is wrong, and answers how it ended. Its contract is the theorem of the whole.
//! - `dump_with` of `dump` shows one input after another, for who shows several.
//! - `dump`, `convert`, `build`, `modify` and `deidentify` are the work on the five kinds of jobs, by `head`, `pass` and
//!   `rewrite`.
//! - `tell`, `tell_open`, `tell_unopened` and `tell_no_key` report words that are refused, and files and keys that
//!   cannot be opened; `status` has the exit statuses.
//! - `take_key` of `key` reads a key, and `first_reading` of `first` a file as far as its patient.
//! - `obey` does what words say, over any system that opens devices (`System`), but for tables,
//!   dumps of several files and runs over trees, which are above it.
//!
//! A run over memory:
//!
//!     let mut input = Watched::new(MemIn::new(file, step));
//!     let status = match plan(rt.alloc(), words) {
//!         Ok(planned) => run(&planned.job, &mut input, &mut out, &mut errors).status,
//!         Err(usage) => tell(&usage, &mut errors),
//!     };
#![tactic(auto)]

mod build;
mod convert;
mod days;
mod deidentify;
/// The dump of an input.
pub mod decode;
pub mod dump;
/// How the work on a job ends.
pub mod ending;
mod error_lines;
/// The first reading of a file, up to its patient.
pub mod first;
/// The head of a file, out of a device.
pub mod head;
/// Runs over memory.
pub mod in_memory;
/// The key of all new values of dcmdeid.
pub mod key;
/// Laws of the definitions.
pub mod laws;
mod modify;
mod named;
/// A data set, out of a device into a sink.
pub mod pass;
mod program;
mod rewrite;
/// A job over devices.
pub mod run;
/// The exit statuses.
pub mod status;

pub use dcm_words::{Build, Convert, Deidentify, Dump, Job, Planned, Usage, asked, plan};
pub use error_lines::{tell, tell_open, tell_output};
pub use program::{obey, tell_no_key, tell_unopened};
