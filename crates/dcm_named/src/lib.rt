//! Named elements of a data set: the lines of a dump of each, as if it stood outermost, and of nothing else.
//!
//! - `NamedSink` lies between the machine and a sink of lines. It passes on what is named, at any depth, with all that
//!   lies in it, and writes the way to each before its first line, where that is asked for.
//! - `named_meta` writes the lines of the named elements of a meta group, and `named_decoded_meta` with texts in UTF-8.
//! - `laws` has what it writes of all tokens of a data set, and that all that is named is found, and nothing else.
//!
//! A name, wherever it stands:
//!
//!     let mut lines = DumpSink::new(&mut out, Mode::Short);
//!     let mut sink = NamedSink::new(&[PATIENT_NAME], false, Mode::Short, &mut lines);
//!     assert!(rt; machine.feed(NAME, &mut sink).is_ok() && machine.finish(&mut sink).is_ok());
#![tactic(auto)]

mod filter;
pub mod laws;
mod meta;
mod sink;

pub use meta::{named_decoded_meta, named_meta};
pub use sink::NamedSink;
