//! The building of a file from the lines of a dump.
//!
//! - `Builder` is fed lines in any pieces. It holds the line that has not ended, at most 16,384 bytes, and the meta
//!   group until it ends, and writes each element as soon as its line has ended.
//! - `BuildHalt` says why it goes no further: a `LineStop` of dcm_base, which is a fault with the offset and the number
//!   of its line, or a writer that failed.
//! - The laws are in dcm_build_laws: what it builds of a whole input (`build_steps`), and that a full dump builds again
//!   what a conversion writes (`dump_builds`).
//!
//! A file of two lines:
//!
//!     let mut builder = Builder::new(80);
//!     assert!(rt; builder.feed(b"(0002,0010) UI =LittleEndianExplicit\n", &mut out).is_ok());
//!     assert!(rt; builder.feed(b"(0010,0010) PN [AB^CD]", &mut out).is_ok());
//!     assert!(rt; builder.finish(&mut out).is_ok() && out.device().written().ends_with(NAME));
#![tactic(auto)]

mod build;
mod checks;
mod file;
mod group;
mod line;
mod line_reader;
mod open_containers;

pub use build::{BuildHalt, Builder};
