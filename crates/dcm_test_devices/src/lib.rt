//! What the tests of whole runs share: the bytes of files, and devices that give and take in steps, or fail. It is no
//! part of the program.
//!
//! - `joined`, `repeated`, `numbered` and `split` put bytes together, and take words apart.
//! - `Start` is what a file begins with, up to its data set.
//! - `Steps` is a reader of std that gives so many bytes a call, and may fail.
//! - `Memory` is a `System` of files in memory, of which reads and writes fail as its `Devices` say. Its writers are
//!   `FailWriter`. It counts what is opened.
#![tactic(auto)]

mod bytes;
mod memory;
mod start;
mod steps;
mod writer;

pub use bytes::{joined, numbered, repeated, split};
pub use memory::{Counts, Devices, Kind, Loaded, Memory, SOUND};
pub use start::Start;
pub use steps::{ALL, Steps};
pub use writer::{FailWriter, Failure};
