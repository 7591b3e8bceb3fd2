//! A system of folders in memory, for the tests of runs over trees of files. It is no part of the program.
//!
//! - `Tree` is a tree of folders, with files, links and pipes in them. `put` adds a `Node` at a path, and `difference`
//!   says at which path two trees differ.
//! - `MemoryTree` is a `System` with `Folders` over a tree. Paths lead as POSIX says, from a current folder. What is
//!   written is in the tree once its writer was closed, and `into_parts` gives the tree back.
//! - `TreeDevices` says how its devices work.
#![tactic(auto)]

mod devices;
mod listing;
mod node;
mod place;
mod system;
mod tree;

pub use devices::{ALL, SOUND, TreeDevices, TreeReader, TreeWriter};
pub use listing::TreeFolder;
pub use node::Node;
pub use system::MemoryTree;
pub use tree::Tree;
