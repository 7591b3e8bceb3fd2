//! The names in a folder, at any depth, or in a list, with what each of them is. This crate knows nothing of DICOM.
//!
//! - `walk_folder` goes over a folder that is open, and enters each folder in it. `walk_list` goes over the names of a
//!   list. Both hand each name that is not entered to a `Visitor`, as it comes.
//! - `What` says what a name is; a `Named` has its name, its relative name and its path.
//! - At most 64 folders are open at a time, and no memory grows with the number of names.
#![tactic(auto)]

mod folder;
mod list;
mod name;
mod path;
mod visitor;

pub use folder::{FolderNumber, walk_folder};
pub use list::{ListEnd, slash, walk_list};
pub use name::{LONGEST, MOST_OF_PATH, PART};
pub use visitor::{Named, Stopped, Visitor, What};
