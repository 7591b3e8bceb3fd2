//! Whole trees of files in one run.
//!
//! - `obey_tree` does what words say of a folder or a list, over any system: `do_tree` does the `TreeRun` that they mean.
//! - `begin` looks at the folders before anything is made, and answers `Begun`, or a `Refusal`.
//! - `do_name` does the file of a name in its `Manner`: a part is filled by the job of one file, and gets the name of
//!   the output, as `Naming` says, only once it is whole. `Done` has the `Fate` of the name.
//! - `place_at` says whether an output may be made at a path, and `make_way` makes the folders on its way, of
//!   the `Modes` of the run.
//! - `put_row` writes a row of the manifest, `Tally` counts them, and `is_of` says which names are of a share.
#![tactic(auto)]

mod beginning;
mod fate;
mod file;
mod instance;
mod letters;
mod lines;
mod modes;
mod part;
mod place;
mod program;
mod progress;
mod row;
mod run;
mod share;
mod tally;
mod task;
mod tree;
mod work;

pub use beginning::{Begun, Refusal, Spared, begin};
pub use fate::{Fate, fate_of, text_of};
pub use file::{Done, InstanceName, Manner, do_name};
pub use modes::{Modes, NoMode};
pub use part::{Naming, NoPart};
pub use place::{NotMade, OutputPath, Place, make_way, path_in, place_at};
pub use program::obey_tree;
pub use progress::{Shared, Stop, Work};
pub use row::{put_header, put_row};
pub use run::{End, PartName, TreeRun, part_name, tell_refusal};
pub use share::is_of;
pub use tally::{Tally, put_counts};
pub use task::{FileJob, NoDays, Task, task_of_file};
pub use tree::do_tree;
