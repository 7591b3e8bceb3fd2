//! The words of runs over trees: of dcmconv, dcmdeid and dcmodify over all files of a folder, or of a list.
//!
//! - `asks_tree` says whether words ask for such a run.
//! - `words_of_one` takes the words of a tree out of them, so that those are left which mean the job of one file.
//!   dcm_words alone knows what these mean.
//! - `tree_plan` reads both into a `TreePlan`: the source of names, `TreeOptions`, and what dcm_words plans for one
//!   file.
//! - Words that are refused are a `Usage` of dcm_words, with the number that a word has among all of them.
//! - `part_of` reads a `Part`.
//! - `laws` has a law of the definitions: words that ask for such a run ask for no text.
//!
//! A run over a folder:
//!
//!     let words = [b"dcmconv".as_slice(), b"+r".as_slice(), b"in".as_slice(), b"out".as_slice()];
//!     let one = words_of_one(rt.alloc(), &words)?;
//!     let Ok(tree) = tree_plan(rt.alloc(), &words, one.as_slice()) else { return Err("refused".into()) };
//!     assert!(rt; tree.source == Source::Folder(b"in".as_slice()) && !tree.options.continues);
#![tactic(auto)]

pub mod laws;
mod own;
mod part;
mod part_word;
mod piece;
mod plan;
mod refusal;
mod said;
mod word;

pub use own::words_of_one;
pub use part::Part;
pub use part_word::part_of;
pub use plan::{Source, TreePlan, asks_tree, tree_plan};
pub use said::TreeOptions;
