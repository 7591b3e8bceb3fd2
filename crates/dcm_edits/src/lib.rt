//! What an edit of a data set is, and the words that mean edits.
//!
//! - `Edits::parse_in` reads words as `-m PatientName=A` into at most 64 edits, by a dictionary of their tags, or
//!   refuses them with an `EditFault`. It takes memory, from the allocator that it is given. `settings_of` is what the
//!   words say of all edits by `+dict`, `-dict` and `+ow`, and `Edits::parse` takes the extract.
//! - `takes_next` says of a word whether the next one is that edit's own, and `cut_at` cuts a text at a byte.
//! - `tag_named` is the tag that a word names alone, of any element of the standard.
//! - An `Edit` is a path with an `Action` at its end, or is of all data sets at every depth. A `Step` of a path leads
//!   into one item of a sequence, or into every one.
//! - `specs` has the definitions of edits: what one edit does to a data set (`Edit`), what all do at once (`Together`),
//!   which overlap (`Overlap`), and which edits words mean (`EditWords`). dcm_editor does them in one pass.
//!
//! Words, and what they mean:
//!
//!     let edits = Edits::parse(rt.alloc(), &[b"-m", b"PatientName=A"])?;
//!     assert!(rt; edits.len() == 1);
#![tactic(auto)]

mod edit;
mod edits;
mod fault;
mod form;
mod known;
mod making;
mod overlap;
mod parse;
mod path;
mod tag;

pub use edit::{Action, Edit, Index, NewElement, PathEdit, Step};
pub use edits::{Edits, MOST_EDITS};
pub use fault::EditFault;
pub use parse::{Settings, dictionary_word, is_overwrite, settings_of, takes_next};
pub use path::cut_at;
pub use tag::tag_named;
