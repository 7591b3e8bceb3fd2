//! What edits do to a data set, in one pass.
//!
//! - `Edits` are the edits of a command line, which `Edits::parse` makes of its words. They are of dcm_edits, whose
//!   names are handed on here.
//! - `EditSink` lies between the machine and another sink. It passes on what the edits make of the tokens, all edits at
//!   once, in a state of fixed size, and `unplaced` says which of them have found no place so far.
//! - `laws` has that they do what they would do one after another (`one_by_one`), and that what is written is the
//!   edited data set (`edit_reads`). What that is promised to be is in dcm_editor_laws.
//!
//! A name is erased:
//!
//!     let mut sink = EncodeSink::new(&mut out, Syntax::LITTLE);
//!     let mut edited = EditSink::new(&edits, &mut sink);
//!     assert!(rt; machine.feed(NAME, &mut edited).is_ok() && machine.finish(&mut edited).is_ok());
//!     assert!(rt; edited.unplaced() == 0 && out.device().written().is_empty());
#![tactic(auto)]

mod asked;
mod editor;
mod index;
pub mod laws;
mod mask;
mod new;
mod place;
mod sink;

pub use dcm_edits::{
    Action, Edit, EditFault, Edits, Index, MOST_EDITS, NewElement, PathEdit, Settings, Step,
    dictionary_word, settings_of,
};
pub use sink::EditSink;
