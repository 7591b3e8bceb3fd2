//! The names of many files: those in a list, and how a name is shown in a line on standard error.
//!
//! - `OpenLine` takes a list piece by piece, and says of each line that has ended what name it is. The pieces do not
//!   matter: `lines_in_pieces` is the law.
//! - `ListReader` reads a list out of a device, name by name.
//! - `can_be_opened` says whether a name is one of a file at all.
//! - `put_unopened`, `put_clash`, `put_unread`, `put_fault`, `put_too_long`, `put_unplaced`, `put_emptied` and
//!   `put_unknown` write a line that begins with a name, `put_text` one of any text, `put_refusal` one of words that are refused, `put_at_once` any line.
//!
//! A list of two files, in one piece:
//!
//!     let mut line = OpenLine::new();
//!     assert!(rt; line.take(b"a.dcm\nb.dcm") == Some(6) && line.name() == b"a.dcm".as_slice());
//!     line.clear();
//!     assert!(rt; line.take(b"b.dcm") == None && line.name() == b"b.dcm".as_slice());
#![tactic(auto)]

pub mod laws;
mod list;
mod list_reader;
mod named_lines;
mod shown;

pub use list::{MOST_OF_NAME, OpenLine, can_be_opened};
pub use list_reader::{ListReader, NextName};
pub use named_lines::{
    put_at_once, put_clash, put_emptied, put_fault, put_nobody, put_refusal, put_text,
    put_too_long, put_unknown, put_unopened, put_unplaced, put_unread,
};
pub use shown::shown_name;
