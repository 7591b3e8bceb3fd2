//! Texts by Specific Character Set (0008,0005), as characters (PS3.3 C.12.1.1.2, PS3.5 6.1.2). This crate knows nothing
//! of data sets.
//!
//! - `sets_of` reads a value of (0008,0005): `Sets` are what is in force by it.
//! - A `Decoder` takes a text in pieces of any size, and gives `Part`s: a character with its bytes, bytes without a
//!   character, or a designation, which shows nothing. It holds at most three bytes, those of which nothing is decided
//!   yet.
//! - `TextPieces` takes a text that is there as a whole, copies nothing, and gives the same.
//! - `dumped` is what a dump shows of a part, and `in_cell` what a cell of a table does. `ascii_of_eight` says how many
//!   of eight bytes a dump shows as they are in any case.
//!
//! A text that is whole:
//!
//!     let mut decoder = Decoder::new(sets_of(b"ISO_IR 100"), TextKind::Names);
//!     while let Some((part, rest)) = decoder.next(text, true) { text = rest; .. }
#![tactic(auto)]

mod ascii;
mod characters;
mod decoder;
mod first;
mod form;
mod fronts;
mod gb18030;
mod gb_tables;
pub mod laws;
mod quick;
mod set;
mod sets;
mod shown;
mod tables;
mod text_pieces;

pub use ascii::ascii_of_eight;
pub use decoder::{Decoder, Part};
pub use first::Meaning;
pub use set::TextKind;
pub use sets::{Sets, is_known, sets_of};
pub use shown::{append_dumped, dumped, in_cell, is_hidden};
pub use text_pieces::TextPieces;
