//! The machine that reads a data set (PS3.5 7), and the tokens that it makes of it.
//!
//! - `Machine` is fed the bytes of a data set in any pieces. It judges each head, follows the open sequences, items and
//!   fragment lists, at most 64 deep, and holds nothing of a value.
//! - A `Sink` takes its `Token`s: `Open`, `Bytes`, `CloseLeaf` and so on. Bytes are lent out of the piece for the call
//!   alone. What a sink is in is its `State`, and `step`, `writes` and `bar` say what each token does to it. By
//!   `take_whole` it takes an element with its whole value, where it has no shorter way by `take_by_tokens`;
//!   `take_whole_telling` says too how far it came where its writer failed. `wants_items_apart` says which way the
//!   machine reads items and sequences for it.
//! - `Halt` says why the machine goes no further: a fault and its offset, or a sink's writer that failed.
//! - `Skip` is what is open of an element that a sink leaves out; `take_all` gives a sink several tokens.
//!
//! A data set in pieces:
//!
//!     for piece in bytes.chunks(step) {
//!         machine.feed(piece, sink)?;
//!     }
//!     machine.finish(sink)
#![tactic(auto)]

mod close;
mod cursor;
mod cursor_marks;
mod cursor_runs;
mod cursor_sequences;
mod cursor_signs;
mod judge;
pub mod laws;
mod levels;
mod machine;
mod sign;
mod sink;
mod skip;
mod taking;
mod token;
mod whole_leaf;

pub use machine::{Halt, INPUT_LIMIT, Machine};
pub use sink::Sink;
pub use skip::Skip;
pub use taking::take_all;
pub use token::{Bar, Token, WholeFailed};
