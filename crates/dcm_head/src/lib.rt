//! Heads of elements, items and delimiters (PS3.5 7.1), and the head of a file: its preamble, prefix and meta group
//! (PS3.10 7.1).
//!
//! - `read_head` reads a head out of the first bytes that it is given, or says how many it needs; `write_head` writes
//!   one, and `plain_head` that of an item or a delimiter. `put_element_head` writes one to a device. Nearly all heads
//!   are short ones in explicit little endian: `read_short_head` reads these alone, and faster.
//! - `Meta` reads the head of a file, fed in any pieces, and holds it: at most 16,528 bytes. `Meta::rewritten` writes
//!   its group anew with another transfer syntax, a `SyntaxUid`; `write_meta` does so of any group, and `first_element`
//!   walks over one. `Meta::renewed` writes what a `Renewal` leaves of its elements.
//!
//! A head and its eight bytes:
//!
//!     let bytes = b"\x10\x00\x10\x00PN\x06\x00".as_slice();
//!     let name = Head { tag, vr: Vr::PN, length: Length::Known(6) };
//!     assert!(rt; read_head(Syntax::LITTLE, bytes) == HeadRead::Done(name, 8));
//!     assert!(rt; write_head(Syntax::LITTLE, &name).as_slice() == bytes);
#![tactic(auto)]

mod element;
mod group;
mod head;
pub mod laws;
mod meta;
mod meta_read;
mod meta_runs;
mod pads;
mod renewal;
mod rewriting;
mod syntax_uid;
mod write;

pub use element::{MetaElement, first_element};
pub use group::META_LIMIT;
pub use head::{
    Head, HeadRead, LONG_HEAD, SHORT_HEAD, read_head, read_short_head, read_tag, read_tagged,
};
pub use meta::{Meta, PREAMBLE, PREFIX};
pub use meta_read::{MetaEnd, MetaRead};
pub use pads::{is_pad, size_without_pads, without_pads};
pub use renewal::{AllStays, Renewal, Renewed};
pub use rewriting::write_meta;
pub use syntax_uid::SyntaxUid;
pub use write::{element_head, plain_head, put_element_head, write_head};
