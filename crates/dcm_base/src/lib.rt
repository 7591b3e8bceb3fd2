//! What all crates speak of: facts of the standard, and faults.
//!
//! - **Facts**: `Tag`, `Vr` with its letters, unit and pad byte, `Length`, `Syntax`; `element`, `keyword` and `tag_of`
//!   of the dictionary's extract (PS3.6), `element_in`, `vr_in`, `keyword_in` and `tag_in` of a `Dictionary`, the
//!   extract or the whole; `uid_name` and `uid_of`; `coding_of` a transfer syntax; `form_of` an element.
//! - **Faults**: `Fault` of a file, `LineFault` of lines, `EditRefusal` and `WordFault` of words, each with its number
//!   and text. `Stopped` says why a reading or a building goes no further: a refusal, or an output that failed.
//! - **Places**: `spread` gives a number, as that of a tag, its place in an index.
//! - **Devices**: those of `dcm_devices`, handed on under the same names.
//! - **`specs`** has the definitions that the contracts of all crates cite: data sets as trees, how bytes spell them,
//!   dumps, conversions, files that are built. `laws` has what is proved of the definitions alone.
//!
//! Facts by a tag:
//!
//!     let name = Tag { group: 0x0010, element: 0x0010 };
//!     assert!(rt; tag_of(b"PatientName") == Some(name));
//!     assert!(rt; dict_vr(name) == Vr::PN && Vr::PN.pad() == b' ');
#![tactic(auto)]

mod dictionary;
mod digits;
mod fault;
mod form;
pub mod laws;
mod length;
mod level;
mod limits;
mod mode;
mod spreading;
mod stopped;
mod syntax;
mod tag;
mod transfer;
mod uid;
mod vr;

pub use dcm_devices::{
    Device, DeviceIn, DeviceOut, Measured, MemIn, MemOut, ReadFailed, Std, Watched, WriteFailed,
    flush_out, get_some, put_all, put_array, put_decimal, put_parts,
};
pub use dictionary::{
    Dictionary, ELEMENTS, ambiguous_tag, dict_vr, element, element_in, keyword, keyword_in,
    known_vr_in, tag_in, tag_of, vr_in,
};
pub use digits::{decimal_digit, decimal_number};
pub use fault::{EditRefusal, Fault, LineFault, LineStop, Stop, WordFault};
pub use form::{Form, form_of, read_as};
pub use length::Length;
pub use level::{Container, Level, MOST_LISTS, MOST_OPEN};
pub use limits::{LINE_LIMIT, VALUE_LIMIT};
pub use mode::Mode;
pub use spreading::spread;
pub use stopped::Stopped;
pub use syntax::{Coding, Syntax};
pub use tag::{ITEM_GROUP, META_GROUP, Tag};
pub use transfer::{BIG_UID, Deflated, IMPLICIT_UID, LITTLE_UID, coding_of};
pub use uid::{uid_name, uid_of};
pub use vr::{Vr, vr_of};
