//! The DICOM JSON Model (PS3.18 annex F): an object of JSON (RFC 8259) for each DICOM file.
//!
//! - `put_escaped` writes bytes of a string, in any pieces.
//! - `TextValue` writes the values of a text that comes in pieces: decoded by Specific Character Set (0008,0005), cut
//!   at backslashes, names in groups, and numbers of DS and IS as numbers where JSON has them so. `shape_of` says how.
//! - `NumberValues` writes the values of numbers and tags that come in pieces, and `put_unit` writes one of them.
//! - `Base64Value` writes bytes that come in pieces in base64.
//! - `Values` does for what is shown of a text, part by part, what `TextValue` does for its bytes.
#![tactic(auto)]

mod base64_value;
mod escaped;
pub mod laws;
mod number_text;
mod number_value;
mod numbers;
mod shape;
mod text_value;
mod values;

pub use base64_value::Base64Value;
pub use escaped::put_escaped;
pub use number_text::is_number_of;
pub use number_value::NumberValues;
pub use numbers::put_unit;
pub use shape::{Group, TextShape, shape_of};
pub use text_value::TextValue;
pub use values::Values;
