//! The text of values (PS3.5 6.2), both ways.
//!
//! - `ValueText` is the text of one value as a dump shows it, with its pad byte and its values counted. It is fed the
//!   value in any pieces and writes the text as it goes; with `Mode::Short` it holds the 66 bytes that may be cut.
//! - `DecodedText` is the same by Specific Character Set, for values that are shown in brackets or by name: characters
//!   in UTF-8, and bytes without a character by their numbers.
//! - `append_decoded` appends to a line what `DecodedText` shows of a whole value, without a state, where that fits a
//!   line, and `put_decoded` writes it right out in full mode, where it does not.
//! - `is_plain_value` tells whether a value is its bytes by each of these sets, so that `ValueText` shows the same.
//! - `append_whole` appends to a line what a dump shows of a whole value, without a state, where that is known at once,
//!   and `append_few` does so for few numbers. `append_whole_ascii` does so for what is shown alike by each of these
//!   sets.
//! - `read_value` reads such a text back into the bytes of the value, in little endian; `read_value_into` does so in a
//!   buffer.
//! - `escape` and `unescape` are one byte of a text, `tag_of_text` a tag, `swap` turns the units of a big endian value.
//! - `unit_text` is one whole unit as it is shown, of `shown_unit` bytes.
//! - `UnitBuffer` makes the pieces of a value into whole units.
//!
//! Two numbers, read back:
//!
//!     let Ok(value) = read_value(Vr::US, b"1\\512") else { return Err("no value".into()) };
//!     assert!(rt; value.as_slice() == [1, 0, 0, 2].as_slice());
#![tactic(auto)]

mod counting;
mod decimals;
mod decoded;
mod decoded_text;
mod digits;
mod display;
mod escapes;
mod few;
mod hexadecimal;
mod lanes;
pub mod laws;
mod next_piece;
mod next_shown;
mod parts;
mod reading;
mod unit_buffer;
mod units;
mod value_text;
mod way;
mod whole;
mod whole_decoded;
mod whole_put;
mod widths;

pub use dcm_base::Mode;
pub use decoded_text::{DecodedText, is_plain_value};
pub use digits::unescape;
pub use escapes::{escape, is_plain_ascii};
pub use few::append_few;
pub use lanes::swap;
pub use parts::tag_of_text;
pub use reading::{BadValue, read_value, read_value_into};
pub use unit_buffer::{UnitBuffer, Units};
pub use units::{LONGEST, digits as byte_digits, shown_unit, unit_text};
pub use value_text::ValueText;
pub use way::takes_bytes;
pub use whole::{append_whole, append_whole_ascii};
pub use whole_decoded::append_decoded;
pub use whole_put::put_decoded;
pub use widths::DISPLAY_WIDTH;
