// Values of DS and IS that JSON has as numbers.
ghost use Rattle.std.specs.Prelude.{◌≡◌, ◌≤◌, length};
ghost use Rattle.std.specs.List.{list_all};
ghost use Rattle.dcm_json.specs.NumberText as spec;

use crate::shape::TextShape;
use json::is_number;

/// The most bytes of a number: readers round numbers of more, or refuse them.
pub const MOST_OF_NUMBER: usize = 15;

/// The most digits of its exponent, for the same reason.
const MOST_OF_EXPONENT: usize = 2;

/// Whether bytes are characters of numbers alone: digits, signs, the point, and those of an exponent.
pub fn are_of_number(text: &[u8]) -> bool
    ensures { result ≡ list_all spec.is_of_number text.now }
{
    text.iter().all(|byte| matches!(*byte, b'0'..=b'9' | b'-' | b'+' | b'.' | b'e' | b'E'))
}

/// Whether a text is a number of JSON.
fn is_json_number(text: &[u8]) -> bool
    ensures { result ≡ spec.is_json_number text.now }
{
    if !are_of_number(text) {
        return false;
    }
    match std::str::from_utf8(text) {
        Ok(text) => is_number(text),
        Err(_) => false,
    }
}

/// A text without a sign at its beginning.
fn without_sign(text: &[u8]) -> &[u8]
    ensures { result.now ≡ spec.without_sign text.now }
{
    match text {
        [b'+' | b'-', rest @ ..] => rest,
        _ => text,
    }
}

/// The digits of the exponent of a number, none where there is no exponent.
fn exponent(mut text: &[u8]) -> &[u8]
    ensures { result.now ≡ spec.exponent text.entry.now }
{
    while let [byte, rest @ ..] = text {
        if matches!(*byte, b'e' | b'E') {
            return without_sign(rest);
        }
        text = rest;
    }
    text
}

/// Whether a text has digits and signs alone, as an integer.
fn has_digits_alone(text: &[u8]) -> bool
    ensures { result ≡ list_all spec.is_of_integer text.now }
{
    text.iter().all(|byte| matches!(*byte, b'0'..=b'9' | b'-'))
}

/// Whether a value of a text is written as a number: it is one of JSON, of at most 15 bytes, of DS with at most two
/// digits in its exponent, and of IS without fraction and exponent.
pub fn is_number_of(shape: TextShape, text: &[u8]) -> bool
    ensures { result ≡ spec.is_number shape text.now }
{
    if text.len() > MOST_OF_NUMBER {
        return false;
    }
    match shape {
        TextShape::Decimals => is_json_number(text) && exponent(text).len() <= MOST_OF_EXPONENT,
        TextShape::Integers => is_json_number(text) && has_digits_alone(text),
        TextShape::Strings | TextShape::OneString | TextShape::Names => false,
    }
}
