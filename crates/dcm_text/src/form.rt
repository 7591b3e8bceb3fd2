//! Forms: which bytes may be a character together.
ghost use Rattle.std.specs.Prelude.{◌≡◌, slice_index};
ghost use Rattle.dcm_text.specs.Forms as spec;

use crate::characters::{
    Single, character_58, character_87, character_149, character_159, character_utf8,
    single_character,
};
use crate::gb18030::{four_character, pair_character};
use crate::set::{Left, Right};

/// The least and the greatest of the bytes that may stand at a place.
pub type Range = (u8, u8);

/// How bytes match a wanted form.
#[derive(Clone, Copy, Debug, PartialEq, Eq)]
pub enum Fit {
    /// All bytes of the form are there.
    Whole,
    /// The bytes end within the form.
    Part,
    Not,
}

/// How more bytes than one are a character.
#[derive(Clone, Copy, Debug, PartialEq, Eq)]
pub enum Form {
    Ir87,
    Ir159,
    Ir149,
    Ir58,
    Gb18030,
    Utf8,
}

/// What a byte begins.
#[derive(Clone, Copy, Debug, PartialEq, Eq)]
pub enum Opening {
    /// The byte stands for itself: its character, if it has one.
    Byte(Option<char>),
    /// Perhaps a form of several bytes.
    Form(Form),
}

/// How bytes fit ranges, one after another.
pub(crate) fn fit_of(ranges: &[Range], bytes: &[u8]) -> Fit
    ensures { result ≡ spec.fit_of ranges.now bytes.now }
{
    let mut left = ranges;
    let mut rest = bytes;
    while let [range, ranges_after @ ..] = left {
        let [byte, bytes_after @ ..] = rest else {
            return Fit::Part;
        };
        if *byte < range.0 || *byte > range.1 {
            return Fit::Not;
        }
        left = ranges_after;
        rest = bytes_after;
    }
    Fit::Whole
}

/// How bytes fit given ones.
pub(crate) fn starts(wanted: &[u8], bytes: &[u8]) -> Fit
    ensures { result ≡ spec.starts wanted.now bytes.now }
{
    let mut left = wanted;
    let mut rest = bytes;
    while let [given, wanted_after @ ..] = left {
        let [byte, bytes_after @ ..] = rest else {
            return Fit::Part;
        };
        if *byte != *given {
            return Fit::Not;
        }
        left = wanted_after;
        rest = bytes_after;
    }
    Fit::Whole
}

/// What a byte below 80 begins.
pub(crate) fn left_opening(left: Left, byte: u8) -> Opening
    ensures { result ≡ spec.left_opening left byte }
{
    match left {
        Left::Ir87 if (0x21..=0x7E).contains(&byte) => Opening::Form(Form::Ir87),
        Left::Ir159 if (0x21..=0x7E).contains(&byte) => Opening::Form(Form::Ir159),
        Left::Ascii | Left::Ir87 | Left::Ir159 => Opening::Byte(Some(char::from(byte))),
    }
}

/// What a byte from 80 on begins.
pub(crate) fn right_opening(right: Right, byte: u8) -> Opening
    ensures { result ≡ spec.right_opening right byte }
{
    let is_pair = (0xA1..=0xFE).contains(&byte);
    match right {
        Right::Single(single) => Opening::Byte(single_character(single, byte)),
        Right::Ir149 if is_pair => Opening::Form(Form::Ir149),
        Right::Ir58 if is_pair => Opening::Form(Form::Ir58),
        Right::Gb18030 if (0x81..=0xFE).contains(&byte) => Opening::Form(Form::Gb18030),
        Right::Utf8 if (0xC2..=0xF4).contains(&byte) => Opening::Form(Form::Utf8),
        Right::Nothing | Right::Ir149 | Right::Ir58 | Right::Gb18030 | Right::Utf8 => Opening::Byte(
            None,
        ),
    }
}

/// What a byte that goes on a character of UTF-8 may be.
const NEXT: Range = (0x80, 0xBF);

/// What may follow the first byte of a character of UTF-8 (Unicode, table 3-7): none overlong, no surrogate, and
/// nothing above 10FFFF.
fn utf8_ranges(first: u8) -> &'static [Range]
    ensures { result.now ≡ spec.utf8_ranges first }
{
    match first {
        0..=0xDF => &[NEXT],
        0xE0 => &[(0xA0, 0xBF), NEXT],
        0xED => &[(0x80, 0x9F), NEXT],
        0xE1..=0xEF => &[NEXT, NEXT],
        0xF0 => &[(0x90, 0xBF), NEXT, NEXT],
        0xF4 => &[(0x80, 0x8F), NEXT, NEXT],
        _ => &[NEXT, NEXT, NEXT],
    }
}

/// What may follow the first byte of a form. Of GB18030 it is the form of four bytes.
pub(crate) fn ranges(form: Form, first: u8) -> &'static [Range]
    ensures { result.now ≡ spec.ranges form first }
{
    match form {
        Form::Ir87 | Form::Ir159 => &[(0x21, 0x7E)],
        Form::Ir149 | Form::Ir58 => &[(0xA1, 0xFE)],
        Form::Gb18030 => &[(0x30, 0x39), (0x81, 0xFE), (0x30, 0x39)],
        Form::Utf8 => utf8_ranges(first),
    }
}

/// What may follow the first byte of two bytes of GB18030, below 80.
pub(crate) fn low_pair() -> &'static [Range]
    ensures { result.now ≡ spec.low_pair }
{
    &[(0x40, 0x7E)]
}

/// The same from 80 on.
pub(crate) fn high_pair() -> &'static [Range]
    ensures { result.now ≡ spec.high_pair }
{
    &[(0x80, 0xFE)]
}

/// The byte at a place, or 0 behind the last.
fn byte_at(bytes: &[u8], at: usize) -> u8
    ensures { result ≡ slice_index bytes.now at }
{
    match bytes.get(at) {
        Some(byte) => *byte,
        None => 0,
    }
}

/// The character of the bytes of a form, where it has one for them.
pub(crate) fn character_of(form: Form, bytes: &[u8]) -> Option<char>
    ensures { result ≡ spec.character_of form bytes.now }
{
    let (first, second) = (byte_at(bytes, 0), byte_at(bytes, 1));
    match form {
        Form::Gb18030 if bytes.len() == 2 => pair_character(first, second),
        Form::Gb18030 => four_character(first, second, byte_at(bytes, 2), byte_at(bytes, 3)),
        Form::Ir159 => character_159(first, second),
        Form::Ir87 => character_87(first, second),
        Form::Ir149 => character_149(first, second),
        Form::Ir58 => character_58(first, second),
        Form::Utf8 => character_utf8(first, second, byte_at(bytes, 2), byte_at(bytes, 3)),
    }
}
