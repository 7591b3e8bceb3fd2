// The bytes of a unit from its text.
ghost use Rattle.std.specs.Prelude.{◌≡◌, option_map};
ghost use Rattle.byteorder.specs.Endian.{little_bytes};
ghost use Rattle.dcm_base.specs.Lines.ReadValue as spec;
ghost use Rattle.dcm_value.specs.Swap.{IsUnit};
ghost use Rattle.dcm_value.specs.Parts.{part_value};

use crate::digits::hexadecimal;
use crate::units::{Kind, append, highest};
use arrayvec::ArrayVec;
use dcm_base::{Tag, decimal_number};

/// The lowest bytes of a number, the lowest first.
fn little(size: usize, number: u64) -> ArrayVec<u8, 8>
    requires { IsUnit size }
    ensures { result.items ≡ little_bytes size number }
{
    let mut bytes = ArrayVec::new();
    append(&number.to_le_bytes()[..size], &mut bytes);
    bytes
}

/// A number of this size.
fn unsigned(size: usize, text: &[u8]) -> Option<ArrayVec<u8, 8>>
    requires { IsUnit size }
    ensures { option_map (λ v. v.items) result ≡ spec.unsigned_value size text.now }
{
    let number = decimal_number(text)?;
    if number > u128::from(highest(size)) {
        return None;
    }
    Some(little(size, number as u64))
}

/// A number of this size without its sign bit.
fn positive(size: usize, text: &[u8]) -> Option<ArrayVec<u8, 8>>
    requires { IsUnit size }
    ensures { option_map (λ v. v.items) result ≡ spec.positive_value size text.now }
{
    let number = decimal_number(text)?;
    if number > u128::from(highest(size) / 2) {
        return None;
    }
    Some(little(size, number as u64))
}

/// The number of this size below zero that comes after a sign.
fn negative(size: usize, text: &[u8]) -> Option<ArrayVec<u8, 8>>
    requires { IsUnit size }
    ensures { option_map (λ v. v.items) result ≡ spec.negative_value size text.now }
{
    let number = decimal_number(text)?;
    let highest = highest(size);
    if number > u128::from(highest / 2) + 1 {
        return None;
    }
    if number == 0 {
        return Some(little(size, 0));
    }
    Some(little(size, highest - number as u64 + 1))
}

/// A number of this size with its sign.
fn signed(size: usize, text: &[u8]) -> Option<ArrayVec<u8, 8>>
    requires { IsUnit size }
    ensures { option_map (λ v. v.items) result ≡ spec.signed_value size text.now }
{
    match text {
        [b'-', digits @ ..] => negative(size, digits),
        _ => positive(size, text),
    }
}

/// The tag that a text of the form `(gggg,eeee)` names, with digits in either case. No other text names one.
pub fn tag_of_text(text: &[u8]) -> Option<Tag>
    ensures { result ≡ spec.tag_of_text text.now }
{
    if text.len() != 11 || text[0] != b'(' || text[5] != b',' || text[10] != b')' {
        return None;
    }
    let group = hexadecimal(2, &text[1..5])? as u16;
    let element = hexadecimal(2, &text[6..10])? as u16;
    Some(Tag { group, element })
}

/// A tag as its two numbers.
fn tag(text: &[u8]) -> Option<ArrayVec<u8, 8>>
    ensures { option_map (λ v. v.items) result ≡ spec.tag_value text.now }
{
    let tag = tag_of_text(text)?;
    let mut bytes = little(2, u64::from(tag.group));
    append(little(2, u64::from(tag.element)).as_slice(), &mut bytes);
    Some(bytes)
}

/// Two digits a byte, the highest first.
fn bytes(size: usize, text: &[u8]) -> Option<ArrayVec<u8, 8>>
    requires { IsUnit size }
    ensures { option_map (λ v. v.items) result ≡ spec.hex_value size text.now }
{
    let number = hexadecimal(size, text)?;
    Some(little(size, number))
}

/// The bytes of one part of a text, in little endian order.
pub fn part(kind: Kind, size: usize, text: &[u8]) -> Option<ArrayVec<u8, 8>>
    requires { IsUnit size }
    ensures { option_map (λ v. v.items) result ≡ part_value kind size text.now }
{
    match kind {
        Kind::Unsigned => unsigned(size, text),
        Kind::Signed => signed(size, text),
        Kind::Tags => tag(text),
        Kind::Hexadecimal => bytes(size, text),
    }
}
