//! What a text begins with, where nearly all characters of more than one byte are read directly, without a table of
//! what may follow a byte.
ghost use Rattle.std.specs.Prelude.{◌≡◌, ◌∷◌, ◌&&◌, ◌==◌, not, IfSome};
ghost use Rattle.dcm_text.specs.Characters.{is_between};
ghost use Rattle.dcm_text.specs.Quick.{IsFirst, Designates, designated_left, read as spec_read};
ghost use Rattle.dcm_text.specs.declared.set.Left.TheVariants as left;
ghost use Rattle.dcm_text.specs.declared.set.Right.TheVariants as right;

use crate::characters::{character_87, character_utf8};
use crate::first::{Found, Meaning, meaning_of};
use crate::set::{Halves, Left, Right, Set};
use crate::sets::Sets;

/// So many bytes that are a character, or have none.
#[inline(always)]
fn read(size: usize, character: Option<char>, halves: Halves) -> Found
    ensures { result ≡ spec_read size character halves }
{
    Found {
        size,
        meaning: meaning_of(character),
        halves,
    }
}

/// Whether a byte may stand in a pair of ISO-IR 87.
#[inline(always)]
fn is_of_87(byte: u8) -> bool
    ensures { result ≡ is_between 0x21 0x7E byte }
{
    (0x21..=0x7E).contains(&byte)
}

/// Whether a byte goes on a character of UTF-8.
#[inline(always)]
pub(crate) fn goes_on(byte: u8) -> bool
    ensures { result ≡ is_between 0x80 0xBF byte }
{
    (0x80..=0xBF).contains(&byte)
}

/// Whether a byte begins a character of UTF-8 of two bytes.
#[inline(always)]
pub(crate) fn begins_two(byte: u8) -> bool
    ensures { result ≡ is_between 0xC2 0xDF byte }
{
    (0xC2..=0xDF).contains(&byte)
}

/// Whether a byte begins a character of UTF-8 of three bytes, and any two that go on may follow it: E0 may be overlong,
/// and ED a surrogate.
#[inline(always)]
pub(crate) fn begins_three(byte: u8) -> bool
    ensures { result ≡ is_between 0xE1 0xEF byte && not (byte == 0xED) }
{
    (0xE1..=0xEF).contains(&byte) && byte != 0xED
}

/// A pair of ISO-IR 87.
#[inline(always)]
fn pair_87(halves: Halves, first: u8, after: &[u8]) -> Option<Found>
    requires { halves.left ≡ left.Ir87 }
    ensures { IfSome result (IsFirst halves (first ∷ after.now)) }
{
    match after {
        [second, ..] if is_of_87(first) && is_of_87(*second) => {
            Some(read(2, character_87(first, *second), halves))
        }
        _ => None,
    }
}

/// Two or three bytes of UTF-8.
#[inline(always)]
fn few_utf8(halves: Halves, first: u8, after: &[u8]) -> Option<Found>
    requires { halves.right ≡ right.Utf8 }
    ensures { IfSome result (IsFirst halves (first ∷ after.now)) }
{
    match after {
        [second, ..] if begins_two(first) && goes_on(*second) => {
            Some(read(2, character_utf8(first, *second, 0, 0), halves))
        }
        [second, third, ..] if begins_three(first) && goes_on(*second) && goes_on(*third) => {
            Some(read(3, character_utf8(first, *second, *third, 0), halves))
        }
        _ => None,
    }
}

/// What a text begins with, where it is a pair of ISO-IR 87, or two or three bytes of UTF-8. Elsewhere nothing is said.
#[inline(always)]
pub(crate) fn quick_of(halves: Halves, text: &[u8]) -> Option<Found>
    ensures { IfSome result (IsFirst halves text.now) }
{
    let [first, after @ ..] = text else {
        return None;
    };
    match halves {
        Halves {
            left: Left::Ir87,
            ..
        } if *first < 0x80 => pair_87(halves, *first, after),
        Halves {
            right: Right::Utf8,
            ..
        } => few_utf8(halves, *first, after),
        _ => None,
    }
}

/// The designation of three bytes that changes what G0 is.
#[inline(always)]
fn designation(left: Left, halves: Halves) -> Found
    ensures { result ≡ designated_left halves left }
{
    let right = halves.right;
    Found {
        size: 3,
        meaning: Meaning::Designation,
        halves: Halves { left, right },
    }
}

/// What bytes behind ESC are, where they designate ASCII or ISO-IR 87, and that is named. Elsewhere nothing is said.
#[inline(always)]
pub(crate) fn quick_designation(sets: &Sets, halves: Halves, bytes: &[u8]) -> Option<Found>
    ensures { IfSome result (Designates sets.now halves bytes.now) }
{
    let [first, second, ..] = bytes else {
        return None;
    };
    if *first == b'(' && *second == b'B' && sets.has(Set::Ascii) {
        return Some(designation(Left::Ascii, halves));
    }
    if *first == b'$' && *second == b'B' && sets.has(Set::Ir87) {
        return Some(designation(Left::Ir87, halves));
    }
    None
}
