//! How far a text in UTF-8 is shown as it is.
ghost use Rattle.std.specs.Prelude.{◌≡◌, ◌<◌, ◌≤◌, ◌∷◌, [], true, length, IfSome};
ghost use Rattle.dcm_text.specs.Characters.{is_between};
ghost use Rattle.dcm_text.specs.Fronts.{IsShown, IsBehind, AreBehind, is_shown as shown};

use crate::ascii::{LANES, ascii_of_eight};
use crate::characters::character_utf8;
use crate::quick::{begins_three, begins_two, goes_on};
use crate::shown::is_dumped;
use std::simd::prelude::*;

/// Whether there is a character, and a dump shows it as it is.
#[inline(always)]
fn is_shown(character: Option<char>) -> bool
    ensures { result ≡ shown character }
{
    match character {
        Some(character) => is_dumped(character),
        None => false,
    }
}

/// Whether a byte is a character of ASCII and no control.
#[inline(always)]
fn is_printed(byte: u8) -> bool
    ensures { result ≡ is_between 0x20 0x7E byte }
{
    (0x20..=0x7E).contains(&byte)
}

/// Whether a byte is a character of ASCII that a dump shows as it is.
#[inline(always)]
fn is_one_shown(byte: u8) -> bool
    ensures { result ≡ true → IsShown (byte ∷ []) }
{
    if is_printed(byte) && byte != b'%' {
        byte != b']'
    } else {
        false
    }
}

/// Whether two bytes are a character that a dump shows as it is.
#[inline(always)]
fn are_two_shown(first: u8, second: u8) -> bool
    ensures { result ≡ true → IsShown (first ∷ second ∷ []) }
{
    if begins_two(first) && goes_on(second) {
        is_shown(character_utf8(first, second, 0, 0))
    } else {
        false
    }
}

/// Whether three bytes are a character that a dump shows as it is. Those that begin with E0 or ED are not looked at.
#[inline(always)]
fn are_three_shown(first: u8, second: u8, third: u8) -> bool
    ensures { result ≡ true → IsShown (first ∷ second ∷ third ∷ []) }
{
    if begins_three(first) && goes_on(second) && goes_on(third) {
        is_shown(character_utf8(first, second, third, 0))
    } else {
        false
    }
}

/// What is behind a character of two or three bytes, where a dump shows it as it is.
#[inline(always)]
fn behind_few(first: u8, after: &[u8]) -> Option<&[u8]>
    ensures behind { IfSome result (λ rest. IsBehind (first ∷ after.now) rest.now) }
    ensures fewer { IfSome result (λ rest. length rest.now < length after.now) }
{
    match after {
        [second, rest @ ..] if are_two_shown(first, *second) => Some(rest),
        [second, third, rest @ ..] if are_three_shown(first, *second, *third) => Some(rest),
        _ => None,
    }
}

/// What is behind the bytes of ASCII in front that a dump shows as they are: eight are looked at together, as letters
/// of ASCII come in runs. Fewer than eight bytes are not looked at.
#[inline(always)]
fn behind_ascii(text: &[u8]) -> &[u8]
    ensures behind { AreBehind text.now result.now }
    ensures fewer { length result.now ≤ length text.now }
{
    if text.len() < LANES {
        return text;
    }
    let (_, rest) = text.split_at(ascii_of_eight(u8x8::from_slice(text)));
    rest
}

/// What is behind the first character of a text in UTF-8, where a dump shows it as it is, and behind ASCII that follows
/// one of ASCII. A first one of four bytes is not looked at.
#[inline(always)]
fn behind_shown(text: &[u8]) -> Option<&[u8]>
    ensures behind { IfSome result (λ rest. AreBehind text.now rest.now) }
    ensures fewer { IfSome result (λ rest. length rest.now < length text.now) }
{
    let [first, after @ ..] = text else {
        return None;
    };
    if is_one_shown(*first) {
        Some(behind_ascii(after))
    } else {
        behind_few(*first, after)
    }
}

/// What is behind all characters in front of a text in UTF-8 that a dump shows as they are.
#[inline(never)]
pub(crate) fn behind_all_shown(text: &[u8]) -> &[u8]
    ensures { AreBehind text.now result.now }
{
    let mut rest = text;
    while let Some(after) = behind_shown(rest) {
        rest = after;
    }
    rest
}
