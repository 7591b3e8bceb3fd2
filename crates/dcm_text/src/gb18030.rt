//! The characters of GB18030, by their bytes.
ghost use Rattle.std.specs.Prelude.{◌≡◌, ◌<◌};
ghost use Rattle.dcm_text.specs.Gb18030 as spec;

use crate::characters::entry;
use crate::gb_tables::*;

/// The first byte of any form.
const FIRST: u8 = 0x81;

/// How many pairs begin with the same byte.
const COLUMNS: usize = 190;

/// How many first bytes a table of pairs has.
const ROWS: u8 = 42;

/// Numbers of four bytes below this are of ranges.
const BELOW_RANGES: u32 = 39_420;

/// The number of four bytes that are U+10000, and the one behind U+10FFFF.
const PLANES: u32 = 0x2_E248;

const BEHIND_PLANES: u32 = 0x12_E248;

/// Some numbers of four bytes, one after another, by the first, and its character.
pub type Characters = (u16, u16);

/// The table of the pairs that begin with a byte.
#[tactic(auto, unfolding(crate::specs::Gb18030::pairs))]
fn pairs(first: u8) -> &'static [u16]
    ensures { result.now ≡ spec.pairs first }
{
    if first < FIRST + ROWS {
        &GB_PAIRS_81
    } else if first < FIRST + 2 * ROWS {
        &GB_PAIRS_AB
    } else {
        &GB_PAIRS_D5
    }
}

/// The column of a second byte.
fn column(second: u8) -> Option<u8>
    ensures { result ≡ spec.column second }
{
    match second {
        0x40..=0x7E => Some(second - 0x40),
        0x80..=0xFE => Some(second - 0x41),
        _ => None,
    }
}

/// The character of two bytes.
pub(crate) fn pair_character(first: u8, second: u8) -> Option<char>
    ensures { result ≡ spec.pair_character first second }
{
    let column = column(second)?;
    let row = first.saturating_sub(FIRST) % ROWS;
    entry(
        pairs(first),
        COLUMNS * usize::from(row) + usize::from(column),
    )
}

/// The ranges.
#[tactic(auto, unfolding(crate::specs::Gb18030::ranges))]
fn ranges() -> &'static [Characters]
    ensures { result.now ≡ spec.ranges }
{
    &GB_RANGES
}

/// The character's number that the last range which begins at or before a number has for it.
fn in_ranges(mut ranges: &[Characters], number: u16) -> Option<u32>
    ensures { result ≡ spec.ranged None ranges.entry.now number }
{
    let mut found = None;
    while let [range, rest @ ..] = ranges {
        if number < range.0 {
            return found;
        }
        found = Some(u32::from(range.1) + u32::from(number - range.0));
        ranges = rest;
    }
    found
}

/// The number of four bytes.
fn number(first: u8, second: u8, third: u8, fourth: u8) -> u32
    ensures value { result ≡ spec.number first second third fourth }
{
    let high = u32::from(first.saturating_sub(FIRST)) * 10 + u32::from(second.saturating_sub(b'0'));
    let low = u32::from(third.saturating_sub(FIRST)) * 10 + u32::from(fourth.saturating_sub(b'0'));
    high * 1260 + low
}

/// The character's number of such a number.
fn numbered(number: u32) -> Option<u32>
    ensures { result ≡ spec.numbered_four number }
{
    if number < BELOW_RANGES {
        in_ranges(ranges(), number as u16)
    } else if (PLANES..BEHIND_PLANES).contains(&number) {
        Some(0x1_0000 + (number - PLANES))
    } else {
        None
    }
}

/// The character of four bytes.
pub(crate) fn four_character(first: u8, second: u8, third: u8, fourth: u8) -> Option<char>
    ensures { result ≡ spec.four_character first second third fourth }
{
    char::from_u32(numbered(number(first, second, third, fourth))?)
}
