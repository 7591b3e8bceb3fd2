//! The characters of the sets, by their bytes.
ghost use Rattle.std.specs.Prelude.{◌≡◌};
ghost use Rattle.dcm_text.specs.Characters as spec;

use crate::tables::*;

/// A set of one byte a character, by its number of ISO-IR. It is what bytes from 80 on mean.
#[derive(Clone, Copy, Debug, PartialEq, Eq)]
pub enum Single {
    Ir13,
    Ir100,
    Ir101,
    Ir109,
    Ir110,
    Ir126,
    Ir127,
    Ir138,
    Ir144,
    Ir148,
    Ir166,
    Ir203,
}

/// The first byte of a right half.
const FIRST_RIGHT: u8 = 0xA0;

/// The numbers of a right half, from byte A0 on.
#[tactic(auto, unfolding(crate::specs::Characters::right_half))]
fn right_half(single: Single) -> &'static [u16]
    ensures { result.now ≡ spec.right_half single }
{
    match single {
        Single::Ir13 => &RIGHT_13,
        Single::Ir100 => &RIGHT_100,
        Single::Ir101 => &RIGHT_101,
        Single::Ir109 => &RIGHT_109,
        Single::Ir110 => &RIGHT_110,
        Single::Ir126 => &RIGHT_126,
        Single::Ir127 => &RIGHT_127,
        Single::Ir138 => &RIGHT_138,
        Single::Ir144 => &RIGHT_144,
        Single::Ir148 => &RIGHT_148,
        Single::Ir166 => &RIGHT_166,
        Single::Ir203 => &RIGHT_203,
    }
}

/// The character that an entry of a table is, or none.
pub(crate) fn entry(table: &[u16], at: usize) -> Option<char>
    ensures { result ≡ spec.entry table.now at }
{
    match table.get(at) {
        Some(0) | None => None,
        Some(number) => char::from_u32(u32::from(*number)),
    }
}

/// The character of a byte from 80 on, in a set of one byte a character.
pub(crate) fn single_character(single: Single, byte: u8) -> Option<char>
    ensures { result ≡ spec.single_character single byte }
{
    if byte < FIRST_RIGHT {
        return None;
    }
    entry(right_half(single), usize::from(byte - FIRST_RIGHT))
}

/// The first number of rows and columns in bytes from 21 to 7E, less one: row 1 begins at 21.
const BELOW_ROWS: u8 = 0x20;

/// The same in bytes from A1 to FE.
const BELOW_RIGHT_ROWS: u8 = 0xA0;

/// The characters of a row.
const COLUMNS: usize = 94;

/// Where a row of ISO-IR 87 stands in its table: rows 1 to 8, and 16 to 84.
fn place_87(row: u8) -> Option<u8>
    ensures { result ≡ spec.place_87 row }
{
    match row {
        1..=8 => Some(row - 1),
        16..=84 => Some(row - 8),
        _ => None,
    }
}

/// Where a row of ISO-IR 149 stands in its table: rows 1 to 12, 16 to 40, and 42 to 93.
fn place_149(row: u8) -> Option<u8>
    ensures { result ≡ spec.place_149 row }
{
    match row {
        1..=12 => Some(row - 1),
        16..=40 => Some(row - 4),
        42..=93 => Some(row - 5),
        _ => None,
    }
}

/// Where a row of ISO-IR 58 stands in its table: rows 1 to 9, and 16 to 87.
fn place_58(row: u8) -> Option<u8>
    ensures { result ≡ spec.place_58 row }
{
    match row {
        1..=9 => Some(row - 1),
        16..=87 => Some(row - 7),
        _ => None,
    }
}

/// Where a row of ISO-IR 159 stands in its table: rows 2, 6 and 7, 9 to 11, and 16 to 77.
fn place_159(row: u8) -> Option<u8>
    ensures { result ≡ spec.place_159 row }
{
    match row {
        2 => Some(0),
        6..=7 => Some(row - 5),
        9..=11 => Some(row - 6),
        16..=77 => Some(row - 10),
        _ => None,
    }
}

/// The table of ISO-IR 87.
#[tactic(auto, unfolding(crate::specs::Characters::rows_87))]
fn rows_87() -> &'static [u16]
    ensures { result.now ≡ spec.rows_87 }
{
    &ROWS_87
}

/// The table of ISO-IR 149.
#[tactic(auto, unfolding(crate::specs::Characters::rows_149))]
fn rows_149() -> &'static [u16]
    ensures { result.now ≡ spec.rows_149 }
{
    &ROWS_149
}

/// The table of ISO-IR 58.
#[tactic(auto, unfolding(crate::specs::Characters::rows_58))]
fn rows_58() -> &'static [u16]
    ensures { result.now ≡ spec.rows_58 }
{
    &ROWS_58
}

/// The table of ISO-IR 159.
#[tactic(auto, unfolding(crate::specs::Characters::rows_159))]
fn rows_159() -> &'static [u16]
    ensures { result.now ≡ spec.rows_159 }
{
    &ROWS_159
}

/// The character in a column, counted from 1, of a row that stands at a place in a table.
fn in_row(table: &[u16], place: Option<u8>, column: u8) -> Option<char>
    ensures { result ≡ spec.in_row table.now place column }
{
    let place = place?;
    let column = usize::from(column.saturating_sub(1));
    entry(table, COLUMNS * usize::from(place) + column)
}

/// The character of two bytes of ISO-IR 87.
pub(crate) fn character_87(first: u8, second: u8) -> Option<char>
    ensures { result ≡ spec.character_87 first second }
{
    let place = place_87(first.saturating_sub(BELOW_ROWS));
    in_row(rows_87(), place, second.saturating_sub(BELOW_ROWS))
}

/// The character of two bytes of ISO-IR 149.
pub(crate) fn character_149(first: u8, second: u8) -> Option<char>
    ensures { result ≡ spec.character_149 first second }
{
    let place = place_149(first.saturating_sub(BELOW_RIGHT_ROWS));
    in_row(rows_149(), place, second.saturating_sub(BELOW_RIGHT_ROWS))
}

/// The character of two bytes of ISO-IR 58.
pub(crate) fn character_58(first: u8, second: u8) -> Option<char>
    ensures { result ≡ spec.character_58 first second }
{
    let place = place_58(first.saturating_sub(BELOW_RIGHT_ROWS));
    in_row(rows_58(), place, second.saturating_sub(BELOW_RIGHT_ROWS))
}

/// The character of two bytes of ISO-IR 159.
pub(crate) fn character_159(first: u8, second: u8) -> Option<char>
    ensures { result ≡ spec.character_159 first second }
{
    let place = place_159(first.saturating_sub(BELOW_ROWS));
    in_row(rows_159(), place, second.saturating_sub(BELOW_ROWS))
}

/// The low six bits of a byte that goes on a character of UTF-8.
fn low_bits(byte: u8) -> u32
    ensures { result ≡ spec.low_bits byte }
{
    u32::from(byte.saturating_sub(0x80))
}

/// The number that two to four bytes of UTF-8 are (Unicode, table 3-6), by the first of them.
fn number_utf8(first: u8, second: u8, third: u8, fourth: u8) -> u32
    ensures { result ≡ spec.number_utf8 first second third fourth }
{
    if first < 0xE0 {
        u32::from(first.saturating_sub(0xC0)) * 64 + low_bits(second)
    } else if first < 0xF0 {
        (u32::from(first - 0xE0) * 64 + low_bits(second)) * 64 + low_bits(third)
    } else {
        ((u32::from(first - 0xF0) * 64 + low_bits(second)) * 64 + low_bits(third)) * 64
            + low_bits(fourth)
    }
}

/// Their character.
#[tactic(auto, unfolding(crate::specs::Characters::character_utf8))]
pub(crate) fn character_utf8(first: u8, second: u8, third: u8, fourth: u8) -> Option<char>
    ensures { result ≡ spec.character_utf8 first second third fourth }
{
    char::from_u32(number_utf8(first, second, third, fourth))
}
