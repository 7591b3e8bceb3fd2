//! What a part shows, in a dump and in a cell of a table.
ghost use Rattle.std.specs.Prelude.{◌≡◌, true, false, ◌≤◌, ◌<◌, ◌+◌, ◌*◌, ◌++◌, flat_map, length, encode_utf8};
ghost use Rattle.std.specs.List.{list_any};
ghost use Rattle.dcm_text.specs.Characters.{is_between};
ghost use Rattle.dcm_text.specs.Decoding.{piece_of};
ghost use Rattle.dcm_text.specs.Shown as spec;

use crate::decoder::Part;
use crate::first::Meaning;
use arrayvec::ArrayVec;
use dcm_bytes::append;

/// The first and the last of some characters.
pub type Characters = (u32, u32);

/// Controls, characters that turn or break lines, and characters that show nothing.
#[rattlefmt::skip]
pub const HIDDEN: [Characters; 21] = [
    (0x00, 0x1F), (0x7F, 0x9F), (0xAD, 0xAD), (0x34F, 0x34F), (0x61C, 0x61C), (0x115F, 0x1160), (0x17B4, 0x17B5),
    (0x180E, 0x180E), (0x200B, 0x200B), (0x200E, 0x200F), (0x2028, 0x202E), (0x2060, 0x206F), (0x3164, 0x3164),
    (0xFDD0, 0xFDEF), (0xFEFF, 0xFEFF), (0xFFA0, 0xFFA0), (0xFFF0, 0xFFFB), (0x1BCA0, 0x1BCA3), (0x1D173, 0x1D17A),
    (0xE0000, 0xE00FF), (0xE01F0, 0xE0FFF),
];

/// What a dump shows of a part at most: of four bytes three each.
const MOST_DUMPED: usize = 12;

/// What a cell shows of it at most: of four bytes four each.
const MOST_IN_CELL: usize = 16;

/// The table.
#[tactic(auto, unfolding(crate::specs::Shown::hidden))]
fn hidden() -> &'static [Characters]
    ensures { result.now ≡ spec.hidden }
{
    &HIDDEN
}

/// Whether a number is in one of the ranges.
#[inline(never)]
fn is_in(mut ranges: &[Characters], number: u32) -> bool
    ensures { result ≡ list_any (λ r. is_between r.0 r.1 number) ranges.entry.now }
{
    while let [range, rest @ ..] = ranges {
        if range.0 <= number && number <= range.1 {
            return true;
        }
        ranges = rest;
    }
    false
}

/// Whether a dump shows a character by its bytes: it shows nothing, or changes how others are shown, or is none (the
/// last two of each plane).
#[inline(always)]
pub fn is_hidden(character: char) -> bool
    ensures { result ≡ spec.is_hidden character }
{
    let number = u32::from(character);
    if is_in_gap(number) {
        return false;
    }
    number % 0x1_0000 >= 0xFFFE || is_in(hidden(), number)
}

/// Whether a character lies in one of the long gaps between those of the table. Nearly all letters do: ASCII, Latin,
/// Greek and Cyrillic, Hebrew to Georgian, kana, and kanji with hangul. The table is not looked through for them.
#[inline(always)]
fn is_in_gap(number: u32) -> bool
    ensures { result ≡ true → spec.is_hidden number ≡ false }
{
    matches!(
        number,
        0x20..=0x7E
            | 0xAE..=0x34E
            | 0x350..=0x61B
            | 0x61D..=0x115E
            | 0x2070..=0x3163
            | 0x3165..=0xFDCF
    )
}

/// Whether a dump shows a character as it is.
#[inline(always)]
pub(crate) fn is_dumped(character: char) -> bool
    ensures { result ≡ spec.is_dumped character }
{
    character != '%' && character != ']' && !is_hidden(character)
}

/// A hexadecimal digit, of which those from ten on begin with this one.
fn digit(number: u8, ten: u8) -> u8
    requires small { number < 16 }
    requires room { ten < 240 }
    ensures { result ≡ spec.digit number ten }
{
    if number < 10 {
        b'0' + number
    } else {
        ten + (number - 10)
    }
}

/// A byte as `%XX`.
fn percent(byte: u8) -> [u8; 3]
    ensures { result ≡ spec.percent byte }
{
    [b'%', digit(byte / 16, b'A'), digit(byte % 16, b'A')]
}

/// A byte as `\xNN`.
fn backslashed(byte: u8) -> [u8; 4]
    ensures { result ≡ spec.backslashed byte }
{
    [b'\\', b'x', digit(byte / 16, b'a'), digit(byte % 16, b'a')]
}

/// The same for a character by its bytes. Nearly all characters of Asia have three, and so many are copied without a
/// call.
#[inline(always)]
fn append_character<const N: usize>(bytes: &[u8], text: &mut ArrayVec<u8, N>)
    requires { length text.old.items + length bytes.now ≤ N }
    ensures { text.new.items ≡ text.old.items ++ bytes.now }
{
    match bytes {
        [first, second, third] => append(&[*first, *second, *third], text),
        _ => append(bytes, text),
    }
}

/// Each byte as `%XX`.
fn percents(bytes: &[u8]) -> ArrayVec<u8, MOST_DUMPED>
    requires { length bytes.now ≤ 4 }
    ensures { result.items ≡ flat_map spec.percent bytes.now }
{
    let mut text = ArrayVec::new();
    for byte in bytes {
        append(&percent(*byte), &mut text);
    }
    text
}

/// Each byte as `\xNN`.
fn all_backslashed(bytes: &[u8]) -> ArrayVec<u8, MOST_IN_CELL>
    requires { length bytes.now ≤ 4 }
    ensures { result.items ≡ flat_map spec.backslashed bytes.now }
{
    let mut text = ArrayVec::new();
    for byte in bytes {
        append(&backslashed(*byte), &mut text);
    }
    text
}

/// A character by its bytes of UTF-8.
fn encoded<const N: usize>(character: char) -> ArrayVec<u8, N>
    requires { 4 ≤ N }
    ensures { result.items ≡ encode_utf8 character }
{
    let mut buffer = [0; 4];
    let mut text = ArrayVec::new();
    append(character.encode_utf8(&mut buffer).as_bytes(), &mut text);
    text
}

/// What a dump shows of a part: a character as it is, but of what is escaped or hidden, or has no character, each byte
/// as `%XX`; of a designation nothing.
pub fn dumped(part: &Part) -> ArrayVec<u8, MOST_DUMPED>
    ensures { result.items ≡ spec.dumped_piece (piece_of part.now) }
{
    match part.meaning {
        Meaning::Character(character) if is_dumped(character) => encoded(character),
        Meaning::Character(_) | Meaning::Unknown => percents(part.bytes.as_slice()),
        Meaning::Designation => ArrayVec::new(),
    }
}

/// Appends what a dump shows of some bytes, at most four: what `dumped` gives of a part that they are.
pub fn append_dumped<const N: usize>(bytes: &[u8], meaning: Meaning, text: &mut ArrayVec<u8, N>)
    requires few { length bytes.now ≤ 4 }
    requires room { length text.old.items + 12 ≤ N }
    ensures items { text.new.items ≡ text.old.items ++ spec.dumped_piece (bytes.now, meaning) }
    ensures within { length text.new.items ≤ length text.old.items + 12 }
{
    match meaning {
        Meaning::Character(character) if is_dumped(character) => {
            let mut buffer = [0; 4];
            append_character(character.encode_utf8(&mut buffer).as_bytes(), text);
        }
        Meaning::Character(_) | Meaning::Unknown => append(percents(bytes).as_slice(), text),
        Meaning::Designation => (),
    }
}

/// What a cell shows of a part: a character as it is, and bytes without a character as `\xNN`; of a designation
/// nothing.
pub fn in_cell(part: &Part) -> ArrayVec<u8, MOST_IN_CELL>
    ensures { result.items ≡ spec.cell_piece (piece_of part.now) }
{
    match part.meaning {
        Meaning::Character(character) => encoded(character),
        Meaning::Unknown => all_backslashed(part.bytes.as_slice()),
        Meaning::Designation => ArrayVec::new(),
    }
}
