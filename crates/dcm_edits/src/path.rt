// The parts of a path.
ghost use Rattle.std.specs.Prelude.{◌≡◌, map, option_map};
ghost use Rattle.dcm_edits.specs.EditWords as spec;
ghost use Rattle.dcm_edits.specs.Meaning.{index_of as index_as};
ghost use Rattle.dcm_edits.specs.Parts.{name_as, part_as, index_in as said_index, few, path_parts};

use crate::edit::Index;
use arrayvec::ArrayVec;
use bstr::ByteSlice;
use dcm_base::{Tag, decimal_number};
use dcm_value::tag_of_text;

/// The most parts of a path: each but the last has an index, and there are at most 64 indexes.
pub const MOST_PARTS: usize = 65;

/// The most digits of an index.
const MOST_DIGITS: usize = 9;

/// A tag as it is written.
#[derive(Clone, Copy, Debug)]
pub enum Name<'a> {
    Number(Tag),
    Keyword(&'a [u8]),
}

/// A part of a path: a tag as it is written, and an index where it has one.
#[derive(Clone, Copy, Debug)]
pub struct Part<'a> {
    pub name: Name<'a>,
    pub index: Option<Index>,
}

impl<'a> Default for Part<'a> {
    fn default() -> Part<'a> {
        Part {
            name: Name::Number(Tag::ITEM),
            index: None,
        }
    }
}

/// A text up to the first such byte, and what follows that byte, where it is there.
pub fn cut_at(byte: u8, text: &[u8]) -> (&[u8], Option<&[u8]>)
    ensures { spec.cut_at byte text.now ≡ spec.cut result.0.now (option_map (λ t. t.now) result.1) }
{
    match text.find_byte(byte) {
        Some(at) => {
            let (before, rest) = text.split_at(at);
            let (_, after) = rest.split_at(1);
            (before, Some(after))
        }
        None => (text, None),
    }
}

/// Whether a byte has a meaning in a path, so that no keyword has it.
fn is_of_path(byte: u8) -> bool
    ensures { result ≡ spec.is_of_path byte }
{
    byte == b'.' || byte == b'[' || byte == b']'
}

fn is_keyword(text: &[u8]) -> bool
    ensures { result ≡ spec.is_keyword text.now }
{
    text.iter().all(|byte| !is_of_path(*byte))
}

/// A name that begins with a parenthesis is a number, and any other one is a keyword.
fn name_of(text: &[u8]) -> Option<Name>
    ensures { option_map name_as result ≡ spec.tag_name text.now }
{
    match text {
        [] => None,
        [b'(', ..] => Some(Name::Number(tag_of_text(text)?)),
        _ if is_keyword(text) => Some(Name::Keyword(text)),
        _ => None,
    }
}

/// A star, or 1 to 9 digits.
fn index_of(text: &[u8]) -> Option<Index>
    ensures { option_map index_as result ≡ spec.index_of text.now }
{
    if text == b"*".as_slice() {
        return Some(Index::Every);
    }
    if text.len() > MOST_DIGITS {
        return None;
    }
    let number = decimal_number(text)?;
    Some(Index::Number(number as u32))
}

/// The index that ends a part, after its opening bracket.
fn index_in(inside: &[u8]) -> Option<Index>
    ensures { option_map index_as result ≡ said_index inside.now }
{
    match cut_at(b']', inside) {
        (text, Some([])) => index_of(text),
        _ => None,
    }
}

fn part_of(text: &[u8]) -> Option<Part>
    ensures { option_map part_as result ≡ spec.part_of text.now }
{
    let (name, inside) = cut_at(b'[', text);
    let name = name_of(name)?;
    match inside {
        None => Some(Part { name, index: None }),
        Some(inside) => Some(Part {
            name,
            index: Some(index_in(inside)?),
        }),
    }
}

/// The parts of a path between its dots, unless there are too many.
pub fn parts_of(path: &[u8]) -> Option<ArrayVec<Part, MOST_PARTS>>
    ensures { option_map (λ ps. map part_as ps.items) result ≡ few (path_parts path.now) }
{
    let mut parts = ArrayVec::new();
    let mut rest = Some(path);
    while let Some(text) = rest {
        let (first, after) = cut_at(b'.', text);
        let part = part_of(first)?;
        if parts.is_full() {
            return None;
        }
        parts.push(part);
        rest = after;
    }
    Some(parts)
}
