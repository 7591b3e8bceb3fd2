// The lines of a dump.
ghost use Rattle.std.specs.Prelude.{◌≡◌, ◌≤◌, ◌&&◌, true, Some, option_map, length, take, drop, codes, bytes_eq};
ghost use Rattle.dcm_base.specs.Lines.Build as build;
ghost use Rattle.dcm_base.specs.declared.vr.Vr.TheVariants.{OB};
ghost use Rattle.dcm_base.specs.Lines.Line as spec;
ghost use Rattle.dcm_base.specs.Lines.ReadValue.{value_of_text};
ghost use Rattle.dcm_build.specs.LineShown as shown;

use dcm_base::{ITEM_GROUP, Tag, Vr, vr_of};
use dcm_value::tag_of_text;

/// The bytes of a tag in a line.
const TAG: usize = 11;

/// The letters of items and delimiters, which have no value representation.
const NO_LETTERS: &[u8] = b"na";

/// The letters of fragments.
const FRAGMENT_LETTERS: &[u8] = b"pi";

/// The front of what a line shows where an item begins.
const ITEM: &[u8] = b"(Item with";

/// Where an item ends.
const ITEM_END: &[u8] = b"(ItemDelimitationItem";

/// Where a sequence or a list of fragments ends.
const SEQUENCE_END: &[u8] = b"(SequenceDelimitationItem";

/// Where a sequence begins.
const SEQUENCE: &[u8] = b"(Sequence with";

/// Where a list of fragments begins.
const FRAGMENT_LIST: &[u8] = b"(PixelSequence";

/// How a comment ends that says that texts are shown as characters.
const CHARACTERS_MARK: &[u8] = b"(texts in UTF-8)";

/// Eight spaces, as one number.
const EIGHT_SPACES: u64 = 0x2020_2020_2020_2020;

/// One thing that a line shows. A value is still its text.
#[derive(Clone, Copy, Debug, PartialEq, Eq)]
pub enum Step<'a> {
    Leaf(Tag, Vr, &'a [u8]),
    Sequence(Tag, Vr),
    FragmentList(Tag, Vr),
    Item,
    Fragment(&'a [u8]),
    ItemEnd,
    SequenceEnd,
}

/// What a line means.
#[derive(Clone, Copy, Debug, PartialEq, Eq)]
pub enum Meaning<'a> {
    /// The line is blank, or a comment.
    Nothing,
    Step(Step<'a>),
    /// The line is a comment which says that the dump shows texts as characters.
    ByCharacters,
    /// The line is no line of a dump.
    NoLine,
}

fn are_spaces(bytes: &[u8; 8]) -> bool
    ensures { result ≡ true → bytes.now ≡ shown.eight_spaces }
{
    u64::from_le_bytes(*bytes) == EIGHT_SPACES
}

/// What follows spaces, eight of which are passed at a time.
fn past_eights(bytes: &[u8]) -> &[u8]
    ensures { spec.without_spaces bytes.now ≡ spec.without_spaces result.now }
{
    let mut rest = bytes;
    while let Some((front, after)) = rest.split_first_chunk() {
        if !are_spaces(front) {
            return rest;
        }
        rest = after;
    }
    rest
}

fn without_spaces(bytes: &[u8]) -> &[u8]
    ensures { result.now ≡ spec.without_spaces bytes.now }
{
    let mut rest = past_eights(bytes);
    while let [b' ', after @ ..] = rest {
        rest = after;
    }
    rest
}

/// What follows one or more spaces.
fn past_spaces(bytes: &[u8]) -> Option<&[u8]>
    ensures { option_map (λ b. b.now) result ≡ spec.past_spaces bytes.now }
{
    match bytes {
        [b' ', after @ ..] => Some(without_spaces(after)),
        _ => None,
    }
}

/// Whether there is nothing, or a comment.
fn is_end(bytes: &[u8]) -> bool
    ensures { result ≡ spec.is_end bytes.now }
{
    matches!(bytes, [] | [b'#', ..])
}

fn is_skipped(line: &[u8]) -> bool
    ensures { result ≡ spec.is_skipped line.now }
{
    is_end(without_spaces(line))
}

/// How many bytes there are up to the first closing bracket, with it, or in all.
fn bracket_end(bytes: &[u8]) -> usize
    ensures cut { spec.through_bracket bytes.now ≡ spec.field (take result bytes.now) (drop result bytes.now) }
    ensures within { result ≤ length bytes.now }
{
    for (i, byte) in bytes.iter().enumerate() {
        if *byte == b']' {
            return i + 1;
        }
    }
    bytes.len()
}

/// Whether there is a closing parenthesis that a space or the line's end follows.
fn is_closed(bytes: &[u8]) -> bool
    ensures { result ≡ shown.is_closed bytes.now }
{
    matches!(bytes, [b')'] | [b')', b' ', ..])
}

/// How many there are up to the first closing parenthesis that a space or the line's end follows, with it, or in all.
fn parenthesis_end(bytes: &[u8]) -> usize
    ensures cut { spec.through_parenthesis bytes.now ≡ spec.field (take result bytes.now) (drop result bytes.now) }
    ensures within { result ≤ length bytes.now }
{
    for i in 0..bytes.len() {
        if is_closed(&bytes[i..]) {
            return i + 1;
        }
    }
    bytes.len()
}

/// How many there are before the first space, or in all.
fn space_start(bytes: &[u8]) -> usize
    ensures cut { spec.up_to_space bytes.now ≡ spec.field (take result bytes.now) (drop result bytes.now) }
    ensures within { result ≤ length bytes.now }
{
    for (i, byte) in bytes.iter().enumerate() {
        if *byte == b' ' {
            return i;
        }
    }
    bytes.len()
}

/// How many bytes the value field has, which its first byte decides.
fn field_end(bytes: &[u8]) -> usize
    ensures cut { spec.value_field bytes.now ≡ spec.field (take result bytes.now) (drop result bytes.now) }
    ensures within { result ≤ length bytes.now }
{
    match bytes {
        [] => 0,
        [b'[', ..] => bracket_end(bytes),
        [b'(', ..] => parenthesis_end(bytes),
        _ => space_start(bytes),
    }
}

/// The value field at the front of bytes, where nothing or a comment follows it.
fn sole_value(bytes: &[u8]) -> Option<&[u8]>
    ensures { option_map (λ v. v.now) result ≡ shown.sole_value bytes.now }
{
    let (value, rest) = bytes.split_at(field_end(bytes));
    if is_skipped(rest) { Some(value) } else { None }
}

fn leaf<'a>(tag: Tag, vr: Vr, bytes: &'a [u8]) -> Meaning<'a>
    ensures { shown.meaning_of result ≡ spec.with_value (λ v. spec.show_leaf tag vr (value_of_text vr v)) bytes.now }
{
    match sole_value(bytes) {
        Some(text) => Meaning::Step(Step::Leaf(tag, vr, text)),
        None => Meaning::NoLine,
    }
}

fn fragment(bytes: &[u8]) -> Meaning<'_>
    ensures { shown.meaning_of result ≡ spec.with_value (λ v. spec.show_fragment (value_of_text OB v)) bytes.now }
{
    match sole_value(bytes) {
        Some(text) => Meaning::Step(Step::Fragment(text)),
        None => Meaning::NoLine,
    }
}

/// The step, where this holds.
fn only_where(holds: bool, step: Step<'_>) -> Meaning<'_>
    ensures { shown.meaning_of result ≡ spec.only_where holds (shown.step_of step.entry) }
{
    if holds {
        Meaning::Step(step)
    } else {
        Meaning::NoLine
    }
}

/// Whether bytes begin with this text.
fn begins(bytes: &[u8], text: &[u8]) -> bool
    ensures { result ≡ spec.begins text.now bytes.now }
{
    let mut left = bytes;
    let mut wanted = text;
    while let [first, more @ ..] = wanted {
        match left {
            [byte, after @ ..] if byte == first => {
                left = after;
                wanted = more;
            }
            _ => return false,
        }
    }
    true
}

/// Whether the letters are those of items and delimiters, and what follows begins with this text.
fn is_named(letters: &[u8; 2], bytes: &[u8], text: &[u8]) -> bool
    ensures { result ≡ (bytes_eq letters.now (codes "na") && spec.begins text.now bytes.now) }
{
    letters.as_slice() == NO_LETTERS && begins(bytes, text)
}

/// What an item, a fragment or a delimiter means.
fn item_meaning<'a>(tag: Tag, letters: &[u8; 2], bytes: &'a [u8]) -> Meaning<'a>
    ensures { shown.meaning_of result ≡ spec.item_meaning tag letters.now bytes.now }
{
    if tag == Tag::ITEM && letters.as_slice() == FRAGMENT_LETTERS {
        return fragment(bytes);
    }
    if tag == Tag::ITEM {
        return only_where(is_named(letters, bytes, ITEM), Step::Item);
    }
    if tag == Tag::ITEM_END {
        return only_where(is_named(letters, bytes, ITEM_END), Step::ItemEnd);
    }
    only_where(
        tag == Tag::SEQUENCE_END && is_named(letters, bytes, SEQUENCE_END),
        Step::SequenceEnd,
    )
}

fn may_be_sequence(vr: Vr) -> bool
    ensures { result ≡ spec.may_be_sequence vr }
{
    matches!(vr, Vr::SQ | Vr::UN)
}

fn may_be_fragments(vr: Vr) -> bool
    ensures { result ≡ spec.may_be_fragments vr }
{
    matches!(vr, Vr::OB | Vr::OW)
}

/// What an element means.
fn element_meaning<'a>(tag: Tag, vr: Vr, bytes: &'a [u8]) -> Meaning<'a>
    ensures { shown.meaning_of result ≡ spec.element_meaning tag (Some vr) bytes.now }
{
    if may_be_sequence(vr) && begins(bytes, SEQUENCE) {
        return Meaning::Step(Step::Sequence(tag, vr));
    }
    if may_be_fragments(vr) && begins(bytes, FRAGMENT_LIST) {
        return Meaning::Step(Step::FragmentList(tag, vr));
    }
    leaf(tag, vr, bytes)
}

/// The tag, the letters, and all from the value field on.
#[derive(Clone, Copy, Debug, PartialEq, Eq)]
struct LineParts<'a> {
    tag: Tag,
    letters: &'a [u8; 2],
    rest: &'a [u8],
}

/// The letters after a tag, and all from the value field on, which isn't missing.
fn after_tag(bytes: &[u8]) -> Option<(&[u8; 2], &[u8])>
    ensures { option_map (λ p. (p.0.now, p.1.now)) result ≡ shown.after_tag bytes.now }
{
    let named = past_spaces(bytes)?;
    let (letters, after) = named.split_first_chunk()?;
    let rest = past_spaces(after)?;
    if is_end(rest) {
        return None;
    }
    Some((letters, rest))
}

fn parts(line: &[u8]) -> Option<LineParts<'_>>
    ensures { option_map shown.parts_of result ≡ spec.parts line.now }
{
    let (text, after) = without_spaces(line).split_at_checked(TAG)?;
    let tag = tag_of_text(text)?;
    let (letters, rest) = after_tag(after)?;
    Some(LineParts { tag, letters, rest })
}

fn parts_meaning(parts: LineParts<'_>) -> Meaning<'_>
    ensures { shown.meaning_of result ≡ spec.meaning_of (Some (shown.parts_of parts.entry)) }
{
    if parts.tag.group == ITEM_GROUP {
        return item_meaning(parts.tag, parts.letters, parts.rest);
    }
    match vr_of(parts.letters) {
        Some(vr) => element_meaning(parts.tag, vr, parts.rest),
        None => Meaning::NoLine,
    }
}

/// What precedes the spaces at the end.
fn without_last_spaces(bytes: &[u8]) -> &[u8]
    ensures { result.now ≡ spec.without_last_spaces bytes.now }
{
    let mut rest = bytes;
    while let [before @ .., b' '] = rest {
        rest = before;
    }
    rest
}

/// Whether a comment says that texts are shown as characters.
fn is_marked(line: &[u8]) -> bool
    ensures { result ≡ spec.is_marked line.now }
{
    without_last_spaces(line).ends_with(CHARACTERS_MARK)
}

/// What a comment means, or a line of spaces.
fn comment_meaning(line: &[u8]) -> Meaning<'_>
    ensures { shown.meaning_of result ≡ spec.comment_meaning line.now }
{
    if is_marked(line) {
        Meaning::ByCharacters
    } else {
        Meaning::Nothing
    }
}

/// What one line means, without its newline and a carriage return before it.
pub fn means<'a>(line: &'a [u8]) -> Meaning<'a>
    ensures { shown.meaning_of result ≡ spec.means line.now }
{
    let text = without_spaces(line);
    if is_end(text) {
        return comment_meaning(line);
    }
    match parts(text) {
        Some(parts) => parts_meaning(parts),
        None => Meaning::NoLine,
    }
}

/// A line without a carriage return at its end.
pub fn without_return(line: &[u8]) -> &[u8]
    ensures { result.now ≡ build.without_return line.now }
{
    match line {
        [front @ .., b'\r'] => front,
        _ => line,
    }
}
