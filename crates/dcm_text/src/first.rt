//! What a text begins with.
ghost use Rattle.std.specs.Prelude.{◌≡◌, ◌≤◌, ◌+◌, length, map, Some};
ghost use Rattle.dcm_text.specs.Forms.{fit_of, other_forms};
ghost use Rattle.dcm_text.specs.First as spec;

use crate::characters::Single;
use crate::form::{
    Fit, Form, Opening, Range, character_of, fit_of, high_pair, left_opening, low_pair, ranges,
    right_opening, starts,
};
use crate::quick::{quick_designation, quick_of};
use crate::set::{Effect, Halves, Left, Right, Set, TextKind};
use crate::sets::Sets;

/// What some bytes of a text mean.
#[derive(Clone, Copy, Debug, PartialEq, Eq)]
pub enum Meaning {
    /// A character.
    Character(char),
    /// Bytes without a character.
    Unknown,
    /// An escape sequence that designates a character set (PS3.5 6.1.2.5.3), which shows nothing.
    Designation,
}

/// What a text begins with: how many bytes, what they are, and what all bytes mean behind them.
#[derive(Clone, Copy, Debug, PartialEq, Eq)]
pub struct Found {
    pub size: usize,
    pub meaning: Meaning,
    pub halves: Halves,
}

/// The byte that begins a designation.
const ESCAPE: u8 = 0x1B;

/// A designation: its bytes behind ESC, the set that has to be named for it, and what it changes.
pub type Designation = (&'static str, Set, Effect);

/// The designations (PS3.3 C.12.1.1.2).
#[rattlefmt::skip]
pub const DESIGNATIONS: [Designation; 20] = [
    ("(B", Set::Ascii, Effect::Left(Left::Ascii)),
    ("(J", Set::Single(Single::Ir13), Effect::Left(Left::Ascii)),
    ("(J", Set::Ir87, Effect::Left(Left::Ascii)),
    ("(J", Set::Ir159, Effect::Left(Left::Ascii)),
    ("$B", Set::Ir87, Effect::Left(Left::Ir87)),
    ("$(D", Set::Ir159, Effect::Left(Left::Ir159)),
    ("$)C", Set::Ir149, Effect::Right(Right::Ir149)),
    ("$)A", Set::Ir58, Effect::Right(Right::Ir58)),
    (")I", Set::Single(Single::Ir13), Effect::Right(Right::Single(Single::Ir13))),
    ("-A", Set::Single(Single::Ir100), Effect::Right(Right::Single(Single::Ir100))),
    ("-B", Set::Single(Single::Ir101), Effect::Right(Right::Single(Single::Ir101))),
    ("-C", Set::Single(Single::Ir109), Effect::Right(Right::Single(Single::Ir109))),
    ("-D", Set::Single(Single::Ir110), Effect::Right(Right::Single(Single::Ir110))),
    ("-F", Set::Single(Single::Ir126), Effect::Right(Right::Single(Single::Ir126))),
    ("-G", Set::Single(Single::Ir127), Effect::Right(Right::Single(Single::Ir127))),
    ("-H", Set::Single(Single::Ir138), Effect::Right(Right::Single(Single::Ir138))),
    ("-L", Set::Single(Single::Ir144), Effect::Right(Right::Single(Single::Ir144))),
    ("-M", Set::Single(Single::Ir148), Effect::Right(Right::Single(Single::Ir148))),
    ("-T", Set::Single(Single::Ir166), Effect::Right(Right::Single(Single::Ir166))),
    ("-b", Set::Single(Single::Ir203), Effect::Right(Right::Single(Single::Ir203))),
];

/// The table.
#[tactic(auto, unfolding(crate::specs::First::designations))]
fn designations() -> &'static [Designation]
    ensures { map (λ d. (d.0.now, d.1, d.2)) result.now ≡ spec.designations }
{
    &DESIGNATIONS
}

/// What a character means, where there is one.
#[inline(always)]
pub(crate) fn meaning_of(character: Option<char>) -> Meaning
    ensures { result ≡ spec.meaning_of character }
{
    match character {
        Some(character) => Meaning::Character(character),
        None => Meaning::Unknown,
    }
}

/// One byte without a character.
pub(crate) fn one_unknown(halves: Halves) -> Found
    ensures { result ≡ spec.one_unknown halves }
{
    Found {
        size: 1,
        meaning: Meaning::Unknown,
        halves,
    }
}

/// What a designation leaves.
fn changed(halves: Halves, effect: Effect) -> Halves
    ensures { result ≡ spec.changed halves effect }
{
    match effect {
        Effect::Left(left) => Halves {
            left,
            right: halves.right,
        },
        Effect::Right(right) => Halves {
            left: halves.left,
            right,
        },
    }
}

/// How bytes fit a designation: not, where its set was not named.
fn fits(sets: &Sets, designation: &Designation, bytes: &[u8]) -> Fit
    ensures { result ≡ spec.fits sets.now (designation.now.0.now, designation.now.1, designation.now.2) bytes.now }
{
    if !sets.has(designation.1) {
        return Fit::Not;
    }
    starts(designation.0.as_bytes(), bytes)
}

/// What bytes behind ESC are, by the first designation that they fit: ESC has no character, where there is none.
fn designated(sets: &Sets, mut rows: &[Designation], halves: Halves, bytes: &[u8]) -> Option<Found>
    ensures { result ≡ spec.designated sets.now (map (λ d. (d.0.now, d.1, d.2)) rows.entry.now) halves bytes.now }
{
    while let [row, rest @ ..] = rows {
        match fits(sets, row, bytes) {
            Fit::Whole => {
                let halves = changed(halves, row.2);
                return Some(Found {
                    size: 1 + row.0.len(),
                    meaning: Meaning::Designation,
                    halves,
                });
            }
            Fit::Part => return None,
            Fit::Not => (),
        }
        rows = rest;
    }
    Some(one_unknown(halves))
}

/// What bytes behind ESC are. The two designations of nearly all names are looked at first.
fn escaped(sets: &Sets, halves: Halves, bytes: &[u8]) -> Option<Found>
    ensures { result ≡ spec.designated sets.now spec.designations halves bytes.now }
{
    match quick_designation(sets, halves, bytes) {
        Some(found) => Some(found),
        None => designated(sets, designations(), halves, bytes),
    }
}

/// So many bytes that are a form.
fn formed(form: Form, halves: Halves, bytes: &[u8], size: usize) -> Found
    requires { size ≤ length bytes.now }
    ensures { result ≡ spec.formed form halves bytes.now size }
{
    let (bytes, _) = bytes.split_at(size);
    Found {
        size,
        meaning: meaning_of(character_of(form, bytes)),
        halves,
    }
}

/// What bytes are that are a form, a part of one, or something else.
fn by_ranges(
    form: Form,
    halves: Halves,
    bytes: &[u8],
    rest: &[u8],
    ranges: &[Range],
    other: Option<Found>,
) -> Option<Found>
    requires { length bytes.now ≡ 1 + length rest.now }
    ensures { result ≡ spec.by_fit (fit_of ranges.now rest.now)
        (Some (spec.formed form halves bytes.now (1 + length ranges.now))) other }
{
    match fit_of(ranges, rest) {
        Fit::Whole => Some(formed(form, halves, bytes, 1 + ranges.len())),
        Fit::Part => None,
        Fit::Not => other,
    }
}

/// What bytes are that are not the first form which is tried: the first byte has no character, where there is no other.
fn of_others(form: Form, halves: Halves, bytes: &[u8], rest: &[u8]) -> Option<Found>
    requires { length bytes.now ≡ 1 + length rest.now }
    ensures { result ≡ spec.of_forms form halves bytes.now rest.now (other_forms form) }
{
    let none = Some(one_unknown(halves));
    match form {
        Form::Gb18030 => {
            let high = by_ranges(form, halves, bytes, rest, high_pair(), none);
            by_ranges(form, halves, bytes, rest, low_pair(), high)
        }
        Form::Ir87 | Form::Ir159 | Form::Ir149 | Form::Ir58 | Form::Utf8 => none,
    }
}

/// What bytes are that perhaps begin with a form: the first has no character, where they do not.
fn of_form(form: Form, halves: Halves, bytes: &[u8]) -> Option<Found>
    ensures { result ≡ spec.of_form form halves bytes.now }
{
    let [first, rest @ ..] = bytes else {
        return None;
    };
    let others = of_others(form, halves, bytes, rest);
    by_ranges(form, halves, bytes, rest, ranges(form, *first), others)
}

/// What all bytes mean where a text begins.
pub(crate) fn start_of(sets: &Sets) -> Halves
    ensures { result ≡ spec.start_of sets.now }
{
    Halves {
        left: Left::Ascii,
        right: sets.start(),
    }
}

/// Whether a text goes on behind a byte as it began.
fn resets(kind: TextKind, byte: u8) -> bool
    ensures { result ≡ spec.resets kind byte }
{
    match kind {
        TextKind::OneValue => byte < b' ',
        TextKind::Values => byte < b' ' || byte == b'\\',
        TextKind::Names => byte < b' ' || byte == b'\\' || byte == b'^' || byte == b'=',
    }
}

/// What all bytes mean behind a byte that stands for itself.
fn behind(sets: &Sets, kind: TextKind, halves: Halves, byte: u8) -> Halves
    ensures { result ≡ spec.behind sets.now kind halves byte }
{
    if resets(kind, byte) {
        start_of(sets)
    } else {
        halves
    }
}

/// What a byte begins.
fn opening_of(halves: Halves, byte: u8) -> Opening
    ensures { result ≡ spec.opening_of halves byte }
{
    if byte < 0x80 {
        left_opening(halves.left, byte)
    } else {
        right_opening(halves.right, byte)
    }
}

/// Whether a byte may begin a designation.
fn is_escape(sets: &Sets, byte: u8) -> bool
    ensures { result ≡ spec.is_escape sets.now byte }
{
    byte == ESCAPE && sets.is_extended()
}

/// What a text is, by what its first byte begins.
fn opened(
    opening: Opening,
    sets: &Sets,
    kind: TextKind,
    halves: Halves,
    text: &[u8],
) -> Option<Found>
    ensures { result ≡ spec.opened opening sets.now kind halves text.now }
{
    match opening {
        Opening::Byte(character) => {
            let [byte, ..] = text else {
                return None;
            };
            let halves = behind(sets, kind, halves, *byte);
            Some(Found {
                size: 1,
                meaning: meaning_of(character),
                halves,
            })
        }
        Opening::Form(form) => of_form(form, halves, text),
    }
}

/// The same as `first_of`, by all forms and designations.
#[tactic(auto, unfolding(crate::specs::First::first_of))]
#[inline(never)]
fn first_by_all(sets: &Sets, kind: TextKind, halves: Halves, text: &[u8]) -> Option<Found>
    ensures { result ≡ spec.first_of sets.now kind halves text.now }
{
    let [byte, rest @ ..] = text else {
        return None;
    };
    if is_escape(sets, *byte) {
        return escaped(sets, halves, rest);
    }
    opened(opening_of(halves, *byte), sets, kind, halves, text)
}

/// What a text begins with, or nothing where all of it may be a part of something. Nearly all characters of more than
/// one byte are read directly.
#[inline(always)]
pub(crate) fn first_of(sets: &Sets, kind: TextKind, halves: Halves, text: &[u8]) -> Option<Found>
    ensures { result ≡ spec.first_of sets.now kind halves text.now }
{
    match quick_of(halves, text) {
        Some(found) => Some(found),
        None => first_by_all(sets, kind, halves, text),
    }
}
