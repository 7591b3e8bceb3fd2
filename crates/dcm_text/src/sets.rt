//! What a value of Specific Character Set (0008,0005) names (PS3.3 C.12.1.1.2).
ghost use Rattle.std.specs.Prelude.{◌≡◌, ◌≤◌, map, option_map, position, true, length, ◌==◌, fold};
ghost use Rattle.std.specs.List.{list_all, slice_split};
ghost use Rattle.dcm_text.specs.Sets as spec;

use crate::characters::Single;
use crate::set::{Right, Set};
use dcm_bytes::backslash;

/// A term, what it names, and whether it brings code extensions where it stands alone.
pub type Term = (&'static str, Set, bool);

/// The terms.
#[rattlefmt::skip]
pub const TERMS: [Term; 34] = [
    ("", Set::Ascii, false),
    ("ISO_IR 6", Set::Ascii, false),
    ("ISO_IR 13", Set::Single(Single::Ir13), false),
    ("ISO_IR 100", Set::Single(Single::Ir100), false),
    ("ISO_IR 101", Set::Single(Single::Ir101), false),
    ("ISO_IR 109", Set::Single(Single::Ir109), false),
    ("ISO_IR 110", Set::Single(Single::Ir110), false),
    ("ISO_IR 126", Set::Single(Single::Ir126), false),
    ("ISO_IR 127", Set::Single(Single::Ir127), false),
    ("ISO_IR 138", Set::Single(Single::Ir138), false),
    ("ISO_IR 144", Set::Single(Single::Ir144), false),
    ("ISO_IR 148", Set::Single(Single::Ir148), false),
    ("ISO_IR 166", Set::Single(Single::Ir166), false),
    ("ISO_IR 203", Set::Single(Single::Ir203), false),
    ("ISO 2022 IR 6", Set::Ascii, true),
    ("ISO 2022 IR 13", Set::Single(Single::Ir13), true),
    ("ISO 2022 IR 100", Set::Single(Single::Ir100), true),
    ("ISO 2022 IR 101", Set::Single(Single::Ir101), true),
    ("ISO 2022 IR 109", Set::Single(Single::Ir109), true),
    ("ISO 2022 IR 110", Set::Single(Single::Ir110), true),
    ("ISO 2022 IR 126", Set::Single(Single::Ir126), true),
    ("ISO 2022 IR 127", Set::Single(Single::Ir127), true),
    ("ISO 2022 IR 138", Set::Single(Single::Ir138), true),
    ("ISO 2022 IR 144", Set::Single(Single::Ir144), true),
    ("ISO 2022 IR 148", Set::Single(Single::Ir148), true),
    ("ISO 2022 IR 166", Set::Single(Single::Ir166), true),
    ("ISO 2022 IR 203", Set::Single(Single::Ir203), true),
    ("ISO 2022 IR 87", Set::Ir87, true),
    ("ISO 2022 IR 149", Set::Ir149, true),
    ("ISO 2022 IR 58", Set::Ir58, true),
    ("ISO 2022 IR 159", Set::Ir159, true),
    ("GB18030", Set::Gb18030, false),
    ("GBK", Set::Gb18030, false),
    ("ISO_IR 192", Set::Utf8, false),
];

/// A longer value names what the empty one does.
const LONGEST: usize = 512;

/// The flags of ASCII alone, whose flag is the last.
pub const ASCII_ALONE: u32 = 1 << 16;

/// The character sets in force: what bytes mean at the beginning of a text, and which sets a text may designate.
#[derive(Clone, Copy, Debug, PartialEq, Eq)]
pub struct Sets {
    /// What bytes from 80 on mean at first; those below 80 are ASCII.
    start: Right,
    /// Whether code extensions are in use.
    extended: bool,
    /// Which sets were named: a bit for each, by its place. So all of this has eight bytes, and goes in a register.
    named: u32,
}

/// The place of the flag of a set.
fn place(set: Set) -> u32
    ensures place { result ≡ spec.place set }
    ensures few { result ≤ 16 }
{
    match set {
        Set::Single(Single::Ir13) => 0,
        Set::Single(Single::Ir100) => 1,
        Set::Single(Single::Ir101) => 2,
        Set::Single(Single::Ir109) => 3,
        Set::Single(Single::Ir110) => 4,
        Set::Single(Single::Ir126) => 5,
        Set::Single(Single::Ir127) => 6,
        Set::Single(Single::Ir138) => 7,
        Set::Single(Single::Ir144) => 8,
        Set::Single(Single::Ir148) => 9,
        Set::Single(Single::Ir166) => 10,
        Set::Single(Single::Ir203) => 11,
        Set::Ir87 => 12,
        Set::Ir149 => 13,
        Set::Ir58 => 14,
        Set::Ir159 => 15,
        Set::Ascii | Set::Gb18030 | Set::Utf8 => 16,
    }
}

impl Sets {
    /// The character sets of an empty value.
    pub const DEFAULT: Sets = Sets {
        start: Right::Nothing,
        extended: false,
        named: ASCII_ALONE,
    };

    /// What bytes from 80 on mean where a text begins.
    pub(crate) fn start(&self) -> Right
        ensures { result ≡ self.now.start }
    {
        self.start
    }

    /// Whether code extensions are in use.
    pub(crate) fn is_extended(&self) -> bool
        ensures { result ≡ self.now.extended }
    {
        self.extended
    }

    /// Whether a set was named, so that it may be designated.
    pub(crate) fn has(&self, set: Set) -> bool
        ensures { result ≡ spec.has self.now set }
    {
        (self.named >> place(set)) & 1 == 1
    }
}

/// A place of a list of sets where nothing is kept yet: those of the empty value.
impl Default for Sets {
    fn default() -> Sets {
        Sets::DEFAULT
    }
}

/// The table.
#[tactic(auto, unfolding(crate::specs::Sets::terms))]
fn terms() -> &'static [Term]
    ensures { map (λ t. (t.0.now, t.1, t.2)) result.now ≡ spec.terms }
{
    &TERMS
}

/// What a term names in the first row that has it, and whether it brings code extensions.
fn named_in(mut rows: &[Term], term: &[u8]) -> Option<(Set, bool)>
    ensures { result ≡ spec.named_in (map (λ t. (t.0.now, t.1, t.2)) rows.entry.now) term.now }
{
    while let [row, rest @ ..] = rows {
        if row.0.as_bytes() == term {
            return Some((row.1, row.2));
        }
        rows = rest;
    }
    None
}

/// A text without spaces before it.
fn without_spaces(mut text: &[u8]) -> &[u8]
    ensures { result.now ≡ spec.without_spaces text.entry.now }
{
    while let [b' ', rest @ ..] = text {
        text = rest;
    }
    text
}

/// Whether a byte after a term does not count.
fn is_pad(byte: u8) -> bool
    ensures { result ≡ spec.is_pad byte }
{
    byte == 0 || byte == b' '
}

/// A text without bytes 00 and spaces after it.
fn without_pads(mut text: &[u8]) -> &[u8]
    ensures { result.now ≡ spec.without_pads text.entry.now }
{
    while let [rest @ .., last] = text {
        if !is_pad(*last) {
            return text;
        }
        text = rest;
    }
    text
}

/// What a term names: what is no term, names what the empty one does.
fn named(term: &[u8]) -> (Set, bool)
    ensures { result ≡ spec.named term.now }
{
    match named_in(terms(), without_pads(without_spaces(term))) {
        Some(named) => named,
        None => (Set::Ascii, false),
    }
}

/// What bytes from 80 on mean at first, by the first term.
fn start_of(set: Set) -> Right
    ensures { result ≡ spec.start_of set }
{
    match set {
        Set::Ascii | Set::Ir87 | Set::Ir159 => Right::Nothing,
        Set::Single(single) => Right::Single(single),
        Set::Ir149 => Right::Ir149,
        Set::Ir58 => Right::Ir58,
        Set::Gb18030 => Right::Gb18030,
        Set::Utf8 => Right::Utf8,
    }
}

/// The flags with that of one more set.
fn with_flag(named: u32, set: Set) -> u32
    ensures { result ≡ spec.with_flag named set }
{
    named | (1 << place(set))
}

/// What the first term names, where no other follows.
fn of_first(term: &[u8]) -> Sets
    ensures { result ≡ spec.of_first term.now }
{
    let (set, extended) = named(term);
    Sets {
        start: start_of(set),
        extended,
        named: with_flag(ASCII_ALONE, set),
    }
}

/// The same with one more term: beside a set that stands alone there is no other.
fn with_term(sets: Sets, term: &[u8]) -> Sets
    ensures { result ≡ spec.with_term sets term.now }
{
    if matches!(sets.start, Right::Gb18030 | Right::Utf8) {
        return sets;
    }
    let (set, _) = named(term);
    Sets {
        start: sets.start,
        extended: true,
        named: with_flag(sets.named, set),
    }
}

/// The same with all terms of a text.
fn with_terms(first: Sets, text: &[u8]) -> Sets
    ensures { result ≡ fold spec.with_term first (slice_split (λ b. b == 0x5C) text.now) }
{
    let mut sets = first;
    let mut rest = text;
    while let Some(at) = backslash(rest) {
        let (term, after) = rest.split_at(at);
        sets = with_term(sets, term);
        let (_, next) = after.split_at(1);
        rest = next;
    }
    with_term(sets, rest)
}

/// What a value of Specific Character Set names.
pub fn sets_of(value: &[u8]) -> Sets
    ensures { result ≡ spec.sets_of value.now }
{
    if value.len() > LONGEST {
        return Sets::DEFAULT;
    }
    match backslash(value) {
        None => of_first(value),
        Some(at) => {
            let (term, after) = value.split_at(at);
            let (_, others) = after.split_at(1);
            with_terms(of_first(term), others)
        }
    }
}

/// Whether a term is in the table.
fn is_term(term: &[u8]) -> bool
    ensures { result ≡ spec.is_term term.now }
{
    named_in(terms(), without_pads(without_spaces(term))).is_some()
}

/// Whether all terms of a text are in the table.
fn are_terms(text: &[u8]) -> bool
    ensures { result ≡ list_all spec.is_term (spec.terms_of text.now) }
{
    let mut rest = text;
    while let Some(at) = backslash(rest) {
        let (term, after) = rest.split_at(at);
        if !is_term(term) {
            return false;
        }
        let (_, next) = after.split_at(1);
        rest = next;
    }
    is_term(rest)
}

/// Whether what a value names is known: it has at most 512 bytes, and all its terms are in the table, or empty.
pub fn is_known(value: &[u8]) -> bool
    ensures { result ≡ spec.is_known value.now }
{
    if value.len() > LONGEST {
        return false;
    }
    are_terms(value)
}
