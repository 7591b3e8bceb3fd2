// Parts of a path whose tags are known.
ghost use Rattle.std.specs.Prelude.{◌≡◌, ◌≤◌, [], ◌∷◌, length, map, option_map};
ghost use Rattle.dcm_edits.specs.EditWords as spec;
ghost use Rattle.dcm_edits.specs.Making.{IsKnown, known_as};
ghost use Rattle.dcm_edits.specs.Meaning.{index_of as index_as};
ghost use Rattle.dcm_edits.specs.Parts.{part_as, PART_LIMIT};

use crate::edit::Index;
use crate::path::{MOST_PARTS, Name, Part};
use arrayvec::ArrayVec;
use dcm_base::{Dictionary, EditRefusal, META_GROUP, Tag, Vr, element_in, tag_in};

/// A tag of a dictionary with its representation, and an index where the part has one.
#[derive(Clone, Copy, Debug, PartialEq, Eq)]
pub struct Known {
    pub tag: Tag,
    pub vr: Vr,
    pub index: Option<Index>,
}

impl Default for Known {
    fn default() -> Known {
        Known {
            tag: Tag::ITEM,
            vr: Vr::UN,
            index: None,
        }
    }
}

/// A tag that edits may name (DECISIONS, D-24).
fn known_tag(dictionary: Dictionary, index: Option<Index>, tag: Tag) -> Result<Known, EditRefusal>
    ensures { IsKnown known_as result (spec.known_tag dictionary (option_map index_as index) tag) }
{
    if tag.group == META_GROUP {
        return Err(EditRefusal::MetaGroup);
    }
    match element_in(dictionary, tag) {
        Some((vr, _)) => Ok(Known { tag, vr, index }),
        None => Err(EditRefusal::UnknownTag),
    }
}

fn known_part(dictionary: Dictionary, part: Part) -> Result<Known, EditRefusal>
    ensures { IsKnown known_as result
        (spec.known_part dictionary (part_as part.entry).name (part_as part.entry).index) }
{
    match part.name {
        Name::Number(tag) => known_tag(dictionary, part.index, tag),
        Name::Keyword(word) => match tag_in(dictionary, word) {
            Some(tag) => known_tag(dictionary, part.index, tag),
            None => Err(EditRefusal::UnknownTag),
        },
    }
}

/// The parts with their tags, or the first refusal (DECISIONS, D-17).
pub fn known_parts(
    dictionary: Dictionary,
    parts: &[Part],
) -> Result<ArrayVec<Known, MOST_PARTS>, EditRefusal>
    requires { length parts.now ≤ PART_LIMIT }
    ensures { IsKnown (λ ks. map known_as ks.items) result (spec.known_parts dictionary (map part_as parts.now)) }
{
    let mut known = ArrayVec::new();
    let mut rest = parts;
    while let [part, after @ ..] = rest {
        known.push(known_part(dictionary, *part)?);
        rest = after;
    }
    Ok(known)
}

/// Whether an indexed tag is a sequence's, and that of a new value is not.
fn uses_sequence(valued: bool, known: Known) -> bool
    ensures { result ≡ spec.uses_sequences valued (known_as known ∷ []) }
{
    let is_sequence = known.vr == Vr::SQ;
    if known.index.is_some() {
        is_sequence
    } else {
        !(valued && is_sequence)
    }
}

/// Whether each indexed tag is a sequence's, and that of a new value is not.
pub fn uses_sequences(valued: bool, mut known: &[Known]) -> bool
    ensures { result ≡ spec.uses_sequences valued (map known_as known.entry.now) }
{
    while let [part, rest @ ..] = known {
        if !uses_sequence(valued, *part) {
            return false;
        }
        known = rest;
    }
    true
}
