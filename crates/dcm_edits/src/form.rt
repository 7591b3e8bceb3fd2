// The forms that the paths of edits have.
ghost use Rattle.std.specs.Prelude.{◌≡◌, map};
ghost use Rattle.dcm_edits.specs.EditWords as spec;
ghost use Rattle.dcm_edits.specs.Making.{kind_as};
ghost use Rattle.dcm_edits.specs.Parts.{part_as};

use crate::path::Part;

/// The most indexes of a path.
const MOST_INDEXES: usize = 64;

/// What an edit with a path does.
#[derive(Clone, Copy, Debug, PartialEq, Eq)]
pub enum Kind {
    Inserts,
    Modifies,
    Erases,
    ModifiesAll,
    ErasesAll,
}

impl Kind {
    /// Whether a value follows the path.
    pub fn takes_value(self) -> bool
        ensures { result ≡ spec.takes_value (kind_as self) }
    {
        match self {
            Kind::Inserts | Kind::Modifies | Kind::ModifiesAll => true,
            Kind::Erases | Kind::ErasesAll => false,
        }
    }
}

/// Whether each part but the last has an index.
fn leads(mut parts: &[Part]) -> bool
    ensures { result ≡ spec.leads (map part_as parts.entry.now) }
{
    while let [part, rest @ ..] = parts {
        if rest.is_empty() {
            return true;
        }
        if part.index.is_none() {
            return false;
        }
        parts = rest;
    }
    false
}

/// Whether the last part has no index.
fn ends_in_tag(mut parts: &[Part]) -> bool
    ensures { result ≡ spec.ends_in_tag (map part_as parts.entry.now) }
{
    while let [part, rest @ ..] = parts {
        if rest.is_empty() {
            return part.index.is_none();
        }
        parts = rest;
    }
    false
}

fn index_count(parts: &[Part]) -> usize
    ensures { result ≡ spec.index_count (map part_as parts.now) }
{
    let mut count = 0;
    for part in parts {
        if part.index.is_some() {
            count += 1;
        }
    }
    count
}

/// Whether a path is one for an edit of this kind.
pub fn has_form(kind: Kind, parts: &[Part]) -> bool
    ensures { result ≡ spec.has_form (kind_as kind) (map part_as parts.now) }
{
    match kind {
        Kind::Inserts | Kind::Modifies => {
            leads(parts) && ends_in_tag(parts) && index_count(parts) <= MOST_INDEXES
        }
        Kind::Erases => leads(parts) && index_count(parts) <= MOST_INDEXES,
        Kind::ModifiesAll | Kind::ErasesAll => parts.len() == 1 && ends_in_tag(parts),
    }
}
