//! How the values of a text are written.
ghost use Rattle.std.specs.Prelude.{◌≡◌};
ghost use Rattle.dcm_json.specs.Shape as spec;

use dcm_base::Vr;

/// How the values of a text are cut and written (PS3.5 6.2, PS3.18 F.2.2).
#[derive(Clone, Copy, Debug, PartialEq, Eq)]
pub enum TextShape {
    /// Strings between backslashes.
    Strings,
    /// One string: LT, ST, UR and UT.
    OneString,
    /// Numbers with fraction and exponent between backslashes, or strings: DS.
    Decimals,
    /// Whole numbers between backslashes, or strings: IS.
    Integers,
    /// Names of up to three groups between backslashes: PN.
    Names,
}

/// A group of a name (PS3.5 6.2.1.2).
#[derive(Clone, Copy, Debug, PartialEq, Eq)]
pub enum Group {
    Alphabetic,
    Ideographic,
    Phonetic,
}

impl Group {
    /// The group behind a `=`, where one begins there.
    pub fn next(self) -> Option<Group>
        ensures { result ≡ spec.next_group self }
    {
        match self {
            Group::Alphabetic => Some(Group::Ideographic),
            Group::Ideographic => Some(Group::Phonetic),
            Group::Phonetic => None,
        }
    }
}

/// How the values of a text of this representation are written.
pub fn shape_of(vr: Vr) -> TextShape
    ensures { result ≡ spec.shape_of vr }
{
    match vr {
        Vr::LT | Vr::ST | Vr::UR | Vr::UT => TextShape::OneString,
        Vr::DS => TextShape::Decimals,
        Vr::IS => TextShape::Integers,
        Vr::PN => TextShape::Names,
        _ => TextShape::Strings,
    }
}

impl TextShape {
    /// Whether values stand between backslashes.
    pub fn is_cut(self) -> bool
        ensures { result ≡ spec.is_cut self }
    {
        !matches!(self, TextShape::OneString)
    }

    /// Whether a value may be a number.
    pub fn is_numeric(self) -> bool
        ensures { result ≡ spec.is_numeric self }
    {
        matches!(self, TextShape::Decimals | TextShape::Integers)
    }

    /// Whether values are names.
    pub fn is_names(self) -> bool
        ensures { result ≡ spec.is_names self }
    {
        matches!(self, TextShape::Names)
    }
}
