//! What is meant by bytes below 80, and by bytes from 80 on.
use crate::characters::Single;

/// What a term of (0008,0005) names.
#[derive(Clone, Copy, Debug, PartialEq, Eq)]
pub enum Set {
    Ascii,
    Single(Single),
    /// Japanese, two bytes from 21 to 7E.
    Ir87,
    /// More Japanese characters, two bytes from 21 to 7E.
    Ir159,
    /// Korean, two bytes from A1 to FE.
    Ir149,
    /// Chinese, two bytes from A1 to FE.
    Ir58,
    /// Chinese, two or four bytes from 81 on; GBK, which is a part of it, too.
    Gb18030,
    Utf8,
}

/// What bytes from 80 on mean (G1).
#[derive(Clone, Copy, Debug, PartialEq, Eq)]
pub enum Right {
    Nothing,
    Single(Single),
    Ir149,
    Ir58,
    Gb18030,
    Utf8,
}

/// What bytes below 80 mean (G0).
#[derive(Clone, Copy, Debug, PartialEq, Eq)]
pub enum Left {
    Ascii,
    Ir87,
    Ir159,
}

/// What all bytes mean: G0 and G1.
#[derive(Clone, Copy, Debug, PartialEq, Eq)]
pub struct Halves {
    pub left: Left,
    pub right: Right,
}

/// What a designation changes.
#[derive(Clone, Copy, Debug, PartialEq, Eq)]
pub enum Effect {
    Left(Left),
    Right(Right),
}

/// After which characters a text goes on as it began, beside controls (PS3.5 6.1.2.5.3).
#[derive(Clone, Copy, Debug, PartialEq, Eq)]
pub enum TextKind {
    /// None: ST, LT and UT, which are one value.
    OneValue,
    /// The backslash between values: SH, LO and UC.
    Values,
    /// Also what separates the parts of a name: PN.
    Names,
}
