use dcm_base::{Coding, Stop};

/// How the reading of a file's head ended.
#[derive(Clone, Copy, Debug, PartialEq, Eq)]
pub enum MetaEnd {
    Refused(Stop),
    Ended(Coding),
}

/// What a piece led to. The data set begins `used` bytes into the piece, after the byte `ahead` of an earlier one.
#[derive(Clone, Copy, Debug, PartialEq, Eq)]
pub enum MetaRead {
    More,
    Ended { used: usize, ahead: Option<u8> },
    Refused(Stop),
}
