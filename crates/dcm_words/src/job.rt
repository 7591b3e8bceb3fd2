// What a run has to do.
ghost use Rattle.std.specs.Prelude.{◌≤◌};
ghost use Rattle.dcm_base.specs.Lines.Limits.{LINE_LIMIT};
ghost use Rattle.dcm_words.specs.Words.{LEAST_LIMIT};

use crate::tags::Tags;
use arrayvec::ArrayVec;
use dcm_base::{Dictionary, Mode, Syntax};
use dcm_deid::Options;
use dcm_edits::Edits;
use std::alloc::{Allocator, Global};

/// What a run has to do.
#[derive(Debug, Drop)]
pub enum Job<A: Allocator = Global> {
    Dump(Dump),
    Convert(Convert),
    Build(Build),
    Modify(Modify<A>),
    Deidentify(Deidentify),
}

/// How the texts of a file are shown.
#[derive(Clone, Copy, Debug, PartialEq, Eq)]
pub enum Texts {
    /// By their bytes.
    Bytes,
    /// By Specific Character Set (0008,0005), in UTF-8.
    Characters,
}

/// The elements that alone are shown, wherever they stand, or none where all are, and whether the way to each stands
/// before it: the tags of the sequences around it.
#[derive(Clone, Copy, Debug, PartialEq, Eq)]
pub struct Named {
    pub tags: Tags,
    pub ways: bool,
}

/// The dump of a file, or of a data set alone in a syntax, read with a dictionary.
#[derive(Clone, Copy, Debug, PartialEq, Eq)]
pub struct Dump {
    pub dictionary: Dictionary,
    pub mode: Mode,
    pub texts: Texts,
    pub bare: Option<Syntax>,
    pub named: Named,
}

/// The conversion of a file, read with a dictionary, to a transfer syntax, or none for its own.
#[derive(Clone, Copy, Debug, PartialEq, Eq)]
pub struct Convert {
    pub dictionary: Dictionary,
    pub target: Option<Syntax>,
}

/// The building of a file from the lines of a dump, with the most bytes that a line may have.
#[derive(Clone, Copy, Debug, PartialEq, Eq)]
pub struct Build {
    pub limit: usize,
    ghost within: { (LEAST_LIMIT ≤ limit) × (limit ≤ LINE_LIMIT) },
}

/// The edits of a file, and the dictionary that they are meant by and the file is read with.
#[derive(Debug, Drop)]
pub struct Modify<A: Allocator = Global> {
    pub dictionary: Dictionary,
    pub edits: Edits<A>,
}

/// The most bytes of a key.
pub const MOST_OF_KEY: usize = 4096;

/// The taking of identity out of a file: what more is kept, whether it is reported that pixels may show identity, and
/// the key of all that is made anew, which has no bytes where none is given.
#[derive(Debug, Drop)]
pub struct Deidentify {
    pub options: Options,
    pub reports: bool,
    pub key: ArrayVec<u8, MOST_OF_KEY>,
}

/// A job, and the paths of its input, its output and its key, where `-` is a standard stream. The key is not read so
/// far.
#[derive(Drop)]
pub struct Planned<'a, A: Allocator = Global> {
    pub input: &'a [u8],
    pub output: &'a [u8],
    pub key: Option<&'a [u8]>,
    /// Whether an output that is there is overwritten.
    pub overwrites: bool,
    /// Whether dates are moved by the days that the key makes of the patient whom the input names. They are not known
    /// so far.
    pub days_by_key: bool,
    pub job: Job<A>,
}
