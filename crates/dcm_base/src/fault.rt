// Refusals, each with its number and its words.
ghost use Rattle.std.specs.Prelude.{◌≡◌};
ghost use Rattle.dcm_base.specs.Tables.Fault as spec;

use thiserror::Error;

/// Why a file is refused.
#[derive(Clone, Copy, Debug, PartialEq, Eq, Error)]
#[error("{}", self.text())]
pub enum Fault {
    EndsEarly,
    NoPrefix,
    BadMeta,
    MetaTooLarge,
    NoTransferSyntax,
    Deflated,
    UnknownRepresentation,
    UndefinedLength,
    TagNotAllowed,
    PassesEnd,
    TooDeep,
    NotAscending,
    FragmentsBarred,
    CannotChange,
    TooLong,
    IdentityStays,
    NoPatientId,
}

impl Fault {
    /// The number in the error line, such as `R7`.
    pub fn number(self) -> &'static str
        ensures { result.now ≡ spec.fault_number self }
    {
        match self {
            Fault::EndsEarly => "R1",
            Fault::NoPrefix => "R2",
            Fault::BadMeta => "R3",
            Fault::MetaTooLarge => "R4",
            Fault::NoTransferSyntax => "R5",
            Fault::Deflated => "R6",
            Fault::UnknownRepresentation => "R7",
            Fault::UndefinedLength => "R8",
            Fault::TagNotAllowed => "R9",
            Fault::PassesEnd => "R10",
            Fault::TooDeep => "R11",
            Fault::NotAscending => "R12",
            Fault::FragmentsBarred => "R13",
            Fault::CannotChange => "R14",
            Fault::TooLong => "R15",
            Fault::IdentityStays => "R16",
            Fault::NoPatientId => "R17",
        }
    }

    /// The text in the error line.
    pub fn text(self) -> &'static str
        ensures { result.now ≡ spec.fault_text self }
    {
        match self {
            Fault::EndsEarly => "input ends too early",
            Fault::NoPrefix => "no DICM prefix",
            Fault::BadMeta => "bad meta element",
            Fault::MetaTooLarge => "meta group too large",
            Fault::NoTransferSyntax => "no transfer syntax",
            Fault::Deflated => "deflated transfer syntax",
            Fault::UnknownRepresentation => "unknown value representation",
            Fault::UndefinedLength => "undefined length not allowed",
            Fault::TagNotAllowed => "tag not allowed here",
            Fault::PassesEnd => "passes the end of its container",
            Fault::TooDeep => "nested too deep",
            Fault::NotAscending => "tags not ascending",
            Fault::FragmentsBarred => "fragments not allowed in the target syntax",
            Fault::CannotChange => "encapsulated syntax cannot be changed",
            Fault::TooLong => "input too long",
            Fault::IdentityStays => "identity cannot be taken out",
            Fault::NoPatientId => "no usable PatientID",
        }
    }
}

/// Why a line of a dump is refused, where it is built into a file.
#[derive(Clone, Copy, Debug, PartialEq, Eq, Error)]
#[error("{}", self.text())]
pub enum LineFault {
    LineTooLong,
    NotALine,
    ValueDoesNotFit,
    NotAllowed,
    NotAscending,
    BadMetaGroup,
    NoTransferSyntax,
    TooDeep,
    EndsEarly,
    ByCharacters,
    TooLong,
}

impl LineFault {
    /// The number in the error line, such as `R7`.
    pub fn number(self) -> &'static str
        ensures { result.now ≡ spec.line_fault_number self }
    {
        match self {
            LineFault::LineTooLong => "B1",
            LineFault::NotALine => "B2",
            LineFault::ValueDoesNotFit => "B3",
            LineFault::NotAllowed => "B4",
            LineFault::NotAscending => "B5",
            LineFault::BadMetaGroup => "B6",
            LineFault::NoTransferSyntax => "B7",
            LineFault::TooDeep => "B8",
            LineFault::EndsEarly => "B9",
            LineFault::ByCharacters => "B10",
            LineFault::TooLong => "R15",
        }
    }

    /// The text in the error line.
    pub fn text(self) -> &'static str
        ensures { result.now ≡ spec.line_fault_text self }
    {
        match self {
            LineFault::LineTooLong => "line too long",
            LineFault::NotALine => "not a dump line",
            LineFault::ValueDoesNotFit => "value does not fit",
            LineFault::NotAllowed => "not allowed here",
            LineFault::NotAscending => "tags not ascending",
            LineFault::BadMetaGroup => "bad meta group",
            LineFault::NoTransferSyntax => "no usable transfer syntax",
            LineFault::TooDeep => "nested too deep",
            LineFault::EndsEarly => "input ends too early",
            LineFault::ByCharacters => "a dump by characters",
            LineFault::TooLong => "input too long",
        }
    }
}

/// Why an edit is refused.
#[derive(Clone, Copy, Debug, PartialEq, Eq, Error)]
#[error("{}", self.text())]
pub enum EditRefusal {
    BadOption,
    UnknownTag,
    ValueDoesNotFit,
    SequenceMisused,
    MetaGroup,
    Overlap,
    TooMany,
}

impl EditRefusal {
    /// The number in the error line, such as `R7`.
    pub fn number(self) -> &'static str
        ensures { result.now ≡ spec.edit_refusal_number self }
    {
        match self {
            EditRefusal::BadOption => "U1",
            EditRefusal::UnknownTag => "U2",
            EditRefusal::ValueDoesNotFit => "U3",
            EditRefusal::SequenceMisused => "U4",
            EditRefusal::MetaGroup => "U5",
            EditRefusal::Overlap => "U6",
            EditRefusal::TooMany => "U7",
        }
    }

    /// The text in the error line.
    pub fn text(self) -> &'static str
        ensures { result.now ≡ spec.edit_refusal_text self }
    {
        match self {
            EditRefusal::BadOption => "bad option or path",
            EditRefusal::UnknownTag => "unknown tag",
            EditRefusal::ValueDoesNotFit => "value does not fit",
            EditRefusal::SequenceMisused => "sequence misused",
            EditRefusal::MetaGroup => "group 0002 cannot be edited",
            EditRefusal::Overlap => "edits overlap",
            EditRefusal::TooMany => "too many edits",
        }
    }
}

/// Why the words of a command line are refused.
#[derive(Clone, Copy, Debug, PartialEq, Eq, Error)]
#[error("{}", self.text())]
pub enum WordFault {
    UnknownTool,
    UnknownOption,
    BadOptionValue,
    WrongPaths,
    OptionsApart,
    SamePath,
    BadKey,
    NoKey,
    ReadTwice,
}

impl WordFault {
    /// The number in the error line, such as `R7`.
    pub fn number(self) -> &'static str
        ensures { result.now ≡ spec.word_fault_number self }
    {
        match self {
            WordFault::UnknownTool => "V1",
            WordFault::UnknownOption => "V2",
            WordFault::BadOptionValue => "V3",
            WordFault::WrongPaths => "V4",
            WordFault::OptionsApart => "V5",
            WordFault::SamePath => "V6",
            WordFault::BadKey => "V7",
            WordFault::NoKey => "V10",
            WordFault::ReadTwice => "V11",
        }
    }

    /// The text in the error line.
    pub fn text(self) -> &'static str
        ensures { result.now ≡ spec.word_fault_text self }
    {
        match self {
            WordFault::UnknownTool => "unknown tool",
            WordFault::UnknownOption => "unknown option",
            WordFault::BadOptionValue => "bad option value",
            WordFault::WrongPaths => "wrong number of paths",
            WordFault::OptionsApart => "options do not go together",
            WordFault::SamePath => "input and output are the same path",
            WordFault::BadKey => "key is not 16 to 4096 bytes",
            WordFault::NoKey => "a key is needed",
            WordFault::ReadTwice => "standard input cannot be read twice",
        }
    }
}

/// A fault, and the offset in bytes that the error line has.
#[derive(Clone, Copy, Debug, PartialEq, Eq)]
pub struct Stop {
    pub fault: Fault,
    pub at: u64,
}

/// Why a line of a dump is refused: a fault, the offset at which the line begins, and the number of the line, from 1.
/// An input that ends too early has the offset of its end, and an input that is too long the limit of an input, both
/// without a line.
#[derive(Clone, Copy, Debug, PartialEq, Eq)]
pub struct LineStop {
    pub fault: LineFault,
    pub offset: u64,
    pub line: u64,
}
