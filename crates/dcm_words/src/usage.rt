// What the words of a command line say.
use dcm_base::{Dictionary, EditRefusal, Mode, Syntax, WordFault};
use dcm_deid::{Options, Retain};

/// What one word says to dcmdump, dcmconv, dump2dcm or dcmdeid.
#[derive(Clone, Copy, Debug, PartialEq, Eq)]
pub enum Word {
    /// The dictionary that is read with.
    Read(Dictionary),
    /// How much of a long value is shown.
    Show(Mode),
    /// Texts are shown by Specific Character Set, in UTF-8.
    Decode,
    /// The next word names an element that is shown, and others are not.
    Element,
    /// Whether the way to an element that is named is shown.
    Ways(bool),
    /// The input is a file with a meta group.
    WholeFile,
    /// The input is a data set alone.
    DataSet,
    /// The syntax of a data set alone.
    Bare(Syntax),
    /// The syntax that is written, or none for that of the input.
    Target(Option<Syntax>),
    /// The next word is the limit of a line.
    Limit,
    /// More is kept of a file from which identity is taken.
    Retain(Retain),
    /// What pixels show was dealt with.
    PixelsDealt,
    /// Dates are moved as the next word says.
    Move,
    /// PatientID becomes a pseudonym.
    Pseudonyms,
    /// The next word is the path of the key of what is made anew.
    Key,
    /// An output that is there is overwritten.
    Overwrite,
    /// An option that changes nothing.
    Accepted,
    Path,
    Unknown,
}

/// How dates are moved.
#[derive(Clone, Copy, Debug, PartialEq, Eq)]
pub enum Move {
    /// By so many days.
    Days(i32),
    /// By the days that the key makes of each patient.
    ByKey,
}

/// What the options of dcmdeid have said: what more is kept, and whether dates are moved by the days that the key makes
/// of the patient, whatever else is said of dates.
#[derive(Clone, Copy, Debug, PartialEq, Eq)]
pub struct Choice {
    pub options: Options,
    pub days_by_key: bool,
}

/// Why no plan follows from the words of a command line.
#[derive(Clone, Copy, Debug, PartialEq, Eq)]
pub enum Usage {
    /// A word is refused; words are counted from 1, the tool's name.
    AtWord(WordFault, usize),
    /// The words as a whole are refused.
    Whole(WordFault),
    /// An edit is refused; edits are counted from 1.
    InEdit(EditRefusal, usize),
    /// The name of an element is refused; elements are counted from 1.
    InElement(EditRefusal, usize),
    /// More than 64 elements are named.
    TooManyElements,
    /// The memory for the edits was refused.
    Memory,
}
