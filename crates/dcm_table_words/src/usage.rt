// Why no table follows from words.
use dcm_base::{EditRefusal, WordFault};

/// Why no table follows from the words of a command line.
#[derive(Clone, Copy, Debug, PartialEq, Eq)]
pub enum TableUsage {
    /// A word is refused; words are counted from 1, the tool's name.
    AtWord(WordFault, usize),
    /// A column is refused; columns are counted from 1.
    InColumn(EditRefusal, usize),
    /// There is no column, or there are too many.
    NumberOfColumns,
    /// There is no file and no list, or a name is empty.
    WrongPaths,
    /// Standard input is named twice.
    StandardTwice,
}

impl TableUsage {
    ghost use Rattle.std.specs.Prelude.{◌≡◌};
    ghost use Rattle.dcm_table_words.specs.Usages as spec;

    /// The number by which it is reported.
    pub fn number(self) -> &'static str
        ensures { result.now ≡ spec.usage_number self }
    {
        match self {
            TableUsage::AtWord(fault, _) => fault.number(),
            TableUsage::InColumn(refusal, _) => refusal.number(),
            TableUsage::NumberOfColumns => "V8",
            TableUsage::WrongPaths => WordFault::WrongPaths.number(),
            TableUsage::StandardTwice => "V9",
        }
    }

    /// The words by which it is reported.
    pub fn text(self) -> &'static str
        ensures { result.now ≡ spec.usage_text self }
    {
        match self {
            TableUsage::AtWord(fault, _) => fault.text(),
            TableUsage::InColumn(refusal, _) => refusal.text(),
            TableUsage::NumberOfColumns => "not 1 to 64 columns",
            TableUsage::WrongPaths => WordFault::WrongPaths.text(),
            TableUsage::StandardTwice => "standard input is named twice",
        }
    }
}
