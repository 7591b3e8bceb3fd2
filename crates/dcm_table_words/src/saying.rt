// What the words of dcm2csv say, one after another.
ghost use Rattle.std.specs.Prelude.{◌≡◌};
ghost use Rattle.dcm_table_words.specs.Table as spec;
ghost use Rattle.dcm_table_words.specs.Said.{said_as, SaidAt};

/// The word of dcm2csv after which a column comes.
const COLUMN: &[u8] = b"-k";

/// The word of dcmdump after which an element comes that is shown.
const ELEMENT: &[u8] = b"+P";

/// A tool that does many files by their names.
#[derive(Clone, Copy, Debug, PartialEq, Eq)]
pub enum Tool {
    /// dcm2csv.
    Table,
    /// dcmdump.
    Dump,
}

/// What a word says, or two words, an option and its value.
#[derive(Clone, Copy, Debug, PartialEq, Eq)]
pub enum Saying<'a> {
    /// A column of a table, or an element that a dump shows.
    Column(&'a [u8]),
    /// An option that wants one, and no word comes after it.
    NoColumn,
    /// No header row.
    NoHeader,
    /// Bytes as they are.
    AsIs,
    /// Texts as characters.
    Decoded,
    /// A file.
    File(&'a [u8]),
    /// A list of files.
    List(&'a [u8]),
    Unknown,
}

/// What a word says that is no option with a value.
fn word_says<'a>(word: &'a [u8]) -> Saying<'a>
    ensures { said_as result ≡ spec.word_says word.now }
{
    if word == b"+nh".as_slice() {
        Saying::NoHeader
    } else if word == b"+by".as_slice() {
        Saying::AsIs
    } else if word == b"+u8".as_slice() {
        Saying::Decoded
    } else {
        match word {
            [b'-'] => Saying::File(word),
            [b'-' | b'+', ..] => Saying::Unknown,
            [b'@', name @ ..] => Saying::List(name),
            _ => Saying::File(word),
        }
    }
}

/// Whether the word after this one is its value, whatever it is.
fn has_value(tool: Tool, word: &[u8]) -> bool
    ensures { result ≡ spec.has_value tool word.now }
{
    match tool {
        Tool::Table => word == COLUMN,
        Tool::Dump => word == ELEMENT,
    }
}

/// What the words of a tool from this place on say first, and the place of the words after that.
pub fn saying_at<'a>(tool: Tool, words: &'a [&'a [u8]], at: usize) -> Option<(Saying<'a>, usize)>
    ensures { SaidAt tool result at words.now }
{
    if at >= words.len() {
        return None;
    }
    let word = words[at];
    if !has_value(tool, word) {
        return Some((word_says(word), at + 1));
    }
    match words.get(at + 1) {
        Some(value) => Some((Saying::Column(value), at + 2)),
        None => Some((Saying::NoColumn, at + 1)),
    }
}
