// The words of dcm2csv, and the table that they mean.
ghost use Rattle.std.specs.Prelude.{◌≡◌, nat_lt, count_by, map, option_map};
ghost use Rattle.std.specs.List.{list_any};
ghost use Rattle.dcm_table_words.specs.Table as spec;
ghost use Rattle.dcm_table_words.specs.Said.{said_as, sayings_of};
ghost use Rattle.dcm_table_words.specs.declared.saying.Tool.TheVariants.{Table};
ghost use Rattle.dcm_table_words.specs.Plans.{name_as, names_as, FirstName, GivesColumns};
ghost use Rattle.dcm_table_words.specs.Plans.{PassesNames, GivesTable, SaidIn};

use crate::column::{TableColumn, column_of};
use crate::saying::{Saying, Tool, saying_at};
use crate::usage::TableUsage;
use arrayvec::ArrayVec;
use dcm_base::WordFault;

/// The most columns of a table.
pub const MOST_COLUMNS: usize = 64;

/// The path of standard input.
const STANDARD: &[u8] = b"-";

/// A name among the words.
#[derive(Clone, Copy, Debug, PartialEq, Eq)]
pub enum Name<'a> {
    /// A file.
    File(&'a [u8]),
    /// A list of files.
    List(&'a [u8]),
}

/// The names among the words of a tool, in their order. The value of an option is no name.
#[derive(Clone, Copy)]
pub struct NameWords<'a> {
    tool: Tool,
    words: &'a [&'a [u8]],
}

/// How texts and names are written.
#[derive(Clone, Copy, Debug, PartialEq, Eq)]
pub enum Texts {
    /// Bytes that are no part of valid UTF-8 are escaped.
    Escaped,
    /// Bytes are written as they are.
    AsTheyAre,
    /// Texts are decoded by Specific Character Set, and else written as `Escaped`.
    Characters,
}

/// The table that words mean.
#[derive(Drop)]
pub struct TablePlan<'a> {
    pub columns: ArrayVec<TableColumn, MOST_COLUMNS>,
    pub has_header: bool,
    pub texts: Texts,
    pub names: NameWords<'a>,
}

/// Why a saying is refused, if it is.
fn word_fault(saying: Saying) -> Option<WordFault>
    ensures { result ≡ spec.word_fault (said_as saying.entry) }
{
    match saying {
        Saying::NoColumn => Some(WordFault::BadOptionValue),
        Saying::Unknown => Some(WordFault::UnknownOption),
        _ => None,
    }
}

/// The column that a saying gives.
fn column_said<'a>(saying: Saying<'a>) -> Option<&'a [u8]>
    ensures { option_map (λ w. w.now) result ≡ spec.column_said (said_as saying.entry) }
{
    match saying {
        Saying::Column(word) => Some(word),
        _ => None,
    }
}

/// The name that a saying gives.
fn name_said<'a>(saying: Saying<'a>) -> Option<Name<'a>>
    ensures { option_map name_as result ≡ spec.name_said (said_as saying.entry) }
{
    match saying {
        Saying::File(name) => Some(Name::File(name)),
        Saying::List(name) => Some(Name::List(name)),
        _ => None,
    }
}

/// The first refusal of a word, where the words of a tool come after its name.
fn refused_word<'a>(words: &'a [&'a [u8]]) -> Option<TableUsage>
    ensures { result ≡ spec.refused 2 (sayings_of Table words.now) }
{
    let mut at = 0;
    while let Some((saying, next)) = saying_at(Tool::Table, words, at) {
        if let Some(fault) = word_fault(saying) {
            return Some(TableUsage::AtWord(fault, at + 2));
        }
        at = next;
    }
    None
}

/// Whether a saying leaves the header out.
fn is_no_header(saying: Saying) -> bool
    ensures { result ≡ spec.is_no_header (said_as saying.entry) }
{
    matches!(saying, Saying::NoHeader)
}

/// Whether words leave the header out.
fn has_no_header<'a>(words: &'a [&'a [u8]]) -> bool
    ensures { result ≡ list_any spec.is_no_header (sayings_of Table words.now) }
{
    let mut at = 0;
    while let Some((saying, next)) = saying_at(Tool::Table, words, at) {
        if is_no_header(saying) {
            return true;
        }
        at = next;
    }
    false
}

/// How texts are written after a saying, where it may say so.
fn texts_after(texts: Texts, saying: Saying) -> Texts
    ensures { result ≡ spec.texts_after texts (said_as saying.entry) }
{
    match saying {
        Saying::AsIs => Texts::AsTheyAre,
        Saying::Decoded => Texts::Characters,
        _ => texts,
    }
}

/// How texts are written: the last word that says it counts.
fn texts_said<'a>(words: &'a [&'a [u8]]) -> Texts
    ensures { result ≡ spec.texts_said (sayings_of Table words.now) }
{
    let mut texts = Texts::Escaped;
    let mut at = 0;
    while let Some((saying, next)) = saying_at(Tool::Table, words, at) {
        texts = texts_after(texts, saying);
        at = next;
    }
    texts
}

/// The columns of words, or the first refusal.
fn columns_in<'a>(words: &'a [&'a [u8]]) -> Result<ArrayVec<TableColumn, MOST_COLUMNS>, TableUsage>
    ensures { GivesColumns (λ cs. cs.items) result (spec.columns_meant (sayings_of Table words.now)) }
{
    let mut columns = ArrayVec::new();
    let mut number = 0;
    let mut at = 0;
    while let Some((saying, next)) = saying_at(Tool::Table, words, at) {
        if let Some(word) = column_said(saying) {
            number += 1;
            match column_of(word) {
                Ok(column) => {
                    // One that is too many is not kept: their number tells it.
                    let _ = columns.try_push(column);
                }
                Err(refusal) => return Err(TableUsage::InColumn(refusal, number)),
            }
        }
        at = next;
    }
    if number == 0 || number > MOST_COLUMNS {
        return Err(TableUsage::NumberOfColumns);
    }
    Ok(columns)
}

impl<'a> NameWords<'a> {
    /// The names among the words of a tool, which come after its name.
    pub fn among(tool: Tool, words: &'a [&'a [u8]]) -> NameWords<'a>
        ensures { names_as result ≡ spec.names_in (sayings_of tool words.now) }
    {
        NameWords { tool, words }
    }

    /// What the words from this place on say first, and the place of the words after that.
    fn saying(self, at: usize) -> Option<(Saying<'a>, usize)>
        ensures { SaidIn result at self.entry }
    {
        saying_at(self.tool, self.words, at)
    }

    /// The first name from a place among the words on, and the place after it. The first place is 0.
    pub fn after(self, place: usize) -> Option<(Name<'a>, usize)>
        ensures { FirstName result self.entry place }
    {
        let mut at = place;
        while let Some((saying, next)) = self.saying(at) {
            if let Some(name) = name_said(saying) {
                return Some((name, next));
            }
            at = next;
        }
        None
    }
}

impl<'a> Name<'a> {
    /// The path that it names.
    pub fn path(self) -> &'a [u8]
        ensures { result.now ≡ spec.path_of (name_as self.entry) }
    {
        match self {
            Name::File(path) => path,
            Name::List(path) => path,
        }
    }
}

/// Whether a name is empty.
pub fn has_empty(names: NameWords) -> bool
    ensures { result ≡ list_any spec.is_empty_name (names_as names.entry) }
{
    let mut place = 0;
    while let Some((name, next)) = names.after(place) {
        if name.path().is_empty() {
            return true;
        }
        place = next;
    }
    false
}

/// Whether standard input is named more than once.
pub fn has_standard_twice(names: NameWords) -> bool
    ensures { result ≡ nat_lt 1 (count_by spec.is_standard (names_as names.entry)) }
{
    let mut place = 0;
    let mut is_named = false;
    while let Some((name, next)) = names.after(place) {
        if name.path() == STANDARD {
            if is_named {
                return true;
            }
            is_named = true;
        }
        place = next;
    }
    false
}

/// The refusal of the names, if any.
fn check_names(names: NameWords) -> Result<(), TableUsage>
    ensures { PassesNames result (names_as names.entry) }
{
    if names.after(0).is_none() || has_empty(names) {
        return Err(TableUsage::WrongPaths);
    }
    if has_standard_twice(names) {
        return Err(TableUsage::StandardTwice);
    }
    Ok(())
}

/// The table that the words after the tool's name mean, or the first refusal.
fn plan_of<'a>(words: &'a [&'a [u8]]) -> Result<TablePlan<'a>, TableUsage>
    ensures { GivesTable result (spec.table_said (sayings_of Table words.now)) }
{
    if let Some(usage) = refused_word(words) {
        return Err(usage);
    }
    let columns = columns_in(words)?;
    let names = NameWords::among(Tool::Table, words);
    check_names(names)?;
    Ok(TablePlan {
        columns,
        has_header: !has_no_header(words),
        texts: texts_said(words),
        names,
    })
}

/// The table that the words after the program's name mean, with its names borrowed from them, or the first refusal.
#[tactic(auto, unfolding(crate::specs::Table::meant_table))]
pub fn table_plan<'a>(words: &'a [&'a [u8]]) -> Result<TablePlan<'a>, TableUsage>
    ensures { GivesTable result (spec.meant_table (map (λ w. w.now) words.now)) }
{
    match words {
        [tool, rest @ ..] if *tool == b"dcm2csv".as_slice() => plan_of(rest),
        _ => Err(TableUsage::AtWord(WordFault::UnknownTool, 1)),
    }
}
