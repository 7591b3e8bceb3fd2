// The edits that words mean.
ghost use Rattle.std.specs.Prelude.{◌≡◌, ◌+◌, ◌<◌, ◌≤◌, length, map, IfOk};
ghost use Rattle.dcm_edits.specs.EditWords as spec;
ghost use Rattle.dcm_edits.specs.Making.{option_as, fault_of, texts, texts_from, MakesFrom, MakesAll, first_edit};
ghost use Rattle.dcm_edits.specs.Meaning.{edit_of as edit_as};

use crate::edit::Edit;
use crate::edits::MOST_EDITS;
use crate::fault::{EditFault, Failure};
use crate::form::Kind;
use crate::making::edit_of_word;
use dcm_base::{Dictionary, EditRefusal};
use std::alloc::Allocator;

/// What a word says that begins an edit.
#[derive(Clone, Copy, Debug, PartialEq, Eq)]
enum OptionWord {
    /// The next word has a path.
    Takes(Kind),
    Private,
    Unknown,
}

impl OptionWord {
    /// Whether the next word belongs to it.
    fn takes_next(self) -> bool
        ensures { result ≡ spec.takes_next (option_as self) }
    {
        match self {
            OptionWord::Takes(_) => true,
            OptionWord::Private | OptionWord::Unknown => false,
        }
    }
}

fn option_word(word: &[u8]) -> OptionWord
    ensures { option_as result ≡ spec.option_word word.now }
{
    if word == b"-e".as_slice() {
        OptionWord::Takes(Kind::Erases)
    } else if word == b"-ea".as_slice() {
        OptionWord::Takes(Kind::ErasesAll)
    } else if word == b"-ep".as_slice() {
        OptionWord::Private
    } else if word == b"-i".as_slice() {
        OptionWord::Takes(Kind::Inserts)
    } else if word == b"-m".as_slice() {
        OptionWord::Takes(Kind::Modifies)
    } else if word == b"-ma".as_slice() {
        OptionWord::Takes(Kind::ModifiesAll)
    } else {
        OptionWord::Unknown
    }
}

/// Whether a word is an option of an edit that has the next word, whatever that is.
pub fn takes_next(word: &[u8]) -> bool
    ensures { result ≡ spec.takes_next (spec.option_word word.now) }
{
    option_word(word).takes_next()
}

/// The dictionary that a word names: `+dict` the standard, `-dict` the extract. Other words name none.
pub fn dictionary_word(word: &[u8]) -> Option<Dictionary>
    ensures { result ≡ spec.dictionary_word word.now }
{
    if word == b"-dict".as_slice() {
        Some(Dictionary::Extract)
    } else if word == b"+dict".as_slice() {
        Some(Dictionary::Standard)
    } else {
        None
    }
}

/// Whether a word says that an output that is there is overwritten: `+ow`.
pub fn is_overwrite(word: &[u8]) -> bool
    ensures { result ≡ spec.is_overwrite word.now }
{
    word == b"+ow".as_slice()
}

/// What the words of edits say of all of them.
#[derive(Clone, Copy, Debug, PartialEq, Eq)]
pub struct Settings {
    /// The dictionary that edits are meant by.
    pub dictionary: Dictionary,
    /// Whether an output that is there is overwritten.
    pub overwrites: bool,
}

/// Whether a word is no edit: it says something of all of them.
fn is_setting(word: &[u8]) -> bool
    ensures { result ≡ spec.is_setting word.now }
{
    dictionary_word(word).is_some() || is_overwrite(word)
}

/// What was said so far, and what a word says, if it does.
fn and_setting(settings: Settings, word: &[u8]) -> Settings
    ensures { result ≡ spec.and_setting settings word.now }
{
    Settings {
        dictionary: dictionary_word(word).unwrap_or(settings.dictionary),
        overwrites: settings.overwrites || is_overwrite(word),
    }
}

/// What the words of edits say of all of them: the dictionary of the last `+dict` or `-dict` where an option may be, or
/// the extract where there is none; and whether `+ow` is there.
pub fn settings_of(words: &[&[u8]]) -> Settings
    ensures { result ≡ spec.settings_of (texts words.now) }
{
    let mut settings = Settings {
        dictionary: Dictionary::Extract,
        overwrites: false,
    };
    let mut place = 0;
    while place < words.len() {
        if takes_next(words[place]) {
            place += 2;
        } else {
            settings = and_setting(settings, words[place]);
            place += 1;
        }
    }
    settings
}

/// A failure of the edit with this number.
fn in_edit(failure: Failure, number: usize) -> EditFault
    ensures { result ≡ fault_of failure number }
{
    match failure {
        Failure::Refused(refusal) => EditFault::Refused(refusal, number),
        Failure::Memory => EditFault::Memory,
    }
}

/// The edit whose words begin at this place, which has this number, and how many words it has.
fn next_edit<A: Allocator + Copy>(
    alloc: A,
    dictionary: Dictionary,
    number: usize,
    words: &[&[u8]],
    place: usize,
) -> Result<(Edit<A>, usize), EditFault>
    requires { place < length words.now }
    ensures edit { MakesFrom (λ r. (edit_as r.0, texts_from (place + r.1) words.now)) number result
        (first_edit dictionary (texts_from place words.now)) }
    ensures used { IfOk result (λ r. (0 < r.1) × (place + r.1 ≤ length words.now)) }
{
    match option_word(words[place]) {
        OptionWord::Private => Ok((Edit::ErasePrivate, 1)),
        OptionWord::Takes(kind) => match words.get(place + 1) {
            Some(word) => match edit_of_word(alloc, dictionary, kind, word) {
                Ok(edit) => Ok((edit, 2)),
                Err(failure) => Err(in_edit(failure, number)),
            },
            None => Err(EditFault::Refused(EditRefusal::BadOption, number)),
        },
        OptionWord::Unknown => Err(EditFault::Refused(EditRefusal::BadOption, number)),
    }
}

/// The edits of words, which may overlap. Words that say something of all edits are none.
pub fn edits_of<A: Allocator + Copy>(
    alloc: A,
    dictionary: Dictionary,
    words: &[&[u8]],
) -> Result<Vec<Edit<A>, A>, EditFault>
    ensures { MakesAll (λ v. map edit_as v.items) result
        (spec.meant_from dictionary 1 (spec.without_settings (texts words.now))) }
{
    let mut edits = Vec::new(alloc);
    let mut place = 0;
    while place < words.len() {
        if is_setting(words[place]) {
            place += 1;
            continue;
        }
        if edits.len() == MOST_EDITS {
            return Err(EditFault::Refused(EditRefusal::TooMany, MOST_EDITS + 1));
        }
        let (edit, used) = next_edit(alloc, dictionary, edits.len() + 1, words, place)?;
        edits.push(edit)?;
        place += used;
    }
    Ok(edits)
}
