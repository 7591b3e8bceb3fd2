// What a word of a command line says to a tool.
ghost use Rattle.std.specs.Prelude.{◌≡◌};
ghost use Rattle.dcm_words.specs.Words as spec;
ghost use Rattle.dcm_words.specs.Plans.{reader};

use crate::usage::Word;
use crate::words::Tool;
use dcm_base::{Dictionary, Mode, Syntax};
use dcm_deid::Retain;
use dcm_edits::{dictionary_word, is_overwrite};

/// The option by which dcmdump says of one file, too, which it is.
pub const SEVERAL: &[u8] = b"+F";

/// A path, unless the word has the form of an option.
pub fn other_word(word: &[u8]) -> Word
    ensures { result ≡ spec.other_word word.now }
{
    match word {
        [b'-'] => Word::Path,
        [b'-' | b'+', ..] => Word::Unknown,
        _ => Word::Path,
    }
}

/// The dictionary that is read with, where the word names one.
fn read_word(word: &[u8]) -> Word
    ensures { result ≡ spec.read_word word.now }
{
    match dictionary_word(word) {
        Some(dictionary) => Word::Read(dictionary),
        None => other_word(word),
    }
}

/// What a word says to dcmdump.
fn dump_word(word: &[u8]) -> Word
    ensures { result ≡ spec.dump_word word.now }
{
    if word == b"-L".as_slice() {
        Word::Show(Mode::Short)
    } else if word == b"+L".as_slice() {
        Word::Show(Mode::Full)
    } else if word == b"+u8".as_slice() {
        Word::Decode
    } else if word == b"+P".as_slice() {
        Word::Element
    } else if word == b"+p".as_slice() {
        Word::Ways(true)
    } else if word == b"-p".as_slice() {
        Word::Ways(false)
    } else if word == b"+fo".as_slice() {
        Word::WholeFile
    } else if word == b"-f".as_slice() {
        Word::DataSet
    } else if word == b"-ti".as_slice() {
        Word::Bare(Syntax::Implicit(Dictionary::Extract))
    } else if word == b"-te".as_slice() {
        Word::Bare(Syntax::LITTLE)
    } else if word == b"-tb".as_slice() {
        Word::Bare(Syntax::Big(Dictionary::Extract))
    } else {
        read_word(word)
    }
}

/// What a word says to dcmdump of several files: their names are read apart.
fn dumps_word(word: &[u8]) -> Word
    ensures { result ≡ spec.dumps_word word.now }
{
    if word == SEVERAL {
        Word::Accepted
    } else {
        dump_word(word)
    }
}

/// What a word says to dcmconv, which does anyway what `-e` and `+fo` ask for.
fn convert_word(word: &[u8]) -> Word
    ensures { result ≡ spec.convert_word word.now }
{
    if word == b"+t=".as_slice() {
        Word::Target(None)
    } else if word == b"+ti".as_slice() {
        Word::Target(Some(Syntax::Implicit(Dictionary::Extract)))
    } else if word == b"+te".as_slice() {
        Word::Target(Some(Syntax::LITTLE))
    } else if word == b"+tb".as_slice() {
        Word::Target(Some(Syntax::Big(Dictionary::Extract)))
    } else if word == b"-e".as_slice() {
        Word::Accepted
    } else if word == b"+fo".as_slice() {
        Word::Accepted
    } else if is_overwrite(word) {
        Word::Overwrite
    } else {
        read_word(word)
    }
}

/// What a word says to dump2dcm.
fn build_word(word: &[u8]) -> Word
    ensures { result ≡ spec.build_word word.now }
{
    if word == b"+l".as_slice() {
        Word::Limit
    } else if word == b"-e".as_slice() {
        Word::Accepted
    } else if is_overwrite(word) {
        Word::Overwrite
    } else {
        other_word(word)
    }
}

/// What a word says to dcmdeid.
fn deidentify_word(word: &[u8]) -> Word
    ensures { result ≡ spec.deidentify_word word.now }
{
    if word == b"+ru".as_slice() {
        Word::Retain(Retain::Uids)
    } else if word == b"+rd".as_slice() {
        Word::Retain(Retain::Device)
    } else if word == b"+ri".as_slice() {
        Word::Retain(Retain::Institution)
    } else if word == b"+rp".as_slice() {
        Word::Retain(Retain::Patient)
    } else if word == b"+rl".as_slice() {
        Word::Retain(Retain::Dates)
    } else if word == b"+rm".as_slice() {
        Word::Move
    } else if word == b"+pi".as_slice() {
        Word::Pseudonyms
    } else if word == b"+bi".as_slice() {
        Word::PixelsDealt
    } else if word == b"+k".as_slice() {
        Word::Key
    } else if is_overwrite(word) {
        Word::Overwrite
    } else {
        other_word(word)
    }
}

/// What a word says to a tool.
pub fn word_of(tool: Tool, word: &[u8]) -> Word
    ensures { result ≡ reader tool word.now }
{
    match tool {
        Tool::Dump => dump_word(word),
        Tool::Dumps => dumps_word(word),
        Tool::Convert => convert_word(word),
        Tool::Build => build_word(word),
        Tool::Deidentify => deidentify_word(word),
    }
}
