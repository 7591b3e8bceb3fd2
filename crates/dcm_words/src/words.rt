// The words of a command line.
ghost use Rattle.std.specs.Prelude.{◌≡◌, ◌+◌, ◌<◌, ◌^◌, List, ℕ, pos, drop, length, map, option_map, false};
ghost use Rattle.dcm_base.specs.Lines.ReadValue.{number_in};
ghost use Rattle.dcm_words.specs.Words as spec;
ghost use Rattle.dcm_words.specs.Plans.{reader};
ghost use Rattle.dcm_words.specs.Plans.{capped, limit_after as said_limit, move_after as said_move};
ghost use Rattle.dcm_words.specs.Plans.{key_after as said_key, element_after as said_element, LimitAs, KeyAs};
ghost use Rattle.dcm_words.specs.Plans.{PathsAre, SaidAs};

use crate::job::{Build, Texts};
use crate::naming::Naming;
use crate::options::{other_word, word_of};
use crate::usage::{Choice, Move, Usage, Word};
use dcm_base::{Dictionary, LINE_LIMIT, Mode, Syntax, WordFault, decimal_digit};
use dcm_deid::{Options, Retain, Temporal};

/// The path of a standard stream.
pub const STANDARD: &[u8] = b"-";

/// The most bytes that a line may have without an option.
const USUAL_LIMIT: usize = 4096;

/// The least limit of a line that `+l` may give.
const LEAST_LIMIT: usize = 80;

/// The most days by which dates may be moved: a century.
const MOST_DAYS: usize = 36_524;

/// A tool whose words are options and paths.
#[derive(Clone, Copy, Debug, PartialEq, Eq)]
pub enum Tool {
    Dump,
    /// dcmdump of several files.
    Dumps,
    Convert,
    Build,
    Deidentify,
}

/// The paths among the words so far, in their order.
#[derive(Clone, Copy)]
pub enum Paths<'a> {
    None,
    One(&'a [u8]),
    Two(&'a [u8], &'a [u8]),
    More,
}

/// What the words so far have said; of two that exclude each other the last counts.
#[derive(Clone, Copy)]
pub struct Said<'a> {
    pub dictionary: Dictionary,
    pub mode: Mode,
    pub texts: Texts,
    pub naming: Naming,
    pub ways: bool,
    pub data_set: bool,
    pub bare: Option<Syntax>,
    pub target: Option<Syntax>,
    pub build: Build,
    pub choice: Choice,
    pub pixels_dealt: bool,
    pub key: Option<&'a [u8]>,
    pub overwrites: bool,
    pub paths: Paths<'a>,
}

/// The word that asks for the days that the key makes.
const KEY_DAYS: &[u8] = b"key";

/// No option of dcmdeid.
const NO_CHOICE: Choice = Choice {
    options: Options {
        uids: false,
        device: false,
        institution: false,
        patient: false,
        dates: Temporal::Removed,
        pseudonyms: false,
    },
    days_by_key: false,
};

/// The number that digits spell, or one past the most where it is higher.
fn limited_number(most: usize, digits: &[u8]) -> Option<usize>
    requires { most < 2 ^ 32 }
    ensures { result ≡ option_map (capped most) (number_in 10 0 digits.now) }
{
    let mut number = 0;
    for byte in digits {
        number = (10 * number + usize::from(decimal_digit(*byte)?)).min(most + 1);
    }
    Some(number)
}

/// The limit of a line that a word gives.
fn limit_of(word: &[u8]) -> Option<Build>
    ensures { option_map (λ b. b.limit) result ≡ spec.limit_of word.now }
{
    let limit = limited_number(LINE_LIMIT, word)?;
    if limit < LEAST_LIMIT || limit > LINE_LIMIT {
        return None;
    }
    Some(Build { limit })
}

/// The limit that the word after this place gives.
fn limit_after(words: &[&[u8]], place: usize) -> Result<Build, Usage>
    requires { place < length words.now }
    ensures { LimitAs result (said_limit (place + 2) (map (λ w. w.now) (drop (place + 1) words.now))) }
{
    match words.get(place + 1) {
        Some(word) => limit_of(word).ok_or(Usage::AtWord(WordFault::BadOptionValue, place + 2)),
        None => Err(Usage::AtWord(WordFault::BadOptionValue, place + 2)),
    }
}

/// The number of days that digits spell, from 1 on.
fn days_within(digits: &[u8]) -> Option<usize>
    ensures { result ≡ spec.days_within (number_in 10 0 digits.now) }
{
    let days = limited_number(MOST_DAYS, digits)?;
    if days < 1 || days > MOST_DAYS {
        return None;
    }
    Some(days)
}

/// The days into the future that digits spell.
fn days_later(digits: &[u8]) -> Option<i32>
    ensures { result ≡ option_map pos (spec.days_within (number_in 10 0 digits.now)) }
{
    let days = days_within(digits)?;
    Some(days as i32)
}

/// The days into the past that digits spell.
fn days_earlier(digits: &[u8]) -> Option<i32>
    ensures { result ≡ option_map spec.earlier (spec.days_within (number_in 10 0 digits.now)) }
{
    let days = days_within(digits)?;
    Some(-(days as i32))
}

/// The days by which a word says that dates are moved: perhaps a sign, and digits.
fn days_of(word: &[u8]) -> Option<i32>
    ensures { result ≡ spec.days_of word.now }
{
    match word {
        [b'-', digits @ ..] => days_earlier(digits),
        [b'+', digits @ ..] => days_later(digits),
        digits => days_later(digits),
    }
}

/// How a word says that dates are moved.
fn move_of(word: &[u8]) -> Option<Move>
    ensures { result ≡ spec.move_of word.now }
{
    if word == KEY_DAYS {
        return Some(Move::ByKey);
    }
    let days = days_of(word)?;
    Some(Move::Days(days))
}

/// How the word after this place says that dates are moved.
fn move_after(words: &[&[u8]], place: usize) -> Result<Move, Usage>
    requires { place < length words.now }
    ensures { result ≡ said_move (place + 2) (map (λ w. w.now) (drop (place + 1) words.now)) }
{
    match words.get(place + 1) {
        Some(word) => move_of(word).ok_or(Usage::AtWord(WordFault::BadOptionValue, place + 2)),
        None => Err(Usage::AtWord(WordFault::BadOptionValue, place + 2)),
    }
}

/// The options so far, with dates moved by so many days.
pub fn with_days(options: Options, days: i32) -> Options
    ensures { result ≡ spec.with_days options days }
{
    Options {
        dates: Temporal::Modified(days),
        ..options
    }
}

/// What was said so far, with dates moved so.
fn and_move(choice: Choice, moved: Move) -> Choice
    ensures { result ≡ spec.and_move choice moved }
{
    match moved {
        Move::Days(days) => Choice {
            options: with_days(choice.options, days),
            days_by_key: false,
        },
        Move::ByKey => Choice {
            options: choice.options,
            days_by_key: true,
        },
    }
}

/// What was said so far, with pseudonyms.
fn and_pseudonyms(choice: Choice) -> Choice
    ensures { result ≡ spec.and_pseudonyms choice }
{
    Choice {
        options: Options {
            pseudonyms: true,
            ..choice.options
        },
        days_by_key: choice.days_by_key,
    }
}

/// The path of a key that the word after this place gives.
fn key_after<'a>(words: &'a [&'a [u8]], place: usize) -> Result<&'a [u8], Usage>
    requires { place < length words.now }
    ensures { KeyAs result (said_key (place + 2) (map (λ w. w.now) (drop (place + 1) words.now))) }
{
    match words.get(place + 1) {
        Some(word) if !word.is_empty() && *word != STANDARD => Ok(word),
        _ => Err(Usage::AtWord(WordFault::BadOptionValue, place + 2)),
    }
}

/// The word after this place, which names an element.
fn element_after<'a>(words: &'a [&'a [u8]], place: usize) -> Result<&'a [u8], Usage>
    requires { place < length words.now }
    ensures { KeyAs result (said_element (place + 2) (map (λ w. w.now) (drop (place + 1) words.now))) }
{
    match words.get(place + 1) {
        Some(word) => Ok(word),
        None => Err(Usage::AtWord(WordFault::BadOptionValue, place + 2)),
    }
}

/// The options so far, and this one.
fn with_option(options: Options, retain: Retain) -> Options
    ensures { result ≡ spec.with_option options retain }
{
    match retain {
        Retain::Uids => Options {
            uids: true,
            ..options
        },
        Retain::Device => Options {
            device: true,
            ..options
        },
        Retain::Institution => Options {
            institution: true,
            ..options
        },
        Retain::Patient => Options {
            patient: true,
            ..options
        },
        Retain::Dates => Options {
            dates: Temporal::Full,
            ..options
        },
    }
}

/// What was said so far, and this option.
fn and_option(choice: Choice, retain: Retain) -> Choice
    ensures { result ≡ spec.and_option choice retain }
{
    Choice {
        options: with_option(choice.options, retain),
        days_by_key: choice.days_by_key && retain != Retain::Dates,
    }
}

/// The paths so far, and one after them.
fn and_path<'a>(paths: Paths<'a>, path: &'a [u8]) -> Paths<'a>
    ensures { (ps : List (List ℕ)) → PathsAre paths.entry ps → PathsAre result (spec.and_path ps path.now) }
{
    match paths {
        Paths::None => Paths::One(path),
        Paths::One(first) => Paths::Two(first, path),
        Paths::Two(_, _) => Paths::More,
        Paths::More => Paths::More,
    }
}

/// What the words after a tool's name have said, or the first refusal.
pub fn said_by<'a>(tool: Tool, words: &'a [&'a [u8]]) -> Result<Said<'a>, Usage>
    ensures { SaidAs result (spec.said_by (reader tool) (map (λ w. w.now) words.now)) }
{
    let mut said: Said<'a> = Said {
        dictionary: Dictionary::Extract,
        mode: Mode::Short,
        texts: Texts::Bytes,
        naming: Naming::new(),
        ways: false,
        data_set: false,
        bare: None,
        target: None,
        build: Build { limit: USUAL_LIMIT },
        choice: NO_CHOICE,
        pixels_dealt: false,
        key: None,
        overwrites: false,
        paths: Paths::None,
    };
    let mut i = 0;
    while i < words.len() {
        let word = words[i];
        match word_of(tool, word) {
            Word::Read(dictionary) => said.dictionary = dictionary,
            Word::Show(mode) => said.mode = mode,
            Word::Decode => said.texts = Texts::Characters,
            Word::Element => {
                said.naming.add(element_after(words, i)?);
                i += 1;
            }
            Word::Ways(ways) => said.ways = ways,
            Word::WholeFile => said.data_set = false,
            Word::DataSet => said.data_set = true,
            Word::Bare(syntax) => said.bare = Some(syntax),
            Word::Target(syntax) => said.target = syntax,
            Word::Limit => {
                said.build = limit_after(words, i)?;
                i += 1;
            }
            Word::Retain(retain) => said.choice = and_option(said.choice, retain),
            Word::Move => {
                let moved = move_after(words, i)?;
                said.choice = and_move(said.choice, moved);
                i += 1;
            }
            Word::Pseudonyms => said.choice = and_pseudonyms(said.choice),
            Word::PixelsDealt => said.pixels_dealt = true,
            Word::Key => {
                said.key = Some(key_after(words, i)?);
                i += 1;
            }
            Word::Overwrite => said.overwrites = true,
            Word::Accepted => {}
            Word::Path => said.paths = and_path(said.paths, word),
            Word::Unknown => return Err(Usage::AtWord(WordFault::UnknownOption, i + 2)),
        }
        i += 1;
    }
    Ok(said)
}

/// Whether a word is a path of dcmodify.
pub fn is_path(word: &[u8]) -> bool
    ensures { result ≡ spec.is_path word.now }
{
    !word.is_empty() && other_word(word) == Word::Path
}
