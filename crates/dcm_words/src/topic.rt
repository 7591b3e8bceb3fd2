// The texts that a command line asks for.
ghost use Rattle.std.specs.Prelude.{◌≡◌, map};
ghost use Rattle.dcm_words.specs.Topics as spec;

use crate::texts::{BUILD, CONVERT, DEIDENTIFY, DUMP, MODIFY, PROGRAM, TABLE, VERSION};

/// What a command line asks for, in place of a job.
#[derive(Clone, Copy, Debug, PartialEq, Eq)]
pub enum Topic {
    /// How the program is used.
    Program,
    /// How dcmdump is used.
    Dump,
    /// How dcmconv is used.
    Convert,
    /// How dump2dcm is used.
    Build,
    /// How dcmodify is used.
    Modify,
    /// How dcmdeid is used.
    Deidentify,
    /// How dcm2csv is used.
    Table,
    /// Which version of the program this is.
    Version,
}

impl Topic {
    /// Its text, which ends in a line feed.
    #[tactic(auto, unfolding(crate::specs::Topics::text))]
    pub fn text(self) -> &'static str
        ensures { result.now ≡ spec.text self }
    {
        match self {
            Topic::Program => PROGRAM,
            Topic::Dump => DUMP,
            Topic::Convert => CONVERT,
            Topic::Build => BUILD,
            Topic::Modify => MODIFY,
            Topic::Deidentify => DEIDENTIFY,
            Topic::Table => TABLE,
            Topic::Version => VERSION,
        }
    }
}

/// Whether a word asks how something is used.
fn is_help(word: &[u8]) -> bool
    ensures { result ≡ spec.is_help word.now }
{
    word == b"help".as_slice() || word == b"--help".as_slice() || word == b"-h".as_slice()
}

/// Whether a word asks for the version.
fn is_version(word: &[u8]) -> bool
    ensures { result ≡ spec.is_version word.now }
{
    word == b"version".as_slice() || word == b"--version".as_slice()
}

/// How a tool is used, by its name.
fn use_of(tool: &[u8]) -> Option<Topic>
    ensures { result ≡ spec.use_of tool.now }
{
    if tool == b"dcmdump".as_slice() {
        Some(Topic::Dump)
    } else if tool == b"dcmconv".as_slice() {
        Some(Topic::Convert)
    } else if tool == b"dump2dcm".as_slice() {
        Some(Topic::Build)
    } else if tool == b"dcmodify".as_slice() {
        Some(Topic::Modify)
    } else if tool == b"dcmdeid".as_slice() {
        Some(Topic::Deidentify)
    } else if tool == b"dcm2csv".as_slice() {
        Some(Topic::Table)
    } else {
        None
    }
}

/// What is shown where the first word asks how something is used: the use of the tool that the only other word names.
/// Without another word, or with several, it is that of the program; a single one that names no tool asks for nothing.
fn use_of_only(others: &[&[u8]]) -> Option<Topic>
    ensures { result ≡ spec.use_of_only (map (λ w. w.now) others.now) }
{
    match others {
        [tool] => use_of(tool),
        _ => Some(Topic::Program),
    }
}

/// What the only word after a tool's name asks for.
fn asked_of_tool(tool: Topic, word: &[u8]) -> Option<Topic>
    ensures { result ≡ spec.asked_of_tool tool word.now }
{
    if is_help(word) {
        Some(tool)
    } else if is_version(word) {
        Some(Topic::Version)
    } else {
        None
    }
}

/// What is asked for where the first word does not ask itself: it may name a tool, of which the only other word asks.
fn asked_after(first: &[u8], others: &[&[u8]]) -> Option<Topic>
    ensures { result ≡ spec.asked_after first.now (map (λ w. w.now) others.now) }
{
    match others {
        [word] => match use_of(first) {
            Some(tool) => asked_of_tool(tool, word),
            None => None,
        },
        _ => None,
    }
}

/// The text that the words after the program's name ask for, if they do: by their first word, or by the only word
/// after a tool's name.
#[tactic(auto, unfolding(crate::specs::Topics::asked))]
pub fn asked(words: &[&[u8]]) -> Option<Topic>
    ensures { result ≡ spec.asked (map (λ w. w.now) words.now) }
{
    match words {
        [first, others @ ..] if is_help(first) => use_of_only(others),
        [first, ..] if is_version(first) => Some(Topic::Version),
        [first, others @ ..] => asked_after(first, others),
        [] => None,
    }
}
