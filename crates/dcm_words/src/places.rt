// What the words of a tool are, for those who have words of their own among them.
ghost use Rattle.std.specs.Prelude.{◌≡◌, List, ℕ, map, option_map};
ghost use Rattle.dcm_words.specs.Places as spec;
ghost use Rattle.dcm_words.specs.Words.{tool_of as tool_as, paths_apart};
ghost use Rattle.dcm_words.specs.PlacesAs.{two_as};
ghost use Rattle.dcm_words.specs.Plans.{reader, PathsAre};

use crate::options::word_of;
use crate::usage::Word;
use crate::words::{Paths, Tool, is_path, said_by};
use dcm_edits::{settings_of, takes_next as edit_takes_next};

/// The input and the output that words name, and whether an output that is there is overwritten.
#[derive(Clone, Copy, Debug, PartialEq, Eq)]
pub struct TwoPaths<'a> {
    pub input: &'a [u8],
    pub output: &'a [u8],
    pub overwrites: bool,
}

/// Whether the word after one that says this is its value.
fn has_value(word: Word) -> bool
    ensures { result ≡ spec.has_value word }
{
    matches!(word, Word::Limit | Word::Move | Word::Key | Word::Element)
}

/// Whether the next word is the value of this one, which stands where a tool has an option.
fn tool_takes_next(tool: Tool, word: &[u8]) -> bool
    ensures { result ≡ spec.has_value (reader tool word.now) }
{
    has_value(word_of(tool, word))
}

/// Whether the next word is this one's, whatever it is: this one stands where the tool of this name has an option, and
/// is an option with a value, or one of an edit.
pub fn takes_next(tool: &[u8], word: &[u8]) -> bool
    ensures { result ≡ spec.tool_takes_next (tool_as tool.now) word.now }
{
    if tool == b"dcmdump".as_slice() {
        tool_takes_next(Tool::Dump, word)
    } else if tool == b"dcmconv".as_slice() {
        tool_takes_next(Tool::Convert, word)
    } else if tool == b"dump2dcm".as_slice() {
        tool_takes_next(Tool::Build, word)
    } else if tool == b"dcmodify".as_slice() {
        edit_takes_next(word)
    } else if tool == b"dcmdeid".as_slice() {
        tool_takes_next(Tool::Deidentify, word)
    } else {
        false
    }
}

/// An input and an output, where the paths are just these.
fn two_of<'a>(paths: Paths<'a>, overwrites: bool) -> Option<TwoPaths<'a>>
    ensures { (ps : List (List ℕ)) → PathsAre paths.entry ps
        → option_map two_as result ≡ spec.two_of ps overwrites }
{
    match paths {
        Paths::Two(input, output) if !input.is_empty() && !output.is_empty() => {
            Some(TwoPaths {
                input,
                output,
                overwrites,
            })
        }
        _ => None,
    }
}

/// The input and the output among the options of a tool.
fn paths_said<'a>(tool: Tool, words: &'a [&'a [u8]]) -> Option<TwoPaths<'a>>
    ensures { option_map two_as result ≡ spec.paths_said (reader tool) (map (λ w. w.now) words.now) }
{
    match said_by(tool, words) {
        Ok(said) => two_of(said.paths, said.overwrites),
        Err(_) => None,
    }
}

/// The input and the output after the edits of dcmodify.
fn paths_at_end<'a>(words: &'a [&'a [u8]]) -> Option<TwoPaths<'a>>
    ensures { option_map two_as result ≡ spec.paths_at_end (paths_apart (map (λ w. w.now) words.now)) }
{
    let [edit_words @ .., input, output] = words else {
        return None;
    };
    if !is_path(input) || !is_path(output) {
        return None;
    }
    Some(TwoPaths {
        input,
        output,
        overwrites: settings_of(edit_words).overwrites,
    })
}

/// The input and the output that the words after the program's name have, of a tool that has both; none where an
/// option is refused, or the number of paths.
#[tactic(auto, unfolding(crate::specs::Places::two_paths))]
pub fn two_paths<'a>(words: &'a [&'a [u8]]) -> Option<TwoPaths<'a>>
    ensures { option_map two_as result ≡ spec.two_paths (map (λ w. w.now) words.now) }
{
    match words {
        [tool, ..] if *tool == b"dcmdump".as_slice() => None,
        [tool, rest @ ..] if *tool == b"dcmconv".as_slice() => paths_said(Tool::Convert, rest),
        [tool, rest @ ..] if *tool == b"dump2dcm".as_slice() => paths_said(Tool::Build, rest),
        [tool, rest @ ..] if *tool == b"dcmodify".as_slice() => paths_at_end(rest),
        [tool, rest @ ..] if *tool == b"dcmdeid".as_slice() => paths_said(Tool::Deidentify, rest),
        _ => None,
    }
}
