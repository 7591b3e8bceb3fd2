// The words of dcmdump that name several files.
ghost use Rattle.std.specs.Prelude.{◌≡◌, map};
ghost use Rattle.std.specs.List.{list_any};
ghost use Rattle.dcm_table_words.specs.Plans.{names_as};
ghost use Rattle.dcm_dumps.specs.Plans as plans;
ghost use Rattle.dcm_dumps.specs.Words as spec;

use dcm_base::WordFault;
use dcm_table_words::{Name, NameWords, Tool, has_empty, has_standard_twice};
use dcm_words::{Dump, SEVERAL, Usage, asked, dump_of_each};

/// The tool that shows files.
const DCMDUMP: &[u8] = b"dcmdump";

/// Dumps of several files: how each is shown, and their names.
#[derive(Clone, Copy)]
pub struct DumpsPlan<'a> {
    pub dump: Dump,
    pub names: NameWords<'a>,
}

/// Why no dumps of several files follow from the words of a command line.
#[derive(Clone, Copy, Debug, PartialEq, Eq)]
pub enum DumpsUsage {
    /// The words are refused for a cause that words for one file may have.
    Words(Usage),
    /// Standard input is named twice.
    StandardTwice,
}

/// Whether the word is among these by which one file has a heading.
fn has_several(words: &[&[u8]]) -> bool
    ensures { result ≡ list_any spec.is_several (map (λ w. w.now) words.now) }
{
    for word in words {
        if *word == SEVERAL {
            return true;
        }
    }
    false
}

/// Whether there is one name, which is that of a file.
fn is_one_file(names: NameWords) -> bool
    ensures { result ≡ spec.is_one_file (names_as names.entry) }
{
    match names.after(0) {
        Some((Name::File(_), next)) => names.after(next).is_none(),
        _ => false,
    }
}

/// Whether words ask for dumps of several files: they are those of dcmdump, and ask for no text about it. They have
/// `+F`, or they do not have one name that is a file's.
#[tactic(auto, unfolding(crate::specs::Words::asks_dumps))]
pub fn asks_dumps(words: &[&[u8]]) -> bool
    ensures { result ≡ spec.asks_dumps (map (λ w. w.now) words.now) }
{
    match words {
        [tool, rest @ ..] => {
            *tool == DCMDUMP
                && asked(words).is_none()
                && (has_several(rest) || !is_one_file(NameWords::among(Tool::Dump, rest)))
        }
        [] => false,
    }
}

/// The dumps that the words after the tool's name mean, or the first refusal.
fn plan_of<'a>(words: &'a [&'a [u8]]) -> Result<DumpsPlan<'a>, DumpsUsage>
    ensures { plans.GivesDumps result (spec.dumps_said (map (λ w. w.now) words.now)) }
{
    let each = match dump_of_each(words) {
        Ok(each) => each,
        Err(usage) => return Err(DumpsUsage::Words(usage)),
    };
    let names = NameWords::among(Tool::Dump, words);
    if names.after(0).is_none() || has_empty(names) {
        return Err(DumpsUsage::Words(Usage::Whole(WordFault::WrongPaths)));
    }
    let Some(dump) = each else {
        return Err(DumpsUsage::Words(Usage::Whole(WordFault::OptionsApart)));
    };
    if has_standard_twice(names) {
        return Err(DumpsUsage::StandardTwice);
    }
    Ok(DumpsPlan { dump, names })
}

/// The dumps of several files that the words after the program's name mean, with their names borrowed from them, or the
/// first refusal.
#[tactic(auto, unfolding(crate::specs::Words::meant_dumps))]
pub fn dumps_plan<'a>(words: &'a [&'a [u8]]) -> Result<DumpsPlan<'a>, DumpsUsage>
    ensures { plans.GivesDumps result (spec.meant_dumps (map (λ w. w.now) words.now)) }
{
    match words {
        [tool, rest @ ..] if *tool == DCMDUMP => plan_of(rest),
        _ => Err(DumpsUsage::Words(Usage::AtWord(WordFault::UnknownTool, 1))),
    }
}

/// How many names there are, where that is known before a list is read.
pub fn total_of(names: NameWords) -> Option<u64>
    ensures { result ≡ spec.total_of (names_as names.entry) }
{
    let mut total = 0;
    let mut place = 0;
    while let Some((name, next)) = names.after(place) {
        if let Name::List(_) = name {
            return None;
        }
        total += 1;
        place = next;
    }
    Some(total)
}
