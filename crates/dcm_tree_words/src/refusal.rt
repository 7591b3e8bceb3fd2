// Which refusal of the words of a run over a tree is told first.
ghost use Rattle.std.specs.Prelude.{◌≡◌, option_map};
ghost use Rattle.dcm_words.specs.PlacesAs.{two_as};
ghost use Rattle.dcm_tree_words.specs.Plans.{known_as};
ghost use Rattle.dcm_tree_words.specs.Trees as spec;

use crate::word::TreeTool;
use dcm_base::WordFault;
use dcm_words::{TwoPaths, Usage};

/// The path of a standard stream.
const STANDARD: &[u8] = b"-";

/// A list whose name is empty.
const NAMELESS: &[u8] = b"@";

/// What is known of words.
#[derive(Clone, Copy, Debug)]
pub struct Known<'a> {
    pub over_tree: bool,
    /// The number of a `+part` after which no part is named.
    pub unfit: Option<usize>,
    pub paths: Option<TwoPaths<'a>>,
    /// The refusal of the words of the tool.
    pub refusal: Option<Usage>,
}

/// That no part is named after the `+part` of this number.
fn part_fault(unfit: Option<usize>) -> Option<Usage>
    ensures { result ≡ spec.part_fault unfit }
{
    match unfit {
        Some(number) => Some(Usage::AtWord(WordFault::BadOptionValue, number)),
        None => None,
    }
}

/// The first word that is refused: one of the tool, or the `+part` of this number.
fn word_fault(unfit: Option<usize>, refusal: Option<Usage>) -> Option<Usage>
    ensures { result ≡ spec.word_fault unfit refusal }
{
    match (unfit, refusal) {
        (Some(part), Some(Usage::AtWord(_, word))) if part < word => part_fault(unfit),
        (_, Some(Usage::AtWord(_, _))) => refusal,
        _ => part_fault(unfit),
    }
}

/// That there are no two paths, or that the list over which a run goes has no name.
fn path_fault(over_tree: bool, paths: Option<TwoPaths>) -> Option<Usage>
    ensures { result ≡ spec.path_fault over_tree (option_map two_as paths.entry) }
{
    match paths {
        Some(paths) if !over_tree || paths.input != NAMELESS => None,
        _ => Some(Usage::Whole(WordFault::WrongPaths)),
    }
}

/// That a word of a tree is there without `+r`; or with it a standard stream, or `+ow`.
fn option_fault(over_tree: bool, paths: Option<TwoPaths>) -> Option<Usage>
    ensures { result ≡ spec.option_fault over_tree (option_map two_as paths.entry) }
{
    let paths = paths?;
    if !over_tree || paths.input == STANDARD || paths.output == STANDARD || paths.overwrites {
        return Some(Usage::Whole(WordFault::OptionsApart));
    }
    None
}

/// That an edit is refused.
fn edit_fault(refusal: Option<Usage>) -> Option<Usage>
    ensures { result ≡ spec.edit_fault refusal }
{
    match refusal {
        Some(Usage::InEdit(_, _)) => refusal,
        _ => None,
    }
}

/// The first of the refusals of options and paths.
fn fault_of_options(known: Known) -> Option<Usage>
    ensures { result ≡ spec.fault_of_options (known_as known.entry) }
{
    word_fault(known.unfit, known.refusal)
        .or(path_fault(known.over_tree, known.paths))
        .or(option_fault(known.over_tree, known.paths))
}

/// The first of the refusals of edits and paths.
fn fault_of_edits(known: Known) -> Option<Usage>
    ensures { result ≡ spec.fault_of_edits (known_as known.entry) }
{
    path_fault(known.over_tree, known.paths)
        .or(part_fault(known.unfit))
        .or(edit_fault(known.refusal))
        .or(option_fault(known.over_tree, known.paths))
}

/// The refusal that comes before those that are left to the tool.
pub fn first_fault(tool: TreeTool, known: Known) -> Option<Usage>
    ensures { result ≡ spec.first_fault tool (known_as known.entry) }
{
    match tool {
        TreeTool::Modify => fault_of_edits(known),
        TreeTool::Convert | TreeTool::Deidentify => fault_of_options(known),
    }
}
