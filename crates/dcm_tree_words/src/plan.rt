// The runs over trees that words mean.
ghost use Rattle.std.specs.Prelude.{◌≡◌, false};
ghost use Rattle.dcm_words.specs.Plans.{planned as planned_of, takes_memory};
ghost use Rattle.dcm_tree_words.specs.Pieces.{texts, pieces_of};
ghost use Rattle.dcm_tree_words.specs.Plans.{GivesTree, GivesTreeUnlessMemory, source_as, options_as, tree_as};
ghost use Rattle.dcm_tree_words.specs.TreeWords.{pieces_among, others_alone};
ghost use Rattle.dcm_tree_words.specs.Trees as spec;

use crate::own::{apart, as_given};
use crate::refusal::{Known, first_fault};
use crate::said::{TreeOptions, has_tree_word, said_by, unfit_part};
use crate::word::{TreeTool, tree_tool};
use dcm_base::WordFault;
use dcm_words::{Planned, Usage, plan, two_paths};
use std::alloc::{Allocator, Global};

/// Where the names of a run come from.
#[derive(Clone, Copy, Debug, PartialEq, Eq)]
pub enum Source<'a> {
    /// The files of a folder.
    Folder(&'a [u8]),
    /// The names in a list, where `-` is standard input.
    List(&'a [u8]),
}

/// A run over a tree, and the plan by which each file is done: its output is the folder of all outputs, and its input
/// the word that names the source.
#[derive(Drop)]
pub struct TreePlan<'a, A: Allocator = Global> {
    pub source: Source<'a>,
    pub options: TreeOptions,
    pub planned: Planned<'a, A>,
}

/// The source that a path names: behind `@` it is a list.
fn source_of(path: &[u8]) -> Source
    ensures { source_as result ≡ spec.source_of path.now }
{
    match path {
        [b'@', name @ ..] => Source::List(name),
        _ => Source::Folder(path),
    }
}

/// Whether words ask for a run over a tree: they are those of a tool that runs over trees, and have a word of a tree
/// where it is one. They ask for no text then (`laws`).
#[tactic(auto, unfolding(crate::specs::Trees::asks_tree))]
pub fn asks_tree<'a>(words: &'a [&'a [u8]]) -> bool
    ensures { result ≡ spec.asks_tree (texts words.now) }
{
    let [name, others @ ..] = words else {
        return false;
    };
    match tree_tool(name) {
        Some(tool) => has_tree_word(tool, apart(tool, others).0),
        None => false,
    }
}

/// The refusal of words, of which these are among the tree's; the plan of the tool's own gave this one, if any.
fn fault_of<'a>(
    tool: TreeTool,
    among: &'a [&'a [u8]],
    one: &'a [&'a [u8]],
    refusal: Option<Usage>,
) -> Option<Usage>
    ensures { result ≡ spec.fault_among tool (pieces_of tool among.now) (texts one.now) refusal }
{
    first_fault(
        tool,
        Known {
            over_tree: said_by(tool, among).over_tree,
            unfit: unfit_part(tool, among),
            paths: two_paths(one),
            refusal,
        },
    )
}

/// The run over a tree whose files are done by this plan.
fn tree_with<'a, A: Allocator>(options: TreeOptions, planned: Planned<'a, A>) -> TreePlan<'a, A>
    ensures { tree_as result ≡ spec.tree_with (options_as options) (planned_of planned.entry) }
{
    TreePlan {
        source: source_of(planned.input),
        options,
        planned,
    }
}

/// The run over a tree that the words after a tool's name mean, or the first refusal.
fn plan_of<'a, A: Allocator + Copy>(
    alloc: A,
    tool: TreeTool,
    others: &'a [&'a [u8]],
    one: &'a [&'a [u8]],
) -> Result<TreePlan<'a, A>, Usage>
    ensures meant { GivesTreeUnlessMemory result
        (spec.meant_apart tool (pieces_among tool (texts others.now)) (texts one.now)) }
    ensures memory { takes_memory (texts one.now) ≡ false
        → GivesTree result (spec.meant_apart tool (pieces_among tool (texts others.now)) (texts one.now)) }
{
    let (among, _) = apart(tool, others);
    match plan(alloc, one) {
        Ok(planned) => match fault_of(tool, among, one, None) {
            Some(fault) => Err(fault),
            None => Ok(tree_with(said_by(tool, among).options, planned)),
        },
        Err(Usage::Memory) => Err(Usage::Memory),
        Err(usage) => {
            let refusal = as_given(tool, among, usage);
            Err(fault_of(tool, among, one, Some(refusal)).unwrap_or(refusal))
        }
    }
}

/// The run over a tree that the words after the program's name mean, with its paths borrowed from them, or the first
/// refusal. `one` are the words without those of a tree. Memory is taken for the edits of dcmodify alone.
#[tactic(auto, unfolding(crate::specs::Trees::meant_tree, crate::specs::Trees::words_of_one))]
pub fn tree_plan<'a, A: Allocator + Copy>(
    alloc: A,
    words: &'a [&'a [u8]],
    one: &'a [&'a [u8]],
) -> Result<TreePlan<'a, A>, Usage>
    requires { texts one.now ≡ spec.words_of_one (texts words.now) }
    ensures meant { GivesTreeUnlessMemory result (spec.meant_tree (texts words.now)) }
    ensures memory { takes_memory (texts one.now) ≡ false → GivesTree result (spec.meant_tree (texts words.now)) }
{
    let [name, others @ ..] = words else {
        return Err(Usage::AtWord(WordFault::UnknownTool, 1));
    };
    match tree_tool(name) {
        Some(tool) => plan_of(alloc, tool, others, one),
        None => Err(Usage::AtWord(WordFault::UnknownTool, 1)),
    }
}
