// The words of the tool, without those of a tree.
ghost use Rattle.std.specs.Prelude.{◌≡◌, ◌++◌, ◌∷◌, [], IfOk};
ghost use Rattle.dcm_tree_words.specs.Pieces.{piece_as, pieces_of, texts};
ghost use Rattle.dcm_tree_words.specs.TreeWords as spec;
ghost use Rattle.dcm_tree_words.specs.Trees.{as_given as usage_given, words_of_one as one_file};

use crate::piece::{Piece, piece_at};
use crate::word::{TreeTool, tree_tool};
use dcm_words::Usage;
use std::alloc::{AllocError, Allocator};

/// How many words of dcmodify are paths, which come last.
const PATHS: usize = 2;

/// Of the words after the tool's name those that words of a tree may be among, and the others.
pub fn apart<'a>(tool: TreeTool, words: &'a [&'a [u8]]) -> (&'a [&'a [u8]], &'a [&'a [u8]])
    ensures among { texts result.0.now ≡ spec.among tool (texts words.now) }
    ensures behind { texts result.1.now ≡ spec.behind tool (texts words.now) }
{
    let size = match tool {
        TreeTool::Modify => words.len().saturating_sub(PATHS),
        TreeTool::Convert | TreeTool::Deidentify => words.len(),
    };
    words.split_at(size)
}

/// The words that a piece leaves to the tool.
fn own_width(piece: Piece) -> usize
    ensures { result ≡ spec.own_width (piece_as piece.entry) }
{
    match piece {
        Piece::Own(_) => 1,
        Piece::OwnTwo(_, _) => 2,
        Piece::Tree(_) | Piece::Part(_) | Piece::NoPart => 0,
    }
}

/// The number, among all words, of that word of the tool which has so many before it. The words come after the tool's
/// name.
fn number_from<'a>(tool: TreeTool, words: &'a [&'a [u8]], before: usize) -> usize
    ensures { result ≡ spec.number_from 2 (pieces_of tool words.now) before }
{
    let mut left = before;
    let mut at = 0;
    while let Some((piece, next)) = piece_at(tool, words, at) {
        let width = own_width(piece);
        if left < width {
            return at + 2 + left;
        }
        left -= width;
        at = next;
    }
    at + 2
}

/// The refusal of words of the tool, with the number that its word has among all words.
pub fn as_given<'a>(tool: TreeTool, words: &'a [&'a [u8]], usage: Usage) -> Usage
    ensures { result ≡ usage_given (pieces_of tool words.now) usage }
{
    match usage {
        Usage::AtWord(fault, number) if number >= 2 => {
            Usage::AtWord(fault, number_from(tool, words, number - 2))
        }
        _ => usage,
    }
}

/// The words so far, and those that a piece leaves to the tool.
fn and_own<'a, A: Allocator>(
    words: &mut Vec<&'a [u8], A>,
    piece: Piece<'a>,
) -> Result<(), AllocError>
    ensures { IfOk result (λ u. texts words.new.items ≡ texts words.old.items ++ spec.own_words
        (piece_as piece.entry ∷ [])) }
{
    match piece {
        Piece::Own(word) => words.push(word)?,
        Piece::OwnTwo(word, next) => {
            words.push(word)?;
            words.push(next)?;
        }
        Piece::Tree(_) | Piece::Part(_) | Piece::NoPart => {}
    }
    Ok(())
}

/// Appends the words of the tool among these.
fn append_own<'a, A: Allocator>(
    own: &mut Vec<&'a [u8], A>,
    tool: TreeTool,
    words: &'a [&'a [u8]],
) -> Result<(), AllocError>
    ensures { IfOk result (λ u. texts own.new.items ≡ texts own.old.items ++ spec.own_words
        (pieces_of tool words.now)) }
{
    let mut at = 0;
    while let Some((piece, next)) = piece_at(tool, words, at) {
        and_own(own, piece)?;
        at = next;
    }
    Ok(())
}

/// Appends words.
fn append<'a, A: Allocator>(
    own: &mut Vec<&'a [u8], A>,
    words: &'a [&'a [u8]],
) -> Result<(), AllocError>
    ensures { IfOk result (λ u. texts own.new.items ≡ texts own.old.items ++ texts words.now) }
{
    own.extend_from_slice(words)
}

/// Appends the words after a tool's name, without those of a tree.
fn append_others<'a, A: Allocator>(
    own: &mut Vec<&'a [u8], A>,
    name: &[u8],
    others: &'a [&'a [u8]],
) -> Result<(), AllocError>
    ensures { IfOk result (λ u. texts own.new.items ≡ texts own.old.items ++ spec.others_alone name.now
        (texts others.now)) }
{
    let Some(tool) = tree_tool(name) else {
        return append(own, others);
    };
    let (among, behind) = apart(tool, others);
    append_own(own, tool, among)?;
    append(own, behind)
}

/// The words without those of a tree, as for a run of one file. Only memory is refused.
#[tactic(auto, unfolding(crate::specs::Trees::words_of_one))]
pub fn words_of_one<'a, A: Allocator>(
    alloc: A,
    words: &'a [&'a [u8]],
) -> Result<Vec<&'a [u8], A>, AllocError>
    ensures { IfOk result (λ one. texts one.items ≡ one_file (texts words.now)) }
{
    let mut one = Vec::new(alloc);
    if let [name, others @ ..] = words {
        one.push(*name)?;
        append_others(&mut one, name, others)?;
    }
    Ok(one)
}
