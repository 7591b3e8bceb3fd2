// What the words of a run over a tree say.
ghost use Rattle.std.specs.Prelude.{◌≡◌, Some, map};
ghost use Rattle.std.specs.List.{list_any};
ghost use Rattle.dcm_tree_words.specs.Pieces.{piece_as, pieces_of};
ghost use Rattle.dcm_tree_words.specs.Plans.{part_as, said_as};
ghost use Rattle.dcm_tree_words.specs.TreeWords.{is_of_tree as is_piece_of_tree};
ghost use Rattle.dcm_tree_words.specs.Trees as spec;

use crate::part::Part;
use crate::piece::{Piece, piece_at};
use crate::word::{TreeTool, TreeWord};

/// How a run over a tree goes on, and what it shows.
#[derive(Clone, Copy, Debug, PartialEq, Eq)]
pub struct TreeOptions {
    /// The output may hold files.
    pub continues: bool,
    pub part: Part,
    pub has_header: bool,
    /// Counts are shown.
    pub counts: bool,
    /// An output has the name of its input.
    pub keeps_names: bool,
}

/// What the words of a tree have said.
#[derive(Clone, Copy, Debug, PartialEq, Eq)]
pub struct Said {
    pub over_tree: bool,
    pub options: TreeOptions,
}

/// What is said without a word.
fn nothing_said(tool: TreeTool) -> Said
    ensures { said_as result ≡ spec.nothing_said tool }
{
    Said {
        over_tree: false,
        options: TreeOptions {
            continues: false,
            part: Part::WHOLE,
            has_header: true,
            counts: false,
            keeps_names: tool != TreeTool::Deidentify,
        },
    }
}

/// What was said, and this word.
fn and_word(said: Said, word: TreeWord) -> Said
    ensures { said_as result ≡ spec.and_word word (said_as said) }
{
    let options = said.options;
    match word {
        TreeWord::OverTree => Said {
            over_tree: true,
            ..said
        },
        TreeWord::Continue => Said {
            options: TreeOptions {
                continues: true,
                ..options
            },
            ..said
        },
        TreeWord::NoHeader => Said {
            options: TreeOptions {
                has_header: false,
                ..options
            },
            ..said
        },
        TreeWord::Counts => Said {
            options: TreeOptions {
                counts: true,
                ..options
            },
            ..said
        },
        TreeWord::KeepNames => Said {
            options: TreeOptions {
                keeps_names: true,
                ..options
            },
            ..said
        },
    }
}

/// What was said, and this part.
fn and_part(said: Said, part: Part) -> Said
    ensures { said_as result ≡ spec.and_part (Some (part_as part)) (said_as said) }
{
    Said {
        options: TreeOptions {
            continues: true,
            part,
            ..said.options
        },
        ..said
    }
}

/// What was said, and what this piece says.
fn and_piece(said: Said, piece: Piece) -> Said
    ensures { said_as result ≡ spec.said_with (piece_as piece.entry) (said_as said) }
{
    match piece {
        Piece::Tree(word) => and_word(said, word),
        Piece::Part(Some(part)) => and_part(said, part),
        _ => said,
    }
}

/// What words say of a run over a tree.
pub fn said_by<'a>(tool: TreeTool, words: &'a [&'a [u8]]) -> Said
    ensures { said_as result ≡ spec.said_after (spec.nothing_said tool) (pieces_of tool words.now) }
{
    let mut said = nothing_said(tool);
    let mut at = 0;
    while let Some((piece, next)) = piece_at(tool, words, at) {
        said = and_piece(said, piece);
        at = next;
    }
    said
}

/// Whether a piece is none of the tool.
fn is_of_tree(piece: Piece) -> bool
    ensures { result ≡ is_piece_of_tree (piece_as piece.entry) }
{
    !matches!(piece, Piece::Own(_) | Piece::OwnTwo(_, _))
}

/// Whether a word of a tree is among words.
pub fn has_tree_word<'a>(tool: TreeTool, words: &'a [&'a [u8]]) -> bool
    ensures { result ≡ list_any is_piece_of_tree (pieces_of tool words.now) }
{
    let mut at = 0;
    while let Some((piece, next)) = piece_at(tool, words, at) {
        if is_of_tree(piece) {
            return true;
        }
        at = next;
    }
    false
}

/// Whether a piece is `+part`, and no part is named after it.
fn names_no_part(piece: Piece) -> bool
    ensures { result ≡ spec.names_no_part (piece_as piece.entry) }
{
    matches!(piece, Piece::NoPart | Piece::Part(None))
}

/// The number of the first `+part` after which no part is named, where the words come after the tool's name.
pub fn unfit_part<'a>(tool: TreeTool, words: &'a [&'a [u8]]) -> Option<usize>
    ensures { result ≡ spec.unfit_from 2 (pieces_of tool words.now) }
{
    let mut at = 0;
    while let Some((piece, next)) = piece_at(tool, words, at) {
        if names_no_part(piece) {
            return Some(at + 2);
        }
        at = next;
    }
    None
}
