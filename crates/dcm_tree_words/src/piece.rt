// What words are, one after another.
ghost use Rattle.std.specs.Prelude.{◌≡◌};
ghost use Rattle.dcm_tree_words.specs.TreeWords as spec;
ghost use Rattle.dcm_tree_words.specs.Pieces.{piece_as, PieceAt};

use crate::part::Part;
use crate::part_word::part_of;
use crate::word::{PART, TreeTool, TreeWord, takes_next, tree_word};

/// A word, or a word and the next one, which is its own.
#[derive(Clone, Copy, Debug)]
pub enum Piece<'a> {
    /// A word of a run over a tree.
    Tree(TreeWord),
    /// `+part` and the next word, with the part that this names.
    Part(Option<Part>),
    /// `+part` with no word after it.
    NoPart,
    /// A word of the tool.
    Own(&'a [u8]),
    /// A word of the tool, and the next one.
    OwnTwo(&'a [u8], &'a [u8]),
}

/// What a word is where it has no next word of its own.
fn alone<'a>(tool: TreeTool, word: &'a [u8]) -> Piece<'a>
    ensures { piece_as result ≡ spec.alone tool word.now }
{
    if word == PART {
        return Piece::NoPart;
    }
    match tree_word(tool, word) {
        Some(word) => Piece::Tree(word),
        None => Piece::Own(word),
    }
}

/// What a word is with the next one, which is its own.
fn with_next<'a>(word: &'a [u8], next: &'a [u8]) -> Piece<'a>
    ensures { piece_as result ≡ spec.with_next word.now next.now }
{
    if word == PART {
        Piece::Part(part_of(next))
    } else {
        Piece::OwnTwo(word, next)
    }
}

/// The first piece from this place on, and the place after it.
pub fn piece_at<'a>(tool: TreeTool, words: &'a [&'a [u8]], at: usize) -> Option<(Piece<'a>, usize)>
    ensures { PieceAt result tool at words.now }
{
    if at >= words.len() {
        return None;
    }
    let word = words[at];
    if !takes_next(tool, word) {
        return Some((alone(tool, word), at + 1));
    }
    match words.get(at + 1) {
        Some(next) => Some((with_next(word, next), at + 2)),
        None => Some((alone(tool, word), at + 1)),
    }
}
