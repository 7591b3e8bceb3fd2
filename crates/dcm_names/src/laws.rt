//! What is proved of lists for every one: each function is a law, its contract.
ghost use Rattle.std.specs.Prelude.{List, ℕ};
ghost use Rattle.dcm_names.specs.Laws.{LinesInPieces};

/// The lines of a list do not depend on the pieces in which the list is read.
pub fn lines_in_pieces()
    ensures { (line front back : List ℕ) → LinesInPieces line front back }
{}
