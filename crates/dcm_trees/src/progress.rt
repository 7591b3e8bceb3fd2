// What a run over a tree has from one name to the next.
ghost use Rattle.std.specs.Prelude.{◌≤◌};
ghost use Rattle.dcm_cli.specs.Status as statuses;

use crate::file::Manner;
use crate::tally::Tally;
use dcm_base::Watched;
use dcm_tree_words::Part;

/// Why a run ends before its last name.
#[derive(Clone, Copy, Debug, PartialEq, Eq)]
pub enum Stop {
    /// What another run writes is there.
    PartThere,
    /// There is no memory for an output.
    Memory,
    /// The manifest cannot be written.
    Manifest,
}

/// What all names of a run share.
#[derive(Clone, Copy)]
pub struct Shared<'a> {
    pub manner: Manner<'a>,
    /// Which of the names are done.
    pub part: Part,
    /// Whether counts are shown.
    pub shows_counts: bool,
}

/// A run over the names of a tree.
#[derive(Drop)]
pub struct Work<'a, W> {
    /// What its names share.
    pub shared: Shared<'a>,
    /// Where the rows go.
    pub manifest: Watched<W>,
    /// How many rows there are.
    pub tally: Tally,
    /// The greatest status of a row.
    pub status: u8,
    /// Whether no name came so far.
    pub is_empty: bool,
    /// Why it ends before its last name, if it does.
    pub stop: Option<Stop>,
    ghost within: { status ≤ statuses.DEVICE },
}
