//! Laws of the ideal run. Each function takes nothing and makes no call: its contract is the law.
ghost use Rattle.dcm_tree_laws.specs.IdealLaws.{FreeIsWritten, NewIsContinued, NoNameFlows, OneRow, OutputsAreDistinct};
ghost use Rattle.dcm_tree_laws.specs.IdealLaws.{OutputsStay, SecondIsFirst, SharesAreOne, StatusSays, WrittenIsMade};
ghost use Rattle.dcm_tree_laws.specs.IdealLaws.{WrittenIsThere};
ghost use Rattle.dcm_tree_laws.specs.Ran.{RunIsIdeal};
ghost use Rattle.dcm_tree_laws.specs.RanLaws.{NoNameShows, SecondRunIsFirst, SharesLeaveOne};

use dcm_base::{DeviceIn, DeviceOut};

/// A run changes nothing that was in OUTPUT, and each output that a row calls written is there at the end, with its
/// mode and all its bytes.
pub fn outputs_stay()
    ensures stay { OutputsStay }
    ensures written { WrittenIsThere }
{}

/// An output is written exactly where its name is free, and is what a single run writes for its input.
///
/// - A name is free where nothing is, and where nothing but folders is on the way.
pub fn free_names_are_written()
    ensures free { FreeIsWritten }
    ensures made { WrittenIsMade }
{}

/// A row with the status 0 means that its file is done: its output is there, with the bytes that a single run writes.
///
/// - With `+c` and kept names, a file of that name is there, which an earlier run may have written.
/// - What has no output, such as a DICOMDIR, has the status that it has alone.
pub fn status_says()
    ensures status { StatusSays }
{}

/// Each output that a run writes has a name of its own, where nothing was.
pub fn outputs_are_distinct()
    ensures distinct { OutputsAreDistinct }
{}

/// A run has one row for each of its names, in order.
pub fn one_row()
    ensures row { OneRow }
{}

/// A second run changes nothing, and has the rows of the first run, with `there` for what was written.
///
/// - Both runs continue (`+c`). A first run without `+c` is the same, if OUTPUT was empty and no two outputs have one
///   name.
/// - Where names are kept, no other output comes to be at the name of a file without output, or on its way.
pub fn second_run_changes_nothing()
    ensures second { SecondIsFirst }
    ensures new { NewIsContinued }
{}

/// Runs of all shards, in any order, leave the outputs of one run, and have its rows in another order.
///
/// - Any two names come to the same, or their outputs have two names, of which none is on the way to the other.
/// - Of names that come to one output, another one may be written than in one run.
pub fn shares_are_one_run()
    ensures shares { SharesAreOne }
{}

/// The names of input files do not show in outputs that are named by UIDs: trees whose files come to the same leave the
/// same outputs.
///
/// - The rows are the same but for the names in them.
pub fn no_name_flows()
    ensures names { NoNameFlows }
{}

/// A run over a folder or a list leaves the outputs and the rows of the ideal run.
///
/// - Each call succeeds that may. Readers give what files hold, and outputs tell what they took.
/// - The run does not end before its last name. The input files were there at the start, and are no temporary files.
/// - The system tells apart the outputs and the folders on their ways: two paths lead to two places, unless they go
///   through a link.
/// - If outputs are named by UIDs, an output has no more bytes than an input may have, and a path without a link leads
///   to one place.
pub fn runs_are_ideal<I: DeviceIn, O: DeviceOut, W: DeviceOut, E: DeviceOut, F>()
    ensures run { RunIsIdeal F I.DeviceIn O.DeviceOut W.DeviceOut E.DeviceOut }
{}

/// A second run over a tree leaves the outputs as they are, and has the rows of the first run, with `there` for what
/// was written.
///
/// - Both runs have the same task, shard, OUTPUT and names, and continue (`+c`).
/// - Where names are kept, no other output comes to be at the name of a file without output, or on its way.
pub fn second_runs_are_first<I: DeviceIn, O: DeviceOut, W: DeviceOut, E: DeviceOut, F>()
    ensures run { SecondRunIsFirst F I.DeviceIn O.DeviceOut W.DeviceOut E.DeviceOut }
{}

/// Runs over two trees whose files come to the same, in the order of the walks, leave the same outputs.
///
/// - What a file comes to has no name of the file, if outputs are named by UIDs.
pub fn no_name_shows<I: DeviceIn, O: DeviceOut, W: DeviceOut, E: DeviceOut, F>()
    ensures run { NoNameShows F I.DeviceIn O.DeviceOut W.DeviceOut E.DeviceOut }
{}

/// Runs of all shards of a tree, in any order, leave the outputs that one run of all names leaves.
///
/// - All runs have the same task, OUTPUT and names, and continue (`+c`).
/// - Any two names come to the same, or their outputs have two names, of which none is on the way to the other.
pub fn shares_leave_one<I: DeviceIn, O: DeviceOut, W: DeviceOut, E: DeviceOut, F>()
    ensures run { SharesLeaveOne F I.DeviceIn O.DeviceOut W.DeviceOut E.DeviceOut }
{}
