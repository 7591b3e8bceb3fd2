//! Laws of the definitions. Each function takes nothing and makes no call: its contract is the law.
ghost use Rattle.dcm_trees.specs.World.{world};
ghost use Rattle.dcm_tree_laws.specs.Again.{AgainIsStill, AgainIsStillOfList, ThereIsLeft};
ghost use Rattle.dcm_tree_laws.specs.Again.{MadeIsThere, MadeIsThereOfList};
ghost use Rattle.dcm_tree_laws.specs.Apart.{OutputsBeginEmpty, OutputsLieApart};
ghost use Rattle.dcm_tree_laws.specs.Behind.{RowsAreToldBehind, RowsAreToldBehindAs};
ghost use Rattle.dcm_tree_laws.specs.Copied.{CopiesAreThere, CopiesAreThereOfList};
ghost use Rattle.dcm_tree_laws.specs.Copied.{SecondIsAsItWas, SecondIsAsItWasOfList};
ghost use Rattle.dcm_tree_laws.specs.Copies.{CopyIsLeft, UnnamedIsLeft, AgainIsAsItWas, AgainIsAsItWasOfList};
ghost use Rattle.dcm_tree_laws.specs.Course.{RunsBeginSo, RunsOfHeldBeginSo, SureRunsBeginSo, WorkingRunsBeginSo};
ghost use Rattle.dcm_tree_laws.specs.Determined.{OneEnd, EndIsAnswer, DoneIsAnswer, OneInstance};
ghost use Rattle.dcm_tree_laws.specs.Distinct.{OutputsAreDistinct, OutputsAreDistinctOfList};
ghost use Rattle.dcm_tree_laws.specs.Flows.{NoNameFlows, SameBecomes};
ghost use Rattle.dcm_tree_laws.specs.Kept.{AgainIsKept, AgainIsKeptOfList, KeptIsThere, KeptIsThereOfList};
ghost use Rattle.dcm_tree_laws.specs.Kept.{SecondIsKept, SecondIsKeptOfList, StaysFree, WithoutIsLeft};
ghost use Rattle.dcm_tree_laws.specs.Halves.{NeverHalf, NeverHalfByWords, NeverHalfOfBytes};
ghost use Rattle.dcm_tree_laws.specs.Laws.{OthersStay, OthersStayByWords};
ghost use Rattle.dcm_tree_laws.specs.OneRow.{OneRow, OneRowOfList, OneRowOfRun};
ghost use Rattle.dcm_tree_laws.specs.Lines.{LinesAreVisited};
ghost use Rattle.dcm_tree_laws.specs.Outputs.{WrittenIsThere, WrittenIsThereOfList};
ghost use Rattle.dcm_tree_laws.specs.Part.{NoPartAfterRun, NoPartLeft, NoPartLeftByList};
ghost use Rattle.dcm_tree_laws.specs.Shares.{ManifestOfShare, OneOutput, OneShare, RowsOfRuns};
ghost use Rattle.dcm_tree_laws.specs.Single.{SingleRuns, SingleRunsOfList};
ghost use Rattle.dcm_tree_laws.specs.Taken.{NothingTakenFlows};
ghost use Rattle.dcm_tree_laws.specs.Status.{StatusSays, StatusSaysOfList};
ghost use Rattle.dcm_tree_laws.specs.Told.{RowsAreTold};
ghost use Rattle.dcm_tree_laws.specs.ToldAs.{RowsAreToldAs};
ghost use Rattle.dcm_tree_laws.specs.Together.{FateIsTold, InstancesAreOne, NothingElse, NothingElseAs, PartsAreOne};
ghost use Rattle.dcm_tree_laws.specs.Twice.{SecondIsStill};
ghost use Rattle.dcm_tree_laws.specs.Visited.{FilesAreTold, FilesAreVisited, FilesOfRunAreTold, FilesOfRunAreVisited};

use dcm_base::{DeviceIn, DeviceOut};
use dcm_files::Folders;

/// A run over a tree never changes what was there before: files, their bytes and modes, folders and links.
///
/// - This holds after each call, also where the run is cut off there, and whatever calls fail.
/// - New things are below OUTPUT, or OUTPUT itself, or where a link in OUTPUT leads. No part of a new relative name is
///   empty, `.` or `..`.
/// - What a run left over at the path of the temporary file may be removed.
/// - Nobody else changes where a path leads.
pub fn others_stay<I: DeviceIn, O: DeviceOut, W: DeviceOut, E: DeviceOut, F>()
    ensures run { OthersStay F I.DeviceIn O.DeviceOut W.DeviceOut E.DeviceOut }
    ensures words { OthersStayByWords F I.DeviceIn O.DeviceOut E.DeviceOut }
{}

/// An output file of a tree gets its name only when it is complete.
///
/// - This holds after each call, also where the run is cut off there, and whatever calls fail. The temporary file is
///   set aside.
/// - The output has all bytes that were written of a job that was done. The job is the one that the run's task has for
///   an input file.
/// - The input was below FOLDER, or at the path of a line of the list, at a state of this run. In a folder no link
///   leads to the input.
/// - The mode is that of the input, less the bits that the system takes away.
/// - By the words of the program, one task gives all outputs of a run. Where a key is named, the key is the one that
///   was read first.
/// - Where readers give what files hold, and outputs tell what they took, the bytes are what a single run writes of the
///   input, and the single run does not refuse the input.
pub fn never_half<I: DeviceIn, O: DeviceOut, W: DeviceOut, E: DeviceOut, F>()
    ensures run { NeverHalf F I.DeviceIn O.DeviceOut W.DeviceOut E.DeviceOut }
    ensures bytes { NeverHalfOfBytes F I.DeviceIn O.DeviceOut W.DeviceOut E.DeviceOut }
    ensures words { NeverHalfByWords F I.DeviceIn O.DeviceOut E.DeviceOut }
{}

/// A run over a tree is refused before its first name, or visits its names from a sound state.
///
/// - In that state no file is being written, no removal has failed, nothing is at the path of the temporary file, and
///   that path is text.
/// - Before, a run makes the folder OUTPUT where nothing was, and removes a temporary file that was left over. It does
///   nothing else.
/// - A run that is refused tells so, and its manifest stays as it was.
/// - This holds whatever calls fail, and over the systems that other laws ask for.
pub fn runs_begin_so<I: DeviceIn, O: DeviceOut, W: DeviceOut, E: DeviceOut, F>()
    ensures run { RunsBeginSo F I.DeviceIn O.DeviceOut W.DeviceOut E.DeviceOut }
    ensures held { RunsOfHeldBeginSo F I.DeviceIn O.DeviceOut W.DeviceOut E.DeviceOut }
    ensures sure { SureRunsBeginSo F I.DeviceIn O.DeviceOut W.DeviceOut E.DeviceOut }
    ensures working { WorkingRunsBeginSo F I.DeviceIn O.DeviceOut W.DeviceOut E.DeviceOut }
{}

/// The folder of the inputs and the folder of the outputs never lie in one another, and a run without `+c` begins with
/// an empty OUTPUT.
///
/// - On the way up from each folder, by the `..` in each one, no folder has the number of the other. If OUTPUT was not
///   there, this is said of the folder that holds OUTPUT.
/// - The first part holds whatever calls fail.
/// - The second part asks that an open folder gives each name in it, and that the `.` in a folder is this folder.
pub fn outputs_lie_apart<I: DeviceIn, O: DeviceOut, W: DeviceOut, E: DeviceOut, F>()
    ensures run { OutputsLieApart F I.DeviceIn O.DeviceOut W.DeviceOut E.DeviceOut }
    ensures new { OutputsBeginEmpty F I.DeviceIn O.DeviceOut W.DeviceOut E.DeviceOut }
{}

/// The manifest of a tree has exactly one row for each name, in order.
///
/// - The names are those of the run's shard.
/// - The run does not end before its last name.
/// - A run that visits no names has the status 4. If the run is refused, its manifest stays as it was.
pub fn one_row<S: Folders, W: DeviceOut, E: DeviceOut>()
    ensures folder { OneRow (world S.may_do S.folders_do S.Input.DeviceIn S.Output.DeviceOut E.DeviceOut) W.DeviceOut }
    ensures list { OneRowOfList (world S.may_do S.folders_do S.Input.DeviceIn S.Output.DeviceOut E.DeviceOut)
        W.DeviceOut }
    ensures run { OneRowOfRun (world S.may_do S.folders_do S.Input.DeviceIn S.Output.DeviceOut E.DeviceOut) W.DeviceOut }
{}

/// The exit status of a run is 0 exactly where each name is done: its output was written whole, or was there.
///
/// - The row of a DICOMDIR, which is left out, has the status 0 too.
/// - All names were visited, and there was one at least. A list was read to its end.
/// - A run that ends before its last name has another status. A run that visits no names has the status 4 (`one_row`).
/// - This holds over any system, whatever calls fail.
pub fn status_says<S: Folders, W: DeviceOut, E: DeviceOut>()
    ensures folder { StatusSays (world S.may_do S.folders_do S.Input.DeviceIn S.Output.DeviceOut E.DeviceOut) W.DeviceOut }
    ensures list { StatusSaysOfList (world S.may_do S.folders_do S.Input.DeviceIn S.Output.DeviceOut E.DeviceOut)
        W.DeviceOut }
{}

/// A run over a folder visits each regular file below it exactly once.
///
/// - The file lies behind folders and no links, at most 63 folders deep, and not in OUTPUT. Its path is text that the
///   system takes, and it is no temporary file.
/// - An open folder gives each name that was in it, once. No look and no listing fails that need not. The run does not
///   end before its last name.
/// - Where calls fail, the file is visited too, or a visit says that the file, or a folder on its way, could not be
///   read.
/// - For a run as a whole, the `.` in a folder is this folder.
pub fn files_are_visited<I: DeviceIn, O: DeviceOut, W: DeviceOut, E: DeviceOut, F>()
    ensures folder { FilesAreVisited F I.DeviceIn O.DeviceOut W.DeviceOut E.DeviceOut }
    ensures told { FilesAreTold F I.DeviceIn O.DeviceOut W.DeviceOut E.DeviceOut }
    ensures run { FilesOfRunAreVisited F I.DeviceIn O.DeviceOut W.DeviceOut E.DeviceOut }
    ensures run_told { FilesOfRunAreTold F I.DeviceIn O.DeviceOut W.DeviceOut E.DeviceOut }
{}

/// A run over a list visits each line of the list exactly once, in order.
///
/// - Empty lines are left out. The last line counts also without a newline.
/// - If the list can be read no further, the lines that had ended by then are visited.
/// - Readers give what files hold, and the run does not end before its last name.
pub fn lines_are_visited<I: DeviceIn, O: DeviceOut, W: DeviceOut, E: DeviceOut, F>()
    ensures list { LinesAreVisited F I.DeviceIn O.DeviceOut W.DeviceOut E.DeviceOut }
{}

/// If a row says `written`, the complete output file is at its path at the end of the run.
///
/// - An output that keeps its name is called as its input. Otherwise its name is that of the instance that was read in
///   the temporary file.
/// - The run was begun, and did not end before its last name.
pub fn written_is_there<I: DeviceIn, O: DeviceOut, W: DeviceOut, E: DeviceOut, F>()
    ensures folder { WrittenIsThere F I.DeviceIn O.DeviceOut W.DeviceOut E.DeviceOut }
    ensures list { WrittenIsThereOfList F I.DeviceIn O.DeviceOut W.DeviceOut E.DeviceOut }
{}

/// Each output that a run writes has a path of its own, where nothing was before the run.
///
/// - The run was begun, and did not end before its last name.
pub fn outputs_are_distinct<I: DeviceIn, O: DeviceOut, W: DeviceOut, E: DeviceOut, F>()
    ensures folder { OutputsAreDistinct F I.DeviceIn O.DeviceOut W.DeviceOut E.DeviceOut }
    ensures list { OutputsAreDistinctOfList F I.DeviceIn O.DeviceOut W.DeviceOut E.DeviceOut }
{}

/// A run over a tree leaves no temporary file, also if the run ends early.
///
/// - No removal of a file failed.
/// - At the path of the temporary file is what was there before, and that is nothing if the run was begun.
/// - For a run as a whole, OUTPUT and the temporary file in it are at two places, as in any file system.
pub fn no_part_left<I: DeviceIn, O: DeviceOut, W: DeviceOut, E: DeviceOut, F>()
    ensures run { NoPartAfterRun F I.DeviceIn O.DeviceOut W.DeviceOut E.DeviceOut }
    ensures folder { NoPartLeft F I.DeviceIn O.DeviceOut W.DeviceOut E.DeviceOut }
    ensures list { NoPartLeftByList F I.DeviceIn O.DeviceOut W.DeviceOut E.DeviceOut }
{}

/// Each output of a tree is what the tool writes for its input alone, with the mode of the input.
///
/// - The bytes are the answer to the bytes that the input had at the start of the run, and the answer refuses nothing.
/// - The mode loses the bits that the system takes away.
/// - The output has the name of its input, or of the instance that its bytes name, if the path of the temporary file
///   leads to one place.
/// - Readers give what files hold, and outputs tell what they took.
/// - The run was begun, and did not end before its last name.
pub fn outputs_are_single_runs<I: DeviceIn, O: DeviceOut, W: DeviceOut, E: DeviceOut, F>()
    ensures folder { SingleRuns F I.DeviceIn O.DeviceOut W.DeviceOut E.DeviceOut }
    ensures list { SingleRunsOfList F I.DeviceIn O.DeviceOut W.DeviceOut E.DeviceOut }
{}

/// A run with `+c` that keeps names leaves an output that is there, says `there`, and only looks.
///
/// - If the outputs of all files of the shard are there, the run changes nothing at any time.
/// - No look fails, and the runs do not end before their last names.
pub fn again_is_still<I: DeviceIn, O: DeviceOut, W: DeviceOut, E: DeviceOut, F>()
    ensures made { MadeIsThere F I.DeviceIn O.DeviceOut W.DeviceOut E.DeviceOut }
    ensures made_by_list { MadeIsThereOfList F I.DeviceIn O.DeviceOut W.DeviceOut E.DeviceOut }
    ensures name { ThereIsLeft F I.DeviceIn O.DeviceOut E.DeviceOut }
    ensures twice { SecondIsStill F I.DeviceIn O.DeviceOut W.DeviceOut E.DeviceOut }
    ensures folder { AgainIsStill F I.DeviceIn O.DeviceOut W.DeviceOut E.DeviceOut }
    ensures list { AgainIsStillOfList F I.DeviceIn O.DeviceOut W.DeviceOut E.DeviceOut }
{}

/// The bytes of a file determine what becomes of the file: one output, or one reason for none, and one instance.
pub fn bytes_say_the_end()
    ensures end { OneEnd }
    ensures answer { EndIsAnswer }
    ensures done { DoneIsAnswer }
    ensures instance { OneInstance }
{}

/// A second run that names outputs by UIDs leaves all as it was, with `there` for `written` and `unplaced` in its rows.
///
/// - Each file of the first run was written, or was there (status 0 or 4), or was refused, or names no instance.
/// - A file with other bytes at the path of an output is left too.
/// - No call fails that need not. Readers give what files hold, and outputs tell what they took.
/// - The runs do not end before their last names.
pub fn again_is_as_it_was<I: DeviceIn, O: DeviceOut, W: DeviceOut, E: DeviceOut, F>()
    ensures made { CopiesAreThere F I.DeviceIn O.DeviceOut W.DeviceOut E.DeviceOut }
    ensures made_by_list { CopiesAreThereOfList F I.DeviceIn O.DeviceOut W.DeviceOut E.DeviceOut }
    ensures twice { SecondIsAsItWas F I.DeviceIn O.DeviceOut W.DeviceOut E.DeviceOut }
    ensures twice_by_list { SecondIsAsItWasOfList F I.DeviceIn O.DeviceOut W.DeviceOut E.DeviceOut }
    ensures name { CopyIsLeft F I.DeviceIn O.DeviceOut E.DeviceOut }
    ensures no_name { UnnamedIsLeft F I.DeviceIn O.DeviceOut E.DeviceOut }
    ensures folder { AgainIsAsItWas F I.DeviceIn O.DeviceOut W.DeviceOut E.DeviceOut }
    ensures list { AgainIsAsItWasOfList F I.DeviceIn O.DeviceOut W.DeviceOut E.DeviceOut }
{}

/// A second run with `+c` that keeps names leaves all as it was, with `there` for `written` and `unplaced` in its rows.
///
/// - Both runs have the same task, shard, OUTPUT and names.
/// - Each file of the first run was there at its start, and was written, or was there (status 0), or was refused.
/// - The name of a refused file is still free. This is so if no other output comes to be at that name, or on its way.
/// - No call fails that need not. Readers give what files hold, and outputs tell what they took.
/// - The runs do not end before their last names.
pub fn again_keeps_names<I: DeviceIn, O: DeviceOut, W: DeviceOut, E: DeviceOut, F>()
    ensures made { KeptIsThere F I.DeviceIn O.DeviceOut W.DeviceOut E.DeviceOut }
    ensures made_by_list { KeptIsThereOfList F I.DeviceIn O.DeviceOut W.DeviceOut E.DeviceOut }
    ensures twice { SecondIsKept F I.DeviceIn O.DeviceOut W.DeviceOut E.DeviceOut }
    ensures twice_by_list { SecondIsKeptOfList F I.DeviceIn O.DeviceOut W.DeviceOut E.DeviceOut }
    ensures free { StaysFree F I.DeviceIn O.DeviceOut W.DeviceOut E.DeviceOut }
    ensures name { WithoutIsLeft F I.DeviceIn O.DeviceOut E.DeviceOut }
    ensures folder { AgainIsKept F I.DeviceIn O.DeviceOut W.DeviceOut E.DeviceOut }
    ensures list { AgainIsKeptOfList F I.DeviceIn O.DeviceOut W.DeviceOut E.DeviceOut }
{}

/// Outputs that are named by UIDs tell neither the names of the input files nor what is removed from them.
///
/// - Two trees are done by one task into the same OUTPUT. Their files pair in the order of the two walks.
/// - The two files of a pair have one mode, and come to the same: they are read without fault, the same meta elements
///   are kept, and they differ only in what is removed.
/// - Then OUTPUT is the same after both runs, names too, and the status is the same.
/// - Manifests and lines, which have the old names, are set aside, and so are the modes of new folders.
/// - No call fails that need not. Readers give what files hold, and outputs tell what they took.
pub fn no_name_flows<I: DeviceIn, O: DeviceOut, W: DeviceOut, E: DeviceOut, F>()
    ensures name { SameBecomes F I.DeviceIn O.DeviceOut E.DeviceOut }
    ensures run { NoNameFlows F I.DeviceIn O.DeviceOut W.DeviceOut E.DeviceOut }
    ensures taken { NothingTakenFlows F I.DeviceIn O.DeviceOut W.DeviceOut E.DeviceOut }
{}

/// Runs of all shards do each name exactly once.
///
/// - If the same becomes of each name as in one run, the rows of all runs are the rows of one run, in another order.
/// - An output does not depend on the run that writes it.
pub fn names_are_shared()
    ensures share { OneShare }
    ensures rows { RowsOfRuns }
    ensures manifest { ManifestOfShare }
    ensures output { OneOutput }
{}

/// Runs of all shards, in any order, leave the outputs and the rows that one run leaves.
///
/// - All runs keep names, or all name outputs by UIDs.
/// - Names that come to one output have one mode and the same bytes, and no output is on the way to another.
/// - No call fails that need not. Readers give what files hold, and outputs tell what they took.
/// - The runs do not end before their last names.
/// - Of names that come to one output, the first that is done has `written`, and the others have `there`.
/// - Rows are compared where no output is taken by a folder, a link or a path that is too long.
pub fn parts_are_one<I: DeviceIn, O: DeviceOut, W: DeviceOut, E: DeviceOut, F>()
    ensures files { PartsAreOne F I.DeviceIn O.DeviceOut W.DeviceOut E.DeviceOut }
    ensures instances { InstancesAreOne F I.DeviceIn O.DeviceOut W.DeviceOut E.DeviceOut }
    ensures nothing_else { NothingElse F I.DeviceIn O.DeviceOut W.DeviceOut E.DeviceOut }
    ensures nothing_else_as { NothingElseAs F I.DeviceIn O.DeviceOut W.DeviceOut E.DeviceOut }
    ensures fate { FateIsTold F I.DeviceIn O.DeviceOut E.DeviceOut }
    ensures rows { RowsAreTold F I.DeviceIn O.DeviceOut W.DeviceOut E.DeviceOut }
    ensures rows_as { RowsAreToldAs F I.DeviceIn O.DeviceOut W.DeviceOut E.DeviceOut }
    ensures rows_behind { RowsAreToldBehind F I.DeviceIn O.DeviceOut W.DeviceOut E.DeviceOut }
    ensures rows_behind_as { RowsAreToldBehindAs F I.DeviceIn O.DeviceOut W.DeviceOut E.DeviceOut }
{}
