//! Laws of the definitions. Each function takes nothing and makes no call: its contract is the law.
ghost use Rattle.dcm_editor_laws.specs.Laws as laws;

/// The data set that dcmodify writes is read again without fault, as the normal form of the edited data set.
///
/// - The input was read without fault, and the output ends within the limit of an input.
/// - No value that is too long for its VR, and so becomes UN, has the tag of a sequence. The other laws of this crate
///   ask for this too.
pub fn edited_reads()
    ensures { laws.EditedReads }
{}

/// The output of dcmodify can be edited again: its tags ascend.
///
/// - The conditions are those of `edited_reads`.
pub fn edited_ascends()
    ensures { laws.EditedAscends }
{}

/// dcmodify writes numbers from 0 to 255, if the command line has only these.
pub fn edited_is_bytes()
    ensures { laws.EditedIsBytes }
{}

/// After `-ea` no element of the output has the tag, at any depth.
pub fn erased_all_is_gone()
    ensures { laws.NoneIsLeft }
{}

/// After `-ep` the output has no private element, at any depth.
pub fn erased_private_is_gone()
    ensures { laws.NoPrivateIsLeft }
{}

/// After `-ma` each element of the tag in the output has the new value, at any depth.
pub fn modified_all_is_so()
    ensures { laws.AllAreModified }
{}

/// Elements that no edit names are the same in the edited data set as in the input, at every depth.
///
/// - Named are the last tag of each edit, each tag on the path of an `-i`, and with `-ep` the private tags.
pub fn others_stay()
    ensures { laws.OthersStay }
{}

/// Elements that no edit names are the same in the output as in the normal form of the input.
///
/// - Named are the tags of `others_stay`.
/// - In an implicit syntax that is read with the whole dictionary no edit may change PixelRepresentation, on which the
///   VRs of others depend.
pub fn others_stay_written()
    ensures { laws.OthersStayWritten }
{}

/// A reader with another dictionary reads the output of dcmodify without fault too, as the same data set with the VRs
/// of that dictionary.
///
/// - In an implicit syntax the reader's dictionary has the same tags as sequences.
/// - In an explicit syntax no UN value is a sequence by the reader's dictionary.
pub fn edited_reads_by()
    ensures reads { laws.EditedReadsBy }
    ensures alike { laws.ReadsAlike }
{}

/// The dictionaries of the tools look into the same sequences of an edited data set.
///
/// - The extract does so in an explicit syntax, each dictionary in what that dictionary has read, and the whole
///   dictionary in what the extract has read.
/// - The whole dictionary may look into more: a sequence of known length that the extract does not know, or that is UN
///   in an explicit syntax.
pub fn opens_alike()
    ensures explicit { laws.ExplicitOpensAlike }
    ensures own { laws.OwnOpensAlike }
    ensures standard { laws.StandardOpensAlike }
{}

/// What was erased, set and kept is so for each reader whose dictionary looks into the same sequences.
pub fn edited_for_others()
    ensures erased_all { laws.NoneIsLeftBy }
    ensures erased_private { laws.NoPrivateIsLeftBy }
    ensures modified_all { laws.AllAreModifiedBy }
    ensures others_stay { laws.OthersStayBy }
{}

/// What was erased is gone for each reader from whom the values of the output hide no sequence.
///
/// - The reader reads the output to its end.
/// - A value that is a sequence by the reader's dictionary is empty, and an explicit output has none.
/// - Readers that look into the same sequences are such readers.
pub fn erased_for_all()
    ensures erased_all { laws.NoneIsSeen }
    ensures erased_private { laws.NoPrivateIsSeen }
    ensures alike { laws.AlikeHidesNothing }
{}

/// The same edits of the output write the same bytes again.
///
/// - No edit erases an item by its number.
pub fn edited_twice()
    ensures { laws.EditedTwice }
{}

/// A second run with the same edits reads the output of the first run without fault, and writes the same bytes again.
///
/// - No edit erases an item by its number.
/// - What other laws say of the first run holds of the second run too, where bytes were written.
pub fn edited_again()
    ensures writes { laws.WritesAgain }
    ensures modifies { laws.ModifiesAgain }
{}
