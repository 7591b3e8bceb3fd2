//! Laws of the definitions. Each function takes nothing and makes no call: its contract is the law.
ghost use Rattle.dcm_run_laws.specs.Laws.{ModifiedReads, ConvertedReads, ErasedAll, ErasedPrivate, ModifiedAll};
ghost use Rattle.dcm_run_laws.specs.Laws.{OthersStay, ReadsAlike, ErasedAllBy, ErasedPrivateBy, ModifiedAllBy};
ghost use Rattle.dcm_run_laws.specs.Laws.{OthersStayBy, ExplicitOpensAlike, OwnOpensAlike, StandardOpensAlike};
ghost use Rattle.dcm_run_laws.specs.Laws.{ErasedAllSeen, ErasedPrivateSeen, AlikeHidesNothing, ModifiedTwice};
ghost use Rattle.dcm_run_laws.specs.Laws.{DeidentifiedReads, OutputIsClean, InstanceAgrees, DeidentifiedTwice};
ghost use Rattle.dcm_run_laws.specs.Laws.{ThereAndBack};
ghost use Rattle.dcm_run_laws.specs.DumpBuilds.{DumpBuilds};
ghost use Rattle.dcm_run_laws.specs.NoEdits.{NoEditsConvert};
ghost use Rattle.dcm_run_laws.specs.FirstLaws.{FirstEndsOnce, FirstEnds, DaysAreOfPatient, PatientHasDays};
ghost use Rattle.dcm_run_laws.specs.FirstLaws.{DaysAreOfOutermost, FirstReadingDecides, FirstReadingStays};
ghost use Rattle.dcm_run_laws.specs.FirstLaws.{OnePatientOneMove, MovesBack, NothingFlowsByKey};
ghost use Rattle.dcm_run_laws.specs.Flows.{NothingFlows};

/// dump2dcm builds from the full dump of a file what dcmconv writes of the file in its own transfer syntax, but for the
/// preamble.
///
/// - The file is read without fault, its values are of whole units, and the tags of each data set ascend.
/// - No line of the dump is longer than the limit.
/// - Then the status of dump2dcm is 0, and the preamble is 128 zeros.
pub fn dump_builds_runs()
    ensures { DumpBuilds }
{}

/// dcmodify without edits writes what `dcmconv +t=` writes.
///
/// - No tag is refused for its order.
pub fn no_edits_convert()
    ensures { NoEditsConvert }
{}

/// The output of dcmodify is a file that is read without fault, with the edited data set.
///
/// - The input has no fault.
/// - The preamble and the transfer syntax are those of the input, and the meta group is new.
/// - No value that is too long for its VR, and so becomes UN, has the tag of a sequence. The other laws of outputs ask
///   for this too.
pub fn modified_reads()
    ensures { ModifiedReads }
{}

/// The output of dcmconv is a file that is read without fault, with the same data set in the target syntax.
///
/// - The input has no fault.
/// - For an implicit target the dictionary has to tell its values from its sequences.
pub fn converted_reads()
    ensures { ConvertedReads }
{}

/// After `-ea` the output has no element of the tag, after `-ep` no private element, and after `-ma` each element has
/// the new value, at any depth.
///
/// - The input has no fault, and the output is read as a file.
pub fn output_is_edited()
    ensures erased_all { ErasedAll }
    ensures erased_private { ErasedPrivate }
    ensures modified_all { ModifiedAll }
{}

/// dcmodify does not change elements that no edit names.
///
/// - The input has no fault.
/// - In an implicit syntax that is read with the whole dictionary no edit may change PixelRepresentation, on which the
///   VRs of others depend.
pub fn output_keeps_others()
    ensures { OthersStay }
{}

/// What dcmodify erased, set and kept is so for readers with another dictionary that looks into the same sequences.
///
/// - In an implicit output the reader's dictionary has the same tags as sequences.
/// - In an explicit output no UN value is a sequence by the reader's dictionary.
pub fn output_for_others()
    ensures alike { ReadsAlike }
    ensures erased_all { ErasedAllBy }
    ensures erased_private { ErasedPrivateBy }
    ensures modified_all { ModifiedAllBy }
    ensures others_stay { OthersStayBy }
{}

/// The dictionaries of the tools look into the same sequences of an output.
///
/// - The extract does so in explicit outputs, and each dictionary in what was edited with that dictionary or with the
///   whole one.
/// - After edits with the extract, a reader with the whole dictionary may look into more: a sequence of known length
///   that the extract does not know, or that is UN in an explicit file.
pub fn output_opens_alike()
    ensures explicit { ExplicitOpensAlike }
    ensures own { OwnOpensAlike }
    ensures standard { StandardOpensAlike }
{}

/// What dcmodify erased is gone for each reader from whom the values of the output hide no sequence.
///
/// - The reader reads the output to its end.
/// - A value that is a sequence by the reader's dictionary is empty, and an explicit output has none.
/// - Readers that look into the same sequences are such readers.
pub fn output_erased_for_all()
    ensures erased_all { ErasedAllSeen }
    ensures erased_private { ErasedPrivateSeen }
    ensures alike { AlikeHidesNothing }
{}

/// dcmodify writes the same bytes again, if it runs on its own output with the same edits.
///
/// - The first input has no fault, and no edit erases an item by its number.
/// - The status of the second run is 0 or 3.
pub fn modified_twice()
    ensures { ModifiedTwice }
{}

/// What dcmdeid removes, empties or replaces by a fixed value has no influence on its output, its error lines and its
/// status.
///
/// - Both files are read without fault, and the same elements of their meta groups are kept.
/// - Old UIDs may differ in padding alone, and so may a PatientID that gets a pseudonym.
/// - Dates that are shifted have the same shifted dates, even by different shifts.
pub fn nothing_flows_in_answers()
    ensures { NothingFlows }
{}

/// The first reading of a file by `+rm key` has exactly one result.
pub fn first_reading_ends()
    ensures once { FirstEndsOnce }
    ensures some { FirstEnds }
{}

/// The first reading of a file by `+rm key` gives the date shift of the file's patient, or the fault R17.
///
/// - The result depends only on the bytes that are read, whatever follows.
/// - R17 stands for a file without a PatientID that names a patient: there is none, or only padding, or the value is
///   too long.
/// - The place of R17 is where a reading up to PatientID stops: at PatientID, else at the head above, else at the end
///   of the file.
pub fn first_reading_decides()
    ensures stays { FirstReadingStays }
    ensures decides { FirstReadingDecides }
{}

/// All files of one patient have the same date shift under one key: 1 to 3,652 days into the past.
///
/// - The patient is the one whom the outermost PatientID names, in a whole value.
/// - The file may have a fault behind PatientID.
pub fn one_patient_one_move()
    ensures of_patient { DaysAreOfPatient }
    ensures of_outermost { DaysAreOfOutermost }
    ensures has_days { PatientHasDays }
    ensures one { OnePatientOneMove }
    ensures back { MovesBack }
{}

/// With `+rm key`, what dcmdeid removes has no influence on its answer, also where two files are of two patients with
/// different date shifts.
///
/// - The conditions are those of `nothing_flows_in_answers`.
pub fn nothing_flows_by_key()
    ensures { NothingFlowsByKey }
{}

/// The output of dcmdeid is a file that is read without fault, with either dictionary.
///
/// - The input has no fault.
/// - The transfer syntax is that of the input, the meta group is new, and the data set is the one without identity.
pub fn deidentified_reads()
    ensures { DeidentifiedReads }
{}

/// Nothing that dcmdeid removed is in its output, at any depth.
///
/// - The input has no fault, and the output is read again with the whole dictionary.
/// - A new value is empty, an identifier, a pseudonym, or existing dates, perhaps with a pad byte.
pub fn output_is_clean()
    ensures { OutputIsClean }
{}

/// If the head and the data set of a file name the same instance, they do so in the output of dcmdeid.
///
/// - UIDs are replaced, or the transfer syntax is not big endian.
/// - Padding does not count.
pub fn instance_agrees()
    ensures { InstanceAgrees }
{}

/// dcmdeid writes the same bytes again, if it runs on its own output with the same options.
///
/// - UIDs are retained, without pseudonyms and shifted dates, and the first input has no fault.
/// - The status of the second run is 0 or 3.
pub fn deidentified_twice()
    ensures { DeidentifiedTwice }
{}

/// Dates that are shifted by `+rm N`, back by `-N`, and by `N` again are those after the first shift.
///
/// - The first input has no fault, UIDs are retained, and no pseudonyms are asked for.
/// - The status of the last run is 0 or 3.
pub fn there_and_back()
    ensures { ThereAndBack }
{}
