//! Laws of the definitions. Each function takes nothing and makes no call: its contract is the law.
ghost use Rattle.dcm_conversion_laws.specs.Laws.{AscendingAgree, ConvertersAgree, DumpsAgree, EditsAgree};
ghost use Rattle.dcm_conversion_laws.specs.Laws.{ExplicitKeeps, FilesCompose, FrontsCompose, ModifiersAgree};
ghost use Rattle.dcm_conversion_laws.specs.Laws.{ReadingsAgree, SetsCompose};

/// Converting a file to one syntax and then to another writes the same as converting it to the second syntax at once.
///
/// - Both targets write the same VRs.
/// - No pad byte becomes a part of a unit whose bytes are swapped.
/// - Both hold if the first target is explicit, and has the byte order of the second, or all values have even lengths.
pub fn recode_composes()
    ensures sets { SetsCompose }
    ensures read { FrontsCompose }
    ensures files { FilesCompose }
    ensures kept { ExplicitKeeps }
{}

/// With `+dict` and without it, the tools give the same output, lines and status for an explicit file.
///
/// - By the whole dictionary no UN value of the file is a sequence, and no sequence is UN.
/// - This holds of faulty files too, and of dcmdump but for keywords.
/// - The edits of dcmodify are of elements that the extract knows.
/// - One line may differ: the extract may see tags that do not ascend where the whole dictionary sees too many levels.
pub fn dictionaries_agree()
    ensures readings { ReadingsAgree }
    ensures ascending { AscendingAgree }
    ensures converters { ConvertersAgree }
    ensures dumps { DumpsAgree }
    ensures edits { EditsAgree }
    ensures modifiers { ModifiersAgree }
{}
