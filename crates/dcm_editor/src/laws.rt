//! Laws of the definitions. Each function takes nothing and makes no call: its contract is the law.
ghost use Rattle.std.specs.Prelude.{◌≡◌, ◌≤◌, ℕ, List, length, Ok};
ghost use Rattle.dcm_base.specs.Lines.Ascending.{FrontAscends};
ghost use Rattle.dcm_base.specs.Tree.Front.{Front};
ghost use Rattle.dcm_base.specs.Conversion.Recode.{recode};
ghost use Rattle.dcm_base.specs.declared.dictionary.Dictionary.{Dictionary};
ghost use Rattle.dcm_base.specs.declared.syntax.Syntax.{Syntax};
ghost use Rattle.dcm_edits.specs.Edit.{Edit, edited};
ghost use Rattle.dcm_base.specs.Steps.Anew.{reached_anew};
ghost use Rattle.dcm_edits.specs.EditWords.{meant_edits_in};
ghost use Rattle.dcm_editor.specs.Laws as laws;
ghost use Rattle.dcm_edits.specs.Overlap.{AreApart, ArePublic};
ghost use Rattle.dcm_edits.specs.Together.{together};

/// Edits that are done in one pass leave the data set that they leave one after another.
///
/// - The edits do not overlap, and name no private tag.
/// - The tags of each data set ascend.
pub fn one_by_one()
    ensures { (edits : List Edit) (f : Front) → AreApart edits → ArePublic edits → FrontAscends f
        → together edits f ≡ edited edits f }
{}

/// The edits that a command line means do not overlap, and name no private tag.
pub fn edits_are_apart()
    ensures { (d : Dictionary) (words : List (List ℕ)) (edits : List Edit) → meant_edits_in d words ≡ Ok edits
        → AreApart edits × ArePublic edits }
{}

/// The sink of dcmodify passes on the edited data set, and knows which edits found their place, also where reading
/// stops at a fault.
///
/// - The tags of each data set ascend.
/// - No more than 64 sequences and fragment lists are open at a time.
pub fn edit_steps()
    ensures { laws.StepsEdit }
{}

/// The sink of dcmodify refuses a head exactly where its tag is not above the tag before it in its data set.
pub fn bar_steps()
    ensures { laws.StepsBar }
{}

/// In the data sets that dcmodify reads, the tags ascend, also where reading has not ended.
pub fn reads_ascend()
    ensures whole { laws.ReadAscends }
    ensures so_far { laws.ReadSoFarAscends }
{}

/// What is written of a data set does not depend on where the reading of the data set stopped behind its last element.
pub fn recode_anew()
    ensures { (target : Syntax) (f : Front) → recode target (reached_anew f) ≡ recode target f }
{}

/// A command line means at most 64 edits.
pub fn edits_are_few()
    ensures { (d : Dictionary) (words : List (List ℕ)) (edits : List Edit) → meant_edits_in d words ≡ Ok edits
        → length edits ≤ 64 }
{}

/// New elements of edits are no sequences, their indexes have at most nine digits, and their paths have at most 64
/// steps.
///
/// - The edits are those that a command line means.
pub fn edits_fit()
    ensures { laws.EditsFit }
{}

/// dcmodify writes the edited data set of the bytes that it reads, and knows which edits found their place, also where
/// reading stops at a fault.
pub fn edit_reads()
    ensures whole { laws.EditsWhole }
    ensures so_far { laws.EditsSoFar }
{}
