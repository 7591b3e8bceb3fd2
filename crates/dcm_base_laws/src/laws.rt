//! Laws of the definitions of dcm_base. Each function takes nothing and makes no call: its contract is the law.
ghost use Rattle.dcm_base_laws.specs.Laws.{LeafLinesMean, FragmentLinesMean, SequenceLinesMean};
ghost use Rattle.dcm_base_laws.specs.Laws.{FragmentListLinesMean, ExplicitFits, ImplicitFits};
ghost use Rattle.std.specs.Prelude.{◌≡◌, ◌≢◌, ℕ, List, Some, true};
ghost use Rattle.std.specs.List.{AllPairs};
ghost use Rattle.dcm_base.specs.Tables.Dictionary.{Element, elements_in, numbered, called};
ghost use Rattle.dcm_base.specs.declared.dictionary.Dictionary.{Dictionary};
ghost use Rattle.dcm_base.specs.declared.dictionary.Dictionary.TheVariants.{Extract};
ghost use Rattle.dcm_base.specs.declared.vr.Vr.{Vr};
ghost use Rattle.dcm_base.specs.Steps.Atoms.{Atom, Shows};
ghost use Rattle.dcm_base.specs.Tree.Front.{Front};
ghost use Rattle.dcm_base.specs.Lines.Build.{rebuilt};
ghost use Rattle.dcm_base.specs.Conversion.Recode.{is_explicit, recode_set};
ghost use Rattle.dcm_base.specs.Tables.Syntax.{dictionary_of};
ghost use Rattle.dcm_base.specs.Conversion.Normal.{FrontFits};
ghost use Rattle.dcm_base.specs.Tree.Tree.{Trees};
ghost use Rattle.dcm_base.specs.Tables.Number.{HasLength};
ghost use Rattle.dcm_base.specs.Dump.Dump.{item_line, item_end_line, sequence_end_line};
ghost use Rattle.dcm_base.specs.Lines.Line.{LineMeans, one, begin_item, end_item, end_sequence};
ghost use Rattle.dcm_base.specs.declared.length.Length.{Length};
ghost use Rattle.dcm_base.specs.declared.syntax.Syntax.{Syntax};

/// The same atoms show only one data set, as far as the data set was read.
pub fn one_shown()
    ensures { (f g : Front) (atoms : List Atom) → Shows f atoms → Shows g atoms → f ≡ g }
{}

/// Each line of a full dump means what the line shows: an element, an item, a fragment, or an end.
pub fn line_reads_back()
    ensures leaf { LeafLinesMean }
    ensures fragment { FragmentLinesMean }
    ensures sequence { SequenceLinesMean }
    ensures fragments { FragmentListLinesMean }
    ensures item { (d : Dictionary) (level : ℕ) (size : Length) → HasLength size
        → LineMeans (item_line d level size) (one begin_item) }
    ensures item_end { (d : Dictionary) (level : ℕ) (size : Length)
        → LineMeans (item_end_line d level size) (one end_item) }
    ensures sequence_end { (d : Dictionary) (level : ℕ) (size : Length)
        → LineMeans (sequence_end_line d level size) (one end_sequence) }
{}

/// What a full dump does not show of a data set, known lengths and pad bytes, makes no difference to the bytes that are
/// written.
pub fn rebuilt_recodes()
    ensures { (s : Syntax) (set : Trees) → recode_set s (rebuilt set) ≡ recode_set s set }
{}

/// A data set can be written in the target syntax so that its values and its sequences stay apart.
///
/// - The target is explicit and is read with the extract; or
/// - the data set was read with the dictionary of an explicit target, and no value is too long for its VR; or
/// - the data set was read from an implicit syntax, with the dictionary of the target.
pub fn target_fits()
    ensures extract { (target : Syntax) (f : Front) → is_explicit target ≡ true → dictionary_of target ≡ Extract
        → FrontFits target f }
    ensures explicit { ExplicitFits }
    ensures implicit { ImplicitFits }
{}

/// No two elements of a dictionary have the same keyword.
pub fn keywords_differ()
    ensures { (d : Dictionary) → AllPairs (λ (x y : Element). x.2 ≢ y.2) (elements_in d) }
{}

/// The keyword of an element leads back to the tag of the element.
pub fn called_back()
    ensures { (d : Dictionary) (n : ℕ) (e : Vr × List ℕ) → numbered (elements_in d) n ≡ Some e
        → called (elements_in d) e.1 ≡ Some n }
{}
