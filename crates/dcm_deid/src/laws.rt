//! Laws of the definitions. Each function takes nothing and makes no call: its contract is the law.
ghost use Rattle.std.specs.Prelude.{◌≡◌, ◌≢◌, ℕ, ℤ, List, true, false, Option, map};
ghost use Rattle.std.specs.List.Sorted.{IsStrictlyIncreasing};
ghost use Rattle.dcm_deid.specs.Fate.{Action, actions};
ghost use Rattle.dcm_base.specs.declared.tag.Tag.{Tag};
ghost use Rattle.dcm_base.specs.declared.syntax.Syntax.{Syntax};
ghost use Rattle.dcm_base.specs.Conversion.Recode.{recode};
ghost use Rattle.dcm_base.specs.Tree.Tree.{Trees};
ghost use Rattle.dcm_deid.specs.declared.fate.Options.{Options};
ghost use Rattle.dcm_deid.specs.declared.fate.Depth.{Depth};
ghost use Rattle.dcm_deid.specs.declared.fate.Depth.TheVariants.{Outermost};
ghost use Rattle.dcm_deid.specs.declared.fate.ReadAs.{ReadAs};
ghost use Rattle.dcm_deid.specs.declared.fate.ReadAs.TheVariants.{AsBytes};
ghost use Rattle.dcm_deid.specs.Fate.{are_full, fate_as, is_known};
ghost use Rattle.dcm_deid.specs.Deidentify.{Renaming, deidentified_set};
ghost use Rattle.dcm_deid.specs.MadeNew.{left_of, made_new};
ghost use Rattle.dcm_deid.specs.MadeForms.{HasForm, IsDateVr};
ghost use Rattle.dcm_deid.specs.declared.fate.NewValue.{NewValue};
ghost use Rattle.dcm_deid.specs.Alike.{Alike, moving};
ghost use Rattle.dcm_deid.specs.Saying.{deidentified, read_whole, unsaid, whole_of};
ghost use Rattle.dcm_base.specs.Tables.Dictionary.{vr_in};
ghost use Rattle.dcm_base.specs.Tables.Representation.{is_sequence};
ghost use Rattle.dcm_base.specs.declared.dictionary.Dictionary.TheVariants.{Standard};
ghost use Rattle.dcm_deid.specs.declared.fate.Fate.TheVariants.{Keep, Remove};
ghost use Rattle.dcm_deid.specs.Laws.{BarSteps, DateSteps, DeidentifySteps, NobodySteps, PixelSteps};
ghost use Rattle.dcm_deid.specs.Pairs.{Pairs};
ghost use Rattle.dcm_deid.specs.Remains.{AreMadeAnew, IsClean, kept_of};
ghost use Rattle.dcm_deid.specs.Research.{OthersBecomeTheSame, PatientsGetPseudonyms};
ghost use Rattle.dcm_deid.specs.Research.{WhatSaidOfDatesGoes, WhatStaysIsMoved};
ghost use Rattle.dcm_deid.specs.Uids.{HeadsBy, NewByKey, SetsBy, UidsAgree};

/// The table of actions is sorted by tag, and has no tag twice.
pub fn actions_ascend()
    ensures { IsStrictlyIncreasing (map (λ (a : Action). a.0) actions) }
{}

/// What dcmdeid removes, empties or replaces by a fixed value has no influence on the data set that remains.
///
/// - Old dates show only through the shifted dates, and a PatientID only through its pseudonym.
/// - The two data sets that are compared may have different date shifts.
pub fn nothing_flows()
    ensures { (options : Options) (key : List ℕ) (depth : Depth) (d e : ℤ) (f g : Trees) → Alike options depth d e f g
        → deidentified_set (moving options d) (made_new (moving options d) key) depth f
        ≡ deidentified_set (moving options e) (made_new (moving options e) key) depth g }
{}

/// What dcmdeid removes is gone at every depth, and each new value has the form of a new value.
///
/// - A new value is empty, an identifier, a pseudonym, or existing dates, perhaps with a pad byte.
pub fn taken_is_gone()
    ensures clean { (options : Options) (new : Renaming) (depth : Depth) (f : Trees)
        → IsClean (fate_as options) new depth (deidentified_set options new depth f) }
    ensures made { (options : Options) (key : List ℕ) (depth : Depth) (f : Trees)
        → AreMadeAnew options key depth (deidentified_set options (made_new options key) depth f) }
{}

/// An element that dcmdeid keeps is unchanged, at every depth.
///
/// - The element is no sequence that was read as bytes.
pub fn others_are_kept()
    ensures { (options : Options) (new : Renaming) (depth : Depth) (f : Trees)
        → kept_of options depth (deidentified_set options new depth f) ≡ kept_of options depth f }
{}

/// dcmdeid adds nothing to a data set but the elements that record the de-identification.
pub fn only_said_is_put()
    ensures { (options : Options) (new : Renaming) (reached : Option Tag) (f : Trees)
        → unsaid (whole_of (deidentified options new (read_whole reached f)))
        ≡ unsaid (deidentified_set options new Outermost f) }
{}

/// What dcmdeid removes, empties or replaces by a fixed value has no influence on the bytes that are written.
///
/// - The data sets are read without fault.
pub fn nothing_flows_out()
    ensures { (options : Options) (key : List ℕ) (target : Syntax) (reached other : Option Tag) (d e : ℤ) (f g : Trees)
        → Alike options Outermost d e f g
        → recode target (deidentified (moving options d) (made_new (moving options d) key) (read_whole reached f))
        ≡ recode target (deidentified (moving options e) (made_new (moving options e) key) (read_whole other g)) }
{}

/// Two data sets differ only in what is removed, where their elements pair off apart from what is removed of them.
pub fn pairs_are_alike()
    ensures { (options : Options) (depth : Depth) (d e : ℤ) (f g : Trees)
        → Pairs (left_of (moving options d)) (left_of (moving options e)) (fate_as (moving options d)) depth f g
        → Alike options depth d e f g }
{}

/// The sink of dcmdeid refuses exactly the tags that do not ascend, and the elements from which identity cannot be
/// removed.
pub fn bar_steps()
    ensures { BarSteps }
{}

/// The sink of dcmdeid passes on the data set without identity, also where reading stops at a fault.
pub fn deidentify_steps()
    ensures { DeidentifySteps }
{}

/// After a data set without fault, the sink of dcmdeid knows whether the pixels may show identity, by what was passed
/// on.
pub fn pixel_steps()
    ensures { PixelSteps }
{}

/// The number of emptied dates that dcmdeid tells is the number of values that are to be shifted, hold more than
/// padding, and are empty in the output.
///
/// - This holds of data sets that are cut off too.
pub fn dates_are_counted()
    ensures { DateSteps }
{}

/// After a data set, whole or as far as it was read, dcmdeid knows whether its PatientID names nobody.
///
/// - A PatientID names nobody where its value is padding alone or too long, and where no value can come.
/// - No value can come after an element in its place that is no value, after an element that belongs behind it, and
///   after the end of the data set.
pub fn nobody_is_known()
    ensures { NobodySteps }
{}

/// Each element that remains has a tag of the dictionary, and a value that was read as bytes is no sequence by the
/// dictionary.
pub fn what_stays_is_known()
    ensures known { (options : Options) (depth : Depth) (read : ReadAs) (tag : Tag)
        → fate_as options depth read tag ≢ Remove → is_known tag ≡ true }
    ensures looked_into { (options : Options) (depth : Depth) (tag : Tag) → fate_as options depth AsBytes tag ≢ Remove
        → is_sequence (vr_in Standard tag) ≡ false }
{}

/// Each new value has its form: empty, an identifier, a pseudonym, or existing dates.
pub fn made_values_have_form()
    ensures { (options : Options) (key : List ℕ) (made : NewValue) (b : List ℕ) → HasForm made
        (made_new options key made b) }
{}

/// No date element keeps its value, at any depth.
///
/// - Full dates are not asked for (`+rl`).
pub fn no_date_stays()
    ensures { (options : Options) (depth : Depth) (read : ReadAs) (tag : Tag) → are_full options.dates ≡ false
        → IsDateVr (vr_in Standard tag) → fate_as options depth read tag ≢ Keep }
{}

/// With `+pi` each PatientID becomes a pseudonym, and with `+rm` each date that `+rl` would keep is shifted, at every
/// depth.
///
/// - Every other element has the action that it has with `+rl`.
/// - The element that records what became of dates is replaced.
pub fn fates_of_research()
    ensures pseudonyms { PatientsGetPseudonyms }
    ensures moved { WhatStaysIsMoved }
    ensures others { OthersBecomeTheSame }
    ensures said { WhatSaidOfDatesGoes }
{}

/// A new UID depends only on the key and the old UID, so references between files stay right.
///
/// - Padding of the old UID does not count.
/// - If the head and the data set of a file named the same instance, they do so in the output.
pub fn uids_agree()
    ensures by_key { NewByKey }
    ensures in_head { HeadsBy }
    ensures in_set { SetsBy }
    ensures agree { UidsAgree }
{}
