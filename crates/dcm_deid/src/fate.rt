ghost use Rattle.std.specs.Prelude.{◌≡◌, ◌<◌, map, find, option_map, ◌==◌, true};
ghost use Rattle.std.specs.List.{list_any};
ghost use Rattle.std.specs.List.Sorted.{IsStrictlyIncreasing};
ghost use Rattle.dcm_base.specs.Tables.Tag.{tag_number};
ghost use Rattle.dcm_deid.specs.Emptied as emptied;
ghost use Rattle.dcm_deid.specs.Fate as spec;
ghost use Rattle.dcm_deid.specs.Marks as marking;

use crate::kept_numbers::{KEPT_SEQUENCES, KEPT_VALUES};
use crate::said::{DATES, IS_REMOVED, METHOD, METHOD_CODES};
use crate::table::{ACTIONS, Action, MARKS};
use dcm_base::{Dictionary, Tag, Vr, known_vr_in, spread};

/// How many marks there are to a word of them.
const MARKS_OF_A_WORD: usize = 64;

/// How many words of marks there are.
const WORDS: usize = 128;

/// There are two to the power of so many marks. With 8,192 for the 562 numbers of the table one in fifteen of the
/// others has a mark too, and they are 1 KB, which stays in the nearest cache.
const MARK_BITS: u32 = 13;

/// There are two to the power of so many places for the numbers of elements that are always kept. With 2,048, which
/// are 8 KB, four in five of those that images and reports share have their own.
const KEPT_BITS: u32 = 11;

/// How many of these places there are.
const KEPT_PLACES: usize = 2048;

/// PatientID.
pub const PATIENT_ID: Tag = Tag {
    group: 0x0010,
    element: 0x0020,
};

/// The kinds of values for which new values are made.
#[derive(Clone, Copy, Debug, PartialEq, Eq)]
pub enum NewValue {
    /// A UID, which gets a new UID.
    Uid,
    /// A PatientID, which gets a pseudonym.
    Pseudonym,
    /// Dates, which are shifted.
    MovedDate,
    /// Dates with times, which are shifted.
    MovedDateTime,
}

impl NewValue {
    /// Whether the value is one of dates, which are shifted.
    pub fn is_moved(self) -> bool
        ensures { result ≡ emptied.is_moved self }
    {
        matches!(self, NewValue::MovedDate | NewValue::MovedDateTime)
    }
}

/// The action for an element (PS3.15 E.1).
#[derive(Clone, Copy, Debug, PartialEq, Eq)]
pub enum Fate {
    /// The element is removed.
    Remove,
    /// The element is kept with an empty value.
    Empty,
    /// The element is kept with a fixed value.
    Replace,
    /// The element is kept with a new value, made of the old one.
    Anew(NewValue),
    /// The element is kept with its value.
    Keep,
}

/// What is done with dates and times (PS3.15 E.3.6).
#[derive(Clone, Copy, Debug, PartialEq, Eq)]
pub enum Temporal {
    /// Dates and times are removed.
    Removed,
    /// Dates and times are kept.
    Full,
    /// Times are kept, and dates are shifted by this number of days.
    Modified(i32),
}

/// The options of a de-identification (PS3.15 E.3): what is retained, and whether pseudonyms are made.
#[derive(Clone, Copy, Debug, PartialEq, Eq)]
pub struct Options {
    /// Retain UIDs.
    pub uids: bool,
    /// Retain Device Identity.
    pub device: bool,
    /// Retain Institution Identity.
    pub institution: bool,
    /// Retain Patient Characteristics.
    pub patient: bool,
    /// Retain Longitudinal Temporal Information, Full Dates or Modified Dates.
    pub dates: Temporal,
    /// Whether each PatientID becomes a pseudonym.
    pub pseudonyms: bool,
}

/// One of these options.
#[derive(Clone, Copy, Debug, PartialEq, Eq)]
pub enum Retain {
    Uids,
    Device,
    Institution,
    Patient,
    Dates,
}

/// Whether an element is one of the file's own data set, or of one in an item.
#[derive(Clone, Copy, Debug, PartialEq, Eq)]
pub enum Depth {
    Outermost,
    Inside,
}

/// Whether an element was read as bytes, a value or fragments of one, or as a sequence of items.
#[derive(Clone, Copy, Debug, PartialEq, Eq)]
pub enum ReadAs {
    AsBytes,
    AsItems,
}

impl Temporal {
    /// Whether dates are kept.
    pub fn are_full(&self) -> bool
        ensures { result ≡ spec.are_full self.now }
    {
        match self {
            Temporal::Full => true,
            Temporal::Removed | Temporal::Modified(_) => false,
        }
    }

    /// Whether dates are shifted.
    pub fn are_modified(&self) -> bool
        ensures { result ≡ spec.are_modified self.now }
    {
        match self {
            Temporal::Modified(_) => true,
            Temporal::Removed | Temporal::Full => false,
        }
    }

    /// Whether dates are kept or shifted.
    pub fn are_left(&self) -> bool
        ensures { result ≡ spec.are_left self.now }
    {
        self.are_full() || self.are_modified()
    }
}

impl Options {
    /// Whether an option is given.
    fn gives(&self, retain: Retain) -> bool
        ensures { result ≡ spec.is_given self.now retain }
    {
        match retain {
            Retain::Uids => self.uids,
            Retain::Device => self.device,
            Retain::Institution => self.institution,
            Retain::Patient => self.patient,
            Retain::Dates => self.dates.are_left(),
        }
    }

    /// Whether one of them is given.
    fn keeps(&self, retains: &[Retain]) -> bool
        ensures { result ≡ spec.keeps self.now retains.now }
    {
        retains.iter().any(|retain| self.gives(*retain))
    }
}

/// The table.
#[tactic(auto, unfolding(crate::specs::Fate::actions))]
fn actions() -> &'static [Action]
    ensures { map (λ a. (a.0, a.1, a.2.now)) result.now ≡ spec.actions }
{
    &ACTIONS
}

/// The marks of the table.
#[tactic(auto, unfolding(crate::specs::Marks::marks))]
#[inline(always)]
fn marks() -> &'static [u64; WORDS]
    ensures { result.now ≡ marking.marks }
{
    &MARKS
}

/// The place of a number's mark.
#[inline(always)]
fn mark_of(number: u32) -> usize
    ensures value { result ≡ marking.mark_of number }
    ensures small { result < 8192 }
{
    spread(number, MARK_BITS)
}

/// Whether the mark of a number is set.
#[inline(always)]
fn is_marked(marks: &[u64; WORDS], number: u32) -> bool
    ensures { result ≡ marking.is_marked marks.now number }
{
    let mark = mark_of(number);
    (marks[mark / MARKS_OF_A_WORD] >> (mark % MARKS_OF_A_WORD)) & 1 == 1
}

/// Numbers of elements that are always kept where they were read so, nearly all of them at their own places.
#[tactic(auto, unfolding(crate::specs::Marks::always_kept))]
#[inline(always)]
fn always_kept(read: ReadAs) -> &'static [u32; KEPT_PLACES]
    ensures { result.now ≡ marking.always_kept read }
{
    match read {
        ReadAs::AsBytes => &KEPT_VALUES,
        ReadAs::AsItems => &KEPT_SEQUENCES,
    }
}

/// The place of a number among them.
#[inline(always)]
fn kept_place(number: u32) -> usize
    ensures { result < 2048 }
{
    spread(number, KEPT_BITS)
}

/// Whether a number is that of an element that is kept whatever is asked for, where it was read so. It does not find
/// all that are.
#[inline(always)]
fn is_always_kept(read: ReadAs, number: u32) -> bool
    ensures { result ≡ true → spec.IsAlwaysKept read number }
{
    always_kept(read)[kept_place(number)] == number
}

/// The row that has the number, where the numbers ascend.
#[inline(never)]
fn row_of(actions: &[Action], number: u32) -> Option<&Action>
    requires ascending { IsStrictlyIncreasing (map (λ a. a.0) actions.now) }
    ensures { option_map (λ a. a.now) result ≡ find (λ a. a.0 == number) actions.now }
{
    match actions.binary_search_by_key(&number, |action| action.0) {
        Ok(at) => Some(&actions[at]),
        Err(_) => None,
    }
}

/// The row of the table that has the number. Nearly all numbers without a row have no mark, and so need no search.
#[inline(always)]
fn row_in_table(number: u32) -> Option<&'static Action>
    ensures { option_map (λ a. (a.0, a.1, a.2.now)) (option_map (λ a. a.now) result)
        ≡ find (λ a. a.0 == number) spec.actions }
{
    if !is_marked(marks(), number) {
        return None;
    }
    row_of(actions(), number)
}

/// What becomes of an element that the table does not have: dates, times and names of persons are emptied.
fn fate_of_vr(options: &Options, vr: Vr) -> Fate
    ensures { result ≡ spec.fate_of_vr options.now vr }
{
    match vr {
        Vr::DA | Vr::TM | Vr::DT if !options.dates.are_left() => Fate::Empty,
        Vr::PN => Fate::Empty,
        _ => Fate::Keep,
    }
}

/// What becomes by the table of an element that the dictionary has, with this representation.
fn fate_in_table(options: &Options, tag: Tag, vr: Vr) -> Fate
    ensures { result ≡ spec.fate_in_table options.now (find (λ a. a.0 == tag_number tag) spec.actions) vr }
{
    match row_in_table(tag.number()) {
        Some(action) if options.keeps(action.2) => Fate::Keep,
        Some(action) => action.1,
        None => fate_of_vr(options, vr),
    }
}

/// What becomes of an element of this representation that would be kept: a date is moved where dates are.
fn kept_as(moved: bool, vr: Vr) -> Fate
    ensures { result ≡ spec.kept_as moved vr }
{
    match vr {
        Vr::DA if moved => Fate::Anew(NewValue::MovedDate),
        Vr::DT if moved => Fate::Anew(NewValue::MovedDateTime),
        _ => Fate::Keep,
    }
}

/// Whether it stays as it is.
fn is_kept(fate: Fate) -> bool
    ensures { result ≡ spec.is_kept fate }
{
    match fate {
        Fate::Keep => true,
        Fate::Remove | Fate::Empty | Fate::Replace | Fate::Anew(_) => false,
    }
}

/// What becomes of an element that the dictionary has, with this representation.
fn fate_of_known(options: &Options, tag: Tag, vr: Vr) -> Fate
    ensures { result ≡ spec.fate_by_vr options.now tag vr }
{
    if tag == PATIENT_ID && options.pseudonyms {
        return Fate::Anew(NewValue::Pseudonym);
    }
    let fate = fate_in_table(options, tag, vr);
    if is_kept(fate) {
        kept_as(options.dates.are_modified(), vr)
    } else {
        fate
    }
}

/// Whether an element of the file's own data set says what was done. Those are put anew.
fn is_put(options: &Options, tag: Tag) -> bool
    ensures { result ≡ spec.is_put options.now tag }
{
    match tag {
        IS_REMOVED | METHOD | METHOD_CODES => true,
        DATES => !options.dates.are_full(),
        _ => false,
    }
}

/// Whether an element that the dictionary has goes whatever the table says: a length of a group, a sequence that was
/// read as bytes, since nobody looked into it, or what says what was done.
fn is_removed(options: &Options, depth: Depth, read: ReadAs, tag: Tag, vr: Vr) -> bool
    ensures { result ≡ spec.is_removed options.now depth read tag vr }
{
    let is_opaque = match read {
        ReadAs::AsBytes => vr == Vr::SQ,
        ReadAs::AsItems => false,
    };
    let is_put = match depth {
        Depth::Outermost => is_put(options, tag),
        Depth::Inside => false,
    };
    tag.element == 0 || is_opaque || is_put
}

/// What becomes of an element, by the dictionary and the table. What the dictionary of the standard does not have is
/// removed. It is not inlined: most elements are always kept, and their way stays small.
#[inline(never)]
fn looked_up(options: &Options, depth: Depth, read: ReadAs, tag: Tag) -> Fate
    ensures { result ≡ spec.fate_as options.now depth read tag }
{
    match known_vr_in(Dictionary::Standard, tag) {
        Some(vr) if is_removed(options, depth, read, tag, vr) => Fate::Remove,
        Some(vr) => fate_of_known(options, tag, vr),
        None => Fate::Remove,
    }
}

/// The action for an element (PS3.15 table E.1-1), by the options, the depth of the element, and how it was read. An
/// element that is not in the whole dictionary is removed. For an element that is always kept, as most are, one number
/// is looked at, and neither the dictionary nor the table.
#[inline(always)]
pub fn fate_of(options: &Options, depth: Depth, read: ReadAs, tag: Tag) -> Fate
    ensures { result ≡ spec.fate_as options.now depth read tag }
{
    if is_always_kept(read, tag.number()) {
        return Fate::Keep;
    }
    looked_up(options, depth, read, tag)
}
