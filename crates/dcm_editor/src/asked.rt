// What an edit asks of an open data set, which lies within so many items.
ghost use Rattle.std.specs.Prelude.{◌≡◌, ◌&&◌, ◌||◌, ◌==◌, ◌<◌, ◌^◌};
ghost use Rattle.std.specs.List.{list_all};
ghost use Rattle.dcm_base.specs.Tables.Tag.{same_tag};
ghost use Rattle.dcm_edits.specs.Edit as spec;
ghost use Rattle.dcm_editor.specs.EditSink.{has_place as has_place_spec, makes as makes_spec};
ghost use Rattle.dcm_editor.specs.Asking as asking;
ghost use Rattle.dcm_editor.specs.Masks as masks;
ghost use Rattle.dcm_edits.specs.NewOnes.{passes_new};
ghost use Rattle.dcm_editor.specs.declared.asked.Question.TheVariants.{Meets};
ghost use Rattle.dcm_edits.specs.Meaning.{index_of, action_of, along, path_edit_of, edit_of};

use dcm_base::Tag;
use dcm_edits::{Action, Edit, Index, NewElement, PathEdit, Step};
use std::alloc::Allocator;

/// What the edits do with an element.
#[derive_where(Clone, Copy)]
pub enum Fate<'e, A: Allocator> {
    Stays,
    Becomes(&'e NewElement<A>),
    Goes,
}

/// A new element that a data set lacks: its value, or the sequence on the way to it.
#[derive_where(Clone, Copy)]
pub enum New<'e, A: Allocator> {
    Leaf(&'e NewElement<A>),
    Sequence(Tag),
}

/// The tags between the last element of a data set and its next one, or its end.
#[derive(Clone, Copy)]
pub struct Gap {
    pub last: Option<Tag>,
    pub next: Option<Tag>,
}

/// A question about an edit at a place of the input.
#[derive(Clone, Copy)]
pub enum Question {
    /// Whether the edit finds its place at the head of this element.
    AtHead(Tag, Option<Tag>),
    /// Whether the edit changes this element, or puts a new element between the last one and this one.
    Meets(Tag, Option<Tag>),
    /// Whether the edit finds its place at the head of this item of a sequence.
    AtItem(Tag, u32),
    /// Whether the edit has its place in the outermost data set, whatever this data set holds.
    AtTop,
    /// Whether the edit finds its place at the end of a data set.
    AtEnd(Option<Tag>),
    /// Whether the edit concerns the data set in this item of a sequence.
    GoesAlong(Tag, u32),
    /// Whether the edit erases this item of a sequence.
    Erases(Tag, u32),
    /// Whether the edit concerns all data sets, at each depth.
    IsEverywhere,
}

/// Whether two tags are one.
#[inline(always)]
fn is_same(tag: Tag, other: Tag) -> bool
    ensures { result ≡ same_tag tag other }
{
    tag.group == other.group && tag.element == other.element
}

fn selects(index: Index, item: u32) -> bool
    ensures { result ≡ spec.selects (index_of index) item }
{
    match index {
        Index::Number(number) => number == item,
        Index::Every => true,
    }
}

impl Gap {
    /// Whether a tag lies in the gap.
    #[inline(always)]
    pub fn holds(self, tag: Tag) -> bool
        ensures { result ≡ asking.in_gap self tag }
    {
        let is_above = match self.last {
            None => true,
            Some(last) => last.is_below(tag),
        };
        let is_under = match self.next {
            None => true,
            Some(next) => tag.is_below(next),
        };
        is_above && is_under
    }
}

impl<A: Allocator> New<'_, A> {
    /// The tag of the new element.
    #[inline(always)]
    pub fn tag(&self) -> Tag
        ensures { result ≡ asking.new_tag self.now }
    {
        match self {
            New::Leaf(element) => element.tag,
            New::Sequence(tag) => *tag,
        }
    }
}

#[inline(always)]
fn becomes_if<A: Allocator>(element: &NewElement<A>, tag: Tag) -> Fate<'_, A>
    ensures { asking.fate_of result ≡ asking.becomes_if element.now tag }
{
    if is_same(element.tag, tag) {
        Fate::Becomes(element)
    } else {
        Fate::Stays
    }
}

#[inline(always)]
fn action_fate<A: Allocator>(action: &Action<A>, tag: Tag) -> Fate<'_, A>
    ensures { asking.fate_of result ≡ spec.path_fate (action_of action.now) tag }
{
    match action {
        Action::Insert(element) => becomes_if(element, tag),
        Action::Modify(element) => becomes_if(element, tag),
        Action::Erase(erased) if is_same(*erased, tag) => Fate::Goes,
        Action::Erase(_) | Action::EraseItem(_) => Fate::Stays,
    }
}

/// The steps of a path that are left after so many.
#[inline(always)]
fn steps_left<A: Allocator>(path: &PathEdit<A>, depth: usize) -> &[Step]
    ensures { masks.rest_of_path depth (path_edit_of path.now) ≡ along result.now (action_of path.now.action) }
{
    let steps = path.steps.as_slice();
    if steps.len() <= depth {
        return &[];
    }
    let (_, left) = steps.split_at(depth);
    left
}

#[inline(always)]
fn path_fate<A: Allocator>(path: &PathEdit<A>, depth: usize, tag: Tag) -> Fate<'_, A>
    ensures { asking.fate_of result ≡ spec.path_fate (masks.rest_of_path depth (path_edit_of path.now)) tag }
{
    match steps_left(path, depth) {
        [] => action_fate(&path.action, tag),
        [_, ..] => Fate::Stays,
    }
}

/// What an edit does with an element of this tag.
#[inline(always)]
pub fn fate_by<A: Allocator>(edit: &Edit<A>, depth: usize, tag: Tag) -> Fate<'_, A>
    ensures { asking.fate_of result ≡ spec.fate (masks.at_depth depth (edit_of edit.now)) tag }
{
    match edit {
        Edit::OnPath(path) => path_fate(path, depth, tag),
        Edit::ModifyAll(element) => becomes_if(element, tag),
        Edit::EraseAll(erased) if is_same(*erased, tag) => Fate::Goes,
        Edit::ErasePrivate if tag.is_private() => Fate::Goes,
        Edit::EraseAll(_) | Edit::ErasePrivate => Fate::Stays,
    }
}

fn action_erases<A: Allocator>(action: &Action<A>, tag: Tag, item: u32) -> bool
    ensures { result ≡ spec.erases (spec.on_path (action_of action.now)) tag item }
{
    match action {
        Action::EraseItem(step) => is_same(step.tag, tag) && selects(step.index, item),
        Action::Insert(_) | Action::Modify(_) | Action::Erase(_) => false,
    }
}

#[inline(always)]
fn path_erases<A: Allocator>(path: &PathEdit<A>, depth: usize, tag: Tag, item: u32) -> bool
    ensures { result ≡ spec.erases (spec.on_path (masks.rest_of_path depth (path_edit_of path.now))) tag item }
{
    match steps_left(path, depth) {
        [] => action_erases(&path.action, tag, item),
        [_, ..] => false,
    }
}

#[inline(always)]
fn erases<A: Allocator>(edit: &Edit<A>, depth: usize, tag: Tag, item: u32) -> bool
    ensures { result ≡ spec.erases (masks.at_depth depth (edit_of edit.now)) tag item }
{
    match edit {
        Edit::OnPath(path) => path_erases(path, depth, tag, item),
        Edit::ModifyAll(_) | Edit::EraseAll(_) | Edit::ErasePrivate => false,
    }
}

/// Whether the next step of a path leads into this item.
#[inline(always)]
fn leads_into<A: Allocator>(path: &PathEdit<A>, depth: usize, tag: Tag, item: u32) -> bool
    ensures { result ≡ masks.goes_along (spec.on_path (masks.rest_of_path depth (path_edit_of path.now))) tag item }
{
    match steps_left(path, depth) {
        [] => false,
        [step, ..] => is_same(step.tag, tag) && selects(step.index, item),
    }
}

#[inline(always)]
fn goes_along<A: Allocator>(edit: &Edit<A>, depth: usize, tag: Tag, item: u32) -> bool
    ensures { result ≡ masks.goes_along (masks.at_depth depth (edit_of edit.now)) tag item }
{
    match edit {
        Edit::OnPath(path) => leads_into(path, depth, tag, item),
        Edit::ModifyAll(_) | Edit::EraseAll(_) | Edit::ErasePrivate => true,
    }
}

fn is_first(index: Index) -> bool
    ensures { result ≡ asking.is_first (index_of index) }
{
    match index {
        Index::Number(number) => number == 0,
        Index::Every => false,
    }
}

/// Whether each step leads into the first item.
fn lead_to_first_items(steps: &[Step]) -> bool
    ensures { result ≡ list_all (λ s. asking.is_first (index_of s.index)) steps.now }
{
    steps.iter().all(|step| is_first(step.index))
}

/// The element that is put where it is missing, if the action puts one.
fn inserted<A: Allocator>(action: &Action<A>) -> Option<&NewElement<A>>
    ensures { asking.seen_value result ≡ asking.seen (spec.new_element (action_of action.now)) }
{
    match action {
        Action::Insert(element) => Some(element),
        Action::Modify(_) | Action::Erase(_) | Action::EraseItem(_) => None,
    }
}

/// The sequence on the way to an element that is put where it is missing: each step on that way leads into the first
/// item.
#[inline(always)]
fn sequence_on(steps: &[Step]) -> Option<Tag>
    ensures { result ≡ asking.sequence_on (steps.now) }
{
    match steps {
        [step, ..] if lead_to_first_items(steps) => Some(step.tag),
        _ => None,
    }
}

#[inline(always)]
fn path_new<A: Allocator>(path: &PathEdit<A>, depth: usize) -> Option<New<'_, A>>
    ensures { asking.seen_of result
        ≡ asking.seen (spec.new_element (masks.rest_of_path depth (path_edit_of path.now))) }
{
    let left = steps_left(path, depth);
    let element = inserted(&path.action)?;
    if left.is_empty() {
        return Some(New::Leaf(element));
    }
    match sequence_on(left) {
        Some(tag) => Some(New::Sequence(tag)),
        None => None,
    }
}

/// The element that an edit puts into a data set that lacks it.
#[inline(always)]
pub fn new_element<A: Allocator>(edit: &Edit<A>, depth: usize) -> Option<New<'_, A>>
    ensures { asking.seen_of result ≡ asking.seen (spec.element_of (masks.at_depth depth (edit_of edit.now))) }
{
    match edit {
        Edit::OnPath(path) => path_new(path, depth),
        Edit::ModifyAll(_) | Edit::EraseAll(_) | Edit::ErasePrivate => None,
    }
}

/// Whether an edit puts a value into a data set, so that it has its place there.
#[inline(always)]
pub fn has_place<A: Allocator>(edit: &Edit<A>, depth: usize) -> bool
    ensures { result ≡ has_place_spec (spec.element_of (masks.at_depth depth (edit_of edit.now))) }
{
    matches!(new_element(edit, depth), Some(New::Leaf(_)))
}

/// Whether a value has its place in this item, as in each data set that is selected.
#[inline(always)]
fn has_place_in<A: Allocator>(edit: &Edit<A>, depth: usize, tag: Tag, item: u32) -> bool
    requires { depth < 2 ^ 32 }
    ensures { result ≡ has_place_spec
        (spec.element_of (spec.within (masks.at_depth depth (edit_of edit.now)) tag item)) }
{
    goes_along(edit, depth, tag, item) && has_place(edit, depth + 1)
}

/// A sequence on the way has its place where it is put.
#[inline(always)]
fn makes<A: Allocator>(edit: &Edit<A>, depth: usize, gap: Gap) -> bool
    ensures { result ≡ makes_spec (asking.in_gap gap) (spec.element_of (masks.at_depth depth (edit_of edit.now))) }
{
    match new_element(edit, depth) {
        Some(New::Sequence(tag)) => gap.holds(tag),
        Some(New::Leaf(_)) | None => false,
    }
}

/// Whether it puts an element in a gap.
#[inline(always)]
fn fills<A: Allocator>(edit: &Edit<A>, depth: usize, gap: Gap) -> bool
    ensures { result ≡ passes_new (asking.in_gap gap) (spec.element_of (masks.at_depth depth (edit_of edit.now))) }
{
    match new_element(edit, depth) {
        Some(new) => gap.holds(new.tag()),
        None => false,
    }
}

/// Whether an element with this tag does not stay as it is.
#[inline(always)]
fn acts<A: Allocator>(edit: &Edit<A>, depth: usize, tag: Tag) -> bool
    ensures { result ≡ spec.acts (spec.fate (masks.at_depth depth (edit_of edit.now)) tag) }
{
    !matches!(fate_by(edit, depth, tag), Fate::Stays)
}

/// Whether it changes an element with this tag, or puts another one between the last one and it.
#[inline(always)]
pub fn meets<A: Allocator>(edit: &Edit<A>, depth: usize, tag: Tag, last: Option<Tag>) -> bool
    ensures { result ≡ asking.answer_of (Meets tag last) (masks.at_depth depth (edit_of edit.now)) }
{
    let next = Some(tag);
    acts(edit, depth, tag) || (is_on_path(edit) && fills(edit, depth, Gap { last, next }))
}

#[inline(always)]
fn is_on_path<A: Allocator>(edit: &Edit<A>) -> bool
    ensures { result ≡ asking.is_on_path (edit_of edit.now) }
{
    match edit {
        Edit::OnPath(_) => true,
        Edit::ModifyAll(_) | Edit::EraseAll(_) | Edit::ErasePrivate => false,
    }
}

/// Whether it is asked in each data set, as one is that is on no path.
fn is_everywhere<A: Allocator>(edit: &Edit<A>) -> bool
    ensures { result ≡ asking.is_everywhere (edit_of edit.now) }
{
    match edit {
        Edit::OnPath(_) => false,
        Edit::ErasePrivate | Edit::EraseAll(_) | Edit::ModifyAll(_) => true,
    }
}

/// The answer of an edit to a question about a data set within so many items.
#[inline(always)]
pub fn answers<A: Allocator>(edit: &Edit<A>, depth: usize, question: Question) -> bool
    requires { depth < 2 ^ 32 }
    ensures { result ≡ asking.answer_of question (masks.at_depth depth (edit_of edit.now)) }
{
    match question {
        Question::AtHead(tag, last) => {
            let next = Some(tag);
            acts(edit, depth, tag) || makes(edit, depth, Gap { last, next })
        }
        Question::Meets(tag, last) => meets(edit, depth, tag, last),
        Question::AtItem(tag, item) => {
            erases(edit, depth, tag, item) || has_place_in(edit, depth, tag, item)
        }
        Question::AtTop => has_place(edit, depth),
        Question::AtEnd(last) => makes(edit, depth, Gap { last, next: None }),
        Question::GoesAlong(tag, item) => goes_along(edit, depth, tag, item),
        Question::Erases(tag, item) => erases(edit, depth, tag, item),
        Question::IsEverywhere => is_everywhere(edit),
    }
}
