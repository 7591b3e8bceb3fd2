// Edits that overlap.
ghost use Rattle.std.specs.Prelude.{◌≡◌, ◌||◌, [], map};
ghost use Rattle.dcm_edits.specs.Meaning as meaning;
ghost use Rattle.dcm_edits.specs.Overlap as spec;

use crate::edit::{Action, Edit, Index, PathEdit, Step};
use dcm_base::Tag;
use std::alloc::Allocator;

fn is_every(index: Index) -> bool
    ensures { result ≡ spec.is_every (meaning.index_of index) }
{
    match index {
        Index::Number(_) => false,
        Index::Every => true,
    }
}

fn same_index(left: Index, right: Index) -> bool
    ensures { result ≡ spec.same_index (meaning.index_of left) (meaning.index_of right) }
{
    left == right
}

/// Whether different indexes before the end of their paths may select the same item.
fn one_is_every(left: Index, right: Index) -> bool
    ensures { result ≡ (spec.is_every (meaning.index_of left) || spec.is_every (meaning.index_of right)) }
{
    is_every(left) || is_every(right)
}

/// The tag at the end of a path.
fn action_tag<A: Allocator>(action: &Action<A>) -> Tag
    ensures { result ≡ meaning.first_tag (meaning.action_of action.now) }
{
    match action {
        Action::Insert(element) | Action::Modify(element) => element.tag,
        Action::Erase(tag) => *tag,
        Action::EraseItem(step) => step.tag,
    }
}

/// The first tag of the rest of a path.
fn next_tag<A: Allocator>(steps: &[Step], action: &Action<A>) -> Tag
    ensures { result ≡ meaning.first_tag (meaning.along steps.now (meaning.action_of action.now)) }
{
    match steps {
        [step, ..] => step.tag,
        [] => action_tag(action),
    }
}

/// Whether one path begins the other, or both part at indexes of which one is a star or ends its path.
fn meets<A: Allocator>(left: &PathEdit<A>, right: &PathEdit<A>) -> bool
    ensures { result ≡ spec.meets (spec.path (meaning.path_edit_of left.now))
        (spec.path (meaning.path_edit_of right.now)) }
{
    let mut left_steps = left.steps.as_slice();
    let mut right_steps = right.steps.as_slice();
    while let [x, left_rest @ ..] = left_steps {
        let [y, right_rest @ ..] = right_steps else {
            return x.tag == action_tag(&right.action);
        };
        if x.tag != y.tag {
            return false;
        }
        if !same_index(x.index, y.index) {
            return one_is_every(x.index, y.index);
        }
        left_steps = left_rest;
        right_steps = right_rest;
    }
    action_tag(&left.action) == next_tag(right_steps, &right.action)
}

/// Whether a path names the tag.
fn is_on<A: Allocator>(tag: Tag, path: &PathEdit<A>) -> bool
    ensures { result ≡ spec.is_on tag (spec.path (meaning.path_edit_of path.now)) }
{
    let mut steps = path.steps.as_slice();
    while let [step, rest @ ..] = steps {
        if tag == step.tag {
            return true;
        }
        steps = rest;
    }
    tag == action_tag(&path.action)
}

fn is_named<A: Allocator>(tag: Tag, edit: &Edit<A>) -> bool
    ensures { result ≡ spec.is_named tag (meaning.edit_of edit.now) }
{
    match edit {
        Edit::OnPath(path) => is_on(tag, path),
        Edit::ModifyAll(element) => tag == element.tag,
        Edit::EraseAll(erased) => tag == *erased,
        Edit::ErasePrivate => false,
    }
}

fn overlaps<A: Allocator>(earlier: &Edit<A>, later: &Edit<A>) -> bool
    ensures { result ≡ spec.overlaps (meaning.edit_of earlier.now) (meaning.edit_of later.now) }
{
    match (earlier, later) {
        (Edit::OnPath(left), Edit::OnPath(right)) => meets(left, right),
        (Edit::OnPath(path), Edit::ModifyAll(element)) => is_on(element.tag, path),
        (Edit::OnPath(path), Edit::EraseAll(tag)) => is_on(*tag, path),
        (Edit::OnPath(_), Edit::ErasePrivate) => false,
        (Edit::ModifyAll(element), _) => is_named(element.tag, later),
        (Edit::EraseAll(tag), _) => is_named(*tag, later),
        (Edit::ErasePrivate, _) => false,
    }
}

fn overlaps_one<A: Allocator>(mut earlier: &[Edit<A>], later: &Edit<A>) -> bool
    ensures { result ≡ spec.overlaps_one (map meaning.edit_of earlier.entry.now) (meaning.edit_of later.now) }
{
    while let [edit, rest @ ..] = earlier {
        if overlaps(edit, later) {
            return true;
        }
        earlier = rest;
    }
    false
}

/// The number of the first edit, from 1, that overlaps an earlier one.
pub fn first_overlap<A: Allocator>(edits: &[Edit<A>]) -> Option<usize>
    ensures { result ≡ spec.first_overlap 1 [] (map meaning.edit_of edits.now) }
{
    for i in 0..edits.len() {
        let (earlier, _) = edits.split_at(i);
        if overlaps_one(earlier, &edits[i]) {
            return Some(i + 1);
        }
    }
    None
}
