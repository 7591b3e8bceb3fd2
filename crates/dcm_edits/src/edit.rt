// The edits that the words of a command line ask for.
ghost use Rattle.std.specs.Prelude.{◌≤◌, length};
ghost use Rattle.dcm_base.specs.Lines.ReadValue.{VALUE_LIMIT};

use dcm_base::{Tag, Vr};
use std::alloc::{Allocator, Global};

/// Which items of a sequence a step leads into: one by its number, from 0, or every one.
#[derive(Clone, Copy, Debug, PartialEq, Eq)]
pub enum Index {
    Number(u32),
    Every,
}

/// A step of a path, from a data set into items of its sequence with this tag.
#[derive(Clone, Copy, Debug, PartialEq, Eq)]
pub struct Step {
    pub tag: Tag,
    pub index: Index,
}

/// An element that an edit puts. Its value is in little endian order and has no pad byte.
#[derive(Debug, Drop)]
pub struct NewElement<A: Allocator = Global> {
    pub tag: Tag,
    pub vr: Vr,
    pub value: Vec<u8, A>,
    ghost short: { length value.items ≤ VALUE_LIMIT },
}

/// What an edit does at the end of its path.
#[derive(Debug, Drop)]
pub enum Action<A: Allocator = Global> {
    /// Replaces the element, or puts it where it is missing.
    Insert(NewElement<A>),
    /// Replaces the element where it is there.
    Modify(NewElement<A>),
    Erase(Tag),
    /// Erases items of a sequence.
    EraseItem(Step),
}

/// An edit of the elements and items to which a path leads.
#[derive(Debug, Drop)]
pub struct PathEdit<A: Allocator = Global> {
    pub steps: Vec<Step, A>,
    pub action: Action<A>,
}

/// One edit.
#[derive(Debug, Drop)]
pub enum Edit<A: Allocator = Global> {
    OnPath(PathEdit<A>),
    /// Replaces each element of the tag, at all depths.
    ModifyAll(NewElement<A>),
    /// Erases each element of the tag, at all depths.
    EraseAll(Tag),
    /// Erases each element of an odd group, at all depths.
    ErasePrivate,
}
