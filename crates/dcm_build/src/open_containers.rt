// What is open of a data set that is built.
ghost use Rattle.std.specs.Prelude.{◌≡◌, ◌<◌, [], ◌∷◌, None, reverse, true};
ghost use Rattle.dcm_base.specs.declared.level.Container.TheVariants.{Sequence as a_sequence};
ghost use Rattle.dcm_base.specs.Lines.Build.{has_place_in, is_opening};
ghost use Rattle.dcm_build.specs.LineShown.{step_of};
ghost use Rattle.dcm_build.specs.Nesting.{is_list};
ghost use Rattle.dcm_build.specs.OpenContainers as spec;

use crate::line::Step;
use arrayvec::ArrayVec;
use dcm_base::{Container, MOST_LISTS, MOST_OPEN, Tag};
use std::marker::Model;

/// What is open: a sequence, a fragment list, or an item with the tag of its last element.
#[derive(Clone, Copy, Debug, Default, PartialEq, Eq)]
pub enum Open {
    #[default]
    Sequence,
    FragmentList,
    Item(Option<Tag>),
}

/// The tag of the last element of the top data set, and what is open in it: at most 64 sequences and fragment lists,
/// and items of sequences.
#[derive(Drop)]
pub struct OpenContainers {
    top_reached: Option<Tag>,
    outermost_first: ArrayVec<Open, MOST_OPEN>,
}

impl Model for OpenContainers {
    ghost use Rattle.std.specs.Prelude.{reverse};
    ghost use Rattle.dcm_build.specs.Nesting.{Nests};
    ghost use Rattle.dcm_build.specs.OpenContainers as spec;

    ghost Value = { spec.OpenContainers };

    ghost view = { λ s. record { reached = s.top_reached; containers = reverse s.outermost_first.items } };

    ghost invariant = { λ s. Nests (reverse s.outermost_first.items) };
}

/// The tag of the last element of the innermost data set around these containers, the outermost first: that of the
/// innermost item, or of the top data set.
fn reached_among(top: Option<Tag>, outermost_first: &[Open]) -> Option<Tag>
    ensures { result ≡ spec.reached_in top (reverse outermost_first.now) }
{
    let mut rest = outermost_first;
    while let [outer @ .., innermost] = rest {
        match innermost {
            Open::Item(reached) => return *reached,
            Open::Sequence | Open::FragmentList => rest = outer,
        }
    }
    top
}

fn counts(container: Open) -> usize
    ensures { result ≡ spec.lists_open (container ∷ []) }
{
    match container {
        Open::Sequence | Open::FragmentList => 1,
        Open::Item(_) => 0,
    }
}

/// How many sequences and fragment lists there are.
fn lists_among(outermost_first: &[Open]) -> usize
    ensures { result ≡ spec.lists_open (reverse outermost_first.now) }
{
    let mut count = 0;
    for container in outermost_first {
        count += counts(*container);
    }
    count
}

impl OpenContainers {
    /// Nothing is open, and no element has come.
    pub fn new() -> Self
        ensures { result ≡ spec.at_top }
    {
        OpenContainers {
            top_reached: None,
            outermost_first: ArrayVec::new(),
        }
    }

    /// The innermost open container.
    pub fn container(&self) -> Container
        ensures { result ≡ spec.container_of self.now.containers }
    {
        match self.outermost_first.as_slice().last() {
            None => Container::DataSet,
            Some(Open::Sequence) => Container::Sequence,
            Some(Open::FragmentList) => Container::FragmentList,
            Some(Open::Item(_)) => Container::Item,
        }
    }

    /// The tag of the last element of the innermost data set.
    pub fn reached(&self) -> Option<Tag>
        ensures { result ≡ spec.reached_in self.now.reached self.now.containers }
    {
        reached_among(self.top_reached, self.outermost_first.as_slice())
    }

    /// How many sequences and fragment lists are open.
    pub fn lists(&self) -> usize
        ensures { result ≡ spec.lists_open self.now.containers }
    {
        lists_among(self.outermost_first.as_slice())
    }

    /// An element of the innermost data set came.
    pub fn reach(&mut self, tag: Tag)
        ensures { self.new ≡ spec.reaching tag self.old }
    {
        match self.outermost_first.as_slice().last() {
            Some(Open::Item(_)) => {
                self.outermost_first.pop();
                self.outermost_first.push(Open::Item(Some(tag)));
            }
            _ => self.top_reached = Some(tag),
        }
    }

    /// A sequence or fragment list is opened.
    pub fn enter_list(&mut self, list: Open)
        requires list { is_list list ≡ true }
        requires few { spec.lists_open self.old.containers < MOST_LISTS }
        ensures { self.new ≡ spec.entering list self.old }
    {
        self.outermost_first.push(list);
    }

    /// An item of the open sequence is opened.
    pub fn enter_item(&mut self)
        requires { spec.container_of self.old.containers ≡ a_sequence }
        ensures { self.new ≡ spec.entering (Open.Item None) self.old }
    {
        self.outermost_first.push(Open::Item(None));
    }

    /// Goes into what a step opens, or out of what it ends.
    pub fn take(&mut self, step: Step<'_>)
        requires placed { has_place_in (spec.container_of self.old.containers) (step_of step) ≡ true }
        requires few { is_opening (step_of step) ≡ true → spec.lists_open self.old.containers < MOST_LISTS }
        ensures { self.new ≡ spec.standing_with (step_of step.entry) self.old }
    {
        match step {
            Step::Leaf(tag, _, _) => self.reach(tag),
            Step::Sequence(tag, _) => {
                self.reach(tag);
                self.enter_list(Open::Sequence);
            }
            Step::FragmentList(tag, _) => {
                self.reach(tag);
                self.enter_list(Open::FragmentList);
            }
            Step::Item => self.enter_item(),
            Step::Fragment(_) => {}
            Step::ItemEnd | Step::SequenceEnd => {
                self.outermost_first.pop();
            }
        }
    }
}
