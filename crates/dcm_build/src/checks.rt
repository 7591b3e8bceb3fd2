// What is asked of a step before it is taken.
ghost use Rattle.std.specs.Prelude.{◌≡◌};
ghost use Rattle.dcm_base.specs.Lines.Build as build;
ghost use Rattle.dcm_build.specs.LineShown.{step_of};

use crate::line::Step;
use dcm_base::{Coding, Container, LineFault, META_GROUP, Syntax, Tag};

/// The fault of the first check that fails.
pub fn first_fault(checks: &[(bool, LineFault)]) -> Option<LineFault>
    ensures { result ≡ build.first_fault checks.now }
{
    let mut rest = checks;
    while let [(fails, fault), after @ ..] = rest {
        if *fails {
            return Some(*fault);
        }
        rest = after;
    }
    None
}

/// The tag of the element that a step shows or opens.
pub fn element_tag(step: Step<'_>) -> Option<Tag>
    ensures { result ≡ build.element_tag (step_of step.entry) }
{
    match step {
        Step::Leaf(tag, _, _) | Step::Sequence(tag, _) | Step::FragmentList(tag, _) => Some(tag),
        Step::Item | Step::Fragment(_) | Step::ItemEnd | Step::SequenceEnd => None,
    }
}

/// Whether a step shows or opens an element of the meta group.
pub fn is_meta(step: Step<'_>) -> bool
    ensures { result ≡ build.is_meta (step_of step.entry) }
{
    match element_tag(step) {
        Some(tag) => tag.group == META_GROUP,
        None => false,
    }
}

/// Whether a step opens a list of fragments.
pub fn is_fragment_opening(step: Step<'_>) -> bool
    ensures { result ≡ build.is_fragment_opening (step_of step.entry) }
{
    matches!(step, Step::FragmentList(_, _))
}

/// Whether a step opens a sequence or a list of fragments.
pub fn is_opening(step: Step<'_>) -> bool
    ensures { result ≡ build.is_opening (step_of step.entry) }
{
    matches!(step, Step::Sequence(_, _) | Step::FragmentList(_, _))
}

/// Whether what a step shows may be in this container.
pub fn has_place_in(container: Container, step: Step<'_>) -> bool
    ensures { result ≡ build.has_place_in container (step_of step.entry) }
{
    match step {
        Step::Leaf(_, _, _) | Step::Sequence(_, _) | Step::FragmentList(_, _) => {
            matches!(container, Container::DataSet | Container::Item)
        }
        Step::Item => container == Container::Sequence,
        Step::Fragment(_) => container == Container::FragmentList,
        Step::ItemEnd => container == Container::Item,
        Step::SequenceEnd => matches!(container, Container::Sequence | Container::FragmentList),
    }
}

/// Whether a tag, if there is one, is above the one that was reached.
pub fn is_after(reached: Option<Tag>, tag: Option<Tag>) -> bool
    ensures { result ≡ build.is_after reached tag }
{
    match (reached, tag) {
        (_, None) | (None, Some(_)) => true,
        (Some(reached), Some(tag)) => tag.number() > reached.number(),
    }
}

/// Whether the coding has fragment lists: explicit little endian alone has them (PS3.5 A.4).
pub fn allows_fragments(coding: Option<Coding>) -> bool
    ensures { result ≡ build.allows_fragments coding }
{
    match coding {
        Some(coding) => matches!(coding.syntax, Syntax::Little(_)),
        None => false,
    }
}

/// The syntax of a coding, or explicit little endian where there is none.
pub fn coding_or_little(coding: Option<Coding>) -> Syntax
    ensures { result ≡ build.coding_or_little coding }
{
    match coding {
        Some(coding) => coding.syntax,
        None => Syntax::LITTLE,
    }
}
