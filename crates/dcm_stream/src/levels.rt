// The open containers, and what may come in them.
ghost use Rattle.std.specs.Prelude.{◌≡◌, ◌+◌, ◌<◌, ◌≤◌, [], ◌∷◌, drop, length};
ghost use Rattle.dcm_base.specs.Reading.Place as spec;
ghost use Rattle.dcm_base.specs.Reading.Reads.{INPUT_LIMIT};
ghost use Rattle.dcm_base.specs.Reading.Stop as stops;
ghost use Rattle.dcm_stream.specs.Levels.{nearest_end};
ghost use Rattle.dcm_stream.specs.Places.{innermost};
ghost use Rattle.dcm_stream.specs.Reading as reading;

use arrayvec::ArrayVec;
use dcm_base::{Container, Form, ITEM_GROUP, Length, Level, META_GROUP, MOST_OPEN, Syntax, Tag};
use std::marker::Model;

/// The data set, and the most that is open in it.
const MOST_LEVELS: usize = MOST_OPEN + 1;

/// An open container, and what is asked of it together with those around it.
#[derive(Clone, Copy, Default)]
struct OpenLevel {
    level: Level,
    /// The nearest known end.
    nearest: Option<u64>,
    /// How many sequences and fragment lists there are.
    depth: usize,
}

/// The open containers. Clauses have them as a list, the innermost first.
#[derive(Drop)]
pub struct OpenLevels {
    outermost_first: ArrayVec<OpenLevel, MOST_LEVELS>,
}

impl Model for OpenLevels {
    ghost use Rattle.std.specs.Prelude.{List, reverse};
    ghost use Rattle.dcm_base.specs.declared.level.Level.{Level};
    ghost use Rattle.dcm_stream.specs.Levels.{AreSummed, levels_of};

    ghost Value = { List Level };

    ghost view = { λ o. levels_of (reverse o.outermost_first.items) };

    ghost invariant = { λ o. AreSummed (reverse o.outermost_first.items) };
}

/// Whether an element of a data set has this tag. Those of the meta group are in none (PS3.10 7.1).
fn is_data(tag: Tag) -> bool
    ensures { result ≡ spec.is_data tag }
{
    tag.group != ITEM_GROUP && tag.group != META_GROUP
}

/// Whether a head of this tag may come in a container (PS3.5 7.5).
#[tactic(auto, unfolding(dcm_base::specs::Reading::Place::is_allowed))]
pub fn is_allowed(container: Container, declared: Length, tag: Tag) -> bool
    ensures { result ≡ spec.is_allowed container declared tag }
{
    let is_undefined = declared == Length::Undefined;
    match container {
        Container::DataSet => is_data(tag),
        Container::Item => is_data(tag) || (is_undefined && tag.is_item_end()),
        Container::Sequence => tag.is_item() || (is_undefined && tag.is_sequence_end()),
        Container::FragmentList => tag.is_item() || tag.is_sequence_end(),
    }
}

/// A container whose contents begin at this offset.
pub fn level_at(container: Container, syntax: Syntax, declared: Length, begin: u64) -> Level
    requires { begin ≤ INPUT_LIMIT }
    ensures { result ≡ spec.level container syntax declared begin }
{
    let end_offset = match declared {
        Length::Known(size) => Some(begin + u64::from(size)),
        Length::Undefined => None,
    };
    Level {
        container,
        syntax,
        declared,
        end_offset,
    }
}

/// The bytes up to an end.
fn distance(position: u64, end_offset: Option<u64>) -> Option<u64>
    ensures { result ≡ spec.distance position end_offset }
{
    match end_offset {
        Some(end) => Some(end.saturating_sub(position)),
        None => None,
    }
}

/// The lesser of two numbers, where there are any.
fn least(a: Option<u64>, b: Option<u64>) -> Option<u64>
    ensures { result ≡ spec.least a b }
{
    match (a, b) {
        (Some(a), Some(b)) => Some(a.min(b)),
        (Some(a), None) => Some(a),
        (None, b) => b,
    }
}

/// Whether so many bytes do not fit into the room.
pub fn passes(size: u64, room: Option<u64>) -> bool
    ensures { result ≡ spec.passes size room }
{
    match room {
        Some(room) => room < size,
        None => false,
    }
}

fn counts(container: Container) -> usize
    ensures { result ≡ spec.counts container }
{
    match container {
        Container::Sequence | Container::FragmentList => 1,
        Container::DataSet | Container::Item => 0,
    }
}

/// Whether an element of this form opens a sequence or a fragment list.
pub fn opens_list(form: Form) -> bool
    ensures { result ≡ stops.opens_list form }
{
    matches!(form, Form::Sequence | Form::FragmentList)
}

/// The bytes of a head and of what it declares.
pub fn with_length(head: u64, declared: Length) -> u64
    requires { head ≤ INPUT_LIMIT }
    ensures { result ≡ stops.with_length head declared }
{
    match declared {
        Length::Known(size) => head + u64::from(size),
        Length::Undefined => head,
    }
}

impl OpenLevels {
    /// The outermost container alone.
    pub fn new(outermost: Level) -> Self
        ensures { result ≡ outermost ∷ [] }
    {
        let mut open = OpenLevels {
            outermost_first: ArrayVec::new(),
        };
        open.push(outermost);
        open
    }

    /// The innermost container.
    pub fn innermost(&self) -> Option<Level>
        ensures { result ≡ innermost self.now }
    {
        match self.outermost_first.as_slice().last() {
            Some(inner) => Some(inner.level),
            None => None,
        }
    }

    /// The nearest known end.
    #[tactic(auto, unfolding(crate::specs::Levels::nearest_end))]
    fn nearest_end(&self) -> Option<u64>
        ensures { result ≡ nearest_end self.now }
    {
        match self.outermost_first.as_slice().last() {
            Some(inner) => inner.nearest,
            None => None,
        }
    }

    /// The bytes up to the nearest known end.
    #[tactic(auto, using(crate::proofs::Containers::Rooms::room_is))]
    pub fn room(&self, position: u64) -> Option<u64>
        ensures { result ≡ spec.room position self.now }
    {
        distance(position, self.nearest_end())
    }

    /// How many sequences and fragment lists are open.
    #[tactic(auto, unfolding(dcm_base::specs::Reading::Place::depth))]
    pub fn depth(&self) -> usize
        ensures { result ≡ spec.depth self.now }
    {
        match self.outermost_first.as_slice().last() {
            Some(inner) => inner.depth,
            None => 0,
        }
    }

    /// Whether only the outermost data set is open.
    pub fn is_top(&self) -> bool
        ensures { result ≡ reading.is_top self.now }
    {
        match self.outermost_first.as_slice().last() {
            Some(inner) => inner.level.container == Container::DataSet,
            None => false,
        }
    }

    /// A container opens.
    pub fn push(&mut self, level: Level)
        requires { length self.old < 129 }
        ensures { self.new ≡ level ∷ self.old }
    {
        let nearest = least(level.end_offset, self.nearest_end());
        let depth = self.depth() + counts(level.container);
        self.outermost_first.push(OpenLevel {
            level,
            nearest,
            depth,
        });
    }

    /// Sets the syntax of what comes next in the innermost container.
    pub fn set_syntax(&mut self, syntax: Syntax)
        ensures { self.new ≡ reading.innermost_in syntax self.old }
    {
        let Some(last) = self.outermost_first.as_slice().last() else {
            return;
        };
        let mut inner = *last;
        inner.level.syntax = syntax;
        self.outermost_first.pop();
        self.outermost_first.push(inner);
    }

    /// The innermost container ends.
    pub fn pop(&mut self)
        ensures { self.new ≡ drop 1 self.old }
    {
        self.outermost_first.pop();
    }
}
