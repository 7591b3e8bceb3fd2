// Where the columns of a tag are, so that an element is offered to these alone.
ghost use Rattle.std.specs.Prelude.{◌≡◌, ◌<◌, ◌≤◌, true, length};
ghost use Rattle.dcm_table.specs.Index as spec;
ghost use Rattle.dcm_table.specs.Slots.{slots_of};

use crate::slot::Slot;
use dcm_base::{Tag, spread};

/// How many places an index has: with 256 for at most 64 columns most tags have a place of no column.
const PLACES: usize = 256;

/// Two to the power of so many are `PLACES`.
const PLACE_BITS: u32 = 8;

/// A run of columns: the first column, and the column behind the last. If the first is not below the second, the run is
/// empty.
#[derive(Clone, Copy, Debug, PartialEq, Eq)]
pub struct Span {
    pub first: u8,
    pub after: u8,
}

impl Span {
    /// The empty run.
    pub const NONE: Span = Span {
        first: u8::MAX,
        after: 0,
    };

    /// The least run that has the columns of both runs.
    pub fn with(self, other: Span) -> Span
        ensures { result ≡ spec.both self other }
    {
        Span {
            first: self.first.min(other.first),
            after: self.after.max(other.after),
        }
    }

    /// Whether the run is empty.
    pub fn is_empty(self) -> bool
        ensures { result ≡ spec.is_empty self }
    {
        self.after <= self.first
    }
}

/// The place of a tag in an index. Tags that share one are told apart where the columns are.
fn place_of(tag: Tag) -> usize
    ensures value { result ≡ spec.place_of tag }
    ensures within { result < 256 }
{
    spread(tag.number(), PLACE_BITS)
}

/// For each place of a hash the columns of its tags.
#[derive(Drop)]
pub struct Index {
    spans: [Span; PLACES],
}

impl Index {
    /// The index of these columns.
    pub fn new(slots: &[Slot]) -> Index
        requires { length slots.now ≤ 64 }
        ensures { spec.has_each result 0 (slots_of slots.now) ≡ true }
    {
        let mut index = Index {
            spans: [Span::NONE; PLACES],
        };
        for column in 0..slots.len() {
            index.add(slots[column].tag, column as u8);
        }
        index
    }

    /// One more column.
    fn add(&mut self, tag: Tag, column: u8)
        requires { column < 64 }
        ensures { self.new ≡ spec.added self.old tag column }
    {
        let place = place_of(tag);
        let own = Span {
            first: column,
            after: column + 1,
        };
        self.spans[place] = self.spans[place].with(own);
    }

    /// Where the columns of a tag are. Others may lie among them.
    pub fn span_of(&self, tag: Tag) -> Span
        ensures { result ≡ spec.span_of self.now tag }
    {
        self.spans[place_of(tag)]
    }
}
