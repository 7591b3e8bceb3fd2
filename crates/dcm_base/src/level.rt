use crate::length::Length;
use crate::syntax::Syntax;

/// The most sequences and fragment lists that may be open at a time.
pub const MOST_LISTS: usize = 64;

/// The most sequences, fragment lists and items that are open at a time: each sequence has one item open.
pub const MOST_OPEN: usize = 2 * MOST_LISTS;

/// What holds elements, items or fragments.
#[derive(Clone, Copy, Debug, PartialEq, Eq)]
pub enum Container {
    DataSet,
    Item,
    Sequence,
    FragmentList,
}

/// A container that stands open: the syntax of what it holds, the length that its head declares, and the offset of
/// its end in bytes where that is known.
#[derive(Clone, Copy, Debug, PartialEq, Eq)]
pub struct Level {
    pub container: Container,
    pub syntax: Syntax,
    pub declared: Length,
    pub end_offset: Option<u64>,
}

impl Default for Level {
    /// The data set itself, which ends where the input does.
    fn default() -> Self {
        Level {
            container: Container::DataSet,
            syntax: Syntax::LITTLE,
            declared: Length::Undefined,
            end_offset: None,
        }
    }
}
