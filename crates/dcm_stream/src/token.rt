// What a machine gives its sink.
ghost use Rattle.std.specs.Prelude.{◌≡◌, ◌<◌, ◌^◌, ◌++◌, ◌∷◌, [], All, flat_map, length, map};
ghost use Rattle.dcm_base.specs.Steps.Atoms.{value_byte, closes_leaf};
ghost use Rattle.dcm_stream.specs.Tokens.{IsFilled, atoms_of, leaf_atoms, fragment_atoms};

use arrayvec::ArrayVec;
use dcm_base::{Length, Syntax, Tag, Vr};
use dcm_head::Head;

/// The most tokens of a whole value or fragment.
pub const MOST_OF_VALUE: usize = 3;

/// What has been read of a data set. The bytes of a value come in any cuts, in the order in which they are in the
/// input, and are lent out of the piece.
#[derive(Clone, Copy, Default)]
pub enum Token<'a> {
    /// An element, and the syntax in which it is spelled.
    Open(Head, Syntax),
    /// Bytes of the open value or fragment, at least one.
    Bytes(&'a [u8]),
    /// The open value or fragment is whole.
    CloseLeaf,
    /// An item of a sequence.
    OpenItem(Length),
    CloseItem,
    /// The open sequence or fragment list ends.
    CloseSeq,
    /// A fragment of so many bytes.
    OpenFragment(u32),
    /// The data set ends without fault.
    #[default]
    End,
}

/// A whole value or fragment: its opening, its bytes unless there are none, and its end.
fn whole<'a>(opening: Token<'a>, value: &'a [u8]) -> ArrayVec<Token<'a>, MOST_OF_VALUE>
    requires { IsFilled opening }
    ensures atoms { flat_map atoms_of result.items ≡ atoms_of opening.entry
        ++ (map value_byte value.now ++ closes_leaf ∷ []) }
    ensures filled { All IsFilled result.items }
{
    let mut tokens = ArrayVec::new();
    tokens.push(opening);
    if !value.is_empty() {
        tokens.push(Token::Bytes(value));
    }
    tokens.push(Token::CloseLeaf);
    tokens
}

impl<'a> Token<'a> {
    /// The tokens of an element with a whole value of fewer than 2^32 bytes, in explicit little endian (PS3.5 7.1.2).
    pub fn leaf(tag: Tag, vr: Vr, value: &'a [u8]) -> ArrayVec<Token<'a>, MOST_OF_VALUE>
        requires { length value.now < 2 ^ 32 }
        ensures atoms { flat_map atoms_of result.items ≡ leaf_atoms tag vr value.now }
        ensures filled { All IsFilled result.items }
    {
        let length = Length::Known(value.len() as u32);
        whole(Token::Open(Head { tag, vr, length }, Syntax::LITTLE), value)
    }

    /// The tokens of a whole fragment of fewer than 2^32 bytes (PS3.5 A.4).
    pub fn fragment(value: &'a [u8]) -> ArrayVec<Token<'a>, MOST_OF_VALUE>
        requires { length value.now < 2 ^ 32 }
        ensures atoms { flat_map atoms_of result.items ≡ fragment_atoms value.now }
        ensures filled { All IsFilled result.items }
    {
        whole(Token::OpenFragment(value.len() as u32), value)
    }
}

/// Why a sink refuses a head.
#[derive(Clone, Copy, Debug, PartialEq, Eq)]
pub enum Bar {
    /// The tag is not above the one before it in its data set.
    Order,
    /// The target syntax has no fragment lists.
    Fragments,
    /// An element of which identity cannot be taken out, nor the element itself.
    Identity,
    /// The element that names the patient, or one after it.
    Patient,
}

/// How much of a whole element was written when the writer failed.
#[derive(Clone, Copy, Debug, PartialEq, Eq)]
pub enum WholeFailed {
    /// Not all of what the head makes was written.
    AtHead,
    /// All of what the head makes was written, and not all of the rest.
    InValue,
}
