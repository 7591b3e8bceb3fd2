// An element whose value is whole in a piece.
ghost use Rattle.std.specs.Prelude.{IfSome};
ghost use Rattle.dcm_base.specs.declared.syntax.Syntax.TheVariants.{Little as little_in};
ghost use Rattle.dcm_stream.specs.Judging.{IsSized};
ghost use Rattle.dcm_stream.specs.WholeLeaf as spec;

use super::judge::Opening;
use super::sign::says_sign;
use dcm_base::{Dictionary, Length, Syntax};
use dcm_head::{Head, SHORT_HEAD, read_short_head};

/// An element whose value is whole in a piece.
#[derive(Clone, Copy)]
pub struct WholeLeaf<'p> {
    pub head: Head,
    pub syntax: Syntax,
    pub value: &'p [u8],
}

/// The beginning of the bytes behind a head that is a value of so many bytes, where it is whole in them.
#[inline(always)]
fn front(rest: &[u8], size: u32) -> Option<&[u8]>
    ensures { IfSome result (λ value. spec.IsFrontOf size value.now rest.now) }
{
    let size = size as usize;
    if rest.len() < size {
        return None;
    }
    let (value, _) = rest.split_at(size);
    Some(value)
}

/// What a head opens together with its value, where that is whole in the bytes behind the head. PixelRepresentation is
/// left out, since what comes after it hangs on its value.
#[inline(always)]
pub fn whole_leaf<'p>(opening: Opening, rest: &'p [u8]) -> Option<WholeLeaf<'p>>
    requires { IsSized opening }
    ensures whole { IfSome result (spec.IsWhole opening) }
    ensures front { IfSome result (λ leaf. spec.IsFront leaf.value.now rest.now) }
{
    match opening {
        Opening::Leaf(head, syntax, size) if !says_sign(head.tag) => {
            let value = front(rest, size)?;
            Some(WholeLeaf {
                head,
                syntax,
                value,
            })
        }
        _ => None,
    }
}

/// The element in explicit little endian that the bytes begin with, where its length has two bytes and its value is
/// whole in them. Nearly all elements are such. PixelRepresentation is left out here too.
#[inline(always)]
pub fn plain_leaf(dictionary: Dictionary, bytes: &[u8]) -> Option<WholeLeaf<'_>>
    ensures { IfSome result (spec.IsPlain (little_in dictionary) bytes.now) }
{
    if bytes.len() < SHORT_HEAD {
        return None;
    }
    let head = read_short_head(dictionary, bytes)?;
    let Length::Known(size) = head.length else {
        return None;
    };
    if says_sign(head.tag) {
        return None;
    }
    let (_, rest) = bytes.split_at(SHORT_HEAD);
    let value = front(rest, size)?;
    Some(WholeLeaf {
        head,
        syntax: Syntax::Little(dictionary),
        value,
    })
}
