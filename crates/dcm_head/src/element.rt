// The elements of a meta group, one after another (PS3.10 7.1).
ghost use Rattle.std.specs.Prelude.{◌≤◌, IfNone, IfSome, length};
ghost use Rattle.dcm_base.specs.File.MetaGroup.{META_LIMIT};
ghost use Rattle.dcm_head.specs.Rewriting as spec;

use crate::group::{Place, place_of};
use dcm_base::{Tag, Vr};

/// An element of a meta group (PS3.10 7.1): its tag, representation and value, and the bytes after it.
#[derive(Clone, Copy, Debug, PartialEq, Eq)]
pub struct MetaElement<'a> {
    pub tag: Tag,
    pub vr: Vr,
    pub value: &'a [u8],
    pub after: &'a [u8],
}

/// The first element of a group's bytes, or of what is left of them.
pub fn first_element<'a>(bytes: &'a [u8]) -> Option<MetaElement<'a>>
    requires { length bytes.now ≤ META_LIMIT }
    ensures some { IfSome result (λ e. spec.FirstIs bytes.now e.tag e.vr e.value.now e.after.now) }
    ensures none { IfNone result (spec.NoneIs bytes.now) }
{
    let Place::Element(tag, vr, head, size) = place_of(0, bytes) else {
        return None;
    };
    let (own, after) = bytes.split_at(head + size);
    let (_, value) = own.split_at(head);
    Some(MetaElement {
        tag,
        vr,
        value,
        after,
    })
}
