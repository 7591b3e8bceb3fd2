// What is where an element of the meta group may begin (PS3.10 7.1).
ghost use Rattle.std.specs.Prelude.{◌≡◌, ◌≤◌, length};
ghost use Rattle.dcm_base.specs.Bytes.Head.{head_size};
ghost use Rattle.dcm_base.specs.File.MetaGroup as spec;
ghost use Rattle.dcm_base.specs.Tables.Syntax.{Little};
ghost use Rattle.dcm_head.specs.GroupPlaces.{place_is};

use crate::head::{Head, HeadRead, SHORT_HEAD, read_explicit, read_short, read_tag};
use dcm_base::{Fault, Length, META_GROUP, Syntax, Tag, Vr};

/// What comes next in a meta group: an element with the sizes of its head and value, the end of the group, too few
/// bytes to know, or a fault.
#[derive(Clone, Copy, Debug, PartialEq, Eq)]
pub enum Place {
    Element(Tag, Vr, usize, usize),
    End,
    TooFew,
    Bad(Fault),
}

/// The most bytes of a meta group.
pub const META_LIMIT: usize = 16_384;

/// The bytes that spell a group's number.
const GROUP_SIZE: usize = 2;

/// At a whole head of so many bytes, where so many bytes are left from it on.
fn place_of_head(taken: usize, left: usize, head: Head, used: usize) -> Place
    requires limit { taken ≤ META_LIMIT }
    requires used { used ≡ head_size Little head.vr }
    ensures { place_is result ≡ spec.group_place_of_head taken left head.tag head.vr head.length }
{
    let Length::Known(size) = head.length else {
        return Place::Bad(Fault::BadMeta);
    };
    if matches!(head.vr, Vr::SQ) {
        return Place::Bad(Fault::BadMeta);
    }
    let size = size as usize;
    if used + size > META_LIMIT - taken {
        return Place::Bad(Fault::MetaTooLarge);
    }
    if left < used + size {
        return Place::TooFew;
    }
    Place::Element(head.tag, head.vr, used, size)
}

/// What comes next in a meta group, of which this number of bytes was read.
pub fn place_of(taken: usize, rest: &[u8]) -> Place
    requires { taken ≤ META_LIMIT }
    ensures { place_is result ≡ spec.group_place taken rest.now }
{
    if rest.is_empty() {
        return Place::End;
    }
    if rest.len() < GROUP_SIZE {
        return Place::TooFew;
    }
    if read_short(Syntax::LITTLE, rest) != META_GROUP {
        return Place::End;
    }
    if rest.len() < SHORT_HEAD {
        return Place::TooFew;
    }
    let tag = read_tag(Syntax::LITTLE, rest);
    match read_explicit(Syntax::LITTLE, tag, rest) {
        HeadRead::BadVr => Place::Bad(Fault::BadMeta),
        HeadRead::More(_) => Place::TooFew,
        HeadRead::Done(head, used) => place_of_head(taken, rest.len(), head, used),
    }
}
