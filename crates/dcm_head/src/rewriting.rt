// A meta group written anew, with a transfer syntax (PS3.10 7.1).
ghost use Rattle.std.specs.Prelude.{◌≡◌, ◌≤◌, ◌<◌, ◌||◌, ◌^◌, IfSome, IfNone, [], length};
ghost use Rattle.std.specs.Int.{to_le_bytes, w32};
ghost use Rattle.dcm_devices.specs.Writing.{Wrote};
ghost use Rattle.dcm_base.specs.Conversion.NewMeta.{new_elements, renewed};
ghost use Rattle.dcm_base.specs.Conversion.Recode.{even as even_size, head as recoded_head, recoded_leaf};
ghost use Rattle.dcm_base.specs.File.MetaGroup.{META_LIMIT as GROUP_LIMIT};
ghost use Rattle.dcm_base.specs.Tables.Tag.{is_tag};
ghost use Rattle.dcm_base.specs.declared.length.Length.TheVariants.{Known};
ghost use Rattle.dcm_base.specs.Tables.Syntax.{Little};
ghost use Rattle.dcm_base.specs.Tree.Tree.{no_tree};
ghost use Rattle.dcm_head.specs.Rewriting as spec;

use crate::element::{MetaElement, first_element};
use crate::group::META_LIMIT;
use crate::head::{Head, LONG_HEAD};
use crate::renewal::{AllStays, Renewal, Renewed};
use crate::syntax_uid::SyntaxUid;
use crate::write::explicit_head;
use arrayvec::ArrayVec;
use dcm_base::{DeviceOut, Length, Syntax, Tag, Vr, Watched, WriteFailed, put_all, put_parts};

/// The size of a value with its pad byte.
fn even(size: usize) -> usize
    requires { size < 65535 }
    ensures value { result ≡ even_size size }
    ensures limit { result < 65535 }
{
    size + size % 2
}

/// The head of a value of this size.
fn leaf_head(tag: Tag, vr: Vr, size: usize) -> ArrayVec<u8, LONG_HEAD>
    requires { size < 65535 }
    ensures { result.items ≡ recoded_head Little tag vr (Known (even_size size)) }
{
    let length = Length::Known(even(size) as u32);
    explicit_head(Syntax::LITTLE, &Head { tag, vr, length })
}

/// The size of an element that is written.
fn leaf_size(tag: Tag, vr: Vr, value: &[u8]) -> usize
    requires { length value.now < 65535 }
    ensures size { result ≡ length (recoded_leaf Little tag vr value.now) }
    ensures limit { result < 65547 }
{
    leaf_head(tag, vr, value.len()).len() + even(value.len())
}

fn put_leaf<W: DeviceOut>(
    out: &mut Watched<W>,
    tag: Tag,
    vr: Vr,
    value: &[u8],
) -> Result<(), WriteFailed>
    requires { length value.now < 65535 }
    ensures { Wrote W.DeviceOut out.old out.new (recoded_leaf Little tag vr value.now) result }
{
    let head = leaf_head(tag, vr, value.len());
    let pad = [vr.pad()];
    let (pad, _) = pad.split_at(value.len() % 2);
    put_parts(out, &[head.as_slice(), value, pad])
}

/// The representation and value that the new group has of an element, if it has any: the first that names a transfer
/// syntax names this one.
fn renewed<'a>(first: MetaElement<'a>, named: bool, uid: &'a [u8]) -> Option<(Vr, &'a [u8])>
    requires value { length first.value.now < 65535 }
    requires uid { length uid.now < 65535 }
    ensures some { IfSome result (λ r. recoded_leaf Little first.entry.tag r.0 r.1.now
        ≡ spec.written_as named uid.now first.entry) }
    ensures none { IfNone result (spec.written_as named uid.now first.entry ≡ []) }
    ensures limit { IfSome result (λ r. length r.1.now < 65535) }
{
    let is_syntax = first.tag.names_syntax();
    if first.tag.element == 0 || (is_syntax && named) {
        None
    } else if is_syntax {
        Some((Vr::UI, uid))
    } else {
        Some((first.vr, first.value))
    }
}

/// The size of what the new group has of an element.
fn element_size(first: MetaElement<'_>, named: bool, uid: &[u8]) -> usize
    requires value { length first.value.now < 65535 }
    requires uid { length uid.now < 65535 }
    ensures size { result ≡ length (spec.written_as named uid.now first.entry) }
    ensures limit { result < 65547 }
{
    match renewed(first, named, uid) {
        Some((vr, value)) => leaf_size(first.tag, vr, value),
        None => 0,
    }
}

fn put_element<W: DeviceOut>(
    out: &mut Watched<W>,
    first: MetaElement<'_>,
    named: bool,
    uid: &[u8],
) -> Result<(), WriteFailed>
    requires value { length first.value.now < 65535 }
    requires uid { length uid.now < 65535 }
    ensures { Wrote W.DeviceOut out.old out.new (spec.written_as named uid.now first.entry) result }
{
    match renewed(first, named, uid) {
        Some((vr, value)) => put_leaf(out, first.tag, vr, value),
        None => Ok(()),
    }
}

/// The size of what the new group has of an element that may go or have another value.
fn renewed_size(renewed: &Renewed, first: MetaElement<'_>, named: bool, uid: &[u8]) -> usize
    requires value { length first.value.now < 65535 }
    requires uid { length uid.now < 65535 }
    ensures size { result ≡ length (spec.written_stay renewed.now named uid.now first.entry) }
    ensures limit { result < 65547 }
{
    match renewed.of(first) {
        Some(element) => element_size(element, named, uid),
        None => 0,
    }
}

/// Writes what the new group has of it.
fn put_renewed<W: DeviceOut>(
    out: &mut Watched<W>,
    renewed: &Renewed,
    first: MetaElement<'_>,
    named: bool,
    uid: &[u8],
) -> Result<(), WriteFailed>
    requires value { length first.value.now < 65535 }
    requires uid { length uid.now < 65535 }
    ensures { Wrote W.DeviceOut out.old out.new (spec.written_stay renewed.now named uid.now first.entry) result }
{
    match renewed.of(first) {
        Some(element) => put_element(out, element, named, uid),
        None => Ok(()),
    }
}

/// The size of the elements that stay.
fn stay_size<N: Renewal>(renewal: &N, group: &[u8], uid: &[u8]) -> usize
    requires group { length group.now ≤ GROUP_LIMIT }
    requires uid { length uid.now < 65535 }
    ensures size { spec.OfElements group.now (λ elements. result
        ≡ length (new_elements (renewed (N.renewing renewal.now) no_tree elements) uid.now)) }
    ensures limit { result < 2 ^ 31 }
{
    let mut rest = group;
    let mut named = false;
    let mut size = 0;
    'elements: while let Some(first) = first_element(rest) {
        let renewed = renewal.renew(first);
        size += renewed_size(&renewed, first, named, uid);
        named = renewed.is_named(named, first.tag);
        rest = first.after;
    }
    size
}

/// Writes the elements that stay.
fn put_stay<N: Renewal, W: DeviceOut>(
    out: &mut Watched<W>,
    renewal: &N,
    group: &[u8],
    uid: &[u8],
) -> Result<(), WriteFailed>
    requires group { length group.now ≤ GROUP_LIMIT }
    requires uid { length uid.now < 65535 }
    ensures { spec.WroteElements W.DeviceOut out.old out.new group.now
        (λ elements. new_elements (renewed (N.renewing renewal.now) no_tree elements) uid.now) result }
{
    let mut rest = group;
    let mut named = false;
    'elements: while let Some(first) = first_element(rest) {
        let renewed = renewal.renew(first);
        put_renewed(out, &renewed, first, named, uid)?;
        named = renewed.is_named(named, first.tag);
        rest = first.after;
    }
    Ok(())
}

/// The size of the elements of the new group.
fn elements_size<N: Renewal>(renewal: &N, group: &[u8], uid: &[u8]) -> usize
    requires group { length group.now ≤ GROUP_LIMIT }
    requires uid { length uid.now < 65535 }
    ensures size { spec.OfElements group.now (λ elements. result
        ≡ length (new_elements (renewed (N.renewing renewal.now) (N.own renewal.now) elements) uid.now)) }
    ensures limit { result < 2 ^ 32 }
{
    stay_size(renewal, group, uid) + renewal.own_elements().len()
}

/// Writes the elements of the new group.
fn put_elements<N: Renewal, W: DeviceOut>(
    out: &mut Watched<W>,
    renewal: &N,
    group: &[u8],
    uid: &[u8],
) -> Result<(), WriteFailed>
    requires group { length group.now ≤ GROUP_LIMIT }
    requires uid { length uid.now < 65535 }
    ensures { spec.WroteElements W.DeviceOut out.old out.new group.now
        (λ elements. new_elements (renewed (N.renewing renewal.now) (N.own renewal.now) elements) uid.now) result }
{
    let own = renewal.own_elements();
    put_stay(out, renewal, group, uid)?;
    put_all(out, own)
}

/// Writes what stays of a whole meta group anew, with its length and this transfer syntax (PS3.10 7.1), and behind it
/// the renewal's own elements.
///
/// Fails where the writer fails, and has then written a beginning of the group.
pub fn renew_meta<N: Renewal, W: DeviceOut>(
    renewal: &N,
    group: &[u8],
    uid: &[u8],
    out: &mut Watched<W>,
) -> Result<(), WriteFailed>
    requires group { length group.now ≤ GROUP_LIMIT }
    requires uid { length uid.now < 65535 }
    ensures { spec.WroteRenewed W.DeviceOut out.old out.new (N.renewing renewal.now) (N.own renewal.now) group.now
        uid.now result }
{
    let size = elements_size(renewal, group, uid) as u32;
    put_leaf(out, Tag::META_LENGTH, Vr::UL, &size.to_le_bytes())?;
    put_elements(out, renewal, group, uid)
}

/// Writes a whole meta group anew. Fails as `renew_meta` does.
pub fn write_group<W: DeviceOut>(
    group: &[u8],
    uid: &[u8],
    out: &mut Watched<W>,
) -> Result<(), WriteFailed>
    requires group { length group.now ≤ GROUP_LIMIT }
    requires uid { length uid.now < 65535 }
    ensures { spec.WroteGroup W.DeviceOut out.old out.new group.now uid.now result }
{
    renew_meta(&AllStays, group, uid, out)
}

/// Writes a whole meta group anew, with its length and this transfer syntax (PS3.10 7.1).
///
/// Fails where the writer fails, and has then written a beginning of the group.
pub fn write_meta<W: DeviceOut>(
    group: &ArrayVec<u8, META_LIMIT>,
    uid: &SyntaxUid<'_>,
    out: &mut Watched<W>,
) -> Result<(), WriteFailed>
    ensures { spec.WroteGroup W.DeviceOut out.old out.new group.now.items uid.now result }
{
    write_group(group.as_slice(), uid.as_bytes(), out)
}
