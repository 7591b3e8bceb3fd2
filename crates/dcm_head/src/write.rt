// Heads as bytes (PS3.5 7.1.2, 7.1.3, 7.5).
ghost use Rattle.std.specs.Prelude.{◌≡◌, ◌≤◌, ◌∷◌, ◌++◌, true, false};
ghost use Rattle.std.specs.Int.{w16, w32};
ghost use Rattle.dcm_devices.specs.Writing.{Wrote};
ghost use Rattle.dcm_base.specs.Conversion.Recode as recode;
ghost use Rattle.dcm_base.specs.Tables.Representation.{is_long as has_long_form, letters};
ghost use Rattle.dcm_head.specs.HeadBytes as spec;

use crate::head::{Head, LONG_HEAD, SHORT_HEAD, UNDEFINED, is_delimiter};
use arrayvec::ArrayVec;
use dcm_base::{DeviceOut, Length, Syntax, Tag, Watched, WriteFailed, put_array};

/// The bytes of a head.
type HeadBytes = ArrayVec<u8, LONG_HEAD>;

/// The bytes of a number. It is turned round as a whole before it is taken apart, so that the compiler sees the bytes
/// of one number, and a head of them as a few shifts; to choose between bytes costs a choice for each.
#[tactic(auto, using(crate::proofs::Heads::Turned::short_turned))]
fn short_bytes(syntax: Syntax, number: u16) -> [u8; 2]
    ensures { result ≡ recode.number_bytes syntax w16 number }
{
    let short = match syntax {
        Syntax::Implicit(_) | Syntax::Little(_) => number,
        Syntax::Big(_) => number.swap_bytes(),
    };
    short.to_le_bytes()
}

/// The same of a longer number.
#[tactic(auto, using(crate::proofs::Heads::Turned::long_turned))]
fn long_bytes(syntax: Syntax, number: u32) -> [u8; 4]
    ensures { result ≡ recode.number_bytes syntax w32 number }
{
    let long = match syntax {
        Syntax::Implicit(_) | Syntax::Little(_) => number,
        Syntax::Big(_) => number.swap_bytes(),
    };
    long.to_le_bytes()
}

fn length_number(length: Length) -> u32
    ensures { result ≡ recode.length_number length }
{
    match length {
        Length::Known(n) => n,
        Length::Undefined => UNDEFINED,
    }
}

/// These bytes as a head.
fn held<const N: usize>(bytes: [u8; N]) -> HeadBytes
    requires { N ≤ 12 }
    ensures { result.items ≡ bytes.entry }
{
    let mut held = HeadBytes::new();
    let _ = held.try_extend_from_slice(&bytes);
    held
}

/// A head without a representation, as that of an item, a fragment or a delimiter (PS3.5 7.5). Its bytes are an array
/// that is put together at once, which is several times as fast as to push one after another.
#[inline]
pub fn plain_head(syntax: Syntax, tag: Tag, length: Length) -> [u8; SHORT_HEAD]
    ensures { result ≡ recode.plain_head syntax tag length }
{
    let [a, b] = short_bytes(syntax, tag.group);
    let [c, d] = short_bytes(syntax, tag.element);
    let [e, f, g, h] = long_bytes(syntax, length_number(length));
    [a, b, c, d, e, f, g, h]
}

/// The head of an element in an explicit syntax, whose length has two bytes.
fn short_head(syntax: Syntax, head: &Head) -> [u8; SHORT_HEAD]
    requires fits { spec.FitsShort head.now.length }
    ensures { result ≡ recode.tag_bytes syntax head.now.tag ++ letters head.now.vr
        ++ recode.number_bytes syntax w16 (recode.length_number head.now.length) }
{
    let [a, b] = short_bytes(syntax, head.tag.group);
    let [c, d] = short_bytes(syntax, head.tag.element);
    let [first, second] = head.vr.letters();
    let [e, f] = short_bytes(syntax, length_number(head.length) as u16);
    [a, b, c, d, first, second, e, f]
}

/// The head of an element in an explicit syntax, whose length has four bytes.
fn long_head(syntax: Syntax, head: &Head) -> [u8; LONG_HEAD]
    ensures { result ≡ recode.tag_bytes syntax head.now.tag ++ letters head.now.vr
        ++ 0 ∷ 0 ∷ recode.number_bytes syntax w32 (recode.length_number head.now.length) }
{
    let [a, b] = short_bytes(syntax, head.tag.group);
    let [c, d] = short_bytes(syntax, head.tag.element);
    let [first, second] = head.vr.letters();
    let [e, f, g, h] = long_bytes(syntax, length_number(head.length));
    [a, b, c, d, first, second, 0, 0, e, f, g, h]
}

/// The head of an element in an explicit syntax.
pub fn explicit_head(syntax: Syntax, head: &Head) -> HeadBytes
    requires explicit { recode.is_explicit syntax ≡ true }
    requires fits { has_long_form head.now.vr ≡ false → spec.FitsShort head.now.length }
    ensures { result.items ≡ recode.head syntax head.now.tag head.now.vr head.now.length }
{
    if head.vr.is_long() {
        held(long_head(syntax, head))
    } else {
        held(short_head(syntax, head))
    }
}

/// The bytes of an element's head: with its representation's own letters and reserved bytes of zero in an explicit
/// syntax, and without both in the implicit one.
pub fn element_head(syntax: Syntax, head: &Head) -> ArrayVec<u8, LONG_HEAD>
    requires { recode.is_explicit syntax ≡ true → has_long_form head.now.vr ≡ false → spec.FitsShort head.now.length }
    ensures { result.items ≡ recode.head syntax head.now.tag head.now.vr head.now.length }
{
    match syntax {
        Syntax::Implicit(_) => held(plain_head(syntax, head.tag, head.length)),
        Syntax::Little(_) | Syntax::Big(_) => explicit_head(syntax, head),
    }
}

/// Writes the bytes of an element's head, as `element_head` has them. They go out from the array that they are put
/// together in, so that none is blanked or copied before. Fails where the writer fails, which has then taken a
/// beginning of them.
pub fn put_element_head<W: DeviceOut>(
    out: &mut Watched<W>,
    syntax: Syntax,
    head: &Head,
) -> Result<(), WriteFailed>
    requires { recode.is_explicit syntax ≡ true → has_long_form head.now.vr ≡ false → spec.FitsShort head.now.length }
    ensures { Wrote W.DeviceOut out.old out.new (recode.head syntax head.now.tag head.now.vr head.now.length) result }
{
    match syntax {
        Syntax::Implicit(_) => put_array(out, &plain_head(syntax, head.tag, head.length)),
        Syntax::Little(_) | Syntax::Big(_) => put_explicit_head(out, syntax, head),
    }
}

/// Writes the head of an element in an explicit syntax.
fn put_explicit_head<W: DeviceOut>(
    out: &mut Watched<W>,
    syntax: Syntax,
    head: &Head,
) -> Result<(), WriteFailed>
    requires explicit { recode.is_explicit syntax ≡ true }
    requires fits { has_long_form head.now.vr ≡ false → spec.FitsShort head.now.length }
    ensures { Wrote W.DeviceOut out.old out.new (recode.head syntax head.now.tag head.now.vr head.now.length) result }
{
    if head.vr.is_long() {
        put_array(out, &long_head(syntax, head))
    } else {
        put_array(out, &short_head(syntax, head))
    }
}

/// The bytes of a head: with its representation's own letters, reserved bytes of zero, and 0 as a delimiter's length.
pub fn write_head(syntax: Syntax, head: &Head) -> ArrayVec<u8, LONG_HEAD>
    requires { spec.is_short_form syntax head.now ≡ true → spec.FitsShort head.now.length }
    ensures { result.items ≡ spec.head_bytes syntax head.now }
{
    let tag = head.tag;
    if tag.is_item() {
        return held(plain_head(syntax, tag, head.length));
    }
    if is_delimiter(tag) {
        return held(plain_head(syntax, tag, Length::Known(0)));
    }
    element_head(syntax, head)
}
