// Heads from bytes (PS3.5 7.1.2, 7.1.3, 7.5).
ghost use Rattle.std.specs.Prelude.{◌≡◌, true, ◌≤◌, length, IfSome};
ghost use Rattle.dcm_base.specs.Bytes.Head.{tag_at, vr_at, long_length};
ghost use Rattle.dcm_base.specs.declared.syntax.Syntax.TheVariants.{Little as little_in};
ghost use Rattle.dcm_base.specs.Tables.Number.{number};
ghost use Rattle.dcm_base.specs.Conversion.Recode as recode;
ghost use Rattle.dcm_base.specs.Tables.Representation.{is_capital as is_capital_letter, vr_read};
ghost use Rattle.dcm_head.specs.HeadRead as spec;

use byteorder::{BigEndian, ByteOrder, LittleEndian};
use dcm_base::{Dictionary, ITEM_GROUP, Length, META_GROUP, Syntax, Tag, Vr, vr_in, vr_of};

/// A head: tag, value representation and declared length (PS3.5 7.1). Items and delimiters have UN.
#[derive(Clone, Copy, Debug, PartialEq, Eq)]
pub struct Head {
    pub tag: Tag,
    pub vr: Vr,
    pub length: Length,
}

/// What bytes begin with.
#[derive(Clone, Copy, Debug, PartialEq, Eq)]
pub enum HeadRead {
    /// A head, and the number of its bytes.
    Done(Head, usize),
    /// A beginning of a head, which needs at least so many bytes.
    More(usize),
    /// The head of an element whose representation is not two capital letters.
    BadVr,
}

/// The size of a head without a representation, or with a length of two bytes (PS3.5 7.1.2, 7.1.3).
pub const SHORT_HEAD: usize = 8;

/// The size of a head with two reserved bytes and a length of four (PS3.5 7.1.2).
pub const LONG_HEAD: usize = 12;

/// How the undefined length is spelled (PS3.5 7.1.1).
pub const UNDEFINED: u32 = 0xFFFF_FFFF;

/// The tag that the first four bytes spell (PS3.5 7.1.1).
pub fn read_tag(syntax: Syntax, bytes: &[u8]) -> Tag
    requires { 4 ≤ length bytes.now }
    ensures { result ≡ tag_at syntax bytes.now }
{
    match syntax {
        Syntax::Implicit(_) | Syntax::Little(_) => Tag {
            group: LittleEndian::read_u16(bytes),
            element: LittleEndian::read_u16(&bytes[2..]),
        },
        Syntax::Big(_) => Tag {
            group: BigEndian::read_u16(bytes),
            element: BigEndian::read_u16(&bytes[2..]),
        },
    }
}

/// The number that two bytes spell.
pub fn read_short(syntax: Syntax, bytes: &[u8]) -> u16
    requires { 2 ≤ length bytes.now }
    ensures { result ≡ number syntax 2 bytes.now }
{
    match syntax {
        Syntax::Implicit(_) | Syntax::Little(_) => LittleEndian::read_u16(bytes),
        Syntax::Big(_) => BigEndian::read_u16(bytes),
    }
}

/// A length of four bytes.
fn read_long(syntax: Syntax, bytes: &[u8]) -> Length
    requires { 4 ≤ length bytes.now }
    ensures { result ≡ long_length (number syntax 4 bytes.now) }
{
    let n = match syntax {
        Syntax::Implicit(_) | Syntax::Little(_) => LittleEndian::read_u32(bytes),
        Syntax::Big(_) => BigEndian::read_u32(bytes),
    };
    if n == UNDEFINED {
        Length::Undefined
    } else {
        Length::Known(n)
    }
}

fn is_capital(letter: u8) -> bool
    ensures { result ≡ is_capital_letter letter }
{
    b'A' <= letter && letter <= b'Z'
}

/// How two letters are read: capitals that name nothing are UN. The letters of a representation are capitals, so these
/// are looked for only where there is none.
#[tactic(auto, using(crate::proofs::Heads::Capitals::named_read, crate::proofs::Heads::Capitals::unnamed_read))]
#[inline(always)]
fn read_vr(first: u8, second: u8) -> Option<Vr>
    ensures { result ≡ vr_read first second }
{
    if let Some(vr) = vr_of(&[first, second]) {
        return Some(vr);
    }
    if is_capital(first) && is_capital(second) {
        Some(Vr::UN)
    } else {
        None
    }
}

/// The head of an element with this tag in an explicit syntax.
#[inline(always)]
pub fn read_explicit(syntax: Syntax, tag: Tag, bytes: &[u8]) -> HeadRead
    requires explicit { recode.is_explicit syntax ≡ true }
    requires eight { 8 ≤ length bytes.now }
    requires tag { tag ≡ tag_at syntax bytes.now }
    ensures { result ≡ spec.element_read syntax bytes.now (vr_at syntax bytes.now) }
{
    let Some(vr) = read_vr(bytes[4], bytes[5]) else {
        return HeadRead::BadVr;
    };
    if !vr.is_long() {
        let length = Length::Known(u32::from(read_short(syntax, &bytes[6..])));
        return HeadRead::Done(Head { tag, vr, length }, SHORT_HEAD);
    }
    if bytes.len() < LONG_HEAD {
        return HeadRead::More(LONG_HEAD);
    }
    let length = read_long(syntax, &bytes[8..]);
    HeadRead::Done(Head { tag, vr, length }, LONG_HEAD)
}

/// The head that the bytes begin with, where it is that of an element in explicit little endian with a length of two
/// bytes. Nearly all heads are such. Items, and elements of the meta group, are left out.
#[inline(always)]
pub fn read_short_head(dictionary: Dictionary, bytes: &[u8]) -> Option<Head>
    requires { 8 ≤ length bytes.now }
    ensures { IfSome result (spec.BeginsShort (little_in dictionary) bytes.now) }
{
    let syntax = Syntax::Little(dictionary);
    let tag = read_tag(syntax, bytes);
    if tag.group == ITEM_GROUP || tag.group == META_GROUP {
        return None;
    }
    let vr = read_vr(bytes[4], bytes[5])?;
    if vr.is_long() {
        return None;
    }
    let length = Length::Known(u32::from(read_short(syntax, &bytes[6..])));
    Some(Head { tag, vr, length })
}

/// The head of an element with this tag.
#[inline(always)]
fn read_element(syntax: Syntax, tag: Tag, bytes: &[u8]) -> HeadRead
    requires eight { 8 ≤ length bytes.now }
    requires tag { tag ≡ tag_at syntax bytes.now }
    ensures { result ≡ spec.element_read syntax bytes.now (vr_at syntax bytes.now) }
{
    match syntax {
        Syntax::Implicit(dictionary) => {
            let (vr, length) = (vr_in(dictionary, tag), read_long(syntax, &bytes[4..]));
            HeadRead::Done(Head { tag, vr, length }, SHORT_HEAD)
        }
        Syntax::Little(_) | Syntax::Big(_) => read_explicit(syntax, tag, bytes),
    }
}

/// Whether this tag is that of an item's or a sequence's delimiter.
pub fn is_delimiter(tag: Tag) -> bool
    ensures { result ≡ spec.is_delimiter tag }
{
    tag.is_item_end() || tag.is_sequence_end()
}

/// The head of an item or a delimiter, which has no representation.
fn without_vr(tag: Tag, length: Length) -> HeadRead
    ensures { result ≡ HeadRead.Done (record { tag = tag; vr = Vr.UN; length = length }) 8 }
{
    HeadRead::Done(
        Head {
            tag,
            vr: Vr::UN,
            length,
        },
        SHORT_HEAD,
    )
}

/// The head with this tag that the bytes begin with, of an element, an item or a delimiter (PS3.5 7.1.2, 7.1.3, 7.5).
///
/// Two capitals that name no representation are UN, and a delimiter's length is 0 whatever its bytes. Under 12 bytes
/// of a head that has so many, more are asked for.
#[inline(always)]
pub fn read_tagged(syntax: Syntax, tag: Tag, bytes: &[u8]) -> HeadRead
    requires eight { 8 ≤ length bytes.now }
    requires tag { tag ≡ tag_at syntax bytes.now }
    ensures { result ≡ spec.tag_read syntax bytes.now tag }
{
    if tag.is_item() {
        let length = read_long(syntax, &bytes[4..]);
        return without_vr(tag, length);
    }
    if is_delimiter(tag) {
        return without_vr(tag, Length::Known(0));
    }
    read_element(syntax, tag, bytes)
}

/// The head that the bytes begin with (PS3.5 7.1). Under 8 bytes, more are asked for.
pub fn read_head(syntax: Syntax, bytes: &[u8]) -> HeadRead
    ensures { result ≡ spec.head_read syntax bytes.now }
{
    if bytes.len() < SHORT_HEAD {
        return HeadRead::More(SHORT_HEAD);
    }
    read_tagged(syntax, read_tag(syntax, bytes), bytes)
}
