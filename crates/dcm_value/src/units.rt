// Units of a value as a dump shows them. A unit is given with its highest byte first.
ghost use Rattle.std.specs.Prelude.{◌≡◌, ◌<◌, ◌≤◌, ◌+◌, ◌*◌, ◌^◌, ◌++◌, [], ◌∷◌, ◌/◌, if◌then◌else◌, codes, length};
ghost use Rattle.std.specs.Prelude.{reverse, flat_map, decimal};
ghost use Rattle.dcm_base.specs.Dump.ValueText as spec;
ghost use Rattle.dcm_base.specs.Tree.Value.{number_of, turned, units as units_of};
ghost use Rattle.dcm_base.specs.Tables.Representation.{unit};
ghost use Rattle.dcm_value.specs.Units as high;
ghost use Rattle.dcm_value.specs.Swap.{IsUnit};

use crate::lanes::swap;
use arrayvec::ArrayVec;
use dcm_base::{Syntax, Tag, Vr};
use itoa::Buffer;

/// How the units of a value are shown.
#[derive(Clone, Copy, Debug, PartialEq, Eq)]
pub enum Kind {
    Unsigned,
    Signed,
    Tags,
    Hexadecimal,
}

/// The bytes of the longest unit.
const LONGEST_UNIT: usize = 8;

/// The bytes that the text of a unit with its backslash has room for. The longest, a number of eight bytes, has 21.
/// With 24, three for each of those bytes, a block of units has as much text as its bytes have where each is escaped.
pub const LONGEST: usize = 24;

/// How a value is shown whose units are no text.
pub fn kind_of(vr: Vr) -> Kind
    ensures { result ≡ high.kind_of (spec.shape vr) }
{
    match vr {
        Vr::US | Vr::UL | Vr::UV => Kind::Unsigned,
        Vr::SS | Vr::SL | Vr::SV => Kind::Signed,
        Vr::AT => Kind::Tags,
        _ => Kind::Hexadecimal,
    }
}

/// The bytes of what is shown and counted as one.
pub fn shown_unit(vr: Vr) -> usize
    ensures value { result ≡ spec.shown_unit vr }
    ensures unit { IsUnit result }
{
    match vr {
        Vr::AT => 4,
        _ => vr.unit(),
    }
}

/// Some bytes more.
pub fn append<const N: usize>(bytes: &[u8], text: &mut ArrayVec<u8, N>)
    requires { length text.old.items + length bytes.now ≤ N }
    ensures { text.new.items ≡ text.old.items ++ bytes.now }
{
    for byte in bytes {
        text.push(*byte);
    }
}

/// The same of many bytes, which are copied together: of few a call of the copy would take longer than they do.
pub fn append_many<const N: usize>(bytes: &[u8], text: &mut ArrayVec<u8, N>)
    requires { length text.old.items + length bytes.now ≤ N }
    ensures { text.new.items ≡ text.old.items ++ bytes.now }
{
    match text.try_extend_from_slice(bytes) {
        Ok(()) => (),
        Err(_) => unreachable!(),
    }
}

/// The two digits of each byte, in lower case.
pub const DIGITS: [u8; 512] =
    *b"000102030405060708090a0b0c0d0e0f101112131415161718191a1b1c1d1e1f202122232425262728292a2b2c2d2e2f303132333435363738393a3b3c3d3e3f404142434445464748494a4b4c4d4e4f505152535455565758595a5b5c5d5e5f606162636465666768696a6b6c6d6e6f707172737475767778797a7b7c7d7e7f808182838485868788898a8b8c8d8e8f909192939495969798999a9b9c9d9e9fa0a1a2a3a4a5a6a7a8a9aaabacadaeafb0b1b2b3b4b5b6b7b8b9babbbcbdbebfc0c1c2c3c4c5c6c7c8c9cacbcccdcecfd0d1d2d3d4d5d6d7d8d9dadbdcdddedfe0e1e2e3e4e5e6e7e8e9eaebecedeeeff0f1f2f3f4f5f6f7f8f9fafbfcfdfeff";

/// The two hexadecimal digits of a byte, in lower case.
pub fn digits(byte: u8) -> [u8; 2]
    ensures { result ≡ spec.hex_byte byte }
{
    let at = 2 * byte as usize;
    [DIGITS[at], DIGITS[at + 1]]
}

/// The two digits of each byte more.
fn append_hexadecimal<const N: usize>(bytes: &[u8], text: &mut ArrayVec<u8, N>)
    requires { length text.old.items + 2 * length bytes.now ≤ N }
    ensures text { text.new.items ≡ text.old.items ++ flat_map spec.hex_byte bytes.now }
    ensures size { length text.new.items ≡ length text.old.items + 2 * length bytes.now }
{
    for byte in bytes {
        let [high, low] = digits(*byte);
        text.push(high);
        text.push(low);
    }
}

/// The number that the bytes are, the highest first.
pub fn number(bytes: &[u8]) -> u64
    requires { length bytes.now ≤ 8 }
    ensures value { result ≡ number_of (reverse bytes.now) }
    ensures small { result < 256 ^ length bytes.now }
{
    let mut number = 0;
    for byte in bytes {
        number = number * 256 + u64::from(*byte);
    }
    number
}

/// A decimal more.
fn append_decimal<const N: usize>(number: u64, text: &mut ArrayVec<u8, N>)
    requires { length text.old.items + 20 ≤ N }
    ensures text { text.new.items ≡ text.old.items ++ decimal number }
    ensures size { length text.new.items ≤ length text.old.items + 20 }
{
    let mut buffer = Buffer::new();
    append(buffer.format(number).as_bytes(), text);
}

/// The highest number of so many bytes.
pub fn highest(size: usize) -> u64
    requires { IsUnit size }
    ensures bits { result + 1 ≡ 2 ^ (8 * size) }
    ensures bytes { result + 1 ≡ 256 ^ size }
{
    match size {
        2 => u64::from(u16::MAX),
        4 => u64::from(u32::MAX),
        8 => u64::MAX,
        _ => u64::from(u8::MAX),
    }
}

/// A number more whose highest bit is the sign.
fn append_signed<const N: usize>(unit: &[u8], text: &mut ArrayVec<u8, N>)
    requires room { length text.old.items + 21 ≤ N }
    requires unit { IsUnit (length unit.now) }
    ensures text { text.new.items ≡ text.old.items
        ++ spec.signed_text (length unit.now) (number_of (reverse unit.now)) }
    ensures size { length text.new.items ≤ length text.old.items + 21 }
{
    let number = number(unit);
    let highest = highest(unit.len());
    if number <= highest / 2 {
        append_decimal(number, text);
    } else {
        text.push(b'-');
        append_decimal(highest - number + 1, text);
    }
}

/// A tag more.
fn append_tag<const N: usize>(unit: &[u8], text: &mut ArrayVec<u8, N>)
    requires room { length text.old.items + 11 ≤ N }
    requires unit { length unit.now ≡ 4 }
    ensures text { text.new.items ≡ text.old.items ++ high.high_text Kind.Tags unit.now }
    ensures size { length text.new.items ≤ length text.old.items + 11 }
{
    let (group, element) = unit.split_at(2);
    let tag = Tag {
        group: number(group) as u16,
        element: number(element) as u16,
    };
    append(&tag.text(), text);
}

/// A unit more.
pub fn append_unit<const N: usize>(kind: Kind, unit: &[u8], text: &mut ArrayVec<u8, N>)
    requires room { length text.old.items + 23 ≤ N }
    requires unit { IsUnit (length unit.now) }
    requires tags { kind ≡ Kind.Tags → length unit.now ≡ 4 }
    ensures text { text.new.items ≡ text.old.items ++ high.high_text kind unit.now }
    ensures size { length text.new.items ≤ length text.old.items + 23 }
{
    match kind {
        Kind::Unsigned => append_decimal(number(unit), text),
        Kind::Signed => append_signed(unit, text),
        Kind::Tags => append_tag(unit, text),
        Kind::Hexadecimal => append_hexadecimal(unit, text),
    }
}

/// Units of K bytes more, each after a backslash.
fn append_sized<const K: usize, const N: usize>(
    kind: Kind,
    units: &[u8],
    text: &mut ArrayVec<u8, N>,
)
    requires size { IsUnit K }
    requires tags { kind ≡ Kind.Tags → K ≡ 4 }
    requires room { length text.old.items + LONGEST * (length units.now / K) ≤ N }
    ensures text { text.new.items ≡ text.old.items ++ high.separated (high.high_text kind) (units_of K units.now) }
    ensures size { length text.new.items ≤ length text.old.items + LONGEST * (length units.now / K) }
{
    for at in 0..units.len() / K {
        text.push(b'\\');
        append_unit(kind, &units[K * at..K * at + K], text);
    }
}

/// Units of K bytes more in hexadecimal, each after a backslash.
fn append_hexadecimals<const K: usize, const N: usize>(units: &[u8], text: &mut ArrayVec<u8, N>)
    requires size { IsUnit K }
    requires room { length text.old.items + LONGEST * (length units.now / K) ≤ N }
    ensures text { text.new.items ≡ text.old.items
        ++ high.separated (high.high_text Kind.Hexadecimal) (units_of K units.now) }
    ensures size { length text.new.items ≤ length text.old.items + LONGEST * (length units.now / K) }
{
    for at in 0..units.len() / K {
        text.push(b'\\');
        append_hexadecimal(&units[K * at..K * at + K], text);
    }
}

/// The units of a value of this kind more, each after a backslash.
fn append_high<const N: usize>(kind: Kind, size: usize, units: &[u8], text: &mut ArrayVec<u8, N>)
    requires size { IsUnit size }
    requires tags { kind ≡ Kind.Tags → size ≡ 4 }
    requires room { length text.old.items + LONGEST * (length units.now / size) ≤ N }
    ensures text { text.new.items ≡ text.old.items ++ high.separated (high.high_text kind) (units_of size units.now) }
    ensures size { length text.new.items ≤ length text.old.items + LONGEST * (length units.now / size) }
{
    match (kind, size) {
        (Kind::Hexadecimal, 2) => append_hexadecimals::<2, N>(units, text),
        (Kind::Hexadecimal, 4) => append_hexadecimals::<4, N>(units, text),
        (Kind::Hexadecimal, 8) => append_hexadecimals::<8, N>(units, text),
        (Kind::Hexadecimal, _) => append_hexadecimals::<1, N>(units, text),
        (_, 2) => append_sized::<2, N>(kind, units, text),
        (_, 4) => append_sized::<4, N>(kind, units, text),
        (_, 8) => append_sized::<8, N>(kind, units, text),
        (_, _) => append_sized::<1, N>(kind, units, text),
    }
}

/// The most units that become text at a time. With 128 of them a block has at most 1,024 bytes and a text of 3,072, so
/// that both stay in the nearest cache, while what a call of the writer costs is shared by many.
pub const BLOCK: usize = 128;

/// The most bytes of a block of units.
pub const BLOCK_BYTES: usize = LONGEST_UNIT * BLOCK;

/// Room for the text of a block of units.
pub const BLOCK_TEXT: usize = LONGEST * BLOCK;

/// Units that are few. Their buffers are blanked in a few steps, where those of a block take longer than the units.
/// With ten they are of 80 and 240 bytes, which are 5 and 15 stores of sixteen, and a matrix of three by three is few.
pub const FEW: usize = 10;

/// The most bytes of few units.
const FEW_BYTES: usize = LONGEST_UNIT * FEW;

/// Room for the text of few units.
pub const FEW_TEXT: usize = LONGEST * FEW;

/// The units of a little endian value more, each after a backslash. They are turned in a block.
fn append_turned<const N: usize>(vr: Vr, units: &[u8], block: &mut [u8], text: &mut ArrayVec<u8, N>)
    requires room { length text.old.items + LONGEST * (length units.now / spec.shown_unit vr) ≤ N }
    requires block { length units.now ≤ length block.old }
    ensures text { text.new.items ≡ text.old.items ++ high.separated (high.high_text (high.kind_of (spec.shape vr)))
        (units_of (spec.shown_unit vr) (turned (unit vr) units.now)) }
    ensures size { length text.new.items ≤ length text.old.items + LONGEST * (length units.now / spec.shown_unit vr) }
{
    let high = &mut block[..units.len()];
    high.copy_from_slice(units);
    swap(vr.unit(), high);
    append_high(kind_of(vr), shown_unit(vr), high, text);
}

/// The units of a value more, each after a backslash. They come in the order of the syntax.
pub fn append_units<const N: usize>(
    vr: Vr,
    syntax: Syntax,
    units: &[u8],
    text: &mut ArrayVec<u8, N>,
)
    requires room { length text.old.items + LONGEST * (length units.now / spec.shown_unit vr) ≤ N }
    requires few { length units.now ≤ BLOCK * spec.shown_unit vr }
    ensures text { text.new.items ≡ text.old.items
        ++ high.separated (high.one_text vr syntax) (units_of (spec.shown_unit vr) units.now) }
    ensures size { length text.new.items ≤ length text.old.items + LONGEST * (length units.now / spec.shown_unit vr) }
{
    if syntax.is_big() || vr.unit() == 1 {
        append_high(kind_of(vr), shown_unit(vr), units, text);
        return;
    }
    if units.len() <= FEW_BYTES {
        let mut block = [0; FEW_BYTES];
        append_turned(vr, units, &mut block, text);
        return;
    }
    let mut block = [0; BLOCK_BYTES];
    append_turned(vr, units, &mut block, text);
}

/// A unit of a value as it is shown.
pub fn unit_text(vr: Vr, syntax: Syntax, unit: &[u8]) -> ArrayVec<u8, LONGEST>
    requires { length unit.now ≡ spec.shown_unit vr }
    ensures { result.items ≡ high.one_text vr syntax unit.now }
{
    let mut text = ArrayVec::new();
    append_units(vr, syntax, unit, &mut text);
    let _ = text.remove(0);
    text
}
