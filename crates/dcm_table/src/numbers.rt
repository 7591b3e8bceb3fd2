// Numbers and tags in a cell.
ghost use Rattle.std.specs.Prelude.{◌≡◌, ◌<◌, ◌^◌, ◌∷◌, [], length};
ghost use Rattle.std.specs.Float.{binary32, binary64};
ghost use Rattle.dcm_base.specs.Dump.ValueText.{shown_unit};
ghost use Rattle.dcm_base.specs.Tree.Value.{number_of, units as units_of};
ghost use Rattle.dcm_table.specs.Parts as parts;
ghost use Rattle.dcm_table.specs.Row as spec;
ghost use lib.Ieee.{nan_bits};

use dcm_base::{DeviceOut, Syntax, Vr, Watched, WriteFailed, put_all};
use dcm_value::{shown_unit, unit_text};
use ryu::Buffer;

/// Of the 32 bits of a float (IEEE 754 3.4): what the sign counts, what the lowest bit of the exponent counts, and the
/// exponent whose bits are all ones, which is of no number, or of an infinity.
const SIGN_SINGLE: u32 = 0x8000_0000;

const EXPONENT_SINGLE: u32 = 0x80_0000;

const ONES_SINGLE: u32 = 255;

/// The same of 64 bits.
const SIGN_DOUBLE: u64 = 0x8000_0000_0000_0000;

const EXPONENT_DOUBLE: u64 = 0x10_0000_0000_0000;

const ONES_DOUBLE: u64 = 2047;

/// The number of four bytes, the lowest first.
fn number_of_four(bytes: &[u8]) -> u32
    requires { length bytes.now ≡ 4 }
    ensures { result ≡ number_of bytes.now }
{
    u32::from_le_bytes([bytes[0], bytes[1], bytes[2], bytes[3]])
}

/// The number of eight bytes, the lowest first.
fn number_of_eight(bytes: &[u8]) -> u64
    requires { length bytes.now ≡ 8 }
    ensures { result ≡ number_of bytes.now }
{
    u64::from_le_bytes([
        bytes[0], bytes[1], bytes[2], bytes[3], bytes[4], bytes[5], bytes[6], bytes[7],
    ])
}

/// Whether these are the bits of no number.
fn is_nan_single(bits: u32) -> bool
    ensures { result ≡ nan_bits binary32 bits }
{
    bits % SIGN_SINGLE / EXPONENT_SINGLE == ONES_SINGLE && bits % EXPONENT_SINGLE != 0
}

/// Whether these are the bits of no number.
fn is_nan_double(bits: u64) -> bool
    ensures { result ≡ nan_bits binary64 bits }
{
    bits % SIGN_DOUBLE / EXPONENT_DOUBLE == ONES_DOUBLE && bits % EXPONENT_DOUBLE != 0
}

/// Writes a float of four bytes.
fn put_single<W: DeviceOut>(bits: u32, out: &mut Watched<W>) -> Result<(), WriteFailed>
    ensures { parts.WroteParts W.DeviceOut out.old out.new (parts.float_part parts.single bits ∷ []) result }
{
    if is_nan_single(bits) {
        return put_all(out, b"NaN");
    }
    let mut buffer = Buffer::new();
    put_all(out, buffer.format(f32::from_bits(bits)).as_bytes())
}

/// Writes a float of eight bytes.
fn put_double<W: DeviceOut>(bits: u64, out: &mut Watched<W>) -> Result<(), WriteFailed>
    ensures { parts.WroteParts W.DeviceOut out.old out.new (parts.float_part parts.double bits ∷ []) result }
{
    if is_nan_double(bits) {
        return put_all(out, b"NaN");
    }
    let mut buffer = Buffer::new();
    put_all(out, buffer.format(f64::from_bits(bits)).as_bytes())
}

/// Writes a whole unit, which is in little endian order.
fn put_unit<W: DeviceOut>(vr: Vr, unit: &[u8], out: &mut Watched<W>) -> Result<(), WriteFailed>
    requires { length unit.now ≡ shown_unit vr }
    ensures { parts.WroteParts W.DeviceOut out.old out.new (spec.unit_part vr unit.now ∷ []) result }
{
    match vr {
        Vr::FL => put_single(number_of_four(unit), out),
        Vr::FD => put_double(number_of_eight(unit), out),
        _ => put_all(out, unit_text(vr, Syntax::LITTLE, unit).as_slice()),
    }
}

/// Writes a unit after a backslash.
fn put_next_unit<W: DeviceOut>(vr: Vr, unit: &[u8], out: &mut Watched<W>) -> Result<(), WriteFailed>
    requires { length unit.now ≡ shown_unit vr }
    ensures { parts.WroteParts W.DeviceOut out.old out.new (spec.next_unit_parts vr unit.now) result }
{
    put_all(out, b"\\")?;
    put_unit(vr, unit, out)
}

/// Writes the whole units of a value with backslashes between.
fn put_joined<W: DeviceOut>(vr: Vr, value: &[u8], out: &mut Watched<W>) -> Result<(), WriteFailed>
    ensures { parts.WroteParts W.DeviceOut out.old out.new
        (spec.joined vr (units_of (shown_unit vr) value.now)) result }
{
    let size = shown_unit(vr);
    if value.len() < size {
        return Ok(());
    }
    let (first, others) = value.split_at(size);
    put_unit(vr, first, out)?;
    put_others(vr, others, out)
}

/// Writes the whole units of a value, each after a backslash.
fn put_others<W: DeviceOut>(vr: Vr, value: &[u8], out: &mut Watched<W>) -> Result<(), WriteFailed>
    ensures { parts.WroteParts W.DeviceOut out.old out.new
        (spec.next_units_parts vr (units_of (shown_unit vr) value.now)) result }
{
    let size = shown_unit(vr);
    let mut rest = value;
    while rest.len() >= size {
        let (unit, after) = rest.split_at(size);
        put_next_unit(vr, unit, out)?;
        rest = after;
    }
    Ok(())
}

/// Writes the whole units of a value in double quotes.
fn put_quoted_units<W: DeviceOut>(
    vr: Vr,
    value: &[u8],
    out: &mut Watched<W>,
) -> Result<(), WriteFailed>
    ensures { parts.WroteParts W.DeviceOut out.old out.new
        (spec.quoted_units vr (units_of (shown_unit vr) value.now)) result }
{
    put_all(out, b"\"")?;
    put_joined(vr, value, out)?;
    put_all(out, b"\"")
}

/// Whether so many numbers or tags of a value are written in double quotes: one number is not.
fn is_quoted_list(vr: Vr, count: usize) -> bool
    ensures { result ≡ spec.is_quoted_list vr count }
{
    matches!(vr, Vr::AT) || count != 1
}

/// Writes the numbers or tags of a value, which is in little endian order, with backslashes between.
pub fn put_units<W: DeviceOut>(
    vr: Vr,
    value: &[u8],
    out: &mut Watched<W>,
) -> Result<(), WriteFailed>
    ensures { parts.WroteParts W.DeviceOut out.old out.new (spec.numbers_parts vr value.now) result }
{
    let size = shown_unit(vr);
    if is_quoted_list(vr, value.len() / size) {
        put_quoted_units(vr, value, out)
    } else {
        put_joined(vr, value, out)
    }
}
