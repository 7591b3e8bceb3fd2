// Strings of JSON (RFC 8259, section 7), written in pieces.
ghost use Rattle.std.specs.Prelude.{◌≡◌, ◌≤◌, ◌∷◌, [], ◌++◌, ◌/◌, ◌%◌, ◌==◌, if◌then◌else◌, length, not, position};
ghost use Rattle.dcm_devices.specs.Writing.{Wrote};
ghost use Rattle.dcm_json.specs.Escaped.{is_plain_byte, lowest_of_sixteen, plain_size};
ghost use Rattle.json.specs.Print.{escape, escape_byte, escape_letter};

use dcm_base::{DeviceOut, Watched, WriteFailed, put_all};
use dcm_value::byte_digits;
use std::simd::prelude::*;

/// The bytes of a string that are looked at together.
const LANES: usize = 16;

const QUOTE: u8 = b'"';

const BACKSLASH: u8 = b'\\';

/// The first byte that is no control.
const SPACE: u8 = b' ';

/// Whether a byte stands in a string as it is: all but controls, `"` and `\` do.
fn is_plain(byte: u8) -> bool
    ensures { result ≡ is_plain_byte byte }
{
    byte >= SPACE && byte != QUOTE && byte != BACKSLASH
}

/// The place of the lowest bit that is set, of sixteen, or sixteen.
#[inline(always)]
fn lowest_set(bits: u64) -> usize
    ensures { result ≡ lowest_of_sixteen bits }
{
    if bits == 0 {
        LANES
    } else {
        bits.trailing_zeros() as usize
    }
}

/// How many of sixteen bytes in front stand as they are. They are compared together, and one mask tells the first other
/// one.
#[inline(always)]
fn plain_of_sixteen(bytes: u8x16) -> usize
    ensures value { result ≡ plain_size bytes }
    ensures most { result ≤ 16 }
{
    let controls = bytes.simd_lt(u8x16::splat(SPACE));
    let escaped = bytes.simd_eq(u8x16::splat(QUOTE)) | bytes.simd_eq(u8x16::splat(BACKSLASH));
    let others = controls | escaped;
    lowest_set(others.to_bitmask())
}

/// The place of the first byte that is escaped.
fn escaped_byte(bytes: &[u8]) -> Option<usize>
    ensures { result ≡ position (λ b. not (is_plain_byte b)) bytes.now }
{
    bytes.iter().position(|byte| !is_plain(*byte))
}

/// The same as `plain_front`, byte by byte.
fn plain_front_singly(bytes: &[u8]) -> usize
    ensures value { result ≡ plain_size bytes.now }
    ensures most { result ≤ length bytes.now }
{
    match escaped_byte(bytes) {
        Some(at) => at,
        None => bytes.len(),
    }
}

/// How many bytes in front stand as they are. Sixteen are looked at together.
fn plain_front(bytes: &[u8]) -> usize
    ensures value { result ≡ plain_size bytes.now }
    ensures most { result ≤ length bytes.now }
{
    let blocks = bytes.len() / LANES;
    for block in 0..blocks {
        let size = plain_of_sixteen(u8x16::from_slice(&bytes[LANES * block..]));
        if size < LANES {
            return LANES * block + size;
        }
    }
    let (_, rest) = bytes.split_at(LANES * blocks);
    LANES * blocks + plain_front_singly(rest)
}

/// The letter of a byte's short escape, or 0 where it has none.
fn letter_of(byte: u8) -> u8
    ensures { result ≡ escape_letter byte }
{
    match byte {
        QUOTE | BACKSLASH => byte,
        0x08 => b'b',
        0x0C => b'f',
        b'\n' => b'n',
        b'\r' => b'r',
        b'\t' => b't',
        _ => 0,
    }
}

/// Writes a byte of a string: a letter behind `\`, or the number of another control behind `\u`, or the byte as it is.
fn put_byte<W: DeviceOut>(byte: u8, out: &mut Watched<W>) -> Result<(), WriteFailed>
    ensures { Wrote W.DeviceOut out.old out.new (escape_byte byte) result }
{
    let letter = letter_of(byte);
    if letter != 0 {
        return put_all(out, &[BACKSLASH, letter]);
    }
    if byte >= SPACE {
        return put_all(out, &[byte]);
    }
    let [high, low] = byte_digits(byte);
    put_all(out, &[BACKSLASH, b'u', b'0', b'0', high, low])
}

/// Writes bytes of a string as they stand between its quotes: `"`, `\` and controls escaped, as shortly as JSON has it.
/// Bytes in any pieces come to what they are together. A run of bytes that stand as they are is looked over sixteen
/// bytes at a time and goes out by one call, so that most texts are one call. Fails where the writer fails, which has
/// then taken a beginning.
pub fn put_escaped<W: DeviceOut>(bytes: &[u8], out: &mut Watched<W>) -> Result<(), WriteFailed>
    ensures { Wrote W.DeviceOut out.old out.new (escape bytes.now) result }
{
    let mut rest = bytes;
    while !rest.is_empty() {
        let (run, after) = rest.split_at(plain_front(rest));
        put_all(out, run)?;
        let Some((first, behind)) = after.split_first() else {
            return Ok(());
        };
        put_byte(*first, out)?;
        rest = behind;
    }
    Ok(())
}
