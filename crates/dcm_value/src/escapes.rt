// The bytes of a text as a dump shows them.
ghost use Rattle.std.specs.Prelude.{◌≡◌, ◌<◌, ◌≤◌, ◌+◌, ◌*◌, ◌++◌, ◌/◌, ◌%◌, ◌==◌, ◌&&◌, if◌then◌else◌, [], ◌∷◌};
ghost use Rattle.std.specs.Prelude.{length, take, not, nat_lt, position};
ghost use Rattle.dcm_base.specs.Dump.ValueText as spec;
ghost use Rattle.dcm_value.specs.Plain.{is_plain_byte, is_ascii_byte, ascii_size, plain_size, lowest_of_sixteen};
ghost use Rattle.std.specs.List.{list_all, list_any};

use arrayvec::ArrayVec;
use dcm_text::ascii_of_eight;
use std::simd::prelude::*;

/// The bytes of a short text that are looked at together, as most texts are.
pub const TEXT_LANES: usize = 8;

/// The bytes of a long text that are looked at together: as many as a mask has bits.
pub const WIDE_LANES: usize = 64;

/// The bytes of a text that is not plain that are stored together.
const STORED_LANES: usize = 16;

/// The last byte of ASCII that is no control: `~`.
const LAST_ASCII: u8 = 126;

/// The two digits of a byte, in upper case.
fn upper_digits(byte: u8) -> [u8; 2]
    ensures { result ≡ spec.upper (byte / 16) ∷ spec.upper (byte % 16) ∷ [] }
{
    let mut digits = [0; 2];
    let _ = hex::encode_to_slice([byte], &mut digits);
    let [high, low] = digits;
    [high.to_ascii_uppercase(), low.to_ascii_uppercase()]
}

/// Whether a byte of a text is shown as it is: all but controls, `%` and `]` are.
fn is_plain(byte: u8) -> bool
    ensures { result ≡ is_plain_byte byte }
{
    byte >= 32 && byte != 127 && byte != b'%' && byte != b']'
}

/// Whether a control is among some bytes.
#[inline(always)]
fn has_control<const LANES: usize>(bytes: Simd<u8, LANES>) -> bool
    requires { LANES ≤ 64 }
    ensures { result ≡ list_any (λ b. nat_lt b 32) bytes.entry }
{
    bytes.simd_lt(Simd::splat(32)).to_bitmask() != 0
}

/// Whether this byte is among some bytes.
#[inline(always)]
fn has_byte<const LANES: usize>(bytes: Simd<u8, LANES>, byte: u8) -> bool
    requires { LANES ≤ 64 }
    ensures { result ≡ list_any (λ b. b == byte) bytes.entry }
{
    bytes.simd_eq(Simd::splat(byte)).to_bitmask() != 0
}

/// Whether one of some bytes of a text is not shown as it is.
#[inline(always)]
fn has_escapes<const LANES: usize>(bytes: Simd<u8, LANES>) -> bool
    requires { LANES ≤ 64 }
    ensures { result ≡ not (list_all is_plain_byte bytes.entry) }
{
    has_control(bytes) | has_byte(bytes, 127) | has_byte(bytes, b'%') | has_byte(bytes, b']')
}

/// Whether a text is shown as it is, byte by byte.
fn is_plain_singly(bytes: &[u8]) -> bool
    ensures { result ≡ list_all is_plain_byte bytes.now }
{
    bytes.iter().all(|byte| is_plain(*byte))
}

/// Whether a text is shown as it is. Of a long one 64 bytes are looked at together.
pub fn is_plain_text(bytes: &[u8]) -> bool
    ensures { result ≡ list_all is_plain_byte bytes.now }
{
    if bytes.len() < WIDE_LANES {
        return is_plain_short(bytes);
    }
    let (blocks, rest) = bytes.split_at(bytes.len() - bytes.len() % WIDE_LANES);
    are_plain_blocks(blocks) && is_plain_short(rest)
}

/// The same of whole blocks of 64 bytes.
fn are_plain_blocks(bytes: &[u8]) -> bool
    requires { length bytes.now % 64 ≡ 0 }
    ensures { result ≡ list_all is_plain_byte bytes.now }
{
    for block in 0..bytes.len() / WIDE_LANES {
        if has_escapes(u8x64::from_slice(&bytes[WIDE_LANES * block..])) {
            return false;
        }
    }
    true
}

/// The same of a short text. Eight bytes are looked at together. The last eight are so too, some of them for the second
/// time, since up to seven one by one take longer.
fn is_plain_short(bytes: &[u8]) -> bool
    ensures { result ≡ list_all is_plain_byte bytes.now }
{
    if bytes.len() < TEXT_LANES {
        return is_plain_singly(bytes);
    }
    let blocks = (bytes.len() - 1) / TEXT_LANES;
    for block in 0..blocks {
        if has_escapes(u8x8::from_slice(&bytes[TEXT_LANES * block..])) {
            return false;
        }
    }
    let (_, last) = bytes.split_at(bytes.len() - TEXT_LANES);
    !has_escapes(u8x8::from_slice(last))
}

/// Whether a byte of a text is shown as it is by each Specific Character Set.
#[inline(always)]
pub fn is_ascii(byte: u8) -> bool
    ensures { result ≡ is_ascii_byte byte }
{
    byte >= 32 && byte <= LAST_ASCII && byte != b'%' && byte != b']'
}

/// Whether a byte above 7E is among some bytes.
#[inline(always)]
fn has_high<const LANES: usize>(bytes: Simd<u8, LANES>) -> bool
    requires { LANES ≤ 64 }
    ensures { result ≡ list_any (λ b. nat_lt 126 b) bytes.entry }
{
    bytes.simd_gt(Simd::splat(LAST_ASCII)).to_bitmask() != 0
}

/// Whether one of some bytes may not be shown as it is.
#[inline(always)]
fn has_others<const LANES: usize>(bytes: Simd<u8, LANES>) -> bool
    requires { LANES ≤ 64 }
    ensures { result ≡ not (list_all is_ascii_byte bytes.entry) }
{
    has_control(bytes) | has_high(bytes) | has_byte(bytes, b'%') | has_byte(bytes, b']')
}

/// The same as `is_plain_ascii`, byte by byte.
fn is_ascii_singly(bytes: &[u8]) -> bool
    ensures { result ≡ list_all is_ascii_byte bytes.now }
{
    bytes.iter().all(|byte| is_ascii(*byte))
}

/// Whether a text is shown as it is, whatever Specific Character Set is in force: its bytes are 20 to 7E, and no `%` or
/// `]`. As many bytes are looked at together as by `is_plain_text`.
pub fn is_plain_ascii(bytes: &[u8]) -> bool
    ensures { result ≡ list_all is_ascii_byte bytes.now }
{
    if bytes.len() < WIDE_LANES {
        return is_ascii_short(bytes);
    }
    let (blocks, rest) = bytes.split_at(bytes.len() - bytes.len() % WIDE_LANES);
    are_ascii_blocks(blocks) && is_ascii_short(rest)
}

/// The same of whole blocks of 64 bytes.
fn are_ascii_blocks(bytes: &[u8]) -> bool
    requires { length bytes.now % 64 ≡ 0 }
    ensures { result ≡ list_all is_ascii_byte bytes.now }
{
    for block in 0..bytes.len() / WIDE_LANES {
        if has_others(u8x64::from_slice(&bytes[WIDE_LANES * block..])) {
            return false;
        }
    }
    true
}

/// The same of a short text, as by `is_plain_short`.
fn is_ascii_short(bytes: &[u8]) -> bool
    ensures { result ≡ list_all is_ascii_byte bytes.now }
{
    if bytes.len() < TEXT_LANES {
        return is_ascii_singly(bytes);
    }
    let blocks = (bytes.len() - 1) / TEXT_LANES;
    for block in 0..blocks {
        if has_others(u8x8::from_slice(&bytes[TEXT_LANES * block..])) {
            return false;
        }
    }
    let (_, last) = bytes.split_at(bytes.len() - TEXT_LANES);
    !has_others(u8x8::from_slice(last))
}

/// The place of the first byte that may not be shown as it is.
fn other_byte(bytes: &[u8]) -> Option<usize>
    ensures { result ≡ position (λ b. not (is_ascii_byte b)) bytes.now }
{
    bytes.iter().position(|byte| !is_ascii(*byte))
}

/// The same as `ascii_front`, byte by byte.
fn ascii_front_singly(bytes: &[u8]) -> usize
    ensures value { result ≡ ascii_size bytes.now }
    ensures most { result ≤ length bytes.now }
{
    match other_byte(bytes) {
        Some(at) => at,
        None => bytes.len(),
    }
}

/// How many bytes in front are shown as they are, whatever Specific Character Set is in force. Eight bytes are looked
/// at together.
pub fn ascii_front(bytes: &[u8]) -> usize
    ensures value { result ≡ ascii_size bytes.now }
    ensures most { result ≤ length bytes.now }
{
    let blocks = bytes.len() / TEXT_LANES;
    for block in 0..blocks {
        let size = ascii_of_eight(u8x8::from_slice(&bytes[TEXT_LANES * block..]));
        if size < TEXT_LANES {
            return TEXT_LANES * block + size;
        }
    }
    let (_, rest) = bytes.split_at(TEXT_LANES * blocks);
    TEXT_LANES * blocks + ascii_front_singly(rest)
}

/// A byte of a text as a dump shows it: a control, `%` and `]` by `%` and two digits in upper case, and each other byte
/// as it is.
pub fn escape(byte: u8) -> ArrayVec<u8, 3>
    ensures { result.items ≡ spec.escape byte }
{
    let mut shown = ArrayVec::new();
    append_escaped(byte, &mut shown);
    shown
}

/// One byte more.
fn append_escaped<const N: usize>(byte: u8, text: &mut ArrayVec<u8, N>)
    requires { length text.old.items + 3 ≤ N }
    ensures items { text.new.items ≡ text.old.items ++ spec.escape byte }
    ensures len { length text.new.items ≤ length text.old.items + 3 }
{
    if is_plain(byte) {
        text.push(byte);
    } else {
        let [high, low] = upper_digits(byte);
        text.push(b'%');
        text.push(high);
        text.push(low);
    }
}

/// Writes a byte of a text at this place, as `append_escaped` shows it, and returns where it ends.
#[inline(always)]
fn write_escaped(byte: u8, text: &mut [u8], at: usize) -> usize
    requires { at + 3 ≤ length text.old }
    ensures text { take result text.new ≡ take at text.old ++ spec.escape byte }
    ensures within { result ≤ at + 3 }
    ensures size { length text.new ≡ length text.old }
{
    if is_plain(byte) {
        text[at] = byte;
        return at + 1;
    }
    let [high, low] = upper_digits(byte);
    text[at] = b'%';
    text[at + 1] = high;
    text[at + 2] = low;
    at + 3
}

/// The same of some bytes, one by one.
fn write_singly(bytes: &[u8], text: &mut [u8], at: usize) -> usize
    requires { at + 3 * length bytes.now ≤ length text.old }
    ensures text { take result text.new ≡ take at text.old ++ spec.escaped bytes.now }
    ensures within { result ≤ at + 3 * length bytes.now }
    ensures size { length text.new ≡ length text.old }
{
    let mut end = at;
    for byte in bytes {
        end = write_escaped(*byte, text, end);
    }
    end
}

/// The place of the lowest bit that is set, of sixteen, or sixteen.
#[inline(always)]
fn lowest_set(bits: u64) -> usize
    ensures { result ≡ lowest_of_sixteen bits }
{
    if bits == 0 {
        STORED_LANES
    } else {
        bits.trailing_zeros() as usize
    }
}

/// How many of sixteen bytes in front are shown as they are. They are compared together, and one mask tells the first
/// other one.
#[inline(always)]
fn plain_of_sixteen(bytes: u8x16) -> usize
    ensures value { result ≡ plain_size bytes }
    ensures most { result ≤ 16 }
{
    let controls = bytes.simd_lt(u8x16::splat(32)) | bytes.simd_eq(u8x16::splat(127));
    let escaped = bytes.simd_eq(u8x16::splat(b'%')) | bytes.simd_eq(u8x16::splat(b']'));
    let others = controls | escaped;
    lowest_set(others.to_bitmask())
}

/// Writes some of at least sixteen bytes of a text at this place: those in front that are shown as they are, and one that
/// is not. Answers how many they are, and where their text ends. Sixteen bytes are stored by one move, and of these the
/// text goes on where the first ends that counts, so that no run is copied by a call and no byte is asked by itself.
#[inline(always)]
fn write_next(bytes: &[u8], text: &mut [u8], end: usize) -> (usize, usize)
    requires long { 16 ≤ length bytes.now }
    requires room { end + 48 ≤ length text.old }
    ensures some { 0 < result.0 }
    ensures few { result.0 ≤ 16 }
    ensures text { take result.1 text.new ≡ take end text.old ++ spec.escaped (take result.0 bytes.now) }
    ensures within { result.1 ≤ end + 3 * result.0 }
    ensures size { length text.new ≡ length text.old }
{
    let lanes = u8x16::from_slice(bytes);
    lanes.copy_to_slice(&mut text[end..]);
    let plain = plain_of_sixteen(lanes);
    if plain == STORED_LANES {
        return (plain, end + plain);
    }
    (plain + 1, write_escaped(bytes[plain], text, end + plain))
}

/// Writes bytes of a text at the front of a buffer, as a dump shows them, and returns where they end. What stands behind
/// them has no meaning.
pub fn write_text(bytes: &[u8], text: &mut [u8]) -> usize
    requires { 3 * length bytes.now ≤ length text.old }
    ensures text { take result text.new ≡ spec.escaped bytes.now }
    ensures within { result ≤ length text.old }
    ensures size { length text.new ≡ length text.old }
{
    let mut at = 0;
    let mut end = 0;
    while at + STORED_LANES <= bytes.len() {
        let (count, next) = write_next(&bytes[at..], text, end);
        at += count;
        end = next;
    }
    write_singly(&bytes[at..], text, end)
}
