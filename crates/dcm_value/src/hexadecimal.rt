// Units in hexadecimal, sixteen bytes at a time.
ghost use Rattle.std.specs.Prelude.{◌≡◌, ◌≤◌, ◌+◌, ◌*◌, ◌/◌, length, take, flat_map};
ghost use Rattle.dcm_base.specs.Dump.ValueText as spec;
ghost use Rattle.dcm_value.specs.Swap.{IsUnit};
ghost use Rattle.dcm_value.specs.Woven.{woven};

use std::simd::{u8x16, u8x32, u8x64};

/// The bytes that become hexadecimal text together: as many as one shuffle looks up in the sixteen digits.
pub const WOVEN_LANES: usize = 16;

const DIGITS: [u8; 16] = *b"0123456789abcdef";

// The first digit of each byte, then its second.
const IN_TURN: [usize; 32] = [
    0, 16, 1, 17, 2, 18, 3, 19, 4, 20, 5, 21, 6, 22, 7, 23, 8, 24, 9, 25, 10, 26, 11, 27, 12, 28,
    13, 29, 14, 30, 15, 31,
];

// Where the digits of units stand in a text: digit by digit, with a backslash, at 32, before each unit. What stands
// behind the last unit has no meaning.

const BYTES: [usize; 64] = [
    32, 0, 1, 32, 2, 3, 32, 4, 5, 32, 6, 7, 32, 8, 9, 32, 10, 11, 32, 12, 13, 32, 14, 15, 32, 16,
    17, 32, 18, 19, 32, 20, 21, 32, 22, 23, 32, 24, 25, 32, 26, 27, 32, 28, 29, 32, 30, 31, 32, 32,
    32, 32, 32, 32, 32, 32, 32, 32, 32, 32, 32, 32, 32, 32,
];

const BIG_PAIRS: [usize; 64] = [
    32, 0, 1, 2, 3, 32, 4, 5, 6, 7, 32, 8, 9, 10, 11, 32, 12, 13, 14, 15, 32, 16, 17, 18, 19, 32,
    20, 21, 22, 23, 32, 24, 25, 26, 27, 32, 28, 29, 30, 31, 32, 32, 32, 32, 32, 32, 32, 32, 32, 32,
    32, 32, 32, 32, 32, 32, 32, 32, 32, 32, 32, 32, 32, 32,
];

const LITTLE_PAIRS: [usize; 64] = [
    32, 2, 3, 0, 1, 32, 6, 7, 4, 5, 32, 10, 11, 8, 9, 32, 14, 15, 12, 13, 32, 18, 19, 16, 17, 32,
    22, 23, 20, 21, 32, 26, 27, 24, 25, 32, 30, 31, 28, 29, 32, 32, 32, 32, 32, 32, 32, 32, 32, 32,
    32, 32, 32, 32, 32, 32, 32, 32, 32, 32, 32, 32, 32, 32,
];

const BIG_FOURS: [usize; 64] = [
    32, 0, 1, 2, 3, 4, 5, 6, 7, 32, 8, 9, 10, 11, 12, 13, 14, 15, 32, 16, 17, 18, 19, 20, 21, 22,
    23, 32, 24, 25, 26, 27, 28, 29, 30, 31, 32, 32, 32, 32, 32, 32, 32, 32, 32, 32, 32, 32, 32, 32,
    32, 32, 32, 32, 32, 32, 32, 32, 32, 32, 32, 32, 32, 32,
];

const LITTLE_FOURS: [usize; 64] = [
    32, 6, 7, 4, 5, 2, 3, 0, 1, 32, 14, 15, 12, 13, 10, 11, 8, 9, 32, 22, 23, 20, 21, 18, 19, 16,
    17, 32, 30, 31, 28, 29, 26, 27, 24, 25, 32, 32, 32, 32, 32, 32, 32, 32, 32, 32, 32, 32, 32, 32,
    32, 32, 32, 32, 32, 32, 32, 32, 32, 32, 32, 32, 32, 32,
];

const BIG_EIGHTS: [usize; 64] = [
    32, 0, 1, 2, 3, 4, 5, 6, 7, 8, 9, 10, 11, 12, 13, 14, 15, 32, 16, 17, 18, 19, 20, 21, 22, 23,
    24, 25, 26, 27, 28, 29, 30, 31, 32, 32, 32, 32, 32, 32, 32, 32, 32, 32, 32, 32, 32, 32, 32, 32,
    32, 32, 32, 32, 32, 32, 32, 32, 32, 32, 32, 32, 32, 32,
];

const LITTLE_EIGHTS: [usize; 64] = [
    32, 14, 15, 12, 13, 10, 11, 8, 9, 6, 7, 4, 5, 2, 3, 0, 1, 32, 30, 31, 28, 29, 26, 27, 24, 25,
    22, 23, 20, 21, 18, 19, 16, 17, 32, 32, 32, 32, 32, 32, 32, 32, 32, 32, 32, 32, 32, 32, 32, 32,
    32, 32, 32, 32, 32, 32, 32, 32, 32, 32, 32, 32, 32, 32,
];

/// The two digits of each byte. One shuffle looks sixteen of them up.
#[inline(always)]
fn digits_of(bytes: u8x16) -> u8x32
    ensures { result ≡ flat_map spec.hex_byte bytes }
{
    let table = u8x16::from_array(DIGITS);
    let high = table.swizzle_dyn(bytes >> u8x16::splat(4));
    let low = table.swizzle_dyn(bytes & u8x16::splat(15));
    high.shuffle(low, IN_TURN)
}

/// Sixteen bytes as units of this size, each after a backslash.
#[inline(always)]
fn weave(size: usize, is_turned: bool, bytes: u8x16) -> u8x64
    requires { IsUnit size }
    ensures { take (32 + 16 / size) result ≡ woven size is_turned bytes }
{
    let digits = digits_of(bytes);
    let marks = u8x32::splat(b'\\');
    match (size, is_turned) {
        (2, false) => digits.shuffle(marks, BIG_PAIRS),
        (2, true) => digits.shuffle(marks, LITTLE_PAIRS),
        (4, false) => digits.shuffle(marks, BIG_FOURS),
        (4, true) => digits.shuffle(marks, LITTLE_FOURS),
        (8, false) => digits.shuffle(marks, BIG_EIGHTS),
        (8, true) => digits.shuffle(marks, LITTLE_EIGHTS),
        (_, _) => digits.shuffle(marks, BYTES),
    }
}

/// Writes the units of whole blocks of sixteen bytes at the front of a text, each after a backslash. What stands
/// behind them has no meaning: each block is stored as 64 bytes, and the next one begins where its text ends.
pub fn weave_blocks(size: usize, is_turned: bool, bytes: &[u8], text: &mut [u8])
    requires size { IsUnit size }
    requires whole { 16 * (length bytes.now / 16) ≡ length bytes.now }
    requires room { 3 * length bytes.now + 16 ≤ length text.old }
    ensures text { take (2 * length bytes.now + length bytes.now / size) text.new ≡ woven size is_turned bytes.now }
    ensures size { length text.new ≡ length text.old }
{
    match (size, is_turned) {
        (2, false) => weave_units::<2, false>(bytes, text),
        (2, true) => weave_units::<2, true>(bytes, text),
        (4, false) => weave_units::<4, false>(bytes, text),
        (4, true) => weave_units::<4, true>(bytes, text),
        (8, false) => weave_units::<8, false>(bytes, text),
        (8, true) => weave_units::<8, true>(bytes, text),
        (_, false) => weave_units::<1, false>(bytes, text),
        (_, true) => weave_units::<1, true>(bytes, text),
    }
}

/// The same for units of one size in one order, so that the loop asks for neither.
fn weave_units<const SIZE: usize, const IS_TURNED: bool>(bytes: &[u8], text: &mut [u8])
    requires size { IsUnit SIZE }
    requires whole { 16 * (length bytes.now / 16) ≡ length bytes.now }
    requires room { 3 * length bytes.now + 16 ≤ length text.old }
    ensures text { take (2 * length bytes.now + length bytes.now / SIZE) text.new ≡ woven SIZE IS_TURNED bytes.now }
    ensures size { length text.new ≡ length text.old }
{
    let step = 2 * WOVEN_LANES + WOVEN_LANES / SIZE;
    for block in 0..bytes.len() / WOVEN_LANES {
        let lanes = u8x16::from_slice(&bytes[WOVEN_LANES * block..]);
        weave(SIZE, IS_TURNED, lanes).copy_to_slice(&mut text[step * block..]);
    }
}
