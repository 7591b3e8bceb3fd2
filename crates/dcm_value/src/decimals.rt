// Numbers as decimals, many at a time.
ghost use Rattle.std.specs.Prelude.{◌≡◌, ◌<◌, ◌≤◌, ◌+◌, ◌*◌, ◌/◌, ◌^◌, ◌∷◌, ◌++◌, decimal, length, take};
ghost use Rattle.dcm_value.specs.Numbers.{number_in, numbers, shown_number};
ghost use Rattle.dcm_value.specs.Swap.{IsUnit};

use crate::units::{LONGEST, highest};
use byteorder::{BigEndian, ByteOrder, LittleEndian};
use itoa::write_digits;

/// The first number of more than four digits. So many digits are counted at a time.
const FOUR_DIGITS: u64 = 10_000;

/// The number that K bytes are, in the order of the syntax. They need not be turned before.
#[inline(always)]
fn number<const K: usize>(is_big: bool, bytes: &[u8]) -> u64
    requires unit { IsUnit K }
    requires whole { length bytes.now ≡ K }
    ensures value { result ≡ number_in is_big bytes.now }
    ensures small { result < 256 ^ K }
{
    match (K, is_big) {
        (2, false) => u64::from(LittleEndian::read_u16(bytes)),
        (2, true) => u64::from(BigEndian::read_u16(bytes)),
        (4, false) => u64::from(LittleEndian::read_u32(bytes)),
        (4, true) => u64::from(BigEndian::read_u32(bytes)),
        (8, false) => LittleEndian::read_u64(bytes),
        (8, true) => BigEndian::read_u64(bytes),
        (_, _) => u64::from(bytes[0]),
    }
}

/// How many digits a number of at most four has.
#[inline(always)]
fn few_digits(number: u64) -> usize
    requires { number < FOUR_DIGITS }
    ensures { result ≡ length (decimal number) }
{
    match number {
        0..=9 => 1,
        10..=99 => 2,
        100..=999 => 3,
        _ => 4,
    }
}

/// How many digits a number has.
#[inline(always)]
fn digits(number: u64) -> usize
    ensures { result ≡ length (decimal number) }
{
    let mut left = number;
    let mut digits = 0;
    while left >= FOUR_DIGITS {
        left /= FOUR_DIGITS;
        digits += 4;
    }
    digits + few_digits(left)
}

/// Writes a number at this place of a text, and returns where it ends. Its digits are counted first, so that they are
/// written where they stay: to copy them would be to wait for them, since no load takes the bytes of several stores.
#[inline(always)]
fn write_decimal(number: u64, text: &mut [u8], at: usize) -> usize
    requires { at + 20 ≤ length text.old }
    ensures text { take result text.new ≡ take at text.old ++ decimal number }
    ensures within { result ≤ at + 20 }
    ensures size { length text.new ≡ length text.old }
{
    let end = at + digits(number);
    write_digits(number, text, end);
    end
}

/// Writes a backslash and a number of so many bytes, as `write_decimal` does. A minus sign is always written, and a
/// number without one over it: no processor foresees which numbers of a list are below zero, and a branch that is
/// guessed wrong takes as long as the digits.
#[inline(always)]
fn write_number(is_signed: bool, size: usize, number: u64, text: &mut [u8], at: usize) -> usize
    requires unit { IsUnit size }
    requires small { number < 256 ^ size }
    requires room { at + LONGEST ≤ length text.old }
    ensures text { take result text.new ≡ take at text.old ++ (92 ∷ shown_number is_signed size number) }
    ensures within { result ≤ at + LONGEST }
    ensures size { length text.new ≡ length text.old }
{
    let highest = highest(size);
    let is_negative = is_signed && number > highest / 2;
    let shown = if is_negative {
        highest - number + 1
    } else {
        number
    };
    text[at] = b'\\';
    text[at + 1] = b'-';
    write_decimal(shown, text, at + 1 + usize::from(is_negative))
}

/// Writes numbers of K bytes, as `write_numbers` does.
fn write_sized<const K: usize>(
    is_signed: bool,
    is_big: bool,
    units: &[u8],
    text: &mut [u8],
) -> usize
    requires unit { IsUnit K }
    requires room { LONGEST * (length units.now / K) ≤ length text.old }
    ensures text { take result text.new ≡ numbers is_signed is_big K units.now }
    ensures within { result ≤ LONGEST * (length units.now / K) }
    ensures size { length text.new ≡ length text.old }
{
    let mut end = 0;
    for at in 0..units.len() / K {
        let number = number::<K>(is_big, &units[K * at..K * at + K]);
        end = write_number(is_signed, K, number, text, end);
    }
    end
}

/// Writes the whole units of some bytes as decimals at the front of a text, each after a backslash, and returns where
/// they end. What stands behind them has no meaning. Each number is read as it stands and written where it stays, up
/// to four digits at a time: nothing is turned or copied, and nothing blanked for a number.
pub fn write_numbers(
    is_signed: bool,
    is_big: bool,
    size: usize,
    units: &[u8],
    text: &mut [u8],
) -> usize
    requires unit { IsUnit size }
    requires room { LONGEST * (length units.now / size) ≤ length text.old }
    ensures text { take result text.new ≡ numbers is_signed is_big size units.now }
    ensures within { result ≤ LONGEST * (length units.now / size) }
    ensures size { length text.new ≡ length text.old }
{
    match size {
        2 => write_sized::<2>(is_signed, is_big, units, text),
        4 => write_sized::<4>(is_signed, is_big, units, text),
        8 => write_sized::<8>(is_signed, is_big, units, text),
        _ => write_sized::<1>(is_signed, is_big, units, text),
    }
}
