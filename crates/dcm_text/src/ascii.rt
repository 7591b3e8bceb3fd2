//! Eight bytes of a text together.
ghost use Rattle.std.specs.Prelude.{◌≡◌};
ghost use Rattle.dcm_text.specs.Ascii.{ascii_size, lowest_of_eight};

use std::simd::prelude::*;

/// The bytes that are looked at together.
pub(crate) const LANES: usize = 8;

/// The last byte of ASCII that is no control: `~`.
const LAST_ASCII: u8 = 126;

/// The place of the lowest bit that is set, of eight, or eight.
#[inline(always)]
fn lowest_set(bits: u64) -> usize
    ensures { result ≡ lowest_of_eight bits }
{
    if bits == 0 {
        LANES
    } else {
        bits.trailing_zeros() as usize
    }
}

/// How many of eight bytes in front a dump shows as they are, whatever Specific Character Set is in force: those of
/// ASCII but controls, `%` and `]`. They are compared together, and one mask of eight bits tells the first other one.
#[inline(always)]
pub fn ascii_of_eight(bytes: u8x8) -> usize
    ensures { result ≡ ascii_size bytes }
{
    let controls = bytes.simd_lt(u8x8::splat(32));
    let high = bytes.simd_gt(u8x8::splat(LAST_ASCII));
    let escaped = bytes.simd_eq(u8x8::splat(b'%')) | bytes.simd_eq(u8x8::splat(b']'));
    let others = controls | high | escaped;
    lowest_set(others.to_bitmask())
}
