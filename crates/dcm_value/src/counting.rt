// How many backslashes a text has: they part its values (PS3.5 6.4).
ghost use Rattle.std.specs.Prelude.{◌≡◌, ◌<◌, ◌≤◌, ◌%◌, ◌==◌, length, drop, count_by};

use crate::escapes::{TEXT_LANES, WIDE_LANES};
use std::simd::prelude::*;

/// How many backslashes there are in some bytes.
#[inline(always)]
fn backslashes_in<const LANES: usize>(bytes: Simd<u8, LANES>) -> u32
    requires { LANES ≤ 64 }
    ensures count { result ≡ count_by (λ b. b == 92) bytes.entry }
    ensures bound { result ≤ LANES }
{
    bytes.simd_eq(Simd::splat(b'\\')).to_bitmask().count_ones()
}

/// How many backslashes there are, byte by byte.
fn backslashes_singly(bytes: &[u8]) -> usize
    ensures count { result ≡ count_by (λ b. b == 92) bytes.now }
    ensures bound { result ≤ length bytes.now }
{
    bytes.iter().filter(|byte| **byte == b'\\').count()
}

/// How many backslashes there are in eight bytes behind the first ones.
#[inline(always)]
fn backslashes_behind(skipped: usize, bytes: u8x8) -> u32
    requires { skipped < TEXT_LANES }
    ensures count { result ≡ count_by (λ b. b == 92) (drop skipped bytes) }
    ensures bound { result ≤ 8 }
{
    (bytes.simd_eq(u8x8::splat(b'\\')).to_bitmask() >> skipped).count_ones()
}

/// How many backslashes there are. Of a long text 64 bytes are looked at together.
pub fn backslashes(bytes: &[u8]) -> usize
    ensures count { result ≡ count_by (λ b. b == 92) bytes.now }
    ensures bound { result ≤ length bytes.now }
{
    if bytes.len() < WIDE_LANES {
        return backslashes_short(bytes);
    }
    let (blocks, rest) = bytes.split_at(bytes.len() - bytes.len() % WIDE_LANES);
    backslashes_of_blocks(blocks) + backslashes_short(rest)
}

/// The same of whole blocks of 64 bytes.
fn backslashes_of_blocks(bytes: &[u8]) -> usize
    requires { length bytes.now % 64 ≡ 0 }
    ensures count { result ≡ count_by (λ b. b == 92) bytes.now }
    ensures bound { result ≤ length bytes.now }
{
    let mut count = 0;
    for block in 0..bytes.len() / WIDE_LANES {
        count += backslashes_in(u8x64::from_slice(&bytes[WIDE_LANES * block..])) as usize;
    }
    count
}

/// The same of a short text. Eight bytes are looked at together. The last eight are so too, but for those that were
/// counted.
fn backslashes_short(bytes: &[u8]) -> usize
    ensures count { result ≡ count_by (λ b. b == 92) bytes.now }
    ensures bound { result ≤ length bytes.now }
{
    if bytes.len() < TEXT_LANES {
        return backslashes_singly(bytes);
    }
    let blocks = (bytes.len() - 1) / TEXT_LANES;
    let mut count = 0;
    for block in 0..blocks {
        count += backslashes_in(u8x8::from_slice(&bytes[TEXT_LANES * block..])) as usize;
    }
    let (front, last) = bytes.split_at(bytes.len() - TEXT_LANES);
    count + backslashes_behind(TEXT_LANES * blocks - front.len(), u8x8::from_slice(last)) as usize
}
