// Values between the orders of bytes (PS3.5 7.3).
ghost use Rattle.std.specs.Prelude.{◌≡◌, ◌<◌};
ghost use Rattle.dcm_base.specs.Tree.Value.{turned};
ghost use Rattle.dcm_value.specs.Swap.{IsUnit};

use std::simd::Simd;

const PAIRS: [usize; 16] = [1, 0, 3, 2, 5, 4, 7, 6, 9, 8, 11, 10, 13, 12, 15, 14];

const FOURS: [usize; 16] = [3, 2, 1, 0, 7, 6, 5, 4, 11, 10, 9, 8, 15, 14, 13, 12];

const EIGHTS: [usize; 16] = [7, 6, 5, 4, 3, 2, 1, 0, 15, 14, 13, 12, 11, 10, 9, 8];

/// Turns each whole unit of 1, 2, 4 or 8 bytes round (PS3.5 7.3). The bytes after the last whole unit stay.
pub fn swap(unit: usize, bytes: &mut [u8])
    requires { IsUnit unit }
    ensures { bytes.new ≡ turned unit bytes.old }
{
    match unit {
        2 => swap_pairs(bytes),
        4 => swap_fours(bytes),
        8 => swap_eights(bytes),
        _ => {}
    }
}

fn swap_pairs(bytes: &mut [u8])
    ensures { bytes.new ≡ turned 2 bytes.old }
{
    let blocks = bytes.len() / 16;
    for block in 0..blocks {
        let lanes: Simd<u8, 16> = Simd::from_slice(&bytes[16 * block..]);
        lanes.swizzle(PAIRS).copy_to_slice(&mut bytes[16 * block..]);
    }
    reverse_units::<2>(&mut bytes[16 * blocks..]);
}

fn swap_fours(bytes: &mut [u8])
    ensures { bytes.new ≡ turned 4 bytes.old }
{
    let blocks = bytes.len() / 16;
    for block in 0..blocks {
        let lanes: Simd<u8, 16> = Simd::from_slice(&bytes[16 * block..]);
        lanes.swizzle(FOURS).copy_to_slice(&mut bytes[16 * block..]);
    }
    reverse_units::<4>(&mut bytes[16 * blocks..]);
}

fn swap_eights(bytes: &mut [u8])
    ensures { bytes.new ≡ turned 8 bytes.old }
{
    let blocks = bytes.len() / 16;
    for block in 0..blocks {
        let lanes: Simd<u8, 16> = Simd::from_slice(&bytes[16 * block..]);
        lanes
            .swizzle(EIGHTS)
            .copy_to_slice(&mut bytes[16 * block..]);
    }
    reverse_units::<8>(&mut bytes[16 * blocks..]);
}

fn reverse_units<const N: usize>(bytes: &mut [u8])
    requires { 0 < N }
    ensures { bytes.new ≡ turned N bytes.old }
{
    for unit in 0..bytes.len() / N {
        bytes[N * unit..N * unit + N].reverse();
    }
}
