// Images: single slices, and one of many frames (PS3.3 C.7.6.16).
use crate::data_set::{DataSet, Spelling, file};
use crate::headers::{put_image, put_patient};
use crate::random::Random;
use crate::texts::{decimals, uid};
use std::alloc::{AllocError, Global};

/// The room of a frame, and of the elements of a slice, in bytes.
const FRAME: usize = 512;

const SLICE: usize = 8192;

/// The sequence of all frames.
const PER_FRAME: u32 = 0x5200_9230;

/// A sequence of one item with decimal numbers.
fn put_decimals(
    set: &mut DataSet,
    random: &mut Random,
    sequence: u32,
    parts: &[(u32, u32)],
) -> Result<(), AllocError> {
    set.begin_sequence(sequence)?;
    set.begin_item()?;
    for (tag, count) in parts {
        set.leaf(*tag, b"DS", decimals(random, *count).as_slice())?;
    }
    set.end_item()?;
    set.end_sequence()
}

fn put_frame(set: &mut DataSet, random: &mut Random, number: u32) -> Result<(), AllocError> {
    set.begin_item()?;
    set.begin_sequence(0x0020_9111)?;
    set.begin_item()?;
    set.leaf_long(0x0020_9157, b"UL", number)?;
    set.end_item()?;
    set.end_sequence()?;
    put_decimals(set, random, 0x0020_9113, &[(0x0020_0032, 3)])?;
    put_decimals(set, random, 0x0020_9116, &[(0x0020_0037, 6)])?;
    put_decimals(
        set,
        random,
        0x0028_9110,
        &[(0x0018_0050, 1), (0x0028_0030, 2)],
    )?;
    put_decimals(
        set,
        random,
        0x0028_9132,
        &[(0x0028_1050, 1), (0x0028_1051, 1)],
    )?;
    set.end_item()
}

/// An image of so many frames, each of seven values in five sequences, without its pixels.
pub fn frames(
    alloc: Global,
    spelling: Spelling,
    random: &mut Random,
    count: u32,
) -> Result<DataSet, AllocError> {
    let room = FRAME.saturating_mul(count as usize).saturating_add(SLICE);
    let mut set = file(alloc, spelling, uid(random).as_slice(), room)?;
    put_patient(&mut set, random)?;
    put_image(&mut set, random)?;
    set.begin_sequence(PER_FRAME)?;
    for number in 0..count {
        put_frame(&mut set, random, number)?;
    }
    set.end_sequence()?;
    Ok(set)
}

/// An image of one frame: some 120 elements, and these pixels.
pub fn slice(
    alloc: Global,
    spelling: Spelling,
    random: &mut Random,
    pixels: &[u8],
) -> Result<DataSet, AllocError> {
    let room = pixels.len().saturating_add(SLICE);
    let mut set = file(alloc, spelling, uid(random).as_slice(), room)?;
    put_patient(&mut set, random)?;
    put_image(&mut set, random)?;
    set.leaf(0x7FE0_0010, b"OW", pixels)?;
    Ok(set)
}
