// Long values: pixels, fragments, lists of numbers and texts.
use crate::data_set::{DataSet, Spelling, compressed_file, file};
use crate::headers::{put_image, put_patient};
use crate::random::Random;
use crate::texts::{uid, words};
use std::alloc::{AllocError, Global};

/// The bytes that are made anew for each input. Longer values are made of parts of them.
const BLOCK: usize = 65_536;

/// The longest part, and the places where one may begin.
const PART: usize = 32_768;

const STARTS: u32 = 16_384;

/// The room of the elements before a long value.
const FRONT: usize = 16_384;

/// Bytes, of which parts are taken.
#[derive(Drop)]
pub struct Block {
    bytes: Vec<u8>,
}

impl Block {
    /// Of pixels, 12 bits in two bytes.
    pub fn of_pixels(alloc: Global, random: &mut Random) -> Result<Block, AllocError> {
        let mut bytes = Vec::with_capacity(alloc, BLOCK)?;
        for _four in 0..BLOCK / 8 {
            bytes.extend_from_slice(&(random.number() & 0x0FFF_0FFF_0FFF_0FFF).to_le_bytes())?;
        }
        Ok(Block { bytes })
    }

    /// Of any bytes.
    pub fn of_noise(alloc: Global, random: &mut Random) -> Result<Block, AllocError> {
        let mut bytes = Vec::with_capacity(alloc, BLOCK)?;
        for _eight in 0..BLOCK / 8 {
            bytes.extend_from_slice(&random.number().to_le_bytes())?;
        }
        Ok(Block { bytes })
    }

    /// Of words, in lines, with a backslash here and there.
    pub fn of_words(alloc: Global, random: &mut Random) -> Result<Block, AllocError> {
        let mut bytes = Vec::with_capacity(alloc, BLOCK)?;
        for _line in 0..BLOCK / 32 {
            bytes.extend_from_slice(words(random, 5).as_slice())?;
            let end = if random.below(16) == 0 {
                b"\\ ".as_slice()
            } else {
                b"\r\n".as_slice()
            };
            bytes.extend_from_slice(end)?;
        }
        Ok(Block { bytes })
    }

    /// A part of it of this size, or of half its size where that is less.
    pub fn part(&self, random: &mut Random, size: usize) -> &[u8] {
        let size = size.min(self.bytes.len() / 2);
        let start = (random.below(STARTS) as usize).min(self.bytes.len() - size);
        &self.bytes.as_slice()[start..start + size]
    }

    /// Parts of it, one after another.
    pub fn parts(
        &self,
        alloc: Global,
        random: &mut Random,
        count: u32,
    ) -> Result<Vec<u8>, AllocError> {
        let mut all = Vec::with_capacity(alloc, PART.saturating_mul(count as usize))?;
        for _part in 0..count {
            all.extend_from_slice(self.part(random, PART))?;
        }
        Ok(all)
    }
}

/// A file whose patient and image are described, and nothing more.
fn described(
    alloc: Global,
    spelling: Spelling,
    random: &mut Random,
    room: usize,
) -> Result<DataSet, AllocError> {
    let mut set = file(
        alloc,
        spelling,
        uid(random).as_slice(),
        room.saturating_add(FRONT),
    )?;
    put_patient(&mut set, random)?;
    put_image(&mut set, random)?;
    Ok(set)
}

/// An image with so many parts of 32 KiB of pixels.
pub fn image(
    alloc: Global,
    spelling: Spelling,
    random: &mut Random,
    parts: u32,
) -> Result<DataSet, AllocError> {
    let pixels = Block::of_pixels(alloc, random)?.parts(alloc, random, parts)?;
    let mut set = described(alloc, spelling, random, pixels.len())?;
    set.leaf(0x7FE0_0010, b"OW", pixels.as_slice())?;
    Ok(set)
}

/// An image with so many frames of 32 KiB each, compressed.
pub fn compressed(alloc: Global, random: &mut Random, count: u32) -> Result<DataSet, AllocError> {
    let noise = Block::of_noise(alloc, random)?;
    let room = PART.saturating_mul(count as usize).saturating_add(FRONT);
    let mut set = compressed_file(alloc, uid(random).as_slice(), room)?;
    put_patient(&mut set, random)?;
    put_image(&mut set, random)?;
    set.begin_fragments(0x7FE0_0010)?;
    for _frame in 0..count {
        set.fragment(noise.part(random, PART))?;
    }
    set.end_sequence()?;
    Ok(set)
}

/// An item with lists of numbers of most representations, 60 KB of them.
fn put_lists(set: &mut DataSet, random: &mut Random, noise: &Block) -> Result<(), AllocError> {
    set.begin_item()?;
    set.leaf(0x0018_6020, b"SL", noise.part(random, 8000))?;
    set.leaf(0x0018_9089, b"FD", noise.part(random, 8000))?;
    set.leaf(0x0020_9221, b"AT", noise.part(random, 2000))?;
    set.leaf(0x0028_0106, b"SS", noise.part(random, 6000))?;
    set.leaf(0x0028_3006, b"US", noise.part(random, 16_000))?;
    set.leaf(0x0066_0016, b"OF", noise.part(random, 8000))?;
    set.leaf(0x0066_0040, b"OL", noise.part(random, 4000))?;
    set.leaf(0x0070_0022, b"FL", noise.part(random, 8000))?;
    set.leaf(0x0072_0078, b"UL", noise.part(random, 4000))?;
    set.end_item()
}

/// A file with so many items of lists of numbers.
pub fn lists(
    alloc: Global,
    spelling: Spelling,
    random: &mut Random,
    count: u32,
) -> Result<DataSet, AllocError> {
    let noise = Block::of_noise(alloc, random)?;
    let mut set = described(
        alloc,
        spelling,
        random,
        BLOCK.saturating_mul(count as usize),
    )?;
    set.begin_sequence(0x5400_0100)?;
    for _item in 0..count {
        put_lists(&mut set, random, &noise)?;
    }
    set.end_sequence()?;
    Ok(set)
}

/// A file with so many long texts.
pub fn long_texts(
    alloc: Global,
    spelling: Spelling,
    random: &mut Random,
    count: u32,
) -> Result<DataSet, AllocError> {
    let text = Block::of_words(alloc, random)?;
    let mut set = described(alloc, spelling, random, PART.saturating_mul(count as usize))?;
    set.begin_sequence(0x0040_A730)?;
    for _item in 0..count {
        set.begin_item()?;
        set.leaf(0x0010_21B0, b"LT", text.part(random, 9000))?;
        set.leaf(0x0040_A160, b"UT", text.part(random, 20_000))?;
        set.end_item()?;
    }
    set.end_sequence()?;
    Ok(set)
}

/// A file with so many elements that have no value, and so many items that have no element.
pub fn empties(
    alloc: Global,
    spelling: Spelling,
    random: &mut Random,
    count: u32,
) -> Result<DataSet, AllocError> {
    let mut set = described(alloc, spelling, random, (count as usize).saturating_mul(20))?;
    for _element in 0..count {
        set.leaf(0x3001_0010 + random.below(64), b"LO", b"")?;
    }
    set.begin_sequence(0x4001_0010)?;
    for _item in 0..count {
        set.empty_item()?;
    }
    set.end_sequence()?;
    Ok(set)
}
