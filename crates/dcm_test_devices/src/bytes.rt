// Bytes that are put together, and words that are taken apart.
use itoa::Buffer;
use std::alloc::{AllocError, Global};

/// The bytes of two parts.
pub fn joined(alloc: Global, first: &[u8], second: &[u8]) -> Result<Vec<u8>, AllocError> {
    let mut all = first.to_vec(alloc)?;
    all.extend_from_slice(second)?;
    Ok(all)
}

/// A beginning, a number in decimals, and an end.
pub fn numbered(
    alloc: Global,
    front: &[u8],
    number: usize,
    rest: &[u8],
) -> Result<Vec<u8>, AllocError> {
    let mut digits = Buffer::new();
    let mut all = joined(alloc, front, digits.format(number).as_bytes())?;
    all.extend_from_slice(rest)?;
    Ok(all)
}

/// A beginning, a part so many times, and an end.
pub fn repeated(
    alloc: Global,
    front: &[u8],
    part: &[u8],
    times: usize,
    rest: &[u8],
) -> Result<Vec<u8>, AllocError> {
    let mut all = front.to_vec(alloc)?;
    for _ in 0..times {
        all.extend_from_slice(part)?;
    }
    all.extend_from_slice(rest)?;
    Ok(all)
}

/// The words of a line, which are parted by one space each.
pub fn split<'a>(alloc: Global, line: &'a str) -> Result<Vec<&'a [u8]>, AllocError> {
    let mut words = Vec::new(alloc);
    for word in line.split(' ') {
        words.push(word.as_bytes())?;
    }
    Ok(words)
}
