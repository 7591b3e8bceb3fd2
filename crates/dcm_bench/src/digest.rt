// A digest of what is written.
ghost use Rattle.std.specs.Prelude.{◌<◌, ◌≤◌, length};

use byteorder::{ByteOrder, LittleEndian};
use std::io;
use std::io::Write;

/// The bytes that are taken in at a time.
const BLOCK: usize = 4096;

/// The bytes of a word.
const WORD: usize = 8;

/// An odd number with many ones (FNV's prime, of 64 bits, and more).
const FACTOR: u64 = 0x9E37_79B9_0000_01B3;

/// A writer that keeps a digest of the bytes alone, whatever the pieces are in which they come.
#[derive(Drop)]
pub struct Digest {
    sum: u64,
    block: [u8; BLOCK],
    held: usize,
    ghost room: { held < 4096 },
}

/// A sum with one more number.
#[inline(always)]
pub fn mixed(sum: u64, number: u64) -> u64 {
    (sum ^ number).wrapping_mul(FACTOR).rotate_left(29)
}

/// A sum with a block of bytes. Four sums go side by side, each over every fourth word, since a step of one waits for
/// the step before it.
fn with_block(sum: u64, block: &[u8; BLOCK]) -> u64 {
    let (mut first, mut second, mut third, mut fourth) = (sum, 1, 2, 3);
    for place in 0..BLOCK / (4 * WORD) {
        let at = place * 4 * WORD;
        first = mixed(first, LittleEndian::read_u64(&block[at..]));
        second = mixed(second, LittleEndian::read_u64(&block[at + WORD..]));
        third = mixed(third, LittleEndian::read_u64(&block[at + 2 * WORD..]));
        fourth = mixed(fourth, LittleEndian::read_u64(&block[at + 3 * WORD..]));
    }
    mixed(mixed(first, second), mixed(third, fourth))
}

impl Digest {
    /// Of no byte.
    pub fn new() -> Self {
        Digest {
            sum: 0,
            block: [0; BLOCK],
            held: 0,
        }
    }

    /// The digest of all bytes.
    pub fn sum(&self) -> u64 {
        let mut last = [0; BLOCK];
        let (front, _) = last.split_at_mut(self.held);
        let (bytes, _) = self.block.split_at(self.held);
        front.copy_from_slice(bytes);
        mixed(with_block(self.sum, &last), self.held as u64)
    }
}

impl Write for Digest {
    fn write(&mut self, bytes: &[u8]) -> io::Result<usize> {
        let start = self.held;
        let n = bytes.len().min(BLOCK - start);
        self.block[start..start + n].copy_from_slice(&bytes[..n]);
        if start + n < BLOCK {
            self.held = start + n;
            return Ok(n);
        }
        self.sum = with_block(self.sum, &self.block);
        self.held = 0;
        Ok(n)
    }

    fn flush(&mut self) -> io::Result<()> {
        Ok(())
    }
}
