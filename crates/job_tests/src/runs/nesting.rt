// Deep and long files.
use dcm_test_devices::{Start, joined, repeated};
use std::alloc::{AllocError, Global};

/// A sequence and its item.
pub const OPENINGS: &[u8] = b"\x08\0@\x11SQ\0\0\xff\xff\xff\xff\xfe\xff\0\xe0\xff\xff\xff\xff";

/// The ends of both.
pub const ENDS: &[u8] = b"\xfe\xff\x0d\xe0\0\0\0\0\xfe\xff\xdd\xe0\0\0\0\0";

/// How many sequences may be open.
pub const DEPTH: usize = 64;

/// A file of 64 sequences, each with an item that holds the next, and what follows the innermost item's opening.
pub fn nested(alloc: Global, behind: &[u8]) -> Result<Vec<u8>, AllocError> {
    let group = Start::ExplicitLittle.bytes();
    repeated(alloc, group, OPENINGS, DEPTH, behind)
}

/// A file of 64 sequences, all of them closed.
pub fn sixty_four(alloc: Global) -> Result<Vec<u8>, AllocError> {
    let opened = nested(alloc, b"")?;
    repeated(alloc, opened.as_slice(), ENDS, DEPTH, b"")
}

/// The longest value of a short form.
const LONGEST_SHORT: usize = 65_535;

/// What stands before a text, so many letters, and what stands behind them.
pub fn letters(
    alloc: Global,
    start: Start,
    head: &[u8],
    behind: &[u8],
) -> Result<Vec<u8>, AllocError> {
    let front = joined(alloc, start.bytes(), head)?;
    repeated(alloc, front.as_slice(), b"a", LONGEST_SHORT, behind)
}
