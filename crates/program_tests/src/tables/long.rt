// Values and rows that come to a limit.
use crate::runs::{Answer, Entry, NAME, expect_answer, load, run_over};
use dcm_test_devices::{Loaded, SOUND, Start, joined, repeated};
use std::alloc::{AllocError, Global};
use std::test::Fail;

/// The most bytes of a value that is shown.
const CELL_LIMIT: usize = 16_384;

/// The most columns.
const COLUMNS_LIMIT: usize = 64;

/// The head of (0010,4000) with 16,384 bytes, and with 16,385.
const COMMENTS: &[u8] = b"\x10\0\0@LT\0@";

const LONGER_COMMENTS: &[u8] = b"\x10\0\0@LT\x01@";

/// (0008,0005) with ISO_IR 100.
const LATIN: &[u8] = b"\x08\0\x05\0CS\n\0ISO_IR 100";

/// The head of (7fe0,0010) with 20,000 bytes.
const PIXELS: &[u8] = b"\xe0\x7f\x10\0OW\0\0 N\0\0";

const PIXELS_SIZE: usize = 20_000;

/// A file of explicit VR little endian that begins so.
fn explicit(alloc: Global, front: &[u8]) -> Result<Vec<u8>, AllocError> {
    joined(alloc, Start::ExplicitLittle.bytes(), front)
}

/// A file whose comments are the longest that are shown: quotes alone.
fn longest(alloc: Global) -> Result<Vec<u8>, AllocError> {
    let front = explicit(alloc, COMMENTS)?;
    repeated(alloc, front.as_slice(), b"\"", CELL_LIMIT, b"")
}

/// A file whose comments are a byte longer, with pixels after them.
fn longer(alloc: Global) -> Result<Vec<u8>, AllocError> {
    let front = joined(alloc, explicit(alloc, NAME)?.as_slice(), LONGER_COMMENTS)?;
    let comments = repeated(alloc, front.as_slice(), b" ", CELL_LIMIT + 1, PIXELS)?;
    repeated(alloc, comments.as_slice(), b"\0", PIXELS_SIZE, b"")
}

/// A file whose longer comments lack their last byte.
fn cut(alloc: Global) -> Result<Vec<u8>, AllocError> {
    let front = explicit(alloc, LONGER_COMMENTS)?;
    repeated(alloc, front.as_slice(), b" ", CELL_LIMIT, b"")
}

const LONG_WORDS: [&[u8]; 13] = [
    b"dcm2csv",
    b"+nh",
    b"-k",
    b"PixelData",
    b"-k",
    b"PatientComments",
    b"-k",
    b"(0010,4000)",
    b"-k",
    b"PatientName",
    b"just",
    b"long",
    b"cut",
];

/// The row of the longest comments: each quote twice.
fn longest_row(alloc: Global) -> Result<Vec<u8>, AllocError> {
    let first = repeated(alloc, b"\"just\",,\"", b"\"\"", CELL_LIMIT, b"\",\"")?;
    repeated(alloc, first.as_slice(), b"\"\"", CELL_LIMIT, b"\",\n")
}

const LONG_LINE: &[u8] = b"dcmtools: long: value of (0010,4000) is longer than 16384 bytes\n";

const LONG_LINES: &[u8] = b"dcmtools: long: value of (0010,4000) is longer than 16384 bytes
dcmtools: cut: R1 at byte 16564: input ends too early
";

/// A value that is too long is reported once a tag, by one that is cut nothing but the fault.
#[test]
fn longest_values(rt: HostRuntime) -> Result<(), Fail> {
    let alloc = rt.alloc();
    let mut files = Vec::new(alloc);
    files.push(Loaded::file(b"just", longest(alloc)?))?;
    files.push(Loaded::file(b"long", longer(alloc)?))?;
    files.push(Loaded::file(b"cut", cut(alloc)?))?;
    let left = run_over(alloc, &LONG_WORDS, files.as_slice(), SOUND);
    let first = longest_row(alloc)?;
    let others = b"\"long\",,,,\"AB^CD\"\n\"cut\",,,,\n";
    let wanted = Answer {
        status: 2,
        output: joined(alloc, first.as_slice(), others)?,
        told: LONG_LINES.to_vec(alloc)?,
    };
    expect_answer("longest values", &left, &wanted)
}

/// A file whose comments have so many bytes E9.
fn latin(alloc: Global, head: &[u8], count: usize) -> Result<Vec<u8>, AllocError> {
    let front = joined(alloc, explicit(alloc, LATIN)?.as_slice(), head)?;
    repeated(alloc, front.as_slice(), b"\xe9", count, b"")
}

/// The limit is of a value's bytes, of which each becomes two here.
#[test]
fn longest_characters(rt: HostRuntime) -> Result<(), Fail> {
    let alloc = rt.alloc();
    let mut files = Vec::new(alloc);
    files.push(Loaded::file(b"just", latin(alloc, COMMENTS, CELL_LIMIT)?))?;
    files.push(Loaded::file(b"long", latin(alloc, LONGER_COMMENTS, CELL_LIMIT + 1)?))?;
    let words: [&[u8]; 7] = [
        b"dcm2csv",
        b"+nh",
        b"+u8",
        b"-k",
        b"PatientComments",
        b"just",
        b"long",
    ];
    let left = run_over(alloc, &words, files.as_slice(), SOUND);
    let wanted = Answer {
        status: 2,
        output: repeated(
            alloc,
            b"\"just\",\"",
            b"\xc3\xa9",
            CELL_LIMIT,
            b"\"\n\"long\",\n",
        )?,
        told: LONG_LINE.to_vec(alloc)?,
    };
    expect_answer("longest characters", &left, &wanted)
}

/// As many columns as there may be.
#[test]
fn most_columns(rt: HostRuntime) -> Result<(), Fail> {
    let alloc = rt.alloc();
    let mut words: Vec<&[u8]> = Vec::new(alloc);
    words.extend_from_slice(&[b"dcm2csv", b"+nh", b"a"])?;
    for _ in 0..COLUMNS_LIMIT {
        words.extend_from_slice(&[b"-k", b"PatientName"])?;
    }
    let files = load(alloc, &[Entry::Named(b"a")])?;
    let left = run_over(alloc, words.as_slice(), files.as_slice(), SOUND);
    let wanted = Answer {
        status: 0,
        output: repeated(alloc, b"\"a\"", b",\"AB^CD\"", COLUMNS_LIMIT, b"\n")?,
        told: Vec::new(alloc),
    };
    expect_answer("most columns", &left, &wanted)
}
