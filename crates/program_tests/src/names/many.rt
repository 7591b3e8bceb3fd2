// Tables of many files, and lists that fail.
use crate::runs::{Answer, Entry, Left, expect_answer, holds, load, run_over};
use dcm_test_devices::{Devices, Loaded, SOUND, Start, joined, numbered, repeated};
use std::alloc::{AllocError, Global};
use std::test::Fail;

/// The files of a large table: so many times four.
const FOURS: usize = 2500;

const COMMENTS: &[u8] = b"\x10\0\0@LT\x01@";

/// The bytes of the longer comments.
const COMMENTS_SIZE: usize = 16_385;

/// A name, a number, and a fault.
static SHORT_FILES: [Entry; 3] = [
    Entry::Named(b"a"),
    Entry::File(b"b", Start::ExplicitLittle, b"\x10\0 \0LO\x02\07 "),
    Entry::File(b"d", Start::ExplicitLittle, b"\x08\0`\0pn\x02\0"),
];

/// Files that have nothing of one another: these, and `c` with comments that are too long.
fn different_files(alloc: Global) -> Result<Vec<Loaded>, AllocError> {
    let front = joined(alloc, Start::ExplicitLittle.bytes(), COMMENTS)?;
    let long = repeated(alloc, front.as_slice(), b"x", COMMENTS_SIZE, b"")?;
    let mut files = load(alloc, &SHORT_FILES)?;
    files.push(Loaded::file(b"c", long))?;
    Ok(files)
}

const FOUR_NAMES: &[u8] = b"a\nb\nc\nd\n";

const HEADER: &[u8] = b"\"File\",\"PatientName\",\"PatientID\",\"PatientComments\"\n";

const FOUR_ROWS: &[u8] = b"\"a\",\"AB^CD\",,\n\"b\",,\"7\",\n\"c\",,,\n\"d\",,,\n";

const FOUR_LINES: &[u8] = b"dcmtools: c: value of (0010,4000) is longer than 16384 bytes
dcmtools: d: R7 at byte 172: unknown value representation
";

/// What is wanted of the four files so many times.
fn fours(alloc: Global, times: usize) -> Result<Answer, AllocError> {
    Ok(Answer {
        status: 2,
        output: repeated(alloc, HEADER, FOUR_ROWS, times, b"")?,
        told: repeated(alloc, b"", FOUR_LINES, times, b"")?,
    })
}

const COLUMNS: [&[u8]; 7] = [
    b"dcm2csv",
    b"-k",
    b"PatientName",
    b"-k",
    b"PatientID",
    b"-k",
    b"PatientComments",
];

/// Words with these after the columns, so many times.
fn words_with<'a>(
    alloc: Global,
    names: &[&'a [u8]],
    times: usize,
) -> Result<Vec<&'a [u8]>, AllocError> {
    let mut words: Vec<&[u8]> = Vec::new(alloc);
    words.extend_from_slice(&COLUMNS)?;
    for _ in 0..times {
        words.extend_from_slice(names)?;
    }
    Ok(words)
}

/// Expects a large table, and that so many inputs were opened, at most so many of them at one time.
fn expect_fours(
    name: &str,
    alloc: Global,
    left: &Left,
    opened: usize,
    most: usize,
) -> Result<(), Fail> {
    expect_answer(name, left, &fours(alloc, FOURS)?)?;
    holds(name, "opened", left.counts.opened == opened)?;
    holds(name, "open", left.counts.most_open == most)
}

/// Ten thousand names in a list on standard input: the list and one file are open at one time.
#[test]
fn many_files_in_a_list(rt: HostRuntime) -> Result<(), Fail> {
    let alloc = rt.alloc();
    let mut files = different_files(alloc)?;
    let list = repeated(alloc, b"", FOUR_NAMES, FOURS, b"")?;
    files.push(Loaded::file(b"-", list))?;
    let words = words_with(alloc, &[b"@-"], 1)?;
    let left = run_over(alloc, words.as_slice(), files.as_slice(), SOUND);
    expect_fours("many files in a list", alloc, &left, 4 * FOURS + 1, 2)
}

/// Ten thousand words: one file is open at one time.
#[test]
fn many_files_among_words(rt: HostRuntime) -> Result<(), Fail> {
    let alloc = rt.alloc();
    let files = different_files(alloc)?;
    let words = words_with(alloc, &[b"a", b"b", b"c", b"d"], FOURS)?;
    let left = run_over(alloc, words.as_slice(), files.as_slice(), SOUND);
    expect_fours("many words", alloc, &left, 4 * FOURS, 1)
}

/// A list without its last newline.
const THREE_NAMES: &[u8] = b"a\nb\na";

/// Bytes of it that are read, and the output of the names before them, and then of `b` from the words.
const ROWS_BEFORE: [(usize, &[u8]); 6] = [
    (0, b"\"b\",,\"7\",\n"),
    (1, b"\"b\",,\"7\",\n"),
    (2, b"\"a\",\"AB^CD\",,\n\"b\",,\"7\",\n"),
    (3, b"\"a\",\"AB^CD\",,\n\"b\",,\"7\",\n"),
    (4, b"\"a\",\"AB^CD\",,\n\"b\",,\"7\",\n\"b\",,\"7\",\n"),
    (5, b"\"a\",\"AB^CD\",,\n\"b\",,\"7\",\n\"b\",,\"7\",\n"),
];

/// What is wanted of a list of which so many bytes can be read.
fn list_until(alloc: Global, read: usize, rows: &[u8]) -> Result<Answer, AllocError> {
    Ok(Answer {
        status: 4,
        output: joined(alloc, HEADER, rows)?,
        told: numbered(
            alloc,
            b"dcmtools: li\\0ast: reading failed after ",
            read,
            b" bytes\n",
        )?,
    })
}

/// What a run over a list leaves of which so many bytes can be read.
fn left_of_list(alloc: Global, files: &[Loaded], read: usize) -> Result<Left, AllocError> {
    let words = words_with(alloc, &[b"@li\nst", b"b"], 1)?;
    let devices = Devices {
        step: 1,
        failing: b"li\nst",
        reads: read,
        ..SOUND
    };
    Ok(run_over(alloc, words.as_slice(), files, devices))
}

/// Whole lines before a failure count.
#[test]
fn lists_that_fail(rt: HostRuntime) -> Result<(), Fail> {
    let alloc = rt.alloc();
    let mut files = different_files(alloc)?;
    files.push(Loaded::file(b"li\nst", THREE_NAMES.to_vec(alloc)?))?;
    for (read, rows) in ROWS_BEFORE {
        let left = left_of_list(alloc, files.as_slice(), read)?;
        let wanted = list_until(alloc, read, rows)?;
        expect_answer("lists that fail", &left, &wanted)?;
    }
    Ok(())
}
