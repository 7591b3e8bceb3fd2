// Names that come to a limit.
use crate::runs::{Answer, Entry, expect_answer, load, run_over};
use dcm_test_devices::{Loaded, SOUND, joined, repeated};
use std::alloc::{AllocError, Global};
use std::test::Fail;

/// The most bytes of a name that can be opened.
const NAME_LIMIT: usize = 4096;

/// A name of so many bytes.
const LONGEST_NAME: [u8; NAME_LIMIT] = [b'n'; NAME_LIMIT];

const LONGER_NAME: [u8; NAME_LIMIT + 1] = [b'n'; NAME_LIMIT + 1];

/// What is wanted of the longest name and of longer ones: a row, and lines with the first bytes of the others.
fn long_names(alloc: Global) -> Result<Answer, AllocError> {
    let why = b": input cannot be opened\n";
    let line = repeated(alloc, b"dcmtools: ", b"n", NAME_LIMIT, why)?;
    Ok(Answer {
        status: 4,
        output: repeated(alloc, b"\"", b"n", NAME_LIMIT, b"\",\"AB^CD\"\n")?,
        told: joined(alloc, line.as_slice(), line.as_slice())?,
    })
}

/// Expects that of the longest name and of longer ones, in words or in a list.
fn expect_long_names(alloc: Global, words: &[&[u8]], list: Vec<u8>) -> Result<(), Fail> {
    let mut files = load(
        alloc,
        &[Entry::Named(&LONGEST_NAME), Entry::Named(&LONGER_NAME)],
    )?;
    files.push(Loaded::file(b"list", list))?;
    let left = run_over(alloc, words, files.as_slice(), SOUND);
    expect_answer("long names", &left, &long_names(alloc)?)
}

#[test]
fn longest_names(rt: HostRuntime) -> Result<(), Fail> {
    let words: [&[u8]; 7] = [
        b"dcm2csv",
        b"+nh",
        b"-k",
        b"PatientName",
        &LONGEST_NAME,
        &LONGER_NAME,
        &LONGER_NAME,
    ];
    expect_long_names(rt.alloc(), &words, Vec::new(rt.alloc()))
}

/// The longest name, a longer one, and one that is longer than the pieces of a list.
#[test]
fn longest_names_in_a_list(rt: HostRuntime) -> Result<(), Fail> {
    let alloc = rt.alloc();
    let longest = repeated(alloc, b"", b"n", NAME_LIMIT, b"\n")?;
    let both = repeated(alloc, longest.as_slice(), b"n", NAME_LIMIT + 1, b"\n")?;
    let list = repeated(alloc, both.as_slice(), b"n", 70_000, b"\n")?;
    let words: [&[u8]; 5] = [b"dcm2csv", b"@list", b"+nh", b"-k", b"PatientName"];
    expect_long_names(alloc, &words, list)
}
