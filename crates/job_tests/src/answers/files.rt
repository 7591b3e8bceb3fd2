// Words over files in memory.
use crate::runs::{Answer, Wanted, expect_answer, header_of, holds, room};
use dcm_base::MemOut;
use dcm_cli::in_memory::obey_in_memory;
use dcm_files::{MemFile, MemSystem};
use dcm_test_devices::{Start, joined};
use std::alloc::{AllocError, Global};
use std::test::Fail;

/// What words leave: the answer, with no bytes where no output was closed, and whether one was.
#[derive(Drop)]
struct Left {
    answer: Answer,
    is_closed: bool,
}

/// The bytes of an output that was closed.
fn closed_bytes(alloc: Global, written: &Option<MemOut>) -> Result<Vec<u8>, AllocError> {
    let mut bytes = Vec::new(alloc);
    if let Some(out) = written {
        bytes.extend_from_slice(out.written())?;
    }
    Ok(bytes)
}

fn file<'a>(name: &'a [u8], number: u64, bytes: &'a [u8]) -> MemFile<'a> {
    MemFile {
        name,
        number,
        bytes,
    }
}

/// What words leave over the file `a`, which has a second name `link`, a file `other` without bytes, and a file `full`.
/// Standard input has the bytes of `a`.
fn left_by(alloc: Global, words: &[&[u8]], bytes: &[u8]) -> Result<Left, AllocError> {
    let files = [
        file(b"a", 1, bytes),
        file(b"link", 1, bytes),
        file(b"other", 2, b""),
        file(b"full", 3, b"old"),
    ];
    let system = MemSystem::new(&files, bytes, MemOut::new(room(alloc, 1000)?));
    let errors = MemOut::new(room(alloc, 200)?);
    let obeyed = obey_in_memory(alloc, words, system, errors);
    Ok(Left {
        answer: Answer {
            status: obeyed.status,
            output: closed_bytes(alloc, &obeyed.written)?,
            told: obeyed.errors.written().to_vec(alloc)?,
        },
        is_closed: obeyed.written.is_some(),
    })
}

/// Words, and what they come to: the front and the rest of the output where one is closed, the line, and the status.
#[derive(Clone, Copy)]
struct Case {
    words: &'static [&'static [u8]],
    output: Option<(&'static [u8], &'static [u8])>,
    told: &'static [u8],
    status: u8,
}

/// What the file `a` has after its meta group.
const NAME: &[u8] = b"\x10\0\x10\0PN\x06\0AB^CD ";

/// The same in big endian.
const BIG_NAME: &[u8] = b"\0\x10\0\x10PN\0\x06AB^CD ";

/// And as it is dumped.
const LINE: &[u8] =
    b"(0010,0010) PN [AB^CD]                                  #   6, 1 PatientName\n";

const VERSION: &[u8] = b"dcmtools 0.2.0, with the data dictionary of DICOM PS3.6 2022a\n";

/// Words that do what they say.
fn done(words: &'static [&'static [u8]], front: &'static [u8], rest: &'static [u8]) -> Case {
    Case {
        words,
        output: Some((front, rest)),
        told: b"",
        status: 0,
    }
}

/// Words that open no output.
fn refused(words: &'static [&'static [u8]], told: &'static [u8], status: u8) -> Case {
    Case {
        words,
        output: None,
        told,
        status,
    }
}

fn works() -> [Case; 9] {
    let file = Start::ExplicitLittle.bytes();
    let big = Start::Big.bytes();
    [
        done(&[b"dcmdump", b"a"], header_of(Start::ExplicitLittle), LINE),
        done(&[b"dcmconv", b"+tb", b"link", b"new"], big, BIG_NAME),
        done(&[b"dcmconv", b"a", b"other"], file, NAME),
        done(&[b"dcmconv", b"+ow", b"-", b"a"], file, NAME),
        done(&[b"dcmconv", b"a", b"full", b"+ow"], file, NAME),
        done(
            &[b"dcmodify", b"-e", b"PatientName", b"+ow", b"a", b"full"],
            file,
            b"",
        ),
        done(&[b"dcmodify", b"+ow", b"a", b"new"], file, NAME),
        done(&[b"dcmconv", b"a", b"-"], file, NAME),
        done(&[b"dcmconv", b"--version"], VERSION, b""),
    ]
}

const NO_INPUT: &[u8] = b"dcmtools: input cannot be opened\n";

const NO_OUTPUT: &[u8] = b"dcmtools: output cannot be opened\n";

const SAME_FILE: &[u8] = b"dcmtools: output is the input\n";

const THERE: &[u8] = b"dcmtools: output is there already\n";

const SAME_PATH: &[u8] = b"dcmtools: V6: input and output are the same path\n";

fn failures() -> [Case; 8] {
    [
        refused(&[b"dcmdump", b"none"], NO_INPUT, 4),
        refused(&[b"dcmdump", b"\xff"], NO_INPUT, 4),
        refused(&[b"dcmconv", b"none", b"\xff"], NO_INPUT, 4),
        refused(&[b"dcmconv", b"a", b"\xff"], NO_OUTPUT, 4),
        refused(&[b"dcmconv", b"a", b"a"], SAME_PATH, 1),
        refused(&[b"dcmconv", b"a", b"link"], SAME_FILE, 4),
        refused(&[b"dcmconv", b"+ow", b"a", b"link"], SAME_FILE, 4),
        refused(&[b"dcmdeid", b"a", b"link"], SAME_FILE, 4),
    ]
}

/// Outputs that are there, which stay.
fn outputs_there() -> [Case; 7] {
    [
        refused(&[b"dcmconv", b"a", b"full"], THERE, 4),
        refused(&[b"dcmconv", b"-", b"a"], THERE, 4),
        refused(&[b"dump2dcm", b"a", b"full"], THERE, 4),
        refused(&[b"dcmodify", b"-ep", b"a", b"full"], THERE, 4),
        refused(&[b"dcmdeid", b"a", b"full"], THERE, 4),
        refused(&[b"dcmconv", b"none", b"full"], NO_INPUT, 4),
        refused(&[b"dcmdeid", b"none", b"full"], NO_INPUT, 4),
    ]
}

/// Expects what the words of cases come to.
fn expect_cases(alloc: Global, cases: &[Case]) -> Result<(), Fail> {
    let bytes = joined(alloc, Start::ExplicitLittle.bytes(), NAME)?;
    for case in cases {
        let left = left_by(alloc, case.words, bytes.as_slice())?;
        let (front, rest) = case.output.unwrap_or((b"", b""));
        let output = joined(alloc, front, rest)?;
        let wanted = Wanted {
            status: case.status,
            output: output.as_slice(),
            told: case.told,
        };
        expect_answer("words over files", &left.answer, wanted)?;
        let is_closed = case.output.is_some();
        let is_as_wanted = left.is_closed == is_closed;
        holds("words over files", "closed", is_as_wanted)?;
    }
    Ok(())
}

#[test]
fn words_that_work(rt: HostRuntime) -> Result<(), Fail> {
    expect_cases(rt.alloc(), &works())
}

#[test]
fn outputs_that_stay(rt: HostRuntime) -> Result<(), Fail> {
    expect_cases(rt.alloc(), &outputs_there())
}

#[test]
fn words_that_fail(rt: HostRuntime) -> Result<(), Fail> {
    expect_cases(rt.alloc(), &failures())
}
