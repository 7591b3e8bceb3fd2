// Files that are read twice, the first time for the days by which their dates are moved.
ghost use Rattle.dcm_files.specs.Devices.{anything};

use crate::runs::{
    Answer, Row, STEPS, Wanted, bytes_in, expect_answer, front_of, holds, identity_days,
    memory_out, rows_of,
};
use dcm_base::Std;
use dcm_cli::obey;
use dcm_files::{FileKind, Opened, System};
use dcm_test_devices::{ALL, Steps, joined, split};
use std::alloc::{AllocError, Global};
use std::io;
use std::io::ErrorKind;
use std::test::Fail;

/// A key of 16 bytes.
const KEY: &[u8] = b"a key of 16 byte";

/// A key that is too short by a byte.
const SHORT_KEY: &[u8] = b"a key of 15 byt";

/// A regular file.
const REGULAR: FileKind = FileKind::Regular {
    device: 1,
    number: 2,
    size: 3,
};

/// A file that may change after its first reading.
#[derive(Clone, Copy)]
struct Changing<'a> {
    first: &'a [u8],
    second: &'a [u8],
    kind: FileKind,
    /// The bytes of a call.
    step: usize,
    /// How many calls of the first reading go well.
    good: usize,
}

/// A file that stays, read in steps.
fn staying(bytes: &[u8], step: usize) -> Changing<'_> {
    Changing {
        first: bytes,
        second: bytes,
        kind: REGULAR,
        step,
        good: ALL,
    }
}

/// A system with a key and such a file.
#[derive(Drop)]
struct Twice<'a> {
    file: Changing<'a>,
    opened: usize,
    room: Option<Vec<u8>>,
    written: Option<Vec<u8>>,
}

impl<'a> Twice<'a> {
    /// The file as it is opened this time.
    fn file_now(&mut self) -> Opened<Std<Steps<'a>>> {
        let is_first = self.opened == 0;
        self.opened = self.opened.saturating_add(1);
        let file = self.file;
        let steps = if is_first {
            Steps {
                rest: file.first,
                step: file.step,
                good: file.good,
            }
        } else {
            Steps {
                rest: file.second,
                step: file.step,
                good: ALL,
            }
        };
        Opened {
            device: Std::new(steps),
            kind: file.kind,
        }
    }

    /// The output.
    fn output(&mut self) -> io::Result<Opened<Std<Vec<u8>>>> {
        match self.room.take() {
            Some(room) => Ok(Opened {
                device: Std::new(room),
                kind: FileKind::Other,
            }),
            None => Err(io::Error::from(ErrorKind::StorageFull)),
        }
    }
}

/// A key.
fn key(bytes: &'static [u8]) -> Opened<Std<Steps<'static>>> {
    Opened {
        device: Std::new(Steps {
            rest: bytes,
            step: ALL,
            good: ALL,
        }),
        kind: FileKind::Other,
    }
}

impl<'a> System for Twice<'a> {
    type Input = Std<Steps<'a>>;

    type Output = Std<Vec<u8>>;

    ghost may_do = { anything };

    fn words(&mut self) -> Result<Vec<Vec<u8>>, AllocError> {
        Err(AllocError)
    }

    fn stdin(&mut self) -> Opened<Std<Steps<'a>>> {
        self.file_now()
    }

    fn open(&mut self, path: &str) -> io::Result<Opened<Std<Steps<'a>>>> {
        if path == "KEY" {
            return Ok(key(KEY));
        }
        if path == "SHORT" {
            return Ok(key(SHORT_KEY));
        }
        Ok(self.file_now())
    }

    fn release(&mut self, _input: Std<Steps<'a>>) {}

    fn stdout(&mut self) -> io::Result<Opened<Std<Vec<u8>>>> {
        self.output()
    }

    fn create(&mut self, _path: &str) -> io::Result<Opened<Std<Vec<u8>>>> {
        self.output()
    }

    fn kind_at(&mut self, _path: &str) -> io::Result<Option<FileKind>> {
        Ok(None)
    }

    fn create_new(&mut self, _path: &str) -> io::Result<Opened<Std<Vec<u8>>>> {
        self.output()
    }

    fn seize(&mut self, _path: &str) -> io::Result<bool> {
        Ok(true)
    }

    fn holds(&mut self, _path: &str) -> bool {
        true
    }

    fn keep_mode(&mut self, _from: &str, _to: &str) -> io::Result<()> {
        Ok(())
    }

    fn rename(&mut self, _from: &str, _to: &str) -> io::Result<()> {
        Ok(())
    }

    fn remove(&mut self, _path: &str) -> io::Result<()> {
        Ok(())
    }

    fn close(&mut self, output: Std<Vec<u8>>) -> io::Result<()> {
        self.written = Some(output.into_inner());
        Ok(())
    }
}

/// What words leave: their answer, and how often the file was opened.
#[derive(Drop)]
struct Left {
    answer: Answer,
    opened: usize,
}

/// What words leave over such a file.
fn obeyed(alloc: Global, line: &'static str, file: Changing<'_>) -> Result<Left, AllocError> {
    let words = split(alloc, line)?;
    let mut errors = memory_out(alloc, 200)?;
    let mut system = Twice {
        file,
        opened: 0,
        room: Some(Vec::new(alloc)),
        written: None,
    };
    let status = obey(&mut system, alloc, words.as_slice(), &mut errors);
    let Twice {
        opened,
        written,
        ..
    } = system;
    Ok(Left {
        answer: Answer {
            status,
            output: written.unwrap_or(Vec::new(alloc)),
            told: bytes_in(alloc, errors.device())?,
        },
        opened,
    })
}

/// Expects the answer of a row, in pieces of several sizes.
fn expect_row(alloc: Global, row: &Row) -> Result<(), Fail> {
    let input = joined(alloc, row.start.bytes(), row.input)?;
    let output = joined(alloc, front_of(row), row.lines)?;
    let wanted = Wanted {
        status: row.status,
        output: output.as_slice(),
        told: row.told,
    };
    for step in STEPS {
        let left = obeyed(alloc, row.words, staying(input.as_slice(), step))?;
        expect_answer(row.name, &left.answer, wanted)?;
    }
    Ok(())
}

#[test]
fn days_of_the_key(rt: HostRuntime) -> Result<(), Fail> {
    let rows = rows_of(rt.alloc(), &identity_days())?;
    for row in rows.as_slice() {
        expect_row(rt.alloc(), row)?;
    }
    Ok(())
}

/// A date, and PatientID 1234.
const NAMED: &[u8] = b"\x08\0 \0DA\x08\020231231\x10\0 \0LO\x04\01234";

/// The same of another patient.
const OTHER: &[u8] = b"\x08\0 \0DA\x08\020231231\x10\0 \0LO\x02\077";

/// Words that move dates by the days of the key.
const WORDS: &str = "dcmdeid +rm key +k KEY FILE -";

/// A file with this data set in explicit VR little endian.
fn file_of(alloc: Global, set: &[u8]) -> Result<Vec<u8>, AllocError> {
    joined(alloc, dcm_test_devices::Start::ExplicitLittle.bytes(), set)
}

#[test]
fn a_file_that_changes(rt: HostRuntime) -> Result<(), Fail> {
    let alloc = rt.alloc();
    let first = file_of(alloc, NAMED)?;
    let second = file_of(alloc, OTHER)?;
    let stays = obeyed(alloc, WORDS, staying(first.as_slice(), 7))?;
    let changes = Changing {
        second: second.as_slice(),
        ..staying(first.as_slice(), 7)
    };
    let changed = obeyed(alloc, WORDS, changes)?;
    let wanted = Wanted {
        status: 0,
        output: stays.answer.output.as_slice(),
        told: b"",
    };
    expect_answer("the days of the first reading", &changed.answer, wanted)?;
    holds("changes", "opened twice", changed.opened == 2)
}

/// Expects that a file is opened once, and nothing is written.
fn expect_none(name: &'static str, left: &Left, status: u8, told: &[u8]) -> Result<(), Fail> {
    let wanted = Wanted {
        status,
        output: b"",
        told,
    };
    expect_answer(name, &left.answer, wanted)?;
    holds(name, "opened once", left.opened == 1)
}

#[test]
fn first_readings_that_fail(rt: HostRuntime) -> Result<(), Fail> {
    let alloc = rt.alloc();
    let file = file_of(alloc, NAMED)?;
    let fails = Changing {
        good: 28,
        ..staying(file.as_slice(), 7)
    };
    let left = obeyed(alloc, WORDS, fails)?;
    let told = b"dcmtools: reading failed after 196 bytes\n";
    expect_none("fails in PatientID", &left, 4, told)?;
    let fails = Changing {
        good: 29,
        ..staying(file.as_slice(), 7)
    };
    let left = obeyed(alloc, WORDS, fails)?;
    holds("fails after PatientID", "status", left.answer.status == 0)?;
    holds("fails after PatientID", "opened", left.opened == 2)
}

#[test]
fn no_regular_file(rt: HostRuntime) -> Result<(), Fail> {
    let alloc = rt.alloc();
    let file = file_of(alloc, NAMED)?;
    let told = b"dcmtools: input is no regular file\n";
    for kind in [FileKind::Other, FileKind::Unknown] {
        let pipe = Changing {
            kind,
            ..staying(file.as_slice(), 7)
        };
        let left = obeyed(alloc, WORDS, pipe)?;
        expect_none("a pipe", &left, 4, told)?;
    }
    Ok(())
}

#[test]
fn a_key_that_is_too_short(rt: HostRuntime) -> Result<(), Fail> {
    let alloc = rt.alloc();
    let file = file_of(alloc, NAMED)?;
    let told = b"dcmtools: V7: key is not 16 to 4096 bytes\n";
    for line in [
        "dcmdeid +pi +k SHORT FILE -",
        "dcmdeid +rm key +k SHORT FILE -",
    ] {
        let left = obeyed(alloc, line, staying(file.as_slice(), 7))?;
        let wanted = Wanted {
            status: 1,
            output: b"",
            told,
        };
        expect_answer("a key of 15 bytes", &left.answer, wanted)?;
        holds("a key of 15 bytes", "not opened", left.opened == 0)?;
    }
    Ok(())
}
