// Devices that cannot be opened, and files whose calls fail.
ghost use Rattle.std.specs.Prelude.{◌≡◌, None, true};
ghost use Rattle.dcm_files.specs.Devices.{anything};
ghost use Rattle.dcm_files.specs.Output.{anything as any_file};

use crate::runs::{bytes_in, holds, memory_out};
use dcm_base::{Device, DeviceIn, DeviceOut, ReadFailed, WriteFailed};
use dcm_cli::obey;
use dcm_files::{FileKind, Opened, OutputFile, System, Target};
use dcm_test_devices::split;
use std::alloc::{AllocError, Global};
use std::cell::Cell;
use std::io;
use std::io::{ErrorKind, Write};
use std::test::Fail;

/// What opening a path answers.
#[derive(Clone, Copy)]
enum Answer {
    Opens(FileKind),
    Fails(ErrorKind),
}

/// A device that counts the calls on it.
#[derive(Drop)]
struct Counted<'a> {
    calls: &'a Cell<usize>,
}

impl<'a> Counted<'a> {
    fn note(&mut self) {
        self.calls.set(self.calls.get().saturating_add(1));
    }
}

impl<'a> Device for Counted<'a> {
    ghost has_failed = { λ _. true };

    fn failed(&self) -> bool {
        true
    }
}

impl<'a> DeviceIn for Counted<'a> {
    ghost remaining = { λ _. None };

    ghost gets = { λ old bytes new. Unit {0} };

    fn get(&mut self, _buf: &mut [u8]) -> Result<usize, ReadFailed> {
        self.note();
        Err(ReadFailed)
    }
}

impl<'a> DeviceOut for Counted<'a> {
    ghost contents = { λ _. None };

    ghost room = { λ _. None };

    ghost is_flushed = { λ _. true };

    fn put(&mut self, _bytes: &[u8]) -> Result<usize, WriteFailed> {
        self.note();
        Err(WriteFailed)
    }

    fn flush(&mut self) -> Result<(), WriteFailed> {
        self.note();
        Err(WriteFailed)
    }
}

/// A system with one answer for each path that is read, one for each that is looked at, if something is there, and one
/// for each that is written. It counts the outputs that are opened.
#[derive(Drop)]
struct Answers<'a> {
    input: Answer,
    there: Option<Answer>,
    output: Answer,
    outputs: &'a Cell<usize>,
    calls: &'a Cell<usize>,
}

impl<'a> Answers<'a> {
    fn opened(&self, kind: FileKind) -> Opened<Counted<'a>> {
        Opened {
            device: Counted { calls: self.calls },
            kind,
        }
    }

    fn answer(&self, answer: Answer) -> io::Result<Opened<Counted<'a>>> {
        match answer {
            Answer::Opens(kind) => Ok(self.opened(kind)),
            Answer::Fails(kind) => Err(io::Error::from(kind)),
        }
    }

    fn open_output(&self) -> io::Result<Opened<Counted<'a>>> {
        self.outputs.set(self.outputs.get().saturating_add(1));
        self.answer(self.output)
    }
}

impl<'a> System for Answers<'a> {
    type Input = Counted<'a>;

    type Output = Counted<'a>;

    ghost may_do = { anything };

    fn words(&mut self) -> Result<Vec<Vec<u8>>, AllocError> {
        Err(AllocError)
    }

    fn stdin(&mut self) -> Opened<Counted<'a>> {
        self.opened(FileKind::Other)
    }

    fn open(&mut self, _path: &str) -> io::Result<Opened<Counted<'a>>> {
        self.answer(self.input)
    }

    fn stdout(&mut self) -> io::Result<Opened<Counted<'a>>> {
        self.open_output()
    }

    fn create(&mut self, _path: &str) -> io::Result<Opened<Counted<'a>>> {
        self.open_output()
    }

    fn release(&mut self, _input: Counted<'a>) {}

    fn kind_at(&mut self, _path: &str) -> io::Result<Option<FileKind>> {
        match self.there {
            None => Ok(None),
            Some(Answer::Opens(kind)) => Ok(Some(kind)),
            Some(Answer::Fails(kind)) => Err(io::Error::from(kind)),
        }
    }

    fn create_new(&mut self, _path: &str) -> io::Result<Opened<Counted<'a>>> {
        self.open_output()
    }

    fn seize(&mut self, _path: &str) -> io::Result<bool> {
        Ok(true)
    }

    fn holds(&mut self, _path: &str) -> bool {
        true
    }

    fn keep_mode(&mut self, _from: &str, _to: &str) -> io::Result<()> {
        Ok(())
    }

    fn rename(&mut self, _from: &str, _to: &str) -> io::Result<()> {
        Ok(())
    }

    fn remove(&mut self, _path: &str) -> io::Result<()> {
        Ok(())
    }

    fn close(&mut self, _output: Counted<'a>) -> io::Result<()> {
        Ok(())
    }
}

/// What words leave: the status, standard error, whether outputs were opened, and whether there were calls on devices.
#[derive(Drop)]
struct Left {
    words: &'static str,
    status: u8,
    told: Vec<u8>,
    has_output: bool,
    has_calls: bool,
}

/// What words leave over such a system, where nothing is seen at the path of an output.
fn obeyed(
    alloc: Global,
    line: &'static str,
    input: Answer,
    output: Answer,
) -> Result<Left, AllocError> {
    obeyed_over(alloc, line, input, None, output)
}

/// What words leave over such a system.
fn obeyed_over(
    alloc: Global,
    line: &'static str,
    input: Answer,
    there: Option<Answer>,
    output: Answer,
) -> Result<Left, AllocError> {
    let words = split(alloc, line)?;
    let outputs = Cell::new(0usize);
    let calls = Cell::new(0usize);
    let mut errors = memory_out(alloc, 200)?;
    let mut system = Answers {
        input,
        there,
        output,
        outputs: &outputs,
        calls: &calls,
    };
    let status = obey(&mut system, alloc, words.as_slice(), &mut errors);
    Ok(Left {
        words: line,
        status,
        told: bytes_in(alloc, errors.device())?,
        has_output: outputs.get() > 0,
        has_calls: calls.get() > 0,
    })
}

/// Expects a status and a line, and calls on devices or none.
fn expect_left(left: &Left, status: u8, line: &[u8], has_calls: bool) -> Result<(), Fail> {
    holds(left.words, "status", left.status == status)?;
    holds(left.words, "line", left.told.as_slice() == line)?;
    holds(left.words, "calls", left.has_calls == has_calls)
}

const NO_INPUT: &[u8] = b"dcmtools: input cannot be opened\n";

const NO_OUTPUT: &[u8] = b"dcmtools: output cannot be opened\n";

const SAME: &[u8] = b"dcmtools: output is the input\n";

const THERE: &[u8] = b"dcmtools: output is there already\n";

const PART: &[u8] = b"dcmtools: output part is there: another run is at work, or was cut off\n";

const NO_TOOL: &[u8] = b"dcmtools: V1 at word 1: unknown tool\n";

const READ: &[u8] = b"dcmtools: reading failed after 0 bytes\n";

const NO_MEMORY: &[u8] = b"dcmtools: out of memory\n";

const FILE: Answer = Answer::Opens(FileKind::Regular {
    device: 1,
    number: 2,
    size: 3,
});

/// A regular file, by its device and number, with so many bytes.
fn regular(device: u64, number: u64, size: u64) -> Answer {
    Answer::Opens(FileKind::Regular {
        device,
        number,
        size,
    })
}

const PIPE: Answer = Answer::Opens(FileKind::Other);

/// The kinds of errors that are told as those of opening.
const FAILURES: [ErrorKind; 4] = [
    ErrorKind::NotFound,
    ErrorKind::PermissionDenied,
    ErrorKind::IsADirectory,
    ErrorKind::Interrupted,
];

/// Expects a status and a line where an input cannot be opened so, and where an output cannot.
fn expect_error(alloc: Global, kind: ErrorKind, status: u8, lines: [&[u8]; 2]) -> Result<(), Fail> {
    let [of_input, of_output] = lines;
    let left = obeyed(alloc, "dcmconv a b", Answer::Fails(kind), FILE)?;
    expect_left(&left, status, of_input, false)?;
    let left = obeyed(alloc, "dcmconv a b", FILE, Answer::Fails(kind))?;
    expect_left(&left, status, of_output, false)
}

#[test]
fn errors_of_opening(rt: HostRuntime) -> Result<(), Fail> {
    for kind in FAILURES {
        expect_error(rt.alloc(), kind, 4, [NO_INPUT, NO_OUTPUT])?;
    }
    let no_memory = [NO_MEMORY, NO_MEMORY];
    expect_error(rt.alloc(), ErrorKind::OutOfMemory, 5, no_memory)
}

#[test]
fn refused_devices(rt: HostRuntime) -> Result<(), Fail> {
    let directory = Answer::Opens(FileKind::Directory);
    let left = obeyed(rt.alloc(), "dcmdump a", directory, PIPE)?;
    expect_left(&left, 4, NO_INPUT, false)?;
    let left = obeyed(rt.alloc(), "dcmcopy a b", FILE, PIPE)?;
    expect_left(&left, 1, NO_TOOL, false)?;
    let left = obeyed(rt.alloc(), "dcmconv a b", FILE, PIPE)?;
    expect_left(&left, 4, READ, true)
}

#[test]
fn parts_that_are_there(rt: HostRuntime) -> Result<(), Fail> {
    let there = Answer::Fails(ErrorKind::AlreadyExists);
    let left = obeyed(rt.alloc(), "dcmdeid a b", FILE, there)?;
    expect_left(&left, 4, PART, false)?;
    let denied = Answer::Fails(ErrorKind::PermissionDenied);
    let left = obeyed(rt.alloc(), "dcmdeid a b", FILE, denied)?;
    expect_left(&left, 4, NO_OUTPUT, false)?;
    let full = Answer::Fails(ErrorKind::OutOfMemory);
    let left = obeyed(rt.alloc(), "dcmdeid a b", FILE, full)?;
    expect_left(&left, 5, NO_MEMORY, false)?;
    let left = obeyed(rt.alloc(), "dcmconv a b", FILE, there)?;
    expect_left(&left, 4, NO_OUTPUT, false)
}

#[test]
fn help_of_no_tool(rt: HostRuntime) -> Result<(), Fail> {
    for words in [
        "help foo",
        "--help a",
        "-h a",
        "help help",
        "foo -h",
        "foo help",
    ] {
        let left = obeyed(rt.alloc(), words, FILE, PIPE)?;
        expect_left(&left, 1, NO_TOOL, false)?;
    }
    Ok(())
}

/// Words, kinds of the input and of the output, and the line where they are not used together. With calls on the
/// devices the first one fails.
fn clashes() -> [(&'static str, Answer, Answer, &'static [u8]); 13] {
    let unknown = Answer::Opens(FileKind::Unknown);
    [
        ("dcmconv a b", FILE, FILE, SAME),
        ("dcmconv a -", FILE, FILE, SAME),
        ("dcmdump a", FILE, FILE, SAME),
        ("dcmconv +ow a b", FILE, FILE, SAME),
        ("dcmconv a b", FILE, regular(1, 3, 3), THERE),
        ("dcmconv a b", FILE, regular(1, 3, 0), READ),
        ("dcmconv a -", FILE, regular(1, 3, 3), READ),
        ("dcmconv +ow a b", FILE, regular(1, 3, 3), READ),
        ("dcmconv +ow a b", FILE, regular(2, 2, 3), READ),
        ("dcmconv a b", unknown, FILE, NO_OUTPUT),
        ("dcmconv +ow a b", unknown, FILE, NO_OUTPUT),
        ("dcmconv a b", unknown, regular(1, 2, 0), READ),
        ("dcmconv a b", FILE, unknown, READ),
    ]
}

#[test]
fn devices_that_are_one_file(rt: HostRuntime) -> Result<(), Fail> {
    for (words, input, output, line) in clashes() {
        let left = obeyed(rt.alloc(), words, input, output)?;
        expect_left(&left, 4, line, line == READ)?;
    }
    Ok(())
}

/// Words, what is seen at the path of the output, and the line where nothing is opened there.
fn seen() -> [(&'static str, Answer, &'static [u8]); 16] {
    let other = regular(1, 3, 3);
    let folder = Answer::Opens(FileKind::Directory);
    let denied = Answer::Fails(ErrorKind::PermissionDenied);
    let full = Answer::Fails(ErrorKind::OutOfMemory);
    [
        ("dcmconv a b", FILE, SAME),
        ("dcmconv +ow a b", FILE, SAME),
        ("dcmdeid a b", FILE, SAME),
        ("dcmdeid +ow a b", FILE, SAME),
        ("dcmconv a b", other, THERE),
        ("dump2dcm a b", other, THERE),
        ("dcmodify -ep a b", other, THERE),
        ("dcmdeid a b", other, THERE),
        ("dcmconv a b", denied, NO_OUTPUT),
        ("dcmconv +ow a b", denied, NO_OUTPUT),
        ("dcmdeid +ow a b", denied, NO_OUTPUT),
        ("dcmconv a b", full, NO_MEMORY),
        ("dcmdeid a b", full, NO_MEMORY),
        ("dcmdeid a b", PIPE, NO_OUTPUT),
        ("dcmdeid +ow a b", PIPE, NO_OUTPUT),
        ("dcmdeid a b", folder, NO_OUTPUT),
    ]
}

#[test]
fn outputs_that_are_seen(rt: HostRuntime) -> Result<(), Fail> {
    for (words, there, line) in seen() {
        let left = obeyed_over(rt.alloc(), words, FILE, Some(there), PIPE)?;
        let status = if line == NO_MEMORY { 5 } else { 4 };
        expect_left(&left, status, line, false)?;
        holds(words, "no output", !left.has_output)?;
    }
    Ok(())
}

/// Words, and what is seen at the path of an output that is opened all the same.
fn opened_over() -> [(&'static str, Answer); 5] {
    [
        ("dcmconv +ow a b", regular(1, 3, 3)),
        ("dcmconv a b", regular(1, 3, 0)),
        ("dcmconv a b", PIPE),
        ("dcmdeid +ow a b", regular(1, 3, 3)),
        ("dcmdeid a b", regular(1, 3, 0)),
    ]
}

#[test]
fn outputs_that_are_opened(rt: HostRuntime) -> Result<(), Fail> {
    for (words, there) in opened_over() {
        let left = obeyed_over(rt.alloc(), words, FILE, Some(there), PIPE)?;
        expect_left(&left, 4, READ, true)?;
        holds(words, "output", left.has_output)?;
    }
    Ok(())
}

#[test]
fn texts_that_fail(rt: HostRuntime) -> Result<(), Fail> {
    let denied = Answer::Fails(ErrorKind::PermissionDenied);
    let left = obeyed(rt.alloc(), "help", FILE, denied)?;
    expect_left(&left, 4, NO_OUTPUT, false)?;
    let left = obeyed(rt.alloc(), "dcmdump --version", FILE, PIPE)?;
    let line = b"dcmtools: output failed\n";
    expect_left(&left, 4, line, true)
}

/// Which call of a file fails.
#[derive(Clone, Copy, PartialEq, Eq)]
enum Call {
    HoldsBytes,
    Empty,
    Write,
    Flush,
    None,
}

/// How often a file was emptied, written and flushed.
#[derive(Clone, Copy, PartialEq, Eq)]
struct Calls {
    empties: usize,
    writes: usize,
    flushes: usize,
}

/// A file that holds bytes or none, and fails at one of its calls.
#[derive(Drop)]
struct Recorded<'a> {
    holds_bytes: bool,
    failing: Call,
    calls: &'a Cell<Calls>,
}

impl<'a> Recorded<'a> {
    fn answer(&self, call: Call) -> io::Result<()> {
        if call == self.failing {
            return Err(io::Error::from(ErrorKind::StorageFull));
        }
        Ok(())
    }
}

impl<'a> Target for Recorded<'a> {
    ghost may_do = { any_file };

    fn holds_bytes(&self) -> io::Result<bool> {
        self.answer(Call::HoldsBytes)?;
        Ok(self.holds_bytes)
    }

    fn empty(&mut self) -> io::Result<()> {
        let mut calls = self.calls.get();
        calls.empties = calls.empties.saturating_add(1);
        self.calls.set(calls);
        self.answer(Call::Empty)
    }

    fn write_some(&mut self, bytes: &[u8]) -> io::Result<usize> {
        let mut calls = self.calls.get();
        calls.writes = calls.writes.saturating_add(1);
        self.calls.set(calls);
        self.answer(Call::Write)?;
        Ok(bytes.len().min(1))
    }

    fn hand_on(&mut self) -> io::Result<()> {
        let mut calls = self.calls.get();
        calls.flushes = calls.flushes.saturating_add(1);
        self.calls.set(calls);
        self.answer(Call::Flush)
    }
}

/// What two writes and a flush on a file leave: whether each went well, and the calls of the file.
fn written(holds_bytes: bool, failing: Call) -> ([bool; 3], Calls) {
    let calls = Cell::new(Calls {
        empties: 0,
        writes: 0,
        flushes: 0,
    });
    let mut file = OutputFile::new(Recorded {
        holds_bytes,
        failing,
        calls: &calls,
    });
    let first = file.write(b"ab").is_ok();
    let second = file.write(b"b").is_ok();
    let flushed = file.flush().is_ok();
    ([first, second, flushed], calls.get())
}

fn expect_calls(left: ([bool; 3], Calls), well: [bool; 3], counts: [usize; 3]) -> Result<(), Fail> {
    let [empties, writes, flushes] = counts;
    let calls = Calls {
        empties,
        writes,
        flushes,
    };
    holds("a file", "results", left.0 == well)?;
    holds("a file", "calls", left.1 == calls)
}

#[test]
fn output_files() -> Result<(), Fail> {
    let well = [true, true, true];
    expect_calls(written(true, Call::None), well, [1, 2, 1])?;
    expect_calls(written(false, Call::None), well, [0, 2, 1])?;
    let unwritten = [false, false, true];
    expect_calls(written(true, Call::HoldsBytes), unwritten, [0, 0, 1])?;
    expect_calls(written(true, Call::Empty), unwritten, [2, 0, 1])?;
    expect_calls(written(true, Call::Write), unwritten, [1, 2, 1])?;
    let unflushed = [true, true, false];
    expect_calls(written(true, Call::Flush), unflushed, [1, 2, 1])
}
