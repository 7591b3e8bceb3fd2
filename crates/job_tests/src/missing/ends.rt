// What is done with an output at its end, where a call of the system fails.
ghost use Rattle.dcm_files.specs.Devices.{anything};

use crate::runs::{bytes_in, holds, memory_out, room};
use dcm_base::{Measured, MemIn, MemOut};
use dcm_cli::obey;
use dcm_files::{FileKind, MemFile, MemSystem, Opened, System};
use dcm_test_devices::{Start, split};
use std::alloc::{AllocError, Global};
use std::io;
use std::io::ErrorKind;
use std::test::Fail;

/// The output, and what it is written as.
const OUTPUT: &str = "b";

const PART: &str = "b.part";

const FAILED: &[u8] = b"dcmtools: output failed\n";

/// A call at the end of an output.
#[derive(Clone, Copy, PartialEq, Eq)]
enum Call {
    Close,
    KeepMode,
    Rename,
}

/// The place of each call among those at the end of an output, from 1; 0 of one that was not made.
#[derive(Clone, Copy, PartialEq, Eq)]
struct Order {
    keep_mode: usize,
    rename: usize,
    remove: usize,
}

impl Order {
    /// The place of the next call.
    fn next(self) -> usize {
        let last = self.keep_mode.max(self.rename).max(self.remove);
        last.saturating_add(1)
    }
}

const NO_CALL: Order = Order {
    keep_mode: 0,
    rename: 0,
    remove: 0,
};

/// Files in memory. One call at the end of an output may fail.
#[derive(Drop)]
struct Ending<'a> {
    files: MemSystem<'a>,
    failing: Option<Call>,
    order: Order,
}

impl<'a> Ending<'a> {
    /// The answer to a call.
    fn fails(&self, call: Call) -> io::Result<()> {
        if self.failing == Some(call) {
            return Err(io::Error::from(ErrorKind::PermissionDenied));
        }
        Ok(())
    }

    /// The answer to a call, whose paths are to be these.
    fn answer(&self, call: Call, paths: [&str; 2], due: [&str; 2]) -> io::Result<()> {
        self.fails(call)?;
        if paths != due {
            return Err(io::Error::from(ErrorKind::NotFound));
        }
        Ok(())
    }
}

impl<'a> System for Ending<'a> {
    type Input = MemIn<'a>;

    type Output = Measured;

    ghost may_do = { anything };

    fn words(&mut self) -> Result<Vec<Vec<u8>>, AllocError> {
        self.files.words()
    }

    fn stdin(&mut self) -> Opened<MemIn<'a>> {
        self.files.stdin()
    }

    fn open(&mut self, path: &str) -> io::Result<Opened<MemIn<'a>>> {
        self.files.open(path)
    }

    fn release(&mut self, input: MemIn<'a>) {
        self.files.release(input);
    }

    fn stdout(&mut self) -> io::Result<Opened<Measured>> {
        self.files.stdout()
    }

    fn create(&mut self, path: &str) -> io::Result<Opened<Measured>> {
        self.files.create(path)
    }

    fn kind_at(&mut self, path: &str) -> io::Result<Option<FileKind>> {
        self.files.kind_at(path)
    }

    fn create_new(&mut self, path: &str) -> io::Result<Opened<Measured>> {
        self.files.create_new(path)
    }

    fn seize(&mut self, path: &str) -> io::Result<bool> {
        self.files.seize(path)
    }

    fn holds(&mut self, path: &str) -> bool {
        self.files.holds(path)
    }

    fn keep_mode(&mut self, from: &str, to: &str) -> io::Result<()> {
        self.order.keep_mode = self.order.next();
        self.answer(Call::KeepMode, [from, to], [OUTPUT, PART])
    }

    fn rename(&mut self, from: &str, to: &str) -> io::Result<()> {
        self.order.rename = self.order.next();
        self.answer(Call::Rename, [from, to], [PART, OUTPUT])
    }

    fn remove(&mut self, path: &str) -> io::Result<()> {
        self.order.remove = self.order.next();
        self.files.remove(path)
    }

    fn close(&mut self, output: Measured) -> io::Result<()> {
        self.files.close(output)?;
        self.fails(Call::Close)
    }
}

/// What a run over such files leaves: its status, its line, whether the output is there, and the calls at its end.
#[derive(Drop)]
struct Left {
    status: u8,
    told: Vec<u8>,
    is_there: bool,
    order: Order,
}

/// What words leave of a file that is this input.
fn obeyed(
    alloc: Global,
    words: &str,
    input: &[u8],
    failing: Option<Call>,
) -> Result<Left, AllocError> {
    let words = split(alloc, words)?;
    let files = [MemFile {
        name: b"a",
        number: 1,
        bytes: input,
    }];
    let mut errors = memory_out(alloc, 200)?;
    let mut system = Ending {
        files: MemSystem::new(&files, b"", MemOut::new(room(alloc, 2000)?)),
        failing,
        order: NO_CALL,
    };
    let status = obey(&mut system, alloc, words.as_slice(), &mut errors);
    let Ending { files, order, .. } = system;
    Ok(Left {
        status,
        told: bytes_in(alloc, errors.device())?,
        is_there: files.into_written().is_some(),
        order,
    })
}

/// What taking identity out of a file leaves.
fn deidentified(alloc: Global, failing: Option<Call>) -> Result<Left, AllocError> {
    obeyed(alloc, "dcmdeid a b", Start::ExplicitLittle.bytes(), failing)
}

/// Expects that a run failed by its output, which is gone, after these calls.
fn expect_failure(alloc: Global, call: Call, order: Order) -> Result<(), Fail> {
    let left = deidentified(alloc, Some(call))?;
    holds("a call fails", "status", left.status == 4)?;
    holds("a call fails", "line", left.told.as_slice() == FAILED)?;
    holds("a call fails", "output", !left.is_there)?;
    holds("a call fails", "calls", left.order == order)
}

#[test]
fn mode_is_kept_before_the_move(rt: HostRuntime) -> Result<(), Fail> {
    let left = deidentified(rt.alloc(), None)?;
    holds("all goes well", "status", left.status == 0)?;
    holds("all goes well", "line", left.told.is_empty())?;
    holds("all goes well", "output", left.is_there)?;
    let order = Order {
        keep_mode: 1,
        rename: 2,
        remove: 0,
    };
    holds("all goes well", "calls", left.order == order)
}

#[test]
fn parts_that_cannot_be_named_are_removed(rt: HostRuntime) -> Result<(), Fail> {
    let without_mode = Order {
        keep_mode: 1,
        rename: 0,
        remove: 2,
    };
    expect_failure(rt.alloc(), Call::KeepMode, without_mode)?;
    let not_moved = Order {
        keep_mode: 1,
        rename: 2,
        remove: 3,
    };
    expect_failure(rt.alloc(), Call::Rename, not_moved)?;
    let not_closed = Order {
        keep_mode: 0,
        rename: 0,
        remove: 1,
    };
    expect_failure(rt.alloc(), Call::Close, not_closed)
}

#[test]
fn bytes_that_are_lost_at_the_closing_are_told(rt: HostRuntime) -> Result<(), Fail> {
    for input in [Start::ExplicitLittle.bytes(), b"no".as_slice()] {
        let left = obeyed(rt.alloc(), "dcmconv a b", input, Some(Call::Close))?;
        holds("a closing fails", "status", left.status == 4)?;
        holds("a closing fails", "line", left.told.as_slice() == FAILED)?;
        holds("a closing fails", "output", left.is_there)?;
    }
    Ok(())
}
