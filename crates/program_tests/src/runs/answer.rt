// What runs answer, and what they leave beside.
use super::rows::{DEVICE, Done};
use dcm_base::{Std, Watched};
use dcm_tables::obey;
use dcm_test_devices::{Counts, Devices, Loaded, Memory};
use std::alloc::{AllocError, Global};
use std::cell::Cell;
use std::test::Fail;

/// What is wanted of a run, or what it left.
#[derive(Drop)]
pub struct Answer {
    /// The exit status.
    pub status: u8,
    /// The bytes of standard output.
    pub output: Vec<u8>,
    /// The lines on standard error.
    pub told: Vec<u8>,
}

impl Answer {
    /// An answer that begins with a header.
    pub(crate) fn new(alloc: Global, header: &[u8]) -> Result<Self, AllocError> {
        Ok(Answer {
            status: 0,
            output: header.to_vec(alloc)?,
            told: Vec::new(alloc),
        })
    }

    /// Adds a line that begins with a name.
    fn report(&mut self, shown: &[u8], what: &[u8]) -> Result<(), AllocError> {
        self.told.extend_from_slice(b"dcmtools: ")?;
        self.told.extend_from_slice(shown)?;
        self.told.extend_from_slice(b": ")?;
        self.told.extend_from_slice(what)?;
        self.told.push(b'\n')?;
        Ok(())
    }

    /// Adds what comes of a name.
    pub(crate) fn add(&mut self, done: &Done) -> Result<(), AllocError> {
        self.output.extend_from_slice(done.row())?;
        self.status = self.status.max(done.status());
        match done.report() {
            Some(what) => self.report(done.shown(), what),
            None => Ok(()),
        }
    }

    /// Adds that a name has no row, and why.
    pub(crate) fn add_lost(&mut self, done: &Done, why: &[u8]) -> Result<(), AllocError> {
        self.status = DEVICE;
        self.report(done.shown(), why)
    }
}

/// What a run leaves beside its answer.
#[derive(Drop)]
pub struct Left {
    /// Its answer.
    pub answer: Answer,
    /// Whether an output was opened, and closed again.
    pub is_closed: bool,
    /// How often it was flushed.
    pub flushes: usize,
    /// What was opened.
    pub counts: Counts,
    /// Whether an input was opened after the output had failed.
    pub is_late: bool,
}

/// What a system leaves, with a status and lines.
pub fn left_by(alloc: Global, system: Memory, status: u8, told: Vec<u8>) -> Left {
    let counts = system.counts;
    match system.into_written() {
        Some(written) => Left {
            is_closed: true,
            flushes: written.flushes,
            counts,
            is_late: written.failed_at > 0 && written.failed_at < counts.opened_at,
            answer: Answer {
                status,
                output: written.bytes,
                told,
            },
        },
        None => Left {
            is_closed: false,
            flushes: 0,
            counts,
            is_late: false,
            answer: Answer {
                status,
                output: Vec::new(alloc),
                told,
            },
        },
    }
}

/// What words leave over files, by devices that work so.
pub fn run_over(alloc: Global, words: &[&[u8]], files: &[Loaded], devices: Devices) -> Left {
    let clock = Cell::new(0);
    let mut errors = Watched::new(Std::new(devices.errors(alloc, &clock)));
    let mut system = Memory::new(alloc, files, devices, &clock);
    let status = obey(&mut system, alloc, words, &mut errors);
    let told = errors.into_device().into_inner().bytes;
    left_by(alloc, system, status, told)
}

/// Expects that something is so in the run with this name.
pub fn holds(name: &str, what: &str, is_so: bool) -> Result<(), Fail> {
    if is_so {
        Ok(())
    } else {
        Err(Fail::new(format_args!("{name}: {what}")))
    }
}

/// Expects an answer, by an output that was closed, and that nothing is left open.
pub fn expect_answer(name: &str, left: &Left, wanted: &Answer) -> Result<(), Fail> {
    let answer = &left.answer;
    holds(name, "status", answer.status == wanted.status)?;
    holds(name, "output", answer.output == wanted.output)?;
    holds(name, "lines", answer.told == wanted.told)?;
    holds(name, "closed", left.is_closed)?;
    holds(name, "left open", left.counts.open == 0)?;
    holds(name, "open at one time", left.counts.most_open <= 2)?;
    holds(name, "opened late", !left.is_late)
}
