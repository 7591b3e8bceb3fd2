// Devices that fail, and what a run over them leaves.
ghost use Rattle.std.specs.Prelude.{◌≡◌, Some};
ghost use Rattle.dcm_devices.specs.StdDevice.{any_write, any_flush};

use crate::runs::{bytes_in, job_status, memory_out};
use dcm_base::{Device, DeviceIn, ReadFailed, Std, Watched};
use dcm_cli::Job;
use dcm_devices::StdWriter;
use dcm_test_devices::{ALL, Failure, Steps};
use std::alloc::{AllocError, Global};
use std::cell::Cell;
use std::io;
use std::io::{ErrorKind, Write};

/// The room for an output, and for a line.
const ROOM: usize = 3000;

/// A writer of std that takes one byte a call, and fails at the write after so many good ones, or at a flush. It counts
/// its calls by a clock that it shares with other writers.
#[derive(Drop)]
struct FailWriter<'a> {
    bytes: Vec<u8>,
    good: usize,
    failure: Failure,
    flushes_well: bool,
    has_failed: bool,
    flushes: usize,
    /// How many calls came after it had failed.
    late: usize,
    /// The times of the first call and of the last, 0 where none came.
    first: usize,
    last: usize,
    clock: &'a Cell<usize>,
}

impl<'a> FailWriter<'a> {
    fn new(
        alloc: Global,
        good: usize,
        failure: Failure,
        flushes_well: bool,
        clock: &'a Cell<usize>,
    ) -> Self {
        FailWriter {
            bytes: Vec::new(alloc),
            good,
            failure,
            flushes_well,
            has_failed: false,
            flushes: 0,
            late: 0,
            first: 0,
            last: 0,
            clock,
        }
    }

    /// Notes the time of a call.
    fn note(&mut self) {
        let now = self.clock.get().saturating_add(1);
        self.clock.set(now);
        if self.first == 0 {
            self.first = now;
        }
        self.last = now;
        if self.has_failed {
            self.late = self.late.saturating_add(1);
        }
    }
}

impl<'a> Write for FailWriter<'a> {
    fn write(&mut self, bytes: &[u8]) -> io::Result<usize> {
        self.note();
        if self.good == 0 {
            self.has_failed = true;
            return match self.failure {
                Failure::Error => Err(io::Error::from(ErrorKind::Interrupted)),
                Failure::NoByte => Ok(0),
            };
        }
        self.good -= 1;
        match bytes {
            [byte, ..] => {
                self.bytes.push(*byte)?;
                Ok(1)
            }
            [] => Ok(0),
        }
    }

    fn flush(&mut self) -> io::Result<()> {
        self.note();
        self.flushes = self.flushes.saturating_add(1);
        if self.flushes_well {
            return Ok(());
        }
        self.has_failed = true;
        Err(io::Error::from(ErrorKind::Interrupted))
    }
}

impl<'a> StdWriter for FailWriter<'a> {
    ghost may_write = { any_write };

    ghost may_flush = { any_flush };

    fn write_some(&mut self, bytes: &[u8]) -> io::Result<usize> {
        self.write(bytes)
    }

    fn hand_on(&mut self) -> io::Result<()> {
        self.flush()
    }
}

/// A reader over memory that tells its bytes, and fails after so many. What a run over it leaves is proved.
#[derive(Drop)]
struct FailMemory<'a> {
    rest: &'a [u8],
    good: usize,
    failed: bool,
}

impl<'a> Device for FailMemory<'a> {
    ghost has_failed = { λ r. r.failed };

    fn failed(&self) -> bool {
        self.failed
    }
}

impl<'a> DeviceIn for FailMemory<'a> {
    ghost remaining = { λ r. Some r.rest.now };

    ghost gets = { λ old bytes new. Unit {0} };

    fn get(&mut self, buf: &mut [u8]) -> Result<usize, ReadFailed> {
        if self.good == 0 {
            self.failed = true;
            return Err(ReadFailed);
        }
        let n = self.good.min(buf.len()).min(self.rest.len());
        let (front, rest) = self.rest.split_at(n);
        buf[..n].copy_from_slice(front);
        self.rest = rest;
        self.good -= n;
        Ok(n)
    }
}

/// How many calls go well that read, that write the output and that write a line, how the next write fails, and whether
/// a flush of the output goes well.
#[derive(Clone, Copy)]
pub struct Good {
    pub reads: usize,
    pub writes: usize,
    pub flush: bool,
    pub lines: usize,
    pub failure: Failure,
}

pub const SOUND: Good = Good {
    reads: ALL,
    writes: ALL,
    flush: true,
    lines: ALL,
    failure: Failure::Error,
};

/// What a run leaves.
#[derive(Drop)]
pub struct Left {
    pub status: u8,
    pub output: Vec<u8>,
    pub told: Vec<u8>,
    pub reading_failed: bool,
    pub flushes: usize,
    /// How many calls came on a writer that had failed.
    pub late: usize,
    /// Whether the last call on the output came before the first one that writes a line.
    pub in_order: bool,
}

/// Runs a job over devices of which so many calls go well.
pub fn run_over(alloc: Global, job: &Job, input: &[u8], good: Good) -> Left {
    let clock = Cell::new(0);
    let mut input = Watched::new(Std::new(Steps {
        rest: input,
        step: 1,
        good: good.reads,
    }));
    let out = FailWriter::new(alloc, good.writes, good.failure, good.flush, &clock);
    let mut out = Watched::new(Std::new(out));
    let errors = FailWriter::new(alloc, good.lines, good.failure, true, &clock);
    let mut errors = Watched::new(Std::new(errors));
    let status = job_status(job, &mut input, &mut out, &mut errors);
    let wrote = out.into_device().into_inner();
    let told = errors.into_device().into_inner();
    Left {
        status,
        reading_failed: input.failed(),
        flushes: wrote.flushes,
        late: wrote.late.saturating_add(told.late),
        in_order: told.first == 0 || wrote.last < told.first,
        output: wrote.bytes,
        told: told.bytes,
    }
}

/// What is written where reading fails after so many bytes, by a run that is proved to write exactly what is sure of
/// them.
pub fn sure_of(alloc: Global, job: &Job, input: &[u8], read: usize) -> Result<Vec<u8>, AllocError> {
    let mut input = Watched::new(FailMemory {
        rest: input,
        good: read,
        failed: false,
    });
    let mut out = memory_out(alloc, ROOM)?;
    let mut errors = memory_out(alloc, ROOM)?;
    job_status(job, &mut input, &mut out, &mut errors);
    bytes_in(alloc, out.device())
}
