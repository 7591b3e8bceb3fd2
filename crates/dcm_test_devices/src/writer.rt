// A writer that fails.
ghost use Rattle.dcm_devices.specs.StdDevice.{any_write, any_flush};

use dcm_devices::StdWriter;
use std::alloc::Global;
use std::cell::Cell;
use std::io;
use std::io::{ErrorKind, Write};

/// How a write fails.
#[derive(Clone, Copy)]
pub enum Failure {
    /// By an error.
    Error,
    /// It takes no byte.
    NoByte,
}

/// A writer of std that fails after so many bytes, or at a flush. It notes by a clock when it failed.
#[derive(Drop)]
pub struct FailWriter<'a> {
    /// What was written.
    pub bytes: Vec<u8>,
    good: usize,
    failure: Failure,
    flushes_well: bool,
    /// How often it was flushed.
    pub flushes: usize,
    /// When it failed first, 0 where it did not.
    pub failed_at: usize,
    clock: &'a Cell<usize>,
}

impl<'a> FailWriter<'a> {
    /// A writer of which so many bytes go well, and each flush or none.
    pub(crate) fn new(
        alloc: Global,
        good: usize,
        failure: Failure,
        flushes_well: bool,
        clock: &'a Cell<usize>,
    ) -> Self {
        FailWriter {
            bytes: Vec::new(alloc),
            good,
            failure,
            flushes_well,
            flushes: 0,
            failed_at: 0,
            clock,
        }
    }

    /// Notes that it fails.
    fn note_failure(&mut self) {
        if self.failed_at == 0 {
            self.failed_at = tick(self.clock);
        }
    }
}

/// The next time of a clock, from 1.
pub(crate) fn tick(clock: &Cell<usize>) -> usize {
    let now = clock.get().saturating_add(1);
    clock.set(now);
    now
}

impl<'a> Write for FailWriter<'a> {
    fn write(&mut self, bytes: &[u8]) -> io::Result<usize> {
        let n = self.good.min(bytes.len());
        if n == 0 {
            self.note_failure();
            return match self.failure {
                Failure::Error => Err(io::Error::from(ErrorKind::Interrupted)),
                Failure::NoByte => Ok(0),
            };
        }
        let (taken, _) = bytes.split_at(n);
        self.bytes.extend_from_slice(taken)?;
        self.good -= n;
        Ok(n)
    }

    fn flush(&mut self) -> io::Result<()> {
        self.flushes = self.flushes.saturating_add(1);
        if self.flushes_well {
            return Ok(());
        }
        self.note_failure();
        Err(io::Error::from(ErrorKind::Interrupted))
    }
}

impl<'a> StdWriter for FailWriter<'a> {
    ghost may_write = { any_write };

    ghost may_flush = { any_flush };

    fn write_some(&mut self, bytes: &[u8]) -> io::Result<usize> {
        self.write(bytes)
    }

    fn hand_on(&mut self) -> io::Result<()> {
        self.flush()
    }
}
