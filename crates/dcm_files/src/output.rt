// A file that is written from its beginning.
ghost use Rattle.std.specs.Prelude.{◌≡◌, OnOk, true, false};
ghost use Rattle.std.specs.Io.{WritesAtMost};
ghost use Rattle.dcm_files.specs.Output as spec;
ghost use Rattle.dcm_files.specs.Output.{FileMayDo, Begins};

use std::fs::File;
use std::io;
use std::io::Write;

/// A file that can be written, and emptied before that.
pub trait Target {
    /// What the calls below may answer and leave.
    ghost may_do: { FileMayDo Self };

    /// Whether it is a regular file that holds bytes.
    fn holds_bytes(&self) -> io::Result<bool>
        ensures { may_do.holds self.now result };

    /// Truncates it to no bytes.
    fn empty(&mut self) -> io::Result<()>
        ensures { may_do.empties self.old result self.new };

    /// Writes some of the bytes, and answers how many.
    fn write_some(&mut self, bytes: &[u8]) -> io::Result<usize>
        ensures bound { WritesAtMost result bytes.now }
        ensures written { may_do.writes self.old bytes.now result self.new };

    /// Writes out what it holds back.
    fn hand_on(&mut self) -> io::Result<()>
        ensures { may_do.flushes self.old result self.new };
}

impl Target for File {
    ghost may_do = { spec.anything };

    fn holds_bytes(&self) -> io::Result<bool> {
        let file = self.metadata()?;
        Ok(file.is_file() && file.len() > 0)
    }

    fn empty(&mut self) -> io::Result<()> {
        self.set_len(0)
    }

    fn write_some(&mut self, bytes: &[u8]) -> io::Result<usize> {
        self.write(bytes)
    }

    fn hand_on(&mut self) -> io::Result<()> {
        self.flush()
    }
}

/// A file that is written from its beginning. What it held before stays until then.
#[derive(Drop)]
pub struct OutputFile<F> {
    file: F,
    is_begun: bool,
}

impl<F> OutputFile<F> {
    /// Of a file that was opened and not truncated.
    pub fn new(file: F) -> Self
        ensures file { result.file ≡ file }
        ensures begun { result.is_begun ≡ false }
    {
        OutputFile {
            file,
            is_begun: false,
        }
    }
}

impl<F: Target> OutputFile<F> {
    /// Truncates a regular file before its first byte is written. Streams and devices have nothing to truncate, and a
    /// new file is left alone: ext4 writes a file that was truncated to the disk when it is closed, which takes as
    /// long again.
    fn begin(&mut self) -> io::Result<()>
        ensures begins { Begins F.may_do self.old self.new result }
        ensures begun { OnOk result (self.new.is_begun ≡ true) }
    {
        if self.is_begun {
            return Ok(());
        }
        if self.file.holds_bytes()? {
            self.file.empty()?;
        }
        self.is_begun = true;
        Ok(())
    }
}

impl<F: Target> Write for OutputFile<F> {
    fn write(&mut self, bytes: &[u8]) -> io::Result<usize>
        ensures bound { WritesAtMost result bytes.now }
        ensures written { spec.Writes F.may_do self.old self.new bytes.now result }
    {
        self.begin()?;
        self.file.write_some(bytes)
    }

    fn flush(&mut self) -> io::Result<()>
        ensures flushed { F.may_do.flushes self.old.file result self.new.file }
        ensures begun { self.new.is_begun ≡ self.old.is_begun }
    {
        self.file.hand_on()
    }
}
