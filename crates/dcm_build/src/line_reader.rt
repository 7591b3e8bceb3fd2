// The lines of an input, read piece by piece.
ghost use Rattle.std.specs.Prelude.{◌≡◌, ◌+◌, ◌<◌, ◌≤◌, None, get_or, length, take, IfOk, OnOk};
ghost use Rattle.dcm_base.specs.Lines.Limits as limits;
ghost use Rattle.dcm_base.specs.Reading.Reads as reads;
ghost use Rattle.dcm_build.specs.Builder as spec;
ghost use Rattle.dcm_build.specs.Building as steps;
ghost use Rattle.dcm_build.specs.Outputs as outputs;

use crate::build::BuildHalt;
use crate::file::{LineHalt, NewFile};
use arrayvec::ArrayVec;
use bstr::ByteSlice;
use dcm_base::{DeviceOut, LINE_LIMIT, LineFault, LineStop, Stopped, Watched};
use dcm_stream::INPUT_LIMIT;

/// A reader of lines: what the lines so far have built, the bytes of a line that has not ended, the most bytes of a
/// line, and the offset and the number of the line.
#[derive(Drop)]
pub struct LineReader {
    pub file: NewFile,
    pub line: ArrayVec<u8, LINE_LIMIT>,
    pub limit: usize,
    pub offset: u64,
    pub number: u64,
}

/// How many bytes there are before the first newline, or in all.
fn line_end(bytes: &[u8]) -> usize
    ensures plain { spec.Plain (take result bytes.now) }
    ensures within { result ≤ length bytes.now }
    ensures newline { result < length bytes.now → get_or bytes.now result 0 ≡ 10 }
{
    match bytes.find_byte(b'\n') {
        Some(at) => at,
        None => bytes.len(),
    }
}

/// Why nothing more is built.
fn halt(stopped: LineHalt, offset: u64, line: u64) -> BuildHalt
    ensures { result ≡ spec.halts stopped offset line }
{
    match stopped {
        Stopped::Refused(fault) => Stopped::Refused(LineStop {
            fault,
            offset,
            line,
        }),
        Stopped::Output => Stopped::Output,
    }
}

impl LineReader {
    /// The beginning of the first line.
    pub fn new(limit: usize) -> Self
        ensures { spec.building result None ≡ steps.build_start limit }
    {
        LineReader {
            file: NewFile::new(),
            line: ArrayVec::new(),
            limit,
            offset: 0,
            number: 1,
        }
    }

    /// Reads bytes that do not end the line.
    fn read_line_bytes(&mut self, bytes: &[u8])
        requires { length self.old.line.items + length bytes.now ≤ limits.LINE_LIMIT }
        ensures file { self.new.file ≡ self.old.file }
        ensures line { spec.line_at self.new ≡ spec.more (spec.line_at self.old) bytes.now }
    {
        let _ = self.line.try_extend_from_slice(bytes);
    }

    /// The line ends.
    fn end_line<W: DeviceOut>(&mut self, out: &mut Watched<W>) -> Result<(), BuildHalt>
        requires { spec.Stands (spec.line_at self.old) }
        ensures reached { outputs.Reached W.DeviceOut out.old out.new self.old self.new steps.line_taken
            steps.line_writes result }
        ensures place { OnOk result (spec.line_at self.new ≡ spec.next_line_at (spec.line_at self.old)) }
    {
        if let Err(stopped) = self.file.take_line(self.line.as_slice(), out) {
            return Err(halt(stopped, self.offset, self.number));
        }
        self.offset += self.line.len() as u64 + 1;
        self.number += 1;
        self.line.clear();
        Ok(())
    }

    /// The last line ends, which may lack its newline.
    fn end_last_line<W: DeviceOut>(&mut self, out: &mut Watched<W>) -> Result<(), BuildHalt>
        requires { spec.Stands (spec.line_at self.old) }
        ensures reached { outputs.Reached W.DeviceOut out.old out.new self.old self.new steps.last_line
            steps.last_writes result }
        ensures stands { OnOk result (spec.Stands (spec.line_at self.new)) }
    {
        if self.line.is_empty() {
            return Ok(());
        }
        self.end_line(out)
    }

    /// Reads a beginning of the bytes, and answers how many.
    fn read_some<W: DeviceOut>(
        &mut self,
        piece: &[u8],
        out: &mut Watched<W>,
    ) -> Result<usize, BuildHalt>
        requires some { 0 < length piece.now }
        requires stands { spec.Stands (spec.line_at self.old) }
        ensures some { IfOk result (λ n. (0 < n) × (n ≤ length piece.now)) }
        ensures fed { outputs.Fed W.DeviceOut out.old out.new self.old self.new (spec.bytes_read result piece.now)
            result }
        ensures stands { OnOk result (spec.Stands (spec.line_at self.new)) }
        ensures size { IfOk result (λ n. spec.read (spec.line_at self.new) ≡ spec.read (spec.line_at self.old) + n) }
        ensures within { OnOk result (spec.read (spec.line_at self.new) ≤ reads.INPUT_LIMIT) }
    {
        let read = self.offset + self.line.len() as u64;
        if read >= INPUT_LIMIT {
            let fault = Stopped::Refused(LineFault::TooLong);
            return Err(halt(fault, INPUT_LIMIT, 0));
        }
        if piece[0] == b'\n' {
            self.end_line(out)?;
            return Ok(1);
        }
        let most = (INPUT_LIMIT - read).min(piece.len() as u64) as usize;
        let (front, _) = piece.split_at(most.min(self.limit - self.line.len()));
        let n = line_end(front);
        if n > 0 {
            let (bytes, _) = front.split_at(n);
            self.read_line_bytes(bytes);
            return Ok(n);
        }
        let fault = Stopped::Refused(LineFault::LineTooLong);
        Err(halt(fault, self.offset, self.number))
    }

    /// Reads all of the bytes, unless something halts it.
    pub fn read_all<W: DeviceOut>(
        &mut self,
        piece: &[u8],
        out: &mut Watched<W>,
    ) -> Result<(), BuildHalt>
        requires { spec.Stands (spec.line_at self.old) }
        ensures fed { outputs.Fed W.DeviceOut out.old out.new self.old self.new piece.now result }
        ensures stands { OnOk result (spec.Stands (spec.line_at self.new)) }
        ensures size { OnOk result
            (spec.read (spec.line_at self.new) ≡ spec.read (spec.line_at self.old) + length piece.now) }
        ensures within { OnOk result (spec.read (spec.line_at self.old) ≤ reads.INPUT_LIMIT
            → spec.read (spec.line_at self.new) ≤ reads.INPUT_LIMIT) }
    {
        let mut rest = piece;
        while !rest.is_empty() {
            let n = self.read_some(rest, out)?;
            let (_, after) = rest.split_at(n);
            rest = after;
        }
        Ok(())
    }

    /// Takes note that the input ends: the last line ends, and the file is closed if it may be.
    pub fn end<W: DeviceOut>(&mut self, out: &mut Watched<W>) -> Result<(), BuildHalt>
        requires { spec.Stands (spec.line_at self.old) }
        ensures reached { outputs.Reached W.DeviceOut out.old out.new self.old self.new steps.finishes
            steps.finish_writes result }
        ensures stands { OnOk result (spec.Stands (spec.line_at self.new)) }
    {
        let size = self.offset + self.line.len() as u64;
        self.end_last_line(out)?;
        if let Err(stopped) = self.file.finish(out) {
            return Err(halt(stopped, size, self.number));
        }
        Ok(())
    }
}
