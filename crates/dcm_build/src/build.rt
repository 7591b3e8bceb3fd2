// A file that is built from the lines of a dump, which come in pieces.
ghost use Rattle.std.specs.Prelude.{◌≡◌, ◌+◌, ◌≤◌, OnOk, None, length, true, false};
ghost use Rattle.dcm_base.specs.Lines.Limits.{LINE_LIMIT};
ghost use Rattle.dcm_base.specs.Reading.Reads.{INPUT_LIMIT};
ghost use Rattle.dcm_build.specs.Builder as spec;
ghost use Rattle.dcm_build.specs.Building as steps;
ghost use Rattle.dcm_build.specs.Outputs as outputs;

use crate::line_reader::LineReader;
use dcm_base::{DeviceOut, LineStop, Stopped, Watched};
use std::marker::Model;

/// Why a builder goes no further: the input is refused, or the output failed.
pub type BuildHalt = Stopped<LineStop>;

/// Builds a file from the lines of a dump, and writes what is sure of it. It holds one line, the meta group and one
/// value.
#[derive(Drop)]
pub struct Builder {
    reader: LineReader,
    halt: Option<BuildHalt>,
}

impl Model for Builder {
    ghost use Rattle.std.specs.Prelude.{◌≡◌, None};
    ghost use Rattle.dcm_build.specs.Builder.{Progress, Stands, building, line_at, stop_of, is_output};

    ghost Value = { Progress };

    ghost view = { λ b. record { state = building b.reader (stop_of b.halt); failed = is_output b.halt } };

    ghost invariant = { λ b. b.halt ≡ None → Stands (line_at b.reader) };
}

impl Builder {
    /// A builder that refuses lines of more bytes than the limit.
    pub fn new(limit: usize) -> Self
        requires { limit ≤ LINE_LIMIT }
        ensures { result ≡ record { state = steps.build_start limit; failed = false } }
    {
        Builder {
            reader: LineReader::new(limit),
            halt: None,
        }
    }

    /// Reads the next bytes of the input. After a halt each call answers the same halt.
    pub fn feed<W: DeviceOut>(
        &mut self,
        piece: &[u8],
        out: &mut Watched<W>,
    ) -> Result<(), BuildHalt>
        ensures went { outputs.Went W.DeviceOut out.old out.new self.old self.new piece.now }
        ensures answer { result ≡ spec.answer self.new.state.told self.new.failed }
        ensures going { OnOk result (spec.is_halted self.new ≡ false) }
        ensures halted { spec.is_halted self.old ≡ true → (self.new ≡ self.old) × (out.new ≡ out.old) }
        // While nothing halts it, it reads each byte, and no more than the limit.
        ensures place { spec.is_halted self.new ≡ false
            → steps.read_size self.new.state ≡ steps.read_size self.old.state + length piece.now }
        ensures within { spec.is_halted self.new ≡ false → steps.read_size self.old.state ≤ INPUT_LIMIT
            → steps.read_size self.new.state ≤ INPUT_LIMIT }
    {
        if self.halt.is_none() {
            self.halt = self.reader.read_all(piece, out).err();
        }
        Stopped::answer(self.halt)
    }

    /// Takes note that the input ends. If this is no fault, the file is complete.
    pub fn finish<W: DeviceOut>(&mut self, out: &mut Watched<W>) -> Result<(), BuildHalt>
        ensures wrote { outputs.Finished W.DeviceOut out.old out.new self.old self.new steps.finish_writes }
        ensures state { self.new.failed ≡ false → self.new.state ≡ steps.finishes self.old.state }
        ensures answer { result ≡ spec.answer self.new.state.told self.new.failed }
        ensures going { OnOk result (spec.is_halted self.new ≡ false) }
        ensures halted { spec.is_halted self.old ≡ true → (self.new ≡ self.old) × (out.new ≡ out.old) }
    {
        if self.halt.is_none() {
            self.halt = self.reader.end(out).err();
        }
        Stopped::answer(self.halt)
    }
}
