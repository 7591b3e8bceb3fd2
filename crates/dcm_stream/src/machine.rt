// The machine that reads a data set in pieces (PS3.5 7).
ghost use Rattle.std.specs.Prelude.{◌≡◌, ◌+◌, ◌≤◌, OnOk, None, length, true, false};
ghost use Rattle.dcm_base.specs.Reading.Reads as reads;
ghost use Rattle.dcm_stream.specs.Reading as steps;
ghost use Rattle.dcm_stream.specs.Machine as spec;
ghost use Rattle.dcm_stream.specs.Sinks as sinks;

use super::Sink;
use super::cursor::Cursor;
use dcm_base::{Coding, Stop, Stopped};
use std::marker::Model;

/// The most bytes of an input that are read. A longer one is refused as too long.
pub const INPUT_LIMIT: u64 = 1 << 62;

/// Why a machine goes no further: the input is refused, or the sink's output failed.
pub type Halt = Stopped<Stop>;

/// Reads a data set in pieces, and gives a sink each token as soon as it is sure. It holds at most 11 bytes of a
/// head and at most 129 open containers, and no byte of a value.
#[derive(Drop)]
pub struct Machine {
    cursor: Cursor,
    halt: Option<Halt>,
}

impl Model for Machine {
    ghost use Rattle.std.specs.Prelude.{◌≡◌, None};
    ghost use Rattle.dcm_stream.specs.Machine.{Progress, Stands, reading, stop_of, is_output};

    ghost Value = { Progress };

    ghost view = { λ m. record { reading = reading m.cursor (stop_of m.halt); failed = is_output m.halt } };

    ghost invariant = { λ m. m.halt ≡ None → Stands (reading m.cursor None) };
}

impl Machine {
    /// A machine for a data set in this coding, whose first byte is at this offset of the input.
    pub fn new(coding: Coding, start: u64) -> Self
        requires { start ≤ reads.INPUT_LIMIT }
        ensures { result ≡ record { reading = steps.start_of coding.syntax start; failed = false } }
    {
        Machine {
            cursor: Cursor::new(coding.syntax, start),
            halt: None,
        }
    }

    /// Reads the next bytes of the data set. Fails where they are refused, with the fault and its offset in the input,
    /// and where the sink's writer fails. After a halt each call answers the same halt.
    pub fn feed<S: Sink>(&mut self, piece: &[u8], sink: &mut S) -> Result<(), Halt>
        ensures advanced { sinks.Advanced S.Sink sink.old sink.new self.old self.new piece.now }
        ensures answer { result ≡ spec.answer self.new.reading.halt self.new.failed }
        ensures going { OnOk result (spec.is_halted self.new ≡ false) }
        ensures halted { spec.is_halted self.old ≡ true → (self.new ≡ self.old) × (sink.new ≡ sink.old) }
        // While nothing halts it, it reads each byte, and no more than the limit.
        ensures place { spec.is_halted self.new ≡ false → spec.next_offset self.new.reading
            ≡ spec.next_offset self.old.reading + length piece.now }
        ensures within { spec.is_halted self.new ≡ false → spec.next_offset self.new.reading ≤ reads.INPUT_LIMIT }
    {
        if self.halt.is_none() {
            self.halt = self.cursor.read_all(piece, sink).err();
        }
        Stopped::answer(self.halt)
    }

    /// The input ends. Where that is no fault, the data set is closed. Fails as `feed` does.
    pub fn finish<S: Sink>(&mut self, sink: &mut S) -> Result<(), Halt>
        ensures finished { sinks.Finished S.Sink sink.old sink.new self.old self.new }
        ensures answer { result ≡ spec.answer self.new.reading.halt self.new.failed }
        ensures reading { self.old.failed ≡ false
            → self.new.reading ≡ spec.ended (steps.finish self.old.reading) self.old.reading }
        ensures halted { spec.is_halted self.old ≡ true → (self.new ≡ self.old) × (sink.new ≡ sink.old) }
    {
        if self.halt.is_none() {
            self.halt = self.cursor.end(sink).err();
        }
        Stopped::answer(self.halt)
    }
}
