// The dump of a data set whose texts are shown as characters.
ghost use Rattle.std.specs.Prelude.{◌≡◌};
ghost use Rattle.std.specs.Borrow.{GName};
ghost use Rattle.dcm_sinks.specs.DecodedSink.{DecodedState, decoded_step, decoded_writes, decoded_start, bars_no_head};

use crate::dump::in_force::InForce;
use crate::dump::line_sink::LineSink;
use crate::dump::lines::texts::TextLines;
use dcm_base::{DeviceOut, Dictionary, Mode, Syntax, Watched, WriteFailed, put_all};
use dcm_head::Head;
use dcm_stream::{Bar, Sink, Token};

/// A sink that writes the lines of a data set as `DumpSink` does, but with its texts in UTF-8, by what is in force of
/// Specific Character Set (PS3.3 C.12.1.1.2). It bars nothing.
#[derive(Drop)]
pub struct DecodedDumpSink<'w, W> {
    out: &'w mut Watched<W>,
    lines: TextLines,
    in_force: InForce,
}

impl<'w, W: DeviceOut> DecodedDumpSink<'w, W> {
    ghost use Rattle.dcm_sinks.specs.DecodedLines.{state_of};

    /// The beginning of a dump whose elements are called as the dictionary says.
    pub fn new(out: &'w mut Watched<W>, dictionary: Dictionary, mode: Mode) -> Self
        ensures same_reference { result.out.ghost_name ≡ out.entry.ghost_name }
        ensures out { result.out.now ≡ out.old }
        ensures state { state_of result.lines result.in_force ≡ decoded_start dictionary mode }
    {
        DecodedDumpSink {
            out,
            lines: TextLines::new(dictionary, mode),
            in_force: InForce::new(),
        }
    }

    /// Whether a value of Specific Character Set that is whole names what is not known: it has more than 512 bytes, or a
    /// term that is no defined term and not empty.
    pub fn has_unknown(&self) -> bool
        ensures { result ≡ (state_of self.now.lines self.now.in_force).force.unknown }
    {
        self.in_force.has_unknown()
    }
}

impl<'w, W: DeviceOut> Sink for DecodedDumpSink<'w, W> {
    ghost use Rattle.dcm_sinks.specs.DecodedLines.{state_of as decoded_state_of};

    ghost State = { DecodedState };

    ghost state = { λ d. decoded_state_of d.lines d.in_force };

    ghost step = { decoded_step };

    ghost writes = { decoded_writes };

    ghost bar = { bars_no_head };

    ghost contents = { λ d. W.contents d.out.now };

    ghost has_failed = { λ d. W.has_failed d.out.now };

    ghost Kept = { GName };

    ghost kept = { λ d. d.out.ghost_name };

    #[inline(always)]
    fn take(&mut self, token: Token) -> Result<(), WriteFailed> {
        let written = self.lines.take(self.out, token, self.in_force.sets());
        self.in_force.take(token);
        written
    }

    #[inline(always)]
    fn take_whole(&mut self, head: Head, syntax: Syntax, value: &[u8]) -> Result<(), WriteFailed> {
        let sets = self.in_force.sets();
        let written = self.lines.take_whole(self.out, head, syntax, value, sets);
        self.in_force.take_whole(head, syntax, value);
        written
    }

    fn accepts(&self, _head: &Head) -> Result<(), Bar> {
        Ok(())
    }
}

impl<'w, W: DeviceOut> LineSink for DecodedDumpSink<'w, W> {
    ghost use Rattle.dcm_sinks.specs.DecodedLines.{state_of as decoded_state_of};
    ghost use Rattle.dcm_sinks.specs.DecodedSink.{passed_over};

    ghost State = { DecodedState };

    ghost state = { λ d. decoded_state_of d.lines d.in_force };

    ghost step = { decoded_step };

    ghost writes = { decoded_writes };

    ghost over = { passed_over };

    ghost contents = { λ d. W.contents d.out.now };

    ghost has_failed = { λ d. W.has_failed d.out.now };

    ghost Kept = { GName };

    ghost kept = { λ d. d.out.ghost_name };

    #[inline(always)]
    fn show(&mut self, token: Token) -> Result<(), WriteFailed> {
        self.take(token)
    }

    #[inline(always)]
    fn show_whole(&mut self, head: Head, syntax: Syntax, value: &[u8]) -> Result<(), WriteFailed> {
        self.take_whole(head, syntax, value)
    }

    #[inline(always)]
    fn pass_over(&mut self, token: Token) {
        self.in_force.take(token);
    }

    #[inline(always)]
    fn pass_over_whole(&mut self, head: Head, syntax: Syntax, value: &[u8]) {
        self.in_force.take_whole(head, syntax, value);
    }

    fn put_before(&mut self, text: &[u8]) -> Result<(), WriteFailed> {
        put_all(self.out, text)
    }
}
