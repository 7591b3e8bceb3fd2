// The dump of a data set.
ghost use Rattle.std.specs.Prelude.{◌≡◌};
ghost use Rattle.std.specs.Borrow.{GName};
ghost use Rattle.dcm_base.specs.declared.dictionary.Dictionary.TheVariants.{Extract};
ghost use Rattle.dcm_sinks.specs.DumpSink.{DumpState, dump_step, dump_writes, dump_start, bars_nothing};

mod decoded;
mod decoded_header;
mod header;
mod in_force;
mod layout;
mod lengths;
mod line_sink;
mod lines;
mod list_lines;

use crate::dump::lines::Lines;
use dcm_base::{DeviceOut, Dictionary, Mode, Syntax, Watched, WriteFailed, put_all};
use dcm_head::Head;
use dcm_stream::{Bar, Sink, Token};
pub use decoded::DecodedDumpSink;
pub use decoded_header::{decoded_alone_header, decoded_dump_header};
pub use header::{dump_header, dump_header_with, set_header};
pub use line_sink::LineSink;

/// A sink that writes the lines of a data set. It bars nothing.
#[derive(Drop)]
pub struct DumpSink<'w, W> {
    out: &'w mut Watched<W>,
    lines: Lines,
}

impl<'w, W: DeviceOut> DumpSink<'w, W> {
    ghost use Rattle.dcm_sinks.specs.Lines.{state};

    /// The beginning of a dump whose elements are called as the extract says.
    pub fn new(out: &'w mut Watched<W>, mode: Mode) -> Self
        ensures same_reference { result.out.ghost_name ≡ out.entry.ghost_name }
        ensures out { result.out.now ≡ out.old }
        ensures state { state result.lines ≡ dump_start Extract mode }
    {
        DumpSink::with_dictionary(out, Dictionary::Extract, mode)
    }

    /// The beginning of a dump whose elements are called as the dictionary says.
    pub fn with_dictionary(out: &'w mut Watched<W>, dictionary: Dictionary, mode: Mode) -> Self
        ensures same_reference { result.out.ghost_name ≡ out.entry.ghost_name }
        ensures out { result.out.now ≡ out.old }
        ensures state { state result.lines ≡ dump_start dictionary mode }
    {
        DumpSink {
            out,
            lines: Lines::new(dictionary, mode),
        }
    }
}

impl<'w, W: DeviceOut> Sink for DumpSink<'w, W> {
    ghost use Rattle.dcm_sinks.specs.Lines.{state as lines_state};

    ghost State = { DumpState };

    ghost state = { λ d. lines_state d.lines };

    ghost step = { dump_step };

    ghost writes = { dump_writes };

    ghost bar = { bars_nothing };

    ghost contents = { λ d. W.contents d.out.now };

    ghost has_failed = { λ d. W.has_failed d.out.now };

    ghost Kept = { GName };

    ghost kept = { λ d. d.out.ghost_name };

    #[inline(always)]
    fn take(&mut self, token: Token) -> Result<(), WriteFailed> {
        self.lines.take(self.out, token)
    }

    #[inline(always)]
    fn take_whole(&mut self, head: Head, syntax: Syntax, value: &[u8]) -> Result<(), WriteFailed> {
        self.lines.take_whole(self.out, head, syntax, value)
    }

    fn accepts(&self, _head: &Head) -> Result<(), Bar> {
        Ok(())
    }
}

impl<'w, W: DeviceOut> LineSink for DumpSink<'w, W> {
    ghost use Rattle.dcm_sinks.specs.DumpSink.{as_before};
    ghost use Rattle.dcm_sinks.specs.Lines.{state as lines_state};

    ghost State = { DumpState };

    ghost state = { λ d. lines_state d.lines };

    ghost step = { dump_step };

    ghost writes = { dump_writes };

    ghost over = { as_before };

    ghost contents = { λ d. W.contents d.out.now };

    ghost has_failed = { λ d. W.has_failed d.out.now };

    ghost Kept = { GName };

    ghost kept = { λ d. d.out.ghost_name };

    #[inline(always)]
    fn show(&mut self, token: Token) -> Result<(), WriteFailed> {
        self.lines.take(self.out, token)
    }

    #[inline(always)]
    fn show_whole(&mut self, head: Head, syntax: Syntax, value: &[u8]) -> Result<(), WriteFailed> {
        self.lines.take_whole(self.out, head, syntax, value)
    }

    #[inline(always)]
    #[tactic(auto, using(crate::proofs::Dumps::PassedOver::all_as_before))]
    fn pass_over(&mut self, _token: Token) {}

    #[inline(always)]
    #[tactic(auto, using(crate::proofs::Dumps::PassedOver::all_as_before))]
    fn pass_over_whole(&mut self, _head: Head, _syntax: Syntax, _value: &[u8]) {}

    fn put_before(&mut self, text: &[u8]) -> Result<(), WriteFailed> {
        put_all(self.out, text)
    }
}
