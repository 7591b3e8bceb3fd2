// A data set in a target syntax.
ghost use Rattle.std.specs.Prelude.{◌≡◌};
ghost use Rattle.std.specs.Borrow.{GName};
ghost use Rattle.dcm_sinks.specs.EncodeSink.{EncodeState, encode_step, encode_writes, encode_start, encode_bar};

mod copier;
mod encoder;

use dcm_base::{DeviceOut, Form, Syntax, Watched, WriteFailed, form_of};
use dcm_head::Head;
use dcm_stream::{Bar, Sink, Token, WholeFailed};
pub use encoder::{Encoder, leaf_head};

/// A sink that writes a data set in a target syntax: with undefined lengths and delimiters, each sequence as SQ,
/// values of an even number of bytes, and no element numbered 0000 (PS3.5 7.1, 7.2, 7.5). It bars fragment lists
/// where the syntax has none.
#[derive(Drop)]
pub struct EncodeSink<'w, W> {
    out: &'w mut Watched<W>,
    encoder: Encoder,
}

impl<'w, W: DeviceOut> EncodeSink<'w, W> {
    ghost use Rattle.dcm_sinks.specs.Encoder.{state};

    /// The beginning of a data set in this syntax.
    pub fn new(out: &'w mut Watched<W>, target: Syntax) -> Self
        ensures same_reference { result.out.ghost_name ≡ out.entry.ghost_name }
        ensures out { result.out.now ≡ out.old }
        ensures state { state result.encoder ≡ encode_start target }
    {
        EncodeSink {
            out,
            encoder: Encoder::new(target),
        }
    }
}

impl<'w, W: DeviceOut> Sink for EncodeSink<'w, W> {
    ghost use Rattle.dcm_sinks.specs.Encoder.{state as encoder_state};

    ghost State = { EncodeState };

    ghost state = { λ e. encoder_state e.encoder };

    ghost step = { encode_step };

    ghost writes = { encode_writes };

    ghost bar = { encode_bar };

    ghost contents = { λ e. W.contents e.out.now };

    ghost has_failed = { λ e. W.has_failed e.out.now };

    ghost Kept = { GName };

    ghost kept = { λ e. e.out.ghost_name };

    #[inline(always)]
    fn take(&mut self, token: Token) -> Result<(), WriteFailed> {
        self.encoder.take(self.out, token)
    }

    #[inline(always)]
    fn take_whole(&mut self, head: Head, syntax: Syntax, value: &[u8]) -> Result<(), WriteFailed> {
        self.encoder.take_whole(self.out, head, syntax, value)
    }

    #[inline(always)]
    fn take_whole_telling(
        &mut self,
        head: Head,
        syntax: Syntax,
        value: &[u8],
    ) -> Result<(), WholeFailed> {
        self.encoder
            .take_whole_telling(self.out, head, syntax, value)
    }

    fn accepts(&self, head: &Head) -> Result<(), Bar> {
        if self.encoder.holds_fragments() {
            return Ok(());
        }
        match form_of(Syntax::LITTLE, head.vr, head.length) {
            Form::FragmentList => Err(Bar::Fragments),
            Form::Value | Form::Sequence | Form::Nothing => Ok(()),
        }
    }
}
