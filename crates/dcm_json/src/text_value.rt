//! The values of a text that comes in pieces.
ghost use Rattle.std.specs.Prelude.{◌≡◌, ◌≤◌, ◌<◌, ◌^◌, ◌+◌, ◌++◌, [], false, true, length, fold, OnOk};
ghost use Rattle.dcm_base.specs.Steps.Steps.{outputs};
ghost use Rattle.dcm_devices.specs.Writing.{Wrote};
ghost use Rattle.dcm_text.specs.Runs as runs;
ghost use Rattle.dcm_value.specs.DecodedProgress as decoded;
ghost use Rattle.dcm_json.specs.TextState as spec;
ghost use Rattle.dcm_json.specs.Texts as texts;
ghost use Rattle.dcm_json.specs.Values as spec_values;

use crate::shape::shape_of;
use crate::values::Values;
use dcm_base::{DeviceOut, Vr, Watched, WriteFailed};
use dcm_text::{Decoder, Sets, TextKind, in_cell, sets_of};
use std::marker::Model;

/// The values of a text, written as its bytes come in any pieces: decoded by Specific Character Set (PS3.3 C.12.1.1.2),
/// and cut into values. It holds at most the three bytes that the decoder holds, a byte 00, and 15 bytes that may be a
/// number.
#[derive(Drop)]
pub struct TextValue {
    left: u32,
    waits: bool,
    decoder: Decoder,
    values: Values,
    ghost few: { values.spaces + length (runs.state_of decoder).held + length (spec.waited waits) + left < 2 ^ 32 },
}

impl Model for TextValue {
    ghost use Rattle.dcm_json.specs.TextState.{TextState, state_by};

    ghost Value = { TextState };

    ghost view = { λ t. state_by t.left t.waits t.decoder t.values };
}

/// By what a text is read, where these sets are in force (PS3.5 6.1.2.3).
fn sets_for(vr: Vr, sets: Sets) -> Sets
    ensures { result ≡ decoded.sets_for vr sets }
{
    match vr {
        Vr::LO | Vr::LT | Vr::PN | Vr::SH | Vr::ST | Vr::UC | Vr::UT => sets,
        _ => sets_of(&[]),
    }
}

/// After which characters it goes on as it began.
fn kind_of(vr: Vr) -> TextKind
    ensures { result ≡ decoded.kind_of vr }
{
    match vr {
        Vr::PN => TextKind::Names,
        Vr::LO | Vr::SH | Vr::UC => TextKind::Values,
        _ => TextKind::OneValue,
    }
}

/// Bytes without one 00 at their end, and whether one stood there.
fn before_nul(bytes: &[u8]) -> (&[u8], bool)
    ensures front { result.0.now ≡ texts.without_nul bytes.now }
    ensures nul { result.1 ≡ spec.ends_in_nul bytes.now }
    ensures size { length result.0.now + length (spec.waited result.1) ≡ length bytes.now }
{
    let Some((last, front)) = bytes.split_last() else {
        return (bytes, false);
    };
    if *last == 0 {
        (front, true)
    } else {
        (bytes, false)
    }
}

/// The byte 00, where it waits.
fn waited(waits: bool) -> &'static [u8]
    ensures { result.now ≡ spec.waited waits }
{
    if waits { &[0] } else { &[] }
}

/// Takes bytes of a text, and perhaps its end, as far as they are decided.
fn decode<W: DeviceOut>(
    decoder: &mut Decoder,
    values: &mut Values,
    bytes: &[u8],
    at_end: bool,
    out: &mut Watched<W>,
) -> Result<(), WriteFailed>
    requires { values.old.spaces + length (runs.state_of decoder.old).held + length bytes.now < 2 ^ 64 }
    ensures decoder { OnOk result (runs.state_of decoder.new
        ≡ (runs.run at_end (runs.state_of decoder.old) bytes.now).1) }
    ensures values { OnOk result (values.new ≡ fold spec_values.step values.old
        (spec.parts_in (runs.run at_end (runs.state_of decoder.old) bytes.now))) }
    ensures few { values.new.spaces + length (runs.state_of decoder.new).held
        ≤ values.old.spaces + length (runs.state_of decoder.old).held + length bytes.now }
    ensures wrote { Wrote W.DeviceOut out.old out.new (outputs spec_values.step spec_values.writes values.old
        (spec.parts_in (runs.run at_end (runs.state_of decoder.old) bytes.now))) result }
{
    let mut rest = bytes;
    while let Some((part, after)) = decoder.next(rest, at_end) {
        values.take(in_cell(&part).as_slice(), out)?;
        rest = after;
    }
    Ok(())
}

/// The same of two pieces of a text that goes on.
fn decode_two<W: DeviceOut>(
    decoder: &mut Decoder,
    values: &mut Values,
    first: &[u8],
    second: &[u8],
    out: &mut Watched<W>,
) -> Result<(), WriteFailed>
    requires { values.old.spaces + length (runs.state_of decoder.old).held + length first.now + length second.now
        < 2 ^ 64 }
    ensures decoder { OnOk result (runs.state_of decoder.new
        ≡ (runs.run false (runs.state_of decoder.old) (first.now ++ second.now)).1) }
    ensures values { OnOk result (values.new ≡ fold spec_values.step values.old
        (spec.parts_in (runs.run false (runs.state_of decoder.old) (first.now ++ second.now)))) }
    ensures few { values.new.spaces + length (runs.state_of decoder.new).held
        ≤ values.old.spaces + length (runs.state_of decoder.old).held + length first.now + length second.now }
    ensures wrote { Wrote W.DeviceOut out.old out.new (outputs spec_values.step spec_values.writes values.old
        (spec.parts_in (runs.run false (runs.state_of decoder.old) (first.now ++ second.now)))) result }
{
    decode(decoder, values, first, false, out)?;
    decode(decoder, values, second, false, out)
}

/// Writes what the end of a text decides, and the end of its values.
fn finish_values<W: DeviceOut>(
    mut decoder: Decoder,
    mut values: Values,
    out: &mut Watched<W>,
) -> Result<(), WriteFailed>
    requires { values.spaces + length (runs.state_of decoder).held < 2 ^ 64 }
    ensures { Wrote W.DeviceOut out.old out.new (spec.finishes_from (runs.state_of decoder) values) result }
{
    decode(&mut decoder, &mut values, &[], true, out)?;
    values.finish(out)
}

impl TextValue {
    /// Before a text of so many bytes, of this representation, where these sets are in force.
    pub fn new(vr: Vr, sets: Sets, size: u32) -> TextValue
        ensures { result ≡ spec.started vr sets size }
    {
        TextValue {
            left: size,
            waits: false,
            decoder: Decoder::new(sets_for(vr, sets), kind_of(vr)),
            values: Values::new(shape_of(vr)),
        }
    }

    /// How many bytes are still to come.
    pub fn left(&self) -> u32
        ensures { result ≡ self.now.left }
    {
        self.left
    }

    /// Writes what bytes more decide. Fails where the writer fails, which has then taken a beginning of that.
    pub fn feed<W: DeviceOut>(
        &mut self,
        bytes: &[u8],
        out: &mut Watched<W>,
    ) -> Result<(), WriteFailed>
        requires some { 0 < length bytes.now }
        requires within { length bytes.now ≤ self.old.left }
        ensures state { OnOk result (self.new ≡ spec.fed self.old bytes.now) }
        ensures wrote { Wrote W.DeviceOut out.old out.new (spec.feeds self.old bytes.now) result }
    {
        let (front, waits) = before_nul(bytes);
        let before = waited(self.waits);
        self.waits = waits;
        self.left -= bytes.len() as u32;
        decode_two(&mut self.decoder, &mut self.values, before, front, out)?;
        Ok(())
    }

    /// Writes what the end of the text decides, and the end of its values; a byte 00 at the end does not count. Of a
    /// text of which nothing shows nothing is written. Fails where the writer fails, which has then taken a beginning.
    pub fn finish<W: DeviceOut>(self, out: &mut Watched<W>) -> Result<(), WriteFailed>
        ensures { Wrote W.DeviceOut out.old out.new (spec.finishes self) result }
    {
        let TextValue {
            decoder,
            values,
            ..
        } = self;
        finish_values(decoder, values, out)
    }
}
