// What is shown of a text by Specific Character Set.
ghost use Rattle.std.specs.Prelude.{◌≡◌, ◌<◌, ◌≤◌, ◌+◌, [], ◌++◌, ◌^◌, codes, flat_map, length, slice_index, OnOk};
ghost use Rattle.dcm_text.specs.Runs.{run, state_of, bytes_left};
ghost use Rattle.dcm_text.specs.Sets.{sets_of};
ghost use Rattle.dcm_text.specs.Shown.{dumped as dumped_text, dumped_piece};
ghost use Rattle.dcm_text.specs.declared.set.TextKind.TheVariants.{OneValue};
ghost use Rattle.dcm_value.specs.Decoded as spec;
ghost use Rattle.dcm_value.specs.DecodedProgress.{decoded_identified};
ghost use Rattle.dcm_value.specs.Emits.{Emits};

use crate::display::Shown;
use crate::next_shown::next_shown;
use crate::units::append;
use crate::widths::CUT;
use arrayvec::ArrayVec;
use dcm_base::{DeviceOut, Watched, WriteFailed, uid_name};
use dcm_text::{Decoder, Meaning, Sets, TextKind};

/// What the empty value of Specific Character Set names: bytes from 80 on have no character.
pub fn default_sets() -> Sets
    ensures { result ≡ sets_of [] }
{
    Sets::DEFAULT
}

/// Whether something is a backslash, which parts values.
pub fn is_backslash(meaning: Meaning) -> bool
    ensures { result ≡ spec.is_backslash meaning }
{
    matches!(meaning, Meaning::Character('\\'))
}

/// Whether a byte goes on a character of UTF-8.
fn goes_on(byte: u8) -> bool
    ensures { result ≡ spec.goes_on byte }
{
    (0x80..=0xBF).contains(&byte)
}

/// Whether the byte at a place does.
fn goes_on_at(display: &[u8], at: usize) -> bool
    ensures { result ≡ spec.goes_on (slice_index display.now at) }
{
    match display.get(at) {
        Some(byte) => goes_on(*byte),
        None => false,
    }
}

/// How many bytes are left of a display of more than 66: 63, or those before the character that byte 64 goes on.
pub fn cut_size(display: &[u8]) -> usize
    ensures value { result ≡ spec.cut_size display.now }
    ensures most { result ≤ 63 }
{
    if !goes_on_at(display, CUT) {
        CUT
    } else if !goes_on_at(display, CUT - 1) {
        CUT - 1
    } else if !goes_on_at(display, CUT - 2) {
        CUT - 2
    } else {
        CUT - 3
    }
}

impl Shown {
    ghost use Rattle.dcm_value.specs.Shown.{display_of};

    /// Shows the parts of a text that a piece of it decides, and counts the backslashes among them.
    pub fn emit_decoded<W: DeviceOut>(
        &mut self,
        decoder: &mut Decoder,
        piece: &[u8],
        at_end: bool,
        backslashes: &mut u32,
        out: &mut Watched<W>,
    ) -> Result<(), WriteFailed>
        requires { backslashes.old + bytes_left decoder.old piece.now < 2 ^ 32 }
        ensures shown { Emits W.DeviceOut out.old out.new (display_of self.old) (display_of self.new)
            (flat_map dumped_piece (run at_end (state_of decoder.old) piece.now).0) result }
        ensures state { OnOk result (state_of decoder.new ≡ (run at_end (state_of decoder.old) piece.now).1) }
        ensures count { OnOk result (backslashes.new
            ≡ backslashes.old + spec.backslashes (run at_end (state_of decoder.old) piece.now).0) }
        ensures few { backslashes.new + length (state_of decoder.new).held
            ≤ backslashes.old + bytes_left decoder.old piece.now }
    {
        let mut rest = piece;
        while let Some((next, after)) = next_shown(decoder, rest, at_end) {
            self.emit(next.bytes(), out)?;
            *backslashes += next.backslashes() as u32;
            rest = after;
        }
        Ok(())
    }

    /// Shows a unique identifier, by its name where it has one, or as ASCII.
    pub fn emit_decoded_name<W: DeviceOut>(
        &mut self,
        uid: &[u8],
        out: &mut Watched<W>,
    ) -> Result<(), WriteFailed>
        requires { length uid.now < 2 ^ 32 }
        ensures { Emits W.DeviceOut out.old out.new (display_of self.old) (display_of self.new)
            (decoded_identified uid.now) result }
    {
        match uid_name(uid) {
            Some(name) => {
                self.emit(b"=", out)?;
                self.emit(name.as_bytes(), out)
            }
            None => self.emit_ascii(uid, out),
        }
    }

    /// Shows a text as ASCII, in brackets.
    fn emit_ascii<W: DeviceOut>(
        &mut self,
        text: &[u8],
        out: &mut Watched<W>,
    ) -> Result<(), WriteFailed>
        requires { length text.now < 2 ^ 32 }
        ensures { Emits W.DeviceOut out.old out.new (display_of self.old) (display_of self.new)
            (codes "[" ++ dumped_text (sets_of []) OneValue text.now ++ codes "]") result }
    {
        let mut decoder = Decoder::new(default_sets(), TextKind::OneValue);
        let mut values = 0;
        self.emit(b"[", out)?;
        self.emit_decoded(&mut decoder, text, true, &mut values, out)?;
        self.emit(b"]", out)
    }

    /// Appends what is still to be written, and the spaces after it: a long display is cut, and no character of it.
    pub fn append_decoded_end<const N: usize>(&self, line: &mut ArrayVec<u8, N>)
        requires { length line.old.items + 66 ≤ N }
        ensures items { line.new.items ≡ line.old.items ++ spec.decoded_ending (display_of self.now) }
        ensures within { length line.new.items ≤ length line.old.items + 66 }
    {
        if !self.is_cut() {
            return self.append_end(line);
        }
        let front = self.front();
        let (left, _) = front.split_at(cut_size(front).min(front.len()));
        append(left, line);
        append(b"...", line);
    }
}
