// What is shown of a value, cut or whole.
ghost use Rattle.std.specs.Prelude.{◌≡◌, ◌==◌, ◌&&◌, nat_lt, ◌+◌, ◌-◌, ◌*◌, ◌/◌, ◌<◌, ◌≤◌, ◌++◌, length, take};
ghost use Rattle.std.specs.Prelude.{replicate, List};
ghost use Rattle.std.specs.Prelude.{ℕ, OnOk, true};
ghost use Rattle.dcm_value.specs.Emits.{Emits};
ghost use Rattle.dcm_base.specs.Dump.ValueText.{escaped, identified, shape, shown_unit as unit_size};
ghost use Rattle.dcm_value.specs.Units.{kind_of as spec_kind, separated_units};
ghost use Rattle.dcm_value.specs.Numbers.{numbers};
ghost use Rattle.dcm_value.specs.Swap.{IsUnit};
ghost use Rattle.dcm_value.specs.Woven.{woven};
ghost use Rattle.dcm_value.specs.Display as spec;

use crate::decimals::write_numbers;
use crate::escapes::{is_plain_text, write_text};
use crate::hexadecimal::{WOVEN_LANES, weave_blocks};
use crate::units::{
    BLOCK, BLOCK_BYTES, BLOCK_TEXT, FEW, FEW_TEXT, Kind, LONGEST, append_units, kind_of, shown_unit,
};
use crate::widths::{CUT, DISPLAY_WIDTH, UNCUT};
use arrayvec::ArrayVec;
use dcm_base::{DeviceOut, Mode, Syntax, Vr, Watched, WriteFailed, put_all, uid_name};

/// The bytes of text of a byte that is escaped: `%` and two digits.
const ESCAPED: usize = 3;

/// The most bytes of a text that become escaped text at a time: as many as a block of units has, so that one size of
/// buffer, `BLOCK_TEXT`, does for both.
const TEXT: usize = BLOCK_TEXT / ESCAPED;

/// The most bytes of a short text that is not plain. It is 80: more than the 64 of the longest LO and UI (PS3.5 6.2),
/// and its buffer is as large as that of few units, 240 bytes, which are blanked in a few steps. To blank that of a
/// long text takes longer than such a text.
const SHORT: usize = FEW_TEXT / ESCAPED;

/// Room for a short text in which each byte is escaped.
const SHORT_TEXT: usize = ESCAPED * SHORT;

/// The fewest bytes of units that become text in hexadecimal sixteen at a time. Those that are left over need a buffer
/// of their own, which of fewer bytes would be felt.
const FEWEST_WOVEN: usize = 128;

/// The most bytes that become text in hexadecimal at a time in short mode: three times sixteen have 96 digits, and of
/// these 66 are shown.
const WOVEN_SHORT: usize = 48;

/// Room for a block of units in hexadecimal: a byte has two digits and, where it is a unit, a backslash; and some more,
/// as the last lanes are stored past the end of their text.
const WOVEN_TEXT: usize = 3 * BLOCK_BYTES + WOVEN_LANES;

/// The most bytes that are counted: one more than are shown uncut stands for all that are more.
const COUNTED: usize = UNCUT + 1;

/// What was shown of a value.
#[derive(Drop)]
pub struct Shown {
    mode: Mode,
    count: usize,
    front: ArrayVec<u8, UNCUT>,
    ghost capped: { count ≤ 67 },
    ghost filled: { length front.items ≡ spec.front_size mode count },
}

/// As many of the bytes as there is room for.
fn fill(front: &mut ArrayVec<u8, UNCUT>, bytes: &[u8])
    ensures { front.new.items ≡ take 66 (front.old.items ++ bytes.now) }
{
    // To copy one byte, a bracket, would be a call.
    if let [byte] = bytes {
        let _ = front.try_push(*byte);
        return;
    }
    let count = front.remaining_capacity().min(bytes.len());
    let _ = front.try_extend_from_slice(&bytes[..count]);
}

/// Spaces after so many bytes, up to 40.
#[tactic(auto, using(crate::proofs::Displays::Facts::spaces))]
pub fn append_spaces<const N: usize>(shown: usize, line: &mut ArrayVec<u8, N>)
    requires { length line.old.items + (40 - shown) ≤ N }
    ensures items { line.new.items ≡ line.old.items ++ replicate (40 - shown) 32 }
    ensures len { length line.new.items ≡ length line.old.items + (40 - shown) }
{
    let spaces = [b' '; DISPLAY_WIDTH];
    let (_, rest) = spaces.split_at(shown.min(DISPLAY_WIDTH));
    let _ = line.try_extend_from_slice(rest);
}

impl Shown {
    ghost use Rattle.dcm_value.specs.Shown.{display_of};

    /// Nothing yet.
    pub fn new(mode: Mode) -> Shown
        ensures { display_of result ≡ spec.blank mode }
    {
        Shown {
            mode,
            count: 0,
            front: ArrayVec::new(),
        }
    }

    /// Whether nothing was shown.
    pub fn is_blank(&self) -> bool
        ensures { result ≡ (self.now.count == 0) }
    {
        self.count == 0
    }

    /// Whether it is cut, so that nothing more can be shown.
    pub fn is_cut(&self) -> bool
        ensures { result ≡ spec.is_cut (display_of self.now) }
    {
        self.mode == Mode::Short && self.count > UNCUT
    }

    /// In Short the first bytes that were shown, 66 at most.
    pub fn front(&self) -> &[u8]
        ensures { result.now ≡ (display_of self.now).front }
    {
        self.front.as_slice()
    }

    /// Shows these bytes.
    #[tactic(auto, unfolding(crate::specs::Display::emit))]
    #[inline(always)]
    pub fn emit<W: DeviceOut>(
        &mut self,
        bytes: &[u8],
        out: &mut Watched<W>,
    ) -> Result<(), WriteFailed>
        ensures { Emits W.DeviceOut out.old out.new (display_of self.old) (display_of self.new) bytes.now result }
    {
        match self.mode {
            Mode::Full => put_all(out, bytes)?,
            Mode::Short => fill(&mut self.front, bytes),
        }
        self.count = self.count.saturating_add(bytes.len()).min(COUNTED);
        Ok(())
    }

    /// Appends what is still to be written, and the spaces after it.
    pub fn append_end<const N: usize>(&self, line: &mut ArrayVec<u8, N>)
        requires { length line.old.items + 66 ≤ N }
        ensures items { line.new.items ≡ line.old.items ++ spec.ending (display_of self.now) }
        ensures within { length line.new.items ≤ length line.old.items + 66 }
    {
        match self.mode {
            Mode::Full => append_spaces(self.count, line),
            Mode::Short if self.count > UNCUT => {
                let cut = self.front.len().min(CUT);
                let _ = line.try_extend_from_slice(&self.front.as_slice()[..cut]);
                let _ = line.try_extend_from_slice(b"...");
            }
            Mode::Short => {
                let _ = line.try_extend_from_slice(self.front.as_slice());
                append_spaces(self.front.len(), line);
            }
        }
    }

    /// How many bytes of a text are looked at before they go out: in short mode so few that they are cut.
    fn text_at_a_time(&self) -> usize
        ensures some { 0 < result }
        ensures room { result ≤ TEXT }
    {
        match self.mode {
            Mode::Full => TEXT,
            Mode::Short => SHORT,
        }
    }

    /// Shows bytes of a text.
    pub fn emit_text<W: DeviceOut>(
        &mut self,
        bytes: &[u8],
        out: &mut Watched<W>,
    ) -> Result<(), WriteFailed>
        ensures { Emits W.DeviceOut out.old out.new (display_of self.old) (display_of self.new)
            (escaped bytes.now) result }
    {
        let mut rest = bytes;
        while !rest.is_empty() && !self.is_cut() {
            let (block, after) = rest.split_at(rest.len().min(self.text_at_a_time()));
            self.emit_part(block, out)?;
            rest = after;
        }
        Ok(())
    }

    /// Shows a part of a text. One that is plain goes out from where it is.
    fn emit_part<W: DeviceOut>(
        &mut self,
        bytes: &[u8],
        out: &mut Watched<W>,
    ) -> Result<(), WriteFailed>
        requires { length bytes.now ≤ TEXT }
        ensures { Emits W.DeviceOut out.old out.new (display_of self.old) (display_of self.new)
            (escaped bytes.now) result }
    {
        if is_plain_text(bytes) {
            return self.emit(bytes, out);
        }
        if bytes.len() <= SHORT {
            return self.emit_escaped::<SHORT_TEXT, W>(bytes, out);
        }
        self.emit_escaped::<BLOCK_TEXT, W>(bytes, out)
    }

    /// Shows a part of a text that need not be plain, by way of a buffer of N bytes. That is blanked for each call, so
    /// that a short text has a small one.
    fn emit_escaped<const N: usize, W: DeviceOut>(
        &mut self,
        bytes: &[u8],
        out: &mut Watched<W>,
    ) -> Result<(), WriteFailed>
        requires small { N ≤ BLOCK_TEXT }
        requires room { ESCAPED * length bytes.now ≤ N }
        ensures { Emits W.DeviceOut out.old out.new (display_of self.old) (display_of self.new)
            (escaped bytes.now) result }
    {
        let mut text = [0; N];
        let end = write_text(bytes, &mut text);
        self.emit(&text[..end], out)
    }

    /// Shows units, each after a backslash. Many of them have ways of their own.
    pub fn emit_units<W: DeviceOut>(
        &mut self,
        vr: Vr,
        syntax: Syntax,
        units: &[u8],
        out: &mut Watched<W>,
    ) -> Result<(), WriteFailed>
        ensures { Emits W.DeviceOut out.old out.new (display_of self.old) (display_of self.new)
            (separated_units vr syntax units.now) result }
    {
        if units.len() <= FEW * shown_unit(vr) || self.is_cut() {
            return self.emit_singly(vr, syntax, units, out);
        }
        match kind_of(vr) {
            Kind::Unsigned => self.emit_numbers(false, syntax.is_big(), vr.unit(), units, out),
            Kind::Signed => self.emit_numbers(true, syntax.is_big(), vr.unit(), units, out),
            Kind::Tags => self.emit_singly(vr, syntax, units, out),
            Kind::Hexadecimal => self.emit_hexadecimal(vr, syntax, units, out),
        }
    }

    /// Shows units in hexadecimal, each after a backslash. All but the last few become text by lanes.
    fn emit_hexadecimal<W: DeviceOut>(
        &mut self,
        vr: Vr,
        syntax: Syntax,
        units: &[u8],
        out: &mut Watched<W>,
    ) -> Result<(), WriteFailed>
        requires { spec_kind (shape vr) ≡ Kind.Hexadecimal }
        ensures { Emits W.DeviceOut out.old out.new (display_of self.old) (display_of self.new)
            (separated_units vr syntax units.now) result }
    {
        let size = vr.unit();
        if units.len() < FEWEST_WOVEN {
            return self.emit_singly(vr, syntax, units, out);
        }
        let (blocks, last) = units.split_at(units.len() / WOVEN_LANES * WOVEN_LANES);
        self.emit_blocks(size, !syntax.is_big(), blocks, out)?;
        self.emit_singly(vr, syntax, last, out)
    }

    /// Shows numbers, each after a backslash. They become text in a plain array, straight from their bytes.
    fn emit_numbers<W: DeviceOut>(
        &mut self,
        is_signed: bool,
        is_big: bool,
        size: usize,
        units: &[u8],
        out: &mut Watched<W>,
    ) -> Result<(), WriteFailed>
        requires { IsUnit size }
        ensures { Emits W.DeviceOut out.old out.new (display_of self.old) (display_of self.new)
            (numbers is_signed is_big size units.now) result }
    {
        let mut text = [0; BLOCK_TEXT];
        let mut rest = units;
        while !rest.is_empty() && !self.is_cut() {
            let (block, after) = rest.split_at(rest.len().min(BLOCK * size));
            let end = write_numbers(is_signed, is_big, size, block, &mut text);
            self.emit(&text[..end], out)?;
            rest = after;
        }
        Ok(())
    }

    /// How many bytes become text in hexadecimal before that goes out: in full mode as many as there is room for, so
    /// that what a call of the writer costs is shared by many.
    fn woven_at_a_time(&self) -> usize
        ensures some { 0 < result }
        ensures whole { 16 * (result / 16) ≡ result }
        ensures room { result ≤ BLOCK_BYTES }
    {
        match self.mode {
            Mode::Full => BLOCK_BYTES,
            Mode::Short => WOVEN_SHORT,
        }
    }

    /// Shows units in hexadecimal, each after a backslash. They become text sixteen bytes at a time.
    fn emit_blocks<W: DeviceOut>(
        &mut self,
        size: usize,
        is_turned: bool,
        units: &[u8],
        out: &mut Watched<W>,
    ) -> Result<(), WriteFailed>
        requires size { IsUnit size }
        requires whole { 16 * (length units.now / 16) ≡ length units.now }
        ensures { Emits W.DeviceOut out.old out.new (display_of self.old) (display_of self.new)
            (woven size is_turned units.now) result }
    {
        let most = self.woven_at_a_time();
        let mut text = [0; WOVEN_TEXT];
        let mut rest = units;
        while !rest.is_empty() && !self.is_cut() {
            let (block, after) = rest.split_at(rest.len().min(most));
            weave_blocks(size, is_turned, block, &mut text);
            self.emit(&text[..2 * block.len() + block.len() / size], out)?;
            rest = after;
        }
        Ok(())
    }

    /// Shows units, each after a backslash. Each becomes text by itself, but those of a block go out together. Most
    /// values have few.
    fn emit_singly<W: DeviceOut>(
        &mut self,
        vr: Vr,
        syntax: Syntax,
        units: &[u8],
        out: &mut Watched<W>,
    ) -> Result<(), WriteFailed>
        ensures { Emits W.DeviceOut out.old out.new (display_of self.old) (display_of self.new)
            (separated_units vr syntax units.now) result }
    {
        let size = shown_unit(vr);
        if !units.is_empty() && !self.is_cut() && units.len() <= FEW * size {
            return self.emit_block::<FEW_TEXT, W>(vr, syntax, units, out);
        }
        let mut rest = units;
        while !rest.is_empty() && !self.is_cut() {
            let (block, after) = rest.split_at(rest.len().min(BLOCK * size));
            self.emit_block::<BLOCK_TEXT, W>(vr, syntax, block, out)?;
            rest = after;
        }
        Ok(())
    }

    /// Shows the units of a block, each after a backslash, by way of a buffer of N bytes. That is blanked for each
    /// call, so that few units have a small one.
    fn emit_block<const N: usize, W: DeviceOut>(
        &mut self,
        vr: Vr,
        syntax: Syntax,
        units: &[u8],
        out: &mut Watched<W>,
    ) -> Result<(), WriteFailed>
        requires small { N ≤ BLOCK_TEXT }
        requires room { LONGEST * (length units.now / unit_size vr) ≤ N }
        requires block { length units.now ≤ BLOCK * unit_size vr }
        ensures { Emits W.DeviceOut out.old out.new (display_of self.old) (display_of self.new)
            (separated_units vr syntax units.now) result }
    {
        let mut text: ArrayVec<u8, N> = ArrayVec::new();
        append_units(vr, syntax, units, &mut text);
        self.emit(text.as_slice(), out)
    }

    /// Shows a unique identifier, by its name where it has one.
    pub fn emit_name<W: DeviceOut>(
        &mut self,
        uid: &[u8],
        out: &mut Watched<W>,
    ) -> Result<(), WriteFailed>
        ensures { Emits W.DeviceOut out.old out.new (display_of self.old) (display_of self.new)
            (identified uid.now) result }
    {
        match uid_name(uid) {
            Some(name) => {
                self.emit(b"=", out)?;
                self.emit(name.as_bytes(), out)
            }
            None => {
                self.emit(b"[", out)?;
                self.emit_text(uid, out)?;
                self.emit(b"]", out)
            }
        }
    }
}
