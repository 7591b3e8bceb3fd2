// The text of a value by Specific Character Set.
ghost use Rattle.std.specs.Prelude.{◌≡◌, ◌+◌, ◌≤◌, [], ◌++◌, true, false, length, fold, OnOk, IfOk};
ghost use Rattle.std.specs.List.{list_all};
ghost use Rattle.dcm_base.specs.Dump.ValueText.{unpadded as kept};
ghost use Rattle.dcm_base.specs.Steps.Outputs as outputs;
ghost use Rattle.dcm_devices.specs.Writing.{Wrote};
ghost use Rattle.dcm_text.specs.Runs.{state_of};
ghost use Rattle.dcm_value.specs.DecodedProgress.{is_named, sets_for, kind_of as spec_kind, is_concerned as concerns};
ghost use Rattle.dcm_value.specs.Plain.{is_ascii_byte};

use crate::counting::backslashes;
use crate::decoded::default_sets;
use crate::display::Shown;
use crate::escapes::is_plain_ascii;
use crate::way::{is_single, unpadded, without_pad};
use crate::whole::NO_VALUE;
use arrayvec::ArrayVec;
use dcm_base::{DeviceOut, Mode, Vr, Watched, WriteFailed};
use dcm_text::{Decoder, Sets, TextKind};

/// The most bytes of a value that may have a name.
const NAME: usize = 64;

/// The text of one value as characters, in UTF-8, where the value comes in pieces and is shown in brackets or by its
/// name (PS3.3 C.12.1.1.2, PS3.5 6.1.2). It shows each part as soon as it is decided.
#[derive(Drop)]
pub struct DecodedText {
    vr: Vr,
    size: u32,
    seen: u32,
    name: ArrayVec<u8, NAME>,
    decoder: Decoder,
    values: u32,
    shown: Shown,
    ghost within: { seen ≤ size },
    ghost counted: { values + length (state_of decoder).held ≤ seen },
    ghost waiting: { length name.items ≤ seen },
}

/// Whether Specific Character Set concerns a text (PS3.5 6.1.2.3).
fn is_concerned(vr: Vr) -> bool
    ensures { result ≡ concerns vr }
{
    matches!(
        vr,
        Vr::LO | Vr::LT | Vr::PN | Vr::SH | Vr::ST | Vr::UC | Vr::UT
    )
}

/// What a text is read by, where these sets are in force: a text that is not concerned by the default ones.
pub fn read_by(vr: Vr, sets: Sets) -> Sets
    ensures { result ≡ sets_for vr sets }
{
    if is_concerned(vr) {
        sets
    } else {
        default_sets()
    }
}

/// After which characters a text goes on as it began.
pub fn kind_of(vr: Vr) -> TextKind
    ensures { result ≡ spec_kind vr }
{
    match vr {
        Vr::PN => TextKind::Names,
        Vr::LO | Vr::SH | Vr::UC => TextKind::Values,
        _ => TextKind::OneValue,
    }
}

/// Whether a value of this size may have a name: it is shown when all of it is there.
pub fn may_have_name(vr: Vr, size: usize) -> bool
    ensures named { result ≡ is_named vr size }
    ensures few { result ≡ true → size ≤ 64 }
{
    matches!(vr, Vr::UI) && size <= NAME
}

/// Whether a value is shown and counted as without Specific Character Set, since its bytes are 20 to 7E and no `%` or
/// `]`. The pad byte does not count.
pub fn is_plain_value(vr: Vr, value: &[u8]) -> bool
    ensures { result ≡ list_all is_ascii_byte (kept vr value.now) }
{
    is_plain_ascii(unpadded(vr, value))
}

impl DecodedText {
    ghost use Rattle.dcm_value.specs.DecodedText.{decoded_progress};
    ghost use Rattle.dcm_value.specs.DecodedProgress as spec;
    ghost use Rattle.dcm_value.specs.Display.{at_once};
    ghost use Rattle.dcm_value.specs.Shown.{display_of};

    /// A value of this declared size, where these sets are in force. One of units is taken for a text.
    pub fn new(vr: Vr, sets: Sets, size: u32, mode: Mode) -> DecodedText
        ensures { decoded_progress result ≡ spec.started vr sets size mode }
    {
        DecodedText {
            vr,
            size,
            seen: 0,
            name: ArrayVec::new(),
            decoder: Decoder::new(read_by(vr, sets), kind_of(vr)),
            values: 0,
            shown: Shown::new(mode),
        }
    }

    /// The declared size.
    pub fn size(&self) -> u32
        ensures { result ≡ (decoded_progress self.now).size }
    {
        self.size
    }

    /// How many bytes have still to come.
    pub fn missing(&self) -> u32
        ensures { result + (decoded_progress self.now).seen ≡ (decoded_progress self.now).size }
    {
        self.size - self.seen
    }

    /// Whether it may have a name.
    fn is_named(&self) -> bool
        ensures named { result ≡ is_named self.now.vr self.now.size }
        ensures few { result ≡ true → self.now.size ≤ 64 }
    {
        may_have_name(self.vr, self.size as usize)
    }

    /// Takes the next bytes of the value, at most as many as are missing, and shows the parts that they decide. Of a
    /// text that is not cut the opening bracket is shown by the first call, also where no byte comes. Fails where the
    /// writer fails.
    pub fn feed<W: DeviceOut>(
        &mut self,
        bytes: &[u8],
        out: &mut Watched<W>,
    ) -> Result<(), WriteFailed>
        requires within { (decoded_progress self.old).seen + length bytes.now ≤ (decoded_progress self.old).size }
        ensures state { OnOk result (decoded_progress self.new
            ≡ fold spec.step (spec.opened (decoded_progress self.old)) bytes.now) }
        ensures wrote { Wrote W.DeviceOut out.old out.new (spec.feeds (decoded_progress self.old) bytes.now) result }
        ensures seen { OnOk result ((decoded_progress self.new).seen
            ≡ (decoded_progress self.old).seen + length bytes.now) }
        ensures size { OnOk result ((decoded_progress self.new).size ≡ (decoded_progress self.old).size) }
    {
        self.open(out)?;
        if self.is_named() {
            self.hold(bytes);
            Ok(())
        } else {
            self.feed_text(bytes, out)
        }
    }

    /// Shows what comes before the first byte, unless it is shown already. Fails where the writer fails.
    pub fn open<W: DeviceOut>(&mut self, out: &mut Watched<W>) -> Result<(), WriteFailed>
        ensures seen { self.new.seen ≡ self.old.seen }
        ensures size { self.new.size ≡ self.old.size }
        ensures vr { self.new.vr ≡ self.old.vr }
        ensures state { OnOk result (decoded_progress self.new ≡ spec.opened (decoded_progress self.old)) }
        ensures wrote { Wrote W.DeviceOut out.old out.new (spec.opening_writes (decoded_progress self.old)) result }
    {
        if !self.is_named() && self.size > 0 && self.shown.is_blank() {
            self.shown.emit(b"[", out)?;
        }
        Ok(())
    }

    /// Takes bytes that may have a name.
    fn hold(&mut self, bytes: &[u8])
        requires few { self.old.size ≤ 64 }
        requires within { self.old.seen + length bytes.now ≤ self.old.size }
        ensures { decoded_progress self.new ≡ spec.further (decoded_progress self.old) (length bytes.now)
            (self.old.name.items ++ bytes.now) ([], state_of self.old.decoder) }
    {
        self.seen += bytes.len() as u32;
        let _ = self.name.try_extend_from_slice(bytes);
    }

    /// Takes bytes of a text, and shows what they decide. The pad byte that makes it even decides nothing.
    fn feed_text<W: DeviceOut>(
        &mut self,
        bytes: &[u8],
        out: &mut Watched<W>,
    ) -> Result<(), WriteFailed>
        requires text { is_named self.old.vr self.old.size ≡ false }
        requires within { self.old.seen + length bytes.now ≤ self.old.size }
        ensures went { outputs.Went spec.step spec.writes W.DeviceOut out.old out.new (decoded_progress self.old)
            (decoded_progress self.new) bytes.now result }
        ensures seen { OnOk result (self.new.seen ≡ self.old.seen + length bytes.now) }
        ensures size { self.new.size ≡ self.old.size }
    {
        self.seen += bytes.len() as u32;
        let is_padded = self.seen == self.size && self.size % 2 == 0;
        let text = without_pad(self.vr, is_padded, bytes);
        if text.is_empty() {
            return Ok(());
        }
        self.shown
            .emit_decoded(&mut self.decoder, text, false, &mut self.values, out)
    }

    /// Ends the display, and appends to the line what was not written of it, and spaces up to 40 bytes. A long display
    /// is cut, and no character of it. The answer is how many values there were. Fails where the writer fails.
    pub fn finish<const N: usize, W: DeviceOut>(
        &mut self,
        line: &mut ArrayVec<u8, N>,
        out: &mut Watched<W>,
    ) -> Result<u64, WriteFailed>
        requires room { length line.old.items + 66 ≤ N }
        ensures state { OnOk result (decoded_progress self.new ≡ spec.closed (decoded_progress self.old)) }
        ensures wrote { Wrote W.DeviceOut out.old out.new (spec.closing_writes (decoded_progress self.old)) result }
        ensures line { OnOk result (line.new.items ≡ line.old.items ++ spec.end_writes (decoded_progress self.old)) }
        ensures within { OnOk result (length line.new.items ≤ length line.old.items + 66) }
        ensures count { IfOk result (λ n. n ≡ spec.multiplicity (decoded_progress self.old)) }
    {
        self.close(out)?;
        self.shown.append_decoded_end(line);
        Ok(self.count())
    }

    /// Shows what comes after the last byte.
    fn close<W: DeviceOut>(&mut self, out: &mut Watched<W>) -> Result<(), WriteFailed>
        ensures state { OnOk result (decoded_progress self.new ≡ spec.closed (decoded_progress self.old)) }
        ensures wrote { Wrote W.DeviceOut out.old out.new (spec.closing_writes (decoded_progress self.old)) result }
    {
        if self.size == 0 {
            return self.shown.emit(NO_VALUE, out);
        }
        if self.is_named() {
            let uid = unpadded(self.vr, self.name.as_slice());
            return self.shown.emit_decoded_name(uid, out);
        }
        self.shown
            .emit_decoded(&mut self.decoder, &[], true, &mut self.values, out)?;
        self.shown.emit(b"]", out)
    }

    /// How many values there were.
    fn count(&self) -> u64
        ensures { result ≡ spec.counted (decoded_progress self.now) }
    {
        if self.size == 0 {
            0
        } else if is_single(self.vr) {
            1
        } else if self.is_named() {
            backslashes(unpadded(self.vr, self.name.as_slice())) as u64 + 1
        } else {
            u64::from(self.values) + 1
        }
    }
}
