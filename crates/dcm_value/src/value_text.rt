// The text of a value.
ghost use Rattle.std.specs.Prelude.{◌≡◌, ◌+◌, ◌*◌, ◌/◌, ◌<◌, ◌≤◌, [], ◌∷◌, ◌++◌, length, fold, OnOk, IfOk};
ghost use Rattle.dcm_base.specs.Steps.Outputs as outputs;
ghost use Rattle.dcm_devices.specs.Writing.{Wrote};
ghost use Rattle.dcm_base.specs.Dump.ValueText.{shown_unit as unit_size, shape};
ghost use Rattle.dcm_value.specs.Display.{emit, at_once};
ghost use Rattle.dcm_value.specs.Way as ways;

use crate::counting::backslashes;
use crate::display::Shown;
use crate::unit_buffer::UnitBuffer;
use crate::units::{shown_unit, unit_text};
use crate::way::{Way, is_single, unpadded, way_of, without_pad};
use crate::whole::NO_VALUE;
use arrayvec::ArrayVec;
use dcm_base::{DeviceOut, Mode, Syntax, Vr, Watched, WriteFailed};

/// The text of a value that comes in pieces (PS3.5 6.2, 7.3).
#[derive(Drop)]
pub struct ValueText {
    vr: Vr,
    syntax: Syntax,
    size: u32,
    seen: u32,
    held: UnitBuffer<64>,
    values: u32,
    shown: Shown,
    ghost within: { seen ≤ size },
    ghost counted: { values + length held.bytes.items ≤ seen },
    ghost waiting: { length held.bytes.items < ways.room (ways.way_of (shape vr) size) vr },
}

impl ValueText {
    ghost use Rattle.dcm_value.specs.ValueText.{progress};
    ghost use Rattle.dcm_value.specs.Progress as spec;
    ghost use Rattle.dcm_value.specs.Shown.{display_of};

    /// A value of this declared size, whose bytes come in the order of the syntax. SQ is shown as UN.
    pub fn new(vr: Vr, syntax: Syntax, size: u32, mode: Mode) -> ValueText
        ensures { progress result ≡ spec.started vr syntax size mode }
    {
        ValueText {
            vr,
            syntax,
            size,
            seen: 0,
            held: UnitBuffer::new(),
            values: 0,
            shown: Shown::new(mode),
        }
    }

    /// The declared size.
    pub fn size(&self) -> u32
        ensures { result ≡ (progress self.now).size }
    {
        self.size
    }

    /// How many bytes have still to come.
    pub fn missing(&self) -> u32
        ensures { result + (progress self.now).seen ≡ (progress self.now).size }
    {
        self.size - self.seen
    }

    /// How it is shown.
    fn way(&self) -> Way
        ensures { result ≡ spec.way (progress self.now) }
    {
        way_of(self.vr, self.size)
    }

    /// Takes the next bytes of the value, at most as many as are missing, and shows what can be shown of them. Of a
    /// text that is not cut the opening bracket is shown by the first call, also where no byte comes. Fails where the
    /// writer fails.
    pub fn feed<W: DeviceOut>(
        &mut self,
        bytes: &[u8],
        out: &mut Watched<W>,
    ) -> Result<(), WriteFailed>
        requires within { (progress self.old).seen + length bytes.now ≤ (progress self.old).size }
        ensures state { OnOk result (progress self.new ≡ fold spec.step (spec.opened (progress self.old)) bytes.now) }
        ensures wrote { Wrote W.DeviceOut out.old out.new (spec.feeds (progress self.old) bytes.now) result }
        ensures seen { OnOk result ((progress self.new).seen ≡ (progress self.old).seen + length bytes.now) }
        ensures size { OnOk result ((progress self.new).size ≡ (progress self.old).size) }
    {
        self.open(out)?;
        match self.way() {
            Way::InBrackets => self.feed_text(bytes, out),
            Way::ByName => {
                self.seen += bytes.len() as u32;
                self.held.hold(bytes);
                Ok(())
            }
            Way::InUnits => self.feed_units(bytes, out),
        }
    }

    /// Shows what comes before the first byte, unless it is shown already. Fails where the writer fails.
    pub fn open<W: DeviceOut>(&mut self, out: &mut Watched<W>) -> Result<(), WriteFailed>
        ensures seen { self.new.seen ≡ self.old.seen }
        ensures size { self.new.size ≡ self.old.size }
        ensures vr { self.new.vr ≡ self.old.vr }
        ensures held { self.new.held ≡ self.old.held }
        ensures state { OnOk result (progress self.new ≡ spec.opened (progress self.old)) }
        ensures wrote { Wrote W.DeviceOut out.old out.new (spec.opening_writes (progress self.old)) result }
    {
        if self.way() == Way::InBrackets && self.size > 0 && self.shown.is_blank() {
            self.shown.emit(b"[", out)?;
        }
        Ok(())
    }

    /// Takes bytes of a text, and shows them, but for the pad byte that makes it even.
    fn feed_text<W: DeviceOut>(
        &mut self,
        bytes: &[u8],
        out: &mut Watched<W>,
    ) -> Result<(), WriteFailed>
        requires way { spec.way (progress self.old) ≡ Way.InBrackets }
        requires within { self.old.seen + length bytes.now ≤ self.old.size }
        ensures went { outputs.Went spec.step spec.writes W.DeviceOut out.old out.new (progress self.old)
            (progress self.new) bytes.now result }
        ensures seen { OnOk result (self.new.seen ≡ self.old.seen + length bytes.now) }
        ensures size { self.new.size ≡ self.old.size }
    {
        self.seen += bytes.len() as u32;
        self.values += backslashes(bytes) as u32;
        let is_padded = self.seen == self.size && self.size % 2 == 0;
        let text = without_pad(self.vr, is_padded, bytes);
        self.shown.emit_text(text, out)
    }

    /// Takes bytes of units.
    fn feed_units<W: DeviceOut>(
        &mut self,
        bytes: &[u8],
        out: &mut Watched<W>,
    ) -> Result<(), WriteFailed>
        requires way { spec.way (progress self.old) ≡ Way.InUnits }
        requires within { self.old.seen + length bytes.now ≤ self.old.size }
        ensures went { outputs.Went spec.step spec.writes W.DeviceOut out.old out.new (progress self.old)
            (progress self.new) bytes.now result }
        ensures seen { OnOk result (self.new.seen ≡ self.old.seen + length bytes.now) }
        ensures size { self.new.size ≡ self.old.size }
    {
        self.seen += bytes.len() as u32;
        let units = self.held.feed(shown_unit(self.vr), bytes);
        self.show_units(units.first.as_slice(), out)?;
        self.show_units(units.others, out)
    }

    /// Shows whole units, with a backslash before each that is not the first of the value.
    fn show_units<W: DeviceOut>(
        &mut self,
        units: &[u8],
        out: &mut Watched<W>,
    ) -> Result<(), WriteFailed>
        requires counted { self.old.values + length self.old.held.bytes.items + length units.now ≤ self.old.seen }
        requires whole { length units.now / unit_size self.old.vr * unit_size self.old.vr ≡ length units.now }
        ensures seen { self.new.seen ≡ self.old.seen }
        ensures size { self.new.size ≡ self.old.size }
        ensures vr { self.new.vr ≡ self.old.vr }
        ensures held { self.new.held ≡ self.old.held }
        ensures state { OnOk result (progress self.new ≡ spec.shows (progress self.old) units.now) }
        ensures wrote { Wrote W.DeviceOut out.old out.new
            (at_once self.old.shown.mode (spec.shown (progress self.old) units.now)) result }
    {
        if self.values > 0 || units.is_empty() {
            return self.show_others(units, out);
        }
        let (first, others) = units.split_at(shown_unit(self.vr));
        self.show_first(first, out)?;
        self.show_others(others, out)
    }

    /// Shows the first unit.
    fn show_first<W: DeviceOut>(
        &mut self,
        unit: &[u8],
        out: &mut Watched<W>,
    ) -> Result<(), WriteFailed>
        requires whole { length unit.now ≡ unit_size self.old.vr }
        requires counted { self.old.values + length self.old.held.bytes.items + length unit.now ≤ self.old.seen }
        ensures seen { self.new.seen ≡ self.old.seen }
        ensures size { self.new.size ≡ self.old.size }
        ensures vr { self.new.vr ≡ self.old.vr }
        ensures held { self.new.held ≡ self.old.held }
        ensures state { OnOk result (progress self.new
            ≡ spec.counts (progress self.old) 1 (spec.first (progress self.old) unit.now)) }
        ensures wrote { Wrote W.DeviceOut out.old out.new
            (at_once self.old.shown.mode (spec.first (progress self.old) unit.now)) result }
    {
        self.values += 1;
        let text = unit_text(self.vr, self.syntax, unit);
        self.shown.emit(text.as_slice(), out)
    }

    /// Shows whole units, with a backslash before each.
    fn show_others<W: DeviceOut>(
        &mut self,
        units: &[u8],
        out: &mut Watched<W>,
    ) -> Result<(), WriteFailed>
        requires counted { self.old.values + length self.old.held.bytes.items + length units.now ≤ self.old.seen }
        ensures seen { self.new.seen ≡ self.old.seen }
        ensures size { self.new.size ≡ self.old.size }
        ensures vr { self.new.vr ≡ self.old.vr }
        ensures held { self.new.held ≡ self.old.held }
        ensures state { OnOk result (progress self.new ≡ spec.shows_others (progress self.old) units.now) }
        ensures wrote { Wrote W.DeviceOut out.old out.new
            (at_once self.old.shown.mode (spec.others (progress self.old) units.now)) result }
    {
        self.values += (units.len() / shown_unit(self.vr)) as u32;
        self.shown.emit_units(self.vr, self.syntax, units, out)
    }

    /// Ends the display, and appends to the line what was not written of it, and spaces up to 40 bytes. The answer is
    /// how many values there were. Fails where the writer fails.
    pub fn finish<const N: usize, W: DeviceOut>(
        &mut self,
        line: &mut ArrayVec<u8, N>,
        out: &mut Watched<W>,
    ) -> Result<u64, WriteFailed>
        requires room { length line.old.items + 66 ≤ N }
        ensures state { OnOk result (progress self.new ≡ spec.closed (progress self.old)) }
        ensures wrote { Wrote W.DeviceOut out.old out.new (spec.closing_writes (progress self.old)) result }
        ensures line { OnOk result (line.new.items ≡ line.old.items ++ spec.end_writes (progress self.old)) }
        ensures within { OnOk result (length line.new.items ≤ length line.old.items + 66) }
        ensures count { IfOk result (λ n. n ≡ spec.multiplicity (progress self.old)) }
    {
        self.close(out)?;
        self.shown.append_end(line);
        Ok(self.count())
    }

    /// Shows what comes after the last byte.
    fn close<W: DeviceOut>(&mut self, out: &mut Watched<W>) -> Result<(), WriteFailed>
        ensures display { OnOk result (display_of self.new.shown
            ≡ emit (display_of self.old.shown) (spec.closing (progress self.old))) }
        ensures kept { OnOk result (progress self.new
            ≡ record (progress self.old) { display = display_of self.new.shown }) }
        ensures wrote { Wrote W.DeviceOut out.old out.new
            (at_once self.old.shown.mode (spec.closing (progress self.old))) result }
    {
        if self.size == 0 {
            return self.shown.emit(NO_VALUE, out);
        }
        match self.way() {
            Way::InBrackets => self.shown.emit(b"]", out),
            Way::ByName => {
                let uid = unpadded(self.vr, self.held.as_slice());
                self.shown.emit_name(uid, out)
            }
            Way::InUnits => Ok(()),
        }
    }

    /// How many values there were.
    fn count(&self) -> u64
        ensures { result ≡ spec.multiplicity (progress self.now) }
    {
        if self.size == 0 {
            0
        } else if is_single(self.vr) {
            1
        } else {
            match self.way() {
                Way::InBrackets => u64::from(self.values) + 1,
                Way::ByName => backslashes(self.held.as_slice()) as u64 + 1,
                Way::InUnits => u64::from(self.values),
            }
        }
    }
}
