//! The values of numbers and tags that come in pieces.
ghost use Rattle.std.specs.Prelude.{◌≡◌, ◌<◌, ◌++◌, length, IfOk, OnOk};
ghost use Rattle.dcm_base.specs.Dump.ValueText.{shown_unit as unit_size};
ghost use Rattle.dcm_base.specs.Tree.Value.{order, units as units_of};
ghost use Rattle.dcm_devices.specs.Writing.{Wrote};
ghost use Rattle.dcm_table.specs.Parts.{WroteParts};
ghost use Rattle.dcm_json.specs.NumberState as spec;

use crate::numbers::put_unit;
use crate::values::before;
use arrayvec::ArrayVec;
use dcm_base::{DeviceOut, Syntax, Vr, Watched, WriteFailed, put_all};
use dcm_value::{UnitBuffer, shown_unit, swap};
use std::marker::Model;

/// The bytes of the longest unit.
const LONGEST_UNIT: usize = 8;

/// The values of numbers or tags, written as their bytes come in any pieces, in the order of their syntax (PS3.5 7.3).
/// It holds at most seven bytes, of a unit that is not whole.
#[derive(Drop)]
pub struct NumberValues {
    vr: Vr,
    syntax: Syntax,
    begun: bool,
    held: UnitBuffer<LONGEST_UNIT>,
    ghost within: { length held.bytes.items < unit_size vr },
}

impl Model for NumberValues {
    ghost use Rattle.dcm_json.specs.NumberState.{NumberState};

    ghost Value = { NumberState };

    ghost view = { λ n. record { vr = n.vr; syntax = n.syntax; begun = n.begun; held = n.held.bytes.items } };
}

/// A whole unit in little endian order.
fn ordered(vr: Vr, syntax: Syntax, unit: &[u8]) -> ArrayVec<u8, LONGEST_UNIT>
    requires { length unit.now ≡ unit_size vr }
    ensures { result.items ≡ order syntax vr unit.now }
{
    let mut ordered = ArrayVec::new();
    let _ = ordered.try_extend_from_slice(unit);
    if syntax.is_big() {
        swap(vr.unit(), ordered.as_mut_slice());
    }
    ordered
}

/// Writes a whole unit in the order of its syntax, behind what stands before a value.
fn put_next<W: DeviceOut>(
    begun: bool,
    vr: Vr,
    syntax: Syntax,
    unit: &[u8],
    out: &mut Watched<W>,
) -> Result<(), WriteFailed>
    requires { length unit.now ≡ unit_size vr }
    ensures { WroteParts W.DeviceOut out.old out.new (spec.next_parts begun vr syntax unit.now) result }
{
    put_all(out, before(begun))?;
    put_unit(vr, ordered(vr, syntax, unit).as_slice(), out)
}

/// Writes the whole units of some bytes, and says whether a value stands then.
fn put_units<W: DeviceOut>(
    begun: bool,
    vr: Vr,
    syntax: Syntax,
    units: &[u8],
    out: &mut Watched<W>,
) -> Result<bool, WriteFailed>
    ensures stands { IfOk result (λ stands. stands ≡ spec.stands begun (units_of (unit_size vr) units.now)) }
    ensures wrote { WroteParts W.DeviceOut out.old out.new
        (spec.units_parts vr syntax begun (units_of (unit_size vr) units.now)) result }
{
    let size = shown_unit(vr);
    let mut stands = begun;
    let mut rest = units;
    while rest.len() >= size {
        let (unit, after) = rest.split_at(size);
        put_next(stands, vr, syntax, unit, out)?;
        stands = true;
        rest = after;
    }
    Ok(stands)
}

/// Writes the whole units of some bytes and of others behind them, and says whether a value stands then.
fn put_both<W: DeviceOut>(
    begun: bool,
    vr: Vr,
    syntax: Syntax,
    first: &[u8],
    others: &[u8],
    out: &mut Watched<W>,
) -> Result<bool, WriteFailed>
    ensures stands { IfOk result (λ stands. stands ≡ spec.stands begun
        (units_of (unit_size vr) first.now ++ units_of (unit_size vr) others.now)) }
    ensures wrote { WroteParts W.DeviceOut out.old out.new (spec.units_parts vr syntax begun
        (units_of (unit_size vr) first.now ++ units_of (unit_size vr) others.now)) result }
{
    let stands = put_units(begun, vr, syntax, first, out)?;
    put_units(stands, vr, syntax, others, out)
}

impl NumberValues {
    /// Before a value of this representation, in this syntax.
    pub fn new(vr: Vr, syntax: Syntax) -> NumberValues
        ensures { result ≡ spec.started vr syntax }
    {
        NumberValues {
            vr,
            syntax,
            begun: false,
            held: UnitBuffer::new(),
        }
    }

    /// Writes the units that bytes more make whole. Fails where the writer fails, which has then taken a beginning.
    pub fn feed<W: DeviceOut>(
        &mut self,
        bytes: &[u8],
        out: &mut Watched<W>,
    ) -> Result<(), WriteFailed>
        ensures state { OnOk result (self.new ≡ spec.fed self.old bytes.now) }
        ensures wrote { WroteParts W.DeviceOut out.old out.new (spec.feeds self.old bytes.now) result }
    {
        let units = self.held.feed(shown_unit(self.vr), bytes);
        let first = units.first.as_slice();
        self.begun = put_both(self.begun, self.vr, self.syntax, first, units.others, out)?;
        Ok(())
    }

    /// Writes the end of the array, where there is a value: bytes behind the last whole unit are left out. Fails where
    /// the writer fails, which has then taken a beginning.
    pub fn finish<W: DeviceOut>(self, out: &mut Watched<W>) -> Result<(), WriteFailed>
        ensures { Wrote W.DeviceOut out.old out.new (spec.finishes self) result }
    {
        if self.begun {
            put_all(out, b"]")
        } else {
            Ok(())
        }
    }
}
