// The display of a value of few units.
ghost use Rattle.std.specs.Prelude.{◌≡◌, ◌+◌, ◌*◌, ◌≤◌, ◌++◌, ◌/◌, if◌then◌else◌, length, IfSome, MatchOption, ⊤};
ghost use Rattle.dcm_base.specs.Dump.ValueText.{is_single as is_one, shape, shown_unit as unit_size};
ghost use Rattle.dcm_base.specs.declared.mode.Mode.{Mode as AnyMode};
ghost use Rattle.dcm_value.specs.Way as ways;
ghost use Rattle.dcm_value.specs.Whole as spec;

use crate::display::append_spaces;
use crate::units::{FEW, FEW_TEXT, append_units, shown_unit};
use crate::way::{Way, is_single, way_of};
use crate::widths::UNCUT;
use arrayvec::ArrayVec;
use dcm_base::{Syntax, Vr};

/// Appends what a dump shows of a value of at most ten units, with the spaces up to 40 bytes, where that is not cut, so
/// that both modes show the same. The answer is how many values there are; or nothing, and then nothing is appended.
/// Here none needs a `ValueText`.
#[inline(never)]
pub fn append_few<const N: usize>(
    vr: Vr,
    syntax: Syntax,
    value: &[u8],
    line: &mut ArrayVec<u8, N>,
) -> Option<u64>
    requires room { length line.old.items + 66 ≤ N }
    ensures none { MatchOption result (line.new.items ≡ line.old.items) (λ _. ⊤) }
    ensures modes { (mode : AnyMode) → IfSome result (λ n. (line.new.items
        ≡ line.old.items ++ spec.text_in mode vr syntax value.now) × (n ≡ spec.count_in mode vr syntax value.now)) }
    ensures within { length line.new.items ≤ length line.old.items + 66 }
{
    let size = shown_unit(vr);
    if value.len() < size || value.len() > FEW * size {
        return None;
    }
    match way_of(vr, value.len() as u32) {
        Way::InUnits => append_shown(vr, syntax, value, line),
        Way::InBrackets | Way::ByName => None,
    }
}

/// Appends what is shown of so few units, if it is not cut. The text of units begins with a backslash, which is not
/// shown.
#[inline(always)]
fn append_shown<const N: usize>(
    vr: Vr,
    syntax: Syntax,
    value: &[u8],
    line: &mut ArrayVec<u8, N>,
) -> Option<u64>
    requires some { unit_size vr ≤ length value.now }
    requires few { length value.now ≤ FEW * unit_size vr }
    requires way { ways.way_of (shape vr) (length value.now) ≡ Way.InUnits }
    requires room { length line.old.items + 66 ≤ N }
    ensures none { MatchOption result (line.new.items ≡ line.old.items) (λ _. ⊤) }
    ensures modes { (mode : AnyMode) → IfSome result (λ n. (line.new.items
        ≡ line.old.items ++ spec.text_in mode vr syntax value.now) × (n ≡ spec.count_in mode vr syntax value.now)) }
    ensures within { length line.new.items ≤ length line.old.items + 66 }
{
    let mut text: ArrayVec<u8, FEW_TEXT> = ArrayVec::new();
    append_units(vr, syntax, value, &mut text);
    let (_, shown) = text.as_slice().split_at(1);
    if shown.len() > UNCUT {
        return None;
    }
    let _ = line.try_extend_from_slice(shown);
    append_spaces(shown.len(), line);
    Some(count(vr, value))
}

/// How many values that many bytes of units are.
fn count(vr: Vr, value: &[u8]) -> u64
    ensures { result ≡ (if is_one vr then 1 else length value.now / unit_size vr) }
{
    if is_single(vr) {
        1
    } else {
        (value.len() / shown_unit(vr)) as u64
    }
}
