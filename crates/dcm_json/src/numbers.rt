// Numbers and tags (PS3.5 6.2, PS3.18 F.2.3).
ghost use Rattle.std.specs.Prelude.{◌≡◌, ◌<◌, ◌∷◌, [], length};
ghost use Rattle.dcm_base.specs.Dump.ValueText.{shown_unit, upper};
ghost use Rattle.dcm_base.specs.Tree.Value.{number_of};
ghost use Rattle.dcm_devices.specs.Writing.{Wrote};
ghost use Rattle.dcm_table.specs.Parts.{WroteParts, single, double};
ghost use Rattle.dcm_json.specs.Numbers as spec;

use crate::values::put_string;
use dcm_base::{DeviceOut, Syntax, Vr, Watched, WriteFailed, put_all};
use dcm_value::{shown_unit, unit_text};
use ryu::Buffer;
use std::num::{f32_from_bits_with_nan, f64_from_bits_with_nan};

/// The greatest number up to which readers hold all integers exactly.
const MOST_EXACT: u64 = 9_007_199_254_740_992;

/// Of two's complement the numbers from here on are negative, and no less than that.
const LEAST_EXACT: u64 = 18_437_736_874_454_810_624;

/// The number of four bytes, the lowest first.
fn number_of_four(bytes: &[u8]) -> u32
    requires { length bytes.now ≡ 4 }
    ensures { result ≡ number_of bytes.now }
{
    u32::from_le_bytes([bytes[0], bytes[1], bytes[2], bytes[3]])
}

/// The number of eight bytes, the lowest first.
fn number_of_eight(bytes: &[u8]) -> u64
    requires { length bytes.now ≡ 8 }
    ensures { result ≡ number_of bytes.now }
{
    u64::from_le_bytes([
        bytes[0], bytes[1], bytes[2], bytes[3], bytes[4], bytes[5], bytes[6], bytes[7],
    ])
}

/// Writes a float of four bytes.
fn put_single<W: DeviceOut>(bits: u32, out: &mut Watched<W>) -> Result<(), WriteFailed>
    ensures { WroteParts W.DeviceOut out.old out.new (spec.float_part single bits ∷ []) result }
{
    let number = f32_from_bits_with_nan(bits);
    let mut buffer = Buffer::new();
    if number.is_finite() {
        put_all(out, buffer.format(number).as_bytes())
    } else {
        put_string(buffer.format(number).as_bytes(), out)
    }
}

/// Writes a float of eight bytes.
fn put_double<W: DeviceOut>(bits: u64, out: &mut Watched<W>) -> Result<(), WriteFailed>
    ensures { WroteParts W.DeviceOut out.old out.new (spec.float_part double bits ∷ []) result }
{
    let number = f64_from_bits_with_nan(bits);
    let mut buffer = Buffer::new();
    if number.is_finite() {
        put_all(out, buffer.format(number).as_bytes())
    } else {
        put_string(buffer.format(number).as_bytes(), out)
    }
}

/// Whether readers hold an integer exactly.
fn is_exact(vr: Vr, unit: &[u8]) -> bool
    requires { length unit.now ≡ shown_unit vr }
    ensures { result ≡ spec.is_exact vr (number_of unit.now) }
{
    match vr {
        Vr::SV => {
            let number = number_of_eight(unit);
            number <= MOST_EXACT || LEAST_EXACT <= number
        }
        Vr::UV => number_of_eight(unit) <= MOST_EXACT,
        _ => true,
    }
}

/// Writes an integer, as a string where readers do not hold it exactly.
fn put_integer<W: DeviceOut>(vr: Vr, unit: &[u8], out: &mut Watched<W>) -> Result<(), WriteFailed>
    requires { length unit.now ≡ shown_unit vr }
    ensures { Wrote W.DeviceOut out.old out.new (spec.integer_text vr unit.now) result }
{
    let text = unit_text(vr, Syntax::LITTLE, unit);
    if is_exact(vr, unit) {
        put_all(out, text.as_slice())
    } else {
        put_string(text.as_slice(), out)
    }
}

/// A digit, in upper case.
fn digit(number: u8) -> u8
    requires { number < 16 }
    ensures { result ≡ upper number }
{
    if number < 10 {
        b'0' + number
    } else {
        b'A' + (number - 10)
    }
}

/// The digits of a tag, whose four bytes have the lowest of its group first.
fn tag_digits(unit: &[u8]) -> [u8; 8]
    requires { length unit.now ≡ 4 }
    ensures { result ≡ spec.tag_digits unit.now }
{
    let [low, high, lowest, highest] = [unit[0], unit[1], unit[2], unit[3]];
    [
        digit(high / 16),
        digit(high % 16),
        digit(low / 16),
        digit(low % 16),
        digit(highest / 16),
        digit(highest % 16),
        digit(lowest / 16),
        digit(lowest % 16),
    ]
}

/// Writes a whole unit of numbers or tags, which is in little endian order: as a number, or as a string where it is a
/// tag, or no number that all readers hold. Fails where the writer fails, which has then taken a beginning.
pub fn put_unit<W: DeviceOut>(vr: Vr, unit: &[u8], out: &mut Watched<W>) -> Result<(), WriteFailed>
    requires { length unit.now ≡ shown_unit vr }
    ensures { WroteParts W.DeviceOut out.old out.new (spec.unit_part vr unit.now ∷ []) result }
{
    match vr {
        Vr::FL => put_single(number_of_four(unit), out),
        Vr::FD => put_double(number_of_eight(unit), out),
        Vr::AT => put_string(&tag_digits(unit), out),
        _ => put_integer(vr, unit, out),
    }
}
