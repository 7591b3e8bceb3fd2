// How a value is shown.
ghost use Rattle.std.specs.Prelude.{◌≡◌};
ghost use Rattle.dcm_base.specs.Lines.ReadValue.{takes_bytes};
ghost use Rattle.dcm_base.specs.Dump.ValueText as text;
ghost use Rattle.dcm_value.specs.Way as spec;

use dcm_base::Vr;

/// The longest value that may be shown by a name.
const NAMED: u32 = 64;

/// How a value is shown.
#[derive(Clone, Copy, Debug, PartialEq, Eq)]
pub enum Way {
    /// As a text, while it comes.
    InBrackets,
    /// By its name, or as a text, when all of it is there.
    ByName,
    /// Unit by unit.
    InUnits,
}

/// How a value of this size is shown.
pub fn way_of(vr: Vr, size: u32) -> Way
    ensures { result ≡ spec.way_of (text.shape vr) size }
{
    match vr {
        Vr::UI if size <= NAMED => Way::ByName,
        Vr::UI => Way::InBrackets,
        _ if vr.is_text() => Way::InBrackets,
        _ => Way::InUnits,
    }
}

/// Whether a value is shown as its bytes, and given so in an edit.
pub fn takes_bytes(vr: Vr) -> bool
    ensures { result ≡ takes_bytes (text.shape vr) }
{
    way_of(vr, 0) != Way::InUnits
}

/// Whether a value is one however long it is.
pub fn is_single(vr: Vr) -> bool
    ensures { result ≡ text.is_single vr }
{
    matches!(
        vr,
        Vr::ST
            | Vr::LT
            | Vr::UT
            | Vr::UR
            | Vr::OB
            | Vr::OW
            | Vr::OD
            | Vr::OF
            | Vr::OL
            | Vr::OV
            | Vr::UN
    )
}

/// The last bytes of a value without the pad byte that makes its size even.
pub fn without_pad(vr: Vr, is_even: bool, bytes: &[u8]) -> &[u8]
    ensures { result.now ≡ spec.without_pad vr is_even bytes.now }
{
    match bytes {
        [front @ .., last] if is_even && *last == vr.pad() => front,
        _ => bytes,
    }
}

/// The bytes of a value without the pad byte that made it even.
pub fn unpadded(vr: Vr, value: &[u8]) -> &[u8]
    ensures { result.now ≡ text.unpadded vr value.now }
{
    without_pad(vr, value.len() % 2 == 0, value)
}
