// The values that are put for others.
ghost use Rattle.std.specs.Prelude.{◌≡◌, ◌≤◌, length};
ghost use Rattle.dcm_deid.specs.Deidentify as spec;

use dcm_base::Vr;

/// The fixed value that replaces a value of a VR, without padding. UN has none.
#[tactic(auto, unfolding(crate::specs::Deidentify::dummy))]
pub fn dummy(vr: Vr) -> &'static [u8]
    ensures value { result.now ≡ spec.dummy vr }
    ensures short { length result.now ≤ 14 }
{
    match vr {
        Vr::AE | Vr::CS | Vr::LO | Vr::SH | Vr::ST | Vr::LT | Vr::PN | Vr::UC | Vr::UR | Vr::UT =>
            b"ANONYMIZED",
        Vr::AS => b"000Y",
        Vr::DA => b"19000101",
        Vr::TM => b"000000",
        Vr::DT => b"19000101000000",
        Vr::IS | Vr::DS => b"0",
        Vr::UI => b"2.25.0",
        Vr::OB | Vr::US | Vr::SS | Vr::OW => &[0; 2],
        Vr::AT | Vr::UL | Vr::SL | Vr::FL | Vr::OF | Vr::OL => &[0; 4],
        Vr::FD | Vr::OD | Vr::OV | Vr::SV | Vr::UV => &[0; 8],
        Vr::UN | Vr::SQ => &[],
    }
}
