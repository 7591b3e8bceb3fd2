ghost use Rattle.std.specs.Prelude.{◌≡◌, map, option_map};
ghost use Rattle.dcm_base.specs.Tables.Dictionary as spec;
ghost use Rattle.dcm_base.specs.Tables.Tag.{tag_of_number};
ghost use Rattle.dcm_base.specs.declared.dictionary.Dictionary.TheVariants.{Standard, Signed};

use super::extract::{Row, called, numbered};
use crate::tag::Tag;
use crate::vr::Vr;

/// The data elements that the standard leaves between two value representations (PS3.6 sections 6 to 8), in tag order:
/// tag, the value representation where pixels are not signed, and keyword. `scripts/make_dictionary.py` wrote the rows.
pub const AMBIGUOUS: [(u32, Vr, &str); 33] = [
    (0x0014_3050, Vr::OW, "DarkCurrentCounts"),
    (0x0014_3070, Vr::OW, "AirCounts"),
    (0x0018_9810, Vr::UN, "ZeroVelocityPixelValue"),
    (0x0022_1452, Vr::UN, "MappedPixelValue"),
    (0x0028_0071, Vr::UN, "PerimeterValue"),
    (0x0028_0104, Vr::US, "SmallestValidPixelValue"),
    (0x0028_0105, Vr::US, "LargestValidPixelValue"),
    (0x0028_0106, Vr::US, "SmallestImagePixelValue"),
    (0x0028_0107, Vr::US, "LargestImagePixelValue"),
    (0x0028_0108, Vr::US, "SmallestPixelValueInSeries"),
    (0x0028_0109, Vr::US, "LargestPixelValueInSeries"),
    (0x0028_0110, Vr::US, "SmallestImagePixelValueInPlane"),
    (0x0028_0111, Vr::US, "LargestImagePixelValueInPlane"),
    (0x0028_0120, Vr::US, "PixelPaddingValue"),
    (0x0028_0121, Vr::US, "PixelPaddingRangeLimit"),
    (0x0028_1100, Vr::US, "GrayLookupTableDescriptor"),
    (0x0028_1101, Vr::US, "RedPaletteColorLookupTableDescriptor"),
    (
        0x0028_1102,
        Vr::US,
        "GreenPaletteColorLookupTableDescriptor",
    ),
    (0x0028_1103, Vr::US, "BluePaletteColorLookupTableDescriptor"),
    (
        0x0028_1111,
        Vr::US,
        "LargeRedPaletteColorLookupTableDescriptor",
    ),
    (
        0x0028_1112,
        Vr::US,
        "LargeGreenPaletteColorLookupTableDescriptor",
    ),
    (
        0x0028_1113,
        Vr::US,
        "LargeBluePaletteColorLookupTableDescriptor",
    ),
    (0x0028_1200, Vr::OW, "GrayLookupTableData"),
    (0x0028_3002, Vr::US, "LUTDescriptor"),
    (0x0028_3006, Vr::OW, "LUTData"),
    (0x0040_9211, Vr::US, "RealWorldValueLastValueMapped"),
    (0x0040_9216, Vr::US, "RealWorldValueFirstValueMapped"),
    (0x0060_3004, Vr::US, "HistogramFirstBinValue"),
    (0x0060_3006, Vr::US, "HistogramLastBinValue"),
    (0x5400_0110, Vr::OW, "ChannelMinimumValue"),
    (0x5400_0112, Vr::OW, "ChannelMaximumValue"),
    (0x5400_100A, Vr::OW, "WaveformPaddingValue"),
    (0x5400_1010, Vr::OW, "WaveformData"),
];

/// The row of each number of `AMBIGUOUS`, by its remainder. No two numbers of the table have the same.
#[rattlefmt::skip]
const PLACES: [u16; 172] = [
    32, 0, 0, 0, 0, 0, 3, 0, 0, 0, 0, 0, 0, 0, 0, 0, 0, 0, 0, 0, 0, 0, 0, 0, 0, 0, 0, 0, 0, 0, 0, 0, 0, 0, 0, 0, 0, 0,
    0, 0, 15, 16, 17, 18, 0, 0, 0, 0, 0, 0, 0, 0, 0, 0, 0, 0, 0, 19, 20, 21, 0, 0, 0, 0, 0, 0, 23, 0, 0, 0, 24, 0, 0,
    0, 0, 0, 5, 6, 7, 8, 9, 10, 0, 0, 0, 0, 0, 0, 11, 12, 0, 0, 0, 0, 0, 0, 1, 0, 0, 0, 0, 4, 0, 0, 13, 14, 0, 0, 0,
    0, 0, 0, 0, 0, 0, 0, 29, 0, 30, 0, 27, 0, 28, 0, 22, 0, 0, 0, 0, 0, 0, 0, 0, 0, 0, 0, 0, 0, 0, 0, 0, 0, 0, 0, 0,
    0, 0, 0, 0, 0, 0, 0, 2, 25, 0, 0, 0, 0, 26, 0, 0, 0, 0, 0, 0, 0, 31, 0, 0, 0, 0, 0,
];

/// The table.
#[tactic(auto, unfolding(crate::specs::Tables::Dictionary::ambiguous))]
fn rows() -> &'static [Row]
    ensures { map (λ r. (r.0, r.1, r.2.now)) result.now ≡ spec.ambiguous }
{
    &AMBIGUOUS
}

/// Where pixels are signed, US or SS is SS.
fn signed_vr(vr: Vr) -> Vr
    ensures { result ≡ spec.signed_vr vr }
{
    match vr {
        Vr::US => Vr::SS,
        other => other,
    }
}

/// The VR and the keyword of a tag that the standard leaves between two VRs, where pixels are not signed.
pub fn unsigned_element(tag: Tag) -> Option<(Vr, &'static str)>
    ensures { option_map (λ r. (r.0, r.1.now)) result ≡ spec.ambiguous_in Standard tag }
{
    if tag.is_private() {
        return None;
    }
    numbered(rows(), &PLACES, tag.number())
}

/// The VR and the keyword of a tag that the standard leaves between two VRs, where pixels are signed.
pub fn signed_element(tag: Tag) -> Option<(Vr, &'static str)>
    ensures { option_map (λ r. (r.0, r.1.now)) result ≡ spec.ambiguous_in Signed tag }
{
    match unsigned_element(tag) {
        Some(row) => Some((signed_vr(row.0), row.1)),
        None => None,
    }
}

/// The tag of an element that the standard leaves between two VRs, by its keyword.
pub fn ambiguous_tag(keyword: &[u8]) -> Option<Tag>
    ensures { result ≡ option_map tag_of_number (spec.called spec.ambiguous keyword.now) }
{
    match called(rows(), keyword) {
        Some(number) => Some(Tag::of_number(number)),
        None => None,
    }
}
