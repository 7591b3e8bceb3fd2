ghost use Rattle.std.specs.Prelude.{◌≡◌, ◌<◌, true, length, map, option_map};
ghost use Rattle.std.specs.List.Sorted.{IsStrictlyIncreasing};
ghost use Rattle.dcm_base.specs.Tables.Dictionary as spec;
ghost use Rattle.dcm_base.specs.declared.dictionary.Dictionary.TheVariants.{Extract};

use crate::tag::Tag;
use crate::vr::Vr;

/// The data elements of the extract (PS3.6 section 6): tag, value representation and keyword, in tag order.
pub const ELEMENTS: [(u32, Vr, &str); 90] = [
    (0x0002_0000, Vr::UL, "FileMetaInformationGroupLength"),
    (0x0002_0001, Vr::OB, "FileMetaInformationVersion"),
    (0x0002_0002, Vr::UI, "MediaStorageSOPClassUID"),
    (0x0002_0003, Vr::UI, "MediaStorageSOPInstanceUID"),
    (0x0002_0010, Vr::UI, "TransferSyntaxUID"),
    (0x0002_0012, Vr::UI, "ImplementationClassUID"),
    (0x0002_0013, Vr::SH, "ImplementationVersionName"),
    (0x0002_0016, Vr::AE, "SourceApplicationEntityTitle"),
    (0x0002_0100, Vr::UI, "PrivateInformationCreatorUID"),
    (0x0002_0102, Vr::OB, "PrivateInformation"),
    (0x0008_0005, Vr::CS, "SpecificCharacterSet"),
    (0x0008_0008, Vr::CS, "ImageType"),
    (0x0008_0012, Vr::DA, "InstanceCreationDate"),
    (0x0008_0013, Vr::TM, "InstanceCreationTime"),
    (0x0008_0016, Vr::UI, "SOPClassUID"),
    (0x0008_0018, Vr::UI, "SOPInstanceUID"),
    (0x0008_0020, Vr::DA, "StudyDate"),
    (0x0008_0021, Vr::DA, "SeriesDate"),
    (0x0008_0022, Vr::DA, "AcquisitionDate"),
    (0x0008_0023, Vr::DA, "ContentDate"),
    (0x0008_002A, Vr::DT, "AcquisitionDateTime"),
    (0x0008_0030, Vr::TM, "StudyTime"),
    (0x0008_0031, Vr::TM, "SeriesTime"),
    (0x0008_0032, Vr::TM, "AcquisitionTime"),
    (0x0008_0033, Vr::TM, "ContentTime"),
    (0x0008_0050, Vr::SH, "AccessionNumber"),
    (0x0008_0060, Vr::CS, "Modality"),
    (0x0008_0070, Vr::LO, "Manufacturer"),
    (0x0008_0080, Vr::LO, "InstitutionName"),
    (0x0008_0090, Vr::PN, "ReferringPhysicianName"),
    (0x0008_0100, Vr::SH, "CodeValue"),
    (0x0008_0102, Vr::SH, "CodingSchemeDesignator"),
    (0x0008_0104, Vr::LO, "CodeMeaning"),
    (0x0008_1030, Vr::LO, "StudyDescription"),
    (0x0008_103E, Vr::LO, "SeriesDescription"),
    (0x0008_1090, Vr::LO, "ManufacturerModelName"),
    (0x0008_1110, Vr::SQ, "ReferencedStudySequence"),
    (
        0x0008_1111,
        Vr::SQ,
        "ReferencedPerformedProcedureStepSequence",
    ),
    (0x0008_1115, Vr::SQ, "ReferencedSeriesSequence"),
    (0x0008_1140, Vr::SQ, "ReferencedImageSequence"),
    (0x0008_1150, Vr::UI, "ReferencedSOPClassUID"),
    (0x0008_1155, Vr::UI, "ReferencedSOPInstanceUID"),
    (0x0008_1199, Vr::SQ, "ReferencedSOPSequence"),
    (0x0008_2112, Vr::SQ, "SourceImageSequence"),
    (0x0010_0010, Vr::PN, "PatientName"),
    (0x0010_0020, Vr::LO, "PatientID"),
    (0x0010_0030, Vr::DA, "PatientBirthDate"),
    (0x0010_0040, Vr::CS, "PatientSex"),
    (0x0010_1010, Vr::AS, "PatientAge"),
    (0x0010_1020, Vr::DS, "PatientSize"),
    (0x0010_1030, Vr::DS, "PatientWeight"),
    (0x0010_4000, Vr::LT, "PatientComments"),
    (0x0018_0015, Vr::CS, "BodyPartExamined"),
    (0x0018_0050, Vr::DS, "SliceThickness"),
    (0x0018_0060, Vr::DS, "KVP"),
    (0x0018_1020, Vr::LO, "SoftwareVersions"),
    (0x0018_1030, Vr::LO, "ProtocolName"),
    (0x0018_5100, Vr::CS, "PatientPosition"),
    (0x0018_9087, Vr::FD, "DiffusionBValue"),
    (0x0020_000D, Vr::UI, "StudyInstanceUID"),
    (0x0020_000E, Vr::UI, "SeriesInstanceUID"),
    (0x0020_0010, Vr::SH, "StudyID"),
    (0x0020_0011, Vr::IS, "SeriesNumber"),
    (0x0020_0012, Vr::IS, "AcquisitionNumber"),
    (0x0020_0013, Vr::IS, "InstanceNumber"),
    (0x0020_0032, Vr::DS, "ImagePositionPatient"),
    (0x0020_0037, Vr::DS, "ImageOrientationPatient"),
    (0x0020_0052, Vr::UI, "FrameOfReferenceUID"),
    (0x0020_1041, Vr::DS, "SliceLocation"),
    (0x0028_0002, Vr::US, "SamplesPerPixel"),
    (0x0028_0004, Vr::CS, "PhotometricInterpretation"),
    (0x0028_0006, Vr::US, "PlanarConfiguration"),
    (0x0028_0008, Vr::IS, "NumberOfFrames"),
    (0x0028_0009, Vr::AT, "FrameIncrementPointer"),
    (0x0028_0010, Vr::US, "Rows"),
    (0x0028_0011, Vr::US, "Columns"),
    (0x0028_0030, Vr::DS, "PixelSpacing"),
    (0x0028_0100, Vr::US, "BitsAllocated"),
    (0x0028_0101, Vr::US, "BitsStored"),
    (0x0028_0102, Vr::US, "HighBit"),
    (0x0028_0103, Vr::US, "PixelRepresentation"),
    (0x0028_1050, Vr::DS, "WindowCenter"),
    (0x0028_1051, Vr::DS, "WindowWidth"),
    (0x0028_1052, Vr::DS, "RescaleIntercept"),
    (0x0028_1053, Vr::DS, "RescaleSlope"),
    (0x0040_A040, Vr::CS, "ValueType"),
    (0x0040_A043, Vr::SQ, "ConceptNameCodeSequence"),
    (0x0040_A160, Vr::UT, "TextValue"),
    (0x0040_A730, Vr::SQ, "ContentSequence"),
    (0x7FE0_0010, Vr::OW, "PixelData"),
];

/// The row of each number of `ELEMENTS`, by its remainder. No two numbers of the table have the same.
#[rattlefmt::skip]
const PLACES: [u16; 583] = [
    0, 0, 0, 0, 0, 0, 0, 0, 0, 0, 53, 0, 42, 0, 0, 0, 0, 0, 0, 0, 0, 0, 0, 0, 0, 0, 54, 0, 0, 0, 0, 0, 0, 0, 0, 0, 0,
    0, 0, 0, 0, 0, 0, 0, 0, 0, 0, 0, 0, 0, 0, 0, 0, 0, 0, 0, 0, 0, 0, 0, 0, 0, 0, 0, 0, 0, 0, 0, 0, 0, 0, 0, 0, 0, 0,
    0, 0, 0, 0, 0, 0, 0, 0, 0, 0, 0, 0, 0, 0, 0, 0, 0, 0, 0, 0, 0, 0, 0, 0, 0, 0, 0, 0, 0, 0, 0, 0, 0, 0, 0, 0, 0, 0,
    0, 59, 60, 0, 61, 62, 63, 64, 87, 0, 0, 0, 0, 0, 0, 0, 0, 0, 0, 0, 0, 0, 0, 0, 0, 0, 0, 0, 0, 0, 0, 0, 0, 0, 0, 89,
    0, 0, 65, 0, 8, 0, 9, 66, 0, 0, 0, 0, 0, 0, 0, 0, 0, 0, 0, 0, 0, 0, 0, 0, 0, 0, 0, 10, 0, 0, 11, 0, 68, 0, 67, 0,
    0, 0, 0, 0, 12, 13, 0, 0, 14, 0, 15, 0, 0, 0, 0, 58, 0, 0, 16, 17, 18, 19, 0, 0, 0, 0, 0, 0, 20, 0, 0, 0, 0, 0, 21,
    22, 23, 24, 0, 0, 0, 0, 0, 0, 0, 0, 0, 0, 0, 33, 0, 0, 0, 0, 0, 0, 0, 0, 0, 0, 0, 0, 0, 34, 0, 0, 25, 0, 0, 0, 0,
    0, 0, 0, 0, 0, 57, 0, 0, 0, 0, 0, 26, 0, 0, 0, 0, 0, 0, 69, 0, 70, 0, 71, 0, 72, 73, 0, 27, 0, 0, 0, 0, 74, 75, 0,
    0, 0, 0, 0, 0, 0, 0, 0, 28, 0, 0, 0, 0, 0, 0, 0, 0, 0, 0, 0, 0, 0, 0, 0, 29, 0, 0, 0, 0, 76, 0, 0, 0, 0, 0, 0, 0,
    0, 0, 35, 0, 0, 0, 0, 0, 0, 0, 0, 0, 0, 0, 0, 0, 0, 0, 0, 0, 0, 0, 0, 0, 0, 0, 0, 0, 0, 0, 44, 0, 0, 0, 0, 0, 0, 0,
    0, 81, 82, 83, 84, 0, 0, 48, 45, 0, 0, 0, 0, 0, 0, 0, 0, 0, 0, 0, 0, 0, 0, 49, 46, 0, 0, 0, 0, 0, 0, 0, 0, 0, 0, 0,
    51, 0, 0, 50, 47, 0, 0, 0, 0, 0, 0, 0, 0, 0, 85, 0, 0, 86, 0, 0, 0, 0, 0, 0, 0, 30, 0, 31, 0, 32, 0, 0, 0, 0, 0, 0,
    0, 0, 0, 0, 0, 88, 0, 0, 0, 0, 0, 0, 0, 0, 0, 0, 0, 0, 0, 0, 36, 37, 0, 0, 0, 38, 0, 0, 0, 0, 0, 0, 0, 0, 0, 0, 0,
    43, 0, 0, 0, 0, 0, 1, 2, 3, 0, 0, 0, 0, 0, 0, 0, 0, 0, 0, 0, 0, 4, 0, 5, 6, 0, 0, 7, 0, 0, 0, 39, 0, 0, 0, 0, 0, 0,
    0, 0, 0, 0, 0, 0, 0, 0, 0, 40, 0, 0, 0, 0, 41, 77, 78, 79, 80, 0, 0, 52, 0, 0, 0, 0, 0, 0, 0, 0, 0, 0, 0, 0, 0, 0,
    0, 0, 0, 0, 0, 0, 0, 0, 0, 0, 0, 55, 0, 0, 0, 0, 0, 0, 0, 0, 0, 0, 0, 0, 0, 0, 0, 56, 0, 0, 0, 0, 0, 0,
];

/// A row of such a table.
pub(super) type Row = (u32, Vr, &'static str);

/// The table.
#[tactic(auto, unfolding(crate::specs::Tables::Dictionary::elements))]
fn rows() -> &'static [Row]
    ensures { map (λ r. (r.0, r.1, r.2.now)) result.now ≡ spec.elements }
{
    &ELEMENTS
}

/// The first row that has the number, where the numbers ascend. The places say by its remainder which row that is. So
/// no search is needed to know that there is none, as for many elements of a file.
#[inline(always)]
pub(super) fn numbered(rows: &[Row], places: &[u16], number: u32) -> Option<(Vr, &'static str)>
    requires ascending { IsStrictlyIncreasing (map (λ r. r.0) rows.now) }
    requires places { 0 < length places.now }
    requires placed { spec.are_placed places.now 0 (map (λ r. r.0) rows.now) ≡ true }
    ensures { option_map (λ r. (r.0, r.1.now)) result ≡ spec.numbered (map (λ r. (r.0, r.1, r.2.now)) rows.now) number }
{
    let at = usize::from(places[number as usize % places.len()]);
    if at < rows.len() && rows[at].0 == number {
        return Some((rows[at].1, rows[at].2));
    }
    None
}

/// The number in the first row that has the keyword.
pub fn called(mut rows: &[Row], keyword: &[u8]) -> Option<u32>
    ensures { result ≡ spec.called (map (λ r. (r.0, r.1, r.2.now)) rows.entry.now) keyword.now }
{
    while let [row, rest @ ..] = rows {
        if row.2.as_bytes() == keyword {
            return Some(row.0);
        }
        rows = rest;
    }
    None
}

/// The value representation and the keyword of a tag of the extract.
#[tactic(auto, unfolding(crate::specs::Tables::Dictionary::element_in, crate::specs::Tables::Dictionary::elements_in))]
pub fn element(tag: Tag) -> Option<(Vr, &'static str)>
    ensures { option_map (λ r. (r.0, r.1.now)) result ≡ spec.element_in Extract tag }
{
    numbered(rows(), &PLACES, tag.number())
}

/// The tag of the element of the extract that has the keyword.
#[tactic(auto, unfolding(crate::specs::Tables::Dictionary::tag_in, crate::specs::Tables::Dictionary::elements_in))]
pub fn tag_of(keyword: &[u8]) -> Option<Tag>
    ensures { result ≡ spec.tag_in Extract keyword.now }
{
    match called(rows(), keyword) {
        Some(number) => Some(Tag::of_number(number)),
        None => None,
    }
}
