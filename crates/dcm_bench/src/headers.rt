// The elements of an image or a report before its contents, as modalities write them.
use crate::data_set::DataSet;
use crate::random::Random;
use crate::texts::{Text, date, decimals, name, numbered, time, uid, words};
use std::alloc::AllocError;

/// What an element holds.
#[derive(Clone, Copy)]
enum Kind {
    /// Always the same.
    Fixed(&'static [u8]),
    Name,
    /// A number in a text.
    Number,
    Uid,
    Date,
    Time,
    /// So many words.
    Words(u32),
    /// So many decimal numbers.
    Decimals(u32),
    /// A binary number of two bytes.
    Short,
    /// A binary number of four bytes.
    Long,
    Empty,
}

/// An element: its tag, representation and contents.
#[derive(Clone, Copy)]
struct Row(u32, &'static [u8; 2], Kind);

/// The study and the series (PS3.3 C.7.2, C.7.3).
const STUDY: [Row; 29] = [
    Row(0x0008_0005, b"CS", Kind::Fixed(b"ISO_IR 100")),
    Row(
        0x0008_0008,
        b"CS",
        Kind::Fixed(b"ORIGINAL\\PRIMARY\\M_FFE\\M\\FFE"),
    ),
    Row(0x0008_0012, b"DA", Kind::Date),
    Row(0x0008_0013, b"TM", Kind::Time),
    Row(0x0008_0014, b"UI", Kind::Uid),
    Row(
        0x0008_0016,
        b"UI",
        Kind::Fixed(b"1.2.840.10008.5.1.4.1.1.4"),
    ),
    Row(0x0008_0018, b"UI", Kind::Uid),
    Row(0x0008_0020, b"DA", Kind::Date),
    Row(0x0008_0021, b"DA", Kind::Date),
    Row(0x0008_0022, b"DA", Kind::Date),
    Row(0x0008_0023, b"DA", Kind::Date),
    Row(0x0008_0030, b"TM", Kind::Time),
    Row(0x0008_0031, b"TM", Kind::Time),
    Row(0x0008_0032, b"TM", Kind::Time),
    Row(0x0008_0033, b"TM", Kind::Time),
    Row(0x0008_0050, b"SH", Kind::Number),
    Row(0x0008_0060, b"CS", Kind::Fixed(b"MR")),
    Row(0x0008_0070, b"LO", Kind::Words(1)),
    Row(0x0008_0080, b"LO", Kind::Words(3)),
    Row(0x0008_0081, b"ST", Kind::Words(5)),
    Row(0x0008_0090, b"PN", Kind::Name),
    Row(0x0008_1010, b"SH", Kind::Number),
    Row(0x0008_1030, b"LO", Kind::Words(3)),
    Row(0x0008_103E, b"LO", Kind::Words(2)),
    Row(0x0008_1040, b"LO", Kind::Words(2)),
    Row(0x0008_1050, b"PN", Kind::Name),
    Row(0x0008_1060, b"PN", Kind::Name),
    Row(0x0008_1070, b"PN", Kind::Name),
    Row(0x0008_1090, b"LO", Kind::Words(1)),
];

/// The patient (PS3.3 C.7.1).
const PATIENT: [Row; 18] = [
    Row(0x0010_0010, b"PN", Kind::Name),
    Row(0x0010_0020, b"LO", Kind::Number),
    Row(0x0010_0021, b"LO", Kind::Words(1)),
    Row(0x0010_0030, b"DA", Kind::Date),
    Row(0x0010_0032, b"TM", Kind::Empty),
    Row(0x0010_0040, b"CS", Kind::Fixed(b"F")),
    Row(0x0010_1000, b"LO", Kind::Number),
    Row(0x0010_1001, b"PN", Kind::Name),
    Row(0x0010_1010, b"AS", Kind::Fixed(b"057Y")),
    Row(0x0010_1020, b"DS", Kind::Decimals(1)),
    Row(0x0010_1030, b"DS", Kind::Decimals(1)),
    Row(0x0010_1040, b"LO", Kind::Words(4)),
    Row(0x0010_2154, b"SH", Kind::Number),
    Row(0x0010_2160, b"SH", Kind::Words(1)),
    Row(0x0010_2180, b"SH", Kind::Words(2)),
    Row(0x0010_21B0, b"LT", Kind::Words(12)),
    Row(0x0010_21C0, b"US", Kind::Short),
    Row(0x0010_4000, b"LT", Kind::Words(8)),
];

/// How the image was acquired (PS3.3 C.8.3).
const EQUIPMENT: [Row; 29] = [
    Row(0x0018_0015, b"CS", Kind::Fixed(b"CHEST")),
    Row(0x0018_0020, b"CS", Kind::Fixed(b"GR")),
    Row(0x0018_0021, b"CS", Kind::Fixed(b"SS")),
    Row(0x0018_0022, b"CS", Kind::Fixed(b"FC\\SP")),
    Row(0x0018_0023, b"CS", Kind::Fixed(b"3D")),
    Row(0x0018_0050, b"DS", Kind::Decimals(1)),
    Row(0x0018_0080, b"DS", Kind::Decimals(1)),
    Row(0x0018_0081, b"DS", Kind::Decimals(1)),
    Row(0x0018_0083, b"DS", Kind::Decimals(1)),
    Row(0x0018_0084, b"DS", Kind::Decimals(1)),
    Row(0x0018_0085, b"SH", Kind::Fixed(b"1H")),
    Row(0x0018_0086, b"IS", Kind::Number),
    Row(0x0018_0087, b"DS", Kind::Decimals(1)),
    Row(0x0018_0088, b"DS", Kind::Decimals(1)),
    Row(0x0018_0089, b"IS", Kind::Number),
    Row(0x0018_0091, b"IS", Kind::Number),
    Row(0x0018_0093, b"DS", Kind::Decimals(1)),
    Row(0x0018_0094, b"DS", Kind::Decimals(1)),
    Row(0x0018_0095, b"DS", Kind::Decimals(1)),
    Row(0x0018_1000, b"LO", Kind::Number),
    Row(0x0018_1020, b"LO", Kind::Number),
    Row(0x0018_1030, b"LO", Kind::Words(3)),
    Row(0x0018_1100, b"DS", Kind::Decimals(1)),
    Row(0x0018_1250, b"SH", Kind::Words(1)),
    Row(0x0018_1310, b"US", Kind::Short),
    Row(0x0018_1312, b"CS", Kind::Fixed(b"ROW")),
    Row(0x0018_1314, b"DS", Kind::Decimals(1)),
    Row(0x0018_1316, b"DS", Kind::Decimals(1)),
    Row(0x0018_5100, b"CS", Kind::Fixed(b"HFS")),
];

/// Where the image belongs (PS3.3 C.7.6).
const RELATION: [Row; 13] = [
    Row(0x0020_000D, b"UI", Kind::Uid),
    Row(0x0020_000E, b"UI", Kind::Uid),
    Row(0x0020_0010, b"SH", Kind::Number),
    Row(0x0020_0011, b"IS", Kind::Number),
    Row(0x0020_0012, b"IS", Kind::Number),
    Row(0x0020_0013, b"IS", Kind::Number),
    Row(0x0020_0032, b"DS", Kind::Decimals(3)),
    Row(0x0020_0037, b"DS", Kind::Decimals(6)),
    Row(0x0020_0052, b"UI", Kind::Uid),
    Row(0x0020_0060, b"CS", Kind::Empty),
    Row(0x0020_1040, b"LO", Kind::Empty),
    Row(0x0020_1041, b"DS", Kind::Decimals(1)),
    Row(0x0020_4000, b"LT", Kind::Words(6)),
];

/// What the pixels are (PS3.3 C.7.6.3).
const PIXELS: [Row; 15] = [
    Row(0x0028_0002, b"US", Kind::Short),
    Row(0x0028_0004, b"CS", Kind::Fixed(b"MONOCHROME2")),
    Row(0x0028_0010, b"US", Kind::Short),
    Row(0x0028_0011, b"US", Kind::Short),
    Row(0x0028_0030, b"DS", Kind::Decimals(2)),
    Row(0x0028_0100, b"US", Kind::Short),
    Row(0x0028_0101, b"US", Kind::Short),
    Row(0x0028_0102, b"US", Kind::Short),
    Row(0x0028_0106, b"US", Kind::Short),
    Row(0x0028_0107, b"US", Kind::Short),
    Row(0x0028_1050, b"DS", Kind::Decimals(1)),
    Row(0x0028_1051, b"DS", Kind::Decimals(1)),
    Row(0x0028_1052, b"DS", Kind::Decimals(1)),
    Row(0x0028_1053, b"DS", Kind::Decimals(1)),
    Row(0x0028_1054, b"LO", Kind::Fixed(b"normalized")),
];

/// Elements of a maker (PS3.5 7.8).
const PRIVATE: [Row; 16] = [
    Row(0x2001_0010, b"LO", Kind::Fixed(b"Philips Imaging DD 001")),
    Row(0x2001_1001, b"FL", Kind::Long),
    Row(0x2001_1002, b"IS", Kind::Number),
    Row(0x2001_1003, b"FL", Kind::Long),
    Row(0x2001_1004, b"CS", Kind::Fixed(b"N")),
    Row(0x2001_1006, b"CS", Kind::Fixed(b"N")),
    Row(0x2001_1007, b"CS", Kind::Fixed(b"U")),
    Row(0x2001_1008, b"IS", Kind::Number),
    Row(0x2001_100A, b"IS", Kind::Number),
    Row(0x2001_100B, b"CS", Kind::Fixed(b"TRANSVERSAL")),
    Row(
        0x2005_0010,
        b"LO",
        Kind::Fixed(b"Philips MR Imaging DD 001"),
    ),
    Row(0x2005_1000, b"FL", Kind::Long),
    Row(0x2005_1001, b"FL", Kind::Long),
    Row(0x2005_1002, b"FL", Kind::Long),
    Row(0x2005_1008, b"FL", Kind::Long),
    Row(0x2005_1009, b"FL", Kind::Long),
];

/// The text of an element that is no binary number.
fn text(kind: Kind, random: &mut Random) -> Text {
    match kind {
        Kind::Fixed(bytes) => {
            let mut text = Text::new();
            let _ = text.try_extend_from_slice(bytes);
            text
        }
        Kind::Name => name(random),
        Kind::Number => numbered(b"", u64::from(random.below(100_000)), b""),
        Kind::Uid => uid(random),
        Kind::Date => date(random),
        Kind::Time => time(random),
        Kind::Words(count) => words(random, count),
        Kind::Decimals(count) => decimals(random, count),
        Kind::Short | Kind::Long | Kind::Empty => Text::new(),
    }
}

/// Puts elements.
fn put_rows(set: &mut DataSet, random: &mut Random, rows: &[Row]) -> Result<(), AllocError> {
    for Row(tag, vr, kind) in rows {
        match *kind {
            Kind::Short => set.leaf_short(*tag, vr, random.below(4096) as u16)?,
            Kind::Long => set.leaf_long(*tag, vr, random.below(1 << 30))?,
            _ => set.leaf(*tag, vr, text(*kind, random).as_slice())?,
        }
    }
    Ok(())
}

/// What every image and report has of its study, series and patient.
pub fn put_patient(set: &mut DataSet, random: &mut Random) -> Result<(), AllocError> {
    put_rows(set, random, &STUDY)?;
    put_rows(set, random, &PATIENT)
}

/// What an image has between its patient and its pixels.
pub fn put_image(set: &mut DataSet, random: &mut Random) -> Result<(), AllocError> {
    put_rows(set, random, &EQUIPMENT)?;
    put_rows(set, random, &RELATION)?;
    put_rows(set, random, &PIXELS)?;
    put_rows(set, random, &PRIVATE)
}
