// Files, and what they name.
use dcm_test_devices::Start;

/// What a file names.
#[derive(Clone, Copy)]
pub enum Names {
    /// The instance of this name.
    Instance(&'static [u8]),
    /// None, for the sake of the unique identifier with this keyword.
    Unfit(&'static [u8]),
    /// None, since reading failed.
    Unread,
}

/// A file, and what it names.
#[derive(Clone, Copy)]
pub struct Row {
    pub name: &'static str,
    pub start: Start,
    pub set: &'static [&'static [u8]],
    pub names: Names,
}

const INSTANCE: &[u8] = b"\x08\0\x18\0UI\x04\x001.4 ";

const STUDY: &[u8] = b"\x20\0\x0D\0UI\x04\x001.2\0";

const SERIES: &[u8] = b"\x20\0\x0E\0UI\x06\x001.2.3\0";

/// Values of 64 and of 65 bytes, and 64 with padding.
const STUDY_64: &[u8] =
    b"\x20\0\x0D\0UI\x40\x001234567890123456789012345678901234567890123456789012345678901.34";

const STUDY_65: &[u8] =
    b"\x20\0\x0D\0UI\x41\x001234567890123456789012345678901234567890123456789012345678901.345";

const STUDY_PADDED: &[u8] =
    b"\x20\0\x0D\0UI\x44\x001234567890123456789012345678901234567890123456789012345678901.34\0 \0 ";

const STUDY_PARTED: &[u8] =
    b"\x20\0\x0D\0UI\x44\x001234567890123456789012345678901234567890123456789012345678901.34\0 \x001";

/// An item with all three.
const ITEM: &[u8] = b"\x08\0\x40\x11SQ\0\0\xFF\xFF\xFF\xFF\xFE\xFF\0\xE0\xFF\xFF\xFF\xFF\
\x08\0\x18\0UI\x02\x009\0\x20\0\x0D\0UI\x02\x009\0\x20\0\x0E\0UI\x02\x009\0\
\xFE\xFF\x0D\xE0\0\0\0\0\xFE\xFF\xDD\xE0\0\0\0\0";

const STUDY_KEYWORD: &[u8] = b"StudyInstanceUID";

const SERIES_KEYWORD: &[u8] = b"SeriesInstanceUID";

const INSTANCE_KEYWORD: &[u8] = b"SOPInstanceUID";

/// All rows.
pub static ROWS: [Row; 24] = [
    Row {
        name: "all three",
        start: Start::ExplicitLittle,
        set: &[INSTANCE, STUDY, SERIES],
        names: Names::Instance(b"1.2/1.2.3/1.4.dcm"),
    },
    Row {
        name: "all three, and more",
        start: Start::ExplicitLittle,
        set: &[INSTANCE, STUDY, SERIES, b"\x20\0\x10\0SH\x02\x001 "],
        names: Names::Instance(b"1.2/1.2.3/1.4.dcm"),
    },
    Row {
        name: "a fault behind them",
        start: Start::ExplicitLittle,
        set: &[INSTANCE, STUDY, SERIES, b"\x20\0\x10\0??\x02\x001 "],
        names: Names::Instance(b"1.2/1.2.3/1.4.dcm"),
    },
    Row {
        name: "nothing",
        start: Start::ExplicitLittle,
        set: &[],
        names: Names::Unfit(STUDY_KEYWORD),
    },
    Row {
        name: "no study",
        start: Start::ExplicitLittle,
        set: &[INSTANCE, SERIES],
        names: Names::Unfit(STUDY_KEYWORD),
    },
    Row {
        name: "no series",
        start: Start::ExplicitLittle,
        set: &[INSTANCE, STUDY, b"\x20\0\x10\0SH\x02\x001 "],
        names: Names::Unfit(SERIES_KEYWORD),
    },
    Row {
        name: "no instance",
        start: Start::ExplicitLittle,
        set: &[STUDY, SERIES],
        names: Names::Unfit(INSTANCE_KEYWORD),
    },
    Row {
        name: "an instance behind the series",
        start: Start::ExplicitLittle,
        set: &[STUDY, SERIES, INSTANCE],
        names: Names::Unfit(INSTANCE_KEYWORD),
    },
    Row {
        name: "the first of two",
        start: Start::ExplicitLittle,
        set: &[INSTANCE, STUDY, b"\x20\0\x0D\0UI\x02\x009\0", SERIES],
        names: Names::Instance(b"1.2/1.2.3/1.4.dcm"),
    },
    Row {
        name: "those of an item",
        start: Start::ExplicitLittle,
        set: &[ITEM, STUDY, SERIES],
        names: Names::Unfit(INSTANCE_KEYWORD),
    },
    Row {
        name: "an item before them",
        start: Start::ExplicitLittle,
        set: &[INSTANCE, ITEM, STUDY, SERIES],
        names: Names::Instance(b"1.2/1.2.3/1.4.dcm"),
    },
    Row {
        name: "64 bytes",
        start: Start::ExplicitLittle,
        set: &[INSTANCE, STUDY_64, SERIES],
        names: Names::Instance(
            b"1234567890123456789012345678901234567890123456789012345678901.34/1.2.3/1.4.dcm",
        ),
    },
    Row {
        name: "64 bytes and padding",
        start: Start::ExplicitLittle,
        set: &[INSTANCE, STUDY_PADDED, SERIES],
        names: Names::Instance(
            b"1234567890123456789012345678901234567890123456789012345678901.34/1.2.3/1.4.dcm",
        ),
    },
    Row {
        name: "65 bytes",
        start: Start::ExplicitLittle,
        set: &[INSTANCE, STUDY_65, SERIES],
        names: Names::Unfit(STUDY_KEYWORD),
    },
    Row {
        name: "a digit behind padding",
        start: Start::ExplicitLittle,
        set: &[INSTANCE, STUDY_PARTED, SERIES],
        names: Names::Unfit(STUDY_KEYWORD),
    },
    Row {
        name: "a point",
        start: Start::ExplicitLittle,
        set: &[INSTANCE, STUDY, b"\x20\0\x0E\0UI\x02\0.\0"],
        names: Names::Unfit(SERIES_KEYWORD),
    },
    Row {
        name: "two points",
        start: Start::ExplicitLittle,
        set: &[INSTANCE, b"\x20\0\x0D\0UI\x02\0..", SERIES],
        names: Names::Unfit(STUDY_KEYWORD),
    },
    Row {
        name: "a slash",
        start: Start::ExplicitLittle,
        set: &[b"\x08\0\x18\0UI\x04\x001/2\0", STUDY, SERIES],
        names: Names::Unfit(INSTANCE_KEYWORD),
    },
    Row {
        name: "padding alone",
        start: Start::ExplicitLittle,
        set: &[b"\x08\0\x18\0UI\x02\0\0\0", STUDY, SERIES],
        names: Names::Unfit(INSTANCE_KEYWORD),
    },
    Row {
        name: "a value that is cut",
        start: Start::ExplicitLittle,
        set: &[INSTANCE, STUDY, b"\x20\0\x0E\0UI\x06\x001.2"],
        names: Names::Unfit(SERIES_KEYWORD),
    },
    Row {
        name: "implicit",
        start: Start::Implicit,
        set: &[
            b"\x08\0\x18\0\x04\0\0\x001.4 ",
            b"\x20\0\x0D\0\x04\0\0\x001.2\0",
            b"\x20\0\x0E\0\x06\0\0\x001.2.3\0",
        ],
        names: Names::Instance(b"1.2/1.2.3/1.4.dcm"),
    },
    Row {
        name: "big endian",
        start: Start::Big,
        set: &[
            b"\0\x08\0\x18UI\0\x041.4 ",
            b"\0\x20\0\x0DUI\0\x041.2\0",
            b"\0\x20\0\x0EUI\0\x061.2.3\0",
        ],
        names: Names::Instance(b"1.2/1.2.3/1.4.dcm"),
    },
    Row {
        name: "no file",
        start: Start::Nothing,
        set: &[INSTANCE, STUDY, SERIES],
        names: Names::Unfit(STUDY_KEYWORD),
    },
    Row {
        name: "unread",
        start: Start::ExplicitLittle,
        set: &[INSTANCE, STUDY, SERIES],
        names: Names::Unread,
    },
];
