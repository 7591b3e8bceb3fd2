// Files that several rows have, and the pieces of their data sets.
use super::rows::Bytes;
use dcm_test_devices::Start;

/// A key.
pub const KEY: &[u8] = b"a key of 16 byte";

/// The name of the output of the first instance by the key, and its path.
pub const ONE_NAME: &str = "2.25.138317902728335365291811827072007666650/\
2.25.121472145263479711491759604955092141389/\
2.25.112268688777544570398584994926479373732.dcm";

pub const ONE_PATH: &[u8] = b"out/2.25.138317902728335365291811827072007666650/\
2.25.121472145263479711491759604955092141389/\
2.25.112268688777544570398584994926479373732.dcm";

/// The name of the output of the second instance by the key, and its path.
pub const TWO_NAME: &str = "2.25.138317902728335365291811827072007666650/\
2.25.121472145263479711491759604955092141389/\
2.25.168075106255221761352912998948000088358.dcm";

pub const TWO_PATH: &[u8] = b"out/2.25.138317902728335365291811827072007666650/\
2.25.121472145263479711491759604955092141389/\
2.25.168075106255221761352912998948000088358.dcm";

/// A PatientName, AB^CD.
pub const NAME: &[u8] = b"\x10\0\x10\0PN\x06\0AB^CD ";

/// The unique identifiers of an instance.
pub const INSTANCE: &[u8] = b"\x08\0\x18\0UI\x06\x001.2.5\0";

pub const STUDY: &[u8] = b" \0\x0d\0UI\x06\x001.2.3\0";

pub const SERIES: &[u8] = b" \0\x0e\0UI\x06\x001.2.4\0";

/// That of another instance.
pub const OTHER_INSTANCE: &[u8] = b"\x08\0\x18\0UI\x06\x001.2.6\0";

/// One of 64 bytes.
pub const LONG_STUDY: &[u8] =
    b" \0\x0d\0UI@\x001.22222222222222222222222222222222222222222222222222222222222222";

/// One of the standard.
pub const STANDARD_STUDY: &[u8] = b" \0\x0d\0UI\x10\x001.2.840.10008.7\0";

/// A StudyDate and a PatientID.
pub const DATE: &[u8] = b"\x08\0 \0DA\x08\x0020240101";

pub const PATIENT_ID: &[u8] = b"\x10\0 \0LO\x02\x007 ";

/// That pixels show who it is.
pub const BURNED_IN: &[u8] = b"(\0\x01\x03CS\x04\0YES ";

/// The identifiers by the key.
pub const NEW_INSTANCE: &[u8] = b"\x08\0\x18\0UI,\x002.25.112268688777544570398584994926479373732";

pub const NEW_OTHER_INSTANCE: &[u8] =
    b"\x08\0\x18\0UI,\x002.25.168075106255221761352912998948000088358";

pub const NEW_STUDY: &[u8] = b" \0\x0d\0UI,\x002.25.138317902728335365291811827072007666650";

pub const NEW_SERIES: &[u8] = b" \0\x0e\0UI,\x002.25.121472145263479711491759604955092141389";

/// An empty StudyDate, and an empty PatientID.
pub const NO_DATE: &[u8] = b"\x08\0 \0DA\0\0";

pub const NO_PATIENT_ID: &[u8] = b"\x10\0 \0LO\0\0";

/// The pseudonym of 7 by the key.
pub const PSEUDONYM: &[u8] = b"\x10\0 \0LO\x16\0P59dc327b8fd60106f827 ";

/// What a file says whose identity was taken out (PS3.15 E.1).
pub const REMOVED: &[u8] = b"\x12\0b\0CS\x04\0YES ";

pub const METHOD: &[u8] = b"\x12\0c\0LO\x1e\0dcmtools dcmdeid, PS3.15 2021b";

pub const PROFILE: &[u8] = b"\x12\0d\0SQ\0\0\xff\xff\xff\xff\
\xfe\xff\0\xe0\xff\xff\xff\xff\x08\0\0\x01SH\x06\x00113100\x08\0\x02\x01SH\x04\0DCM \x08\0\
\x04\x01LO*\0Basic Application Confidentiality Profile \
\xfe\xff\x0d\xe0\0\0\0\0\
\xfe\xff\xdd\xe0\0\0\0\0";

pub const PROFILE_UIDS: &[u8] = b"\x12\0d\0SQ\0\0\xff\xff\xff\xff\
\xfe\xff\0\xe0\xff\xff\xff\xff\x08\0\0\x01SH\x06\x00113100\x08\0\x02\x01SH\x04\0DCM \x08\0\
\x04\x01LO*\0Basic Application Confidentiality Profile \
\xfe\xff\x0d\xe0\0\0\0\0\
\xfe\xff\0\xe0\xff\xff\xff\xff\x08\0\0\x01SH\x06\x00113110\x08\0\x02\x01SH\x04\0DCM \x08\0\
\x04\x01LO\x12\0Retain UIDs Option\
\xfe\xff\x0d\xe0\0\0\0\0\
\xfe\xff\xdd\xe0\0\0\0\0";

pub const PROFILE_DATES_UIDS: &[u8] = b"\x12\0d\0SQ\0\0\xff\xff\xff\xff\
\xfe\xff\0\xe0\xff\xff\xff\xff\x08\0\0\x01SH\x06\x00113100\x08\0\x02\x01SH\x04\0DCM \x08\0\
\x04\x01LO*\0Basic Application Confidentiality Profile \
\xfe\xff\x0d\xe0\0\0\0\0\
\xfe\xff\0\xe0\xff\xff\xff\xff\x08\0\0\x01SH\x06\x00113107\x08\0\x02\x01SH\x04\0DCM \x08\0\
\x04\x01LO>\0Retain Longitudinal Temporal Information Modified Dates Option\
\xfe\xff\x0d\xe0\0\0\0\0\
\xfe\xff\0\xe0\xff\xff\xff\xff\x08\0\0\x01SH\x06\x00113110\x08\0\x02\x01SH\x04\0DCM \x08\0\
\x04\x01LO\x12\0Retain UIDs Option\
\xfe\xff\x0d\xe0\0\0\0\0\
\xfe\xff\xdd\xe0\0\0\0\0";

pub const DATES_REMOVED: &[u8] = b"(\0\x03\x03CS\x08\0REMOVED ";

pub const DATES_MODIFIED: &[u8] = b"(\0\x03\x03CS\x08\0MODIFIED";

/// A file, which dcmconv leaves as it is.
pub const GOOD: Bytes = Bytes {
    start: Start::ExplicitLittle,
    rest: &[NAME],
};

/// A file of implicit VR, and what dcmconv makes of it.
pub const OTHER: Bytes = Bytes {
    start: Start::Implicit,
    rest: &[b"\x10\0\x10\0\x04\0\0\0E^F "],
};

pub const CONVERTED: Bytes = Bytes {
    start: Start::Implicit,
    rest: &[b"\x10\0\x10\0\x04\0\0\0E^F "],
};

/// A file that ends too early.
pub const CUT: Bytes = Bytes {
    start: Start::ExplicitLittle,
    rest: &[b"\x10\0\x10\0PN\x06\0AB^CD"],
};

/// What is no file of DICOM.
pub const TEXT: Bytes = Bytes {
    start: Start::Nothing,
    rest: &[
        b"no DICOM\n\
no DICOM\n\
no DICOM\n\
no DICOM\n\
no DICOM\n\
no DICOM\n\
no DICOM\n\
no DICOM\n\
no DICOM\n\
no DICOM\n\
no DICOM\n\
no DICOM\n\
no DICOM\n\
no DICOM\n\
no DICOM\n\
no DICOM\n\
no DICOM\n\
no DICOM\n\
no DICOM\n\
no DICOM\n",
    ],
};

/// An instance, and what dcmdeid makes of it by the key.
pub const ONE: Bytes = Bytes {
    start: Start::ExplicitLittle,
    rest: &[INSTANCE, STUDY, SERIES],
};

pub const ONE_NEW: Bytes = Bytes {
    start: Start::WithoutIdentity,
    rest: &[
        NEW_INSTANCE,
        REMOVED,
        METHOD,
        PROFILE,
        NEW_STUDY,
        NEW_SERIES,
        DATES_REMOVED,
    ],
};

/// Another instance of its series.
pub const TWO: Bytes = Bytes {
    start: Start::ExplicitLittle,
    rest: &[OTHER_INSTANCE, STUDY, SERIES],
};

pub const TWO_NEW: Bytes = Bytes {
    start: Start::WithoutIdentity,
    rest: &[
        NEW_OTHER_INSTANCE,
        REMOVED,
        METHOD,
        PROFILE,
        NEW_STUDY,
        NEW_SERIES,
        DATES_REMOVED,
    ],
};

/// One whose pixels show who it is.
pub const SHOWN: Bytes = Bytes {
    start: Start::ExplicitLittle,
    rest: &[OTHER_INSTANCE, STUDY, SERIES, BURNED_IN],
};

/// An instance of a patient, and what dcmdeid makes of it: with a pseudonym, with days moved by 30, and by the key.
pub const PATIENT: Bytes = Bytes {
    start: Start::ExplicitLittle,
    rest: &[INSTANCE, DATE, PATIENT_ID, STUDY, SERIES],
};

pub const PATIENT_NAMED: Bytes = Bytes {
    start: Start::WithoutIdentity,
    rest: &[
        INSTANCE,
        NO_DATE,
        PSEUDONYM,
        REMOVED,
        METHOD,
        PROFILE_UIDS,
        STUDY,
        SERIES,
        DATES_REMOVED,
    ],
};

pub const PATIENT_MOVED: Bytes = Bytes {
    start: Start::WithoutIdentity,
    rest: &[
        INSTANCE,
        b"\x08\0 \0DA\x08\x0020240131",
        NO_PATIENT_ID,
        REMOVED,
        METHOD,
        PROFILE_DATES_UIDS,
        STUDY,
        SERIES,
        DATES_MODIFIED,
    ],
};

pub const PATIENT_MOVED_BY_KEY: Bytes = Bytes {
    start: Start::WithoutIdentity,
    rest: &[
        INSTANCE,
        b"\x08\0 \0DA\x08\x0020190617",
        NO_PATIENT_ID,
        REMOVED,
        METHOD,
        PROFILE_DATES_UIDS,
        STUDY,
        SERIES,
        DATES_MODIFIED,
    ],
};

/// A name in ISO 8859-1, and one in UTF-8.
pub const LATIN: Bytes = Bytes {
    start: Start::ExplicitLittle,
    rest: &[
        b"\x08\0\x05\0CS\n\0ISO_IR 100",
        b"\x10\0\x10\0PN\x06\0J\xf6rg^\xff",
    ],
};

pub const UTF8: Bytes = Bytes {
    start: Start::ExplicitLittle,
    rest: &[
        b"\x08\0\x05\0CS\n\0ISO_IR 192",
        b"\x10\0\x10\0PN\x06\0\xd0\xaf^\xc3\xbc ",
    ],
};
