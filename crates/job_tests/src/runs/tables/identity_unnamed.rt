// Pseudonyms of files whose PatientID names nobody.
use crate::runs::rows::{EMPTY, Row};
use dcm_test_devices::Start;

/// Where the data set was read to its end.
static WHOLE: [Row; 10] = [
    Row {
        name: "PatientID names nobody: a patient",
        words: "dcmdeid +pi +k KEY - -",
        start: Start::ExplicitLittle,
        input: b"\x10\0 \0LO\x04\01234",
        header: Start::ExplicitLittle,
        lines: b"\x10\0 \0LO\x16\0P72efef0a0cecf3a48f95 \x12\0b\0CS\x04\0YES \x12\0c\0LO\x1e\0dcmtools dcmdeid, PS3.15 2021b\x12\0d\0SQ\0\0\xff\xff\xff\xff\xfe\xff\0\xe0\xff\xff\xff\xff\x08\0\0\x01SH\x06\0113100\x08\0\x02\x01SH\x04\0DCM \x08\0\x04\x01LO*\0Basic Application Confidentiality Profile \xfe\xff\x0d\xe0\0\0\0\0\xfe\xff\xdd\xe0\0\0\0\0(\0\x03\x03CS\x08\0REMOVED ",
        ..EMPTY
    },
    Row {
        name: "PatientID names nobody: no PatientID",
        words: "dcmdeid +pi +k KEY - -",
        start: Start::ExplicitLittle,
        input: b"\x08\0 \0DA\x08\020231231",
        header: Start::ExplicitLittle,
        lines: b"\x08\0 \0DA\0\0\x12\0b\0CS\x04\0YES \x12\0c\0LO\x1e\0dcmtools dcmdeid, PS3.15 2021b\x12\0d\0SQ\0\0\xff\xff\xff\xff\xfe\xff\0\xe0\xff\xff\xff\xff\x08\0\0\x01SH\x06\0113100\x08\0\x02\x01SH\x04\0DCM \x08\0\x04\x01LO*\0Basic Application Confidentiality Profile \xfe\xff\x0d\xe0\0\0\0\0\xfe\xff\xdd\xe0\0\0\0\0(\0\x03\x03CS\x08\0REMOVED ",
        told: b"dcmtools: no pseudonym: PatientID names nobody\n",
        ..EMPTY
    },
    Row {
        name: "PatientID names nobody: an empty file",
        words: "dcmdeid +pi +k KEY - -",
        start: Start::ExplicitLittle,
        input: b"",
        header: Start::ExplicitLittle,
        lines: b"\x12\0b\0CS\x04\0YES \x12\0c\0LO\x1e\0dcmtools dcmdeid, PS3.15 2021b\x12\0d\0SQ\0\0\xff\xff\xff\xff\xfe\xff\0\xe0\xff\xff\xff\xff\x08\0\0\x01SH\x06\0113100\x08\0\x02\x01SH\x04\0DCM \x08\0\x04\x01LO*\0Basic Application Confidentiality Profile \xfe\xff\x0d\xe0\0\0\0\0\xfe\xff\xdd\xe0\0\0\0\0(\0\x03\x03CS\x08\0REMOVED ",
        told: b"dcmtools: no pseudonym: PatientID names nobody\n",
        ..EMPTY
    },
    Row {
        name: "PatientID names nobody: empty",
        words: "dcmdeid +pi +k KEY - -",
        start: Start::ExplicitLittle,
        input: b"\x10\0 \0LO\0\0",
        header: Start::ExplicitLittle,
        lines: b"\x10\0 \0LO\0\0\x12\0b\0CS\x04\0YES \x12\0c\0LO\x1e\0dcmtools dcmdeid, PS3.15 2021b\x12\0d\0SQ\0\0\xff\xff\xff\xff\xfe\xff\0\xe0\xff\xff\xff\xff\x08\0\0\x01SH\x06\0113100\x08\0\x02\x01SH\x04\0DCM \x08\0\x04\x01LO*\0Basic Application Confidentiality Profile \xfe\xff\x0d\xe0\0\0\0\0\xfe\xff\xdd\xe0\0\0\0\0(\0\x03\x03CS\x08\0REMOVED ",
        told: b"dcmtools: no pseudonym: PatientID names nobody\n",
        ..EMPTY
    },
    Row {
        name: "PatientID names nobody: padding",
        words: "dcmdeid +pi +k KEY - -",
        start: Start::ExplicitLittle,
        input: b"\x10\0 \0LO\x02\0 \0",
        header: Start::ExplicitLittle,
        lines: b"\x10\0 \0LO\0\0\x12\0b\0CS\x04\0YES \x12\0c\0LO\x1e\0dcmtools dcmdeid, PS3.15 2021b\x12\0d\0SQ\0\0\xff\xff\xff\xff\xfe\xff\0\xe0\xff\xff\xff\xff\x08\0\0\x01SH\x06\0113100\x08\0\x02\x01SH\x04\0DCM \x08\0\x04\x01LO*\0Basic Application Confidentiality Profile \xfe\xff\x0d\xe0\0\0\0\0\xfe\xff\xdd\xe0\0\0\0\0(\0\x03\x03CS\x08\0REMOVED ",
        told: b"dcmtools: no pseudonym: PatientID names nobody\n",
        ..EMPTY
    },
    Row {
        name: "PatientID names nobody: 257 bytes",
        words: "dcmdeid +pi +k KEY - -",
        start: Start::ExplicitLittle,
        input: b"\x10\0 \0LO\x02\x01xxxxxxxxxxxxxxxxxxxxxxxxxxxxxxxxxxxxxxxxxxxxxxxxxxxxxxxxxxxxxxxxxxxxxxxxxxxxxxxxxxxxxxxxxxxxxxxxxxxxxxxxxxxxxxxxxxxxxxxxxxxxxxxxxxxxxxxxxxxxxxxxxxxxxxxxxxxxxxxxxxxxxxxxxxxxxxxxxxxxxxxxxxxxxxxxxxxxxxxxxxxxxxxxxxxxxxxxxxxxxxxxxxxxxxxxxxxxxxxxxxxxxxxxxxxxxxxxx ",
        header: Start::ExplicitLittle,
        lines: b"\x10\0 \0LO\0\0\x12\0b\0CS\x04\0YES \x12\0c\0LO\x1e\0dcmtools dcmdeid, PS3.15 2021b\x12\0d\0SQ\0\0\xff\xff\xff\xff\xfe\xff\0\xe0\xff\xff\xff\xff\x08\0\0\x01SH\x06\0113100\x08\0\x02\x01SH\x04\0DCM \x08\0\x04\x01LO*\0Basic Application Confidentiality Profile \xfe\xff\x0d\xe0\0\0\0\0\xfe\xff\xdd\xe0\0\0\0\0(\0\x03\x03CS\x08\0REMOVED ",
        told: b"dcmtools: no pseudonym: PatientID names nobody\n",
        ..EMPTY
    },
    Row {
        name: "PatientID names nobody: a sequence",
        words: "dcmdeid +pi +k KEY - -",
        start: Start::ExplicitLittle,
        input: b"\x10\0 \0SQ\0\0\xff\xff\xff\xff\xfe\xff\0\xe0\xff\xff\xff\xff\xfe\xff\x0d\xe0\0\0\0\0\xfe\xff\xdd\xe0\0\0\0\0",
        header: Start::ExplicitLittle,
        lines: b"\x10\0 \0SQ\0\0\xff\xff\xff\xff\xfe\xff\xdd\xe0\0\0\0\0\x12\0b\0CS\x04\0YES \x12\0c\0LO\x1e\0dcmtools dcmdeid, PS3.15 2021b\x12\0d\0SQ\0\0\xff\xff\xff\xff\xfe\xff\0\xe0\xff\xff\xff\xff\x08\0\0\x01SH\x06\0113100\x08\0\x02\x01SH\x04\0DCM \x08\0\x04\x01LO*\0Basic Application Confidentiality Profile \xfe\xff\x0d\xe0\0\0\0\0\xfe\xff\xdd\xe0\0\0\0\0(\0\x03\x03CS\x08\0REMOVED ",
        told: b"dcmtools: no pseudonym: PatientID names nobody\n",
        ..EMPTY
    },
    Row {
        name: "PatientID names nobody: fragments",
        words: "dcmdeid +pi +k KEY - -",
        start: Start::Jpeg,
        input: b"\x10\0 \0OB\0\0\xff\xff\xff\xff\xfe\xff\0\xe0\x02\0\0\0\xff\xd8\xfe\xff\xdd\xe0\0\0\0\0",
        header: Start::Jpeg,
        lines: b"\x12\0b\0CS\x04\0YES \x12\0c\0LO\x1e\0dcmtools dcmdeid, PS3.15 2021b\x12\0d\0SQ\0\0\xff\xff\xff\xff\xfe\xff\0\xe0\xff\xff\xff\xff\x08\0\0\x01SH\x06\0113100\x08\0\x02\x01SH\x04\0DCM \x08\0\x04\x01LO*\0Basic Application Confidentiality Profile \xfe\xff\x0d\xe0\0\0\0\0\xfe\xff\xdd\xe0\0\0\0\0(\0\x03\x03CS\x08\0REMOVED ",
        told: b"dcmtools: no pseudonym: PatientID names nobody\n",
        ..EMPTY
    },
    Row {
        name: "PatientID names nobody: inside alone",
        words: "dcmdeid +pi +k KEY - -",
        start: Start::ExplicitLittle,
        input: b"\x08\0@\x11SQ\0\0\xff\xff\xff\xff\xfe\xff\0\xe0\xff\xff\xff\xff\x10\0 \0LO\x04\01234\xfe\xff\x0d\xe0\0\0\0\0\xfe\xff\xdd\xe0\0\0\0\0",
        header: Start::ExplicitLittle,
        lines: b"\x08\0@\x11SQ\0\0\xff\xff\xff\xff\xfe\xff\0\xe0\xff\xff\xff\xff\x10\0 \0LO\x16\0P72efef0a0cecf3a48f95 \xfe\xff\x0d\xe0\0\0\0\0\xfe\xff\xdd\xe0\0\0\0\0\x12\0b\0CS\x04\0YES \x12\0c\0LO\x1e\0dcmtools dcmdeid, PS3.15 2021b\x12\0d\0SQ\0\0\xff\xff\xff\xff\xfe\xff\0\xe0\xff\xff\xff\xff\x08\0\0\x01SH\x06\0113100\x08\0\x02\x01SH\x04\0DCM \x08\0\x04\x01LO*\0Basic Application Confidentiality Profile \xfe\xff\x0d\xe0\0\0\0\0\xfe\xff\xdd\xe0\0\0\0\0(\0\x03\x03CS\x08\0REMOVED ",
        told: b"dcmtools: no pseudonym: PatientID names nobody\n",
        ..EMPTY
    },
    Row {
        name: "PatientID names nobody: others inside do not count",
        words: "dcmdeid +pi +k KEY - -",
        start: Start::ExplicitLittle,
        input: b"\x08\0@\x11SQ\0\0\xff\xff\xff\xff\xfe\xff\0\xe0\xff\xff\xff\xff\x10\0 \0LO\0\0\xfe\xff\x0d\xe0\0\0\0\0\xfe\xff\xdd\xe0\0\0\0\0\x10\0 \0LO\x04\01234",
        header: Start::ExplicitLittle,
        lines: b"\x08\0@\x11SQ\0\0\xff\xff\xff\xff\xfe\xff\0\xe0\xff\xff\xff\xff\x10\0 \0LO\0\0\xfe\xff\x0d\xe0\0\0\0\0\xfe\xff\xdd\xe0\0\0\0\0\x10\0 \0LO\x16\0P72efef0a0cecf3a48f95 \x12\0b\0CS\x04\0YES \x12\0c\0LO\x1e\0dcmtools dcmdeid, PS3.15 2021b\x12\0d\0SQ\0\0\xff\xff\xff\xff\xfe\xff\0\xe0\xff\xff\xff\xff\x08\0\0\x01SH\x06\0113100\x08\0\x02\x01SH\x04\0DCM \x08\0\x04\x01LO*\0Basic Application Confidentiality Profile \xfe\xff\x0d\xe0\0\0\0\0\xfe\xff\xdd\xe0\0\0\0\0(\0\x03\x03CS\x08\0REMOVED ",
        ..EMPTY
    },
];

/// Where a fault ends it, with other lines, and without pseudonyms.
static CUT: [Row; 9] = [
    Row {
        name: "PatientID names nobody: not known yet",
        words: "dcmdeid +pi +k KEY - -",
        input: b"\0\0\0\0\0\0\0\0\0\0\0\0\0\0\0\0\0\0\0\0\0\0\0\0\0\0\0\0\0\0\0\0\0\0\0\0\0\0\0\0\0\0\0\0\0\0\0\0\0\0\0\0\0\0\0\0\0\0\0\0\0\0\0\0\0\0\0\0\0\0\0\0\0\0\0\0\0\0\0\0\0\0\0\0\0\0\0\0\0\0\0\0\0\0\0\0\0\0\0\0",
        lines: b"",
        status: 2,
        told: b"dcmtools: R1 at byte 100: input ends too early\n",
        ..EMPTY
    },
    Row {
        name: "PatientID names nobody: not known yet, in front",
        words: "dcmdeid +pi +k KEY - -",
        start: Start::ExplicitLittle,
        input: b"\x08\0 \0DA\x08\02023123",
        header: Start::ExplicitLittle,
        lines: b"\x08\0 \0DA\0\0",
        status: 2,
        told: b"dcmtools: R1 at byte 187: input ends too early\n",
        ..EMPTY
    },
    Row {
        name: "PatientID names nobody: not known yet, cut",
        words: "dcmdeid +pi +k KEY - -",
        start: Start::ExplicitLittle,
        input: b"\x10\0 \0LO\x02\0 ",
        header: Start::ExplicitLittle,
        lines: b"",
        status: 2,
        told: b"dcmtools: R1 at byte 181: input ends too early\n",
        ..EMPTY
    },
    Row {
        name: "PatientID names nobody: not known yet, a bad head",
        words: "dcmdeid +pi +k KEY - -",
        start: Start::ExplicitLittle,
        input: b"\x10\00\0zz\0\0",
        header: Start::ExplicitLittle,
        lines: b"",
        status: 2,
        told: b"dcmtools: R7 at byte 172: unknown value representation\n",
        ..EMPTY
    },
    Row {
        name: "PatientID names nobody: known by a greater head",
        words: "dcmdeid +pi +k KEY - -",
        start: Start::ExplicitLittle,
        input: b"\x10\0@\0CS\x02\0F",
        header: Start::ExplicitLittle,
        lines: b"\x10\0@\0CS\0\0",
        status: 2,
        told: b"dcmtools: no pseudonym: PatientID names nobody\ndcmtools: R1 at byte 181: input ends too early\n",
        ..EMPTY
    },
    Row {
        name: "PatientID names nobody: known, and then a fault",
        words: "dcmdeid +pi +k KEY - -",
        start: Start::ExplicitLittle,
        input: b"\x10\0 \0LO\x02\0  \x10\0 \0LO\x04\01234",
        header: Start::ExplicitLittle,
        lines: b"\x10\0 \0LO\0\0",
        status: 2,
        told: b"dcmtools: no pseudonym: PatientID names nobody\ndcmtools: R12 at byte 182: tags not ascending\n",
        ..EMPTY
    },
    Row {
        name: "PatientID names nobody: both lines, and pixels",
        words: "dcmdeid +rm 1 +pi +k KEY - -",
        start: Start::ExplicitLittle,
        input: b"\x08\0 \0DA\x08\02024.01.(\0\x01\x03CS\x04\0YES ",
        header: Start::ExplicitLittle,
        lines: b"\x08\0 \0DA\0\0\x12\0b\0CS\x04\0YES \x12\0c\0LO\x1e\0dcmtools dcmdeid, PS3.15 2021b\x12\0d\0SQ\0\0\xff\xff\xff\xff\xfe\xff\0\xe0\xff\xff\xff\xff\x08\0\0\x01SH\x06\0113100\x08\0\x02\x01SH\x04\0DCM \x08\0\x04\x01LO*\0Basic Application Confidentiality Profile \xfe\xff\x0d\xe0\0\0\0\0\xfe\xff\0\xe0\xff\xff\xff\xff\x08\0\0\x01SH\x06\0113107\x08\0\x02\x01SH\x04\0DCM \x08\0\x04\x01LO>\0Retain Longitudinal Temporal Information Modified Dates Option\xfe\xff\x0d\xe0\0\0\0\0\xfe\xff\xdd\xe0\0\0\0\0(\0\x01\x03CS\x04\0YES (\0\x03\x03CS\x08\0MODIFIED",
        status: 3,
        told: b"dcmtools: no pseudonym: PatientID names nobody\ndcmtools: 1 dates are emptied\ndcmtools: pixels may show identity\n",
        ..EMPTY
    },
    Row {
        name: "PatientID names nobody: both lines, and a fault",
        words: "dcmdeid +pi +rm 1 +k KEY - -",
        start: Start::ExplicitLittle,
        input: b"\x08\0 \0DA\x08\02024.01.\x10\0 \0LO\0\0\0",
        header: Start::ExplicitLittle,
        lines: b"\x08\0 \0DA\0\0\x10\0 \0LO\0\0",
        status: 2,
        told: b"dcmtools: no pseudonym: PatientID names nobody\ndcmtools: 1 dates are emptied\ndcmtools: R1 at byte 197: input ends too early\n",
        ..EMPTY
    },
    Row {
        name: "PatientID names nobody: without +pi",
        words: "dcmdeid +rm 1 - -",
        start: Start::ExplicitLittle,
        input: b"",
        header: Start::ExplicitLittle,
        lines: b"\x12\0b\0CS\x04\0YES \x12\0c\0LO\x1e\0dcmtools dcmdeid, PS3.15 2021b\x12\0d\0SQ\0\0\xff\xff\xff\xff\xfe\xff\0\xe0\xff\xff\xff\xff\x08\0\0\x01SH\x06\0113100\x08\0\x02\x01SH\x04\0DCM \x08\0\x04\x01LO*\0Basic Application Confidentiality Profile \xfe\xff\x0d\xe0\0\0\0\0\xfe\xff\0\xe0\xff\xff\xff\xff\x08\0\0\x01SH\x06\0113107\x08\0\x02\x01SH\x04\0DCM \x08\0\x04\x01LO>\0Retain Longitudinal Temporal Information Modified Dates Option\xfe\xff\x0d\xe0\0\0\0\0\xfe\xff\xdd\xe0\0\0\0\0(\0\x03\x03CS\x08\0MODIFIED",
        ..EMPTY
    },
];

/// Files whose PatientID names nobody, or may still do so.
pub fn identity_unnamed() -> [&'static [Row]; 2] {
    [&WHOLE, &CUT]
}
