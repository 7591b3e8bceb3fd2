// Identity taken out of files: dates that are moved and have nothing left.
use crate::runs::rows::{EMPTY, Row};
use dcm_test_devices::Start;

/// How many are told, before what ends a file.
static EMPTIED: [Row; 11] = [
    Row {
        name: "dates emptied: one",
        words: "dcmdeid +rm 1 - -",
        start: Start::ExplicitLittle,
        input: b"\x08\0 \0DA\x08\02024.01.",
        header: Start::ExplicitLittle,
        lines: b"\x08\0 \0DA\0\0\x12\0b\0CS\x04\0YES \x12\0c\0LO\x1e\0dcmtools dcmdeid, PS3.15 2021b\x12\0d\0SQ\0\0\xff\xff\xff\xff\xfe\xff\0\xe0\xff\xff\xff\xff\x08\0\0\x01SH\x06\0113100\x08\0\x02\x01SH\x04\0DCM \x08\0\x04\x01LO*\0Basic Application Confidentiality Profile \xfe\xff\x0d\xe0\0\0\0\0\xfe\xff\0\xe0\xff\xff\xff\xff\x08\0\0\x01SH\x06\0113107\x08\0\x02\x01SH\x04\0DCM \x08\0\x04\x01LO>\0Retain Longitudinal Temporal Information Modified Dates Option\xfe\xff\x0d\xe0\0\0\0\0\xfe\xff\xdd\xe0\0\0\0\0(\0\x03\x03CS\x08\0MODIFIED",
        told: b"dcmtools: 1 dates are emptied\n",
        ..EMPTY
    },
    Row {
        name: "dates emptied: three, by their VR of the dictionary, empty ones aside",
        words: "dcmdeid +rm 1 - -",
        start: Start::ExplicitLittle,
        input: b"\x08\0\x12\0DA\x06\0202401\x08\0\x13\0TM\x04\0noon\x08\0 \0DA\x02\0 \0\x08\0!\0LO\x06\0TODAY \x08\0\"\0DA\0\0\x08\0#\0DA\x08\020231231\x08\0*\0DT\n\020231231+1",
        header: Start::ExplicitLittle,
        lines: b"\x08\0\x12\0DA\0\0\x08\0\x13\0TM\x04\0noon\x08\0 \0DA\0\0\x08\0!\0LO\0\0\x08\0\"\0DA\0\0\x08\0#\0DA\x08\020240101\x08\0*\0DT\0\0\x12\0b\0CS\x04\0YES \x12\0c\0LO\x1e\0dcmtools dcmdeid, PS3.15 2021b\x12\0d\0SQ\0\0\xff\xff\xff\xff\xfe\xff\0\xe0\xff\xff\xff\xff\x08\0\0\x01SH\x06\0113100\x08\0\x02\x01SH\x04\0DCM \x08\0\x04\x01LO*\0Basic Application Confidentiality Profile \xfe\xff\x0d\xe0\0\0\0\0\xfe\xff\0\xe0\xff\xff\xff\xff\x08\0\0\x01SH\x06\0113107\x08\0\x02\x01SH\x04\0DCM \x08\0\x04\x01LO>\0Retain Longitudinal Temporal Information Modified Dates Option\xfe\xff\x0d\xe0\0\0\0\0\xfe\xff\xdd\xe0\0\0\0\0(\0\x03\x03CS\x08\0MODIFIED",
        told: b"dcmtools: 3 dates are emptied\n",
        ..EMPTY
    },
    Row {
        name: "dates emptied: at each depth",
        words: "dcmdeid +rm 1 - -",
        start: Start::ExplicitLittle,
        input: b"\x08\0@\x11SQ\0\0\xff\xff\xff\xff\xfe\xff\0\xe0\xff\xff\xff\xff\x08\0 \0DA\x08\02024.01.\xfe\xff\x0d\xe0\0\0\0\0\xfe\xff\0\xe0\xff\xff\xff\xff\x08\0@\x11SQ\0\0\xff\xff\xff\xff\xfe\xff\0\xe0\xff\xff\xff\xff\x08\0 \0DA\x08\02024.01.\x08\0!\0DA\x02\00 \xfe\xff\x0d\xe0\0\0\0\0\xfe\xff\xdd\xe0\0\0\0\0\xfe\xff\x0d\xe0\0\0\0\0\xfe\xff\xdd\xe0\0\0\0\0\x18\0\0\x12DA\x02\01 ",
        header: Start::ExplicitLittle,
        lines: b"\x08\0@\x11SQ\0\0\xff\xff\xff\xff\xfe\xff\0\xe0\xff\xff\xff\xff\x08\0 \0DA\0\0\xfe\xff\x0d\xe0\0\0\0\0\xfe\xff\0\xe0\xff\xff\xff\xff\x08\0@\x11SQ\0\0\xff\xff\xff\xff\xfe\xff\0\xe0\xff\xff\xff\xff\x08\0 \0DA\0\0\x08\0!\0DA\0\0\xfe\xff\x0d\xe0\0\0\0\0\xfe\xff\xdd\xe0\0\0\0\0\xfe\xff\x0d\xe0\0\0\0\0\xfe\xff\xdd\xe0\0\0\0\0\x12\0b\0CS\x04\0YES \x12\0c\0LO\x1e\0dcmtools dcmdeid, PS3.15 2021b\x12\0d\0SQ\0\0\xff\xff\xff\xff\xfe\xff\0\xe0\xff\xff\xff\xff\x08\0\0\x01SH\x06\0113100\x08\0\x02\x01SH\x04\0DCM \x08\0\x04\x01LO*\0Basic Application Confidentiality Profile \xfe\xff\x0d\xe0\0\0\0\0\xfe\xff\0\xe0\xff\xff\xff\xff\x08\0\0\x01SH\x06\0113107\x08\0\x02\x01SH\x04\0DCM \x08\0\x04\x01LO>\0Retain Longitudinal Temporal Information Modified Dates Option\xfe\xff\x0d\xe0\0\0\0\0\xfe\xff\xdd\xe0\0\0\0\0\x18\0\0\x12DA\0\0(\0\x03\x03CS\x08\0MODIFIED",
        told: b"dcmtools: 4 dates are emptied\n",
        ..EMPTY
    },
    Row {
        name: "dates emptied: not in what is not written, nor of a birth",
        words: "dcmdeid +rm 1 - -",
        start: Start::ExplicitLittle,
        input: b"\x08\0\x10\x11SQ\0\0\xff\xff\xff\xff\xfe\xff\0\xe0\xff\xff\xff\xff\x08\0 \0DA\x08\02024.01.\xfe\xff\x0d\xe0\0\0\0\0\xfe\xff\xdd\xe0\0\0\0\0\x08\0 \x11SQ\0\0\xff\xff\xff\xff\xfe\xff\0\xe0\xff\xff\xff\xff\x08\0 \0DA\x08\02024.01.\xfe\xff\x0d\xe0\0\0\0\0\xfe\xff\xdd\xe0\0\0\0\0\x10\00\0DA\x06\0TODAY ",
        header: Start::ExplicitLittle,
        lines: b"\x08\0\x10\x11SQ\0\0\xff\xff\xff\xff\xfe\xff\xdd\xe0\0\0\0\0\x10\00\0DA\0\0\x12\0b\0CS\x04\0YES \x12\0c\0LO\x1e\0dcmtools dcmdeid, PS3.15 2021b\x12\0d\0SQ\0\0\xff\xff\xff\xff\xfe\xff\0\xe0\xff\xff\xff\xff\x08\0\0\x01SH\x06\0113100\x08\0\x02\x01SH\x04\0DCM \x08\0\x04\x01LO*\0Basic Application Confidentiality Profile \xfe\xff\x0d\xe0\0\0\0\0\xfe\xff\0\xe0\xff\xff\xff\xff\x08\0\0\x01SH\x06\0113107\x08\0\x02\x01SH\x04\0DCM \x08\0\x04\x01LO>\0Retain Longitudinal Temporal Information Modified Dates Option\xfe\xff\x0d\xe0\0\0\0\0\xfe\xff\xdd\xe0\0\0\0\0(\0\x03\x03CS\x08\0MODIFIED",
        ..EMPTY
    },
    Row {
        name: "dates emptied: lists, once a value",
        words: "dcmdeid +rm 1 - -",
        start: Start::ExplicitLittle,
        input: b"\x08\0@\x11SQ\0\0\xff\xff\xff\xff\xfe\xff\0\xe0\xff\xff\xff\xff\x08\0 \0DA\x12\02024\\2025\\20231231\xfe\xff\x0d\xe0\0\0\0\0\xfe\xff\0\xe0\xff\xff\xff\xff\x08\0 \0DA\x02\0\\ \xfe\xff\x0d\xe0\0\0\0\0\xfe\xff\0\xe0\xff\xff\xff\xff\x08\0 \0DA\n\020231231\\ \xfe\xff\x0d\xe0\0\0\0\0\xfe\xff\0\xe0\xff\xff\xff\xff\x08\0 \0DA\x02\0x\\\xfe\xff\x0d\xe0\0\0\0\0\xfe\xff\xdd\xe0\0\0\0\0",
        header: Start::ExplicitLittle,
        lines: b"\x08\0@\x11SQ\0\0\xff\xff\xff\xff\xfe\xff\0\xe0\xff\xff\xff\xff\x08\0 \0DA\0\0\xfe\xff\x0d\xe0\0\0\0\0\xfe\xff\0\xe0\xff\xff\xff\xff\x08\0 \0DA\x02\0\\ \xfe\xff\x0d\xe0\0\0\0\0\xfe\xff\0\xe0\xff\xff\xff\xff\x08\0 \0DA\n\020240101\\ \xfe\xff\x0d\xe0\0\0\0\0\xfe\xff\0\xe0\xff\xff\xff\xff\x08\0 \0DA\0\0\xfe\xff\x0d\xe0\0\0\0\0\xfe\xff\xdd\xe0\0\0\0\0\x12\0b\0CS\x04\0YES \x12\0c\0LO\x1e\0dcmtools dcmdeid, PS3.15 2021b\x12\0d\0SQ\0\0\xff\xff\xff\xff\xfe\xff\0\xe0\xff\xff\xff\xff\x08\0\0\x01SH\x06\0113100\x08\0\x02\x01SH\x04\0DCM \x08\0\x04\x01LO*\0Basic Application Confidentiality Profile \xfe\xff\x0d\xe0\0\0\0\0\xfe\xff\0\xe0\xff\xff\xff\xff\x08\0\0\x01SH\x06\0113107\x08\0\x02\x01SH\x04\0DCM \x08\0\x04\x01LO>\0Retain Longitudinal Temporal Information Modified Dates Option\xfe\xff\x0d\xe0\0\0\0\0\xfe\xff\xdd\xe0\0\0\0\0(\0\x03\x03CS\x08\0MODIFIED",
        told: b"dcmtools: 2 dates are emptied\n",
        ..EMPTY
    },
    Row {
        name: "dates emptied: before a fault",
        words: "dcmdeid +rm 1 - -",
        start: Start::ExplicitLittle,
        input: b"\x08\0 \0DA\x08\02024.01.\x08\00\0TM\x06\01200",
        header: Start::ExplicitLittle,
        lines: b"\x08\0 \0DA\0\0\x08\00\0TM\x06\01200",
        status: 2,
        told: b"dcmtools: 1 dates are emptied\ndcmtools: R1 at byte 200: input ends too early\n",
        ..EMPTY
    },
    Row {
        name: "dates emptied: before R12",
        words: "dcmdeid +rm 1 - -",
        start: Start::ExplicitLittle,
        input: b"\x08\0 \0DA\x08\02024.01.\x08\0 \0DA\x08\02024.01.",
        header: Start::ExplicitLittle,
        lines: b"\x08\0 \0DA\0\0",
        status: 2,
        told: b"dcmtools: 1 dates are emptied\ndcmtools: R12 at byte 188: tags not ascending\n",
        ..EMPTY
    },
    Row {
        name: "dates emptied: one that is cut does not count",
        words: "dcmdeid +rm 1 - -",
        start: Start::ExplicitLittle,
        input: b"\x08\0 \0DA\x08\02024.01",
        header: Start::ExplicitLittle,
        lines: b"",
        status: 2,
        told: b"dcmtools: R1 at byte 187: input ends too early\n",
        ..EMPTY
    },
    Row {
        name: "dates emptied: in an open sequence",
        words: "dcmdeid +rm 1 - -",
        start: Start::ExplicitLittle,
        input: b"\x08\0@\x11SQ\0\0\xff\xff\xff\xff\xfe\xff\0\xe0\xff\xff\xff\xff\x08\0 \0DA\x08\02024.01.\xfe\xff\x0d\xe0\0\0\0\0\xfe\xff\0\xe0\xff\xff\xff\xff\x08\0 \0DA\x08\02024.01",
        header: Start::ExplicitLittle,
        lines: b"\x08\0@\x11SQ\0\0\xff\xff\xff\xff\xfe\xff\0\xe0\xff\xff\xff\xff\x08\0 \0DA\0\0\xfe\xff\x0d\xe0\0\0\0\0\xfe\xff\0\xe0\xff\xff\xff\xff",
        status: 2,
        told: b"dcmtools: 1 dates are emptied\ndcmtools: R1 at byte 239: input ends too early\n",
        ..EMPTY
    },
    Row {
        name: "dates emptied: before what pixels show",
        words: "dcmdeid +rm 1 - -",
        start: Start::ExplicitLittle,
        input: b"\x08\0 \0DA\x08\02024.01.(\0\x01\x03CS\x04\0YES ",
        header: Start::ExplicitLittle,
        lines: b"\x08\0 \0DA\0\0\x12\0b\0CS\x04\0YES \x12\0c\0LO\x1e\0dcmtools dcmdeid, PS3.15 2021b\x12\0d\0SQ\0\0\xff\xff\xff\xff\xfe\xff\0\xe0\xff\xff\xff\xff\x08\0\0\x01SH\x06\0113100\x08\0\x02\x01SH\x04\0DCM \x08\0\x04\x01LO*\0Basic Application Confidentiality Profile \xfe\xff\x0d\xe0\0\0\0\0\xfe\xff\0\xe0\xff\xff\xff\xff\x08\0\0\x01SH\x06\0113107\x08\0\x02\x01SH\x04\0DCM \x08\0\x04\x01LO>\0Retain Longitudinal Temporal Information Modified Dates Option\xfe\xff\x0d\xe0\0\0\0\0\xfe\xff\xdd\xe0\0\0\0\0(\0\x01\x03CS\x04\0YES (\0\x03\x03CS\x08\0MODIFIED",
        status: 3,
        told: b"dcmtools: 1 dates are emptied\ndcmtools: pixels may show identity\n",
        ..EMPTY
    },
    Row {
        name: "dates emptied: emptied without +rm",
        words: "dcmdeid - -",
        start: Start::ExplicitLittle,
        input: b"\x08\0 \0DA\x08\02024.01.",
        header: Start::ExplicitLittle,
        lines: b"\x08\0 \0DA\0\0\x12\0b\0CS\x04\0YES \x12\0c\0LO\x1e\0dcmtools dcmdeid, PS3.15 2021b\x12\0d\0SQ\0\0\xff\xff\xff\xff\xfe\xff\0\xe0\xff\xff\xff\xff\x08\0\0\x01SH\x06\0113100\x08\0\x02\x01SH\x04\0DCM \x08\0\x04\x01LO*\0Basic Application Confidentiality Profile \xfe\xff\x0d\xe0\0\0\0\0\xfe\xff\xdd\xe0\0\0\0\0(\0\x03\x03CS\x08\0REMOVED ",
        ..EMPTY
    },
];

/// Dates that have nothing left.
pub fn identity_emptied() -> [&'static [Row]; 1] {
    [&EMPTIED]
}
