// Identity taken out of files: dates that are moved by days which a key makes of the patient (PS3.15 E.3.6).
use crate::runs::rows::{EMPTY, Row};
use dcm_test_devices::Start;

/// A file FILE, read with a key of 16 bytes, and what is written to standard output.
static DAYS: [Row; 14] = [
    Row {
        name: "+rm key: moved, PatientID emptied",
        words: "dcmdeid +rm key +k KEY FILE -",
        start: Start::ExplicitLittle,
        input: b"\x08\0 \0DA\x08\020231231\x10\0 \0LO\x04\01234",
        header: Start::ExplicitLittle,
        lines: b"\x08\0 \0DA\x08\020181129\x10\0 \0LO\0\0\x12\0b\0CS\x04\0YES \x12\0c\0LO\x1e\0dcmtools dcmdeid, PS3.15 2021b\x12\0d\0SQ\0\0\xff\xff\xff\xff\xfe\xff\0\xe0\xff\xff\xff\xff\x08\0\0\x01SH\x06\0113100\x08\0\x02\x01SH\x04\0DCM \x08\0\x04\x01LO*\0Basic Application Confidentiality Profile \xfe\xff\x0d\xe0\0\0\0\0\xfe\xff\0\xe0\xff\xff\xff\xff\x08\0\0\x01SH\x06\0113107\x08\0\x02\x01SH\x04\0DCM \x08\0\x04\x01LO>\0Retain Longitudinal Temporal Information Modified Dates Option\xfe\xff\x0d\xe0\0\0\0\0\xfe\xff\xdd\xe0\0\0\0\0(\0\x03\x03CS\x08\0MODIFIED",
        ..EMPTY
    },
    Row {
        name: "+rm key: with +pi, padding in front",
        words: "dcmdeid +rm key +k KEY +pi FILE -",
        start: Start::ExplicitLittle,
        input: b"\x08\0 \0DA\x08\020231231\x10\0 \0LO\x06\0 1234 ",
        header: Start::ExplicitLittle,
        lines: b"\x08\0 \0DA\x08\020181129\x10\0 \0LO\x16\0P72efef0a0cecf3a48f95 \x12\0b\0CS\x04\0YES \x12\0c\0LO\x1e\0dcmtools dcmdeid, PS3.15 2021b\x12\0d\0SQ\0\0\xff\xff\xff\xff\xfe\xff\0\xe0\xff\xff\xff\xff\x08\0\0\x01SH\x06\0113100\x08\0\x02\x01SH\x04\0DCM \x08\0\x04\x01LO*\0Basic Application Confidentiality Profile \xfe\xff\x0d\xe0\0\0\0\0\xfe\xff\0\xe0\xff\xff\xff\xff\x08\0\0\x01SH\x06\0113107\x08\0\x02\x01SH\x04\0DCM \x08\0\x04\x01LO>\0Retain Longitudinal Temporal Information Modified Dates Option\xfe\xff\x0d\xe0\0\0\0\0\xfe\xff\xdd\xe0\0\0\0\0(\0\x03\x03CS\x08\0MODIFIED",
        ..EMPTY
    },
    Row {
        name: "+rm key: the outermost PatientID counts",
        words: "dcmdeid +rm key +k KEY FILE -",
        start: Start::ExplicitLittle,
        input: b"\x08\0 \0DA\x08\020231231\x08\0@\x11SQ\0\0\xff\xff\xff\xff\xfe\xff\0\xe0\xff\xff\xff\xff\x10\0 \0LO\x02\077\xfe\xff\x0d\xe0\0\0\0\0\xfe\xff\xdd\xe0\0\0\0\0\x10\0 \0LO\x04\01234",
        header: Start::ExplicitLittle,
        lines: b"\x08\0 \0DA\x08\020181129\x08\0@\x11SQ\0\0\xff\xff\xff\xff\xfe\xff\0\xe0\xff\xff\xff\xff\x10\0 \0LO\0\0\xfe\xff\x0d\xe0\0\0\0\0\xfe\xff\xdd\xe0\0\0\0\0\x10\0 \0LO\0\0\x12\0b\0CS\x04\0YES \x12\0c\0LO\x1e\0dcmtools dcmdeid, PS3.15 2021b\x12\0d\0SQ\0\0\xff\xff\xff\xff\xfe\xff\0\xe0\xff\xff\xff\xff\x08\0\0\x01SH\x06\0113100\x08\0\x02\x01SH\x04\0DCM \x08\0\x04\x01LO*\0Basic Application Confidentiality Profile \xfe\xff\x0d\xe0\0\0\0\0\xfe\xff\0\xe0\xff\xff\xff\xff\x08\0\0\x01SH\x06\0113107\x08\0\x02\x01SH\x04\0DCM \x08\0\x04\x01LO>\0Retain Longitudinal Temporal Information Modified Dates Option\xfe\xff\x0d\xe0\0\0\0\0\xfe\xff\xdd\xe0\0\0\0\0(\0\x03\x03CS\x08\0MODIFIED",
        ..EMPTY
    },
    Row {
        name: "+rm key: no PatientID, at the input's end",
        words: "dcmdeid +rm key +k KEY FILE -",
        start: Start::ExplicitLittle,
        input: b"\x08\0 \0DA\x08\020231231",
        status: 2,
        told: b"dcmtools: R17 at byte 188: no usable PatientID\n",
        ..EMPTY
    },
    Row {
        name: "+rm key: no PatientID, at the first greater head",
        words: "dcmdeid +rm key +k KEY FILE -",
        start: Start::ExplicitLittle,
        input: b"\x08\0 \0DA\x08\020231231\x10\00\0DA\0\0\x10\0\0\x10LO\x02\01 ",
        status: 2,
        told: b"dcmtools: R17 at byte 188: no usable PatientID\n",
        ..EMPTY
    },
    Row {
        name: "+rm key: PatientID inside alone",
        words: "dcmdeid +rm key +k KEY FILE -",
        start: Start::ExplicitLittle,
        input: b"\x08\0 \0DA\x08\020231231\x08\0@\x11SQ\0\0\xff\xff\xff\xff\xfe\xff\0\xe0\xff\xff\xff\xff\x10\0 \0LO\x04\01234\xfe\xff\x0d\xe0\0\0\0\0\xfe\xff\xdd\xe0\0\0\0\0",
        status: 2,
        told: b"dcmtools: R17 at byte 236: no usable PatientID\n",
        ..EMPTY
    },
    Row {
        name: "+rm key: PatientID is no use: empty",
        words: "dcmdeid +rm key +k KEY FILE -",
        start: Start::ExplicitLittle,
        input: b"\x08\0 \0DA\x08\020231231\x10\0 \0LO\0\0\0",
        status: 2,
        told: b"dcmtools: R17 at byte 188: no usable PatientID\n",
        ..EMPTY
    },
    Row {
        name: "+rm key: PatientID is no use: padding",
        words: "dcmdeid +rm key +k KEY FILE -",
        start: Start::ExplicitLittle,
        input: b"\x08\0 \0DA\x08\020231231\x10\0 \0LO\x02\0 \0\0",
        status: 2,
        told: b"dcmtools: R17 at byte 188: no usable PatientID\n",
        ..EMPTY
    },
    Row {
        name: "+rm key: PatientID is no use: 257 bytes",
        words: "dcmdeid +rm key +k KEY FILE -",
        start: Start::ExplicitLittle,
        input: b"\x08\0 \0DA\x08\020231231\x10\0 \0LO\x02\x01xxxxxxxxxxxxxxxxxxxxxxxxxxxxxxxxxxxxxxxxxxxxxxxxxxxxxxxxxxxxxxxxxxxxxxxxxxxxxxxxxxxxxxxxxxxxxxxxxxxxxxxxxxxxxxxxxxxxxxxxxxxxxxxxxxxxxxxxxxxxxxxxxxxxxxxxxxxxxxxxxxxxxxxxxxxxxxxxxxxxxxxxxxxxxxxxxxxxxxxxxxxxxxxxxxxxxxxxxxxxxxxxxxxxxxxxxxxxxxxxxxxxxxxxxxxxxxxxx \0",
        status: 2,
        told: b"dcmtools: R17 at byte 188: no usable PatientID\n",
        ..EMPTY
    },
    Row {
        name: "+rm key: PatientID is no use: a sequence",
        words: "dcmdeid +rm key +k KEY FILE -",
        start: Start::ExplicitLittle,
        input: b"\x08\0 \0DA\x08\020231231\x10\0 \0SQ\0\0\xff\xff\xff\xff\xfe\xff\0\xe0\xff\xff\xff\xff\xfe\xff\x0d\xe0\0\0\0\0\xfe\xff\xdd\xe0\0\0\0\0\0",
        status: 2,
        told: b"dcmtools: R17 at byte 188: no usable PatientID\n",
        ..EMPTY
    },
    Row {
        name: "+rm key: a fault before PatientID",
        words: "dcmdeid +rm key +k KEY FILE -",
        start: Start::ExplicitLittle,
        input: b"\x08\0 \0DA\x08\020231231\x08\0 \0DA\0\0\x10\0 \0LO\x04\01234",
        status: 2,
        told: b"dcmtools: R12 at byte 188: tags not ascending\n",
        ..EMPTY
    },
    Row {
        name: "+rm key: a fault inside a greater sequence",
        words: "dcmdeid +rm key +k KEY FILE -",
        start: Start::ExplicitLittle,
        input: b"\x08\0 \0DA\x08\020231231\x10\0P\0SQ\0\0\xff\xff\xff\xff\xfe\xff\0\xe0\xff\xff\xff\xff\x08\0 \0DA\x08\020231231\x08\0 \0DA\x08\020231231\xfe\xff\x0d\xe0\0\0\0\0\xfe\xff\xdd\xe0\0\0\0\0",
        status: 2,
        told: b"dcmtools: R17 at byte 188: no usable PatientID\n",
        ..EMPTY
    },
    Row {
        name: "+rm key: PatientID is cut",
        words: "dcmdeid +rm key +k KEY FILE -",
        start: Start::ExplicitLittle,
        input: b"\x08\0 \0DA\x08\020231231\x10\0 \0LO\x04\0123",
        status: 2,
        told: b"dcmtools: R1 at byte 199: input ends too early\n",
        ..EMPTY
    },
    Row {
        name: "+rm key: a fault after PatientID",
        words: "dcmdeid +rm key +k KEY FILE -",
        start: Start::ExplicitLittle,
        input: b"\x08\0 \0DA\x08\020231231\x10\0 \0LO\x04\01234\x18\0P\0DS\x02\01",
        header: Start::ExplicitLittle,
        lines: b"\x08\0 \0DA\x08\020181129\x10\0 \0LO\0\0\x12\0b\0CS\x04\0YES \x12\0c\0LO\x1e\0dcmtools dcmdeid, PS3.15 2021b\x12\0d\0SQ\0\0\xff\xff\xff\xff\xfe\xff\0\xe0\xff\xff\xff\xff\x08\0\0\x01SH\x06\0113100\x08\0\x02\x01SH\x04\0DCM \x08\0\x04\x01LO*\0Basic Application Confidentiality Profile \xfe\xff\x0d\xe0\0\0\0\0\xfe\xff\0\xe0\xff\xff\xff\xff\x08\0\0\x01SH\x06\0113107\x08\0\x02\x01SH\x04\0DCM \x08\0\x04\x01LO>\0Retain Longitudinal Temporal Information Modified Dates Option\xfe\xff\x0d\xe0\0\0\0\0\xfe\xff\xdd\xe0\0\0\0\0\x18\0P\0DS\x02\01",
        status: 2,
        told: b"dcmtools: R1 at byte 209: input ends too early\n",
        ..EMPTY
    },
];

/// With pseudonyms.
static NAMED: [Row; 2] = [
    Row {
        name: "PatientID names nobody: R17 is told alone",
        words: "dcmdeid +pi +rm key +k KEY FILE -",
        start: Start::ExplicitLittle,
        input: b"\x08\0 \0DA\x08\02024.01.",
        lines: b"",
        status: 2,
        told: b"dcmtools: R17 at byte 188: no usable PatientID\n",
        ..EMPTY
    },
    Row {
        name: "PatientID names nobody: by the key",
        words: "dcmdeid +pi +rm key +k KEY FILE -",
        start: Start::ExplicitLittle,
        input: b"\x08\0 \0DA\x08\020231231\x10\0 \0LO\x04\01234",
        header: Start::ExplicitLittle,
        lines: b"\x08\0 \0DA\x08\020181129\x10\0 \0LO\x16\0P72efef0a0cecf3a48f95 \x12\0b\0CS\x04\0YES \x12\0c\0LO\x1e\0dcmtools dcmdeid, PS3.15 2021b\x12\0d\0SQ\0\0\xff\xff\xff\xff\xfe\xff\0\xe0\xff\xff\xff\xff\x08\0\0\x01SH\x06\0113100\x08\0\x02\x01SH\x04\0DCM \x08\0\x04\x01LO*\0Basic Application Confidentiality Profile \xfe\xff\x0d\xe0\0\0\0\0\xfe\xff\0\xe0\xff\xff\xff\xff\x08\0\0\x01SH\x06\0113107\x08\0\x02\x01SH\x04\0DCM \x08\0\x04\x01LO>\0Retain Longitudinal Temporal Information Modified Dates Option\xfe\xff\x0d\xe0\0\0\0\0\xfe\xff\xdd\xe0\0\0\0\0(\0\x03\x03CS\x08\0MODIFIED",
        ..EMPTY
    },
];

/// Dates that are moved by the days of the key.
pub fn identity_days() -> [&'static [Row]; 2] {
    [&DAYS, &NAMED]
}
