// Identity taken out of files: what is put in (PS3.15 E.1).
use crate::runs::rows::{EMPTY, Row};
use dcm_test_devices::Start;

/// What is put in.
static PUT: [Row; 15] = [
    Row {
        name: "put: what is there already goes",
        words: "dcmdeid - -",
        start: Start::ExplicitLittle,
        input: b"\x12\0b\0CS\x02\0NO\x12\0c\0LO\x04\0OLD \x12\0d\0UN\0\0\x14\0\0\0\xfe\xff\0\xe0\x0c\0\0\0\x10\0 \0\x04\0\0\01234\x13\0\x10\0LO\x02\0A (\0\x03\x03CS\x02\0NO(\0P\x10DS\x02\01 ",
        header: Start::ExplicitLittle,
        lines: b"\x12\0b\0CS\x04\0YES \x12\0c\0LO\x1e\0dcmtools dcmdeid, PS3.15 2021b\x12\0d\0SQ\0\0\xff\xff\xff\xff\xfe\xff\0\xe0\xff\xff\xff\xff\x08\0\0\x01SH\x06\0113100\x08\0\x02\x01SH\x04\0DCM \x08\0\x04\x01LO*\0Basic Application Confidentiality Profile \xfe\xff\x0d\xe0\0\0\0\0\xfe\xff\xdd\xe0\0\0\0\0(\0\x03\x03CS\x08\0REMOVED (\0P\x10DS\x02\01 ",
        ..EMPTY
    },
    Row {
        name: "put: a file that ends early",
        words: "dcmdeid - -",
        start: Start::ExplicitLittle,
        input: b"\x08\0`\0CS\x02\0MR",
        header: Start::ExplicitLittle,
        lines: b"\x08\0`\0CS\x02\0MR\x12\0b\0CS\x04\0YES \x12\0c\0LO\x1e\0dcmtools dcmdeid, PS3.15 2021b\x12\0d\0SQ\0\0\xff\xff\xff\xff\xfe\xff\0\xe0\xff\xff\xff\xff\x08\0\0\x01SH\x06\0113100\x08\0\x02\x01SH\x04\0DCM \x08\0\x04\x01LO*\0Basic Application Confidentiality Profile \xfe\xff\x0d\xe0\0\0\0\0\xfe\xff\xdd\xe0\0\0\0\0(\0\x03\x03CS\x08\0REMOVED ",
        ..EMPTY
    },
    Row {
        name: "put: before a removed greater tag",
        words: "dcmdeid - -",
        start: Start::ExplicitLittle,
        input: b"\x11\0\x10\0LO\x02\0AB)\0\x10\0LO\x02\0A",
        header: Start::ExplicitLittle,
        lines: b"\x12\0b\0CS\x04\0YES \x12\0c\0LO\x1e\0dcmtools dcmdeid, PS3.15 2021b\x12\0d\0SQ\0\0\xff\xff\xff\xff\xfe\xff\0\xe0\xff\xff\xff\xff\x08\0\0\x01SH\x06\0113100\x08\0\x02\x01SH\x04\0DCM \x08\0\x04\x01LO*\0Basic Application Confidentiality Profile \xfe\xff\x0d\xe0\0\0\0\0\xfe\xff\xdd\xe0\0\0\0\0(\0\x03\x03CS\x08\0REMOVED ",
        status: 2,
        told: b"dcmtools: R1 at byte 191: input ends too early\n",
        ..EMPTY
    },
    Row {
        name: "put: a greater head alone",
        words: "dcmdeid - -",
        start: Start::ExplicitLittle,
        input: b"\x12\0c\0LO\x04\0OLD )\0\x01\x10OB\0\0\x02\0\0\0A",
        header: Start::ExplicitLittle,
        lines: b"\x12\0b\0CS\x04\0YES \x12\0c\0LO\x1e\0dcmtools dcmdeid, PS3.15 2021b\x12\0d\0SQ\0\0\xff\xff\xff\xff\xfe\xff\0\xe0\xff\xff\xff\xff\x08\0\0\x01SH\x06\0113100\x08\0\x02\x01SH\x04\0DCM \x08\0\x04\x01LO*\0Basic Application Confidentiality Profile \xfe\xff\x0d\xe0\0\0\0\0\xfe\xff\xdd\xe0\0\0\0\0(\0\x03\x03CS\x08\0REMOVED ",
        status: 2,
        told: b"dcmtools: R1 at byte 197: input ends too early\n",
        ..EMPTY
    },
    Row {
        name: "+rl, (0028,0303) is there: a value",
        words: "dcmdeid +rl - -",
        start: Start::ExplicitLittle,
        input: b"(\0\x03\x03CS\x08\0MODIFIED",
        header: Start::ExplicitLittle,
        lines: b"\x12\0b\0CS\x04\0YES \x12\0c\0LO\x1e\0dcmtools dcmdeid, PS3.15 2021b\x12\0d\0SQ\0\0\xff\xff\xff\xff\xfe\xff\0\xe0\xff\xff\xff\xff\x08\0\0\x01SH\x06\0113100\x08\0\x02\x01SH\x04\0DCM \x08\0\x04\x01LO*\0Basic Application Confidentiality Profile \xfe\xff\x0d\xe0\0\0\0\0\xfe\xff\0\xe0\xff\xff\xff\xff\x08\0\0\x01SH\x06\0113106\x08\0\x02\x01SH\x04\0DCM \x08\0\x04\x01LO:\0Retain Longitudinal Temporal Information Full Dates Option\xfe\xff\x0d\xe0\0\0\0\0\xfe\xff\xdd\xe0\0\0\0\0(\0\x03\x03CS\x08\0MODIFIED",
        ..EMPTY
    },
    Row {
        name: "without +rl, (0028,0303) is there: a value",
        words: "dcmdeid - -",
        start: Start::ExplicitLittle,
        input: b"(\0\x03\x03CS\x08\0MODIFIED",
        header: Start::ExplicitLittle,
        lines: b"\x12\0b\0CS\x04\0YES \x12\0c\0LO\x1e\0dcmtools dcmdeid, PS3.15 2021b\x12\0d\0SQ\0\0\xff\xff\xff\xff\xfe\xff\0\xe0\xff\xff\xff\xff\x08\0\0\x01SH\x06\0113100\x08\0\x02\x01SH\x04\0DCM \x08\0\x04\x01LO*\0Basic Application Confidentiality Profile \xfe\xff\x0d\xe0\0\0\0\0\xfe\xff\xdd\xe0\0\0\0\0(\0\x03\x03CS\x08\0REMOVED ",
        ..EMPTY
    },
    Row {
        name: "+rl, (0028,0303) is there: no value",
        words: "dcmdeid +rl - -",
        start: Start::ExplicitLittle,
        input: b"(\0\x03\x03CS\0\0",
        header: Start::ExplicitLittle,
        lines: b"\x12\0b\0CS\x04\0YES \x12\0c\0LO\x1e\0dcmtools dcmdeid, PS3.15 2021b\x12\0d\0SQ\0\0\xff\xff\xff\xff\xfe\xff\0\xe0\xff\xff\xff\xff\x08\0\0\x01SH\x06\0113100\x08\0\x02\x01SH\x04\0DCM \x08\0\x04\x01LO*\0Basic Application Confidentiality Profile \xfe\xff\x0d\xe0\0\0\0\0\xfe\xff\0\xe0\xff\xff\xff\xff\x08\0\0\x01SH\x06\0113106\x08\0\x02\x01SH\x04\0DCM \x08\0\x04\x01LO:\0Retain Longitudinal Temporal Information Full Dates Option\xfe\xff\x0d\xe0\0\0\0\0\xfe\xff\xdd\xe0\0\0\0\0(\0\x03\x03CS\0\0",
        ..EMPTY
    },
    Row {
        name: "without +rl, (0028,0303) is there: no value",
        words: "dcmdeid - -",
        start: Start::ExplicitLittle,
        input: b"(\0\x03\x03CS\0\0",
        header: Start::ExplicitLittle,
        lines: b"\x12\0b\0CS\x04\0YES \x12\0c\0LO\x1e\0dcmtools dcmdeid, PS3.15 2021b\x12\0d\0SQ\0\0\xff\xff\xff\xff\xfe\xff\0\xe0\xff\xff\xff\xff\x08\0\0\x01SH\x06\0113100\x08\0\x02\x01SH\x04\0DCM \x08\0\x04\x01LO*\0Basic Application Confidentiality Profile \xfe\xff\x0d\xe0\0\0\0\0\xfe\xff\xdd\xe0\0\0\0\0(\0\x03\x03CS\x08\0REMOVED ",
        ..EMPTY
    },
    Row {
        name: "+rl, (0028,0303) is there: as it was read",
        words: "dcmdeid +rl - -",
        start: Start::ExplicitLittle,
        input: b"(\0\x03\x03UN\0\0\x02\0\0\0X1",
        header: Start::ExplicitLittle,
        lines: b"\x12\0b\0CS\x04\0YES \x12\0c\0LO\x1e\0dcmtools dcmdeid, PS3.15 2021b\x12\0d\0SQ\0\0\xff\xff\xff\xff\xfe\xff\0\xe0\xff\xff\xff\xff\x08\0\0\x01SH\x06\0113100\x08\0\x02\x01SH\x04\0DCM \x08\0\x04\x01LO*\0Basic Application Confidentiality Profile \xfe\xff\x0d\xe0\0\0\0\0\xfe\xff\0\xe0\xff\xff\xff\xff\x08\0\0\x01SH\x06\0113106\x08\0\x02\x01SH\x04\0DCM \x08\0\x04\x01LO:\0Retain Longitudinal Temporal Information Full Dates Option\xfe\xff\x0d\xe0\0\0\0\0\xfe\xff\xdd\xe0\0\0\0\0(\0\x03\x03UN\0\0\x02\0\0\0X1",
        ..EMPTY
    },
    Row {
        name: "without +rl, (0028,0303) is there: as it was read",
        words: "dcmdeid - -",
        start: Start::ExplicitLittle,
        input: b"(\0\x03\x03UN\0\0\x02\0\0\0X1",
        header: Start::ExplicitLittle,
        lines: b"\x12\0b\0CS\x04\0YES \x12\0c\0LO\x1e\0dcmtools dcmdeid, PS3.15 2021b\x12\0d\0SQ\0\0\xff\xff\xff\xff\xfe\xff\0\xe0\xff\xff\xff\xff\x08\0\0\x01SH\x06\0113100\x08\0\x02\x01SH\x04\0DCM \x08\0\x04\x01LO*\0Basic Application Confidentiality Profile \xfe\xff\x0d\xe0\0\0\0\0\xfe\xff\xdd\xe0\0\0\0\0(\0\x03\x03CS\x08\0REMOVED ",
        ..EMPTY
    },
    Row {
        name: "+rl, (0028,0303) is there: a sequence",
        words: "dcmdeid +rl - -",
        start: Start::ExplicitLittle,
        input: b"(\0\x03\x03SQ\0\0\xff\xff\xff\xff\xfe\xff\0\xe0\xff\xff\xff\xff\x10\0 \0LO\0\0\xfe\xff\x0d\xe0\0\0\0\0\xfe\xff\xdd\xe0\0\0\0\0",
        header: Start::ExplicitLittle,
        lines: b"\x12\0b\0CS\x04\0YES \x12\0c\0LO\x1e\0dcmtools dcmdeid, PS3.15 2021b\x12\0d\0SQ\0\0\xff\xff\xff\xff\xfe\xff\0\xe0\xff\xff\xff\xff\x08\0\0\x01SH\x06\0113100\x08\0\x02\x01SH\x04\0DCM \x08\0\x04\x01LO*\0Basic Application Confidentiality Profile \xfe\xff\x0d\xe0\0\0\0\0\xfe\xff\0\xe0\xff\xff\xff\xff\x08\0\0\x01SH\x06\0113106\x08\0\x02\x01SH\x04\0DCM \x08\0\x04\x01LO:\0Retain Longitudinal Temporal Information Full Dates Option\xfe\xff\x0d\xe0\0\0\0\0\xfe\xff\xdd\xe0\0\0\0\0(\0\x03\x03SQ\0\0\xff\xff\xff\xff\xfe\xff\0\xe0\xff\xff\xff\xff\x10\0 \0LO\0\0\xfe\xff\x0d\xe0\0\0\0\0\xfe\xff\xdd\xe0\0\0\0\0",
        ..EMPTY
    },
    Row {
        name: "without +rl, (0028,0303) is there: a sequence",
        words: "dcmdeid - -",
        start: Start::ExplicitLittle,
        input: b"(\0\x03\x03SQ\0\0\xff\xff\xff\xff\xfe\xff\0\xe0\xff\xff\xff\xff\x10\0 \0LO\0\0\xfe\xff\x0d\xe0\0\0\0\0\xfe\xff\xdd\xe0\0\0\0\0",
        header: Start::ExplicitLittle,
        lines: b"\x12\0b\0CS\x04\0YES \x12\0c\0LO\x1e\0dcmtools dcmdeid, PS3.15 2021b\x12\0d\0SQ\0\0\xff\xff\xff\xff\xfe\xff\0\xe0\xff\xff\xff\xff\x08\0\0\x01SH\x06\0113100\x08\0\x02\x01SH\x04\0DCM \x08\0\x04\x01LO*\0Basic Application Confidentiality Profile \xfe\xff\x0d\xe0\0\0\0\0\xfe\xff\xdd\xe0\0\0\0\0(\0\x03\x03CS\x08\0REMOVED ",
        ..EMPTY
    },
    Row {
        name: "+rl, (0028,0303) is inside alone",
        words: "dcmdeid +rl - -",
        start: Start::ExplicitLittle,
        input: b"\x08\0@\x11SQ\0\0\xff\xff\xff\xff\xfe\xff\0\xe0\xff\xff\xff\xff(\0\x03\x03CS\x08\0MODIFIED\xfe\xff\x0d\xe0\0\0\0\0\xfe\xff\xdd\xe0\0\0\0\0",
        header: Start::ExplicitLittle,
        lines: b"\x08\0@\x11SQ\0\0\xff\xff\xff\xff\xfe\xff\0\xe0\xff\xff\xff\xff(\0\x03\x03CS\x08\0MODIFIED\xfe\xff\x0d\xe0\0\0\0\0\xfe\xff\xdd\xe0\0\0\0\0\x12\0b\0CS\x04\0YES \x12\0c\0LO\x1e\0dcmtools dcmdeid, PS3.15 2021b\x12\0d\0SQ\0\0\xff\xff\xff\xff\xfe\xff\0\xe0\xff\xff\xff\xff\x08\0\0\x01SH\x06\0113100\x08\0\x02\x01SH\x04\0DCM \x08\0\x04\x01LO*\0Basic Application Confidentiality Profile \xfe\xff\x0d\xe0\0\0\0\0\xfe\xff\0\xe0\xff\xff\xff\xff\x08\0\0\x01SH\x06\0113106\x08\0\x02\x01SH\x04\0DCM \x08\0\x04\x01LO:\0Retain Longitudinal Temporal Information Full Dates Option\xfe\xff\x0d\xe0\0\0\0\0\xfe\xff\xdd\xe0\0\0\0\0(\0\x03\x03CS\x0a\0UNMODIFIED",
        ..EMPTY
    },
    Row {
        name: "cut: a removed (0028,0303), whose own is put at a greater head alone",
        words: "dcmdeid - -",
        start: Start::ExplicitLittle,
        input: b"(\0\x03\x03CS\x08\0MODI",
        header: Start::ExplicitLittle,
        lines: b"\x12\0b\0CS\x04\0YES \x12\0c\0LO\x1e\0dcmtools dcmdeid, PS3.15 2021b\x12\0d\0SQ\0\0\xff\xff\xff\xff\xfe\xff\0\xe0\xff\xff\xff\xff\x08\0\0\x01SH\x06\0113100\x08\0\x02\x01SH\x04\0DCM \x08\0\x04\x01LO*\0Basic Application Confidentiality Profile \xfe\xff\x0d\xe0\0\0\0\0\xfe\xff\xdd\xe0\0\0\0\0",
        status: 2,
        told: b"dcmtools: R1 at byte 184: input ends too early\n",
        ..EMPTY
    },
    Row {
        name: "cut: a kept (0028,0303) with +rl",
        words: "dcmdeid +rl - -",
        start: Start::ExplicitLittle,
        input: b"(\0\x03\x03CS\x08\0MODI",
        header: Start::ExplicitLittle,
        lines: b"\x12\0b\0CS\x04\0YES \x12\0c\0LO\x1e\0dcmtools dcmdeid, PS3.15 2021b\x12\0d\0SQ\0\0\xff\xff\xff\xff\xfe\xff\0\xe0\xff\xff\xff\xff\x08\0\0\x01SH\x06\0113100\x08\0\x02\x01SH\x04\0DCM \x08\0\x04\x01LO*\0Basic Application Confidentiality Profile \xfe\xff\x0d\xe0\0\0\0\0\xfe\xff\0\xe0\xff\xff\xff\xff\x08\0\0\x01SH\x06\0113106\x08\0\x02\x01SH\x04\0DCM \x08\0\x04\x01LO:\0Retain Longitudinal Temporal Information Full Dates Option\xfe\xff\x0d\xe0\0\0\0\0\xfe\xff\xdd\xe0\0\0\0\0(\0\x03\x03CS\x08\0MODI",
        status: 2,
        told: b"dcmtools: R1 at byte 184: input ends too early\n",
        ..EMPTY
    },
];

/// What is put in where identity is taken out.
pub fn identity_put() -> [&'static [Row]; 1] {
    [&PUT]
}
