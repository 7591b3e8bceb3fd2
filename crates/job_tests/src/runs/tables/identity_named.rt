// Identity taken out of files: pseudonyms, and words that are refused.
use crate::runs::rows::{EMPTY, Row};
use dcm_test_devices::Start;

/// Pseudonyms.
static PSEUDONYMS: [Row; 9] = [
    Row {
        name: "+pi: at each depth, the name emptied",
        words: "dcmdeid +pi +k KEY - -",
        start: Start::ExplicitLittle,
        input: b"\x08\0@\x11SQ\0\0\xff\xff\xff\xff\xfe\xff\0\xe0\xff\xff\xff\xff\x10\0 \0LO\x04\01234\xfe\xff\x0d\xe0\0\0\0\0\xfe\xff\xdd\xe0\0\0\0\0\x10\0\x10\0PN\x04\0A^B \x10\0 \0LO\x04\01234\x10\0\0\x10LO\x04\01234",
        header: Start::ExplicitLittle,
        lines: b"\x08\0@\x11SQ\0\0\xff\xff\xff\xff\xfe\xff\0\xe0\xff\xff\xff\xff\x10\0 \0LO\x16\0P72efef0a0cecf3a48f95 \xfe\xff\x0d\xe0\0\0\0\0\xfe\xff\xdd\xe0\0\0\0\0\x10\0\x10\0PN\0\0\x10\0 \0LO\x16\0P72efef0a0cecf3a48f95 \x12\0b\0CS\x04\0YES \x12\0c\0LO\x1e\0dcmtools dcmdeid, PS3.15 2021b\x12\0d\0SQ\0\0\xff\xff\xff\xff\xfe\xff\0\xe0\xff\xff\xff\xff\x08\0\0\x01SH\x06\0113100\x08\0\x02\x01SH\x04\0DCM \x08\0\x04\x01LO*\0Basic Application Confidentiality Profile \xfe\xff\x0d\xe0\0\0\0\0\xfe\xff\xdd\xe0\0\0\0\0(\0\x03\x03CS\x08\0REMOVED ",
        ..EMPTY
    },
    Row {
        name: "+pi: padding in front and behind",
        words: "dcmdeid +pi +k KEY - -",
        start: Start::ExplicitLittle,
        input: b"\x08\0@\x11SQ\0\0\xff\xff\xff\xff\xfe\xff\0\xe0\xff\xff\xff\xff\x10\0 \0LO\x04\01234\xfe\xff\x0d\xe0\0\0\0\0\xfe\xff\0\xe0\xff\xff\xff\xff\x10\0 \0LO\x08\0  1234  \xfe\xff\x0d\xe0\0\0\0\0\xfe\xff\0\xe0\xff\xff\xff\xff\x10\0 \0LO\x08\0 1234\0\0 \xfe\xff\x0d\xe0\0\0\0\0\xfe\xff\0\xe0\xff\xff\xff\xff\x10\0 \0LO\x94\x011234 \0 \0 \0 \0 \0 \0 \0 \0 \0 \0 \0 \0 \0 \0 \0 \0 \0 \0 \0 \0 \0 \0 \0 \0 \0 \0 \0 \0 \0 \0 \0 \0 \0 \0 \0 \0 \0 \0 \0 \0 \0 \0 \0 \0 \0 \0 \0 \0 \0 \0 \0 \0 \0 \0 \0 \0 \0 \0 \0 \0 \0 \0 \0 \0 \0 \0 \0 \0 \0 \0 \0 \0 \0 \0 \0 \0 \0 \0 \0 \0 \0 \0 \0 \0 \0 \0 \0 \0 \0 \0 \0 \0 \0 \0 \0 \0 \0 \0 \0 \0 \0 \0 \0 \0 \0 \0 \0 \0 \0 \0 \0 \0 \0 \0 \0 \0 \0 \0 \0 \0 \0 \0 \0 \0 \0 \0 \0 \0 \0 \0 \0 \0 \0 \0 \0 \0 \0 \0 \0 \0 \0 \0 \0 \0 \0 \0 \0 \0 \0 \0 \0 \0 \0 \0 \0 \0 \0 \0 \0 \0 \0 \0 \0 \0 \0 \0 \0 \0 \0 \0 \0 \0 \0 \0 \0 \0 \0 \0 \0 \0 \0 \0 \0 \0 \0 \0 \0 \0 \0 \0 \0 \0 \0 \0 \0 \0 \0 \0 \0 \0\xfe\xff\x0d\xe0\0\0\0\0\xfe\xff\0\xe0\xff\xff\xff\xff\x10\0 \0LO\0\x01                                                                                                                                                                                                                                                            1234\xfe\xff\x0d\xe0\0\0\0\0\xfe\xff\xdd\xe0\0\0\0\0",
        header: Start::ExplicitLittle,
        lines: b"\x08\0@\x11SQ\0\0\xff\xff\xff\xff\xfe\xff\0\xe0\xff\xff\xff\xff\x10\0 \0LO\x16\0P72efef0a0cecf3a48f95 \xfe\xff\x0d\xe0\0\0\0\0\xfe\xff\0\xe0\xff\xff\xff\xff\x10\0 \0LO\x16\0P72efef0a0cecf3a48f95 \xfe\xff\x0d\xe0\0\0\0\0\xfe\xff\0\xe0\xff\xff\xff\xff\x10\0 \0LO\x16\0P72efef0a0cecf3a48f95 \xfe\xff\x0d\xe0\0\0\0\0\xfe\xff\0\xe0\xff\xff\xff\xff\x10\0 \0LO\x16\0P72efef0a0cecf3a48f95 \xfe\xff\x0d\xe0\0\0\0\0\xfe\xff\0\xe0\xff\xff\xff\xff\x10\0 \0LO\x16\0P72efef0a0cecf3a48f95 \xfe\xff\x0d\xe0\0\0\0\0\xfe\xff\xdd\xe0\0\0\0\0\x12\0b\0CS\x04\0YES \x12\0c\0LO\x1e\0dcmtools dcmdeid, PS3.15 2021b\x12\0d\0SQ\0\0\xff\xff\xff\xff\xfe\xff\0\xe0\xff\xff\xff\xff\x08\0\0\x01SH\x06\0113100\x08\0\x02\x01SH\x04\0DCM \x08\0\x04\x01LO*\0Basic Application Confidentiality Profile \xfe\xff\x0d\xe0\0\0\0\0\xfe\xff\xdd\xe0\0\0\0\0(\0\x03\x03CS\x08\0REMOVED ",
        told: b"dcmtools: no pseudonym: PatientID names nobody\n",
        ..EMPTY
    },
    Row {
        name: "+pi: other bytes count",
        words: "dcmdeid +pi +k KEY - -",
        start: Start::ExplicitLittle,
        input: b"\x08\0@\x11SQ\0\0\xff\xff\xff\xff\xfe\xff\0\xe0\xff\xff\xff\xff\x10\0 \0LO\x06\012 34 \xfe\xff\x0d\xe0\0\0\0\0\xfe\xff\0\xe0\xff\xff\xff\xff\x10\0 \0LO\x04\0A\\B \xfe\xff\x0d\xe0\0\0\0\0\xfe\xff\0\xe0\xff\xff\xff\xff\x10\0 \0LO\x06\0M\xfcller\xfe\xff\x0d\xe0\0\0\0\0\xfe\xff\0\xe0\xff\xff\xff\xff\x10\0 \0LO\x08\0M\xc3\xbcller \xfe\xff\x0d\xe0\0\0\0\0\xfe\xff\xdd\xe0\0\0\0\0",
        header: Start::ExplicitLittle,
        lines: b"\x08\0@\x11SQ\0\0\xff\xff\xff\xff\xfe\xff\0\xe0\xff\xff\xff\xff\x10\0 \0LO\x16\0Padfa8c9bef4bcb948090 \xfe\xff\x0d\xe0\0\0\0\0\xfe\xff\0\xe0\xff\xff\xff\xff\x10\0 \0LO\x16\0P9d4d71c47d7ab93337e0 \xfe\xff\x0d\xe0\0\0\0\0\xfe\xff\0\xe0\xff\xff\xff\xff\x10\0 \0LO\x16\0Pa576b50435f854225be8 \xfe\xff\x0d\xe0\0\0\0\0\xfe\xff\0\xe0\xff\xff\xff\xff\x10\0 \0LO\x16\0Pfdb47fff50ee0ebb99bb \xfe\xff\x0d\xe0\0\0\0\0\xfe\xff\xdd\xe0\0\0\0\0\x12\0b\0CS\x04\0YES \x12\0c\0LO\x1e\0dcmtools dcmdeid, PS3.15 2021b\x12\0d\0SQ\0\0\xff\xff\xff\xff\xfe\xff\0\xe0\xff\xff\xff\xff\x08\0\0\x01SH\x06\0113100\x08\0\x02\x01SH\x04\0DCM \x08\0\x04\x01LO*\0Basic Application Confidentiality Profile \xfe\xff\x0d\xe0\0\0\0\0\xfe\xff\xdd\xe0\0\0\0\0(\0\x03\x03CS\x08\0REMOVED ",
        told: b"dcmtools: no pseudonym: PatientID names nobody\n",
        ..EMPTY
    },
    Row {
        name: "+pi: none, padding alone, 256 bytes and 257",
        words: "dcmdeid +pi +k KEY - -",
        start: Start::ExplicitLittle,
        input: b"\x08\0@\x11SQ\0\0\xff\xff\xff\xff\xfe\xff\0\xe0\xff\xff\xff\xff\x10\0 \0LO\0\0\xfe\xff\x0d\xe0\0\0\0\0\xfe\xff\0\xe0\xff\xff\xff\xff\x10\0 \0LO\x04\0 \0  \xfe\xff\x0d\xe0\0\0\0\0\xfe\xff\0\xe0\xff\xff\xff\xff\x10\0 \0LO\0\x01xxxxxxxxxxxxxxxxxxxxxxxxxxxxxxxxxxxxxxxxxxxxxxxxxxxxxxxxxxxxxxxxxxxxxxxxxxxxxxxxxxxxxxxxxxxxxxxxxxxxxxxxxxxxxxxxxxxxxxxxxxxxxxxxxxxxxxxxxxxxxxxxxxxxxxxxxxxxxxxxxxxxxxxxxxxxxxxxxxxxxxxxxxxxxxxxxxxxxxxxxxxxxxxxxxxxxxxxxxxxxxxxxxxxxxxxxxxxxxxxxxxxxxxxxxxxxxxx\xfe\xff\x0d\xe0\0\0\0\0\xfe\xff\0\xe0\xff\xff\xff\xff\x10\0 \0LO\x02\x01xxxxxxxxxxxxxxxxxxxxxxxxxxxxxxxxxxxxxxxxxxxxxxxxxxxxxxxxxxxxxxxxxxxxxxxxxxxxxxxxxxxxxxxxxxxxxxxxxxxxxxxxxxxxxxxxxxxxxxxxxxxxxxxxxxxxxxxxxxxxxxxxxxxxxxxxxxxxxxxxxxxxxxxxxxxxxxxxxxxxxxxxxxxxxxxxxxxxxxxxxxxxxxxxxxxxxxxxxxxxxxxxxxxxxxxxxxxxxxxxxxxxxxxxxxxxxxxxx \xfe\xff\x0d\xe0\0\0\0\0\xfe\xff\0\xe0\xff\xff\xff\xff\x10\0 \0LO\x02\x01                                                                                                                                                                                                                                                             1234 \xfe\xff\x0d\xe0\0\0\0\0\xfe\xff\xdd\xe0\0\0\0\0",
        header: Start::ExplicitLittle,
        lines: b"\x08\0@\x11SQ\0\0\xff\xff\xff\xff\xfe\xff\0\xe0\xff\xff\xff\xff\x10\0 \0LO\0\0\xfe\xff\x0d\xe0\0\0\0\0\xfe\xff\0\xe0\xff\xff\xff\xff\x10\0 \0LO\0\0\xfe\xff\x0d\xe0\0\0\0\0\xfe\xff\0\xe0\xff\xff\xff\xff\x10\0 \0LO\x16\0P092aa8d9446c8ca4ea00 \xfe\xff\x0d\xe0\0\0\0\0\xfe\xff\0\xe0\xff\xff\xff\xff\x10\0 \0LO\0\0\xfe\xff\x0d\xe0\0\0\0\0\xfe\xff\0\xe0\xff\xff\xff\xff\x10\0 \0LO\0\0\xfe\xff\x0d\xe0\0\0\0\0\xfe\xff\xdd\xe0\0\0\0\0\x12\0b\0CS\x04\0YES \x12\0c\0LO\x1e\0dcmtools dcmdeid, PS3.15 2021b\x12\0d\0SQ\0\0\xff\xff\xff\xff\xfe\xff\0\xe0\xff\xff\xff\xff\x08\0\0\x01SH\x06\0113100\x08\0\x02\x01SH\x04\0DCM \x08\0\x04\x01LO*\0Basic Application Confidentiality Profile \xfe\xff\x0d\xe0\0\0\0\0\xfe\xff\xdd\xe0\0\0\0\0(\0\x03\x03CS\x08\0REMOVED ",
        told: b"dcmtools: no pseudonym: PatientID names nobody\n",
        ..EMPTY
    },
    Row {
        name: "+pi: as it was read",
        words: "dcmdeid +pi +k KEY - -",
        start: Start::ExplicitLittle,
        input: b"\x08\0@\x11SQ\0\0\xff\xff\xff\xff\xfe\xff\0\xe0\xff\xff\xff\xff\x10\0 \0UN\0\0\x04\0\0\01234\xfe\xff\x0d\xe0\0\0\0\0\xfe\xff\0\xe0\xff\xff\xff\xff\x10\0 \0SH\x04\01234\xfe\xff\x0d\xe0\0\0\0\0\xfe\xff\0\xe0\xff\xff\xff\xff\x10\0 \0OB\0\0\x04\0\0\01234\xfe\xff\x0d\xe0\0\0\0\0\xfe\xff\0\xe0\xff\xff\xff\xff\x10\0 \0SQ\0\0\xff\xff\xff\xff\xfe\xff\0\xe0\xff\xff\xff\xff\x10\0 \0LO\x04\01234\xfe\xff\x0d\xe0\0\0\0\0\xfe\xff\xdd\xe0\0\0\0\0\xfe\xff\x0d\xe0\0\0\0\0\xfe\xff\xdd\xe0\0\0\0\0",
        header: Start::ExplicitLittle,
        lines: b"\x08\0@\x11SQ\0\0\xff\xff\xff\xff\xfe\xff\0\xe0\xff\xff\xff\xff\x10\0 \0UN\0\0\x16\0\0\0P72efef0a0cecf3a48f95\0\xfe\xff\x0d\xe0\0\0\0\0\xfe\xff\0\xe0\xff\xff\xff\xff\x10\0 \0SH\x16\0P72efef0a0cecf3a48f95 \xfe\xff\x0d\xe0\0\0\0\0\xfe\xff\0\xe0\xff\xff\xff\xff\x10\0 \0OB\0\0\x16\0\0\0P72efef0a0cecf3a48f95\0\xfe\xff\x0d\xe0\0\0\0\0\xfe\xff\0\xe0\xff\xff\xff\xff\x10\0 \0SQ\0\0\xff\xff\xff\xff\xfe\xff\xdd\xe0\0\0\0\0\xfe\xff\x0d\xe0\0\0\0\0\xfe\xff\xdd\xe0\0\0\0\0\x12\0b\0CS\x04\0YES \x12\0c\0LO\x1e\0dcmtools dcmdeid, PS3.15 2021b\x12\0d\0SQ\0\0\xff\xff\xff\xff\xfe\xff\0\xe0\xff\xff\xff\xff\x08\0\0\x01SH\x06\0113100\x08\0\x02\x01SH\x04\0DCM \x08\0\x04\x01LO*\0Basic Application Confidentiality Profile \xfe\xff\x0d\xe0\0\0\0\0\xfe\xff\xdd\xe0\0\0\0\0(\0\x03\x03CS\x08\0REMOVED ",
        told: b"dcmtools: no pseudonym: PatientID names nobody\n",
        ..EMPTY
    },
    Row {
        name: "+pi: with +rp and +ru",
        words: "dcmdeid +pi +k KEY +rp +ru - -",
        start: Start::ExplicitLittle,
        input: b"\x10\0 \0LO\x04\01234\x10\0@\0CS\x02\0F ",
        header: Start::ExplicitLittle,
        lines: b"\x10\0 \0LO\x16\0P72efef0a0cecf3a48f95 \x10\0@\0CS\x02\0F \x12\0b\0CS\x04\0YES \x12\0c\0LO\x1e\0dcmtools dcmdeid, PS3.15 2021b\x12\0d\0SQ\0\0\xff\xff\xff\xff\xfe\xff\0\xe0\xff\xff\xff\xff\x08\0\0\x01SH\x06\0113100\x08\0\x02\x01SH\x04\0DCM \x08\0\x04\x01LO*\0Basic Application Confidentiality Profile \xfe\xff\x0d\xe0\0\0\0\0\xfe\xff\0\xe0\xff\xff\xff\xff\x08\0\0\x01SH\x06\0113108\x08\0\x02\x01SH\x04\0DCM \x08\0\x04\x01LO&\0Retain Patient Characteristics Option \xfe\xff\x0d\xe0\0\0\0\0\xfe\xff\0\xe0\xff\xff\xff\xff\x08\0\0\x01SH\x06\0113110\x08\0\x02\x01SH\x04\0DCM \x08\0\x04\x01LO\x12\0Retain UIDs Option\xfe\xff\x0d\xe0\0\0\0\0\xfe\xff\xdd\xe0\0\0\0\0(\0\x03\x03CS\x08\0REMOVED ",
        ..EMPTY
    },
    Row {
        name: "+pi: fragments",
        words: "dcmdeid +pi +k KEY - -",
        start: Start::Jpeg,
        input: b"\x10\0 \0OB\0\0\xff\xff\xff\xff\xfe\xff\0\xe0\x02\0\0\0\xff\xd8\xfe\xff\xdd\xe0\0\0\0\0",
        header: Start::Jpeg,
        lines: b"\x12\0b\0CS\x04\0YES \x12\0c\0LO\x1e\0dcmtools dcmdeid, PS3.15 2021b\x12\0d\0SQ\0\0\xff\xff\xff\xff\xfe\xff\0\xe0\xff\xff\xff\xff\x08\0\0\x01SH\x06\0113100\x08\0\x02\x01SH\x04\0DCM \x08\0\x04\x01LO*\0Basic Application Confidentiality Profile \xfe\xff\x0d\xe0\0\0\0\0\xfe\xff\xdd\xe0\0\0\0\0(\0\x03\x03CS\x08\0REMOVED ",
        told: b"dcmtools: no pseudonym: PatientID names nobody\n",
        ..EMPTY
    },
    Row {
        name: "+pi: implicit",
        words: "dcmdeid +pi +k KEY - -",
        start: Start::Implicit,
        input: b"\x10\0 \0\x04\0\0\01234",
        header: Start::Implicit,
        lines: b"\x10\0 \0\x16\0\0\0P72efef0a0cecf3a48f95 \x12\0b\0\x04\0\0\0YES \x12\0c\0\x1e\0\0\0dcmtools dcmdeid, PS3.15 2021b\x12\0d\0\xff\xff\xff\xff\xfe\xff\0\xe0\xff\xff\xff\xff\x08\0\0\x01\x06\0\0\0113100\x08\0\x02\x01\x04\0\0\0DCM \x08\0\x04\x01*\0\0\0Basic Application Confidentiality Profile \xfe\xff\x0d\xe0\0\0\0\0\xfe\xff\xdd\xe0\0\0\0\0(\0\x03\x03\x08\0\0\0REMOVED ",
        ..EMPTY
    },
    Row {
        name: "+pi: cut",
        words: "dcmdeid +pi +k KEY - -",
        start: Start::ExplicitLittle,
        input: b"\x10\0 \0LO\x04\0123",
        header: Start::ExplicitLittle,
        status: 2,
        told: b"dcmtools: R1 at byte 183: input ends too early\n",
        ..EMPTY
    },
];

/// Words that are refused.
static WORDS: [Row; 10] = [
    Row {
        name: "words: +rm 0",
        words: "dcmdeid +rm 0 - -",
        start: Start::ExplicitLittle,
        status: 1,
        told: b"dcmtools: V3 at word 2: bad option value\n",
        ..EMPTY
    },
    Row {
        name: "words: +rm -0",
        words: "dcmdeid +rm -0 - -",
        start: Start::ExplicitLittle,
        status: 1,
        told: b"dcmtools: V3 at word 2: bad option value\n",
        ..EMPTY
    },
    Row {
        name: "words: +rm +-5",
        words: "dcmdeid +rm +-5 - -",
        start: Start::ExplicitLittle,
        status: 1,
        told: b"dcmtools: V3 at word 2: bad option value\n",
        ..EMPTY
    },
    Row {
        name: "words: +rm 36525",
        words: "dcmdeid +rm 36525 - -",
        start: Start::ExplicitLittle,
        status: 1,
        told: b"dcmtools: V3 at word 2: bad option value\n",
        ..EMPTY
    },
    Row {
        name: "words: +rm -36525",
        words: "dcmdeid +rm -36525 - -",
        start: Start::ExplicitLittle,
        status: 1,
        told: b"dcmtools: V3 at word 2: bad option value\n",
        ..EMPTY
    },
    Row {
        name: "words: +rm 1.5",
        words: "dcmdeid +rm 1.5 - -",
        start: Start::ExplicitLittle,
        status: 1,
        told: b"dcmtools: V3 at word 2: bad option value\n",
        ..EMPTY
    },
    Row {
        name: "words: +rm KEY",
        words: "dcmdeid +rm KEY - -",
        start: Start::ExplicitLittle,
        status: 1,
        told: b"dcmtools: V3 at word 2: bad option value\n",
        ..EMPTY
    },
    Row {
        name: "words: +rm, nothing after it",
        words: "dcmdeid +rm",
        start: Start::ExplicitLittle,
        status: 1,
        told: b"dcmtools: V3 at word 2: bad option value\n",
        ..EMPTY
    },
    Row {
        name: "words: +pi without +k",
        words: "dcmdeid +pi - -",
        start: Start::ExplicitLittle,
        status: 1,
        told: b"dcmtools: V10: a key is needed\n",
        ..EMPTY
    },
    Row {
        name: "words: V6 and V10",
        words: "dcmdeid +pi a a",
        start: Start::ExplicitLittle,
        status: 1,
        told: b"dcmtools: V6: input and output are the same path\n",
        ..EMPTY
    },
];

/// Of the words for dates the last counts.
static LAST: [Row; 2] = [
    Row {
        name: "the last counts: +rm key +rl",
        words: "dcmdeid +rm key +rl - -",
        start: Start::ExplicitLittle,
        input: b"\x08\0 \0DA\x08\020231231",
        header: Start::ExplicitLittle,
        lines: b"\x08\0 \0DA\x08\020231231\x12\0b\0CS\x04\0YES \x12\0c\0LO\x1e\0dcmtools dcmdeid, PS3.15 2021b\x12\0d\0SQ\0\0\xff\xff\xff\xff\xfe\xff\0\xe0\xff\xff\xff\xff\x08\0\0\x01SH\x06\0113100\x08\0\x02\x01SH\x04\0DCM \x08\0\x04\x01LO*\0Basic Application Confidentiality Profile \xfe\xff\x0d\xe0\0\0\0\0\xfe\xff\0\xe0\xff\xff\xff\xff\x08\0\0\x01SH\x06\0113106\x08\0\x02\x01SH\x04\0DCM \x08\0\x04\x01LO:\0Retain Longitudinal Temporal Information Full Dates Option\xfe\xff\x0d\xe0\0\0\0\0\xfe\xff\xdd\xe0\0\0\0\0(\0\x03\x03CS\n\0UNMODIFIED",
        ..EMPTY
    },
    Row {
        name: "the last counts: +rm key +rm +1",
        words: "dcmdeid +rm key +rm +1 - -",
        start: Start::ExplicitLittle,
        input: b"\x08\0 \0DA\x08\020231231",
        header: Start::ExplicitLittle,
        lines: b"\x08\0 \0DA\x08\020240101\x12\0b\0CS\x04\0YES \x12\0c\0LO\x1e\0dcmtools dcmdeid, PS3.15 2021b\x12\0d\0SQ\0\0\xff\xff\xff\xff\xfe\xff\0\xe0\xff\xff\xff\xff\x08\0\0\x01SH\x06\0113100\x08\0\x02\x01SH\x04\0DCM \x08\0\x04\x01LO*\0Basic Application Confidentiality Profile \xfe\xff\x0d\xe0\0\0\0\0\xfe\xff\0\xe0\xff\xff\xff\xff\x08\0\0\x01SH\x06\0113107\x08\0\x02\x01SH\x04\0DCM \x08\0\x04\x01LO>\0Retain Longitudinal Temporal Information Modified Dates Option\xfe\xff\x0d\xe0\0\0\0\0\xfe\xff\xdd\xe0\0\0\0\0(\0\x03\x03CS\x08\0MODIFIED",
        ..EMPTY
    },
];

/// Pseudonyms, and words that are refused.
pub fn identity_named() -> [&'static [Row]; 3] {
    [&PSEUDONYMS, &WORDS, &LAST]
}
