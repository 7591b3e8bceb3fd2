// Identity taken out of files: what pixels show, faults, and inputs that are cut (PS3.15 E.1).
use crate::runs::rows::{EMPTY, Row};
use dcm_test_devices::Start;

/// What pixels show.
static PIXELS: [Row; 8] = [
    Row {
        name: "burned in",
        words: "dcmdeid - -",
        start: Start::ExplicitLittle,
        input: b"(\0\x01\x03CS\x04\0YES ",
        header: Start::ExplicitLittle,
        lines: b"\x12\0b\0CS\x04\0YES \x12\0c\0LO\x1e\0dcmtools dcmdeid, PS3.15 2021b\x12\0d\0SQ\0\0\xff\xff\xff\xff\xfe\xff\0\xe0\xff\xff\xff\xff\x08\0\0\x01SH\x06\0113100\x08\0\x02\x01SH\x04\0DCM \x08\0\x04\x01LO*\0Basic Application Confidentiality Profile \xfe\xff\x0d\xe0\0\0\0\0\xfe\xff\xdd\xe0\0\0\0\0(\0\x01\x03CS\x04\0YES (\0\x03\x03CS\x08\0REMOVED ",
        status: 3,
        told: b"dcmtools: pixels may show identity\n",
        ..EMPTY
    },
    Row {
        name: "a face that is recognizable",
        words: "dcmdeid - -",
        start: Start::ExplicitLittle,
        input: b"(\0\x02\x03CS\x04\0YES ",
        header: Start::ExplicitLittle,
        lines: b"\x12\0b\0CS\x04\0YES \x12\0c\0LO\x1e\0dcmtools dcmdeid, PS3.15 2021b\x12\0d\0SQ\0\0\xff\xff\xff\xff\xfe\xff\0\xe0\xff\xff\xff\xff\x08\0\0\x01SH\x06\0113100\x08\0\x02\x01SH\x04\0DCM \x08\0\x04\x01LO*\0Basic Application Confidentiality Profile \xfe\xff\x0d\xe0\0\0\0\0\xfe\xff\xdd\xe0\0\0\0\0(\0\x02\x03CS\x04\0YES (\0\x03\x03CS\x08\0REMOVED ",
        status: 3,
        told: b"dcmtools: pixels may show identity\n",
        ..EMPTY
    },
    Row {
        name: "burned in and a face: told once",
        words: "dcmdeid - -",
        start: Start::ExplicitLittle,
        input: b"(\0\x01\x03CS\x04\0YES (\0\x02\x03CS\x04\0YES ",
        header: Start::ExplicitLittle,
        lines: b"\x12\0b\0CS\x04\0YES \x12\0c\0LO\x1e\0dcmtools dcmdeid, PS3.15 2021b\x12\0d\0SQ\0\0\xff\xff\xff\xff\xfe\xff\0\xe0\xff\xff\xff\xff\x08\0\0\x01SH\x06\0113100\x08\0\x02\x01SH\x04\0DCM \x08\0\x04\x01LO*\0Basic Application Confidentiality Profile \xfe\xff\x0d\xe0\0\0\0\0\xfe\xff\xdd\xe0\0\0\0\0(\0\x01\x03CS\x04\0YES (\0\x02\x03CS\x04\0YES (\0\x03\x03CS\x08\0REMOVED ",
        status: 3,
        told: b"dcmtools: pixels may show identity\n",
        ..EMPTY
    },
    Row {
        name: "burned in, +bi",
        words: "dcmdeid +bi - -",
        start: Start::ExplicitLittle,
        input: b"(\0\x01\x03CS\x04\0YES ",
        header: Start::ExplicitLittle,
        lines: b"\x12\0b\0CS\x04\0YES \x12\0c\0LO\x1e\0dcmtools dcmdeid, PS3.15 2021b\x12\0d\0SQ\0\0\xff\xff\xff\xff\xfe\xff\0\xe0\xff\xff\xff\xff\x08\0\0\x01SH\x06\0113100\x08\0\x02\x01SH\x04\0DCM \x08\0\x04\x01LO*\0Basic Application Confidentiality Profile \xfe\xff\x0d\xe0\0\0\0\0\xfe\xff\xdd\xe0\0\0\0\0(\0\x01\x03CS\x04\0YES (\0\x03\x03CS\x08\0REMOVED ",
        ..EMPTY
    },
    Row {
        name: "burned in, NO",
        words: "dcmdeid - -",
        start: Start::ExplicitLittle,
        input: b"(\0\x01\x03CS\x02\0NO",
        header: Start::ExplicitLittle,
        lines: b"\x12\0b\0CS\x04\0YES \x12\0c\0LO\x1e\0dcmtools dcmdeid, PS3.15 2021b\x12\0d\0SQ\0\0\xff\xff\xff\xff\xfe\xff\0\xe0\xff\xff\xff\xff\x08\0\0\x01SH\x06\0113100\x08\0\x02\x01SH\x04\0DCM \x08\0\x04\x01LO*\0Basic Application Confidentiality Profile \xfe\xff\x0d\xe0\0\0\0\0\xfe\xff\xdd\xe0\0\0\0\0(\0\x01\x03CS\x02\0NO(\0\x03\x03CS\x08\0REMOVED ",
        ..EMPTY
    },
    Row {
        name: "burned in, inside twice: told once",
        words: "dcmdeid - -",
        start: Start::ExplicitLittle,
        input: b"\x08\0@\x11SQ\0\0\xff\xff\xff\xff\xfe\xff\0\xe0\xff\xff\xff\xff(\0\x01\x03CS\x04\0YES \xfe\xff\x0d\xe0\0\0\0\0\xfe\xff\0\xe0\xff\xff\xff\xff(\0\x01\x03CS\x04\0YES \xfe\xff\x0d\xe0\0\0\0\0\xfe\xff\xdd\xe0\0\0\0\0",
        header: Start::ExplicitLittle,
        lines: b"\x08\0@\x11SQ\0\0\xff\xff\xff\xff\xfe\xff\0\xe0\xff\xff\xff\xff(\0\x01\x03CS\x04\0YES \xfe\xff\x0d\xe0\0\0\0\0\xfe\xff\0\xe0\xff\xff\xff\xff(\0\x01\x03CS\x04\0YES \xfe\xff\x0d\xe0\0\0\0\0\xfe\xff\xdd\xe0\0\0\0\0\x12\0b\0CS\x04\0YES \x12\0c\0LO\x1e\0dcmtools dcmdeid, PS3.15 2021b\x12\0d\0SQ\0\0\xff\xff\xff\xff\xfe\xff\0\xe0\xff\xff\xff\xff\x08\0\0\x01SH\x06\0113100\x08\0\x02\x01SH\x04\0DCM \x08\0\x04\x01LO*\0Basic Application Confidentiality Profile \xfe\xff\x0d\xe0\0\0\0\0\xfe\xff\xdd\xe0\0\0\0\0(\0\x03\x03CS\x08\0REMOVED ",
        status: 3,
        told: b"dcmtools: pixels may show identity\n",
        ..EMPTY
    },
    Row {
        name: "burned in, inside what is not written",
        words: "dcmdeid - -",
        start: Start::ExplicitLittle,
        input: b"\x88\0\0\x02SQ\0\0\xff\xff\xff\xff\xfe\xff\0\xe0\xff\xff\xff\xff(\0\x01\x03CS\x04\0YES \xfe\xff\x0d\xe0\0\0\0\0\xfe\xff\xdd\xe0\0\0\0\0",
        header: Start::ExplicitLittle,
        lines: b"\x12\0b\0CS\x04\0YES \x12\0c\0LO\x1e\0dcmtools dcmdeid, PS3.15 2021b\x12\0d\0SQ\0\0\xff\xff\xff\xff\xfe\xff\0\xe0\xff\xff\xff\xff\x08\0\0\x01SH\x06\0113100\x08\0\x02\x01SH\x04\0DCM \x08\0\x04\x01LO*\0Basic Application Confidentiality Profile \xfe\xff\x0d\xe0\0\0\0\0\xfe\xff\xdd\xe0\0\0\0\0(\0\x03\x03CS\x08\0REMOVED ",
        ..EMPTY
    },
    Row {
        name: "burned in, a fault comes first",
        words: "dcmdeid - -",
        start: Start::ExplicitLittle,
        input: b"(\0\x01\x03CS\x04\0YES \0",
        header: Start::ExplicitLittle,
        lines: b"\x12\0b\0CS\x04\0YES \x12\0c\0LO\x1e\0dcmtools dcmdeid, PS3.15 2021b\x12\0d\0SQ\0\0\xff\xff\xff\xff\xfe\xff\0\xe0\xff\xff\xff\xff\x08\0\0\x01SH\x06\0113100\x08\0\x02\x01SH\x04\0DCM \x08\0\x04\x01LO*\0Basic Application Confidentiality Profile \xfe\xff\x0d\xe0\0\0\0\0\xfe\xff\xdd\xe0\0\0\0\0(\0\x01\x03CS\x04\0YES ",
        status: 2,
        told: b"dcmtools: R1 at byte 185: input ends too early\n",
        ..EMPTY
    },
];

/// Files that are refused.
static FAULTS: [Row; 6] = [
    Row {
        name: "R16: DICOMDIR",
        words: "dcmdeid - -",
        start: Start::ExplicitLittle,
        input: b"\x04\0\0\x12UL\x04\0\0\0\0\0\x04\0 \x12SQ\0\0\xff\xff\xff\xff\xfe\xff\xdd\xe0\0\0\0\0",
        header: Start::ExplicitLittle,
        lines: b"\x04\0\0\x12UL\x04\0\0\0\0\0",
        status: 2,
        told: b"dcmtools: R16 at byte 184: identity cannot be taken out\n",
        ..EMPTY
    },
    Row {
        name: "R16: a document inside what is not written",
        words: "dcmdeid - -",
        start: Start::ExplicitLittle,
        input: b"\x09\0\x01\x10SQ\0\0\xff\xff\xff\xff\xfe\xff\0\xe0\xff\xff\xff\xffB\0\x11\0OB\0\0\x04\0\0\0%PDF\xfe\xff\x0d\xe0\0\0\0\0\xfe\xff\xdd\xe0\0\0\0\0",
        header: Start::ExplicitLittle,
        status: 2,
        told: b"dcmtools: R16 at byte 192: identity cannot be taken out\n",
        ..EMPTY
    },
    Row {
        name: "R12",
        words: "dcmdeid - -",
        start: Start::ExplicitLittle,
        input: b"\x08\0`\0CS\x02\0MR\x08\0`\0CS\x02\0MR",
        header: Start::ExplicitLittle,
        lines: b"\x08\0`\0CS\x02\0MR",
        status: 2,
        told: b"dcmtools: R12 at byte 182: tags not ascending\n",
        ..EMPTY
    },
    Row {
        name: "R12 inside what is removed",
        words: "dcmdeid - -",
        start: Start::ExplicitLittle,
        input: b"\x09\0\x01\x10SQ\0\0\x1c\0\0\0\xfe\xff\0\xe0\x14\0\0\0\x08\0`\0CS\x02\0MR\x08\0`\0CS\x02\0MR",
        header: Start::ExplicitLittle,
        status: 2,
        told: b"dcmtools: R12 at byte 202: tags not ascending\n",
        ..EMPTY
    },
    Row {
        name: "R12 before R16",
        words: "dcmdeid - -",
        start: Start::ExplicitLittle,
        input: b"B\0\x12\0LO\0\0B\0\x11\0OB\0\0\x04\0\0\0%PDF",
        header: Start::ExplicitLittle,
        lines: b"\x12\0b\0CS\x04\0YES \x12\0c\0LO\x1e\0dcmtools dcmdeid, PS3.15 2021b\x12\0d\0SQ\0\0\xff\xff\xff\xff\xfe\xff\0\xe0\xff\xff\xff\xff\x08\0\0\x01SH\x06\0113100\x08\0\x02\x01SH\x04\0DCM \x08\0\x04\x01LO*\0Basic Application Confidentiality Profile \xfe\xff\x0d\xe0\0\0\0\0\xfe\xff\xdd\xe0\0\0\0\0(\0\x03\x03CS\x08\0REMOVED B\0\x12\0LO\0\0",
        status: 2,
        told: b"dcmtools: R12 at byte 180: tags not ascending\n",
        ..EMPTY
    },
    Row {
        name: "R5: nothing is written",
        words: "dcmdeid - -",
        input: b"\0\0\0\0\0\0\0\0\0\0\0\0\0\0\0\0\0\0\0\0\0\0\0\0\0\0\0\0\0\0\0\0\0\0\0\0\0\0\0\0\0\0\0\0\0\0\0\0\0\0\0\0\0\0\0\0\0\0\0\0\0\0\0\0\0\0\0\0\0\0\0\0\0\0\0\0\0\0\0\0\0\0\0\0\0\0\0\0\0\0\0\0\0\0\0\0\0\0\0\0\0\0\0\0\0\0\0\0\0\0\0\0\0\0\0\0\0\0\0\0\0\0\0\0\0\0\0\0DICM",
        status: 2,
        told: b"dcmtools: R5 at byte 132: no transfer syntax\n",
        ..EMPTY
    },
];

/// Inputs that are cut.
static CUTS: [Row; 12] = [
    Row {
        name: "cut: a kept value",
        words: "dcmdeid - -",
        start: Start::ExplicitLittle,
        input: b"\x08\0`\0CS\x06\0OTH",
        header: Start::ExplicitLittle,
        lines: b"\x08\0`\0CS\x06\0OTH",
        status: 2,
        told: b"dcmtools: R1 at byte 183: input ends too early\n",
        ..EMPTY
    },
    Row {
        name: "cut: a uid is not written",
        words: "dcmdeid - -",
        start: Start::ExplicitLittle,
        input: b"\x08\0\x18\0UI\x06\01.2.",
        header: Start::ExplicitLittle,
        status: 2,
        told: b"dcmtools: R1 at byte 184: input ends too early\n",
        ..EMPTY
    },
    Row {
        name: "cut: an emptied value",
        words: "dcmdeid - -",
        start: Start::ExplicitLittle,
        input: b"\x10\0 \0LO\x04\012",
        header: Start::ExplicitLittle,
        lines: b"\x10\0 \0LO\0\0",
        status: 2,
        told: b"dcmtools: R1 at byte 182: input ends too early\n",
        ..EMPTY
    },
    Row {
        name: "cut: a replaced value",
        words: "dcmdeid - -",
        start: Start::ExplicitLittle,
        input: b"\x08\0\x80\0LO\x04\0",
        header: Start::ExplicitLittle,
        lines: b"\x08\0\x80\0LO\x0a\0ANONYMIZED",
        status: 2,
        told: b"dcmtools: R1 at byte 180: input ends too early\n",
        ..EMPTY
    },
    Row {
        name: "cut: a removed value",
        words: "dcmdeid - -",
        start: Start::ExplicitLittle,
        input: b"\x08\00\x10LO\x04\012",
        header: Start::ExplicitLittle,
        status: 2,
        told: b"dcmtools: R1 at byte 182: input ends too early\n",
        ..EMPTY
    },
    Row {
        name: "cut: an emptied sequence",
        words: "dcmdeid - -",
        start: Start::ExplicitLittle,
        input: b"\x08\0\x10\x11SQ\0\0\xff\xff\xff\xff\xfe\xff\0\xe0\xff\xff\xff\xff\x08\0`\0",
        header: Start::ExplicitLittle,
        lines: b"\x08\0\x10\x11SQ\0\0\xff\xff\xff\xff\xfe\xff\xdd\xe0\0\0\0\0",
        status: 2,
        told: b"dcmtools: R1 at byte 196: input ends too early\n",
        ..EMPTY
    },
    Row {
        name: "cut: a kept sequence",
        words: "dcmdeid - -",
        start: Start::ExplicitLittle,
        input: b"\x08\0@\x11SQ\0\0\xff\xff\xff\xff\xfe\xff\0\xe0\xff\xff\xff\xff\x08\0`\0CS\x02\0MR\x10\0 \0LO\x02\0",
        header: Start::ExplicitLittle,
        lines: b"\x08\0@\x11SQ\0\0\xff\xff\xff\xff\xfe\xff\0\xe0\xff\xff\xff\xff\x08\0`\0CS\x02\0MR\x10\0 \0LO\0\0",
        status: 2,
        told: b"dcmtools: R1 at byte 210: input ends too early\n",
        ..EMPTY
    },
    Row {
        name: "cut: fragments",
        words: "dcmdeid - -",
        start: Start::Jpeg,
        input: b"\xe0\x7f\x10\0OB\0\0\xff\xff\xff\xff\xfe\xff\0\xe0\x02\0\0\0\xff",
        header: Start::Jpeg,
        lines: b"\x12\0b\0CS\x04\0YES \x12\0c\0LO\x1e\0dcmtools dcmdeid, PS3.15 2021b\x12\0d\0SQ\0\0\xff\xff\xff\xff\xfe\xff\0\xe0\xff\xff\xff\xff\x08\0\0\x01SH\x06\0113100\x08\0\x02\x01SH\x04\0DCM \x08\0\x04\x01LO*\0Basic Application Confidentiality Profile \xfe\xff\x0d\xe0\0\0\0\0\xfe\xff\xdd\xe0\0\0\0\0(\0\x03\x03CS\x08\0REMOVED \xe0\x7f\x10\0OB\0\0\xff\xff\xff\xff\xfe\xff\0\xe0\x02\0\0\0\xff",
        status: 2,
        told: b"dcmtools: R1 at byte 195: input ends too early\n",
        ..EMPTY
    },
    Row {
        name: "cut: an opaque sequence",
        words: "dcmdeid - -",
        start: Start::ExplicitLittle,
        input: b"\x08\0@\x11OB\0\0\x14\0\0\0\xfe\xff\0\xe0\x0c\0",
        header: Start::ExplicitLittle,
        status: 2,
        told: b"dcmtools: R1 at byte 190: input ends too early\n",
        ..EMPTY
    },
    Row {
        name: "cut: a sequence in UN of known length",
        words: "dcmdeid - -",
        start: Start::ExplicitLittle,
        input: b"\x08\0@\x11UN\0\0\x14\0\0\0\xfe\xff\0\xe0\x0c\0\0\0\x10\0 \0\x04\0\0\012",
        header: Start::ExplicitLittle,
        lines: b"\x08\0@\x11SQ\0\0\xff\xff\xff\xff\xfe\xff\0\xe0\xff\xff\xff\xff\x10\0 \0LO\0\0",
        status: 2,
        told: b"dcmtools: R1 at byte 202: input ends too early\n",
        ..EMPTY
    },
    Row {
        name: "cut: the file, with what was put",
        words: "dcmdeid - -",
        start: Start::ExplicitLittle,
        input: b"\x18\0P\0DS\x02\01",
        header: Start::ExplicitLittle,
        lines: b"\x12\0b\0CS\x04\0YES \x12\0c\0LO\x1e\0dcmtools dcmdeid, PS3.15 2021b\x12\0d\0SQ\0\0\xff\xff\xff\xff\xfe\xff\0\xe0\xff\xff\xff\xff\x08\0\0\x01SH\x06\0113100\x08\0\x02\x01SH\x04\0DCM \x08\0\x04\x01LO*\0Basic Application Confidentiality Profile \xfe\xff\x0d\xe0\0\0\0\0\xfe\xff\xdd\xe0\0\0\0\0\x18\0P\0DS\x02\01",
        status: 2,
        told: b"dcmtools: R1 at byte 181: input ends too early\n",
        ..EMPTY
    },
    Row {
        name: "cut: the file after a removed tag, which one put tag is below",
        words: "dcmdeid - -",
        start: Start::ExplicitLittle,
        input: b"\x12\0c\0LO\x04\0OLD  \0\x13\0",
        header: Start::ExplicitLittle,
        lines: b"\x12\0b\0CS\x04\0YES ",
        status: 2,
        told: b"dcmtools: R1 at byte 188: input ends too early\n",
        ..EMPTY
    },
];

/// Files at fault whose identity is taken out.
pub fn identity_faults() -> [&'static [Row]; 3] {
    [&PIXELS, &FAULTS, &CUTS]
}
