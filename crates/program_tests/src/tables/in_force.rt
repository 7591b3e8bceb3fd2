// Rows of what is in force where a text stands.
use crate::runs::Done::Whole;
use crate::runs::Entry::{Decided, File};
use crate::runs::Row;
use dcm_test_devices::Start;

/// Which element says how a text is read.
pub fn in_force() -> &'static [Row] {
    &IN_FORCE
}

static IN_FORCE: [Row; 10] = [
    Row {
        name: "an unknown representation",
        words: "dcm2csv +by +u8 +nh -k PatientName",
        header: b"",
        names: &[b"x"],
        files: &[File(
            b"x",
            Start::ExplicitLittle,
            b"\x08\0\x05\0CS\n\0ISO_IR 100\x10\0\x10\0UN\0\0\x02\0\0\0J\xe9",
        )],
        done: &[Whole(b"x", b"x", b"\"x\",\"J\xc3\xa9\"\n")],
    },
    Row {
        name: "an implicit file",
        words: "dcm2csv +by +u8 +nh -k PatientName",
        header: b"",
        names: &[b"x"],
        files: &[File(
            b"x",
            Start::Implicit,
            b"\x08\0\x05\0\n\0\0\0ISO_IR 144\x10\0\x10\0\x01\0\0\0\xb6",
        )],
        done: &[Whole(b"x", b"x", b"\"x\",\"\xd0\x96\"\n")],
    },
    Row {
        name: "a set within an item",
        words: "dcm2csv +by +u8 +nh -k PatientName",
        header: b"",
        names: &[b"x"],
        files: &[File(
            b"x",
            Start::ExplicitLittle,
            b"\x08\0\x05\0CS\n\0ISO_IR 100\x08\0@\x11SQ\0\0\xff\xff\xff\xff\xfe\xff\0\xe0\xff\xff\xff\xff\x08\0\x05\0CS\n\0ISO_IR 144\xfe\xff\r\xe0\0\0\0\0\xfe\xff\xdd\xe0\0\0\0\0\x10\0\x10\0PN\x01\0\xe9",
        )],
        done: &[Whole(b"x", b"x", b"\"x\",\"\xc3\xa9\"\n")],
    },
    Row {
        name: "a set behind the text",
        words: "dcm2csv +by +u8 +nh -k PatientName",
        header: b"",
        names: &[b"x"],
        files: &[File(
            b"x",
            Start::ExplicitLittle,
            b"\x08\0\x05\0CS\n\0ISO_IR 100\x10\0\x10\0PN\x01\0\xe9\x08\0\x05\0CS\n\0ISO_IR 144",
        )],
        done: &[Whole(b"x", b"x", b"\"x\",\"\xc3\xa9\"\n")],
    },
    Row {
        name: "texts of other representations",
        words: "dcm2csv +nh +u8 -k Modality -k SpecificCharacterSet -k PatientName",
        header: b"",
        names: &[b"x"],
        files: &[File(
            b"x",
            Start::ExplicitLittle,
            b"\x08\0\x05\0CS\n\0ISO_IR 100\x08\0`\0CS\x04\0\xe9\xc3\xa9 \x10\0\x10\0PN\x01\0\xe9",
        )],
        done: &[Whole(
            b"x",
            b"x",
            b"\"x\",\"\\xe9\xc3\xa9\",\"ISO_IR 100\",\"\xc3\xa9\"\n",
        )],
    },
    Row {
        name: "+by behind +u8",
        words: "dcm2csv +nh +u8 +by -k PatientName",
        header: b"",
        names: &[b"x"],
        files: &[File(
            b"x",
            Start::ExplicitLittle,
            b"\x08\0\x05\0CS\n\0ISO_IR 100\x08\0`\0CS\x04\0\xe9\xc3\xa9 \x10\0\x10\0PN\x01\0\xe9",
        )],
        done: &[Whole(b"x", b"x", b"\"x\",\"\xe9\"\n")],
    },
    Row {
        name: "neither",
        words: "dcm2csv +nh -k PatientName",
        header: b"",
        names: &[b"x"],
        files: &[File(
            b"x",
            Start::ExplicitLittle,
            b"\x08\0\x05\0CS\n\0ISO_IR 100\x08\0`\0CS\x04\0\xe9\xc3\xa9 \x10\0\x10\0PN\x01\0\xe9",
        )],
        done: &[Whole(b"x", b"x", b"\"x\",\"\\xe9\"\n")],
    },
    Row {
        name: "an element before the set",
        words: "dcm2csv +nh +u8 -k (0007,1001)",
        header: b"",
        names: &[b"x"],
        files: &[Decided(
            b"x",
            Start::ExplicitLittle,
            b"\x07\0\x01\x10LO\x01\0\xe9\x08\0\x05\0CS\n\0ISO_IR 100",
            189,
        )],
        done: &[Whole(b"x", b"x", b"\"x\",\"\\xe9\"\n")],
    },
    Row {
        name: "the same before another",
        words: "dcm2csv +nh +u8 -k (0007,1001) -k PatientName",
        header: b"",
        names: &[b"x"],
        files: &[File(
            b"x",
            Start::ExplicitLittle,
            b"\x07\0\x01\x10LO\x01\0\xe9\x08\0\x05\0CS\n\0ISO_IR 100\x10\0\x10\0PN\x06\0AB^CD ",
        )],
        done: &[Whole(b"x", b"x", b"\"x\",\"\\xe9\",\"AB^CD\"\n")],
    },
    Row {
        name: "a file behind one that sets",
        words: "dcm2csv +nh +u8 -k PatientName",
        header: b"",
        names: &[b"x", b"y"],
        files: &[
            File(
                b"x",
                Start::ExplicitLittle,
                b"\x08\0\x05\0CS\n\0ISO_IR 100\x08\0`\0CS\x04\0\xe9\xc3\xa9 \x10\0\x10\0PN\x01\0\xe9",
            ),
            File(
                b"y",
                Start::ExplicitLittle,
                b"\x10\0\x10\0PN\x05\0J\xe9\xc3\xa9 ",
            ),
        ],
        done: &[
            Whole(b"x", b"x", b"\"x\",\"\xc3\xa9\"\n"),
            Whole(b"y", b"y", b"\"y\",\"J\\xe9\\xc3\\xa9\"\n"),
        ],
    },
];
