// Rows of texts as characters.
use crate::runs::Done::{Remarked, Whole};
use crate::runs::Entry::File;
use crate::runs::Row;
use dcm_test_devices::Start;

/// Texts by one set and by several, and what has no character.
pub fn decoded() -> &'static [Row] {
    &DECODED
}

static DECODED: [Row; 8] = [
    Row {
        name: "no set",
        words: "dcm2csv +by +u8 +nh -k PatientName",
        header: b"",
        names: &[b"x"],
        files: &[File(
            b"x",
            Start::ExplicitLittle,
            b"\x10\0\x10\0PN\x05\0J\xe9\xc3\xa9 ",
        )],
        done: &[Whole(b"x", b"x", b"\"x\",\"J\\xe9\\xc3\\xa9\"\n")],
    },
    Row {
        name: "ISO_IR 100",
        words: "dcm2csv +by +u8 +nh -k PatientName",
        header: b"",
        names: &[b"x"],
        files: &[File(
            b"x",
            Start::ExplicitLittle,
            b"\x08\0\x05\0CS\n\0ISO_IR 100\x10\0\x10\0PN\x0b\0\"J\xe9\"\x85\xad\n\x1b[ \0",
        )],
        done: &[Whole(
            b"x",
            b"x",
            b"\"x\",\"\"\"J\xc3\xa9\"\"\\x85\xc2\xad\n\x1b[\"\n",
        )],
    },
    Row {
        name: "ISO_IR 138",
        words: "dcm2csv +by +u8 +nh -k PatientName",
        header: b"",
        names: &[b"x"],
        files: &[File(
            b"x",
            Start::ExplicitLittle,
            b"\x08\0\x05\0CS\n\0ISO_IR 138\x10\0\x10\0PN\x02\0\xf9\xfd",
        )],
        done: &[Whole(b"x", b"x", b"\"x\",\"\xd7\xa9\xe2\x80\x8e\"\n")],
    },
    Row {
        name: "ISO_IR 192",
        words: "dcm2csv +by +u8 +nh -k PatientName",
        header: b"",
        names: &[b"x"],
        files: &[File(
            b"x",
            Start::ExplicitLittle,
            b"\x08\0\x05\0CS\n\0ISO_IR 192\x10\0\x10\0PN\x1c\0A\xc3\xa9\xe9\xc3(\xe2\x82\xe2\x82\xac\xf0\x9f\x98\x80\xc0\x80\xed\xa0\x80\xf4\x90\x80\x80\xfe\"\\\x80",
        )],
        done: &[Whole(
            b"x",
            b"x",
            b"\"x\",\"A\xc3\xa9\\xe9\\xc3(\\xe2\\x82\xe2\x82\xac\xf0\x9f\x98\x80\\xc0\\x80\\xed\\xa0\\x80\\xf4\\x90\\x80\\x80\\xfe\"\"\\\\x80\"\n",
        )],
    },
    Row {
        name: "hidden characters stay",
        words: "dcm2csv +by +u8 +nh -k PatientName",
        header: b"",
        names: &[b"x"],
        files: &[File(
            b"x",
            Start::ExplicitLittle,
            b"\x08\0\x05\0CS\n\0ISO_IR 192\x10\0\x10\0PN\x0c\0\xc2\x85\xe2\x80\xae\xef\xbb\xbf%]\x7f\x1b",
        )],
        done: &[Whole(
            b"x",
            b"x",
            b"\"x\",\"\xc2\x85\xe2\x80\xae\xef\xbb\xbf%]\x7f\x1b\"\n",
        )],
    },
    Row {
        name: "ISO 2022 IR 87",
        words: "dcm2csv +by +u8 +nh -k PatientName",
        header: b"",
        names: &[b"x"],
        files: &[File(
            b"x",
            Start::ExplicitLittle,
            b"\x08\0\x05\0CS\x10\0\\ISO 2022 IR 87 \x10\0\x10\0PN\x14\0\x1b$B;3\x1b(B^\x1b$BED\x1b(B\x1b-A",
        )],
        done: &[Whole(b"x", b"x", b"\"x\",\"\xe5\xb1\xb1^\xe7\x94\xb0\\x1b-A\"\n")],
    },
    Row {
        name: "an unknown term",
        words: "dcm2csv +by +u8 +nh -k PatientName",
        header: b"",
        names: &[b"x"],
        files: &[File(
            b"x",
            Start::ExplicitLittle,
            b"\x08\0\x05\0CS\x04\0FOO \x10\0\x10\0PN\x02\0\xc3\xa9",
        )],
        done: &[Remarked(
            b"x",
            b"x",
            b"\"x\",\"\\xc3\\xa9\"\n",
            b"character set is not known",
        )],
    },
    Row {
        name: "a character that is cut",
        words: "dcm2csv +by +u8 +nh -k PatientName",
        header: b"",
        names: &[b"x"],
        files: &[File(
            b"x",
            Start::ExplicitLittle,
            b"\x08\0\x05\0CS\n\0ISO_IR 192\x10\0\x10\0PN\x05\0A\xe2\x82 \0",
        )],
        done: &[Whole(b"x", b"x", b"\"x\",\"A\\xe2\\x82\"\n")],
    },
];
