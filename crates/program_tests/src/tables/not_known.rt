// Rows of files whose character set is not known.
use crate::runs::Done::{Faulty, Remarked, Whole};
use crate::runs::Entry::File;
use crate::runs::{Answer, Entry, Row, expect_answer, load, run_over};
use dcm_test_devices::{Devices, SOUND, Start};
use std::test::Fail;

/// What is reported of such a file.
const NOT_KNOWN: &[u8] = b"character set is not known";

/// Which values of the outermost data set are reported, and where.
pub fn not_known() -> &'static [Row] {
    &ROWS
}

static ROWS: [Row; 10] = [
    Row {
        name: "a set that is not known",
        words: "dcm2csv +nh +u8 -k PatientName",
        header: b"",
        names: &[b"x"],
        files: &[File(
            b"x",
            Start::ExplicitLittle,
            b"\x08\0\x05\0CS\x04\0FOO \x10\0\x10\0PN\x02\0\xc3\xa9",
        )],
        done: &[Remarked(b"x", b"x", b"\"x\",\"\\xc3\\xa9\"\n", NOT_KNOWN)],
    },
    Row {
        name: "a longer set",
        words: "dcm2csv +nh +u8 -k PatientName",
        header: b"",
        names: &[b"x"],
        files: &[File(
            b"x",
            Start::ExplicitLittle,
            b"\x08\0\x05\0CS\x02\x02ISO_IR 100                                                                                                                                                                                                                                                                                                                                                                                                                                                                                                                        \x10\0\x10\0PN\x02\0\xe9 ",
        )],
        done: &[Remarked(b"x", b"x", b"\"x\",\"\\xe9\"\n", NOT_KNOWN)],
    },
    Row {
        name: "twice",
        words: "dcm2csv +nh +u8 -k PatientName",
        header: b"",
        names: &[b"x"],
        files: &[File(
            b"x",
            Start::ExplicitLittle,
            b"\x08\0\x05\0CS\x04\0FOO \x10\0\x10\0PN\x02\0\xe9 \x08\0\x05\0CS\x04\0FOO ",
        )],
        done: &[Remarked(b"x", b"x", b"\"x\",\"\\xe9\"\n", NOT_KNOWN)],
    },
    Row {
        name: "not read",
        words: "dcm2csv +nh +u8 -k (0007,1001)",
        header: b"",
        names: &[b"x"],
        files: &[File(
            b"x",
            Start::ExplicitLittle,
            b"\x07\0\x01\x10LO\x02\0a \x08\0\x05\0CS\x04\0FOO ",
        )],
        done: &[Whole(b"x", b"x", b"\"x\",\"a\"\n")],
    },
    Row {
        name: "behind",
        words: "dcm2csv +nh +u8 -k (0007,1001) -k Modality",
        header: b"",
        names: &[b"x"],
        files: &[File(
            b"x",
            Start::ExplicitLittle,
            b"\x07\0\x01\x10LO\x02\0a \x08\0\x05\0CS\x04\0FOO ",
        )],
        done: &[Remarked(b"x", b"x", b"\"x\",\"a\",\n", NOT_KNOWN)],
    },
    Row {
        name: "without +u8",
        words: "dcm2csv +nh -k PatientName",
        header: b"",
        names: &[b"x"],
        files: &[File(
            b"x",
            Start::ExplicitLittle,
            b"\x08\0\x05\0CS\x04\0FOO \x10\0\x10\0PN\x06\0AB^CD ",
        )],
        done: &[Whole(b"x", b"x", b"\"x\",\"AB^CD\"\n")],
    },
    Row {
        name: "+by behind +u8",
        words: "dcm2csv +nh +u8 +by -k PatientName",
        header: b"",
        names: &[b"x"],
        files: &[File(
            b"x",
            Start::ExplicitLittle,
            b"\x08\0\x05\0CS\x04\0FOO \x10\0\x10\0PN\x06\0AB^CD ",
        )],
        done: &[Whole(b"x", b"x", b"\"x\",\"AB^CD\"\n")],
    },
    Row {
        name: "a set that is cut",
        words: "dcm2csv +nh +u8 -k PatientName",
        header: b"",
        names: &[b"x"],
        files: &[File(b"x", Start::ExplicitLittle, b"\x08\0\x05\0CS\x04\0FOO")],
        done: &[Faulty(
            b"x",
            b"x",
            b"\"x\",\n",
            b"R1 at byte 183: input ends too early",
        )],
    },
    Row {
        name: "within an item",
        words: "dcm2csv +nh +u8 -k PatientName",
        header: b"",
        names: &[b"x"],
        files: &[File(
            b"x",
            Start::ExplicitLittle,
            b"\x08\0@\x11SQ\0\0\xff\xff\xff\xff\xfe\xff\0\xe0\xff\xff\xff\xff\x08\0\x05\0CS\x04\0FOO \xfe\xff\r\xe0\0\0\0\0\xfe\xff\xdd\xe0\0\0\0\0\x10\0\x10\0PN\x06\0AB^CD ",
        )],
        done: &[Whole(b"x", b"x", b"\"x\",\"AB^CD\"\n")],
    },
    Row {
        name: "UN",
        words: "dcm2csv +nh +u8 -k PatientName",
        header: b"",
        names: &[b"x"],
        files: &[File(
            b"x",
            Start::ExplicitLittle,
            b"\x08\0\x05\0UN\0\0\x04\0\0\0FOO \x10\0\x10\0PN\x06\0AB^CD ",
        )],
        done: &[Remarked(b"x", b"x", b"\"x\",\"AB^CD\"\n", NOT_KNOWN)],
    },
];

/// Where reading fails behind such a value, it is reported before that, and there is no row.
#[test]
fn reading_fails_behind_it(rt: HostRuntime) -> Result<(), Fail> {
    let words: [&[u8]; 6] = [b"dcm2csv", b"+u8", b"+nh", b"-k", b"PatientName", b"x"];
    let files = [Entry::File(
        b"x",
        Start::ExplicitLittle,
        b"\x08\0\x05\0CS\x04\0FOO \x10\0\x10\0",
    )];
    let files = load(rt.alloc(), &files)?;
    for (read, told) in [
        (
            183,
            b"dcmtools: x: reading failed after 183 bytes\n".as_slice(),
        ),
        (
            186,
            b"dcmtools: x: character set is not known\ndcmtools: x: reading failed after 186 bytes\n".as_slice(),
        ),
    ] {
        let devices = Devices {
            step: 1,
            failing: b"x",
            reads: read,
            ..SOUND
        };
        let left = run_over(rt.alloc(), &words, files.as_slice(), devices);
        let wanted = Answer {
            status: 4,
            output: Vec::new(rt.alloc()),
            told: told.to_vec(rt.alloc())?,
        };
        expect_answer("reading fails", &left, &wanted)?;
    }
    Ok(())
}
