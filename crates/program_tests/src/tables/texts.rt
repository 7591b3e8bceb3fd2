// Rows of bytes that are no UTF-8, in cells and in names. A name that is no UTF-8 cannot be opened (DECISIONS, D-62).
use crate::runs::Done::{Unopened, Whole};
use crate::runs::Entry::File;
use crate::runs::{Row, TWO_COLUMNS};
use dcm_test_devices::Start;

/// Bytes that are no UTF-8.
pub fn texts() -> &'static [Row] {
    &TEXTS
}

static TEXTS: [Row; 5] = [
    Row {
        name: "bytes that are no UTF-8",
        words: "dcm2csv -k PatientName -k (0010,0020)",
        names: &[b"a\xc3\xa9", b"cut"],
        files: &[
            File(
                b"a\xc3\xa9",
                Start::ExplicitLittle,
                b"\x10\0\x10\0PN\x1c\0A\xc3\xa9\xe9\xc3(\xe2\x82\xe2\x82\xac\xf0\x9f\x98\x80\xc0\x80\xed\xa0\x80\xf4\x90\x80\x80\xfe\"\\\x80",
            ),
            File(
                b"cut",
                Start::ExplicitLittle,
                b"\x10\0\x10\0PN\x04\0\xc3\xa9\xc3 ",
            ),
        ],
        header: b"\"File\",\"PatientName\",\"PatientID\"\n",
        done: &[
            Whole(
                b"a\xc3\xa9",
                b"a\xc3\xa9",
                b"\"a\xc3\xa9\",\"A\xc3\xa9\\xe9\\xc3(\\xe2\\x82\xe2\x82\xac\xf0\x9f\x98\x80\\xc0\\x80\\xed\\xa0\\x80\\xf4\\x90\\x80\\x80\\xfe\"\"\\\\x80\",\n",
            ),
            Whole(b"cut", b"cut", b"\"cut\",\"\xc3\xa9\\xc3\",\n"),
        ],
    },
    Row {
        name: "bytes as they are",
        words: "dcm2csv -k PatientName -k (0010,0020) +by",
        names: &[b"a\xc3\xa9"],
        files: &[File(
            b"a\xc3\xa9",
            Start::ExplicitLittle,
            b"\x10\0\x10\0PN\x1c\0A\xc3\xa9\xe9\xc3(\xe2\x82\xe2\x82\xac\xf0\x9f\x98\x80\xc0\x80\xed\xa0\x80\xf4\x90\x80\x80\xfe\"\\\x80",
        )],
        header: b"\"File\",\"PatientName\",\"PatientID\"\n",
        done: &[Whole(
            b"a\xc3\xa9",
            b"a\xc3\xa9",
            b"\"a\xc3\xa9\",\"A\xc3\xa9\xe9\xc3(\xe2\x82\xe2\x82\xac\xf0\x9f\x98\x80\xc0\x80\xed\xa0\x80\xf4\x90\x80\x80\xfe\"\"\\\x80\",\n",
        )],
    },
    Row {
        name: "a name that is no UTF-8",
        words: "dcm2csv -k PatientName -k (0010,0020)",
        names: &[b"a\xff\xc3\xa9", b"cut"],
        files: &[
            File(
                b"a\xff\xc3\xa9",
                Start::ExplicitLittle,
                b"\x10\0\x10\0PN\x1c\0A\xc3\xa9\xe9\xc3(\xe2\x82\xe2\x82\xac\xf0\x9f\x98\x80\xc0\x80\xed\xa0\x80\xf4\x90\x80\x80\xfe\"\\\x80",
            ),
            File(
                b"cut",
                Start::ExplicitLittle,
                b"\x10\0\x10\0PN\x04\0\xc3\xa9\xc3 ",
            ),
        ],
        header: b"\"File\",\"PatientName\",\"PatientID\"\n",
        done: &[
            Unopened(b"a\xff\xc3\xa9"),
            Whole(b"cut", b"cut", b"\"cut\",\"\xc3\xa9\\xc3\",\n"),
        ],
    },
    Row {
        name: "a name as it is",
        words: "dcm2csv -k PatientName -k (0010,0020) +by",
        names: &[b"a\xff\xc3\xa9"],
        files: &[File(
            b"a\xff\xc3\xa9",
            Start::ExplicitLittle,
            b"\x10\0\x10\0PN\x1c\0A\xc3\xa9\xe9\xc3(\xe2\x82\xe2\x82\xac\xf0\x9f\x98\x80\xc0\x80\xed\xa0\x80\xf4\x90\x80\x80\xfe\"\\\x80",
        )],
        header: b"\"File\",\"PatientName\",\"PatientID\"\n",
        done: &[Unopened(b"a\xff\xc3\xa9")],
    },
    Row {
        name: "a line with a name",
        words: TWO_COLUMNS,
        names: &[b"\xff"],
        files: &[],
        header: b"",
        done: &[Unopened(b"\xff")],
    },
];
