// Rows of names in lists.
use crate::runs::Done::{Faulty, Unopened, Whole};
use crate::runs::Entry::{File, List, Named};
use crate::runs::{Row, TWO_COLUMNS};
use dcm_test_devices::Start;

/// Names in lists.
pub fn lists() -> &'static [Row] {
    &LISTS
}

static LISTS: [Row; 6] = [
    Row {
        name: "a list with empty lines",
        words: TWO_COLUMNS,
        names: &[b"@l"],
        files: &[List(b"l", b"\n\na\n\n\na\n\n"), Named(b"a")],
        header: b"",
        done: &[
            Whole(b"a", b"a", b"\"a\",\"AB^CD\",\n"),
            Whole(b"a", b"a", b"\"a\",\"AB^CD\",\n"),
        ],
    },
    Row {
        name: "a list without its last newline",
        words: TWO_COLUMNS,
        names: &[b"@l"],
        files: &[
            List(b"l", b"a\nb"),
            Named(b"a"),
            File(b"b", Start::Nothing, b"no"),
        ],
        header: b"",
        done: &[
            Whole(b"a", b"a", b"\"a\",\"AB^CD\",\n"),
            Faulty(
                b"b",
                b"b",
                b"\"b\",,\n",
                b"R1 at byte 2: input ends too early",
            ),
        ],
    },
    Row {
        name: "a list with carriage returns",
        words: TWO_COLUMNS,
        names: &[b"@l"],
        files: &[
            List(b"l", b"a\r\n\r\na\n\r"),
            Named(b"a\r"),
            Named(b"\r"),
            Named(b"a"),
        ],
        header: b"",
        done: &[
            Whole(b"a\r", b"a\\0d", b"\"a\r\",\"AB^CD\",\n"),
            Whole(b"\r", b"\\0d", b"\"\r\",\"AB^CD\",\n"),
            Whole(b"a", b"a", b"\"a\",\"AB^CD\",\n"),
            Whole(b"\r", b"\\0d", b"\"\r\",\"AB^CD\",\n"),
        ],
    },
    Row {
        name: "a list of words",
        words: TWO_COLUMNS,
        names: &[b"@l"],
        files: &[
            List(b"l", b"-k\n+nh\n@l\n-\n"),
            Named(b"-k"),
            Named(b"+nh"),
            Named(b"@l"),
            Named(b"./-"),
        ],
        header: b"",
        done: &[
            Whole(b"-k", b"-k", b"\"-k\",\"AB^CD\",\n"),
            Whole(b"+nh", b"+nh", b"\"+nh\",\"AB^CD\",\n"),
            Whole(b"@l", b"@l", b"\"@l\",\"AB^CD\",\n"),
            Whole(b"./-", b"-", b"\"-\",\"AB^CD\",\n"),
        ],
    },
    Row {
        name: "lists of nothing",
        words: "dcm2csv -k PatientName -k (0010,0020)",
        names: &[b"@empty", b"@lines"],
        files: &[List(b"empty", b""), List(b"lines", b"\n\n\n")],
        header: b"\"File\",\"PatientName\",\"PatientID\"\n",
        done: &[],
    },
    Row {
        name: "a list with a byte 00",
        words: TWO_COLUMNS,
        names: &[b"@l"],
        files: &[List(b"l", b"a\0\n\0\na\n"), Named(b"a")],
        header: b"",
        done: &[
            Unopened(b"a\\00"),
            Unopened(b"\\00"),
            Whole(b"a", b"a", b"\"a\",\"AB^CD\",\n"),
        ],
    },
];
