// Rows of files with names of all kinds.
use crate::runs::Done::{Faulty, Unopened, Whole};
use crate::runs::Entry::{File, List, Named};
use crate::runs::{Row, TWO_COLUMNS};
use dcm_test_devices::Start;

/// Names among the words.
pub fn names() -> &'static [Row] {
    &NAMES
}

static NAMES: [Row; 5] = [
    Row {
        name: "names with what a table has",
        words: TWO_COLUMNS,
        names: &[b"a,b", b"\"", b"n\nl\r", b"x\"\",\\y"],
        files: &[
            Named(b"a,b"),
            Named(b"\""),
            Named(b"n\nl\r"),
            File(b"x\"\",\\y", Start::Nothing, b"no"),
        ],
        header: b"",
        done: &[
            Whole(b"a,b", b"a,b", b"\"a,b\",\"AB^CD\",\n"),
            Whole(b"\"", b"\"", b"\"\"\"\",\"AB^CD\",\n"),
            Whole(b"n\nl\r", b"n\\0al\\0d", b"\"n\nl\r\",\"AB^CD\",\n"),
            Faulty(
                b"x\"\",\\y",
                b"x\"\",\\5cy",
                b"\"x\"\"\"\",\\y\",,\n",
                b"R1 at byte 2: input ends too early",
            ),
        ],
    },
    Row {
        name: "names with controls",
        words: TWO_COLUMNS,
        names: &[b"\x01\x7f\x1f", b"\0", b"\x1b]0;t\x07", b"=1+1", b" "],
        files: &[
            File(b"\x01\x7f\x1f", Start::Nothing, b"no"),
            Named(b"\x1b]0;t\x07"),
            Named(b"=1+1"),
            Named(b" "),
        ],
        header: b"",
        done: &[
            Faulty(
                b"\x01\x7f\x1f",
                b"\\01\\7f\\1f",
                b"\"\x01\x7f\x1f\",,\n",
                b"R1 at byte 2: input ends too early",
            ),
            Unopened(b"\\00"),
            Whole(
                b"\x1b]0;t\x07",
                b"\\1b]0;t\\07",
                b"\"\x1b]0;t\x07\",\"AB^CD\",\n",
            ),
            Whole(b"=1+1", b"=1+1", b"\"=1+1\",\"AB^CD\",\n"),
            Whole(b" ", b" ", b"\" \",\"AB^CD\",\n"),
        ],
    },
    Row {
        name: "names in UTF-8 and not",
        words: TWO_COLUMNS,
        names: &[
            b"\xc3\xa9",
            b"\xf0\x9f\x98\x80",
            b"\xe9",
            b"a\xc0\x80",
            b"\xed\xa0\x80",
            b"\xe2\x82",
        ],
        files: &[
            Named(b"\xc3\xa9"),
            File(b"\xf0\x9f\x98\x80", Start::Nothing, b"no"),
            Named(b"\xe9"),
            Named(b"a\xc0\x80"),
            Named(b"\xed\xa0\x80"),
            Named(b"\xe2\x82"),
        ],
        header: b"",
        done: &[
            Whole(b"\xc3\xa9", b"\xc3\xa9", b"\"\xc3\xa9\",\"AB^CD\",\n"),
            Faulty(
                b"\xf0\x9f\x98\x80",
                b"\xf0\x9f\x98\x80",
                b"\"\xf0\x9f\x98\x80\",,\n",
                b"R1 at byte 2: input ends too early",
            ),
            Unopened(b"\xe9"),
            Unopened(b"a\xc0\x80"),
            Unopened(b"\xed\xa0\x80"),
            Unopened(b"\xe2\x82"),
        ],
    },
    Row {
        name: "names in UTF-8 as they are",
        words: "dcm2csv +nh +by -k PatientName -k (0010,0020)",
        names: &[b"\xc3\xa9", b"@l"],
        files: &[Named(b"\xc3\xa9"), List(b"l", b"\xc3\xa9\n\xff\n")],
        header: b"",
        done: &[
            Whole(b"\xc3\xa9", b"\xc3\xa9", b"\"\xc3\xa9\",\"AB^CD\",\n"),
            Whole(b"\xc3\xa9", b"\xc3\xa9", b"\"\xc3\xa9\",\"AB^CD\",\n"),
            Unopened(b"\xff"),
        ],
    },
    Row {
        name: "lists and files in turn",
        words: "dcm2csv @l +nh b -k PatientName",
        names: &[b"@l", b"@m"],
        files: &[
            List(b"l", b"a\nb\n"),
            Named(b"a"),
            Named(b"b"),
            List(b"m", b"b"),
        ],
        header: b"",
        done: &[
            Whole(b"a", b"a", b"\"a\",\"AB^CD\"\n"),
            Whole(b"b", b"b", b"\"b\",\"AB^CD\"\n"),
            Whole(b"b", b"b", b"\"b\",\"AB^CD\"\n"),
            Whole(b"a", b"a", b"\"a\",\"AB^CD\"\n"),
            Whole(b"b", b"b", b"\"b\",\"AB^CD\"\n"),
            Whole(b"b", b"b", b"\"b\",\"AB^CD\"\n"),
        ],
    },
];
