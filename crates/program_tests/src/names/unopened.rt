// Rows of files that are not there, and of standard input.
use crate::runs::Done::{Faulty, Unopened, Unread, Whole};
use crate::runs::Entry::{Broken, File, Folder, List, Named};
use crate::runs::{Row, TWO_COLUMNS};
use dcm_test_devices::Start;

/// Files that cannot be opened or read, and standard input.
pub fn unopened() -> &'static [Row] {
    &UNOPENED
}

static UNOPENED: [Row; 6] = [
    Row {
        name: "files that are not there",
        words: "dcm2csv -k PatientName -k (0010,0020)",
        names: &[b"gone", b"folder", b"a", b"/proc/self/mem"],
        files: &[Folder(b"folder"), Named(b"a"), Broken(b"/proc/self/mem")],
        header: b"\"File\",\"PatientName\",\"PatientID\"\n",
        done: &[
            Unopened(b"gone"),
            Unopened(b"folder"),
            Whole(b"a", b"a", b"\"a\",\"AB^CD\",\n"),
            Unread(b"/proc/self/mem", b"/proc/self/mem"),
        ],
    },
    Row {
        name: "the greatest status",
        words: TWO_COLUMNS,
        names: &[b"x\n\x7f\\y\xc3\xa9\x1f ", b"\x1b[31m"],
        files: &[File(b"\x1b[31m", Start::Nothing, b"no")],
        header: b"",
        done: &[
            Unopened(b"x\\0a\\7f\\5cy\xc3\xa9\\1f "),
            Faulty(
                b"\x1b[31m",
                b"\\1b[31m",
                b"\"\x1b[31m\",,\n",
                b"R1 at byte 2: input ends too early",
            ),
        ],
    },
    Row {
        name: "a list on standard input",
        words: "dcm2csv @- a -k PatientName -k (0010,0020)",
        names: &[],
        files: &[List(b"-", b"a\n"), Named(b"a")],
        header: b"\"File\",\"PatientName\",\"PatientID\"\n",
        done: &[
            Whole(b"a", b"a", b"\"a\",\"AB^CD\",\n"),
            Whole(b"a", b"a", b"\"a\",\"AB^CD\",\n"),
        ],
    },
    Row {
        name: "standard input and a file",
        words: "dcm2csv - ./- -k PatientName -k (0010,0020)",
        names: &[],
        files: &[Named(b"-"), File(b"./-", Start::ExplicitLittle, b"")],
        header: b"\"File\",\"PatientName\",\"PatientID\"\n",
        done: &[
            Whole(b"-", b"-", b"\"-\",\"AB^CD\",\n"),
            Whole(b"./-", b"./-", b"\"./-\",,\n"),
        ],
    },
    Row {
        name: "standard input as a file",
        words: TWO_COLUMNS,
        names: &[b"-", b"./@x", b"./-k", b"./+nh"],
        files: &[
            Named(b"-"),
            Named(b"./@x"),
            Named(b"./-k"),
            File(b"./+nh", Start::Nothing, b""),
        ],
        header: b"",
        done: &[
            Whole(b"-", b"-", b"\"-\",\"AB^CD\",\n"),
            Whole(b"./@x", b"./@x", b"\"./@x\",\"AB^CD\",\n"),
            Whole(b"./-k", b"./-k", b"\"./-k\",\"AB^CD\",\n"),
            Faulty(
                b"./+nh",
                b"./+nh",
                b"\"./+nh\",,\n",
                b"R1 at byte 0: input ends too early",
            ),
        ],
    },
    Row {
        name: "an empty standard input",
        words: TWO_COLUMNS,
        names: &[b"-"],
        files: &[File(b"-", Start::Nothing, b"")],
        header: b"",
        done: &[Faulty(
            b"-",
            b"-",
            b"\"-\",,\n",
            b"R1 at byte 0: input ends too early",
        )],
    },
];
