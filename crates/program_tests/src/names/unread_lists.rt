// Rows of lists on standard input, and of lists that cannot be read.
use crate::runs::Done::{Unopened, Unread, Whole};
use crate::runs::Entry::{Broken, Folder, List, Named};
use crate::runs::{Row, TWO_COLUMNS};

/// Lists on standard input, and lists that cannot be read.
pub fn unread_lists() -> &'static [Row] {
    &UNREAD_LISTS
}

static UNREAD_LISTS: [Row; 4] = [
    Row {
        name: "lists that are not there",
        words: TWO_COLUMNS,
        names: &[b"@none", b"a", b"@folder", b"@\xff", b"@a\0", b"@@"],
        files: &[Named(b"a"), Folder(b"folder")],
        header: b"",
        done: &[
            Unopened(b"none"),
            Whole(b"a", b"a", b"\"a\",\"AB^CD\",\n"),
            Unopened(b"folder"),
            Unopened(b"\xff"),
            Unopened(b"a\\00"),
            Unopened(b"@"),
        ],
    },
    Row {
        name: "a list that breaks",
        words: TWO_COLUMNS,
        names: &[b"@/proc/self/mem", b"a"],
        files: &[Broken(b"/proc/self/mem"), Named(b"a")],
        header: b"",
        done: &[
            Unread(b"", b"/proc/self/mem"),
            Whole(b"a", b"a", b"\"a\",\"AB^CD\",\n"),
        ],
    },
    Row {
        name: "standard input as a list",
        words: TWO_COLUMNS,
        names: &[b"@-"],
        files: &[List(b"-", b"-\n\na"), Named(b"./-"), Named(b"a")],
        header: b"",
        done: &[
            Whole(b"./-", b"-", b"\"-\",\"AB^CD\",\n"),
            Whole(b"a", b"a", b"\"a\",\"AB^CD\",\n"),
        ],
    },
    Row {
        name: "no names on standard input",
        words: "dcm2csv @- -k PatientName -k (0010,0020)",
        names: &[],
        files: &[List(b"-", b"")],
        header: b"\"File\",\"PatientName\",\"PatientID\"\n",
        done: &[],
    },
];
