// Rows of runs of a part of the names.
use super::bytes::{CUT, GOOD};
use super::rows::Entry::{File, Folder, Link};
use super::rows::{EMPTY, HEADER, Row};

/// A part of the names.
pub static PARTS: [Row; 4] = [
    Row {
        name: "the first of two parts",
        words: "dcmconv +part 1/2 +r in out",
        before: &[
            File(b"in/a", GOOD),
            File(b"in/b", CUT),
            File(b"in/x/b", GOOD),
            Link(b"in/l", b"a"),
        ],
        output: &[
            HEADER,
            r#""a","a","written"
"x/b","x/b","written"
"#,
        ],
        made: &[File(b"out/a", GOOD), File(b"out/x/b", GOOD)],
        ..EMPTY
    },
    Row {
        name: "the second of two parts",
        words: "dcmconv +r in +part 02/2 out",
        before: &[
            File(b"in/a", GOOD),
            File(b"in/b", CUT),
            File(b"in/x/b", GOOD),
            Link(b"in/l", b"a"),
            File(b"out/a", GOOD),
        ],
        output: &[
            HEADER,
            r#""b",,"refused"
"l",,"left-out"
"#,
        ],
        told: b"dcmtools: b: R1 at byte 185: input ends too early\n\
dcmtools: l: no regular file\n",
        status: 4,
        ..EMPTY
    },
    Row {
        name: "the last word counts",
        words: "dcmconv +part 1/9 +r +part 3/5 in out",
        before: &[
            File(b"in/foobar", GOOD),
            File(b"in/a", GOOD),
            File(b"in/b", GOOD),
            File(b"in/c", GOOD),
            File(b"in/d", GOOD),
            File(b"in/e", GOOD),
            File(b"in/f", GOOD),
            File(b"in/fo", GOOD),
            File(b"in/foo", GOOD),
            File(b"in/foob", GOOD),
            File(b"in/fooba", GOOD),
            File(b"in/\xc3\xa9", GOOD),
        ],
        output: &[
            HEADER,
            r#""b","b","written"
"é","é","written"
"#,
        ],
        made: &[File(b"out/b", GOOD), File(b"out/\xc3\xa9", GOOD)],
        ..EMPTY
    },
    Row {
        name: "a part without names",
        words: "dcmconv +part 9999/9999 +r in out",
        before: &[
            File(b"in/a", GOOD),
            File(b"in/b", CUT),
            File(b"in/x/b", GOOD),
            Link(b"in/l", b"a"),
        ],
        output: &[HEADER],
        made: &[Folder(b"out")],
        ..EMPTY
    },
];
