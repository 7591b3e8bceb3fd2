// Rows of two files with one instance, and of a run that goes on.
use super::bytes::{
    DATES_REMOVED, INSTANCE, KEY, METHOD, NO_DATE, ONE, ONE_NAME, ONE_NEW, ONE_PATH, PATIENT,
    PATIENT_MOVED, PATIENT_NAMED, PROFILE_UIDS, PSEUDONYM, REMOVED, SERIES, STUDY,
};
use super::rows::Entry::{File, FileOfMode, Folder, Plain, Set};
use super::rows::{EMPTY, HEADER, Row};

/// Two files with one instance.
pub static COPIES: [Row; 4] = [
    Row {
        name: "two files of one name",
        words: "dcmdeid +k key +r @list out",
        before: &[
            Plain(b"key", KEY),
            File(b"p/1", ONE),
            Set(
                b"q/1",
                &[INSTANCE, STUDY, SERIES, b"(\0\x10\0US\x02\0\x01\0"],
            ),
            Plain(b"list", b"p/1\nq/1\n"),
        ],
        output: &[
            HEADER,
            r#""p/1",""#,
            ONE_NAME,
            r#"","written"
"q/1",""#,
            ONE_NAME,
            r#"","taken"
"#,
        ],
        told: b"dcmtools: q/1: output is there already\n",
        status: 4,
        made: &[File(ONE_PATH, ONE_NEW)],
        ..EMPTY
    },
    Row {
        name: "two files of one name, in a run that goes on",
        words: "dcmdeid +c +k key +r @list out",
        before: &[
            Plain(b"key", KEY),
            File(b"p/1", ONE),
            Set(
                b"q/1",
                &[INSTANCE, STUDY, SERIES, b"(\0\x10\0US\x02\0\x01\0"],
            ),
            Plain(b"list", b"p/1\nq/1\n"),
        ],
        output: &[
            HEADER,
            r#""p/1",""#,
            ONE_NAME,
            r#"","written"
"q/1",""#,
            ONE_NAME,
            r#"","taken"
"#,
        ],
        told: b"dcmtools: q/1: output is there already\n",
        status: 4,
        made: &[File(ONE_PATH, ONE_NEW)],
        ..EMPTY
    },
    Row {
        name: "copies",
        words: "dcmdeid +k key +r @list out",
        before: &[
            Plain(b"key", KEY),
            File(b"p/1", ONE),
            FileOfMode(b"q/1", ONE, 0o600),
            Plain(b"list", b"p/1\nq/1\np/1"),
        ],
        output: &[
            HEADER,
            r#""p/1",""#,
            ONE_NAME,
            r#"","written"
"q/1",""#,
            ONE_NAME,
            r#"","there"
"p/1",""#,
            ONE_NAME,
            r#"","there"
"#,
        ],
        made: &[File(ONE_PATH, ONE_NEW)],
        ..EMPTY
    },
    Row {
        name: "copies, in a run that goes on",
        words: "dcmdeid +k key +r +c @list out",
        before: &[
            Plain(b"key", KEY),
            File(b"p/1", ONE),
            FileOfMode(b"q/1", ONE, 0o600),
            Plain(b"list", b"p/1\nq/1\np/1"),
        ],
        output: &[
            HEADER,
            r#""p/1",""#,
            ONE_NAME,
            r#"","written"
"q/1",""#,
            ONE_NAME,
            r#"","there"
"p/1",""#,
            ONE_NAME,
            r#"","there"
"#,
        ],
        made: &[File(ONE_PATH, ONE_NEW)],
        ..EMPTY
    },
];

/// An output that is there from another run.
pub static AGAIN: [Row; 6] = [
    Row {
        name: "the same output",
        words: "dcmdeid +ru +k key +c +pi +r in out",
        before: &[
            Plain(b"key", KEY),
            File(b"in/a", PATIENT),
            File(b"out/1.2.3/1.2.4/1.2.5.dcm", PATIENT_NAMED),
        ],
        output: &[
            HEADER,
            r#""a","1.2.3/1.2.4/1.2.5.dcm","there"
"#,
        ],
        ..EMPTY
    },
    Row {
        name: "by another key",
        words: "dcmdeid +ru +k key +c +pi +r in out",
        before: &[
            Plain(b"key", KEY),
            File(b"in/a", PATIENT),
            Set(
                b"out/1.2.3/1.2.4/1.2.5.dcm",
                &[
                    INSTANCE,
                    NO_DATE,
                    b"\x10\0 \0LO\x16\0P71104a958432d0c32b96 ",
                    REMOVED,
                    METHOD,
                    PROFILE_UIDS,
                    STUDY,
                    SERIES,
                    DATES_REMOVED,
                ],
            ),
        ],
        output: &[
            HEADER,
            r#""a","1.2.3/1.2.4/1.2.5.dcm","taken"
"#,
        ],
        told: b"dcmtools: a: output is there already\n",
        status: 4,
        ..EMPTY
    },
    Row {
        name: "by other options",
        words: "dcmdeid +ru +k key +c +pi +r in out",
        before: &[
            Plain(b"key", KEY),
            File(b"in/a", PATIENT),
            File(b"out/1.2.3/1.2.4/1.2.5.dcm", PATIENT_MOVED),
        ],
        output: &[
            HEADER,
            r#""a","1.2.3/1.2.4/1.2.5.dcm","taken"
"#,
        ],
        told: b"dcmtools: a: output is there already\n",
        status: 4,
        ..EMPTY
    },
    Row {
        name: "one that is cut",
        words: "dcmdeid +ru +k key +c +pi +r in out",
        before: &[
            Plain(b"key", KEY),
            File(b"in/a", PATIENT),
            Set(
                b"out/1.2.3/1.2.4/1.2.5.dcm",
                &[
                    INSTANCE,
                    NO_DATE,
                    PSEUDONYM,
                    REMOVED,
                    METHOD,
                    PROFILE_UIDS,
                    STUDY,
                    SERIES,
                    b"(\0\x03\x03CS\x08\0REMOVED",
                ],
            ),
        ],
        output: &[
            HEADER,
            r#""a","1.2.3/1.2.4/1.2.5.dcm","taken"
"#,
        ],
        told: b"dcmtools: a: output is there already\n",
        status: 4,
        ..EMPTY
    },
    Row {
        name: "one that is longer",
        words: "dcmdeid +ru +k key +c +pi +r in out",
        before: &[
            Plain(b"key", KEY),
            File(b"in/a", PATIENT),
            Set(
                b"out/1.2.3/1.2.4/1.2.5.dcm",
                &[
                    INSTANCE,
                    NO_DATE,
                    PSEUDONYM,
                    REMOVED,
                    METHOD,
                    PROFILE_UIDS,
                    STUDY,
                    SERIES,
                    DATES_REMOVED,
                    b"\0",
                ],
            ),
        ],
        output: &[
            HEADER,
            r#""a","1.2.3/1.2.4/1.2.5.dcm","taken"
"#,
        ],
        told: b"dcmtools: a: output is there already\n",
        status: 4,
        ..EMPTY
    },
    Row {
        name: "a folder in its place",
        words: "dcmdeid +ru +k key +c +pi +r in out",
        before: &[
            Plain(b"key", KEY),
            File(b"in/a", PATIENT),
            Folder(b"out/1.2.3/1.2.4/1.2.5.dcm"),
        ],
        output: &[
            HEADER,
            r#""a",,"unwritten"
"#,
        ],
        told: b"dcmtools: a: output cannot be opened\n",
        status: 4,
        ..EMPTY
    },
];
