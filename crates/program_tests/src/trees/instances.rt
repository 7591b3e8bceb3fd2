// Rows of outputs that have the names of the instances in them.
use super::bytes::{
    BURNED_IN, DATES_REMOVED, INSTANCE, KEY, LONG_STUDY, METHOD, NEW_INSTANCE, NEW_OTHER_INSTANCE,
    NEW_SERIES, NEW_STUDY, ONE, ONE_NAME, ONE_NEW, ONE_PATH, PROFILE, PROFILE_UIDS, REMOVED,
    SERIES, SHOWN, STANDARD_STUDY, STUDY, TWO, TWO_NAME, TWO_NEW, TWO_PATH,
};
use super::rows::Entry::{Deidentified, File, FileOfMode, Folder, Plain, Set};
use super::rows::{EMPTY, HEADER, Row};

/// Names by unique identifiers, and files that have none.
pub static INSTANCES: [Row; 7] = [
    Row {
        name: "names by the key",
        words: "dcmdeid +k key +r in out",
        before: &[
            Plain(b"key", KEY),
            FileOfMode(b"in/Doe/1", ONE, 0o640),
            File(b"in/Doe/2", TWO),
        ],
        output: &[
            HEADER,
            r#""Doe/1",""#,
            ONE_NAME,
            r#"","written"
"Doe/2",""#,
            TWO_NAME,
            r#"","written"
"#,
        ],
        made: &[
            FileOfMode(ONE_PATH, ONE_NEW, 0o640),
            File(TWO_PATH, TWO_NEW),
        ],
        ..EMPTY
    },
    Row {
        name: "identifiers of the standard stay",
        words: "dcmdeid in out +r",
        before: &[Set(
            b"in/a",
            &[
                INSTANCE,
                STANDARD_STUDY,
                b" \0\x0e\0UI\x10\x001.2.840.10008.8 ",
            ],
        )],
        output: &[
            HEADER,
            r#""a","1.2.840.10008.7/1.2.840.10008.8/2.25.17571007554823205754987987502969510290.dcm","written"
"#,
        ],
        made: &[Deidentified(
            b"out/1.2.840.10008.7/1.2.840.10008.8/2.25.17571007554823205754987987502969510290.dcm",
            &[
                b"\x08\0\x18\0UI,\x002.25.17571007554823205754987987502969510290\0",
                REMOVED,
                METHOD,
                PROFILE,
                STANDARD_STUDY,
                b" \0\x0e\0UI\x10\x001.2.840.10008.8\0",
                DATES_REMOVED,
            ],
        )],
        ..EMPTY
    },
    Row {
        name: "names are kept",
        words: "dcmdeid +kn +k key +r in out",
        before: &[
            Plain(b"key", KEY),
            File(b"in/Doe/1", ONE),
            Set(b"in/2", &[INSTANCE, SERIES]),
        ],
        output: &[
            HEADER,
            r#""Doe/1","Doe/1","written"
"2","2","written"
"#,
        ],
        made: &[
            File(b"out/Doe/1", ONE_NEW),
            Deidentified(
                b"out/2",
                &[
                    NEW_INSTANCE,
                    REMOVED,
                    METHOD,
                    PROFILE,
                    NEW_SERIES,
                    DATES_REMOVED,
                ],
            ),
        ],
        ..EMPTY
    },
    Row {
        name: "identifiers are kept, and some are unfit",
        words: "dcmdeid +r +ru in out",
        before: &[
            Set(
                b"in/a",
                &[
                    b"\x08\0\x18\0UI\x01\x001",
                    LONG_STUDY,
                    b" \0\x0e\0UI\x04\0..\0 ",
                ],
            ),
            Set(
                b"in/b",
                &[
                    b"\x08\0\x18\0UI\x04\x007\0\0 ",
                    LONG_STUDY,
                    b" \0\x0e\0UI\x03\0...",
                ],
            ),
            Set(
                b"in/c",
                &[
                    INSTANCE,
                    b" \0\x0d\0UIB\x001.2222222222222222222222222222222222222222222222222222222222222222",
                    SERIES,
                ],
            ),
            Set(b"in/d", &[INSTANCE, b" \0\x0d\0UI\x06\x001.2/3 ", SERIES]),
            Set(b"in/e", &[INSTANCE, b" \0\x0d\0UI\x06\x001.2\\3 ", SERIES]),
        ],
        output: &[
            HEADER,
            r#""a",,"unnamed"
"b","1.22222222222222222222222222222222222222222222222222222222222222/.../7.dcm","written"
"c",,"unnamed"
"d",,"unnamed"
"e",,"unnamed"
"#,
        ],
        told: b"dcmtools: a: SeriesInstanceUID is missing or unfit\n\
dcmtools: c: StudyInstanceUID is missing or unfit\n\
dcmtools: d: StudyInstanceUID is missing or unfit\n\
dcmtools: e: StudyInstanceUID is missing or unfit\n",
        status: 2,
        made: &[Deidentified(
            b"out/1.22222222222222222222222222222222222222222222222222222222222222/.../7.dcm",
            &[
                b"\x08\0\x18\0UI\x04\x007\0\0 ",
                REMOVED,
                METHOD,
                PROFILE_UIDS,
                LONG_STUDY,
                b" \0\x0e\0UI\x04\0...\0",
                DATES_REMOVED,
            ],
        )],
        ..EMPTY
    },
    Row {
        name: "identifiers are missing",
        words: "dcmdeid +r in out",
        before: &[
            Set(b"in/a", &[STUDY, SERIES]),
            Set(b"in/b", &[INSTANCE, b" \0\x0d\0UI\0\0"]),
            Set(b"in/c", &[b"\x08\0\x18\0SQ\0\0\0\0\0\0", STUDY, SERIES]),
            Set(b"in/d", &[INSTANCE, b" \0\x0d\0UI\x06\x001.2."]),
        ],
        output: &[
            HEADER,
            r#""a",,"unnamed"
"b",,"unnamed"
"c",,"unnamed"
"d",,"refused"
"#,
        ],
        told: b"dcmtools: a: SOPInstanceUID is missing or unfit\n\
dcmtools: b: StudyInstanceUID is missing or unfit\n\
dcmtools: c: SOPInstanceUID is missing or unfit\n\
dcmtools: d: R1 at byte 198: input ends too early\n",
        status: 2,
        made: &[Folder(b"out")],
        ..EMPTY
    },
    Row {
        name: "pixels show who it is",
        words: "dcmdeid +k key +r in out",
        before: &[Plain(b"key", KEY), File(b"in/1", ONE), File(b"in/2", SHOWN)],
        output: &[
            HEADER,
            r#""1",""#,
            ONE_NAME,
            r#"","written"
"2",,"pixels"
"#,
        ],
        told: b"dcmtools: 2: pixels may show identity\n",
        status: 3,
        made: &[File(ONE_PATH, ONE_NEW)],
        ..EMPTY
    },
    Row {
        name: "pixels that are let through",
        words: "dcmdeid +bi +k key +r in out",
        before: &[Plain(b"key", KEY), File(b"in/2", SHOWN)],
        output: &[
            HEADER,
            r#""2",""#,
            TWO_NAME,
            r#"","written"
"#,
        ],
        made: &[Deidentified(
            TWO_PATH,
            &[
                NEW_OTHER_INSTANCE,
                REMOVED,
                METHOD,
                PROFILE,
                NEW_STUDY,
                NEW_SERIES,
                BURNED_IN,
                DATES_REMOVED,
            ],
        )],
        ..EMPTY
    },
];
