// Rows of pseudonyms, and of days that are moved.
use super::bytes::{
    BURNED_IN, DATE, DATES_MODIFIED, INSTANCE, KEY, METHOD, ONE, PATIENT, PATIENT_ID,
    PATIENT_MOVED, PATIENT_MOVED_BY_KEY, PATIENT_NAMED, PROFILE_DATES_UIDS, REMOVED, SERIES, STUDY,
};
use super::rows::Entry::{Deidentified, File, Plain, Set};
use super::rows::{EMPTY, HEADER, Row};

/// Pseudonyms, and days that are moved.
pub static MOVED: [Row; 5] = [
    Row {
        name: "a pseudonym",
        words: "dcmdeid +pi +ru +k key +r in out",
        before: &[Plain(b"key", KEY), File(b"in/a", PATIENT)],
        output: &[
            HEADER,
            r#""a","1.2.3/1.2.4/1.2.5.dcm","written"
"#,
        ],
        made: &[File(b"out/1.2.3/1.2.4/1.2.5.dcm", PATIENT_NAMED)],
        ..EMPTY
    },
    Row {
        name: "days moved by a number",
        words: "dcmdeid +rm 0030 in +kn +ru +r +k key out",
        before: &[
            Plain(b"key", KEY),
            File(b"in/a", PATIENT),
            File(b"in/b", ONE),
        ],
        output: &[
            HEADER,
            r#""a","a","written"
"b","b","written"
"#,
        ],
        made: &[
            File(b"out/a", PATIENT_MOVED),
            Deidentified(
                b"out/b",
                &[
                    INSTANCE,
                    REMOVED,
                    METHOD,
                    PROFILE_DATES_UIDS,
                    STUDY,
                    SERIES,
                    DATES_MODIFIED,
                ],
            ),
        ],
        ..EMPTY
    },
    Row {
        name: "dates that vanish",
        words: "dcmdeid +rm 1 +kn +ru +r in out",
        before: &[
            Set(
                b"in/a",
                &[
                    INSTANCE,
                    b"\x08\0 \0DA\x06\0TODAY ",
                    b"\x08\0!\0DA\x08\x0020230229",
                    STUDY,
                    SERIES,
                ],
            ),
            Set(
                b"in/b",
                &[
                    INSTANCE,
                    b"\x08\0 \0DA\x06\0TODAY ",
                    STUDY,
                    SERIES,
                    BURNED_IN,
                ],
            ),
            Set(
                b"in/c",
                &[
                    INSTANCE,
                    b"\x08\0 \0DA\x06\0TODAY ",
                    b"\x08\0!\0DA\x08\x00202302",
                ],
            ),
        ],
        output: &[
            HEADER,
            r#""a","a","written"
"b",,"pixels"
"c",,"refused"
"#,
        ],
        told: b"dcmtools: a: 2 dates are emptied\n\
dcmtools: b: 1 dates are emptied\n\
dcmtools: b: pixels may show identity\n\
dcmtools: c: 1 dates are emptied\n\
dcmtools: c: R1 at byte 214: input ends too early\n",
        status: 3,
        made: &[Deidentified(
            b"out/a",
            &[
                INSTANCE,
                b"\x08\0 \0DA\0\0",
                b"\x08\0!\0DA\0\0",
                REMOVED,
                METHOD,
                PROFILE_DATES_UIDS,
                STUDY,
                SERIES,
                DATES_MODIFIED,
            ],
        )],
        ..EMPTY
    },
    Row {
        name: "days moved by the key",
        words: "dcmdeid +k key +ru +rl +rm key +r in out",
        before: &[
            Plain(b"key", KEY),
            File(b"in/a", PATIENT),
            File(b"in/b", ONE),
            Set(
                b"in/c",
                &[
                    INSTANCE,
                    DATE,
                    PATIENT_ID,
                    STUDY,
                    b" \0\x0e\0UI\x06\x001.2.4",
                ],
            ),
            Set(b"in/d", &[INSTANCE, b"\x08\0 \0DA\x08\x00202401"]),
        ],
        output: &[
            HEADER,
            r#""a","1.2.3/1.2.4/1.2.5.dcm","written"
"b",,"refused"
"c",,"refused"
"d",,"refused"
"#,
        ],
        told: b"dcmtools: b: R17 at byte 186: no usable PatientID\n\
dcmtools: c: R1 at byte 239: input ends too early\n\
dcmtools: d: R1 at byte 200: input ends too early\n",
        status: 2,
        made: &[File(b"out/1.2.3/1.2.4/1.2.5.dcm", PATIENT_MOVED_BY_KEY)],
        ..EMPTY
    },
    Row {
        name: "days moved by the key, where something is there",
        words: "dcmdeid +c +kn +k key +ru +r in out +rm key",
        before: &[
            Plain(b"key", KEY),
            File(b"in/a", ONE),
            File(b"in/b", ONE),
            File(b"in/c", PATIENT),
            Plain(b"out/a", b"old"),
        ],
        output: &[
            HEADER,
            r#""a","a","there"
"b",,"refused"
"c","c","written"
"#,
        ],
        told: b"dcmtools: b: R17 at byte 186: no usable PatientID\n",
        status: 2,
        made: &[File(b"out/c", PATIENT_MOVED_BY_KEY)],
        ..EMPTY
    },
];
