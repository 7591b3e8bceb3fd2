// Outputs whose names another process takes meanwhile.
use super::bytes::{GOOD, KEY, OTHER, PATIENT};
use super::rows::Entry::{File, Folder, Plain};
use super::rows::{EMPTY, HEADER, Row};
use dcm_test_trees::{SOUND, TreeDevices};

/// Another process makes a file at the name of an output.
const RACED: TreeDevices = TreeDevices {
    raced: "out/a",
    ..SOUND
};

pub static RACES: [Row; 5] = [
    Row {
        name: "a name that is taken meanwhile",
        words: "dcmconv +r in out",
        before: &[File(b"in/a", GOOD)],
        devices: RACED,
        output: &[HEADER, "\"a\",\"a\",\"taken\"\n"],
        told: b"dcmtools: a: output is there already\n",
        status: 4,
        made: &[Plain(b"out/a", b"x")],
        ..EMPTY
    },
    Row {
        name: "a name that is taken meanwhile, of a run that goes on",
        words: "dcmconv +c +r in out",
        before: &[File(b"in/a", GOOD)],
        devices: RACED,
        output: &[HEADER, "\"a\",\"a\",\"there\"\n"],
        made: &[Plain(b"out/a", b"x")],
        ..EMPTY
    },
    Row {
        name: "a name that is taken meanwhile, without links",
        words: "dcmconv +r in out",
        before: &[File(b"in/a", GOOD)],
        devices: TreeDevices {
            has_links: false,
            ..RACED
        },
        output: &[HEADER, "\"a\",\"a\",\"taken\"\n"],
        told: b"dcmtools: a: output is there already\n",
        status: 4,
        made: &[Plain(b"out/a", b"x")],
        ..EMPTY
    },
    Row {
        name: "names that were taken, and are free again",
        words: "dcmconv +c +r in out",
        before: &[File(b"in/b", OTHER), File(b"in/a", GOOD)],
        devices: TreeDevices {
            says_named: true,
            ..SOUND
        },
        output: &[
            HEADER,
            r#""b","b","taken"
"a","a","taken"
"#,
        ],
        told: b"dcmtools: b: output is there already\ndcmtools: a: output is there already\n",
        status: 4,
        made: &[Folder(b"out")],
        ..EMPTY
    },
    Row {
        name: "a name of an instance that is taken meanwhile",
        words: "dcmdeid +ru +k key +pi +r in out",
        before: &[Plain(b"key", KEY), File(b"in/a", PATIENT)],
        devices: TreeDevices {
            raced: "out/1.2.3/1.2.4/1.2.5.dcm",
            ..SOUND
        },
        output: &[HEADER, "\"a\",\"1.2.3/1.2.4/1.2.5.dcm\",\"taken\"\n"],
        told: b"dcmtools: a: output is there already\n",
        status: 4,
        made: &[Plain(b"out/1.2.3/1.2.4/1.2.5.dcm", b"x")],
        ..EMPTY
    },
];
