// Rows of runs in which a device fails.
use super::bytes::{CONVERTED, GOOD, KEY, OTHER, PATIENT, PATIENT_NAMED};
use super::rows::Entry::{Broken, File, Folder, Plain};
use super::rows::{EMPTY, HEADER, Row};
use dcm_test_trees::{SOUND, TreeDevices};

/// What is read fails.
pub static INPUTS: [Row; 11] = [
    Row {
        name: "a file that cannot be opened",
        words: "dcmconv +r in out",
        before: &[File(b"in/a", GOOD), File(b"in/x/b", OTHER)],
        devices: TreeDevices {
            locked: "in/a",
            ..SOUND
        },
        output: &[
            HEADER,
            r#""a",,"unread"
"x/b","x/b","written"
"#,
        ],
        told: b"dcmtools: a: input cannot be opened\n",
        status: 4,
        made: &[File(b"out/x/b", CONVERTED)],
        ..EMPTY
    },
    Row {
        name: "a file whose reading fails",
        words: "dcmconv +r in out",
        before: &[Broken(b"in/a"), File(b"in/x/b", OTHER)],
        output: &[
            HEADER,
            r#""a",,"unread"
"x/b","x/b","written"
"#,
        ],
        told: b"dcmtools: a: reading failed after 0 bytes\n",
        status: 4,
        made: &[File(b"out/x/b", CONVERTED)],
        ..EMPTY
    },
    Row {
        name: "a file whose reading fails, of an instance",
        words: "dcmdeid +r in out",
        before: &[Broken(b"in/a")],
        output: &[
            HEADER,
            r#""a",,"unread"
"#,
        ],
        told: b"dcmtools: a: reading failed after 0 bytes\n",
        status: 4,
        made: &[Folder(b"out")],
        ..EMPTY
    },
    Row {
        name: "a folder that cannot be opened",
        words: "dcmconv +r in out",
        before: &[File(b"in/x/b", OTHER), File(b"in/a", GOOD)],
        devices: TreeDevices {
            locked: "in/x",
            ..SOUND
        },
        output: &[
            HEADER,
            r#""x",,"unread"
"a","a","written"
"#,
        ],
        told: b"dcmtools: x: folder cannot be read\n",
        status: 4,
        made: &[File(b"out/a", GOOD)],
        ..EMPTY
    },
    Row {
        name: "a folder that cannot be listed to its end",
        words: "dcmconv +r in out",
        before: &[File(b"in/x/b", OTHER), File(b"in/a", GOOD)],
        devices: TreeDevices {
            unlisted: "in/x",
            ..SOUND
        },
        output: &[
            HEADER,
            r#""x/b","x/b","written"
"x",,"unread"
"a","a","written"
"#,
        ],
        told: b"dcmtools: x: folder cannot be read\n",
        status: 4,
        made: &[File(b"out/x/b", CONVERTED), File(b"out/a", GOOD)],
        ..EMPTY
    },
    Row {
        name: "the first folder cannot be listed to its end",
        words: "dcmconv +r in out",
        before: &[File(b"in/a", GOOD)],
        devices: TreeDevices {
            unlisted: "in/.",
            ..SOUND
        },
        output: &[
            HEADER,
            r#""a","a","written"
".",,"unread"
"#,
        ],
        told: b"dcmtools: .: folder cannot be read\n",
        status: 4,
        made: &[File(b"out/a", GOOD)],
        ..EMPTY
    },
    Row {
        name: "a file whose closing fails",
        words: "dcmconv +r in out",
        before: &[File(b"in/b", OTHER), File(b"in/a", GOOD)],
        devices: TreeDevices {
            closings: 1,
            ..SOUND
        },
        output: &[
            HEADER,
            r#""b","b","written"
"a",,"unwritten"
"#,
        ],
        told: b"dcmtools: a: output failed\n",
        status: 4,
        made: &[File(b"out/b", CONVERTED)],
        ..EMPTY
    },
    Row {
        name: "a file at fault, whose closing fails",
        words: "dcmconv +r in out",
        before: &[Plain(b"in/a", b"no")],
        devices: TreeDevices {
            closings: 0,
            ..SOUND
        },
        output: &[
            HEADER,
            r#""a",,"refused"
"#,
        ],
        told: b"dcmtools: a: R1 at byte 2: input ends too early\n",
        status: 2,
        made: &[Folder(b"out")],
        ..EMPTY
    },
    Row {
        name: "a file that an instance names, whose closing fails",
        words: "dcmdeid +ru +k key +pi +r in out",
        before: &[Plain(b"key", KEY), File(b"in/a", PATIENT)],
        devices: TreeDevices {
            closings: 0,
            ..SOUND
        },
        output: &[
            HEADER,
            r#""a",,"unwritten"
"#,
        ],
        told: b"dcmtools: a: output failed\n",
        status: 4,
        made: &[Folder(b"out")],
        ..EMPTY
    },
    Row {
        name: "the first folder cannot be opened",
        words: "dcmconv +r in out",
        before: &[File(b"in/a", GOOD)],
        devices: TreeDevices {
            locked: "in/.",
            ..SOUND
        },
        told: b"dcmtools: input cannot be opened\n",
        status: 4,
        ..EMPTY
    },
    Row {
        name: "one of several files cannot be opened",
        words: "dcmdump a b",
        before: &[File(b"a", GOOD), Plain(b"b", b"no")],
        devices: TreeDevices {
            locked: "a",
            ..SOUND
        },
        output: &["# dcmdump (2/2): b\n\n"],
        told: b"dcmtools: a: input cannot be opened\n\
dcmtools: b: R1 at byte 2: input ends too early\n",
        status: 4,
        ..EMPTY
    },
];

/// What a run begins with fails, and what it makes.
pub static OUTPUTS: [Row; 6] = [
    Row {
        name: "a list that cannot be opened",
        words: "dcmconv +r @list out",
        before: &[File(b"in/a", GOOD), Plain(b"list", b"in/a\n")],
        devices: TreeDevices {
            locked: "list",
            ..SOUND
        },
        told: b"dcmtools: list: input cannot be opened\n",
        status: 4,
        ..EMPTY
    },
    Row {
        name: "a key that cannot be opened",
        words: "dcmdeid +k key +r in out",
        before: &[File(b"in/a", GOOD), Plain(b"key", KEY)],
        devices: TreeDevices {
            locked: "key",
            ..SOUND
        },
        told: b"dcmtools: key cannot be opened\n",
        status: 4,
        ..EMPTY
    },
    Row {
        name: "an output that cannot be opened",
        words: "dcmconv +r in out",
        before: &[File(b"in/a", GOOD), Folder(b"out")],
        devices: TreeDevices {
            locked: "out/.",
            ..SOUND
        },
        told: b"dcmtools: output cannot be opened\n",
        status: 4,
        ..EMPTY
    },
    Row {
        name: "an output that cannot be listed",
        words: "dcmconv +r in out",
        before: &[File(b"in/a", GOOD), Folder(b"out")],
        devices: TreeDevices {
            unlisted: "out/.",
            ..SOUND
        },
        told: b"dcmtools: output cannot be opened\n",
        status: 4,
        ..EMPTY
    },
    Row {
        name: "an output of another run that cannot be opened",
        words: "dcmdeid +ru +k key +c +pi +r in out",
        before: &[
            Plain(b"key", KEY),
            File(b"in/a", PATIENT),
            File(b"out/1.2.3/1.2.4/1.2.5.dcm", PATIENT_NAMED),
        ],
        devices: TreeDevices {
            locked: "out/1.2.3/1.2.4/1.2.5.dcm",
            ..SOUND
        },
        output: &[
            HEADER,
            r#""a","1.2.3/1.2.4/1.2.5.dcm","taken"
"#,
        ],
        told: b"dcmtools: a: output is there already\n",
        status: 4,
        ..EMPTY
    },
    Row {
        name: "a part of another run that comes later",
        words: "dcmconv +r in out",
        before: &[
            File(b"in/a", GOOD),
            File(b"in/b", GOOD),
            File(b"in/c", GOOD),
        ],
        devices: TreeDevices { files: 1, ..SOUND },
        output: &[
            HEADER,
            r#""a","a","written"
"#,
        ],
        told: b"dcmtools: .part.1: another run is at work\n",
        status: 4,
        made: &[File(b"out/a", GOOD), Plain(b"out/.part.1", b"")],
        ..EMPTY
    },
];
