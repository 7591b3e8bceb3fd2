// Rows of folders that lie within one another, and of parts of other runs.
use super::bytes::{GOOD, KEY, OTHER};
use super::rows::Entry::{File, Folder, Link, Plain};
use super::rows::{EMPTY, HEADER, Row};
use dcm_test_trees::{SOUND, TreeDevices};

/// Folders that are one, or lie within one another.
pub static APART: [Row; 6] = [
    Row {
        name: "one folder",
        words: "dcmconv +c +r in ./in",
        before: &[File(b"in/a", GOOD), File(b"in/x/b", OTHER)],
        told: b"dcmtools: output is the input\n",
        status: 4,
        ..EMPTY
    },
    Row {
        name: "an output within the input",
        words: "dcmconv +r in in/x/new",
        before: &[File(b"in/a", GOOD), File(b"in/x/b", OTHER)],
        told: b"dcmtools: output is within the input\n",
        status: 4,
        ..EMPTY
    },
    Row {
        name: "an input within the output",
        words: "dcmconv +c +r in/x in",
        before: &[File(b"in/a", GOOD), File(b"in/x/b", OTHER)],
        told: b"dcmtools: input is within the output\n",
        status: 4,
        ..EMPTY
    },
    Row {
        name: "an input within the output, by a link",
        words: "dcmconv +c +r l in",
        before: &[
            File(b"in/a", GOOD),
            File(b"in/x/b", OTHER),
            Link(b"l", b"in/x"),
        ],
        told: b"dcmtools: input is within the output\n",
        status: 4,
        ..EMPTY
    },
    Row {
        name: "the current folder and a list",
        words: "dcmconv +c +r @l .",
        before: &[
            File(b"in/a", GOOD),
            File(b"in/x/b", OTHER),
            Plain(b"l", b"in/a\n"),
        ],
        told: b"dcmtools: output is the input\n",
        status: 4,
        ..EMPTY
    },
    Row {
        name: "links to folders",
        words: "dcmconv +r folder output",
        before: &[
            File(b"in/a", GOOD),
            File(b"in/x/b", OTHER),
            Link(b"folder", b"in"),
            Folder(b"new"),
            Link(b"output", b"new"),
        ],
        output: &[
            HEADER,
            r#""a","a","written"
"x/b","x/b","written"
"#,
        ],
        made: &[File(b"new/a", GOOD), File(b"new/x/b", OTHER)],
        ..EMPTY
    },
];

/// Parts of other runs.
pub static OTHERS: [Row; 11] = [
    Row {
        name: "13 left over",
        words: "dcmconv +c +r in out",
        before: &[
            File(b"in/a", GOOD),
            File(b"in/x/b", OTHER),
            Plain(b"out/.part.1", b"half"),
        ],
        output: &[
            HEADER,
            r#""a","a","written"
"x/b","x/b","written"
"#,
        ],
        told: b"dcmtools: .part.1: left over, and removed\n",
        gone: &[b"out/.part.1"],
        made: &[File(b"out/a", GOOD), File(b"out/x/b", OTHER)],
        ..EMPTY
    },
    Row {
        name: "13 left over, without +c",
        words: "dcmconv +r in out",
        before: &[File(b"in/a", GOOD), Plain(b"out/.part.1", b"")],
        output: &[
            HEADER,
            r#""a","a","written"
"#,
        ],
        told: b"dcmtools: .part.1: left over, and removed\n",
        gone: &[b"out/.part.1"],
        made: &[File(b"out/a", GOOD)],
        ..EMPTY
    },
    Row {
        name: "13 left over, and a name",
        words: "dcmconv +r in out",
        before: &[
            File(b"in/a", GOOD),
            Plain(b"out/.part.1", b""),
            Plain(b"out/own", b"o"),
        ],
        told: b"dcmtools: .part.1: left over, and removed\ndcmtools: output is not empty\n",
        status: 4,
        gone: &[b"out/.part.1"],
        ..EMPTY
    },
    Row {
        name: "13 left over, no files",
        words: "dcmconv +c +r in out",
        before: &[Folder(b"in"), Plain(b"out/.part.1", b"")],
        output: &[HEADER],
        told: b"dcmtools: .part.1: left over, and removed\ndcmtools: input has no files\n",
        status: 4,
        gone: &[b"out/.part.1"],
        made: &[Folder(b"out")],
        ..EMPTY
    },
    Row {
        name: "13 held",
        words: "dcmconv +part 7/9 +r in out",
        before: &[
            File(b"in/a", GOOD),
            File(b"in/x/b", OTHER),
            Plain(b"out/.part.7", b""),
            Plain(b"out/a", b"o"),
        ],
        devices: TreeDevices {
            busy: "out/.part.7",
            ..SOUND
        },
        told: b"dcmtools: .part.7: another run is at work\n",
        status: 4,
        ..EMPTY
    },
    Row {
        name: "13 no locks, left over",
        words: "dcmconv +c +r in out",
        before: &[File(b"in/a", GOOD), Plain(b"out/.part.1", b"")],
        devices: TreeDevices {
            has_locks: false,
            ..SOUND
        },
        told: b"dcmtools: .part.1: another run is at work, or was cut off\n",
        status: 4,
        ..EMPTY
    },
    Row {
        name: "13 left over, no rights",
        words: "dcmconv +c +r in out",
        before: &[File(b"in/a", GOOD), Plain(b"out/.part.1", b"")],
        devices: TreeDevices {
            locked: "out/.part.1",
            ..SOUND
        },
        told: b"dcmtools: .part.1: another run is at work, or was cut off\n",
        status: 4,
        ..EMPTY
    },
    Row {
        name: "13 part is a folder",
        words: "dcmconv +c +r in out",
        before: &[File(b"in/a", GOOD), Folder(b"out/.part.1")],
        told: b"dcmtools: .part.1: another run is at work, or was cut off\n",
        status: 4,
        ..EMPTY
    },
    Row {
        name: "13 left over is KEY",
        words: "dcmdeid +c +kn +k out/.part.1 +r in out",
        before: &[File(b"in/a", GOOD), Plain(b"out/.part.1", KEY)],
        told: b"dcmtools: .part.1: another run is at work, or was cut off\n",
        status: 4,
        ..EMPTY
    },
    Row {
        name: "13 left over is LIST",
        words: "dcmconv +c +r @out/.part.1 out",
        before: &[File(b"in/a", GOOD), Plain(b"out/.part.1", b"in/a\n")],
        told: b"dcmtools: .part.1: another run is at work, or was cut off\n",
        status: 4,
        ..EMPTY
    },
    Row {
        name: "a part of another number",
        words: "dcmconv +c +r in out",
        before: &[
            File(b"in/a", GOOD),
            File(b"in/x/b", OTHER),
            Plain(b"out/.part.2", b"half"),
        ],
        output: &[
            HEADER,
            r#""a","a","written"
"x/b","x/b","written"
"#,
        ],
        made: &[File(b"out/a", GOOD), File(b"out/x/b", OTHER)],
        ..EMPTY
    },
];
