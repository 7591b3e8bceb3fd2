// Rows of the modes of folders that are made.
use super::bytes::{GOOD, KEY, ONE, ONE_NAME, ONE_NEW, ONE_PATH, OTHER};
use super::rows::Entry::{File, FileOfMode, FolderOfMode, Link, Plain};
use super::rows::{EMPTY, HEADER, Row};
use dcm_test_trees::{SOUND, TreeDevices};

/// The folder of the study of `ONE_PATH`.
const STUDY_PATH: &[u8] = b"out/2.25.138317902728335365291811827072007666650";

/// That of its series.
const SERIES_PATH: &[u8] = b"out/2.25.138317902728335365291811827072007666650/\
2.25.121472145263479711491759604955092141389";

/// Folders that are made like those that are read, and others.
pub static MODES: [Row; 10] = [
    Row {
        name: "the modes of the folders of the same names",
        words: "dcmconv +r in out",
        before: &[
            FolderOfMode(b"in", 0o700),
            FolderOfMode(b"in/x", 0o750),
            FolderOfMode(b"in/x/y", 0o500),
            File(b"in/x/y/a", GOOD),
            FolderOfMode(b"in/z", 0o777),
            File(b"in/z/a", OTHER),
        ],
        output: &[
            HEADER,
            r#""x/y/a","x/y/a","written"
"z/a","z/a","written"
"#,
        ],
        made: &[
            FolderOfMode(b"out", 0o700),
            FolderOfMode(b"out/x", 0o750),
            FolderOfMode(b"out/x/y", 0o700),
            File(b"out/x/y/a", GOOD),
            File(b"out/z/a", OTHER),
        ],
        ..EMPTY
    },
    Row {
        name: "bits that a mode of a folder does not get",
        words: "dcmconv +r in out",
        before: &[
            FolderOfMode(b"in/x", 0o750),
            FolderOfMode(b"in/x/y", 0o70),
            File(b"in/x/y/a", GOOD),
        ],
        devices: TreeDevices {
            umask: 0o27,
            ..SOUND
        },
        output: &[
            HEADER,
            r#""x/y/a","x/y/a","written"
"#,
        ],
        made: &[
            FolderOfMode(b"out", 0o750),
            FolderOfMode(b"out/x", 0o750),
            FolderOfMode(b"out/x/y", 0o750),
            FileOfMode(b"out/x/y/a", GOOD, 0o640),
        ],
        ..EMPTY
    },
    Row {
        name: "all bits of a mode of a folder but those above 777",
        words: "dcmconv +r in out",
        before: &[
            FolderOfMode(b"in", 0o1777),
            FolderOfMode(b"in/x", 0o2755),
            File(b"in/x/a", GOOD),
        ],
        devices: TreeDevices {
            umask: 0o0,
            ..SOUND
        },
        output: &[
            HEADER,
            r#""x/a","x/a","written"
"#,
        ],
        made: &[
            FolderOfMode(b"out", 0o777),
            FolderOfMode(b"out/x", 0o755),
            File(b"out/x/a", GOOD),
        ],
        ..EMPTY
    },
    Row {
        name: "by identifiers all folders have the mode of one",
        words: "dcmdeid +k key +r in out",
        before: &[
            Plain(b"key", KEY),
            FolderOfMode(b"in", 0o510),
            FolderOfMode(b"in/Doe", 0o755),
            File(b"in/Doe/1", ONE),
        ],
        output: &[
            HEADER,
            r#""Doe/1",""#,
            ONE_NAME,
            r#"","written"
"#,
        ],
        made: &[
            FolderOfMode(b"out", 0o710),
            FolderOfMode(STUDY_PATH, 0o710),
            FolderOfMode(SERIES_PATH, 0o710),
            File(ONE_PATH, ONE_NEW),
        ],
        ..EMPTY
    },
    Row {
        name: "of a list no folder has the mode of another",
        words: "dcmconv +r @list out",
        before: &[
            Plain(b"list", b"x/a\n"),
            FolderOfMode(b"x", 0o700),
            File(b"x/a", GOOD),
        ],
        devices: TreeDevices {
            umask: 0o2,
            ..SOUND
        },
        output: &[
            HEADER,
            r#""x/a","x/a","written"
"#,
        ],
        made: &[
            FolderOfMode(b"out", 0o775),
            FolderOfMode(b"out/x", 0o775),
            File(b"out/x/a", GOOD),
        ],
        ..EMPTY
    },
    Row {
        name: "folders that are there keep their modes",
        words: "dcmconv +r +c in out",
        before: &[
            FolderOfMode(b"in", 0o700),
            FolderOfMode(b"in/x", 0o700),
            File(b"in/x/a", GOOD),
            FolderOfMode(b"out", 0o750),
            FolderOfMode(b"out/x", 0o711),
        ],
        devices: TreeDevices {
            unseen: b"in/x",
            ..SOUND
        },
        output: &[
            HEADER,
            r#""x/a","x/a","written"
"#,
        ],
        made: &[File(b"out/x/a", GOOD)],
        ..EMPTY
    },
    Row {
        name: "the mode of the folder that a link leads to",
        words: "dcmconv +r in out",
        before: &[
            FolderOfMode(b"there", 0o700),
            FolderOfMode(b"there/x", 0o710),
            File(b"there/x/a", GOOD),
            Link(b"in", b"there"),
        ],
        output: &[
            HEADER,
            r#""x/a","x/a","written"
"#,
        ],
        made: &[
            FolderOfMode(b"out", 0o700),
            FolderOfMode(b"out/x", 0o710),
            File(b"out/x/a", GOOD),
        ],
        ..EMPTY
    },
    Row {
        name: "a mode that cannot be looked at",
        words: "dcmconv +r in out",
        before: &[File(b"in/a", GOOD)],
        devices: TreeDevices {
            unseen: b"in",
            ..SOUND
        },
        told: b"dcmtools: output cannot be opened\n",
        status: 4,
        ..EMPTY
    },
    Row {
        name: "that of a folder in it",
        words: "dcmconv +r in out",
        before: &[File(b"in/x/a", GOOD), File(b"in/b", OTHER)],
        devices: TreeDevices {
            unseen: b"in/x",
            ..SOUND
        },
        output: &[
            HEADER,
            r#""x/a",,"unwritten"
"b","b","written"
"#,
        ],
        told: b"dcmtools: x/a: output failed\n",
        status: 4,
        made: &[File(b"out/b", OTHER)],
        ..EMPTY
    },
    Row {
        name: "that of one for all folders",
        words: "dcmdeid +k key +r in out",
        before: &[
            Plain(b"key", KEY),
            File(b"in/Doe/1", ONE),
            FolderOfMode(b"out", 0o755),
        ],
        devices: TreeDevices {
            unseen: b"in",
            ..SOUND
        },
        output: &[
            HEADER,
            r#""Doe/1",,"unwritten"
"#,
        ],
        told: b"dcmtools: Doe/1: output failed\n",
        status: 4,
        ..EMPTY
    },
];
