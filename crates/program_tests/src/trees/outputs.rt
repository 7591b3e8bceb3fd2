// Rows of outputs that have the names of their files.
use super::bytes::{CUT, GOOD, OTHER, TEXT};
use super::rows::Entry::{File, FileOfMode, Folder, FolderOfMode, Link, Plain, Set};
use super::rows::{Bytes, EMPTY, HEADER, Row};
use dcm_test_devices::Start;
use dcm_test_trees::{SOUND, TreeDevices};

/// Files at any depth, modes, and files at fault.
pub static OUTPUTS: [Row; 8] = [
    Row {
        name: "files at any depth",
        words: "dcmconv +r in out",
        before: &[
            File(b"in/a", GOOD),
            File(b"in/x/b", OTHER),
            FileOfMode(b"in/x/y/c", GOOD, 0o400),
            Folder(b"in/empty"),
        ],
        output: &[
            HEADER,
            r#""a","a","written"
"x/b","x/b","written"
"x/y/c","x/y/c","written"
"#,
        ],
        made: &[
            File(b"out/a", GOOD),
            File(b"out/x/b", OTHER),
            FileOfMode(b"out/x/y/c", GOOD, 0o400),
        ],
        ..EMPTY
    },
    Row {
        name: "options among the paths, no header",
        words: "dcmconv in +dict +r out/ +te +nh",
        before: &[FileOfMode(b"in/a", OTHER, 0o4666), Folder(b"out")],
        output: &[
            r#""a","a","written"
"#,
        ],
        made: &[Set(b"out/a", &[b"\x10\0\x10\0PN\x04\0E^F "])],
        ..EMPTY
    },
    Row {
        name: "bits that a mode does not get",
        words: "dcmconv +r in out",
        before: &[
            FileOfMode(b"in/a", GOOD, 0o777),
            File(b"in/b", GOOD),
            FileOfMode(b"in/c", GOOD, 0o440),
        ],
        devices: TreeDevices {
            umask: 0o77,
            ..SOUND
        },
        output: &[
            HEADER,
            r#""a","a","written"
"b","b","written"
"c","c","written"
"#,
        ],
        made: &[
            FolderOfMode(b"out", 0o700),
            FileOfMode(b"out/a", GOOD, 0o700),
            FileOfMode(b"out/b", GOOD, 0o600),
            FileOfMode(b"out/c", GOOD, 0o400),
        ],
        ..EMPTY
    },
    Row {
        name: "all bits of a mode but those above 777",
        words: "dcmconv +r in out",
        before: &[
            FileOfMode(b"in/a", GOOD, 0o1777),
            FileOfMode(b"in/b", GOOD, 0o666),
        ],
        devices: TreeDevices {
            umask: 0o0,
            ..SOUND
        },
        output: &[
            HEADER,
            r#""a","a","written"
"b","b","written"
"#,
        ],
        made: &[
            FileOfMode(b"out/a", GOOD, 0o777),
            FileOfMode(b"out/b", GOOD, 0o666),
        ],
        ..EMPTY
    },
    Row {
        name: "files at fault",
        words: "dcmconv +r in out",
        before: &[
            File(b"in/a", GOOD),
            File(b"in/x/b", OTHER),
            File(b"in/z/cut", CUT),
            File(b"in/t", TEXT),
        ],
        output: &[
            HEADER,
            r#""a","a","written"
"x/b","x/b","written"
"z/cut",,"refused"
"t",,"refused"
"#,
        ],
        told: b"dcmtools: z/cut: R1 at byte 185: input ends too early\n\
dcmtools: t: R2 at byte 128: no DICM prefix\n",
        status: 2,
        made: &[File(b"out/a", GOOD), File(b"out/x/b", OTHER)],
        ..EMPTY
    },
    Row {
        name: "edits that find no place",
        words: "dcmodify -m PatientID=7 +r -ea PatientName +part 1/1 -m Rows=2 in out",
        before: &[
            File(b"in/a", GOOD),
            File(b"in/x/b", OTHER),
            File(b"in/cut", CUT),
        ],
        output: &[
            HEADER,
            r#""a","a","unplaced"
"x/b","x/b","unplaced"
"cut",,"refused"
"#,
        ],
        told: b"dcmtools: a: edit 1 found no place\n\
dcmtools: a: edit 3 found no place\n\
dcmtools: x/b: edit 1 found no place\n\
dcmtools: x/b: edit 3 found no place\n\
dcmtools: cut: R1 at byte 185: input ends too early\n",
        status: 3,
        made: &[
            Set(b"out/a", &[]),
            File(
                b"out/x/b",
                Bytes {
                    start: Start::Implicit,
                    rest: &[],
                },
            ),
        ],
        ..EMPTY
    },
    Row {
        name: "what is there stays",
        words: "dcmconv +c +r in out",
        before: &[
            File(b"in/a", GOOD),
            File(b"in/x/b", OTHER),
            File(b"in/cut", CUT),
            FileOfMode(
                b"out/a",
                Bytes {
                    start: Start::Nothing,
                    rest: &[b"old"],
                },
                0o600,
            ),
            Plain(b"out/cut", b"old"),
            Plain(b"out/own", b"o"),
        ],
        output: &[
            HEADER,
            r#""a","a","there"
"x/b","x/b","written"
"cut","cut","there"
"#,
        ],
        made: &[File(b"out/x/b", OTHER)],
        ..EMPTY
    },
    Row {
        name: "what is in the way",
        words: "dcmconv +c +r in out",
        before: &[
            File(b"in/a", GOOD),
            File(b"in/b/c", GOOD),
            File(b"in/d/e", GOOD),
            File(b"in/f", GOOD),
            File(b"in/g", GOOD),
            Plain(b"elsewhere/e", b"old"),
            Plain(b"out/a/own", b"o"),
            Plain(b"out/b", b"o"),
            Link(b"out/d", b"../elsewhere"),
            Link(b"out/f", b"gone"),
        ],
        output: &[
            HEADER,
            r#""a",,"unwritten"
"b/c",,"unwritten"
"d/e",,"unwritten"
"f",,"unwritten"
"g","g","written"
"#,
        ],
        told: b"dcmtools: a: output cannot be opened\n\
dcmtools: b/c: output cannot be opened\n\
dcmtools: d/e: output cannot be opened\n\
dcmtools: f: output cannot be opened\n",
        status: 4,
        made: &[File(b"out/g", GOOD)],
        ..EMPTY
    },
];
