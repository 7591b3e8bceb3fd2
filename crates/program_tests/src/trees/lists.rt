// Rows of lists of names.
use super::bytes::{GOOD, OTHER};
use super::rows::Entry::{Broken, File, Folder, Link, Plain, Set};
use super::rows::{Bytes, EMPTY, HEADER, Row};
use dcm_test_devices::Start;
use dcm_test_trees::{SOUND, TreeDevices};

/// Names in lists.
pub static LISTS: [Row; 7] = [
    Row {
        name: "names that are read, and others",
        words: "dcmconv +r @list out",
        before: &[
            File(b"in/a", GOOD),
            File(b"in/x/b", OTHER),
            Link(b"l", b"in/a"),
            File(b"DICOMDIR", GOOD),
            Plain(
                b"list",
                b"in/a\n\
./in/x/b\n\
/etc/passwd\n\
../x\n\
in/../in/a\n\
in//a\n\
in/./a\n\
in/a/\n\
.\n\
./\n\
././in/a\n\
nul\0\n\
\n\
\xff\n\
l\n\
in\n\
gone\n\
in/a/b\n\
DICOMDIR\n\
out/x\n\
out\n\
.part.1\n\
in/a",
            ),
        ],
        output: &[
            HEADER,
            r#""in/a","in/a","written"
"./in/x/b","in/x/b","written"
"/etc/passwd",,"left-out"
"../x",,"left-out"
"in/../in/a",,"left-out"
"in//a",,"left-out"
"in/./a",,"left-out"
"in/a/",,"left-out"
".",,"left-out"
"./",,"left-out"
"././in/a",,"left-out"
"#,
            "\"nul\0\",,\"left-out\"\n",
            r#""\xff",,"left-out"
"l","l","written"
"in",,"left-out"
"gone",,"unread"
"in/a/b",,"unread"
"DICOMDIR",,"left-out"
"out/x",,"left-out"
"out",,"left-out"
".part.1",,"left-out"
"in/a","in/a","taken"
"#,
        ],
        told: b"dcmtools: /etc/passwd: name does not fit\n\
dcmtools: ../x: name does not fit\n\
dcmtools: in/../in/a: name does not fit\n\
dcmtools: in//a: name does not fit\n\
dcmtools: in/./a: name does not fit\n\
dcmtools: in/a/: name does not fit\n\
dcmtools: .: name does not fit\n\
dcmtools: ./: name does not fit\n\
dcmtools: ././in/a: name does not fit\n\
dcmtools: nul\\00: name does not fit\n\
dcmtools: \xff: name is no UTF-8\n\
dcmtools: in: no regular file\n\
dcmtools: gone: input cannot be opened\n\
dcmtools: in/a/b: input cannot be opened\n\
dcmtools: DICOMDIR: DICOMDIR is left out\n\
dcmtools: out/x: output is not read\n\
dcmtools: out: output is not read\n\
dcmtools: .part.1: part of another run\n\
dcmtools: in/a: output is there already\n",
        status: 4,
        made: &[
            File(b"out/in/a", GOOD),
            File(b"out/in/x/b", OTHER),
            File(b"out/l", GOOD),
        ],
        ..EMPTY
    },
    Row {
        name: "a list on standard input",
        words: "dcmodify -ea PatientName +r @- out",
        before: &[File(b"in/a", GOOD), File(b"in/x/b", OTHER)],
        stdin: Bytes {
            start: Start::Nothing,
            rest: &[b"\nin/a"],
        },
        output: &[
            HEADER,
            r#""in/a","in/a","written"
"#,
        ],
        made: &[Set(b"out/in/a", &[])],
        ..EMPTY
    },
    Row {
        name: "a list without bytes",
        words: "dcmodify +r @list out",
        before: &[Plain(b"list", b"")],
        output: &[HEADER],
        told: b"dcmtools: input has no files\n",
        status: 4,
        made: &[Folder(b"out")],
        ..EMPTY
    },
    Row {
        name: "empty lines",
        words: "dcmconv +part 2/3 +r @list out",
        before: &[Plain(b"list", b"\n\n")],
        output: &[HEADER],
        told: b"dcmtools: input has no files\n",
        status: 4,
        made: &[Folder(b"out")],
        ..EMPTY
    },
    Row {
        name: "a list that cannot be read",
        words: "dcmconv +r @list out",
        before: &[Broken(b"list")],
        output: &[HEADER],
        told: b"dcmtools: list: reading failed after 0 bytes\n",
        status: 4,
        made: &[Folder(b"out")],
        ..EMPTY
    },
    Row {
        name: "a name that is another's",
        words: "dcmconv +v +r @list out",
        before: &[File(b"in/a", GOOD), Plain(b"list", b"in/a\n./in/a\n")],
        output: &[
            HEADER,
            r#""in/a","in/a","written"
"./in/a","in/a","taken"
"#,
        ],
        told: b"dcmtools: ./in/a: output is there already\n\
2 files, 1 written, 0 there, 1 not done\n",
        status: 4,
        made: &[File(b"out/in/a", GOOD)],
        ..EMPTY
    },
    Row {
        name: "a name that is there, in a run that goes on",
        words: "dcmconv +v +c +r @list out",
        before: &[File(b"in/a", GOOD), Plain(b"list", b"in/a\n./in/a\n")],
        output: &[
            HEADER,
            r#""in/a","in/a","written"
"./in/a","in/a","there"
"#,
        ],
        told: b"2 files, 1 written, 1 there, 0 not done\n",
        made: &[File(b"out/in/a", GOOD)],
        ..EMPTY
    },
];

/// Folders without files.
pub static NOTHING: [Row; 6] = [
    Row {
        name: "an empty folder",
        words: "dcmconv +r in out",
        before: &[Folder(b"in")],
        output: &[HEADER],
        told: b"dcmtools: input has no files\n",
        status: 4,
        made: &[Folder(b"out")],
        ..EMPTY
    },
    Row {
        name: "empty folders",
        words: "dcmdeid +c +r in out",
        before: &[Folder(b"in/a/b"), Folder(b"in/c")],
        output: &[HEADER],
        told: b"dcmtools: input has no files\n",
        status: 4,
        made: &[Folder(b"out")],
        ..EMPTY
    },
    Row {
        name: "an empty folder, no header, counts",
        words: "dcmconv +v +nh +r in out",
        before: &[Folder(b"in")],
        told: b"dcmtools: input has no files\n\
0 files, 0 written, 0 there, 0 not done\n",
        status: 4,
        made: &[Folder(b"out")],
        ..EMPTY
    },
    Row {
        name: "the index of a medium alone",
        words: "dcmconv +r in out",
        before: &[File(b"in/DICOMDIR", GOOD)],
        output: &[
            HEADER,
            r#""DICOMDIR",,"left-out"
"#,
        ],
        told: b"dcmtools: DICOMDIR: DICOMDIR is left out\n",
        made: &[Folder(b"out")],
        ..EMPTY
    },
    Row {
        name: "counts",
        words: "dcmconv +v +r in out",
        before: &[File(b"in/a", GOOD)],
        output: &[
            HEADER,
            r#""a","a","written"
"#,
        ],
        told: b"1 files, 1 written, 0 there, 0 not done\n",
        made: &[File(b"out/a", GOOD)],
        ..EMPTY
    },
    Row {
        name: "an output that takes no byte",
        words: "dcmconv +r in out",
        before: &[File(b"in/a", GOOD), File(b"in/x/b", OTHER)],
        devices: TreeDevices { room: 0, ..SOUND },
        told: b"dcmtools: output failed\n",
        status: 4,
        made: &[Folder(b"out")],
        ..EMPTY
    },
];
