// Rows of runs whose folders are not there, or are none.
use super::bytes::{GOOD, OTHER};
use super::rows::Entry::{File, Link, Plain};
use super::rows::{EMPTY, Row};

/// What is read, or is to be written, cannot be used.
pub static BEGINNINGS: [Row; 10] = [
    Row {
        name: "an output that is not empty",
        words: "dcmconv +r in out",
        before: &[
            File(b"in/a", GOOD),
            File(b"in/x/b", OTHER),
            Plain(b"out/own", b"o"),
        ],
        told: b"dcmtools: output is not empty\n",
        status: 4,
        ..EMPTY
    },
    Row {
        name: "an output that is a file",
        words: "dcmconv +c +r in out",
        before: &[
            File(b"in/a", GOOD),
            File(b"in/x/b", OTHER),
            Plain(b"out", b"o"),
        ],
        told: b"dcmtools: output cannot be opened\n",
        status: 4,
        ..EMPTY
    },
    Row {
        name: "an output in no folder",
        words: "dcmconv +r in no/out",
        before: &[File(b"in/a", GOOD), File(b"in/x/b", OTHER)],
        told: b"dcmtools: output cannot be opened\n",
        status: 4,
        ..EMPTY
    },
    Row {
        name: "a link to nothing",
        words: "dcmconv +r in out",
        before: &[
            File(b"in/a", GOOD),
            File(b"in/x/b", OTHER),
            Link(b"out", b"gone"),
        ],
        told: b"dcmtools: output cannot be opened\n",
        status: 4,
        ..EMPTY
    },
    Row {
        name: "a link to nothing, in a run that goes on",
        words: "dcmconv +c +r in out",
        before: &[
            File(b"in/a", GOOD),
            File(b"in/x/b", OTHER),
            Link(b"out", b"gone"),
        ],
        told: b"dcmtools: output cannot be opened\n",
        status: 4,
        ..EMPTY
    },
    Row {
        name: "no folder",
        words: "dcmconv +r gone out",
        before: &[File(b"in/a", GOOD), File(b"in/x/b", OTHER)],
        told: b"dcmtools: input cannot be opened\n",
        status: 4,
        ..EMPTY
    },
    Row {
        name: "a file in the place of the folder",
        words: "dcmconv +r in/a out",
        before: &[File(b"in/a", GOOD), File(b"in/x/b", OTHER)],
        told: b"dcmtools: input cannot be opened\n",
        status: 4,
        ..EMPTY
    },
    Row {
        name: "no list",
        words: "dcmconv +r @gone out",
        before: &[File(b"in/a", GOOD), File(b"in/x/b", OTHER)],
        told: b"dcmtools: gone: input cannot be opened\n",
        status: 4,
        ..EMPTY
    },
    Row {
        name: "a short key",
        words: "dcmdeid +k key +r gone out",
        before: &[
            File(b"in/a", GOOD),
            File(b"in/x/b", OTHER),
            Plain(b"key", b"a key of 16 byt"),
        ],
        told: b"dcmtools: V7: key is not 16 to 4096 bytes\n",
        status: 1,
        ..EMPTY
    },
    Row {
        name: "no key",
        words: "dcmdeid +r +k no in out",
        before: &[File(b"in/a", GOOD), File(b"in/x/b", OTHER)],
        told: b"dcmtools: key cannot be opened\n",
        status: 4,
        ..EMPTY
    },
];
