// A folder of outputs that does not tell small letters from capital ones.
use super::bytes::{CUT, GOOD};
use super::rows::Entry::{File, Folder, Plain};
use super::rows::{EMPTY, HEADER, Row};
use dcm_test_trees::{SOUND, TreeDevices};

/// It does not tell them apart.
const ALIKE: TreeDevices = TreeDevices {
    tells_letters: false,
    ..SOUND
};

/// And the files are on another device.
const ALIKE_ELSEWHERE: TreeDevices = TreeDevices {
    elsewhere: "in",
    ..ALIKE
};

/// What is told of it.
const TOLD: &[u8] = b"dcmtools: output does not tell small letters from capital ones\n";

/// Runs that are refused there.
pub static ALIKE_LETTERS: [Row; 8] = [
    Row {
        name: "letters, +c",
        words: "dcmconv +c +r in out",
        before: &[File(b"in/im1", GOOD)],
        devices: ALIKE_ELSEWHERE,
        told: TOLD,
        status: 4,
        made: &[Folder(b"out")],
        ..EMPTY
    },
    Row {
        name: "letters, +part and +v",
        words: "dcmconv +part 1/1 +v +nh +r in out",
        before: &[File(b"in/im1", GOOD)],
        devices: ALIKE_ELSEWHERE,
        told: TOLD,
        status: 4,
        made: &[Folder(b"out")],
        ..EMPTY
    },
    Row {
        name: "letters, +kn +c",
        words: "dcmdeid +kn +c +r in out",
        before: &[File(b"in/im1", GOOD)],
        devices: ALIKE_ELSEWHERE,
        told: TOLD,
        status: 4,
        made: &[Folder(b"out")],
        ..EMPTY
    },
    Row {
        name: "letters, edits",
        words: "dcmodify +part 2/3 -ep +r in out",
        before: &[File(b"in/im1", GOOD)],
        devices: ALIKE_ELSEWHERE,
        told: TOLD,
        status: 4,
        made: &[Folder(b"out")],
        ..EMPTY
    },
    Row {
        name: "letters, a list",
        words: "dcmconv +c +r @l out",
        before: &[File(b"in/im1", GOOD), Plain(b"l", b"in/im1\n")],
        devices: ALIKE,
        told: TOLD,
        status: 4,
        made: &[Folder(b"out")],
        ..EMPTY
    },
    Row {
        name: "letters, a fault",
        words: "dcmconv +c +r in out",
        before: &[File(b"in/im1", CUT)],
        devices: ALIKE_ELSEWHERE,
        told: TOLD,
        status: 4,
        made: &[Folder(b"out")],
        ..EMPTY
    },
    Row {
        name: "letters, left over",
        words: "dcmconv +c +r @l out",
        before: &[
            File(b"in/im1", GOOD),
            Plain(b"l", b"in/im1\n"),
            Plain(b"out/.part.1", b"half"),
        ],
        devices: ALIKE,
        told: b"dcmtools: .part.1: left over, and removed\ndcmtools: output does not tell small letters from capital ones\n",
        status: 4,
        gone: &[b"out/.part.1"],
        made: &[Folder(b"out")],
        ..EMPTY
    },
    Row {
        name: "letters, not empty is told first",
        words: "dcmconv +r @l out",
        before: &[
            File(b"in/im1", GOOD),
            Plain(b"l", b"in/im1\n"),
            Plain(b"out/own", b"o"),
        ],
        devices: ALIKE,
        told: b"dcmtools: output is not empty\n",
        status: 4,
        ..EMPTY
    },
];

/// Runs that are not, and folders that tell them apart.
pub static LETTERS_APART: [Row; 8] = [
    Row {
        name: "letters, one device",
        words: "dcmconv +c +r in out",
        before: &[File(b"in/im1", GOOD)],
        devices: ALIKE,
        output: &[HEADER, "\"im1\",\"im1\",\"written\"\n"],
        made: &[File(b"out/im1", GOOD)],
        ..EMPTY
    },
    Row {
        name: "letters, without +c",
        words: "dcmconv +r in out",
        before: &[File(b"in/im1", GOOD)],
        devices: ALIKE_ELSEWHERE,
        output: &[HEADER, "\"im1\",\"im1\",\"written\"\n"],
        made: &[File(b"out/im1", GOOD)],
        ..EMPTY
    },
    Row {
        name: "letters, a list without +c",
        words: "dcmconv +r @l out",
        before: &[File(b"in/im1", GOOD), Plain(b"l", b"in/im1\n")],
        devices: ALIKE,
        output: &[HEADER, "\"in/im1\",\"in/im1\",\"written\"\n"],
        made: &[File(b"out/in/im1", GOOD)],
        ..EMPTY
    },
    Row {
        name: "letters, told apart, a list",
        words: "dcmconv +c +r @l out",
        before: &[
            File(b"in/im1", GOOD),
            Plain(b"l", b"in/im1\n"),
            Plain(b"out/.PART.1", b"own"),
        ],
        output: &[HEADER, "\"in/im1\",\"in/im1\",\"written\"\n"],
        made: &[File(b"out/in/im1", GOOD)],
        ..EMPTY
    },
    Row {
        name: "letters, another device",
        words: "dcmconv +c +r in out",
        before: &[File(b"in/a", GOOD), Plain(b"out/.PART.1", b"own")],
        devices: TreeDevices {
            elsewhere: "in",
            ..SOUND
        },
        output: &[HEADER, "\"a\",\"a\",\"written\"\n"],
        made: &[File(b"out/a", GOOD)],
        ..EMPTY
    },
    Row {
        name: "letters, a part is there",
        words: "dcmconv +c +r @l out",
        before: &[File(b"in/im1", GOOD), Plain(b"l", b"in/im1\n")],
        devices: TreeDevices { files: 0, ..SOUND },
        told: b"dcmtools: .part.1: another run is at work\n",
        status: 4,
        made: &[Plain(b"out/.part.1", b"")],
        ..EMPTY
    },
    Row {
        name: "letters, no part can be made",
        words: "dcmconv +c +r @l out",
        before: &[File(b"in/im1", GOOD), Plain(b"l", b"in/im1\n")],
        devices: TreeDevices { memory: 0, ..SOUND },
        told: b"dcmtools: output cannot be opened\n",
        status: 4,
        made: &[Folder(b"out")],
        ..EMPTY
    },
    Row {
        name: "letters, a part that is closed badly",
        words: "dcmconv +c +r @l out",
        before: &[Plain(b"l", b"gone\n")],
        devices: TreeDevices {
            closings: 0,
            ..SOUND
        },
        output: &[HEADER, "\"gone\",,\"unread\"\n"],
        told: b"dcmtools: gone: input cannot be opened\n",
        status: 4,
        made: &[Folder(b"out")],
        ..EMPTY
    },
];
