// Rows of lists.
use super::rows::Row;
use super::rows::Shown::{Faulty, Unopened, Whole};
use crate::runs::Entry::{Broken, File, List};
use dcm_test_devices::Start;

/// Names in lists.
pub fn lists() -> &'static [Row] {
    &LISTS
}

static LISTS: [Row; 5] = [
    Row {
        name: "a list among files",
        words: "dcmdump -f -te @l b @no",
        names: &[],
        files: &[
            List(b"l", b"a\n\ngone\n-\na"),
            File(b"a", Start::Nothing, b""),
            File(b"b", Start::Nothing, b""),
        ],
        shown: &[
            Whole(
                b"# dcmdump (1): a\n\n# Dicom-Data-Set\n# Used TransferSyntax: LittleEndianExplicit\n",
            ),
            Unopened(b"dcmtools: gone: input cannot be opened\n"),
            Unopened(b"dcmtools: -: input cannot be opened\n"),
            Whole(
                b"\n# dcmdump (4): a\n\n# Dicom-Data-Set\n# Used TransferSyntax: LittleEndianExplicit\n",
            ),
            Whole(
                b"\n# dcmdump (5): b\n\n# Dicom-Data-Set\n# Used TransferSyntax: LittleEndianExplicit\n",
            ),
            Unopened(b"dcmtools: no: input cannot be opened\n"),
        ],
    },
    Row {
        name: "a list alone",
        words: "dcmdump @l",
        names: &[],
        files: &[List(b"l", b"@x\n"), File(b"@x", Start::Nothing, b"no")],
        shown: &[Faulty(
            b"# dcmdump (1): @x\n\n",
            b"dcmtools: @x: R1 at byte 2: input ends too early\n",
        )],
    },
    Row {
        name: "a list on standard input",
        words: "dcmdump -f -te @-",
        names: &[],
        files: &[List(b"-", b"-\na\0\n"), File(b"./-", Start::Nothing, b"")],
        shown: &[
            Whole(
                b"# dcmdump (1): -\n\n# Dicom-Data-Set\n# Used TransferSyntax: LittleEndianExplicit\n",
            ),
            Unopened(b"dcmtools: a\\00: input cannot be opened\n"),
        ],
    },
    Row {
        name: "lists of nothing",
        words: "dcmdump +F @empty @lines",
        names: &[],
        files: &[List(b"empty", b""), List(b"lines", b"\n\n")],
        shown: &[],
    },
    Row {
        name: "a list that cannot be read",
        words: "dcmdump -f -te @broken a",
        names: &[],
        files: &[Broken(b"broken"), File(b"a", Start::Nothing, b"")],
        shown: &[
            Unopened(b"dcmtools: broken: reading failed after 0 bytes\n"),
            Whole(
                b"# dcmdump (1): a\n\n# Dicom-Data-Set\n# Used TransferSyntax: LittleEndianExplicit\n",
            ),
        ],
    },
];
