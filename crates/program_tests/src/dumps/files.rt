// Rows of files among the words.
use super::rows::Row;
use super::rows::Shown::{Faulty, Remarked, Unopened, Unread, Whole};
use crate::runs::Entry::{Broken, File, Folder};
use dcm_test_devices::Start;

/// Files among the words.
pub fn files() -> &'static [Row] {
    &FILES
}

/// A data set of a PatientName alone, and one that is cut.
const NAME: &[u8] = b"\x10\0\x10\0PN\x06\0AB^CD ";

const CUT: &[u8] = b"\x10\0\x10\0PN\x06\0AB^CD \x10\0\x20\0LO\x04\0AB";

/// The heading and the dump of a file without a data set.
const OTHER: &[u8] = b"\n# dcmdump (4/4): other\n\n\
# Dicom-File-Format\n\
\n\
# Dicom-Meta-Information-Header\n\
# Used TransferSyntax: LittleEndianExplicit\n\
(0002,0000) UL 28                                       #   4, 1 FileMetaInformationGroupLength\n\
(0002,0010) UI =LittleEndianExplicit                    #  20, 1 TransferSyntaxUID\n\
\n\
# Dicom-Data-Set\n\
# Used TransferSyntax: LittleEndianExplicit\n";

static FILES: [Row; 8] = [
    Row {
        name: "a character set that is not known",
        words: "dcmdump +u8 -f -te a b c",
        names: &[],
        files: &[
            File(b"a", Start::Nothing, b"\x08\0\x05\0CS\x04\0FOO "),
            File(b"b", Start::Nothing, b""),
            File(b"c", Start::Nothing, b"\x08\0\x05\0CS\x04\0FOO no"),
        ],
        shown: &[
            Remarked(
                b"# dcmdump (1/3): a\n\n# Dicom-Data-Set (texts in UTF-8)\n# Used TransferSyntax: LittleEndianExplicit\n\
(0008,0005) CS [FOO]                                    #   4, 1 SpecificCharacterSet\n",
                b"dcmtools: a: character set is not known\n",
            ),
            Whole(
                b"\n# dcmdump (2/3): b\n\n# Dicom-Data-Set (texts in UTF-8)\n# Used TransferSyntax: LittleEndianExplicit\n",
            ),
            Faulty(
                b"\n# dcmdump (3/3): c\n\n# Dicom-Data-Set (texts in UTF-8)\n# Used TransferSyntax: LittleEndianExplicit\n\
(0008,0005) CS [FOO]                                    #   4, 1 SpecificCharacterSet\n",
                b"dcmtools: c: character set is not known\ndcmtools: c: R1 at byte 14: input ends too early\n",
            ),
        ],
    },
    Row {
        name: "two files",
        words: "dcmdump -f -te a b",
        names: &[],
        files: &[
            File(b"a", Start::Nothing, NAME),
            File(b"b", Start::Nothing, b""),
        ],
        shown: &[
            Whole(
                b"# dcmdump (1/2): a\n\n# Dicom-Data-Set\n# Used TransferSyntax: LittleEndianExplicit\n\
(0010,0010) PN [AB^CD]                                  #   6, 1 PatientName\n",
            ),
            Whole(
                b"\n# dcmdump (2/2): b\n\n# Dicom-Data-Set\n# Used TransferSyntax: LittleEndianExplicit\n",
            ),
        ],
    },
    Row {
        name: "a fault ends its own file",
        words: "dcmdump -f -te",
        names: &[b"cut\n", b"a", b"\x1b[m\\"],
        files: &[
            File(b"cut\n", Start::Nothing, CUT),
            File(b"a", Start::Nothing, b""),
            File(b"\x1b[m\\", Start::Nothing, b"no"),
        ],
        shown: &[
            Faulty(
                b"# dcmdump (1/3): cut\\0a\n\n# Dicom-Data-Set\n# Used TransferSyntax: LittleEndianExplicit\n\
(0010,0010) PN [AB^CD]                                  #   6, 1 PatientName\n",
                b"dcmtools: cut\\0a: R1 at byte 24: input ends too early\n",
            ),
            Whole(
                b"\n# dcmdump (2/3): a\n\n# Dicom-Data-Set\n# Used TransferSyntax: LittleEndianExplicit\n",
            ),
            Faulty(
                b"\n# dcmdump (3/3): \\1b[m\\5c\n\n# Dicom-Data-Set\n# Used TransferSyntax: LittleEndianExplicit\n",
                b"dcmtools: \\1b[m\\5c: R1 at byte 2: input ends too early\n",
            ),
        ],
    },
    Row {
        name: "files that cannot be opened",
        words: "dcmdump gone folder t other",
        names: &[],
        files: &[
            Folder(b"folder"),
            File(b"t", Start::Nothing, b"text"),
            File(b"other", Start::ExplicitLittle, b""),
        ],
        shown: &[
            Unopened(b"dcmtools: gone: input cannot be opened\n"),
            Unopened(b"dcmtools: folder: input cannot be opened\n"),
            Faulty(
                b"# dcmdump (3/4): t\n\n",
                b"dcmtools: t: R1 at byte 4: input ends too early\n",
            ),
            Whole(OTHER),
        ],
    },
    Row {
        name: "one file with a heading",
        words: "dcmdump +L -te +F -f a",
        names: &[],
        files: &[File(b"a", Start::Nothing, b"")],
        shown: &[Whole(
            b"# dcmdump (1/1): a\n\n# Dicom-Data-Set\n# Used TransferSyntax: LittleEndianExplicit\n",
        )],
    },
    Row {
        name: "standard input among files",
        words: "dcmdump -f -te - ./- -tb",
        names: &[],
        files: &[
            File(b"-", Start::Nothing, b""),
            File(b"./-", Start::Nothing, b""),
        ],
        shown: &[
            Whole(
                b"# dcmdump (1/2): -\n\n# Dicom-Data-Set\n# Used TransferSyntax: BigEndianExplicit\n",
            ),
            Whole(
                b"\n# dcmdump (2/2): ./-\n\n# Dicom-Data-Set\n# Used TransferSyntax: BigEndianExplicit\n",
            ),
        ],
    },
    Row {
        name: "a file whose reading fails",
        words: "dcmdump -f -te broken a",
        names: &[],
        files: &[Broken(b"broken"), File(b"a", Start::Nothing, b"")],
        shown: &[
            Unread(
                b"# dcmdump (1/2): broken\n\n# Dicom-Data-Set\n# Used TransferSyntax: LittleEndianExplicit\n",
                b"dcmtools: broken: reading failed after 0 bytes\n",
            ),
            Whole(
                b"\n# dcmdump (2/2): a\n\n# Dicom-Data-Set\n# Used TransferSyntax: LittleEndianExplicit\n",
            ),
        ],
    },
    Row {
        name: "one file twice, and none",
        words: "dcmdump a a gone",
        names: &[],
        files: &[File(b"a", Start::Nothing, b"no")],
        shown: &[
            Faulty(
                b"# dcmdump (1/3): a\n\n",
                b"dcmtools: a: R1 at byte 2: input ends too early\n",
            ),
            Faulty(
                b"\n# dcmdump (2/3): a\n\n",
                b"dcmtools: a: R1 at byte 2: input ends too early\n",
            ),
            Unopened(b"dcmtools: gone: input cannot be opened\n"),
        ],
    },
];
