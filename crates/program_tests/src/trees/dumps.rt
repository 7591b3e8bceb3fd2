// Rows of dumps of several files.
use super::bytes::{CUT, GOOD, LATIN, OTHER, TEXT, UTF8};
use super::rows::Entry::{File, Folder, Plain};
use super::rows::{EMPTY, Row};

const DUMP_OF_GOOD: &str = "\
# Dicom-File-Format\n\
\n\
# Dicom-Meta-Information-Header\n\
# Used TransferSyntax: LittleEndianExplicit\n\
(0002,0000) UL 28                                       #   4, 1 FileMetaInformationGroupLength\n\
(0002,0010) UI =LittleEndianExplicit                    #  20, 1 TransferSyntaxUID\n\
\n\
# Dicom-Data-Set\n\
# Used TransferSyntax: LittleEndianExplicit\n\
(0010,0010) PN [AB^CD]                                  #   6, 1 PatientName\n";

const DUMP_OF_CUT: &str = "\
# Dicom-File-Format\n\
\n\
# Dicom-Meta-Information-Header\n\
# Used TransferSyntax: LittleEndianExplicit\n\
(0002,0000) UL 28                                       #   4, 1 FileMetaInformationGroupLength\n\
(0002,0010) UI =LittleEndianExplicit                    #  20, 1 TransferSyntaxUID\n\
\n\
# Dicom-Data-Set\n\
# Used TransferSyntax: LittleEndianExplicit\n";

const DUMP_OF_OTHER: &str = "\
# Dicom-File-Format\n\
\n\
# Dicom-Meta-Information-Header\n\
# Used TransferSyntax: LittleEndianExplicit\n\
(0002,0000) UL 26                                       #   4, 1 FileMetaInformationGroupLength\n\
(0002,0010) UI =LittleEndianImplicit                    #  18, 1 TransferSyntaxUID\n\
\n\
# Dicom-Data-Set\n\
# Used TransferSyntax: LittleEndianImplicit\n\
(0010,0010) PN [E^F]                                    #   4, 1 PatientName\n";

const DUMP_OF_LATIN: &str = "\
# Dicom-File-Format (texts in UTF-8)\n\
\n\
# Dicom-Meta-Information-Header\n\
# Used TransferSyntax: LittleEndianExplicit\n\
(0002,0000) UL 28                                       #   4, 1 FileMetaInformationGroupLength\n\
(0002,0010) UI =LittleEndianExplicit                    #  20, 1 TransferSyntaxUID\n\
\n\
# Dicom-Data-Set\n\
# Used TransferSyntax: LittleEndianExplicit\n\
(0008,0005) CS [ISO_IR 100]                             #  10, 1 SpecificCharacterSet\n\
(0010,0010) PN [Jörg^ÿ]                               #   6, 1 PatientName\n";

const DUMP_OF_UTF8: &str = "\
# Dicom-File-Format (texts in UTF-8)\n\
\n\
# Dicom-Meta-Information-Header\n\
# Used TransferSyntax: LittleEndianExplicit\n\
(0002,0000) UL 28                                       #   4, 1 FileMetaInformationGroupLength\n\
(0002,0010) UI =LittleEndianExplicit                    #  20, 1 TransferSyntaxUID\n\
\n\
# Dicom-Data-Set\n\
# Used TransferSyntax: LittleEndianExplicit\n\
(0008,0005) CS [ISO_IR 192]                             #  10, 1 SpecificCharacterSet\n\
(0010,0010) PN [Я^ü]                                  #   6, 1 PatientName\n";

/// Headings and dumps.
pub static DUMPS: [Row; 5] = [
    Row {
        name: "several files",
        words: "dcmdump a gone b\n t d -",
        before: &[
            File(b"a", GOOD),
            File(b"b\n", CUT),
            File(b"t", TEXT),
            Folder(b"d"),
        ],
        stdin: OTHER,
        output: &[
            "# dcmdump (1/6): a\n\n",
            DUMP_OF_GOOD,
            "\n# dcmdump (3/6): b\\0a\n\n",
            DUMP_OF_CUT,
            "\n# dcmdump (4/6): t\n\n\n# dcmdump (6/6): -\n\n",
            DUMP_OF_OTHER,
        ],
        told: b"dcmtools: gone: input cannot be opened\n\
dcmtools: b\\0a: R1 at byte 185: input ends too early\n\
dcmtools: t: R2 at byte 128: no DICM prefix\n\
dcmtools: d: input cannot be opened\n",
        status: 4,
        ..EMPTY
    },
    Row {
        name: "the first is not there",
        words: "dcmdump gone a",
        before: &[
            File(b"a", GOOD),
            File(b"b\n", CUT),
            File(b"t", TEXT),
            Folder(b"d"),
        ],
        output: &["# dcmdump (2/2): a\n\n", DUMP_OF_GOOD],
        told: b"dcmtools: gone: input cannot be opened\n",
        status: 4,
        ..EMPTY
    },
    Row {
        name: "one file with a heading",
        words: "dcmdump +L +F a",
        before: &[
            File(b"a", GOOD),
            File(b"b\n", CUT),
            File(b"t", TEXT),
            Folder(b"d"),
        ],
        output: &["# dcmdump (1/1): a\n\n", DUMP_OF_GOOD],
        ..EMPTY
    },
    Row {
        name: "one file without a heading",
        words: "dcmdump t",
        before: &[
            File(b"a", GOOD),
            File(b"b\n", CUT),
            File(b"t", TEXT),
            Folder(b"d"),
        ],
        told: b"dcmtools: R2 at byte 128: no DICM prefix\n",
        status: 2,
        ..EMPTY
    },
    Row {
        name: "lists among files",
        words: "dcmdump +dict @list a @no",
        before: &[
            File(b"a", GOOD),
            File(b"b\n", CUT),
            File(b"t", TEXT),
            Folder(b"d"),
            Plain(b"list", b"a\n\nb\n-\na"),
        ],
        output: &[
            "# dcmdump (1): a\n\n",
            DUMP_OF_GOOD,
            "\n# dcmdump (4): a\n\n",
            DUMP_OF_GOOD,
            "\n# dcmdump (5): a\n\n",
            DUMP_OF_GOOD,
        ],
        told: b"dcmtools: b: input cannot be opened\n\
dcmtools: -: input cannot be opened\n\
dcmtools: no: input cannot be opened\n",
        status: 4,
        ..EMPTY
    },
];

/// Dumps by characters.
pub static CHARACTERS: [Row; 3] = [
    Row {
        name: "two files",
        words: "dcmdump +u8 a b",
        before: &[File(b"a", LATIN), File(b"b", UTF8), Plain(b"list", b"b\na")],
        output: &[
            "# dcmdump (1/2): a\n\n",
            DUMP_OF_LATIN,
            "\n# dcmdump (2/2): b\n\n",
            DUMP_OF_UTF8,
        ],
        ..EMPTY
    },
    Row {
        name: "one file with a heading",
        words: "dcmdump b +F +L +u8",
        before: &[File(b"a", LATIN), File(b"b", UTF8), Plain(b"list", b"b\na")],
        output: &["# dcmdump (1/1): b\n\n", DUMP_OF_UTF8],
        ..EMPTY
    },
    Row {
        name: "a list",
        words: "dcmdump @list +u8",
        before: &[File(b"a", LATIN), File(b"b", UTF8), Plain(b"list", b"b\na")],
        output: &[
            "# dcmdump (1): b\n\n",
            DUMP_OF_UTF8,
            "\n# dcmdump (2): a\n\n",
            DUMP_OF_LATIN,
        ],
        ..EMPTY
    },
];
