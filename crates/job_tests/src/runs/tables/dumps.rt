// Dumps of files: what stands behind the meta group, and the lines that are wanted of it.
use crate::runs::rows::{EMPTY, Row};
use dcm_test_devices::Start;

/// Texts.
static TEXTS: [Row; 8] = [
    Row {
        name: "a name",
        words: "dcmdump -",
        start: Start::ExplicitLittle,
        input: b"\x10\0\x10\0PN\x06\0AB^CD ",
        header: Start::ExplicitLittle,
        lines: b"(0010,0010) PN [AB^CD]                                  #   6, 1 PatientName\n",
        ..EMPTY
    },
    Row {
        name: "an odd text",
        words: "dcmdump -",
        start: Start::ExplicitLittle,
        input: b"\x10\0\0@LT\x01\0 ",
        header: Start::ExplicitLittle,
        lines: b"(0010,4000) LT [ ]                                      #   1, 1 PatientComments\n",
        ..EMPTY
    },
    Row {
        name: "three values and an escape",
        words: "dcmdump -",
        start: Start::ExplicitLittle,
        input: b"\x08\0p\0LO\x06\0a\\b\\c\n",
        header: Start::ExplicitLittle,
        lines: b"(0008,0070) LO [a\\b\\c%0A]                               #   6, 3 Manufacturer\n",
        ..EMPTY
    },
    Row {
        name: "an open text in full",
        words: "dcmdump +L -",
        start: Start::ExplicitLittle,
        input: b"\x10\0\x10\0PN\x06\0AB",
        header: Start::ExplicitLittle,
        lines: b"(0010,0010) PN [AB",
        status: 2,
        told: b"dcmtools: R1 at byte 182: input ends too early\n",
    },
    Row {
        name: "an open text",
        words: "dcmdump -L -",
        start: Start::ExplicitLittle,
        input: b"\x10\0\x10\0PN\x06\0AB",
        header: Start::ExplicitLittle,
        status: 2,
        told: b"dcmtools: R1 at byte 182: input ends too early\n",
        ..EMPTY
    },
    Row {
        name: "a text of 64 letters",
        words: "dcmdump -",
        start: Start::ExplicitLittle,
        input: b"\x10\0\0@LT@\0aaaaaaaaaaaaaaaaaaaaaaaaaaaaaaaaaaaaaaaaaaaaaaaaaaaaaaaaaaaaaaaa",
        header: Start::ExplicitLittle,
        lines: b"(0010,4000) LT [aaaaaaaaaaaaaaaaaaaaaaaaaaaaaaaaaaaaaaaaaaaaaaaaaaaaaaaaaaaaaaaa] #  64, 1 PatientComments\n",
        ..EMPTY
    },
    Row {
        name: "a text of 65 letters",
        words: "dcmdump -",
        start: Start::ExplicitLittle,
        input: b"\x10\0\0@LTA\0aaaaaaaaaaaaaaaaaaaaaaaaaaaaaaaaaaaaaaaaaaaaaaaaaaaaaaaaaaaaaaaaa",
        header: Start::ExplicitLittle,
        lines: b"(0010,4000) LT [aaaaaaaaaaaaaaaaaaaaaaaaaaaaaaaaaaaaaaaaaaaaaaaaaaaaaaaaaaaaaa... #  65, 1 PatientComments\n",
        ..EMPTY
    },
    Row {
        name: "a text of 65 letters in full",
        words: "dcmdump +L -",
        start: Start::ExplicitLittle,
        input: b"\x10\0\0@LTA\0aaaaaaaaaaaaaaaaaaaaaaaaaaaaaaaaaaaaaaaaaaaaaaaaaaaaaaaaaaaaaaaaa",
        header: Start::ExplicitLittle,
        lines: b"(0010,4000) LT [aaaaaaaaaaaaaaaaaaaaaaaaaaaaaaaaaaaaaaaaaaaaaaaaaaaaaaaaaaaaaaaaa] #  65, 1 PatientComments\n",
        ..EMPTY
    },
];

/// Numbers, tags and words.
static NUMBERS: [Row; 10] = [
    Row {
        name: "big endian numbers",
        words: "dcmdump -",
        start: Start::Big,
        input: b"\0(\0\x10US\0\x05\0\x01\x02\0\x05",
        header: Start::Big,
        lines: b"(0028,0010) US 1\\512                                    #   5, 2 Rows\n",
        ..EMPTY
    },
    Row {
        name: "a tag",
        words: "dcmdump -",
        start: Start::ExplicitLittle,
        input: b"(\0\x09\0AT\x04\0\x18\0c\x10",
        header: Start::ExplicitLittle,
        lines: b"(0028,0009) AT (0018,1063)                              #   4, 1 FrameIncrementPointer\n",
        ..EMPTY
    },
    Row {
        name: "a number of eight bytes",
        words: "dcmdump -",
        start: Start::ExplicitLittle,
        input: b"\x18\0\x87\x90FD\x08\0\0\0\0\0\0@\x8f@",
        header: Start::ExplicitLittle,
        lines: b"(0018,9087) FD 408f400000000000                         #   8, 1 DiffusionBValue\n",
        ..EMPTY
    },
    Row {
        name: "a signed number",
        words: "dcmdump -",
        start: Start::ExplicitLittle,
        input: b"\x09\0\x01\x10SS\x02\0\xff\xff",
        header: Start::ExplicitLittle,
        lines: b"(0009,1001) SS -1                                       #   2, 1 Unknown Tag & Data\n",
        ..EMPTY
    },
    Row {
        name: "words",
        words: "dcmdump -",
        start: Start::ExplicitLittle,
        input: b"\xe0\x7f\x10\0OW\0\0\x04\0\0\0\x01\x02\x03\x04",
        header: Start::ExplicitLittle,
        lines: b"(7fe0,0010) OW 0201\\0403                                #   4, 1 PixelData\n",
        ..EMPTY
    },
    Row {
        name: "the length of a group",
        words: "dcmdump -",
        start: Start::ExplicitLittle,
        input: b"\x08\0\0\0UL\x04\0\n\0\0\0\x08\0`\0CS\x02\0MR",
        header: Start::ExplicitLittle,
        lines: b"(0008,0000) UL 10                                       #   4, 1 GenericGroupLength\n(0008,0060) CS [MR]                                     #   2, 1 Modality\n",
        ..EMPTY
    },
    Row {
        name: "an open value of words",
        words: "dcmdump +L -",
        start: Start::ExplicitLittle,
        input: b"\xe0\x7f\x10\0OW\0\0\xfe\xff\xff\xff",
        header: Start::ExplicitLittle,
        lines: b"(7fe0,0010) OW ",
        status: 2,
        told: b"dcmtools: R1 at byte 184: input ends too early\n",
    },
    Row {
        name: "a long number",
        words: "dcmdump -",
        start: Start::ExplicitLittle,
        input: b"\x09\0\x01\x10UV\0\0\x08\0\0\0\x02\x01\0\0\0\0\0\0",
        header: Start::ExplicitLittle,
        lines: b"(0009,1001) UV 258                                      #   8, 1 Unknown Tag & Data\n",
        ..EMPTY
    },
    Row {
        name: "a long signed number",
        words: "dcmdump -",
        start: Start::ExplicitLittle,
        input: b"\x09\0\x01\x10SV\0\0\x08\0\0\0\xff\xff\xff\xff\xff\xff\xff\xff",
        header: Start::ExplicitLittle,
        lines: b"(0009,1001) SV -1                                       #   8, 1 Unknown Tag & Data\n",
        ..EMPTY
    },
    Row {
        name: "very long words",
        words: "dcmdump -",
        start: Start::ExplicitLittle,
        input: b"\x09\0\x01\x10OV\0\0\x08\0\0\0\x01\x02\x03\x04\x05\x06\x07\x08",
        header: Start::ExplicitLittle,
        lines: b"(0009,1001) OV 0807060504030201                         #   8, 1 Unknown Tag & Data\n",
        ..EMPTY
    },
];

/// Sequences, items and fragments.
static SEQUENCES: [Row; 9] = [
    Row {
        name: "an empty sequence",
        words: "dcmdump -",
        start: Start::ExplicitLittle,
        input: b"\x08\0@\x11SQ\0\0\0\0\0\0",
        header: Start::ExplicitLittle,
        lines: b"(0008,1140) SQ (Sequence with explicit length)          #   0, 1 ReferencedImageSequence\n(fffe,e0dd) na (SequenceDelimitationItem for re-encod.) #   0, 0 SequenceDelimitationItem\n",
        ..EMPTY
    },
    Row {
        name: "a sequence of undefined length",
        words: "dcmdump -",
        start: Start::ExplicitLittle,
        input: b"\x08\0@\x11SQ\0\0\xff\xff\xff\xff\xfe\xff\0\xe0\x0c\0\0\0\x08\0U\x11UI\x04\01.2\0\xfe\xff\xdd\xe0\0\0\0\0",
        header: Start::ExplicitLittle,
        lines: b"(0008,1140) SQ (Sequence with undefined length)         # u/l, 1 ReferencedImageSequence\n  (fffe,e000) na (Item with explicit length)              #  12, 1 Item\n    (0008,1155) UI [1.2]                                    #   4, 1 ReferencedSOPInstanceUID\n  (fffe,e00d) na (ItemDelimitationItem for re-encoding)   #   0, 0 ItemDelimitationItem\n(fffe,e0dd) na (SequenceDelimitationItem)               #   0, 0 SequenceDelimitationItem\n",
        ..EMPTY
    },
    Row {
        name: "an end within a sequence",
        words: "dcmdump -",
        start: Start::ExplicitLittle,
        input: b"\x08\0@\x11SQ\0\0d\0\0\0\xfe\xff\0\xe0\xff\xff\xff\xff\x08\0U\x11UI\x04\01.2\0",
        header: Start::ExplicitLittle,
        lines: b"(0008,1140) SQ (Sequence with explicit length)          # 100, 1 ReferencedImageSequence\n  (fffe,e000) na (Item with undefined length)             # u/l, 1 Item\n    (0008,1155) UI [1.2]                                    #   4, 1 ReferencedSOPInstanceUID\n",
        status: 2,
        told: b"dcmtools: R1 at byte 204: input ends too early\n",
    },
    Row {
        name: "an item that passes its sequence",
        words: "dcmdump -",
        start: Start::ExplicitLittle,
        input: b"\x08\0@\x11SQ\0\0\x10\0\0\0\xfe\xff\0\xe0\x14\0\0\0",
        header: Start::ExplicitLittle,
        lines: b"(0008,1140) SQ (Sequence with explicit length)          #  16, 1 ReferencedImageSequence\n",
        status: 2,
        told: b"dcmtools: R10 at byte 184: passes the end of its container\n",
    },
    Row {
        name: "an open item in a full sequence",
        words: "dcmdump -",
        start: Start::ExplicitLittle,
        input: b"\x08\0@\x11SQ\0\0\x08\0\0\0\xfe\xff\0\xe0\xff\xff\xff\xff",
        header: Start::ExplicitLittle,
        lines: b"(0008,1140) SQ (Sequence with explicit length)          #   8, 1 ReferencedImageSequence\n  (fffe,e000) na (Item with undefined length)             # u/l, 1 Item\n",
        status: 2,
        told: b"dcmtools: R10 at byte 192: passes the end of its container\n",
    },
    Row {
        name: "fragments",
        words: "dcmdump -",
        start: Start::Jpeg,
        input: b"\xe0\x7f\x10\0OB\0\0\xff\xff\xff\xff\xfe\xff\0\xe0\0\0\0\0\xfe\xff\0\xe0\x02\0\0\0\xff\xd8\xfe\xff\xdd\xe0\0\0\0\0",
        header: Start::Jpeg,
        lines: b"(7fe0,0010) OB (PixelSequence)                          # u/l, 1 PixelData\n  (fffe,e000) pi (no value available)                     #   0, 1 Item\n  (fffe,e000) pi ff\\d8                                    #   2, 1 Item\n(fffe,e0dd) na (SequenceDelimitationItem)               #   0, 0 SequenceDelimitationItem\n",
        ..EMPTY
    },
    Row {
        name: "fragments in a native syntax",
        words: "dcmdump -",
        start: Start::ExplicitLittle,
        input: b"\xe0\x7f\x10\0OB\0\0\xff\xff\xff\xff\xfe\xff\0\xe0\0\0\0\0\xfe\xff\0\xe0\x02\0\0\0\xff\xd8\xfe\xff\xdd\xe0\0\0\0\0",
        header: Start::ExplicitLittle,
        lines: b"(7fe0,0010) OB (PixelSequence)                          # u/l, 1 PixelData\n  (fffe,e000) pi (no value available)                     #   0, 1 Item\n  (fffe,e000) pi ff\\d8                                    #   2, 1 Item\n(fffe,e0dd) na (SequenceDelimitationItem)               #   0, 0 SequenceDelimitationItem\n",
        ..EMPTY
    },
    Row {
        name: "unknown of undefined length",
        words: "dcmdump -",
        start: Start::Big,
        input: b"\0\x09\x10\x10UN\0\0\xff\xff\xff\xff\xfe\xff\0\xe0\xff\xff\xff\xff\x10\0\x10\0\x02\0\0\0AB\xfe\xff\x0d\xe0\0\0\0\0\xfe\xff\xdd\xe0\0\0\0\0",
        header: Start::Big,
        lines: b"(0009,1010) UN (Sequence with undefined length)         # u/l, 1 Unknown Tag & Data\n  (fffe,e000) na (Item with undefined length)             # u/l, 1 Item\n    (0010,0010) PN [AB]                                     #   2, 1 PatientName\n  (fffe,e00d) na (ItemDelimitationItem)                   #   0, 0 ItemDelimitationItem\n(fffe,e0dd) na (SequenceDelimitationItem)               #   0, 0 SequenceDelimitationItem\n",
        ..EMPTY
    },
    Row {
        name: "an item longer than all",
        words: "dcmdump -",
        start: Start::ExplicitLittle,
        input: b"\x08\0@\x11SQ\0\0\x10\0\0\0\xfe\xff\0\xe0\xfe\xff\xff\xff",
        header: Start::ExplicitLittle,
        lines: b"(0008,1140) SQ (Sequence with explicit length)          #  16, 1 ReferencedImageSequence\n",
        status: 2,
        told: b"dcmtools: R10 at byte 184: passes the end of its container\n",
    },
];

/// Heads of files.
static HEADS: [Row; 10] = [
    Row {
        name: "a file without elements",
        words: "dcmdump -",
        start: Start::ExplicitLittle,
        header: Start::ExplicitLittle,
        ..EMPTY
    },
    Row {
        name: "a deflated syntax",
        words: "dcmdump -",
        input: b"\0\0\0\0\0\0\0\0\0\0\0\0\0\0\0\0\0\0\0\0\0\0\0\0\0\0\0\0\0\0\0\0\0\0\0\0\0\0\0\0\0\0\0\0\0\0\0\0\0\0\0\0\0\0\0\0\0\0\0\0\0\0\0\0\0\0\0\0\0\0\0\0\0\0\0\0\0\0\0\0\0\0\0\0\0\0\0\0\0\0\0\0\0\0\0\0\0\0\0\0\0\0\0\0\0\0\0\0\0\0\0\0\0\0\0\0\0\0\0\0\0\0\0\0\0\0\0\0DICM\x02\0\0\0UL\x04\0\x1e\0\0\0\x02\0\x10\0UI\x16\01.2.840.10008.1.2.1.99",
        status: 2,
        told: b"dcmtools: R6 at byte 174: deflated transfer syntax\n",
        ..EMPTY
    },
    Row {
        name: "no bytes",
        words: "dcmdump -",
        status: 2,
        told: b"dcmtools: R1 at byte 0: input ends too early\n",
        ..EMPTY
    },
    Row {
        name: "no prefix",
        words: "dcmdump -",
        input: b"\0\0\0\0\0\0\0\0\0\0\0\0\0\0\0\0\0\0\0\0\0\0\0\0\0\0\0\0\0\0\0\0\0\0\0\0\0\0\0\0\0\0\0\0\0\0\0\0\0\0\0\0\0\0\0\0\0\0\0\0\0\0\0\0\0\0\0\0\0\0\0\0\0\0\0\0\0\0\0\0\0\0\0\0\0\0\0\0\0\0\0\0\0\0\0\0\0\0\0\0\0\0\0\0\0\0\0\0\0\0\0\0\0\0\0\0\0\0\0\0\0\0\0\0\0\0\0\0\0\0\0\0",
        status: 2,
        told: b"dcmtools: R2 at byte 128: no DICM prefix\n",
        ..EMPTY
    },
    Row {
        name: "an end within the meta group",
        words: "dcmdump -",
        input: b"\0\0\0\0\0\0\0\0\0\0\0\0\0\0\0\0\0\0\0\0\0\0\0\0\0\0\0\0\0\0\0\0\0\0\0\0\0\0\0\0\0\0\0\0\0\0\0\0\0\0\0\0\0\0\0\0\0\0\0\0\0\0\0\0\0\0\0\0\0\0\0\0\0\0\0\0\0\0\0\0\0\0\0\0\0\0\0\0\0\0\0\0\0\0\0\0\0\0\0\0\0\0\0\0\0\0\0\0\0\0\0\0\0\0\0\0\0\0\0\0\0\0\0\0\0\0\0\0DICM\x02\0\0\0UL\x04\0\x1c\0\0\0\x02\0\x10\0UI\x14\01.2.840.10008.1.2.1",
        status: 2,
        told: b"dcmtools: R1 at byte 171: input ends too early\n",
        ..EMPTY
    },
    Row {
        name: "one byte behind the meta group",
        words: "dcmdump -",
        start: Start::ExplicitLittle,
        input: b"\x02",
        status: 2,
        told: b"dcmtools: R1 at byte 173: input ends too early\n",
        ..EMPTY
    },
    Row {
        name: "two bytes",
        words: "dcmdump -",
        input: b"\0\0\0\0\0\0\0\0\0\0\0\0\0\0\0\0\0\0\0\0\0\0\0\0\0\0\0\0\0\0\0\0\0\0\0\0\0\0\0\0\0\0\0\0\0\0\0\0\0\0\0\0\0\0\0\0\0\0\0\0\0\0\0\0\0\0\0\0\0\0\0\0\0\0\0\0\0\0\0\0\0\0\0\0\0\0\0\0\0\0\0\0\0\0\0\0\0\0\0\0\0\0\0\0\0\0\0\0\0\0\0\0\0\0\0\0\0\0\0\0\0\0\0\0\0\0\0\0DICM\x02\0\0\0UL\x04\0*\0\0\0\x02\0\x01\0OB\0\0\x02\0\0\0\0\x01\x02\0\x10\0UI\x14\01.2.840.10008.1.2.1\0",
        lines: b"# Dicom-File-Format\n\n# Dicom-Meta-Information-Header\n# Used TransferSyntax: LittleEndianExplicit\n(0002,0000) UL 42                                       #   4, 1 FileMetaInformationGroupLength\n(0002,0001) OB 00\\01                                    #   2, 1 FileMetaInformationVersion\n(0002,0010) UI =LittleEndianExplicit                    #  20, 1 TransferSyntaxUID\n\n# Dicom-Data-Set\n# Used TransferSyntax: LittleEndianExplicit\n",
        ..EMPTY
    },
    Row {
        name: "a meta group past its limit",
        words: "dcmdump -",
        start: Start::ExplicitLittle,
        input: b"\x02\0\x02\x01OB\0\0\xcd?\0\0",
        status: 2,
        told: b"dcmtools: R4 at byte 172: meta group too large\n",
        ..EMPTY
    },
    Row {
        name: "an end within the largest meta group",
        words: "dcmdump -",
        start: Start::ExplicitLittle,
        input: b"\x02\0\x02\x01OB\0\0\xcc?\0\0",
        status: 2,
        told: b"dcmtools: R1 at byte 184: input ends too early\n",
        ..EMPTY
    },
    Row {
        name: "a transfer syntax that ends as a comment of a dump by characters",
        words: "dcmdump -",
        start: Start::Prefix,
        input: b"\x02\0\x10\0UI\x12\01 (texts in UTF-8)",
        lines: b"# Dicom-File-Format\n\n# Dicom-Meta-Information-Header\n# Used TransferSyntax: LittleEndianExplicit\n(0002,0010) UI [1 (texts in UTF-8)]                     #  18, 1 TransferSyntaxUID\n\n# Dicom-Data-Set\n# Used TransferSyntax: 1 (texts in UTF-8%29\n",
        ..EMPTY
    },
];

/// Data sets alone, and elements that are unknown or refused.
static ELEMENTS: [Row; 5] = [
    Row {
        name: "an unknown tag in implicit",
        words: "dcmdump -",
        start: Start::Implicit,
        input: b"\x09\0\x01\x10\x02\0\0\0AB",
        header: Start::Implicit,
        lines: b"(0009,1001) UN 41\\42                                    #   2, 1 Unknown Tag & Data\n",
        ..EMPTY
    },
    Row {
        name: "a data set alone",
        words: "dcmdump -f -ti -",
        input: b"\x10\0\x10\0\x02\0\0\0AB",
        lines: b"# Dicom-Data-Set\n# Used TransferSyntax: LittleEndianImplicit\n(0010,0010) PN [AB]                                     #   2, 1 PatientName\n",
        ..EMPTY
    },
    Row {
        name: "letters that are no capitals",
        words: "dcmdump -",
        start: Start::ExplicitLittle,
        input: b"\x10\0\x10\0pn\x02\0",
        header: Start::ExplicitLittle,
        status: 2,
        told: b"dcmtools: R7 at byte 172: unknown value representation\n",
        ..EMPTY
    },
    Row {
        name: "no bytes of a data set alone",
        words: "dcmdump -f -te -",
        lines: b"# Dicom-Data-Set\n# Used TransferSyntax: LittleEndianExplicit\n",
        ..EMPTY
    },
    Row {
        name: "an undefined length of very long words",
        words: "dcmdump -",
        start: Start::ExplicitLittle,
        input: b"\x09\0\x01\x10OV\0\0\xff\xff\xff\xff",
        header: Start::ExplicitLittle,
        status: 2,
        told: b"dcmtools: R8 at byte 172: undefined length not allowed\n",
        ..EMPTY
    },
];

/// Files that are dumped.
pub fn dumps() -> [&'static [Row]; 5] {
    [&TEXTS, &NUMBERS, &SEQUENCES, &HEADS, &ELEMENTS]
}
