// Files that are built from the lines of a dump.
use crate::runs::rows::{EMPTY, Row};
use dcm_test_devices::Start;

/// Lines that build a file.
static BUILT: [Row; 9] = [
    Row {
        name: "a meta group alone",
        words: "dump2dcm - -",
        input: b"(0002,0010) UI =LittleEndianExplicit\n",
        header: Start::ExplicitLittle,
        ..EMPTY
    },
    Row {
        name: "a name",
        words: "dump2dcm -e - -",
        input: b"(0002,0010) UI =LittleEndianExplicit\n(0010,0010) PN [AB^CD]                                  #   6, 1 PatientName\n",
        header: Start::ExplicitLittle,
        lines: b"\x10\0\x10\0PN\x06\0AB^CD ",
        ..EMPTY
    },
    Row {
        name: "a carriage return, comments, and no newline",
        words: "dump2dcm - -",
        input: b"# a dump\r\n\r\n(0002,0010) UI [1.2.840.10008.1.2]\r\n  (0010,0010) PN [A%5d] # a name",
        header: Start::Implicit,
        lines: b"\x10\0\x10\0\x02\0\0\0A]",
        ..EMPTY
    },
    Row {
        name: "a number in big endian",
        words: "dump2dcm - -",
        input: b"(0002,0010) UI =BigEndianExplicit\n(0028,0010) US 258\\3\n",
        header: Start::Big,
        lines: b"\0(\0\x10US\0\x04\x01\x02\0\x03",
        ..EMPTY
    },
    Row {
        name: "items",
        words: "dump2dcm - -",
        input: b"(0002,0010) UI =LittleEndianExplicit\n(0008,1140) SQ (Sequence with explicit length #=1)\n  (fffe,e000) na (Item with explicit length #=1)\n    (0008,1155) UI [1.2]\n  (fffe,e00d) na (ItemDelimitationItem)\n(fffe,e0dd) na (SequenceDelimitationItem)\n(0010,0020) LO (no value available)\n",
        header: Start::ExplicitLittle,
        lines: b"\x08\0@\x11SQ\0\0\xff\xff\xff\xff\xfe\xff\0\xe0\xff\xff\xff\xff\x08\0U\x11UI\x04\01.2\0\xfe\xff\r\xe0\0\0\0\0\xfe\xff\xdd\xe0\0\0\0\0\x10\0 \0LO\0\0",
        ..EMPTY
    },
    Row {
        name: "fragments that are whole",
        words: "dump2dcm - -",
        input: b"(0002,0010) UI =JPEGBaseline\n(7fe0,0010) OB (PixelSequence #=2)\n  (fffe,e000) pi (no value available)\n  (fffe,e000) pi ff\\d8\\01\n(fffe,e0dd) na (SequenceDelimitationItem)\n",
        header: Start::Jpeg,
        lines: b"\xe0\x7f\x10\0OB\0\0\xff\xff\xff\xff\xfe\xff\0\xe0\0\0\0\0\xfe\xff\0\xe0\x04\0\0\0\xff\xd8\x01\0\xfe\xff\xdd\xe0\0\0\0\0",
        ..EMPTY
    },
    Row {
        name: "the highest number",
        words: "dump2dcm - -",
        input: b"(0002,0010) UI =LittleEndianExplicit\n(0009,1001) UV 18446744073709551615",
        header: Start::ExplicitLittle,
        lines: b"\x09\0\x01\x10UV\0\0\x08\0\0\0\xff\xff\xff\xff\xff\xff\xff\xff",
        ..EMPTY
    },
    Row {
        name: "a line of just the limit",
        words: "dump2dcm +l 080 - -",
        input: b"(0002,0010) UI =LittleEndianExplicit\n(0010,4000) LT [aaaaaaaaaaaaaaaaaaaaaaaaaaaaaaaaaaaaaaaaaaaaaaaaaaaaaaaaaaaaaaa]\n",
        header: Start::ExplicitLittle,
        lines: b"\x10\0\0@LT@\0aaaaaaaaaaaaaaaaaaaaaaaaaaaaaaaaaaaaaaaaaaaaaaaaaaaaaaaaaaaaaaa ",
        ..EMPTY
    },
    Row {
        name: "an unknown sequence of known length",
        words: "dump2dcm - -",
        input: b"# Dicom-File-Format\n\n# Dicom-Meta-Information-Header\n# Used TransferSyntax: LittleEndianExplicit\n(0002,0000) UL 28                                       #   4, 1 FileMetaInformationGroupLength\n(0002,0010) UI =LittleEndianExplicit                    #  20, 1 TransferSyntaxUID\n\n# Dicom-Data-Set\n# Used TransferSyntax: LittleEndianExplicit\n(0008,1140) UN (Sequence with explicit length)          #  20, 1 ReferencedImageSequence\n  (fffe,e000) na (Item with explicit length)              #  12, 1 Item\n    (0010,0020) LO [1234]                                   #   4, 1 PatientID\n  (fffe,e00d) na (ItemDelimitationItem for re-encoding)   #   0, 0 ItemDelimitationItem\n(fffe,e0dd) na (SequenceDelimitationItem for re-encod.) #   0, 0 SequenceDelimitationItem\n",
        header: Start::ExplicitLittle,
        lines: b"\x08\0@\x11SQ\0\0\xff\xff\xff\xff\xfe\xff\0\xe0\xff\xff\xff\xff\x10\0 \0LO\x04\01234\xfe\xff\x0d\xe0\0\0\0\0\xfe\xff\xdd\xe0\0\0\0\0",
        ..EMPTY
    },
];

/// Lines at fault.
static FAULTS: [Row; 10] = [
    Row {
        name: "no lines",
        words: "dump2dcm - -",
        status: 2,
        told: b"dcmtools: B7 at byte 0, line 1: no usable transfer syntax\n",
        ..EMPTY
    },
    Row {
        name: "an element without a meta group",
        words: "dump2dcm - -",
        input: b"(0010,0010) PN [A]",
        status: 2,
        told: b"dcmtools: B7 at byte 0, line 1: no usable transfer syntax\n",
        ..EMPTY
    },
    Row {
        name: "fragments",
        words: "dump2dcm - -",
        input: b"(0002,0010) UI =JPEGBaseline\n(7fe0,0010) OB (PixelSequence #=2)\n  (fffe,e000) pi (no value available)\n  (fffe,e000) pi ff\\d8\\1\n",
        header: Start::Jpeg,
        lines: b"\xe0\x7f\x10\0OB\0\0\xff\xff\xff\xff\xfe\xff\0\xe0\0\0\0\0",
        status: 2,
        told: b"dcmtools: B3 at byte 102, line 4: value does not fit\n",
        ..EMPTY
    },
    Row {
        name: "a line without a value",
        words: "dump2dcm - -",
        input: b"(0002,0010) UI =LittleEndianExplicit\n(0010,0010) PN",
        status: 2,
        told: b"dcmtools: B2 at byte 37, line 2: not a dump line\n",
        ..EMPTY
    },
    Row {
        name: "an end of nothing",
        words: "dump2dcm - -",
        input: b"(0002,0010) UI =LittleEndianExplicit\n(fffe,e00d) na (ItemDelimitationItem)",
        header: Start::ExplicitLittle,
        status: 2,
        told: b"dcmtools: B4 at byte 37, line 2: not allowed here\n",
        ..EMPTY
    },
    Row {
        name: "tags that descend",
        words: "dump2dcm - -",
        input: b"(0002,0010) UI =LittleEndianExplicit\n(0010,0020) LO [7]\n(0010,0010) PN [A]\n",
        header: Start::ExplicitLittle,
        lines: b"\x10\0 \0LO\x02\07 ",
        status: 2,
        told: b"dcmtools: B5 at byte 56, line 3: tags not ascending\n",
        ..EMPTY
    },
    Row {
        name: "the meta group again",
        words: "dump2dcm - -",
        input: b"(0002,0010) UI =LittleEndianExplicit\n(0010,0010) PN [A]\n(0002,0010) UI =LittleEndianExplicit\n",
        header: Start::ExplicitLittle,
        lines: b"\x10\0\x10\0PN\x02\0A ",
        status: 2,
        told: b"dcmtools: B6 at byte 56, line 3: bad meta group\n",
        ..EMPTY
    },
    Row {
        name: "an open sequence",
        words: "dump2dcm - -",
        input: b"(0002,0010) UI =LittleEndianExplicit\n(0008,1140) SQ (Sequence with undefined length)\n",
        header: Start::ExplicitLittle,
        lines: b"\x08\0@\x11SQ\0\0\xff\xff\xff\xff",
        status: 2,
        told: b"dcmtools: B9 at byte 85, line 3: input ends too early\n",
        ..EMPTY
    },
    Row {
        name: "a number too high",
        words: "dump2dcm - -",
        input: b"(0002,0010) UI =LittleEndianExplicit\n(0009,1001) UV 18446744073709551616",
        header: Start::ExplicitLittle,
        status: 2,
        told: b"dcmtools: B3 at byte 37, line 2: value does not fit\n",
        ..EMPTY
    },
    Row {
        name: "a line past the limit",
        words: "dump2dcm +l 080 - -",
        input: b"(0002,0010) UI =LittleEndianExplicit\n(0010,4000) LT [aaaaaaaaaaaaaaaaaaaaaaaaaaaaaaaaaaaaaaaaaaaaaaaaaaaaaaaaaaaaaaaa]\n",
        status: 2,
        told: b"dcmtools: B1 at byte 37, line 2: line too long\n",
        ..EMPTY
    },
];

/// Lines that say that texts are shown as characters, and comments that do not.
static MARKS: [Row; 9] = [
    Row {
        name: "a dump by characters",
        words: "dump2dcm - -",
        input: b"# Dicom-File-Format (texts in UTF-8)\n\n(0002,0010) UI =LittleEndianExplicit\n(0010,0010) PN [A]\n",
        status: 2,
        told: b"dcmtools: B10 at byte 0, line 1: a dump by characters\n",
        ..EMPTY
    },
    Row {
        name: "a data set by characters",
        words: "dump2dcm - -",
        input: b"(0002,0010) UI =LittleEndianExplicit\n(0010,0010) PN [A]\n# Dicom-Data-Set (texts in UTF-8)\n(0010,0020) LO [7]\n",
        header: Start::ExplicitLittle,
        lines: b"\x10\0\x10\0PN\x02\0A ",
        status: 2,
        told: b"dcmtools: B10 at byte 56, line 3: a dump by characters\n",
        ..EMPTY
    },
    Row {
        name: "the last line, which has no newline",
        words: "dump2dcm - -",
        input: b"(0002,0010) UI =LittleEndianExplicit\n(0010,0010) PN [A]\n   #(texts in UTF-8)",
        header: Start::ExplicitLittle,
        lines: b"\x10\0\x10\0PN\x02\0A ",
        status: 2,
        told: b"dcmtools: B10 at byte 56, line 3: a dump by characters\n",
        ..EMPTY
    },
    Row {
        name: "spaces and a carriage return behind the mark",
        words: "dump2dcm - -",
        input: b"(0002,0010) UI =LittleEndianExplicit\n\n# (texts in UTF-8)  \r\n(0010,0010) PN [A]\n",
        status: 2,
        told: b"dcmtools: B10 at byte 38, line 3: a dump by characters\n",
        ..EMPTY
    },
    Row {
        name: "a comment of just the limit",
        words: "dump2dcm +l 80 - -",
        input: b"#                                                               (texts in UTF-8)\n",
        status: 2,
        told: b"dcmtools: B10 at byte 0, line 1: a dump by characters\n",
        ..EMPTY
    },
    Row {
        name: "a comment past the limit",
        words: "dump2dcm +l 80 - -",
        input: b"#                                                                (texts in UTF-8)\n",
        status: 2,
        told: b"dcmtools: B1 at byte 0, line 1: line too long\n",
        ..EMPTY
    },
    Row {
        name: "a mark that is no comment",
        words: "dump2dcm - -",
        input: b"(0002,0010) UI =LittleEndianExplicit\n(texts in UTF-8)\n",
        status: 2,
        told: b"dcmtools: B2 at byte 37, line 2: not a dump line\n",
        ..EMPTY
    },
    Row {
        name: "a tabulator before it",
        words: "dump2dcm - -",
        input: b"\t# (texts in UTF-8)\n(0002,0010) UI =LittleEndianExplicit\n",
        status: 2,
        told: b"dcmtools: B2 at byte 0, line 1: not a dump line\n",
        ..EMPTY
    },
    Row {
        name: "comments without the mark",
        words: "dump2dcm - -",
        input: b"# Dicom-File-Format\n# (texts in UTF-8).\n# (texts in UTF-8) x\n# (Texts in UTF-8)\n# texts in UTF-8\n# (texts in UTF-8\n# (texts in UTF-8)\r\r\n(0002,0010) UI =LittleEndianExplicit\n(0010,0010) PN [A] # (texts in UTF-8)\n",
        header: Start::ExplicitLittle,
        lines: b"\x10\0\x10\0PN\x02\0A ",
        ..EMPTY
    },
];

/// Files that are built from lines.
pub fn buildings() -> [&'static [Row]; 3] {
    [&BUILT, &FAULTS, &MARKS]
}
