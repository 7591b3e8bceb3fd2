// Runs with the whole dictionary of PS3.6, and with the extract beside it: dumps, conversions and edits of elements
// that the extract lacks, and what is wanted of them.
use crate::runs::rows::{EMPTY, Row};
use dcm_test_devices::Start;

/// Dumps.
static DUMPS: [Row; 11] = [
    Row {
        name: "an element that the extract lacks",
        words: "dcmdump -",
        start: Start::ExplicitLittle,
        input: b"\x18\0Q\x11IS\x04\0120 ",
        header: Start::ExplicitLittle,
        lines: b"(0018,1151) IS [120]                                    #   4, 1 Unknown Tag & Data\n",
        ..EMPTY
    },
    Row {
        name: "the same with the whole dictionary",
        words: "dcmdump +dict -",
        start: Start::ExplicitLittle,
        input: b"\x18\0Q\x11IS\x04\0120 ",
        header: Start::ExplicitLittle,
        lines: b"(0018,1151) IS [120]                                    #   4, 1 XRayTubeCurrent\n",
        ..EMPTY
    },
    Row {
        name: "the last of two dictionaries",
        words: "dcmdump +dict - -dict",
        start: Start::ExplicitLittle,
        input: b"\x18\0Q\x11IS\x04\0120 ",
        header: Start::ExplicitLittle,
        lines: b"(0018,1151) IS [120]                                    #   4, 1 Unknown Tag & Data\n",
        ..EMPTY
    },
    Row {
        name: "an implicit sequence that the extract lacks",
        words: "dcmdump -",
        start: Start::Implicit,
        input: b"\n0\x10\0\x12\0\0\0\xfe\xff\0\xe0\n\0\0\0\n0\x12\0\x02\0\0\01 ",
        header: Start::Implicit,
        lines: b"(300a,0010) UN fe\\ff\\00\\e0\\0a\\00\\00\\00\\0a\\30\\12\\00\\02\\00\\00\\00\\31\\20 #  18, 1 Unknown Tag & Data\n",
        ..EMPTY
    },
    Row {
        name: "the same sequence with the whole dictionary",
        words: "dcmdump - +dict",
        start: Start::Implicit,
        input: b"\n0\x10\0\x12\0\0\0\xfe\xff\0\xe0\n\0\0\0\n0\x12\0\x02\0\0\01 ",
        header: Start::Implicit,
        lines: b"(300a,0010) SQ (Sequence with explicit length)          #  18, 1 DoseReferenceSequence\n  (fffe,e000) na (Item with explicit length)              #  10, 1 Item\n    (300a,0012) IS [1]                                      #   2, 1 DoseReferenceNumber\n  (fffe,e00d) na (ItemDelimitationItem for re-encoding)   #   0, 0 ItemDelimitationItem\n(fffe,e0dd) na (SequenceDelimitationItem for re-encod.) #   0, 0 SequenceDelimitationItem\n",
        ..EMPTY
    },
    Row {
        name: "a data set alone",
        words: "dcmdump -f +dict -ti +L -",
        input: b"\n0\x10\0\x12\0\0\0\xfe\xff\0\xe0\n\0\0\0\n0\x12\0\x02\0\0\01 ",
        lines: b"# Dicom-Data-Set\n# Used TransferSyntax: LittleEndianImplicit\n(300a,0010) SQ (Sequence with explicit length)          #  18, 1 DoseReferenceSequence\n  (fffe,e000) na (Item with explicit length)              #  10, 1 Item\n    (300a,0012) IS [1]                                      #   2, 1 DoseReferenceNumber\n  (fffe,e00d) na (ItemDelimitationItem for re-encoding)   #   0, 0 ItemDelimitationItem\n(fffe,e0dd) na (SequenceDelimitationItem for re-encod.) #   0, 0 SequenceDelimitationItem\n",
        ..EMPTY
    },
    Row {
        name: "unknown of undefined length in big endian",
        words: "dcmdump +dict -",
        start: Start::Big,
        input: b"\0\x09\x10\x10UN\0\0\xff\xff\xff\xff\xfe\xff\0\xe0\xff\xff\xff\xff\n0\x12\0\x02\0\0\01 \xfe\xff\x0d\xe0\0\0\0\0\xfe\xff\xdd\xe0\0\0\0\0",
        header: Start::Big,
        lines: b"(0009,1010) UN (Sequence with undefined length)         # u/l, 1 Unknown Tag & Data\n  (fffe,e000) na (Item with undefined length)             # u/l, 1 Item\n    (300a,0012) IS [1]                                      #   2, 1 DoseReferenceNumber\n  (fffe,e00d) na (ItemDelimitationItem)                   #   0, 0 ItemDelimitationItem\n(fffe,e0dd) na (SequenceDelimitationItem)               #   0, 0 SequenceDelimitationItem\n",
        ..EMPTY
    },
    Row {
        name: "an element of the meta group",
        words: "dcmdump +dict -",
        input: b"\0\0\0\0\0\0\0\0\0\0\0\0\0\0\0\0\0\0\0\0\0\0\0\0\0\0\0\0\0\0\0\0\0\0\0\0\0\0\0\0\0\0\0\0\0\0\0\0\0\0\0\0\0\0\0\0\0\0\0\0\0\0\0\0\0\0\0\0\0\0\0\0\0\0\0\0\0\0\0\0\0\0\0\0\0\0\0\0\0\0\0\0\0\0\0\0\0\0\0\0\0\0\0\0\0\0\0\0\0\0\0\0\0\0\0\0\0\0\0\0\0\0\0\0\0\0\0\0DICM\x02\0\0\0UL\x04\0&\0\0\0\x02\0\x10\0UI\x14\01.2.840.10008.1.2.1\0\x02\0\x17\0AE\x02\0A \x10\0\x10\0PN\x02\0AB",
        lines: b"# Dicom-File-Format\n\n# Dicom-Meta-Information-Header\n# Used TransferSyntax: LittleEndianExplicit\n(0002,0000) UL 38                                       #   4, 1 FileMetaInformationGroupLength\n(0002,0010) UI =LittleEndianExplicit                    #  20, 1 TransferSyntaxUID\n(0002,0017) AE [A]                                      #   2, 1 SendingApplicationEntityTitle\n\n# Dicom-Data-Set\n# Used TransferSyntax: LittleEndianExplicit\n(0010,0010) PN [AB]                                     #   2, 1 PatientName\n",
        ..EMPTY
    },
    Row {
        name: "elements between two representations, and of a repeating group",
        words: "dcmdump +dict -",
        start: Start::Implicit,
        input: b"(\0\x06\x01\x02\0\0\0\x01\x02\0T\x10\x10\x02\0\0\0\x01\x02\0`\00\x02\0\0\0\x01\x02",
        header: Start::Implicit,
        lines: b"(0028,0106) US 513                                      #   2, 1 SmallestImagePixelValue\n(5400,1010) OW 0201                                     #   2, 1 WaveformData\n(6000,3000) UN 01\\02                                    #   2, 1 Unknown Tag & Data\n",
        ..EMPTY
    },
    Row {
        name: "a value where the whole dictionary has a sequence",
        words: "dcmdump +dict -",
        start: Start::Implicit,
        input: b"\n0\x10\0\x02\0\0\0ab",
        header: Start::Implicit,
        lines: b"(300a,0010) SQ (Sequence with explicit length)          #   2, 1 DoseReferenceSequence\n",
        status: 2,
        told: b"dcmtools: R10 at byte 178: passes the end of its container\n",
    },
    Row {
        name: "an end within a value of a sequence",
        words: "dcmdump +L +dict -",
        start: Start::Implicit,
        input: b"\n0\x10\0\x12\0\0\0\xfe\xff\0\xe0\n\0\0\0\n0\x12\0\x02\0\0\01",
        header: Start::Implicit,
        lines: b"(300a,0010) SQ (Sequence with explicit length)          #  18, 1 DoseReferenceSequence\n  (fffe,e000) na (Item with explicit length)              #  10, 1 Item\n    (300a,0012) IS [1",
        status: 2,
        told: b"dcmtools: R1 at byte 195: input ends too early\n",
    },
];

/// Conversions.
static CONVERSIONS: [Row; 7] = [
    Row {
        name: "an implicit sequence to explicit",
        words: "dcmconv +te +dict - -",
        start: Start::Implicit,
        input: b"\n0\x10\0\x12\0\0\0\xfe\xff\0\xe0\n\0\0\0\n0\x12\0\x02\0\0\01 ",
        header: Start::ExplicitLittle,
        lines: b"\n0\x10\0SQ\0\0\xff\xff\xff\xff\xfe\xff\0\xe0\xff\xff\xff\xff\n0\x12\0IS\x02\01 \xfe\xff\x0d\xe0\0\0\0\0\xfe\xff\xdd\xe0\0\0\0\0",
        ..EMPTY
    },
    Row {
        name: "an implicit sequence to explicit with the extract",
        words: "dcmconv +te - -",
        start: Start::Implicit,
        input: b"\n0\x10\0\x12\0\0\0\xfe\xff\0\xe0\n\0\0\0\n0\x12\0\x02\0\0\01 ",
        header: Start::ExplicitLittle,
        lines: b"\n0\x10\0UN\0\0\x12\0\0\0\xfe\xff\0\xe0\n\0\0\0\n0\x12\0\x02\0\0\01 ",
        ..EMPTY
    },
    Row {
        name: "a number of the standard and a sequence to big endian",
        words: "dcmconv +dict - +tb -",
        start: Start::Implicit,
        input: b"\x18\0s\x90\x08\0\0\0\x01\x02\x03\x04\x05\x06\x07\x08\n0\x10\0\x12\0\0\0\xfe\xff\0\xe0\n\0\0\0\n0\x12\0\x02\0\0\01 ",
        header: Start::Big,
        lines: b"\0\x18\x90sFD\0\x08\x08\x07\x06\x05\x04\x03\x02\x010\n\0\x10SQ\0\0\xff\xff\xff\xff\xff\xfe\xe0\0\xff\xff\xff\xff0\n\0\x12IS\0\x021 \xff\xfe\xe0\x0d\0\0\0\0\xff\xfe\xe0\xdd\0\0\0\0",
        ..EMPTY
    },
    Row {
        name: "an implicit sequence to implicit",
        words: "dcmconv +dict - -",
        start: Start::Implicit,
        input: b"\n0\x10\0\x12\0\0\0\xfe\xff\0\xe0\n\0\0\0\n0\x12\0\x02\0\0\01 ",
        header: Start::Implicit,
        lines: b"\n0\x10\0\xff\xff\xff\xff\xfe\xff\0\xe0\xff\xff\xff\xff\n0\x12\0\x02\0\0\01 \xfe\xff\x0d\xe0\0\0\0\0\xfe\xff\xdd\xe0\0\0\0\0",
        ..EMPTY
    },
    Row {
        name: "a sequence of the standard to implicit",
        words: "dcmconv +ti - - +dict",
        start: Start::ExplicitLittle,
        input: b"\n0\x10\0SQ\0\0\x11\0\0\0\xfe\xff\0\xe0\x09\0\0\0\n0\x12\0IS\x01\01",
        header: Start::Implicit,
        lines: b"\n0\x10\0\xff\xff\xff\xff\xfe\xff\0\xe0\xff\xff\xff\xff\n0\x12\0\x02\0\0\01 \xfe\xff\x0d\xe0\0\0\0\0\xfe\xff\xdd\xe0\0\0\0\0",
        ..EMPTY
    },
    Row {
        name: "unknown of undefined length to explicit",
        words: "dcmconv +dict +te - -",
        start: Start::Big,
        input: b"\0\x09\x10\x10UN\0\0\xff\xff\xff\xff\xfe\xff\0\xe0\xff\xff\xff\xff\n0\x12\0\x02\0\0\01 \xfe\xff\x0d\xe0\0\0\0\0\xfe\xff\xdd\xe0\0\0\0\0",
        header: Start::ExplicitLittle,
        lines: b"\x09\0\x10\x10SQ\0\0\xff\xff\xff\xff\xfe\xff\0\xe0\xff\xff\xff\xff\n0\x12\0IS\x02\01 \xfe\xff\x0d\xe0\0\0\0\0\xfe\xff\xdd\xe0\0\0\0\0",
        ..EMPTY
    },
    Row {
        name: "an end within numbers of the standard to big endian",
        words: "dcmconv +tb +dict - -",
        start: Start::Implicit,
        input: b"\x18\0s\x90\x10\0\0\0\x01\x02\x03\x04\x05\x06\x07\x08\x01",
        header: Start::Big,
        lines: b"\0\x18\x90sFD\0\x10\x08\x07\x06\x05\x04\x03\x02\x01",
        status: 2,
        told: b"dcmtools: R1 at byte 187: input ends too early\n",
    },
];

/// Edits.
static EDITS: [Row; 10] = [
    Row {
        name: "a value by its keyword",
        words: "dcmodify +dict -m XRayTubeCurrent=90 - -",
        start: Start::ExplicitLittle,
        input: b"\x18\0Q\x11IS\x04\0120 ",
        header: Start::ExplicitLittle,
        lines: b"\x18\0Q\x11IS\x02\090",
        ..EMPTY
    },
    Row {
        name: "a value by its number, with the dictionary after it",
        words: "dcmodify -m (0018,1151)=90 +dict - -",
        start: Start::ExplicitLittle,
        input: b"\x18\0Q\x11IS\x04\0120 ",
        header: Start::ExplicitLittle,
        lines: b"\x18\0Q\x11IS\x02\090",
        ..EMPTY
    },
    Row {
        name: "a new element with the representation of the standard",
        words: "dcmodify -dict -i (0018,9073)=0102030405060708 +dict - -",
        start: Start::Big,
        input: b"\0\x10\0\x10PN\0\x02AB",
        header: Start::Big,
        lines: b"\0\x10\0\x10PN\0\x02AB\0\x18\x90sFD\0\x08\x01\x02\x03\x04\x05\x06\x07\x08",
        ..EMPTY
    },
    Row {
        name: "a value in an implicit sequence",
        words: "dcmodify +dict -m (300a,0010)[0].(300a,0012)=2 - -",
        start: Start::Implicit,
        input: b"\n0\x10\0\x12\0\0\0\xfe\xff\0\xe0\n\0\0\0\n0\x12\0\x02\0\0\01 ",
        header: Start::Implicit,
        lines: b"\n0\x10\0\xff\xff\xff\xff\xfe\xff\0\xe0\xff\xff\xff\xff\n0\x12\0\x02\0\0\02 \xfe\xff\x0d\xe0\0\0\0\0\xfe\xff\xdd\xe0\0\0\0\0",
        ..EMPTY
    },
    Row {
        name: "a missing sequence of the standard",
        words: "dcmodify -i DoseReferenceSequence[0].DoseReferenceNumber=1 +dict - -",
        start: Start::ExplicitLittle,
        input: b"\x10\0\x10\0PN\x02\0AB",
        header: Start::ExplicitLittle,
        lines: b"\x10\0\x10\0PN\x02\0AB\n0\x10\0SQ\0\0\xff\xff\xff\xff\xfe\xff\0\xe0\xff\xff\xff\xff\n0\x12\0IS\x02\01 \xfe\xff\x0d\xe0\0\0\0\0\xfe\xff\xdd\xe0\0\0\0\0",
        ..EMPTY
    },
    Row {
        name: "a value within unknown of undefined length",
        words: "dcmodify +dict -ma (300a,0012)=23 - -",
        start: Start::ExplicitLittle,
        input: b"\x09\0\x10\x10UN\0\0\xff\xff\xff\xff\xfe\xff\0\xe0\xff\xff\xff\xff\n0\x12\0\x02\0\0\01 \xfe\xff\x0d\xe0\0\0\0\0\xfe\xff\xdd\xe0\0\0\0\0",
        header: Start::ExplicitLittle,
        lines: b"\x09\0\x10\x10SQ\0\0\xff\xff\xff\xff\xfe\xff\0\xe0\xff\xff\xff\xff\n0\x12\0IS\x02\023\xfe\xff\x0d\xe0\0\0\0\0\xfe\xff\xdd\xe0\0\0\0\0",
        ..EMPTY
    },
    Row {
        name: "a private element in an opaque value",
        words: "dcmodify +dict -ep -dict - -",
        start: Start::Implicit,
        input: b"\n0\x10\0\x1c\0\0\0\xfe\xff\0\xe0\x14\0\0\0\x09\0\x10\0\x02\0\0\0AB\n0\x12\0\x02\0\0\01 ",
        header: Start::Implicit,
        lines: b"\n0\x10\0\x1c\0\0\0\xfe\xff\0\xe0\x14\0\0\0\x09\0\x10\0\x02\0\0\0AB\n0\x12\0\x02\0\0\01 ",
        status: 3,
        told: b"dcmtools: edit 1 found no place\n",
    },
    Row {
        name: "a private element in a sequence of the standard",
        words: "dcmodify -ep +dict - -",
        start: Start::Implicit,
        input: b"\n0\x10\0\x1c\0\0\0\xfe\xff\0\xe0\x14\0\0\0\x09\0\x10\0\x02\0\0\0AB\n0\x12\0\x02\0\0\01 ",
        header: Start::Implicit,
        lines: b"\n0\x10\0\xff\xff\xff\xff\xfe\xff\0\xe0\xff\xff\xff\xff\n0\x12\0\x02\0\0\01 \xfe\xff\x0d\xe0\0\0\0\0\xfe\xff\xdd\xe0\0\0\0\0",
        ..EMPTY
    },
    Row {
        name: "two edits of which the second finds no place",
        words: "dcmodify -ea (300a,0012) +dict -m (300a,0002)=A - -",
        start: Start::Implicit,
        input: b"\n0\x10\0\x12\0\0\0\xfe\xff\0\xe0\n\0\0\0\n0\x12\0\x02\0\0\01 ",
        header: Start::Implicit,
        lines: b"\n0\x10\0\xff\xff\xff\xff\xfe\xff\0\xe0\xff\xff\xff\xff\xfe\xff\x0d\xe0\0\0\0\0\xfe\xff\xdd\xe0\0\0\0\0",
        status: 3,
        told: b"dcmtools: edit 2 found no place\n",
    },
    Row {
        name: "a replaced value of an implicit sequence that is cut",
        words: "dcmodify +dict -m (300a,0010)[0].(300a,0012)=234 - -",
        start: Start::Implicit,
        input: b"\n0\x10\0\x12\0\0\0\xfe\xff\0\xe0\n\0\0\0\n0\x12\0\x02\0\0\01",
        header: Start::Implicit,
        lines: b"\n0\x10\0\xff\xff\xff\xff\xfe\xff\0\xe0\xff\xff\xff\xff\n0\x12\0\x04\0\0\0234 ",
        status: 2,
        told: b"dcmtools: R1 at byte 195: input ends too early\n",
    },
];

/// Runs with the whole dictionary.
pub fn dictionaries() -> [&'static [Row]; 3] {
    [&DUMPS, &CONVERSIONS, &EDITS]
}
