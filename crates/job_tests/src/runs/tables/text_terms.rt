// Dumps by characters: what names sets, and where they are in force.
use crate::runs::rows::{EMPTY, Row};
use dcm_test_devices::Start;

/// Values of (0008,0005).
static TERMS: [Row; 6] = [
    Row {
        name: "terms: unknown",
        words: "dcmdump +u8 +L +dict -",
        start: Start::ExplicitLittle,
        input: b"\x08\0\x05\0CS\x04\0FOO \x10\0 \0LO\x06\0a\xe9\x1b(B ",
        header: Start::ExplicitLittle,
        lines: b"(0008,0005) CS [FOO]                                    #   4, 1 SpecificCharacterSet\n(0010,0020) LO [a%E9%1B(B]                              #   6, 1 PatientID\n",
        told: b"dcmtools: character set is not known\n",
        ..EMPTY
    },
    Row {
        name: "terms: unknown and known",
        words: "dcmdump +u8 +L +dict -",
        start: Start::ExplicitLittle,
        input: b"\x08\0\x05\0CS\x1e\0FOO\\ISO 2022 IR 87\\ISO_IR 192 \x10\0 \0LO\x08\0\xc3\xa9\x1b$B;3 ",
        header: Start::ExplicitLittle,
        lines: b"(0008,0005) CS [FOO\\ISO 2022 IR 87\\ISO_IR 192]          #  30, 3 SpecificCharacterSet\n(0010,0020) LO [%C3%A9\xe5\xb1\xb1]                              #   8, 1 PatientID\n",
        told: b"dcmtools: character set is not known\n",
        ..EMPTY
    },
    Row {
        name: "terms: not a term",
        words: "dcmdump +u8 +L +dict -",
        start: Start::ExplicitLittle,
        input: b"\x08\0\x05\0CS\x10\0ISO 2022 IR 192 \x10\0 \0LO\x02\0\xc3\xa9",
        header: Start::ExplicitLittle,
        lines: b"(0008,0005) CS [ISO 2022 IR 192]                        #  16, 1 SpecificCharacterSet\n(0010,0020) LO [%C3%A9]                                 #   2, 1 PatientID\n",
        told: b"dcmtools: character set is not known\n",
        ..EMPTY
    },
    Row {
        name: "terms: case",
        words: "dcmdump +u8 +L +dict -",
        start: Start::ExplicitLittle,
        input: b"\x08\0\x05\0CS\n\0iso_ir 100\x10\0 \0LO\x02\0\xe9 ",
        header: Start::ExplicitLittle,
        lines: b"(0008,0005) CS [iso_ir 100]                             #  10, 1 SpecificCharacterSet\n(0010,0020) LO [%E9]                                    #   2, 1 PatientID\n",
        told: b"dcmtools: character set is not known\n",
        ..EMPTY
    },
    Row {
        name: "terms: 512 bytes",
        words: "dcmdump +u8 +L +dict -",
        start: Start::ExplicitLittle,
        input: b"\x08\0\x05\0CS\0\x02ISO_IR 100                                                                                                                                                                                                                                                                                                                                                                                                                                                                                                                      \x10\0 \0LO\x02\0\xe9 ",
        header: Start::ExplicitLittle,
        lines: b"(0008,0005) CS [ISO_IR 100                                                                                                                                                                                                                                                                                                                                                                                                                                                                                                                     ] # 512, 1 SpecificCharacterSet\n(0010,0020) LO [\xc3\xa9]                                     #   2, 1 PatientID\n",
        ..EMPTY
    },
    Row {
        name: "terms: 513 bytes",
        words: "dcmdump +u8 +L +dict -",
        start: Start::ExplicitLittle,
        input: b"\x08\0\x05\0CS\x02\x02ISO_IR 100                                                                                                                                                                                                                                                                                                                                                                                                                                                                                                                        \x10\0 \0LO\x02\0\xe9 ",
        header: Start::ExplicitLittle,
        lines: b"(0008,0005) CS [ISO_IR 100                                                                                                                                                                                                                                                                                                                                                                                                                                                                                                                       ] # 514, 1 SpecificCharacterSet\n(0010,0020) LO [%E9]                                    #   2, 1 PatientID\n",
        told: b"dcmtools: character set is not known\n",
        ..EMPTY
    },
];

/// Values of (0008,0005), continued.
static TERMS_MORE: [Row; 5] = [
    Row {
        name: "terms: 00",
        words: "dcmdump +u8 -",
        start: Start::ExplicitLittle,
        input: b"\x08\0\x05\0CS\x0c\0ISO_IR 100\0\0\x10\0 \0LO\x02\0\xe9 ",
        header: Start::ExplicitLittle,
        lines: b"(0008,0005) CS [ISO_IR 100%00%00]                       #  12, 1 SpecificCharacterSet\n(0010,0020) LO [\xc3\xa9]                                     #   2, 1 PatientID\n",
        ..EMPTY
    },
    Row {
        name: "terms: spaces",
        words: "dcmdump +u8 -",
        start: Start::ExplicitLittle,
        input: b"\x08\0\x05\0CS\x18\0  ISO_IR 100\\ ISO_IR 144\x10\0 \0LO\x02\0\xe9 ",
        header: Start::ExplicitLittle,
        lines: b"(0008,0005) CS [  ISO_IR 100\\ ISO_IR 144]               #  24, 2 SpecificCharacterSet\n(0010,0020) LO [\xc3\xa9]                                     #   2, 1 PatientID\n",
        ..EMPTY
    },
    Row {
        name: "terms: UN",
        words: "dcmdump +u8 -",
        start: Start::ExplicitLittle,
        input: b"\x08\0\x05\0UN\0\0\n\0\0\0ISO_IR 100\x10\0 \0LO\x02\0\xe9 ",
        header: Start::ExplicitLittle,
        lines: b"(0008,0005) UN 49\\53\\4f\\5f\\49\\52\\20\\31\\30\\30            #  10, 1 SpecificCharacterSet\n(0010,0020) LO [\xc3\xa9]                                     #   2, 1 PatientID\n",
        ..EMPTY
    },
    Row {
        name: "terms: OB",
        words: "dcmdump +u8 -",
        start: Start::ExplicitLittle,
        input: b"\x08\0\x05\0OB\0\0\n\0\0\0ISO_IR 100\x10\0 \0LO\x02\0\xe9 ",
        header: Start::ExplicitLittle,
        lines: b"(0008,0005) OB 49\\53\\4f\\5f\\49\\52\\20\\31\\30\\30            #  10, 1 SpecificCharacterSet\n(0010,0020) LO [%E9]                                    #   2, 1 PatientID\n",
        ..EMPTY
    },
    Row {
        name: "terms: twice",
        words: "dcmdump +u8 -",
        start: Start::ExplicitLittle,
        input: b"\x10\0 \0LO\x02\0\xe9 \x08\0\x05\0CS\n\0ISO_IR 100\x10\0 \0LO\x02\0\xe9 \x08\0\x05\0CS\n\0ISO_IR 144\x10\0 \0LO\x02\0\xe9 \x08\0\x05\0CS\0\0\x10\0 \0LO\x02\0\xe9 ",
        header: Start::ExplicitLittle,
        lines: b"(0010,0020) LO [%E9]                                    #   2, 1 PatientID\n(0008,0005) CS [ISO_IR 100]                             #  10, 1 SpecificCharacterSet\n(0010,0020) LO [\xc3\xa9]                                     #   2, 1 PatientID\n(0008,0005) CS [ISO_IR 144]                             #  10, 1 SpecificCharacterSet\n(0010,0020) LO [\xd1\x89]                                     #   2, 1 PatientID\n(0008,0005) CS (no value available)                     #   0, 0 SpecificCharacterSet\n(0010,0020) LO [%E9]                                    #   2, 1 PatientID\n",
        ..EMPTY
    },
];

/// Data sets and items.
static DATA_SETS: [Row; 4] = [
    Row {
        name: "data sets: items",
        words: "dcmdump +u8 -",
        start: Start::ExplicitLittle,
        input: b"\x08\0\x05\0CS\n\0ISO_IR 100\x08\0@\x11SQ\0\0\xff\xff\xff\xff\xfe\xff\0\xe0\xff\xff\xff\xff\x10\0 \0LO\x02\0\xe9 \x08\0\x05\0CS\n\0ISO_IR 144\x10\0 \0LO\x02\0\xe9 \xfe\xff\x0d\xe0\0\0\0\0\xfe\xff\0\xe0\xff\xff\xff\xff\x10\0 \0LO\x02\0\xe9 \xfe\xff\x0d\xe0\0\0\0\0\xfe\xff\0\xe0\xff\xff\xff\xff\x08\0\x05\0CS\0\0\x08\0@\x11SQ\0\0\xff\xff\xff\xff\xfe\xff\0\xe0\xff\xff\xff\xff\x10\0 \0LO\x02\0\xe9 \xfe\xff\x0d\xe0\0\0\0\0\xfe\xff\xdd\xe0\0\0\0\0\xfe\xff\x0d\xe0\0\0\0\0\xfe\xff\xdd\xe0\0\0\0\0\x10\0 \0LO\x02\0\xe9 ",
        header: Start::ExplicitLittle,
        lines: b"(0008,0005) CS [ISO_IR 100]                             #  10, 1 SpecificCharacterSet\n(0008,1140) SQ (Sequence with undefined length)         # u/l, 1 ReferencedImageSequence\n  (fffe,e000) na (Item with undefined length)             # u/l, 1 Item\n    (0010,0020) LO [\xc3\xa9]                                     #   2, 1 PatientID\n    (0008,0005) CS [ISO_IR 144]                             #  10, 1 SpecificCharacterSet\n    (0010,0020) LO [\xd1\x89]                                     #   2, 1 PatientID\n  (fffe,e00d) na (ItemDelimitationItem)                   #   0, 0 ItemDelimitationItem\n  (fffe,e000) na (Item with undefined length)             # u/l, 1 Item\n    (0010,0020) LO [\xc3\xa9]                                     #   2, 1 PatientID\n  (fffe,e00d) na (ItemDelimitationItem)                   #   0, 0 ItemDelimitationItem\n  (fffe,e000) na (Item with undefined length)             # u/l, 1 Item\n    (0008,0005) CS (no value available)                     #   0, 0 SpecificCharacterSet\n    (0008,1140) SQ (Sequence with undefined length)         # u/l, 1 ReferencedImageSequence\n      (fffe,e000) na (Item with undefined length)             # u/l, 1 Item\n        (0010,0020) LO [%E9]                                    #   2, 1 PatientID\n      (fffe,e00d) na (ItemDelimitationItem)                   #   0, 0 ItemDelimitationItem\n    (fffe,e0dd) na (SequenceDelimitationItem)               #   0, 0 SequenceDelimitationItem\n  (fffe,e00d) na (ItemDelimitationItem)                   #   0, 0 ItemDelimitationItem\n(fffe,e0dd) na (SequenceDelimitationItem)               #   0, 0 SequenceDelimitationItem\n(0010,0020) LO [\xc3\xa9]                                     #   2, 1 PatientID\n",
        ..EMPTY
    },
    Row {
        name: "data sets: implicit",
        words: "dcmdump +u8 -",
        start: Start::Implicit,
        input: b"\x08\0\x05\0\n\0\0\0ISO_IR 100\x10\0 \0\x02\0\0\0\xe9 \x09\0\x01\x10\x02\0\0\0\xe9 ",
        header: Start::Implicit,
        lines: b"(0008,0005) CS [ISO_IR 100]                             #  10, 1 SpecificCharacterSet\n(0010,0020) LO [\xc3\xa9]                                     #   2, 1 PatientID\n(0009,1001) UN e9\\20                                    #   2, 1 Unknown Tag & Data\n",
        ..EMPTY
    },
    Row {
        name: "data sets: big",
        words: "dcmdump +u8 -",
        start: Start::Big,
        input: b"\0\x08\0\x05CS\0\nISO_IR 192\0\x10\0 LO\0\x02\xc3\xa9",
        header: Start::Big,
        lines: b"(0008,0005) CS [ISO_IR 192]                             #  10, 1 SpecificCharacterSet\n(0010,0020) LO [\xc3\xa9]                                     #   2, 1 PatientID\n",
        ..EMPTY
    },
    Row {
        name: "data sets: bare",
        words: "dcmdump +u8 -f -ti -",
        input: b"\x08\0\x05\0\n\0\0\0ISO_IR 100\x10\0 \0\x02\0\0\0\xe9 ",
        lines: b"# Dicom-Data-Set (texts in UTF-8)\n# Used TransferSyntax: LittleEndianImplicit\n(0008,0005) CS [ISO_IR 100]                             #  10, 1 SpecificCharacterSet\n(0010,0020) LO [\xc3\xa9]                                     #   2, 1 PatientID\n",
        ..EMPTY
    },
];

/// Other texts, and the header.
static OTHERS: [Row; 3] = [
    Row {
        name: "other texts: others",
        words: "dcmdump +u8 -",
        start: Start::Prefix,
        input: b"\x02\0\0\0UL\x04\0&\0\0\0\x02\0\x10\0UI\x14\01.2.840.10008.1.2.1\0\x02\0\x16\0AE\x02\0\xe9 \x08\0\x05\0CS\n\0ISO_IR 100\x08\0`\0CS\x02\0\xe9\\\x08\0 \0DA\x02\0\xe9 \x08\0\x18\0UI\x04\01.2\xe9\x10\0 \0LO\x02\0\xe9 ",
        lines: b"# Dicom-File-Format (texts in UTF-8)\n\n# Dicom-Meta-Information-Header\n# Used TransferSyntax: LittleEndianExplicit\n(0002,0000) UL 38                                       #   4, 1 FileMetaInformationGroupLength\n(0002,0010) UI =LittleEndianExplicit                    #  20, 1 TransferSyntaxUID\n(0002,0016) AE [%E9]                                    #   2, 1 SourceApplicationEntityTitle\n\n# Dicom-Data-Set\n# Used TransferSyntax: LittleEndianExplicit\n(0008,0005) CS [ISO_IR 100]                             #  10, 1 SpecificCharacterSet\n(0008,0060) CS [%E9\\]                                   #   2, 2 Modality\n(0008,0020) DA [%E9]                                    #   2, 1 StudyDate\n(0008,0018) UI [1.2%E9]                                 #   4, 1 SOPInstanceUID\n(0010,0020) LO [\xc3\xa9]                                     #   2, 1 PatientID\n",
        ..EMPTY
    },
    Row {
        name: "other texts: without",
        words: "dcmdump -",
        start: Start::ExplicitLittle,
        input: b"\x08\0\x05\0CS\n\0ISO_IR 100\x10\0 \0LO\x02\0\xe9 ",
        header: Start::ExplicitLittle,
        lines: b"(0008,0005) CS [ISO_IR 100]                             #  10, 1 SpecificCharacterSet\n(0010,0020) LO [\xe9]                                      #   2, 1 PatientID\n",
        ..EMPTY
    },
    Row {
        name: "other texts: syntax",
        words: "dcmdump +u8 -",
        start: Start::Prefix,
        input: b"\x02\0\x10\0UI\x04\01.\xe9\0",
        lines: b"# Dicom-File-Format (texts in UTF-8)\n\n# Dicom-Meta-Information-Header\n# Used TransferSyntax: LittleEndianExplicit\n(0002,0010) UI [1.%E9]                                  #   4, 1 TransferSyntaxUID\n\n# Dicom-Data-Set\n# Used TransferSyntax: 1.%E9\n",
        ..EMPTY
    },
];

/// Dumps by characters: what names sets, and where they are in force.
pub fn text_terms() -> [&'static [Row]; 4] {
    [&TERMS, &TERMS_MORE, &DATA_SETS, &OTHERS]
}
