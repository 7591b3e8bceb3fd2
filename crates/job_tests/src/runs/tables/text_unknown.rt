// Texts in UTF-8: values of Specific Character Set that name what is not known.
use crate::runs::rows::{EMPTY, Row};
use dcm_test_devices::Start;

/// Which values are told, once a file.
static VALUES: [Row; 9] = [
    Row {
        name: "not known: once a file",
        words: "dcmdump +u8 -",
        start: Start::ExplicitLittle,
        input: b"\x08\0\x05\0CS\x04\0FOO \x10\0 \0LO\x02\0\xe9 \x08\0\x05\0CS\x04\0FOO ",
        header: Start::ExplicitLittle,
        lines: b"(0008,0005) CS [FOO]                                    #   4, 1 SpecificCharacterSet\n(0010,0020) LO [%E9]                                    #   2, 1 PatientID\n(0008,0005) CS [FOO]                                    #   4, 1 SpecificCharacterSet\n",
        told: b"dcmtools: character set is not known\n",
        ..EMPTY
    },
    Row {
        name: "not known: without a text",
        words: "dcmdump +u8 -",
        start: Start::ExplicitLittle,
        input: b"\x08\0\x05\0CS\x04\0FOO ",
        header: Start::ExplicitLittle,
        lines: b"(0008,0005) CS [FOO]                                    #   4, 1 SpecificCharacterSet\n",
        told: b"dcmtools: character set is not known\n",
        ..EMPTY
    },
    Row {
        name: "not known: without +u8",
        words: "dcmdump -",
        start: Start::ExplicitLittle,
        input: b"\x08\0\x05\0CS\x04\0FOO ",
        header: Start::ExplicitLittle,
        lines: b"(0008,0005) CS [FOO]                                    #   4, 1 SpecificCharacterSet\n",
        ..EMPTY
    },
    Row {
        name: "not known: all known",
        words: "dcmdump +u8 -",
        start: Start::ExplicitLittle,
        input: b"\x08\0\x05\0CS\x14\0\\ISO 2022 IR 6\\GBK\\ \x10\0 \0LO\x02\0\xe9 ",
        header: Start::ExplicitLittle,
        lines: b"(0008,0005) CS [\\ISO 2022 IR 6\\GBK\\]                    #  20, 4 SpecificCharacterSet\n(0010,0020) LO [%E9]                                    #   2, 1 PatientID\n",
        ..EMPTY
    },
    Row {
        name: "not known: behind one that is alone",
        words: "dcmdump +u8 -",
        start: Start::ExplicitLittle,
        input: b"\x08\0\x05\0CS\x0e\0ISO_IR 192\\FOO\x10\0 \0LO\x02\0\xc3\xa9",
        header: Start::ExplicitLittle,
        lines: b"(0008,0005) CS [ISO_IR 192\\FOO]                         #  14, 2 SpecificCharacterSet\n(0010,0020) LO [\xc3\xa9]                                     #   2, 1 PatientID\n",
        told: b"dcmtools: character set is not known\n",
        ..EMPTY
    },
    Row {
        name: "not known: 514 bytes",
        words: "dcmdump +u8 -",
        start: Start::ExplicitLittle,
        input: b"\x08\0\x05\0CS\x02\x02ISO_IR 100                                                                                                                                                                                                                                                                                                                                                                                                                                                                                                                        \x10\0 \0LO\x02\0\xe9 ",
        header: Start::ExplicitLittle,
        lines: b"(0008,0005) CS [ISO_IR 100                                                    ... # 514, 1 SpecificCharacterSet\n(0010,0020) LO [%E9]                                    #   2, 1 PatientID\n",
        told: b"dcmtools: character set is not known\n",
        ..EMPTY
    },
    Row {
        name: "not known: 512 bytes",
        words: "dcmdump +u8 -",
        start: Start::ExplicitLittle,
        input: b"\x08\0\x05\0CS\0\x02ISO_IR 100                                                                                                                                                                                                                                                                                                                                                                                                                                                                                                                      \x10\0 \0LO\x02\0\xe9 ",
        header: Start::ExplicitLittle,
        lines: b"(0008,0005) CS [ISO_IR 100                                                    ... # 512, 1 SpecificCharacterSet\n(0010,0020) LO [\xc3\xa9]                                     #   2, 1 PatientID\n",
        ..EMPTY
    },
    Row {
        name: "not known: OB sets nothing",
        words: "dcmdump +u8 -",
        start: Start::ExplicitLittle,
        input: b"\x08\0\x05\0OB\0\0\x04\0\0\0FOO ",
        header: Start::ExplicitLittle,
        lines: b"(0008,0005) OB 46\\4f\\4f\\20                              #   4, 1 SpecificCharacterSet\n",
        ..EMPTY
    },
    Row {
        name: "not known: implicit, stray bytes",
        words: "dcmdump +u8 -",
        start: Start::Implicit,
        input: b"\x08\0\x05\0\x0c\0\0\0ISO_IR 100\\\0",
        header: Start::Implicit,
        lines: b"(0008,0005) CS [ISO_IR 100\\%00]                         #  12, 2 SpecificCharacterSet\n",
        ..EMPTY
    },
];

/// Where they stand, and what is told beside.
static PLACES: [Row; 9] = [
    Row {
        name: "not known: with +P",
        words: "dcmdump +u8 +P PatientID -",
        start: Start::ExplicitLittle,
        input: b"\x08\0\x05\0CS\x04\0FOO \x10\0 \0LO\x02\0\xe9 ",
        lines: b"(0010,0020) LO [%E9]                                    #   2, 1 PatientID\n",
        told: b"dcmtools: character set is not known\n",
        ..EMPTY
    },
    Row {
        name: "not known: with +P, not named",
        words: "dcmdump +P Modality +u8 -",
        start: Start::ExplicitLittle,
        input: b"\x08\0\x05\0CS\x04\0FOO \x10\0 \0LO\x02\0\xe9 ",
        told: b"dcmtools: character set is not known\n",
        ..EMPTY
    },
    Row {
        name: "not known: with +P, without +u8",
        words: "dcmdump +P PatientID -",
        start: Start::ExplicitLittle,
        input: b"\x08\0\x05\0CS\x04\0FOO \x10\0 \0LO\x02\0\xe9 ",
        lines: b"(0010,0020) LO [\xe9]                                      #   2, 1 PatientID\n",
        ..EMPTY
    },
    Row {
        name: "not known: in an item",
        words: "dcmdump +u8 -",
        start: Start::ExplicitLittle,
        input: b"\x08\0\x05\0CS\n\0ISO_IR 100\x08\0@\x11SQ\0\0\xff\xff\xff\xff\xfe\xff\0\xe0\xff\xff\xff\xff\x08\0\x05\0CS\x04\0FOO \xfe\xff\r\xe0\0\0\0\0\xfe\xff\xdd\xe0\0\0\0\0\x10\0 \0LO\x02\0\xe9 ",
        header: Start::ExplicitLittle,
        lines: b"(0008,0005) CS [ISO_IR 100]                             #  10, 1 SpecificCharacterSet\n(0008,1140) SQ (Sequence with undefined length)         # u/l, 1 ReferencedImageSequence\n  (fffe,e000) na (Item with undefined length)             # u/l, 1 Item\n    (0008,0005) CS [FOO]                                    #   4, 1 SpecificCharacterSet\n  (fffe,e00d) na (ItemDelimitationItem)                   #   0, 0 ItemDelimitationItem\n(fffe,e0dd) na (SequenceDelimitationItem)               #   0, 0 SequenceDelimitationItem\n(0010,0020) LO [\xc3\xa9]                                     #   2, 1 PatientID\n",
        told: b"dcmtools: character set is not known\n",
        ..EMPTY
    },
    Row {
        name: "not known: in an open item, before a fault",
        words: "dcmdump +u8 -",
        start: Start::ExplicitLittle,
        input: b"\x08\0@\x11SQ\0\0\xff\xff\xff\xff\xfe\xff\0\xe0\xff\xff\xff\xff\x08\0\x05\0CS\x04\0FOO ",
        header: Start::ExplicitLittle,
        lines: b"(0008,1140) SQ (Sequence with undefined length)         # u/l, 1 ReferencedImageSequence\n  (fffe,e000) na (Item with undefined length)             # u/l, 1 Item\n    (0008,0005) CS [FOO]                                    #   4, 1 SpecificCharacterSet\n",
        status: 2,
        told: b"dcmtools: character set is not known\ndcmtools: R1 at byte 204: input ends too early\n",
        ..EMPTY
    },
    Row {
        name: "not known: a whole one alone",
        words: "dcmdump +u8 -",
        start: Start::ExplicitLittle,
        input: b"\x08\0\x05\0CS\x04\0FOO",
        header: Start::ExplicitLittle,
        status: 2,
        told: b"dcmtools: R1 at byte 183: input ends too early\n",
        ..EMPTY
    },
    Row {
        name: "not known: no data set",
        words: "dcmdump +u8 -",
        input: b"\0\0\0\0\0\0\0\0\0\0\0\0\0\0\0\0\0\0\0\0\0\0\0\0\0\0\0\0\0\0\0\0\0\0\0\0\0\0\0\0\0\0\0\0\0\0\0\0\0\0\0\0\0\0\0\0\0\0\0\0\0\0\0\0\0\0\0\0\0\0\0\0\0\0\0\0\0\0\0\0\0\0\0\0\0\0\0\0\0\0\0\0\0\0\0\0\0\0\0\0\0\0\0\0\0\0\0\0\0\0\0\0\0\0\0\0\0\0\0\0\0\0\0\0\0\0\0\0DICM\x02\0\0\0UL\x04\0\x1c\0\0\0\x02\0\x10\0UI\x14\01.2.840.10008.1.2.1",
        status: 2,
        told: b"dcmtools: R1 at byte 171: input ends too early\n",
        ..EMPTY
    },
    Row {
        name: "not known: UN",
        words: "dcmdump +u8 -",
        start: Start::ExplicitLittle,
        input: b"\x08\0\x05\0UN\0\0\x04\0\0\0FOO ",
        header: Start::ExplicitLittle,
        lines: b"(0008,0005) UN 46\\4f\\4f\\20                              #   4, 1 SpecificCharacterSet\n",
        told: b"dcmtools: character set is not known\n",
        ..EMPTY
    },
    Row {
        name: "not known: of -f",
        words: "dcmdump -f -ti +u8 -",
        input: b"\x08\0\x05\0\x04\0\0\0FOO ",
        lines: b"# Dicom-Data-Set (texts in UTF-8)\n# Used TransferSyntax: LittleEndianImplicit\n(0008,0005) CS [FOO]                                    #   4, 1 SpecificCharacterSet\n",
        told: b"dcmtools: character set is not known\n",
        ..EMPTY
    },
];

/// Dumps of files whose character set is not known.
pub fn text_unknown() -> [&'static [Row]; 2] {
    [&VALUES, &PLACES]
}
