// Dumps by characters: displays that are cut, values that stand open, and what other tools do with such texts.
use crate::runs::rows::{EMPTY, Row};
use dcm_test_devices::Start;

/// The cut of `-L`.
static CUTS: [Row; 8] = [
    Row {
        name: "cut: cut 66",
        words: "dcmdump +u8 -",
        start: Start::ExplicitLittle,
        input: b"\x08\0\x05\0CS\n\0ISO_IR 192\x10\0\0@LT@\0xxxxxxxxxxxxxxxxxxxxxxxxxxxxxxxxxxxxxxxxxxxxxxxxxxxxxxxxxxxxxx\xc3\xa9",
        header: Start::ExplicitLittle,
        lines: b"(0008,0005) CS [ISO_IR 192]                             #  10, 1 SpecificCharacterSet\n(0010,4000) LT [xxxxxxxxxxxxxxxxxxxxxxxxxxxxxxxxxxxxxxxxxxxxxxxxxxxxxxxxxxxxxx\xc3\xa9] #  64, 1 PatientComments\n",
        ..EMPTY
    },
    Row {
        name: "cut: cut 67",
        words: "dcmdump +u8 -",
        start: Start::ExplicitLittle,
        input: b"\x08\0\x05\0CS\n\0ISO_IR 192\x10\0\0@LTB\0xxxxxxxxxxxxxxxxxxxxxxxxxxxxxxxxxxxxxxxxxxxxxxxxxxxxxxxxxxxxxxx\xc3\xa9 ",
        header: Start::ExplicitLittle,
        lines: b"(0008,0005) CS [ISO_IR 192]                             #  10, 1 SpecificCharacterSet\n(0010,4000) LT [xxxxxxxxxxxxxxxxxxxxxxxxxxxxxxxxxxxxxxxxxxxxxxxxxxxxxxxxxxxxxx... #  66, 1 PatientComments\n",
        ..EMPTY
    },
    Row {
        name: "cut: cut 2",
        words: "dcmdump +u8 -",
        start: Start::ExplicitLittle,
        input: b"\x08\0\x05\0CS\n\0ISO_IR 192\x10\0\0@LTB\0xxxxxxxxxxxxxxxxxxxxxxxxxxxxxxxxxxxxxxxxxxxxxxxxxxxxxxxxxxxxx\xc3\xa9xxx",
        header: Start::ExplicitLittle,
        lines: b"(0008,0005) CS [ISO_IR 192]                             #  10, 1 SpecificCharacterSet\n(0010,4000) LT [xxxxxxxxxxxxxxxxxxxxxxxxxxxxxxxxxxxxxxxxxxxxxxxxxxxxxxxxxxxxx... #  66, 1 PatientComments\n",
        ..EMPTY
    },
    Row {
        name: "cut: cut 3",
        words: "dcmdump +u8 -",
        start: Start::ExplicitLittle,
        input: b"\x08\0\x05\0CS\n\0ISO_IR 192\x10\0\0@LTB\0xxxxxxxxxxxxxxxxxxxxxxxxxxxxxxxxxxxxxxxxxxxxxxxxxxxxxxxxxxxx\xe2\x82\xac\xe2\x82\xac",
        header: Start::ExplicitLittle,
        lines: b"(0008,0005) CS [ISO_IR 192]                             #  10, 1 SpecificCharacterSet\n(0010,4000) LT [xxxxxxxxxxxxxxxxxxxxxxxxxxxxxxxxxxxxxxxxxxxxxxxxxxxxxxxxxxxx... #  66, 1 PatientComments\n",
        ..EMPTY
    },
    Row {
        name: "cut: cut 4",
        words: "dcmdump +u8 -",
        start: Start::ExplicitLittle,
        input: b"\x08\0\x05\0CS\n\0ISO_IR 192\x10\0\0@LTB\0xxxxxxxxxxxxxxxxxxxxxxxxxxxxxxxxxxxxxxxxxxxxxxxxxxxxxxxxxxx\xf0\x9f\x98\x80xxx",
        header: Start::ExplicitLittle,
        lines: b"(0008,0005) CS [ISO_IR 192]                             #  10, 1 SpecificCharacterSet\n(0010,4000) LT [xxxxxxxxxxxxxxxxxxxxxxxxxxxxxxxxxxxxxxxxxxxxxxxxxxxxxxxxxxx... #  66, 1 PatientComments\n",
        ..EMPTY
    },
    Row {
        name: "cut: cut 4 first",
        words: "dcmdump +u8 -",
        start: Start::ExplicitLittle,
        input: b"\x08\0\x05\0CS\n\0ISO_IR 192\x10\0\0@LTB\0xxxxxxxxxxxxxxxxxxxxxxxxxxxxxxxxxxxxxxxxxxxxxxxxxxxxxxxxxxxxxx\xf0\x9f\x98\x80",
        header: Start::ExplicitLittle,
        lines: b"(0008,0005) CS [ISO_IR 192]                             #  10, 1 SpecificCharacterSet\n(0010,4000) LT [xxxxxxxxxxxxxxxxxxxxxxxxxxxxxxxxxxxxxxxxxxxxxxxxxxxxxxxxxxxxxx... #  66, 1 PatientComments\n",
        ..EMPTY
    },
    Row {
        name: "cut: cut escape",
        words: "dcmdump +u8 -",
        start: Start::ExplicitLittle,
        input: b"\x08\0\x05\0CS\n\0ISO_IR 192\x10\0\0@LTB\0xxxxxxxxxxxxxxxxxxxxxxxxxxxxxxxxxxxxxxxxxxxxxxxxxxxxxxxxxxxxx%xxx ",
        header: Start::ExplicitLittle,
        lines: b"(0008,0005) CS [ISO_IR 192]                             #  10, 1 SpecificCharacterSet\n(0010,4000) LT [xxxxxxxxxxxxxxxxxxxxxxxxxxxxxxxxxxxxxxxxxxxxxxxxxxxxxxxxxxxxx%... #  66, 1 PatientComments\n",
        ..EMPTY
    },
    Row {
        name: "cut: count",
        words: "dcmdump +u8 -",
        start: Start::ExplicitLittle,
        input: b"\x08\0\x05\0CS\x04\0GBK \x08\0\x19\x01UC\0\0H\0\0\0\\\\\\\\\\\\\\\\\\\\\\\\\\\\\\\\\\\\\\\\\\\\\\\\\\\\\\\\\\\\\\\\\\\\\\\\\\\\\\\\\\\\\\\\\\\\\\\\\\\\\\\\\\\\\\\\\\\\\\\\\\\\\\\\\\\\\\\\\\\\\x81\\",
        header: Start::ExplicitLittle,
        lines: b"(0008,0005) CS [GBK]                                    #   4, 1 SpecificCharacterSet\n(0008,0119) UC [\\\\\\\\\\\\\\\\\\\\\\\\\\\\\\\\\\\\\\\\\\\\\\\\\\\\\\\\\\\\\\\\\\\\\\\\\\\\\\\\\\\\\\\\\\\\\\\\\\\\\\\\\\\\\\\\\\\\\\\\\\\\... #  72, 71 Unknown Tag & Data\n",
        ..EMPTY
    },
];

/// Values of which bytes are missing.
static OPEN: [Row; 8] = [
    Row {
        name: "open: UTF-8",
        words: "dcmdump +u8 +L -",
        start: Start::ExplicitLittle,
        input: b"\x08\0\x05\0CS\n\0ISO_IR 192\x10\0\0@LT\x14\0A\xe2\x82",
        header: Start::ExplicitLittle,
        lines: b"(0008,0005) CS [ISO_IR 192]                             #  10, 1 SpecificCharacterSet\n(0010,4000) LT [A",
        status: 2,
        told: b"dcmtools: R1 at byte 201: input ends too early\n",
    },
    Row {
        name: "open: no UTF-8",
        words: "dcmdump +u8 +L -",
        start: Start::ExplicitLittle,
        input: b"\x08\0\x05\0CS\n\0ISO_IR 192\x10\0\0@LT\x14\0A\xe2A",
        header: Start::ExplicitLittle,
        lines: b"(0008,0005) CS [ISO_IR 192]                             #  10, 1 SpecificCharacterSet\n(0010,4000) LT [A%E2A",
        status: 2,
        told: b"dcmtools: R1 at byte 201: input ends too early\n",
    },
    Row {
        name: "open: GB",
        words: "dcmdump +u8 +L -",
        start: Start::ExplicitLittle,
        input: b"\x08\0\x05\0CS\x08\0GB18030 \x10\0\0@LT\x14\0A\x810\x81",
        header: Start::ExplicitLittle,
        lines: b"(0008,0005) CS [GB18030]                                #   8, 1 SpecificCharacterSet\n(0010,4000) LT [A",
        status: 2,
        told: b"dcmtools: R1 at byte 200: input ends too early\n",
    },
    Row {
        name: "open: GB digit",
        words: "dcmdump +u8 +L -",
        start: Start::ExplicitLittle,
        input: b"\x08\0\x05\0CS\x08\0GB18030 \x10\0\0@LT\x14\0A\x810A",
        header: Start::ExplicitLittle,
        lines: b"(0008,0005) CS [GB18030]                                #   8, 1 SpecificCharacterSet\n(0010,4000) LT [A%810A",
        status: 2,
        told: b"dcmtools: R1 at byte 200: input ends too early\n",
    },
    Row {
        name: "open: escape",
        words: "dcmdump +u8 +L -",
        start: Start::ExplicitLittle,
        input: b"\x08\0\x05\0CS\x10\0\\ISO 2022 IR 87 \x10\0\0@LT\x14\0A\x1b$",
        header: Start::ExplicitLittle,
        lines: b"(0008,0005) CS [\\ISO 2022 IR 87]                        #  16, 2 SpecificCharacterSet\n(0010,4000) LT [A",
        status: 2,
        told: b"dcmtools: R1 at byte 207: input ends too early\n",
    },
    Row {
        name: "open: no escape",
        words: "dcmdump +u8 +L -",
        start: Start::ExplicitLittle,
        input: b"\x08\0\x05\0CS\x10\0\\ISO 2022 IR 87 \x10\0\0@LT\x14\0A\x1b-",
        header: Start::ExplicitLittle,
        lines: b"(0008,0005) CS [\\ISO 2022 IR 87]                        #  16, 2 SpecificCharacterSet\n(0010,4000) LT [A%1B-",
        status: 2,
        told: b"dcmtools: R1 at byte 207: input ends too early\n",
    },
    Row {
        name: "open: pair",
        words: "dcmdump +u8 +L -",
        start: Start::ExplicitLittle,
        input: b"\x08\0\x05\0CS\x10\0\\ISO 2022 IR 87 \x10\0\0@LT\x14\0\x1b$B;3;",
        header: Start::ExplicitLittle,
        lines: b"(0008,0005) CS [\\ISO 2022 IR 87]                        #  16, 2 SpecificCharacterSet\n(0010,4000) LT [\xe5\xb1\xb1",
        status: 2,
        told: b"dcmtools: R1 at byte 210: input ends too early\n",
    },
    Row {
        name: "open: latin",
        words: "dcmdump +u8 +L -",
        start: Start::ExplicitLittle,
        input: b"\x08\0\x05\0CS\n\0ISO_IR 100\x10\0\0@LT\x14\0\xe9",
        header: Start::ExplicitLittle,
        lines: b"(0008,0005) CS [ISO_IR 100]                             #  10, 1 SpecificCharacterSet\n(0010,4000) LT [\xc3\xa9",
        status: 2,
        told: b"dcmtools: R1 at byte 199: input ends too early\n",
    },
];

/// Two dumps, and other tools.
static TOOLS: [Row; 3] = [
    Row {
        name: "tools: twice",
        words: "dcmdump +u8 +u8 -",
        start: Start::ExplicitLittle,
        input: b"\x08\0\x05\0CS\n\0ISO_IR 192",
        header: Start::ExplicitLittle,
        lines: b"(0008,0005) CS [ISO_IR 192]                             #  10, 1 SpecificCharacterSet\n",
        ..EMPTY
    },
    Row {
        name: "tools: dcmconv",
        words: "dcmconv +u8 - -",
        start: Start::ExplicitLittle,
        status: 1,
        told: b"dcmtools: V2 at word 2: unknown option\n",
        ..EMPTY
    },
    Row {
        name: "tools: built",
        words: "dump2dcm - -",
        input: b"# Dicom-File-Format\n\n# Dicom-Meta-Information-Header\n# Used TransferSyntax: LittleEndianExplicit\n(0002,0000) UL 28                                       #   4, 1 FileMetaInformationGroupLength\n(0002,0010) UI =LittleEndianExplicit                    #  20, 1 TransferSyntaxUID\n\n# Dicom-Data-Set\n# Used TransferSyntax: LittleEndianExplicit\n(0008,0005) CS [ISO_IR 192]                             #  10, 1 SpecificCharacterSet\n(0010,0010) PN [J%C3%A9\xc3\xa9]                              #   0, 1 PatientName\n(0010,0020) LO [\xc3\xa9]                                     #   2, 1 PatientID\n",
        header: Start::ExplicitLittle,
        lines: b"\x08\0\x05\0CS\n\0ISO_IR 192\x10\0\x10\0PN\x06\0J\xc3\xa9\xc3\xa9 \x10\0 \0LO\x02\0\xc3\xa9",
        ..EMPTY
    },
];

/// Dumps by characters: displays that are cut, values that stand open, and what other tools do with such texts.
pub fn text_cuts() -> [&'static [Row]; 3] {
    [&CUTS, &OPEN, &TOOLS]
}
