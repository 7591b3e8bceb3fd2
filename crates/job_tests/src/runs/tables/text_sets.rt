// Dumps by characters: the sets of (0008,0005), one alone.
use crate::runs::rows::{EMPTY, Row};
use dcm_test_devices::Start;

/// Each set of one byte a character, and UTF-8.
static SETS: [Row; 8] = [
    Row {
        name: "sets: none",
        words: "dcmdump +u8 +L +dict -",
        start: Start::ExplicitLittle,
        input: b"\x10\0 \0LO\x06\0a\xe9\\b~ ",
        header: Start::ExplicitLittle,
        lines: b"(0010,0020) LO [a%E9\\b~]                                #   6, 2 PatientID\n",
        ..EMPTY
    },
    Row {
        name: "sets: empty",
        words: "dcmdump +u8 +L +dict -",
        start: Start::ExplicitLittle,
        input: b"\x08\0\x05\0CS\0\0\x10\0 \0LO\x02\0a\xe9",
        header: Start::ExplicitLittle,
        lines: b"(0008,0005) CS (no value available)                     #   0, 0 SpecificCharacterSet\n(0010,0020) LO [a%E9]                                   #   2, 1 PatientID\n",
        ..EMPTY
    },
    Row {
        name: "sets: ISO_IR 6",
        words: "dcmdump +u8 +L +dict -",
        start: Start::ExplicitLittle,
        input: b"\x08\0\x05\0CS\x08\0ISO_IR 6\x10\0 \0LO\x06\0\x80\xff%]\x7f ",
        header: Start::ExplicitLittle,
        lines: b"(0008,0005) CS [ISO_IR 6]                               #   8, 1 SpecificCharacterSet\n(0010,0020) LO [%80%FF%25%5D%7F]                        #   6, 1 PatientID\n",
        ..EMPTY
    },
    Row {
        name: "sets: 100",
        words: "dcmdump +u8 +L +dict -",
        start: Start::ExplicitLittle,
        input: b"\x08\0\x05\0CS\n\0ISO_IR 100\x10\0\x10\0PN\n\0Buc^J\xe9r\xf4me",
        header: Start::ExplicitLittle,
        lines: b"(0008,0005) CS [ISO_IR 100]                             #  10, 1 SpecificCharacterSet\n(0010,0010) PN [Buc^J\xc3\xa9r\xc3\xb4me]                           #  10, 1 PatientName\n",
        ..EMPTY
    },
    Row {
        name: "sets: 101",
        words: "dcmdump +u8 +L +dict -",
        start: Start::ExplicitLittle,
        input: b"\x08\0\x05\0CS\n\0ISO_IR 101\x10\0\x10\0PN\x06\0Dvo\xf8\xe1k",
        header: Start::ExplicitLittle,
        lines: b"(0008,0005) CS [ISO_IR 101]                             #  10, 1 SpecificCharacterSet\n(0010,0010) PN [Dvo\xc5\x99\xc3\xa1k]                               #   6, 1 PatientName\n",
        ..EMPTY
    },
    Row {
        name: "sets: 109",
        words: "dcmdump +u8 +L +dict -",
        start: Start::ExplicitLittle,
        input: b"\x08\0\x05\0CS\n\0ISO_IR 109\x10\0 \0LO\x04\0\xa1a\xb1\xa5",
        header: Start::ExplicitLittle,
        lines: b"(0008,0005) CS [ISO_IR 109]                             #  10, 1 SpecificCharacterSet\n(0010,0020) LO [\xc4\xa6a\xc4\xa7%A5]                               #   4, 1 PatientID\n",
        ..EMPTY
    },
    Row {
        name: "sets: 110",
        words: "dcmdump +u8 +L +dict -",
        start: Start::ExplicitLittle,
        input: b"\x08\0\x05\0CS\n\0ISO_IR 110\x08\0P\0SH\x08\0J\xe0nis \xd3 ",
        header: Start::ExplicitLittle,
        lines: b"(0008,0005) CS [ISO_IR 110]                             #  10, 1 SpecificCharacterSet\n(0008,0050) SH [J\xc4\x81nis \xc4\xb6]                              #   8, 1 AccessionNumber\n",
        ..EMPTY
    },
    Row {
        name: "sets: 126",
        words: "dcmdump +u8 +L +dict -",
        start: Start::ExplicitLittle,
        input: b"\x08\0\x05\0CS\n\0ISO_IR 126\x10\0\x10\0PN\n\0\xc4\xe9\xef\xed\xf5\xf3\xe9\xef\xf2\xd2",
        header: Start::ExplicitLittle,
        lines: b"(0008,0005) CS [ISO_IR 126]                             #  10, 1 SpecificCharacterSet\n(0010,0010) PN [\xce\x94\xce\xb9\xce\xbf\xce\xbd\xcf\x85\xcf\x83\xce\xb9\xce\xbf\xcf\x82%D2]                  #  10, 1 PatientName\n",
        ..EMPTY
    },
];

/// Each set of one byte a character, and UTF-8, continued.
static SETS_MORE: [Row; 8] = [
    Row {
        name: "sets: 127",
        words: "dcmdump +u8 +L +dict -",
        start: Start::ExplicitLittle,
        input: b"\x08\0\x05\0CS\n\0ISO_IR 127\x10\0\x10\0PN\x0c\0\xe2\xc8\xc7\xe6\xea^\xe4\xe6\xd2\xc7\xd1 ",
        header: Start::ExplicitLittle,
        lines: b"(0008,0005) CS [ISO_IR 127]                             #  10, 1 SpecificCharacterSet\n(0010,0010) PN [\xd9\x82\xd8\xa8\xd8\xa7\xd9\x86\xd9\x8a^\xd9\x84\xd9\x86\xd8\xb2\xd8\xa7\xd8\xb1]                  #  12, 1 PatientName\n",
        ..EMPTY
    },
    Row {
        name: "sets: 138",
        words: "dcmdump +u8 +L +dict -",
        start: Start::ExplicitLittle,
        input: b"\x08\0\x05\0CS\n\0ISO_IR 138\x10\0\x10\0PN\x0e\0\xf9\xf8\xe5\xef^\xe3\xe1\xe5\xf8\xe4\xfd\xfe\xa1 ",
        header: Start::ExplicitLittle,
        lines: b"(0008,0005) CS [ISO_IR 138]                             #  10, 1 SpecificCharacterSet\n(0010,0010) PN [\xd7\xa9\xd7\xa8\xd7\x95\xd7\x9f^\xd7\x93\xd7\x91\xd7\x95\xd7\xa8\xd7\x94%FD%FE%A1]           #  14, 1 PatientName\n",
        ..EMPTY
    },
    Row {
        name: "sets: 144",
        words: "dcmdump +u8 +L +dict -",
        start: Start::ExplicitLittle,
        input: b"\x08\0\x05\0CS\n\0ISO_IR 144\x10\0\x10\0PN\n\0\xbb\xee\xdace\xdc\xd1yp\xd3",
        header: Start::ExplicitLittle,
        lines: b"(0008,0005) CS [ISO_IR 144]                             #  10, 1 SpecificCharacterSet\n(0010,0010) PN [\xd0\x9b\xd1\x8e\xd0\xbace\xd0\xbc\xd0\xb1yp\xd0\xb3]                       #  10, 1 PatientName\n",
        ..EMPTY
    },
    Row {
        name: "sets: 148",
        words: "dcmdump +u8 +L +dict -",
        start: Start::ExplicitLittle,
        input: b"\x08\0\x05\0CS\n\0ISO_IR 148\x08\0\x81\0ST\x06\0\xd0\xdd\xde\xf0\xfd\xfe",
        header: Start::ExplicitLittle,
        lines: b"(0008,0005) CS [ISO_IR 148]                             #  10, 1 SpecificCharacterSet\n(0008,0081) ST [\xc4\x9e\xc4\xb0\xc5\x9e\xc4\x9f\xc4\xb1\xc5\x9f]                           #   6, 1 InstitutionAddress\n",
        ..EMPTY
    },
    Row {
        name: "sets: 203",
        words: "dcmdump +u8 +L +dict -",
        start: Start::ExplicitLittle,
        input: b"\x08\0\x05\0CS\n\0ISO_IR 203\x10\0 \0LO\x04\0\xa4\xa6\xbd ",
        header: Start::ExplicitLittle,
        lines: b"(0008,0005) CS [ISO_IR 203]                             #  10, 1 SpecificCharacterSet\n(0010,0020) LO [\xe2\x82\xac\xc5\xa0\xc5\x93]                                #   4, 1 PatientID\n",
        ..EMPTY
    },
    Row {
        name: "sets: 166",
        words: "dcmdump +u8 +L +dict -",
        start: Start::ExplicitLittle,
        input: b"\x08\0\x05\0CS\n\0ISO_IR 166@\0`\xa1UT\0\0\x04\0\0\0\xa1\xd2\xa0\xdb",
        header: Start::ExplicitLittle,
        lines: b"(0008,0005) CS [ISO_IR 166]                             #  10, 1 SpecificCharacterSet\n(0040,a160) UT [\xe0\xb8\x81\xe0\xb8\xb2%A0%DB]                           #   4, 1 TextValue\n",
        ..EMPTY
    },
    Row {
        name: "sets: 13",
        words: "dcmdump +u8 +L +dict -",
        start: Start::ExplicitLittle,
        input: b"\x08\0\x05\0CS\n\0ISO_IR 13 \x10\0\x10\0PN\x0c\0\xd4\xcf\xc0\xde^\xc0\xdb\xb3\\~\xa0\xe0",
        header: Start::ExplicitLittle,
        lines: b"(0008,0005) CS [ISO_IR 13]                              #  10, 1 SpecificCharacterSet\n(0010,0010) PN [\xef\xbe\x94\xef\xbe\x8f\xef\xbe\x80\xef\xbe\x9e^\xef\xbe\x80\xef\xbe\x9b\xef\xbd\xb3\\~%A0%E0]         #  12, 2 PatientName\n",
        ..EMPTY
    },
    Row {
        name: "sets: controls",
        words: "dcmdump +u8 +L +dict -",
        start: Start::ExplicitLittle,
        input: b"\x08\0\x05\0CS\n\0ISO_IR 100\x10\0\0@LT\n\0A\x85\x92\xa0\xad\n\x1b-A\xe9",
        header: Start::ExplicitLittle,
        lines: b"(0008,0005) CS [ISO_IR 100]                             #  10, 1 SpecificCharacterSet\n(0010,4000) LT [A%85%92\xc2\xa0%AD%0A%1B-A\xc3\xa9]                 #  10, 1 PatientComments\n",
        ..EMPTY
    },
];

/// Bytes that have no character, and characters that are hidden.
static BYTES: [Row; 10] = [
    Row {
        name: "bytes: J",
        words: "dcmdump +u8 +L +dict -",
        start: Start::ExplicitLittle,
        input: b"\x08\0\x05\0CS\n\0ISO_IR 192\x10\0\x10\0PN\x1a\0Wang^XiaoDong=\xe7\x8e\x8b^\xe5\xb0\x8f\xe4\xb8\x9c= ",
        header: Start::ExplicitLittle,
        lines: b"(0008,0005) CS [ISO_IR 192]                             #  10, 1 SpecificCharacterSet\n(0010,0010) PN [Wang^XiaoDong=\xe7\x8e\x8b^\xe5\xb0\x8f\xe4\xb8\x9c=]              #  26, 1 PatientName\n",
        ..EMPTY
    },
    Row {
        name: "bytes: lengths",
        words: "dcmdump +u8 +L +dict -",
        start: Start::ExplicitLittle,
        input: b"\x08\0\x05\0CS\n\0ISO_IR 192\x08\0\x19\x01UC\0\0\x12\0\0\0A\xc3\xa9\xe2\x82\xac\xf0\x9f\x98\x80\xf4\x8f\xbf\xbd\\\xee\x80\x80",
        header: Start::ExplicitLittle,
        lines: b"(0008,0005) CS [ISO_IR 192]                             #  10, 1 SpecificCharacterSet\n(0008,0119) UC [A\xc3\xa9\xe2\x82\xac\xf0\x9f\x98\x80\xf4\x8f\xbf\xbd\\\xee\x80\x80]                     #  18, 2 LongCodeValue\n",
        ..EMPTY
    },
    Row {
        name: "bytes: stray",
        words: "dcmdump +u8 +L +dict -",
        start: Start::ExplicitLittle,
        input: b"\x08\0\x05\0CS\n\0ISO_IR 192\x10\0 \0LO\x08\0\xffA\xc3(\x80\xbf\xfe ",
        header: Start::ExplicitLittle,
        lines: b"(0008,0005) CS [ISO_IR 192]                             #  10, 1 SpecificCharacterSet\n(0010,0020) LO [%FFA%C3(%80%BF%FE]                      #   8, 1 PatientID\n",
        ..EMPTY
    },
    Row {
        name: "bytes: cut",
        words: "dcmdump +u8 +L +dict -",
        start: Start::ExplicitLittle,
        input: b"\x08\0\x05\0CS\n\0ISO_IR 192\x10\0 \0LO\x06\0\xe2\x82A\xf0\x9f\x98",
        header: Start::ExplicitLittle,
        lines: b"(0008,0005) CS [ISO_IR 192]                             #  10, 1 SpecificCharacterSet\n(0010,0020) LO [%E2%82A%F0%9F%98]                       #   6, 1 PatientID\n",
        ..EMPTY
    },
    Row {
        name: "bytes: overlong",
        words: "dcmdump +u8 +L +dict -",
        start: Start::ExplicitLittle,
        input: b"\x08\0\x05\0CS\n\0ISO_IR 192\x10\0 \0LO\x0e\0\xc0\x80\xc1\xbf\xe0\x80\x9f\xf0\x80\x80\x80\xe0\x9f\xbf",
        header: Start::ExplicitLittle,
        lines: b"(0008,0005) CS [ISO_IR 192]                             #  10, 1 SpecificCharacterSet\n(0010,0020) LO [%C0%80%C1%BF%E0%80%9F%F0%80%80%80%E0%9F%BF] #  14, 1 PatientID\n",
        ..EMPTY
    },
    Row {
        name: "bytes: surrogates",
        words: "dcmdump +u8 +L +dict -",
        start: Start::ExplicitLittle,
        input: b"\x08\0\x05\0CS\n\0ISO_IR 192\x10\0 \0LO\x0e\0\xed\xa0\x80\xed\xbf\xbf\xf4\x90\x80\x80\xed\x9f\xbf ",
        header: Start::ExplicitLittle,
        lines: b"(0008,0005) CS [ISO_IR 192]                             #  10, 1 SpecificCharacterSet\n(0010,0020) LO [%ED%A0%80%ED%BF%BF%F4%90%80%80\xed\x9f\xbf]      #  14, 1 PatientID\n",
        ..EMPTY
    },
    Row {
        name: "bytes: hidden",
        words: "dcmdump +u8 +L +dict -",
        start: Start::ExplicitLittle,
        input: b"\x08\0\x05\0CS\n\0ISO_IR 192\x10\0 \0LO \0\xc2\x85\xe2\x80\xae\xe2\x80\xa8\xef\xbb\xbf\xe2\x8f\xb0\xe2\x81\xa6\xd8\x9c\xc2\xad\xe2\x80\x8b\xef\xbf\xbe\xf3\xa0\x80\x81a",
        header: Start::ExplicitLittle,
        lines: b"(0008,0005) CS [ISO_IR 192]                             #  10, 1 SpecificCharacterSet\n(0010,0020) LO [%C2%85%E2%80%AE%E2%80%A8%EF%BB%BF\xe2\x8f\xb0%E2%81%A6%D8%9C%C2%AD%E2%80%8B%EF%BF%BE%F3%A0%80%81a] #  32, 1 PatientID\n",
        ..EMPTY
    },
    Row {
        name: "bytes: not hidden",
        words: "dcmdump +u8 +L +dict -",
        start: Start::ExplicitLittle,
        input: b"\x08\0\x05\0CS\n\0ISO_IR 192\x10\0 \0LO\x14\0\xe2\x80\x8d\xe2\x80\x8c\xef\xbf\xbd\xcc\x81\xe8\x88\x80\xf3\xa0\x84\x80\xc2\xa0",
        header: Start::ExplicitLittle,
        lines: b"(0008,0005) CS [ISO_IR 192]                             #  10, 1 SpecificCharacterSet\n(0010,0020) LO [\xe2\x80\x8d\xe2\x80\x8c\xef\xbf\xbd\xcc\x81\xe8\x88\x80\xf3\xa0\x84\x80\xc2\xa0]                   #  20, 1 PatientID\n",
        ..EMPTY
    },
    Row {
        name: "bytes: escape",
        words: "dcmdump +u8 +L +dict -",
        start: Start::ExplicitLittle,
        input: b"\x08\0\x05\0CS\n\0ISO_IR 192\x10\0 \0LO\x06\0\x1b$B\xc3\xa9 ",
        header: Start::ExplicitLittle,
        lines: b"(0008,0005) CS [ISO_IR 192]                             #  10, 1 SpecificCharacterSet\n(0010,0020) LO [%1B$B\xc3\xa9]                                #   6, 1 PatientID\n",
        ..EMPTY
    },
    Row {
        name: "bytes: alone",
        words: "dcmdump +u8 +L +dict -",
        start: Start::ExplicitLittle,
        input: b"\x08\0\x05\0CS\x1a\0ISO_IR 192\\ISO 2022 IR 87 \x10\0 \0LO\x08\0\x1b$B;3\xc3\xa9 ",
        header: Start::ExplicitLittle,
        lines: b"(0008,0005) CS [ISO_IR 192\\ISO 2022 IR 87]              #  26, 2 SpecificCharacterSet\n(0010,0020) LO [%1B$B;3\xc3\xa9]                              #   8, 1 PatientID\n",
        ..EMPTY
    },
];

/// GB18030 and GBK.
static GB18030: [Row; 6] = [
    Row {
        name: "GB18030: J",
        words: "dcmdump +u8 +L +dict -",
        start: Start::ExplicitLittle,
        input: b"\x08\0\x05\0CS\x08\0GB18030 \x10\0\x10\0PN\x16\0Wang^XiaoDong=\xcd\xf5^\xd0\xa1\xb6\xab=",
        header: Start::ExplicitLittle,
        lines: b"(0008,0005) CS [GB18030]                                #   8, 1 SpecificCharacterSet\n(0010,0010) PN [Wang^XiaoDong=\xe7\x8e\x8b^\xe5\xb0\x8f\xe4\xb8\x9c=]              #  22, 1 PatientName\n",
        ..EMPTY
    },
    Row {
        name: "GB18030: four",
        words: "dcmdump +u8 +L +dict -",
        start: Start::ExplicitLittle,
        input: b"\x08\0\x05\0CS\x08\0GB18030 \x10\0 \0LO\x14\0\x952\x826\x811\x810\x810\x810\xe32\x9a5\xfe9\xfe9",
        header: Start::ExplicitLittle,
        lines: b"(0008,0005) CS [GB18030]                                #   8, 1 SpecificCharacterSet\n(0010,0020) LO [\xf0\xa0\x80\x80\xd8\x8a%81%30%81%30%E3%32%9A%35%FE%39%FE%39] #  20, 1 PatientID\n",
        ..EMPTY
    },
    Row {
        name: "GB18030: GBK",
        words: "dcmdump +u8 +L +dict -",
        start: Start::ExplicitLittle,
        input: b"\x08\0\x05\0CS\x04\0GBK \x10\0 \0LO\n\0\x81\\\\\x81\\\x952\x826 ",
        header: Start::ExplicitLittle,
        lines: b"(0008,0005) CS [GBK]                                    #   4, 1 SpecificCharacterSet\n(0010,0020) LO [\xe4\xb9\x97\\\xe4\xb9\x97\xf0\xa0\x80\x80]                            #  10, 2 PatientID\n",
        ..EMPTY
    },
    Row {
        name: "GB18030: second byte",
        words: "dcmdump +u8 +L +dict -",
        start: Start::ExplicitLittle,
        input: b"\x08\0\x05\0CS\x08\0GB18030 \x10\0 \0LO\x06\0\xd5]]\xa6\\\\",
        header: Start::ExplicitLittle,
        lines: b"(0008,0005) CS [GB18030]                                #   8, 1 SpecificCharacterSet\n(0010,0020) LO [\xe8\xaa\xa1%5D\xee\x9b\x82\\]                             #   6, 2 PatientID\n",
        ..EMPTY
    },
    Row {
        name: "GB18030: no form",
        words: "dcmdump +u8 +L +dict -",
        start: Start::ExplicitLittle,
        input: b"\x08\0\x05\0CS\x08\0GB18030 \x10\0 \0LO\x0e\0\x81 \x80\xffA\x810A\x810\x81 \x81\xff",
        header: Start::ExplicitLittle,
        lines: b"(0008,0005) CS [GB18030]                                #   8, 1 SpecificCharacterSet\n(0010,0020) LO [%81 %80%FFA%810A%810%81 %81%FF]         #  14, 1 PatientID\n",
        ..EMPTY
    },
    Row {
        name: "GB18030: cut",
        words: "dcmdump +u8 +L +dict -",
        start: Start::ExplicitLittle,
        input: b"\x08\0\x05\0CS\x08\0GB18030 \x10\0\0@LT\x04\0A\x810\x81",
        header: Start::ExplicitLittle,
        lines: b"(0008,0005) CS [GB18030]                                #   8, 1 SpecificCharacterSet\n(0010,4000) LT [A%810%81]                               #   4, 1 PatientComments\n",
        ..EMPTY
    },
];

/// Dumps by characters: the sets of (0008,0005), one alone.
pub fn text_sets() -> [&'static [Row]; 4] {
    [&SETS, &SETS_MORE, &BYTES, &GB18030]
}
