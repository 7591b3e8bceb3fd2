// Dumps by characters: code extensions (PS3.5 6.1.2.5).
use crate::runs::rows::{EMPTY, Row};
use dcm_test_devices::Start;

/// Designations, and the examples of PS3.5, annexes H, I, J and K.
static EXTENSIONS: [Row; 10] = [
    Row {
        name: "extensions: H.3.1",
        words: "dcmdump +u8 +L +dict -",
        start: Start::ExplicitLittle,
        input: b"\x08\0\x05\0CS\x10\0\\ISO 2022 IR 87 \x10\0\x10\0PN<\0Yamada^Tarou=\x1b$B;3ED\x1b(B^\x1b$BB@O:\x1b(B=\x1b$B$d$^$@\x1b(B^\x1b$B$?$m$&\x1b(B",
        header: Start::ExplicitLittle,
        lines: b"(0008,0005) CS [\\ISO 2022 IR 87]                        #  16, 2 SpecificCharacterSet\n(0010,0010) PN [Yamada^Tarou=\xe5\xb1\xb1\xe7\x94\xb0^\xe5\xa4\xaa\xe9\x83\x8e=\xe3\x82\x84\xe3\x81\xbe\xe3\x81\xa0^\xe3\x81\x9f\xe3\x82\x8d\xe3\x81\x86] #  60, 1 PatientName\n",
        ..EMPTY
    },
    Row {
        name: "extensions: H.3.2",
        words: "dcmdump +u8 +L +dict -",
        start: Start::ExplicitLittle,
        input: b"\x08\0\x05\0CS\x1e\0ISO 2022 IR 13\\ISO 2022 IR 87 \x10\0\x10\0PN8\0\xd4\xcf\xc0\xde^\xc0\xdb\xb3=\x1b$B;3ED\x1b(J^\x1b$BB@O:\x1b(J=\x1b$B$d$^$@\x1b(J^\x1b$B$?$m$&\x1b(J",
        header: Start::ExplicitLittle,
        lines: b"(0008,0005) CS [ISO 2022 IR 13\\ISO 2022 IR 87]          #  30, 2 SpecificCharacterSet\n(0010,0010) PN [\xef\xbe\x94\xef\xbe\x8f\xef\xbe\x80\xef\xbe\x9e^\xef\xbe\x80\xef\xbe\x9b\xef\xbd\xb3=\xe5\xb1\xb1\xe7\x94\xb0^\xe5\xa4\xaa\xe9\x83\x8e=\xe3\x82\x84\xe3\x81\xbe\xe3\x81\xa0^\xe3\x81\x9f\xe3\x82\x8d\xe3\x81\x86] #  56, 1 PatientName\n",
        ..EMPTY
    },
    Row {
        name: "extensions: I.2",
        words: "dcmdump +u8 +L +dict -",
        start: Start::ExplicitLittle,
        input: b"\x08\0\x05\0CS\x10\0\\ISO 2022 IR 149\x10\0\x10\0PN,\0Hong^Gildong=\x1b$)C\xfb\xf3^\x1b$)C\xd1\xce\xd4\xd7=\x1b$)C\xc8\xab^\x1b$)C\xb1\xe6\xb5\xbf",
        header: Start::ExplicitLittle,
        lines: b"(0008,0005) CS [\\ISO 2022 IR 149]                       #  16, 2 SpecificCharacterSet\n(0010,0010) PN [Hong^Gildong=\xe6\xb4\xaa^\xe5\x90\x89\xe6\xb4\x9e=\xed\x99\x8d^\xea\xb8\xb8\xeb\x8f\x99]     #  44, 1 PatientName\n",
        ..EMPTY
    },
    Row {
        name: "extensions: I.3",
        words: "dcmdump +u8 +L +dict -",
        start: Start::ExplicitLittle,
        input: b"\x08\0\x05\0CS\x10\0\\ISO 2022 IR 149\x10\0\0@LTT\0\x1b$)CThe 1st line includes \xb1\xe6\xb5\xbf.\x0d\n\x1b$)CThe 2nd line includes \xb1\xe6\xb5\xbf, too.\x0d\nThe 3rd line ",
        header: Start::ExplicitLittle,
        lines: b"(0008,0005) CS [\\ISO 2022 IR 149]                       #  16, 2 SpecificCharacterSet\n(0010,4000) LT [The 1st line includes \xea\xb8\xb8\xeb\x8f\x99.%0D%0AThe 2nd line includes \xea\xb8\xb8\xeb\x8f\x99, too.%0D%0AThe 3rd line] #  84, 1 PatientComments\n",
        ..EMPTY
    },
    Row {
        name: "extensions: K.2",
        words: "dcmdump +u8 +L +dict -",
        start: Start::ExplicitLittle,
        input: b"\x08\0\x05\0CS\x10\0\\ISO 2022 IR 58 \x10\0\x10\0PN \0Zhang^XiaoDong=\x1b$)A\xd5\xc5^\x1b$)A\xd0\xa1\xb6\xab= ",
        header: Start::ExplicitLittle,
        lines: b"(0008,0005) CS [\\ISO 2022 IR 58]                        #  16, 2 SpecificCharacterSet\n(0010,0010) PN [Zhang^XiaoDong=\xe5\xbc\xa0^\xe5\xb0\x8f\xe4\xb8\x9c=]             #  32, 1 PatientName\n",
        ..EMPTY
    },
    Row {
        name: "extensions: K.3",
        words: "dcmdump +u8 +L +dict -",
        start: Start::ExplicitLittle,
        input: b"\x08\0\x05\0CS\x10\0\\ISO 2022 IR 58 \x10\0\0@LT \0\x1b$)A\xb5\xda\xd2\xbb\xd0\xd0\xce\xc4\xd7\xd6\xa1\xa3\x0d\n\x1b$)A\xb5\xda\xb6\xfe\xd0\xd0\xa1\xa4\xa1\xaa",
        header: Start::ExplicitLittle,
        lines: b"(0008,0005) CS [\\ISO 2022 IR 58]                        #  16, 2 SpecificCharacterSet\n(0010,4000) LT [\xe7\xac\xac\xe4\xb8\x80\xe8\xa1\x8c\xe6\x96\x87\xe5\xad\x97\xe3\x80\x82%0D%0A\xe7\xac\xac\xe4\xba\x8c\xe8\xa1\x8c\xe3\x83\xbb\xe2\x80\x95] #  32, 1 PatientComments\n",
        ..EMPTY
    },
    Row {
        name: "extensions: every G1",
        words: "dcmdump +u8 +L +dict -",
        start: Start::ExplicitLittle,
        input: b"\x08\0\x05\0CS\x0c\x01\\ISO 2022 IR 6\\ISO 2022 IR 13\\ISO 2022 IR 100\\ISO 2022 IR 101\\ISO 2022 IR 109\\ISO 2022 IR 110\\ISO 2022 IR 126\\ISO 2022 IR 127\\ISO 2022 IR 138\\ISO 2022 IR 144\\ISO 2022 IR 148\\ISO 2022 IR 166\\ISO 2022 IR 203\\ISO 2022 IR 87\\ISO 2022 IR 159\\ISO 2022 IR 149\\ISO 2022 IR 58 \x10\0 \0LO<\0\x1b-A\xe9\x1b-B\xf8\x1b-C\xb1\x1b-D\xe0\x1b-F\xc4\x1b-G\xe2\x1b-H\xf9\x1b-L\xbb\x1b-M\xfe\x1b-T\xa1\x1b-b\xa4\x1b)I\xd4\x1b$)C\xfb\xf3\x1b$)A\xcd\xf5",
        header: Start::ExplicitLittle,
        lines: b"(0008,0005) CS [\\ISO 2022 IR 6\\ISO 2022 IR 13\\ISO 2022 IR 100\\ISO 2022 IR 101\\ISO 2022 IR 109\\ISO 2022 IR 110\\ISO 2022 IR 126\\ISO 2022 IR 127\\ISO 2022 IR 138\\ISO 2022 IR 144\\ISO 2022 IR 148\\ISO 2022 IR 166\\ISO 2022 IR 203\\ISO 2022 IR 87\\ISO 2022 IR 159\\ISO 2022 IR 149\\ISO 2022 IR 58] # 268, 18 SpecificCharacterSet\n(0010,0020) LO [\xc3\xa9\xc5\x99\xc4\xa7\xc4\x81\xce\x94\xd9\x82\xd7\xa9\xd0\x9b\xc5\x9f\xe0\xb8\x81\xe2\x82\xac\xef\xbe\x94\xe6\xb4\xaa\xe7\x8e\x8b]      #  60, 1 PatientID\n",
        ..EMPTY
    },
    Row {
        name: "extensions: every G0",
        words: "dcmdump +u8 +L +dict -",
        start: Start::ExplicitLittle,
        input: b"\x08\0\x05\0CS\x0c\x01\\ISO 2022 IR 6\\ISO 2022 IR 13\\ISO 2022 IR 100\\ISO 2022 IR 101\\ISO 2022 IR 109\\ISO 2022 IR 110\\ISO 2022 IR 126\\ISO 2022 IR 127\\ISO 2022 IR 138\\ISO 2022 IR 144\\ISO 2022 IR 148\\ISO 2022 IR 166\\ISO 2022 IR 203\\ISO 2022 IR 87\\ISO 2022 IR 159\\ISO 2022 IR 149\\ISO 2022 IR 58 \x10\0 \0LO\x1a\0\x1b$B;3\x1b$(D0!\"7\x1b(J~\x1b$B;3\x1b(BA",
        header: Start::ExplicitLittle,
        lines: b"(0008,0005) CS [\\ISO 2022 IR 6\\ISO 2022 IR 13\\ISO 2022 IR 100\\ISO 2022 IR 101\\ISO 2022 IR 109\\ISO 2022 IR 110\\ISO 2022 IR 126\\ISO 2022 IR 127\\ISO 2022 IR 138\\ISO 2022 IR 144\\ISO 2022 IR 148\\ISO 2022 IR 166\\ISO 2022 IR 203\\ISO 2022 IR 87\\ISO 2022 IR 159\\ISO 2022 IR 149\\ISO 2022 IR 58] # 268, 18 SpecificCharacterSet\n(0010,0020) LO [\xe5\xb1\xb1\xe4\xb8\x82\xef\xbd\x9e~\xe5\xb1\xb1A]                         #  26, 1 PatientID\n",
        ..EMPTY
    },
    Row {
        name: "extensions: one value",
        words: "dcmdump +u8 +L +dict -",
        start: Start::ExplicitLittle,
        input: b"\x08\0\x05\0CS\x10\0ISO 2022 IR 100 \x10\0 \0LO\x0c\0\xe9\x1b-A\xe9\x1b(B\x1b-L ",
        header: Start::ExplicitLittle,
        lines: b"(0008,0005) CS [ISO 2022 IR 100]                        #  16, 1 SpecificCharacterSet\n(0010,0020) LO [\xc3\xa9\xc3\xa9%1B-L]                              #  12, 1 PatientID\n",
        ..EMPTY
    },
    Row {
        name: "extensions: 149 alone",
        words: "dcmdump +u8 +L +dict -",
        start: Start::ExplicitLittle,
        input: b"\x08\0\x05\0CS\x10\0ISO 2022 IR 149 \x10\0\x10\0PN\x08\0\xfb\xf3^\xd1\xce\xd4\xd7 ",
        header: Start::ExplicitLittle,
        lines: b"(0008,0005) CS [ISO 2022 IR 149]                        #  16, 1 SpecificCharacterSet\n(0010,0010) PN [\xe6\xb4\xaa^\xe5\x90\x89\xe6\xb4\x9e]                             #   8, 1 PatientName\n",
        ..EMPTY
    },
];

/// Designations, and the examples of PS3.5, annexes H, I, J and K, continued.
static EXTENSIONS_MORE: [Row; 9] = [
    Row {
        name: "extensions: 87 alone",
        words: "dcmdump +u8 +L +dict -",
        start: Start::ExplicitLittle,
        input: b"\x08\0\x05\0CS\x0e\0ISO 2022 IR 87\x10\0 \0LO\n\0\x1b$B;3\x1b(J\\\xe9",
        header: Start::ExplicitLittle,
        lines: b"(0008,0005) CS [ISO 2022 IR 87]                         #  14, 1 SpecificCharacterSet\n(0010,0020) LO [\xe5\xb1\xb1\\%E9]                                #  10, 2 PatientID\n",
        ..EMPTY
    },
    Row {
        name: "extensions: of no set",
        words: "dcmdump +u8 +L +dict -",
        start: Start::ExplicitLittle,
        input: b"\x08\0\x05\0CS\x10\0\\ISO 2022 IR 87 \x10\0 \0LO\x10\0a\x1b-Ab\xe9\x1b$)C\x1b$B;3 ",
        header: Start::ExplicitLittle,
        lines: b"(0008,0005) CS [\\ISO 2022 IR 87]                        #  16, 2 SpecificCharacterSet\n(0010,0020) LO [a%1B-Ab%E9%1B$)C\xe5\xb1\xb1]                    #  16, 1 PatientID\n",
        ..EMPTY
    },
    Row {
        name: "extensions: no extensions",
        words: "dcmdump +u8 +L +dict -",
        start: Start::ExplicitLittle,
        input: b"\x08\0\x05\0CS\n\0ISO_IR 100\x10\0 \0LO\x08\0\x1b-L\xe9\x1b(B ",
        header: Start::ExplicitLittle,
        lines: b"(0008,0005) CS [ISO_IR 100]                             #  10, 1 SpecificCharacterSet\n(0010,0020) LO [%1B-L\xc3\xa9%1B(B]                           #   8, 1 PatientID\n",
        ..EMPTY
    },
    Row {
        name: "extensions: old form",
        words: "dcmdump +u8 +L +dict -",
        start: Start::ExplicitLittle,
        input: b"\x08\0\x05\0CS\x16\0ISO_IR 100\\ISO_IR 144 \x10\0 \0LO\x06\0\xe9\x1b-L\xb6 ",
        header: Start::ExplicitLittle,
        lines: b"(0008,0005) CS [ISO_IR 100\\ISO_IR 144]                  #  22, 2 SpecificCharacterSet\n(0010,0020) LO [\xc3\xa9\xd0\x96]                                   #   6, 1 PatientID\n",
        ..EMPTY
    },
    Row {
        name: "extensions: cut escape",
        words: "dcmdump +u8 +L +dict -",
        start: Start::ExplicitLittle,
        input: b"\x08\0\x05\0CS\x10\0\\ISO 2022 IR 87 \x10\0 \0LO\x06\0a\x1b$\x1b(\x1b",
        header: Start::ExplicitLittle,
        lines: b"(0008,0005) CS [\\ISO 2022 IR 87]                        #  16, 2 SpecificCharacterSet\n(0010,0020) LO [a%1B$%1B(%1B]                           #   6, 1 PatientID\n",
        ..EMPTY
    },
    Row {
        name: "extensions: both halves",
        words: "dcmdump +u8 +L +dict -",
        start: Start::ExplicitLittle,
        input: b"\x08\0\x05\0CS\x1e\0ISO 2022 IR 100\\ISO 2022 IR 87\x10\0 \0LO\x10\0\xe9\x1b$B;3\xe93D\xe9\x1b(B;3\xe9",
        header: Start::ExplicitLittle,
        lines: b"(0008,0005) CS [ISO 2022 IR 100\\ISO 2022 IR 87]         #  30, 2 SpecificCharacterSet\n(0010,0020) LO [\xc3\xa9\xe5\xb1\xb1\xc3\xa9\xe5\x8a\x83\xc3\xa9;3\xc3\xa9]                       #  16, 1 PatientID\n",
        ..EMPTY
    },
    Row {
        name: "extensions: pairs",
        words: "dcmdump +u8 +L +dict -",
        start: Start::ExplicitLittle,
        input: b"\x08\0\x05\0CS\x10\0\\ISO 2022 IR 87 \x10\0\0@LT\x14\0\x1b$B;3 ;\n;3\x1b$B)!3\x1b(B3",
        header: Start::ExplicitLittle,
        lines: b"(0008,0005) CS [\\ISO 2022 IR 87]                        #  16, 2 SpecificCharacterSet\n(0010,4000) LT [\xe5\xb1\xb1 %3B%0A;3%29%21%333]                 #  20, 1 PatientComments\n",
        ..EMPTY
    },
    Row {
        name: "extensions: pair at the end",
        words: "dcmdump +u8 +L +dict -",
        start: Start::ExplicitLittle,
        input: b"\x08\0\x05\0CS\x10\0\\ISO 2022 IR 87 \x10\0\0@LT\x06\0\x1b$B;3;",
        header: Start::ExplicitLittle,
        lines: b"(0008,0005) CS [\\ISO 2022 IR 87]                        #  16, 2 SpecificCharacterSet\n(0010,4000) LT [\xe5\xb1\xb1%3B]                                 #   6, 1 PatientComments\n",
        ..EMPTY
    },
    Row {
        name: "extensions: KS",
        words: "dcmdump +u8 +L +dict -",
        start: Start::ExplicitLittle,
        input: b"\x08\0\x05\0CS\x10\0\\ISO 2022 IR 149\x10\0\0@LT\x10\0\x1b$)C\xa2\xe8\xa4\xd4\xc9\xa1\xfbA\xa1\xff\x80 ",
        header: Start::ExplicitLittle,
        lines: b"(0008,0005) CS [\\ISO 2022 IR 149]                       #  16, 2 SpecificCharacterSet\n(0010,4000) LT [\xe3\x89\xbe%A4%D4%C9%A1%FBA%A1%FF%80]           #  16, 1 PatientComments\n",
        ..EMPTY
    },
];

/// What ends a designation.
static RESETS: [Row; 7] = [
    Row {
        name: "resets: backslash LO",
        words: "dcmdump +u8 +L +dict -",
        start: Start::ExplicitLittle,
        input: b"\x08\0\x05\0CS \0\\ISO 2022 IR 87\\ISO 2022 IR 144 \x10\0 \0LO\x06\0\x1b-L\xb6\\\xb6",
        header: Start::ExplicitLittle,
        lines: b"(0008,0005) CS [\\ISO 2022 IR 87\\ISO 2022 IR 144]        #  32, 3 SpecificCharacterSet\n(0010,0020) LO [\xd0\x96\\%B6]                                 #   6, 2 PatientID\n",
        ..EMPTY
    },
    Row {
        name: "resets: backslash UC",
        words: "dcmdump +u8 +L +dict -",
        start: Start::ExplicitLittle,
        input: b"\x08\0\x05\0CS \0ISO 2022 IR 100\\ISO 2022 IR 144 \x08\0\x19\x01UC\0\0\x06\0\0\0\x1b-L\xb6\\\xb6",
        header: Start::ExplicitLittle,
        lines: b"(0008,0005) CS [ISO 2022 IR 100\\ISO 2022 IR 144]        #  32, 2 SpecificCharacterSet\n(0008,0119) UC [\xd0\x96\\\xc2\xb6]                                  #   6, 2 LongCodeValue\n",
        ..EMPTY
    },
    Row {
        name: "resets: backslash LT",
        words: "dcmdump +u8 +L +dict -",
        start: Start::ExplicitLittle,
        input: b"\x08\0\x05\0CS \0ISO 2022 IR 100\\ISO 2022 IR 144 \x10\0\0@LT\x0c\0\x1b-L\xb6\\\xb6=^\xb6\x7f\xb6 ",
        header: Start::ExplicitLittle,
        lines: b"(0008,0005) CS [ISO 2022 IR 100\\ISO 2022 IR 144]        #  32, 2 SpecificCharacterSet\n(0010,4000) LT [\xd0\x96\\\xd0\x96=^\xd0\x96%7F\xd0\x96]                         #  12, 1 PatientComments\n",
        ..EMPTY
    },
    Row {
        name: "resets: line",
        words: "dcmdump +u8 +L +dict -",
        start: Start::ExplicitLittle,
        input: b"\x08\0\x05\0CS \0ISO 2022 IR 100\\ISO 2022 IR 144 \x08\0\x81\0ST$\0\x1b-L\xb6\n\xb6\x1b-L\xb6\x0d\xb6\x1b-L\xb6\x09\xb6\x1b-L\xb6\x0c\xb6\x1b-L\xb6\0\xb6\x1b-L\xb6\x0e\xb6",
        header: Start::ExplicitLittle,
        lines: b"(0008,0005) CS [ISO 2022 IR 100\\ISO 2022 IR 144]        #  32, 2 SpecificCharacterSet\n(0008,0081) ST [\xd0\x96%0A\xc2\xb6\xd0\x96%0D\xc2\xb6\xd0\x96%09\xc2\xb6\xd0\x96%0C\xc2\xb6\xd0\x96%00\xc2\xb6\xd0\x96%0E\xc2\xb6] #  36, 1 InstitutionAddress\n",
        ..EMPTY
    },
    Row {
        name: "resets: names",
        words: "dcmdump +u8 +L +dict -",
        start: Start::ExplicitLittle,
        input: b"\x08\0\x05\0CS \0ISO 2022 IR 100\\ISO 2022 IR 144 \x10\0\x10\0PN\x14\0\x1b-L\xb6^\xb6\x1b-L\xb6=\xb6\x1b-L\xb6,\xb6\\\xb6",
        header: Start::ExplicitLittle,
        lines: b"(0008,0005) CS [ISO 2022 IR 100\\ISO 2022 IR 144]        #  32, 2 SpecificCharacterSet\n(0010,0010) PN [\xd0\x96^\xc2\xb6\xd0\x96=\xc2\xb6\xd0\x96,\xd0\x96\\\xc2\xb6]                     #  20, 2 PatientName\n",
        ..EMPTY
    },
    Row {
        name: "resets: not in SH",
        words: "dcmdump +u8 +L +dict -",
        start: Start::ExplicitLittle,
        input: b"\x08\0\x05\0CS \0ISO 2022 IR 100\\ISO 2022 IR 144 \x08\0P\0SH\x08\0\x1b-L\xb6^=\xb6 ",
        header: Start::ExplicitLittle,
        lines: b"(0008,0005) CS [ISO 2022 IR 100\\ISO 2022 IR 144]        #  32, 2 SpecificCharacterSet\n(0008,0050) SH [\xd0\x96^=\xd0\x96]                                 #   8, 1 AccessionNumber\n",
        ..EMPTY
    },
    Row {
        name: "resets: within pairs",
        words: "dcmdump +u8 +L +dict -",
        start: Start::ExplicitLittle,
        input: b"\x08\0\x05\0CS\x10\0\\ISO 2022 IR 87 \x10\0\x10\0PN\x12\0\x1b$B=\\\\!^=$^=U\x1b(B\\A",
        header: Start::ExplicitLittle,
        lines: b"(0008,0005) CS [\\ISO 2022 IR 87]                        #  16, 2 SpecificCharacterSet\n(0010,0010) PN [\xe6\x97\xac\xe6\xa3\x94\xe6\xb8\x8a\xe3\x81\xbe\xe6\x98\xa5\\A]                      #  18, 2 PatientName\n",
        ..EMPTY
    },
];

/// Dumps by characters: code extensions (PS3.5 6.1.2.5).
pub fn text_extensions() -> [&'static [Row]; 3] {
    [&EXTENSIONS, &EXTENSIONS_MORE, &RESETS]
}
