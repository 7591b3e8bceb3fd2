// Rows of files that are read far enough, or up to a fault.
use crate::runs::Done::{Faulty, Whole};
use crate::runs::Entry::{Decided, File, Named};
use crate::runs::{Row, TWO_COLUMNS};
use dcm_test_devices::Start;

/// Where reading ends.
pub fn ends() -> &'static [Row] {
    &ENDS
}

static ENDS: [Row; 3] = [
    Row {
        name: "read far enough",
        words: TWO_COLUMNS,
        names: &[b"beyond", b"at", b"before"],
        files: &[
            Decided(
                b"beyond",
                Start::ExplicitLittle,
                b"\x10\0\x10\0PN\x06\0AB^CD (\0\x10\0US\x02\0\x01\0junk, and more junk",
                194,
            ),
            Decided(
                b"at",
                Start::ExplicitLittle,
                b"\x10\0\x10\0PN\x06\0AB^CD (\0\x10\0us\x02\0\x01\0",
                194,
            ),
            Decided(
                b"before",
                Start::ExplicitLittle,
                b"\x08\0`\0pn\x02\0\x10\0\x10\0PN\x06\0AB^CD ",
                180,
            ),
        ],
        header: b"",
        done: &[
            Whole(b"beyond", b"beyond", b"\"beyond\",\"AB^CD\",\n"),
            Faulty(
                b"at",
                b"at",
                b"\"at\",\"AB^CD\",\n",
                b"R7 at byte 186: unknown value representation",
            ),
            Faulty(
                b"before",
                b"before",
                b"\"before\",,\n",
                b"R7 at byte 172: unknown value representation",
            ),
        ],
    },
    Row {
        name: "cut files",
        words: TWO_COLUMNS,
        names: &[b"value", b"head", b"end", b"a"],
        files: &[
            File(
                b"value",
                Start::ExplicitLittle,
                b"\x10\0\x10\0PN\x06\0AB^CD \x10\0 \0LO\x04\0AB",
            ),
            File(
                b"head",
                Start::ExplicitLittle,
                b"\x10\0\x10\0PN\x06\0AB^CD \x10\0 \0LO",
            ),
            File(
                b"end",
                Start::ExplicitLittle,
                b"\x10\0\x10\0PN\x06\0AB^CD \x10\0 \0LO\x02\07 ",
            ),
            Named(b"a"),
        ],
        header: b"",
        done: &[
            Faulty(
                b"value",
                b"value",
                b"\"value\",\"AB^CD\",\n",
                b"R1 at byte 196: input ends too early",
            ),
            Faulty(
                b"head",
                b"head",
                b"\"head\",\"AB^CD\",\n",
                b"R1 at byte 192: input ends too early",
            ),
            Whole(b"end", b"end", b"\"end\",\"AB^CD\",\"7\"\n"),
            Whole(b"a", b"a", b"\"a\",\"AB^CD\",\n"),
        ],
    },
    Row {
        name: "meta groups",
        words: "dcm2csv +nh -k TransferSyntaxUID -k FileMetaInformationGroupLength -k PatientName",
        names: &[
            b"a",
            b"deflated",
            b"none",
            b"cut",
            b"jpeg",
            b"text",
            b"empty",
        ],
        files: &[
            Named(b"a"),
            File(
                b"deflated",
                Start::Prefix,
                b"\x02\0\x10\0UI\x16\01.2.840.10008.1.2.1.99",
            ),
            Decided(
                b"none",
                Start::Prefix,
                b"\x02\0\x10\0UI\0\0\x10\0\x10\0PN\x06\0AB^CD ",
                142,
            ),
            File(
                b"cut",
                Start::Prefix,
                b"\x02\0\0\0UL\x04\0\x1c\0\0\0\x02\0\x10\0UI\x14\01.2.840.10008.1.2.1",
            ),
            File(b"jpeg", Start::Jpeg, b"\x10\0\x10\0PN\x06\0AB^CD "),
            Decided(
                b"text",
                Start::Nothing,
                b"not a DICOM file\nnot a DICOM file\nnot a DICOM file\nnot a DICOM file\nnot a DICOM file\nnot a DICOM file\nnot a DICOM file\nnot a DICOM file\nnot a DICOM file\n",
                132,
            ),
            File(b"empty", Start::Nothing, b""),
        ],
        header: b"",
        done: &[
            Whole(b"a", b"a", b"\"a\",\"1.2.840.10008.1.2.1\",28,\"AB^CD\"\n"),
            Faulty(
                b"deflated",
                b"deflated",
                b"\"deflated\",\"1.2.840.10008.1.2.1.99\",,\n",
                b"R6 at byte 162: deflated transfer syntax",
            ),
            Faulty(
                b"none",
                b"none",
                b"\"none\",\"\",,\n",
                b"R5 at byte 140: no transfer syntax",
            ),
            Faulty(
                b"cut",
                b"cut",
                b"\"cut\",,28,\n",
                b"R1 at byte 171: input ends too early",
            ),
            Whole(
                b"jpeg",
                b"jpeg",
                b"\"jpeg\",\"1.2.840.10008.1.2.4.50\",30,\"AB^CD\"\n",
            ),
            Faulty(
                b"text",
                b"text",
                b"\"text\",,,\n",
                b"R2 at byte 128: no DICM prefix",
            ),
            Faulty(
                b"empty",
                b"empty",
                b"\"empty\",,,\n",
                b"R1 at byte 0: input ends too early",
            ),
        ],
    },
];
