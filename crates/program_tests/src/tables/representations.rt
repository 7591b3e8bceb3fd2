// Rows of values whose representation a file does not say, and of elements that are not shown.
use crate::runs::Done::{Faulty, Whole};
use crate::runs::Entry::{Decided, File};
use crate::runs::Row;
use dcm_test_devices::Start;

/// Implicit files, values between two representations, and unknown ones.
pub fn representations() -> &'static [Row] {
    &REPRESENTATIONS
}

static REPRESENTATIONS: [Row; 5] = [
    Row {
        name: "an implicit file",
        words: "dcm2csv +nh -k XRayTubeCurrent -k SmallestImagePixelValue -k PixelRepresentation -k LUTData -k (0029,1001)",
        header: b"",
        names: &[b"s", b"u"],
        files: &[
            File(
                b"s",
                Start::Implicit,
                b"\x18\0Q\x11\x04\0\0\0120 (\0\x03\x01\x02\0\0\0\x01\0(\0\x06\x01\x02\0\0\0\xff\xff(\0\x060\x02\0\0\0\x01\0)\0\x01\x10\x02\0\0\0x ",
            ),
            File(
                b"u",
                Start::Implicit,
                b"(\0\x06\x01\x02\0\0\0\xff\xff(\0\x03\x01\x02\0\0\0\x01\0",
            ),
        ],
        done: &[
            Whole(b"s", b"s", b"\"s\",\"120\",-1,1,,\n"),
            Whole(b"u", b"u", b"\"u\",,65535,1,,\n"),
        ],
    },
    Row {
        name: "signed twice",
        words: "dcm2csv +nh -k SmallestImagePixelValue -k PixelRepresentation",
        header: b"",
        names: &[b"x", b"y", b"z", b"un"],
        files: &[
            File(
                b"x",
                Start::Implicit,
                b"(\0\x03\x01\x02\0\0\0\0\0(\0\x03\x01\x04\0\0\0\x01\0\0\0(\0\x06\x01\x03\0\0\0\xfe\xff\xff",
            ),
            File(
                b"y",
                Start::Implicit,
                b"(\0\x03\x01\x02\0\0\0\x01\0(\0\x03\x01\0\0\0\0(\0\x06\x01\x02\0\0\0\xfe\xff",
            ),
            File(
                b"z",
                Start::Implicit,
                b"\x08\0@\x11\x12\0\0\0\xfe\xff\0\xe0\n\0\0\0(\0\x03\x01\x02\0\0\0\x01\0(\0\x06\x01\x02\0\0\0\xfe\xff",
            ),
            File(
                b"un",
                Start::ExplicitLittle,
                b"(\0\x03\x01US\x02\0\0\0(\0\x03\x01UN\0\0\x02\0\0\0\x01\0(\0\x06\x01UN\0\0\x02\0\0\0\xfe\xff",
            ),
        ],
        done: &[
            Whole(b"x", b"x", b"\"x\",-2,0\n"),
            Whole(b"y", b"y", b"\"y\",65534,1\n"),
            Whole(b"z", b"z", b"\"z\",65534,\n"),
            Whole(b"un", b"un", b"\"un\",-2,0\n"),
        ],
    },
    Row {
        name: "unknown values",
        words: "dcm2csv +nh -k PatientID -k Rows -k (0029,1001) -k PatientName",
        header: b"",
        names: &[b"x", b"y"],
        files: &[
            File(
                b"x",
                Start::ExplicitLittle,
                b"\x10\0\x10\0UN\0\0\0\0\0\0\x10\0 \0UN\0\0\x02\0\0\07 (\0\x10\0UN\0\0\x02\0\0\0\0\x02)\0\x01\x10UN\0\0\x02\0\0\0x ",
            ),
            File(
                b"y",
                Start::ExplicitLittle,
                b"\x10\0 \0UN\0\0\xff\xff\xff\xff\xfe\xff\xdd\xe0\0\0\0\0",
            ),
        ],
        done: &[
            Whole(b"x", b"x", b"\"x\",\"7\",512,,\"\"\n"),
            Whole(b"y", b"y", b"\"y\",,,,\n"),
        ],
    },
    Row {
        name: "unknown sequences",
        words: "dcm2csv +nh -k PatientID -k PerimeterValue -k SmallestImagePixelValue -k ReferencedImageSequence",
        header: b"",
        names: &[b"seq", b"big", b"bigun", b"bad", b"open"],
        files: &[
            File(
                b"seq",
                Start::ExplicitLittle,
                b"\x08\0@\x11UN\0\0\x1c\0\0\0\xfe\xff\0\xe0\x14\0\0\0\x10\0 \0\x02\0\0\0in(\0\x03\x01\x02\0\0\0\x01\0\x10\0 \0LO\x02\07 (\0\x06\x01UN\0\0\x02\0\0\0\xfe\xff",
            ),
            File(
                b"big",
                Start::Big,
                b"\0(\x01\x03US\0\x02\0\x01\0(\x01\x06UN\0\0\0\0\0\x02\xfe\xff",
            ),
            File(
                b"bigun",
                Start::Big,
                b"\0(\x01\x03UN\0\0\0\0\0\x02\x01\0\0(\x01\x06UN\0\0\0\0\0\x02\xfe\xff",
            ),
            Decided(
                b"bad",
                Start::ExplicitLittle,
                b"\x08\0@\x11UN\0\0\x08\0\0\0no items\x10\0 \0LO\x02\07 ",
                192,
            ),
            Decided(
                b"open",
                Start::Implicit,
                b"(\0q\0\x02\0\0\0\x01\0(\0\x06\x01\xff\xff\xff\xff",
                188,
            ),
        ],
        done: &[
            Whole(b"seq", b"seq", b"\"seq\",\"7\",,65534,\n"),
            Whole(b"big", b"big", b"\"big\",,,-2,\n"),
            Whole(b"bigun", b"bigun", b"\"bigun\",,,-2,\n"),
            Faulty(
                b"bad",
                b"bad",
                b"\"bad\",,,,\n",
                b"R9 at byte 184: tag not allowed here",
            ),
            Faulty(
                b"open",
                b"open",
                b"\"open\",,,,\n",
                b"R8 at byte 180: undefined length not allowed",
            ),
        ],
    },
    Row {
        name: "nested and late elements",
        words: "dcm2csv +nh -k PatientID -k ReferencedImageSequence -k PatientName",
        header: b"",
        names: &[b"x", b"y"],
        files: &[
            File(
                b"x",
                Start::ExplicitLittle,
                b"\x08\0@\x11SQ\0\0\xff\xff\xff\xff\xfe\xff\0\xe0\xff\xff\xff\xff\x10\0 \0LO\x02\0in\xfe\xff\r\xe0\0\0\0\0\xfe\xff\xdd\xe0\0\0\0\0\x10\0\x10\0PN\x06\0AB^CD \x10\0 \0LO\x02\01 \x10\0 \0LO\x02\02 ",
            ),
            Decided(
                b"y",
                Start::ExplicitLittle,
                b"(\0\x10\0US\x02\0\x01\0\x10\0\x10\0PN\x06\0AB^CD ",
                180,
            ),
        ],
        done: &[
            Whole(b"x", b"x", b"\"x\",\"1\",,\"AB^CD\"\n"),
            Whole(b"y", b"y", b"\"y\",,,\n"),
        ],
    },
];
