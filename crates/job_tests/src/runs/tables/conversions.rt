// Conversions of files: what stands behind the meta group, and the bytes that are wanted of it.
use crate::runs::rows::{EMPTY, Row};
use dcm_test_devices::Start;

/// Values whose bytes are turned or evened.
static VALUES: [Row; 10] = [
    Row {
        name: "words to big endian",
        words: "dcmconv +tb - -",
        start: Start::ExplicitLittle,
        input: b"\xe0\x7f\x10\0OW\0\0\x04\0\0\0\x01\x02\x03\x04",
        header: Start::Big,
        lines: b"\x7f\xe0\0\x10OW\0\0\0\0\0\x04\x02\x01\x04\x03",
        ..EMPTY
    },
    Row {
        name: "an odd text",
        words: "dcmconv - -",
        start: Start::ExplicitLittle,
        input: b"\x10\0\0@LT\x01\0 ",
        header: Start::ExplicitLittle,
        lines: b"\x10\0\0@LT\x02\0  ",
        ..EMPTY
    },
    Row {
        name: "big endian numbers to little endian, and a byte behind them",
        words: "dcmconv +te - -",
        start: Start::Big,
        input: b"\0(\0\x10US\0\x05\0\x01\x02\0\x05",
        header: Start::ExplicitLittle,
        lines: b"(\0\x10\0US\x06\0\x01\0\0\x02\x05\0",
        ..EMPTY
    },
    Row {
        name: "a tag to big endian",
        words: "dcmconv +tb - -",
        start: Start::ExplicitLittle,
        input: b"(\0\x09\0AT\x04\0\x18\0c\x10",
        header: Start::Big,
        lines: b"\0(\0\x09AT\0\x04\0\x18\x10c",
        ..EMPTY
    },
    Row {
        name: "a long number to big endian",
        words: "dcmconv +tb - -",
        start: Start::ExplicitLittle,
        input: b"\x09\0\x01\x10UV\0\0\x08\0\0\0\x02\x01\0\0\0\0\0\0",
        header: Start::Big,
        lines: b"\0\x09\x10\x01UV\0\0\0\0\0\x08\0\0\0\0\0\0\x01\x02",
        ..EMPTY
    },
    Row {
        name: "an end within words to big endian",
        words: "dcmconv +tb - -",
        start: Start::ExplicitLittle,
        input: b"\xe0\x7f\x10\0OW\0\0\x08\0\0\0\x01\x02\x03\x04\x05",
        header: Start::Big,
        lines: b"\x7f\xe0\0\x10OW\0\0\0\0\0\x08\x02\x01\x04\x03",
        status: 2,
        told: b"dcmtools: R1 at byte 189: input ends too early\n",
    },
    Row {
        name: "a number that a dictionary knows to explicit",
        words: "dcmconv +te - -",
        start: Start::Implicit,
        input: b"(\0\x10\0\x02\0\0\0\0\x02",
        header: Start::ExplicitLittle,
        lines: b"(\0\x10\0US\x02\0\0\x02",
        ..EMPTY
    },
    Row {
        name: "a name to implicit",
        words: "dcmconv +ti - -",
        start: Start::ExplicitLittle,
        input: b"\x10\0\x10\0PN\x06\0AB^CD ",
        header: Start::Implicit,
        lines: b"\x10\0\x10\0\x06\0\0\0AB^CD ",
        ..EMPTY
    },
    Row {
        name: "a number to big endian",
        words: "dcmconv +tb - -",
        start: Start::ExplicitLittle,
        input: b"(\0\x10\0US\x02\0\x01\x02",
        header: Start::Big,
        lines: b"\0(\0\x10US\0\x02\x02\x01",
        ..EMPTY
    },
    Row {
        name: "a number from big endian",
        words: "dcmconv +te - -",
        start: Start::Big,
        input: b"\0(\0\x10US\0\x02\x02\x01",
        header: Start::ExplicitLittle,
        lines: b"(\0\x10\0US\x02\0\x01\x02",
        ..EMPTY
    },
];

/// Sequences.
static SEQUENCES: [Row; 5] = [
    Row {
        name: "an empty sequence",
        words: "dcmconv - -",
        start: Start::ExplicitLittle,
        input: b"\x08\0@\x11SQ\0\0\0\0\0\0",
        header: Start::ExplicitLittle,
        lines: b"\x08\0@\x11SQ\0\0\xff\xff\xff\xff\xfe\xff\xdd\xe0\0\0\0\0",
        ..EMPTY
    },
    Row {
        name: "unknown of undefined length to explicit",
        words: "dcmconv +te - -",
        start: Start::Big,
        input: b"\0\x09\x10\x10UN\0\0\xff\xff\xff\xff\xfe\xff\0\xe0\xff\xff\xff\xff\x10\0\x10\0\x02\0\0\0AB\xfe\xff\x0d\xe0\0\0\0\0\xfe\xff\xdd\xe0\0\0\0\0",
        header: Start::ExplicitLittle,
        lines: b"\x09\0\x10\x10SQ\0\0\xff\xff\xff\xff\xfe\xff\0\xe0\xff\xff\xff\xff\x10\0\x10\0PN\x02\0AB\xfe\xff\x0d\xe0\0\0\0\0\xfe\xff\xdd\xe0\0\0\0\0",
        ..EMPTY
    },
    Row {
        name: "a sequence and an item of known length to implicit",
        words: "dcmconv +ti - -",
        start: Start::ExplicitLittle,
        input: b"\x08\0@\x11SQ\0\0\x14\0\0\0\xfe\xff\0\xe0\x0c\0\0\0\x08\0U\x11UI\x04\01.2\0\x10\0\x10\0PN\x01\0A",
        header: Start::Implicit,
        lines: b"\x08\0@\x11\xff\xff\xff\xff\xfe\xff\0\xe0\xff\xff\xff\xff\x08\0U\x11\x04\0\0\01.2\0\xfe\xff\x0d\xe0\0\0\0\0\xfe\xff\xdd\xe0\0\0\0\0\x10\0\x10\0\x02\0\0\0A ",
        ..EMPTY
    },
    Row {
        name: "a sequence whose number in its group is 0",
        words: "dcmconv +fo - -",
        start: Start::ExplicitLittle,
        input: b"\x09\0\0\0SQ\0\0\xff\xff\xff\xff\xfe\xff\0\xe0\xff\xff\xff\xff\x10\0\x10\0PN\x02\0AB\xfe\xff\x0d\xe0\0\0\0\0\xfe\xff\xdd\xe0\0\0\0\0\x10\0 \0LO\x01\07",
        header: Start::ExplicitLittle,
        lines: b"\x10\0 \0LO\x02\07 ",
        ..EMPTY
    },
    Row {
        name: "a sequence of known length",
        words: "dcmconv - -",
        start: Start::ExplicitLittle,
        input: b"\x08\0@\x11SQ\0\0\x14\0\0\0\xfe\xff\0\xe0\x0c\0\0\0\x08\0U\x11UI\x04\01.2\0",
        header: Start::ExplicitLittle,
        lines: b"\x08\0@\x11SQ\0\0\xff\xff\xff\xff\xfe\xff\0\xe0\xff\xff\xff\xff\x08\0U\x11UI\x04\01.2\0\xfe\xff\x0d\xe0\0\0\0\0\xfe\xff\xdd\xe0\0\0\0\0",
        ..EMPTY
    },
];

/// Fragments.
static FRAGMENTS: [Row; 6] = [
    Row {
        name: "an encapsulated syntax to implicit",
        words: "dcmconv +ti - -",
        start: Start::Jpeg,
        input: b"\xe0\x7f\x10\0OB\0\0\xff\xff\xff\xff\xfe\xff\0\xe0\0\0\0\0\xfe\xff\0\xe0\x02\0\0\0\xff\xd8\xfe\xff\xdd\xe0\0\0\0\0",
        status: 2,
        told: b"dcmtools: R14 at byte 174: encapsulated syntax cannot be changed\n",
        ..EMPTY
    },
    Row {
        name: "fragments in a native syntax to implicit",
        words: "dcmconv +ti - -",
        start: Start::ExplicitLittle,
        input: b"\xe0\x7f\x10\0OB\0\0\xff\xff\xff\xff\xfe\xff\0\xe0\0\0\0\0\xfe\xff\0\xe0\x02\0\0\0\xff\xd8\xfe\xff\xdd\xe0\0\0\0\0",
        header: Start::Implicit,
        status: 2,
        told: b"dcmtools: R13 at byte 172: fragments not allowed in the target syntax\n",
        ..EMPTY
    },
    Row {
        name: "fragments in their own syntax",
        words: "dcmconv - -",
        start: Start::Jpeg,
        input: b"\xe0\x7f\x10\0OB\0\0\xff\xff\xff\xff\xfe\xff\0\xe0\0\0\0\0\xfe\xff\0\xe0\x02\0\0\0\xff\xd8\xfe\xff\xdd\xe0\0\0\0\0",
        header: Start::Jpeg,
        lines: b"\xe0\x7f\x10\0OB\0\0\xff\xff\xff\xff\xfe\xff\0\xe0\0\0\0\0\xfe\xff\0\xe0\x02\0\0\0\xff\xd8\xfe\xff\xdd\xe0\0\0\0\0",
        ..EMPTY
    },
    Row {
        name: "an end within an odd fragment",
        words: "dcmconv - -",
        start: Start::Jpeg,
        input: b"\xe0\x7f\x10\0OB\0\0\xff\xff\xff\xff\xfe\xff\0\xe0\0\0\0\0\xfe\xff\0\xe0\x03\0\0\0\xff\xd8",
        header: Start::Jpeg,
        lines: b"\xe0\x7f\x10\0OB\0\0\xff\xff\xff\xff\xfe\xff\0\xe0\0\0\0\0\xfe\xff\0\xe0\x04\0\0\0\xff\xd8",
        status: 2,
        told: b"dcmtools: R1 at byte 204: input ends too early\n",
    },
    Row {
        name: "an odd fragment",
        words: "dcmconv - -",
        start: Start::Jpeg,
        input: b"\xe0\x7f\x10\0OB\0\0\xff\xff\xff\xff\xfe\xff\0\xe0\0\0\0\0\xfe\xff\0\xe0\x03\0\0\0\xff\xd8\xff\xfe\xff\xdd\xe0\0\0\0\0",
        header: Start::Jpeg,
        lines: b"\xe0\x7f\x10\0OB\0\0\xff\xff\xff\xff\xfe\xff\0\xe0\0\0\0\0\xfe\xff\0\xe0\x04\0\0\0\xff\xd8\xff\0\xfe\xff\xdd\xe0\0\0\0\0",
        ..EMPTY
    },
    Row {
        name: "fragments to big endian",
        words: "dcmconv +tb -e - -",
        start: Start::ExplicitLittle,
        input: b"\xe0\x7f\x10\0OB\0\0\xff\xff\xff\xff",
        header: Start::Big,
        status: 2,
        told: b"dcmtools: R13 at byte 172: fragments not allowed in the target syntax\n",
        ..EMPTY
    },
];

/// Heads of files and of elements.
static HEADS: [Row; 10] = [
    Row {
        name: "an unknown tag of implicit to explicit",
        words: "dcmconv +te - -",
        start: Start::Implicit,
        input: b"\x09\0\x01\x10\x02\0\0\0AB",
        header: Start::ExplicitLittle,
        lines: b"\x09\0\x01\x10UN\0\0\x02\0\0\0AB",
        ..EMPTY
    },
    Row {
        name: "a deflated syntax",
        words: "dcmconv - -",
        input: b"\0\0\0\0\0\0\0\0\0\0\0\0\0\0\0\0\0\0\0\0\0\0\0\0\0\0\0\0\0\0\0\0\0\0\0\0\0\0\0\0\0\0\0\0\0\0\0\0\0\0\0\0\0\0\0\0\0\0\0\0\0\0\0\0\0\0\0\0\0\0\0\0\0\0\0\0\0\0\0\0\0\0\0\0\0\0\0\0\0\0\0\0\0\0\0\0\0\0\0\0\0\0\0\0\0\0\0\0\0\0\0\0\0\0\0\0\0\0\0\0\0\0\0\0\0\0\0\0DICM\x02\0\0\0UL\x04\0\x1e\0\0\0\x02\0\x10\0UI\x16\01.2.840.10008.1.2.1.99",
        status: 2,
        told: b"dcmtools: R6 at byte 174: deflated transfer syntax\n",
        ..EMPTY
    },
    Row {
        name: "the length of a group",
        words: "dcmconv - -",
        start: Start::ExplicitLittle,
        input: b"\x08\0\0\0UL\x04\0\n\0\0\0\x08\0`\0CS\x02\0MR",
        header: Start::ExplicitLittle,
        lines: b"\x08\0`\0CS\x02\0MR",
        ..EMPTY
    },
    Row {
        name: "unknown capital letters",
        words: "dcmconv - -",
        start: Start::ExplicitLittle,
        input: b"\x09\0\x01\x10ZZ\x01\x02\x02\0\0\0AB",
        header: Start::ExplicitLittle,
        lines: b"\x09\0\x01\x10UN\0\0\x02\0\0\0AB",
        ..EMPTY
    },
    Row {
        name: "a file without elements",
        words: "dcmconv +t= - -",
        start: Start::ExplicitLittle,
        header: Start::ExplicitLittle,
        ..EMPTY
    },
    Row {
        name: "a meta group with a wrong length, odd values and a second transfer syntax",
        words: "dcmconv +te - -",
        input: b"\0\0\0\0\0\0\0\0\0\0\0\0\0\0\0\0\0\0\0\0\0\0\0\0\0\0\0\0\0\0\0\0\0\0\0\0\0\0\0\0\0\0\0\0\0\0\0\0\0\0\0\0\0\0\0\0\0\0\0\0\0\0\0\0\0\0\0\0\0\0\0\0\0\0\0\0\0\0\0\0\0\0\0\0\0\0\0\0\0\0\0\0\0\0\0\0\0\0\0\0\0\0\0\0\0\0\0\0\0\0\0\0\0\0\0\0\0\0\0\0\0\0\0\0\0\0\0\0DICM\x02\0\0\0UL\x04\0c\0\0\0\x02\0\x01\0OBww\x03\0\0\0\0\x01\x02\x02\0\x10\0UI\x12\01.2.840.10008.1.2\0\x02\0\x10\0UI\x02\01.\x02\0\x02\0UI\x03\01.2\x10\0\x10\0\x01\0\0\0A",
        lines: b"\0\0\0\0\0\0\0\0\0\0\0\0\0\0\0\0\0\0\0\0\0\0\0\0\0\0\0\0\0\0\0\0\0\0\0\0\0\0\0\0\0\0\0\0\0\0\0\0\0\0\0\0\0\0\0\0\0\0\0\0\0\0\0\0\0\0\0\0\0\0\0\0\0\0\0\0\0\0\0\0\0\0\0\0\0\0\0\0\0\0\0\0\0\0\0\0\0\0\0\0\0\0\0\0\0\0\0\0\0\0\0\0\0\0\0\0\0\0\0\0\0\0\0\0\0\0\0\0DICM\x02\0\0\0UL\x04\08\0\0\0\x02\0\x01\0OB\0\0\x04\0\0\0\0\x01\x02\0\x02\0\x10\0UI\x14\01.2.840.10008.1.2.1\0\x02\0\x02\0UI\x04\01.2\0\x10\0\x10\0PN\x02\0A ",
        ..EMPTY
    },
    Row {
        name: "no prefix",
        words: "dcmconv - -",
        input: b"\0\0\0\0\0\0\0\0\0\0\0\0\0\0\0\0\0\0\0\0\0\0\0\0\0\0\0\0\0\0\0\0\0\0\0\0\0\0\0\0\0\0\0\0\0\0\0\0\0\0\0\0\0\0\0\0\0\0\0\0\0\0\0\0\0\0\0\0\0\0\0\0\0\0\0\0\0\0\0\0\0\0\0\0\0\0\0\0\0\0\0\0\0\0\0\0\0\0\0\0\0\0\0\0\0\0\0\0\0\0\0\0\0\0\0\0\0\0\0\0\0\0\0\0\0\0\0\0\0\0\0\0",
        status: 2,
        told: b"dcmtools: R2 at byte 128: no DICM prefix\n",
        ..EMPTY
    },
    Row {
        name: "no bytes",
        words: "dcmconv - -",
        status: 2,
        told: b"dcmtools: R1 at byte 0: input ends too early\n",
        ..EMPTY
    },
    Row {
        name: "the last of two targets",
        words: "dcmconv +tb -e +fo +t= - -",
        start: Start::Implicit,
        input: b"\x10\0\x10\0\x02\0\0\0AB",
        header: Start::Implicit,
        lines: b"\x10\0\x10\0\x02\0\0\0AB",
        ..EMPTY
    },
    Row {
        name: "one byte behind the meta group",
        words: "dcmconv +tb - -",
        start: Start::ExplicitLittle,
        input: b"(",
        status: 2,
        told: b"dcmtools: R1 at byte 173: input ends too early\n",
        ..EMPTY
    },
];

/// Files that are converted.
pub fn conversions() -> [&'static [Row]; 4] {
    [&VALUES, &SEQUENCES, &FRAGMENTS, &HEADS]
}
