// Files that are modified: what follows the meta group, and the bytes that are wanted of it.
use crate::runs::rows::{EMPTY, Row};
use dcm_test_devices::Start;

/// New elements.
static NEW: [Row; 9] = [
    Row {
        name: "an erased value, and a new element in a file that is cut",
        words: "dcmodify -e StudyDate -i AccessionNumber=X - -",
        start: Start::ExplicitLittle,
        input: b"\x08\0 \0DA\x08\020240102\x08\0`\0CS\x02\0C",
        header: Start::ExplicitLittle,
        lines: b"\x08\0P\0SH\x02\0X \x08\0`\0CS\x02\0C",
        status: 2,
        told: b"dcmtools: R1 at byte 197: input ends too early\n",
    },
    Row {
        name: "a new element, and one that is replaced",
        words: "dcmodify -i (0010,0020)=7 -m PatientName=Q - -",
        start: Start::ExplicitLittle,
        input: b"\x10\0\x10\0PN\x06\0AB^CD ",
        header: Start::ExplicitLittle,
        lines: b"\x10\0\x10\0PN\x02\0Q \x10\0 \0LO\x02\07 ",
        ..EMPTY
    },
    Row {
        name: "two new elements before the first, in the order of their tags",
        words: "dcmodify -i PatientID=1 -i PatientName=Q - -",
        start: Start::ExplicitLittle,
        input: b" \0\x10\0SH\x02\01 ",
        header: Start::ExplicitLittle,
        lines: b"\x10\0\x10\0PN\x02\0Q \x10\0 \0LO\x02\01  \0\x10\0SH\x02\01 ",
        ..EMPTY
    },
    Row {
        name: "two new elements before a value that is cut",
        words: "dcmodify -i PatientID=1 -i PatientName=Q - -",
        start: Start::ExplicitLittle,
        input: b" \0\x10\0SH\x02\01",
        header: Start::ExplicitLittle,
        lines: b"\x10\0\x10\0PN\x02\0Q \x10\0 \0LO\x02\01  \0\x10\0SH\x02\01",
        status: 2,
        told: b"dcmtools: R1 at byte 181: input ends too early\n",
    },
    Row {
        name: "a new element before an erased value that is cut",
        words: "dcmodify -e StudyID -i PatientName=Q - -",
        start: Start::ExplicitLittle,
        input: b" \0\x10\0SH\x02\01",
        header: Start::ExplicitLittle,
        lines: b"\x10\0\x10\0PN\x02\0Q ",
        status: 2,
        told: b"dcmtools: R1 at byte 181: input ends too early\n",
    },
    Row {
        name: "numbers to a big endian file",
        words: "dcmodify -i Rows=1\\258 -i (0028,0009)=(0018,1063) - -",
        start: Start::Big,
        input: b"\0(\0\x02US\0\x02\0\x01",
        header: Start::Big,
        lines: b"\0(\0\x02US\0\x02\0\x01\0(\0\x09AT\0\x04\0\x18\x10c\0(\0\x10US\0\x04\0\x01\x01\x02",
        ..EMPTY
    },
    Row {
        name: "a new element of an implicit file",
        words: "dcmodify -i PatientID=12 -e PatientSex - -",
        start: Start::Implicit,
        input: b"\x10\0\x10\0\x02\0\0\0AB\x10\0@\0\x02\0\0\0M ",
        header: Start::Implicit,
        lines: b"\x10\0\x10\0\x02\0\0\0AB\x10\0 \0\x02\0\0\012",
        ..EMPTY
    },
    Row {
        name: "fragments kept, before them a new element",
        words: "dcmodify -i NumberOfFrames=1 - -",
        start: Start::Jpeg,
        input: b"\x10\0\x10\0PN\x06\0AB^CD \xe0\x7f\x10\0OB\0\0\xff\xff\xff\xff\xfe\xff\0\xe0\0\0\0\0\xfe\xff\0\xe0\x02\0\0\0\xff\xd8\xfe\xff\xdd\xe0\0\0\0\0",
        header: Start::Jpeg,
        lines: b"\x10\0\x10\0PN\x06\0AB^CD (\0\x08\0IS\x02\01 \xe0\x7f\x10\0OB\0\0\xff\xff\xff\xff\xfe\xff\0\xe0\0\0\0\0\xfe\xff\0\xe0\x02\0\0\0\xff\xd8\xfe\xff\xdd\xe0\0\0\0\0",
        ..EMPTY
    },
    Row {
        name: "a sequence of the tag that a value is put for",
        words: "dcmodify -i PatientName=Q - -",
        start: Start::ExplicitLittle,
        input: b"\x10\0\x10\0SQ\0\0\0\0\0\0",
        header: Start::ExplicitLittle,
        lines: b"\x10\0\x10\0PN\x02\0Q ",
        ..EMPTY
    },
];

/// Missing sequences that are made.
static MADE: [Row; 6] = [
    Row {
        name: "a missing sequence that is made",
        words: "dcmodify -i ReferencedImageSequence[0].ReferencedSOPInstanceUID=1.2 - -",
        start: Start::ExplicitLittle,
        input: b"\x10\0\x10\0PN\x06\0AB^CD ",
        header: Start::ExplicitLittle,
        lines: b"\x08\0@\x11SQ\0\0\xff\xff\xff\xff\xfe\xff\0\xe0\xff\xff\xff\xff\x08\0U\x11UI\x04\01.2\0\xfe\xff\x0d\xe0\0\0\0\0\xfe\xff\xdd\xe0\0\0\0\0\x10\0\x10\0PN\x06\0AB^CD ",
        ..EMPTY
    },
    Row {
        name: "two elements of a missing sequence",
        words: "dcmodify -i ReferencedImageSequence[0].ReferencedSOPInstanceUID=1.2 -i ReferencedImageSequence[0].ReferencedSOPClassUID=1.3 - -",
        start: Start::ExplicitLittle,
        input: b"\x10\0\x10\0PN\x06\0AB^CD ",
        header: Start::ExplicitLittle,
        lines: b"\x08\0@\x11SQ\0\0\xff\xff\xff\xff\xfe\xff\0\xe0\xff\xff\xff\xff\x08\0P\x11UI\x04\01.3\0\x08\0U\x11UI\x04\01.2\0\xfe\xff\x0d\xe0\0\0\0\0\xfe\xff\xdd\xe0\0\0\0\0\x10\0\x10\0PN\x06\0AB^CD ",
        ..EMPTY
    },
    Row {
        name: "a missing sequence with a second item",
        words: "dcmodify -i ReferencedImageSequence[1].ReferencedSOPInstanceUID=1.2 - -",
        start: Start::ExplicitLittle,
        input: b"\x10\0\x10\0PN\x06\0AB^CD ",
        header: Start::ExplicitLittle,
        lines: b"\x10\0\x10\0PN\x06\0AB^CD ",
        status: 3,
        told: b"dcmtools: edit 1 found no place\n",
    },
    Row {
        name: "every item of a missing sequence",
        words: "dcmodify -i ReferencedImageSequence[*].ReferencedSOPInstanceUID=1.2 - -",
        start: Start::ExplicitLittle,
        input: b"\x10\0\x10\0PN\x06\0AB^CD ",
        header: Start::ExplicitLittle,
        lines: b"\x10\0\x10\0PN\x06\0AB^CD ",
        status: 3,
        told: b"dcmtools: edit 1 found no place\n",
    },
    Row {
        name: "a second item within a missing sequence",
        words: "dcmodify -i ReferencedImageSequence[0].ConceptNameCodeSequence[1].CodeValue=A - -",
        start: Start::ExplicitLittle,
        input: b"\x10\0\x10\0PN\x06\0AB^CD ",
        header: Start::ExplicitLittle,
        lines: b"\x10\0\x10\0PN\x06\0AB^CD ",
        status: 3,
        told: b"dcmtools: edit 1 found no place\n",
    },
    Row {
        name: "a sequence without items",
        words: "dcmodify -i ReferencedImageSequence[0].ReferencedSOPInstanceUID=1.2 - -",
        start: Start::ExplicitLittle,
        input: b"\x08\0@\x11SQ\0\0\0\0\0\0",
        header: Start::ExplicitLittle,
        lines: b"\x08\0@\x11SQ\0\0\xff\xff\xff\xff\xfe\xff\xdd\xe0\0\0\0\0",
        status: 3,
        told: b"dcmtools: edit 1 found no place\n",
    },
];

/// Values in place of others.
static VALUES: [Row; 6] = [
    Row {
        name: "a value at all depths",
        words: "dcmodify -ma (0008,1155)=1.3 - -",
        start: Start::ExplicitLittle,
        input: b"\x08\0@\x11SQ\0\0\xff\xff\xff\xff\xfe\xff\0\xe0\x0c\0\0\0\x08\0U\x11UI\x04\01.2\0\xfe\xff\xdd\xe0\0\0\0\0",
        header: Start::ExplicitLittle,
        lines: b"\x08\0@\x11SQ\0\0\xff\xff\xff\xff\xfe\xff\0\xe0\xff\xff\xff\xff\x08\0U\x11UI\x04\01.3\0\xfe\xff\x0d\xe0\0\0\0\0\xfe\xff\xdd\xe0\0\0\0\0",
        ..EMPTY
    },
    Row {
        name: "an empty value",
        words: "dcmodify -m PatientName - -",
        start: Start::ExplicitLittle,
        input: b"\x10\0\x10\0PN\x06\0AB^CD ",
        header: Start::ExplicitLittle,
        lines: b"\x10\0\x10\0PN\0\0",
        ..EMPTY
    },
    Row {
        name: "a value in the second of two items",
        words: "dcmodify -m ReferencedImageSequence[1].ReferencedSOPInstanceUID=1.3 - -",
        start: Start::ExplicitLittle,
        input: b"\x08\0@\x11SQ\0\0(\0\0\0\xfe\xff\0\xe0\x0c\0\0\0\x08\0U\x11UI\x04\01.2\0\xfe\xff\0\xe0\x0c\0\0\0\x08\0U\x11UI\x04\01.2\0",
        header: Start::ExplicitLittle,
        lines: b"\x08\0@\x11SQ\0\0\xff\xff\xff\xff\xfe\xff\0\xe0\xff\xff\xff\xff\x08\0U\x11UI\x04\01.2\0\xfe\xff\x0d\xe0\0\0\0\0\xfe\xff\0\xe0\xff\xff\xff\xff\x08\0U\x11UI\x04\01.3\0\xfe\xff\x0d\xe0\0\0\0\0\xfe\xff\xdd\xe0\0\0\0\0",
        ..EMPTY
    },
    Row {
        name: "new values in every item",
        words: "dcmodify -i ReferencedImageSequence[*].ReferencedSOPClassUID=1.3 - -",
        start: Start::ExplicitLittle,
        input: b"\x08\0@\x11SQ\0\0(\0\0\0\xfe\xff\0\xe0\x0c\0\0\0\x08\0U\x11UI\x04\01.2\0\xfe\xff\0\xe0\x0c\0\0\0\x08\0U\x11UI\x04\01.2\0\x10\0\x10\0PN\x06\0AB^CD ",
        header: Start::ExplicitLittle,
        lines: b"\x08\0@\x11SQ\0\0\xff\xff\xff\xff\xfe\xff\0\xe0\xff\xff\xff\xff\x08\0P\x11UI\x04\01.3\0\x08\0U\x11UI\x04\01.2\0\xfe\xff\x0d\xe0\0\0\0\0\xfe\xff\0\xe0\xff\xff\xff\xff\x08\0P\x11UI\x04\01.3\0\x08\0U\x11UI\x04\01.2\0\xfe\xff\x0d\xe0\0\0\0\0\xfe\xff\xdd\xe0\0\0\0\0\x10\0\x10\0PN\x06\0AB^CD ",
        ..EMPTY
    },
    Row {
        name: "an unknown sequence with an element in it",
        words: "dcmodify -ma PatientID=8 - -",
        start: Start::ExplicitLittle,
        input: b"\x09\0\x10\x10UN\0\0\xff\xff\xff\xff\xfe\xff\0\xe0\xff\xff\xff\xff\x10\0 \0\x02\0\0\07 \xfe\xff\x0d\xe0\0\0\0\0\xfe\xff\xdd\xe0\0\0\0\0\x10\0\x10\0PN\x06\0AB^CD ",
        header: Start::ExplicitLittle,
        lines: b"\x09\0\x10\x10SQ\0\0\xff\xff\xff\xff\xfe\xff\0\xe0\xff\xff\xff\xff\x10\0 \0LO\x02\08 \xfe\xff\x0d\xe0\0\0\0\0\xfe\xff\xdd\xe0\0\0\0\0\x10\0\x10\0PN\x06\0AB^CD ",
        ..EMPTY
    },
    Row {
        name: "a replaced value in an item that is cut",
        words: "dcmodify -m ReferencedImageSequence[0].ReferencedSOPInstanceUID=1.345 - -",
        start: Start::ExplicitLittle,
        input: b"\x08\0@\x11SQ\0\0(\0\0\0\xfe\xff\0\xe0\x0c\0\0\0\x08\0U\x11UI\x04\01.",
        header: Start::ExplicitLittle,
        lines: b"\x08\0@\x11SQ\0\0\xff\xff\xff\xff\xfe\xff\0\xe0\xff\xff\xff\xff\x08\0U\x11UI\x06\01.345\0",
        status: 2,
        told: b"dcmtools: R1 at byte 202: input ends too early\n",
    },
];

/// Elements and items that are erased.
static ERASED: [Row; 8] = [
    Row {
        name: "an erased item",
        words: "dcmodify -e ReferencedImageSequence[0] - -",
        start: Start::ExplicitLittle,
        input: b"\x08\0@\x11SQ\0\0\xff\xff\xff\xff\xfe\xff\0\xe0\x0c\0\0\0\x08\0U\x11UI\x04\01.2\0\xfe\xff\xdd\xe0\0\0\0\0",
        header: Start::ExplicitLittle,
        lines: b"\x08\0@\x11SQ\0\0\xff\xff\xff\xff\xfe\xff\xdd\xe0\0\0\0\0",
        ..EMPTY
    },
    Row {
        name: "private elements",
        words: "dcmodify -ep - -",
        start: Start::ExplicitLittle,
        input: b"\x09\0\x10\0LO\x02\0AB\x10\0\x10\0PN\x02\0A ",
        header: Start::ExplicitLittle,
        lines: b"\x10\0\x10\0PN\x02\0A ",
        ..EMPTY
    },
    Row {
        name: "every item erased",
        words: "dcmodify -e ReferencedImageSequence[*] - -",
        start: Start::ExplicitLittle,
        input: b"\x08\0@\x11SQ\0\0(\0\0\0\xfe\xff\0\xe0\x0c\0\0\0\x08\0U\x11UI\x04\01.2\0\xfe\xff\0\xe0\x0c\0\0\0\x08\0U\x11UI\x04\01.2\0\x10\0\x10\0PN\x06\0AB^CD ",
        header: Start::ExplicitLittle,
        lines: b"\x08\0@\x11SQ\0\0\xff\xff\xff\xff\xfe\xff\xdd\xe0\0\0\0\0\x10\0\x10\0PN\x06\0AB^CD ",
        ..EMPTY
    },
    Row {
        name: "an erased sequence",
        words: "dcmodify -e ReferencedImageSequence - -",
        start: Start::ExplicitLittle,
        input: b"\x08\0@\x11SQ\0\0(\0\0\0\xfe\xff\0\xe0\x0c\0\0\0\x08\0U\x11UI\x04\01.2\0\xfe\xff\0\xe0\x0c\0\0\0\x08\0U\x11UI\x04\01.2\0\x10\0\x10\0PN\x06\0AB^CD ",
        header: Start::ExplicitLittle,
        lines: b"\x10\0\x10\0PN\x06\0AB^CD ",
        ..EMPTY
    },
    Row {
        name: "fragments erased",
        words: "dcmodify -e PixelData - -",
        start: Start::Jpeg,
        input: b"\x10\0\x10\0PN\x06\0AB^CD \xe0\x7f\x10\0OB\0\0\xff\xff\xff\xff\xfe\xff\0\xe0\0\0\0\0\xfe\xff\0\xe0\x02\0\0\0\xff\xd8\xfe\xff\xdd\xe0\0\0\0\0",
        header: Start::Jpeg,
        lines: b"\x10\0\x10\0PN\x06\0AB^CD ",
        ..EMPTY
    },
    Row {
        name: "an unknown value with an element in it",
        words: "dcmodify -ea PatientID - -",
        start: Start::ExplicitLittle,
        input: b"\x10\0 \0LO\x02\07 @\0P\x05UN\0\0\n\0\0\0\x10\0 \0LO\x02\07 ",
        header: Start::ExplicitLittle,
        lines: b"@\0P\x05UN\0\0\n\0\0\0\x10\0 \0LO\x02\07 ",
        ..EMPTY
    },
    Row {
        name: "private elements within items, and a private sequence",
        words: "dcmodify -ep - -",
        start: Start::ExplicitLittle,
        input: b"\x08\0@\x11SQ\0\0\x1c\0\0\0\xfe\xff\0\xe0\x14\0\0\0\x09\0\x10\0LO\x02\0AB\x10\0 \0LO\x02\07 \x09\0\x10\x10UN\0\0\xff\xff\xff\xff\xfe\xff\0\xe0\xff\xff\xff\xff\x10\0 \0\x02\0\0\07 \xfe\xff\x0d\xe0\0\0\0\0\xfe\xff\xdd\xe0\0\0\0\0\x10\0\x10\0PN\x06\0AB^CD ",
        header: Start::ExplicitLittle,
        lines: b"\x08\0@\x11SQ\0\0\xff\xff\xff\xff\xfe\xff\0\xe0\xff\xff\xff\xff\x10\0 \0LO\x02\07 \xfe\xff\x0d\xe0\0\0\0\0\xfe\xff\xdd\xe0\0\0\0\0\x10\0\x10\0PN\x06\0AB^CD ",
        ..EMPTY
    },
    Row {
        name: "tags that do not ascend in an erased sequence",
        words: "dcmodify -e ReferencedImageSequence - -",
        start: Start::ExplicitLittle,
        input: b"\x08\0@\x11SQ\0\0 \0\0\0\xfe\xff\0\xe0\x18\0\0\0\x08\0U\x11UI\x04\01.2\0\x08\0U\x11UI\x04\01.2\0\x10\0\x10\0PN\x06\0AB^CD ",
        header: Start::ExplicitLittle,
        status: 2,
        told: b"dcmtools: R12 at byte 204: tags not ascending\n",
        ..EMPTY
    },
];

/// Edits that find no place, and no edits.
static REMARK: [Row; 6] = [
    Row {
        name: "a deflated syntax",
        words: "dcmodify - -",
        input: b"\0\0\0\0\0\0\0\0\0\0\0\0\0\0\0\0\0\0\0\0\0\0\0\0\0\0\0\0\0\0\0\0\0\0\0\0\0\0\0\0\0\0\0\0\0\0\0\0\0\0\0\0\0\0\0\0\0\0\0\0\0\0\0\0\0\0\0\0\0\0\0\0\0\0\0\0\0\0\0\0\0\0\0\0\0\0\0\0\0\0\0\0\0\0\0\0\0\0\0\0\0\0\0\0\0\0\0\0\0\0\0\0\0\0\0\0\0\0\0\0\0\0\0\0\0\0\0\0DICM\x02\0\0\0UL\x04\0\x1e\0\0\0\x02\0\x10\0UI\x16\01.2.840.10008.1.2.1.99",
        status: 2,
        told: b"dcmtools: R6 at byte 174: deflated transfer syntax\n",
        ..EMPTY
    },
    Row {
        name: "an element that is not there to be replaced",
        words: "dcmodify -m PatientID=7 - -",
        start: Start::ExplicitLittle,
        input: b"\x10\0\x10\0PN\x06\0AB^CD ",
        header: Start::ExplicitLittle,
        lines: b"\x10\0\x10\0PN\x06\0AB^CD ",
        status: 3,
        told: b"dcmtools: edit 1 found no place\n",
    },
    Row {
        name: "a tag twice",
        words: "dcmodify - -",
        start: Start::ExplicitLittle,
        input: b"\x10\0 \0LO\x02\07 \x10\0 \0LO\x02\07 ",
        header: Start::ExplicitLittle,
        lines: b"\x10\0 \0LO\x02\07 ",
        status: 2,
        told: b"dcmtools: R12 at byte 182: tags not ascending\n",
    },
    Row {
        name: "no edits",
        words: "dcmodify - -",
        start: Start::ExplicitLittle,
        input: b"\x08\0@\x11SQ\0\0(\0\0\0\xfe\xff\0\xe0\x0c\0\0\0\x08\0U\x11UI\x04\01.2\0\xfe\xff\0\xe0\x0c\0\0\0\x08\0U\x11UI\x04\01.2\0\x10\0\x10\0PN\x06\0AB^CD ",
        header: Start::ExplicitLittle,
        lines: b"\x08\0@\x11SQ\0\0\xff\xff\xff\xff\xfe\xff\0\xe0\xff\xff\xff\xff\x08\0U\x11UI\x04\01.2\0\xfe\xff\x0d\xe0\0\0\0\0\xfe\xff\0\xe0\xff\xff\xff\xff\x08\0U\x11UI\x04\01.2\0\xfe\xff\x0d\xe0\0\0\0\0\xfe\xff\xdd\xe0\0\0\0\0\x10\0\x10\0PN\x06\0AB^CD ",
        ..EMPTY
    },
    Row {
        name: "three edits, of which two find no place",
        words: "dcmodify -e PatientSex -m PatientName=Q -ea PatientAge - -",
        start: Start::ExplicitLittle,
        input: b"\x10\0\x10\0PN\x06\0AB^CD ",
        header: Start::ExplicitLittle,
        lines: b"\x10\0\x10\0PN\x02\0Q ",
        status: 3,
        told: b"dcmtools: edit 1 found no place\ndcmtools: edit 3 found no place\n",
    },
    Row {
        name: "an element that may still come in a file that is cut",
        words: "dcmodify -m PatientID=7 - -",
        start: Start::ExplicitLittle,
        input: b"\x10\0\x10\0PN\x06\0AB^CD",
        header: Start::ExplicitLittle,
        lines: b"\x10\0\x10\0PN\x06\0AB^CD",
        status: 2,
        told: b"dcmtools: R1 at byte 185: input ends too early\n",
    },
];

/// Files that are edited.
pub fn modifications() -> [&'static [Row]; 5] {
    [&NEW, &MADE, &VALUES, &ERASED, &REMARK]
}
