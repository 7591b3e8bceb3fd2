// Unknown values of known length: sequences, where the whole dictionary says so (PS3.5 6.2.2).
use crate::runs::rows::{EMPTY, Row};
use dcm_test_devices::Start;

/// Sequences, and values that are none.
static SEQUENCES: [Row; 8] = [
    Row {
        name: "unknown values, of which two are sequences",
        words: "dcmdump +dict -",
        start: Start::ExplicitLittle,
        input: b"\x08\0@\x11UN\0\0\x14\0\0\0\xfe\xff\0\xe0\x0c\0\0\0\x10\0 \0\x04\0\0\01234\x09\0\x01\x10UN\0\0\x14\0\0\0\xfe\xff\0\xe0\x0c\0\0\0\x10\0 \0\x04\0\0\01234\x10\0 \0UN\0\0\x04\0\0\01234\n0\x10\0ZZ\0\0\0\0\0\0",
        header: Start::ExplicitLittle,
        lines: b"\
(0008,1140) UN (Sequence with explicit length)          #  20, 1 ReferencedImageSequence
  (fffe,e000) na (Item with explicit length)              #  12, 1 Item
    (0010,0020) LO [1234]                                   #   4, 1 PatientID
  (fffe,e00d) na (ItemDelimitationItem for re-encoding)   #   0, 0 ItemDelimitationItem
(fffe,e0dd) na (SequenceDelimitationItem for re-encod.) #   0, 0 SequenceDelimitationItem
(0009,1001) UN fe\\ff\\00\\e0\\0c\\00\\00\\00\\10\\00\\20\\00\\04\\00\\00\\00\\31\\32\\33\\34 #  20, 1 Unknown Tag & Data
(0010,0020) UN 31\\32\\33\\34                              #   4, 1 PatientID
(300a,0010) UN (Sequence with explicit length)          #   0, 1 DoseReferenceSequence
(fffe,e0dd) na (SequenceDelimitationItem for re-encod.) #   0, 0 SequenceDelimitationItem
",
        ..EMPTY
    },
    Row {
        name: "an unknown sequence by the extract",
        words: "dcmdump -",
        start: Start::ExplicitLittle,
        input: b"\x08\0@\x11UN\0\0\x14\0\0\0\xfe\xff\0\xe0\x0c\0\0\0\x10\0 \0\x04\0\0\01234",
        header: Start::ExplicitLittle,
        lines: b"(0008,1140) UN fe\\ff\\00\\e0\\0c\\00\\00\\00\\10\\00\\20\\00\\04\\00\\00\\00\\31\\32\\33\\34 #  20, 1 ReferencedImageSequence\n",
        ..EMPTY
    },
    Row {
        name: "unknown values converted",
        words: "dcmconv +dict - -",
        start: Start::ExplicitLittle,
        input: b"\x08\0@\x11UN\0\0\x14\0\0\0\xfe\xff\0\xe0\x0c\0\0\0\x10\0 \0\x04\0\0\01234\x09\0\x01\x10UN\0\0\x14\0\0\0\xfe\xff\0\xe0\x0c\0\0\0\x10\0 \0\x04\0\0\01234\x10\0 \0UN\0\0\x04\0\0\01234\n0\x10\0ZZ\0\0\0\0\0\0",
        header: Start::ExplicitLittle,
        lines: b"\x08\0@\x11SQ\0\0\xff\xff\xff\xff\xfe\xff\0\xe0\xff\xff\xff\xff\x10\0 \0LO\x04\01234\xfe\xff\x0d\xe0\0\0\0\0\xfe\xff\xdd\xe0\0\0\0\0\x09\0\x01\x10UN\0\0\x14\0\0\0\xfe\xff\0\xe0\x0c\0\0\0\x10\0 \0\x04\0\0\01234\x10\0 \0UN\0\0\x04\0\0\01234\n0\x10\0SQ\0\0\xff\xff\xff\xff\xfe\xff\xdd\xe0\0\0\0\0",
        ..EMPTY
    },
    Row {
        name: "an unknown sequence in a sequence, and an implicit one in it",
        words: "dcmconv +dict +te - -",
        start: Start::ExplicitLittle,
        input: b"(\0\x03\x01US\x02\0\x01\0(\0\x100SQ\0\0\xff\xff\xff\xff\xfe\xff\0\xe0\xff\xff\xff\xff(\0\00UN\0\0>\0\0\0\xfe\xff\0\xe0\x1a\0\0\0(\0\x100\x12\0\0\0\xfe\xff\0\xe0\n\0\0\0(\0\x020\x02\0\0\0\xff\xff\xfe\xff\0\xe0\x14\0\0\0(\0\x03\x01\x02\0\0\0\0\0(\0\x020\x02\0\0\0\xff\xff\xfe\xff\x0d\xe0\0\0\0\0\xfe\xff\xdd\xe0\0\0\0\0",
        header: Start::ExplicitLittle,
        lines: b"(\0\x03\x01US\x02\0\x01\0(\0\x100SQ\0\0\xff\xff\xff\xff\xfe\xff\0\xe0\xff\xff\xff\xff(\0\00SQ\0\0\xff\xff\xff\xff\xfe\xff\0\xe0\xff\xff\xff\xff(\0\x100SQ\0\0\xff\xff\xff\xff\xfe\xff\0\xe0\xff\xff\xff\xff(\0\x020SS\x02\0\xff\xff\xfe\xff\x0d\xe0\0\0\0\0\xfe\xff\xdd\xe0\0\0\0\0\xfe\xff\x0d\xe0\0\0\0\0\xfe\xff\0\xe0\xff\xff\xff\xff(\0\x03\x01US\x02\0\0\0(\0\x020US\x02\0\xff\xff\xfe\xff\x0d\xe0\0\0\0\0\xfe\xff\xdd\xe0\0\0\0\0\xfe\xff\x0d\xe0\0\0\0\0\xfe\xff\xdd\xe0\0\0\0\0",
        ..EMPTY
    },
    Row {
        name: "an end in the head of an item",
        words: "dcmconv +dict - -",
        start: Start::ExplicitLittle,
        input: b"\x08\0@\x11UN\0\0\x14\0\0\0\xfe\xff\0\xe0\x0c\0",
        header: Start::ExplicitLittle,
        lines: b"\x08\0@\x11SQ\0\0\xff\xff\xff\xff",
        status: 2,
        told: b"dcmtools: R1 at byte 190: input ends too early\n",
    },
    Row {
        name: "an end after the head of an item",
        words: "dcmconv +dict - -",
        start: Start::ExplicitLittle,
        input: b"\x08\0@\x11UN\0\0\x14\0\0\0\xfe\xff\0\xe0\x0c\0\0\0",
        header: Start::ExplicitLittle,
        lines: b"\x08\0@\x11SQ\0\0\xff\xff\xff\xff\xfe\xff\0\xe0\xff\xff\xff\xff",
        status: 2,
        told: b"dcmtools: R1 at byte 192: input ends too early\n",
    },
    Row {
        name: "an end in a value of an item",
        words: "dcmconv +dict - -",
        start: Start::ExplicitLittle,
        input: b"\x08\0@\x11UN\0\0\x14\0\0\0\xfe\xff\0\xe0\x0c\0\0\0\x10\0 \0\x04\0\0\0123",
        header: Start::ExplicitLittle,
        lines: b"\x08\0@\x11SQ\0\0\xff\xff\xff\xff\xfe\xff\0\xe0\xff\xff\xff\xff\x10\0 \0LO\x04\0123",
        status: 2,
        told: b"dcmtools: R1 at byte 203: input ends too early\n",
    },
    Row {
        name: "an end after the last value",
        words: "dcmconv +dict - -",
        start: Start::ExplicitLittle,
        input: b"\x08\0@\x11UN\0\0\x14\0\0\0\xfe\xff\0\xe0\x0c\0\0\0\x10\0 \0\x04\0\0\01234",
        header: Start::ExplicitLittle,
        lines: b"\x08\0@\x11SQ\0\0\xff\xff\xff\xff\xfe\xff\0\xe0\xff\xff\xff\xff\x10\0 \0LO\x04\01234\xfe\xff\x0d\xe0\0\0\0\0\xfe\xff\xdd\xe0\0\0\0\0",
        ..EMPTY
    },
];

/// Sequences at fault.
static FAULTS: [Row; 6] = [
    Row {
        name: "bytes that are no items",
        words: "dcmdump +dict -",
        start: Start::ExplicitLittle,
        input: b"\x08\0@\x11UN\0\0\x08\0\0\0no items",
        header: Start::ExplicitLittle,
        lines: b"(0008,1140) UN (Sequence with explicit length)          #   8, 1 ReferencedImageSequence\n",
        status: 2,
        told: b"dcmtools: R9 at byte 184: tag not allowed here\n",
    },
    Row {
        name: "an item that passes the end",
        words: "dcmdump +dict -",
        start: Start::ExplicitLittle,
        input: b"\x08\0@\x11UN\0\0\x08\0\0\0\xfe\xff\0\xe0\x04\0\0\0",
        header: Start::ExplicitLittle,
        lines: b"(0008,1140) UN (Sequence with explicit length)          #   8, 1 ReferencedImageSequence\n",
        status: 2,
        told: b"dcmtools: R10 at byte 184: passes the end of its container\n",
    },
    Row {
        name: "four bytes, too few for the head of an item",
        words: "dcmdump +dict -",
        start: Start::ExplicitLittle,
        input: b"\x08\0@\x11UN\0\0\x04\0\0\01234",
        header: Start::ExplicitLittle,
        lines: b"(0008,1140) UN (Sequence with explicit length)          #   4, 1 ReferencedImageSequence\n",
        status: 2,
        told: b"dcmtools: R10 at byte 184: passes the end of its container\n",
    },
    Row {
        name: "a delimiter in a known length",
        words: "dcmdump +dict -",
        start: Start::ExplicitLittle,
        input: b"\x08\0@\x11UN\0\0\x08\0\0\0\xfe\xff\xdd\xe0\0\0\0\0",
        header: Start::ExplicitLittle,
        lines: b"(0008,1140) UN (Sequence with explicit length)          #   8, 1 ReferencedImageSequence\n",
        status: 2,
        told: b"dcmtools: R9 at byte 184: tag not allowed here\n",
    },
    Row {
        name: "bytes that are no items by the extract",
        words: "dcmconv - -",
        start: Start::ExplicitLittle,
        input: b"\x08\0@\x11UN\0\0\x08\0\0\0no items",
        header: Start::ExplicitLittle,
        lines: b"\x08\0@\x11UN\0\0\x08\0\0\0no items",
        ..EMPTY
    },
    Row {
        name: "a tag twice in an item",
        words: "dcmodify +dict - -",
        start: Start::ExplicitLittle,
        input: b"\x08\0@\x11UN\0\0 \0\0\0\xfe\xff\0\xe0\x18\0\0\0\x10\0 \0\x04\0\0\01234\x10\0 \0\x04\0\0\01234",
        header: Start::ExplicitLittle,
        lines: b"\x08\0@\x11SQ\0\0\xff\xff\xff\xff\xfe\xff\0\xe0\xff\xff\xff\xff\x10\0 \0LO\x04\01234",
        status: 2,
        told: b"dcmtools: R12 at byte 204: tags not ascending\n",
    },
];

/// Edits that reach into them.
static EDITS: [Row; 8] = [
    Row {
        name: "a value replaced, one erased and one put in",
        words: "dcmodify +dict -m ReferencedImageSequence[0].PatientID=9 -ea PatientName -i ReferencedImageSequence[1].Rows=5 - -",
        start: Start::ExplicitLittle,
        input: b"\x08\0@\x11UN\0\0<\0\0\0\xfe\xff\0\xe0 \0\0\0\x10\0 \0\x04\0\0\01234(\0\x03\x01\x02\0\0\0\x01\0(\0\x06\x01\x02\0\0\0\xff\xff\xfe\xff\0\xe0\x0c\0\0\0\x10\0\x10\0\x04\0\0\0A^B ",
        header: Start::ExplicitLittle,
        lines: b"\x08\0@\x11SQ\0\0\xff\xff\xff\xff\xfe\xff\0\xe0\xff\xff\xff\xff\x10\0 \0LO\x02\09 (\0\x03\x01US\x02\0\x01\0(\0\x06\x01SS\x02\0\xff\xff\xfe\xff\x0d\xe0\0\0\0\0\xfe\xff\0\xe0\xff\xff\xff\xff(\0\x10\0US\x02\0\x05\0\xfe\xff\x0d\xe0\0\0\0\0\xfe\xff\xdd\xe0\0\0\0\0",
        ..EMPTY
    },
    Row {
        name: "an item erased",
        words: "dcmodify -e ReferencedImageSequence[0] +dict - -",
        start: Start::ExplicitLittle,
        input: b"\x08\0@\x11UN\0\0<\0\0\0\xfe\xff\0\xe0 \0\0\0\x10\0 \0\x04\0\0\01234(\0\x03\x01\x02\0\0\0\x01\0(\0\x06\x01\x02\0\0\0\xff\xff\xfe\xff\0\xe0\x0c\0\0\0\x10\0\x10\0\x04\0\0\0A^B ",
        header: Start::ExplicitLittle,
        lines: b"\x08\0@\x11SQ\0\0\xff\xff\xff\xff\xfe\xff\0\xe0\xff\xff\xff\xff\x10\0\x10\0PN\x04\0A^B \xfe\xff\x0d\xe0\0\0\0\0\xfe\xff\xdd\xe0\0\0\0\0",
        ..EMPTY
    },
    Row {
        name: "values by the extract, which has none there",
        words: "dcmodify -ea PatientName - -",
        start: Start::ExplicitLittle,
        input: b"\x08\0@\x11UN\0\0<\0\0\0\xfe\xff\0\xe0 \0\0\0\x10\0 \0\x04\0\0\01234(\0\x03\x01\x02\0\0\0\x01\0(\0\x06\x01\x02\0\0\0\xff\xff\xfe\xff\0\xe0\x0c\0\0\0\x10\0\x10\0\x04\0\0\0A^B ",
        header: Start::ExplicitLittle,
        lines: b"\x08\0@\x11UN\0\0<\0\0\0\xfe\xff\0\xe0 \0\0\0\x10\0 \0\x04\0\0\01234(\0\x03\x01\x02\0\0\0\x01\0(\0\x06\x01\x02\0\0\0\xff\xff\xfe\xff\0\xe0\x0c\0\0\0\x10\0\x10\0\x04\0\0\0A^B ",
        status: 3,
        told: b"dcmtools: edit 1 found no place\n",
    },
    Row {
        name: "PixelRepresentation replaced and erased, by which values were read",
        words: "dcmodify +dict -m ReferencedImageSequence[*].PixelRepresentation=0 -e PixelRepresentation - -",
        start: Start::ExplicitLittle,
        input: b"\x08\0@\x11UN\0\0\x1c\0\0\0\xfe\xff\0\xe0\x14\0\0\0(\0\x03\x01\x02\0\0\0\x01\0(\0\x06\x01\x02\0\0\0\xff\xff(\0\x03\x01US\x02\0\x01\0(\0\x100UN\0\0\x12\0\0\0\xfe\xff\0\xe0\n\0\0\0(\0\x020\x02\0\0\0\xff\xff",
        header: Start::ExplicitLittle,
        lines: b"\x08\0@\x11SQ\0\0\xff\xff\xff\xff\xfe\xff\0\xe0\xff\xff\xff\xff(\0\x03\x01US\x02\0\0\0(\0\x06\x01SS\x02\0\xff\xff\xfe\xff\x0d\xe0\0\0\0\0\xfe\xff\xdd\xe0\0\0\0\0(\0\x100SQ\0\0\xff\xff\xff\xff\xfe\xff\0\xe0\xff\xff\xff\xff(\0\x020SS\x02\0\xff\xff\xfe\xff\x0d\xe0\0\0\0\0\xfe\xff\xdd\xe0\0\0\0\0",
        ..EMPTY
    },
    Row {
        name: "private elements of an item",
        words: "dcmodify +dict -ep - -",
        start: Start::ExplicitLittle,
        input: b"\x08\0@\x11UN\0\0\x1e\0\0\0\xfe\xff\0\xe0\x16\0\0\0\x09\0\x10\0\x02\0\0\0AB\x10\0 \0\x04\0\0\01234",
        header: Start::ExplicitLittle,
        lines: b"\x08\0@\x11SQ\0\0\xff\xff\xff\xff\xfe\xff\0\xe0\xff\xff\xff\xff\x10\0 \0LO\x04\01234\xfe\xff\x0d\xe0\0\0\0\0\xfe\xff\xdd\xe0\0\0\0\0",
        ..EMPTY
    },
    Row {
        name: "a sequence that is made in an item",
        words: "dcmodify +dict -i ReferencedImageSequence[0].ConceptNameCodeSequence[0].CodeValue=A - -",
        start: Start::ExplicitLittle,
        input: b"\x08\0@\x11UN\0\0\x14\0\0\0\xfe\xff\0\xe0\x0c\0\0\0\x10\0 \0\x04\0\0\01234",
        header: Start::ExplicitLittle,
        lines: b"\x08\0@\x11SQ\0\0\xff\xff\xff\xff\xfe\xff\0\xe0\xff\xff\xff\xff\x10\0 \0LO\x04\01234@\0C\xa0SQ\0\0\xff\xff\xff\xff\xfe\xff\0\xe0\xff\xff\xff\xff\x08\0\0\x01SH\x02\0A \xfe\xff\x0d\xe0\0\0\0\0\xfe\xff\xdd\xe0\0\0\0\0\xfe\xff\x0d\xe0\0\0\0\0\xfe\xff\xdd\xe0\0\0\0\0",
        ..EMPTY
    },
    Row {
        name: "a value at every depth",
        words: "dcmodify +dict -ma PatientID=5 - -",
        start: Start::ExplicitLittle,
        input: b"\x08\0@\x11UN\0\08\0\0\0\xfe\xff\0\xe00\0\0\0\x08\0@\x11(\0\0\0\xfe\xff\0\xe0\x0c\0\0\0\x10\0 \0\x04\0\0\01234\xfe\xff\0\xe0\x0c\0\0\0\x10\0 \0\x04\0\0\01234",
        header: Start::ExplicitLittle,
        lines: b"\x08\0@\x11SQ\0\0\xff\xff\xff\xff\xfe\xff\0\xe0\xff\xff\xff\xff\x08\0@\x11SQ\0\0\xff\xff\xff\xff\xfe\xff\0\xe0\xff\xff\xff\xff\x10\0 \0LO\x02\05 \xfe\xff\x0d\xe0\0\0\0\0\xfe\xff\0\xe0\xff\xff\xff\xff\x10\0 \0LO\x02\05 \xfe\xff\x0d\xe0\0\0\0\0\xfe\xff\xdd\xe0\0\0\0\0\xfe\xff\x0d\xe0\0\0\0\0\xfe\xff\xdd\xe0\0\0\0\0",
        ..EMPTY
    },
    Row {
        name: "a whole sequence erased in big endian",
        words: "dcmodify +dict -e ReferencedImageSequence -m PatientID=5 - -",
        start: Start::Big,
        input: b"\0\x08\x11@UN\0\0\0\0\0\x14\xfe\xff\0\xe0\x0c\0\0\0\x10\0 \0\x04\0\0\01234\0\x10\0 LO\0\x041234",
        header: Start::Big,
        lines: b"\0\x10\0 LO\0\x025 ",
        ..EMPTY
    },
];

/// Conversions of unknown values, there and back.
static CONVERSIONS: [Row; 8] = [
    Row {
        name: "unknown values from little endian to implicit",
        words: "dcmconv +dict +ti - -",
        start: Start::ExplicitLittle,
        input: b"\x08\0@\x11UN\0\0\x14\0\0\0\xfe\xff\0\xe0\x0c\0\0\0\x10\0 \0\x04\0\0\01234(\0\x06\x01UN\0\0\x02\0\0\0\xff\xff",
        header: Start::Implicit,
        lines: b"\x08\0@\x11\xff\xff\xff\xff\xfe\xff\0\xe0\xff\xff\xff\xff\x10\0 \0\x04\0\0\01234\xfe\xff\x0d\xe0\0\0\0\0\xfe\xff\xdd\xe0\0\0\0\0(\0\x06\x01\x02\0\0\0\xff\xff",
        ..EMPTY
    },
    Row {
        name: "unknown values from little to big endian",
        words: "dcmconv +dict +tb - -",
        start: Start::ExplicitLittle,
        input: b"\x08\0@\x11UN\0\0\x14\0\0\0\xfe\xff\0\xe0\x0c\0\0\0\x10\0 \0\x04\0\0\01234(\0\x06\x01UN\0\0\x02\0\0\0\xff\xff",
        header: Start::Big,
        lines: b"\0\x08\x11@SQ\0\0\xff\xff\xff\xff\xff\xfe\xe0\0\xff\xff\xff\xff\0\x10\0 LO\0\x041234\xff\xfe\xe0\x0d\0\0\0\0\xff\xfe\xe0\xdd\0\0\0\0\0(\x01\x06UN\0\0\0\0\0\x02\xff\xff",
        ..EMPTY
    },
    Row {
        name: "unknown values from big to little endian",
        words: "dcmconv +dict +te - -",
        start: Start::Big,
        input: b"\0\x08\x11@UN\0\0\0\0\0\x14\xfe\xff\0\xe0\x0c\0\0\0\x10\0 \0\x04\0\0\01234\0(\x01\x06UN\0\0\0\0\0\x02\xff\xff",
        header: Start::ExplicitLittle,
        lines: b"\x08\0@\x11SQ\0\0\xff\xff\xff\xff\xfe\xff\0\xe0\xff\xff\xff\xff\x10\0 \0LO\x04\01234\xfe\xff\x0d\xe0\0\0\0\0\xfe\xff\xdd\xe0\0\0\0\0(\0\x06\x01UN\0\0\x02\0\0\0\xff\xff",
        ..EMPTY
    },
    Row {
        name: "unknown values from big endian to implicit",
        words: "dcmconv +dict +ti - -",
        start: Start::Big,
        input: b"\0\x08\x11@UN\0\0\0\0\0\x14\xfe\xff\0\xe0\x0c\0\0\0\x10\0 \0\x04\0\0\01234\0(\x01\x06UN\0\0\0\0\0\x02\xff\xff",
        header: Start::Implicit,
        lines: b"\x08\0@\x11\xff\xff\xff\xff\xfe\xff\0\xe0\xff\xff\xff\xff\x10\0 \0\x04\0\0\01234\xfe\xff\x0d\xe0\0\0\0\0\xfe\xff\xdd\xe0\0\0\0\0(\0\x06\x01\x02\0\0\0\xff\xff",
        ..EMPTY
    },
    Row {
        name: "unknown values in big endian",
        words: "dcmconv +dict - -",
        start: Start::Big,
        input: b"\0\x08\x11@UN\0\0\0\0\0\x14\xfe\xff\0\xe0\x0c\0\0\0\x10\0 \0\x04\0\0\01234\0(\x01\x06UN\0\0\0\0\0\x02\xff\xff",
        header: Start::Big,
        lines: b"\0\x08\x11@SQ\0\0\xff\xff\xff\xff\xff\xfe\xe0\0\xff\xff\xff\xff\0\x10\0 LO\0\x041234\xff\xfe\xe0\x0d\0\0\0\0\xff\xfe\xe0\xdd\0\0\0\0\0(\x01\x06UN\0\0\0\0\0\x02\xff\xff",
        ..EMPTY
    },
    Row {
        name: "their sequence from big to little endian",
        words: "dcmconv +dict +te - -",
        start: Start::Big,
        input: b"\0\x08\x11@SQ\0\0\xff\xff\xff\xff\xff\xfe\xe0\0\xff\xff\xff\xff\0\x10\0 LO\0\x041234\xff\xfe\xe0\x0d\0\0\0\0\xff\xfe\xe0\xdd\0\0\0\0\0(\x01\x06UN\0\0\0\0\0\x02\xff\xff",
        header: Start::ExplicitLittle,
        lines: b"\x08\0@\x11SQ\0\0\xff\xff\xff\xff\xfe\xff\0\xe0\xff\xff\xff\xff\x10\0 \0LO\x04\01234\xfe\xff\x0d\xe0\0\0\0\0\xfe\xff\xdd\xe0\0\0\0\0(\0\x06\x01UN\0\0\x02\0\0\0\xff\xff",
        ..EMPTY
    },
    Row {
        name: "their sequence from little endian to implicit",
        words: "dcmconv +dict +ti - -",
        start: Start::ExplicitLittle,
        input: b"\x08\0@\x11SQ\0\0\xff\xff\xff\xff\xfe\xff\0\xe0\xff\xff\xff\xff\x10\0 \0LO\x04\01234\xfe\xff\x0d\xe0\0\0\0\0\xfe\xff\xdd\xe0\0\0\0\0(\0\x06\x01UN\0\0\x02\0\0\0\xff\xff",
        header: Start::Implicit,
        lines: b"\x08\0@\x11\xff\xff\xff\xff\xfe\xff\0\xe0\xff\xff\xff\xff\x10\0 \0\x04\0\0\01234\xfe\xff\x0d\xe0\0\0\0\0\xfe\xff\xdd\xe0\0\0\0\0(\0\x06\x01\x02\0\0\0\xff\xff",
        ..EMPTY
    },
    Row {
        name: "their sequence from implicit to little endian",
        words: "dcmconv +dict +te - -",
        start: Start::Implicit,
        input: b"\x08\0@\x11\xff\xff\xff\xff\xfe\xff\0\xe0\xff\xff\xff\xff\x10\0 \0\x04\0\0\01234\xfe\xff\x0d\xe0\0\0\0\0\xfe\xff\xdd\xe0\0\0\0\0(\0\x06\x01\x02\0\0\0\xff\xff",
        header: Start::ExplicitLittle,
        lines: b"\x08\0@\x11SQ\0\0\xff\xff\xff\xff\xfe\xff\0\xe0\xff\xff\xff\xff\x10\0 \0LO\x04\01234\xfe\xff\x0d\xe0\0\0\0\0\xfe\xff\xdd\xe0\0\0\0\0(\0\x06\x01US\x02\0\xff\xff",
        ..EMPTY
    },
];

/// Unknown sequences of known length.
pub fn unknown() -> [&'static [Row]; 4] {
    [&SEQUENCES, &FAULTS, &EDITS, &CONVERSIONS]
}
