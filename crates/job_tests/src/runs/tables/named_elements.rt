// Dumps of elements that are named.
use crate::runs::rows::{EMPTY, Row};
use dcm_test_devices::Start;

/// Leaves, of the meta group too, in the order of the file.
static LEAVES: [Row; 17] = [
    Row {
        name: "named: leaf",
        words: "dcmdump +P PatientName -",
        start: Start::ExplicitLittle,
        input: b"\x10\0\x10\0PN\x06\0AB^CD \x10\0 \0LO\x02\07 ",
        lines: b"(0010,0010) PN [AB^CD]                                  #   6, 1 PatientName\n",
        ..EMPTY
    },
    Row {
        name: "named: number",
        words: "dcmdump +P (0010,0010) -",
        start: Start::ExplicitLittle,
        input: b"\x10\0\x10\0PN\x06\0AB^CD \x10\0 \0LO\x02\07 ",
        lines: b"(0010,0010) PN [AB^CD]                                  #   6, 1 PatientName\n",
        ..EMPTY
    },
    Row {
        name: "named: order",
        words: "dcmdump +P PatientID +P TransferSyntaxUID +P PatientName -",
        start: Start::ExplicitLittle,
        input: b"\x10\0\x10\0PN\x06\0AB^CD \x10\0 \0LO\x02\07 ",
        lines: b"(0002,0010) UI =LittleEndianExplicit                    #  20, 1 TransferSyntaxUID\n(0010,0010) PN [AB^CD]                                  #   6, 1 PatientName\n(0010,0020) LO [7]                                      #   2, 1 PatientID\n",
        ..EMPTY
    },
    Row {
        name: "named: again",
        words: "dcmdump +P PatientID +P (0010,0020) +P PatientID -",
        start: Start::ExplicitLittle,
        input: b"\x10\0\x10\0PN\x06\0AB^CD \x10\0 \0LO\x02\07 ",
        lines: b"(0010,0020) LO [7]                                      #   2, 1 PatientID\n",
        ..EMPTY
    },
    Row {
        name: "named: twice there",
        words: "dcmdump +P PatientID -",
        start: Start::ExplicitLittle,
        input: b"\x10\0 \0LO\x02\07 \x10\0 \0LO\x02\07 ",
        lines: b"(0010,0020) LO [7]                                      #   2, 1 PatientID\n(0010,0020) LO [7]                                      #   2, 1 PatientID\n",
        ..EMPTY
    },
    Row {
        name: "named: nothing",
        words: "dcmdump +P Modality -",
        start: Start::ExplicitLittle,
        input: b"\x10\0\x10\0PN\x06\0AB^CD \x10\0 \0LO\x02\07 ",
        ..EMPTY
    },
    Row {
        name: "named: nothing empty",
        words: "dcmdump +P Modality -",
        start: Start::ExplicitLittle,
        ..EMPTY
    },
    Row {
        name: "named: item",
        words: "dcmdump +P (FFFE,E000) +P (fffe,e0dd) -",
        start: Start::ExplicitLittle,
        input: b"\x08\0@\x11SQ\0\0\xff\xff\xff\xff\xfe\xff\0\xe0\xff\xff\xff\xff\x10\0\x10\0PN\x06\0AB^CD \xfe\xff\r\xe0\0\0\0\0\xfe\xff\xdd\xe0\0\0\0\0",
        ..EMPTY
    },
    Row {
        name: "named: private",
        words: "dcmdump +P (0009,10Ab) -",
        start: Start::ExplicitLittle,
        input: b"\x09\0\xab\x10SS\x02\0\xff\xff",
        lines: b"(0009,10ab) SS -1                                       #   2, 1 Unknown Tag & Data\n",
        ..EMPTY
    },
    Row {
        name: "named: group length",
        words: "dcmdump +P (0010,0000) -",
        start: Start::ExplicitLittle,
        input: b"\x10\0\0\0UL\x04\0\x0e\0\0\0\x10\0\x10\0PN\x06\0AB^CD ",
        lines: b"(0010,0000) UL 14                                       #   4, 1 GenericGroupLength\n",
        ..EMPTY
    },
    Row {
        name: "named: 64",
        words: "dcmdump +P Modality +P Modality +P Modality +P Modality +P Modality +P Modality +P Modality +P Modality +P Modality +P Modality +P Modality +P Modality +P Modality +P Modality +P Modality +P Modality +P Modality +P Modality +P Modality +P Modality +P Modality +P Modality +P Modality +P Modality +P Modality +P Modality +P Modality +P Modality +P Modality +P Modality +P Modality +P Modality +P Modality +P Modality +P Modality +P Modality +P Modality +P Modality +P Modality +P Modality +P Modality +P Modality +P Modality +P Modality +P Modality +P Modality +P Modality +P Modality +P Modality +P Modality +P Modality +P Modality +P Modality +P Modality +P Modality +P Modality +P Modality +P Modality +P Modality +P Modality +P Modality +P Modality +P Modality +P PatientID -",
        start: Start::ExplicitLittle,
        input: b"\x10\0\x10\0PN\x06\0AB^CD \x10\0 \0LO\x02\07 ",
        lines: b"(0010,0020) LO [7]                                      #   2, 1 PatientID\n",
        ..EMPTY
    },
    Row {
        name: "named: whole dictionary",
        words: "dcmdump +P XRayTubeCurrent -",
        start: Start::ExplicitLittle,
        input: b"\x18\0Q\x11IS\x04\0120 ",
        lines: b"(0018,1151) IS [120]                                    #   4, 1 Unknown Tag & Data\n",
        ..EMPTY
    },
    Row {
        name: "named: +dict",
        words: "dcmdump +dict +P XRayTubeCurrent -",
        start: Start::Implicit,
        input: b"\x18\0Q\x11\x04\0\0\0120 ",
        lines: b"(0018,1151) IS [120]                                    #   4, 1 XRayTubeCurrent\n",
        ..EMPTY
    },
    Row {
        name: "named: long",
        words: "dcmdump +P PatientComments -L -",
        start: Start::ExplicitLittle,
        input: b"\x10\0\0@LTF\0aaaaaaaaaaaaaaaaaaaaaaaaaaaaaaaaaaaaaaaaaaaaaaaaaaaaaaaaaaaaaaaaaaaaaa",
        lines: b"(0010,4000) LT [aaaaaaaaaaaaaaaaaaaaaaaaaaaaaaaaaaaaaaaaaaaaaaaaaaaaaaaaaaaaaa... #  70, 1 PatientComments\n",
        ..EMPTY
    },
    Row {
        name: "named: long +L",
        words: "dcmdump +P PatientComments +L -",
        start: Start::ExplicitLittle,
        input: b"\x10\0\0@LTF\0aaaaaaaaaaaaaaaaaaaaaaaaaaaaaaaaaaaaaaaaaaaaaaaaaaaaaaaaaaaaaaaaaaaaaa",
        lines: b"(0010,4000) LT [aaaaaaaaaaaaaaaaaaaaaaaaaaaaaaaaaaaaaaaaaaaaaaaaaaaaaaaaaaaaaaaaaaaaaa] #  70, 1 PatientComments\n",
        ..EMPTY
    },
    Row {
        name: "named: within a value",
        words: "dcmdump +P PatientID -",
        start: Start::ExplicitLittle,
        input: b"\x10\0\x10\0PN\x12\0(0010,0020) LO [8]",
        ..EMPTY
    },
    Row {
        name: "named: header",
        words: "dcmdump +P PatientID -",
        start: Start::Big,
        input: b"\0\x10\0 LO\0\x027 ",
        lines: b"(0010,0020) LO [7]                                      #   2, 1 PatientID\n",
        ..EMPTY
    },
];

/// Elements at any depth, sequences with all that lies in them, and the way to each.
static SEQUENCES: [Row; 11] = [
    Row {
        name: "named: depth",
        words: "dcmdump +P PatientID -",
        start: Start::ExplicitLittle,
        input: b"\x08\0@\x11SQ\0\0\xff\xff\xff\xff\xfe\xff\0\xe0\xff\xff\xff\xff\x10\0 \0LO\x02\07 \xfe\xff\r\xe0\0\0\0\0\xfe\xff\0\xe0\xff\xff\xff\xff\x08\0@\x11SQ\0\0\xff\xff\xff\xff\xfe\xff\0\xe0\xff\xff\xff\xff\x10\0 \0LO\x02\07 \xfe\xff\r\xe0\0\0\0\0\xfe\xff\xdd\xe0\0\0\0\0\xfe\xff\r\xe0\0\0\0\0\xfe\xff\xdd\xe0\0\0\0\0\x10\0 \0LO\x02\07 ",
        lines: b"(0010,0020) LO [7]                                      #   2, 1 PatientID\n(0010,0020) LO [7]                                      #   2, 1 PatientID\n(0010,0020) LO [7]                                      #   2, 1 PatientID\n",
        ..EMPTY
    },
    Row {
        name: "named: way",
        words: "dcmdump +p +P PatientID -",
        start: Start::ExplicitLittle,
        input: b"\x08\0@\x11SQ\0\0\xff\xff\xff\xff\xfe\xff\0\xe0\xff\xff\xff\xff\x10\0 \0LO\x02\07 \xfe\xff\r\xe0\0\0\0\0\xfe\xff\0\xe0\xff\xff\xff\xff\x08\0@\x11SQ\0\0\xff\xff\xff\xff\xfe\xff\0\xe0\xff\xff\xff\xff\x10\0 \0LO\x02\07 \xfe\xff\r\xe0\0\0\0\0\xfe\xff\xdd\xe0\0\0\0\0\xfe\xff\r\xe0\0\0\0\0\xfe\xff\xdd\xe0\0\0\0\0\x10\0 \0LO\x02\07 ",
        lines: b"(0008,1140).(0010,0020) LO [7]                                      #   2, 1 PatientID\n(0008,1140).(0008,1140).(0010,0020) LO [7]                                      #   2, 1 PatientID\n(0010,0020) LO [7]                                      #   2, 1 PatientID\n",
        ..EMPTY
    },
    Row {
        name: "named: no way",
        words: "dcmdump +p +P PatientID -p -",
        start: Start::ExplicitLittle,
        input: b"\x08\0@\x11SQ\0\0\xff\xff\xff\xff\xfe\xff\0\xe0\xff\xff\xff\xff\x10\0 \0LO\x02\07 \xfe\xff\r\xe0\0\0\0\0\xfe\xff\0\xe0\xff\xff\xff\xff\x08\0@\x11SQ\0\0\xff\xff\xff\xff\xfe\xff\0\xe0\xff\xff\xff\xff\x10\0 \0LO\x02\07 \xfe\xff\r\xe0\0\0\0\0\xfe\xff\xdd\xe0\0\0\0\0\xfe\xff\r\xe0\0\0\0\0\xfe\xff\xdd\xe0\0\0\0\0\x10\0 \0LO\x02\07 ",
        lines: b"(0010,0020) LO [7]                                      #   2, 1 PatientID\n(0010,0020) LO [7]                                      #   2, 1 PatientID\n(0010,0020) LO [7]                                      #   2, 1 PatientID\n",
        ..EMPTY
    },
    Row {
        name: "named: way of the meta group",
        words: "dcmdump -p +P TransferSyntaxUID +p -",
        start: Start::ExplicitLittle,
        input: b"\x08\0@\x11SQ\0\0\xff\xff\xff\xff\xfe\xff\0\xe0\xff\xff\xff\xff\x10\0 \0LO\x02\07 \xfe\xff\r\xe0\0\0\0\0\xfe\xff\0\xe0\xff\xff\xff\xff\x08\0@\x11SQ\0\0\xff\xff\xff\xff\xfe\xff\0\xe0\xff\xff\xff\xff\x10\0 \0LO\x02\07 \xfe\xff\r\xe0\0\0\0\0\xfe\xff\xdd\xe0\0\0\0\0\xfe\xff\r\xe0\0\0\0\0\xfe\xff\xdd\xe0\0\0\0\0\x10\0 \0LO\x02\07 ",
        lines: b"(0002,0010) UI =LittleEndianExplicit                    #  20, 1 TransferSyntaxUID\n",
        ..EMPTY
    },
    Row {
        name: "named: way of the paper",
        words: "dcmdump +p +P CodeValue -",
        start: Start::ExplicitLittle,
        input: b"@\00\xa7SQ\0\0\xff\xff\xff\xff\xfe\xff\0\xe0\xff\xff\xff\xff@\0h\xa1SQ\0\0\xff\xff\xff\xff\xfe\xff\0\xe0\xff\xff\xff\xff\x08\0\0\x01SH\x08\0T-D0050 \xfe\xff\r\xe0\0\0\0\0\xfe\xff\xdd\xe0\0\0\0\0\xfe\xff\r\xe0\0\0\0\0\xfe\xff\xdd\xe0\0\0\0\0",
        lines: b"(0040,a730).(0040,a168).(0008,0100) SH [T-D0050]                                #   8, 1 CodeValue\n",
        ..EMPTY
    },
    Row {
        name: "named: sequence",
        words: "dcmdump +P ReferencedImageSequence +P PatientID -",
        start: Start::ExplicitLittle,
        input: b"\x08\0@\x11SQ\0\0\xff\xff\xff\xff\xfe\xff\0\xe0\xff\xff\xff\xff\x10\0 \0LO\x02\07 \xfe\xff\r\xe0\0\0\0\0\xfe\xff\0\xe0\xff\xff\xff\xff\x08\0@\x11SQ\0\0\xff\xff\xff\xff\xfe\xff\0\xe0\xff\xff\xff\xff\x10\0 \0LO\x02\07 \xfe\xff\r\xe0\0\0\0\0\xfe\xff\xdd\xe0\0\0\0\0\xfe\xff\r\xe0\0\0\0\0\xfe\xff\xdd\xe0\0\0\0\0\x10\0 \0LO\x02\07 ",
        lines: b"(0008,1140) SQ (Sequence with undefined length)         # u/l, 1 ReferencedImageSequence\n  (fffe,e000) na (Item with undefined length)             # u/l, 1 Item\n    (0010,0020) LO [7]                                      #   2, 1 PatientID\n  (fffe,e00d) na (ItemDelimitationItem)                   #   0, 0 ItemDelimitationItem\n  (fffe,e000) na (Item with undefined length)             # u/l, 1 Item\n    (0008,1140) SQ (Sequence with undefined length)         # u/l, 1 ReferencedImageSequence\n      (fffe,e000) na (Item with undefined length)             # u/l, 1 Item\n        (0010,0020) LO [7]                                      #   2, 1 PatientID\n      (fffe,e00d) na (ItemDelimitationItem)                   #   0, 0 ItemDelimitationItem\n    (fffe,e0dd) na (SequenceDelimitationItem)               #   0, 0 SequenceDelimitationItem\n  (fffe,e00d) na (ItemDelimitationItem)                   #   0, 0 ItemDelimitationItem\n(fffe,e0dd) na (SequenceDelimitationItem)               #   0, 0 SequenceDelimitationItem\n(0010,0020) LO [7]                                      #   2, 1 PatientID\n",
        ..EMPTY
    },
    Row {
        name: "named: sequence within",
        words: "dcmdump +P ContentSequence -",
        start: Start::ExplicitLittle,
        input: b"\x08\0@\x11SQ\0\0\xff\xff\xff\xff\xfe\xff\0\xe0\xff\xff\xff\xff\x10\0 \0LO\x02\07 @\00\xa7SQ\0\0\xff\xff\xff\xff\xfe\xff\0\xe0\xff\xff\xff\xff\x10\0 \0LO\x02\07 \xfe\xff\r\xe0\0\0\0\0\xfe\xff\xdd\xe0\0\0\0\0\xfe\xff\r\xe0\0\0\0\0\xfe\xff\xdd\xe0\0\0\0\0@\00\xa7SQ\0\0\xff\xff\xff\xff\xfe\xff\0\xe0\xff\xff\xff\xff\xfe\xff\r\xe0\0\0\0\0\xfe\xff\xdd\xe0\0\0\0\0",
        lines: b"(0040,a730) SQ (Sequence with undefined length)         # u/l, 1 ContentSequence\n  (fffe,e000) na (Item with undefined length)             # u/l, 1 Item\n    (0010,0020) LO [7]                                      #   2, 1 PatientID\n  (fffe,e00d) na (ItemDelimitationItem)                   #   0, 0 ItemDelimitationItem\n(fffe,e0dd) na (SequenceDelimitationItem)               #   0, 0 SequenceDelimitationItem\n(0040,a730) SQ (Sequence with undefined length)         # u/l, 1 ContentSequence\n  (fffe,e000) na (Item with undefined length)             # u/l, 1 Item\n  (fffe,e00d) na (ItemDelimitationItem)                   #   0, 0 ItemDelimitationItem\n(fffe,e0dd) na (SequenceDelimitationItem)               #   0, 0 SequenceDelimitationItem\n",
        ..EMPTY
    },
    Row {
        name: "named: way of a sequence",
        words: "dcmdump +p +P ContentSequence -",
        start: Start::ExplicitLittle,
        input: b"\x08\0@\x11SQ\0\0\xff\xff\xff\xff\xfe\xff\0\xe0\xff\xff\xff\xff\x10\0 \0LO\x02\07 @\00\xa7SQ\0\0\xff\xff\xff\xff\xfe\xff\0\xe0\xff\xff\xff\xff\x10\0 \0LO\x02\07 \xfe\xff\r\xe0\0\0\0\0\xfe\xff\xdd\xe0\0\0\0\0\xfe\xff\r\xe0\0\0\0\0\xfe\xff\xdd\xe0\0\0\0\0@\00\xa7SQ\0\0\xff\xff\xff\xff\xfe\xff\xdd\xe0\0\0\0\0",
        lines: b"(0008,1140).(0040,a730) SQ (Sequence with undefined length)         # u/l, 1 ContentSequence\n  (fffe,e000) na (Item with undefined length)             # u/l, 1 Item\n    (0010,0020) LO [7]                                      #   2, 1 PatientID\n  (fffe,e00d) na (ItemDelimitationItem)                   #   0, 0 ItemDelimitationItem\n(fffe,e0dd) na (SequenceDelimitationItem)               #   0, 0 SequenceDelimitationItem\n(0040,a730) SQ (Sequence with undefined length)         # u/l, 1 ContentSequence\n(fffe,e0dd) na (SequenceDelimitationItem)               #   0, 0 SequenceDelimitationItem\n",
        ..EMPTY
    },
    Row {
        name: "named: known lengths",
        words: "dcmdump +p +P PatientID +P ReferencedImageSequence -",
        start: Start::ExplicitLittle,
        input: b"\x08\0@\x11SQ\0\0\x12\0\0\0\xfe\xff\0\xe0\n\0\0\0\x10\0 \0LO\x02\07 ",
        lines: b"(0008,1140) SQ (Sequence with explicit length)          #  18, 1 ReferencedImageSequence\n  (fffe,e000) na (Item with explicit length)              #  10, 1 Item\n    (0010,0020) LO [7]                                      #   2, 1 PatientID\n  (fffe,e00d) na (ItemDelimitationItem for re-encoding)   #   0, 0 ItemDelimitationItem\n(fffe,e0dd) na (SequenceDelimitationItem for re-encod.) #   0, 0 SequenceDelimitationItem\n",
        ..EMPTY
    },
    Row {
        name: "named: UN",
        words: "dcmdump +p +P PatientID -",
        start: Start::ExplicitLittle,
        input: b"\x09\0\x01\x10UN\0\0\xff\xff\xff\xff\xfe\xff\0\xe0\xff\xff\xff\xff\x10\0 \0\x02\0\0\07 \xfe\xff\r\xe0\0\0\0\0\xfe\xff\xdd\xe0\0\0\0\0",
        lines: b"(0009,1001).(0010,0020) LO [7]                                      #   2, 1 PatientID\n",
        ..EMPTY
    },
    Row {
        name: "named: 64 deep",
        words: "dcmdump +p +P PatientID -",
        start: Start::ExplicitLittle,
        input: b"\x08\0@\x11SQ\0\0\xff\xff\xff\xff\xfe\xff\0\xe0\xff\xff\xff\xff\x08\0@\x11SQ\0\0\xff\xff\xff\xff\xfe\xff\0\xe0\xff\xff\xff\xff\x08\0@\x11SQ\0\0\xff\xff\xff\xff\xfe\xff\0\xe0\xff\xff\xff\xff\x08\0@\x11SQ\0\0\xff\xff\xff\xff\xfe\xff\0\xe0\xff\xff\xff\xff\x08\0@\x11SQ\0\0\xff\xff\xff\xff\xfe\xff\0\xe0\xff\xff\xff\xff\x08\0@\x11SQ\0\0\xff\xff\xff\xff\xfe\xff\0\xe0\xff\xff\xff\xff\x08\0@\x11SQ\0\0\xff\xff\xff\xff\xfe\xff\0\xe0\xff\xff\xff\xff\x08\0@\x11SQ\0\0\xff\xff\xff\xff\xfe\xff\0\xe0\xff\xff\xff\xff\x08\0@\x11SQ\0\0\xff\xff\xff\xff\xfe\xff\0\xe0\xff\xff\xff\xff\x08\0@\x11SQ\0\0\xff\xff\xff\xff\xfe\xff\0\xe0\xff\xff\xff\xff\x08\0@\x11SQ\0\0\xff\xff\xff\xff\xfe\xff\0\xe0\xff\xff\xff\xff\x08\0@\x11SQ\0\0\xff\xff\xff\xff\xfe\xff\0\xe0\xff\xff\xff\xff\x08\0@\x11SQ\0\0\xff\xff\xff\xff\xfe\xff\0\xe0\xff\xff\xff\xff\x08\0@\x11SQ\0\0\xff\xff\xff\xff\xfe\xff\0\xe0\xff\xff\xff\xff\x08\0@\x11SQ\0\0\xff\xff\xff\xff\xfe\xff\0\xe0\xff\xff\xff\xff\x08\0@\x11SQ\0\0\xff\xff\xff\xff\xfe\xff\0\xe0\xff\xff\xff\xff\x08\0@\x11SQ\0\0\xff\xff\xff\xff\xfe\xff\0\xe0\xff\xff\xff\xff\x08\0@\x11SQ\0\0\xff\xff\xff\xff\xfe\xff\0\xe0\xff\xff\xff\xff\x08\0@\x11SQ\0\0\xff\xff\xff\xff\xfe\xff\0\xe0\xff\xff\xff\xff\x08\0@\x11SQ\0\0\xff\xff\xff\xff\xfe\xff\0\xe0\xff\xff\xff\xff\x08\0@\x11SQ\0\0\xff\xff\xff\xff\xfe\xff\0\xe0\xff\xff\xff\xff\x08\0@\x11SQ\0\0\xff\xff\xff\xff\xfe\xff\0\xe0\xff\xff\xff\xff\x08\0@\x11SQ\0\0\xff\xff\xff\xff\xfe\xff\0\xe0\xff\xff\xff\xff\x08\0@\x11SQ\0\0\xff\xff\xff\xff\xfe\xff\0\xe0\xff\xff\xff\xff\x08\0@\x11SQ\0\0\xff\xff\xff\xff\xfe\xff\0\xe0\xff\xff\xff\xff\x08\0@\x11SQ\0\0\xff\xff\xff\xff\xfe\xff\0\xe0\xff\xff\xff\xff\x08\0@\x11SQ\0\0\xff\xff\xff\xff\xfe\xff\0\xe0\xff\xff\xff\xff\x08\0@\x11SQ\0\0\xff\xff\xff\xff\xfe\xff\0\xe0\xff\xff\xff\xff\x08\0@\x11SQ\0\0\xff\xff\xff\xff\xfe\xff\0\xe0\xff\xff\xff\xff\x08\0@\x11SQ\0\0\xff\xff\xff\xff\xfe\xff\0\xe0\xff\xff\xff\xff\x08\0@\x11SQ\0\0\xff\xff\xff\xff\xfe\xff\0\xe0\xff\xff\xff\xff\x08\0@\x11SQ\0\0\xff\xff\xff\xff\xfe\xff\0\xe0\xff\xff\xff\xff\x08\0@\x11SQ\0\0\xff\xff\xff\xff\xfe\xff\0\xe0\xff\xff\xff\xff\x08\0@\x11SQ\0\0\xff\xff\xff\xff\xfe\xff\0\xe0\xff\xff\xff\xff\x08\0@\x11SQ\0\0\xff\xff\xff\xff\xfe\xff\0\xe0\xff\xff\xff\xff\x08\0@\x11SQ\0\0\xff\xff\xff\xff\xfe\xff\0\xe0\xff\xff\xff\xff\x08\0@\x11SQ\0\0\xff\xff\xff\xff\xfe\xff\0\xe0\xff\xff\xff\xff\x08\0@\x11SQ\0\0\xff\xff\xff\xff\xfe\xff\0\xe0\xff\xff\xff\xff\x08\0@\x11SQ\0\0\xff\xff\xff\xff\xfe\xff\0\xe0\xff\xff\xff\xff\x08\0@\x11SQ\0\0\xff\xff\xff\xff\xfe\xff\0\xe0\xff\xff\xff\xff\x08\0@\x11SQ\0\0\xff\xff\xff\xff\xfe\xff\0\xe0\xff\xff\xff\xff\x08\0@\x11SQ\0\0\xff\xff\xff\xff\xfe\xff\0\xe0\xff\xff\xff\xff\x08\0@\x11SQ\0\0\xff\xff\xff\xff\xfe\xff\0\xe0\xff\xff\xff\xff\x08\0@\x11SQ\0\0\xff\xff\xff\xff\xfe\xff\0\xe0\xff\xff\xff\xff\x08\0@\x11SQ\0\0\xff\xff\xff\xff\xfe\xff\0\xe0\xff\xff\xff\xff\x08\0@\x11SQ\0\0\xff\xff\xff\xff\xfe\xff\0\xe0\xff\xff\xff\xff\x08\0@\x11SQ\0\0\xff\xff\xff\xff\xfe\xff\0\xe0\xff\xff\xff\xff\x08\0@\x11SQ\0\0\xff\xff\xff\xff\xfe\xff\0\xe0\xff\xff\xff\xff\x08\0@\x11SQ\0\0\xff\xff\xff\xff\xfe\xff\0\xe0\xff\xff\xff\xff\x08\0@\x11SQ\0\0\xff\xff\xff\xff\xfe\xff\0\xe0\xff\xff\xff\xff\x08\0@\x11SQ\0\0\xff\xff\xff\xff\xfe\xff\0\xe0\xff\xff\xff\xff\x08\0@\x11SQ\0\0\xff\xff\xff\xff\xfe\xff\0\xe0\xff\xff\xff\xff\x08\0@\x11SQ\0\0\xff\xff\xff\xff\xfe\xff\0\xe0\xff\xff\xff\xff\x08\0@\x11SQ\0\0\xff\xff\xff\xff\xfe\xff\0\xe0\xff\xff\xff\xff\x08\0@\x11SQ\0\0\xff\xff\xff\xff\xfe\xff\0\xe0\xff\xff\xff\xff\x08\0@\x11SQ\0\0\xff\xff\xff\xff\xfe\xff\0\xe0\xff\xff\xff\xff\x08\0@\x11SQ\0\0\xff\xff\xff\xff\xfe\xff\0\xe0\xff\xff\xff\xff\x08\0@\x11SQ\0\0\xff\xff\xff\xff\xfe\xff\0\xe0\xff\xff\xff\xff\x08\0@\x11SQ\0\0\xff\xff\xff\xff\xfe\xff\0\xe0\xff\xff\xff\xff\x08\0@\x11SQ\0\0\xff\xff\xff\xff\xfe\xff\0\xe0\xff\xff\xff\xff\x08\0@\x11SQ\0\0\xff\xff\xff\xff\xfe\xff\0\xe0\xff\xff\xff\xff\x08\0@\x11SQ\0\0\xff\xff\xff\xff\xfe\xff\0\xe0\xff\xff\xff\xff\x08\0@\x11SQ\0\0\xff\xff\xff\xff\xfe\xff\0\xe0\xff\xff\xff\xff\x08\0@\x11SQ\0\0\xff\xff\xff\xff\xfe\xff\0\xe0\xff\xff\xff\xff\x10\0 \0LO\x02\07 \xfe\xff\r\xe0\0\0\0\0\xfe\xff\xdd\xe0\0\0\0\0\xfe\xff\r\xe0\0\0\0\0\xfe\xff\xdd\xe0\0\0\0\0\xfe\xff\r\xe0\0\0\0\0\xfe\xff\xdd\xe0\0\0\0\0\xfe\xff\r\xe0\0\0\0\0\xfe\xff\xdd\xe0\0\0\0\0\xfe\xff\r\xe0\0\0\0\0\xfe\xff\xdd\xe0\0\0\0\0\xfe\xff\r\xe0\0\0\0\0\xfe\xff\xdd\xe0\0\0\0\0\xfe\xff\r\xe0\0\0\0\0\xfe\xff\xdd\xe0\0\0\0\0\xfe\xff\r\xe0\0\0\0\0\xfe\xff\xdd\xe0\0\0\0\0\xfe\xff\r\xe0\0\0\0\0\xfe\xff\xdd\xe0\0\0\0\0\xfe\xff\r\xe0\0\0\0\0\xfe\xff\xdd\xe0\0\0\0\0\xfe\xff\r\xe0\0\0\0\0\xfe\xff\xdd\xe0\0\0\0\0\xfe\xff\r\xe0\0\0\0\0\xfe\xff\xdd\xe0\0\0\0\0\xfe\xff\r\xe0\0\0\0\0\xfe\xff\xdd\xe0\0\0\0\0\xfe\xff\r\xe0\0\0\0\0\xfe\xff\xdd\xe0\0\0\0\0\xfe\xff\r\xe0\0\0\0\0\xfe\xff\xdd\xe0\0\0\0\0\xfe\xff\r\xe0\0\0\0\0\xfe\xff\xdd\xe0\0\0\0\0\xfe\xff\r\xe0\0\0\0\0\xfe\xff\xdd\xe0\0\0\0\0\xfe\xff\r\xe0\0\0\0\0\xfe\xff\xdd\xe0\0\0\0\0\xfe\xff\r\xe0\0\0\0\0\xfe\xff\xdd\xe0\0\0\0\0\xfe\xff\r\xe0\0\0\0\0\xfe\xff\xdd\xe0\0\0\0\0\xfe\xff\r\xe0\0\0\0\0\xfe\xff\xdd\xe0\0\0\0\0\xfe\xff\r\xe0\0\0\0\0\xfe\xff\xdd\xe0\0\0\0\0\xfe\xff\r\xe0\0\0\0\0\xfe\xff\xdd\xe0\0\0\0\0\xfe\xff\r\xe0\0\0\0\0\xfe\xff\xdd\xe0\0\0\0\0\xfe\xff\r\xe0\0\0\0\0\xfe\xff\xdd\xe0\0\0\0\0\xfe\xff\r\xe0\0\0\0\0\xfe\xff\xdd\xe0\0\0\0\0\xfe\xff\r\xe0\0\0\0\0\xfe\xff\xdd\xe0\0\0\0\0\xfe\xff\r\xe0\0\0\0\0\xfe\xff\xdd\xe0\0\0\0\0\xfe\xff\r\xe0\0\0\0\0\xfe\xff\xdd\xe0\0\0\0\0\xfe\xff\r\xe0\0\0\0\0\xfe\xff\xdd\xe0\0\0\0\0\xfe\xff\r\xe0\0\0\0\0\xfe\xff\xdd\xe0\0\0\0\0\xfe\xff\r\xe0\0\0\0\0\xfe\xff\xdd\xe0\0\0\0\0\xfe\xff\r\xe0\0\0\0\0\xfe\xff\xdd\xe0\0\0\0\0\xfe\xff\r\xe0\0\0\0\0\xfe\xff\xdd\xe0\0\0\0\0\xfe\xff\r\xe0\0\0\0\0\xfe\xff\xdd\xe0\0\0\0\0\xfe\xff\r\xe0\0\0\0\0\xfe\xff\xdd\xe0\0\0\0\0\xfe\xff\r\xe0\0\0\0\0\xfe\xff\xdd\xe0\0\0\0\0\xfe\xff\r\xe0\0\0\0\0\xfe\xff\xdd\xe0\0\0\0\0\xfe\xff\r\xe0\0\0\0\0\xfe\xff\xdd\xe0\0\0\0\0\xfe\xff\r\xe0\0\0\0\0\xfe\xff\xdd\xe0\0\0\0\0\xfe\xff\r\xe0\0\0\0\0\xfe\xff\xdd\xe0\0\0\0\0\xfe\xff\r\xe0\0\0\0\0\xfe\xff\xdd\xe0\0\0\0\0\xfe\xff\r\xe0\0\0\0\0\xfe\xff\xdd\xe0\0\0\0\0\xfe\xff\r\xe0\0\0\0\0\xfe\xff\xdd\xe0\0\0\0\0\xfe\xff\r\xe0\0\0\0\0\xfe\xff\xdd\xe0\0\0\0\0\xfe\xff\r\xe0\0\0\0\0\xfe\xff\xdd\xe0\0\0\0\0\xfe\xff\r\xe0\0\0\0\0\xfe\xff\xdd\xe0\0\0\0\0\xfe\xff\r\xe0\0\0\0\0\xfe\xff\xdd\xe0\0\0\0\0\xfe\xff\r\xe0\0\0\0\0\xfe\xff\xdd\xe0\0\0\0\0\xfe\xff\r\xe0\0\0\0\0\xfe\xff\xdd\xe0\0\0\0\0\xfe\xff\r\xe0\0\0\0\0\xfe\xff\xdd\xe0\0\0\0\0\xfe\xff\r\xe0\0\0\0\0\xfe\xff\xdd\xe0\0\0\0\0\xfe\xff\r\xe0\0\0\0\0\xfe\xff\xdd\xe0\0\0\0\0\xfe\xff\r\xe0\0\0\0\0\xfe\xff\xdd\xe0\0\0\0\0\xfe\xff\r\xe0\0\0\0\0\xfe\xff\xdd\xe0\0\0\0\0\xfe\xff\r\xe0\0\0\0\0\xfe\xff\xdd\xe0\0\0\0\0\xfe\xff\r\xe0\0\0\0\0\xfe\xff\xdd\xe0\0\0\0\0\xfe\xff\r\xe0\0\0\0\0\xfe\xff\xdd\xe0\0\0\0\0\xfe\xff\r\xe0\0\0\0\0\xfe\xff\xdd\xe0\0\0\0\0\xfe\xff\r\xe0\0\0\0\0\xfe\xff\xdd\xe0\0\0\0\0\xfe\xff\r\xe0\0\0\0\0\xfe\xff\xdd\xe0\0\0\0\0\xfe\xff\r\xe0\0\0\0\0\xfe\xff\xdd\xe0\0\0\0\0\xfe\xff\r\xe0\0\0\0\0\xfe\xff\xdd\xe0\0\0\0\0\xfe\xff\r\xe0\0\0\0\0\xfe\xff\xdd\xe0\0\0\0\0",
        lines: b"(0008,1140).(0008,1140).(0008,1140).(0008,1140).(0008,1140).(0008,1140).(0008,1140).(0008,1140).(0008,1140).(0008,1140).(0008,1140).(0008,1140).(0008,1140).(0008,1140).(0008,1140).(0008,1140).(0008,1140).(0008,1140).(0008,1140).(0008,1140).(0008,1140).(0008,1140).(0008,1140).(0008,1140).(0008,1140).(0008,1140).(0008,1140).(0008,1140).(0008,1140).(0008,1140).(0008,1140).(0008,1140).(0008,1140).(0008,1140).(0008,1140).(0008,1140).(0008,1140).(0008,1140).(0008,1140).(0008,1140).(0008,1140).(0008,1140).(0008,1140).(0008,1140).(0008,1140).(0008,1140).(0008,1140).(0008,1140).(0008,1140).(0008,1140).(0008,1140).(0008,1140).(0008,1140).(0008,1140).(0008,1140).(0008,1140).(0008,1140).(0008,1140).(0008,1140).(0008,1140).(0008,1140).(0008,1140).(0008,1140).(0008,1140).(0010,0020) LO [7]                                      #   2, 1 PatientID\n",
        ..EMPTY
    },
];

/// Fragments.
static FRAGMENTS: [Row; 2] = [
    Row {
        name: "named: fragments",
        words: "dcmdump +P PixelData -",
        start: Start::Jpeg,
        input: b"\xe0\x7f\x10\0OB\0\0\xff\xff\xff\xff\xfe\xff\0\xe0\0\0\0\0\xfe\xff\0\xe0\x02\0\0\0\xff\xd8\xfe\xff\xdd\xe0\0\0\0\0",
        lines: b"(7fe0,0010) OB (PixelSequence)                          # u/l, 1 PixelData\n  (fffe,e000) pi (no value available)                     #   0, 1 Item\n  (fffe,e000) pi ff\\d8                                    #   2, 1 Item\n(fffe,e0dd) na (SequenceDelimitationItem)               #   0, 0 SequenceDelimitationItem\n",
        ..EMPTY
    },
    Row {
        name: "named: fragments, no",
        words: "dcmdump +P PatientID -",
        start: Start::Jpeg,
        input: b"\xe0\x7f\x10\0OB\0\0\xff\xff\xff\xff\xfe\xff\0\xe0\0\0\0\0\xfe\xff\0\xe0\x02\0\0\0\xff\xd8\xfe\xff\xdd\xe0\0\0\0\0",
        ..EMPTY
    },
];

/// A data set alone, texts by characters, and implicit VR.
static READ_SO: [Row; 5] = [
    Row {
        name: "named: -f",
        words: "dcmdump -f -ti +P PatientID -",
        input: b"\x10\0 \0\x02\0\0\07 ",
        lines: b"(0010,0020) LO [7]                                      #   2, 1 PatientID\n",
        ..EMPTY
    },
    Row {
        name: "named: -f nothing",
        words: "dcmdump -f -te +P PatientID -",
        ..EMPTY
    },
    Row {
        name: "named: +u8",
        words: "dcmdump +u8 +P PatientID -",
        start: Start::ExplicitLittle,
        input: b"\x08\0\x05\0CS\n\0ISO_IR 100\x08\0@\x11SQ\0\0\xff\xff\xff\xff\xfe\xff\0\xe0\xff\xff\xff\xff\x08\0\x05\0CS\n\0ISO_IR 144\x10\0 \0LO\x02\0\xb6 \xfe\xff\r\xe0\0\0\0\0\xfe\xff\xdd\xe0\0\0\0\0\x10\0 \0LO\x02\0\xe9 ",
        lines: b"(0010,0020) LO [\xd0\x96]                                     #   2, 1 PatientID\n(0010,0020) LO [\xc3\xa9]                                     #   2, 1 PatientID\n",
        ..EMPTY
    },
    Row {
        name: "named: implicit",
        words: "dcmdump +p +P PatientID -",
        start: Start::Implicit,
        input: b"\x08\0@\x11\xff\xff\xff\xff\xfe\xff\0\xe0\xff\xff\xff\xff\x10\0 \0\x02\0\0\07 \xfe\xff\r\xe0\0\0\0\0\xfe\xff\xdd\xe0\0\0\0\0",
        lines: b"(0008,1140).(0010,0020) LO [7]                                      #   2, 1 PatientID\n",
        ..EMPTY
    },
    Row {
        name: "named: +p alone",
        words: "dcmdump +p -f -ti -",
        lines: b"# Dicom-Data-Set\n# Used TransferSyntax: LittleEndianImplicit\n",
        ..EMPTY
    },
];

/// Files at fault, and values that are cut.
static FAULTS: [Row; 11] = [
    Row {
        name: "named: fault",
        words: "dcmdump +P PatientName -",
        start: Start::ExplicitLittle,
        input: b"\x10\0\x10\0PN\x06\0AB^CD \x10\0 \0pn\x02\0",
        lines: b"(0010,0010) PN [AB^CD]                                  #   6, 1 PatientName\n",
        status: 2,
        told: b"dcmtools: R7 at byte 186: unknown value representation\n",
        ..EMPTY
    },
    Row {
        name: "named: cut -L",
        words: "dcmdump +p +P PatientID +P PatientName -",
        start: Start::ExplicitLittle,
        input: b"\x10\0\x10\0PN\x06\0AB^CD \x10\0 \0LO\x02\07",
        lines: b"(0010,0010) PN [AB^CD]                                  #   6, 1 PatientName\n",
        status: 2,
        told: b"dcmtools: R1 at byte 195: input ends too early\n",
        ..EMPTY
    },
    Row {
        name: "named: cut +L",
        words: "dcmdump +L +P PatientID -",
        start: Start::ExplicitLittle,
        input: b"\x10\0\x10\0PN\x06\0AB^CD \x10\0 \0LO\x02\07",
        lines: b"(0010,0020) LO [7",
        status: 2,
        told: b"dcmtools: R1 at byte 195: input ends too early\n",
        ..EMPTY
    },
    Row {
        name: "named: cut, not named",
        words: "dcmdump +L +P PatientName -",
        start: Start::ExplicitLittle,
        input: b"\x10\0\x10\0PN\x06\0AB^CD \x10\0 \0LO\x02\07",
        lines: b"(0010,0010) PN [AB^CD]                                  #   6, 1 PatientName\n",
        status: 2,
        told: b"dcmtools: R1 at byte 195: input ends too early\n",
        ..EMPTY
    },
    Row {
        name: "named: cut in an item",
        words: "dcmdump +L +p +P PatientName -",
        start: Start::ExplicitLittle,
        input: b"\x08\0@\x11SQ\0\0\xff\xff\xff\xff\xfe\xff\0\xe0\xff\xff\xff\xff\x10\0 \0LO\x02\07 \x10\0\x10\0PN\x06\0AB^CD",
        lines: b"(0008,1140).(0010,0010) PN [AB^CD",
        status: 2,
        told: b"dcmtools: R1 at byte 215: input ends too early\n",
        ..EMPTY
    },
    Row {
        name: "named: cut in an item -L",
        words: "dcmdump +p +P PatientName -",
        start: Start::ExplicitLittle,
        input: b"\x08\0@\x11SQ\0\0\xff\xff\xff\xff\xfe\xff\0\xe0\xff\xff\xff\xff\x10\0 \0LO\x02\07 \x10\0\x10\0PN\x06\0AB^CD",
        status: 2,
        told: b"dcmtools: R1 at byte 215: input ends too early\n",
        ..EMPTY
    },
    Row {
        name: "named: cut in a sequence",
        words: "dcmdump +L +P ReferencedImageSequence +P PatientName -",
        start: Start::ExplicitLittle,
        input: b"\x08\0@\x11SQ\0\0\xff\xff\xff\xff\xfe\xff\0\xe0\xff\xff\xff\xff\x10\0 \0LO\x02\07 \x10\0\x10\0PN\x06\0AB^CD",
        lines: b"(0008,1140) SQ (Sequence with undefined length)         # u/l, 1 ReferencedImageSequence\n  (fffe,e000) na (Item with undefined length)             # u/l, 1 Item\n    (0010,0020) LO [7]                                      #   2, 1 PatientID\n    (0010,0010) PN [AB^CD",
        status: 2,
        told: b"dcmtools: R1 at byte 215: input ends too early\n",
        ..EMPTY
    },
    Row {
        name: "named: cut fragment",
        words: "dcmdump +L +P PixelData -",
        start: Start::Jpeg,
        input: b"\xe0\x7f\x10\0OB\0\0\xff\xff\xff\xff\xfe\xff\0\xe0\0\0\0\0\xfe\xff\0\xe0\x02\0\0\0\xff",
        lines: b"(7fe0,0010) OB (PixelSequence)                          # u/l, 1 PixelData\n  (fffe,e000) pi (no value available)                     #   0, 1 Item\n  (fffe,e000) pi ff",
        status: 2,
        told: b"dcmtools: R1 at byte 203: input ends too early\n",
        ..EMPTY
    },
    Row {
        name: "named: in a sequence",
        words: "dcmdump +P PatientID -",
        start: Start::ExplicitLittle,
        input: b"\x08\0@\x11SQ\0\0\xff\xff\xff\xff\xfe\xff\0\xe0\xff\xff\xff\xff\x10\0 \0LO\x02\07 \x10\0 \0xx\x02\0",
        lines: b"(0010,0020) LO [7]                                      #   2, 1 PatientID\n",
        status: 2,
        told: b"dcmtools: R7 at byte 202: unknown value representation\n",
        ..EMPTY
    },
    Row {
        name: "named: meta group",
        words: "dcmdump +P TransferSyntaxUID -",
        start: Start::Prefix,
        input: b"\x02\0\0\0UL\x04\0\x1c\0\0\0\x02\0\x10\0UI\x14\01.2.840.10008.1.2.1",
        status: 2,
        told: b"dcmtools: R1 at byte 171: input ends too early\n",
        ..EMPTY
    },
    Row {
        name: "named: R6",
        words: "dcmdump +P TransferSyntaxUID -",
        start: Start::Prefix,
        input: b"\x02\0\x10\0UI\x16\01.2.840.10008.1.2.1.99",
        status: 2,
        told: b"dcmtools: R6 at byte 162: deflated transfer syntax\n",
        ..EMPTY
    },
];

/// Dumps of elements that are named.
pub fn named_elements() -> [&'static [Row]; 5] {
    [&LEAVES, &SEQUENCES, &FRAGMENTS, &READ_SO, &FAULTS]
}
