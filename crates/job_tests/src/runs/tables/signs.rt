// Elements that the standard leaves between two representations, by the sign of the pixels (PS3.3 C.7.6.3.1.4).
use crate::runs::rows::{EMPTY, Row};
use dcm_test_devices::Start;

/// Dumps of implicit files.
static DUMPS: [Row; 6] = [
    Row {
        name: "every kind of element between two representations",
        words: "dcmdump +dict -",
        start: Start::Implicit,
        input: b"\x18\0\x10\x98\x02\0\0\0\xff\xff\"\0R\x14\x02\0\0\0\xff\xff(\0q\0\x02\0\0\0\xff\xff(\0\x03\x01\x02\0\0\0\x01\0(\0\x06\x01\x02\0\0\0\xff\xff(\0\0\x12\x02\0\0\0\xff\xff(\0\x020\x02\0\0\0\xff\xff(\0\x060\x02\0\0\0\xff\xff`\0\x040\x02\0\0\0\xff\xff\0T\x10\x10\x03\0\0\0\x01\x02\x03\0`\00\x02\0\0\0\xff\xff",
        header: Start::Implicit,
        lines: b"\
(0018,9810) UN ff\\ff                                    #   2, 1 ZeroVelocityPixelValue
(0022,1452) UN ff\\ff                                    #   2, 1 MappedPixelValue
(0028,0071) UN ff\\ff                                    #   2, 1 PerimeterValue
(0028,0103) US 1                                        #   2, 1 PixelRepresentation
(0028,0106) SS -1                                       #   2, 1 SmallestImagePixelValue
(0028,1200) OW ffff                                     #   2, 1 GrayLookupTableData
(0028,3002) SS -1                                       #   2, 1 LUTDescriptor
(0028,3006) OW ffff                                     #   2, 1 LUTData
(0060,3004) SS -1                                       #   2, 1 HistogramFirstBinValue
(5400,1010) OW 0201                                     #   3, 1 WaveformData
(6000,3000) UN ff\\ff                                    #   2, 1 Unknown Tag & Data
",
        ..EMPTY
    },
    Row {
        name: "values of PixelRepresentation, one in each item",
        words: "dcmdump -dict +dict -",
        start: Start::Implicit,
        input: b"\x08\0@\x11\xe0\0\0\0\xfe\xff\0\xe0\x14\0\0\0(\0\x03\x01\x02\0\0\0\0\0(\0\x06\x01\x02\0\0\0\xff\xff\xfe\xff\0\xe0\x14\0\0\0(\0\x03\x01\x02\0\0\0\x01\0(\0\x06\x01\x02\0\0\0\xff\xff\xfe\xff\0\xe0\x14\0\0\0(\0\x03\x01\x02\0\0\0\0\x01(\0\x06\x01\x02\0\0\0\xff\xff\xfe\xff\0\xe0\x13\0\0\0(\0\x03\x01\x01\0\0\0\x01(\0\x06\x01\x02\0\0\0\xff\xff\xfe\xff\0\xe0\x12\0\0\0(\0\x03\x01\0\0\0\0(\0\x06\x01\x02\0\0\0\xff\xff\xfe\xff\0\xe0\x15\0\0\0(\0\x03\x01\x03\0\0\0\x01\0\x05(\0\x06\x01\x02\0\0\0\xff\xff\xfe\xff\0\xe0\x16\0\0\0(\0\x03\x01\x04\0\0\0\x01\0\0\0(\0\x06\x01\x02\0\0\0\xff\xff\xfe\xff\0\xe0\x14\0\0\0(\0\x03\x01\x02\0\0\0\x01\x01(\0\x06\x01\x02\0\0\0\xff\xff",
        header: Start::Implicit,
        lines: b"\
(0008,1140) SQ (Sequence with explicit length)          # 224, 1 ReferencedImageSequence
  (fffe,e000) na (Item with explicit length)              #  20, 1 Item
    (0028,0103) US 0                                        #   2, 1 PixelRepresentation
    (0028,0106) US 65535                                    #   2, 1 SmallestImagePixelValue
  (fffe,e00d) na (ItemDelimitationItem for re-encoding)   #   0, 0 ItemDelimitationItem
  (fffe,e000) na (Item with explicit length)              #  20, 1 Item
    (0028,0103) US 1                                        #   2, 1 PixelRepresentation
    (0028,0106) SS -1                                       #   2, 1 SmallestImagePixelValue
  (fffe,e00d) na (ItemDelimitationItem for re-encoding)   #   0, 0 ItemDelimitationItem
  (fffe,e000) na (Item with explicit length)              #  20, 1 Item
    (0028,0103) US 256                                      #   2, 1 PixelRepresentation
    (0028,0106) US 65535                                    #   2, 1 SmallestImagePixelValue
  (fffe,e00d) na (ItemDelimitationItem for re-encoding)   #   0, 0 ItemDelimitationItem
  (fffe,e000) na (Item with explicit length)              #  19, 1 Item
    (0028,0103) US                                          #   1, 0 PixelRepresentation
    (0028,0106) SS -1                                       #   2, 1 SmallestImagePixelValue
  (fffe,e00d) na (ItemDelimitationItem for re-encoding)   #   0, 0 ItemDelimitationItem
  (fffe,e000) na (Item with explicit length)              #  18, 1 Item
    (0028,0103) US (no value available)                     #   0, 0 PixelRepresentation
    (0028,0106) US 65535                                    #   2, 1 SmallestImagePixelValue
  (fffe,e00d) na (ItemDelimitationItem for re-encoding)   #   0, 0 ItemDelimitationItem
  (fffe,e000) na (Item with explicit length)              #  21, 1 Item
    (0028,0103) US 1                                        #   3, 1 PixelRepresentation
    (0028,0106) SS -1                                       #   2, 1 SmallestImagePixelValue
  (fffe,e00d) na (ItemDelimitationItem for re-encoding)   #   0, 0 ItemDelimitationItem
  (fffe,e000) na (Item with explicit length)              #  22, 1 Item
    (0028,0103) US 1\\0                                      #   4, 2 PixelRepresentation
    (0028,0106) SS -1                                       #   2, 1 SmallestImagePixelValue
  (fffe,e00d) na (ItemDelimitationItem for re-encoding)   #   0, 0 ItemDelimitationItem
  (fffe,e000) na (Item with explicit length)              #  20, 1 Item
    (0028,0103) US 257                                      #   2, 1 PixelRepresentation
    (0028,0106) US 65535                                    #   2, 1 SmallestImagePixelValue
  (fffe,e00d) na (ItemDelimitationItem for re-encoding)   #   0, 0 ItemDelimitationItem
(fffe,e0dd) na (SequenceDelimitationItem for re-encod.) #   0, 0 SequenceDelimitationItem
",
        ..EMPTY
    },
    Row {
        name: "an element between two representations by the extract",
        words: "dcmdump +dict -dict -",
        start: Start::Implicit,
        input: b"(\0\x03\x01\x02\0\0\0\x01\0(\0\x06\x01\x02\0\0\0\xff\xff",
        header: Start::Implicit,
        lines: b"\
(0028,0103) US 1                                        #   2, 1 PixelRepresentation
(0028,0106) UN ff\\ff                                    #   2, 1 Unknown Tag & Data
",
        ..EMPTY
    },
    Row {
        name: "signs that items inherit, and their own",
        words: "dcmdump +dict -",
        start: Start::Implicit,
        input: b"(\0\x03\x01\x02\0\0\0\x01\0(\0\x100\x94\0\0\0\xfe\xff\0\xe0\n\0\0\0(\0\x020\x02\0\0\0\xff\xff\xfe\xff\0\xe0.\0\0\0(\0\x03\x01\x02\0\0\0\0\0(\0\x020\x02\0\0\0\xff\xff(\0\x100\x12\0\0\0\xfe\xff\0\xe0\n\0\0\0(\0\x020\x02\0\0\0\xff\xff\xfe\xff\0\xe0\"\0\0\0(\0\x03\x01\0\0\0\0(\0\x100\x12\0\0\0\xfe\xff\0\xe0\n\0\0\0(\0\x020\x02\0\0\0\xff\xff\xfe\xff\0\xe0\x1a\0\0\0(\0\x100\x12\0\0\0\xfe\xff\0\xe0\n\0\0\0(\0\x020\x02\0\0\0\xff\xff@\0\x11\x92\x02\0\0\0\xff\xff",
        header: Start::Implicit,
        lines: b"\
(0028,0103) US 1                                        #   2, 1 PixelRepresentation
(0028,3010) SQ (Sequence with explicit length)          # 148, 1 VOILUTSequence
  (fffe,e000) na (Item with explicit length)              #  10, 1 Item
    (0028,3002) SS -1                                       #   2, 1 LUTDescriptor
  (fffe,e00d) na (ItemDelimitationItem for re-encoding)   #   0, 0 ItemDelimitationItem
  (fffe,e000) na (Item with explicit length)              #  46, 1 Item
    (0028,0103) US 0                                        #   2, 1 PixelRepresentation
    (0028,3002) US 65535                                    #   2, 1 LUTDescriptor
    (0028,3010) SQ (Sequence with explicit length)          #  18, 1 VOILUTSequence
      (fffe,e000) na (Item with explicit length)              #  10, 1 Item
        (0028,3002) US 65535                                    #   2, 1 LUTDescriptor
      (fffe,e00d) na (ItemDelimitationItem for re-encoding)   #   0, 0 ItemDelimitationItem
    (fffe,e0dd) na (SequenceDelimitationItem for re-encod.) #   0, 0 SequenceDelimitationItem
  (fffe,e00d) na (ItemDelimitationItem for re-encoding)   #   0, 0 ItemDelimitationItem
  (fffe,e000) na (Item with explicit length)              #  34, 1 Item
    (0028,0103) US (no value available)                     #   0, 0 PixelRepresentation
    (0028,3010) SQ (Sequence with explicit length)          #  18, 1 VOILUTSequence
      (fffe,e000) na (Item with explicit length)              #  10, 1 Item
        (0028,3002) US 65535                                    #   2, 1 LUTDescriptor
      (fffe,e00d) na (ItemDelimitationItem for re-encoding)   #   0, 0 ItemDelimitationItem
    (fffe,e0dd) na (SequenceDelimitationItem for re-encod.) #   0, 0 SequenceDelimitationItem
  (fffe,e00d) na (ItemDelimitationItem for re-encoding)   #   0, 0 ItemDelimitationItem
  (fffe,e000) na (Item with explicit length)              #  26, 1 Item
    (0028,3010) SQ (Sequence with explicit length)          #  18, 1 VOILUTSequence
      (fffe,e000) na (Item with explicit length)              #  10, 1 Item
        (0028,3002) SS -1                                       #   2, 1 LUTDescriptor
      (fffe,e00d) na (ItemDelimitationItem for re-encoding)   #   0, 0 ItemDelimitationItem
    (fffe,e0dd) na (SequenceDelimitationItem for re-encod.) #   0, 0 SequenceDelimitationItem
  (fffe,e00d) na (ItemDelimitationItem for re-encoding)   #   0, 0 ItemDelimitationItem
(fffe,e0dd) na (SequenceDelimitationItem for re-encod.) #   0, 0 SequenceDelimitationItem
(0040,9211) SS -1                                       #   2, 1 RealWorldValueLastValueMapped
",
        ..EMPTY
    },
    Row {
        name: "PixelRepresentation twice, and an element before both",
        words: "dcmdump +dict -",
        start: Start::Implicit,
        input: b"(\0\x06\x01\x02\0\0\0\xff\xff(\0\x03\x01\x02\0\0\0\x01\0(\0\x06\x01\x02\0\0\0\xff\xff(\0\x03\x01\x02\0\0\0\0\0(\0\x06\x01\x02\0\0\0\xff\xff",
        header: Start::Implicit,
        lines: b"\
(0028,0106) US 65535                                    #   2, 1 SmallestImagePixelValue
(0028,0103) US 1                                        #   2, 1 PixelRepresentation
(0028,0106) SS -1                                       #   2, 1 SmallestImagePixelValue
(0028,0103) US 0                                        #   2, 1 PixelRepresentation
(0028,0106) US 65535                                    #   2, 1 SmallestImagePixelValue
",
        ..EMPTY
    },
    Row {
        name: "an element between two representations of undefined length",
        words: "dcmdump +dict -",
        start: Start::Implicit,
        input: b"(\0\x06\x01\xff\xff\xff\xff\xfe\xff\xdd\xe0\0\0\0\0",
        header: Start::Implicit,
        status: 2,
        told: b"dcmtools: R8 at byte 170: undefined length not allowed\n",
        ..EMPTY
    },
];

/// PixelRepresentation of a big endian file, and implicit items by it.
static BIG_SIGNS: [Row; 7] = [
    Row {
        name: "a number of one",
        words: "dcmconv +dict - -",
        start: Start::Big,
        input: b"\0(\x01\x03US\0\x02\0\x01\0(0\0UN\0\0\0\0\0J\xfe\xff\0\xe0\n\0\0\0(\0\x020\x02\0\0\0\xfe\xff\xfe\xff\0\xe0\x14\0\0\0(\0\x03\x01\x02\0\0\0\0\x01(\0\x020\x02\0\0\0\xfe\xff\xfe\xff\0\xe0\x14\0\0\0(\0\x03\x01\x02\0\0\0\x01\0(\0\x020\x02\0\0\0\xfe\xff",
        header: Start::Big,
        lines: b"\0(\x01\x03US\0\x02\0\x01\0(0\0SQ\0\0\xff\xff\xff\xff\xff\xfe\xe0\0\xff\xff\xff\xff\0(0\x02SS\0\x02\xff\xfe\xff\xfe\xe0\x0d\0\0\0\0\xff\xfe\xe0\0\xff\xff\xff\xff\0(\x01\x03US\0\x02\x01\0\0(0\x02US\0\x02\xff\xfe\xff\xfe\xe0\x0d\0\0\0\0\xff\xfe\xe0\0\xff\xff\xff\xff\0(\x01\x03US\0\x02\0\x01\0(0\x02SS\0\x02\xff\xfe\xff\xfe\xe0\x0d\0\0\0\0\xff\xfe\xe0\xdd\0\0\0\0",
        ..EMPTY
    },
    Row {
        name: "a number of 256",
        words: "dcmconv +dict - -",
        start: Start::Big,
        input: b"\0(\x01\x03US\0\x02\x01\0\0(0\0UN\0\0\0\0\0J\xfe\xff\0\xe0\n\0\0\0(\0\x020\x02\0\0\0\xfe\xff\xfe\xff\0\xe0\x14\0\0\0(\0\x03\x01\x02\0\0\0\0\x01(\0\x020\x02\0\0\0\xfe\xff\xfe\xff\0\xe0\x14\0\0\0(\0\x03\x01\x02\0\0\0\x01\0(\0\x020\x02\0\0\0\xfe\xff",
        header: Start::Big,
        lines: b"\0(\x01\x03US\0\x02\x01\0\0(0\0SQ\0\0\xff\xff\xff\xff\xff\xfe\xe0\0\xff\xff\xff\xff\0(0\x02US\0\x02\xff\xfe\xff\xfe\xe0\x0d\0\0\0\0\xff\xfe\xe0\0\xff\xff\xff\xff\0(\x01\x03US\0\x02\x01\0\0(0\x02US\0\x02\xff\xfe\xff\xfe\xe0\x0d\0\0\0\0\xff\xfe\xe0\0\xff\xff\xff\xff\0(\x01\x03US\0\x02\0\x01\0(0\x02SS\0\x02\xff\xfe\xff\xfe\xe0\x0d\0\0\0\0\xff\xfe\xe0\xdd\0\0\0\0",
        ..EMPTY
    },
    Row {
        name: "unknown bytes that are one in little endian",
        words: "dcmconv +dict - -",
        start: Start::Big,
        input: b"\0(\x01\x03UN\0\0\0\0\0\x02\x01\0\0(0\0UN\0\0\0\0\0J\xfe\xff\0\xe0\n\0\0\0(\0\x020\x02\0\0\0\xfe\xff\xfe\xff\0\xe0\x14\0\0\0(\0\x03\x01\x02\0\0\0\0\x01(\0\x020\x02\0\0\0\xfe\xff\xfe\xff\0\xe0\x14\0\0\0(\0\x03\x01\x02\0\0\0\x01\0(\0\x020\x02\0\0\0\xfe\xff",
        header: Start::Big,
        lines: b"\0(\x01\x03UN\0\0\0\0\0\x02\x01\0\0(0\0SQ\0\0\xff\xff\xff\xff\xff\xfe\xe0\0\xff\xff\xff\xff\0(0\x02SS\0\x02\xff\xfe\xff\xfe\xe0\x0d\0\0\0\0\xff\xfe\xe0\0\xff\xff\xff\xff\0(\x01\x03US\0\x02\x01\0\0(0\x02US\0\x02\xff\xfe\xff\xfe\xe0\x0d\0\0\0\0\xff\xfe\xe0\0\xff\xff\xff\xff\0(\x01\x03US\0\x02\0\x01\0(0\x02SS\0\x02\xff\xfe\xff\xfe\xe0\x0d\0\0\0\0\xff\xfe\xe0\xdd\0\0\0\0",
        ..EMPTY
    },
    Row {
        name: "unknown bytes that are one in big endian",
        words: "dcmconv +dict - -",
        start: Start::Big,
        input: b"\0(\x01\x03UN\0\0\0\0\0\x02\0\x01\0(0\0UN\0\0\0\0\0J\xfe\xff\0\xe0\n\0\0\0(\0\x020\x02\0\0\0\xfe\xff\xfe\xff\0\xe0\x14\0\0\0(\0\x03\x01\x02\0\0\0\0\x01(\0\x020\x02\0\0\0\xfe\xff\xfe\xff\0\xe0\x14\0\0\0(\0\x03\x01\x02\0\0\0\x01\0(\0\x020\x02\0\0\0\xfe\xff",
        header: Start::Big,
        lines: b"\0(\x01\x03UN\0\0\0\0\0\x02\0\x01\0(0\0SQ\0\0\xff\xff\xff\xff\xff\xfe\xe0\0\xff\xff\xff\xff\0(0\x02US\0\x02\xff\xfe\xff\xfe\xe0\x0d\0\0\0\0\xff\xfe\xe0\0\xff\xff\xff\xff\0(\x01\x03US\0\x02\x01\0\0(0\x02US\0\x02\xff\xfe\xff\xfe\xe0\x0d\0\0\0\0\xff\xfe\xe0\0\xff\xff\xff\xff\0(\x01\x03US\0\x02\0\x01\0(0\x02SS\0\x02\xff\xfe\xff\xfe\xe0\x0d\0\0\0\0\xff\xfe\xe0\xdd\0\0\0\0",
        ..EMPTY
    },
    Row {
        name: "a long number that is 65536",
        words: "dcmconv +dict - -",
        start: Start::Big,
        input: b"\0(\x01\x03UL\0\x04\0\x01\0\0\0(0\0UN\0\0\0\0\0J\xfe\xff\0\xe0\n\0\0\0(\0\x020\x02\0\0\0\xfe\xff\xfe\xff\0\xe0\x14\0\0\0(\0\x03\x01\x02\0\0\0\0\x01(\0\x020\x02\0\0\0\xfe\xff\xfe\xff\0\xe0\x14\0\0\0(\0\x03\x01\x02\0\0\0\x01\0(\0\x020\x02\0\0\0\xfe\xff",
        header: Start::Big,
        lines: b"\0(\x01\x03UL\0\x04\0\x01\0\0\0(0\0SQ\0\0\xff\xff\xff\xff\xff\xfe\xe0\0\xff\xff\xff\xff\0(0\x02US\0\x02\xff\xfe\xff\xfe\xe0\x0d\0\0\0\0\xff\xfe\xe0\0\xff\xff\xff\xff\0(\x01\x03US\0\x02\x01\0\0(0\x02US\0\x02\xff\xfe\xff\xfe\xe0\x0d\0\0\0\0\xff\xfe\xe0\0\xff\xff\xff\xff\0(\x01\x03US\0\x02\0\x01\0(0\x02SS\0\x02\xff\xfe\xff\xfe\xe0\x0d\0\0\0\0\xff\xfe\xe0\xdd\0\0\0\0",
        ..EMPTY
    },
    Row {
        name: "a long number of one",
        words: "dcmconv +dict - -",
        start: Start::Big,
        input: b"\0(\x01\x03UL\0\x04\0\0\0\x01\0(0\0UN\0\0\0\0\0J\xfe\xff\0\xe0\n\0\0\0(\0\x020\x02\0\0\0\xfe\xff\xfe\xff\0\xe0\x14\0\0\0(\0\x03\x01\x02\0\0\0\0\x01(\0\x020\x02\0\0\0\xfe\xff\xfe\xff\0\xe0\x14\0\0\0(\0\x03\x01\x02\0\0\0\x01\0(\0\x020\x02\0\0\0\xfe\xff",
        header: Start::Big,
        lines: b"\0(\x01\x03UL\0\x04\0\0\0\x01\0(0\0SQ\0\0\xff\xff\xff\xff\xff\xfe\xe0\0\xff\xff\xff\xff\0(0\x02SS\0\x02\xff\xfe\xff\xfe\xe0\x0d\0\0\0\0\xff\xfe\xe0\0\xff\xff\xff\xff\0(\x01\x03US\0\x02\x01\0\0(0\x02US\0\x02\xff\xfe\xff\xfe\xe0\x0d\0\0\0\0\xff\xfe\xe0\0\xff\xff\xff\xff\0(\x01\x03US\0\x02\0\x01\0(0\x02SS\0\x02\xff\xfe\xff\xfe\xe0\x0d\0\0\0\0\xff\xfe\xe0\xdd\0\0\0\0",
        ..EMPTY
    },
    Row {
        name: "a text of two bytes",
        words: "dcmconv +dict - -",
        start: Start::Big,
        input: b"\0(\x01\x03LO\0\x02\x01\0\0(0\0UN\0\0\0\0\0J\xfe\xff\0\xe0\n\0\0\0(\0\x020\x02\0\0\0\xfe\xff\xfe\xff\0\xe0\x14\0\0\0(\0\x03\x01\x02\0\0\0\0\x01(\0\x020\x02\0\0\0\xfe\xff\xfe\xff\0\xe0\x14\0\0\0(\0\x03\x01\x02\0\0\0\x01\0(\0\x020\x02\0\0\0\xfe\xff",
        header: Start::Big,
        lines: b"\0(\x01\x03LO\0\x02\x01\0\0(0\0SQ\0\0\xff\xff\xff\xff\xff\xfe\xe0\0\xff\xff\xff\xff\0(0\x02SS\0\x02\xff\xfe\xff\xfe\xe0\x0d\0\0\0\0\xff\xfe\xe0\0\xff\xff\xff\xff\0(\x01\x03US\0\x02\x01\0\0(0\x02US\0\x02\xff\xfe\xff\xfe\xe0\x0d\0\0\0\0\xff\xfe\xe0\0\xff\xff\xff\xff\0(\x01\x03US\0\x02\0\x01\0(0\x02SS\0\x02\xff\xfe\xff\xfe\xe0\x0d\0\0\0\0\xff\xfe\xe0\xdd\0\0\0\0",
        ..EMPTY
    },
];

/// Conversions of signed values, there and back.
static CONVERSIONS: [Row; 8] = [
    Row {
        name: "signed values from implicit to little endian",
        words: "dcmconv +dict +te - -",
        start: Start::Implicit,
        input: b"(\0\x03\x01\x02\0\0\0\x01\0(\0\x06\x01\x02\0\0\0\xfe\xff(\0\00\x1c\0\0\0\xfe\xff\0\xe0\x14\0\0\0(\0\x020\x02\0\0\0\xfe\xff(\0\x060\x02\0\0\0\x01\x02\0T\x10\x10\x02\0\0\0\x01\x02",
        header: Start::ExplicitLittle,
        lines: b"(\0\x03\x01US\x02\0\x01\0(\0\x06\x01SS\x02\0\xfe\xff(\0\00SQ\0\0\xff\xff\xff\xff\xfe\xff\0\xe0\xff\xff\xff\xff(\0\x020SS\x02\0\xfe\xff(\0\x060OW\0\0\x02\0\0\0\x01\x02\xfe\xff\x0d\xe0\0\0\0\0\xfe\xff\xdd\xe0\0\0\0\0\0T\x10\x10OW\0\0\x02\0\0\0\x01\x02",
        ..EMPTY
    },
    Row {
        name: "signed values from implicit to big endian",
        words: "dcmconv +dict +tb - -",
        start: Start::Implicit,
        input: b"(\0\x03\x01\x02\0\0\0\x01\0(\0\x06\x01\x02\0\0\0\xfe\xff(\0\00\x1c\0\0\0\xfe\xff\0\xe0\x14\0\0\0(\0\x020\x02\0\0\0\xfe\xff(\0\x060\x02\0\0\0\x01\x02\0T\x10\x10\x02\0\0\0\x01\x02",
        header: Start::Big,
        lines: b"\0(\x01\x03US\0\x02\0\x01\0(\x01\x06SS\0\x02\xff\xfe\0(0\0SQ\0\0\xff\xff\xff\xff\xff\xfe\xe0\0\xff\xff\xff\xff\0(0\x02SS\0\x02\xff\xfe\0(0\x06OW\0\0\0\0\0\x02\x02\x01\xff\xfe\xe0\x0d\0\0\0\0\xff\xfe\xe0\xdd\0\0\0\0T\0\x10\x10OW\0\0\0\0\0\x02\x02\x01",
        ..EMPTY
    },
    Row {
        name: "signed values in implicit",
        words: "dcmconv +dict +t= - -",
        start: Start::Implicit,
        input: b"(\0\x03\x01\x02\0\0\0\x01\0(\0\x06\x01\x02\0\0\0\xfe\xff(\0\00\x1c\0\0\0\xfe\xff\0\xe0\x14\0\0\0(\0\x020\x02\0\0\0\xfe\xff(\0\x060\x02\0\0\0\x01\x02\0T\x10\x10\x02\0\0\0\x01\x02",
        header: Start::Implicit,
        lines: b"(\0\x03\x01\x02\0\0\0\x01\0(\0\x06\x01\x02\0\0\0\xfe\xff(\0\00\xff\xff\xff\xff\xfe\xff\0\xe0\xff\xff\xff\xff(\0\x020\x02\0\0\0\xfe\xff(\0\x060\x02\0\0\0\x01\x02\xfe\xff\x0d\xe0\0\0\0\0\xfe\xff\xdd\xe0\0\0\0\0\0T\x10\x10\x02\0\0\0\x01\x02",
        ..EMPTY
    },
    Row {
        name: "signed values from little endian to implicit",
        words: "dcmconv +dict +ti - -",
        start: Start::ExplicitLittle,
        input: b"(\0\x03\x01US\x02\0\x01\0(\0\x06\x01SS\x02\0\xfe\xff(\0\00SQ\0\0\xff\xff\xff\xff\xfe\xff\0\xe0\xff\xff\xff\xff(\0\x020SS\x02\0\xfe\xff(\0\x060OW\0\0\x02\0\0\0\x01\x02\xfe\xff\x0d\xe0\0\0\0\0\xfe\xff\xdd\xe0\0\0\0\0\0T\x10\x10OW\0\0\x02\0\0\0\x01\x02",
        header: Start::Implicit,
        lines: b"(\0\x03\x01\x02\0\0\0\x01\0(\0\x06\x01\x02\0\0\0\xfe\xff(\0\00\xff\xff\xff\xff\xfe\xff\0\xe0\xff\xff\xff\xff(\0\x020\x02\0\0\0\xfe\xff(\0\x060\x02\0\0\0\x01\x02\xfe\xff\x0d\xe0\0\0\0\0\xfe\xff\xdd\xe0\0\0\0\0\0T\x10\x10\x02\0\0\0\x01\x02",
        ..EMPTY
    },
    Row {
        name: "signed values from little to big endian",
        words: "dcmconv +dict +tb - -",
        start: Start::ExplicitLittle,
        input: b"(\0\x03\x01US\x02\0\x01\0(\0\x06\x01SS\x02\0\xfe\xff(\0\00SQ\0\0\xff\xff\xff\xff\xfe\xff\0\xe0\xff\xff\xff\xff(\0\x020SS\x02\0\xfe\xff(\0\x060OW\0\0\x02\0\0\0\x01\x02\xfe\xff\x0d\xe0\0\0\0\0\xfe\xff\xdd\xe0\0\0\0\0\0T\x10\x10OW\0\0\x02\0\0\0\x01\x02",
        header: Start::Big,
        lines: b"\0(\x01\x03US\0\x02\0\x01\0(\x01\x06SS\0\x02\xff\xfe\0(0\0SQ\0\0\xff\xff\xff\xff\xff\xfe\xe0\0\xff\xff\xff\xff\0(0\x02SS\0\x02\xff\xfe\0(0\x06OW\0\0\0\0\0\x02\x02\x01\xff\xfe\xe0\x0d\0\0\0\0\xff\xfe\xe0\xdd\0\0\0\0T\0\x10\x10OW\0\0\0\0\0\x02\x02\x01",
        ..EMPTY
    },
    Row {
        name: "signed values from big endian to implicit",
        words: "dcmconv +dict +ti - -",
        start: Start::Big,
        input: b"\0(\x01\x03US\0\x02\0\x01\0(\x01\x06SS\0\x02\xff\xfe\0(0\0SQ\0\0\xff\xff\xff\xff\xff\xfe\xe0\0\xff\xff\xff\xff\0(0\x02SS\0\x02\xff\xfe\0(0\x06OW\0\0\0\0\0\x02\x02\x01\xff\xfe\xe0\x0d\0\0\0\0\xff\xfe\xe0\xdd\0\0\0\0T\0\x10\x10OW\0\0\0\0\0\x02\x02\x01",
        header: Start::Implicit,
        lines: b"(\0\x03\x01\x02\0\0\0\x01\0(\0\x06\x01\x02\0\0\0\xfe\xff(\0\00\xff\xff\xff\xff\xfe\xff\0\xe0\xff\xff\xff\xff(\0\x020\x02\0\0\0\xfe\xff(\0\x060\x02\0\0\0\x01\x02\xfe\xff\x0d\xe0\0\0\0\0\xfe\xff\xdd\xe0\0\0\0\0\0T\x10\x10\x02\0\0\0\x01\x02",
        ..EMPTY
    },
    Row {
        name: "signed values from big to little endian",
        words: "dcmconv +dict +te - -",
        start: Start::Big,
        input: b"\0(\x01\x03US\0\x02\0\x01\0(\x01\x06SS\0\x02\xff\xfe\0(0\0SQ\0\0\xff\xff\xff\xff\xff\xfe\xe0\0\xff\xff\xff\xff\0(0\x02SS\0\x02\xff\xfe\0(0\x06OW\0\0\0\0\0\x02\x02\x01\xff\xfe\xe0\x0d\0\0\0\0\xff\xfe\xe0\xdd\0\0\0\0T\0\x10\x10OW\0\0\0\0\0\x02\x02\x01",
        header: Start::ExplicitLittle,
        lines: b"(\0\x03\x01US\x02\0\x01\0(\0\x06\x01SS\x02\0\xfe\xff(\0\00SQ\0\0\xff\xff\xff\xff\xfe\xff\0\xe0\xff\xff\xff\xff(\0\x020SS\x02\0\xfe\xff(\0\x060OW\0\0\x02\0\0\0\x01\x02\xfe\xff\x0d\xe0\0\0\0\0\xfe\xff\xdd\xe0\0\0\0\0\0T\x10\x10OW\0\0\x02\0\0\0\x01\x02",
        ..EMPTY
    },
    Row {
        name: "signed values in implicit, once more",
        words: "dcmconv +dict +ti - -",
        start: Start::Implicit,
        input: b"(\0\x03\x01\x02\0\0\0\x01\0(\0\x06\x01\x02\0\0\0\xfe\xff(\0\00\xff\xff\xff\xff\xfe\xff\0\xe0\xff\xff\xff\xff(\0\x020\x02\0\0\0\xfe\xff(\0\x060\x02\0\0\0\x01\x02\xfe\xff\x0d\xe0\0\0\0\0\xfe\xff\xdd\xe0\0\0\0\0\0T\x10\x10\x02\0\0\0\x01\x02",
        header: Start::Implicit,
        lines: b"(\0\x03\x01\x02\0\0\0\x01\0(\0\x06\x01\x02\0\0\0\xfe\xff(\0\00\xff\xff\xff\xff\xfe\xff\0\xe0\xff\xff\xff\xff(\0\x020\x02\0\0\0\xfe\xff(\0\x060\x02\0\0\0\x01\x02\xfe\xff\x0d\xe0\0\0\0\0\xfe\xff\xdd\xe0\0\0\0\0\0T\x10\x10\x02\0\0\0\x01\x02",
        ..EMPTY
    },
];

/// Values by the sign of the pixels.
pub fn signs() -> [&'static [Row]; 3] {
    [&DUMPS, &BIG_SIGNS, &CONVERSIONS]
}
