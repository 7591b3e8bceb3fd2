// The bytes of an input (PS3.5 7, PS3.10 7.1).
ghost use Rattle.std.specs.Prelude.{◌<◌, ◌^◌};

use std::alloc::{AllocError, Global};

/// A syntax of data sets.
#[derive(Clone, Copy)]
pub enum Spelling {
    Implicit,
    Little,
    Big,
}

/// The length that is not said (PS3.5 7.1.1).
const UNDEFINED: u32 = 0xFFFF_FFFF;

/// No value is longer.
const MOST_BYTES: usize = 1 << 24;

/// An item, and the ends of an item and of a sequence (PS3.5 7.5).
const ITEM: u32 = 0xFFFE_E000;

const ITEM_END: u32 = 0xFFFE_E00D;

const SEQUENCE_END: u32 = 0xFFFE_E0DD;

/// The preamble of a file.
const PREAMBLE: [u8; 128] = [0; 128];

/// A transfer syntax that is encapsulated: JPEG baseline.
const JPEG: &[u8] = b"1.2.840.10008.1.2.4.50";

impl Spelling {
    /// The unique identifier of its transfer syntax.
    fn uid(self) -> &'static [u8] {
        match self {
            Spelling::Implicit => b"1.2.840.10008.1.2",
            Spelling::Little => b"1.2.840.10008.1.2.1",
            Spelling::Big => b"1.2.840.10008.1.2.2",
        }
    }
}

/// A file that grows.
#[derive(Drop)]
pub struct DataSet {
    bytes: Vec<u8>,
    spelling: Spelling,
}

/// Whether a head has a length of four bytes (PS3.5 7.1.2).
fn is_long(vr: &[u8; 2]) -> bool {
    matches!(
        vr,
        b"OB" | b"OD" | b"OF" | b"OL" | b"OW" | b"SQ" | b"UC" | b"UN" | b"UR" | b"UT"
    )
}

/// The byte that makes a value even.
fn pad(vr: &[u8; 2]) -> u8 {
    if is_long(vr) && vr != b"UT" && vr != b"UC" || vr == b"UI" {
        0
    } else {
        b' '
    }
}

/// The size of a value, as a head says it.
fn size_of(value: &[u8]) -> u32
    ensures { result < 2 ^ 24 }
{
    (value.len() % MOST_BYTES) as u32
}

impl DataSet {
    /// No byte yet.
    pub fn new(alloc: Global, spelling: Spelling, room: usize) -> Result<DataSet, AllocError> {
        Ok(DataSet {
            bytes: Vec::with_capacity(alloc, room)?,
            spelling,
        })
    }

    /// All its bytes.
    pub fn bytes(&self) -> &[u8] {
        self.bytes.as_slice()
    }

    /// All its bytes, given away.
    pub fn into_bytes(self) -> Vec<u8> {
        self.bytes
    }

    /// No byte again.
    pub fn clear(&mut self) {
        self.bytes.clear();
    }

    /// Bytes as they are.
    pub fn put(&mut self, bytes: &[u8]) -> Result<(), AllocError> {
        self.bytes.extend_from_slice(bytes)
    }

    fn short(&self, number: u16) -> [u8; 2] {
        match self.spelling {
            Spelling::Implicit | Spelling::Little => number.to_le_bytes(),
            Spelling::Big => number.to_be_bytes(),
        }
    }

    fn long(&self, number: u32) -> [u8; 4] {
        match self.spelling {
            Spelling::Implicit | Spelling::Little => number.to_le_bytes(),
            Spelling::Big => number.to_be_bytes(),
        }
    }

    /// A head without a representation.
    fn plain_head(&mut self, tag: u32, length: u32) -> Result<(), AllocError> {
        let [a, b] = self.short((tag / 0x1_0000) as u16);
        let [c, d] = self.short((tag % 0x1_0000) as u16);
        let [e, f, g, h] = self.long(length);
        self.put(&[a, b, c, d, e, f, g, h])
    }

    /// A head with a representation.
    fn explicit_head(&mut self, tag: u32, vr: &[u8; 2], length: u32) -> Result<(), AllocError> {
        let [a, b] = self.short((tag / 0x1_0000) as u16);
        let [c, d] = self.short((tag % 0x1_0000) as u16);
        if is_long(vr) {
            let [e, f, g, h] = self.long(length);
            return self.put(&[a, b, c, d, vr[0], vr[1], 0, 0, e, f, g, h]);
        }
        let [e, f] = self.short((length % 0x1_0000) as u16);
        self.put(&[a, b, c, d, vr[0], vr[1], e, f])
    }

    fn head(&mut self, tag: u32, vr: &[u8; 2], length: u32) -> Result<(), AllocError> {
        match self.spelling {
            Spelling::Implicit => self.plain_head(tag, length),
            Spelling::Little | Spelling::Big => self.explicit_head(tag, vr, length),
        }
    }

    /// An element with a value, made even.
    pub fn leaf(&mut self, tag: u32, vr: &[u8; 2], value: &[u8]) -> Result<(), AllocError> {
        let size = size_of(value);
        let odd = size % 2;
        self.head(tag, vr, size + odd)?;
        self.put(value)?;
        if odd == 1 {
            self.put(&[pad(vr)])?;
        }
        Ok(())
    }

    /// An element with a number of two bytes.
    pub fn leaf_short(&mut self, tag: u32, vr: &[u8; 2], number: u16) -> Result<(), AllocError> {
        let value = self.short(number);
        self.leaf(tag, vr, &value)
    }

    /// An element with a number of four bytes.
    pub fn leaf_long(&mut self, tag: u32, vr: &[u8; 2], number: u32) -> Result<(), AllocError> {
        let value = self.long(number);
        self.leaf(tag, vr, &value)
    }

    /// A sequence of undefined length begins.
    pub fn begin_sequence(&mut self, tag: u32) -> Result<(), AllocError> {
        self.head(tag, b"SQ", UNDEFINED)
    }

    /// The sequence or the fragment list ends.
    pub fn end_sequence(&mut self) -> Result<(), AllocError> {
        self.plain_head(SEQUENCE_END, 0)
    }

    /// An item of undefined length begins.
    pub fn begin_item(&mut self) -> Result<(), AllocError> {
        self.plain_head(ITEM, UNDEFINED)
    }

    /// The item ends.
    pub fn end_item(&mut self) -> Result<(), AllocError> {
        self.plain_head(ITEM_END, 0)
    }

    /// A sequence of known length with one item of known length, whose elements are these.
    pub fn known_sequence(&mut self, tag: u32, elements: &DataSet) -> Result<(), AllocError> {
        let size = size_of(elements.bytes());
        self.head(tag, b"SQ", size + 8)?;
        self.plain_head(ITEM, size)?;
        self.put(elements.bytes())
    }

    /// An item with no element.
    pub fn empty_item(&mut self) -> Result<(), AllocError> {
        self.plain_head(ITEM, 0)
    }

    /// A fragment list begins.
    pub fn begin_fragments(&mut self, tag: u32) -> Result<(), AllocError> {
        self.head(tag, b"OB", UNDEFINED)?;
        self.plain_head(ITEM, 0)
    }

    /// A fragment.
    pub fn fragment(&mut self, value: &[u8]) -> Result<(), AllocError> {
        self.plain_head(ITEM, size_of(value))?;
        self.put(value)
    }
}

/// A file in a syntax, with preamble, prefix and meta group (PS3.10 7.1), and no element yet.
pub fn file(
    alloc: Global,
    spelling: Spelling,
    instance: &[u8],
    room: usize,
) -> Result<DataSet, AllocError> {
    file_with(alloc, spelling, spelling.uid(), instance, room)
}

/// A file whose pixels are compressed.
pub fn compressed_file(alloc: Global, instance: &[u8], room: usize) -> Result<DataSet, AllocError> {
    file_with(alloc, Spelling::Little, JPEG, instance, room)
}

fn file_with(
    alloc: Global,
    spelling: Spelling,
    syntax: &[u8],
    instance: &[u8],
    room: usize,
) -> Result<DataSet, AllocError> {
    let mut group = DataSet::new(alloc, Spelling::Little, 256)?;
    group.leaf(0x0002_0001, b"OB", &[0, 1])?;
    group.leaf(0x0002_0002, b"UI", b"1.2.840.10008.5.1.4.1.1.4")?;
    group.leaf(0x0002_0003, b"UI", instance)?;
    group.leaf(0x0002_0010, b"UI", syntax)?;
    group.leaf(0x0002_0012, b"UI", b"2.25.4711")?;
    let mut file = DataSet::new(alloc, Spelling::Little, room)?;
    file.put(&PREAMBLE)?;
    file.put(b"DICM")?;
    file.leaf_long(0x0002_0000, b"UL", size_of(group.bytes()))?;
    file.put(group.bytes())?;
    file.spelling = spelling;
    Ok(file)
}
