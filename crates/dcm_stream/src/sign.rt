// The sign of the pixels, by PixelRepresentation (PS3.3 C.7.6.3.1.4).
ghost use Rattle.std.specs.Prelude.{◌≡◌, ◌==◌, ◌&&◌, ◌∷◌, ◌++◌, [], bytes_eq, take};
ghost use Rattle.dcm_base.specs.Bytes.Spelling as spelling;
ghost use Rattle.dcm_base.specs.Tables.Dictionary as tables;
ghost use Rattle.dcm_base.specs.Tree.Value.{evened, order};
ghost use Rattle.dcm_stream.specs.Reading as spec;
ghost use Rattle.dcm_stream.specs.Machine.{sign_held};

use arrayvec::ArrayVec;
use dcm_base::{Dictionary, Syntax, Tag, Vr};

/// PixelRepresentation.
const PIXEL_REPRESENTATION: Tag = Tag {
    group: 0x0028,
    element: 0x0103,
};

/// The most bytes of a unit, so that they tell how a value begins in little endian order.
const SIGN_BYTES: usize = 8;

/// PixelRepresentation that is open: its representation, and the first bytes of its value, as they come.
#[derive(Clone, Drop)]
pub struct OpenSign {
    vr: Vr,
    first: ArrayVec<u8, SIGN_BYTES>,
}

/// Whether an element says whether pixels are signed.
pub fn says_sign(tag: Tag) -> bool
    ensures { result ≡ spelling.says_sign tag }
{
    tag == PIXEL_REPRESENTATION
}

/// Whether these are the bytes of one.
fn are_one(low: u8, high: u8) -> bool
    ensures { result ≡ (low == 1) && (high == 0) }
{
    low == 1 && high == 0
}

/// Whether bytes in little endian order begin with those of one.
fn begin_one(bytes: &[u8], pad: u8) -> bool
    ensures { result ≡ bytes_eq (take 2 (evened pad bytes.now)) (1 ∷ 0 ∷ []) }
{
    match bytes {
        [low, high, ..] => are_one(*low, *high),
        [low] => are_one(*low, pad),
        [] => false,
    }
}

/// Whether a value that begins with these bytes begins with those of one as little endian writes it.
fn is_one(syntax: Syntax, vr: Vr, first: &[u8]) -> bool
    ensures { result ≡ spelling.is_one vr (order syntax vr first.now) }
{
    let unit = vr.unit();
    if syntax.is_big() && unit > 1 && first.len() >= unit {
        return are_one(first[unit - 1], first[unit - 2]);
    }
    begin_one(first, vr.pad())
}

/// A dictionary where pixels are signed, or are not.
fn if_signed(signed: bool, dictionary: Dictionary) -> Dictionary
    ensures { result ≡ tables.if_signed signed dictionary }
{
    match dictionary {
        Dictionary::Extract => Dictionary::Extract,
        Dictionary::Standard | Dictionary::Signed => {
            if signed {
                Dictionary::Signed
            } else {
                Dictionary::Standard
            }
        }
    }
}

impl OpenSign {
    /// The value of PixelRepresentation before its first byte.
    pub fn new(vr: Vr) -> Self
        ensures { sign_held result ≡ record { vr = vr; first = [] } }
    {
        OpenSign {
            vr,
            first: ArrayVec::new(),
        }
    }

    /// Adds bytes of the value.
    #[inline(never)]
    pub fn read(&mut self, bytes: &[u8])
        ensures { sign_held self.new ≡ record { vr = self.old.vr; first = take 8 (self.old.first.items ++ bytes.now) } }
    {
        let n = bytes.len().min(SIGN_BYTES - self.first.len());
        let (some, _) = bytes.split_at(n);
        let _ = self.first.try_extend_from_slice(some);
    }

    /// The syntax by which elements behind PixelRepresentation are read.
    pub fn syntax_after(&self, syntax: Syntax) -> Syntax
        ensures { result ≡ spec.signed_by (sign_held self.now) syntax }
    {
        let signed = is_one(syntax, self.vr, self.first.as_slice());
        syntax.read_by(if_signed(signed, syntax.dictionary()))
    }
}
