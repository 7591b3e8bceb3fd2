// The value of an open element that has to be known when it ends.
ghost use Rattle.std.specs.Prelude.{◌≡◌, ◌≤◌, ◌+◌, ◌++◌, fold, length};
ghost use Rattle.dcm_base.specs.Tree.Value.{order};
ghost use Rattle.dcm_deid.specs.DeidentifySink as spec;
ghost use Rattle.dcm_deid.specs.Deidentifying.{held};
ghost use Rattle.dcm_deid.specs.MadeNew.{made_new};

use crate::fate::{Fate, Options};
use crate::key::{UidKey, vanish};
use arrayvec::ArrayVec;
use dcm_base::{Syntax, Tag, Vr};
use dcm_dates::MOST_HELD;
use dcm_head::{is_pad, without_pads};
use dcm_value::swap;

/// The value of an open element, and what becomes of it: its first bytes, and whether it is longer, its padding aside.
#[derive(Drop)]
pub struct HeldValue {
    pub fate: Fate,
    pub tag: Tag,
    pub vr: Vr,
    pub syntax: Syntax,
    pub bytes: ArrayVec<u8, MOST_HELD>,
    pub is_longer: bool,
}

/// The same bytes once more.
fn copied(bytes: &ArrayVec<u8, MOST_HELD>) -> ArrayVec<u8, MOST_HELD>
    ensures { result.items ≡ bytes.now.items }
{
    let mut copy = ArrayVec::new();
    match copy.try_extend_from_slice(bytes.as_slice()) {
        Ok(()) => copy,
        Err(_) => unreachable!(),
    }
}

impl HeldValue {
    /// The value of an element of which no byte has come.
    pub fn new(fate: Fate, tag: Tag, vr: Vr, syntax: Syntax) -> HeldValue
        ensures { held result ≡ spec.nothing_held fate tag vr syntax }
    {
        HeldValue {
            fate,
            tag,
            vr,
            syntax,
            bytes: ArrayVec::new(),
            is_longer: false,
        }
    }

    /// One more byte.
    fn add_byte(&mut self, byte: u8)
        ensures { held self.new ≡ spec.held_with (held self.old) byte }
    {
        if self.bytes.len() < MOST_HELD {
            self.bytes.push(byte);
        } else if !is_pad(byte) {
            self.is_longer = true;
        }
    }

    /// Adds bytes.
    pub fn add(&mut self, bytes: &[u8])
        ensures { held self.new ≡ fold spec.held_with (held self.old) bytes.now }
    {
        for byte in bytes {
            self.add_byte(*byte);
        }
    }

    /// The first bytes, in little endian order.
    pub fn ordered(&self) -> ArrayVec<u8, MOST_HELD>
        ensures { result.items ≡ order self.now.syntax self.now.vr self.now.bytes.items }
    {
        let mut value = copied(&self.bytes);
        if self.syntax.is_big() {
            swap(self.vr.unit(), value.as_mut_slice());
        }
        value
    }

    /// The new value, padded to an even number of bytes.
    pub fn new_value(&self, options: &Options, key: &UidKey) -> ArrayVec<u8, MOST_HELD>
        ensures { result.items ≡ spec.new_of (made_new options.now key.now.bytes.now) (held self.now) }
    {
        if self.is_longer {
            return ArrayVec::new();
        }
        let Fate::Anew(made) = self.fate else {
            return ArrayVec::new();
        };
        key.made_whole(options, made, self.vr, self.ordered().as_slice())
    }

    /// Whether the value is of dates that are shifted, has more than padding, and becomes empty.
    pub fn is_emptied(&self, options: &Options) -> bool
        ensures { result ≡ spec.is_emptied options.now (held self.now) }
    {
        let made = match self.fate {
            Fate::Anew(made) => made,
            _ => return false,
        };
        made.is_moved() && (self.is_longer || vanish(options, made, self.ordered().as_slice()))
    }

    /// Whether the value is YES.
    pub fn is_yes(&self) -> bool
        ensures { result ≡ spec.is_yes (held self.now) }
    {
        !self.is_longer && without_pads(self.ordered().as_slice()) == b"YES".as_slice()
    }
}
