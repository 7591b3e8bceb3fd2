// The value of a unique identifier, as it comes.
ghost use Rattle.std.specs.Prelude.{◌≡◌, fold, option_map};
ghost use Rattle.dcm_instance.specs.UidSink as spec;

use crate::names::{MOST_OF_UID, Uid, fit};
use arrayvec::ArrayVec;
use dcm_head::is_pad;
use std::marker::Model;

/// How far an element has come.
#[derive(Clone, Copy, Debug, PartialEq, Eq)]
pub(crate) enum Progress {
    /// The element has not come.
    Missing,
    /// The value is open.
    Open,
    /// The value is whole.
    Ended,
}

/// The first bytes of a value, and whether it is longer, its padding aside.
#[derive(Drop)]
pub(crate) struct UidValue {
    progress: Progress,
    bytes: Uid,
    is_longer: bool,
}

impl Model for UidValue {
    ghost use Rattle.dcm_instance.specs.UidSink.{Value as SpecValue};

    ghost Value = { SpecValue };

    ghost view = { λ v. record {
      progress = v.progress;
      held = record { bytes = v.bytes.items; is_longer = v.is_longer };
    } };
}

impl UidValue {
    /// Before its head.
    pub(crate) fn new() -> UidValue
        ensures { result ≡ spec.no_value }
    {
        UidValue {
            progress: Progress::Missing,
            bytes: ArrayVec::new(),
            is_longer: false,
        }
    }

    /// Whether it is whole.
    pub(crate) fn has_ended(&self) -> bool
        ensures { result ≡ spec.has_ended self.now.progress }
    {
        self.progress == Progress::Ended
    }

    /// After the head of an element, which is its own or not. The first of its own counts.
    pub(crate) fn open(&mut self, is_own: bool)
        ensures { self.new ≡ spec.after_head self.old is_own }
    {
        if is_own && self.progress == Progress::Missing {
            self.progress = Progress::Open;
        }
    }

    /// One more byte.
    fn add_byte(&mut self, byte: u8)
        ensures { self.new ≡ record { progress = self.old.progress; held = spec.held_with self.old.held byte } }
    {
        if self.bytes.len() < MOST_OF_UID {
            self.bytes.push(byte);
        } else if !is_pad(byte) {
            self.is_longer = true;
        }
    }

    /// More bytes.
    fn add_all(&mut self, bytes: &[u8])
        ensures { self.new ≡ record {
          progress = self.old.progress;
          held = fold spec.held_with self.old.held bytes.now;
        } }
    {
        for byte in bytes {
            self.add_byte(*byte);
        }
    }

    /// After bytes of a value, its own or not.
    pub(crate) fn add(&mut self, bytes: &[u8])
        ensures { self.new ≡ spec.after_bytes self.old bytes.now }
    {
        if self.progress == Progress::Open {
            self.add_all(bytes);
        }
    }

    /// After the end of a value, its own or not.
    pub(crate) fn close(&mut self)
        ensures { self.new ≡ spec.after_end self.old }
    {
        if self.progress == Progress::Open {
            self.progress = Progress::Ended;
        }
    }

    /// The unique identifier, if its value is whole and fit for a name.
    pub(crate) fn uid(&self) -> Option<Uid>
        ensures { option_map (λ uid. uid.items) result ≡ spec.uid_of self.now }
    {
        if self.progress != Progress::Ended || self.is_longer {
            return None;
        }
        fit(self.bytes.as_slice())
    }
}
