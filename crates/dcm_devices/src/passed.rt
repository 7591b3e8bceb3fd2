// The bytes that passed a device, for proofs alone.
ghost use Rattle.std.specs.Prelude.{◌≡◌, ℕ, Bool, true, false, List, [], ◌++◌};
ghost use Rattle.std.specs.Borrow.{ftrue};

use std::marker::{Model, PhantomData};

/// The bytes that a reader gave or a writer took, one call after another, and whether a flush came after them. Only
/// proofs know them, and they take no memory.
#[derive(Drop)]
pub struct Passed {
    marker: PhantomData<u8>,
    pub ghost bytes: { List ℕ },
    pub ghost is_flushed: { Bool },
}

impl Model for Passed {
    ghost also_owns = { λ _. ftrue };
}

impl Passed {
    /// No byte yet.
    pub(crate) fn new() -> Self
        ensures { (result.bytes ≡ []) × (result.is_flushed ≡ true) }
    {
        Passed {
            marker: PhantomData,
        }
    }

    /// Notes the bytes of a call.
    pub(crate) fn note(&mut self, _bytes: &[u8])
        ensures { (self.new.bytes ≡ self.old.bytes ++ _bytes.now) × (self.new.is_flushed ≡ false) }
    {}

    /// Notes a flush.
    pub(crate) fn note_flush(&mut self)
        ensures { (self.new.bytes ≡ self.old.bytes) × (self.new.is_flushed ≡ true) }
    {}
}
