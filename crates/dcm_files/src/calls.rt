// The calls of a system, for proofs alone.
ghost use Rattle.std.specs.Prelude.{◌≡◌, List, [], ◌∷◌, ◌++◌};
ghost use Rattle.std.specs.Borrow.{ftrue};
ghost use Rattle.dcm_files.specs.Call.{Call};

use std::marker::{Model, PhantomData};

/// The calls of a system, one after another, with their answers. Only proofs know them, and they take no memory.
#[derive(Drop)]
pub struct Calls {
    marker: PhantomData<u8>,
    pub ghost made: { List Call },
}

impl Model for Calls {
    ghost also_owns = { λ _. ftrue };
}

impl Calls {
    /// No call yet.
    pub(crate) fn new() -> Self
        ensures { result.made ≡ [] }
    {
        Calls {
            marker: PhantomData,
        }
    }

    /// Adds a call.
    fn add(&mut self)
        ghost call: { Call }
        ensures { self.new.made ≡ self.old.made ++ call ∷ [] }
    {}

    /// Notes a call. What it was asked and what it answered are given for proofs to say which it is.
    pub(crate) fn note<T>(&mut self, _asked: &[u8], _answered: &T)
        ghost call: { Call }
        ensures { self.new.made ≡ self.old.made ++ call ∷ [] }
    {
        self.add();
    }
}
