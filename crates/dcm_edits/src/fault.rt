// Why no edits follow from words.
ghost use Rattle.std.specs.Prelude.{◌≡◌};
ghost use Rattle.dcm_edits.specs.declared.fault.EditFault.TheVariants.{Memory as no_room};
ghost use Rattle.dcm_edits.specs.declared.fault.Failure.TheVariants.{Memory as no_memory};

use dcm_base::EditRefusal;
use std::alloc::{AllocError, AllocFailed};

/// Why no edits follow from the words of a command line.
#[derive(Clone, Copy, Debug, PartialEq, Eq)]
pub enum EditFault {
    /// An edit is refused; edits are counted from 1.
    Refused(EditRefusal, usize),
    /// The memory for the edits was refused.
    Memory,
}

/// Why no edit follows from its words.
#[derive(Clone, Copy, Debug, PartialEq, Eq)]
pub enum Failure {
    Refused(EditRefusal),
    Memory,
}

impl<T: Drop> From<AllocFailed<T>> for EditFault {
    ghost from_gives = { λ _ f. f ≡ no_room };

    fn from(_error: AllocFailed<T>) -> EditFault {
        EditFault::Memory
    }
}

impl From<AllocError> for Failure {
    ghost from_gives = { λ _ f. f ≡ no_memory };

    fn from(_error: AllocError) -> Failure {
        Failure::Memory
    }
}

impl<T: Drop> From<AllocFailed<T>> for Failure {
    ghost from_gives = { λ _ f. f ≡ no_memory };

    fn from(_error: AllocFailed<T>) -> Failure {
        Failure::Memory
    }
}
