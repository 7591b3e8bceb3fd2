// Why a reading or a building goes no further.
ghost use Rattle.std.specs.Prelude.{◌≡◌, OnOk, None};
ghost use Rattle.dcm_base.specs.Steps.Halts as halts;

use dcm_devices::WriteFailed;

/// Why a reading or a building goes no further.
#[derive(Clone, Copy, Debug, PartialEq, Eq)]
pub enum Stopped<R> {
    /// What was read is refused.
    Refused(R),
    /// The output failed.
    Output,
}

impl<R> Stopped<R> {
    /// The answer of a call that may have stopped.
    pub fn answer(stopped: Option<Self>) -> Result<(), Self>
        ensures going { OnOk result (stopped ≡ None) }
        ensures value { result ≡ halts.answer (halts.stop_of stopped) (halts.is_output stopped) }
    {
        match stopped {
            None => Ok(()),
            Some(stopped) => Err(stopped),
        }
    }
}

impl<R> From<WriteFailed> for Stopped<R> {
    ghost use Rattle.dcm_base.specs.declared.stopped.Stopped.{Stopped};

    ghost from_gives = { λ _ s. s ≡ Stopped.Output };

    fn from(_failed: WriteFailed) -> Self {
        Stopped::Output
    }
}
