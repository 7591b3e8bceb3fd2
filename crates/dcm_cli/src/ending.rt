// How the work on a job ends.
ghost use Rattle.std.specs.Prelude.{◌≡◌};
ghost use Rattle.dcm_cli.specs.Pass as spec;
ghost use Rattle.dcm_cli.specs.Remarks as remarks;

use dcm_base::{LineStop, Stop, Stopped};
use dcm_stream::Halt;

/// How a job ended, if no device failed.
#[derive(Clone, Copy, Debug, PartialEq, Eq)]
pub enum Verdict {
    /// All was done, except the edits that found no place: bit k is set for edit k, counted from 0.
    Done { unplaced: u64 },
    /// The job is done, and a value in the output says that the pixels show identity.
    PixelsMayShow,
    /// The input is refused.
    Refused(Stop),
    /// The lines of a dump are refused.
    RefusedLine(LineStop),
}

/// How the work on a job ended, before its output is flushed.
#[derive(Clone, Copy, Debug, PartialEq, Eq)]
pub enum Ending {
    /// No device failed.
    Worked(Verdict),
    /// Reading failed after so many bytes.
    Unread(u64),
    /// The output failed.
    Output,
}

/// What is told of an input without a change of the status, as far as the input was read.
#[derive(Clone, Copy, Debug, PartialEq, Eq)]
pub struct Remarks {
    /// PatientID is to become a pseudonym, and names nobody.
    pub unnamed: bool,
    /// How many shifted dates became empty.
    pub emptied: u64,
    /// Texts are shown by characters, and a Specific Character Set (0008,0005) names an unknown character set.
    pub unknown: bool,
}

impl Remarks {
    /// Nothing to tell.
    pub const NONE: Remarks = Remarks {
        unnamed: false,
        emptied: 0,
        unknown: false,
    };
}

/// How the work on a job ended, and what is remarked of its input.
#[derive(Clone, Copy, Debug, PartialEq, Eq)]
pub struct Ended {
    /// What is remarked, unless the output failed.
    pub remarks: Remarks,
    /// How the work ended.
    pub ending: Ending,
}

/// Why the data set of a file was not reached.
#[derive(Clone, Copy, Debug, PartialEq, Eq)]
pub enum HeadEnding {
    /// The head of the file is refused.
    Refused(Stop),
    /// Reading failed after so many bytes.
    Unread(u64),
}

/// How the work ends where a machine has ended a data set, or halted.
pub fn ending_of(answer: Result<(), Halt>) -> Ending
    ensures { result ≡ spec.ending_of answer }
{
    match answer {
        Ok(()) => Ending::Worked(Verdict::Done { unplaced: 0 }),
        Err(Stopped::Refused(stop)) => Ending::Worked(Verdict::Refused(stop)),
        Err(Stopped::Output) => Ending::Output,
    }
}

/// The ending of a job with nothing to tell of the input.
pub fn remarking_nothing(ending: Ending) -> Ended
    ensures { result ≡ remarks.remarking_nothing ending }
{
    Ended {
        remarks: Remarks::NONE,
        ending,
    }
}

/// A job ended so. `unknown` says whether a Specific Character Set (0008,0005) names an unknown character set.
pub fn remarking_unknown(ending: Ending, unknown: bool) -> Ended
    ensures { result ≡ remarks.remarking_unknown ending unknown }
{
    Ended {
        remarks: Remarks {
            unnamed: false,
            emptied: 0,
            unknown,
        },
        ending,
    }
}

/// How the work ends without a data set.
pub fn ending_of_head(ending: HeadEnding) -> Ending
    ensures { result ≡ spec.ending_of_head ending }
{
    match ending {
        HeadEnding::Refused(stop) => Ending::Worked(Verdict::Refused(stop)),
        HeadEnding::Unread(read) => Ending::Unread(read),
    }
}
