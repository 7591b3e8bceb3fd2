// What became of a name.
ghost use Rattle.std.specs.Prelude.{◌≡◌, ◌≤◌, length};
ghost use Rattle.dcm_cli.specs.Status as statuses;
ghost use Rattle.dcm_trees.specs.Fate as spec;

use dcm_cli::status::{DEVICE, DONE, FAULT, REMARK};
use dcm_walk::What;

/// What became of a name.
#[derive(Clone, Copy, Debug, PartialEq, Eq)]
pub enum Fate {
    /// It has an output.
    Written,
    /// It has an output, in which an edit found no place.
    Unplaced,
    /// Its output was there: a copy, or what a run before wrote.
    There,
    /// Another's file was at the name of its output, as far as is known.
    Taken,
    /// Nothing was done with it.
    LeftOut,
    /// It is the index of a medium, which is not copied.
    MediaIndex,
    /// It could not be read.
    Unread,
    /// Its output could not be written.
    Unwritten,
    /// It is at fault.
    Refused,
    /// Its pixels may show identity.
    Pixels,
    /// A UID that would name its output is missing or unfit.
    Unnamed,
}

impl Fate {
    /// The word for it in the manifest.
    pub fn word(self) -> &'static [u8]
        ensures { result.now ≡ spec.word self }
    {
        match self {
            Fate::Written => b"written".as_slice(),
            Fate::Unplaced => b"unplaced".as_slice(),
            Fate::There => b"there".as_slice(),
            Fate::Taken => b"taken".as_slice(),
            Fate::LeftOut | Fate::MediaIndex => b"left-out".as_slice(),
            Fate::Unread => b"unread".as_slice(),
            Fate::Unwritten => b"unwritten".as_slice(),
            Fate::Refused => b"refused".as_slice(),
            Fate::Pixels => b"pixels".as_slice(),
            Fate::Unnamed => b"unnamed".as_slice(),
        }
    }

    /// Its exit status.
    pub fn status(self) -> u8
        ensures value { result ≡ spec.status self }
        ensures within { result ≤ statuses.DEVICE }
    {
        match self {
            Fate::Written | Fate::There | Fate::MediaIndex => DONE,
            Fate::Refused | Fate::Unnamed => FAULT,
            Fate::Unplaced | Fate::Pixels => REMARK,
            Fate::Taken | Fate::LeftOut | Fate::Unread | Fate::Unwritten => DEVICE,
        }
    }

    /// Whether a file is at the name of its output.
    pub fn has_output(self) -> bool
        ensures { result ≡ spec.has_output self }
    {
        self.is_written() || self.is_there()
    }

    /// Whether the run has written its output.
    pub fn is_written(self) -> bool
        ensures { result ≡ spec.is_written self }
    {
        matches!(self, Fate::Written | Fate::Unplaced)
    }

    /// Whether a file was at the name of its output.
    pub fn is_there(self) -> bool
        ensures { result ≡ spec.is_there self }
    {
        matches!(self, Fate::There | Fate::Taken)
    }

    /// Whether its output was there.
    pub fn was_done(self) -> bool
        ensures { result ≡ spec.was_done self }
    {
        matches!(self, Fate::There)
    }
}

/// What becomes of a name that is no regular file.
pub fn fate_of(what: What) -> Fate
    ensures { result ≡ spec.fate_of what }
{
    match what {
        What::Unseen | What::Unlisted => Fate::Unread,
        _ => Fate::LeftOut,
    }
}

/// What is told of a name that is no regular file.
pub fn text_of(what: What) -> &'static [u8]
    ensures value { result.now ≡ spec.text_of what }
    ensures within { length result.now ≤ 32 }
{
    match what {
        What::Unfit => b"name does not fit".as_slice(),
        What::NoText => b"name is no UTF-8".as_slice(),
        What::PartFile => b"part of another run".as_slice(),
        What::OfOutput => b"output is not read".as_slice(),
        What::Unseen => b"input cannot be opened".as_slice(),
        What::TooDeep => b"folder is too deep".as_slice(),
        What::Unlisted => b"folder cannot be read".as_slice(),
        What::NoFile | What::File { .. } => b"no regular file".as_slice(),
    }
}
