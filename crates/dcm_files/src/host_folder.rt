// The names in a folder of the system that the program runs on.
ghost use Rattle.std.specs.Prelude.{◌≡◌, ◌≤◌, ◌==◌, [], length, position};
ghost use Rattle.dcm_files.specs.Folders.{name_given};
ghost use Rattle.dcm_files.specs.HostFolder as spec;

use crate::folders::EntryName;
use dcm_devices::StdReader;
use std::io;
use std::io::ErrorKind;
use std::marker::Model;

/// The bytes of names that are listed at a time.
const LISTED: usize = 4096;

/// A folder that is listed: the names that the system gave and nobody took so far, each ended by a byte 00.
#[derive(Drop)]
pub struct HostFolder<D> {
    names: D,
    held: [u8; LISTED],
    at: usize,
    filled: usize,
}

impl<D> Model for HostFolder<D> {
    ghost use Rattle.std.specs.Prelude.{◌≤◌, drop, take};
    ghost use Rattle.dcm_files.specs.HostFolder.{Listing};

    ghost Value = { Listing D };

    ghost view = { λ f. record { names = f.names; pending = drop f.at (take f.filled f.held) } };

    ghost invariant = { λ f. (f.at ≤ f.filled) × (f.filled ≤ 4096) };
}

impl<D: StdReader> HostFolder<D> {
    /// Of a folder that was opened.
    pub(crate) fn new(names: D) -> Self
        ensures names { result.names ≡ names }
        ensures pending { result.pending ≡ [] }
    {
        HostFolder {
            names,
            held: [0; LISTED],
            at: 0,
            filled: 0,
        }
    }

    /// Lists more names, where all that are held were taken. Answers whether there are any.
    fn refill(&mut self) -> io::Result<bool>
        ensures { spec.Refills D.remaining D.may_read self.old self.new result }
    {
        if self.at < self.filled {
            return Ok(true);
        }
        let size = self.names.read_some(&mut self.held)?;
        self.at = 0;
        self.filled = size;
        Ok(size > 0)
    }

    /// Takes the next name that is held.
    fn take(&mut self, name: &mut EntryName)
        ensures { spec.Takes self.old self.new name.new.items }
    {
        let (held, _) = self.held.split_at(self.filled);
        let (_, left) = held.split_at(self.at);
        let length = name_size(left);
        let (taken, _) = left.split_at(length);
        name.clear();
        let _ = name.try_extend_from_slice(taken);
        self.at = (self.at + length + 1).min(self.filled);
    }

    /// Gives the next name but `.` and `..`, and answers whether there is one. A list of these without end is an error.
    pub(crate) fn next(&mut self, name: &mut EntryName) -> io::Result<bool>
        ensures { spec.Next D.remaining D.may_read self.old (name_given name.new.items result) self.new }
    {
        for _passed in 0..u64::MAX {
            if !self.refill()? {
                return Ok(false);
            }
            self.take(name);
            if !is_dots(name.as_slice()) {
                return Ok(true);
            }
        }
        Err(io::Error::from(ErrorKind::InvalidData))
    }
}

/// Where the first byte 00 of these is.
fn first_end(bytes: &[u8]) -> Option<usize>
    ensures { result ≡ position (λ b. b == 0) bytes.now }
{
    bytes.iter().position(|byte| *byte == 0)
}

/// How many bytes a name has that these begin with.
fn name_size(bytes: &[u8]) -> usize
    ensures size { result ≡ spec.name_size bytes.now }
    ensures within { result ≤ length bytes.now }
{
    first_end(bytes).unwrap_or(bytes.len())
}

/// Whether a name is that of the folder itself or of the one that it is in.
fn is_dots(name: &[u8]) -> bool
    ensures { result ≡ spec.is_dots name.now }
{
    name == b".".as_slice() || name == b"..".as_slice()
}
