// What is read and written, and how that fails.
ghost use Rattle.dcm_devices.specs.StdDevice.{any_read, any_write, any_flush};

use dcm_devices::{StdReader, StdWriter};
use std::alloc::Global;
use std::io;
use std::io::{ErrorKind, Read, Write};

/// More bytes than a run reads or writes, and more files than it makes.
pub const ALL: usize = usize::MAX;

/// How the devices of a system work.
#[derive(Clone, Copy)]
pub struct TreeDevices {
    /// The bytes that a reader gives at most.
    pub step: usize,
    /// The bytes of standard output that go well.
    pub room: usize,
    /// The bytes of each file that go well.
    pub disk: usize,
    /// How many files are made before another process makes one at the path of the next.
    pub files: usize,
    /// How many files are made before there is no memory for another.
    pub memory: usize,
    /// How many files are closed before the closing of one fails.
    pub closings: usize,
    /// The bits that modes of new files do not get.
    pub umask: u32,
    /// Whether a file may get a second name.
    pub has_links: bool,
    /// Whether the system says of each second name that something has it.
    pub says_named: bool,
    /// A path at which another process makes a file before it becomes a second name.
    pub raced: &'static str,
    /// Whether a file may be locked.
    pub has_locks: bool,
    /// Whether names that differ in small and capital letters alone are two names.
    pub tells_letters: bool,
    /// The path of a folder that is on another device.
    pub elsewhere: &'static str,
    /// The path of a file that another run has locked.
    pub busy: &'static str,
    /// A path that cannot be opened.
    pub locked: &'static str,
    /// The path of a folder whose listing fails after its last name.
    pub unlisted: &'static str,
    /// The path of a folder whose mode cannot be looked at.
    pub unseen: &'static [u8],
}

/// Devices that do not fail.
pub const SOUND: TreeDevices = TreeDevices {
    step: ALL,
    room: ALL,
    disk: ALL,
    files: ALL,
    memory: ALL,
    closings: ALL,
    umask: 0o022,
    has_links: true,
    says_named: false,
    raced: "",
    has_locks: true,
    tells_letters: true,
    elsewhere: "",
    busy: "",
    locked: "",
    unlisted: "",
    unseen: b"",
};

/// A reader of std that gives at most so many bytes a call.
#[derive(Drop)]
pub struct TreeReader {
    bytes: Vec<u8>,
    at: usize,
    step: usize,
    fails: bool,
}

impl TreeReader {
    /// A reader of these bytes, or one whose first call fails.
    pub(crate) fn new(bytes: Vec<u8>, step: usize, fails: bool) -> Self {
        TreeReader {
            bytes,
            at: 0,
            step,
            fails,
        }
    }
}

impl Read for TreeReader {
    fn read(&mut self, bytes: &mut [u8]) -> io::Result<usize> {
        if self.fails {
            return Err(io::Error::from(ErrorKind::Interrupted));
        }
        let at = self.at.min(self.bytes.len());
        let (_, rest) = self.bytes.as_slice().split_at(at);
        let n = self.step.min(bytes.len()).min(rest.len());
        let (front, _) = rest.split_at(n);
        bytes[..n].copy_from_slice(front);
        self.at = at + n;
        Ok(n)
    }
}

impl StdReader for TreeReader {
    ghost may_read = { any_read };

    fn read_some(&mut self, bytes: &mut [u8]) -> io::Result<usize> {
        self.read(bytes)
    }
}

/// A writer of std that takes so many bytes, and fails then.
#[derive(Drop)]
pub struct TreeWriter {
    /// The number of the file that is written, or none for standard output.
    pub(crate) file: Option<usize>,
    /// What was written.
    pub(crate) bytes: Vec<u8>,
    room: usize,
}

impl TreeWriter {
    /// A writer of a file, or of standard output, with room for so many bytes.
    pub(crate) fn new(alloc: Global, file: Option<usize>, room: usize) -> Self {
        TreeWriter {
            file,
            bytes: Vec::new(alloc),
            room,
        }
    }
}

impl Write for TreeWriter {
    fn write(&mut self, bytes: &[u8]) -> io::Result<usize> {
        let n = self.room.min(bytes.len());
        if n == 0 {
            return Err(io::Error::from(ErrorKind::StorageFull));
        }
        let (taken, _) = bytes.split_at(n);
        self.bytes.extend_from_slice(taken)?;
        self.room -= n;
        Ok(n)
    }

    fn flush(&mut self) -> io::Result<()> {
        Ok(())
    }
}

impl StdWriter for TreeWriter {
    ghost may_write = { any_write };

    ghost may_flush = { any_flush };

    fn write_some(&mut self, bytes: &[u8]) -> io::Result<usize> {
        self.write(bytes)
    }

    fn hand_on(&mut self) -> io::Result<()> {
        self.flush()
    }
}
