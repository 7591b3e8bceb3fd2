// A reader that gives its bytes in steps.
ghost use Rattle.dcm_devices.specs.StdDevice.{any_read};

use dcm_devices::StdReader;
use std::io;
use std::io::{ErrorKind, Read};

/// More calls than a run makes, and more bytes.
pub const ALL: usize = usize::MAX;

/// A reader of std that gives at most so many bytes a call, and fails at the call after so many good ones.
#[derive(Drop)]
pub struct Steps<'a> {
    /// The bytes that are left.
    pub rest: &'a [u8],
    /// The bytes of a call.
    pub step: usize,
    /// How many more calls go well.
    pub good: usize,
}

impl<'a> Read for Steps<'a> {
    fn read(&mut self, bytes: &mut [u8]) -> io::Result<usize> {
        if self.good == 0 {
            return Err(io::Error::from(ErrorKind::Interrupted));
        }
        self.good -= 1;
        let n = self.step.min(bytes.len()).min(self.rest.len());
        let (front, rest) = self.rest.split_at(n);
        bytes[..n].copy_from_slice(front);
        self.rest = rest;
        Ok(n)
    }
}

impl<'a> StdReader for Steps<'a> {
    ghost may_read = { any_read };

    fn read_some(&mut self, bytes: &mut [u8]) -> io::Result<usize> {
        self.read(bytes)
    }
}
