// What a device of the standard library calls.
ghost use Rattle.std.specs.Prelude.{◌≡◌, ℕ, List, [], Result, IsOk, OnOk};
ghost use Rattle.std.specs.Io.Buffered.{writer_buffer};
ghost use Rattle.std.specs.Io.{ReadsAtMost, WritesAtMost};
ghost use Rattle.std.specs.Io.KnownBytes.{ReadConsumes, WriteAppends, Keeps};
ghost use Rattle.std.specs.declared.io.Error.{Error};
ghost use Rattle.dcm_devices.specs.StdDevice.{any_read, any_write, any_flush, TakesAll};

use either::Either;
use std::alloc::Allocator;
use std::fs::{File, Files};
use std::io;
use std::io::{BufReader, BufWriter, Read, Stderr, Stdin, Stdout, Write};

/// A reader of the standard library. Proofs can name each answer of it.
pub trait StdReader: Read {
    /// Whether one call may lead from a reader to a later one, answer this, and leave this in the buffer.
    ghost may_read: { Self → Result ℕ Error → List ℕ → Self → Type 0 };

    /// Reads some bytes, as `read` does.
    fn read_some(&mut self, buf: &mut [u8]) -> io::Result<usize>
        ensures bound { ReadsAtMost result buf.new }
        ensures bytes { ReadConsumes (Self.remaining self.old) (Self.remaining self.new) result buf.new }
        ensures answer { may_read self.old result buf.new self.new };
}

/// A writer of the standard library. Proofs can name each answer of it.
pub trait StdWriter: Write {
    /// Whether one call with these bytes may lead from a writer to a later one, and answer this.
    ghost may_write: { Self → List ℕ → Result ℕ Error → Self → Type 0 };

    /// Whether one flush may lead from a writer to a later one, and answer this.
    ghost may_flush: { Self → Result (Unit {0}) Error → Self → Type 0 };

    /// Writes some of the bytes, as `write` does.
    fn write_some(&mut self, bytes: &[u8]) -> io::Result<usize>
        ensures bound { WritesAtMost result bytes.now }
        ensures bytes { WriteAppends (Self.contents self.old) (Self.contents self.new) result bytes.now }
        ensures answer { may_write self.old bytes.now result self.new };

    /// Writes out what it holds back, as `flush` does.
    fn hand_on(&mut self) -> io::Result<()>
        ensures bytes { Keeps (Self.contents self.old) (Self.contents self.new) }
        ensures answer { may_flush self.old result self.new };
}

impl<L: Read, R: Read> StdReader for Either<L, R> {
    ghost may_read = { any_read };

    #[inline(always)]
    fn read_some(&mut self, buf: &mut [u8]) -> io::Result<usize> {
        self.read(buf)
    }
}

impl StdReader for Stdin {
    ghost may_read = { any_read };

    #[inline(always)]
    fn read_some(&mut self, typed: &mut [u8]) -> io::Result<usize> {
        self.read(typed)
    }
}

impl StdReader for File {
    ghost may_read = { any_read };

    #[inline(always)]
    fn read_some(&mut self, part: &mut [u8]) -> io::Result<usize> {
        self.read(part)
    }
}

impl<R: Read, A: Allocator> StdReader for BufReader<R, A> {
    ghost may_read = { any_read };

    #[inline(always)]
    fn read_some(&mut self, piece: &mut [u8]) -> io::Result<usize> {
        self.read(piece)
    }
}

/// The names of a folder.
impl StdReader for <HostRuntime as Files>::Dir {
    ghost may_read = { any_read };

    #[inline(always)]
    fn read_some(&mut self, names: &mut [u8]) -> io::Result<usize> {
        self.read(names)
    }
}

impl StdWriter for Stdout {
    ghost may_write = { any_write };

    ghost may_flush = { any_flush };

    #[inline(always)]
    fn write_some(&mut self, bytes: &[u8]) -> io::Result<usize> {
        self.write(bytes)
    }

    #[inline(always)]
    fn hand_on(&mut self) -> io::Result<()> {
        self.flush()
    }
}

impl StdWriter for Stderr {
    ghost may_write = { any_write };

    ghost may_flush = { any_flush };

    #[inline(always)]
    fn write_some(&mut self, bytes: &[u8]) -> io::Result<usize> {
        self.write(bytes)
    }

    #[inline(always)]
    fn hand_on(&mut self) -> io::Result<()> {
        self.flush()
    }
}

impl StdWriter for File {
    ghost may_write = { any_write };

    ghost may_flush = { any_flush };

    #[inline(always)]
    fn write_some(&mut self, bytes: &[u8]) -> io::Result<usize> {
        self.write(bytes)
    }

    #[inline(always)]
    fn hand_on(&mut self) -> io::Result<()> {
        self.flush()
    }
}

impl<A: Allocator> StdWriter for Vec<u8, A> {
    ghost may_write = { λ before bytes r after. TakesAll before.items bytes r after.items };

    ghost may_flush = { λ before r after. IsOk r × (after ≡ before) };

    #[inline(always)]
    fn write_some(&mut self, added: &[u8]) -> io::Result<usize> {
        self.write(added)
    }

    #[inline(always)]
    fn hand_on(&mut self) -> io::Result<()> {
        self.flush()
    }
}

impl<W: Write + Drop, A: Allocator> StdWriter for BufWriter<W, A> {
    ghost may_write = { any_write };

    ghost may_flush = { λ before r after. OnOk r (writer_buffer after ≡ []) };

    #[inline(always)]
    fn write_some(&mut self, buf: &[u8]) -> io::Result<usize> {
        self.write(buf)
    }

    #[inline(always)]
    fn hand_on(&mut self) -> io::Result<()> {
        self.flush()
    }
}
