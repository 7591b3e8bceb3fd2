// The devices of a job.
ghost use Rattle.std.specs.Prelude.{◌≡◌, IfOk, IfErr};
ghost use Rattle.std.specs.IoError.{error_kind};
ghost use Rattle.std.specs.Str.{IsUtf8};
ghost use Rattle.dcm_files.specs.Devices as spec;
ghost use Rattle.dcm_files.specs.Devices.{MayDo, IsCause, OpensInput, OpensOutput, OpensDevices};

use crate::opened::{FileKind, Opened, Unopened};
use dcm_devices::{DeviceIn, DeviceOut};
use std::alloc::AllocError;
use std::io::ErrorKind;
use std::{io, str};

/// The path of a standard stream.
pub const STANDARD: &[u8] = b"-";

/// What opens the devices of a program. Each call is a step of it, also where the call opens nothing.
pub trait System {
    /// What is read.
    type Input: DeviceIn + Drop;

    /// What is written.
    type Output: DeviceOut + Drop;

    /// What the calls below may answer, and what they may leave of the system.
    ghost may_do: { MayDo Self Self.Input Self.Output };

    /// The words of the command line after the program's name.
    fn words(&mut self) -> Result<Vec<Vec<u8>>, AllocError>
        ensures { may_do.words self.old (spec.words_given result) self.new };

    /// Standard input.
    fn stdin(&mut self) -> Opened<Self::Input>
        ensures { may_do.stdin self.old result self.new };

    /// What is read at a path.
    fn open(&mut self, path: &str) -> io::Result<Opened<Self::Input>>
        ensures { may_do.opens self.old path.now result self.new };

    /// Takes an input back.
    fn release(&mut self, input: Self::Input)
        ensures { may_do.releases self.old input self.new };

    /// Standard output.
    fn stdout(&mut self) -> io::Result<Opened<Self::Output>>
        ensures { may_do.stdout self.old result self.new };

    /// What is written at a path. A file that is there keeps what it holds until its first byte is written (DECISIONS,
    /// D-30).
    fn create(&mut self, path: &str) -> io::Result<Opened<Self::Output>>
        ensures { may_do.creates self.old path.now result self.new };

    /// What is at a path, or none where nothing is.
    fn kind_at(&mut self, path: &str) -> io::Result<Option<FileKind>>
        ensures { may_do.looks self.old path.now result self.new };

    /// What is written at a path at which nothing was. It is held, as by `seize`. An error where something is, or where
    /// another run has locked what was made.
    fn create_new(&mut self, path: &str) -> io::Result<Opened<Self::Output>>
        ensures { may_do.makes self.old path.now result self.new };

    /// Locks the regular file at a path, and holds it: until another one is held, or a file is removed, no other run locks
    /// it. Answers whether it is held, or another run has locked it. An error where it cannot be opened or
    /// locked, or is at the path no longer.
    fn seize(&mut self, path: &str) -> io::Result<bool>
        ensures { may_do.seizes self.old path.now result self.new };

    /// Whether what is at a path, a link as a link, is the file that is held.
    fn holds(&mut self, path: &str) -> bool
        ensures { may_do.holds self.old path.now result self.new };

    /// Gives the file at the second path the mode of the regular file at the first one. Where none is there, nothing is
    /// done.
    fn keep_mode(&mut self, from: &str, to: &str) -> io::Result<()>
        ensures { may_do.keeps self.old from.now to.now result self.new };

    /// Moves a file to another path, in place of the file that is there.
    fn rename(&mut self, from: &str, to: &str) -> io::Result<()>
        ensures { may_do.moves self.old from.now to.now result self.new };

    /// Removes a file.
    fn remove(&mut self, path: &str) -> io::Result<()>
        ensures { may_do.removes self.old path.now result self.new };

    /// Closes an output. Of one that failed nothing is written again. An error where the system says only now that
    /// bytes of a file are lost, as it may on a network disk or at a quota.
    fn close(&mut self, output: Self::Output) -> io::Result<()>
        ensures { may_do.closes self.old output result self.new };
}

/// A path as a text.
pub(crate) fn path(word: &[u8]) -> io::Result<&str>
    ensures ok { IfOk result (λ path. path.now ≡ word.now) }
    ensures text { IfOk result (λ path. IsUtf8 word.now) }
    ensures err { IfErr result (λ e. ¬ (IsUtf8 word.now) × (error_kind e ≡ ErrorKind.InvalidFilename)) }
{
    match str::from_utf8(word) {
        Ok(path) => Ok(path),
        Err(_) => Err(io::Error::from(ErrorKind::InvalidFilename)),
    }
}

/// Opens an input, `-` for standard input. A path of a directory is refused.
pub fn open_input<S: System>(system: &mut S, word: &[u8]) -> io::Result<Opened<S::Input>>
    ensures { OpensInput S.may_do word.now system.old result system.new }
{
    if word == STANDARD {
        return Ok(system.stdin());
    }
    let input = system.open(path(word)?)?;
    if input.kind == FileKind::Directory {
        system.release(input.device);
        return Err(io::Error::from(ErrorKind::IsADirectory));
    }
    Ok(input)
}

/// Why an input and an output are not used together: both are one regular file, under whatever names; or they may be,
/// since the system does not say what is read, and the output holds bytes (DECISIONS, D-31).
pub fn clash(input: FileKind, output: FileKind) -> Option<Unopened>
    ensures { result ≡ spec.clash input output }
{
    match (input, output) {
        (
            FileKind::Regular {
                device: input_device,
                number: input_number,
                ..
            },
            FileKind::Regular { device, number, .. },
        ) if input_device == device && input_number == number => Some(Unopened::Same),
        (FileKind::Unknown, FileKind::Regular { size, .. }) if size > 0 => Some(Unopened::Output),
        _ => None,
    }
}

/// Whether it is a regular file that holds bytes.
fn holds_bytes(kind: FileKind) -> bool
    ensures { result ≡ spec.holds_bytes kind }
{
    matches!(kind, FileKind::Regular { size, .. } if size > 0)
}

/// That a file that holds bytes stays, unless it is to be overwritten.
pub(crate) fn stays(kind: FileKind, overwrites: bool) -> Option<Unopened>
    ensures { result ≡ spec.stays overwrites kind }
{
    if holds_bytes(kind) && !overwrites {
        return Some(Unopened::There);
    }
    None
}

/// Why what is there is not written: it is the input, or may be; or it stays.
fn barred(input: FileKind, there: FileKind, overwrites: bool) -> Option<Unopened>
    ensures { result ≡ spec.barred overwrites input there }
{
    clash(input, there).or(stays(there, overwrites))
}

/// The same, where something is there.
fn barred_at(input: FileKind, there: Option<FileKind>, overwrites: bool) -> Option<Unopened>
    ensures { result ≡ spec.barred_at overwrites input there }
{
    match there {
        Some(there) => barred(input, there, overwrites),
        None => None,
    }
}

/// Whether it is the file that was read earlier, or may be.
pub(crate) fn was_read(earlier: Option<FileKind>, kind: FileKind) -> bool
    ensures { result ≡ spec.was_read earlier kind }
{
    match earlier {
        Some(earlier) => clash(earlier, kind).is_some(),
        None => false,
    }
}

/// Why a job is not begun after this error on opening its input or its output.
pub fn unopened(e: &io::Error, which: Unopened) -> Unopened
    ensures { IsCause (error_kind e.now) which result }
{
    match e.kind() {
        ErrorKind::OutOfMemory => Unopened::Memory,
        _ => which,
    }
}

/// Opens standard output, unless it is a file that was read.
pub(crate) fn open_stream<S: System>(
    system: &mut S,
    input: FileKind,
    earlier: Option<FileKind>,
) -> Result<Opened<S::Output>, Unopened>
    ensures { spec.OpensStream S.may_do input earlier system.old result system.new }
{
    let output = match system.stdout() {
        Ok(output) => output,
        Err(e) => return Err(unopened(&e, Unopened::Output)),
    };
    if was_read(earlier, output.kind) {
        let _ = system.close(output.device);
        return Err(Unopened::Output);
    }
    if let Some(cause) = clash(input, output.kind) {
        let _ = system.close(output.device);
        return Err(cause);
    }
    Ok(output)
}

/// Opens what is written at a path, unless what was opened is barred.
fn create_output<S: System>(
    system: &mut S,
    path: &str,
    input: FileKind,
    overwrites: bool,
) -> Result<Opened<S::Output>, Unopened>
    ensures { spec.CreatesOutput S.may_do path.now overwrites input system.old result system.new }
{
    let output = match system.create(path) {
        Ok(output) => output,
        Err(e) => return Err(unopened(&e, Unopened::Output)),
    };
    if let Some(cause) = barred(input, output.kind, overwrites) {
        let _ = system.close(output.device);
        return Err(cause);
    }
    Ok(output)
}

/// Opens what is written at a path, unless what is there is barred, as it is seen at the path before it is opened, and
/// then by the open file.
fn open_file<S: System>(
    system: &mut S,
    word: &[u8],
    input: FileKind,
    overwrites: bool,
) -> Result<Opened<S::Output>, Unopened>
    ensures { spec.OpensFile S.may_do word.now overwrites input system.old result system.new }
{
    let Ok(path) = path(word) else {
        return Err(Unopened::Output);
    };
    let there = match system.kind_at(path) {
        Ok(there) => there,
        Err(e) => return Err(unopened(&e, Unopened::Output)),
    };
    if let Some(cause) = barred_at(input, there, overwrites) {
        return Err(cause);
    }
    create_output(system, path, input, overwrites)
}

/// Opens an output, `-` for standard output, after an input of this kind was opened. The output is refused where it is
/// the input, or may be, and where it is a file that holds bytes and is not to be overwritten.
fn open_output<S: System>(
    system: &mut S,
    word: &[u8],
    input: FileKind,
    overwrites: bool,
) -> Result<Opened<S::Output>, Unopened>
    ensures { OpensOutput S.may_do word.now overwrites input system.old result system.new }
{
    if word == STANDARD {
        return open_stream(system, input, None);
    }
    open_file(system, word, input, overwrites)
}

/// Opens the devices of a job, the input before the output. Of devices that are refused nothing was read and nothing
/// written.
pub fn open_devices<S: System>(
    system: &mut S,
    input: &[u8],
    output: &[u8],
    overwrites: bool,
) -> Result<(Opened<S::Input>, Opened<S::Output>), Unopened>
    ensures { OpensDevices S.may_do input.now output.now overwrites system.old result system.new }
{
    let input = match open_input(system, input) {
        Ok(input) => input,
        Err(e) => return Err(unopened(&e, Unopened::Input)),
    };
    match open_output(system, output, input.kind, overwrites) {
        Ok(output) => Ok((input, output)),
        Err(cause) => {
            system.release(input.device);
            Err(cause)
        }
    }
}
