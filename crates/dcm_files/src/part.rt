// An output that has its name only once it is whole.
ghost use Rattle.std.specs.Prelude.{◌≡◌, ◌++◌, ◌≤◌, IfOk, IfErr, OnOk, length, true, false};
ghost use Rattle.std.specs.IoError.{error_kind};
ghost use Rattle.dcm_files.specs.Part as spec;

use crate::devices::{
    STANDARD, System, clash, open_input, open_stream, path, stays, unopened, was_read,
};
use crate::opened::{FileKind, Opened, Unopened};
use arrayvec::ArrayVec;
use std::io;
use std::io::ErrorKind;

/// What the name of a file ends in while it is written.
const SUFFIX: &[u8] = b".part";

/// The most bytes of a path, with the suffix: Linux has no longer ones (PATH_MAX).
const LONGEST: usize = 4096 + SUFFIX.len();

/// The path at which an output is written until it is whole.
fn part_of(output: &[u8]) -> io::Result<ArrayVec<u8, LONGEST>>
    ensures ok { IfOk result (λ part. part.items ≡ spec.part_of output.now) }
    ensures short { OnOk result (spec.is_short output.now ≡ true) }
    ensures err { IfErr result (λ e. (spec.is_short output.now ≡ false) × (error_kind e ≡ ErrorKind.InvalidFilename)) }
{
    let mut part = ArrayVec::new();
    let fits = part.try_extend_from_slice(output).is_ok()
        && part.try_extend_from_slice(SUFFIX).is_ok();
    if fits {
        Ok(part)
    } else {
        Err(io::Error::from(ErrorKind::InvalidFilename))
    }
}

/// Whether it is a regular file.
fn is_regular(kind: FileKind) -> bool
    ensures { result ≡ spec.is_regular kind }
{
    matches!(kind, FileKind::Regular { .. })
}

/// That a file was read earlier.
fn read_earlier(earlier: Option<FileKind>, kind: FileKind) -> Option<Unopened>
    ensures { result ≡ spec.read_earlier earlier kind }
{
    if was_read(earlier, kind) {
        return Some(Unopened::Output);
    }
    None
}

/// That it is no regular file.
fn irregular(kind: FileKind) -> Option<Unopened>
    ensures { result ≡ spec.irregular kind }
{
    if is_regular(kind) {
        return None;
    }
    Some(Unopened::Output)
}

/// Why no file is put in the place of what is there: it was read, as the input or earlier; or it stays; or it is no
/// regular file.
fn unreplaced(
    there: Option<FileKind>,
    input: FileKind,
    earlier: Option<FileKind>,
    overwrites: bool,
) -> Option<Unopened>
    ensures { result ≡ spec.unreplaced overwrites there input earlier }
{
    match there {
        None => None,
        Some(kind) => clash(input, kind)
            .or(read_earlier(earlier, kind))
            .or(stays(kind, overwrites))
            .or(irregular(kind)),
    }
}

/// The path of a part, where its output may be put in the place of what is there.
fn find_part<S: System>(
    system: &mut S,
    output: &[u8],
    input: FileKind,
    earlier: Option<FileKind>,
    overwrites: bool,
) -> Result<ArrayVec<u8, LONGEST>, Unopened>
    ensures ok { IfOk result (λ part. part.items ≡ spec.part_of output.now) }
    ensures found { OnOk result (spec.FindsPart S.may_do output.now overwrites input earlier system.old system.new) }
    ensures err { IfErr result
        (λ u. spec.FindsNoPart S.may_do output.now overwrites input earlier system.old u system.new) }
{
    let Ok(path) = path(output) else {
        return Err(Unopened::Output);
    };
    let there = match system.kind_at(path) {
        Ok(there) => there,
        Err(e) => return Err(unopened(&e, Unopened::Output)),
    };
    if let Some(cause) = unreplaced(there, input, earlier, overwrites) {
        return Err(cause);
    }
    match part_of(output) {
        Ok(part) => Ok(part),
        Err(_) => Err(Unopened::Output),
    }
}

/// Why a part was not made, by the error.
fn unmade(e: &io::Error) -> Unopened
    ensures { spec.IsPartCause (error_kind e.now) result }
{
    match e.kind() {
        ErrorKind::AlreadyExists => Unopened::Part,
        _ => unopened(e, Unopened::Output),
    }
}

/// Makes a part at its path.
fn make_part<S: System>(system: &mut S, part: &[u8]) -> Result<Opened<S::Output>, Unopened>
    ensures { spec.MakesPart S.may_do part.now system.old result system.new }
{
    let Ok(part) = path(part) else {
        return Err(Unopened::Output);
    };
    match system.create_new(part) {
        Ok(output) => Ok(output),
        Err(e) => Err(unmade(&e)),
    }
}

/// Opens what is written at a path until it is whole: a new file, where its output may be put in the place of what is
/// there.
fn open_part<S: System>(
    system: &mut S,
    output: &[u8],
    input: FileKind,
    earlier: Option<FileKind>,
    overwrites: bool,
) -> Result<Opened<S::Output>, Unopened>
    ensures { spec.OpensPart S.may_do output.now overwrites input earlier system.old result system.new }
{
    match find_part(system, output, input, earlier, overwrites) {
        Ok(part) => make_part(system, part.as_slice()),
        Err(cause) => Err(cause),
    }
}

/// Opens an output that has its name only once it is whole, `-` for standard output.
fn open_whole<S: System>(
    system: &mut S,
    output: &[u8],
    input: FileKind,
    earlier: Option<FileKind>,
    overwrites: bool,
) -> Result<Opened<S::Output>, Unopened>
    ensures { spec.OpensWhole S.may_do output.now overwrites input earlier system.old result system.new }
{
    if output == STANDARD {
        return open_stream(system, input, earlier);
    }
    open_part(system, output, input, earlier, overwrites)
}

/// Opens the input of a job, and then its output, which has its name only once it is whole. They are refused where the
/// output is the file that is read, or one that was read earlier, or a file that holds bytes and is not to be
/// overwritten.
pub fn open_whole_devices<S: System>(
    system: &mut S,
    input: &[u8],
    output: &[u8],
    overwrites: bool,
    earlier: Option<FileKind>,
) -> Result<(Opened<S::Input>, Opened<S::Output>), Unopened>
    ensures { spec.OpensWholeDevices S.may_do input.now output.now overwrites earlier system.old result system.new }
{
    let input = match open_input(system, input) {
        Ok(input) => input,
        Err(e) => return Err(unopened(&e, Unopened::Input)),
    };
    match open_whole(system, output, input.kind, earlier, overwrites) {
        Ok(output) => Ok((input, output)),
        Err(cause) => {
            system.release(input.device);
            Err(cause)
        }
    }
}

/// Gives a part the mode of the file that it replaces, and moves it to its name.
fn move_part<S: System>(system: &mut S, output: &[u8]) -> io::Result<()>
    ensures { spec.MovesPart S.may_do output.now system.old result system.new }
{
    let part = part_of(output)?;
    let part = path(part.as_slice())?;
    let output = path(output)?;
    system.keep_mode(output, part)?;
    system.rename(part, output)
}

/// Removes a part.
fn remove_part<S: System>(system: &mut S, output: &[u8]) -> io::Result<()>
    ensures { spec.RemovesPart S.may_do output.now system.old result system.new }
{
    let part = part_of(output)?;
    system.remove(path(part.as_slice())?)
}

/// Gives a complete output its name, and removes any other. Fails where the output cannot get its name, which is
/// removed then.
pub fn end_part<S: System>(system: &mut S, output: &[u8], is_whole: bool) -> io::Result<()>
    ensures { spec.EndsPart S.may_do output.now is_whole system.old result system.new }
{
    if output == STANDARD {
        return Ok(());
    }
    if !is_whole {
        return remove_part(system, output);
    }
    match move_part(system, output) {
        Ok(()) => Ok(()),
        Err(e) => {
            let _ = remove_part(system, output);
            Err(e)
        }
    }
}
