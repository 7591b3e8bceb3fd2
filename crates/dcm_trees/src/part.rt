// The part: a file at a path of its own, which a job is done into before it gets the name of an output.
ghost use Rattle.std.specs.Prelude.{◌≡◌, ◌≢◌, ◌≤◌, ◌+◌, length, true, false};
ghost use Rattle.dcm_cli.specs.Calls as calls;
ghost use Rattle.dcm_words.specs.Plans.{job_of};
ghost use Rattle.dcm_trees.specs.Manner.{manner_of};
ghost use Rattle.dcm_trees.specs.Modes.{modes_as};
ghost use Rattle.dcm_trees.specs.Opening.{OpensFile};
ghost use Rattle.dcm_trees.specs.Part as spec;
ghost use Rattle.dcm_trees.specs.World.{world};

use crate::fate::Fate;
use crate::file::Manner;
use crate::lines::{tell_ended, tell_place, tell_text};
use crate::modes::Modes;
use crate::place::{Place, make_way, place_at, wants_memory, was_there};
use crate::progress::Stop;
use dcm_base::{DeviceOut, Watched};
use dcm_cli::Job;
use dcm_cli::ending::{Ended, Ending, Verdict};
use dcm_cli::run::finish;
use dcm_files::{FileKind, Folders, System};
use std::{io, str};

/// Why no part is there that could be written.
#[derive(Clone, Copy, Debug, PartialEq, Eq)]
pub enum NoPart {
    /// Another run's is.
    There,
    /// There is no memory for its buffer.
    Memory,
    /// It cannot be made.
    NotMade,
}

/// How an output got its name.
#[derive(Clone, Copy, Debug, PartialEq, Eq)]
pub enum Naming {
    /// The part has a second name.
    Linked,
    /// The part was moved.
    Moved,
    /// It did not: something is at that name, or was.
    NotFree(Place),
    /// It did not.
    Failed,
}

/// Whether a folder was opened.
fn is_directory(kind: FileKind) -> bool
    ensures yes { result ≡ true → kind ≡ FileKind.Directory }
    ensures no { result ≡ false → kind ≢ FileKind.Directory }
{
    matches!(kind, FileKind::Directory)
}

/// Opens a file that is read.
pub(crate) fn open_file<S: System>(path: &[u8], system: &mut S) -> Option<S::Input>
    ensures { OpensFile S.may_do path.now system.old result system.new }
{
    let Ok(text) = str::from_utf8(path) else {
        return None;
    };
    let Ok(opened) = system.open(text) else {
        return None;
    };
    if is_directory(opened.kind) {
        system.release(opened.device);
        return None;
    }
    Some(opened.device)
}

/// Makes the part, with bits of a mode.
pub(crate) fn make_part<S: Folders>(
    part: &[u8],
    mode: u32,
    system: &mut S,
) -> Result<S::Output, NoPart>
    ensures { spec.MakesPart S.folders_do part.now mode system.old result system.new }
{
    let Ok(text) = str::from_utf8(part) else {
        return Err(NoPart::NotMade);
    };
    match system.create_as(text, mode) {
        Ok(opened) => Ok(opened.device),
        Err(e) if was_there(&e) => Err(NoPart::There),
        Err(e) if wants_memory(&e) => Err(NoPart::Memory),
        Err(_) => Err(NoPart::NotMade),
    }
}

/// Removes the part. Where that fails it stays.
pub(crate) fn remove_part<S: System>(part: &[u8], system: &mut S)
    ensures { spec.RemovesPart S.may_do part.now system.old system.new }
{
    let Ok(text) = str::from_utf8(part) else {
        return;
    };
    let _ = system.remove(text);
}

/// How a job ended, after its output was closed: where all was done, bytes that were lost then are a failure of the
/// output.
fn after_closing(ending: Ending, closing: &io::Result<()>) -> Ending
    ensures { result ≡ spec.after_closing ending closing.now }
{
    match ending {
        Ending::Worked(Verdict::Done { .. }) if closing.is_err() => Ending::Output,
        _ => ending,
    }
}

/// Does a job from a file into the part, and gives both back.
pub(crate) fn fill<S: System>(
    job: &Job,
    input: S::Input,
    output: S::Output,
    system: &mut S,
) -> Ended
    ensures { spec.FillsOn S.may_do S.Input.DeviceIn S.Output.DeviceOut (job_of job.now) input output system.old result
        system.new }
{
    let mut input = Watched::new(input);
    let mut out = Watched::new(output);
    let ended = finish(job, &mut input, &mut out);
    let closing = system.close(out.into_device());
    system.release(input.into_device());
    Ended {
        remarks: ended.remarks,
        ending: after_closing(ended.ending, &closing),
    }
}

/// Moves the part to the name of its output.
fn move_part<S: System>(part: &str, path: &str, system: &mut S) -> Naming
    ensures { spec.MovesPart S.may_do part.now path.now system.old result system.new }
{
    match system.rename(part, path) {
        Ok(()) => Naming::Moved,
        Err(_) => Naming::Failed,
    }
}

/// Moves the part to the name of its output, if nothing is there.
fn move_if_free<S: Folders>(part: &str, path: &str, base: usize, system: &mut S) -> Naming
    requires { base ≤ length path.now }
    ensures { spec.MovesIfFree S.may_do S.folders_do part.now path.now base system.old result system.new }
{
    let place = place_at(path.as_bytes(), base, system);
    if place.is_free() {
        move_part(part, path, system)
    } else {
        Naming::NotFree(place)
    }
}

/// What is at the name of an output that something was said to be at. Nothing is moved there.
fn look_again<S: Folders>(path: &str, base: usize, system: &mut S) -> Naming
    requires { base ≤ length path.now }
    ensures { spec.LooksAgain S.folders_do path.now base system.old result system.new }
{
    Naming::NotFree(place_at(path.as_bytes(), base, system))
}

/// Gives the part the name of its output, in folders that are there: a second name, which replaces nothing; or, where
/// the file system has none, the part is moved, if nothing is at that name.
fn give_second_name<S: Folders>(part: &[u8], path: &[u8], base: usize, system: &mut S) -> Naming
    requires { base ≤ length path.now }
    ensures { spec.GivesSecondName S.may_do S.folders_do part.now path.now base system.old result system.new }
{
    let Ok(from) = str::from_utf8(part) else {
        return Naming::Failed;
    };
    let Ok(to) = str::from_utf8(path) else {
        return Naming::Failed;
    };
    match system.link(from, to) {
        Ok(()) => Naming::Linked,
        Err(e) if was_there(&e) => look_again(to, base, system),
        Err(_) => move_if_free(from, to, base, system),
    }
}

/// Makes the folders on the way to an output, and gives it its name.
pub(crate) fn give_name<S: Folders>(
    modes: Modes,
    part: &[u8],
    path: &[u8],
    base: usize,
    system: &mut S,
) -> Naming
    requires { base ≤ length path.now }
    ensures { spec.GivesName S.may_do S.folders_do (modes_as modes.entry) part.now path.now base system.old result
        system.new }
{
    match make_way(path, base, modes, system) {
        Ok(()) => give_second_name(part, path, base, system),
        Err(_) => Naming::Failed,
    }
}

/// Whether the part has its place no longer.
fn is_moved(naming: Naming) -> bool
    ensures { result ≡ spec.is_moved naming }
{
    matches!(naming, Naming::Moved)
}

/// Removes the part, unless it was moved: another run's may be there then.
pub(crate) fn clear_part<S: System>(naming: Naming, part: &[u8], system: &mut S)
    ensures { spec.ClearsPart S.may_do naming part.now system.old system.new }
{
    if is_moved(naming) {
        return;
    }
    remove_part(part, system);
}

/// Tells why an output did not get its name, where it did not. Answers what became of the file, where that is this
/// otherwise.
pub(crate) fn tell_naming<E: DeviceOut>(
    name: &[u8],
    naming: Naming,
    fate: Fate,
    continues: bool,
    errors: &mut Watched<E>,
) -> Fate
    ensures line { calls.Reports E.DeviceOut errors.old errors.new (spec.naming_lines name.now naming continues) }
    ensures fate { result ≡ spec.naming_fate naming fate continues }
{
    match naming {
        Naming::Linked | Naming::Moved => fate,
        Naming::NotFree(place) => tell_place(name, place, continues, errors),
        Naming::Failed => {
            tell_text(name, b"output failed", errors);
            Fate::Unwritten
        }
    }
}

/// Gives an output that was written its name, and removes the part, unless it was moved.
fn name_output<S: Folders, E: DeviceOut>(
    manner: Manner,
    name: &[u8],
    path: &[u8],
    fate: Fate,
    system: &mut S,
    errors: &mut Watched<E>,
) -> Fate
    requires { length manner.output.now + 1 ≤ length path.now }
    ensures { spec.NamesOutput S.may_do S.folders_do E.DeviceOut (manner_of manner.entry) name.now path.now fate
        errors.old system.old result errors.new system.new }
{
    let base = manner.output.len() + 1;
    let naming = give_name(manner.modes, manner.part, path, base, system);
    clear_part(naming, manner.part, system);
    tell_naming(name, naming, fate, manner.continues, errors)
}

/// Does a job from a file into the part, which gets the name of its output where all was done, and is removed. Tells
/// what is wrong, and answers what became of the file.
pub(crate) fn fill_and_name<S: Folders, E: DeviceOut>(
    job: &Job,
    manner: Manner,
    name: &[u8],
    path: &[u8],
    input: S::Input,
    output: S::Output,
    system: &mut S,
    errors: &mut Watched<E>,
) -> Fate
    requires { length manner.output.now + 1 ≤ length path.now }
    ensures { spec.FillsAndNames (world S.may_do S.folders_do S.Input.DeviceIn S.Output.DeviceOut E.DeviceOut)
        (job_of job.now) (manner_of manner.entry) name.now path.now input output errors.old system.old result
        errors.new system.new }
{
    let ended = fill(job, input, output, system);
    let fate = tell_ended(name, ended, errors);
    if fate.is_written() {
        return name_output(manner, name, path, fate, system, errors);
    }
    remove_part(manner.part, system);
    fate
}

/// Tells that there is no part to write to. Where another run's is there, and without memory, the run ends without a
/// line of the file.
pub(crate) fn tell_no_part<E: DeviceOut>(
    name: &[u8],
    cause: NoPart,
    errors: &mut Watched<E>,
) -> Result<Fate, Stop>
    ensures { spec.TellsNoPart E.DeviceOut name.now cause errors.old result errors.new }
{
    match cause {
        NoPart::There => Err(Stop::PartThere),
        NoPart::Memory => Err(Stop::Memory),
        NoPart::NotMade => {
            tell_text(name, b"output cannot be opened", errors);
            Ok(Fate::Unwritten)
        }
    }
}
