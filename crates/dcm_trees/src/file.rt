// A file of a tree, into its output.
ghost use Rattle.std.specs.Prelude.{◌≡◌, ◌≢◌, ◌≤◌, ◌+◌, length, true, false};
ghost use Rattle.std.specs.List.{list_all};
ghost use Rattle.dcm_cli.specs.Calls as calls;
ghost use Rattle.dcm_walk.specs.Visits.{name_of};
ghost use Rattle.dcm_words.specs.Plans.{job_of};
ghost use Rattle.dcm_trees.specs.File as spec;
ghost use Rattle.dcm_trees.specs.Manner.{manner_of};
ghost use Rattle.dcm_trees.specs.World.{world};

use crate::fate::{Fate, fate_of, text_of};
use crate::instance::do_unnamed;
use crate::lines::{tell_no_days, tell_place, tell_text};
use crate::modes::Modes;
use crate::part::{fill_and_name, make_part, open_file, tell_no_part};
use crate::place::{Place, path_in, place_at};
use crate::progress::Stop;
use crate::task::{Task, task_of_file};
use arrayvec::ArrayVec;
use dcm_base::{DeviceOut, Watched};
use dcm_cli::Job;
use dcm_files::Folders;
use dcm_instance::MOST_OF_INSTANCE_NAME;
use dcm_walk::{Named, What};

/// What ends a part of a name.
const SLASH: u8 = b'/';

/// The name of the index of a medium (PS3.10, section 8.6), in capitals or not.
const MEDIA_INDEX: &[u8] = b"DICOMDIR";

/// How the files of a tree are done.
#[derive(Clone, Copy)]
pub struct Manner<'a> {
    pub task: Task<'a>,
    /// The folder of the outputs.
    pub output: &'a [u8],
    /// The path at which an output is written.
    pub part: &'a [u8],
    /// Whether the run goes on with outputs that are there.
    pub continues: bool,
    /// Whether an output has the name of its input, and not that of the instance in it.
    pub keeps_names: bool,
    /// The modes of folders that are made.
    pub modes: Modes<'a>,
}

/// The name of an output, of the instance in it.
pub type InstanceName = ArrayVec<u8, MOST_OF_INSTANCE_NAME>;

/// What became of a name, and the name of its output where that is not its own.
#[derive(Drop)]
pub struct Done {
    pub fate: Fate,
    pub instance: Option<InstanceName>,
}

/// What became of a name that gives its output its own.
fn under_its_name(done: Result<Fate, Stop>) -> Result<Done, Stop>
    ensures { result ≡ spec.under_its_name done }
{
    Ok(Done {
        fate: done?,
        instance: None,
    })
}

/// Whether a byte is a digit.
fn is_digit(byte: u8) -> bool
    ensures { result ≡ spec.is_digit byte }
{
    b'0' <= byte && byte <= b'9'
}

/// Whether all bytes are digits.
fn are_digits(bytes: &[u8]) -> bool
    ensures { result ≡ list_all spec.is_digit bytes.now }
{
    bytes.iter().all(|byte| is_digit(*byte))
}

/// Whether bytes are nothing, or the version of a name: a semicolon and digits (ISO 9660, section 7.5.1).
fn is_version(bytes: &[u8]) -> bool
    ensures { result ≡ spec.is_version bytes.now }
{
    match bytes {
        [] => true,
        [b';', first, digits @ ..] => is_digit(*first) && are_digits(digits),
        _ => false,
    }
}

/// Whether bytes may stand behind the name of the index of a medium: the dot of an empty extension, and a version.
fn is_behind_index(bytes: &[u8]) -> bool
    ensures { result ≡ spec.is_behind_index bytes.now }
{
    match bytes {
        [b'.', version @ ..] => is_version(version),
        _ => is_version(bytes),
    }
}

/// Whether bytes are the name that PS3.10 gives the index of a medium, in capitals or not.
fn is_index_name(bytes: &[u8]) -> bool
    ensures { result ≡ spec.is_index_name bytes.now }
{
    bytes.eq_ignore_ascii_case(MEDIA_INDEX)
}

/// Whether a name is that of the index of a medium.
fn is_index(name: &[u8]) -> bool
    ensures { result ≡ spec.is_index name.now }
{
    if name.len() < MEDIA_INDEX.len() {
        return false;
    }
    let (index, behind) = name.split_at(MEDIA_INDEX.len());
    is_index_name(index) && is_behind_index(behind)
}

/// Whether the last part of a relative name is that of the index of a medium.
fn is_media_index(relative: &[u8]) -> bool
    ensures { result ≡ spec.is_media_index relative.now }
{
    if is_index(relative) {
        return true;
    }
    let mut rest = relative;
    while let [first, after @ ..] = rest {
        if *first == SLASH && is_index(after) {
            return true;
        }
        rest = after;
    }
    false
}

/// Does a job of a file at the name of whose output nothing is.
fn do_ready<S: Folders, E: DeviceOut>(
    job: &Job,
    manner: Manner,
    named: &Named,
    mode: u32,
    path: &[u8],
    system: &mut S,
    errors: &mut Watched<E>,
) -> Result<Fate, Stop>
    requires { length manner.output.now + 1 ≤ length path.now }
    ensures { spec.DoesReady (world S.may_do S.folders_do S.Input.DeviceIn S.Output.DeviceOut E.DeviceOut)
        (job_of job.now) (manner_of manner.entry) (name_of named.now) mode path.now errors.old system.old result
        errors.new system.new }
{
    let Some(input) = open_file(named.path, system) else {
        tell_text(named.name, b"input cannot be opened", errors);
        return Ok(Fate::Unread);
    };
    match make_part(manner.part, mode, system) {
        Ok(output) => Ok(fill_and_name(
            job, manner, named.name, path, input, output, system, errors,
        )),
        Err(cause) => {
            system.release(input);
            tell_no_part(named.name, cause, errors)
        }
    }
}

/// Does a file at the name of whose output nothing is.
fn do_free<S: Folders, E: DeviceOut>(
    manner: Manner,
    named: &Named,
    mode: u32,
    path: &[u8],
    system: &mut S,
    errors: &mut Watched<E>,
) -> Result<Fate, Stop>
    requires { length manner.output.now + 1 ≤ length path.now }
    ensures { spec.DoesFree (world S.may_do S.folders_do S.Input.DeviceIn S.Output.DeviceOut E.DeviceOut)
        (manner_of manner.entry) (name_of named.now) mode path.now errors.old system.old result errors.new
        system.new }
{
    match task_of_file(manner.task, named.path, system) {
        Ok(job) => do_ready(job.job(), manner, named, mode, path, system, errors),
        Err(cause) => Ok(tell_no_days(named.name, cause, errors)),
    }
}

/// Does a file whose output is to be at a path, unless something is there.
fn do_placed<S: Folders, E: DeviceOut>(
    manner: Manner,
    named: &Named,
    mode: u32,
    path: &[u8],
    system: &mut S,
    errors: &mut Watched<E>,
) -> Result<Fate, Stop>
    requires { length manner.output.now + 1 ≤ length path.now }
    ensures { spec.DoesPlaced (world S.may_do S.folders_do S.Input.DeviceIn S.Output.DeviceOut E.DeviceOut)
        (manner_of manner.entry) (name_of named.now) mode path.now errors.old system.old result errors.new
        system.new }
{
    let base = manner.output.len() + 1;
    let place = place_at(path, base, system);
    if place.is_free() {
        do_free(manner, named, mode, path, system, errors)
    } else {
        Ok(tell_place(named.name, place, manner.continues, errors))
    }
}

/// Does a regular file of a tree whose output has its name.
fn do_named<S: Folders, E: DeviceOut>(
    manner: Manner,
    named: &Named,
    mode: u32,
    system: &mut S,
    errors: &mut Watched<E>,
) -> Result<Fate, Stop>
    ensures { spec.DoesNamed (world S.may_do S.folders_do S.Input.DeviceIn S.Output.DeviceOut E.DeviceOut)
        (manner_of manner.entry) (name_of named.now) mode errors.old system.old result errors.new system.new }
{
    match path_in(manner.output, named.relative) {
        Some(path) => do_placed(manner, named, mode, path.as_slice(), system, errors),
        None => Ok(tell_place(named.name, Place::Barred, manner.continues, errors)),
    }
}

/// Does a regular file of a tree.
fn do_file<S: Folders, E: DeviceOut>(
    manner: Manner,
    named: &Named,
    mode: u32,
    system: &mut S,
    errors: &mut Watched<E>,
) -> Result<Done, Stop>
    ensures { spec.DoesFile (world S.may_do S.folders_do S.Input.DeviceIn S.Output.DeviceOut E.DeviceOut)
        (manner_of manner.entry) (name_of named.now) mode errors.old system.old result errors.new system.new }
{
    if is_media_index(named.relative) {
        tell_text(named.name, b"DICOMDIR is left out", errors);
        return under_its_name(Ok(Fate::MediaIndex));
    }
    if manner.keeps_names {
        return under_its_name(do_named(manner, named, mode, system, errors));
    }
    do_unnamed(manner, named, mode, system, errors)
}

/// Does a name of a tree that is not entered: a file into its output; of another only a line tells why nothing is done.
/// Answers what became of it. Fails where another run's part is there, or without memory for an output.
pub fn do_name<S: Folders, E: DeviceOut>(
    manner: Manner,
    named: &Named,
    what: What,
    system: &mut S,
    errors: &mut Watched<E>,
) -> Result<Done, Stop>
    ensures { spec.DoesName (world S.may_do S.folders_do S.Input.DeviceIn S.Output.DeviceOut E.DeviceOut)
        (manner_of manner.entry) (name_of named.now) what errors.old system.old result errors.new system.new }
{
    match what {
        What::File { mode } => do_file(manner, named, mode, system, errors),
        _ => {
            tell_text(named.name, text_of(what), errors);
            under_its_name(Ok(fate_of(what)))
        }
    }
}
