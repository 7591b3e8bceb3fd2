// An output that is named by the unique identifiers in it.
ghost use Rattle.std.specs.Prelude.{◌≡◌, ◌≤◌, ◌+◌, length};
ghost use Rattle.dcm_cli.specs.Calls as calls;
ghost use Rattle.dcm_walk.specs.Visits.{name_of};
ghost use Rattle.dcm_words.specs.Plans.{job_of};
ghost use Rattle.dcm_trees.specs.Manner.{manner_of};
ghost use Rattle.dcm_trees.specs.Modes.{modes_as};
ghost use Rattle.dcm_trees.specs.Instance as spec;
ghost use Rattle.dcm_trees.specs.World.{world};

use crate::fate::Fate;
use crate::file::{Done, Manner};
use crate::lines::{tell_ended, tell_no_days, tell_place, tell_text};
use crate::modes::Modes;
use crate::part::{
    Naming, NoPart, clear_part, fill, give_name, make_part, open_file, remove_part, tell_naming,
    tell_no_part,
};
use crate::place::{Place, path_in, place_at};
use crate::progress::Stop;
use crate::task::task_of_file;
use dcm_base::{DeviceOut, Watched};
use dcm_cli::Job;
use dcm_files::{Folders, System};
use dcm_instance::{Instance, InstanceUid, NoInstance, read_instance, same_bytes};
use dcm_walk::Named;

/// What became of a file whose output has no name.
fn without_name(fate: Fate) -> Done
    ensures { result ≡ spec.without_name fate }
{
    Done {
        fate,
        instance: None,
    }
}

/// Reads the unique identifiers in the part.
fn instance_in<S: System>(part: &[u8], system: &mut S) -> Result<Instance, NoInstance>
    ensures { spec.FindsInstance S.may_do S.Input.DeviceIn part.now system.old result system.new }
{
    let Some(input) = open_file(part, system) else {
        return Err(NoInstance::Unread);
    };
    let mut input = Watched::new(input);
    let instance = read_instance(&mut input);
    system.release(input.into_device());
    instance
}

/// What is told of a unique identifier that names no output.
fn unfit_text(uid: InstanceUid) -> &'static [u8]
    ensures value { result.now ≡ spec.unfit_text uid }
    ensures within { length result.now ≤ 64 }
{
    match uid {
        InstanceUid::Study => b"StudyInstanceUID is missing or unfit".as_slice(),
        InstanceUid::Series => b"SeriesInstanceUID is missing or unfit".as_slice(),
        InstanceUid::Instance => b"SOPInstanceUID is missing or unfit".as_slice(),
    }
}

/// Tells why an output has no name, and answers what became of its file.
fn tell_no_instance<E: DeviceOut>(name: &[u8], cause: NoInstance, errors: &mut Watched<E>) -> Fate
    ensures line { calls.Reports E.DeviceOut errors.old errors.new (spec.no_instance_line name.now cause) }
    ensures fate { result ≡ spec.no_instance_fate cause }
{
    match cause {
        NoInstance::Unread => {
            tell_text(name, b"output failed", errors);
            Fate::Unwritten
        }
        NoInstance::Unfit(uid) => {
            tell_text(name, unfit_text(uid), errors);
            Fate::Unnamed
        }
    }
}

/// Whether a file is at the name of an output.
fn is_there(naming: Naming) -> bool
    ensures { result ≡ spec.is_there naming }
{
    matches!(naming, Naming::NotFree(Place::There))
}

/// Whether two open files have the same bytes. Both are given back.
fn compare<S: System>(first: S::Input, second: S::Input, system: &mut S) -> bool
    ensures { spec.Compares S.may_do S.Input.DeviceIn first second system.old result system.new }
{
    let mut first = Watched::new(first);
    let mut second = Watched::new(second);
    let is_same = same_bytes(&mut first, &mut second);
    system.release(second.into_device());
    system.release(first.into_device());
    is_same
}

/// Whether the files at two paths can be read, and have the same bytes.
fn is_same_file<S: System>(first: &[u8], second: &[u8], system: &mut S) -> bool
    ensures { spec.ComparesFiles S.may_do S.Input.DeviceIn first.now second.now system.old result system.new }
{
    let Some(one) = open_file(first, system) else {
        return false;
    };
    match open_file(second, system) {
        Some(other) => compare(one, other, system),
        None => {
            system.release(one);
            false
        }
    }
}

/// Whether what is at the name of an output, if a file is, has the bytes of the part.
fn is_copy<S: System>(naming: Naming, part: &[u8], path: &[u8], system: &mut S) -> bool
    ensures { spec.FindsCopy S.may_do S.Input.DeviceIn naming part.now path.now system.old result system.new }
{
    if is_there(naming) {
        is_same_file(part, path, system)
    } else {
        false
    }
}

/// Gives the part the name of its output, if nothing is there.
fn give_free_name<S: Folders>(
    modes: Modes,
    part: &[u8],
    path: &[u8],
    base: usize,
    system: &mut S,
) -> Naming
    requires { base ≤ length path.now }
    ensures { spec.GivesFreeName S.may_do S.folders_do (modes_as modes.entry) part.now path.now base system.old result
        system.new }
{
    let place = place_at(path, base, system);
    if place.is_free() {
        give_name(modes, part, path, base, system)
    } else {
        Naming::NotFree(place)
    }
}

/// Gives the part its name, if nothing is there, and removes it, unless it was moved. A file that is there stays: it is
/// compared with the part.
fn place_part<S: Folders, E: DeviceOut>(
    manner: Manner,
    name: &[u8],
    path: &[u8],
    fate: Fate,
    system: &mut S,
    errors: &mut Watched<E>,
) -> Fate
    requires { length manner.output.now + 1 ≤ length path.now }
    ensures { spec.PlacesPart (world S.may_do S.folders_do S.Input.DeviceIn S.Output.DeviceOut E.DeviceOut)
        (manner_of manner.entry) name.now path.now fate errors.old system.old result errors.new system.new }
{
    let base = manner.output.len() + 1;
    let naming = give_free_name(manner.modes, manner.part, path, base, system);
    let is_copied = is_copy(naming, manner.part, path, system);
    clear_part(naming, manner.part, system);
    tell_naming(name, naming, fate, is_copied, errors)
}

/// Names the part by the instance in it.
fn name_by<S: Folders, E: DeviceOut>(
    manner: Manner,
    name: &[u8],
    instance: &Instance,
    fate: Fate,
    system: &mut S,
    errors: &mut Watched<E>,
) -> Done
    ensures { spec.NamesBy (world S.may_do S.folders_do S.Input.DeviceIn S.Output.DeviceOut E.DeviceOut)
        (manner_of manner.entry) name.now instance.now fate errors.old system.old result errors.new system.new }
{
    let relative = instance.name();
    match path_in(manner.output, relative.as_slice()) {
        Some(path) => Done {
            fate: place_part(manner, name, path.as_slice(), fate, system, errors),
            instance: Some(relative),
        },
        None => {
            remove_part(manner.part, system);
            without_name(tell_place(name, Place::Barred, false, errors))
        }
    }
}

/// Names the part, which a job was done into.
fn name_part<S: Folders, E: DeviceOut>(
    manner: Manner,
    name: &[u8],
    fate: Fate,
    system: &mut S,
    errors: &mut Watched<E>,
) -> Done
    ensures { spec.NamesPart (world S.may_do S.folders_do S.Input.DeviceIn S.Output.DeviceOut E.DeviceOut)
        (manner_of manner.entry) name.now fate errors.old system.old result errors.new system.new }
{
    match instance_in(manner.part, system) {
        Ok(instance) => name_by(manner, name, &instance, fate, system, errors),
        Err(cause) => {
            remove_part(manner.part, system);
            without_name(tell_no_instance(name, cause, errors))
        }
    }
}

/// Does a job from a file into the part, which is then named where all was done, and removed.
fn fill_by_instance<S: Folders, E: DeviceOut>(
    job: &Job,
    manner: Manner,
    name: &[u8],
    input: S::Input,
    output: S::Output,
    system: &mut S,
    errors: &mut Watched<E>,
) -> Done
    ensures { spec.FillsByInstance (world S.may_do S.folders_do S.Input.DeviceIn S.Output.DeviceOut E.DeviceOut)
        (job_of job.now) (manner_of manner.entry) name.now input output errors.old system.old result errors.new
        system.new }
{
    let ended = fill(job, input, output, system);
    let fate = tell_ended(name, ended, errors);
    if fate.is_written() {
        return name_part(manner, name, fate, system, errors);
    }
    remove_part(manner.part, system);
    without_name(fate)
}

/// Tells that there is no part to write to.
fn end_without_part<E: DeviceOut>(
    name: &[u8],
    cause: NoPart,
    errors: &mut Watched<E>,
) -> Result<Done, Stop>
    ensures { spec.EndsWithoutPart E.DeviceOut name.now cause errors.old result errors.new }
{
    match tell_no_part(name, cause, errors) {
        Ok(fate) => Ok(without_name(fate)),
        Err(stop) => Err(stop),
    }
}

/// Does a job of a file whose output is named by the instance in it.
fn do_by_instance<S: Folders, E: DeviceOut>(
    job: &Job,
    manner: Manner,
    named: &Named,
    mode: u32,
    system: &mut S,
    errors: &mut Watched<E>,
) -> Result<Done, Stop>
    ensures { spec.DoesByInstance (world S.may_do S.folders_do S.Input.DeviceIn S.Output.DeviceOut E.DeviceOut)
        (job_of job.now) (manner_of manner.entry) (name_of named.now) mode errors.old system.old result errors.new
        system.new }
{
    let Some(input) = open_file(named.path, system) else {
        tell_text(named.name, b"input cannot be opened", errors);
        return Ok(without_name(Fate::Unread));
    };
    match make_part(manner.part, mode, system) {
        Ok(output) => Ok(fill_by_instance(job, manner, named.name, input, output, system, errors)),
        Err(cause) => {
            system.release(input);
            end_without_part(named.name, cause, errors)
        }
    }
}

/// Does a file whose output is named by the instance in it, and not by its name, which says who it is.
pub(crate) fn do_unnamed<S: Folders, E: DeviceOut>(
    manner: Manner,
    named: &Named,
    mode: u32,
    system: &mut S,
    errors: &mut Watched<E>,
) -> Result<Done, Stop>
    ensures { spec.DoesUnnamed (world S.may_do S.folders_do S.Input.DeviceIn S.Output.DeviceOut E.DeviceOut)
        (manner_of manner.entry) (name_of named.now) mode errors.old system.old result errors.new system.new }
{
    match task_of_file(manner.task, named.path, system) {
        Ok(job) => do_by_instance(job.job(), manner, named, mode, system, errors),
        Err(cause) => Ok(without_name(tell_no_days(named.name, cause, errors))),
    }
}
