// The program: words, devices, and the exit status.
ghost use Rattle.std.specs.Prelude.{◌≤◌, ◌≡◌, map, Some};
ghost use Rattle.dcm_words.specs.Words.{deidentify as deidentify_job};
ghost use Rattle.dcm_words.specs.Plans as plans;
ghost use Rattle.dcm_words.specs.Topics as topics;
ghost use Rattle.dcm_cli.specs.Calls as calls;
ghost use Rattle.dcm_cli.specs.Change.{change_of};
ghost use Rattle.dcm_cli.specs.Days as days;
ghost use Rattle.dcm_cli.specs.Keys as keys;
ghost use Rattle.dcm_cli.specs.Program as spec;
ghost use Rattle.dcm_cli.specs.Status as statuses;

use crate::days::{NoDays, take_days};
use crate::ending::{Ended, Ending, Verdict};
use crate::error_lines::{
    tell, tell_fault, tell_irregular, tell_key, tell_open, tell_output, tell_part, tell_same,
    tell_there, tell_unread,
};
use crate::key::{KeyRead, NoKey, take_key};
use crate::run::{finish, flushed, tell_ended, tell_ending};
use crate::status;
use dcm_base::{DeviceOut, Watched, WordFault, put_all};
use dcm_deid::Options;
use dcm_files::{
    FileKind, Opened, System, Unopened, end_part, open_devices, open_whole_devices, unopened,
};
use dcm_words::{Deidentify, Job, Planned, Topic, Usage, asked, plan, with_days};
use std::alloc::Global;
use std::io;

/// How the writing of a text ends.
const DONE: Ending = Ending::Worked(Verdict::Done { unplaced: 0 });

/// Reports why a job is not begun, and answers the status.
pub fn tell_unopened<E: DeviceOut>(unopened: Unopened, errors: &mut Watched<E>) -> u8
    ensures line { calls.Reports E.DeviceOut errors.old errors.new (spec.unopened_line unopened) }
    ensures status { result ≡ spec.unopened_status unopened }
{
    match unopened {
        Unopened::Input => tell_open(false, errors),
        Unopened::Output => tell_open(true, errors),
        Unopened::Same => tell_same(errors),
        Unopened::There => tell_there(errors),
        Unopened::Part => tell_part(errors),
        Unopened::Memory => tell(&Usage::Memory, errors),
    }
}

/// Reports why there is no key, and answers the status.
pub fn tell_no_key<E: DeviceOut>(cause: NoKey, errors: &mut Watched<E>) -> u8
    ensures line { calls.Reports E.DeviceOut errors.old errors.new (keys.no_key_line cause) }
    ensures status { result ≡ keys.no_key_status cause }
{
    match cause {
        NoKey::Unopened => tell_key(false, errors),
        NoKey::Unread => tell_key(true, errors),
        NoKey::Size => tell(&Usage::Whole(WordFault::BadKey), errors),
        NoKey::Memory => tell(&Usage::Memory, errors),
    }
}

/// Reports why there are no days, and answers the status.
fn tell_no_days<E: DeviceOut>(cause: NoDays, errors: &mut Watched<E>) -> u8
    ensures line { calls.Reports E.DeviceOut errors.old errors.new (days.no_days_line cause) }
    ensures status { result ≡ days.no_days_status cause }
{
    match cause {
        NoDays::Unopened => tell_open(false, errors),
        NoDays::Memory => tell(&Usage::Memory, errors),
        NoDays::NotRegular => tell_irregular(errors),
        NoDays::Unread(read) => {
            tell_unread(read, errors);
            status::DEVICE
        }
        NoDays::Refused(stop) => {
            tell_fault(stop, errors);
            status::FAULT
        }
    }
}

/// How a job ended, after its output was closed: bytes that were lost then are a failure of the output.
fn after_closing(ended: Ended, closing: &io::Result<()>) -> Ended
    ensures { result ≡ spec.after_closing ended closing.now }
{
    match ended.ending {
        Ending::Worked(_) if closing.is_err() => Ended {
            remarks: ended.remarks,
            ending: Ending::Output,
        },
        _ => ended,
    }
}

/// Runs a job over its devices, and gives them back.
fn run_over<S: System, E: DeviceOut>(
    system: &mut S,
    job: &Job,
    input: Opened<S::Input>,
    output: Opened<S::Output>,
    errors: &mut Watched<E>,
) -> u8
    ensures runs { spec.RunsOver S.may_do S.Input.DeviceIn S.Output.DeviceOut (plans.job_of job.now)
        (change_of E.DeviceOut errors.old errors.new) input.device output.device system.old result system.new }
    ensures within { result ≤ statuses.DEVICE }
{
    let mut input = Watched::new(input.device);
    let mut out = Watched::new(output.device);
    let ended = finish(job, &mut input, &mut out);
    let closing = system.close(out.into_device());
    system.release(input.into_device());
    tell_ended(after_closing(ended, &closing), errors)
}

/// Opens the devices of a job and runs it. Nothing is read or written where one cannot be opened.
fn work<S: System, E: DeviceOut>(system: &mut S, planned: &Planned, errors: &mut Watched<E>) -> u8
    ensures works { spec.Works S.may_do S.Input.DeviceIn S.Output.DeviceOut (plans.planned planned.now)
        (change_of E.DeviceOut errors.old errors.new) system.old result system.new }
    ensures within { result ≤ statuses.MEMORY }
{
    match open_devices(system, planned.input, planned.output, planned.overwrites) {
        Ok((input, output)) => run_over(system, &planned.job, input, output, errors),
        Err(unopened) => tell_unopened(unopened, errors),
    }
}

/// Gives an output its name where its job was done, and else removes it; answers the status.
fn end_output<S: System, E: DeviceOut>(
    system: &mut S,
    output: &[u8],
    ran: u8,
    errors: &mut Watched<E>,
) -> u8
    ensures ends { spec.EndsOutput S.may_do output.now ran (change_of E.DeviceOut errors.old errors.new) system.old
        result system.new }
    ensures within { ran ≤ statuses.DEVICE → result ≤ statuses.DEVICE }
{
    let is_whole = ran == status::DONE;
    let ended = end_part(system, output, is_whole);
    if is_whole && ended.is_err() {
        tell_output(errors);
        return status::DEVICE;
    }
    ran
}

/// Opens the devices of a plan and runs a job: the output has its name only once it is whole, and is not the file that
/// was read earlier.
fn work_whole<S: System, E: DeviceOut>(
    system: &mut S,
    planned: &Planned,
    job: &Job,
    earlier: Option<FileKind>,
    errors: &mut Watched<E>,
) -> u8
    ensures works { spec.WorksWhole S.may_do S.Input.DeviceIn S.Output.DeviceOut (plans.planned planned.now)
        (plans.job_of job.now) earlier (change_of E.DeviceOut errors.old errors.new) system.old result system.new }
    ensures within { result ≤ statuses.MEMORY }
{
    match open_whole_devices(
        system,
        planned.input,
        planned.output,
        planned.overwrites,
        earlier,
    ) {
        Ok((input, output)) => {
            let ran = run_over(system, job, input, output, errors);
            end_output(system, planned.output, ran, errors)
        }
        Err(unopened) => tell_unopened(unopened, errors),
    }
}

/// Takes identity out of a file with a key that was read.
fn deidentify_with<S: System, E: DeviceOut>(
    system: &mut S,
    planned: &Planned,
    options: Options,
    reports: bool,
    key: KeyRead,
    errors: &mut Watched<E>,
) -> u8
    ensures works { spec.WorksWhole S.may_do S.Input.DeviceIn S.Output.DeviceOut (plans.planned planned.now)
        (deidentify_job options reports key.bytes.items) (Some key.kind) (change_of E.DeviceOut errors.old errors.new)
        system.old result system.new }
    ensures within { result ≤ statuses.MEMORY }
{
    let job = Job::Deidentify(Deidentify {
        options,
        reports,
        key: key.bytes,
    });
    work_whole(system, planned, &job, Some(key.kind), errors)
}

/// Takes identity out of a file with a key that was read, its dates moved by the days that the key makes of its
/// patient.
fn deidentify_by_days<S: System, E: DeviceOut>(
    system: &mut S,
    planned: &Planned,
    what: &Deidentify,
    key: KeyRead,
    errors: &mut Watched<E>,
) -> u8
    ensures works { spec.MovesByKey S.may_do S.Input.DeviceIn S.Output.DeviceOut (plans.planned planned.now)
        what.now.options what.now.reports key (change_of E.DeviceOut errors.old errors.new) system.old result
        system.new }
    ensures within { result ≤ statuses.MEMORY }
{
    match take_days(system, planned.input, key.bytes.as_slice()) {
        Ok(days) => {
            let options = with_days(what.options, days);
            deidentify_with(system, planned, options, what.reports, key, errors)
        }
        Err(cause) => tell_no_days(cause, errors),
    }
}

/// Reads the key, where there is one, and takes identity out of a file.
fn deidentify<S: System, E: DeviceOut>(
    system: &mut S,
    planned: &Planned,
    what: &Deidentify,
    errors: &mut Watched<E>,
) -> u8
    ensures works { spec.Deidentifies S.may_do S.Input.DeviceIn S.Output.DeviceOut (plans.planned planned.now)
        what.now.options what.now.reports (change_of E.DeviceOut errors.old errors.new) system.old result system.new }
    ensures within { result ≤ statuses.MEMORY }
{
    let Some(path) = planned.key else {
        return work_whole(system, planned, &planned.job, None, errors);
    };
    match take_key(system, path) {
        Ok(key) if planned.days_by_key => deidentify_by_days(system, planned, what, key, errors),
        Ok(key) => deidentify_with(system, planned, what.options, what.reports, key, errors),
        Err(cause) => tell_no_key(cause, errors),
    }
}

/// Does what a plan says, and answers the status.
fn work_on<S: System, E: DeviceOut>(
    system: &mut S,
    planned: &Planned,
    errors: &mut Watched<E>,
) -> u8
    ensures works { spec.WorksAs (plans.job_of planned.now.job) S.may_do S.Input.DeviceIn S.Output.DeviceOut
        (plans.planned planned.now) (change_of E.DeviceOut errors.old errors.new) system.old result system.new }
    ensures within { result ≤ statuses.MEMORY }
{
    match &planned.job {
        Job::Deidentify(what) => deidentify(system, planned, what, errors),
        _ => work(system, planned, errors),
    }
}

/// Writes a text, and answers the status.
fn put_text<W: DeviceOut, E: DeviceOut>(
    text: &str,
    out: &mut Watched<W>,
    errors: &mut Watched<E>,
) -> u8
    ensures put { spec.PutsText text.now (change_of W.DeviceOut out.old out.new)
        (change_of E.DeviceOut errors.old errors.new) result }
    ensures within { result ≤ statuses.DEVICE }
{
    let ending = match put_all(out, text.as_bytes()) {
        Ok(()) => DONE,
        Err(_) => Ending::Output,
    };
    let ending = flushed(ending, out);
    tell_ending(ending, errors)
}

/// Shows a text about the program on standard output, and answers the status.
fn show<S: System, E: DeviceOut>(system: &mut S, topic: Topic, errors: &mut Watched<E>) -> u8
    ensures shows { spec.Shows S.may_do S.Output.DeviceOut (topics.text topic)
        (change_of E.DeviceOut errors.old errors.new) system.old result system.new }
    ensures within { result ≤ statuses.MEMORY }
{
    let output = match system.stdout() {
        Ok(output) => output,
        Err(e) => return tell_unopened(unopened(&e, Unopened::Output), errors),
    };
    let mut out = Watched::new(output.device);
    let status = put_text(topic.text(), &mut out, errors);
    let _ = system.close(out.into_device());
    status
}

/// Does what the words of a command line say, after the program's name, with the devices that they name. It reports
/// what is wrong, and answers the exit status.
pub fn obey<S: System, E: DeviceOut>(
    system: &mut S,
    alloc: Global,
    words: &[&[u8]],
    errors: &mut Watched<E>,
) -> u8
    ensures obeys { spec.Obeys S.may_do S.Input.DeviceIn S.Output.DeviceOut (map (λ w. w.now) words.now)
        (change_of E.DeviceOut errors.old errors.new) system.old result system.new }
    ensures within { result ≤ statuses.MEMORY }
{
    if let Some(topic) = asked(words) {
        return show(system, topic, errors);
    }
    match plan(alloc, words) {
        Ok(planned) => work_on(system, &planned, errors),
        Err(usage) => tell(&usage, errors),
    }
}
