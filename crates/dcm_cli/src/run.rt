// A job over devices.
ghost use Rattle.std.specs.Prelude.{◌≡◌, ◌≤◌, true, false};
ghost use Rattle.dcm_cli.specs.Calls as calls;
ghost use Rattle.dcm_cli.specs.Calls.{Runs};
ghost use Rattle.dcm_cli.specs.Change.{change_of};
ghost use Rattle.dcm_cli.specs.Remarks as remarked;
ghost use Rattle.dcm_cli.specs.Run as spec;
ghost use Rattle.dcm_cli.specs.Status as statuses;
ghost use Rattle.dcm_devices.specs.Writing.{Wrote};
ghost use Rattle.dcm_words.specs.Plans.{job_of};

use crate::build::build;
use crate::convert::convert;
use crate::deidentify::deidentify;
use crate::dump::dump;
use crate::ending::{Ended, Ending, Remarks, Verdict, remarking_nothing};
use crate::error_lines::{
    put_emptied, put_nobody, put_unknown, tell_fault, tell_line_fault, tell_output, tell_pixels,
    tell_unplaced, tell_unread,
};
use crate::modify::modify;
use crate::status::{DEVICE, DONE, FAULT, REMARK};
use dcm_base::{DeviceIn, DeviceOut, Watched, WriteFailed, flush_out};
use dcm_words::Job;

/// How a run ended.
#[derive(Clone, Copy, Debug, PartialEq, Eq)]
pub struct Outcome {
    /// The exit status.
    pub status: u8,
}

/// Flushes the output, unless it has failed. A failed flush is reported where nothing failed before.
pub(crate) fn flushed<W: DeviceOut>(ending: Ending, out: &mut Watched<W>) -> Ending
    ensures contents { W.contents out.new ≡ W.contents out.old }
    ensures flushed { spec.FlushedAs ending result (W.has_failed out.old) (W.has_failed out.new) (W.room out.new) }
    ensures drained { spec.IsWritten ending → W.has_failed out.new ≡ false → W.is_flushed out.new ≡ true }
{
    match ending {
        Ending::Output => Ending::Output,
        Ending::Unread(read) => {
            let _ = flush_out(out);
            Ending::Unread(read)
        }
        Ending::Worked(_) => match flush_out(out) {
            Ok(()) => ending,
            Err(_) => Ending::Output,
        },
    }
}

/// The status of a job that was done, by the edits that found no place.
fn done_status(unplaced: u64) -> u8
    ensures { result ≡ spec.mask_status unplaced }
{
    if unplaced == 0 { DONE } else { REMARK }
}

/// Reports what the work on a job came to, and answers the status.
fn tell_verdict<E: DeviceOut>(verdict: Verdict, errors: &mut Watched<E>) -> u8
    ensures lines { calls.Reports E.DeviceOut errors.old errors.new (spec.verdict_lines verdict) }
    ensures status { result ≡ spec.verdict_status verdict }
    ensures within { result ≤ statuses.REMARK }
{
    match verdict {
        Verdict::Done { unplaced } => {
            tell_unplaced(unplaced, errors);
            done_status(unplaced)
        }
        Verdict::PixelsMayShow => {
            tell_pixels(errors);
            REMARK
        }
        Verdict::Refused(stop) => {
            tell_fault(stop, errors);
            FAULT
        }
        Verdict::RefusedLine(stop) => {
            tell_line_fault(stop, errors);
            FAULT
        }
    }
}

/// Reports how a job ended, and answers the status.
pub(crate) fn tell_ending<E: DeviceOut>(ending: Ending, errors: &mut Watched<E>) -> u8
    ensures lines { calls.Reports E.DeviceOut errors.old errors.new (spec.ending_lines ending) }
    ensures status { result ≡ spec.ending_status ending }
    ensures within { result ≤ statuses.DEVICE }
{
    match ending {
        Ending::Worked(verdict) => tell_verdict(verdict, errors),
        Ending::Unread(read) => {
            tell_unread(read, errors);
            DEVICE
        }
        Ending::Output => {
            tell_output(errors);
            DEVICE
        }
    }
}

/// The status of what the work on a job came to.
fn verdict_status(verdict: Verdict) -> u8
    ensures status { result ≡ spec.verdict_status verdict }
    ensures within { result ≤ statuses.REMARK }
{
    match verdict {
        Verdict::Done { unplaced } => done_status(unplaced),
        Verdict::PixelsMayShow => REMARK,
        Verdict::Refused(_) | Verdict::RefusedLine(_) => FAULT,
    }
}

/// The status of a job that ended so.
fn ending_status(ending: Ending) -> u8
    ensures status { result ≡ spec.ending_status ending }
    ensures within { result ≤ statuses.DEVICE }
{
    match ending {
        Ending::Worked(verdict) => verdict_status(verdict),
        Ending::Unread(_) | Ending::Output => DEVICE,
    }
}

/// Writes what is remarked.
fn put_all_remarks<E: DeviceOut>(
    remarks: Remarks,
    errors: &mut Watched<E>,
) -> Result<(), WriteFailed>
    ensures { Wrote E.DeviceOut errors.old errors.new (remarked.remark_lines remarks) result }
{
    put_nobody(remarks.unnamed, errors)?;
    put_unknown(remarks.unknown, errors)?;
    put_emptied(remarks.emptied, errors)
}

/// Writes what is remarked, unless the output failed.
fn put_remarks<E: DeviceOut>(ended: Ended, errors: &mut Watched<E>) -> Result<(), WriteFailed>
    ensures { Wrote E.DeviceOut errors.old errors.new (remarked.remarks_told ended.ending ended.remarks) result }
{
    match ended.ending {
        Ending::Output => Ok(()),
        Ending::Worked(_) | Ending::Unread(_) => put_all_remarks(ended.remarks, errors),
    }
}

/// Reports what is remarked and how a job ended, and answers the status. After a line that failed no other is tried.
pub(crate) fn tell_ended<E: DeviceOut>(ended: Ended, errors: &mut Watched<E>) -> u8
    ensures lines { calls.Reports E.DeviceOut errors.old errors.new (spec.ended_lines ended) }
    ensures status { result ≡ spec.ending_status ended.ending }
    ensures within { result ≤ statuses.DEVICE }
{
    if put_remarks(ended, errors).is_err() {
        return ending_status(ended.ending);
    }
    tell_ending(ended.ending, errors)
}

/// Does the work on a job, before its output is flushed.
fn work<R: DeviceIn, W: DeviceOut>(job: &Job, input: &mut Watched<R>, out: &mut Watched<W>) -> Ended
    ensures worked { calls.WorksOn R.DeviceIn W.DeviceOut (job_of job.now) input.old input.new out.old out.new result }
    ensures meant { spec.IsMeant (job_of job.now) }
{
    match job {
        Job::Dump(what) => dump(*what, input, out),
        Job::Convert(what) => remarking_nothing(convert(*what, input, out)),
        Job::Build(what) => remarking_nothing(build(*what, input, out)),
        Job::Modify(what) => remarking_nothing(modify(what, input, out)),
        Job::Deidentify(what) => deidentify(what, input, out),
    }
}

/// Does a job: reads its input in pieces, writes its output as it goes, reports what is remarked and what is wrong, and
/// answers how it ended.
pub fn run<R: DeviceIn, W: DeviceOut, E: DeviceOut>(
    job: &Job,
    input: &mut Watched<R>,
    out: &mut Watched<W>,
    errors: &mut Watched<E>,
) -> Outcome
    ensures { Runs R.DeviceIn W.DeviceOut (job_of job.now) (change_of E.DeviceOut errors.old errors.new) input.old
        input.new out.old out.new result.status }
{
    let ended = finish(job, input, out);
    Outcome {
        status: tell_ended(ended, errors),
    }
}

/// Does a job and flushes its output. It reports nothing, and answers how the job ended and what is remarked.
pub fn finish<R: DeviceIn, W: DeviceOut>(
    job: &Job,
    input: &mut Watched<R>,
    out: &mut Watched<W>,
) -> Ended
    ensures { calls.FinishesOn R.DeviceIn W.DeviceOut (job_of job.now) input.old input.new out.old out.new result }
{
    let ended = work(job, input, out);
    Ended {
        remarks: ended.remarks,
        ending: flushed(ended.ending, out),
    }
}
