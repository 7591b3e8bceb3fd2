// The jobs that words ask for, and their runs.
use arrayvec::ArrayVec;
use dcm_base::{DeviceIn, DeviceOut, Watched};
use dcm_cli::run::run;
use dcm_cli::{Deidentify, Job, Planned, plan, tell};
use dcm_test_devices::split;
use std::alloc::{AllocError, Global};

/// The status of a job's run over these devices. It has no clauses, so that those of `run` are taken in here alone.
pub fn job_status<R: DeviceIn, W: DeviceOut>(
    job: &Job,
    input: &mut Watched<R>,
    out: &mut Watched<W>,
    errors: &mut Watched<W>,
) -> u8 {
    run(job, input, out, errors).status
}

/// A key of 16 bytes.
const KEY: &[u8] = b"a key of 16 byte";

/// The longest key.
const LONGEST_KEY: [u8; 4096] = [b'k'; 4096];

/// What the file of a key has, by its path.
fn key_at(path: &[u8]) -> &'static [u8] {
    if path == b"KEY4096".as_slice() {
        &LONGEST_KEY
    } else {
        KEY
    }
}

/// The taking out of identity with a key.
fn keyed(what: &Deidentify, bytes: &[u8]) -> Job {
    let mut key = ArrayVec::new();
    let _ = key.try_extend_from_slice(bytes);
    Job::Deidentify(Deidentify {
        options: what.options,
        reports: what.reports,
        key,
    })
}

/// The job of a plan, with its key.
pub fn job_with_key(planned: Planned) -> Job {
    match (&planned.job, planned.key) {
        (Job::Deidentify(what), Some(path)) => keyed(what, key_at(path)),
        _ => planned.job,
    }
}

/// The status of a run that words ask for, over these devices.
pub(crate) fn status_of<R: DeviceIn, W: DeviceOut>(
    alloc: Global,
    line: &'static str,
    input: &mut Watched<R>,
    out: &mut Watched<W>,
    errors: &mut Watched<W>,
) -> Result<u8, AllocError> {
    let words = split(alloc, line)?;
    let status = match plan(alloc, words.as_slice()) {
        Ok(planned) => job_status(&job_with_key(planned), input, out, errors),
        Err(usage) => tell(&usage, errors),
    };
    Ok(status)
}
