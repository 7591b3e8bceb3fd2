// What is done with each file of a tree.
ghost use Rattle.std.specs.Prelude.{◌≡◌};
ghost use Rattle.dcm_words.specs.Plans.{job_of};
ghost use Rattle.dcm_words.specs.Words as words;
ghost use Rattle.dcm_trees.specs.Task as spec;

use crate::part::open_file;
use dcm_base::{Stop, Watched};
use dcm_cli::first::{FirstEnd, first_reading};
use dcm_cli::key::KeyBytes;
use dcm_cli::{Deidentify, Job};
use dcm_files::System;
use dcm_words::with_days;

/// What is done with each file of a tree.
#[derive(Clone, Copy)]
pub enum Task<'a> {
    /// The same job.
    Same(&'a Job),
    /// Identity is taken out of it, and its dates are moved by the days that the key makes of its patient.
    ByDays(&'a Deidentify),
}

/// The job of one file.
#[derive(Drop)]
pub enum FileJob<'a> {
    /// That of all files.
    Lent(&'a Job),
    /// Its own.
    Own(Job),
}

/// Why there are no days by which the dates of a file are moved.
#[derive(Clone, Copy, Debug, PartialEq, Eq)]
pub enum NoDays {
    /// It cannot be opened.
    Unopened,
    /// It is at fault, or names no patient.
    Refused(Stop),
    /// Reading it failed after so many bytes.
    Unread(u64),
}

impl<'a> FileJob<'a> {
    /// The job.
    pub fn job(&self) -> &Job
        ensures { job_of result.now ≡ spec.job_of_file self.now }
    {
        match self {
            FileJob::Lent(job) => job,
            FileJob::Own(job) => job,
        }
    }
}

/// The days that a first reading comes to.
fn days_of(end: FirstEnd) -> Result<i32, NoDays>
    ensures { result ≡ spec.days_of end }
{
    match end {
        FirstEnd::Days(days) => Ok(days),
        FirstEnd::Refused(stop) => Err(NoDays::Refused(stop)),
        FirstEnd::Unread(read) => Err(NoDays::Unread(read)),
    }
}

/// Opens the file at a path, reads it as far as its patient, and gives it back.
fn take_days<S: System>(key: &[u8], path: &[u8], system: &mut S) -> Result<i32, NoDays>
    ensures { spec.TakesDays S.may_do S.Input.DeviceIn key.now path.now system.old result system.new }
{
    let Some(input) = open_file(path, system) else {
        return Err(NoDays::Unopened);
    };
    let mut input = Watched::new(input);
    let end = first_reading(key, &mut input);
    system.release(input.into_device());
    days_of(end)
}

/// The taking of identity out of a file whose dates are moved by these days.
fn moved_by(what: &Deidentify, days: i32) -> Job
    ensures { job_of result ≡ words.deidentify (words.with_days what.now.options days) what.now.reports
        what.now.key.items }
{
    let mut key = KeyBytes::new();
    let _ = key.try_extend_from_slice(what.key.as_slice());
    Job::Deidentify(Deidentify {
        options: with_days(what.options, days),
        reports: what.reports,
        key,
    })
}

/// The job of the file at a path, which is read for the days of its patient.
fn job_by_days<'a, S: System>(
    what: &Deidentify,
    path: &[u8],
    system: &mut S,
) -> Result<FileJob<'a>, NoDays>
    ensures { spec.FindsJob S.may_do S.Input.DeviceIn
        (spec.by_days what.now.options what.now.reports what.now.key.items) path.now system.old (spec.found result)
        system.new }
{
    match take_days(what.key.as_slice(), path, system) {
        Ok(days) => Ok(FileJob::Own(moved_by(what, days))),
        Err(cause) => Err(cause),
    }
}

/// The job of the file at a path, which is read for it where the days of its patient are wanted.
pub fn task_of_file<'a, S: System>(
    task: Task<'a>,
    path: &[u8],
    system: &mut S,
) -> Result<FileJob<'a>, NoDays>
    ensures { spec.FindsJob S.may_do S.Input.DeviceIn (spec.task_of task.entry) path.now system.old
        (spec.found result) system.new }
{
    match task {
        Task::Same(job) => Ok(FileJob::Lent(job)),
        Task::ByDays(what) => job_by_days(what, path, system),
    }
}
