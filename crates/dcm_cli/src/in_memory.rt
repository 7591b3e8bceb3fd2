// Runs over memory.
ghost use Rattle.std.specs.Prelude.{map};
ghost use Rattle.dcm_cli.specs.InMemory.{LeavesAnswers, ObeysInMemory};
ghost use Rattle.dcm_words.specs.Plans.{job_of};

use crate::program::obey;
use crate::run::run;
use dcm_base::{Measured, MemIn, MemOut, Watched};
use dcm_files::MemSystem;
use dcm_words::Job;
use std::alloc::Global;

/// What a run over memory leaves.
#[derive(Drop)]
pub struct InMemory {
    /// The output.
    pub out: MemOut,
    /// The error writer.
    pub errors: MemOut,
    /// The exit status.
    pub status: u8,
}

/// Does a job over memory. Where there is room for the whole output, no device fails that counts: the output and the
/// status are those of the answer, and where there is room for its lines, they are written too.
pub fn run_in_memory(job: &Job, input: MemIn, out: MemOut, errors: MemOut) -> InMemory
    ensures { LeavesAnswers (job_of job.now) input.entry.rest.now out result.out errors result.errors result.status }
{
    let mut input = Watched::new(input);
    let mut out = Watched::new(Measured::new(out));
    let mut errors = Watched::new(Measured::new(errors));
    let outcome = run(job, &mut input, &mut out, &mut errors);
    InMemory {
        out: out.into_device().into_inner(),
        errors: errors.into_device().into_inner(),
        status: outcome.status,
    }
}

/// What obeying words over files in memory leaves.
#[derive(Drop)]
pub struct Obeyed {
    /// The output that was closed, if one was and it was not removed.
    pub written: Option<MemOut>,
    /// The error writer.
    pub errors: MemOut,
    /// The exit status.
    pub status: u8,
}

/// Obeys words over files in memory. Where there is room for what they come to, the output and the status are those,
/// and where there is room for the lines, they are written too. Only edits can want more memory than there is: then
/// nothing is opened.
pub fn obey_in_memory<'a>(
    alloc: Global,
    words: &[&[u8]],
    system: MemSystem<'a>,
    errors: MemOut,
) -> Obeyed
    ensures { ObeysInMemory (map (λ w. w.now) words.now) system.entry errors result.written result.errors
        result.status }
{
    let mut system = system;
    let mut errors = Watched::new(Measured::new(errors));
    let status = obey(&mut system, alloc, words, &mut errors);
    Obeyed {
        written: system.into_written(),
        errors: errors.into_device().into_inner(),
        status,
    }
}
