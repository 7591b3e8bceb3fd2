// The job of a row, and its files.
use crate::runs::{Row, front_of, job_with_key};
use dcm_cli::{Job, plan};
use dcm_test_devices::{joined, split};
use std::alloc::Global;
use std::test::Fail;

/// The job of a row, its input and its whole output.
#[derive(Drop)]
pub struct Case {
    pub job: Job,
    pub input: Vec<u8>,
    pub whole: Vec<u8>,
}

fn job_of(alloc: Global, row: &Row) -> Result<Job, Fail> {
    let words = split(alloc, row.words)?;
    match plan(alloc, words.as_slice()) {
        Ok(planned) => Ok(job_with_key(planned)),
        Err(_) => Err(Fail::new(row.name)),
    }
}

/// The case of a row.
pub fn case_of(alloc: Global, row: &Row) -> Result<Case, Fail> {
    Ok(Case {
        job: job_of(alloc, row)?,
        input: joined(alloc, row.start.bytes(), row.input)?,
        whole: joined(alloc, front_of(row), row.lines)?,
    })
}
