// Runs over memory and over std, and what is expected of them.
use super::answer::{Answer, Wanted, expect_answer};
use super::jobs::status_of;
use super::memory::{bytes_in, memory_out};
use super::rows::{Row, front_of, rows_of};
use dcm_base::{MemIn, Std, Watched};
use dcm_test_devices::{ALL, Steps, joined};
use std::alloc::{AllocError, Global};
use std::test::Fail;

/// Room for the lines on standard error.
const ROOM_FOR_LINES: usize = 200;

/// A run over memory, that reads so many bytes at a time and has room for so many.
pub fn over_memory(
    alloc: Global,
    line: &'static str,
    input: &[u8],
    step: usize,
    size: usize,
) -> Result<Answer, AllocError> {
    let mut input = Watched::new(MemIn::new(input, step.max(1)));
    let mut out = memory_out(alloc, size)?;
    let mut errors = memory_out(alloc, ROOM_FOR_LINES)?;
    let status = status_of(alloc, line, &mut input, &mut out, &mut errors)?;
    Ok(Answer {
        status,
        output: bytes_in(alloc, out.device())?,
        told: bytes_in(alloc, errors.device())?,
    })
}

/// A run over std's reader and writers.
pub fn over_std(
    alloc: Global,
    line: &'static str,
    input: &[u8],
    step: usize,
) -> Result<Answer, AllocError> {
    let mut input = Watched::new(Std::new(Steps {
        rest: input,
        step,
        good: ALL,
    }));
    let mut out = Watched::new(Std::new(Vec::new(alloc)));
    let mut errors = Watched::new(Std::new(Vec::new(alloc)));
    let status = status_of(alloc, line, &mut input, &mut out, &mut errors)?;
    Ok(Answer {
        status,
        output: out.into_device().into_inner(),
        told: errors.into_device().into_inner(),
    })
}

/// The bytes that are read at a time.
pub const STEPS: [usize; 5] = [1, 2, 3, 7, 100_000];

/// More room than an output may take beyond what is wanted.
const ROOM: usize = 1000;

/// Expects an answer of a run over memory and of one over std, both in pieces of several sizes.
pub fn expect_runs(
    alloc: Global,
    name: &str,
    words: &'static str,
    input: &[u8],
    wanted: Wanted<'_>,
) -> Result<(), Fail> {
    let size = wanted.output.len().saturating_add(ROOM);
    for step in STEPS {
        let answer = over_memory(alloc, words, input, step, size)?;
        expect_answer(name, &answer, wanted)?;
        let answer = over_std(alloc, words, input, step)?;
        expect_answer(name, &answer, wanted)?;
    }
    Ok(())
}

/// Expects the answer of a row.
fn expect_row(alloc: Global, row: &Row) -> Result<(), Fail> {
    let input = joined(alloc, row.start.bytes(), row.input)?;
    let output = joined(alloc, front_of(row), row.lines)?;
    let wanted = Wanted {
        status: row.status,
        output: output.as_slice(),
        told: row.told,
    };
    expect_runs(alloc, row.name, row.words, input.as_slice(), wanted)
}

/// Expects the answers of all rows of tables.
pub fn expect_rows(alloc: Global, tables: &[&'static [Row]]) -> Result<(), Fail> {
    let rows = rows_of(alloc, tables)?;
    for row in rows.as_slice() {
        expect_row(alloc, row)?;
    }
    Ok(())
}
