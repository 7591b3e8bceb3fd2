// Runs over an output, or a standard error, that fails.
use super::answer::{Answer, holds};
use super::case::{Case, whole};
use super::rows::{DEVICE, Row};
use dcm_test_devices::{Devices, Failure, SOUND};
use std::alloc::{AllocError, Global};
use std::test::Fail;

const OUTPUT_FAILED: &[u8] = b"dcmtools: output failed\n";

/// The answer up to where the output fails, which takes so many bytes. The names after that have no line.
fn answer_before(alloc: Global, row: &Row, wrote: usize) -> Result<Answer, AllocError> {
    let mut answer = Answer::new(alloc, row.header)?;
    for done in row.done {
        if wrote < answer.output.len().saturating_add(done.row().len()) {
            break;
        }
        answer.add(done)?;
    }
    Ok(answer)
}

/// What is wanted of a run whose output fails after so many bytes.
fn unwritten(alloc: Global, row: &Row, all: &Answer, wrote: usize) -> Result<Answer, AllocError> {
    let (output, _) = all.output.as_slice().split_at(wrote.min(all.output.len()));
    let mut told = answer_before(alloc, row, wrote)?.told;
    told.extend_from_slice(OUTPUT_FAILED)?;
    Ok(Answer {
        status: DEVICE,
        output: output.to_vec(alloc)?,
        told,
    })
}

/// Runs a case over an output that fails so after so many bytes.
fn write_failing_after(
    alloc: Global,
    case: &Case,
    writes: usize,
    failure: Failure,
    wanted: &Answer,
) -> Result<(), Fail> {
    let devices = Devices {
        writes,
        failure,
        ..SOUND
    };
    let left = case.expect(alloc, devices, wanted)?;
    holds(case.row.name, "flushes", left.flushes == 0)
}

/// Runs a row over outputs that fail at each byte.
fn write_failing(alloc: Global, row: &Row) -> Result<(), Fail> {
    let case = Case::new(alloc, row)?;
    let all = whole(alloc, row)?;
    for writes in 0..all.output.len() {
        let wanted = unwritten(alloc, row, &all, writes)?;
        write_failing_after(alloc, &case, writes, Failure::Error, &wanted)?;
        write_failing_after(alloc, &case, writes, Failure::NoByte, &wanted)?;
    }
    Ok(())
}

/// Runs rows over outputs that fail, at each byte.
pub fn writes_fail(alloc: Global, rows: &[Row]) -> Result<(), Fail> {
    for row in rows {
        write_failing(alloc, row)?;
    }
    Ok(())
}

/// Runs a row over an output whose flush fails.
fn flush_failing(alloc: Global, row: &Row) -> Result<(), Fail> {
    let case = Case::new(alloc, row)?;
    let all = whole(alloc, row)?;
    let wanted = unwritten(alloc, row, &all, all.output.len())?;
    let devices = Devices {
        flush: false,
        ..SOUND
    };
    let left = case.expect(alloc, devices, &wanted)?;
    holds(row.name, "flushes", left.flushes == 1)
}

/// Runs rows over outputs whose flush fails.
pub fn flushes_fail(alloc: Global, rows: &[Row]) -> Result<(), Fail> {
    for row in rows {
        flush_failing(alloc, row)?;
    }
    Ok(())
}

/// Runs a row over standard errors that fail at each byte: output and status stay.
fn tell_failing(alloc: Global, row: &Row) -> Result<(), Fail> {
    let case = Case::new(alloc, row)?;
    let mut wanted = whole(alloc, row)?;
    let all = whole(alloc, row)?;
    for lines in 0..all.told.len() {
        let (told, _) = all.told.as_slice().split_at(lines);
        wanted.told = told.to_vec(alloc)?;
        case.expect(alloc, Devices { lines, ..SOUND }, &wanted)?;
    }
    Ok(())
}

/// Runs rows over standard errors that fail, at each byte.
pub fn tells_fail(alloc: Global, rows: &[Row]) -> Result<(), Fail> {
    for row in rows {
        tell_failing(alloc, row)?;
    }
    Ok(())
}
