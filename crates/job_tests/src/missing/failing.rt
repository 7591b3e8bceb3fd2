// Runs over devices that fail.
mod buildings;
mod conversions;
mod devices;
mod dictionaries;
mod dumps;
mod identities;
mod modifications;
mod named_elements;
mod texts;

use super::cases::{Case, case_of};
use crate::runs::{Row, holds, rows_of};
use dcm_test_devices::{Failure, numbered};
use devices::{Good, Left, SOUND, run_over, sure_of};
use std::alloc::{AllocError, Global};
use std::test::Fail;

const OUTPUT_FAILED: &[u8] = b"dcmtools: output failed\n";

/// The line that reports that reading failed.
fn unread_line(alloc: Global, read: usize) -> Result<Vec<u8>, AllocError> {
    let front = b"dcmtools: reading failed after ";
    numbered(alloc, front, read, b" bytes\n")
}

/// Expects what every run leaves: nothing on a writer that had failed, and lines after all of the output.
fn expect_order(name: &str, left: &Left) -> Result<(), Fail> {
    holds(name, "calls after a failure", left.late == 0)?;
    holds(name, "lines before output", left.in_order)
}

/// Expects what the row's run leaves where no call fails.
fn expect_whole(row: &Row, case: &Case, left: &Left) -> Result<(), Fail> {
    let name = row.name;
    expect_order(name, left)?;
    holds(name, "status", left.status == row.status)?;
    holds(name, "flushes", left.flushes == 1)?;
    holds(name, "output", left.output == case.whole)?;
    holds(name, "standard error", left.told.as_slice() == row.told)
}

/// Expects what the row's run leaves where reading fails: what is sure of the bytes that were read, and this line.
fn expect_unread(
    name: &str,
    case: &Case,
    sure: &[u8],
    line: &[u8],
    left: &Left,
) -> Result<(), Fail> {
    expect_order(name, left)?;
    holds(name, "status", left.status == 4)?;
    holds(name, "flushes", left.flushes == 1)?;
    holds(name, "output", left.output.as_slice() == sure)?;
    let is_front = case.whole.as_slice().starts_with(sure);
    holds(name, "what is sure", is_front)?;
    holds(name, "standard error", left.told.as_slice() == line)
}

/// Expects that the output failed after so many bytes and flushes.
fn expect_unwritten(
    name: &str,
    case: &Case,
    wrote: usize,
    flushes: usize,
    left: &Left,
) -> Result<(), Fail> {
    expect_order(name, left)?;
    holds(name, "status", left.status == 4)?;
    holds(name, "flushes", left.flushes == flushes)?;
    holds(name, "bytes of output", left.output.len() == wrote)?;
    let output = left.output.as_slice();
    let is_front = case.whole.as_slice().starts_with(output);
    holds(name, "output", is_front)?;
    let is_told = left.told.as_slice() == OUTPUT_FAILED;
    holds(name, "standard error", is_told)
}

/// Expects what the row's run leaves, of whose line so many bytes are told.
fn expect_untold(row: &Row, case: &Case, told: usize, left: &Left) -> Result<(), Fail> {
    let name = row.name;
    expect_order(name, left)?;
    holds(name, "status", left.status == row.status)?;
    holds(name, "output", left.output == case.whole)?;
    holds(name, "bytes of a line", left.told.len() == told)?;
    let is_front = row.told.starts_with(left.told.as_slice());
    holds(name, "standard error", is_front)
}

/// Runs a case over a reader that fails after so many calls, and a writer whose flush may fail.
fn read_failing_behind(
    alloc: Global,
    row: &Row,
    case: &Case,
    reads: usize,
    flush: bool,
) -> Result<(), Fail> {
    let line = unread_line(alloc, reads)?;
    let good = Good {
        reads,
        flush,
        ..SOUND
    };
    let left = run_over(alloc, &case.job, case.input.as_slice(), good);
    if left.reading_failed {
        let sure = sure_of(alloc, &case.job, case.input.as_slice(), reads)?;
        expect_unread(row.name, case, sure.as_slice(), line.as_slice(), &left)
    } else if flush {
        expect_whole(row, case, &left)
    } else {
        expect_unwritten(row.name, case, case.whole.len(), 1, &left)
    }
}

/// Runs a row over readers that fail, at the last at the call that would give the end.
fn read_failing(alloc: Global, row: &Row, flush: bool) -> Result<(), Fail> {
    let case = case_of(alloc, row)?;
    for reads in 0..=case.input.len() {
        read_failing_behind(alloc, row, &case, reads, flush)?;
    }
    Ok(())
}

/// Runs rows over readers that fail, and writers whose flush may fail.
fn reads_fail(alloc: Global, tables: &[&'static [Row]], flush: bool) -> Result<(), Fail> {
    let rows = rows_of(alloc, tables)?;
    for row in rows.as_slice() {
        read_failing(alloc, row, flush)?;
    }
    Ok(())
}

/// Runs a case over a writer that fails so after so many calls.
fn write_failing_after(
    alloc: Global,
    row: &Row,
    case: &Case,
    writes: usize,
    failure: Failure,
) -> Result<(), Fail> {
    let good = Good {
        writes,
        failure,
        ..SOUND
    };
    let left = run_over(alloc, &case.job, case.input.as_slice(), good);
    expect_unwritten(row.name, case, writes, 0, &left)
}

/// Runs a row over writers that fail.
fn write_failing(alloc: Global, row: &Row) -> Result<(), Fail> {
    let case = case_of(alloc, row)?;
    for writes in 0..case.whole.len() {
        write_failing_after(alloc, row, &case, writes, Failure::Error)?;
        write_failing_after(alloc, row, &case, writes, Failure::NoByte)?;
    }
    let left = run_over(alloc, &case.job, case.input.as_slice(), SOUND);
    expect_whole(row, &case, &left)
}

/// Runs rows over writers that fail.
fn writes_fail(alloc: Global, tables: &[&'static [Row]]) -> Result<(), Fail> {
    let rows = rows_of(alloc, tables)?;
    for row in rows.as_slice() {
        write_failing(alloc, row)?;
    }
    Ok(())
}

/// Runs a row over error writers that fail.
fn tell_failing(alloc: Global, row: &Row) -> Result<(), Fail> {
    let case = case_of(alloc, row)?;
    for lines in 0..row.told.len() {
        let good = Good { lines, ..SOUND };
        let left = run_over(alloc, &case.job, case.input.as_slice(), good);
        expect_untold(row, &case, lines, &left)?;
    }
    Ok(())
}

/// Runs rows over error writers that fail.
fn tells_fail(alloc: Global, tables: &[&'static [Row]]) -> Result<(), Fail> {
    let rows = rows_of(alloc, tables)?;
    for row in rows.as_slice() {
        tell_failing(alloc, row)?;
    }
    Ok(())
}

/// Expects how much of a row's output is written where reading fails: each time so many bytes are read, and so many
/// written.
fn expect_written(alloc: Global, row: &Row, counts: &[(usize, usize)]) -> Result<(), Fail> {
    let case = case_of(alloc, row)?;
    for (reads, size) in counts {
        let good = Good {
            reads: *reads,
            ..SOUND
        };
        let left = run_over(alloc, &case.job, case.input.as_slice(), good);
        let output = left.output.as_slice();
        let is_written = output.len() == *size && case.whole.as_slice().starts_with(output);
        holds(row.name, "what is sure", is_written)?;
    }
    Ok(())
}

/// The first row of a table.
fn first_of(rows: &'static [Row]) -> Result<&'static Row, Fail> {
    match rows {
        [row, ..] => Ok(row),
        [] => Err(Fail::new("no rows")),
    }
}
