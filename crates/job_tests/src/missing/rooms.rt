// Runs over memory with room for the answer, and for nothing more.
use super::cases::{Case, case_of};
use crate::runs::{
    Answer, Row, Wanted, buildings, bytes_in, conversions, dumps, expect_answer, holds,
    modifications, room, rows_of,
};
use dcm_base::{MemIn, MemOut};
use dcm_cli::in_memory::run_in_memory;
use std::alloc::{AllocError, Global};
use std::test::Fail;

/// The bytes that are read at a time.
const STEP: usize = 7;

/// Runs a case with so much room for its output, and for its lines.
fn run_in_room(
    alloc: Global,
    case: &Case,
    size: usize,
    lines: usize,
) -> Result<Answer, AllocError> {
    let input = MemIn::new(case.input.as_slice(), STEP);
    let out = MemOut::new(room(alloc, size)?);
    let errors = MemOut::new(room(alloc, lines)?);
    let left = run_in_memory(&case.job, input, out, errors);
    Ok(Answer {
        status: left.status,
        output: bytes_in(alloc, &left.out)?,
        told: bytes_in(alloc, &left.errors)?,
    })
}

/// Expects status 4 and a beginning of the output where a byte is missing.
fn expect_no_room(alloc: Global, row: &Row, case: &Case) -> Result<(), Fail> {
    let whole = case.whole.as_slice();
    if whole.is_empty() {
        return Ok(());
    }
    let answer = run_in_room(alloc, case, whole.len() - 1, row.told.len())?;
    holds(row.name, "status without room", answer.status == 4)?;
    let is_front = whole.starts_with(answer.output.as_slice());
    holds(row.name, "output without room", is_front)
}

/// Expects the whole answer of each row where there is room for it.
fn expect_rooms(alloc: Global, tables: &[&'static [Row]]) -> Result<(), Fail> {
    let rows = rows_of(alloc, tables)?;
    for row in rows.as_slice() {
        let case = case_of(alloc, row)?;
        let answer = run_in_room(alloc, &case, case.whole.len(), row.told.len())?;
        let wanted = Wanted {
            status: row.status,
            output: case.whole.as_slice(),
            told: row.told,
        };
        expect_answer(row.name, &answer, wanted)?;
        expect_no_room(alloc, row, &case)?;
    }
    Ok(())
}

#[test]
fn dumps_and_conversions(rt: HostRuntime) -> Result<(), Fail> {
    expect_rooms(rt.alloc(), &dumps())?;
    expect_rooms(rt.alloc(), &conversions())
}

#[test]
fn files_that_are_built_and_edited(rt: HostRuntime) -> Result<(), Fail> {
    expect_rooms(rt.alloc(), &buildings())?;
    expect_rooms(rt.alloc(), &modifications())
}
