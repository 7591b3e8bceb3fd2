// Runs over an output, or a standard error, that fails.
use super::answers::{Case, before};
use super::files::files;
use super::lists::lists;
use super::rows::Row;
use crate::runs::Answer;
use dcm_test_devices::{Devices, Failure, SOUND};
use std::alloc::{AllocError, Global};
use std::test::Fail;

const OUTPUT_FAILED: &[u8] = b"dcmtools: output failed\n";

/// The status of a run in which a device failed.
const DEVICE: u8 = 4;

/// What is wanted of a run whose output fails after so many bytes, and how many dumps are flushed.
fn unwritten(alloc: Global, row: &Row, wrote: usize) -> Result<(Answer, usize), AllocError> {
    let (all, _) = before(alloc, row, usize::MAX)?;
    let (output, _) = all.output.as_slice().split_at(wrote.min(all.output.len()));
    let (answer, flushes) = before(alloc, row, wrote)?;
    let mut told = answer.told;
    told.extend_from_slice(OUTPUT_FAILED)?;
    Ok((
        Answer {
            status: DEVICE,
            output: output.to_vec(alloc)?,
            told,
        },
        flushes,
    ))
}

/// Runs a row over outputs that fail at each byte.
fn write_failing(alloc: Global, row: &Row) -> Result<(), Fail> {
    let case = Case::new(alloc, row)?;
    let (all, _) = before(alloc, row, usize::MAX)?;
    for writes in 0..all.output.len() {
        let (wanted, flushes) = unwritten(alloc, row, writes)?;
        for failure in [Failure::Error, Failure::NoByte] {
            let devices = Devices {
                writes,
                failure,
                ..SOUND
            };
            case.expect(alloc, devices, &wanted, flushes)?;
        }
    }
    Ok(())
}

/// Runs a row over standard errors that fail at each byte: output and status stay.
fn tell_failing(alloc: Global, row: &Row) -> Result<(), Fail> {
    let case = Case::new(alloc, row)?;
    let (mut wanted, flushes) = before(alloc, row, usize::MAX)?;
    let (all, _) = before(alloc, row, usize::MAX)?;
    for lines in 0..all.told.len() {
        let (told, _) = all.told.as_slice().split_at(lines);
        wanted.told = told.to_vec(alloc)?;
        case.expect(alloc, Devices { lines, ..SOUND }, &wanted, flushes)?;
    }
    Ok(())
}

#[test]
fn writing_fails(rt: HostRuntime) -> Result<(), Fail> {
    for row in files() {
        write_failing(rt.alloc(), row)?;
    }
    for row in lists() {
        write_failing(rt.alloc(), row)?;
    }
    Ok(())
}

#[test]
fn telling_fails(rt: HostRuntime) -> Result<(), Fail> {
    for row in files() {
        tell_failing(rt.alloc(), row)?;
    }
    for row in lists() {
        tell_failing(rt.alloc(), row)?;
    }
    Ok(())
}

/// The first dump is written, and its flush fails: no other file is opened.
#[test]
fn flushing_fails(rt: HostRuntime) -> Result<(), Fail> {
    let [row, ..] = files() else {
        return Err("no row".into());
    };
    let [first, ..] = row.shown else {
        return Err("no name".into());
    };
    let case = Case::new(rt.alloc(), row)?;
    let wanted = Answer {
        status: DEVICE,
        output: first.text().to_vec(rt.alloc())?,
        told: OUTPUT_FAILED.to_vec(rt.alloc())?,
    };
    case.expect(
        rt.alloc(),
        Devices {
            flush: false,
            ..SOUND
        },
        &wanted,
        1,
    )
}
