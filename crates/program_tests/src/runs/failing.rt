// Runs over files of which reading fails, and files that are gone.
use super::answer::Answer;
use super::case::{Case, whole};
use super::rows::{Entry, NOT_OPENED, Row};
use dcm_test_devices::{Devices, Loaded, SOUND, numbered};
use std::alloc::{AllocError, Global};
use std::test::Fail;

/// What is reported of a name of which reading failed after so many bytes.
fn unread_report(alloc: Global, read: usize) -> Result<Vec<u8>, AllocError> {
    numbered(alloc, b"reading failed after ", read, b" bytes")
}

/// What is wanted of a run in which a path has no row, and why.
fn without(alloc: Global, row: &Row, path: &[u8], why: &[u8]) -> Result<Answer, AllocError> {
    let mut answer = Answer::new(alloc, row.header)?;
    for done in row.done {
        if done.path() == path {
            answer.add_lost(done, why)?;
        } else {
            answer.add(done)?;
        }
    }
    Ok(answer)
}

/// Whether a path is one of a file of the row, and not of a list alone.
fn is_done(row: &Row, path: &[u8]) -> bool {
    row.done.iter().any(|done| done.path() == path)
}

/// What is wanted of a run in which the reading of a file fails after so many bytes.
fn unread(alloc: Global, row: &Row, entry: &Entry, read: usize) -> Result<Answer, AllocError> {
    if read >= entry.decided() {
        return whole(alloc, row);
    }
    let report = unread_report(alloc, read)?;
    without(alloc, row, entry.path(), report.as_slice())
}

/// Runs a case over a reader of a file that fails after so many bytes.
fn read_failing_after(alloc: Global, case: &Case, entry: &Entry, read: usize) -> Result<(), Fail> {
    let devices = Devices {
        step: 1,
        failing: entry.path(),
        reads: read,
        ..SOUND
    };
    let wanted = unread(alloc, case.row, entry, read)?;
    case.expect(alloc, devices, &wanted)?;
    Ok(())
}

/// The size of the file at a path.
fn size_at(files: &[Loaded], path: &[u8]) -> usize {
    for file in files {
        if file.path == path {
            return file.bytes.len();
        }
    }
    0
}

/// Whether so many bytes end within the preamble, of which no byte means anything.
fn is_in_preamble(read: usize) -> bool {
    1 < read && read < 128
}

/// Runs a case over readers of a file that fail, at the last at the call that would give the end.
fn read_failing(alloc: Global, case: &Case, entry: &Entry) -> Result<(), Fail> {
    if !is_done(case.row, entry.path()) {
        return Ok(());
    }
    for read in 0..=size_at(case.files.as_slice(), entry.path()) {
        if !is_in_preamble(read) {
            read_failing_after(alloc, case, entry, read)?;
        }
    }
    Ok(())
}

/// Runs a row over readers that fail, each file in turn.
fn row_unread(alloc: Global, row: &Row) -> Result<(), Fail> {
    let case = Case::new(alloc, row)?;
    for entry in row.files {
        read_failing(alloc, &case, entry)?;
    }
    Ok(())
}

/// Runs rows over readers that fail, each file in turn and at each byte.
pub fn reads_fail(alloc: Global, rows: &[Row]) -> Result<(), Fail> {
    for row in rows {
        row_unread(alloc, row)?;
    }
    Ok(())
}

/// Runs a case where a file is gone when it is opened.
fn vanishing(alloc: Global, case: &Case, path: &[u8]) -> Result<(), Fail> {
    if path == b"-".as_slice() || !is_done(case.row, path) {
        return Ok(());
    }
    let devices = Devices {
        hidden: path,
        ..SOUND
    };
    let wanted = without(alloc, case.row, path, NOT_OPENED)?;
    case.expect(alloc, devices, &wanted)?;
    Ok(())
}

/// Runs a row where a file is gone, each in turn.
fn row_vanishing(alloc: Global, row: &Row) -> Result<(), Fail> {
    let case = Case::new(alloc, row)?;
    for entry in row.files {
        vanishing(alloc, &case, entry.path())?;
    }
    Ok(())
}

/// Runs rows where a file is gone when it is opened, each in turn.
pub fn files_vanish(alloc: Global, rows: &[Row]) -> Result<(), Fail> {
    for row in rows {
        row_vanishing(alloc, row)?;
    }
    Ok(())
}
