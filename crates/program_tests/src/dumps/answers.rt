// Runs of rows, and what is wanted of them.
use super::rows::Row;
use crate::runs::{Answer, Left, expect_answer, holds, load, run_over};
use dcm_test_devices::{Devices, Loaded, SOUND, split};
use std::alloc::{AllocError, Global};
use std::test::Fail;

/// A row with its words and its files.
#[derive(Drop)]
pub struct Case<'a> {
    pub row: &'a Row,
    words: Vec<&'static [u8]>,
    files: Vec<Loaded>,
}

impl<'a> Case<'a> {
    /// The case of a row.
    pub fn new(alloc: Global, row: &'a Row) -> Result<Self, AllocError> {
        let mut words = split(alloc, row.words)?;
        words.extend_from_slice(row.names)?;
        Ok(Case {
            row,
            words,
            files: load(alloc, row.files)?,
        })
    }

    /// Expects an answer by devices that work so, and so many flushes.
    pub fn expect(
        &self,
        alloc: Global,
        devices: Devices,
        wanted: &Answer,
        flushes: usize,
    ) -> Result<(), Fail> {
        let left: Left = run_over(alloc, self.words.as_slice(), self.files.as_slice(), devices);
        expect_answer(self.row.name, &left, wanted)?;
        holds(self.row.name, "flushes", left.flushes == flushes)
    }
}

/// What is wanted of the names before that of which the output fails, which takes so many bytes; and how many dumps are
/// flushed.
pub fn before(alloc: Global, row: &Row, wrote: usize) -> Result<(Answer, usize), AllocError> {
    let mut flushes: usize = 0;
    let mut answer = Answer {
        status: 0,
        output: Vec::new(alloc),
        told: Vec::new(alloc),
    };
    for shown in row.shown {
        if wrote < answer.output.len().saturating_add(shown.text().len()) {
            break;
        }
        answer.output.extend_from_slice(shown.text())?;
        answer.told.extend_from_slice(shown.line())?;
        answer.status = answer.status.max(shown.status());
        if !shown.text().is_empty() {
            flushes = flushes.saturating_add(1);
        }
    }
    Ok((answer, flushes))
}

/// The bytes that a reader gives at a time.
const STEPS: [usize; 5] = [1, 2, 3, 7, 100_000];

/// Expects the answer of a row by readers that give so many bytes at a time.
fn expect_row(alloc: Global, row: &Row) -> Result<(), Fail> {
    let case = Case::new(alloc, row)?;
    let (wanted, flushes) = before(alloc, row, usize::MAX)?;
    for step in STEPS {
        case.expect(alloc, Devices { step, ..SOUND }, &wanted, flushes)?;
    }
    Ok(())
}

/// Expects the answers of rows.
pub fn expect_rows(alloc: Global, rows: &[Row]) -> Result<(), Fail> {
    for row in rows {
        expect_row(alloc, row)?;
    }
    Ok(())
}
