// Runs of rows over devices that do not fail.
use super::answer::{Answer, Left, expect_answer, holds, run_over};
use super::rows::{Row, load};
use dcm_test_devices::{Devices, Loaded, SOUND, split};
use std::alloc::{AllocError, Global};
use std::test::Fail;

/// A row with its words and its files.
#[derive(Drop)]
pub struct Case<'a> {
    pub row: &'a Row,
    words: Vec<&'static [u8]>,
    pub files: Vec<Loaded>,
}

impl<'a> Case<'a> {
    /// The case of a row.
    pub fn new(alloc: Global, row: &'a Row) -> Result<Self, AllocError> {
        let mut words = split(alloc, row.words)?;
        words.extend_from_slice(row.names)?;
        Ok(Case {
            row,
            words,
            files: load(alloc, row.files)?,
        })
    }

    /// Expects an answer by devices that work so, and gives what the run left.
    pub fn expect(&self, alloc: Global, devices: Devices, wanted: &Answer) -> Result<Left, Fail> {
        let left = run_over(alloc, self.words.as_slice(), self.files.as_slice(), devices);
        expect_answer(self.row.name, &left, wanted)?;
        Ok(left)
    }
}

/// What is wanted of a run in which nothing fails.
pub fn whole(alloc: Global, row: &Row) -> Result<Answer, AllocError> {
    let mut answer = Answer::new(alloc, row.header)?;
    for done in row.done {
        answer.add(done)?;
    }
    Ok(answer)
}

/// The bytes that a reader gives at a time.
const STEPS: [usize; 5] = [1, 2, 3, 7, 100_000];

/// Expects the answer of a row by readers that give so many bytes at a time.
fn expect_row(alloc: Global, row: &Row) -> Result<(), Fail> {
    let case = Case::new(alloc, row)?;
    let wanted = whole(alloc, row)?;
    for step in STEPS {
        let left = case.expect(alloc, Devices { step, ..SOUND }, &wanted)?;
        holds(row.name, "flushes", left.flushes == 1)?;
    }
    Ok(())
}

/// Expects the answers of rows.
pub fn expect_rows(alloc: Global, rows: &[Row]) -> Result<(), Fail> {
    for row in rows {
        expect_row(alloc, row)?;
    }
    Ok(())
}
