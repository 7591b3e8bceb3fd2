// Inputs that are cut at each byte.
use crate::runs::{
    Answer, Row, Wanted, buildings, conversions, dictionaries, dumps, expect_answer, front_of,
    holds, modifications, over_memory, rows_of, signs, unknown,
};
use dcm_test_devices::{Start, joined, numbered};
use std::alloc::{AllocError, Global};
use std::test::Fail;

/// More bytes than any of the inputs has, and room for each output.
const WHOLE: usize = 100_000;

const ROOM: usize = 3000;

/// The line of an input that ends too early after so many bytes.
fn early_end(alloc: Global, read: usize) -> Result<Vec<u8>, AllocError> {
    let front = b"dcmtools: R1 at byte ";
    numbered(alloc, front, read, b": input ends too early\n")
}

/// Whether a row writes a head. Where its whole input is at fault before that, a cut one may be a file without
/// elements.
fn writes_head(row: &Row) -> bool {
    !matches!(row.header, Start::Nothing)
}

/// Whether the meta group of a row's file has its usual form. One of another form may end at a cut.
fn has_usual_group(row: &Row) -> bool {
    !matches!(row.start, Start::Nothing)
}

/// Whether a row puts elements at the end of a data set, which a cut may bring forward.
fn may_put(row: &Row) -> bool {
    row.words.starts_with("dcmodify")
}

/// Expects what is answered to a cut input: an early end at the cut, no transfer syntax so far, the fault of the whole,
/// or none; and a beginning of the output.
fn expect_cut(row: &Row, wanted: &[u8], early: &[u8], answer: &Answer) -> Result<(), Fail> {
    let told = answer.told.as_slice();
    let is_answered = if answer.status == 2 {
        told == early || told.starts_with(b"dcmtools: R5 at byte ") || told == row.told
    } else {
        answer.status == 0 || answer.status == 3
    };
    holds(row.name, "what a cut input is answered", is_answered)?;
    if has_usual_group(row) && writes_head(row) && (answer.status == 2 || !may_put(row)) {
        let is_front = wanted.starts_with(answer.output.as_slice());
        holds(row.name, "output of a cut input", is_front)?;
    }
    Ok(())
}

/// Runs a row with its input cut at each byte.
fn cut_everywhere(alloc: Global, row: &Row) -> Result<(), Fail> {
    let input = joined(alloc, row.start.bytes(), row.input)?;
    let wanted = joined(alloc, front_of(row), row.lines)?;
    for cut in 0..input.len() {
        let (front, _) = input.as_slice().split_at(cut);
        let early = early_end(alloc, cut)?;
        let answer = over_memory(alloc, row.words, front, WHOLE, ROOM)?;
        expect_cut(row, wanted.as_slice(), early.as_slice(), &answer)?;
    }
    Ok(())
}

/// Runs rows with their inputs cut at each byte.
fn cut_rows(alloc: Global, tables: &[&'static [Row]]) -> Result<(), Fail> {
    let rows = rows_of(alloc, tables)?;
    for row in rows.as_slice() {
        cut_everywhere(alloc, row)?;
    }
    Ok(())
}

#[test]
fn dumps_of_cut_files(rt: HostRuntime) -> Result<(), Fail> {
    cut_rows(rt.alloc(), &dumps())
}

#[test]
fn conversions_of_cut_files(rt: HostRuntime) -> Result<(), Fail> {
    cut_rows(rt.alloc(), &conversions())
}

#[test]
fn edits_of_cut_files(rt: HostRuntime) -> Result<(), Fail> {
    cut_rows(rt.alloc(), &modifications())
}

#[test]
fn dictionaries_of_cut_files(rt: HostRuntime) -> Result<(), Fail> {
    cut_rows(rt.alloc(), &dictionaries())
}

/// Runs a row with its data set cut at each byte: the bytes before the cut alone, and all bytes in two pieces.
fn cut_set_everywhere(alloc: Global, row: &Row) -> Result<(), Fail> {
    let input = joined(alloc, row.start.bytes(), row.input)?;
    let output = joined(alloc, front_of(row), row.lines)?;
    let wanted = Wanted {
        status: row.status,
        output: output.as_slice(),
        told: row.told,
    };
    let size = output.len().saturating_add(ROOM);
    for cut in row.start.bytes().len()..input.len() {
        let (front, _) = input.as_slice().split_at(cut);
        let early = early_end(alloc, cut)?;
        let answer = over_memory(alloc, row.words, front, WHOLE, size)?;
        expect_cut(row, wanted.output, early.as_slice(), &answer)?;
        let answer = over_memory(alloc, row.words, input.as_slice(), cut, size)?;
        expect_answer(row.name, &answer, wanted)?;
    }
    Ok(())
}

/// Runs rows so.
fn cut_sets(alloc: Global, tables: &[&'static [Row]]) -> Result<(), Fail> {
    let rows = rows_of(alloc, tables)?;
    for row in rows.as_slice() {
        cut_set_everywhere(alloc, row)?;
    }
    Ok(())
}

#[test]
fn signs_of_cut_files(rt: HostRuntime) -> Result<(), Fail> {
    cut_sets(rt.alloc(), &signs())
}

#[test]
fn unknown_sequences_of_cut_files(rt: HostRuntime) -> Result<(), Fail> {
    cut_sets(rt.alloc(), &unknown())
}

/// Expects what is answered to the first lines of a dump: a file of them, the fault of the whole, no transfer syntax so
/// far, or an end that is missing.
fn expect_first_lines(row: &Row, wanted: &[u8], answer: &Answer) -> Result<(), Fail> {
    let told = answer.told.as_slice();
    let is_answered = if answer.status == 2 {
        told.starts_with(b"dcmtools: B7 at byte ")
            || told.starts_with(b"dcmtools: B9 at byte ")
            || told == row.told
    } else {
        answer.status == 0
    };
    holds(row.name, "what first lines are answered", is_answered)?;
    if writes_head(row) {
        let is_front = wanted.starts_with(answer.output.as_slice());
        holds(row.name, "output of first lines", is_front)?;
    }
    Ok(())
}

/// Runs a row with its lines cut after each of them.
fn cut_after_lines(alloc: Global, row: &Row) -> Result<(), Fail> {
    let wanted = joined(alloc, front_of(row), row.lines)?;
    let mut cut: usize = 0;
    for byte in row.input {
        cut = cut.saturating_add(1);
        if *byte == b'\n' {
            let (front, _) = row.input.split_at(cut.min(row.input.len()));
            let answer = over_memory(alloc, row.words, front, WHOLE, ROOM)?;
            expect_first_lines(row, wanted.as_slice(), &answer)?;
        }
    }
    Ok(())
}

#[test]
fn files_of_cut_dumps(rt: HostRuntime) -> Result<(), Fail> {
    let rows = rows_of(rt.alloc(), &buildings())?;
    for row in rows.as_slice() {
        cut_after_lines(rt.alloc(), row)?;
    }
    Ok(())
}
