// What is read, and what is wanted of it.
use super::instances::{Names, Row};
use super::pairs::Pair;
use dcm_base::{Std, Watched};
use dcm_instance::{NoInstance, read_instance, same_bytes};
use dcm_test_devices::{Steps, repeated};
use std::alloc::{AllocError, Global};
use std::test::Fail;

/// Fails with the name of a row.
fn holds(name: &str, is_held: bool) -> Result<(), Fail> {
    if is_held {
        Ok(())
    } else {
        Err(Fail::new(name))
    }
}

/// The bytes of a row's file.
fn file_of(alloc: Global, row: &Row) -> Result<Vec<u8>, AllocError> {
    let mut file = row.start.bytes().to_vec(alloc)?;
    for part in row.set {
        file.extend_from_slice(part)?;
    }
    Ok(file)
}

/// Whether a file names what is wanted.
fn is_named(input: &mut Watched<Std<Steps>>, names: Names) -> bool {
    match (read_instance(input), names) {
        (Ok(instance), Names::Instance(name)) => instance.name().as_slice() == name,
        (Err(NoInstance::Unfit(which)), Names::Unfit(keyword)) => which.keyword() == keyword,
        (Err(NoInstance::Unread), Names::Unread) => true,
        _ => false,
    }
}

/// How many calls of a reader go well.
fn good_calls(names: Names) -> usize {
    match names {
        Names::Unread => 0,
        _ => usize::MAX,
    }
}

/// Reads the file of a row, so many bytes a call.
pub fn expect_row(alloc: Global, row: &Row, step: usize) -> Result<(), Fail> {
    let file = file_of(alloc, row)?;
    let mut input = Watched::new(Std::new(Steps {
        rest: file.as_slice(),
        step,
        good: good_calls(row.names),
    }));
    holds(row.name, is_named(&mut input, row.names))
}

/// Compares a pair, of which the first gives so many bytes a call, and the second 5.
pub fn expect_pair(alloc: Global, pair: &Pair, step: usize) -> Result<(), Fail> {
    let first = repeated(alloc, b"", b"0123456789", pair.times, pair.first)?;
    let second = repeated(alloc, b"", b"0123456789", pair.times, pair.second)?;
    let mut one = Watched::new(Std::new(Steps {
        rest: first.as_slice(),
        step,
        good: pair.good,
    }));
    let mut other = Watched::new(Std::new(Steps {
        rest: second.as_slice(),
        step: 5,
        good: usize::MAX,
    }));
    holds(pair.name, same_bytes(&mut one, &mut other) == pair.same)
}
