// Dumps of named elements over devices that fail.
use super::{expect_written, first_of, reads_fail, writes_fail};
use crate::runs::named_elements;
use std::test::Fail;

#[test]
fn reading_fails(rt: HostRuntime) -> Result<(), Fail> {
    reads_fail(rt.alloc(), &named_elements(), true)
}

#[test]
fn writing_fails(rt: HostRuntime) -> Result<(), Fail> {
    writes_fail(rt.alloc(), &named_elements())
}

/// Nothing is sure until the line of a name is.
#[test]
fn what_is_sure_is_written(rt: HostRuntime) -> Result<(), Fail> {
    let [leaves, ..] = named_elements();
    expect_written(
        rt.alloc(),
        first_of(leaves)?,
        &[(174, 0), (185, 0), (186, 77)],
    )
}
