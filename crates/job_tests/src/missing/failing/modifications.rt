// Modifications over devices that fail.
use super::{expect_written, first_of, reads_fail, tells_fail, writes_fail};
use crate::runs::modifications;
use std::test::Fail;

#[test]
fn reading_fails(rt: HostRuntime) -> Result<(), Fail> {
    reads_fail(rt.alloc(), &modifications(), true)
}

#[test]
fn reading_and_flushing_fail(rt: HostRuntime) -> Result<(), Fail> {
    reads_fail(rt.alloc(), &modifications(), false)
}

#[test]
fn writing_fails(rt: HostRuntime) -> Result<(), Fail> {
    writes_fail(rt.alloc(), &modifications())
}

#[test]
fn telling_fails(rt: HostRuntime) -> Result<(), Fail> {
    tells_fail(rt.alloc(), &modifications())
}

/// Of a new element in a file that is cut first the meta group is sure, with 172 bytes, and then the new
/// element, with 10, and the head of the one after it.
#[test]
fn what_is_sure_is_written(rt: HostRuntime) -> Result<(), Fail> {
    let [new, ..] = modifications();
    let counts = [(173, 0), (174, 172), (195, 172), (196, 190)];
    expect_written(rt.alloc(), first_of(new)?, &counts)
}
