// Files that are built over devices that fail.
use super::{reads_fail, tells_fail, writes_fail};
use crate::runs::buildings;
use std::test::Fail;

#[test]
fn reading_fails(rt: HostRuntime) -> Result<(), Fail> {
    reads_fail(rt.alloc(), &buildings(), true)
}

#[test]
fn reading_and_flushing_fail(rt: HostRuntime) -> Result<(), Fail> {
    reads_fail(rt.alloc(), &buildings(), false)
}

#[test]
fn writing_fails(rt: HostRuntime) -> Result<(), Fail> {
    writes_fail(rt.alloc(), &buildings())
}

#[test]
fn telling_fails(rt: HostRuntime) -> Result<(), Fail> {
    tells_fail(rt.alloc(), &buildings())
}
