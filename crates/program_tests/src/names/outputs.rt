// Runs over an output, or a standard error, that fails.
use super::lists::lists;
use super::names::names;
use super::unopened::unopened;
use super::unread_lists::unread_lists;
use crate::runs::{flushes_fail, tells_fail, writes_fail};
use std::test::Fail;

#[test]
fn writing_fails_of_files(rt: HostRuntime) -> Result<(), Fail> {
    writes_fail(rt.alloc(), unopened())?;
    writes_fail(rt.alloc(), names())
}

#[test]
fn writing_fails_of_lists(rt: HostRuntime) -> Result<(), Fail> {
    writes_fail(rt.alloc(), lists())?;
    writes_fail(rt.alloc(), unread_lists())
}

#[test]
fn flushing_fails(rt: HostRuntime) -> Result<(), Fail> {
    flushes_fail(rt.alloc(), unopened())?;
    flushes_fail(rt.alloc(), unread_lists())
}

#[test]
fn telling_fails_of_names(rt: HostRuntime) -> Result<(), Fail> {
    tells_fail(rt.alloc(), unopened())?;
    tells_fail(rt.alloc(), names())?;
    tells_fail(rt.alloc(), lists())?;
    tells_fail(rt.alloc(), unread_lists())
}
