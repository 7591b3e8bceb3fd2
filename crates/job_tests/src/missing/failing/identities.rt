// Runs that take identity out over devices that fail.
use super::{reads_fail, tells_fail, writes_fail};
use crate::runs::{identity_emptied, identity_put, identity_unnamed};
use std::test::Fail;

#[test]
fn reading_fails(rt: HostRuntime) -> Result<(), Fail> {
    reads_fail(rt.alloc(), &identity_put(), true)
}

#[test]
fn reading_and_flushing_fail(rt: HostRuntime) -> Result<(), Fail> {
    reads_fail(rt.alloc(), &identity_put(), false)
}

#[test]
fn writing_fails(rt: HostRuntime) -> Result<(), Fail> {
    writes_fail(rt.alloc(), &identity_put())?;
    writes_fail(rt.alloc(), &identity_emptied())
}

#[test]
fn writing_fails_where_nobody_is_named(rt: HostRuntime) -> Result<(), Fail> {
    writes_fail(rt.alloc(), &identity_unnamed())
}

#[test]
fn telling_fails(rt: HostRuntime) -> Result<(), Fail> {
    tells_fail(rt.alloc(), &identity_put())?;
    tells_fail(rt.alloc(), &identity_emptied())
}

#[test]
fn telling_fails_where_nobody_is_named(rt: HostRuntime) -> Result<(), Fail> {
    tells_fail(rt.alloc(), &identity_unnamed())
}
