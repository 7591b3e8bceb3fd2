// Runs over files of which reading fails, and files that are gone.
use super::lists::lists;
use super::names::names;
use super::unopened::unopened;
use super::unread_lists::unread_lists;
use crate::runs::{files_vanish, reads_fail};
use std::test::Fail;

#[test]
fn reading_fails_of_files(rt: HostRuntime) -> Result<(), Fail> {
    reads_fail(rt.alloc(), unopened())?;
    reads_fail(rt.alloc(), names())
}

#[test]
fn reading_fails_of_lists(rt: HostRuntime) -> Result<(), Fail> {
    reads_fail(rt.alloc(), lists())?;
    reads_fail(rt.alloc(), unread_lists())
}

#[test]
fn files_vanish_of_names(rt: HostRuntime) -> Result<(), Fail> {
    files_vanish(rt.alloc(), unopened())?;
    files_vanish(rt.alloc(), names())?;
    files_vanish(rt.alloc(), lists())?;
    files_vanish(rt.alloc(), unread_lists())
}
