// Runs over files of which reading fails, and files that are gone.
use super::ends::ends;
use super::in_force::in_force;
use super::plain::plain;
use super::representations::representations;
use super::texts::texts;
use crate::runs::{files_vanish, reads_fail};
use std::test::Fail;

#[test]
fn reading_fails_of_plain_rows(rt: HostRuntime) -> Result<(), Fail> {
    reads_fail(rt.alloc(), plain())
}

#[test]
fn reading_fails_of_representations(rt: HostRuntime) -> Result<(), Fail> {
    reads_fail(rt.alloc(), representations())
}

#[test]
fn reading_fails_of_texts(rt: HostRuntime) -> Result<(), Fail> {
    reads_fail(rt.alloc(), texts())
}

#[test]
fn reading_fails_of_what_is_in_force(rt: HostRuntime) -> Result<(), Fail> {
    reads_fail(rt.alloc(), in_force())
}

#[test]
fn reading_fails_of_ends(rt: HostRuntime) -> Result<(), Fail> {
    reads_fail(rt.alloc(), ends())
}

#[test]
fn files_vanish_of_rows(rt: HostRuntime) -> Result<(), Fail> {
    files_vanish(rt.alloc(), plain())?;
    files_vanish(rt.alloc(), representations())?;
    files_vanish(rt.alloc(), texts())?;
    files_vanish(rt.alloc(), ends())
}
