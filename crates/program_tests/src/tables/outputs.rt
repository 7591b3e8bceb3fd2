// Runs over an output, or a standard error, that fails.
use super::decoded::decoded;
use super::ends::ends;
use super::not_known::not_known;
use super::plain::plain;
use super::representations::representations;
use super::texts::texts;
use crate::runs::{flushes_fail, tells_fail, writes_fail};
use std::test::Fail;

#[test]
fn writing_fails_of_plain_rows(rt: HostRuntime) -> Result<(), Fail> {
    writes_fail(rt.alloc(), plain())
}

#[test]
fn writing_fails_of_representations(rt: HostRuntime) -> Result<(), Fail> {
    writes_fail(rt.alloc(), representations())
}

#[test]
fn writing_fails_of_texts(rt: HostRuntime) -> Result<(), Fail> {
    writes_fail(rt.alloc(), texts())
}

#[test]
fn writing_fails_of_characters(rt: HostRuntime) -> Result<(), Fail> {
    writes_fail(rt.alloc(), decoded())
}

#[test]
fn writing_fails_where_sets_are_not_known(rt: HostRuntime) -> Result<(), Fail> {
    writes_fail(rt.alloc(), not_known())
}

#[test]
fn writing_fails_of_ends(rt: HostRuntime) -> Result<(), Fail> {
    writes_fail(rt.alloc(), ends())
}

#[test]
fn flushing_fails(rt: HostRuntime) -> Result<(), Fail> {
    flushes_fail(rt.alloc(), plain())?;
    flushes_fail(rt.alloc(), ends())
}

#[test]
fn telling_fails_of_rows(rt: HostRuntime) -> Result<(), Fail> {
    tells_fail(rt.alloc(), texts())?;
    tells_fail(rt.alloc(), ends())
}
