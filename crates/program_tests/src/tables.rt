mod decoded;
mod ends;
mod examples;
mod failing;
mod in_force;
mod long;
mod not_known;
mod outputs;
mod plain;
mod program;
mod refused;
mod representations;
mod texts;

use crate::runs::expect_rows;
use decoded::decoded;
use ends::ends;
use in_force::in_force;
use not_known::not_known;
use plain::plain;
use representations::representations;
use std::test::Fail;
use texts::texts;

#[test]
fn plain_rows(rt: HostRuntime) -> Result<(), Fail> {
    expect_rows(rt.alloc(), plain())
}

#[test]
fn representations_of_values(rt: HostRuntime) -> Result<(), Fail> {
    expect_rows(rt.alloc(), representations())
}

#[test]
fn texts_that_are_no_utf8(rt: HostRuntime) -> Result<(), Fail> {
    expect_rows(rt.alloc(), texts())
}

#[test]
fn texts_as_characters(rt: HostRuntime) -> Result<(), Fail> {
    expect_rows(rt.alloc(), decoded())
}

#[test]
fn what_is_in_force(rt: HostRuntime) -> Result<(), Fail> {
    expect_rows(rt.alloc(), in_force())
}

#[test]
fn sets_that_are_not_known(rt: HostRuntime) -> Result<(), Fail> {
    expect_rows(rt.alloc(), not_known())
}

#[test]
fn ends_of_reading(rt: HostRuntime) -> Result<(), Fail> {
    expect_rows(rt.alloc(), ends())
}
