mod command_lines;
mod deep;
mod files;
mod long_lines;
mod nested;
mod rebuilt;

use crate::runs::{
    buildings, conversions, dictionaries, expect_rows, identities, identity_emptied,
    identity_faults, identity_heads, identity_moved, identity_named, identity_put,
    identity_unnamed, modifications, named_elements, signs, text_cuts, text_extensions, text_sets,
    text_terms, text_unknown, unknown,
};
use std::test::Fail;

#[test]
fn dumps(rt: HostRuntime) -> Result<(), Fail> {
    expect_rows(rt.alloc(), &crate::runs::dumps())
}

#[test]
fn dumps_by_characters(rt: HostRuntime) -> Result<(), Fail> {
    expect_rows(rt.alloc(), &text_sets())?;
    expect_rows(rt.alloc(), &text_extensions())?;
    expect_rows(rt.alloc(), &text_terms())?;
    expect_rows(rt.alloc(), &text_unknown())?;
    expect_rows(rt.alloc(), &text_cuts())
}

#[test]
fn dumps_named_elements(rt: HostRuntime) -> Result<(), Fail> {
    expect_rows(rt.alloc(), &named_elements())
}

#[test]
fn converts(rt: HostRuntime) -> Result<(), Fail> {
    expect_rows(rt.alloc(), &conversions())
}

#[test]
fn builds(rt: HostRuntime) -> Result<(), Fail> {
    expect_rows(rt.alloc(), &buildings())
}

#[test]
fn modifies(rt: HostRuntime) -> Result<(), Fail> {
    expect_rows(rt.alloc(), &modifications())
}

#[test]
fn reads_by_dictionaries(rt: HostRuntime) -> Result<(), Fail> {
    expect_rows(rt.alloc(), &dictionaries())
}

#[test]
fn reads_signs(rt: HostRuntime) -> Result<(), Fail> {
    expect_rows(rt.alloc(), &signs())
}

#[test]
fn reads_unknown_sequences(rt: HostRuntime) -> Result<(), Fail> {
    expect_rows(rt.alloc(), &unknown())
}

#[test]
fn takes_identity_out(rt: HostRuntime) -> Result<(), Fail> {
    expect_rows(rt.alloc(), &identities())?;
    expect_rows(rt.alloc(), &identity_heads())?;
    expect_rows(rt.alloc(), &identity_put())
}

#[test]
fn moves_dates_and_gives_pseudonyms(rt: HostRuntime) -> Result<(), Fail> {
    expect_rows(rt.alloc(), &identity_moved())?;
    expect_rows(rt.alloc(), &identity_emptied())?;
    expect_rows(rt.alloc(), &identity_named())?;
    expect_rows(rt.alloc(), &identity_unnamed())
}

#[test]
fn takes_identity_out_up_to_a_fault(rt: HostRuntime) -> Result<(), Fail> {
    expect_rows(rt.alloc(), &identity_faults())
}
