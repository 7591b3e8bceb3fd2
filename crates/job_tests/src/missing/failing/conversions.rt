// Conversions over devices that fail.
use super::{expect_written, first_of, reads_fail, tells_fail, writes_fail};
use crate::runs::conversions;
use std::test::Fail;

#[test]
fn reading_fails(rt: HostRuntime) -> Result<(), Fail> {
    reads_fail(rt.alloc(), &conversions(), true)
}

#[test]
fn reading_and_flushing_fail(rt: HostRuntime) -> Result<(), Fail> {
    reads_fail(rt.alloc(), &conversions(), false)
}

#[test]
fn writing_fails(rt: HostRuntime) -> Result<(), Fail> {
    writes_fail(rt.alloc(), &conversions())
}

#[test]
fn telling_fails(rt: HostRuntime) -> Result<(), Fail> {
    tells_fail(rt.alloc(), &conversions())
}

/// Of words that are turned to big endian first the meta group is sure, with 172 bytes, then their head,
/// with 12, and then each whole word.
#[test]
fn what_is_sure_is_written(rt: HostRuntime) -> Result<(), Fail> {
    let [values, ..] = conversions();
    let counts = [
        (173, 0),
        (174, 172),
        (183, 172),
        (184, 184),
        (185, 184),
        (187, 186),
    ];
    expect_written(rt.alloc(), first_of(values)?, &counts)
}
