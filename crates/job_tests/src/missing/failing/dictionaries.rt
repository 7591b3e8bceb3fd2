// Runs with the whole dictionary over devices that fail.
use super::{expect_written, first_of, reads_fail, tells_fail, writes_fail};
use crate::runs::dictionaries;
use std::test::Fail;

#[test]
fn reading_fails(rt: HostRuntime) -> Result<(), Fail> {
    reads_fail(rt.alloc(), &dictionaries(), true)
}

#[test]
fn reading_and_flushing_fail(rt: HostRuntime) -> Result<(), Fail> {
    reads_fail(rt.alloc(), &dictionaries(), false)
}

#[test]
fn writing_fails(rt: HostRuntime) -> Result<(), Fail> {
    writes_fail(rt.alloc(), &dictionaries())
}

#[test]
fn telling_fails(rt: HostRuntime) -> Result<(), Fail> {
    tells_fail(rt.alloc(), &dictionaries())
}

/// Of an implicit sequence that is written in explicit VR first the meta group is sure, with 172 bytes, then the head
/// of the sequence, with 12, that of its item and that of the number in it, with 8 each, and then each byte of the
/// number.
#[test]
fn what_is_sure_is_written(rt: HostRuntime) -> Result<(), Fail> {
    let [_, conversions, _] = dictionaries();
    let counts = [
        (171, 0),
        (172, 172),
        (177, 172),
        (178, 184),
        (185, 184),
        (186, 192),
        (194, 200),
        (195, 201),
    ];
    expect_written(rt.alloc(), first_of(conversions)?, &counts)
}
