// Dumps by characters over devices that fail.
use super::{expect_written, reads_fail, tells_fail, writes_fail};
use crate::runs::{text_cuts, text_extensions, text_sets, text_terms, text_unknown};
use std::test::Fail;

#[test]
fn reading_fails_in_sets(rt: HostRuntime) -> Result<(), Fail> {
    reads_fail(rt.alloc(), &text_sets(), true)
}

#[test]
fn reading_fails_in_extensions(rt: HostRuntime) -> Result<(), Fail> {
    reads_fail(rt.alloc(), &text_extensions(), true)
}

#[test]
fn reading_fails_in_cut_texts(rt: HostRuntime) -> Result<(), Fail> {
    let [cuts, open, _] = text_cuts();
    reads_fail(rt.alloc(), &[cuts, open], true)
}

#[test]
fn writing_fails(rt: HostRuntime) -> Result<(), Fail> {
    let [_, _, data_sets, others] = text_terms();
    writes_fail(rt.alloc(), &[data_sets, others])
}

#[test]
fn writing_fails_where_sets_are_not_known(rt: HostRuntime) -> Result<(), Fail> {
    writes_fail(rt.alloc(), &text_unknown())
}

#[test]
fn telling_fails_where_sets_are_not_known(rt: HostRuntime) -> Result<(), Fail> {
    tells_fail(rt.alloc(), &text_unknown())
}

/// Of a value that stands open the parts that are decided, and none of the bytes that wait for more.
#[test]
fn what_is_decided_is_written(rt: HostRuntime) -> Result<(), Fail> {
    let [_, open, _] = text_cuts();
    let sizes = [
        (201, 458),
        (201, 462),
        (200, 458),
        (200, 463),
        (207, 458),
        (207, 462),
        (210, 460),
        (199, 459),
    ];
    for (row, size) in open.iter().zip(sizes) {
        expect_written(rt.alloc(), row, &[size])?;
    }
    Ok(())
}
