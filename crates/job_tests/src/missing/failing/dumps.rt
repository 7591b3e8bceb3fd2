// Dumps over devices that fail.
use super::{expect_written, first_of, reads_fail, tells_fail, writes_fail};
use crate::runs::{Row, dumps};
use std::test::Fail;

#[test]
fn reading_fails(rt: HostRuntime) -> Result<(), Fail> {
    reads_fail(rt.alloc(), &dumps(), true)
}

#[test]
fn reading_and_flushing_fail(rt: HostRuntime) -> Result<(), Fail> {
    reads_fail(rt.alloc(), &dumps(), false)
}

#[test]
fn writing_fails_in_first_rows(rt: HostRuntime) -> Result<(), Fail> {
    let [texts, numbers, ..] = dumps();
    writes_fail(rt.alloc(), &[texts, numbers])
}

#[test]
fn writing_fails_in_last_rows(rt: HostRuntime) -> Result<(), Fail> {
    let [_, _, sequences, heads, elements] = dumps();
    writes_fail(rt.alloc(), &[sequences, heads, elements])
}

#[test]
fn telling_fails(rt: HostRuntime) -> Result<(), Fail> {
    tells_fail(rt.alloc(), &dumps())
}

/// Of a name the header is sure, with 338 bytes. Without `+L` its line comes as a whole, with it the text as far as it
/// was read.
#[test]
fn what_is_sure_is_written(rt: HostRuntime) -> Result<(), Fail> {
    let [texts, ..] = dumps();
    let short = first_of(texts)?;
    expect_written(rt.alloc(), short, &[(172, 0), (174, 338)])?;
    let full = Row {
        words: "dcmdump +L -",
        ..*short
    };
    expect_written(rt.alloc(), &full, &[(179, 338), (182, 356)])
}
