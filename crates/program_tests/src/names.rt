mod failing;
mod lists;
mod long;
mod many;
mod names;
mod outputs;
mod unopened;
mod unread_lists;

use crate::runs::expect_rows;
use lists::lists;
use names::names;
use std::test::Fail;
use unopened::unopened;
use unread_lists::unread_lists;

#[test]
fn files_by_name(rt: HostRuntime) -> Result<(), Fail> {
    expect_rows(rt.alloc(), unopened())?;
    expect_rows(rt.alloc(), names())
}

#[test]
fn files_by_lists(rt: HostRuntime) -> Result<(), Fail> {
    expect_rows(rt.alloc(), lists())?;
    expect_rows(rt.alloc(), unread_lists())
}
