mod answers;
mod failing;
mod files;
mod lists;
mod refused;
mod rows;

use answers::expect_rows;
use files::files;
use lists::lists;
use std::test::Fail;

#[test]
fn dumps_of_files(rt: HostRuntime) -> Result<(), Fail> {
    expect_rows(rt.alloc(), files())
}

#[test]
fn dumps_of_lists(rt: HostRuntime) -> Result<(), Fail> {
    expect_rows(rt.alloc(), lists())
}
