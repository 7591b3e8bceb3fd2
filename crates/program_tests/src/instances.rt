mod instances;
mod pairs;
mod reading;

use instances::ROWS;
use pairs::PAIRS;
use reading::{expect_pair, expect_row};
use std::test::Fail;

/// The bytes that a reader gives at a time.
const STEPS: [usize; 5] = [1, 2, 3, 7, 100_000];

#[test]
fn instances_of_files(rt: HostRuntime) -> Result<(), Fail> {
    for row in &ROWS {
        for step in STEPS {
            expect_row(rt.alloc(), row, step)?;
        }
    }
    Ok(())
}

#[test]
fn readers_of_bytes(rt: HostRuntime) -> Result<(), Fail> {
    for pair in &PAIRS {
        for step in STEPS {
            expect_pair(rt.alloc(), pair, step)?;
        }
    }
    Ok(())
}
