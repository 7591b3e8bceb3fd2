//! The benchmark: jobs that users wait for, over inputs that it makes itself. It is no part of the program.
//!
//! `dcm_bench WORKLOAD ROUNDS SEED` makes the inputs of so many rounds from the seed, does the jobs of the workload on
//! each of them, and prints a digest of all outputs, lines on standard error and statuses.
#![tactic(auto)]

mod arrays;
mod data_set;
mod digest;
mod frames;
mod headers;
mod jobs;
mod random;
mod report;
mod texts;
mod workloads;

use dcm_base::decimal_number;
use std::env::Env;
use std::io;
use workloads::{Workload, workload_named};

/// The most bytes of a word of the command line.
const WORD: usize = 64;

/// The word of the command line with this number, where it is there and short enough.
fn word(rt: HostRuntime, number: usize, buffer: &mut [u8; WORD]) -> &[u8] {
    match rt.arg(number, buffer) {
        Ok(size) if size <= WORD => &buffer[..size],
        _ => &[],
    }
}

/// The number that is the word of the command line with this number, or 1.
fn number(rt: HostRuntime, place: usize) -> u64 {
    let mut buffer = [0; WORD];
    let digits = decimal_number(word(rt, place, &mut buffer));
    digits.and_then(|n| u64::try_from(n).ok()).unwrap_or(1)
}

/// The workload that the first word names.
fn workload(rt: HostRuntime) -> Workload {
    let mut buffer = [0; WORD];
    workload_named(word(rt, 1, &mut buffer))
}

fn main(rt: HostRuntime) -> io::Result<()> {
    let total = workload(rt).total(rt.alloc(), number(rt, 2), number(rt, 3))?;
    println!(rt; "{total:016x}")
}
