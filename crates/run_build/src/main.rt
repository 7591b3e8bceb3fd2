//! The program dcmtools, for the gate to run with lines of a dump.
#![tactic(auto)]

use dcm_tables::dcmtools;
use std::process::ExitCode;

fn main(rt: HostRuntime) -> ExitCode {
    ExitCode::from(dcmtools(rt).status)
}
