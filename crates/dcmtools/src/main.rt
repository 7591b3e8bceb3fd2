//! The program dcmtools.
#![tactic(auto)]

use dcm_tables::dcmtools;
use std::process::ExitCode;

fn main(rt: HostRuntime) -> ExitCode {
    ExitCode::from(dcmtools(rt).status)
}
