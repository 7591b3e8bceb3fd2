// By how many days the dates of a file are moved, where the key makes them.
ghost use Rattle.std.specs.Prelude.{◌≡◌};
ghost use Rattle.std.specs.IoError.{error_kind};
ghost use Rattle.dcm_cli.specs.Days as spec;

use crate::first::{FirstEnd, first_reading};
use dcm_base::{Stop, Watched};
use dcm_files::{FileKind, System, Unopened, open_input, unopened};
use std::io;

/// Why there are no days.
#[derive(Clone, Copy, Debug, PartialEq, Eq)]
pub enum NoDays {
    /// The file cannot be opened.
    Unopened,
    /// Opening the file needs memory that was refused.
    Memory,
    /// The file is no regular one, so it cannot be read twice.
    NotRegular,
    /// Reading the file failed after this number of bytes.
    Unread(u64),
    /// The file has a fault, or names no patient.
    Refused(Stop),
}

/// Why a file cannot be opened, by this error.
fn no_days(e: &io::Error) -> NoDays
    ensures { spec.IsDaysCause (error_kind e.now) result }
{
    match unopened(e, Unopened::Input) {
        Unopened::Memory => NoDays::Memory,
        _ => NoDays::Unopened,
    }
}

/// Whether a file can be read twice.
fn is_regular(kind: FileKind) -> bool
    ensures { result ≡ spec.is_regular kind }
{
    match kind {
        FileKind::Regular { .. } => true,
        FileKind::Directory | FileKind::Other | FileKind::Unknown => false,
    }
}

/// The days that a first reading comes to.
fn days_of(end: FirstEnd) -> Result<i32, NoDays>
    ensures { result ≡ spec.days_of end }
{
    match end {
        FirstEnd::Days(days) => Ok(days),
        FirstEnd::Refused(stop) => Err(NoDays::Refused(stop)),
        FirstEnd::Unread(read) => Err(NoDays::Unread(read)),
    }
}

/// Opens a file, reads it up to its PatientID, and gives the file back.
pub fn take_days<S: System>(system: &mut S, path: &[u8], key: &[u8]) -> Result<i32, NoDays>
    ensures { spec.TakesDays S.may_do S.Input.DeviceIn path.now key.now system.old result system.new }
{
    let opened = match open_input(system, path) {
        Ok(opened) => opened,
        Err(e) => return Err(no_days(&e)),
    };
    if !is_regular(opened.kind) {
        system.release(opened.device);
        return Err(NoDays::NotRegular);
    }
    let mut input = Watched::new(opened.device);
    let end = first_reading(key, &mut input);
    system.release(input.into_device());
    days_of(end)
}
