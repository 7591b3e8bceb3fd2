// Lines on standard error that name a file of a tree.
ghost use Rattle.std.specs.Prelude.{◌≡◌, ◌≤◌, ◌+◌, length};
ghost use Rattle.dcm_cli.specs.Calls as calls;
ghost use Rattle.dcm_devices.specs.Writing.{Wrote};
ghost use Rattle.dcm_names.specs.NamedLines.{fault_line, named_line, unread_line};
ghost use Rattle.dcm_trees.specs.Lines as spec;

use crate::fate::Fate;
use crate::place::Place;
use crate::task::NoDays;
use dcm_base::{DeviceOut, Stop, Watched, WriteFailed};
use dcm_cli::ending::{Ended, Ending, Remarks, Verdict};
use dcm_editor::MOST_EDITS;
use dcm_names::{put_emptied, put_fault, put_nobody, put_text, put_unplaced, put_unread};

/// Tells a text of a name.
pub fn tell_text<E: DeviceOut>(name: &[u8], text: &[u8], errors: &mut Watched<E>)
    requires { length text.now ≤ 176 }
    ensures { calls.Reports E.DeviceOut errors.old errors.new (named_line name.now text.now) }
{
    let _ = put_text(name, text, errors);
}

/// Writes the line of an edit, counted from 1, where it found no place.
fn put_edit<E: DeviceOut>(
    name: &[u8],
    is_unplaced: bool,
    edit: usize,
    errors: &mut Watched<E>,
) -> Result<(), WriteFailed>
    ensures { Wrote E.DeviceOut errors.old errors.new (spec.line_where name.now is_unplaced edit) result }
{
    if is_unplaced {
        put_unplaced(name, edit, errors)
    } else {
        Ok(())
    }
}

/// Writes which of so many edits found no place, each on a line, from this one on: bit 0 of the mask is set for it.
/// After a line that failed no other is tried.
fn put_edits<E: DeviceOut>(
    name: &[u8],
    count: usize,
    edit: usize,
    mask: u64,
    errors: &mut Watched<E>,
) -> Result<(), WriteFailed>
    requires { edit + count ≤ 65 }
    ensures { Wrote E.DeviceOut errors.old errors.new (spec.mask_lines name.now count edit mask) result }
{
    if count == 0 {
        return Ok(());
    }
    put_edit(name, mask % 2 == 1, edit, errors)?;
    put_edits(name, count - 1, edit + 1, mask / 2, errors)
}

/// Whether all edits found a place.
fn done_fate(unplaced: u64) -> Fate
    ensures { result ≡ spec.done_fate unplaced }
{
    if unplaced == 0 {
        Fate::Written
    } else {
        Fate::Unplaced
    }
}

/// Tells where a file is at fault, and answers what became of it.
fn tell_fault<E: DeviceOut>(name: &[u8], stop: Stop, errors: &mut Watched<E>) -> Fate
    ensures line { calls.Reports E.DeviceOut errors.old errors.new (fault_line name.now stop) }
    ensures fate { result ≡ Fate.Refused }
{
    let _ = put_fault(name, stop, errors);
    Fate::Refused
}

/// Tells that the reading of a file failed after so many bytes, and answers what became of it.
fn tell_unread<E: DeviceOut>(name: &[u8], read: u64, errors: &mut Watched<E>) -> Fate
    ensures line { calls.Reports E.DeviceOut errors.old errors.new (unread_line name.now read) }
    ensures fate { result ≡ Fate.Unread }
{
    let _ = put_unread(name, read, errors);
    Fate::Unread
}

/// Tells what the work on a file came to. Where it was done, its output has no name so far.
fn tell_verdict<E: DeviceOut>(name: &[u8], verdict: Verdict, errors: &mut Watched<E>) -> Fate
    ensures line { calls.Reports E.DeviceOut errors.old errors.new (spec.verdict_lines name.now verdict) }
    ensures fate { result ≡ spec.verdict_fate verdict }
{
    match verdict {
        Verdict::Done { unplaced } => {
            let _ = put_edits(name, MOST_EDITS, 1, unplaced, errors);
            done_fate(unplaced)
        }
        Verdict::PixelsMayShow => {
            tell_text(name, b"pixels may show identity", errors);
            Fate::Pixels
        }
        Verdict::Refused(stop) => tell_fault(name, stop, errors),
        Verdict::RefusedLine(_) => Fate::Refused,
    }
}

/// Tells how the run over a file ended, and answers what became of it, once its output has its name.
fn tell_ending<E: DeviceOut>(name: &[u8], ending: Ending, errors: &mut Watched<E>) -> Fate
    ensures line { calls.Reports E.DeviceOut errors.old errors.new (spec.ending_lines name.now ending) }
    ensures fate { result ≡ spec.ending_fate ending }
{
    match ending {
        Ending::Worked(verdict) => tell_verdict(name, verdict, errors),
        Ending::Unread(read) => tell_unread(name, read, errors),
        Ending::Output => {
            tell_text(name, b"output failed", errors);
            Fate::Unwritten
        }
    }
}

/// What became of a file by what the work on it came to.
fn verdict_fate(verdict: Verdict) -> Fate
    ensures { result ≡ spec.verdict_fate verdict }
{
    match verdict {
        Verdict::Done { unplaced } => done_fate(unplaced),
        Verdict::PixelsMayShow => Fate::Pixels,
        Verdict::Refused(_) | Verdict::RefusedLine(_) => Fate::Refused,
    }
}

/// What became of a file by how the run over it ended.
fn ending_fate(ending: Ending) -> Fate
    ensures { result ≡ spec.ending_fate ending }
{
    match ending {
        Ending::Worked(verdict) => verdict_fate(verdict),
        Ending::Unread(_) => Fate::Unread,
        Ending::Output => Fate::Unwritten,
    }
}

/// Writes the lines of what is remarked of a file.
fn put_all_remarks<E: DeviceOut>(
    name: &[u8],
    remarks: Remarks,
    errors: &mut Watched<E>,
) -> Result<(), WriteFailed>
    ensures { Wrote E.DeviceOut errors.old errors.new (spec.remark_lines name.now remarks) result }
{
    put_nobody(name, remarks.unnamed, errors)?;
    put_emptied(name, remarks.emptied, errors)
}

/// Writes what is remarked of a file, unless its output failed.
fn put_remarks<E: DeviceOut>(
    name: &[u8],
    ended: Ended,
    errors: &mut Watched<E>,
) -> Result<(), WriteFailed>
    ensures { Wrote E.DeviceOut errors.old errors.new (spec.remarks_told name.now ended.ending ended.remarks) result }
{
    match ended.ending {
        Ending::Output => Ok(()),
        Ending::Worked(_) | Ending::Unread(_) => put_all_remarks(name, ended.remarks, errors),
    }
}

/// Tells what is remarked of a file and how the run over it ended, and answers what became of it, once its output has
/// its name. After a line that failed no other is tried.
pub fn tell_ended<E: DeviceOut>(name: &[u8], ended: Ended, errors: &mut Watched<E>) -> Fate
    ensures line { calls.Reports E.DeviceOut errors.old errors.new
        (spec.ended_lines name.now ended.ending ended.remarks) }
    ensures fate { result ≡ spec.ending_fate ended.ending }
{
    if put_remarks(name, ended, errors).is_err() {
        return ending_fate(ended.ending);
    }
    tell_ending(name, ended.ending, errors)
}

/// Tells why there are no days by which the dates of a file are moved, and answers what became of it.
pub fn tell_no_days<E: DeviceOut>(name: &[u8], cause: NoDays, errors: &mut Watched<E>) -> Fate
    ensures line { calls.Reports E.DeviceOut errors.old errors.new (spec.no_days_line name.now cause) }
    ensures fate { result ≡ spec.no_days_fate cause }
{
    match cause {
        NoDays::Unopened => {
            tell_text(name, b"input cannot be opened", errors);
            Fate::Unread
        }
        NoDays::Unread(read) => tell_unread(name, read, errors),
        NoDays::Refused(stop) => tell_fault(name, stop, errors),
    }
}

/// Tells that the name of an output is not free, or was not, unless the run goes on with what is there; and answers what
/// became of its file.
pub fn tell_place<E: DeviceOut>(
    name: &[u8],
    place: Place,
    continues: bool,
    errors: &mut Watched<E>,
) -> Fate
    ensures line { calls.Reports E.DeviceOut errors.old errors.new (spec.place_lines name.now place continues) }
    ensures fate { result ≡ spec.place_fate place continues }
{
    match place {
        Place::There if continues => Fate::There,
        Place::There | Place::Free => {
            tell_text(name, b"output is there already", errors);
            Fate::Taken
        }
        Place::Barred => {
            tell_text(name, b"output cannot be opened", errors);
            Fate::Unwritten
        }
    }
}
