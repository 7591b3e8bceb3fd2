// The walk of a list of names.
ghost use Rattle.std.specs.Prelude.{◌≡◌, ◌≤◌, length};
ghost use Rattle.std.specs.Str.{IsUtf8};
ghost use Rattle.dcm_walk.specs.List as spec;
ghost use Rattle.dcm_walk.specs.Visits.{name_of};

use crate::folder::{FolderNumber, is_output};
use crate::path::judge;
use crate::visitor::{Named, Stopped, Visitor, What};
use dcm_devices::Watched;
use dcm_files::{Folders, Found, FoundKind, Links};
use dcm_names::{ListReader, NextName};
use std::str;

/// What ends a part of a name.
const SLASH: u8 = b'/';

/// How the reading of a list ended.
#[derive(Clone, Copy, Debug, PartialEq, Eq)]
pub enum ListEnd {
    /// All of it was read.
    Whole,
    /// Reading failed after so many bytes, or they are more than are read.
    Unread(u64),
}

/// The relative name of a line: without one `./` at its front.
fn relative_of(line: &[u8]) -> &[u8]
    ensures { result.now ≡ spec.relative_of line.now }
{
    match line {
        [b'.', b'/', relative @ ..] => relative,
        _ => line,
    }
}

/// The first slash.
pub fn slash(bytes: &[u8]) -> Option<usize>
    ensures { spec.IsSlash bytes.now result }
{
    bytes.iter().position(|byte| *byte == SLASH)
}

/// What is at a path, links followed; none where it cannot be looked at, too.
fn seen<S: Folders>(system: &mut S, path: &[u8]) -> Option<Found>
    ensures { spec.Sees S.folders_do path.now system.old result system.new }
{
    let Ok(text) = str::from_utf8(path) else {
        return None;
    };
    match system.find(text, Links::Followed) {
        Ok(found) => found,
        Err(_) => None,
    }
}

/// What is wrong with a folder on the way of a name: it cannot be looked at, or is that of the outputs.
fn wrong_with(output: FolderNumber, found: Option<Found>) -> Option<What>
    ensures { result ≡ spec.wrong_with output found }
{
    match found {
        None => Some(What::Unseen),
        Some(found) if is_output(output, found) => Some(What::OfOutput),
        Some(_) => None,
    }
}

/// What is wrong with the first folder on the way of a relative name with which something is, if there is one.
fn wrong_on_the_way<S: Folders>(
    output: FolderNumber,
    relative: &[u8],
    system: &mut S,
) -> Option<What>
    ensures { spec.LooksAlong S.folders_do output relative.now system.old result system.new }
{
    let mut at = 0;
    loop {
        let (_, rest) = relative.split_at(at);
        let Some(length) = slash(rest) else {
            return None;
        };
        let (folder, _) = relative.split_at(at + length);
        let found = seen(system, folder);
        if let Some(what) = wrong_with(output, found) {
            return Some(what);
        }
        at += length + 1;
    }
}

/// What is there, where all folders on the way are others than that of the outputs.
fn what_of(output: FolderNumber, found: Option<Found>) -> What
    ensures { result ≡ spec.what_of output found }
{
    match found {
        None => What::Unseen,
        Some(found) if is_output(output, found) => What::OfOutput,
        Some(found) => match found.kind {
            FoundKind::File => What::File { mode: found.mode },
            _ => What::NoFile,
        },
    }
}

/// What a name is that can be looked at.
fn look<S: Folders>(output: FolderNumber, named: &Named, system: &mut S) -> What
    ensures { spec.Looks S.folders_do output (name_of named.now) system.old result system.new }
{
    if let Some(what) = wrong_on_the_way(output, named.relative, system) {
        return what;
    }
    let found = seen(system, named.path);
    what_of(output, found)
}

/// Does a line, or its first bytes.
fn do_line<S: Folders, E, V: Visitor<S, E>>(
    output: FolderNumber,
    line: &[u8],
    system: &mut S,
    errors: &mut E,
    visitor: &mut V,
) -> Result<(), Stopped>
    ensures { spec.DoesLine S.folders_do V.visits output line.now (visitor.old, errors.old) system.old result
        (visitor.new, errors.new) system.new }
{
    let named = Named {
        name: line,
        relative: relative_of(line),
        path: line,
    };
    if let Some(what) = judge(&named) {
        return visitor.visit(system, errors, named, what);
    }
    let what = look(output, &named, system);
    visitor.visit(system, errors, named, what)
}

/// Goes over the names in a list, one a line. Links are followed. What has the number of the output, and what lies in
/// it, is told. Fails, at once, where the visitor stops.
pub fn walk_list<S: Folders, E, V: Visitor<S, E>>(
    output: FolderNumber,
    input: &mut Watched<S::Input>,
    system: &mut S,
    errors: &mut E,
    visitor: &mut V,
) -> Result<ListEnd, Stopped>
    ensures { spec.WalksList S.folders_do V.visits S.Input.DeviceIn.gets output (visitor.old, errors.old) system.old
        input.old result (visitor.new, errors.new) system.new input.new }
{
    let mut names = ListReader::new();
    loop {
        match names.next(input) {
            NextName::Name => do_line(output, names.name(), system, errors, visitor)?,
            NextName::End => return Ok(ListEnd::Whole),
            NextName::Unread(read) => return Ok(ListEnd::Unread(read)),
        }
    }
}
