// The walk of a folder.
ghost use Rattle.std.specs.Prelude.{◌≡◌, ◌≤◌, ◌+◌, length, codes};
ghost use Rattle.arrayvec.specs.ArrayVec.{array_vec_len};
ghost use Rattle.dcm_walk.specs.Folder as spec;

use crate::name::{LongPath, go_below};
use crate::path::{close, judge, named_at, open_at, seen};
use crate::visitor::{Named, Stopped, Visitor, What};
use dcm_files::{EntryName, Folders, Found, FoundKind};

/// The most folders that are open within the first.
const LEVELS: usize = 63;

/// A folder, by its device and its number there.
#[derive(Clone, Copy, Debug, PartialEq, Eq)]
pub struct FolderNumber {
    pub device: u64,
    pub number: u64,
}

/// What all names of a walk share.
#[derive(Clone, Copy)]
pub struct Walk {
    /// The bytes of a path before its relative name.
    pub base: usize,
    /// The folder of the outputs, which is not entered.
    pub output: FolderNumber,
}

/// Where a walk is. It is shared by all folders that are open, so that each of them takes little more of the stack than
/// its names that were listed and not yet done.
#[derive(Drop)]
struct Trail {
    /// The path of the folder whose names are done, or of the name that is.
    path: LongPath,
    /// The name in a folder that was listed last.
    entry: EntryName,
}

impl Trail {
    /// At the path of the first folder.
    fn at(folder: &[u8]) -> Self
        requires { length folder.now ≤ 4095 }
        ensures { result.path.items ≡ folder.now }
    {
        let mut path = LongPath::new();
        let _ = path.try_extend_from_slice(folder);
        Trail {
            path,
            entry: EntryName::new(),
        }
    }
}

/// Whether a folder is that of the outputs.
pub(crate) fn is_output(output: FolderNumber, found: Found) -> bool
    ensures { result ≡ spec.is_output output found }
{
    found.device == output.device && found.number == output.number
}

/// Visits the name at a path. It is never inlined: what a visit takes of the stack is taken once, and not for each folder
/// that is open.
#[inline(never)]
fn visit_at<S: Folders, E, V: Visitor<S, E>>(
    base: usize,
    path: &LongPath,
    what: What,
    system: &mut S,
    errors: &mut E,
    visitor: &mut V,
) -> Result<(), Stopped>
    requires { base ≤ array_vec_len path.now }
    ensures { V.visits (visitor.old, errors.old) system.old (spec.named_at base path.now.items) what result
        (visitor.new, errors.new) system.new }
{
    visitor.visit(system, errors, named_at(base, path), what)
}

/// Does the names of an open folder, within which so many may be open. Answers whether they were listed to the end.
#[cycle(entering)]
fn do_names<S: Folders, E, V: Visitor<S, E>>(
    walk: Walk,
    levels: usize,
    trail: &mut Trail,
    folder: &mut S::Folder,
    system: &mut S,
    errors: &mut E,
    visitor: &mut V,
) -> Result<bool, Stopped>
    requires path { array_vec_len trail.old.path ≤ 4095 }
    requires base { walk.base ≤ array_vec_len trail.old.path + 1 }
    ensures does { spec.DoesNames S.folders_do
        (spec.EntryAt S.folders_do V.visits walk levels trail.old.path.items) folder.old folder.new
        (visitor.old, errors.old) system.old result (visitor.new, errors.new) system.new }
    ensures path { trail.new.path.items ≡ trail.old.path.items }
{
    let mut count: u64 = 0;
    while count < u64::MAX {
        match system.next_name(folder, &mut trail.entry) {
            Ok(true) => do_entry(walk, levels, trail, system, errors, visitor)?,
            Ok(false) => return Ok(true),
            Err(_) => return Ok(false),
        }
        count += 1;
    }
    Ok(false)
}

/// Does the names of a folder that was opened, within which so many may be open, and gives it back. Answers whether they
/// were listed to the end; not of one that could not be opened.
#[cycle(entering)]
fn do_opened<S: Folders, E, V: Visitor<S, E>>(
    walk: Walk,
    levels: usize,
    trail: &mut Trail,
    folder: &mut Option<S::Folder>,
    system: &mut S,
    errors: &mut E,
    visitor: &mut V,
) -> Result<bool, Stopped>
    requires path { array_vec_len trail.old.path ≤ 4095 }
    requires base { walk.base ≤ array_vec_len trail.old.path + 1 }
    ensures does { spec.DoesOpened S.folders_do
        (spec.EntryAt S.folders_do V.visits walk levels trail.old.path.items) folder.old (visitor.old, errors.old)
        system.old result (visitor.new, errors.new) system.new }
    ensures path { trail.new.path.items ≡ trail.old.path.items }
{
    let Some(open) = folder else {
        return Ok(false);
    };
    let ended = do_names(walk, levels, trail, open, system, errors, visitor);
    close(folder, system);
    ended
}

/// Enters a folder within which so many may be open, where that may be, and else visits it.
#[cycle(entering)]
fn enter<S: Folders, E, V: Visitor<S, E>>(
    walk: Walk,
    levels: usize,
    found: Found,
    trail: &mut Trail,
    system: &mut S,
    errors: &mut E,
    visitor: &mut V,
) -> Result<(), Stopped>
    requires fit { spec.IsFit (spec.named_at walk.base trail.old.path.items) }
    requires base { walk.base ≤ array_vec_len trail.old.path }
    ensures does { spec.EntersAt S.folders_do V.visits walk levels found
        (spec.named_at walk.base trail.old.path.items) (visitor.old, errors.old) system.old result
        (visitor.new, errors.new) system.new }
    ensures path { trail.new.path.items ≡ trail.old.path.items }
{
    if levels == 0 {
        return visit_at(
            walk.base,
            &trail.path,
            What::TooDeep,
            system,
            errors,
            visitor,
        );
    }
    if is_output(walk.output, found) {
        return visit_at(
            walk.base,
            &trail.path,
            What::OfOutput,
            system,
            errors,
            visitor,
        );
    }
    let mut folder = None;
    open_at(&trail.path, &mut folder, system);
    let is_whole = do_opened(
        walk,
        levels - 1,
        trail,
        &mut folder,
        system,
        errors,
        visitor,
    )?;
    if is_whole {
        return Ok(());
    }
    visit_at(
        walk.base,
        &trail.path,
        What::Unlisted,
        system,
        errors,
        visitor,
    )
}

/// Does a name that can be looked at.
#[cycle(entering)]
fn do_fit<S: Folders, E, V: Visitor<S, E>>(
    walk: Walk,
    levels: usize,
    trail: &mut Trail,
    system: &mut S,
    errors: &mut E,
    visitor: &mut V,
) -> Result<(), Stopped>
    requires fit { spec.IsFit (spec.named_at walk.base trail.old.path.items) }
    requires base { walk.base ≤ array_vec_len trail.old.path }
    ensures does { spec.DoesNamed S.folders_do V.visits (spec.EntersAt S.folders_do V.visits walk levels)
        (spec.named_at walk.base trail.old.path.items) (visitor.old, errors.old) system.old result
        (visitor.new, errors.new) system.new }
    ensures path { trail.new.path.items ≡ trail.old.path.items }
{
    let Some(found) = seen(&trail.path, system) else {
        return visit_at(
            walk.base,
            &trail.path,
            What::Unseen,
            system,
            errors,
            visitor,
        );
    };
    match found.kind {
        FoundKind::Folder => enter(walk, levels, found, trail, system, errors, visitor),
        FoundKind::File => {
            let what = What::File { mode: found.mode };
            visit_at(walk.base, &trail.path, what, system, errors, visitor)
        }
        FoundKind::Other => visit_at(
            walk.base,
            &trail.path,
            What::NoFile,
            system,
            errors,
            visitor,
        ),
    }
}

/// Does the name at a path, in a folder within which so many may be open.
#[cycle(entering)]
fn do_path<S: Folders, E, V: Visitor<S, E>>(
    walk: Walk,
    levels: usize,
    trail: &mut Trail,
    system: &mut S,
    errors: &mut E,
    visitor: &mut V,
) -> Result<(), Stopped>
    requires base { walk.base ≤ array_vec_len trail.old.path }
    ensures does { spec.DoesNamed S.folders_do V.visits (spec.EntersAt S.folders_do V.visits walk levels)
        (spec.named_at walk.base trail.old.path.items) (visitor.old, errors.old) system.old result
        (visitor.new, errors.new) system.new }
    ensures path { trail.new.path.items ≡ trail.old.path.items }
{
    match judge(&named_at(walk.base, &trail.path)) {
        None => do_fit(walk, levels, trail, system, errors, visitor),
        Some(what) => visit_at(walk.base, &trail.path, what, system, errors, visitor),
    }
}

/// Does the name that was listed last, in a folder within which so many may be open.
#[cycle(entering)]
fn do_entry<S: Folders, E, V: Visitor<S, E>>(
    walk: Walk,
    levels: usize,
    trail: &mut Trail,
    system: &mut S,
    errors: &mut E,
    visitor: &mut V,
) -> Result<(), Stopped>
    requires path { array_vec_len trail.old.path ≤ 4095 }
    requires base { walk.base ≤ array_vec_len trail.old.path + 1 }
    ensures does { spec.EntryAt S.folders_do V.visits walk levels trail.old.path.items trail.old.entry.items
        (visitor.old, errors.old) system.old result (visitor.new, errors.new) system.new }
    ensures path { trail.new.path.items ≡ trail.old.path.items }
{
    let length = trail.path.len();
    go_below(&mut trail.path, trail.entry.as_slice());
    let done = do_path(walk, levels, trail, system, errors, visitor);
    trail.path.truncate(length);
    done
}

/// Goes over the names in a folder that was opened at a path, and enters each folder in it. The folder itself is
/// visited as `.` where it cannot be listed to its end. Fails, at once, where the visitor stops.
pub fn walk_folder<S: Folders, E, V: Visitor<S, E>>(
    path: &[u8],
    output: FolderNumber,
    folder: S::Folder,
    system: &mut S,
    errors: &mut E,
    visitor: &mut V,
) -> Result<(), Stopped>
    requires { length path.now ≤ 4095 }
    ensures { spec.WalksFolder S.folders_do V.visits path.now output folder (visitor.old, errors.old) system.old result
        (visitor.new, errors.new) system.new }
{
    let walk = Walk {
        base: path.len() + 1,
        output,
    };
    let mut trail = Trail::at(path);
    let mut folder = Some(folder);
    let ended = do_opened(
        walk,
        LEVELS,
        &mut trail,
        &mut folder,
        system,
        errors,
        visitor,
    );
    let named = Named {
        name: b".",
        relative: b".",
        path,
    };
    match ended {
        Ok(true) => Ok(()),
        Ok(false) => visitor.visit(system, errors, named, What::Unlisted),
        Err(stopped) => Err(stopped),
    }
}
