// What is at a path in a folder.
ghost use Rattle.std.specs.Prelude.{◌≡◌, ◌≤◌};
ghost use Rattle.std.specs.Str.{IsUtf8};
ghost use Rattle.arrayvec.specs.ArrayVec.{array_vec_len};
ghost use Rattle.dcm_walk.specs.Folder as spec;
ghost use Rattle.dcm_walk.specs.Visits.{name_of};

use crate::name::{LongPath, MOST_OF_PATH, is_part_file, leads_below};
use crate::visitor::{Named, What};
use dcm_files::{Folders, Found, Links};
use dcm_names::MOST_OF_NAME;
use std::str;

/// The name at a path.
pub(crate) fn named_at(base: usize, path: &LongPath) -> Named<'_>
    requires { base ≤ array_vec_len path.now }
    ensures { name_of result ≡ spec.named_at base path.now.items }
{
    let path = path.as_slice();
    let (_, within) = path.split_at(base);
    let (name, _) = within.split_at(within.len().min(MOST_OF_NAME));
    Named {
        name,
        relative: name,
        path,
    }
}

/// Why a name cannot be looked at, or none where it can.
pub(crate) fn judge(named: &Named) -> Option<What>
    ensures { spec.Judges (name_of named.now) result }
{
    if named.path.len() > MOST_OF_PATH || !leads_below(named.relative) {
        return Some(What::Unfit);
    }
    if str::from_utf8(named.path).is_err() {
        return Some(What::NoText);
    }
    if is_part_file(named.relative) {
        return Some(What::PartFile);
    }
    None
}

/// The text of a path that is one.
fn text(path: &[u8]) -> &str
    requires { IsUtf8 path.now }
    ensures { result.now ≡ path.now }
{
    match str::from_utf8(path) {
        Ok(text) => text,
        Err(_) => unreachable!(),
    }
}

/// What is at a path, links not followed; none where it cannot be looked at, too. It is never inlined, since the system is
/// asked with two copies of the path, which are gone when a folder is opened.
#[inline(never)]
pub(crate) fn seen<S: Folders>(path: &LongPath, system: &mut S) -> Option<Found>
    requires { IsUtf8 path.now.items }
    ensures { spec.Sees S.folders_do path.now.items system.old result system.new }
{
    match system.find(text(path.as_slice()), Links::Kept) {
        Ok(found) => found,
        Err(_) => None,
    }
}

/// The folder at a path, where it can be opened.
fn opened<S: Folders>(path: &LongPath, system: &mut S) -> Option<S::Folder>
    requires { IsUtf8 path.now.items }
    ensures { spec.Opens S.folders_do path.now.items system.old result system.new }
{
    match system.open_folder(text(path.as_slice())) {
        Ok(folder) => Some(folder),
        Err(_) => None,
    }
}

/// Opens the folder at a path, where that can be, in the place where it stays. An answer would be copied there, and be on
/// the stack twice as long as the folder is open.
#[inline(never)]
pub(crate) fn open_at<S: Folders>(path: &LongPath, folder: &mut Option<S::Folder>, system: &mut S)
    requires { IsUtf8 path.now.items }
    ensures { spec.Opens S.folders_do path.now.items system.old folder.new system.new }
{
    *folder = opened(path, system);
}

/// Gives a folder back, where one is open.
#[inline(never)]
pub(crate) fn close<S: Folders>(folder: &mut Option<S::Folder>, system: &mut S)
    ensures { spec.Closes S.folders_do folder.old system.old system.new }
{
    if let Some(folder) = folder.take() {
        system.close_folder(folder);
    }
}
