// The name of an output in the tree of outputs: what is there, and the folders on its way.
ghost use Rattle.std.specs.Prelude.{◌≡◌, ◌≢◌, ◌≤◌, length, option_map, true, false};
ghost use Rattle.std.specs.IoError.{error_kind};
ghost use Rattle.dcm_trees.specs.Modes.{modes_as};
ghost use Rattle.dcm_trees.specs.Place as spec;

use crate::modes::{Modes, NoMode, new_mode};
use arrayvec::ArrayVec;
use dcm_files::{Folders, Found, FoundKind, Links};
use dcm_walk::{MOST_OF_PATH, slash};
use std::io::ErrorKind;
use std::{io, str};

/// What ends a part of a name.
const SLASH: u8 = b'/';

/// A path in the tree of outputs.
pub type OutputPath = ArrayVec<u8, MOST_OF_PATH>;

/// What is at the name of an output.
#[derive(Clone, Copy, Debug, PartialEq, Eq)]
pub enum Place {
    /// Nothing.
    Free,
    /// A regular file.
    There,
    /// Something else, or it cannot be looked at.
    Barred,
}

/// The folders on the way of an output.
#[derive(Clone, Copy, Debug, PartialEq, Eq)]
enum Way {
    /// All are there.
    Whole,
    /// One is not there.
    Missing,
    /// Something else is there in the place of one, or it cannot be looked at.
    Blocked,
}

/// It cannot be looked at.
#[derive(Clone, Copy, Debug, PartialEq, Eq)]
pub(crate) struct Unseen;

/// A folder on the way of an output is not there, and cannot be made.
#[derive(Clone, Copy, Debug, PartialEq, Eq)]
pub struct NotMade;

impl Place {
    /// Whether nothing is there.
    pub fn is_free(self) -> bool
        ensures { result ≡ spec.is_free self }
    {
        matches!(self, Place::Free)
    }
}

/// The path of a name in the folder of the outputs, where it is short enough.
pub fn path_in(output: &[u8], name: &[u8]) -> Option<OutputPath>
    ensures { option_map (λ path. path.items) result ≡ spec.path_in output.now name.now }
{
    let mut path = ArrayVec::new();
    let fits = path.try_extend_from_slice(output).is_ok()
        && path.try_push(SLASH).is_ok()
        && path.try_extend_from_slice(name).is_ok();
    if fits { Some(path) } else { None }
}

/// What is at a path, links not followed.
pub(crate) fn look<S: Folders>(path: &[u8], system: &mut S) -> Result<Option<Found>, Unseen>
    ensures { spec.Looks S.folders_do path.now system.old result system.new }
{
    let Ok(text) = str::from_utf8(path) else {
        return Err(Unseen);
    };
    match system.find(text, Links::Kept) {
        Ok(found) => Ok(found),
        Err(_) => Err(Unseen),
    }
}

/// What ends the way of an output at a folder, by what is there.
fn end_of_way(seen: Result<Option<Found>, Unseen>) -> Option<Way>
    ensures { result ≡ spec.end_of_way seen }
{
    match seen {
        Ok(Some(found)) if found.kind == FoundKind::Folder => None,
        Ok(None) => Some(Way::Missing),
        _ => Some(Way::Blocked),
    }
}

/// Looks at the folders on the way to a path, of which so many bytes are those of the folder of the outputs.
fn look_along<S: Folders>(path: &[u8], base: usize, system: &mut S) -> Way
    requires { base ≤ length path.now }
    ensures { spec.LooksAlong S.folders_do path.now base system.old result system.new }
{
    let mut at = base;
    loop {
        let (_, rest) = path.split_at(at);
        let Some(length) = slash(rest) else {
            return Way::Whole;
        };
        let (folder, _) = path.split_at(at + length);
        let seen = look(folder, system);
        if let Some(end) = end_of_way(seen) {
            return end;
        }
        at += length + 1;
    }
}

/// What is at the end of a way.
fn place_of(seen: Result<Option<Found>, Unseen>) -> Place
    ensures { result ≡ spec.place_of seen }
{
    match seen {
        Ok(None) => Place::Free,
        Ok(Some(found)) if found.kind == FoundKind::File => Place::There,
        _ => Place::Barred,
    }
}

/// What is at the path of an output. Links are not followed.
pub fn place_at<S: Folders>(path: &[u8], base: usize, system: &mut S) -> Place
    requires { base ≤ length path.now }
    ensures { spec.Finds S.folders_do path.now base system.old result system.new }
{
    match look_along(path, base, system) {
        Way::Missing => Place::Free,
        Way::Blocked => Place::Barred,
        Way::Whole => {
            let seen = look(path, system);
            place_of(seen)
        }
    }
}

/// Whether an error says that something is there.
pub(crate) fn was_there(e: &io::Error) -> bool
    ensures yes { result ≡ true → error_kind e.now ≡ ErrorKind.AlreadyExists }
    ensures no { result ≡ false → error_kind e.now ≢ ErrorKind.AlreadyExists }
{
    matches!(e.kind(), ErrorKind::AlreadyExists)
}

/// Whether an error says that memory was refused.
pub(crate) fn wants_memory(e: &io::Error) -> bool
    ensures yes { result ≡ true → error_kind e.now ≡ ErrorKind.OutOfMemory }
    ensures no { result ≡ false → error_kind e.now ≢ ErrorKind.OutOfMemory }
{
    matches!(e.kind(), ErrorKind::OutOfMemory)
}

/// Whether a folder is there, and no link to one.
fn is_folder<S: Folders>(path: &[u8], system: &mut S) -> bool
    ensures { spec.FindsFolder S.folders_do path.now system.old result system.new }
{
    let seen = look(path, system);
    end_of_way(seen).is_none()
}

/// Makes a folder of this mode, unless one is there.
fn make_new<S: Folders>(path: &[u8], mode: u32, system: &mut S) -> Result<(), NotMade>
    ensures { spec.MakesNew S.folders_do path.now mode system.old result system.new }
{
    let Ok(text) = str::from_utf8(path) else {
        return Err(NotMade);
    };
    match system.make_folder(text, mode) {
        Ok(()) => Ok(()),
        Err(e) if was_there(&e) => {
            if is_folder(path, system) {
                Ok(())
            } else {
                Err(NotMade)
            }
        }
        Err(_) => Err(NotMade),
    }
}

/// Makes a folder, unless one is there. So many bytes of its path are those of the folder of the outputs.
fn have_folder<S: Folders>(
    path: &[u8],
    base: usize,
    modes: Modes,
    system: &mut S,
) -> Result<(), NotMade>
    requires { base ≤ length path.now }
    ensures { spec.HasFolder S.folders_do (modes_as modes.entry) path.now base system.old result system.new }
{
    if is_folder(path, system) {
        return Ok(());
    }
    let (_, name) = path.split_at(base);
    match new_mode(modes, name, system) {
        Ok(mode) => make_new(path, mode, system),
        Err(NoMode) => Err(NotMade),
    }
}

/// Makes the folders on the way to a path that are not there, each of its mode. Fails where what is there is no folder,
/// a link to one too, where the mode of one is not found, or where the system makes none.
pub fn make_way<S: Folders>(
    path: &[u8],
    base: usize,
    modes: Modes,
    system: &mut S,
) -> Result<(), NotMade>
    requires { base ≤ length path.now }
    ensures { spec.MakesWay S.folders_do (modes_as modes.entry) path.now base system.old result system.new }
{
    let mut at = base;
    loop {
        let (_, rest) = path.split_at(at);
        let Some(length) = slash(rest) else {
            return Ok(());
        };
        let (folder, _) = path.split_at(at + length);
        have_folder(folder, base, modes, system)?;
        at += length + 1;
    }
}
