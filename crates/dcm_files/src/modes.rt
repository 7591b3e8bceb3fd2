// Who may read, write and run the files of the system that the program runs on.
ghost use Rattle.std.specs.Prelude.{◌≡◌, bit_and, option_map};
ghost use Rattle.std.specs.Fs.{metadata_mode};
ghost use Rattle.dcm_files.specs.Modes as spec;

use crate::folders::{Found, FoundKind, Links};
use arrayvec::ArrayVec;
use std::fs::{Metadata, Permissions};
use std::io::ErrorKind;
use std::os::unix::fs::{MetadataExt, PermissionsExt};
use std::{fs, io};

/// The bits of a new file's mode where nothing else is said; the process leaves out those of its umask.
pub(crate) const USUAL_MODE: u32 = 0o666;

/// The bits of a mode that say who may read, write and run a file.
const MODE_BITS: u32 = 0o777;

/// The most bytes of a path that the system takes (PATH_MAX, without the 00 at its end).
const MOST_OF_PATH: usize = 4095;

/// What ends a part of a name.
const SLASH: u8 = b'/';

/// The path of a folder.
pub(crate) type FolderPath = ArrayVec<u8, MOST_OF_PATH>;

/// The path of a folder, where it is short enough.
fn path_of(folder: &[u8]) -> Option<FolderPath>
    ensures { option_map (λ path. path.items) result ≡ spec.short folder.now }
{
    let mut path = ArrayVec::new();
    if path.try_extend_from_slice(folder).is_ok() {
        Some(path)
    } else {
        None
    }
}

/// The path of a name in a folder, where it is short enough.
fn path_behind(folder: &[u8], name: &[u8]) -> Option<FolderPath>
    ensures { option_map (λ path. path.items) result ≡ spec.short (spec.behind folder.now name.now) }
{
    let mut path = ArrayVec::new();
    let fits = path.try_extend_from_slice(folder).is_ok()
        && path.try_push(SLASH).is_ok()
        && path.try_extend_from_slice(name).is_ok();
    if fits { Some(path) } else { None }
}

/// The path of a name in a folder, or of that folder where the name is empty, if it is short enough.
pub(crate) fn path_below(folder: &[u8], name: &[u8]) -> Option<FolderPath>
    ensures { option_map (λ path. path.items) result ≡ spec.path_below folder.now name.now }
{
    match name {
        [] => path_of(folder),
        _ => path_behind(folder, name),
    }
}

/// Whether a link is followed at the end of that path: only where the name is empty.
pub(crate) fn links_of(name: &[u8]) -> Links
    ensures { result ≡ spec.links_of name.now }
{
    match name {
        [] => Links::Followed,
        _ => Links::Kept,
    }
}

/// The mode of what was found, where it is a folder.
pub(crate) fn mode_found(found: Option<Found>) -> Option<u32>
    ensures { result ≡ spec.mode_found found }
{
    match found {
        Some(found) if found.kind == FoundKind::Folder => Some(found.mode),
        _ => None,
    }
}

/// The mode of a file, by what the system says of it.
pub(crate) fn mode_of(file: &Metadata) -> u32
    ensures { result ≡ bit_and (metadata_mode file.now) 0o777 }
{
    file.mode() & MODE_BITS
}

/// Gives the file at the second path the mode of the regular file at the first one, where one is there.
pub(crate) fn give_mode(rt: HostRuntime, from: &str, to: &str) -> io::Result<()> {
    match fs::metadata(&rt, from) {
        Ok(file) if file.is_file() => {
            fs::set_permissions(&rt, to, Permissions::from_mode(mode_of(&file)))
        }
        Ok(_) => Ok(()),
        Err(e) if e.kind() == ErrorKind::NotFound => Ok(()),
        Err(e) => Err(e),
    }
}
