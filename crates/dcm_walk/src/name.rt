// Names and paths.
ghost use Rattle.std.specs.Prelude.{◌≡◌, ◌≤◌, length};
ghost use Rattle.arrayvec.specs.ArrayVec.{array_vec_len};
ghost use Rattle.dcm_walk.specs.Names as spec;

use arrayvec::ArrayVec;
use dcm_files::MOST_OF_ENTRY;

/// The most bytes of a path that the system takes (PATH_MAX, which counts its byte 00).
pub const MOST_OF_PATH: usize = 4095;

/// The most bytes of a path that is put together: that of a folder, a slash and a name in it.
pub const LONGEST: usize = MOST_OF_PATH + 1 + MOST_OF_ENTRY;

/// A path that is put together.
pub(crate) type LongPath = ArrayVec<u8, LONGEST>;

/// What the name of a part file begins with, before the number of its run. Names of inputs may not begin so, in capitals
/// or not.
pub const PART: &[u8] = b".part.";

/// What ends a part of a name.
const SLASH: u8 = b'/';

/// Puts a slash and a name behind the path of the folder that it is in.
pub(crate) fn go_below(path: &mut LongPath, entry: &[u8])
    requires folder { array_vec_len path.old ≤ 4095 }
    requires entry { length entry.now ≤ 4096 }
    ensures { path.new.items ≡ spec.below path.old.items entry.now }
{
    path.push(SLASH);
    let _ = path.try_extend_from_slice(entry);
}

/// Whether a part of a name begins here, and is neither empty nor `.` nor `..`.
fn begins_part(bytes: &[u8]) -> bool
    ensures { result ≡ spec.begins_part bytes.now }
{
    !matches!(
        bytes,
        [] | [b'/', ..] | [b'.'] | [b'.', b'/', ..] | [b'.', b'.'] | [b'.', b'.', b'/', ..]
    )
}

/// Whether a relative name leads to something below the folder: it has no byte 00, and no part that is empty, `.` or
/// `..`.
pub(crate) fn leads_below(relative: &[u8]) -> bool
    ensures { result ≡ spec.leads_below relative.now }
{
    if !begins_part(relative) {
        return false;
    }
    let mut rest = relative;
    while let [first, after @ ..] = rest {
        if *first == 0 || (*first == SLASH && !begins_part(after)) {
            return false;
        }
        rest = after;
    }
    true
}

/// A letter as a small one.
fn small(byte: u8) -> u8
    ensures { result ≡ spec.small byte }
{
    byte.to_ascii_lowercase()
}

/// Whether a relative name is that of the part file of a run.
pub(crate) fn is_part_file(relative: &[u8]) -> bool
    ensures { result ≡ spec.is_part_file relative.now }
{
    match relative {
        [a, b, c, d, e, f, ..] => {
            let begin = [
                small(*a),
                small(*b),
                small(*c),
                small(*d),
                small(*e),
                small(*f),
            ];
            begin.as_slice() == PART
        }
        _ => false,
    }
}
