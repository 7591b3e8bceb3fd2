// The key of all that dcmdeid makes anew.
ghost use Rattle.std.specs.IoError.{error_kind};
ghost use Rattle.dcm_cli.specs.Keys as spec;

use arrayvec::ArrayVec;
use dcm_base::{DeviceIn, Watched, get_some};
use dcm_files::{FileKind, System, Unopened, open_input, unopened};
use dcm_words::MOST_OF_KEY;
use std::io;

/// The least bytes of a key.
const LEAST_OF_KEY: usize = 16;

/// The bytes of a key.
pub type KeyBytes = ArrayVec<u8, MOST_OF_KEY>;

/// Why there is no key.
#[derive(Clone, Copy, Debug, PartialEq, Eq)]
pub enum NoKey {
    /// The key cannot be opened.
    Unopened,
    /// Opening the key needs memory that was refused.
    Memory,
    /// Reading the key failed.
    Unread,
    /// The key has too few bytes, or too many.
    Size,
}

/// A key that was read, and the file that it was read from.
#[derive(Drop)]
pub struct KeyRead {
    pub bytes: KeyBytes,
    pub kind: FileKind,
}

/// Reads all that an input gives, where that is a key.
fn read_key<R: DeviceIn>(input: &mut Watched<R>) -> Result<KeyBytes, NoKey>
    ensures { spec.ReadsKey R.DeviceIn input.old input.new result }
{
    let mut key = ArrayVec::new();
    let mut buffer = [0u8; MOST_OF_KEY];
    loop {
        let size = match get_some(input, &mut buffer) {
            Ok(size) => size,
            Err(_) => return Err(NoKey::Unread),
        };
        if size == 0 {
            return if key.len() < LEAST_OF_KEY {
                Err(NoKey::Size)
            } else {
                Ok(key)
            };
        }
        match key.try_extend_from_slice(&buffer[..size]) {
            Ok(()) => {}
            Err(_) => return Err(NoKey::Size),
        }
    }
}

/// Why a key cannot be opened, by this error.
fn no_key(e: &io::Error) -> NoKey
    ensures { spec.IsKeyCause (error_kind e.now) result }
{
    match unopened(e, Unopened::Input) {
        Unopened::Memory => NoKey::Memory,
        _ => NoKey::Unopened,
    }
}

/// Opens the file of a key, reads it, and gives it back. Fails where the file cannot be opened or read, or has fewer
/// bytes than 16 or more than 4,096.
pub fn take_key<S: System>(system: &mut S, path: &[u8]) -> Result<KeyRead, NoKey>
    ensures { spec.TakesKey S.may_do S.Input.DeviceIn path.now system.old result system.new }
{
    let opened = match open_input(system, path) {
        Ok(opened) => opened,
        Err(e) => return Err(no_key(&e)),
    };
    let mut input = Watched::new(opened.device);
    let read = read_key(&mut input);
    system.release(input.into_device());
    match read {
        Ok(bytes) => Ok(KeyRead {
            bytes,
            kind: opened.kind,
        }),
        Err(cause) => Err(cause),
    }
}
