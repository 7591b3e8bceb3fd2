// The pieces in which an input is read.
ghost use Rattle.std.specs.Prelude.{◌≤◌, ◌<◌, length};
ghost use Rattle.dcm_files.specs.Pieces as spec;

use dcm_devices::{DeviceIn, ReadFailed, Watched, get_some};

/// Reads the next piece of an input into the front of a buffer, by one call, and counts its bytes with those before it.
/// Answers its size. None is the end of the input.
pub fn next_piece<R: DeviceIn>(
    input: &mut Watched<R>,
    buffer: &mut [u8],
    read: &mut u64,
) -> Result<Option<usize>, ReadFailed>
    requires room { 0 < length buffer.old }
    requires bound { length buffer.old ≤ spec.BUFFER_LIMIT }
    requires limit { read.old ≤ spec.READ_LIMIT }
    ensures { spec.ReadsPiece R.DeviceIn input.old input.new buffer.old buffer.new read.old read.new result }
{
    let size = get_some(input, buffer)?;
    if size == 0 {
        return Ok(None);
    }
    *read += size as u64;
    Ok(Some(size))
}
