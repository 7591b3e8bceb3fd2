// Whether two readers give the same bytes.
ghost use Rattle.std.specs.Prelude.{◌≡◌, ◌≢◌, ◌≤◌, ◌<◌, length, true, false};
ghost use Rattle.dcm_files.specs.Pieces.{BUFFER_LIMIT};
ghost use Rattle.dcm_instance.specs.Same as spec;

use dcm_base::{DeviceIn, ReadFailed, Watched, get_some};
use dcm_files::next_piece;
use dcm_stream::INPUT_LIMIT;

/// The bytes that are compared at a time.
const PIECE: usize = 16384;

/// Reads at most so many bytes of an input into the front of a buffer, by one call. Answers how many: none at its end.
fn next_part<R: DeviceIn>(
    input: &mut Watched<R>,
    most: usize,
    buffer: &mut [u8],
) -> Result<usize, ReadFailed>
    requires some { 0 < most }
    requires room { most ≤ length buffer.old }
    ensures { spec.ReadsPart R.DeviceIn input.old input.new most buffer.old buffer.new result }
{
    let (room, _) = buffer.split_at_mut(most);
    get_some(input, room)
}

/// Whether two parts are the same.
fn is_same(first: &[u8], second: &[u8]) -> bool
    ensures yes { result ≡ true → first.now ≡ second.now }
    ensures no { result ≡ false → first.now ≢ second.now }
{
    first == second
}

/// Whether these bytes are the next ones of an input. It reads no further where they are not.
fn gives<R: DeviceIn>(input: &mut Watched<R>, wanted: &[u8], buffer: &mut [u8]) -> bool
    requires { length wanted.now ≤ length buffer.old }
    ensures gives { spec.Gives R.DeviceIn input.old input.new wanted.now result }
    ensures size { length buffer.new ≡ length buffer.old }
{
    let mut rest = wanted;
    while !rest.is_empty() {
        let size = match next_part(input, rest.len(), buffer) {
            Ok(size) => size,
            Err(_) => return false,
        };
        if size == 0 {
            return false;
        }
        let (front, after) = rest.split_at(size);
        if !is_same(front, &buffer[..size]) {
            return false;
        }
        rest = after;
    }
    true
}

/// Whether an input has ended.
fn has_ended<R: DeviceIn>(input: &mut Watched<R>, buffer: &mut [u8]) -> bool
    requires { 0 < length buffer.old }
    ensures { spec.Ends R.DeviceIn input.old input.new result }
{
    match get_some(input, buffer) {
        Ok(size) => size == 0,
        Err(_) => false,
    }
}

/// Compares what two readers give, through buffers of one size.
fn compare<A: DeviceIn, B: DeviceIn>(
    first: &mut Watched<A>,
    second: &mut Watched<B>,
    of_first: &mut [u8],
    of_second: &mut [u8],
) -> bool
    requires room { 0 < length of_first.old }
    requires bound { length of_first.old ≤ BUFFER_LIMIT }
    requires same { length of_second.old ≡ length of_first.old }
    ensures { spec.Compares A.DeviceIn B.DeviceIn first.old first.new second.old second.new result }
{
    let mut compared: u64 = 0;
    while compared <= INPUT_LIMIT {
        let size = match next_piece(first, of_first, &mut compared) {
            Ok(Some(size)) => size,
            Ok(None) => return has_ended(second, of_second),
            Err(_) => return false,
        };
        if !gives(second, &of_first[..size], of_second) {
            return false;
        }
    }
    false
}

/// Whether two readers both give all their bytes, and the same bytes. The reading ends at the first difference. Inputs
/// of more than 2^62 bytes do not count as the same.
pub fn same_bytes<A: DeviceIn, B: DeviceIn>(first: &mut Watched<A>, second: &mut Watched<B>) -> bool
    ensures { spec.Compares A.DeviceIn B.DeviceIn first.old first.new second.old second.new result }
{
    let mut of_first = [0u8; PIECE];
    let mut of_second = [0u8; PIECE];
    compare(first, second, &mut of_first, &mut of_second)
}
