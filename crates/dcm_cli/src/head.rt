// The head of a file, out of a device.
ghost use Rattle.std.specs.Prelude.{◌≡◌, ◌≤◌, ◌<◌, length, false};
ghost use Rattle.dcm_head.specs.MetaReading.{HasEnded, at_start, meta_finished};
ghost use Rattle.dcm_base.specs.Reading.Reads.{INPUT_LIMIT};
ghost use Rattle.dcm_files.specs.Pieces.{BUFFER_LIMIT};
ghost use Rattle.dcm_cli.specs.Pass as spec;

use crate::ending::HeadEnding;
use dcm_base::{DeviceIn, Watched};
use dcm_files::next_piece;
use dcm_head::{Meta, MetaRead};

/// Where a data set begins: with a byte of an earlier piece, and then within the bytes that the buffer holds.
#[derive(Clone, Copy, Debug, PartialEq, Eq)]
pub struct Beginning {
    /// The byte of an earlier piece, if there is one.
    pub ahead: Option<u8>,
    /// How many bytes of the buffer are of the head.
    pub used: usize,
    /// How many bytes the buffer holds.
    pub filled: usize,
    /// How many bytes were read of the input.
    pub read: u64,
    /// Whether the input has ended.
    pub is_over: bool,
}

/// Where the meta group begins.
const GROUP_AT: u64 = 132;

/// The input ends with the head of a file, or within it.
fn finish_head(meta: &mut Meta, read: u64) -> Result<Beginning, HeadEnding>
    ensures state { meta.new ≡ meta_finished meta.old }
    ensures answer { spec.FinishesHead meta.new.end read result }
{
    match meta.finish() {
        Err(stop) => Err(HeadEnding::Refused(stop)),
        Ok(()) => Ok(Beginning {
            ahead: None,
            used: 0,
            filled: 0,
            read,
            is_over: true,
        }),
    }
}

/// A data set begins in a piece of this size. So many bytes were read, with that piece.
fn beginning_in(size: usize, used: usize, ahead: Option<u8>, read: u64) -> Beginning
    ensures { result ≡ record { ahead = ahead; used = used; filled = size; read = read; is_over = false } }
{
    Beginning {
        ahead,
        used,
        filled: size,
        read,
        is_over: false,
    }
}

/// Reads the head of a file.
pub fn read_head_of<R: DeviceIn>(
    meta: &mut Meta,
    input: &mut Watched<R>,
    buffer: &mut [u8],
) -> Result<Beginning, HeadEnding>
    requires start { meta.old ≡ at_start }
    requires room { 0 < length buffer.old }
    requires bound { length buffer.old ≤ BUFFER_LIMIT }
    ensures { spec.HeadReads R.DeviceIn input.old input.new meta.new buffer.old buffer.new result }
{
    let mut read: u64 = 0;
    loop {
        let size = match next_piece(input, buffer, &mut read) {
            Ok(Some(size)) => size,
            Ok(None) => return finish_head(meta, read),
            Err(_) => return Err(HeadEnding::Unread(read)),
        };
        match meta.feed(&buffer[..size]) {
            MetaRead::More => {}
            MetaRead::Refused(stop) => return Err(HeadEnding::Refused(stop)),
            MetaRead::Ended { used, ahead } => return Ok(beginning_in(size, used, ahead, read)),
        }
    }
}

/// Where the data set of a file begins.
pub fn set_start(meta: &Meta) -> u64
    requires { HasEnded meta.now.end }
    ensures place { result ≡ meta.now.place }
    ensures limit { result ≤ INPUT_LIMIT }
{
    GROUP_AT + meta.bytes().len() as u64
}
