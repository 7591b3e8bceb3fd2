// The conversion of a file.
ghost use Rattle.std.specs.Prelude.{◌≤◌, ◌<◌, length};
ghost use Rattle.dcm_words.specs.Words.{convert as convert_job};
ghost use Rattle.dcm_files.specs.Pieces.{BUFFER_LIMIT};
ghost use Rattle.dcm_cli.specs.Calls as calls;

use crate::ending::Ending;
use crate::pass::read_set;
use crate::rewrite::{NewHead, PIECE, open_file, target_syntax};
use dcm_base::{DeviceIn, DeviceOut, Dictionary, Syntax, Watched};
use dcm_sinks::EncodeSink;
use dcm_words::Convert;

/// Reads a file into a buffer, piece by piece, and writes it in another transfer syntax, or in its own.
fn convert_file<R: DeviceIn, W: DeviceOut>(
    dictionary: Dictionary,
    target: Option<Syntax>,
    input: &mut Watched<R>,
    out: &mut Watched<W>,
    buffer: &mut [u8],
) -> Ending
    requires room { 0 < length buffer.old }
    requires bound { length buffer.old ≤ BUFFER_LIMIT }
    ensures { calls.Works R.DeviceIn W.DeviceOut (convert_job dictionary target) input.old input.new out.old
        out.new result }
{
    let opened = match open_file(dictionary, target, &NewHead::AsItIs, input, out, buffer) {
        Ok(opened) => opened,
        Err(ending) => return ending,
    };
    let mut sink = EncodeSink::new(out, target_syntax(target, opened.coding));
    read_set(
        opened.beginning,
        opened.coding,
        opened.start,
        input,
        buffer,
        &mut sink,
    )
}

/// Writes a file in another transfer syntax, or in its own.
#[inline(never)]
pub fn convert<R: DeviceIn, W: DeviceOut>(
    convert: Convert,
    input: &mut Watched<R>,
    out: &mut Watched<W>,
) -> Ending
    ensures { calls.Works R.DeviceIn W.DeviceOut (convert_job convert.dictionary convert.target) input.old
        input.new out.old out.new result }
{
    let mut buffer = [0u8; PIECE];
    convert_file(convert.dictionary, convert.target, input, out, &mut buffer)
}
