// The dump of an input, with its texts by Specific Character Set.
ghost use Rattle.std.specs.Prelude.{◌≤◌, ◌<◌, length, None, Some};
ghost use Rattle.dcm_base.specs.declared.mode.Mode.{Mode};
ghost use Rattle.dcm_base.specs.declared.syntax.Syntax.{Syntax};
ghost use Rattle.dcm_words.specs.Words.{dump_decoded as decoded_job};
ghost use Rattle.dcm_files.specs.Pieces.{BUFFER_LIMIT};
ghost use Rattle.dcm_cli.specs.Calls as calls;

use crate::ending::{Ended, Ending, ending_of_head, remarking_nothing, remarking_unknown};
use crate::head::{read_head_of, set_start};
use crate::pass::{read_rest, read_set};
use dcm_base::{Coding, DeviceIn, DeviceOut, Dictionary, Mode, Syntax, Watched};
use dcm_head::{Meta, SyntaxUid};
use dcm_sinks::{DecodedDumpSink, decoded_alone_header, decoded_dump_header};
use dcm_stream::Machine;
use dcm_words::Dump;

/// Writes the dump of a file, its head by a reader that may have read other files.
fn decode_file<R: DeviceIn, W: DeviceOut>(
    dictionary: Dictionary,
    mode: Mode,
    meta: &mut Meta,
    input: &mut Watched<R>,
    out: &mut Watched<W>,
    buffer: &mut [u8],
) -> Ended
    requires room { 0 < length buffer.old }
    requires bound { length buffer.old ≤ BUFFER_LIMIT }
    ensures { calls.WorksOn R.DeviceIn W.DeviceOut (decoded_job dictionary mode None) input.old input.new out.old
        out.new result }
{
    meta.clear();
    let beginning = match read_head_of(meta, input, buffer) {
        Ok(beginning) => beginning,
        Err(ending) => return remarking_nothing(ending_of_head(ending)),
    };
    if decoded_dump_header(meta, dictionary, mode, out).is_err() {
        return remarking_nothing(Ending::Output);
    }
    let start = set_start(meta);
    let mut sink = DecodedDumpSink::new(out, dictionary, mode);
    let ending = read_set(
        beginning,
        meta.coding().read_by(dictionary),
        start,
        input,
        buffer,
        &mut sink,
    );
    remarking_unknown(ending, sink.has_unknown())
}

/// Writes the dump of a data set alone.
fn decode_set<R: DeviceIn, W: DeviceOut>(
    dictionary: Dictionary,
    mode: Mode,
    syntax: Syntax,
    input: &mut Watched<R>,
    out: &mut Watched<W>,
    buffer: &mut [u8],
) -> Ended
    requires room { 0 < length buffer.old }
    requires bound { length buffer.old ≤ BUFFER_LIMIT }
    ensures { calls.WorksOn R.DeviceIn W.DeviceOut (decoded_job dictionary mode (Some syntax)) input.old input.new
        out.old out.new result }
{
    if decoded_alone_header(SyntaxUid::of(syntax).as_bytes(), out).is_err() {
        return remarking_nothing(Ending::Output);
    }
    let coding = Coding {
        syntax: syntax.read_by(dictionary),
        encapsulated: false,
    };
    let mut sink = DecodedDumpSink::new(out, dictionary, mode);
    let mut machine = Machine::new(coding, 0);
    let ending = read_rest(0, input, buffer, &mut machine, &mut sink);
    remarking_unknown(ending, sink.has_unknown())
}

/// Writes the dump of a file, or of a data set alone, by a reader of heads and a buffer that may have served other
/// files.
pub fn decode_with<R: DeviceIn, W: DeviceOut>(
    dump: Dump,
    meta: &mut Meta,
    buffer: &mut [u8],
    input: &mut Watched<R>,
    out: &mut Watched<W>,
) -> Ended
    requires room { 0 < length buffer.old }
    requires bound { length buffer.old ≤ BUFFER_LIMIT }
    ensures { calls.WorksOn R.DeviceIn W.DeviceOut (decoded_job dump.dictionary dump.mode dump.bare) input.old
        input.new out.old out.new result }
{
    match dump.bare {
        None => decode_file(dump.dictionary, dump.mode, meta, input, out, buffer),
        Some(syntax) => decode_set(dump.dictionary, dump.mode, syntax, input, out, buffer),
    }
}
