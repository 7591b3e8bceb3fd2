// The dump of an input.
ghost use Rattle.std.specs.Prelude.{◌≤◌, ◌<◌, length, None, Some};
ghost use Rattle.dcm_base.specs.declared.mode.Mode.{Mode};
ghost use Rattle.dcm_base.specs.declared.syntax.Syntax.{Syntax};
ghost use Rattle.dcm_words.specs.Plans.{named_as};
ghost use Rattle.dcm_words.specs.Words.{dump as dump_job, dump_as, dump_of};
ghost use Rattle.dcm_files.specs.Pieces.{BUFFER_LIMIT};
ghost use Rattle.dcm_cli.specs.Calls as calls;

use crate::decode::decode_with;
use crate::ending::{Ended, Ending, ending_of_head, remarking_nothing};
use crate::head::{read_head_of, set_start};
use crate::named::named_with;
use crate::pass::{read_rest, read_set};
use dcm_base::{Coding, DeviceIn, DeviceOut, Dictionary, Mode, Syntax, Watched};
use dcm_head::{Meta, SyntaxUid};
use dcm_sinks::{DumpSink, dump_header_with, set_header};
use dcm_stream::Machine;
use dcm_words::{Dump, Texts};

/// The bytes of a file that are read at a time where it is shown.
pub const PIECE: usize = 65_536;

/// Writes the dump of a file, its head by a reader that may have read other files.
fn dump_file<R: DeviceIn, W: DeviceOut>(
    dictionary: Dictionary,
    mode: Mode,
    meta: &mut Meta,
    input: &mut Watched<R>,
    out: &mut Watched<W>,
    buffer: &mut [u8],
) -> Ending
    requires room { 0 < length buffer.old }
    requires bound { length buffer.old ≤ BUFFER_LIMIT }
    ensures { calls.Works R.DeviceIn W.DeviceOut (dump_job dictionary mode None) input.old input.new out.old
        out.new result }
{
    meta.clear();
    let beginning = match read_head_of(meta, input, buffer) {
        Ok(beginning) => beginning,
        Err(ending) => return ending_of_head(ending),
    };
    if dump_header_with(meta, dictionary, mode, out).is_err() {
        return Ending::Output;
    }
    let start = set_start(meta);
    let mut sink = DumpSink::with_dictionary(out, dictionary, mode);
    read_set(
        beginning,
        meta.coding().read_by(dictionary),
        start,
        input,
        buffer,
        &mut sink,
    )
}

/// Writes the dump of a data set alone.
fn dump_set<R: DeviceIn, W: DeviceOut>(
    dictionary: Dictionary,
    mode: Mode,
    syntax: Syntax,
    input: &mut Watched<R>,
    out: &mut Watched<W>,
    buffer: &mut [u8],
) -> Ending
    requires room { 0 < length buffer.old }
    requires bound { length buffer.old ≤ BUFFER_LIMIT }
    ensures { calls.Works R.DeviceIn W.DeviceOut (dump_job dictionary mode (Some syntax)) input.old input.new
        out.old out.new result }
{
    if set_header(SyntaxUid::of(syntax).as_bytes(), out).is_err() {
        return Ending::Output;
    }
    let coding = Coding {
        syntax: syntax.read_by(dictionary),
        encapsulated: false,
    };
    let mut sink = DumpSink::with_dictionary(out, dictionary, mode);
    let mut machine = Machine::new(coding, 0);
    read_rest(0, input, buffer, &mut machine, &mut sink)
}

/// Writes the dump of a file, or of a data set alone, with texts by their bytes.
fn dump_by_bytes<R: DeviceIn, W: DeviceOut>(
    dump: Dump,
    meta: &mut Meta,
    buffer: &mut [u8],
    input: &mut Watched<R>,
    out: &mut Watched<W>,
) -> Ending
    requires room { 0 < length buffer.old }
    requires bound { length buffer.old ≤ BUFFER_LIMIT }
    ensures { calls.Works R.DeviceIn W.DeviceOut (dump_job dump.dictionary dump.mode dump.bare) input.old
        input.new out.old out.new result }
{
    match dump.bare {
        None => dump_file(dump.dictionary, dump.mode, meta, input, out, buffer),
        Some(syntax) => dump_set(dump.dictionary, dump.mode, syntax, input, out, buffer),
    }
}

/// Writes the dump of a file, or of a data set alone, of all its elements.
fn dump_all<R: DeviceIn, W: DeviceOut>(
    dump: Dump,
    meta: &mut Meta,
    buffer: &mut [u8],
    input: &mut Watched<R>,
    out: &mut Watched<W>,
) -> Ended
    requires room { 0 < length buffer.old }
    requires bound { length buffer.old ≤ BUFFER_LIMIT }
    ensures { calls.WorksOn R.DeviceIn W.DeviceOut (dump_as dump.texts dump.dictionary dump.mode dump.bare) input.old
        input.new out.old out.new result }
{
    match dump.texts {
        Texts::Bytes => remarking_nothing(dump_by_bytes(dump, meta, buffer, input, out)),
        Texts::Characters => decode_with(dump, meta, buffer, input, out),
    }
}

/// Writes the dump of a file, or of a data set alone, by a reader of heads and a buffer that may have served other
/// files.
#[inline(never)]
pub fn dump_with<R: DeviceIn, W: DeviceOut>(
    dump: Dump,
    meta: &mut Meta,
    buffer: &mut [u8],
    input: &mut Watched<R>,
    out: &mut Watched<W>,
) -> Ended
    requires room { 0 < length buffer.old }
    requires bound { length buffer.old ≤ BUFFER_LIMIT }
    ensures { calls.WorksOn R.DeviceIn W.DeviceOut
        (dump_of (named_as dump.named) dump.texts dump.dictionary dump.mode dump.bare) input.old input.new out.old
        out.new result }
{
    if dump.named.tags.as_slice().is_empty() {
        return dump_all(dump, meta, buffer, input, out);
    }
    named_with(dump, meta, buffer, input, out)
}

/// Writes the dump of a file, or of a data set alone.
#[inline(never)]
pub fn dump<R: DeviceIn, W: DeviceOut>(
    dump: Dump,
    input: &mut Watched<R>,
    out: &mut Watched<W>,
) -> Ended
    ensures { calls.WorksOn R.DeviceIn W.DeviceOut
        (dump_of (named_as dump.named) dump.texts dump.dictionary dump.mode dump.bare) input.old input.new out.old
        out.new result }
{
    let mut buffer = [0u8; PIECE];
    let mut meta = Meta::new();
    dump_with(dump, &mut meta, &mut buffer, input, out)
}
