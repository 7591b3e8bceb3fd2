// The lines of named elements of an input.
ghost use Rattle.std.specs.Prelude.{◌≡◌, ◌≤◌, ◌<◌, ◌+◌, length, None, Some};
ghost use Rattle.dcm_base.specs.Reading.Reads.{INPUT_LIMIT};
ghost use Rattle.dcm_files.specs.Pieces.{BUFFER_LIMIT};
ghost use Rattle.dcm_words.specs.Plans.{named_as};
ghost use Rattle.dcm_words.specs.Words.{dump_named as named_job};
ghost use Rattle.dcm_words.specs.declared.job.Texts.TheVariants.{Bytes, Characters};
ghost use Rattle.dcm_cli.specs.Calls as calls;
ghost use Rattle.dcm_cli.specs.NamedPass as named_pass;
ghost use Rattle.dcm_cli.specs.NamedPass.{named_by};
ghost use Rattle.dcm_cli.specs.Pass as spec;

use crate::ending::{Ended, Ending, ending_of_head, remarking_nothing, remarking_unknown};
use crate::head::{Beginning, read_head_of, set_start};
use crate::pass::{read_rest, read_set};
use dcm_base::{Coding, DeviceIn, DeviceOut, Dictionary, Mode, Syntax, Tag, Watched};
use dcm_head::Meta;
use dcm_named::{NamedSink, named_decoded_meta, named_meta};
use dcm_sinks::{DecodedDumpSink, DumpSink, LineSink};
use dcm_stream::Machine;
use dcm_words::{Dump, Texts};

/// Shows the named elements of the data set of a file.
fn show_set<R: DeviceIn, S: LineSink>(
    tags: &[Tag],
    ways: bool,
    mode: Mode,
    beginning: Beginning,
    coding: Coding,
    start: u64,
    input: &mut Watched<R>,
    buffer: &mut [u8],
    lines: &mut S,
) -> Ending
    requires start { start ≤ INPUT_LIMIT }
    requires room { 0 < length buffer.old }
    requires bound { length buffer.old ≤ BUFFER_LIMIT }
    requires within { spec.IsWithin beginning buffer.old }
    requires count { start + length (spec.set_bytes beginning buffer.old) ≡ beginning.read }
    ensures { named_pass.ShowsSet S.LineSink R.DeviceIn (named_by tags.now ways) mode lines.old lines.new input.old
        input.new beginning buffer.old coding.syntax start result }
{
    let mut sink = NamedSink::new(tags, ways, mode, lines);
    read_set(beginning, coding, start, input, buffer, &mut sink)
}

/// Shows the named elements of a data set alone.
fn show_alone<R: DeviceIn, S: LineSink>(
    tags: &[Tag],
    ways: bool,
    mode: Mode,
    coding: Coding,
    input: &mut Watched<R>,
    buffer: &mut [u8],
    lines: &mut S,
) -> Ending
    requires room { 0 < length buffer.old }
    requires bound { length buffer.old ≤ BUFFER_LIMIT }
    ensures { named_pass.ShowsAlone S.LineSink R.DeviceIn (named_by tags.now ways) mode lines.old lines.new input.old
        input.new coding.syntax result }
{
    let mut sink = NamedSink::new(tags, ways, mode, lines);
    let mut machine = Machine::new(coding, 0);
    read_rest(0, input, buffer, &mut machine, &mut sink)
}

/// Writes the lines of named elements of a file, with texts by their bytes, its head by a reader that may have read other files.
fn named_file_by_bytes<R: DeviceIn, W: DeviceOut>(
    tags: &[Tag],
    ways: bool,
    dictionary: Dictionary,
    mode: Mode,
    meta: &mut Meta,
    input: &mut Watched<R>,
    out: &mut Watched<W>,
    buffer: &mut [u8],
) -> Ending
    requires room { 0 < length buffer.old }
    requires bound { length buffer.old ≤ BUFFER_LIMIT }
    ensures { calls.Works R.DeviceIn W.DeviceOut
        (named_job Bytes dictionary mode None (named_by tags.now ways)) input.old input.new out.old out.new result }
{
    meta.clear();
    let beginning = match read_head_of(meta, input, buffer) {
        Ok(beginning) => beginning,
        Err(ending) => return ending_of_head(ending),
    };
    if named_meta(meta, tags, ways, dictionary, mode, out).is_err() {
        return Ending::Output;
    }
    let start = set_start(meta);
    let mut lines = DumpSink::with_dictionary(out, dictionary, mode);
    show_set(
        tags,
        ways,
        mode,
        beginning,
        meta.coding().read_by(dictionary),
        start,
        input,
        buffer,
        &mut lines,
    )
}

/// The same of a data set alone.
fn named_set_by_bytes<R: DeviceIn, W: DeviceOut>(
    tags: &[Tag],
    ways: bool,
    dictionary: Dictionary,
    mode: Mode,
    syntax: Syntax,
    input: &mut Watched<R>,
    out: &mut Watched<W>,
    buffer: &mut [u8],
) -> Ending
    requires room { 0 < length buffer.old }
    requires bound { length buffer.old ≤ BUFFER_LIMIT }
    ensures { calls.Works R.DeviceIn W.DeviceOut
        (named_job Bytes dictionary mode (Some syntax) (named_by tags.now ways)) input.old input.new out.old out.new
        result }
{
    let coding = Coding {
        syntax: syntax.read_by(dictionary),
        encapsulated: false,
    };
    let mut lines = DumpSink::with_dictionary(out, dictionary, mode);
    show_alone(tags, ways, mode, coding, input, buffer, &mut lines)
}

/// Writes the lines of named elements of a file, with texts by characters, its head by a reader that may have read other files.
fn named_file_by_characters<R: DeviceIn, W: DeviceOut>(
    tags: &[Tag],
    ways: bool,
    dictionary: Dictionary,
    mode: Mode,
    meta: &mut Meta,
    input: &mut Watched<R>,
    out: &mut Watched<W>,
    buffer: &mut [u8],
) -> Ended
    requires room { 0 < length buffer.old }
    requires bound { length buffer.old ≤ BUFFER_LIMIT }
    ensures { calls.WorksOn R.DeviceIn W.DeviceOut
        (named_job Characters dictionary mode None (named_by tags.now ways)) input.old input.new out.old out.new result }
{
    meta.clear();
    let beginning = match read_head_of(meta, input, buffer) {
        Ok(beginning) => beginning,
        Err(ending) => return remarking_nothing(ending_of_head(ending)),
    };
    if named_decoded_meta(meta, tags, ways, dictionary, mode, out).is_err() {
        return remarking_nothing(Ending::Output);
    }
    let start = set_start(meta);
    let mut lines = DecodedDumpSink::new(out, dictionary, mode);
    let ending = show_set(
        tags,
        ways,
        mode,
        beginning,
        meta.coding().read_by(dictionary),
        start,
        input,
        buffer,
        &mut lines,
    );
    remarking_unknown(ending, lines.has_unknown())
}

/// The same of a data set alone.
fn named_set_by_characters<R: DeviceIn, W: DeviceOut>(
    tags: &[Tag],
    ways: bool,
    dictionary: Dictionary,
    mode: Mode,
    syntax: Syntax,
    input: &mut Watched<R>,
    out: &mut Watched<W>,
    buffer: &mut [u8],
) -> Ended
    requires room { 0 < length buffer.old }
    requires bound { length buffer.old ≤ BUFFER_LIMIT }
    ensures { calls.WorksOn R.DeviceIn W.DeviceOut
        (named_job Characters dictionary mode (Some syntax) (named_by tags.now ways)) input.old input.new out.old out.new
        result }
{
    let coding = Coding {
        syntax: syntax.read_by(dictionary),
        encapsulated: false,
    };
    let mut lines = DecodedDumpSink::new(out, dictionary, mode);
    let ending = show_alone(tags, ways, mode, coding, input, buffer, &mut lines);
    remarking_unknown(ending, lines.has_unknown())
}

/// Writes the lines of named elements of a file, or of a data set alone, with texts by their bytes.
fn named_by_bytes<R: DeviceIn, W: DeviceOut>(
    dump: Dump,
    meta: &mut Meta,
    buffer: &mut [u8],
    input: &mut Watched<R>,
    out: &mut Watched<W>,
) -> Ending
    requires room { 0 < length buffer.old }
    requires bound { length buffer.old ≤ BUFFER_LIMIT }
    ensures { calls.Works R.DeviceIn W.DeviceOut
        (named_job Bytes dump.dictionary dump.mode dump.bare (named_as dump.named)) input.old input.new out.old out.new
        result }
{
    let (tags, ways) = (dump.named.tags.as_slice(), dump.named.ways);
    let (dictionary, mode) = (dump.dictionary, dump.mode);
    match dump.bare {
        None => named_file_by_bytes(tags, ways, dictionary, mode, meta, input, out, buffer),
        Some(syntax) => named_set_by_bytes(
            tags, ways, dictionary, mode, syntax, input, out, buffer,
        ),
    }
}

/// The same with texts by characters.
fn named_by_characters<R: DeviceIn, W: DeviceOut>(
    dump: Dump,
    meta: &mut Meta,
    buffer: &mut [u8],
    input: &mut Watched<R>,
    out: &mut Watched<W>,
) -> Ended
    requires room { 0 < length buffer.old }
    requires bound { length buffer.old ≤ BUFFER_LIMIT }
    ensures { calls.WorksOn R.DeviceIn W.DeviceOut
        (named_job Characters dump.dictionary dump.mode dump.bare (named_as dump.named)) input.old input.new out.old
        out.new result }
{
    let (tags, ways) = (dump.named.tags.as_slice(), dump.named.ways);
    let (dictionary, mode) = (dump.dictionary, dump.mode);
    match dump.bare {
        None => named_file_by_characters(tags, ways, dictionary, mode, meta, input, out, buffer),
        Some(syntax) => named_set_by_characters(
            tags, ways, dictionary, mode, syntax, input, out, buffer,
        ),
    }
}

/// Writes the lines of named elements of a file, or of a data set alone, by a reader of heads and a buffer that may have
/// served other files.
#[inline(never)]
pub fn named_with<R: DeviceIn, W: DeviceOut>(
    dump: Dump,
    meta: &mut Meta,
    buffer: &mut [u8],
    input: &mut Watched<R>,
    out: &mut Watched<W>,
) -> Ended
    requires room { 0 < length buffer.old }
    requires bound { length buffer.old ≤ BUFFER_LIMIT }
    ensures { calls.WorksOn R.DeviceIn W.DeviceOut
        (named_job dump.texts dump.dictionary dump.mode dump.bare (named_as dump.named)) input.old input.new out.old
        out.new result }
{
    match dump.texts {
        Texts::Bytes => remarking_nothing(named_by_bytes(dump, meta, buffer, input, out)),
        Texts::Characters => named_by_characters(dump, meta, buffer, input, out),
    }
}
