// The edits of a file.
ghost use Rattle.std.specs.Prelude.{◌≡◌, ◌≤◌, ◌<◌, ◌+◌, length};
ghost use Rattle.dcm_edits.specs.Meaning.{AreMeant};
ghost use Rattle.dcm_words.specs.Words.{modify as modify_job};
ghost use Rattle.dcm_base.specs.Reading.Reads.{INPUT_LIMIT};
ghost use Rattle.dcm_files.specs.Pieces.{BUFFER_LIMIT};
ghost use Rattle.dcm_cli.specs.Calls as calls;
ghost use Rattle.dcm_cli.specs.EditPass as edit_pass;
ghost use Rattle.dcm_cli.specs.Pass as spec;

use crate::ending::{Ending, Verdict};
use crate::pass::read_set;
use crate::rewrite::{NewHead, Opened, PIECE, open_file};
use dcm_base::{DeviceIn, DeviceOut, Dictionary, Watched};
use dcm_editor::{EditSink, Edits};
use dcm_sinks::EncodeSink;
use dcm_stream::Sink;
use dcm_words::Modify;

/// How the work ends where these edits found no place.
fn with_unplaced(ending: Ending, unplaced: u64) -> Ending
    ensures { result ≡ spec.with_unplaced ending unplaced }
{
    match ending {
        Ending::Worked(Verdict::Done { .. }) => Ending::Worked(Verdict::Done { unplaced }),
        _ => ending,
    }
}

/// Reads the data set of a file through edits into a sink.
fn read_edited<R: DeviceIn, S: Sink>(
    edits: &Edits,
    opened: Opened,
    input: &mut Watched<R>,
    buffer: &mut [u8],
    sink: &mut S,
) -> Ending
    requires start { opened.start ≤ INPUT_LIMIT }
    requires room { 0 < length buffer.old }
    requires bound { length buffer.old ≤ BUFFER_LIMIT }
    requires within { spec.IsWithin opened.beginning buffer.old }
    requires count { opened.start + length (spec.set_bytes opened.beginning buffer.old) ≡ opened.beginning.read }
    ensures { edit_pass.Edits S.Sink R.DeviceIn edits.now sink.old sink.new input.old input.new opened
        buffer.old result }
{
    let mut edited = EditSink::new(edits, sink);
    let ending = read_set(
        opened.beginning,
        opened.coding,
        opened.start,
        input,
        buffer,
        &mut edited,
    );
    with_unplaced(ending, edited.unplaced())
}

/// Writes a file as the edits make it.
fn modify_file<R: DeviceIn, W: DeviceOut>(
    dictionary: Dictionary,
    edits: &Edits,
    input: &mut Watched<R>,
    out: &mut Watched<W>,
    buffer: &mut [u8],
) -> Ending
    requires meant { AreMeant edits.now }
    requires room { 0 < length buffer.old }
    requires bound { length buffer.old ≤ BUFFER_LIMIT }
    ensures { calls.Works R.DeviceIn W.DeviceOut (modify_job dictionary edits.now) input.old input.new out.old
        out.new result }
{
    let opened = match open_file(dictionary, None, &NewHead::AsItIs, input, out, buffer) {
        Ok(opened) => opened,
        Err(ending) => return ending,
    };
    let mut sink = EncodeSink::new(out, opened.coding.syntax);
    read_edited(edits, opened, input, buffer, &mut sink)
}

/// Writes a file with the edits. The file is read with a dictionary.
#[inline(never)]
pub fn modify<R: DeviceIn, W: DeviceOut>(
    modify: &Modify,
    input: &mut Watched<R>,
    out: &mut Watched<W>,
) -> Ending
    ensures worked { calls.Works R.DeviceIn W.DeviceOut (modify_job modify.now.dictionary modify.now.edits) input.old
        input.new out.old out.new result }
    ensures meant { AreMeant modify.now.edits }
{
    modify.edits.are_meant();
    let mut buffer = [0u8; PIECE];
    modify_file(modify.dictionary, &modify.edits, input, out, &mut buffer)
}
