// The taking of identity out of a file.
ghost use Rattle.std.specs.Prelude.{◌≡◌, ◌≤◌, ◌<◌, ◌+◌, ◌&&◌, length};
ghost use Rattle.dcm_words.specs.Words.{deidentify as deidentify_job};
ghost use Rattle.dcm_base.specs.Reading.Reads.{INPUT_LIMIT};
ghost use Rattle.dcm_files.specs.Pieces.{BUFFER_LIMIT};
ghost use Rattle.dcm_cli.specs.Calls as calls;
ghost use Rattle.dcm_cli.specs.DeidentifyPass as deidentify_pass;
ghost use Rattle.dcm_cli.specs.EditPass.{first_of};
ghost use Rattle.dcm_cli.specs.Opening as opening;
ghost use Rattle.dcm_cli.specs.Pass as spec;

use crate::ending::{Ended, Ending, Remarks, Verdict, remarking_nothing};
use crate::pass::read_set;
use crate::rewrite::{NewHead, Opened, PIECE, open_file};
use dcm_base::{DeviceIn, DeviceOut, Dictionary, Watched};
use dcm_deid::{DeidentifySink, MetaWithoutIdentity, WithPatient};
use dcm_sinks::EncodeSink;
use dcm_stream::Sink;
use dcm_words::Deidentify;

/// How the work ends where a value that was written says that pixels show identity, or none does.
fn with_pixels(ending: Ending, reports: bool, may_show: bool) -> Ending
    ensures { result ≡ spec.with_pixels ending (reports && may_show) }
{
    match ending {
        Ending::Worked(Verdict::Done { .. }) if reports && may_show => {
            Ending::Worked(Verdict::PixelsMayShow)
        }
        _ => ending,
    }
}

/// Whether the input has ended with its data set, without fault.
fn ends_whole(ending: Ending) -> bool
    ensures { result ≡ deidentify_pass.ends_whole ending }
{
    match ending {
        Ending::Worked(Verdict::Done { .. } | Verdict::PixelsMayShow) => true,
        Ending::Worked(Verdict::Refused(_) | Verdict::RefusedLine(_)) => false,
        Ending::Unread(_) | Ending::Output => false,
    }
}

/// Reads the data set of a file into a sink, and answers how that ended, and whether PatientID names nobody, where that
/// is asked.
fn read_noting<R: DeviceIn, S: Sink>(
    asked: bool,
    opened: Opened,
    input: &mut Watched<R>,
    buffer: &mut [u8],
    sink: &mut S,
) -> (Ending, bool)
    requires start { opened.start ≤ INPUT_LIMIT }
    requires room { 0 < length buffer.old }
    requires bound { length buffer.old ≤ BUFFER_LIMIT }
    requires within { spec.IsWithin opened.beginning buffer.old }
    requires count { opened.start + length (spec.set_bytes opened.beginning buffer.old) ≡ opened.beginning.read }
    ensures { deidentify_pass.ReadsNoting S.Sink R.DeviceIn asked sink.old sink.new input.old input.new
        (spec.set_bytes opened.beginning buffer.old) (first_of opened) opened.beginning.is_over result.0 result.1 }
{
    let mut noting = WithPatient::new(asked, sink);
    let ending = read_set(
        opened.beginning,
        opened.coding,
        opened.start,
        input,
        buffer,
        &mut noting,
    );
    let unnamed = noting.names_nobody(ends_whole(ending));
    (ending, unnamed)
}

/// Reads the data set of a file without identity into a sink.
fn read_deidentified<R: DeviceIn, S: Sink>(
    what: &Deidentify,
    opened: Opened,
    input: &mut Watched<R>,
    buffer: &mut [u8],
    sink: &mut S,
) -> Ended
    requires start { opened.start ≤ INPUT_LIMIT }
    requires room { 0 < length buffer.old }
    requires bound { length buffer.old ≤ BUFFER_LIMIT }
    requires within { spec.IsWithin opened.beginning buffer.old }
    requires count { opened.start + length (spec.set_bytes opened.beginning buffer.old) ≡ opened.beginning.read }
    ensures { deidentify_pass.Deidentifies S.Sink R.DeviceIn what.now.options what.now.reports what.now.key.items
        sink.old sink.new input.old input.new opened buffer.old result }
{
    let mut deidentified = DeidentifySink::new(what.options, what.key.as_slice(), sink);
    let (ending, unnamed) = read_noting(
        what.options.pseudonyms,
        opened,
        input,
        buffer,
        &mut deidentified,
    );
    let ending = with_pixels(ending, what.reports, deidentified.pixels_may_show());
    let emptied = deidentified.dates_emptied();
    Ended {
        remarks: Remarks {
            unnamed,
            emptied,
            unknown: false,
        },
        ending,
    }
}

/// How the head of a file is written without identity.
fn new_head(what: &Deidentify) -> NewHead<'_>
    ensures { opening.change_by result ≡ opening.without_identity what.now.options what.now.key.items }
{
    NewHead::WithoutIdentity(MetaWithoutIdentity::new(what.options, what.key.as_slice()))
}

/// Writes a file without identity.
fn deidentify_file<R: DeviceIn, W: DeviceOut>(
    what: &Deidentify,
    input: &mut Watched<R>,
    out: &mut Watched<W>,
    buffer: &mut [u8],
) -> Ended
    requires room { 0 < length buffer.old }
    requires bound { length buffer.old ≤ BUFFER_LIMIT }
    ensures { calls.WorksOn R.DeviceIn W.DeviceOut (deidentify_job what.now.options what.now.reports what.now.key.items)
        input.old input.new out.old out.new result }
{
    let head = new_head(what);
    let opened = match open_file(Dictionary::Standard, None, &head, input, out, buffer) {
        Ok(opened) => opened,
        Err(ending) => return remarking_nothing(ending),
    };
    let mut sink = EncodeSink::new(out, opened.coding.syntax);
    read_deidentified(what, opened, input, buffer, &mut sink)
}

/// Writes a file without identity: its meta group and its data set.
#[inline(never)]
pub fn deidentify<R: DeviceIn, W: DeviceOut>(
    what: &Deidentify,
    input: &mut Watched<R>,
    out: &mut Watched<W>,
) -> Ended
    ensures { calls.WorksOn R.DeviceIn W.DeviceOut (deidentify_job what.now.options what.now.reports what.now.key.items)
        input.old input.new out.old out.new result }
{
    let mut buffer = [0u8; PIECE];
    deidentify_file(what, input, out, &mut buffer)
}
