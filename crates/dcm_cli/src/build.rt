// The building of a file from the lines of a dump.
ghost use Rattle.std.specs.Prelude.{◌≡◌, ◌≤◌, ◌<◌, length, false};
ghost use Rattle.dcm_words.specs.Words.{GREATEST_LIMIT, build as build_job};
ghost use Rattle.dcm_build.specs.Builder as builder_spec;
ghost use Rattle.dcm_files.specs.Pieces.{BUFFER_LIMIT};
ghost use Rattle.dcm_cli.specs.Calls as calls;
ghost use Rattle.dcm_cli.specs.Lines as lines;

use crate::ending::{Ending, Verdict};
use dcm_base::{DeviceIn, DeviceOut, Stopped, Watched};
use dcm_build::{BuildHalt, Builder};
use dcm_files::next_piece;
use dcm_words::Build;

/// The bytes that are read at a time.
const PIECE: usize = 65_536;

/// How the work ends where a builder has ended its input, or halted.
fn ending_of(answer: Result<(), BuildHalt>) -> Ending
    ensures { result ≡ lines.ending_of answer }
{
    match answer {
        Ok(()) => Ending::Worked(Verdict::Done { unplaced: 0 }),
        Err(Stopped::Refused(stop)) => Ending::Worked(Verdict::RefusedLine(stop)),
        Err(Stopped::Output) => Ending::Output,
    }
}

/// Ends the input of a builder that has not halted.
fn end<W: DeviceOut>(builder: &mut Builder, out: &mut Watched<W>) -> Result<(), BuildHalt>
    requires { builder_spec.is_halted builder.old ≡ false }
    ensures { lines.Ends W.DeviceOut out.old out.new builder.old.state result }
{
    builder.finish(out)
}

/// Writes the file that the lines of an input build.
fn build_lines<R: DeviceIn, W: DeviceOut>(
    limit: usize,
    input: &mut Watched<R>,
    out: &mut Watched<W>,
    buffer: &mut [u8],
) -> Ending
    requires limit { limit ≤ GREATEST_LIMIT }
    requires room { 0 < length buffer.old }
    requires bound { length buffer.old ≤ BUFFER_LIMIT }
    ensures { calls.Works R.DeviceIn W.DeviceOut (build_job limit) input.old input.new out.old out.new result }
{
    let mut builder = Builder::new(limit);
    let mut read = 0;
    loop {
        let size = match next_piece(input, buffer, &mut read) {
            Ok(Some(size)) => size,
            Ok(None) => return ending_of(end(&mut builder, out)),
            Err(_) => return Ending::Unread(read),
        };
        if let Err(halt) = builder.feed(&buffer[..size], out) {
            return ending_of(Err(halt));
        }
    }
}

/// Writes the file that the lines of a dump build.
#[inline(never)]
pub fn build<R: DeviceIn, W: DeviceOut>(
    build: Build,
    input: &mut Watched<R>,
    out: &mut Watched<W>,
) -> Ending
    ensures { calls.Works R.DeviceIn W.DeviceOut (build_job build.limit) input.old input.new out.old out.new
        result }
{
    let mut buffer = [0u8; PIECE];
    build_lines(build.limit, input, out, &mut buffer)
}
