// A run over a tree: its beginning, its names, and its end.
ghost use Rattle.std.specs.Prelude.{◌≡◌, ◌≤◌, length};
ghost use Rattle.dcm_cli.specs.Calls as calls;
ghost use Rattle.dcm_cli.specs.Status as statuses;
ghost use Rattle.dcm_trees.specs.Run as spec;
ghost use Rattle.dcm_trees.specs.Work.{progress};

use crate::beginning::Refusal;
use crate::file::Manner;
use crate::modes::Modes;
use crate::progress::{Shared, Stop, Work};
use crate::row::put_header;
use crate::tally::{Tally, put_counts};
use crate::task::Task;
use arrayvec::ArrayVec;
use dcm_base::{DeviceOut, Watched, WriteFailed, flush_out};
use dcm_cli::status::{DEVICE, DONE, MEMORY};
use dcm_files::FileKind;
use dcm_names::{put_at_once, put_text, put_unread};
use dcm_tree_words::TreeOptions;
use dcm_walk::{ListEnd, PART, Stopped};
use itoa::Buffer;

/// The most bytes of the name of a run's part.
const MOST_OF_PART: usize = 16;

/// The name of a run's part.
pub type PartName = ArrayVec<u8, MOST_OF_PART>;

/// How the names of a run ended.
#[derive(Clone, Copy, Debug, PartialEq, Eq)]
pub enum End {
    /// All were visited.
    Whole,
    /// Reading the list failed after so many bytes.
    Unread(u64),
    /// The run ended before its last name.
    Stopped(Stop),
}

/// The name of the part of a run, by its number.
pub fn part_name(number: u16) -> PartName
    ensures { result.items ≡ spec.part_name number }
{
    let mut digits = Buffer::new();
    let mut name = ArrayVec::new();
    let _ = name.try_extend_from_slice(PART);
    let _ = name.try_extend_from_slice(digits.format(number).as_bytes());
    name
}

/// Writes a line that names no file.
fn tell_line<E: DeviceOut>(text: &[u8], errors: &mut Watched<E>)
    requires { length text.now ≤ 64 }
    ensures { calls.Reports E.DeviceOut errors.old errors.new (spec.line text.now) }
{
    let _ = put_at_once(&[b"dcmtools: ".as_slice(), text, b"\n".as_slice()], errors);
}

/// Tells that something is at the path of the part.
fn tell_part_there<E: DeviceOut>(part: &[u8], errors: &mut Watched<E>)
    ensures { calls.Reports E.DeviceOut errors.old errors.new (spec.part_line part.now) }
{
    let _ = put_text(part, b"another run is at work, or was cut off", errors);
}

/// Tells that another run writes the part.
fn tell_at_work<E: DeviceOut>(part: &[u8], errors: &mut Watched<E>)
    ensures { calls.Reports E.DeviceOut errors.old errors.new (spec.work_line part.now) }
{
    let _ = put_text(part, b"another run is at work", errors);
}

/// Tells why a run is not begun.
pub fn tell_refusal<E: DeviceOut>(refusal: Refusal, part: &[u8], errors: &mut Watched<E>) -> u8
    ensures line { calls.Reports E.DeviceOut errors.old errors.new (spec.refusal_line refusal part.now) }
    ensures status { result ≡ statuses.DEVICE }
{
    match refusal {
        Refusal::Input => tell_line(b"input cannot be opened", errors),
        Refusal::Output => tell_line(b"output cannot be opened", errors),
        Refusal::Same => tell_line(b"output is the input", errors),
        Refusal::OutputWithin => tell_line(b"output is within the input", errors),
        Refusal::InputWithin => tell_line(b"input is within the output", errors),
        Refusal::AtWork => tell_at_work(part, errors),
        Refusal::PartThere => tell_part_there(part, errors),
        Refusal::NotEmpty => tell_line(b"output is not empty", errors),
        Refusal::LettersAlike => {
            tell_line(
                b"output does not tell small letters from capital ones",
                errors,
            )
        }
    }
    DEVICE
}

/// Tells how the names of a run ended, where that is not as it should be. Answers the status by that.
fn tell_end<E: DeviceOut>(
    end: End,
    is_empty: bool,
    list: &[u8],
    part: &[u8],
    errors: &mut Watched<E>,
) -> u8
    ensures line { calls.Reports E.DeviceOut errors.old errors.new (spec.end_line end is_empty list.now part.now) }
    ensures status { result ≡ spec.end_status end is_empty }
    ensures within { result ≤ statuses.MEMORY }
{
    match end {
        End::Whole if !is_empty => return DONE,
        End::Whole => tell_line(b"input has no files", errors),
        End::Unread(read) => {
            let _ = put_unread(list, read, errors);
        }
        End::Stopped(Stop::Manifest) => tell_line(b"output failed", errors),
        End::Stopped(Stop::PartThere) => tell_at_work(part, errors),
        End::Stopped(Stop::Memory) => {
            tell_line(b"out of memory", errors);
            return MEMORY;
        }
    }
    DEVICE
}

/// Shows the counts at the end of a run, where they are wanted.
fn tell_counts<E: DeviceOut>(shows: bool, tally: Tally, errors: &mut Watched<E>)
    ensures { calls.Reports E.DeviceOut errors.old errors.new (spec.last_counts shows tally) }
{
    if shows {
        let _ = put_counts(tally, b"\n", errors);
    }
}

/// What a run over a tree is to do.
#[derive(Clone, Copy)]
pub struct TreeRun<'a> {
    /// What is done with each file.
    pub task: Task<'a>,
    /// What the key was read of, where there is one.
    pub key: Option<FileKind>,
    /// The folder of the outputs.
    pub output: &'a [u8],
    pub options: TreeOptions,
    /// The modes of folders that are made.
    pub modes: Modes<'a>,
}

/// What all names of a run share.
pub(crate) fn shared_of<'a>(run: TreeRun<'a>, part: &'a [u8]) -> Shared<'a>
    ensures { spec.Shares run.entry part.now result }
{
    Shared {
        manner: Manner {
            task: run.task,
            output: run.output,
            part,
            continues: run.options.continues,
            keeps_names: run.options.keeps_names,
            modes: run.modes,
        },
        part: run.options.part,
        shows_counts: run.options.counts,
    }
}

/// Writes the header of the manifest, where it is wanted, and flushes it.
pub(crate) fn put_first_row<W: DeviceOut>(
    has_header: bool,
    manifest: &mut Watched<W>,
) -> Result<(), WriteFailed>
    ensures { spec.PutsFirstRow W.DeviceOut has_header manifest.old result manifest.new }
{
    if !has_header {
        return Ok(());
    }
    put_header(manifest)?;
    flush_out(manifest)
}

/// How the names of a run ended, by what the walk answered and why the run ends before its last name, if it does.
fn end_of(walked: Result<ListEnd, Stopped>, stop: Option<Stop>) -> End
    ensures { result ≡ spec.end_of walked stop }
{
    match (walked, stop) {
        (Ok(ListEnd::Whole), _) => End::Whole,
        (Ok(ListEnd::Unread(read)), _) => End::Unread(read),
        (Err(_), Some(stop)) => End::Stopped(stop),
        (Err(_), None) => End::Stopped(Stop::Manifest),
    }
}

/// Tells how a run ended whose manifest has no header, and answers its status.
pub(crate) fn end_unwritten<E: DeviceOut>(shows_counts: bool, errors: &mut Watched<E>) -> u8
    ensures ends { spec.EndsUnwritten E.DeviceOut shows_counts errors.old result errors.new }
    ensures within { result ≤ statuses.DEVICE }
{
    tell_line(b"output failed", errors);
    tell_counts(shows_counts, Tally::new(), errors);
    DEVICE
}

/// Tells how a run ended, and answers its status, and its manifest.
pub(crate) fn end_run<W: DeviceOut, E: DeviceOut>(
    work: Work<W>,
    walked: Result<ListEnd, Stopped>,
    list: &[u8],
    part: &[u8],
    errors: &mut Watched<E>,
) -> (u8, Watched<W>)
    ensures ends { spec.EndsRun E.DeviceOut (progress work.entry) work.entry.shared.shows_counts walked list.now
        part.now errors.old result.0 errors.new }
    ensures manifest { result.1 ≡ work.entry.manifest }
    ensures within { result.0 ≤ statuses.MEMORY }
{
    let end = end_of(walked, work.stop);
    let status = tell_end(end, work.is_empty, list, part, errors);
    tell_counts(work.shared.shows_counts, work.tally, errors);
    (status.max(work.status), work.manifest)
}
