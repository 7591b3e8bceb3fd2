// The dumps of files, one after another.
ghost use Rattle.std.specs.Prelude.{◌≡◌, ◌≤◌, ◌++◌, IfOk, true, false};
ghost use Rattle.dcm_devices.specs.Writing.{Wrote};
ghost use Rattle.dcm_cli.specs.Change.{change_of};
ghost use Rattle.dcm_cli.specs.Status as statuses;
ghost use Rattle.dcm_table_words.specs.Plans.{names_as};
ghost use Rattle.dcm_words.specs.Plans.{dump_job};
ghost use Rattle.dcm_dumps.specs.Dumps as spec;
ghost use Rattle.dcm_dumps.specs.Heading.{heading};
ghost use Rattle.dcm_dumps.specs.Words as words;
ghost use Rattle.dcm_dumps.specs.Work as work_spec;

use crate::heading::put_heading;
use crate::plan::{DumpsPlan, total_of};
use dcm_base::{DeviceIn, DeviceOut, Watched, WriteFailed, flush_out};
use dcm_cli::dump::{PIECE, dump_with};
use dcm_cli::ending::{Ended, Ending, Verdict};
use dcm_cli::status::{DEVICE, DONE, FAULT};
use dcm_each::{Ends, FileWork, do_all};
use dcm_files::{FileKind, System, clash};
use dcm_head::Meta;
use dcm_names::{put_clash, put_fault, put_unknown, put_unread};
use dcm_words::Dump;

/// Shows files, one after another.
#[derive(Drop)]
pub struct DumpWork {
    dump: Dump,
    output: FileKind,
    total: Option<u64>,
    number: u64,
    is_first: bool,
    meta: Meta,
    buffer: [u8; PIECE],
}

impl DumpWork {
    /// Before the first file. It knows what the output was opened on, and how many names come, if this is known.
    pub fn new(dump: Dump, output: FileKind, total: Option<u64>) -> DumpWork
        ensures manner { work_spec.manner result ≡ record { job = dump_job dump; output = output; total = total } }
        ensures number { result.number ≡ 0 }
        ensures first { result.is_first ≡ true }
    {
        DumpWork {
            dump,
            output,
            total,
            number: 0,
            is_first: true,
            meta: Meta::new(),
            buffer: [0; PIECE],
        }
    }

    /// Counts a name.
    fn count(&mut self)
        ensures number { self.new.number ≡ spec.next_number self.old.number }
        ensures manner { work_spec.manner self.new ≡ work_spec.manner self.old }
        ensures first { self.new.is_first ≡ self.old.is_first }
    {
        self.number = self.number.saturating_add(1);
    }

    /// Writes the heading of a file and its dump, and reports what is wrong with it. Answers the status. Fails where
    /// the output fails.
    fn show<I: DeviceIn, W: DeviceOut, E: DeviceOut>(
        &mut self,
        name: &[u8],
        input: &mut Watched<I>,
        out: &mut Watched<W>,
        errors: &mut Watched<E>,
    ) -> Ends
        ensures shows { spec.ShowsFile I.DeviceIn W.DeviceOut (dump_job self.old.dump) (heading self.old.is_first
            self.old.number self.old.total name.now) name.now (change_of E.DeviceOut errors.old errors.new) out.old
            out.new input.old result input.new }
        ensures manner { work_spec.manner self.new ≡ work_spec.manner self.old }
        ensures number { self.new.number ≡ self.old.number }
        ensures first { IfOk result (λ status. self.new.is_first ≡ false) }
        ensures within { IfOk result (λ status. status ≤ statuses.DEVICE) }
    {
        put_heading(self.is_first, self.number, self.total, name, out)?;
        self.is_first = false;
        let ended = dump_with(self.dump, &mut self.meta, &mut self.buffer, input, out);
        end_dump(name, ended, out, errors)
    }
}

/// Reports how a dump ended, where something is wrong with its file.
fn put_ending<E: DeviceOut>(
    name: &[u8],
    ending: Ending,
    errors: &mut Watched<E>,
) -> Result<(), WriteFailed>
    ensures { Wrote E.DeviceOut errors.old errors.new (spec.ending_lines name.now ending) result }
{
    match ending {
        Ending::Worked(Verdict::Refused(stop)) => put_fault(name, stop, errors),
        Ending::Unread(read) => put_unread(name, read, errors),
        _ => Ok(()),
    }
}

/// Reports what is remarked of a file, and how its dump ended. After a line that failed no other is tried.
fn put_ended<E: DeviceOut>(
    name: &[u8],
    ended: Ended,
    errors: &mut Watched<E>,
) -> Result<(), WriteFailed>
    ensures { Wrote E.DeviceOut errors.old errors.new
        (spec.remark_lines name.now ended.remarks ++ spec.ending_lines name.now ended.ending) result }
{
    put_unknown(name, ended.remarks.unknown, errors)?;
    put_ending(name, ended.ending, errors)
}

/// The status of a file, by how its dump ended.
fn ending_status(ending: Ending) -> u8
    ensures value { result ≡ spec.ending_status ending }
    ensures within { result ≤ statuses.DEVICE }
{
    match ending {
        Ending::Worked(Verdict::Refused(_)) => FAULT,
        Ending::Worked(_) => DONE,
        Ending::Unread(_) | Ending::Output => DEVICE,
    }
}

/// Flushes a dump that ended so, and then reports what is remarked of its file and what is wrong with it. Answers the
/// status. Where the output fails nothing is reported.
fn end_dump<W: DeviceOut, E: DeviceOut>(
    name: &[u8],
    ended: Ended,
    out: &mut Watched<W>,
    errors: &mut Watched<E>,
) -> Ends
    ensures ends { spec.EndsDump W.DeviceOut name.now ended (change_of E.DeviceOut errors.old errors.new) out.old
        out.new result }
    ensures within { IfOk result (λ status. status ≤ statuses.DEVICE) }
{
    if let Ending::Output = ended.ending {
        return Err(WriteFailed);
    }
    flush_out(out)?;
    let _ = put_ended(name, ended, errors);
    Ok(ending_status(ended.ending))
}

impl<I: DeviceIn, W: DeviceOut> FileWork<I, W> for DumpWork {
    ghost work = { work_spec.work_of I.DeviceIn W.DeviceOut };

    fn do_file<E: DeviceOut>(
        &mut self,
        name: &[u8],
        kind: FileKind,
        input: &mut Watched<I>,
        out: &mut Watched<W>,
        errors: &mut Watched<E>,
    ) -> Ends {
        self.count();
        match clash(kind, self.output) {
            Some(cause) => {
                let _ = put_clash(name, cause, errors);
                Ok(DEVICE)
            }
            None => self.show(name, input, out, errors),
        }
    }

    fn pass(&mut self, _out: &Watched<W>) {
        self.count();
    }
}

/// Writes the headings and dumps of all files, and answers the greatest status. Fails where the output fails; then no
/// more files are opened.
pub fn show_dumps<S: System, W: DeviceOut, E: DeviceOut>(
    plan: DumpsPlan,
    output: FileKind,
    system: &mut S,
    out: &mut Watched<W>,
    errors: &mut Watched<E>,
) -> Ends
    ensures shows { spec.ShowsAll S.may_do S.Input.DeviceIn W.DeviceOut
        (record { job = dump_job plan.entry.dump; output = output; total = words.total_of (names_as plan.entry.names) })
        (names_as plan.entry.names) (change_of E.DeviceOut errors.old errors.new) out.old out.new system.old result
        system.new }
    ensures within { IfOk result (λ status. status ≤ statuses.DEVICE) }
{
    // One buffer and one reader of heads for all files: to blank 82 KB for each file costs time that small files feel.
    let mut work = DumpWork::new(plan.dump, output, total_of(plan.names));
    do_all(plan.names, &mut work, system, out, errors)
}
