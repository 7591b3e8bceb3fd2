// The names of a tree, one after another, with a row for each.
ghost use Rattle.std.specs.Prelude.{◌≡◌, option_map};
ghost use Rattle.dcm_cli.specs.Calls as calls;
ghost use Rattle.dcm_walk.specs.Visits.{name_of};
ghost use Rattle.dcm_trees.specs.Work as spec;
ghost use Rattle.dcm_trees.specs.World.{world};

use crate::fate::Fate;
use crate::file::{Done, InstanceName, do_name};
use crate::progress::{Shared, Stop, Work};
use crate::row::put_row;
use crate::share::is_of;
use crate::tally::{Tally, put_counts};
use dcm_base::{DeviceOut, Watched, WriteFailed, flush_out};
use dcm_cli::status::DONE;
use dcm_files::Folders;
use dcm_walk::{Named, Stopped, Visitor, What};

/// The name of an output: that of its input, or of the instance in it.
fn name_in<'a>(relative: &'a [u8], instance: &'a Option<InstanceName>) -> &'a [u8]
    ensures { result.now ≡ spec.name_in relative.now instance.now }
{
    match instance {
        Some(instance) => instance.as_slice(),
        None => relative,
    }
}

/// The name of the output of a file, where one is there.
fn output_of<'a>(named: &Named<'a>, done: &'a Done) -> Option<&'a [u8]>
    ensures { option_map (λ o. o.now) result ≡ spec.output_of (name_of named.now) done.now }
{
    if done.fate.has_output() {
        Some(name_in(named.relative, &done.instance))
    } else {
        None
    }
}

/// Writes a row, and flushes it.
fn put_whole_row<W: DeviceOut>(
    name: &[u8],
    output: Option<&[u8]>,
    word: &[u8],
    out: &mut Watched<W>,
) -> Result<(), WriteFailed>
    ensures { spec.PutsRow W.DeviceOut (spec.row name.now (option_map (λ o. o.now) output.entry) word.now) out.old
        result out.new }
{
    put_row(name, output, word, out)?;
    flush_out(out)
}

/// Shows the counts, where that is wanted after this row.
fn show_counts<E: DeviceOut>(shows: bool, tally: Tally, errors: &mut Watched<E>)
    ensures { calls.Reports E.DeviceOut errors.old errors.new (spec.progress_line shows tally) }
{
    if shows && tally.is_shown() {
        let _ = put_counts(tally, b"\r", errors);
    }
}

impl<'a, W: DeviceOut> Work<'a, W> {
    /// A run of which no name came, with its manifest.
    pub fn new(shared: Shared<'a>, manifest: Watched<W>) -> Work<'a, W>
        ensures progress { spec.progress result ≡ spec.nothing_done manifest }
        ensures shared { result.shared ≡ shared.entry }
    {
        Work {
            shared,
            manifest,
            tally: Tally::new(),
            status: DONE,
            is_empty: true,
            stop: None,
        }
    }

    /// Counts a name that has a row, of which this became.
    fn count(&mut self, fate: Fate)
        ensures progress { spec.progress self.new ≡ spec.with_row (spec.progress self.old) fate }
        ensures shared { self.new.shared ≡ self.old.shared }
    {
        self.status = self.status.max(fate.status());
        self.tally = self.tally.with(fate);
    }

    /// Writes the row of a name, of which this became.
    fn end_name<E: DeviceOut>(
        &mut self,
        named: &Named,
        done: &Done,
        errors: &mut Watched<E>,
    ) -> Result<(), Stopped>
        ensures ends { spec.EndsName W.DeviceOut E.DeviceOut self.old.shared.shows_counts (name_of named.now) done.now
            (spec.progress self.old) errors.old result (spec.progress self.new) errors.new }
        ensures shared { self.new.shared ≡ self.old.shared }
    {
        let fate = done.fate;
        let output = output_of(named, done);
        match put_whole_row(named.name, output, fate.word(), &mut self.manifest) {
            Ok(()) => {
                self.count(fate);
                show_counts(self.shared.shows_counts, self.tally, errors);
                Ok(())
            }
            Err(_) => {
                self.stop = Some(Stop::Manifest);
                Err(Stopped)
            }
        }
    }
}

impl<'a, S: Folders, W: DeviceOut, E: DeviceOut> Visitor<S, Watched<E>> for Work<'a, W> {
    ghost visits = { spec.visits_of (world S.may_do S.folders_do S.Input.DeviceIn S.Output.DeviceOut E.DeviceOut)
        W.DeviceOut };

    fn visit(
        &mut self,
        system: &mut S,
        errors: &mut Watched<E>,
        named: Named,
        what: What,
    ) -> Result<(), Stopped> {
        self.is_empty = false;
        if !is_of(self.shared.part, named.relative) {
            return Ok(());
        }
        match do_name(self.shared.manner, &named, what, system, errors) {
            Ok(done) => self.end_name(&named, &done, errors),
            Err(stop) => {
                self.stop = Some(stop);
                Err(Stopped)
            }
        }
    }
}
