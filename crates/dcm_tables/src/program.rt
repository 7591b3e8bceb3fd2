// The program: words, devices, and the exit status.
ghost use Rattle.std.specs.Prelude.{◌≡◌, ◌≤◌, map, IfOk};
ghost use Rattle.dcm_cli.specs.Change.{change_of};
ghost use Rattle.dcm_cli.specs.Status as statuses;
ghost use Rattle.dcm_table.specs.Columns.{list_of, tags_of};
ghost use Rattle.dcm_table.specs.TableSink.{begun};
ghost use Rattle.dcm_table_words.specs.Columns.{column_as};
ghost use Rattle.dcm_table_words.specs.Plans.{table_as};
ghost use Rattle.dcm_tables.specs.OverStd as over_std;
ghost use Rattle.dcm_tables.specs.TableProgram as spec;
ghost use Rattle.dcm_trees.specs.Program.{ObeysTree};
ghost use Rattle.dcm_trees.specs.World.{world};

use crate::rows::Shared;
use crate::table::write_table;
use dcm_base::{DeviceOut, Std, Watched, flush_out};
use dcm_cli::status::{DEVICE, USAGE};
use dcm_cli::{Usage, asked, tell, tell_open, tell_output, tell_unopened};
use dcm_dumps::{asks_dumps, obey_dumps};
use dcm_files::{Folders, Host, NoHost, System, Unopened, unopened};
use dcm_table::{Cells, Column, Columns, TextForm};
use dcm_table_words::{TableColumn, TablePlan, Texts, put_usage, table_plan};
use dcm_tree_words::asks_tree;
use dcm_trees::obey_tree;
use either::Either;
use std::alloc::{AllocError, Global};
use std::fs::File;
use std::io::{Read, Stderr, Stdin};

/// The tool that writes tables.
const DCM2CSV: &[u8] = b"dcm2csv";

/// Words, lent.
fn views<'a>(alloc: Global, words: &'a [Vec<u8>]) -> Result<Vec<&'a [u8]>, AllocError>
    ensures { IfOk result (λ views. map (λ w. w.now) views.items ≡ map (λ w. w.items) words.now) }
{
    let mut views = Vec::new(alloc);
    for word in words {
        views.push(word.as_slice())?;
    }
    Ok(views)
}

/// A column of the table.
fn column_of(column: TableColumn) -> Column
    ensures { result ≡ spec.column_of (column_as column) }
{
    match column.number {
        Some(number) => Column::of_number(column.tag, number),
        None => Column::of_keyword(column.tag),
    }
}

/// The columns of a table.
fn columns_of(plan: &TablePlan) -> Columns
    ensures { list_of result ≡ map spec.column_of (table_as plan.now).columns }
{
    let mut columns = Columns::new();
    for column in plan.columns.as_slice() {
        columns.push(column_of(*column));
    }
    columns
}

/// How texts and names are written.
fn form_of(texts: Texts) -> TextForm
    ensures { result ≡ spec.form_of texts }
{
    match texts {
        Texts::Escaped => TextForm::ValidUtf8,
        Texts::AsTheyAre => TextForm::AsItIs,
        Texts::Characters => TextForm::Decoded,
    }
}

/// Flushes an output after a table that reached this status, and answers the status.
fn flush_table<W: DeviceOut, E: DeviceOut>(
    reached: u8,
    out: &mut Watched<W>,
    errors: &mut Watched<E>,
) -> u8
    ensures flushes { spec.FlushesTable W.DeviceOut (change_of E.DeviceOut errors.old errors.new) out.old out.new
        reached result }
    ensures within { reached ≤ statuses.DEVICE → result ≤ statuses.DEVICE }
{
    match flush_out(out) {
        Ok(()) => reached,
        Err(_) => {
            tell_output(errors);
            DEVICE
        }
    }
}

/// Writes a table to an output that is open, and answers the status.
fn put_table<S: System, W: DeviceOut, E: DeviceOut>(
    plan: &TablePlan,
    columns: &Columns,
    system: &mut S,
    cells: &mut Cells,
    out: &mut Watched<W>,
    errors: &mut Watched<E>,
) -> u8
    requires columns { list_of columns.now ≡ map spec.column_of (table_as plan.now).columns }
    requires cells { cells.old ≡ begun (tags_of columns.now) }
    ensures puts { spec.PutsTable W.DeviceOut
        (spec.WritesMeant S.may_do S.Input.DeviceIn W.DeviceOut (table_as plan.now))
        (change_of E.DeviceOut errors.old errors.new) out.old out.new system.old result system.new }
    ensures within { result ≤ statuses.DEVICE }
{
    let shared = Shared {
        columns,
        form: form_of(plan.texts),
    };
    let written = write_table(
        &shared,
        plan.has_header,
        plan.names,
        system,
        cells,
        out,
        errors,
    );
    match written {
        Ok(reached) => flush_table(reached, out, errors),
        Err(_) => {
            tell_output(errors);
            DEVICE
        }
    }
}

/// Writes the table of a plan to standard output, and answers the status.
fn make_table<S: System, E: DeviceOut>(
    plan: &TablePlan,
    system: &mut S,
    alloc: Global,
    errors: &mut Watched<E>,
) -> u8
    ensures makes { spec.MakesTable S.may_do S.Output.DeviceOut
        (spec.WritesMeant S.may_do S.Input.DeviceIn S.Output.DeviceOut (table_as plan.now))
        (change_of E.DeviceOut errors.old errors.new) system.old result system.new }
    ensures within { result ≤ statuses.MEMORY }
{
    let columns = columns_of(plan);
    let Ok(mut cells) = Cells::new(alloc, &columns) else {
        return tell(&Usage::Memory, errors);
    };
    let output = match system.stdout() {
        Ok(output) => output,
        Err(e) => return tell_unopened(unopened(&e, Unopened::Output), errors),
    };
    let mut out = Watched::new(output.device);
    let status = put_table(plan, &columns, system, &mut cells, &mut out, errors);
    let _ = system.close(out.into_device());
    status
}

/// Whether words ask for a table: they are those of dcm2csv, and ask for no text about it.
fn asks_table(words: &[&[u8]]) -> bool
    ensures { result ≡ spec.asks_table (map (λ w. w.now) words.now) }
{
    match words {
        [tool, ..] => *tool == DCM2CSV && asked(words).is_none(),
        [] => false,
    }
}

/// Makes the table that words ask for, or reports why they are refused. It answers the status.
fn obey_table<S: System, E: DeviceOut>(
    system: &mut S,
    alloc: Global,
    words: &[&[u8]],
    errors: &mut Watched<E>,
) -> u8
    ensures obeys { spec.ObeysTable S.may_do S.Input.DeviceIn S.Output.DeviceOut (map (λ w. w.now) words.now)
        (change_of E.DeviceOut errors.old errors.new) system.old result system.new }
    ensures within { result ≤ statuses.MEMORY }
{
    match table_plan(words) {
        Ok(plan) => make_table(&plan, system, alloc, errors),
        Err(usage) => {
            let _ = put_usage(usage, errors);
            USAGE
        }
    }
}

/// Does what the words of a command line say, after the program's name, with the devices that they name. It reports
/// what is wrong, and answers the exit status.
pub fn obey<S: Folders, E: DeviceOut>(
    system: &mut S,
    alloc: Global,
    words: &[&[u8]],
    errors: &mut Watched<E>,
) -> u8
    ensures within { result ≤ statuses.MEMORY }
    ensures obeys { spec.ObeysAny S.may_do S.Input.DeviceIn S.Output.DeviceOut
        (λ words before status after.
        ObeysTree (world S.may_do S.folders_do S.Input.DeviceIn S.Output.DeviceOut E.DeviceOut) words errors.old
        before status errors.new after)
        (map (λ w. w.now) words.now) (change_of E.DeviceOut errors.old errors.new) system.old result system.new }
{
    if asks_table(words) {
        return obey_table(system, alloc, words, errors);
    }
    if asks_dumps(words) {
        return obey_dumps(system, words, errors);
    }
    if asks_tree(words) {
        return obey_tree(system, alloc, words, errors);
    }
    dcm_cli::obey(system, alloc, words, errors)
}

/// Does what the words of the command line say, with the devices that they name, and answers the exit status.
pub fn start<S: Folders, E: DeviceOut>(system: &mut S, alloc: Global, errors: &mut Watched<E>) -> u8
    ensures starts { spec.Starts S.may_do S.Input.DeviceIn S.Output.DeviceOut
        (λ words before status after.
        ObeysTree (world S.may_do S.folders_do S.Input.DeviceIn S.Output.DeviceOut E.DeviceOut) words errors.old
        before status errors.new after)
        (change_of E.DeviceOut errors.old errors.new) system.old result system.new }
    ensures within { result ≤ statuses.MEMORY }
{
    let Ok(words) = system.words() else {
        return tell(&Usage::Memory, errors);
    };
    match views(alloc, words.as_slice()) {
        Ok(words) => obey(system, alloc, words.as_slice(), errors),
        Err(AllocError) => tell(&Usage::Memory, errors),
    }
}

/// How the program ended: its exit status, and what is left of the system and of standard error. In proofs these have
/// the calls that were made, with what they answered, and the bytes that standard error took.
#[derive(Drop)]
pub struct Ended {
    /// The exit status.
    pub status: u8,
    /// The system. An error if the system was asked for and cannot be used.
    pub host: Result<Host, NoHost>,
    /// Standard error.
    pub errors: Watched<Std<Stderr>>,
}

/// Does what the words of the command line say, over the system's devices, and answers how it ended. Where the numbers
/// of closed streams cannot be taken, no file is opened.
pub fn dcmtools(rt: HostRuntime) -> Ended
    ensures ends { over_std.ProgramEnds (λ host. host.calls.made) ⟦<Host as System>⟧.may_do
        (over_std.std_reader ⟦<Either<Stdin, File> as Read>⟧.remaining) over_std.std_writer
        (λ from to words before status after.
        ObeysTree (world ⟦<Host as System>⟧.may_do ⟦<Host as Folders>⟧.folders_do
        (over_std.std_reader ⟦<Either<Stdin, File> as Read>⟧.remaining) over_std.std_writer over_std.std_writer)
        words from before status to after)
        result.host result.errors result.status }
    ensures within { result.status ≤ statuses.MEMORY }
{
    let mut errors = Watched::new(Std::new(rt.stderr()));
    match Host::new(rt) {
        Ok(mut host) => {
            let status = start(&mut host, rt.alloc(), &mut errors);
            Ended {
                status,
                host: Ok(host),
                errors,
            }
        }
        Err(cause) => Ended {
            status: tell_open(false, &mut errors),
            host: Err(cause),
            errors,
        },
    }
}
