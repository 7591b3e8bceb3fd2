// All rows of a table, one after another.
ghost use Rattle.std.specs.Prelude.{◌≡◌, ◌≤◌, IfOk};
ghost use Rattle.dcm_cli.specs.Change.{change_of};
ghost use Rattle.dcm_devices.specs.Writing.{Wrote};
ghost use Rattle.dcm_cli.specs.Status as statuses;
ghost use Rattle.dcm_table.specs.Columns.{list_of, tags_of};
ghost use Rattle.dcm_table.specs.TableSink.{begun};
ghost use Rattle.dcm_table_words.specs.Plans.{names_as};
ghost use Rattle.dcm_tables.specs.Table as spec;
ghost use Rattle.dcm_tables.specs.TableWork as work_spec;

use crate::rows::{PIECE, Shared, TableWork, do_file};
use dcm_base::{DeviceIn, DeviceOut, Watched, WriteFailed};
use dcm_each::{Ends, FileWork, do_all};
use dcm_files::{FileKind, System};
use dcm_head::Meta;
use dcm_table::{Cells, Columns, put_header};
use dcm_table_words::NameWords;

impl<'c, I: DeviceIn, W: DeviceOut> FileWork<I, W> for TableWork<'c> {
    ghost work = { work_spec.work_of I.DeviceIn W.DeviceOut };

    fn do_file<E: DeviceOut>(
        &mut self,
        name: &[u8],
        _kind: FileKind,
        input: &mut Watched<I>,
        out: &mut Watched<W>,
        errors: &mut Watched<E>,
    ) -> Ends {
        do_file(self, name, input, out, errors)
    }

    fn pass(&mut self, _out: &Watched<W>) {}
}

/// Writes the header, where there is one.
fn put_header_where<W: DeviceOut>(
    has_header: bool,
    columns: &Columns,
    out: &mut Watched<W>,
) -> Result<(), WriteFailed>
    ensures { Wrote W.DeviceOut out.old out.new (spec.header_bytes has_header (list_of columns.now)) result }
{
    if !has_header {
        return Ok(());
    }
    put_header(columns, out)
}

/// Writes the header, where there is one, and the rows of all names. Answers the greatest status. Fails where the output
/// fails; nothing more is opened then.
pub fn write_table<S: System, W: DeviceOut, E: DeviceOut>(
    shared: &Shared,
    has_header: bool,
    names: NameWords,
    system: &mut S,
    cells: &mut Cells,
    out: &mut Watched<W>,
    errors: &mut Watched<E>,
) -> Ends
    requires cells { cells.old ≡ begun (tags_of shared.now.columns.now) }
    ensures writes { spec.WritesTable S.may_do S.Input.DeviceIn W.DeviceOut (list_of shared.now.columns.now)
        shared.now.form has_header (names_as names.entry) (change_of E.DeviceOut errors.old errors.new) out.old
        out.new system.old result system.new }
    ensures within { IfOk result (λ status. status ≤ statuses.DEVICE) }
{
    put_header_where(has_header, shared.columns, out)?;
    let mut work = TableWork {
        form: shared.form,
        meta: Meta::new(),
        buffer: [0; PIECE],
        cells,
    };
    do_all(names, &mut work, system, out, errors)
}
