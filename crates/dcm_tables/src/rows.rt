// The row of one file, and the lines on standard error that come after it.
ghost use Rattle.std.specs.Prelude.{◌≡◌, ◌≤◌, ◌++◌, [], flat_map, option_to_list, IfOk};
ghost use Rattle.dcm_devices.specs.Writing.{Wrote};
ghost use Rattle.dcm_names.specs.NamedLines.{too_long_line, unknown_lines};
ghost use Rattle.dcm_table.specs.TableSink.{cleared};
ghost use Rattle.dcm_cli.specs.Change.{change_of};
ghost use Rattle.dcm_cli.specs.Status as statuses;
ghost use Rattle.dcm_tables.specs.Rows as spec;

use crate::file::{FileEnd, read_file_with};
use dcm_base::{DeviceIn, DeviceOut, Tag, Watched, WriteFailed};
use dcm_cli::status::{DEVICE, DONE, FAULT};
use dcm_head::Meta;
use dcm_names::{put_fault, put_too_long, put_unknown, put_unread};
use dcm_table::{Cells, Columns, RowEnd, TextForm, put_row};

/// The bytes of a file that are read at a time.
pub const PIECE: usize = 16_384;

/// What all rows of a table share.
#[derive(Clone, Copy)]
pub struct Shared<'a> {
    pub columns: &'a Columns,
    pub form: TextForm,
}

/// What reads files and writes their rows, one after another. One buffer and one reader of heads serve all files: to
/// blank 33 KB for each file costs time that small files feel.
#[derive(Drop)]
pub struct TableWork<'c> {
    pub form: TextForm,
    pub meta: Meta,
    pub buffer: [u8; PIECE],
    pub cells: &'c mut Cells,
}

/// Writes the line of a column, where its value is too long for a cell.
fn put_column_line<E: DeviceOut>(
    name: &[u8],
    reported: Option<Tag>,
    errors: &mut Watched<E>,
) -> Result<(), WriteFailed>
    ensures { Wrote E.DeviceOut errors.old errors.new (flat_map (too_long_line name.now) (option_to_list reported))
        result }
{
    match reported {
        Some(tag) => put_too_long(name, tag, errors),
        None => Ok(()),
    }
}

/// Writes the lines of the columns whose values are too long for a cell. After a line that failed no other is tried.
fn put_long_lines<E: DeviceOut>(
    name: &[u8],
    cells: &Cells,
    errors: &mut Watched<E>,
) -> Result<(), WriteFailed>
    ensures { Wrote E.DeviceOut errors.old errors.new (spec.long_lines name.now [] cells.now.slots) result }
{
    for column in 0..cells.len() {
        put_column_line(name, cells.reported(column), errors)?;
    }
    Ok(())
}

/// Writes the line of a file's fault, if it has one.
fn put_end_line<E: DeviceOut>(
    name: &[u8],
    end: RowEnd,
    errors: &mut Watched<E>,
) -> Result<(), WriteFailed>
    ensures { Wrote E.DeviceOut errors.old errors.new (spec.end_lines name.now end) result }
{
    match end {
        RowEnd::Refused(stop) => put_fault(name, stop, errors),
        RowEnd::Whole | RowEnd::Decided => Ok(()),
    }
}

/// Whether it is told that a value of Specific Character Set names what is not known: where texts are decoded.
fn tells_unknown(form: TextForm, cells: &Cells) -> bool
    ensures { result ≡ spec.unknown_told form cells.now.unknown }
{
    match form {
        TextForm::Decoded => cells.has_unknown(),
        TextForm::ValidUtf8 | TextForm::AsItIs => false,
    }
}

/// Writes that a character set is not known, where that is told, and the line of a file's fault. After a line that
/// failed no other is tried.
fn put_last_lines<E: DeviceOut>(
    name: &[u8],
    unknown: bool,
    end: RowEnd,
    errors: &mut Watched<E>,
) -> Result<(), WriteFailed>
    ensures { Wrote E.DeviceOut errors.old errors.new (unknown_lines name.now unknown ++ spec.end_lines name.now end)
        result }
{
    put_unknown(name, unknown, errors)?;
    put_end_line(name, end, errors)
}

/// Writes the lines of a file that was read, its fault last. After a line that failed no other is tried.
fn put_file_lines<E: DeviceOut>(
    form: TextForm,
    name: &[u8],
    cells: &Cells,
    end: RowEnd,
    errors: &mut Watched<E>,
) -> Result<(), WriteFailed>
    ensures { Wrote E.DeviceOut errors.old errors.new
        (spec.file_lines form name.now cells.now.slots cells.now.unknown end) result }
{
    put_long_lines(name, cells, errors)?;
    put_last_lines(name, tells_unknown(form, cells), end, errors)
}

/// Writes the lines of a file of which reading failed after so many bytes. After a line that failed no other is tried.
fn put_unread_lines<E: DeviceOut>(
    form: TextForm,
    name: &[u8],
    cells: &Cells,
    read: u64,
    errors: &mut Watched<E>,
) -> Result<(), WriteFailed>
    ensures { Wrote E.DeviceOut errors.old errors.new (spec.unread_lines form name.now cells.now.unknown read) result }
{
    put_unknown(name, tells_unknown(form, cells), errors)?;
    put_unread(name, read, errors)
}

/// The status of a file by its cells.
fn long_status(cells: &Cells) -> u8
    ensures { result ≡ spec.long_status (spec.long_tags [] cells.now.slots) }
{
    for column in 0..cells.len() {
        if cells.reported(column).is_some() {
            return FAULT;
        }
    }
    DONE
}

/// The status of a file that was read.
fn file_status(cells: &Cells, end: RowEnd) -> u8
    ensures value { result ≡ spec.file_status cells.now.slots end }
    ensures within { result ≤ statuses.DEVICE }
{
    match end {
        RowEnd::Refused(_) => FAULT,
        RowEnd::Whole | RowEnd::Decided => long_status(cells),
    }
}

/// Reads a file, writes its row, and reports what is wrong with it. Answers the status. Fails where the output fails,
/// and then reports nothing.
pub fn do_file<R: DeviceIn, W: DeviceOut, E: DeviceOut>(
    work: &mut TableWork,
    name: &[u8],
    input: &mut Watched<R>,
    out: &mut Watched<W>,
    errors: &mut Watched<E>,
) -> Result<u8, WriteFailed>
    ensures does { spec.DoesFile R.DeviceIn W.DeviceOut (cleared work.old.cells.now) work.old.form name.now
        (change_of E.DeviceOut errors.old errors.new) out.old out.new input.old result input.new }
    ensures within { IfOk result (λ status. status ≤ statuses.DEVICE) }
    ensures kept { cleared work.new.cells.now ≡ cleared work.old.cells.now }
    ensures form { work.new.form ≡ work.old.form }
{
    match read_file_with(&mut work.meta, input, &mut work.buffer, work.cells) {
        FileEnd::Read(end) => {
            put_row(work.form, name, work.cells, out)?;
            let _ = put_file_lines(work.form, name, work.cells, end, errors);
            Ok(file_status(work.cells, end))
        }
        FileEnd::Unread(read) => {
            let _ = put_unread_lines(work.form, name, work.cells, read, errors);
            Ok(DEVICE)
        }
    }
}
