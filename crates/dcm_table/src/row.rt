// A row of a table (RFC 4180).
ghost use Rattle.std.specs.Prelude.{◌≡◌, ◌∷◌, [], length, flat_map};
ghost use Rattle.dcm_devices.specs.Writing.{Wrote};
ghost use Rattle.dcm_table.specs.Quoted.{quoted};
ghost use Rattle.dcm_table.specs.Columns.{list_of};
ghost use Rattle.dcm_table.specs.Parts.{WroteParts};
ghost use Rattle.dcm_table.specs.Row as spec;
ghost use Rattle.dcm_table.specs.Slots.{slot_of, slots_of};

use crate::cell::Progress;
use crate::cells::Cells;
use crate::column::{Column, Columns};
use crate::decoded::put_decoded;
use crate::numbers::put_units;
use crate::quoted::{TextForm, put_quoted};
use crate::slot::Slot;
use dcm_base::{DeviceOut, Vr, Watched, WriteFailed, put_all};
use dcm_head::without_pads;
use dcm_text::{Sets, TextKind};

/// The text above the names of files.
const FILE: &[u8] = b"File";

/// Writes the cell of a column in the header.
fn put_header_cell<W: DeviceOut>(column: &Column, out: &mut Watched<W>) -> Result<(), WriteFailed>
    ensures { Wrote W.DeviceOut out.old out.new (spec.header_cell column.now) result }
{
    put_all(out, b",")?;
    put_quoted(TextForm::AsItIs, column.header(), out)
}

/// Writes the cells of columns in the header.
fn put_header_cells<W: DeviceOut>(
    columns: &[Column],
    out: &mut Watched<W>,
) -> Result<(), WriteFailed>
    ensures { Wrote W.DeviceOut out.old out.new (flat_map spec.header_cell columns.now) result }
{
    for column in columns {
        put_header_cell(column, out)?;
    }
    Ok(())
}

/// Writes the header of a table: `File` and the text above each column.
///
/// Fails where the writer fails, and has then written a beginning of it.
pub fn put_header<W: DeviceOut>(columns: &Columns, out: &mut Watched<W>) -> Result<(), WriteFailed>
    ensures { Wrote W.DeviceOut out.old out.new (spec.header_text columns.now) result }
{
    put_quoted(TextForm::AsItIs, FILE, out)?;
    put_header_cells(columns.as_slice(), out)?;
    put_all(out, b"\n")
}

/// Whether values of a shown representation are texts.
fn is_quoted_text(vr: Vr) -> bool
    ensures { result ≡ spec.is_quoted_text vr }
{
    matches!(vr, Vr::UI) || vr.is_text()
}

/// What separates the values of a text that Specific Character Set concerns (PS3.5 6.1.2.3).
fn kind_of(vr: Vr) -> Option<TextKind>
    ensures { result ≡ spec.kind_of vr }
{
    match vr {
        Vr::PN => Some(TextKind::Names),
        Vr::LO | Vr::SH | Vr::UC => Some(TextKind::Values),
        Vr::LT | Vr::ST | Vr::UT => Some(TextKind::OneValue),
        _ => None,
    }
}

/// The same, where such texts are decoded.
fn decoded_kind(form: TextForm, vr: Vr) -> Option<TextKind>
    ensures { result ≡ spec.decoded_kind form vr }
{
    match form {
        TextForm::Decoded => kind_of(vr),
        TextForm::ValidUtf8 | TextForm::AsItIs => None,
    }
}

/// Writes a text without pads in double quotes, by what is in force at its head.
fn put_text<W: DeviceOut>(
    form: TextForm,
    sets: Sets,
    vr: Vr,
    text: &[u8],
    out: &mut Watched<W>,
) -> Result<(), WriteFailed>
    ensures { Wrote W.DeviceOut out.old out.new (quoted (spec.shown_text form sets vr text.now)) result }
{
    match decoded_kind(form, vr) {
        Some(kind) => put_decoded(sets, kind, text, out),
        None => put_quoted(form, text, out),
    }
}

/// Writes a value, which is in little endian order.
fn put_value<W: DeviceOut>(
    form: TextForm,
    sets: Sets,
    vr: Vr,
    value: &[u8],
    out: &mut Watched<W>,
) -> Result<(), WriteFailed>
    ensures { WroteParts W.DeviceOut out.old out.new
        (spec.value_parts (spec.is_quoted_text vr) form sets vr value.now) result }
{
    if is_quoted_text(vr) {
        put_text(form, sets, vr, without_pads(value), out)
    } else {
        put_units(vr, value, out)
    }
}

/// Writes a cell, which is empty where there is nothing to show.
fn put_cell<W: DeviceOut>(
    form: TextForm,
    slot: &Slot,
    out: &mut Watched<W>,
) -> Result<(), WriteFailed>
    ensures { WroteParts W.DeviceOut out.old out.new (spec.cell_parts form slot.now.sets (slot_of slot.now).1)
        result }
{
    match slot.progress {
        Progress::Whole(vr) => put_value(form, slot.sets, vr, slot.value(), out),
        _ => Ok(()),
    }
}

/// Writes a cell after a comma.
fn put_next_cell<W: DeviceOut>(
    form: TextForm,
    slot: &Slot,
    out: &mut Watched<W>,
) -> Result<(), WriteFailed>
    ensures { WroteParts W.DeviceOut out.old out.new (spec.next_cell_parts form (slot_of slot.now)) result }
{
    put_all(out, b",")?;
    put_cell(form, slot, out)
}

/// Writes cells, each after a comma.
fn put_cells<W: DeviceOut>(
    form: TextForm,
    slots: &[Slot],
    out: &mut Watched<W>,
) -> Result<(), WriteFailed>
    ensures { WroteParts W.DeviceOut out.old out.new (spec.cells_parts form (slots_of slots.now)) result }
{
    for slot in slots {
        put_next_cell(form, slot, out)?;
    }
    Ok(())
}

/// Writes the row of a file: its name and the cells of all columns.
///
/// Fails where the writer fails, and has then written a beginning of the row.
pub fn put_row<W: DeviceOut>(
    form: TextForm,
    name: &[u8],
    cells: &Cells,
    out: &mut Watched<W>,
) -> Result<(), WriteFailed>
    ensures { WroteParts W.DeviceOut out.old out.new (spec.row_parts form name.now cells.now.slots) result }
{
    put_quoted(form, name, out)?;
    put_cells(form, cells.slots(), out)?;
    put_all(out, b"\n")
}
