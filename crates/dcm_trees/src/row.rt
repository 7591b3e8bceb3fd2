// The manifest: a row for each name.
ghost use Rattle.std.specs.Prelude.{option_map};
ghost use Rattle.dcm_devices.specs.Writing.{Wrote};
ghost use Rattle.dcm_trees.specs.Row as spec;

use dcm_base::{DeviceOut, Watched, WriteFailed, put_all};
use dcm_table::{TextForm, put_quoted};

/// The row above all others.
const HEADER: &[u8] = b"\"File\",\"Output\",\"Status\"\n";

/// Writes the header of a manifest. Fails where the writer fails.
pub fn put_header<W: DeviceOut>(out: &mut Watched<W>) -> Result<(), WriteFailed>
    ensures { Wrote W.DeviceOut out.old out.new spec.header result }
{
    put_all(out, HEADER)
}

/// Writes a cell.
fn put_cell<W: DeviceOut>(text: &[u8], out: &mut Watched<W>) -> Result<(), WriteFailed>
    ensures { Wrote W.DeviceOut out.old out.new (spec.cell text.now) result }
{
    put_quoted(TextForm::ValidUtf8, text, out)
}

/// Writes the cell of an output, which is empty where there is none.
fn put_output<W: DeviceOut>(output: Option<&[u8]>, out: &mut Watched<W>) -> Result<(), WriteFailed>
    ensures { Wrote W.DeviceOut out.old out.new (spec.output_cell (option_map (λ o. o.now) output.entry)) result }
{
    match output {
        Some(output) => put_cell(output, out),
        None => Ok(()),
    }
}

/// Writes the last cell.
fn put_last<W: DeviceOut>(word: &[u8], out: &mut Watched<W>) -> Result<(), WriteFailed>
    ensures { Wrote W.DeviceOut out.old out.new (spec.last word.now) result }
{
    put_cell(word, out)?;
    put_all(out, b"\n")
}

/// Writes what is behind the first cell.
fn put_rest<W: DeviceOut>(
    output: Option<&[u8]>,
    word: &[u8],
    out: &mut Watched<W>,
) -> Result<(), WriteFailed>
    ensures { Wrote W.DeviceOut out.old out.new (spec.rest (option_map (λ o. o.now) output.entry) word.now) result }
{
    put_output(output, out)?;
    put_all(out, b",")?;
    put_last(word, out)
}

/// Writes the row of a name: the name, that of its output, where it has one, and a word for what became of it. Fails
/// where the writer fails.
pub fn put_row<W: DeviceOut>(
    name: &[u8],
    output: Option<&[u8]>,
    word: &[u8],
    out: &mut Watched<W>,
) -> Result<(), WriteFailed>
    ensures { Wrote W.DeviceOut out.old out.new
        (spec.row name.now (option_map (λ o. o.now) output.entry) word.now) result }
{
    put_cell(name, out)?;
    put_all(out, b",")?;
    put_rest(output, word, out)
}
