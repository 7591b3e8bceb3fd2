// What one file gives for its row.
ghost use Rattle.std.specs.Prelude.{◌≡◌, ◌≤◌, ◌<◌, ◌+◌, length};
ghost use Rattle.dcm_head.specs.MetaReading.{HasEnded};
ghost use Rattle.dcm_files.specs.Pieces.{BUFFER_LIMIT};
ghost use Rattle.dcm_table.specs.TableSink.{cleared};
ghost use Rattle.dcm_cli.specs.Pass.{IsWithin, set_bytes};
ghost use Rattle.dcm_tables.specs.Files as spec;

use dcm_base::{DeviceIn, Dictionary, Watched};
use dcm_cli::ending::{Ending, HeadEnding, Verdict};
use dcm_cli::head::{Beginning, read_head_of, set_start};
use dcm_cli::pass::read_set;
use dcm_head::Meta;
use dcm_table::{Cells, RowEnd, row_end, take_meta};

/// How the reading of a file ended.
#[derive(Clone, Copy, Debug, PartialEq, Eq)]
pub enum FileEnd {
    /// The file was read as far as its row needs, or up to a fault. It has a row.
    Read(RowEnd),
    /// Reading failed after this number of bytes, before the row was decided. The file has no row.
    Unread(u64),
}

/// How the reading of a file ended whose data set was read.
fn set_end(ending: Ending) -> FileEnd
    ensures { result ≡ spec.set_end ending }
{
    match ending {
        Ending::Worked(Verdict::Refused(stop)) => FileEnd::Read(row_end(Err(stop))),
        Ending::Unread(read) => FileEnd::Unread(read),
        _ => FileEnd::Read(row_end(Ok(()))),
    }
}

/// Reads the data set of a file, after its head, as far as its row needs.
fn read_data_set<R: DeviceIn>(
    meta: &Meta,
    beginning: Beginning,
    input: &mut Watched<R>,
    buffer: &mut [u8],
    cells: &mut Cells,
) -> FileEnd
    requires ended { HasEnded meta.now.end }
    requires room { 0 < length buffer.old }
    requires bound { length buffer.old ≤ BUFFER_LIMIT }
    requires within { IsWithin beginning buffer.old }
    requires count { meta.now.place + length (set_bytes beginning buffer.old) ≡ beginning.read }
    ensures reads { spec.ReadsTable R.DeviceIn input.old input.new meta.now beginning buffer.old cells.old cells.new
        result }
    ensures kept { cleared cells.new ≡ cleared cells.old }
{
    let start = set_start(meta);
    let coding = meta.coding().read_by(Dictionary::Standard);
    set_end(read_set(beginning, coding, start, input, buffer, cells))
}

/// Reads of a file what its row shows. The cells are emptied first.
pub fn read_file<R: DeviceIn>(
    input: &mut Watched<R>,
    buffer: &mut [u8],
    cells: &mut Cells,
) -> FileEnd
    requires room { 0 < length buffer.old }
    requires bound { length buffer.old ≤ BUFFER_LIMIT }
    ensures reads { spec.ReadsFile R.DeviceIn input.old input.new (cleared cells.old) cells.new result }
    ensures kept { cleared cells.new ≡ cleared cells.old }
{
    let mut meta = Meta::new();
    read_file_with(&mut meta, input, buffer, cells)
}

/// Reads of a file what its row shows, its head by a reader that may have read other files. The cells and the reader
/// are emptied first.
pub fn read_file_with<R: DeviceIn>(
    meta: &mut Meta,
    input: &mut Watched<R>,
    buffer: &mut [u8],
    cells: &mut Cells,
) -> FileEnd
    requires room { 0 < length buffer.old }
    requires bound { length buffer.old ≤ BUFFER_LIMIT }
    ensures reads { spec.ReadsFile R.DeviceIn input.old input.new (cleared cells.old) cells.new result }
    ensures kept { cleared cells.new ≡ cleared cells.old }
{
    cells.clear();
    meta.clear();
    match read_head_of(meta, input, buffer) {
        Ok(beginning) => {
            take_meta(meta.elements(), cells);
            read_data_set(meta, beginning, input, buffer, cells)
        }
        Err(HeadEnding::Refused(stop)) => {
            take_meta(meta.elements(), cells);
            FileEnd::Read(RowEnd::Refused(stop))
        }
        Err(HeadEnding::Unread(read)) => FileEnd::Unread(read),
    }
}
