// How the reading of a file ends, for its row.
ghost use Rattle.std.specs.Prelude.{◌≡◌};
ghost use Rattle.dcm_table.specs.Ending as spec;

use dcm_base::{Fault, Stop};

/// The mark that a row is decided. The cells of a table bar a head as if its tag were out of order, and no head of a
/// table is refused for its order, so this fault comes of nothing else.
const DECIDED: Fault = Fault::NotAscending;

/// How the reading of a file ended.
#[derive(Clone, Copy, Debug, PartialEq, Eq)]
pub enum RowEnd {
    /// At the file's end, without fault.
    Whole,
    /// At a head of the outermost level whose tag is above all columns.
    Decided,
    /// By a fault.
    Refused(Stop),
}

/// How a reading into the cells of a table ended, that was complete or was stopped.
pub fn row_end(reading: Result<(), Stop>) -> RowEnd
    ensures { result ≡ spec.row_end reading }
{
    match reading {
        Ok(()) => RowEnd::Whole,
        Err(stop) if stop.fault == DECIDED => RowEnd::Decided,
        Err(stop) => RowEnd::Refused(stop),
    }
}
