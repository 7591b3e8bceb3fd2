//! Laws of the definitions. Each function takes nothing and makes no call: its contract is the law.
ghost use Rattle.dcm_tables.specs.Laws.{CellIsShown, DecidedIsSure, RowIsDecided, RowIsDone, RowIsOne, RowIsRead};
ghost use Rattle.dcm_tables.specs.OverStd.{GivesWhatPassed, RunsByBytes};
ghost use Rattle.dcm_tables.specs.Laws.{RowIsSettled, RowIsSome, RowIsUtf8, RowStays, TableIsOne, TableIsSome};

use dcm_base::{DeviceIn, DeviceOut};
use std::io::{Read, Write};

/// A file has at most one row: its bytes determine the cells and the fault.
pub fn row_is_one()
    ensures { RowIsOne }
{}

/// A file has a row, whatever its bytes are.
pub fn row_is_some()
    ensures { RowIsSome }
{}

/// If more bytes cannot change the fault of a file, all files that begin with these bytes have the same row.
pub fn row_stays()
    ensures { RowStays }
{}

/// A row that more bytes cannot change is decided by a beginning of the file, and by no shorter one.
///
/// - A row that ends at a head above all columns is such a row.
pub fn row_is_decided()
    ensures front { RowIsDecided }
    ensures sure { DecidedIsSure }
{}

/// The bytes that are read of a file decide its row, and no more bytes are read than that needs.
pub fn row_is_read<R: DeviceIn>()
    ensures { RowIsRead R.DeviceIn }
{}

/// The row that is written of a file is the one that the bytes of the file determine.
pub fn row_is_done<R: DeviceIn, W: DeviceOut>()
    ensures { RowIsDone R.DeviceIn W.DeviceOut }
{}

/// A value that is cut off is not written and not reported.
pub fn row_is_settled()
    ensures { RowIsSettled }
{}

/// The row of any file is valid UTF-8.
///
/// - Texts are decoded (without `+by`).
pub fn row_is_utf8()
    ensures { RowIsUtf8 }
{}

/// A cell has the text that a full dump shows, with its escapes undone.
///
/// - Padding at the end is left out.
/// - A UID that the dump shows by a name stands as the UID.
pub fn cell_is_shown()
    ensures { CellIsShown }
{}

/// A command line that asks for a table has only one outcome over files in memory.
pub fn table_is_one()
    ensures { TableIsOne }
{}

/// A command line that asks for a table has an outcome, whatever the files hold.
pub fn table_is_some()
    ensures { TableIsSome }
{}

/// The bytes that a run writes are the answer to the bytes that the run was given, over files, pipes and terminals.
///
/// - How the reading ended is what the calls say, and no call is made once the answer is decided.
/// - The devices are newly opened ones of the system, which say what they gave and took.
pub fn runs_by_bytes<T: Read, U: Write>()
    ensures given { GivesWhatPassed T T.remaining }
    ensures runs { RunsByBytes T U T.remaining }
{}
