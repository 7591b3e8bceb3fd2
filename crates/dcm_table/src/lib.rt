//! A table of files: one row of comma separated values (RFC 4180) for each DICOM file. This crate knows nothing of the
//! names of files on a command line: it has the columns, what is read of one file for them, and the row.
//!
//! - `Columns` are the tags of a table, 1 to 64 of them, each a `Column` with the text of its header.
//! - `Cells` hold, of each column, the first element of its tag at the outermost level of a file: its value of at most
//!   16,384 bytes, or why it is not shown. They are a `Sink`, so a `Machine` is fed with them; their memory is taken
//!   once, and `clear` makes them empty for the next file. They bar the first head of the outermost level that is above
//!   the greatest column: nothing after it can change the row. `row_end` says whether a reading ended so. With each
//!   cell they hold what is in force of Specific Character Set at the head of its element.
//! - `take_meta` gives them the elements of the meta group.
//! - `put_header` and `put_row` write a row, `put_quoted` and `put_decoded` one text of it; `TextForm` says whether
//!   texts are decoded by Specific Character Set (0008,0005), and whether bytes that are no UTF-8 are escaped.
//!
//! A file's row:
//!
//!     let mut cells = Cells::new(rt.alloc(), &columns)?;
//!     take_meta(meta.elements(), &mut cells);
//!     let end = row_end(machine.feed(bytes, &mut cells).and_then(|()| machine.finish(&mut cells)));
//!     put_row(TextForm::ValidUtf8, name, &cells, out)?;
#![tactic(auto)]

mod cell;
mod cells;
mod column;
mod decoded;
mod ending;
mod index;
pub mod laws;
mod meta;
mod numbers;
mod quoted;
mod row;
mod setting;
mod slot;

pub use cell::CELL_LIMIT;
pub use cells::Cells;
pub use column::{COLUMNS_LIMIT, Column, Columns, NUMBER_SIZE};
pub use decoded::put_decoded;
pub use ending::{RowEnd, row_end};
pub use meta::take_meta;
pub use quoted::{TextForm, put_quoted};
pub use row::{put_header, put_row};
