//! What the tests of tables of files share: runs of dcm2csv over files in memory and devices that fail, and what is
//! wanted of them.
//!
//! - A `Row` is a run: its words and files, and what comes of each name. An `Entry` is what is at a path, and `Done`
//!   what comes of a name. `load` gives what is at the paths of entries.
//! - `expect_rows` expects the answers of rows. `reads_fail`, `files_vanish`, `writes_fail`, `flushes_fail` and
//!   `tells_fail` expect them where a device fails, at each of its bytes.
//! - `run_over` is a run of words over files and devices, and `expect_answer` compares an `Answer` with what it `Left`.
mod answer;
mod case;
mod failing;
mod outputs;
mod rows;

pub use answer::{Answer, Left, expect_answer, holds, left_by, run_over};
pub use case::expect_rows;
pub use failing::{files_vanish, reads_fail};
pub use outputs::{flushes_fail, tells_fail, writes_fail};
pub use rows::{Done, Entry, NAME, Row, TWO_COLUMNS, load};
