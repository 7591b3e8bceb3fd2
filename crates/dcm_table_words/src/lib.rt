//! The words of dcm2csv, and the table that they mean.
//!
//! - `table_plan` reads the words of a command line into a `TablePlan`: the columns, and what the words say of header
//!   and texts. `NameWords::after` gives its names one after another.
//! - `NameWords::among` has the names among the words of a `Tool`.
//! - Words that it refuses are a `TableUsage`: which word is wrong and why, which column, or the words as a
//!   whole. `put_usage` writes the line that reports it.
//!
//! No memory is taken: columns are at most 64, and names are read again from the words.
//!
//!     let words = [b"dcm2csv".as_slice(), b"-k".as_slice(), b"PatientID".as_slice(), b"a.dcm".as_slice()];
//!     let Ok(plan) = table_plan(&words) else { return Err("refused".into()) };
//!     assert!(rt; plan.columns.len() == 1 && plan.has_header);
//!     assert!(rt; matches!(plan.names.after(0), Some((Name::File(_), 3))));
#![tactic(auto)]

mod column;
mod plan;
mod saying;
mod usage;
mod usage_line;

pub use column::{NUMBER_SIZE, TableColumn};
pub use plan::{
    MOST_COLUMNS, Name, NameWords, TablePlan, Texts, has_empty, has_standard_twice, table_plan,
};
pub use saying::Tool;
pub use usage::TableUsage;
pub use usage_line::put_usage;
