//! Days of the Gregorian calendar, and texts whose dates are moved by days (PS3.5 6.2, DA and DT).
//!
//! - A `Date` is a day that there is, and has a number from 1 (0001-01-01) to `LAST_NUMBER` (9999-12-31).
//! - `moved` moves each date of a text of a `DateKind`, and gives nothing where one of its parts is no date. A text has
//!   at most `MOST_HELD` bytes.
//! - `laws` has that numbers count days, and that intervals are kept.
//!
//!     assert!(rt; moved(DateKind::Da, 1, b"20240228\\20231231").as_slice() == b"20240229\\20240101");
//!     assert!(rt; moved(DateKind::Dt, -1, b"20240301120000.5+0100").as_slice() == b"20240229120000.5+0100");
#![tactic(auto)]

mod calendar;
mod date;
pub mod laws;
mod moving;
mod text;

pub use calendar::{LAST_NUMBER, is_leap};
pub use date::Date;
pub use moving::{DateKind, MOST_HELD, moved};
