//! What the tests of whole runs share: tables of runs, runs over memory and over std, and what is wanted of them.
//!
//! - A `Row` is a run: its words and input, and what is wanted of it. `dumps`, `conversions`, `buildings`,
//!   `modifications`, `dictionaries`, `signs`, `unknown`, `text_sets`, `text_extensions`, `text_terms`, `text_cuts`,
//!   `text_unknown`, `named_elements`, `identities`, `identity_days`, `identity_emptied`, `identity_heads`, `identity_put`,
//!   `identity_moved`, `identity_named`, `identity_unnamed` and `identity_faults` are tables of rows.
//! - `expect_rows` expects the answers of rows. `expect_runs` expects one, in pieces of several sizes.
//! - `over_memory` and `over_std` are runs of words over one input, and `expect_answer` compares an `Answer` with what
//!   is `Wanted`.
//! - `nested`, `sixty_four` and `letters` are deep and long files.
mod answer;
mod jobs;
mod memory;
mod nesting;
mod rows;
mod runs;
mod tables;

pub use answer::{Answer, Wanted, expect_answer, holds};
pub use jobs::{job_status, job_with_key};
pub use memory::{bytes_in, memory_out, room};
pub use nesting::{DEPTH, ENDS, OPENINGS, letters, nested, sixty_four};
pub use rows::{Row, front_of, header_of, rows_of};
pub use runs::{STEPS, expect_rows, expect_runs, over_memory, over_std};
pub use tables::buildings::buildings;
pub use tables::conversions::conversions;
pub use tables::dictionaries::dictionaries;
pub use tables::dumps::dumps;
pub use tables::identities::identities;
pub use tables::identity_days::identity_days;
pub use tables::identity_emptied::identity_emptied;
pub use tables::identity_faults::identity_faults;
pub use tables::identity_heads::identity_heads;
pub use tables::identity_moved::identity_moved;
pub use tables::identity_named::identity_named;
pub use tables::identity_put::identity_put;
pub use tables::identity_unnamed::identity_unnamed;
pub use tables::modifications::modifications;
pub use tables::named_elements::named_elements;
pub use tables::signs::signs;
pub use tables::text_cuts::text_cuts;
pub use tables::text_extensions::text_extensions;
pub use tables::text_sets::text_sets;
pub use tables::text_terms::text_terms;
pub use tables::text_unknown::text_unknown;
pub use tables::unknown::unknown;
