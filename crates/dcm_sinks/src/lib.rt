//! What the tools write of a data set: its dump, or itself in another syntax.
//!
//! - `DumpSink` writes the lines of a dump, `Lines` in it; `dump_header` and `set_header` write what comes before them.
//! - `DecodedDumpSink` writes the same lines with texts in UTF-8, by what is in force of Specific Character Set, which
//!   `InForce` keeps; `decoded_dump_header` and `decoded_alone_header` write what comes before them. `Setting` is the
//!   value of that element on its way, here and for tables.
//! - `LineSink` is either of them for what stands before it and leaves lines out.
//! - `EncodeSink` writes the data set in a target syntax, with undefined lengths and without lengths of groups, by an
//!   `Encoder`, which dcm_build uses too. A value is copied or turned by units as it comes, and never held.
//! - `laws` has what the sinks make of all tokens of a data set: `dump_steps`, `decoded_dump_steps` and `encode_steps`,
//!   and the premises of their bars.
//!
//! A dump:
//!
//!     let mut sink = DumpSink::new(&mut out, Mode::Short);
//!     let mut machine = Machine::new(coding, 0);
//!     assert!(rt; machine.feed(NAME, &mut sink).is_ok() && machine.finish(&mut sink).is_ok());
//!     assert!(rt; out.device().written().starts_with(b"(0010,0010) PN [AB^CD] "));
#![tactic(auto)]

mod character_set;
mod dump;
mod encode;
pub mod laws;

pub use character_set::{Setting, default_sets, is_setting};
pub use dump::{
    DecodedDumpSink, DumpSink, LineSink, decoded_alone_header, decoded_dump_header, dump_header,
    dump_header_with, set_header,
};
pub use encode::{EncodeSink, Encoder, leaf_head};
