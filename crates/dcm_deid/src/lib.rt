//! Taking identity out of a data set (PS3.15 annex E).
//!
//! - `fate_of` says what becomes of an element, by `Options`, its `Depth` and its tag as read: a `Fate`. `ACTIONS` is
//!   table E.1-1 of PS3.15 (2021b), and what is added where it leaves identity behind.
//! - `DeidentifySink` lies between the machine and another sink. It passes on what is left of the tokens, in a state of
//!   fixed size, bars what it cannot clean, `pixels_may_show` says what pixels say of themselves, and `dates_emptied` how
//!   many dates vanished.
//! - `MetaWithoutIdentity` and `meta_fate` say what stays of the head of a file, and `NO_PREAMBLE` is its new preamble.
//! - `PatientSink` takes the tokens up to the patient, whose `Naming` then says by which days dates are moved.
//!   `WithPatient` lies before another sink, and knows whether PatientID names nobody.
//! - `laws` has what is gone, what stays, and that nothing of what is taken out flows.
//!
//! A name is emptied:
//!
//!     let mut sink = EncodeSink::new(&mut out, Syntax::LITTLE);
//!     let mut clean = DeidentifySink::new(options, key, &mut sink);
//!     assert!(rt; machine.feed(NAME, &mut clean).is_ok() && machine.finish(&mut clean).is_ok());
#![tactic(auto)]

mod by_token;
mod deidentifier;
mod dummy;
mod fate;
mod held;
mod kept_numbers;
mod key;
pub mod laws;
mod meta;
mod patient;
mod said;
mod sink;
mod table;
mod whole;
mod with_patient;

pub use deidentifier::form_after;
pub use fate::{Depth, Fate, NewValue, Options, ReadAs, Retain, Temporal, fate_of};
pub use meta::{MetaFate, MetaWithoutIdentity, NO_PREAMBLE, meta_fate};
pub use patient::{Naming, PatientSink, UpToPatient};
pub use sink::DeidentifySink;
pub use table::{ACTIONS, Action};
pub use with_patient::WithPatient;
