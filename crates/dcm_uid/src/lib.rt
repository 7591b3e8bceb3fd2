//! What a key makes in place of old values, each by the HMAC-SHA-256 (RFC 2104) of the old one: the same of the same
//! value, in each file and run. Without the key nobody can try which value it was.
//!
//! - `new_uid` is a new UID, the number of a UUID of version 8 (RFC 9562 5.8, PS3.5 B.2); `new_value` is what stands in
//!   place of the value of a UID.
//! - `pseudonym` is that of the patient whom a PatientID names, and `days` are those by which the patient's dates move.
//!
//!     let key = Key::new(b"at least sixteen bytes");
//!     assert!(rt; new_value(&key, b"1.2.3\0").as_slice() == new_uid(&key, b"1.2.3").as_slice());
//!     assert!(rt; new_value(&key, b"1.2.840.10008.1.2\0").as_slice() == b"1.2.840.10008.1.2");
#![tactic(auto)]

mod hmac;
pub mod laws;
mod patients;
mod uid;

pub use hmac::Key;
pub use patients::{MOST_OF_PATIENT, PSEUDONYM_SIZE, days, patient, pseudonym};
pub use uid::{new_uid, new_value};
