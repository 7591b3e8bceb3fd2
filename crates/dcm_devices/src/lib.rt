//! Reading and writing bytes, by devices that remember whether they failed. This crate knows nothing of DICOM.
//!
//! - The traits `DeviceIn` and `DeviceOut` are what gives bytes and what takes them; `Device`, below both, says whether
//!   a call on it has failed. A call that fails is `ReadFailed` or `WriteFailed`.
//! - `MemIn` and `MemOut` are over memory, and tell their bytes; `Measured` tells its size too. `Std` is over std's
//!   readers and writers, a `StdReader` or a `StdWriter`: proofs know which bytes they said they gave or took, and that
//!   it fails only where they did.
//! - `Watched` is around a device, so that only the calls of this crate reach it: `get_some`, `put_all`, `put_array`,
//!   `put_parts`, `put_decimal` and `flush_out`. After each of them it is known what went in or out, and whether the
//!   device failed.
//! - `specs` says what a call leaves: `Device` of any device, `Memory` of a `MemOut`, `StdDevice` of a `Std`.
//!
//! A text and a number into memory:
//!
//!     let mut out = Watched::new(MemOut::new(room));
//!     assert!(rt; put_all(&mut out, b"size ").is_ok() && put_decimal(&mut out, 512, 6).is_ok());
//!     assert!(rt; out.device().written() == b"size    512".as_slice());
#![tactic(auto)]

mod calls;
mod device;
mod memory;
mod passed;
mod std_calls;
mod std_device;
mod watched;

pub use calls::{flush_out, get_some, put_all, put_array, put_decimal, put_parts};
pub use device::{Device, DeviceIn, DeviceOut, ReadFailed, WriteFailed};
pub use memory::{Measured, MemIn, MemOut};
pub use std_calls::{StdReader, StdWriter};
pub use std_device::Std;
pub use watched::Watched;
