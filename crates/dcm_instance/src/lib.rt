//! Which instance a file holds, by its unique identifiers, and whether two readers give the same bytes.
//!
//! - `read_instance` reads a file as far as StudyInstanceUID, SeriesInstanceUID and SOPInstanceUID, which together name
//!   an instance, and no further.
//! - `Instance::name` makes a name of it: STUDY/SERIES/INSTANCE.dcm.
//! - `same_bytes` compares what two readers give, to their ends.
//!
//! Nothing is allocated.
//!
//!     let mut input = Watched::new(MemIn::new(file, 4096));
//!     match read_instance(&mut input) {
//!         Ok(instance) => assert!(rt; instance.name().as_slice() == b"1.2/1.2.3/1.2.3.4.dcm".as_slice()),
//!         Err(NoInstance::Unfit(uid)) => println!(rt; "{uid:?}")?,
//!         Err(NoInstance::Unread) => println!(rt; "it cannot be read")?,
//!     }
#![tactic(auto)]

pub mod laws;
mod names;
mod reading;
mod same;
mod sink;
mod value;

pub use names::{Instance, InstanceUid, MOST_OF_INSTANCE_NAME, MOST_OF_UID, NoInstance, Uid};
pub use reading::read_instance;
pub use same::same_bytes;
