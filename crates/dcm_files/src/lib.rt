//! The devices of a program: what the system opens for it, and the file that it writes. This crate knows nothing of
//! DICOM.
//!
//! - `System` is what opens devices; `Host` is the real one, and `MemSystem` is over files in memory. A system answers
//!   an `Opened`, a device with its `FileKind`. `Host` notes its `Calls` for proofs.
//! - `open_devices` opens the input and the output that words name, `-` for a standard stream. It refuses two that are
//!   one file, and an output that holds bytes and is not to be overwritten. `open_input` opens an input alone; `clash` says
//!   why two are not used together.
//! - `Folders` is a system that lists folders, says what is at a name, and makes names.
//! - `OutputFile` is a file that keeps what it held until its first byte is written. It is over any `Target`, of which
//!   a `File` is one.
//! - `next_piece` reads an input piece by piece.
//! - `specs` says what a call leaves: `Devices` of opening, `Output` of a file that is written, `Pieces` of a piece;
//!   `Folders` of folders; `Host`, `HostFolder` and `Call` of the real system.
//!
//! Two writes and a flush. A `target` that held bytes is emptied once, before the first of them:
//!
//!     let mut file = OutputFile::new(target);
//!     let first = file.write(b"ab").is_ok();
//!     let second = file.write(b"b").is_ok();
//!     let flushed = file.flush().is_ok();
#![tactic(auto)]

mod calls;
mod devices;
mod folders;
mod host;
mod host_folder;
mod memory;
mod modes;
mod opened;
mod output;
mod part;
mod pieces;

pub use calls::Calls;
pub use devices::{System, clash, open_devices, open_input, unopened};
pub use folders::{EntryName, Folders, Found, FoundKind, Links, MOST_OF_ENTRY};
pub use host::{Host, NoHost};
pub use host_folder::HostFolder;
pub use memory::{MemFile, MemSystem, NoFolder};
pub use opened::{FileKind, Opened, Unopened};
pub use output::{OutputFile, Target};
pub use part::{end_part, open_whole_devices};
pub use pieces::next_piece;
