// What was opened, or why not.

/// What a device was opened on.
#[derive(Clone, Copy, Debug, PartialEq, Eq)]
pub enum FileKind {
    /// A regular file: its device, its number there, and the bytes that it held when it was opened.
    Regular { device: u64, number: u64, size: u64 },
    /// A directory.
    Directory,
    /// A pipe, a terminal or another device.
    Other,
    /// The system does not say what it is.
    Unknown,
}

/// A device, and what it was opened on.
#[derive(Drop)]
pub struct Opened<D> {
    /// The device.
    pub device: D,
    /// What it was opened on.
    pub kind: FileKind,
}

/// Why a job is not begun.
#[derive(Clone, Copy, Debug, PartialEq, Eq)]
pub enum Unopened {
    /// The input cannot be opened.
    Input,
    /// The output cannot be opened, or holds bytes and may be the file that is read.
    Output,
    /// The output is the file that is read.
    Same,
    /// The output is a file that holds bytes, and is not to be overwritten.
    There,
    /// The temporary file of the output exists: another run is at work, or was cut off.
    Part,
    /// Opening the input or the output needs memory that was refused.
    Memory,
}
