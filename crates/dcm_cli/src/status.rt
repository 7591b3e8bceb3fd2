// The exit statuses.

/// All was done.
pub const DONE: u8 = 0;

/// The words are refused.
pub const USAGE: u8 = 1;

/// The input is at fault.
pub const FAULT: u8 = 2;

/// All was done, and there is more to say: an edit found no place, or pixels may show identity.
pub const REMARK: u8 = 3;

/// A device failed or could not be opened.
pub const DEVICE: u8 = 4;

/// Memory was refused.
pub const MEMORY: u8 = 5;
