// The widths of a display, in bytes: those of DCMTK's dcmdump.

/// The width to which spaces fill a display.
pub const DISPLAY_WIDTH: usize = 40;

/// The most bytes of a display that is not cut in short mode.
pub const UNCUT: usize = 66;

/// The bytes that are left of a longer one, before its dots.
pub const CUT: usize = 63;
