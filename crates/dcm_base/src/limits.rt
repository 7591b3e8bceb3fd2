// The most bytes of what is read from a text.

/// The greatest limit that lines of a dump may be given, in bytes.
pub const LINE_LIMIT: usize = 16_384;

/// The most bytes of a value that a text or a word stands for.
pub const VALUE_LIMIT: usize = 65_536;
