//! The limits of an injector.

/// The most lines of an injector.
pub const MOST_LINES: u32 = 16_777_216;

/// The most bytes of a line, without the LF that ends it.
pub const MOST_LENGTH: usize = 32_768;

/// The most bytes that a source is asked for at once.
pub const MOST_READ: usize = 4_096;
