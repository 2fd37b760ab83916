//! The limit of a program's text.

/// The most bytes of a program.
pub const MOST_BYTES: usize = 1_048_576;
