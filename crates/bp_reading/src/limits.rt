//! The limits of a log.

/// The most bytes of a line, without its line end.
pub const MOST_LINE_BYTES: u32 = 1_048_576;

/// The most lines of records.
pub const MOST_RECORDS: u32 = 2_100_000;
