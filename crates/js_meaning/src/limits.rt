//! Limits of an evaluation.

/// How many calls may be active.
pub const MOST_CALLS: u32 = 200;
