//! The limit of a tree.

/// How many constructs may be open at a place of a program.
pub const MOST_NESTING: u32 = 200;
