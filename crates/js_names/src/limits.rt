//! The limit of a function's slots.

/// The most slots of a function, and of the top level.
pub(crate) const MOST_SLOTS: usize = 256;
