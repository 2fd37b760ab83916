//! The records of runs without injectors: that each of them can be read back from a log.
#![tactic(auto)]

mod keeping;
mod laws;

pub use keeping::{header_keeps, records_keep};
pub use laws::stories_stand;
