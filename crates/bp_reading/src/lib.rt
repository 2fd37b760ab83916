//! What the bytes of a log say: the definition, and the laws that hold of it.
#![tactic(auto)]

mod laws;
pub mod limits;

pub use laws::{lines_are_texts, logs_are_read, one_reading, read_logs_are_texts, read_one_way};
