//! The texts of events, as compact JSON, both ways, and the texts of data.
#![tactic(auto)]

pub mod reader;
pub mod writer;

pub use reader::{EventError, event_of};
pub use writer::{data_text, event_text, quoted};
