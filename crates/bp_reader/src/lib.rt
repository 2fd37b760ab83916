//! Reading a log line by line: its header, and then its records.
#![tactic(auto)]

mod fault;
mod head;
mod input;
mod progress;
mod reader;
mod records;
mod verdicts;
mod words;

pub use fault::LogFault;
pub use reader::{Reader, Refused};
pub use records::record_of;
pub use words::{behind_word, number_of};
