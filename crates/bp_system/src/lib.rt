//! The system: its files and streams, and how it begins and ends a program: the trusted edge.
//!
//! They tell nothing of content or of names: contracts see alone how often reading and writing have failed.
#![tactic(auto)]

mod files;
mod identity;
mod process;
mod streams;

pub use files::{FileSink, FileSource, FileWorld, StreamSink};
pub use process::{Process, StartError, leave};
