//! What is asked of a run, what is recorded of it and what it prints: the types and their texts.
#![tactic(auto)]

mod behind;
mod data;
mod header;
mod item;
pub mod limits;
mod lines;
mod logs;
pub mod options;
mod parallelism;
mod record;
mod sequence;
mod trace;
mod verdict;
mod version;

pub use header::Header;
pub use item::Item;
pub use lines::{PrintError, line_of, print, whole_line_of};
pub use logs::{write_header, write_record};
pub use options::{Options, Strategy};
pub use parallelism::Parallelism;
pub use record::{Record, Records, verdict_of};
pub use sequence::Sequence;
use std::alloc::AllocError;
pub use trace::{Line, Lines};
pub use verdict::{Place, Verdict, VerdictKind};
pub use version::Version;

/// Out of memory.
pub type Memory = AllocError;
