//! The outside: sources of bytes, sinks for bytes, and worlds of named bytes.
//!
//! Each is a trait, with an implementation in memory that tells all, for theorems and tests; those over the
//! system's files and streams, which tell nothing, stand in `bp_system`. A fault is answered only where a count of
//! faults rose.
#![tactic(auto)]

mod calls;
mod memory;
mod moving;
mod outside;
mod shelf;
mod world;

pub use memory::{MemorySink, MemorySource};
pub use moving::{ReadError, read_all, write_all};
pub use outside::{Failed, Memory, Sink, Source, World, WorldError};
pub use world::{MemoryOutput, MemoryWorld};
