//! From trees to resolved programs.
#![tactic(auto)]

mod constants;
mod emit;
mod emitter;
mod fresh;
mod laws;
mod name_tables;
mod program;
mod tables;

pub use laws::spelled_trees_keep_enough;
pub use program::resolve;
