//! Trees read from tokens.
#![tactic(auto)]

mod fault;
mod program;
mod refused;

pub use fault::ParseFault;
pub use program::parse;
