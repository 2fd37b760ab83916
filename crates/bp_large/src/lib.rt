//! The large program, whose run the command measures.
#![tactic(auto)]

mod large;

pub use large::{large_is_accepted, large_program};
