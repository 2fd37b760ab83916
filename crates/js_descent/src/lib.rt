//! A reader for each form of the grammar, within the room that nesting leaves.
#![tactic(auto)]

mod descent;
mod leaves;

pub use descent::{closed, statement};
