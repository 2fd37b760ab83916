//! Resolved programs: nodes with numbers, and names that have become slots and constants.
#![tactic(auto)]

mod builtin;
mod crossing;
mod node;
mod program;

pub use builtin::{Builtin, FormRow, Mode, Modes, builtin_of, form_rows, has_effect_in};
pub use crossing::program_crosses;
pub use node::{Body, ConstantStart, Content, Declared, Node, NodeForm, Variable};
pub use program::Program;
