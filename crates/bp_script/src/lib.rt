//! What the bytes of a program are: an accepted program, or refused, and with which words.
#![tactic(auto)]

mod laws;
mod reading;
mod refusal;

pub use laws::read_one_way;
pub use reading::{ScriptFault, accept};
pub use refusal::{Kind, Refusal, Rule};
