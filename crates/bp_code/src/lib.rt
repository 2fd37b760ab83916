//! Programs and options as the code that a run sees: the definitions, and the laws of their runs.
#![tactic(auto)]

pub mod laws;
