//! How the runs of a program end under many seeds, by kind, on all processors.
#![tactic(auto)]

mod counts;
mod ending;
mod laws;
mod running;
mod sweep;

pub use laws::counts_add_up;
pub use sweep::{Sweep, sweep_text};
