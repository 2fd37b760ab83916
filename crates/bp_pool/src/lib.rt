//! Super-steps: jobs that are carried to their outcomes by several workers over one shared queue.
#![tactic(auto)]

mod carrying;
mod gate;
pub mod laws;
mod pace;
mod pool;
mod queue;
mod rule;
mod seat;
mod seating;
mod worker;
mod workers;

pub use gate::{Gate, Open};
pub use pool::superstep;
