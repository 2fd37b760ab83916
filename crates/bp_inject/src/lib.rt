//! Injectors on threads of their own: what such a thread runs, how it is started, and how it is joined.
#![tactic(auto)]

mod berth;
mod injecting;
mod running;
mod started;

pub use berth::Berth;
pub use injecting::{Injected, inject};
pub use started::{Running, Started, join, start};
