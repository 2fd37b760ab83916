//! Turns of a run: lent jobs are carried to their outcomes, by the calling thread or by workers.
#![tactic(auto)]

mod carrier;
mod carrying;
mod cores;
mod settling;

pub use carrier::{Alone, Carrier, Workers};
pub use carrying::carry_all;
pub use cores::settle_core;
pub use settling::settle;
