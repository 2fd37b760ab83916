//! The arbiter: it picks which event comes next, records what happens, and tells the story of a run.
//!
//! An arbiter is a floor, the words of the random choice, the state of the injectors and the records.
//! Its records are a story at any time; what its lines say is what the story says.
#![tactic(auto)]

mod arbiter;
mod numbers;
mod picked;
mod run;

pub use arbiter::Arbiter;
pub use bp_floor::{Absorb, Floor, Phase};
pub use picked::Picked;
