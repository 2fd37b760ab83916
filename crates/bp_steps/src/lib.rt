//! The steps of a core: their definitions, and the laws that hold of them.
//!
//! A core is an arbiter together with its lent jobs. It goes from one moment to the next by steps,
//! each of which is legal or not. Every story has a schedule of legal steps that makes its records.
#![tactic(auto)]

pub mod laws;
mod step;

pub use step::CoreStep;
