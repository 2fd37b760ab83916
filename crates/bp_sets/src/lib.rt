//! Whether a set has an event.
#![tactic(auto)]

mod asked;
mod fault;
mod membership;
mod predicate;

pub use asked::Asked;
pub use fault::SetFault;
pub use membership::{contains, contains_as};
