//! A core: an arbiter together with its lent jobs, which goes on by single steps.
//!
//! What threads do to a run is a list of core steps: an item of an injector enters, what comes next
//! comes, a lent job is carried on by some nodes, or the turn of the lent jobs is merged. A core makes
//! such steps, refuses the first one that is not legal, and is at an exact moment at any time, whatever
//! slices its jobs have run.
#![tactic(auto)]

pub mod laws;
mod play_fault;
mod stepping;

pub use bp_arbiter::{Absorb, Arbiter, Phase, Picked};
pub use bp_steps::CoreStep;
pub use play_fault::PlayFault;
pub use stepping::Core;
