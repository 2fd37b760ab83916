//! What is known of events under block sets, once one of these changes, and whether two sets are
//! made alike.
#![tactic(auto)]

mod known;
mod same;

pub use known::{Known, Told, renew};
pub use same::is_same;
