//! Logs of either version, written in the second.
#![tactic(auto)]

mod fault;
mod laws;
mod migrating;

pub use fault::MigrateFault;
pub use laws::{logs_migrate, migrated_are_logs, one_ending, only_logs_migrate};
pub use migrating::{Migrated, migrate};
