//! What b-threads state, and b-threads, handlers and the top level as jobs that are carried on
//! slice by slice.
#![tactic(auto)]

mod crossing;
mod events;
mod job;
mod keeping;
pub mod laws;
mod origin;
mod outcome;
mod parts;
mod pausing;
mod reading;
mod replies;
mod requests;
mod statement;

pub use crossing::job_moves;
pub use events::Events;
pub use job::Job;
pub use outcome::Outcome;
pub use reading::{StatementFault, statement_of};
pub use requests::Requests;
pub use statement::Statement;
