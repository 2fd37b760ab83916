//! A session: a run that is served while injectors bring their events, and is printed and logged as it
//! goes on.
#![tactic(auto)]

mod calling;
mod hearing;
mod laws;
mod lent;
mod outlets;
mod pacing;
mod places;
mod reading;
mod report;
mod running;
mod scoped;
mod serving;
mod showing;
mod stop;
mod telling;
mod turning;
mod written;

pub use laws::what_was_recorded_was_heard;
pub use report::{Ending, Report};
pub use running::Session;
