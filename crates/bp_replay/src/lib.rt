//! Replays: the run of a log is made again, record by record, and printed; and what is said of a log
//! that is not that of a run.
#![tactic(auto)]

mod fault;
mod following;
mod laws;
mod notes;
mod replaying;
mod telling;
mod texts;

pub use fault::ReplayFault;
pub use following::follow;
pub use laws::{logs_of_stories_replay, one_ending, replays_alike, replays_tell_the_run};
pub use notes::bad_log_note;
pub use replaying::{Replayed, replay};
pub use texts::{record_text_of, verdict_text_of};
