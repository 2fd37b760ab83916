//! What comes of an event that is to be selected.
use bp_log::Verdict;

/// What comes of an event that is to be selected.
#[derive(Drop)]
pub enum Went {
    /// The transition is made.
    Moved,
    /// The event would stop the run with this verdict, and nothing has changed.
    Stopped(Verdict),
}
