//! What a run prints.
use crate::{Place, Sequence, Verdict};
use js_data::{Event, Text};

/// A line of the trace.
pub enum Line {
    /// This event was selected, which a b-thread requested.
    Event(Event),
    /// This event of the queue was selected.
    External(Event),
    /// The script wrote this text.
    Log(Place, Text),
    /// The b-thread of this name came to its end.
    Done(Text),
    /// The b-thread of this name was interrupted.
    Interrupted(Text),
    /// The run ended.
    Verdict(Verdict),
}

impl Drop for Line {
    fn drop(self) {
        match self {
            Line::Event(_) => {}
            Line::External(_) => {}
            Line::Log(_, _) => {}
            Line::Done(_) => {}
            Line::Interrupted(_) => {}
            Line::Verdict(_) => {}
        }
    }
}

/// The lines of a trace, in order.
pub type Lines = Sequence<Line>;
