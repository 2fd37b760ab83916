//! What of a run is asked about.
use js_data::Event;

/// What is asked about.
#[derive(Drop)]
pub enum Subject {
    /// Why the event of the selection of this number, counted from 1, was selected.
    Selection(u32),
    /// Who requests and who blocks this event where the run ends.
    Event(Event),
}
