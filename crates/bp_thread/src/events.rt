//! Lists of events.
ghost use Rattle.std.specs.Prelude.{◌≡◌, ◌++◌, ◌∷◌, [], OnOk, OnErr};

use js_data::{Event, Memory};
use std::alloc::Global;
use std::marker::Model;

/// Events in order. Contracts see them as the list.
#[derive(Drop)]
pub struct Events {
    items: Vec<Event>,
}

impl Model for Events {
    ghost use Rattle.std.specs.Prelude.{List};
    ghost use Rattle.std.specs.Coded.{coded_list};
    ghost use Rattle.js_data.specs.Event.{PlainEvent};
    ghost use Rattle.js_data.specs.Codes.{event_code};

    ghost Value = { List PlainEvent };

    ghost coded = { coded_list event_code };

    ghost view = { λ l. l.items.items };
}

impl Events {
    /// No events.
    pub fn new(alloc: Global) -> Events
        ensures { result ≡ [] }
    {
        Events {
            items: Vec::new(alloc),
        }
    }

    /// The events, in order.
    pub fn as_slice(&self) -> &[Event]
        ensures { result.now ≡ self.now }
    {
        self.items.as_slice()
    }

    /// One more event at the end. Its only error is out of memory, and then nothing has changed.
    pub fn push(&mut self, event: Event) -> Result<(), Memory>
        ensures ok { OnOk result (self.new ≡ self.old ++ event ∷ []) }
        ensures err { OnErr result (self.new ≡ self.old) }
    {
        self.items.push(event)?;
        Ok(())
    }
}
