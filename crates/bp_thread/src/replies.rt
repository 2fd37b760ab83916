//! The events that a body was given.
ghost use Rattle.std.specs.Prelude.{◌≡◌, ◌++◌, ◌∷◌, [], map, OnOk, OnErr};
ghost use Rattle.std.specs.Arc.{arc_value};

use js_data::{Event, Memory};
use std::alloc::Global;
use std::marker::Model;
use std::sync::Arc;

/// The events that a body was given, in order. Each is shared by all that were given it. Contracts
/// see them as the list.
pub(crate) struct Replies {
    items: Vec<Arc<Event>>,
}

impl Drop for Replies {
    fn drop(self) {
        let Replies { items: _ } = self;
    }
}

impl Model for Replies {
    ghost use Rattle.std.specs.Prelude.{List, map};
    ghost use Rattle.std.specs.Arc.{arc_value};
    ghost use Rattle.std.specs.Coded.{coded_list};
    ghost use Rattle.js_data.specs.Event.{PlainEvent};
    ghost use Rattle.js_data.specs.Codes.{event_code};

    ghost Value = { List PlainEvent };

    ghost coded = { coded_list event_code };

    ghost view = { λ l. map arc_value l.items.items };
}

impl Replies {
    /// No events.
    pub(crate) fn new(alloc: Global) -> Replies
        ensures { result ≡ [] }
    {
        Replies {
            items: Vec::new(alloc),
        }
    }

    /// The events, in order.
    pub(crate) fn as_slice(&self) -> &[Arc<Event>]
        ensures { map arc_value result.now ≡ self.now }
    {
        self.items.as_slice()
    }

    /// One more event at the end. Its only error is out of memory, and then nothing has changed.
    pub(crate) fn push(&mut self, event: Arc<Event>) -> Result<(), Memory>
        ensures ok { OnOk result (self.new ≡ self.old ++ arc_value event ∷ []) }
        ensures err { OnErr result (self.new ≡ self.old) }
    {
        self.items.push(event)?;
        Ok(())
    }
}
