//! Events that wait.
ghost use Rattle.std.specs.Prelude.{◌≡◌, ◌<◌, ◌∷◌, ◌++◌, [], length, remove, OnOk, OnErr, IfErr, IfSome};
ghost use Rattle.bp_run.specs.Story.{without};

use js_data::Event;
use std::alloc::{AllocFailed, Global};
use std::marker::Model;

/// Events, in the order in which they came. Contracts see the list.
pub(crate) struct EventList {
    /// Those that wait, after those that were let go and not cleared away yet.
    items: Vec<Event>,
    /// How many were let go and not cleared away yet.
    gone: usize,
}

impl Drop for EventList {
    fn drop(self) {
        let EventList { items: _, gone: _ } = self;
    }
}

impl Model for EventList {
    ghost use Rattle.std.specs.Prelude.{List, ◌≤◌, drop, length};
    ghost use Rattle.std.specs.Coded.{coded_list};
    ghost use Rattle.js_data.specs.Event.{PlainEvent};
    ghost use Rattle.js_data.specs.Codes.{event_code};

    ghost Value = { List PlainEvent };

    ghost coded = { coded_list event_code };

    ghost view = { λ l. drop l.gone l.items.items };

    ghost invariant = { λ l. l.gone ≤ length l.items.items };
}

impl EventList {
    /// No events.
    pub fn new(alloc: Global) -> EventList
        ensures { result ≡ [] }
    {
        EventList {
            items: Vec::new(alloc),
            gone: 0,
        }
    }

    /// How many there are.
    pub fn len(&self) -> usize
        ensures { result ≡ length self.now }
    {
        self.items.len() - self.gone
    }

    /// Puts an event at the end, or gives it back.
    pub fn push(&mut self, event: Event) -> Result<(), AllocFailed<Event>>
        ensures pushed { OnOk result (self.new ≡ self.old ++ event ∷ []) }
        ensures failed { OnErr result (self.new ≡ self.old) }
        ensures returned { IfErr result (λ y. y.value ≡ event) }
    {
        self.items.push(event)
    }

    /// Lets the event at this place go, if one is named.
    pub fn without(&mut self, place: Option<u32>)
        requires { IfSome place (λ i. i < length self.old) }
        ensures { self.new ≡ without self.old place }
    {
        if let Some(place) = place {
            if place == 0 {
                self.pass();
            } else {
                let _event = self.items.remove(self.gone + place as usize);
            }
        }
    }

    /// Lets the first event go. Takes no memory, and a constant for each event that was put in.
    fn pass(&mut self)
        requires { 0 < length self.old }
        ensures { self.new ≡ remove self.old 0 }
    {
        self.gone += 1;
        if self.gone > self.items.len() / 2 {
            self.clear();
        }
    }

    /// Clears away those that were let go.
    fn clear(&mut self)
        ensures { self.new ≡ self.old }
    {
        let left = self.items.len() - self.gone;
        self.items.rotate_left(self.gone);
        self.items.truncate(left);
        self.gone = 0;
    }

    /// The events, in order.
    pub fn as_slice(&self) -> &[Event]
        ensures { result.now ≡ self.now }
    {
        &self.items[self.gone..]
    }
}
