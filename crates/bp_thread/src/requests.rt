//! The events that a statement requests.
ghost use Rattle.std.specs.Prelude.{◌≡◌, [], IfOk};

use crate::events::Events;
use js_data::{Event, Memory};
use std::alloc::Global;
use std::marker::Model;
use std::sync::Arc;

/// The events that a statement requests, in order, which its copies share. Contracts see the list.
#[derive(Drop)]
pub struct Requests {
    /// `None` is no events, and so is an empty list.
    shared: Option<Arc<Events>>,
}

impl Model for Requests {
    ghost use Rattle.std.specs.Prelude.{List};
    ghost use Rattle.std.specs.Coded.{coded_list};
    ghost use Rattle.js_data.specs.Event.{PlainEvent};
    ghost use Rattle.js_data.specs.Codes.{event_code};
    ghost use Rattle.bp_thread.specs.Shared.{events_shared};

    ghost Value = { List PlainEvent };

    ghost coded = { coded_list event_code };

    ghost view = { λ r. events_shared r.shared };
}

impl Requests {
    /// No events.
    pub fn none() -> Requests
        ensures { result ≡ [] }
    {
        Requests { shared: None }
    }

    /// These events.
    pub fn new(alloc: Global, events: Events) -> Result<Requests, Memory>
        ensures { IfOk result (λ r. r ≡ events) }
    {
        let shared = Some(Arc::new(alloc, events)?);
        Ok(Requests { shared })
    }

    /// The events, in order.
    pub fn as_slice(&self) -> &[Event]
        ensures { result.now ≡ self.now }
    {
        match &self.shared {
            None => &[],
            Some(events) => events.as_slice(),
        }
    }

    /// The same events, which are shared.
    pub fn copy(&self) -> Result<Requests, Memory>
        ensures { IfOk result (λ r. r ≡ self.now) }
    {
        let shared = match &self.shared {
            None => None,
            Some(events) => Some(events.clone()?),
        };
        Ok(Requests { shared })
    }
}
