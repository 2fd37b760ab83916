//! What is to be run.
ghost use Rattle.std.specs.Prelude.{◌≡◌, ◌∷◌, ◌++◌, [], OnOk, length, ◌==◌, map};
ghost use Rattle.bp_floor.specs.inner.Entries.{entry_seen};

use bp_log::Memory;
use js_value::Value;
use std::alloc::Global;
use std::marker::Model;

/// A handler's function, and the event at which it runs, as its argument.
pub(crate) struct Handler {
    /// The function.
    pub function: Value,
    /// The event.
    pub argument: Value,
}

impl Drop for Handler {
    fn drop(self) {
        let Handler {
            function: _,
            argument: _,
        } = self;
    }
}

/// What is to be run.
pub(crate) enum Entry {
    /// The top level.
    Top,
    /// The b-thread of this number.
    Runs(u32),
    /// The handler of the b-thread of this number, which was interrupted, if it set one.
    Stops(u32, Option<Handler>),
}

impl Drop for Entry {
    fn drop(self) {
        match self {
            Entry::Top => {}
            Entry::Runs(_) => {}
            Entry::Stops(_, _) => {}
        }
    }
}

/// What is to be run, in order. Contracts see the list, as the definitions do.
pub(crate) struct Wave {
    items: Vec<Entry>,
}

impl Drop for Wave {
    fn drop(self) {
        let Wave { items: _ } = self;
    }
}

impl Model for Wave {
    ghost use Rattle.std.specs.Prelude.{List, map};
    ghost use Rattle.std.specs.Coded.{codes};
    ghost use Rattle.js_data.specs.Codes.{event_code};
    ghost use Rattle.js_value.specs.Codes.{value_code};
    ghost use Rattle.js_meaning.specs.Bodies.{Origin};
    ghost use Rattle.bp_run.specs.Settling as run;
    ghost use Rattle.bp_floor.specs.inner.Entries.{entry_seen};

    ghost Value = { List (run.Entry Origin) };

    ghost coded = { Prim.hlevel (codes, event_code, value_code) };

    ghost view = { λ l. map entry_seen l.items.items };
}

impl Wave {
    /// Nothing is to be run.
    pub fn new(alloc: Global) -> Wave
        ensures { result ≡ [] }
    {
        Wave {
            items: Vec::new(alloc),
        }
    }

    /// Puts an entry at the end.
    pub fn push(&mut self, entry: Entry) -> Result<(), Memory>
        ensures { OnOk result (self.new ≡ self.old ++ entry_seen entry ∷ []) }
    {
        self.items.push(entry)?;
        Ok(())
    }

    /// Whether there is nothing.
    pub fn is_empty(&self) -> bool
        ensures { result ≡ (length self.now == 0) }
    {
        self.items.is_empty()
    }

    /// The entries, in order.
    pub fn as_slice(&self) -> &[Entry]
        ensures { map entry_seen result.now ≡ self.now }
    {
        self.items.as_slice()
    }

    /// The entries, given back.
    pub fn into_vec(self) -> Vec<Entry>
        ensures { map entry_seen result.items ≡ self }
    {
        let Wave { items } = self;
        items
    }
}
