//! What bodies did.
ghost use Rattle.std.specs.Prelude.{◌≡◌, ◌∷◌, ◌++◌, [], IfOk, OnOk, map};
ghost use Rattle.bp_floor.specs.inner.Parts.{ran_seen};

use crate::Entry;
use bp_log::Memory;
use js_data::{Fault, Text};
use js_frames::Effects;
use std::alloc::Global;
use std::marker::Model;

/// How a body came to a stop; what it states there stays with its job.
#[derive(Drop)]
pub(crate) enum Ending {
    /// At a synchronisation point.
    Stopped,
    /// At its end.
    Ended,
    /// A fault, and its line.
    Broken(Fault, u32),
    /// An assertion failed: its text.
    Violated(Text),
    /// Its budget was spent.
    Spent,
}

/// What a body did, and how it came to a stop.
#[derive(Drop)]
pub(crate) struct Part {
    /// Its effects.
    pub effects: Effects,
    /// How it came to a stop.
    pub ending: Ending,
}

/// An entry, and what its body did.
#[derive(Drop)]
pub(crate) struct Ran {
    /// The entry.
    pub entry: Entry,
    /// What it did.
    pub part: Part,
}

/// Entries with what they did, in order. Contracts see the list, as the definitions do.
pub(crate) struct Rans {
    items: Vec<Ran>,
}

impl Drop for Rans {
    fn drop(self) {
        let Rans { items: _ } = self;
    }
}

impl Model for Rans {
    ghost use Rattle.std.specs.Prelude.{List, map};
    ghost use Rattle.std.specs.Coded.{codes};
    ghost use Rattle.js_data.specs.Codes.{event_code};
    ghost use Rattle.js_value.specs.Codes.{value_code};
    ghost use Rattle.js_meaning.specs.Bodies.{Origin};
    ghost use Rattle.bp_run.specs.Settling as run;
    ghost use Rattle.bp_floor.specs.inner.Parts.{ran_seen};

    ghost Value = { List (run.Ran Origin (Unit {0})) };

    ghost coded = { Prim.hlevel (codes, event_code, value_code) };

    ghost view = { λ l. map ran_seen l.items.items };
}

impl Rans {
    /// Nothing ran; there is room for this many.
    pub fn with_capacity(alloc: Global, count: usize) -> Result<Rans, Memory>
        ensures { IfOk result (λ rans. rans ≡ []) }
    {
        Ok(Rans {
            items: Vec::with_capacity(alloc, count)?,
        })
    }

    /// Puts one at the end.
    pub fn push(&mut self, ran: Ran) -> Result<(), Memory>
        ensures { OnOk result (self.new ≡ self.old ++ ran_seen ran ∷ []) }
    {
        self.items.push(ran)?;
        Ok(())
    }

    /// Those that ran, given back.
    pub fn into_vec(self) -> Vec<Ran>
        ensures { map ran_seen result.items ≡ self }
    {
        let Rans { items } = self;
        items
    }
}
