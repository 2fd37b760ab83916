//! What a script does to the run around it.
ghost use Rattle.std.specs.Prelude.{◌≡◌, ◌++◌, ◌∷◌, [], OnOk};
ghost use Rattle.js_frames.specs.Places.{plain_effect, plain_effects};

use js_data::{Event, Memory, Text};
use js_value::Value;
use std::alloc::Global;

/// What a script does to the run around it.
#[derive(Drop)]
pub enum Effect {
    /// A line for the log.
    Line(Text),
    /// An event at the end of the queue.
    Enqueue(Event),
    /// A b-thread of this name, and its function.
    Register(Text, Value),
    /// The function that runs when the b-thread is interrupted.
    Handler(Value),
}

/// Effects in order.
#[derive(Drop)]
pub struct Effects {
    pub items: Vec<Effect>,
}

impl Effects {
    /// No effects.
    pub fn new(alloc: Global) -> Effects
        ensures { plain_effects result ≡ [] }
    {
        Effects {
            items: Vec::new(alloc),
        }
    }

    /// No effects any more.
    pub(crate) fn clear(&mut self)
        ensures { plain_effects self.new ≡ [] }
    {
        self.items.clear();
    }

    /// One more effect.
    pub fn push(&mut self, effect: Effect) -> Result<(), Memory>
        ensures { OnOk result
            (plain_effects self.new ≡ plain_effects self.old ++ plain_effect effect ∷ []) }
    {
        self.items.push(effect)?;
        Ok(())
    }
}
