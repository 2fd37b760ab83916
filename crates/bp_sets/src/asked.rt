//! What is kept of an event while sets are asked about it.
ghost use Rattle.std.specs.Prelude.{◌≡◌, ℕ, Ok, IfOk, IfSome};
ghost use Rattle.js_data.specs.Event.{PlainEvent};
ghost use Rattle.js_meaning.specs.State.{Ground as Base};
ghost use Rattle.js_value.specs.Value as of_value;
ghost use Rattle.js_value.specs.Views.{plain_value};
ghost use Rattle.bp_meaning.specs.Membership.{asks_predicate};
ghost use Rattle.bp_sets.specs.Asked.{IsAbout, IsAnswer, IsValue};

use js_data::{Event, Memory};
use js_frames::Machine;
use js_value::{Value, copy, event_value};
use std::alloc::Global;

/// What a predicate that captured nothing answered.
#[derive(Clone, Copy)]
pub(crate) struct Answer {
    /// Its function.
    pub code: u32,
    /// What it answered.
    pub yes: bool,
}

/// What is kept while sets are asked about one event, so that the event is made a value once, and a
/// predicate that captured nothing is not asked twice, one time after the other.
#[derive(Drop)]
pub struct Asked {
    /// The event as a value, once a predicate was asked.
    pub(crate) value: Option<Value>,
    /// What the last predicate that captured nothing answered.
    pub(crate) answer: Option<Answer>,
    /// The machine that ran the last predicate: its room serves the next, whatever the event.
    pub(crate) machine: Option<Machine>,
}

impl Asked {
    /// Nothing was asked.
    pub fn new() -> Asked
        ensures { (base : Base) (budget : ℕ) (e : PlainEvent) → IsAbout base budget e result }
    {
        Asked {
            value: None,
            answer: None,
            machine: None,
        }
    }

    /// Nothing was asked about the event that comes. What is kept of another is let go.
    pub fn forget(&mut self)
        ensures { (base : Base) (budget : ℕ) (e : PlainEvent) → IsAbout base budget e self.new }
    {
        self.value = None;
        self.answer = None;
    }
}

/// The event as a value, which is made where it is not kept.
pub(crate) fn value_of(
    alloc: Global,
    kept: &mut Option<Value>,
    event: &Event,
) -> Result<Value, Memory>
    requires { IsValue event.now kept.old }
    ensures kept { IsValue event.now kept.new }
    ensures value { IfOk result (λ v. plain_value v ≡ of_value.event event.now) }
{
    if let Some(value) = kept {
        return copy(value);
    }
    let value = event_value(alloc, event.copy()?)?;
    *kept = Some(copy(&value)?);
    Ok(value)
}

/// What the predicate of this function answered, if that is kept.
pub(crate) fn known(answer: Option<Answer>, code: u32) -> Option<bool>
    ensures { (base : Base) (budget : ℕ) (e : PlainEvent) → IsAnswer base budget e answer →
        IfSome result (λ yes. asks_predicate base budget code of_value.no_values e ≡ Ok yes) }
{
    let answer = answer?;
    if answer.code != code {
        return None;
    }
    Some(answer.yes)
}
