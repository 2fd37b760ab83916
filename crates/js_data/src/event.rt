//! Events.
ghost use Rattle.std.specs.Prelude.{◌≡◌, ◌+◌, ◌<◌, ◌≤◌, ◌↔◌, IsTrue, IfOk, Err, option_map, true};
ghost use Rattle.std.specs.Str.{is_utf8};
ghost use Rattle.js_data.specs.Capped.{capped};
ghost use Rattle.js_data.specs.Event.{PlainEvent, IsEvent, event_weight, event_nesting, extra_weight, extra_nesting, IsSortedExtra, IsHeldExtra, same_event as event_is_same, same_extra as extra_is_same};
ghost use Rattle.js_data.specs.Views.{plain_data, plain_event};

use crate::Memory;
use crate::data::{Data, are_equal, copy_data, data_nesting, data_weight, text_weight};
use crate::text::Text;
use std::marker::Model;
use thiserror::Error;

/// A name, and perhaps data. Contracts see an event as its plain form.
///
/// Its type keeps that its weight is at most 1,024 and its nesting at most 64, and that the keys of
/// fields are sorted by their bytes and distinct at every level of its data.
#[derive(Debug)]
pub struct Event {
    name: Text,
    extra: Option<Data>,
}

impl Drop for Event {
    fn drop(self) {
        let Event { name: _, extra: _ } = self;
    }
}

impl Model for Event {
    ghost use Rattle.js_data.specs.Event.{PlainEvent};
    ghost use Rattle.js_data.specs.Codes.{event_code};

    ghost Value = { PlainEvent };

    ghost coded = { event_code };

    ghost use Rattle.js_data.specs.Event.{IsEvent};
    ghost use Rattle.js_data.specs.Views.{plain_event};

    ghost view = { λ e. plain_event e.name e.extra };

    ghost invariant = { λ e. IsEvent (plain_event e.name e.extra) };
}

/// Why a name and data are no event.
#[derive(Debug, Clone, Copy, Error)]
pub enum TooHeavy {
    /// The weight passes 1,024.
    #[error("the event weighs more than 1024")]
    Weight,
    /// The weight is at most 1,024, and the nesting passes 64.
    #[error("the event is nested more than 64 deep")]
    Nesting,
}

fn extra_weight_of(extra: &Option<Data>) -> u64
    ensures held { IsHeldExtra (option_map plain_data extra.now) }
    ensures weight { result ≡ capped (extra_weight (option_map plain_data extra.now)) }
{
    match extra {
        None => 0,
        Some(tree) => data_weight(tree),
    }
}

fn extra_nesting_of(extra: &Option<Data>) -> u64
    ensures { result ≡ capped (extra_nesting (option_map plain_data extra.now)) }
{
    match extra {
        None => 1,
        Some(tree) => data_nesting(tree),
    }
}

/// The weight of an event of this name and data, or the greatest u64 where it is more.
fn weight_of(name: &Text, extra: &Option<Data>) -> u64
    ensures utf8 { is_utf8 name.now ≡ true }
    ensures held { IsHeldExtra (option_map plain_data extra.now) }
    ensures weight { result ≡ capped (event_weight (plain_event name.now extra.now)) }
{
    let parts = text_weight(name).saturating_add(extra_weight_of(extra));
    parts.saturating_add(1)
}

/// The nesting of an event of this data, or the greatest u64 where it is more.
fn nesting_of(extra: &Option<Data>) -> u64
    ensures { result ≡ capped (1 + extra_nesting (option_map plain_data extra.now)) }
{
    extra_nesting_of(extra).saturating_add(1)
}

impl Event {
    /// The greatest weight of an event.
    pub const MOST_WEIGHT: u64 = 1024;

    /// The greatest nesting of an event.
    pub const MOST_NESTING: u64 = 64;

    /// The event of this name and data.
    ///
    /// # Errors
    ///
    /// `Weight` exactly where the weight passes 1,024; `Nesting` exactly where it does not and the
    /// nesting passes 64.
    pub fn new(name: Text, extra: Option<Data>) -> Result<Event, TooHeavy>
        requires { IsSortedExtra (option_map plain_data extra) }
        ensures made { IfOk result (λ e. e ≡ plain_event name extra) }
        ensures weight { (result ≡ Err TooHeavy.Weight)
            ↔ (Event.MOST_WEIGHT < event_weight (plain_event name extra)) }
        ensures nesting { (result ≡ Err TooHeavy.Nesting)
            ↔ ((event_weight (plain_event name extra) ≤ Event.MOST_WEIGHT)
            × (Event.MOST_NESTING < event_nesting (plain_event name extra))) }
    {
        if weight_of(&name, &extra) > Event::MOST_WEIGHT {
            return Err(TooHeavy::Weight);
        }
        if nesting_of(&extra) > Event::MOST_NESTING {
            return Err(TooHeavy::Nesting);
        }
        Ok(Event { name, extra })
    }

    /// The weight of the event.
    pub fn weight(&self) -> u64
        ensures { result ≡ capped (event_weight self.now) }
    {
        weight_of(&self.name, &self.extra)
    }

    /// The nesting of the event.
    pub fn nesting(&self) -> u64
        ensures { result ≡ capped (event_nesting self.now) }
    {
        nesting_of(&self.extra)
    }

    /// What each event keeps, as a fact for its callers. Does nothing.
    pub fn keeps(&self)
        ensures { IsEvent self.now }
    {
        // Reads a field for the proof alone: so what the type keeps is known.
        let _name = &self.name;
    }

    /// The name.
    pub fn name(&self) -> &Text
        ensures { result.now ≡ self.now.name }
    {
        &self.name
    }

    /// The data, if the event has any.
    pub fn data(&self) -> Option<&Data>
        ensures { option_map (λ d. plain_data d.now) result ≡ self.now.extra }
    {
        self.extra.as_ref()
    }

    /// The name and the data, if the event has any, given back.
    pub fn into_parts(self) -> (Text, Option<Data>)
        ensures kept { IsEvent self }
        ensures name { result.0 ≡ self.name }
        ensures extra { option_map plain_data result.1 ≡ self.extra }
    {
        let Event { name, extra } = self;
        (name, extra)
    }

    /// Whether the names are equal, and both are without data or have equal data.
    pub fn same(&self, other: &Event) -> bool
        ensures same { result ≡ event_is_same self.now other.now }
        ensures equal { IsTrue result ↔ (self.now ≡ other.now) }
    {
        self.name.same(&other.name) && same_extra(&self.extra, &other.extra)
    }

    /// An equal event.
    pub fn copy(&self) -> Result<Event, Memory>
        ensures { IfOk result (λ e. e ≡ self.now) }
    {
        let name = self.name.copy()?;
        let extra = copy_extra(&self.extra)?;
        Ok(Event { name, extra })
    }
}

fn same_extra(left: &Option<Data>, right: &Option<Data>) -> bool
    ensures { result
        ≡ extra_is_same (option_map plain_data left.now) (option_map plain_data right.now) }
{
    match (left, right) {
        (None, None) => true,
        (Some(a), Some(b)) => are_equal(a, b),
        _ => false,
    }
}

fn copy_extra(extra: &Option<Data>) -> Result<Option<Data>, Memory>
    ensures { IfOk result (λ e. option_map plain_data e ≡ option_map plain_data extra.now) }
{
    match extra {
        None => Ok(None),
        Some(tree) => Ok(Some(copy_data(tree)?)),
    }
}
