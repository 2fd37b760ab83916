//! The b-threads that stand at a `bp.sync`, and who of them blocks or requests an event.
ghost use Rattle.std.specs.Prelude.{◌≡◌, ◌++◌, ◌∷◌, [], map, IfOk, OnOk};
ghost use Rattle.std.specs.List.{list_any};
ghost use Rattle.js_data.specs.Event.{same_event};
ghost use Rattle.js_frames.specs.Places.{plain_ground};
ghost use Rattle.bp_meaning.specs.Membership.{Membership, member};
ghost use Rattle.bp_run.specs.Selecting.{candidates, requests};
ghost use Rattle.bp_sets.specs.Answers.{TellsAs};
ghost use Rattle.bp_thread.specs.Views.{stated_set};
ghost use Rattle.bp_explain.specs.Blocking.{says_yes};
ghost use Rattle.bp_explain.specs.Stops.{blocker_names, live_of, requester_names};
ghost use Rattle.bp_explain.specs.inner.Lists.{texts_in, with_all, with_new};

use bp_sets::{SetFault, contains};
use bp_thread::Statement;
use js_data::{Event, Memory, Text};
use js_frames::Ground;
use js_value::EventSet;
use std::alloc::{AllocError, Global};

/// A live b-thread at a `bp.sync`.
#[derive(Clone, Copy)]
pub struct Stop<'a> {
    /// Its number, in the order of registration.
    pub number: u32,
    /// Its name.
    pub name: &'a Text,
    /// The line of the `bp.sync`.
    pub line: u32,
    /// What it states there.
    pub statement: &'a Statement,
}

/// Whether a set says that it has an event. One that is at fault doesn't.
fn yes_of(answer: Result<bool, SetFault>) -> Result<bool, Memory>
    ensures { (m : Membership) → TellsAs m answer → IfOk result (λ b. b ≡ says_yes m) }
{
    match answer {
        Ok(here) => Ok(here),
        Err(SetFault::Broken(_, _)) => Ok(false),
        Err(SetFault::Spent) => Ok(false),
        Err(SetFault::NotTruth(_)) => Ok(false),
        Err(SetFault::Memory) => Err(AllocError),
    }
}

/// Whether the set, if there is one, has the event.
pub(crate) fn has(
    alloc: Global,
    ground: &Ground,
    budget: u64,
    set: &Option<EventSet>,
    event: &Event,
) -> Result<bool, Memory>
    ensures { IfOk result (λ b. b
        ≡ says_yes (member (plain_ground ground.now) budget (stated_set set.now) event.now)) }
{
    match set {
        None => Ok(false),
        Some(set) => yes_of(contains(alloc, ground, set, event, budget)),
    }
}

/// The names of all who block the event, in the order of registration.
pub(crate) fn blockers<'a>(
    alloc: Global,
    ground: &Ground,
    budget: u64,
    stops: &[Stop<'a>],
    event: &Event,
) -> Result<Vec<&'a Text>, Memory>
    ensures { IfOk result (λ l. texts_in l.items
        ≡ blocker_names (member (plain_ground ground.now) budget) stops.now event.now) }
{
    let mut names = Vec::new(alloc);
    for stop in stops {
        if has(alloc, ground, budget, &stop.statement.block, event)? {
            names.push(stop.name)?;
        }
    }
    Ok(names)
}

/// Whether the b-thread requests the event.
pub(crate) fn is_requester(stop: &Stop<'_>, event: &Event) -> bool
    ensures { result ≡ requests event.now (live_of stop.now) }
{
    stop.statement
        .request
        .as_slice()
        .iter()
        .any(|wanted| event.same(wanted))
}

/// The names of all who request the event, in the order of registration.
pub(crate) fn requesters<'a>(
    alloc: Global,
    stops: &[Stop<'a>],
    event: &Event,
) -> Result<Vec<&'a Text>, Memory>
    ensures { IfOk result (λ l. texts_in l.items ≡ requester_names stops.now event.now) }
{
    let mut names = Vec::new(alloc);
    for stop in stops {
        if is_requester(stop, event) {
            names.push(stop.name)?;
        }
    }
    Ok(names)
}

/// Whether the event is among these.
pub(crate) fn is_among(events: &[Event], event: &Event) -> bool
    ensures { result ≡ list_any (same_event event.now) events.now }
{
    events.iter().any(|known| event.same(known))
}

/// The event comes to those before.
pub(crate) fn put(events: &mut Vec<Event>, event: &Event) -> Result<(), Memory>
    ensures { OnOk result (events.new.items ≡ events.old.items ++ event.now ∷ []) }
{
    let event = event.copy()?;
    events.push(event)?;
    Ok(())
}

/// The event comes to those before, unless it is among them.
fn note(events: &mut Vec<Event>, event: &Event) -> Result<(), Memory>
    ensures { OnOk result (events.new.items ≡ with_new events.old.items event.now) }
{
    if is_among(events.as_slice(), event) {
        return Ok(());
    }
    put(events, event)
}

/// What the b-thread requests comes to the events before.
fn note_all(events: &mut Vec<Event>, stop: &Stop<'_>) -> Result<(), Memory>
    ensures { OnOk result (events.new.items
        ≡ with_all events.old.items (live_of stop.now).statement.request) }
{
    for event in stop.statement.request.as_slice() {
        note(events, event)?;
    }
    Ok(())
}

/// The events that are requested, each once, in the order in which they first appear.
pub(crate) fn candidates(alloc: Global, stops: &[Stop<'_>]) -> Result<Vec<Event>, Memory>
    ensures { IfOk result (λ l. l.items ≡ candidates (map live_of stops.now)) }
{
    let mut events = Vec::new(alloc);
    for stop in stops {
        note_all(&mut events, stop)?;
    }
    Ok(events)
}
