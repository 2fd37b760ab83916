//! Under which keys a b-thread is noted, so that it is found by each event that touches it.
ghost use Rattle.std.specs.Prelude.{◌≡◌, ℕ, true, IfOk, OnOk};
ghost use Rattle.std.specs.List.{list_any};
ghost use Rattle.js_data.specs.Event.{PlainEvent, same_event};
ghost use Rattle.js_value.specs.Views.{set_list_of};
ghost use Rattle.js_value.specs.Value.{PlainSet, any as any_of};
ghost use Rattle.bp_run.specs.Selecting.{Live};
ghost use Rattle.bp_thread.specs.Views.{stated_set};
ghost use Rattle.bp_roll.specs.Rolls.{is_in};
ghost use Rattle.bp_roll.specs.Feeding.{event_key};
ghost use Rattle.bp_select.specs.inner.Heeding.{HaveKeysOf, HeedsAt, TouchedAt};
ghost use Rattle.bp_live.specs.Lives.{live_of};

use crate::picking::{asks, blocks};
use bp_live::Stated;
use bp_log::Memory;
use bp_roll::hash_of;
use js_data::Event;
use js_value::{EventSet, SetTree};
use std::alloc::Global;

/// The key of those that any event may touch.
pub(crate) const ANY: u64 = 0;

/// The key of those that request something.
pub(crate) const ASKS: u64 = 1;

/// The key of those that block something.
pub(crate) const BLOCKS: u64 = 2;

/// Adds the keys of the events of a set, and tells whether it is made of single events alone.
#[cycle(add)]
fn add_set(keys: &mut Vec<u64>, set: &EventSet) -> Result<bool, Memory>
    ensures set { IfOk result (λ b. b ≡ true → HaveKeysOf set.now keys.new.items) }
    ensures others { (k : ℕ) → is_in k keys.old.items ≡ true → is_in k keys.new.items ≡ true }
{
    match set.tree() {
        SetTree::Only(event) => {
            keys.push(hash_of(event))?;
            Ok(true)
        }
        SetTree::Any(sets) => add_sets(keys, sets.as_slice()),
        SetTree::Or(left, right) => {
            let single = add_set(keys, left)?;
            if !single {
                return Ok(false);
            }
            add_set(keys, right)
        }
        SetTree::Nothing => Ok(true),
        _ => Ok(false),
    }
}

/// Adds the keys of the events of some sets, and tells whether all are made of single events alone.
#[cycle(add)]
fn add_sets(keys: &mut Vec<u64>, sets: &[EventSet]) -> Result<bool, Memory>
    ensures set { IfOk result (λ b. b ≡ true →
        HaveKeysOf (any_of (set_list_of sets.now)) keys.new.items) }
    ensures others { (k : ℕ) → is_in k keys.old.items ≡ true → is_in k keys.new.items ≡ true }
{
    for set in sets {
        let single = add_set(keys, set)?;
        if !single {
            return Ok(false);
        }
    }
    Ok(true)
}

/// Adds the keys of the events of a set that a b-thread may state, and tells whether it is made of
/// single events alone.
fn add_stated(keys: &mut Vec<u64>, set: &Option<EventSet>) -> Result<bool, Memory>
    ensures set { IfOk result (λ b. b ≡ true → HaveKeysOf (stated_set set.now) keys.new.items) }
    ensures others { (k : ℕ) → is_in k keys.old.items ≡ true → is_in k keys.new.items ≡ true }
{
    match set {
        None => Ok(true),
        Some(set) => add_set(keys, set),
    }
}

/// Adds the keys of these events.
fn add_events(keys: &mut Vec<u64>, events: &[Event]) -> Result<(), Memory>
    ensures events { OnOk result ((e : PlainEvent) → list_any (same_event e) events.now ≡ true →
        is_in (event_key e) keys.new.items ≡ true) }
    ensures others { (k : ℕ) → is_in k keys.old.items ≡ true → is_in k keys.new.items ≡ true }
{
    for event in events {
        keys.push(hash_of(event))?;
    }
    Ok(())
}

/// The key of those that any event may touch, alone.
fn any_alone(alloc: Global) -> Result<Vec<u64>, Memory>
    ensures { (t : Live PlainSet) → IfOk result (λ ks. TouchedAt (λ k. is_in k ks.items) t) }
{
    let mut keys = Vec::new(alloc);
    keys.push(ANY)?;
    Ok(keys)
}

/// The keys under which the b-thread is found by each event that touches it.
fn touch_keys(alloc: Global, stated: &Stated) -> Result<Vec<u64>, Memory>
    ensures { IfOk result (λ ks. TouchedAt (λ k. is_in k ks.items) (live_of stated.now)) }
{
    let states = &stated.statement;
    let mut keys = Vec::new(alloc);
    let waits = add_stated(&mut keys, &states.wait_for)?;
    if !waits {
        return any_alone(alloc);
    }
    let interrupts = add_stated(&mut keys, &states.interrupt)?;
    if !interrupts {
        return any_alone(alloc);
    }
    add_events(&mut keys, states.request.as_slice())?;
    Ok(keys)
}

/// Adds the key if this holds.
fn add_if(keys: &mut Vec<u64>, adds: bool, key: u64) -> Result<(), Memory>
    ensures there { OnOk result (adds ≡ true → is_in key keys.new.items ≡ true) }
    ensures others { (k : ℕ) → is_in k keys.old.items ≡ true → is_in k keys.new.items ≡ true }
{
    if adds {
        keys.push(key)?;
    }
    Ok(())
}

/// The keys under which the b-thread is noted.
pub(crate) fn keys_of(alloc: Global, stated: &Stated) -> Result<Vec<u64>, Memory>
    ensures { IfOk result (λ ks. HeedsAt (λ k. is_in k ks.items) (live_of stated.now)) }
{
    let mut keys = touch_keys(alloc, stated)?;
    add_if(&mut keys, asks(stated), ASKS)?;
    add_if(&mut keys, blocks(stated), BLOCKS)?;
    Ok(keys)
}
