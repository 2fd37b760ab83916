//! Which of the selectable events remain under a strategy.
ghost use Rattle.std.specs.Prelude.{◌≡◌, ℤ, Option, List, map, filter, option_map, find, IfOk};
ghost use Rattle.std.specs.List.{list_all, list_any};
ghost use Rattle.js_data.specs.Event.{PlainEvent, same_event};
ghost use Rattle.js_value.specs.Value.{PlainSet};
ghost use Rattle.bp_run.specs.Selecting.{Live};
ghost use Rattle.bp_run.specs.Choosing.{is_first_of, greater, priority_of, at_most, is_greatest, remaining};
ghost use Rattle.bp_live.specs.Lives.{lent, live_of};
ghost use Rattle.bp_live.specs.Tops.{HaveTops};
ghost use Rattle.bp_live.specs.Candidates.{events_in, tops_of, is_among, is_first};

use crate::candidate::{Candidate, keep_if};
use crate::stated::Stated;
use bp_log::{Memory, Strategy};
use bp_roll::Key;
use indexmap::IndexSet;
use js_data::Event;
use std::alloc::Global;

/// The events of the candidates.
fn keys<'a>(alloc: Global, candidates: &[Candidate<'a>]) -> Result<IndexSet<Key<'a>>, Memory>
    ensures { (e : PlainEvent) → IfOk result
        (λ s. is_among s e ≡ list_any (same_event e) (events_in candidates.now)) }
{
    let mut events = IndexSet::new(alloc);
    for candidate in candidates {
        events.insert(Key {
            event: candidate.event,
        })?;
    }
    Ok(events)
}

/// The first request of the b-thread that is among these events.
fn first_among<'a>(events: &IndexSet<Key<'a>>, stated: &'a Stated) -> Option<&'a Event>
    ensures { option_map (λ e. e.now) result ≡ find (is_among events.now)
        (live_of stated.now).statement.request }
{
    for request in stated.statement.request.as_slice() {
        if events.contains(&Key { event: request }) {
            return Some(request);
        }
    }
    None
}

/// Each first request of a b-thread that is among these events.
fn firsts<'a>(
    alloc: Global,
    asking: &[&'a Stated],
    events: &IndexSet<Key<'a>>,
) -> Result<IndexSet<Key<'a>>, Memory>
    ensures { (e : PlainEvent) → IfOk result
        (λ s. is_among s e ≡ list_any (is_first (is_among events.now) e) (map lent asking.now)) }
{
    let mut firsts = IndexSet::new(alloc);
    for stated in asking {
        if let Some(event) = first_among(events, *stated) {
            firsts.insert(Key { event })?;
        }
    }
    Ok(firsts)
}

/// Those of the candidates that are the first of some b-thread.
fn ordered<'a>(
    alloc: Global,
    asking: &[&'a Stated],
    inner: &[Candidate<'a>],
) -> Result<Vec<Candidate<'a>>, Memory>
    ensures events { let events = events_in inner.now in
        IfOk result (λ l. events_in l.items
        ≡ filter (λ e. list_any (is_first_of events e) (map lent asking.now)) events) }
    ensures tops { (ts : List (Live PlainSet)) → HaveTops ts (tops_of inner.now) →
        IfOk result (λ l. HaveTops ts (tops_of l.items)) }
{
    let events = keys(alloc, inner)?;
    let firsts = firsts(alloc, asking, &events)?;
    let mut kept = Vec::new(alloc);
    for candidate in inner {
        let first = firsts.contains(&Key {
            event: candidate.event,
        });
        keep_if(&mut kept, first, candidate)?;
    }
    Ok(kept)
}

/// The greater of a priority and one that may be there.
fn greater(priority: i64, top: Option<i64>) -> Option<i64>
    ensures { result ≡ greater priority top }
{
    match top {
        None => Some(priority),
        Some(top) => Some(if priority <= top { top } else { priority }),
    }
}

/// The greatest priority of the candidates.
fn top_of(candidates: &[Candidate<'_>]) -> Option<i64>
    ensures { (ts : List (Live PlainSet)) → HaveTops ts (tops_of candidates.now) →
        (q : Option ℤ) → at_most result q
        ≡ list_all (λ e. at_most (priority_of ts e) q) (events_in candidates.now) }
{
    let mut top = None;
    for candidate in candidates {
        top = greater(candidate.top, top);
    }
    top
}

/// Whether the first priority is at most the second.
fn at_most(left: Option<i64>, right: Option<i64>) -> bool
    ensures { result ≡ at_most left right }
{
    match left {
        None => true,
        Some(a) => match right {
            None => false,
            Some(b) => a <= b,
        },
    }
}

/// Those of the candidates whose priority is the greatest.
fn greatest<'a>(alloc: Global, inner: &[Candidate<'a>]) -> Result<Vec<Candidate<'a>>, Memory>
    ensures events { let events = events_in inner.now in
        (ts : List (Live PlainSet)) → HaveTops ts (tops_of inner.now) →
        IfOk result (λ l. events_in l.items
        ≡ filter (is_greatest ts events) events) }
    ensures tops { (ts : List (Live PlainSet)) → HaveTops ts (tops_of inner.now) →
        IfOk result (λ l. HaveTops ts (tops_of l.items)) }
{
    let top = top_of(inner);
    let mut kept = Vec::new(alloc);
    for candidate in inner {
        let reaches = at_most(top, Some(candidate.top));
        keep_if(&mut kept, reaches, candidate)?;
    }
    Ok(kept)
}

/// The candidates that remain under the strategy, in order, each with its greatest priority. Its only
/// error is out of memory.
pub fn remaining<'a>(
    alloc: Global,
    strategy: Strategy,
    asking: &[&'a Stated],
    inner: Vec<Candidate<'a>>,
) -> Result<Vec<Candidate<'a>>, Memory>
    requires { HaveTops (map lent asking.now) (tops_of inner.items) }
    ensures events { let events = events_in inner.entry.items in
        IfOk result (λ l. events_in l.items ≡ remaining strategy (map lent asking.now) events) }
    ensures tops { IfOk result (λ l. HaveTops (map lent asking.now) (tops_of l.items)) }
{
    match strategy {
        Strategy::Simple => Ok(inner),
        Strategy::Ordered => ordered(alloc, asking, inner.as_slice()),
        Strategy::Priority => greatest(alloc, inner.as_slice()),
    }
}
