//! Which of the events that can be selected a strategy leaves.
ghost use Rattle.std.specs.Prelude.{◌≡◌, map, IfOk};
ghost use Rattle.std.specs.List.{list_any};
ghost use Rattle.bp_run.specs.Choosing.{at_most, greater, is_first_of, is_greatest, priority_of, remaining};
ghost use Rattle.bp_explain.specs.Stops.{live_of};
ghost use Rattle.bp_explain.specs.inner.Leaving.{leaves};

use crate::stops::{Stop, is_among, is_requester, put};
use bp_log::Strategy;
use js_data::{Event, Memory};
use std::alloc::Global;

/// Whether the event is the first of the b-thread's requests that are among these.
fn is_first_of(inner: &[Event], event: &Event, stop: &Stop<'_>) -> bool
    ensures { result ≡ is_first_of inner.now event.now (live_of stop.now) }
{
    for request in stop.statement.request.as_slice() {
        if is_among(inner, request) {
            return request.same(event);
        }
    }
    false
}

/// Whether the event is so for some b-thread.
fn is_first(inner: &[Event], event: &Event, stops: &[Stop<'_>]) -> bool
    ensures { result
        ≡ list_any (λ s. is_first_of inner.now event.now (live_of s)) stops.now }
{
    stops.iter().any(|stop| is_first_of(inner, event, stop))
}

/// The greater of a priority and one that may be there.
fn greater(priority: i64, top: Option<i64>) -> Option<i64>
    ensures { result ≡ greater priority top }
{
    match top {
        None => Some(priority),
        Some(top) => Some(if priority <= top { top } else { priority }),
    }
}

/// The greatest priority with which the event is requested.
fn priority_of(stops: &[Stop<'_>], event: &Event) -> Option<i64>
    ensures { result ≡ priority_of (map live_of stops.now) event.now }
{
    let mut top = None;
    let mut place = stops.len();
    while place > 0 {
        place -= 1;
        let stop = &stops[place];
        if is_requester(stop, event) {
            top = greater(stop.statement.priority.get(), top);
        }
    }
    top
}

/// Whether the first priority is at most the second.
fn at_most(left: Option<i64>, right: Option<i64>) -> bool
    ensures { result ≡ at_most left right }
{
    match (left, right) {
        (None, _) => true,
        (Some(_), None) => false,
        (Some(left), Some(right)) => left <= right,
    }
}

/// Whether no other event is requested with a greater priority.
fn is_greatest(inner: &[Event], event: &Event, stops: &[Stop<'_>]) -> bool
    ensures { result ≡ is_greatest (map live_of stops.now) inner.now event.now }
{
    let priority = priority_of(stops, event);
    inner
        .iter()
        .all(|other| at_most(priority_of(stops, other), priority))
}

/// Whether the strategy leaves the event.
fn leaves(strategy: Strategy, inner: &[Event], event: &Event, stops: &[Stop<'_>]) -> bool
    ensures { result ≡ leaves strategy stops.now inner.now event.now }
{
    match strategy {
        Strategy::Simple => true,
        Strategy::Ordered => is_first(inner, event, stops),
        Strategy::Priority => is_greatest(inner, event, stops),
    }
}

/// The events that the strategy leaves of those that can be selected, in order. Its only error is want
/// of memory.
pub(crate) fn left_of(
    alloc: Global,
    strategy: Strategy,
    inner: &[Event],
    stops: &[Stop<'_>],
) -> Result<Vec<Event>, Memory>
    ensures { IfOk result (λ l. l.items ≡ remaining strategy (map live_of stops.now) inner.now) }
{
    let mut left = Vec::new(alloc);
    for event in inner {
        if leaves(strategy, inner, event, stops) {
            put(&mut left, event)?;
        }
    }
    Ok(left)
}
