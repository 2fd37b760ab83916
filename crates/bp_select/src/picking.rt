//! Those of the b-threads that request something, and those that block something.
ghost use Rattle.std.specs.Prelude.{◌≡◌, ◌<◌, ◌⊎◌, ◌++◌, ◌∷◌, [], ℕ, Bool, if◌then◌else◌, get_or, length, map, not, true, IfOk, OnOk};
ghost use Rattle.std.specs.List.Sorted.{IsNonDecreasing};
ghost use Rattle.js_value.specs.Value.{PlainSet};
ghost use Rattle.bp_run.specs.Selecting.{Live};
ghost use Rattle.bp_roll.specs.Rolls.{is_in};
ghost use Rattle.bp_live.specs.declared.stated.Stated.{Stated};
ghost use Rattle.bp_live.specs.Lives.{live_of, lent};
ghost use Rattle.bp_select.specs.inner.Parts.{IsPart, asks_nothing, blocks_nothing};

use crate::asking::is_empty;
use crate::reaching::is_between;
use bp_live::Stated;
use bp_log::Memory;
use std::alloc::Global;

/// Whether the b-thread requests something.
pub(crate) fn asks(stated: &Stated) -> bool
    ensures { result ≡ not (asks_nothing (live_of stated.now)) }
{
    !stated.statement.request.as_slice().is_empty()
}

/// Whether the b-thread blocks something.
pub(crate) fn blocks(stated: &Stated) -> bool
    ensures { result ≡ not (blocks_nothing (live_of stated.now)) }
{
    !is_empty(&stated.statement.block)
}

/// Keeps the b-thread if this holds.
fn keep<'a>(kept: &mut Vec<&'a Stated>, keeps: bool, stated: &'a Stated) -> Result<(), Memory>
    ensures { let more = map lent kept.old.items ++ live_of stated.now ∷ [] in OnOk result
        (map lent kept.new.items ≡ (if keeps then more else map lent kept.old.items)) }
{
    if !keeps {
        return Ok(());
    }
    kept.push(stated)?;
    Ok(())
}

/// Those that request something, where each is looked at.
pub(crate) fn all_asking<'a>(alloc: Global, live: &'a [Stated]) -> Result<Vec<&'a Stated>, Memory>
    ensures { IfOk result (λ l. IsPart asks_nothing (map lent l.items) (map live_of live.now)) }
{
    let mut asking = Vec::new(alloc);
    for stated in live {
        keep(&mut asking, asks(stated), stated)?;
    }
    Ok(asking)
}

/// Those that block something, where each is looked at.
pub(crate) fn all_blocking<'a>(alloc: Global, live: &'a [Stated]) -> Result<Vec<&'a Stated>, Memory>
    ensures { IfOk result (λ l. IsPart blocks_nothing (map lent l.items) (map live_of live.now)) }
{
    let mut blocking = Vec::new(alloc);
    for stated in live {
        keep(&mut blocking, blocks(stated), stated)?;
    }
    Ok(blocking)
}

/// Those at these places.
pub(crate) fn part_at<'a>(
    alloc: Global,
    live: &'a [Stated],
    places: &[usize],
) -> Result<Vec<&'a Stated>, Memory>
    requires { IsNonDecreasing places.now }
    ensures { (p : Live PlainSet → Bool) → ((i : ℕ) (d : Stated) → i < length live.now →
        (is_in i places.now ≡ true) ⊎ (p (live_of (get_or live.now i d)) ≡ true)) →
        IfOk result (λ l. IsPart p (map lent l.items) (map live_of live.now)) }
{
    let mut those = Vec::with_capacity(alloc, places.len())?;
    let mut done = 0;
    for place in places {
        if is_between(*place, done, live.len()) {
            those.push(&live[*place])?;
            done = *place + 1;
        }
    }
    Ok(those)
}
