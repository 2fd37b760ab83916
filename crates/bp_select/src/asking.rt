//! What block sets answer.
ghost use Rattle.std.specs.Prelude.{◌≡◌, ◌<◌, ◌^◌, ◌||◌, List, is_some, length, map, IfOk};
ghost use Rattle.js_frames.specs.Places.{plain_ground};
ghost use Rattle.bp_meaning.specs.Membership.{Membership, member};
ghost use Rattle.js_value.specs.Value.{PlainSet};
ghost use Rattle.bp_sets.specs.Answers.{TellsAs};
ghost use Rattle.bp_sets.specs.Asked.{IsAbout};
ghost use Rattle.bp_thread.specs.Views.{stated_set};
ghost use Rattle.bp_run.specs.Selecting.{Live, by_number, blocked, unblocked, first_unblocked, blocker};
ghost use Rattle.bp_live.specs.Lives.{live_of, lent};
ghost use Rattle.bp_select.specs.Answers.{AnswersAs};
ghost use Rattle.bp_select.specs.Blocks.{AreOf};
ghost use Rattle.bp_select.specs.inner.BlockSets.{first_by, known_of};
ghost use Rattle.bp_known.specs.Known.{Sets, IsKnown};
ghost use Rattle.bp_live.specs.Places.{AreInOrder};
ghost use Rattle.bp_select.specs.EmptySets.{is_empty as is_plainly_empty};
ghost use Rattle.bp_live.specs.Tops.{HaveTops};
ghost use Rattle.bp_live.specs.Candidates.{events_in, tops_of};

use crate::SelectFault;
use bp_live::{Candidate, Stated, keep_if};
use bp_log::Memory;
use bp_sets::{Asked, SetFault, contains_as};
use js_data::Event;
use js_frames::Ground;
use js_value::{EventSet, SetTree};
use std::alloc::Global;

/// An answer of a set of the b-thread of this number.
fn named(number: u32, answer: Result<bool, SetFault>) -> Result<bool, SelectFault>
    ensures { (m : Membership) → TellsAs m answer → AnswersAs (λ b. b) (by_number number m) result }
{
    match answer {
        Ok(here) => Ok(here),
        Err(SetFault::Broken(fault, line)) => {
            Err(SelectFault::Set(number, SetFault::Broken(fault, line)))
        }
        Err(SetFault::Spent) => Err(SelectFault::Set(number, SetFault::Spent)),
        Err(SetFault::NotTruth(line)) => Err(SelectFault::Set(number, SetFault::NotTruth(line))),
        Err(SetFault::Memory) => Err(SelectFault::Memory),
    }
}

/// Whether the set that the b-thread of this number states has the event, about which this is kept.
pub(crate) fn ask_as(
    alloc: Global,
    ground: &Ground,
    budget: u64,
    number: u32,
    set: &Option<EventSet>,
    event: &Event,
    asked: &mut Asked,
) -> Result<bool, SelectFault>
    requires { IsAbout (plain_ground ground.now) budget event.now asked.old }
    ensures answer { let has = member (plain_ground ground.now) budget in
        AnswersAs (λ b. b) (by_number number (has (stated_set set.now) event.now)) result }
    ensures about { IsAbout (plain_ground ground.now) budget event.now asked.new }
{
    match set {
        None => Ok(false),
        Some(set) => named(
            number,
            contains_as(alloc, ground, set, event, budget, asked),
        ),
    }
}

/// Whether the set that the b-thread of this number states has the event.
fn ask(
    alloc: Global,
    ground: &Ground,
    budget: u64,
    number: u32,
    set: &Option<EventSet>,
    event: &Event,
) -> Result<bool, SelectFault>
    ensures { let has = member (plain_ground ground.now) budget in
        AnswersAs (λ b. b) (by_number number (has (stated_set set.now) event.now)) result }
{
    ask_as(alloc, ground, budget, number, set, event, &mut Asked::new())
}

/// Whether no event is in the set, without a look at an event.
pub(crate) fn is_empty(set: &Option<EventSet>) -> bool
    ensures { result ≡ is_plainly_empty (stated_set set.now) }
{
    match set {
        None => true,
        Some(set) => is_empty_set(set),
    }
}

/// Whether no event is in the set that is stated, without a look at an event.
pub(crate) fn is_empty_set(set: &EventSet) -> bool
    ensures { result ≡ is_plainly_empty set.now }
{
    match set.tree() {
        SetTree::Nothing => true,
        SetTree::Any(sets) => sets.as_slice().len() == 0,
        _ => false,
    }
}

/// Whether one of the two holds.
fn either(left: bool, right: bool) -> bool
    ensures { result ≡ (left || right) }
{
    left || right
}

/// Whether some b-thread blocks the event. Every one is asked.
fn is_blocked(
    alloc: Global,
    ground: &Ground,
    budget: u64,
    blocking: &[&Stated],
    event: &Event,
) -> Result<bool, SelectFault>
    ensures { let has = member (plain_ground ground.now) budget in
        AnswersAs (λ b. b) (blocked has (map lent blocking.now) event.now) result }
{
    let mut yes = false;
    for stated in blocking {
        let block = &stated.statement.block;
        let here = ask(alloc, ground, budget, stated.number, block, event)?;
        yes = either(yes, here);
    }
    Ok(yes)
}

/// The first of two, or this one where it has the event.
fn first_by(by: Option<u32>, here: bool, number: u32) -> Option<u32>
    ensures { result ≡ first_by by here number }
{
    match by {
        Some(first) => Some(first),
        None => { if here { Some(number) } else { None } }
    }
}

/// The first b-thread that blocks the event. Every one is asked.
pub(crate) fn blocked_by(
    alloc: Global,
    ground: &Ground,
    budget: u64,
    blocking: &[&Stated],
    event: &Event,
) -> Result<Option<u32>, SelectFault>
    requires { AreInOrder (map lent blocking.now) }
    ensures blocked { let has = member (plain_ground ground.now) budget in
        AnswersAs is_some (blocked has (map lent blocking.now) event.now) result }
    ensures known { let base = plain_ground ground.now in (sets : Sets) →
        AreOf (map lent blocking.now) sets →
        IfOk result (λ o. IsKnown base budget sets event.now (known_of o)) }
{
    let mut by = None;
    let mut asked = Asked::new();
    for stated in blocking {
        let block = &stated.statement.block;
        let number = stated.number;
        let here = ask_as(alloc, ground, budget, number, block, event, &mut asked)?;
        by = first_by(by, here, number);
    }
    Ok(by)
}

/// Those of the candidates that nobody blocks, in order.
pub(crate) fn unblocked<'a>(
    alloc: Global,
    ground: &Ground,
    budget: u64,
    blocking: &[&Stated],
    candidates: &[Candidate<'a>],
) -> Result<Vec<Candidate<'a>>, SelectFault>
    ensures events { AnswersAs (λ l. events_in l.items)
        (unblocked (member (plain_ground ground.now) budget) (map lent blocking.now)
        (events_in candidates.now)) result }
    ensures tops { (ts : List (Live PlainSet)) → HaveTops ts (tops_of candidates.now) →
        IfOk result (λ l. HaveTops ts (tops_of l.items)) }
{
    let mut free = Vec::new(alloc);
    for candidate in candidates {
        let blocked = is_blocked(alloc, ground, budget, blocking, candidate.event)?;
        keep_if(&mut free, !blocked, candidate)?;
    }
    Ok(free)
}

/// The first place of the queue whose event nobody blocks. Asking stops there.
pub(crate) fn first_unblocked(
    alloc: Global,
    ground: &Ground,
    budget: u64,
    blocking: &[&Stated],
    queue: &[Event],
) -> Result<Option<u32>, SelectFault>
    requires { length queue.now < 2 ^ 32 }
    ensures { AnswersAs (λ o. o)
        (first_unblocked (member (plain_ground ground.now) budget) (map lent blocking.now) 0
        queue.now) result }
{
    for (place, event) in queue.iter().enumerate() {
        let blocked = is_blocked(alloc, ground, budget, blocking, event)?;
        if !blocked {
            return Ok(Some(place as u32));
        }
    }
    Ok(None)
}

/// The first b-thread that blocks the event. Asking stops there.
pub(crate) fn blocker(
    alloc: Global,
    ground: &Ground,
    budget: u64,
    live: &[Stated],
    event: &Event,
) -> Result<Option<u32>, SelectFault>
    ensures { let has = member (plain_ground ground.now) budget in
        AnswersAs (λ o. o) (blocker has (map live_of live.now) event.now) result }
{
    for stated in live {
        let block = &stated.statement.block;
        let here = ask(alloc, ground, budget, stated.number, block, event)?;
        if here {
            return Ok(Some(stated.number));
        }
    }
    Ok(None)
}
