//! What can be selected, and which of it is chosen.
ghost use Rattle.std.specs.Prelude.{◌≡◌, ◌<◌, ◌≤◌, ◌+◌, ◌^◌, ℕ, [], List, Ok, None, length, map, true, IfOk, IfSome, OnErr};
ghost use Rattle.js_data.specs.Event.{PlainEvent};
ghost use Rattle.js_frames.specs.Places.{plain_ground};
ghost use Rattle.bp_draw.specs.Words.{draw_word};
ghost use Rattle.bp_meaning.specs.Membership.{member};
ghost use Rattle.js_value.specs.Value.{PlainSet};
ghost use Rattle.bp_run.specs.Selecting.{Live, without_fault, first_unblocked, selectable};
ghost use Rattle.bp_run.specs.Choosing.{choice, drawn_of, chosen};
ghost use Rattle.bp_live.specs.Lives.{lent, live_of};
ghost use Rattle.bp_select.specs.Tallies.{Each, Tallied};
ghost use Rattle.bp_select.specs.inner.Counted.{plain_tally};
ghost use Rattle.bp_select.specs.inner.Heeding.{IsNoted, WhereWhole};
ghost use Rattle.js_meaning.specs.State.{Ground as Base};
ghost use Rattle.bp_select.specs.Answers.{AnswersAs, IsWithin, chosen_of, enabled_of};
ghost use Rattle.bp_select.specs.inner.Eligible.{IsFrom, IsOf, eligible_of};
ghost use Rattle.bp_select.specs.Blocks.{AreOf};
ghost use Rattle.bp_live.specs.Candidates.{events_in, tops_of};
ghost use Rattle.bp_known.specs.Known.{AreKnown, sets_in};
ghost use Rattle.bp_select.specs.inner.Settled.{AreSettled};
ghost use Rattle.bp_select.specs.inner.Parts.{IsPart, asks_nothing, blocks_nothing};
ghost use Rattle.bp_live.specs.Places.{AreInOrder};
ghost use Rattle.bp_live.specs.Tops.{with_live};

use crate::asking::{first_unblocked, unblocked};
use crate::block_sets::Blocks;
use crate::heeds::Heeds;
use crate::tally::{Tally, quick};
use crate::{Choice, Enabled, SelectFault};
use bp_draw::Draw;
use bp_live::{Candidate, Stated, candidates, remaining};
use bp_log::{Memory, Strategy};
use js_data::Event;
use js_frames::Ground;
use std::alloc::Global;

/// What can be selected.
#[derive(Drop)]
pub(crate) enum Eligible<'a> {
    /// These candidates.
    Inner(Vec<Candidate<'a>>),
    /// The event at this place of the queue.
    Outer(u32),
    /// Nothing.
    Nothing,
}

/// Equal events, in order.
fn copies(alloc: Global, candidates: &[Candidate<'_>]) -> Result<Vec<Event>, Memory>
    ensures { IfOk result (λ l. l.items ≡ events_in candidates.now) }
{
    let mut events = Vec::new(alloc);
    for candidate in candidates {
        events.push(candidate.event.copy()?)?;
    }
    Ok(events)
}

impl<'a> Eligible<'a> {
    /// As a bench answers it.
    pub(crate) fn into_enabled(self, alloc: Global) -> Result<Enabled, Memory>
        ensures { IfOk result (λ x. enabled_of x ≡ eligible_of self.entry) }
    {
        match self {
            Eligible::Inner(candidates) => {
                let inner = copies(alloc, candidates.as_slice())?;
                Ok(Enabled { inner, outer: None })
            }
            Eligible::Outer(place) => Ok(Enabled {
                inner: Vec::new(alloc),
                outer: Some(place),
            }),
            Eligible::Nothing => Ok(Enabled {
                inner: Vec::new(alloc),
                outer: None,
            }),
        }
    }
}

/// What can be selected of the queue.
fn queued<'a>(
    alloc: Global,
    ground: &Ground,
    budget: u64,
    blocking: &[&Stated],
    queue: &[Event],
) -> Result<Eligible<'a>, SelectFault>
    requires { length queue.now < 2 ^ 32 }
    ensures eligible { AnswersAs eligible_of
        (without_fault (λ place. record { inner = []; outer = place })
        (first_unblocked (member (plain_ground ground.now) budget) (map lent blocking.now) 0
        queue.now)) result }
    ensures tops { (ts : List (Live PlainSet)) → IfOk result (λ f. IsOf ts f) }
{
    match first_unblocked(alloc, ground, budget, blocking, queue)? {
        Some(place) => Ok(Eligible::Outer(place)),
        None => Ok(Eligible::Nothing),
    }
}

/// What can be selected, where each block set is asked of each event.
fn asked<'a>(
    alloc: Global,
    ground: &Ground,
    budget: u64,
    blocking: &[&Stated],
    candidates: Vec<Candidate<'a>>,
    queue: &[Event],
) -> Result<Eligible<'a>, SelectFault>
    requires { length queue.now < 2 ^ 32 }
    ensures eligible { (ts : List (Live PlainSet)) → tops_of candidates.entry.items ≡ with_live [] ts →
        IsPart blocks_nothing (map lent blocking.now) ts →
        let has = member (plain_ground ground.now) budget in
        AnswersAs eligible_of (selectable has ts queue.now) result }
    ensures tops { (ts : List (Live PlainSet)) → tops_of candidates.entry.items ≡ with_live [] ts →
        IfOk result (λ f. IsOf ts f) }
{
    let inner = unblocked(alloc, ground, budget, blocking, candidates.as_slice())?;
    let count = inner.as_slice().len();
    if count == 0 {
        return queued(alloc, ground, budget, blocking, queue);
    }
    Ok(Eligible::Inner(inner))
}

/// What can be selected of the queue, where it is known of events whether they are blocked.
fn queued_told<'a>(
    alloc: Global,
    ground: &Ground,
    budget: u64,
    blocking: &[&Stated],
    blocks: &mut Blocks,
    queue: &[Event],
) -> Result<Eligible<'a>, SelectFault>
    requires few { length queue.now < 2 ^ 32 }
    requires order { AreInOrder (map lent blocking.now) }
    requires sets { AreOf (map lent blocking.now) (sets_in blocks.old.sets) }
    requires known { AreKnown (plain_ground ground.now) budget (sets_in blocks.old.sets)
        blocks.old.told }
    ensures eligible { AnswersAs eligible_of
        (without_fault (λ place. record { inner = []; outer = place })
        (first_unblocked (member (plain_ground ground.now) budget) (map lent blocking.now) 0
        queue.now)) result }
    ensures tops { (ts : List (Live PlainSet)) → IfOk result (λ f. IsOf ts f) }
    ensures sets { blocks.new.sets ≡ blocks.old.sets }
    ensures known { AreKnown (plain_ground ground.now) budget (sets_in blocks.old.sets)
        blocks.new.told }
{
    match blocks.first_unblocked(alloc, ground, budget, blocking, queue)? {
        Some(place) => {
            blocks.note_waiting(place as usize);
            Ok(Eligible::Outer(place))
        }
        None => {
            blocks.note_waiting(queue.len());
            Ok(Eligible::Nothing)
        }
    }
}

/// What can be selected, where it is known of events whether they are blocked.
fn told<'a>(
    alloc: Global,
    ground: &Ground,
    budget: u64,
    blocking: &[&Stated],
    blocks: &mut Blocks,
    candidates: Vec<Candidate<'a>>,
    queue: &[Event],
) -> Result<Eligible<'a>, SelectFault>
    requires few { length queue.now < 2 ^ 32 }
    requires order { AreInOrder (map lent blocking.now) }
    requires sets { AreOf (map lent blocking.now) (sets_in blocks.old.sets) }
    requires known { AreKnown (plain_ground ground.now) budget (sets_in blocks.old.sets)
        blocks.old.told }
    ensures eligible { (ts : List (Live PlainSet)) → tops_of candidates.entry.items ≡ with_live [] ts →
        IsPart blocks_nothing (map lent blocking.now) ts →
        let has = member (plain_ground ground.now) budget in
        AnswersAs eligible_of (selectable has ts queue.now) result }
    ensures tops { (ts : List (Live PlainSet)) → tops_of candidates.entry.items ≡ with_live [] ts →
        IfOk result (λ f. IsOf ts f) }
    ensures sets { blocks.new.sets ≡ blocks.old.sets }
    ensures known { AreKnown (plain_ground ground.now) budget (sets_in blocks.old.sets)
        blocks.new.told }
{
    let inner = blocks.unblocked(alloc, ground, budget, blocking, candidates.as_slice())?;
    let count = inner.as_slice().len();
    if count == 0 {
        return queued_told(alloc, ground, budget, blocking, blocks, queue);
    }
    Ok(Eligible::Inner(inner))
}

/// The candidates that nobody blocks, if that is known of each and there are some.
fn known<'a>(
    alloc: Global,
    blocks: &Blocks,
    candidates: &[Candidate<'a>],
) -> Result<Option<Eligible<'a>>, Memory>
    ensures eligible { (base : Base) (budget : ℕ) → let sets = sets_in blocks.now.sets in
        AreKnown base budget sets blocks.now.told →
        (ts : List (Live PlainSet)) → AreInOrder ts → AreOf ts sets →
        tops_of candidates.now ≡ with_live [] ts → (queue : List PlainEvent) →
        IfOk result (λ o. IfSome o (λ f.
        selectable (member base budget) ts queue ≡ Ok (eligible_of f))) }
    ensures tops { (ts : List (Live PlainSet)) → tops_of candidates.now ≡ with_live [] ts →
        IfOk result (λ o. IfSome o (λ f. IsOf ts f)) }
{
    let Some(inner) = blocks.known_free(alloc, candidates)? else {
        return Ok(None);
    };
    let count = inner.as_slice().len();
    if count == 0 {
        return Ok(None);
    }
    Ok(Some(Eligible::Inner(inner)))
}

/// What can be selected: candidates that nobody blocks, or else of the queue. Those that block
/// something are gathered only where they must be asked.
pub(crate) fn selectable<'a>(
    alloc: Global,
    ground: &Ground,
    budget: u64,
    live: &[Stated],
    heeds: &Heeds,
    asking: &[&'a Stated],
    blocks: &mut Blocks,
    queue: &[Event],
) -> Result<Eligible<'a>, SelectFault>
    requires few { length queue.now < 2 ^ 32 }
    requires settled { AreSettled (plain_ground ground.now) budget (map live_of live.now) blocks.old }
    requires noted { heeds.now.whole ≡ true →
        Each (λ t. IsNoted heeds.now.roll t) (map live_of live.now) }
    requires asking { IsPart asks_nothing (map lent asking.now) (map live_of live.now) }
    ensures eligible { let has = member (plain_ground ground.now) budget in
        AnswersAs eligible_of (selectable has (map live_of live.now) queue.now) result }
    ensures tops { IfOk result (λ f. IsOf (map lent asking.now) f) }
    ensures sets { blocks.new.sets ≡ blocks.old.sets }
    ensures settled { AreSettled (plain_ground ground.now) budget (map live_of live.now) blocks.new }
{
    let candidates = candidates(alloc, asking)?;
    if blocks.are_cheap() {
        let few = heeds.blocking(alloc, live)?;
        let few = few.as_slice();
        return asked(alloc, ground, budget, few, candidates, queue);
    }
    blocks.begin_question(candidates.len());
    let requested = candidates.as_slice();
    if let Some(found) = known(alloc, blocks, requested)? {
        return Ok(found);
    }
    let blocking = heeds.blocking(alloc, live)?;
    let blocking = blocking.as_slice();
    told(alloc, ground, budget, blocking, blocks, candidates, queue)
}

/// The event that is drawn of these: the only one, or the one at the next word modulo their number.
/// Its only error is out of memory, and then nothing was drawn.
pub(crate) fn drawn(draw: &mut Draw, remaining: &[Candidate<'_>]) -> Result<Choice, Memory>
    requires { draw.old.drawn + 1 < 2 ^ 64 }
    ensures chosen { IfOk result (λ c. (queue : List PlainEvent) → chosen_of queue draw.new.drawn c
        ≡ drawn_of (draw_word draw.old.seed) draw.old.drawn (events_in remaining.now)) }
    ensures seed { draw.new.seed ≡ draw.old.seed }
    ensures drawn { (draw.old.drawn ≤ draw.new.drawn) × (draw.new.drawn ≤ draw.old.drawn + 1) }
    ensures place { IfOk result (IsFrom None) }
    ensures nothing { result ≡ Ok Choice.Nothing → draw.new ≡ draw.old }
    ensures failed { OnErr result (draw.new ≡ draw.old) }
{
    match remaining {
        [] => Ok(Choice::Nothing),
        [only] => Ok(Choice::Internal(only.event.copy()?)),
        [_, _, ..] => {
            let place = draw.word() as usize % remaining.len();
            let event = remaining[place].event.copy()?;
            draw.advance();
            Ok(Choice::Internal(event))
        }
    }
}

/// The event that is chosen of what can be selected. Its only error is out of memory, and then
/// nothing was drawn.
pub(crate) fn chosen<'a>(
    alloc: Global,
    strategy: Strategy,
    asking: &[&'a Stated],
    found: Eligible<'a>,
    draw: &mut Draw,
) -> Result<Choice, Memory>
    requires words { draw.old.drawn + 1 < 2 ^ 64 }
    requires tops { IsOf (map lent asking.now) found }
    ensures chosen { IfOk result (λ c. (queue : List PlainEvent) → chosen_of queue draw.new.drawn c
        ≡ chosen (draw_word draw.old.seed) strategy (map lent asking.now) queue draw.old.drawn
        (eligible_of found.entry).inner (eligible_of found.entry).outer) }
    ensures seed { draw.new.seed ≡ draw.old.seed }
    ensures drawn { (draw.old.drawn ≤ draw.new.drawn) × (draw.new.drawn ≤ draw.old.drawn + 1) }
    ensures place { IfOk result (IsFrom (eligible_of found.entry).outer) }
    ensures nothing { result ≡ Ok Choice.Nothing → draw.new ≡ draw.old }
    ensures failed { OnErr result (draw.new ≡ draw.old) }
{
    match found {
        Eligible::Inner(inner) => {
            let remaining = remaining(alloc, strategy, asking, inner)?;
            drawn(draw, remaining.as_slice())
        }
        Eligible::Outer(place) => Ok(Choice::External(place)),
        Eligible::Nothing => Ok(Choice::Nothing),
    }
}

/// What can be selected, as a bench answers it.
pub(crate) fn enabled(
    alloc: Global,
    ground: &Ground,
    budget: u64,
    live: &[Stated],
    heeds: &mut Heeds,
    blocks: &mut Blocks,
    queue: &[Event],
) -> Result<Enabled, SelectFault>
    requires few { length queue.now < 2 ^ 32 }
    requires settled { AreSettled (plain_ground ground.now) budget (map live_of live.now) blocks.old }
    requires noted { WhereWhole heeds.old.whole (map live_of live.now) heeds.old.roll
        heeds.old.changed }
    ensures enabled { let has = member (plain_ground ground.now) budget in
        AnswersAs enabled_of (selectable has (map live_of live.now) queue.now) result }
    ensures noted { WhereWhole heeds.new.whole (map live_of live.now) heeds.new.roll
        heeds.new.changed }
    ensures sets { blocks.new.sets ≡ blocks.old.sets }
    ensures settled { AreSettled (plain_ground ground.now) budget (map live_of live.now) blocks.new }
{
    let asking = heeds.asking(alloc, live)?;
    let asking = asking.as_slice();
    let found = selectable(alloc, ground, budget, live, heeds, asking, blocks, queue)?;
    Ok(found.into_enabled(alloc)?)
}

/// Which event comes next, where each candidate is looked at.
fn choose_of_all(
    alloc: Global,
    ground: &Ground,
    budget: u64,
    strategy: Strategy,
    live: &[Stated],
    heeds: &mut Heeds,
    blocks: &mut Blocks,
    queue: &[Event],
    draw: &mut Draw,
) -> Result<Choice, SelectFault>
    requires few { length queue.now < 2 ^ 32 }
    requires words { draw.old.drawn + 1 < 2 ^ 64 }
    requires settled { AreSettled (plain_ground ground.now) budget (map live_of live.now) blocks.old }
    requires noted { WhereWhole heeds.old.whole (map live_of live.now) heeds.old.roll
        heeds.old.changed }
    ensures chosen { AnswersAs (chosen_of queue.now draw.new.drawn)
        (choice (member (plain_ground ground.now) budget) (draw_word draw.old.seed) strategy
        (map live_of live.now) queue.now draw.old.drawn) result }
    ensures seed { draw.new.seed ≡ draw.old.seed }
    ensures drawn { (draw.old.drawn ≤ draw.new.drawn) × (draw.new.drawn ≤ draw.old.drawn + 1) }
    ensures within { IfOk result (IsWithin (length queue.now)) }
    ensures nothing { result ≡ Ok Choice.Nothing → draw.new ≡ draw.old }
    ensures failed { OnErr result (draw.new ≡ draw.old) }
    ensures noted { WhereWhole heeds.new.whole (map live_of live.now) heeds.new.roll
        heeds.new.changed }
    ensures sets { blocks.new.sets ≡ blocks.old.sets }
    ensures settled { AreSettled (plain_ground ground.now) budget (map live_of live.now) blocks.new }
{
    let asking = heeds.asking(alloc, live)?;
    let asking = asking.as_slice();
    let found = selectable(alloc, ground, budget, live, heeds, asking, blocks, queue)?;
    Ok(chosen(alloc, strategy, asking, found, draw)?)
}

/// Which event comes next, found by counts where that serves.
pub(crate) fn choose(
    alloc: Global,
    ground: &Ground,
    budget: u64,
    strategy: Strategy,
    live: &[Stated],
    heeds: &mut Heeds,
    blocks: &mut Blocks,
    tally: &mut Tally,
    queue: &[Event],
    draw: &mut Draw,
) -> Result<Choice, SelectFault>
    requires few { length queue.now < 2 ^ 32 }
    requires words { draw.old.drawn + 1 < 2 ^ 64 }
    requires settled { AreSettled (plain_ground ground.now) budget (map live_of live.now) blocks.old }
    requires noted { WhereWhole heeds.old.whole (map live_of live.now) heeds.old.roll
        heeds.old.changed }
    requires tallied { Tallied (plain_ground ground.now) budget (sets_in blocks.old.sets)
        (map live_of live.now) (plain_tally tally.old) }
    ensures chosen { AnswersAs (chosen_of queue.now draw.new.drawn)
        (choice (member (plain_ground ground.now) budget) (draw_word draw.old.seed) strategy
        (map live_of live.now) queue.now draw.old.drawn) result }
    ensures seed { draw.new.seed ≡ draw.old.seed }
    ensures drawn { (draw.old.drawn ≤ draw.new.drawn) × (draw.new.drawn ≤ draw.old.drawn + 1) }
    ensures within { IfOk result (IsWithin (length queue.now)) }
    ensures nothing { result ≡ Ok Choice.Nothing → draw.new ≡ draw.old }
    ensures failed { OnErr result (draw.new ≡ draw.old) }
    ensures noted { WhereWhole heeds.new.whole (map live_of live.now) heeds.new.roll
        heeds.new.changed }
    ensures sets { blocks.new.sets ≡ blocks.old.sets }
    ensures settled { AreSettled (plain_ground ground.now) budget (map live_of live.now) blocks.new }
    ensures tallied { Tallied (plain_ground ground.now) budget (sets_in blocks.old.sets)
        (map live_of live.now) (plain_tally tally.new) }
{
    let picked = quick(
        alloc, ground, budget, strategy, live, heeds, blocks, tally, draw,
    )?;
    if let Some(picked) = picked {
        return Ok(picked.into_choice(draw));
    }
    choose_of_all(
        alloc, ground, budget, strategy, live, heeds, blocks, queue, draw,
    )
}
