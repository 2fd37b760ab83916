//! How many free events each b-thread requests, so that one of all is drawn without a look at each.
ghost use Rattle.std.specs.Prelude.{◌≡◌, ◌<◌, ◌+◌, ◌%◌, ◌⊎◌, ◌^◌, ℕ, [], false, get_or, length, map, nat_eq, slice_get, sum, take, true, List, if◌then◌else◌, None, Ok, Some, IfOk, IfSome, OnOk};
ghost use Rattle.js_data.specs.Event.{PlainEvent};
ghost use Rattle.js_frames.specs.Places.{plain_ground};
ghost use Rattle.js_meaning.specs.State.{Ground as Base};
ghost use Rattle.js_value.specs.Value.{PlainSet};
ghost use Rattle.bp_log.specs.declared.options.Strategy.TheVariants.{Simple};
ghost use Rattle.bp_meaning.specs.Membership.{member};
ghost use Rattle.bp_draw.specs.Words.{draw_word};
ghost use Rattle.bp_run.specs.Selecting.{Live, requests};
ghost use Rattle.bp_run.specs.Choosing.{choice};
ghost use Rattle.bp_known.specs.Known.{AreKnown, Sets, sets_in};
ghost use Rattle.bp_roll.specs.Rolls.{is_in};
ghost use Rattle.bp_roll.specs.Counting.{count_at};
ghost use Rattle.bp_select.specs.declared.answers.Choice.TheVariants as Choice;
ghost use Rattle.bp_live.specs.declared.stated.Stated.{Stated};
ghost use Rattle.bp_live.specs.Candidates.{events_in};
ghost use Rattle.bp_select.specs.Tallies.{Each, AreFreeOf, AreTallied, Tallied, no_tally};
ghost use Rattle.bp_select.specs.inner.Counted.{plain_tally, IsAlone, IsCounted, all_free, chosen_as};
ghost use Rattle.bp_select.specs.inner.Heeding.{IsNoted, WhereWhole};
ghost use Rattle.bp_live.specs.Lives.{live_of};
ghost use Rattle.bp_select.specs.inner.Settled.{AreReady, AreSettled};
ghost use Rattle.bp_live.specs.Places.{AreInOrder};

use crate::Choice;
use crate::block_sets::Blocks;
use crate::heeds::{Heeds, blocking_at, numbers_of, places_of};
use bp_draw::Draw;
use bp_live::{Candidate, Stated, candidates_of, is_at, place_of, requests};
use bp_log::{Memory, Strategy};
use bp_roll::{Changes, Counts, Roll};
use js_data::Event;
use js_frames::Ground;
use std::alloc::Global;

/// After this many questions, one after another, in which no block set changed, counting begins.
const CALM: u32 = 2;

/// Counts that answered this many questions were worth it.
const WORTH: u32 = 64;

/// How many free events each b-thread requests: events that nobody blocks.
#[derive(Drop)]
pub(crate) struct Tally {
    /// By number, and 0 where nobody is.
    pub counts: Counts,
    /// The numbers whose b-threads may have changed since they were counted.
    pub changed: Changes,
    /// Whether all others are counted.
    pub whole: bool,
    /// How many questions there were since counting began, or since a block set changed. Only when
    /// counting begins rests on it.
    pub calm: u32,
    /// After how many of them counting begins. Only when counting begins rests on it.
    pub wait: u32,
    /// About how many events are requested. Only when what is known is forgotten rests on it.
    pub events: usize,
}

/// Whether the b-thread has another number, and requests the event.
fn is_other(stated: &Stated, number: u32, event: &Event) -> bool
    ensures { result ≡ false → let t = live_of stated.now in
        (number ≡ t.number) ⊎ (requests event.now t ≡ false) }
{
    if stated.number == number {
        return false;
    }
    requests(event, stated)
}

/// Whether one at this place, other than the b-thread of this number, requests the event.
fn is_requested_at(live: &[Stated], place: usize, number: u32, event: &Event) -> bool
    ensures { result ≡ false → place < length live.now → (d : Stated) →
        let t = live_of (get_or live.now place d) in
        (number ≡ t.number) ⊎ (requests event.now t ≡ false) }
{
    if place >= live.len() {
        return false;
    }
    is_other(&live[place], number, event)
}

/// Whether one at one of these places, other than the b-thread of this number, requests the event.
fn is_requested_among(live: &[Stated], places: &[usize], number: u32, event: &Event) -> bool
    ensures { result ≡ false → (i : ℕ) (d : Stated) → i < length live.now →
        is_in i places.now ≡ true → let t = live_of (get_or live.now i d) in
        (number ≡ t.number) ⊎ (requests event.now t ≡ false) }
{
    for place in places {
        if is_requested_at(live, *place, number, event) {
            return true;
        }
    }
    false
}

/// Whether nobody but the b-thread of this number requests the event.
fn is_own(
    alloc: Global,
    live: &[Stated],
    roll: &Roll,
    number: u32,
    event: &Event,
) -> Result<bool, Memory>
    requires order { AreInOrder (map live_of live.now) }
    requires noted { Each (λ t. IsNoted roll.now t) (map live_of live.now) }
    ensures { IfOk result (λ b. b ≡ true →
        Each (λ u. (number ≡ u.number) ⊎ (requests event.now u ≡ false)) (map live_of live.now)) }
{
    let places = places_of(alloc, live, roll, event)?;
    Ok(!is_requested_among(live, places.as_slice(), number, event))
}

/// Whether nobody else requests an event that the b-thread requests.
fn is_alone(alloc: Global, live: &[Stated], roll: &Roll, stated: &Stated) -> Result<bool, Memory>
    requires order { AreInOrder (map live_of live.now) }
    requires noted { Each (λ t. IsNoted roll.now t) (map live_of live.now) }
    ensures { IfOk result (λ b. b ≡ true → IsAlone (map live_of live.now) (live_of stated.now)) }
{
    for event in stated.statement.request.as_slice() {
        let own = is_own(alloc, live, roll, stated.number, event)?;
        if !own {
            return Ok(false);
        }
    }
    Ok(true)
}

/// The free events of the b-thread, if that is known of all that it requests.
fn known_free<'a>(
    alloc: Global,
    blocks: &Blocks,
    stated: &'a Stated,
) -> Result<Option<Vec<Candidate<'a>>>, Memory>
    ensures { (base : Base) (budget : ℕ) →
        let sets = sets_in blocks.now.sets in AreKnown base budget sets blocks.now.told →
        IfOk result (λ o. IfSome o (λ l.
        AreFreeOf base budget sets (live_of stated.now) (events_in l.items))) }
{
    let requested = candidates_of(alloc, stated)?;
    blocks.known_free(alloc, requested.as_slice())
}

/// The events that the b-thread requests are asked about, so that it is known whether they are free;
/// of those that a set is at fault about, nothing is.
fn learn(
    alloc: Global,
    ground: &Ground,
    budget: u64,
    live: &[Stated],
    roll: &Roll,
    blocks: &mut Blocks,
    stated: &Stated,
) -> Result<(), Memory>
    requires ready { AreReady (plain_ground ground.now) budget (map live_of live.now) roll.now
        blocks.old }
    ensures sets { blocks.new.sets ≡ blocks.old.sets }
    ensures ready { AreReady (plain_ground ground.now) budget (map live_of live.now) roll.now
        blocks.new }
{
    let requested = candidates_of(alloc, stated)?;
    let blocking = blocking_at(alloc, live, roll)?;
    let blocking = blocking.as_slice();
    let _asked = blocks.unblocked(alloc, ground, budget, blocking, requested.as_slice());
    Ok(())
}

/// The free events of the b-thread, where what is not known is asked first. None, if that can't be
/// known of all that it requests.
fn free_of<'a>(
    alloc: Global,
    ground: &Ground,
    budget: u64,
    live: &[Stated],
    roll: &Roll,
    blocks: &mut Blocks,
    stated: &'a Stated,
) -> Result<Option<Vec<Candidate<'a>>>, Memory>
    requires ready { AreReady (plain_ground ground.now) budget (map live_of live.now) roll.now
        blocks.old }
    ensures sets { blocks.new.sets ≡ blocks.old.sets }
    ensures ready { AreReady (plain_ground ground.now) budget (map live_of live.now) roll.now
        blocks.new }
    ensures free { IfOk result (λ o. IfSome o (λ l.
        AreFreeOf (plain_ground ground.now) budget (sets_in blocks.old.sets) (live_of stated.now)
        (events_in l.items))) }
{
    let free = known_free(alloc, blocks, stated)?;
    if free.is_some() {
        return Ok(free);
    }
    learn(alloc, ground, budget, live, roll, blocks, stated)?;
    known_free(alloc, blocks, stated)
}

/// How many free events the b-thread of this number requests, if that can be known and nobody else
/// requests an event that it requests, free or blocked.
fn count_of(
    alloc: Global,
    ground: &Ground,
    budget: u64,
    live: &[Stated],
    roll: &Roll,
    blocks: &mut Blocks,
    number: u32,
) -> Result<Option<usize>, Memory>
    requires ready { AreReady (plain_ground ground.now) budget (map live_of live.now) roll.now
        blocks.old }
    ensures sets { blocks.new.sets ≡ blocks.old.sets }
    ensures ready { AreReady (plain_ground ground.now) budget (map live_of live.now) roll.now
        blocks.new }
    ensures counted { IfOk result (λ o. IfSome o (λ count.
        IsCounted (plain_ground ground.now) budget (sets_in blocks.old.sets) (map live_of live.now)
        number count)) }
{
    let at = place_of(live, number);
    if !is_at(live, at, number) {
        return Ok(Some(0));
    }
    let stated = &live[at];
    let alone = is_alone(alloc, live, roll, stated)?;
    if !alone {
        return Ok(None);
    }
    let Some(free) = free_of(alloc, ground, budget, live, roll, blocks, stated)? else {
        return Ok(None);
    };
    Ok(Some(free.as_slice().len()))
}

/// The b-thread of this number is counted as it is now, and tells whether that can be.
fn settle_one(
    alloc: Global,
    ground: &Ground,
    budget: u64,
    live: &[Stated],
    roll: &Roll,
    blocks: &mut Blocks,
    counts: &mut Counts,
    number: u32,
) -> Result<bool, Memory>
    requires ready { AreReady (plain_ground ground.now) budget (map live_of live.now) roll.now
        blocks.old }
    ensures sets { blocks.new.sets ≡ blocks.old.sets }
    ensures ready { AreReady (plain_ground ground.now) budget (map live_of live.now) roll.now
        blocks.new }
    ensures counted { IfOk result (λ b. b ≡ true →
        IsCounted (plain_ground ground.now) budget (sets_in blocks.old.sets) (map live_of live.now)
        number (count_at counts.new number)) }
    ensures others { (n : ℕ) → nat_eq n number ≡ false →
        count_at counts.new n ≡ count_at counts.old n }
{
    let Some(count) = count_of(alloc, ground, budget, live, roll, blocks, number)? else {
        return Ok(false);
    };
    counts.set(number, count)
}

/// The changed are counted as they are now, up to one that can't be, and tells whether all were.
fn settle_all(
    alloc: Global,
    ground: &Ground,
    budget: u64,
    live: &[Stated],
    roll: &Roll,
    blocks: &mut Blocks,
    counts: &mut Counts,
    changed: &[u32],
) -> Result<bool, Memory>
    requires ready { AreReady (plain_ground ground.now) budget (map live_of live.now) roll.now
        blocks.old }
    requires tallied { AreTallied (plain_ground ground.now) budget (sets_in blocks.old.sets)
        (map live_of live.now) changed.now counts.old }
    ensures sets { blocks.new.sets ≡ blocks.old.sets }
    ensures ready { AreReady (plain_ground ground.now) budget (map live_of live.now) roll.now
        blocks.new }
    ensures tallied { AreTallied (plain_ground ground.now) budget (sets_in blocks.old.sets)
        (map live_of live.now) changed.now counts.new }
    ensures settled { IfOk result (λ b. b ≡ true →
        AreTallied (plain_ground ground.now) budget (sets_in blocks.old.sets) (map live_of live.now)
        [] counts.new) }
{
    for number in changed {
        let counted = settle_one(alloc, ground, budget, live, roll, blocks, counts, *number)?;
        if !counted {
            return Ok(false);
        }
    }
    Ok(true)
}

/// The event at this place of these.
fn copy_at(free: &[Candidate<'_>], place: usize) -> Result<Option<Event>, Memory>
    ensures { IfOk result (λ o. IfSome o (λ e. slice_get (events_in free.now) place ≡ Some e)) }
{
    match free.get(place) {
        None => Ok(None),
        Some(candidate) => Ok(Some(candidate.event.copy()?)),
    }
}

/// The number, if a b-thread can have it.
fn number_of(number: usize) -> Option<u32>
    ensures { IfSome result (λ n. n ≡ number) }
{
    if number > u32::MAX as usize {
        return None;
    }
    Some(number as u32)
}

/// The free event of the b-thread of this number at this place of its own, if it is found.
fn event_of(
    alloc: Global,
    ground: &Ground,
    budget: u64,
    live: &[Stated],
    roll: &Roll,
    blocks: &mut Blocks,
    number: u32,
    place: usize,
) -> Result<Option<Event>, Memory>
    requires ready { AreReady (plain_ground ground.now) budget (map live_of live.now) roll.now
        blocks.old }
    ensures sets { blocks.new.sets ≡ blocks.old.sets }
    ensures ready { AreReady (plain_ground ground.now) budget (map live_of live.now) roll.now
        blocks.new }
    ensures event { (counts : List ℕ) → let ts = map live_of live.now in
        AreTallied (plain_ground ground.now) budget (sets_in blocks.old.sets) ts [] counts →
        place < count_at counts number → IfOk result (λ o. IfSome o (λ e.
        slice_get (all_free (member (plain_ground ground.now) budget) ts)
        (sum (take number counts) + place) ≡ Some e)) }
{
    let at = place_of(live, number);
    if !is_at(live, at, number) {
        return Ok(None);
    }
    let Some(free) = free_of(alloc, ground, budget, live, roll, blocks, &live[at])? else {
        return Ok(None);
    };
    copy_at(free.as_slice(), place)
}

/// The free event at this place of all, if it is found.
fn event_at(
    alloc: Global,
    ground: &Ground,
    budget: u64,
    live: &[Stated],
    roll: &Roll,
    blocks: &mut Blocks,
    counts: &Counts,
    place: usize,
) -> Result<Option<Event>, Memory>
    requires ready { AreReady (plain_ground ground.now) budget (map live_of live.now) roll.now
        blocks.old }
    requires tallied { AreTallied (plain_ground ground.now) budget (sets_in blocks.old.sets)
        (map live_of live.now) [] counts.now }
    ensures sets { blocks.new.sets ≡ blocks.old.sets }
    ensures ready { AreReady (plain_ground ground.now) budget (map live_of live.now) roll.now
        blocks.new }
    ensures event { IfOk result (λ o. IfSome o (λ e.
        slice_get (all_free (member (plain_ground ground.now) budget) (map live_of live.now)) place
        ≡ Some e)) }
{
    let Some(spot) = counts.spot_at(place) else {
        return Ok(None);
    };
    let Some(number) = number_of(spot.number) else {
        return Ok(None);
    };
    event_of(
        alloc, ground, budget, live, roll, blocks, number, spot.place,
    )
}

/// An event that is chosen, and whether a word is drawn for it.
#[derive(Drop)]
pub(crate) struct Picked {
    /// The event.
    pub event: Event,
    /// Whether it is one of several.
    pub draws: bool,
}

impl Picked {
    /// The choice of the event, for which a word is drawn or none.
    pub fn into_choice(self, draw: &mut Draw) -> Choice
        requires { draw.old.drawn + 1 < 2 ^ 64 }
        ensures event { result ≡ Choice.Internal self.event }
        ensures seed { draw.new.seed ≡ draw.old.seed }
        ensures drawn { draw.new.drawn ≡ (if self.draws then draw.old.drawn + 1 else draw.old.drawn) }
    {
        if self.draws {
            draw.advance();
        }
        Choice::Internal(self.event)
    }
}

/// The place that the next word draws of this many, which are some.
fn drawn_place(draw: &Draw, total: usize) -> usize
    requires { 0 < total }
    ensures { result ≡ draw_word draw.now.seed draw.now.drawn % total }
{
    if total == 1 {
        return 0;
    }
    draw.word() as usize % total
}

/// The free event that is drawn of all, if there is one and it is found.
fn pick_of(
    alloc: Global,
    ground: &Ground,
    budget: u64,
    live: &[Stated],
    roll: &Roll,
    blocks: &mut Blocks,
    counts: &Counts,
    draw: &Draw,
) -> Result<Option<Picked>, Memory>
    requires ready { AreReady (plain_ground ground.now) budget (map live_of live.now) roll.now
        blocks.old }
    requires tallied { AreTallied (plain_ground ground.now) budget (sets_in blocks.old.sets)
        (map live_of live.now) [] counts.now }
    ensures sets { blocks.new.sets ≡ blocks.old.sets }
    ensures ready { AreReady (plain_ground ground.now) budget (map live_of live.now) roll.now
        blocks.new }
    ensures picked { (queue : List PlainEvent) → IfOk result (λ o. IfSome o (λ p.
        choice (member (plain_ground ground.now) budget) (draw_word draw.now.seed) Simple
        (map live_of live.now) queue draw.now.drawn
        ≡ Ok (Some (chosen_as p.event p.draws draw.now.drawn)))) }
{
    let Some(total) = counts.total() else {
        return Ok(None);
    };
    if total == 0 {
        return Ok(None);
    }
    let draws = total > 1;
    let place = drawn_place(draw, total);
    match event_at(alloc, ground, budget, live, roll, blocks, counts, place)? {
        None => Ok(None),
        Some(event) => Ok(Some(Picked { event, draws })),
    }
}

/// How many events the b-threads request. Only when what is known is forgotten rests on it.
fn requests_of(live: &[Stated]) -> usize {
    let mut count: usize = 0;
    for stated in live {
        count = count.saturating_add(stated.statement.request.as_slice().len());
    }
    count
}

/// After how many questions counting begins, where it began after this many and the counts answered
/// that many.
fn wait_after(wait: u32, answered: u32) -> u32 {
    if answered < WORTH {
        return wait.saturating_mul(2);
    }
    CALM
}

impl Tally {
    /// Nothing is counted.
    pub fn new(alloc: Global) -> Tally
        ensures { plain_tally result ≡ no_tally }
    {
        Tally {
            counts: Counts::new(alloc),
            changed: Changes::new(alloc),
            whole: false,
            calm: 0,
            wait: CALM,
            events: 0,
        }
    }

    /// The statement of the b-thread of this number may change.
    pub fn mark(&mut self, number: u32) -> Result<(), Memory>
        ensures noted { OnOk result
            (self.new.whole ≡ true → is_in number self.new.changed ≡ true) }
        ensures others { (base : Base) (budget : ℕ) (sets : Sets) (ts : List (Live PlainSet)) →
            Tallied base budget sets ts (plain_tally self.old) →
            Tallied base budget sets ts (plain_tally self.new) }
    {
        if self.whole {
            self.changed.note(number)?;
        }
        Ok(())
    }

    /// Nothing counts as counted any more. Where the counts were not worth it, it takes longer until
    /// counting begins again.
    pub fn rest(&mut self)
        ensures { self.new.whole ≡ false }
    {
        if self.whole {
            self.wait = wait_after(self.wait, self.calm);
        }
        self.whole = false;
        self.changed.clear();
        self.calm = 0;
    }

    /// All are among the changed, if they were not counted and block sets have been calm, and tells
    /// whether they are counted or changed now.
    fn begin(&mut self, alloc: Global, live: &[Stated]) -> Result<bool, Memory>
        ensures whole { IfOk result (λ b. b ≡ true → self.new.whole ≡ true) }
        ensures tallied { (base : Base) (budget : ℕ) (sets : Sets) →
            Tallied base budget sets (map live_of live.now) (plain_tally self.old) →
            Tallied base budget sets (map live_of live.now) (plain_tally self.new) }
    {
        self.calm = self.calm.saturating_add(1);
        if self.whole {
            return Ok(true);
        }
        if self.calm < self.wait {
            return Ok(false);
        }
        let numbers = numbers_of(alloc, live)?;
        self.counts = Counts::new(alloc);
        self.changed = Changes::noting(numbers);
        self.events = requests_of(live);
        self.whole = true;
        self.calm = 0;
        Ok(true)
    }

    /// The free event that is drawn of all, if all are counted and it is found.
    pub fn pick(
        &mut self,
        alloc: Global,
        ground: &Ground,
        budget: u64,
        live: &[Stated],
        roll: &Roll,
        blocks: &mut Blocks,
        draw: &Draw,
    ) -> Result<Option<Picked>, Memory>
        requires ready { AreReady (plain_ground ground.now) budget (map live_of live.now) roll.now
            blocks.old }
        requires tallied { Tallied (plain_ground ground.now) budget (sets_in blocks.old.sets)
            (map live_of live.now) (plain_tally self.old) }
        ensures sets { blocks.new.sets ≡ blocks.old.sets }
        ensures ready { AreReady (plain_ground ground.now) budget (map live_of live.now) roll.now
            blocks.new }
        ensures tallied { Tallied (plain_ground ground.now) budget (sets_in blocks.old.sets)
            (map live_of live.now) (plain_tally self.new) }
        ensures picked { (queue : List PlainEvent) → IfOk result (λ o. IfSome o (λ p.
            choice (member (plain_ground ground.now) budget) (draw_word draw.now.seed) Simple
            (map live_of live.now) queue draw.now.drawn
            ≡ Ok (Some (chosen_as p.event p.draws draw.now.drawn)))) }
    {
        let begun = self.begin(alloc, live)?;
        if !begun {
            return Ok(None);
        }
        let changed = self.changed.as_slice();
        let counts = &mut self.counts;
        blocks.begin_question(self.events);
        let all = settle_all(alloc, ground, budget, live, roll, blocks, counts, changed)?;
        if !all {
            self.rest();
            return Ok(None);
        }
        self.changed.clear();
        pick_of(
            alloc,
            ground,
            budget,
            live,
            roll,
            blocks,
            &self.counts,
            draw,
        )
    }
}

/// Where b-threads are many and one of all free events is drawn: that event, if it is found without
/// a look at each.
pub(crate) fn quick(
    alloc: Global,
    ground: &Ground,
    budget: u64,
    strategy: Strategy,
    live: &[Stated],
    heeds: &mut Heeds,
    blocks: &mut Blocks,
    tally: &mut Tally,
    draw: &Draw,
) -> Result<Option<Picked>, Memory>
    requires settled { AreSettled (plain_ground ground.now) budget (map live_of live.now) blocks.old }
    requires noted { WhereWhole heeds.old.whole (map live_of live.now) heeds.old.roll
        heeds.old.changed }
    requires tallied { Tallied (plain_ground ground.now) budget (sets_in blocks.old.sets)
        (map live_of live.now) (plain_tally tally.old) }
    ensures noted { WhereWhole heeds.new.whole (map live_of live.now) heeds.new.roll
        heeds.new.changed }
    ensures sets { blocks.new.sets ≡ blocks.old.sets }
    ensures settled { AreSettled (plain_ground ground.now) budget (map live_of live.now) blocks.new }
    ensures tallied { Tallied (plain_ground ground.now) budget (sets_in blocks.old.sets)
        (map live_of live.now) (plain_tally tally.new) }
    ensures picked { (queue : List PlainEvent) → IfOk result (λ o. IfSome o (λ p.
        choice (member (plain_ground ground.now) budget) (draw_word draw.now.seed) strategy
        (map live_of live.now) queue draw.now.drawn
        ≡ Ok (Some (chosen_as p.event p.draws draw.now.drawn)))) }
{
    let many = heeds.are_many(alloc, live)?;
    if !many {
        tally.rest();
        return Ok(None);
    }
    match strategy {
        Strategy::Ordered => Ok(None),
        Strategy::Priority => Ok(None),
        Strategy::Simple => tally.pick(alloc, ground, budget, live, &heeds.roll, blocks, draw),
    }
}
