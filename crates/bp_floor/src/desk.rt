//! What a choice is made of: what the live b-threads state, and the events that wait.
ghost use Rattle.std.specs.Prelude.{◌≡◌, ◌<◌, ◌≤◌, ◌+◌, ◌-◌, ◌^◌, ◌∷◌, ◌++◌, [], ℕ, Ok, length, option_map, IfErr, IfOk, IfSome, OnOk, OnErr};
ghost use Rattle.js_meaning.specs.State.{Ground as Base};
ghost use Rattle.js_frames.specs.Places.{plain_ground};
ghost use Rattle.bp_draw.specs.Words.{draw_word};
ghost use Rattle.bp_meaning.specs.Membership.{member};
ghost use Rattle.bp_run.specs.Selecting.{selectable, blocker, requested};
ghost use Rattle.bp_run.specs.Choosing.{choice, reach};
ghost use Rattle.bp_run.specs.Story.{without};
ghost use Rattle.bp_thread.specs.Views.{plain_statement, stated_set};
ghost use Rattle.bp_select.specs.declared.answers.Choice.TheVariants as choice_made;
ghost use Rattle.bp_live.specs.Placing.{placed};
ghost use Rattle.bp_select.specs.Answers.{AnswersAs, AnswersReach, IsWithin, chosen_of, enabled_of};
ghost use Rattle.bp_floor.specs.inner.Desks.{Fits, block_at, block_stated, shifted, enabled_behind, learned};

use crate::{EventList, Front};
use bp_draw::Draw;
use bp_log::{Memory, Strategy};
use bp_select::{Bench, Choice, Enabled, Reach, SelectFault};
use bp_thread::Statement;
use js_data::Event;
use js_frames::Ground;
use js_value::EventSet;
use std::alloc::{AllocFailed, Global};
use std::marker::Model;

/// The bench, the queue, and what is known of the queue's front, which is not asked again while no
/// block set changes. Contracts see all three.
///
/// A desk fits a ground and a budget where its bench does and what is known is so under them.
#[derive(Drop)]
pub(crate) struct Desk {
    bench: Bench,
    queue: EventList,
    front: Front,
}

impl Model for Desk {
    ghost use Rattle.std.specs.Prelude.{◌≤◌, length};
    ghost use Rattle.std.specs.Coded.{codes};
    ghost use Rattle.js_data.specs.Codes.{event_code};
    ghost use Rattle.js_value.specs.Codes.{set_code};
    ghost use Rattle.bp_floor.specs.inner.Desks.{PlainDesk};

    ghost Value = { PlainDesk };

    ghost coded = { Prim.hlevel (codes, event_code, set_code) };

    ghost view = { λ d. record { bench = d.bench; queue = d.queue; front = d.front } };

    ghost invariant = { λ d. d.front.blocked ≤ length d.queue };
}

/// The block set of a statement, if it has one.
fn block_of(statement: &Option<Statement>) -> Option<&EventSet>
    ensures { stated_set (option_map (λ s. s.now) result)
        ≡ block_stated (option_map plain_statement statement.now) }
{
    match statement {
        None => None,
        Some(statement) => statement.block.as_ref(),
    }
}

/// The choice from a queue, where this many events at its front were left out.
fn behind(choice: Choice, left_out: usize) -> Choice
    requires { (most : ℕ) × IsWithin most choice × (left_out + most < 2 ^ 32) }
    ensures { result ≡ shifted left_out choice }
{
    match choice {
        Choice::Internal(event) => Choice::Internal(event),
        Choice::External(place) => Choice::External((left_out + place as usize) as u32),
        Choice::Nothing => Choice::Nothing,
    }
}

/// What can be selected of a queue, where this many events at its front were left out.
fn enabled_behind(enabled: Enabled, left_out: usize) -> Enabled
    requires { (most : ℕ) × IfSome enabled.outer (λ place. place < most)
        × (left_out + most < 2 ^ 32) }
    ensures { enabled_of result ≡ enabled_behind left_out (enabled_of enabled) }
{
    let Enabled { inner, outer } = enabled;
    let outer = match outer {
        None => None,
        Some(place) => Some((left_out + place as usize) as u32),
    };
    Enabled { inner, outer }
}

impl Desk {
    /// Nobody is live, and nothing waits.
    pub fn new(alloc: Global) -> Desk
        ensures empty { result.bench.live ≡ [] }
        ensures queue { result.queue ≡ [] }
        ensures fits { (base : Base) (budget : ℕ) → Fits result base budget }
    {
        Desk {
            bench: Bench::new(alloc),
            queue: EventList::new(alloc),
            front: Front::new(alloc),
        }
    }

    /// The b-thread of this number, which blocked this before, states this from now on; with
    /// nothing it is not live.
    pub fn place(
        &mut self,
        number: u32,
        before: Option<&EventSet>,
        statement: Option<Statement>,
    ) -> Result<(), Memory>
        ensures placed { OnOk result (self.new.bench.live
            ≡ placed number (option_map plain_statement statement) self.old.bench.live) }
        ensures queue { self.new.queue ≡ self.old.queue }
        ensures fits { OnOk result ((base : Base) (budget : ℕ) →
            block_at number self.old.bench.live
            ≡ stated_set (option_map (λ s. s.now) before.entry) →
            Fits self.old base budget → Fits self.new base budget) }
    {
        self.front.restate(before, block_of(&statement));
        self.bench.place(number, statement)
    }

    /// How many events wait.
    pub fn waiting(&self) -> usize
        ensures { result ≡ length self.now.queue }
    {
        self.queue.len()
    }

    /// The events that wait, in order.
    pub fn queue(&self) -> &[Event]
        ensures { result.now ≡ self.now.queue }
    {
        self.queue.as_slice()
    }

    /// Puts an event at the end of the queue, or gives it back.
    pub fn push(&mut self, event: Event) -> Result<(), AllocFailed<Event>>
        ensures pushed { OnOk result (self.new.queue ≡ self.old.queue ++ event ∷ []) }
        ensures failed { OnErr result (self.new ≡ self.old) }
        ensures returned { IfErr result (λ y. y.value ≡ event) }
        ensures bench { self.new.bench ≡ self.old.bench }
        ensures fits { (base : Base) (budget : ℕ) →
            Fits self.old base budget → Fits self.new base budget }
    {
        self.queue.push(event)
    }

    /// Lets the event at this place of the queue go, if one is named.
    pub fn without(&mut self, place: Option<u32>)
        requires { IfSome place (λ i. i < length self.old.queue) }
        ensures left { self.new.queue ≡ without self.old.queue place }
        ensures bench { self.new.bench ≡ self.old.bench }
        ensures fits { (base : Base) (budget : ℕ) →
            Fits self.old base budget → Fits self.new base budget }
    {
        if let Some(place) = place {
            if (place as usize) < self.front.blocked() {
                self.front.forget();
            }
        }
        self.queue.without(place);
    }

    /// What can be selected.
    ///
    /// # Errors
    ///
    /// Those of the bench.
    pub fn enabled(
        &mut self,
        alloc: Global,
        ground: &Ground,
        budget: u64,
    ) -> Result<Enabled, SelectFault>
        requires fits { Fits self.old (plain_ground ground.now) budget }
        requires few { length self.old.queue < 2 ^ 32 }
        ensures enabled { AnswersAs enabled_of (selectable
            (member (plain_ground ground.now) budget) self.old.bench.live self.old.queue) result }
        ensures live { self.new.bench.live ≡ self.old.bench.live }
        ensures queue { self.new.queue ≡ self.old.queue }
        ensures fits { Fits self.new (plain_ground ground.now) budget }
    {
        self.front.settle();
        let left_out = self.front.blocked();
        let rest = &self.queue.as_slice()[left_out..];
        let enabled = self.bench.enabled(alloc, ground, rest, budget)?;
        Ok(enabled_behind(enabled, left_out))
    }

    /// Learns of a choice among the events after the front: those before it are blocked.
    fn learn(&mut self, choice: &Choice)
        requires within { IsWithin (length self.old.queue - self.old.front.blocked) choice.now }
        requires few { length self.old.queue < 2 ^ 32 }
        ensures { self.new ≡ record self.old {
          front = record self.old.front { blocked = learned self.old choice.now };
        } }
    {
        match choice {
            Choice::Internal(_) => {}
            Choice::External(place) => {
                self.front.learn(self.front.blocked() + *place as usize);
            }
            Choice::Nothing => {
                self.front.learn(self.queue.len());
            }
        }
    }

    /// Which event comes next; a word is drawn where several can.
    ///
    /// # Errors
    ///
    /// Those of the bench.
    pub fn choose(
        &mut self,
        alloc: Global,
        ground: &Ground,
        strategy: Strategy,
        budget: u64,
        draw: &mut Draw,
    ) -> Result<Choice, SelectFault>
        requires fits { Fits self.old (plain_ground ground.now) budget }
        requires few { length self.old.queue < 2 ^ 32 }
        requires words { draw.old.drawn + 1 < 2 ^ 64 }
        ensures chosen { AnswersAs (chosen_of self.old.queue draw.new.drawn)
            (choice (member (plain_ground ground.now) budget) (draw_word draw.old.seed) strategy
            self.old.bench.live self.old.queue draw.old.drawn) result }
        ensures within { IfOk result (IsWithin (length self.old.queue)) }
        ensures seed { draw.new.seed ≡ draw.old.seed }
        ensures drawn { (draw.old.drawn ≤ draw.new.drawn) × (draw.new.drawn ≤ draw.old.drawn + 1) }
        ensures nothing { result ≡ Ok choice_made.Nothing → draw.new ≡ draw.old }
        ensures failed { OnErr result (draw.new ≡ draw.old) }
        ensures live { self.new.bench.live ≡ self.old.bench.live }
        ensures queue { self.new.queue ≡ self.old.queue }
        ensures fits { Fits self.new (plain_ground ground.now) budget }
    {
        self.front.settle();
        let left_out = self.front.blocked();
        let rest = &self.queue.as_slice()[left_out..];
        let choice = self
            .bench
            .choose(alloc, ground, rest, strategy, budget, draw)?;
        self.learn(&choice);
        Ok(behind(choice, left_out))
    }

    /// Whom the event reaches.
    ///
    /// # Errors
    ///
    /// Those of the bench.
    pub fn reach(
        &mut self,
        alloc: Global,
        ground: &Ground,
        event: &Event,
        budget: u64,
    ) -> Result<Reach, SelectFault>
        requires fits { Fits self.old (plain_ground ground.now) budget }
        ensures reached { AnswersReach (reach
            (member (plain_ground ground.now) budget) event.now self.old.bench.live) result }
        ensures live { self.new.bench.live ≡ self.old.bench.live }
        ensures queue { self.new.queue ≡ self.old.queue }
        ensures fits { Fits self.new (plain_ground ground.now) budget }
    {
        self.bench.reach(alloc, ground, event, budget)
    }

    /// The first live b-thread that blocks the event.
    ///
    /// # Errors
    ///
    /// Those of the bench.
    pub fn blocker(
        &mut self,
        alloc: Global,
        ground: &Ground,
        event: &Event,
        budget: u64,
    ) -> Result<Option<u32>, SelectFault>
        requires fits { Fits self.old (plain_ground ground.now) budget }
        ensures blocker { AnswersAs (λ o. o) (blocker
            (member (plain_ground ground.now) budget) self.old.bench.live event.now) result }
        ensures live { self.new.bench.live ≡ self.old.bench.live }
        ensures queue { self.new.queue ≡ self.old.queue }
        ensures fits { Fits self.new (plain_ground ground.now) budget }
    {
        self.bench.blocker(alloc, ground, event, budget)
    }

    /// Whether a live b-thread requests the event.
    pub fn requested(&self, event: &Event) -> bool
        ensures { result ≡ requested self.now.bench.live event.now }
    {
        self.bench.requested(event)
    }
}
