//! A transition: an event reaches b-threads.
ghost use Rattle.std.specs.Prelude.{◌≡◌, ◌<◌, ◌+◌, ◌^◌, length, map, option_map, slice_get, IfOk, OnOk, OnErr, IfSome};
ghost use Rattle.std.specs.Arc.{arc_value};
ghost use Rattle.bp_run.specs.Story.{line_of_choice, handler_body, entry_of};
ghost use Rattle.bp_thread.specs.Jobs.{plain_job};
ghost use Rattle.bp_code.specs.Code.{sealed_code_of as code_of};
ghost use Rattle.bp_floor.specs.inner.Seats.{seated, AreOwn};
ghost use Rattle.bp_floor.specs.inner.Entries.{handler_seen, entry_seen};
ghost use Rattle.bp_floor.specs.inner.Boards.{stand_of, pair_of};
ghost use Rattle.bp_floor.specs.inner.Kept.{Running, IsKept, runs_in};
ghost use Rattle.bp_floor.specs.inner.Reached.{touch_seen, handler_at, HasHandler, IsStanding, AreStanding, IsGivenTo, IsTouch, CanTouch, IsTouchedBy, moves_in, moved_pair};
ghost use Rattle.bp_floor.specs.Forgetting.{forgotten};
ghost use Rattle.js_meaning.specs.Bodies.{Origin, the_top};
ghost use Rattle.bp_run.specs.Configuration.{Stand};
ghost use Rattle.bp_run.specs.Numbers.{number_in};

use crate::{Board, Entry, Handler, Seats, Wave};
use bp_log::{Line, Memory};
use bp_thread::Job;
use js_data::Event;
use js_value::{Value, copy};
use std::alloc::Global;
use std::sync::Arc;

/// What an event does to a b-thread, by its number.
#[derive(Clone, Copy)]
pub(crate) enum Touch {
    /// It goes on.
    Moves(u32),
    /// It is interrupted.
    Interrupts(u32),
}

/// The line of a transition.
fn line_of(event: &Arc<Event>, place: Option<u32>) -> Result<Line, Memory>
    ensures { IfOk result (λ x. x ≡ line_of_choice (arc_value event.now) place) }
{
    match place {
        None => Ok(Line::Event(event.copy()?)),
        Some(_) => Ok(Line::External(event.copy()?)),
    }
}

/// What a job keeps of its handler, as a fact for its callers. Does nothing.
fn keeps_handler(job: &Job)
    ensures { HasHandler job.now }
{
    // Reads a field for the proof alone: so what the type keeps is known.
    let _handler = job.handler();
}

/// The handler of a job at an event, if it set one.
fn handler_of(job: &Job, event: &Arc<Event>) -> Result<Option<Handler>, Memory>
    ensures { IfOk result (λ h. option_map handler_seen h
        ≡ option_map (handler_at (arc_value event.now)) (plain_job job.now).handler) }
{
    match job.handler() {
        None => Ok(None),
        Some(function) => Ok(Some(Handler {
            function: copy(function)?,
            argument: Value::Event(event.clone()?),
        })),
    }
}

impl Seats {
    /// A b-thread that stands at its point receives the event.
    fn give(&mut self, number: usize, event: &Arc<Event>) -> Result<(), Memory>
        requires { IsStanding (slice_get self.old number) }
        ensures { OnOk result (IsGivenTo (arc_value event.now) number self.old self.new) }
    {
        if let Some(mut job) = self.take(number) {
            job.give(event)?;
            self.put(number, job);
        }
        Ok(())
    }

    /// The handler of a b-thread at the event that interrupts it, if it set one.
    fn handler(&self, number: usize, event: &Arc<Event>) -> Result<Option<Handler>, Memory>
        requires { IsStanding (slice_get self.now number) }
        ensures { IfOk result (λ h. (r : Running) → AreOwn r.program r.options 0 self.now →
            option_map handler_seen h
            ≡ handler_body (code_of r.program r.options) (arc_value event.now) (slice_get
            (map seated self.now) number)) }
    {
        match self.job(number) {
            None => Ok(None),
            Some(job) => {
                // For the proof: what the job keeps of its handler.
                keeps_handler(job);
                handler_of(job, event)
            }
        }
    }

    /// What runs after an event does this.
    fn entry(&self, event: &Arc<Event>, touch: Touch) -> Result<Entry, Memory>
        requires { IsStanding (slice_get self.now (number_in (touch_seen touch))) }
        ensures { IfOk result (λ n. (r : Running) (s : Stand Origin) →
            AreOwn r.program r.options 0 self.now → s.threads ≡ map seated self.now →
            entry_seen n ≡ entry_of (code_of r.program r.options) s (arc_value event.now) (touch_seen touch)) }
    {
        match touch {
            Touch::Moves(number) => Ok(Entry::Runs(number)),
            Touch::Interrupts(number) => Ok(Entry::Stops(
                number,
                self.handler(number as usize, event)?,
            )),
        }
    }

    /// What runs after an event does all this.
    pub fn entries(
        &self,
        alloc: Global,
        event: &Arc<Event>,
        touches: &[Touch],
    ) -> Result<Wave, Memory>
        requires { AreStanding (map touch_seen touches.now) self.now }
        ensures { IfOk result (λ w. (r : Running) (s : Stand Origin) →
            AreOwn r.program r.options 0 self.now → s.threads ≡ map seated self.now →
            w ≡ map (entry_of (code_of r.program r.options) s (arc_value event.now))
            (map touch_seen touches.now)) }
    {
        let mut wave = Wave::new(alloc);
        for touch in touches {
            wave.push(self.entry(event, *touch)?)?;
        }
        Ok(wave)
    }
}

impl Board {
    /// An event does this to a b-thread.
    fn touch(&mut self, event: &Arc<Event>, touch: Touch) -> Result<(), Memory>
        requires { IsStanding (slice_get self.old.seats (number_in (touch_seen touch))) }
        ensures touched { OnOk result (IsTouch (arc_value event.now) (touch_seen touch) self.old self.new) }
        ensures lines { self.new.lines ≡ self.old.lines }
        ensures verdict { self.new.verdict ≡ self.old.verdict }
    {
        match touch {
            Touch::Moves(number) => {
                self.restate(number, None)?;
                self.seats.give(number as usize, event)
            }
            Touch::Interrupts(number) => {
                self.restate(number, None)?;
                self.seats.end(number as usize);
                Ok(())
            }
        }
    }

    /// An event does all this.
    fn touch_all(&mut self, event: &Arc<Event>, touches: &[Touch]) -> Result<(), Memory>
        requires { (r : Running) × CanTouch r (map touch_seen touches.now) self.old }
        ensures touched { OnOk result ((r : Running) →
            CanTouch r (map touch_seen touches.now) self.old →
            IsTouchedBy r (arc_value event.now) (map touch_seen touches.now) self.old self.new) }
        ensures lines { self.new.lines ≡ self.old.lines }
        ensures verdict { self.new.verdict ≡ self.old.verdict }
    {
        for touch in touches {
            self.touch(event, *touch)?;
        }
        Ok(())
    }

    /// The transition itself. What takes memory comes first, and the line last of that.
    pub fn step(
        &mut self,
        event: &Arc<Event>,
        place: Option<u32>,
        touches: &[Touch],
        wave: Wave,
        weight: u64,
    ) -> Result<(), Memory>
        requires there { IfSome place (λ i. i < length self.old.desk.queue) }
        requires few { self.old.transitions + 1 < 2 ^ 32 }
        requires can { (r : Running) × CanTouch r (map touch_seen touches.now) self.old }
        ensures stepped { OnOk result ((r : Running) →
            CanTouch r (map touch_seen touches.now) self.old →
            pair_of self.new ≡ forgotten the_top (moved_pair (stand_of self.old) (arc_value event.now) place
            (map touch_seen touches.now) weight wave)) }
        ensures kept { OnOk result ((r : Running) →
            CanTouch r (map touch_seen touches.now) self.old →
            moves_in (map touch_seen touches.now) ≡ runs_in wave → IsKept r 0 self.new) }
        ensures lines { OnErr result (self.new.lines ≡ self.old.lines) }
        ensures verdict { OnErr result (self.new.verdict ≡ self.old.verdict) }
    {
        let line = line_of(event, place)?;
        self.touch_all(event, touches)?;
        self.lines.push(line)?;
        self.desk.without(place);
        self.transitions += 1;
        self.weight = weight;
        self.wave = wave;
        self.seats.sweep();
        Ok(())
    }
}
