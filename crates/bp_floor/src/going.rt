//! An event is selected: whom it reaches, and what it weighs.
ghost use Rattle.std.specs.Prelude.{◌≡◌, ◌<◌, ◌≤◌, ◌+◌, ◌*◌, List, Some, Ok, length, map, option_map, IfOk, OnOk, OnErr};
ghost use Rattle.std.specs.Arc.{arc_value};
ghost use Rattle.js_data.specs.Event.{event_weight};
ghost use Rattle.js_frames.specs.Places.{plain_ground};
ghost use Rattle.bp_log.specs.declared.limits.TheConstants.{MOST_THREADS, MOST_WEIGHT};
ghost use Rattle.bp_run.specs.Choosing.{Touched, reach};
ghost use Rattle.bp_run.specs.Numbers.{number_in};
ghost use Rattle.bp_run.specs.Selecting.{live};
ghost use Rattle.bp_select.specs.Answers.{IsReach};
ghost use Rattle.bp_floor.specs.inner.Boards.{pair_of, stand_of};
ghost use Rattle.bp_floor.specs.inner.Kept.{Rises};
ghost use Rattle.bp_floor.specs.inner.Reached.{touch_seen};
ghost use Rattle.bp_floor.specs.Floors.{PlainFloor, CanGo, GoesAs, code_on, phase_of, stop_of, told_verdict};
ghost use Rattle.bp_floor.specs.inner.Transition.{IsResting, IsSoundOn, LooksAs, floor_on, first_touch};

use crate::{Board, Phase, Touch, Went};
use bp_log::limits::MOST_WEIGHT;
use bp_log::{Memory, Options, Place, Verdict};
use bp_select::{Reach, SelectFault};
use bp_sets::SetFault;
use js_data::{Event, Fault};
use js_frames::Ground;
use std::alloc::{AllocError, Global};
use std::sync::Arc;

/// What an event leads to.
#[derive(Drop)]
pub(crate) enum Outlook {
    /// It reaches these, and the run weighs so much afterwards.
    Reaches(Reach, u64),
    /// It stops the run.
    Stops(Verdict),
}

/// The first of the next that goes on and the next that is interrupted.
fn first_touch(moved: Option<&u32>, interrupted: Option<&u32>) -> Option<Touch>
    ensures { option_map touch_seen result
        ≡ first_touch (option_map (λ n. n.now) moved.entry) (option_map
        (λ n. n.now) interrupted.entry) }
{
    match (moved, interrupted) {
        (Some(first), Some(other)) => {
            if *first < *other {
                return Some(Touch::Moves(*first));
            }
            Some(Touch::Interrupts(*other))
        }
        (Some(first), None) => Some(Touch::Moves(*first)),
        (None, Some(other)) => Some(Touch::Interrupts(*other)),
        (None, None) => None,
    }
}

/// Whom an event reaches, in registration order.
fn touches_of(alloc: Global, reach: &Reach) -> Result<Vec<Touch>, Memory>
    ensures { IfOk result (λ ts. (xs : List Touched) → IsReach xs reach.now →
        Rises (map number_in xs) → map touch_seen ts.items ≡ xs) }
{
    let mut touches = Vec::new(alloc);
    let mut moved = 0;
    let mut interrupted = 0;
    for _touch in 0..reach.moved.len() + reach.interrupted.len() {
        match first_touch(reach.moved.get(moved), reach.interrupted.get(interrupted)) {
            Some(Touch::Moves(number)) => {
                touches.push(Touch::Moves(number))?;
                moved += 1;
            }
            Some(Touch::Interrupts(number)) => {
                touches.push(Touch::Interrupts(number))?;
                interrupted += 1;
            }
            None => {}
        }
    }
    Ok(touches)
}

/// A copy of the event, which all that are given it share.
fn share(alloc: Global, event: &Event) -> Result<Arc<Event>, Memory>
    ensures { IfOk result (λ shared. arc_value shared ≡ event.now) }
{
    let copied = event.copy()?;
    Ok(Arc::new(alloc, copied)?)
}

impl Board {
    /// The fault of a set, as the verdict in the name of its b-thread.
    pub fn fault_verdict(&self, number: u32, fault: SetFault) -> Result<Verdict, Memory>
        requires { number < length self.now.seats }
        ensures { IfOk result (λ v. told_verdict (stand_of self.now) number fault ≡ Some v) }
    {
        let place = Place::Thread(self.seats.name_of(number as usize).copy()?);
        match fault {
            SetFault::Broken(fault, line) => Ok(Verdict::Fault(place, line, fault)),
            SetFault::Spent => Ok(Verdict::Spent(place)),
            SetFault::NotTruth(line) => Ok(Verdict::Fault(place, line, Fault::Truth)),
            SetFault::Memory => Err(AllocError),
        }
    }

    /// The weight of the run after an event that this many receive.
    fn weight_after(&self, event: &Event, moved: usize) -> u64
        requires light { self.now.weight ≤ MOST_WEIGHT }
        requires few { moved ≤ MOST_THREADS }
        ensures { result ≡ self.now.weight + event_weight event.now * (1 + moved) }
    {
        // For the proof: what the event keeps.
        event.keeps();
        self.weight + event.weight() * (1 + moved as u64)
    }

    /// What an event leads to that reaches these.
    fn weighed(&self, event: &Event, reached: Reach) -> Outlook
        requires light { self.now.weight ≤ MOST_WEIGHT }
        requires few { length reached.moved.items ≤ MOST_THREADS }
        ensures { (f : PlainFloor) (xs : List Touched) → f.pair ≡ pair_of self.now →
            reach (code_on f).has event.now (live (code_on f) f.pair.stand) ≡ Ok xs →
            IsReach xs reached → LooksAs f event.now result }
    {
        let weight = self.weight_after(event, reached.moved.len());
        if weight > MOST_WEIGHT {
            return Outlook::Stops(Verdict::Weight);
        }
        Outlook::Reaches(reached, weight)
    }

    /// What an event leads to.
    fn look(
        &mut self,
        alloc: Global,
        ground: &Ground,
        options: Options,
        event: &Event,
    ) -> Result<Outlook, Memory>
        requires { IsResting (plain_ground ground.now) options self.old }
        ensures looks { IfOk result (LooksAs (floor_on
            (plain_ground ground.now) options self.old) event.now) }
        ensures same { pair_of self.new ≡ pair_of self.old }
        ensures resting { IsResting (plain_ground ground.now) options self.new }
    {
        match self.desk.reach(alloc, ground, event, options.budget()) {
            Ok(reach) => Ok(self.weighed(event, reach)),
            Err(SelectFault::Set(number, fault)) => Ok(Outlook::Stops(self.fault_verdict(
                number, fault,
            )?)),
            Err(SelectFault::Memory) => Err(AllocError),
        }
    }

    /// The verdict with which an event stops the run, if there is one.
    pub fn stop_at(
        &mut self,
        alloc: Global,
        ground: &Ground,
        options: Options,
        event: &Event,
    ) -> Result<Option<Verdict>, Memory>
        requires { IsResting (plain_ground ground.now) options self.old }
        ensures stop { IfOk result (λ v. v
            ≡ stop_of (floor_on (plain_ground ground.now) options self.old) event.now) }
        ensures same { pair_of self.new ≡ pair_of self.old }
        ensures resting { IsResting (plain_ground ground.now) options self.new }
    {
        match self.look(alloc, ground, options, event)? {
            Outlook::Reaches(_, _) => Ok(None),
            Outlook::Stops(verdict) => Ok(Some(verdict)),
        }
    }

    /// The transition of an event, unless it would stop the run.
    pub fn go(
        &mut self,
        alloc: Global,
        ground: &Ground,
        options: Options,
        event: &Event,
        place: Option<u32>,
    ) -> Result<Went, Memory>
        requires resting { IsResting (plain_ground ground.now) options self.old }
        requires can { CanGo (floor_on (plain_ground ground.now) options self.old) event.now place }
        ensures goes { IfOk result (λ w. GoesAs (floor_on
            (plain_ground ground.now) options self.old) event.now place w (floor_on
            (plain_ground ground.now) options self.new)) }
        ensures sound { OnOk result (IsSoundOn (plain_ground ground.now) options self.new (phase_of
            (pair_of self.new))) }
        ensures lines { OnErr result (self.new.lines ≡ self.old.lines) }
        ensures verdict { OnErr result (self.new.verdict ≡ self.old.verdict) }
    {
        match self.look(alloc, ground, options, event)? {
            Outlook::Stops(verdict) => Ok(Went::Stopped(verdict)),
            Outlook::Reaches(reach, weight) => {
                let touches = touches_of(alloc, &reach)?;
                let shared = share(alloc, event)?;
                let wave = self.seats.entries(alloc, &shared, touches.as_slice())?;
                self.step(&shared, place, touches.as_slice(), wave, weight)?;
                Ok(Went::Moved)
            }
        }
    }

    /// What can be done now.
    pub fn phase(&self) -> Phase
        ensures { result ≡ phase_of (pair_of self.now) }
    {
        if self.verdict.is_some() {
            return Phase::Over;
        }
        if self.wave.is_empty() {
            return Phase::Rest;
        }
        Phase::Ready
    }
}
