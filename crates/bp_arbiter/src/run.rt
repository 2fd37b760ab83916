//! A run: its floor, its words, its injectors and its records.
ghost use Rattle.std.specs.Prelude.{◌≡◌, ◌<◌, ◌≤◌, ◌+◌, ◌^◌, Bool, length, OnOk, OnErr, IfOk, IfErr, Some, slice_get, true, false};
ghost use Rattle.js_data.specs.Event.{PlainEvent};
ghost use Rattle.bp_log.specs.declared.item.Item.TheVariants as item;
ghost use Rattle.bp_run.specs.Story.{has_room, first_bad};
ghost use Rattle.bp_floor.specs.declared.absorb.Absorb.TheVariants as absorb;
ghost use Rattle.bp_floor.specs.declared.phase.Phase.{Phase};
ghost use Rattle.bp_floor.specs.declared.phase.Phase.TheVariants as phase;
ghost use Rattle.bp_floor.specs.Floors.{AreBack, CanGo, is_idle};
ghost use Rattle.bp_arbiter.specs.Absorb.{absorbed, fits, is_failed};
ghost use Rattle.bp_arbiter.specs.Pick.{picked_of};
ghost use Rattle.bp_arbiter.specs.Runs.{seen, next_in, next_chosen_in, next_idle_in, ends_or_waits, HasPlace, IsBeside, IsUnheard, IsEnded, HasCome};
ghost use Rattle.bp_arbiter.specs.Seal.{IsTurned, IsCutOff};

use crate::numbers::Numbers;
use crate::picked::Picked;
use bp_draw::Draw;
use bp_floor::{Absorb, Floor, Phase, Went};
use bp_log::limits::MOST_WAITING;
use bp_log::{Item, Memory, Record, Records, Verdict};
use bp_select::{Choice, SelectFault};
use bp_thread::Job;
use js_data::Event;
use std::alloc::{AllocError, Global};

/// All of an arbiter that a call changes. It lacks the invariant of `Arbiter`, so that a method may
/// break that on the way.
pub(crate) struct Run {
    /// Where its b-threads stand.
    pub floor: Floor,
    /// The words of the random choice.
    pub draw: Draw,
    /// The injectors that have not ended.
    pub reading: Numbers,
    /// The first bad line of an injector: the injector, and the line's number.
    pub bad: Option<(u32, u32)>,
    /// What was recorded.
    pub records: Vec<Record>,
}

impl Drop for Run {
    fn drop(self) {
        let Run {
            floor: _,
            draw: _,
            reading: _,
            bad: _,
            records: _,
        } = self;
    }
}

impl Run {
    /// The run ends in the verdict, which gets its line and its record.
    fn end(&mut self, verdict: Verdict) -> Result<Picked, Memory>
        requires idle { is_idle self.old.floor.phase ≡ true }
        requires place { HasPlace self.old }
        ensures over { IfOk result (λ k. k ≡ Picked.Over) }
        ensures ended { OnOk result (IsEnded self.old verdict self.new) }
        ensures beside { IsBeside self.old self.new }
        ensures ground { self.new.floor.base ≡ self.old.floor.base }
        ensures draw { self.new.draw ≡ self.old.draw }
        ensures failed { OnErr result (IsUnheard self.old self.new) }
    {
        let line = verdict.copy()?;
        self.floor.end(line)?;
        self.records.push_reserved(Record::End(verdict));
        Ok(Picked::Over)
    }

    /// The verdict with which a run ends where nothing is selectable, if it waits for no injector.
    fn idle_verdict(&self) -> Option<Verdict>
        ensures { next_idle_in self.now ≡ ends_or_waits result }
    {
        if let Some((injector, line)) = self.bad {
            return Some(Verdict::Bad(injector, line));
        }
        if self.floor.queue().len() == MOST_WAITING as usize {
            return Some(Verdict::Queue);
        }
        if self.reading.is_empty() || !self.floor.options().wait() {
            return Some(Verdict::Quiet(self.floor.transitions()));
        }
        None
    }

    /// Nothing is selectable: the run ends, or waits for an injector.
    fn idle(&mut self) -> Result<Picked, Memory>
        requires rest { self.old.floor.phase ≡ phase.Rest }
        requires place { HasPlace self.old }
        ensures picked { IfOk result (λ k. k ≡ picked_of (next_idle_in self.old)) }
        ensures comes { OnOk result (HasCome self.old (next_idle_in self.old) self.new) }
        ensures beside { IsBeside self.old self.new }
        ensures ground { self.new.floor.base ≡ self.old.floor.base }
        ensures draw { self.new.draw ≡ self.old.draw }
        ensures failed { OnErr result (IsUnheard self.old self.new) }
    {
        match self.idle_verdict() {
            Some(verdict) => self.end(verdict),
            None => Ok(Picked::Wait),
        }
    }

    /// Selects an event that was chosen, unless it would pass a limit or its reach is at fault.
    fn select(&mut self, alloc: Global, event: Event, place: Option<u32>) -> Result<Picked, Memory>
        requires rest { self.old.floor.phase ≡ phase.Rest }
        requires can { CanGo self.old.floor event place }
        requires place { HasPlace self.old }
        ensures picked { IfOk result (λ k. k ≡ picked_of (next_chosen_in self.old event place)) }
        ensures comes { OnOk result
            (HasCome self.old (next_chosen_in self.old event place) self.new) }
        ensures beside { IsBeside self.old self.new }
        ensures ground { self.new.floor.base ≡ self.old.floor.base }
        ensures draw { self.new.draw ≡ self.old.draw }
        ensures failed { OnErr result (IsUnheard self.old self.new) }
    {
        let steps = self.floor.options().steps();
        if self.floor.transitions() == steps {
            return self.end(Verdict::Steps(steps));
        }
        match self.floor.go(alloc, &event, place)? {
            Went::Moved => {
                self.records.push_reserved(Record::Sel(event));
                Ok(Picked::Moved)
            }
            Went::Stopped(verdict) => self.end(verdict),
        }
    }

    /// Selects the event at this place of the queue, as `select`.
    fn select_queued(&mut self, alloc: Global, place: u32) -> Result<Picked, Memory>
        requires rest { self.old.floor.phase ≡ phase.Rest }
        requires within { place < length self.old.floor.pair.stand.queue }
        requires can { (e : PlainEvent) → slice_get self.old.floor.pair.stand.queue place ≡ Some e →
            CanGo self.old.floor e (Some place) }
        requires place { HasPlace self.old }
        ensures picked { IfOk result (λ k. (e : PlainEvent) →
            slice_get self.old.floor.pair.stand.queue place ≡ Some e →
            k ≡ picked_of (next_chosen_in self.old e (Some place))) }
        ensures comes { OnOk result ((e : PlainEvent) →
            slice_get self.old.floor.pair.stand.queue place ≡ Some e →
            HasCome self.old (next_chosen_in self.old e (Some place)) self.new) }
        ensures beside { IsBeside self.old self.new }
        ensures ground { self.new.floor.base ≡ self.old.floor.base }
        ensures draw { self.new.draw ≡ self.old.draw }
        ensures failed { OnErr result (IsUnheard self.old self.new) }
    {
        let event = self.floor.queue()[place as usize].copy()?;
        self.select(alloc, event, Some(place))
    }

    /// What comes next: an event is selected, or the run waits or ends.
    pub fn pick(&mut self, alloc: Global) -> Result<Picked, Memory>
        requires rest { self.old.floor.phase ≡ phase.Rest }
        requires whole { self.old.floor.broken ≡ false }
        requires words { self.old.draw.drawn + 1 < 2 ^ 64 }
        requires seed { self.old.draw.seed ≡ self.old.floor.options.seed }
        ensures picked { IfOk result (λ k. k ≡ picked_of (next_in self.old)) }
        ensures comes { OnOk result (HasCome self.old (next_in self.old) self.new) }
        ensures beside { IsBeside self.old self.new }
        ensures ground { self.new.floor.base ≡ self.old.floor.base }
        ensures drawn { self.new.draw.drawn ≤ self.old.draw.drawn + 1 }
        ensures failed { OnErr result (IsUnheard self.old self.new) }
    {
        // For the proof: what the floor keeps.
        self.floor.keeps();
        self.records.reserve(1)?;
        match self.floor.choose(alloc, &mut self.draw) {
            Ok(Choice::Internal(event)) => self.select(alloc, event, None),
            Ok(Choice::External(place)) => self.select_queued(alloc, place),
            Ok(Choice::Nothing) => self.idle(),
            Err(SelectFault::Set(number, fault)) => {
                let verdict = self.floor.fault_verdict(number, fault)?;
                self.end(verdict)
            }
            Err(SelectFault::Memory) => Err(AllocError),
        }
    }

    /// An event of an injector waits at the end of the queue.
    fn offer(&mut self, injector: u32, event: Event) -> Result<(), Absorb>
        requires rest { self.old.floor.phase ≡ phase.Rest }
        requires room { has_room self.old.floor.pair.stand ≡ true }
        requires place { HasPlace self.old }
        ensures absorbed { OnOk result ((f : Phase) (b : Bool) →
            seen self.new f b ≡ absorbed injector (item.Offered event) (seen self.old f b)) }
        ensures refused { IfErr result (λ a. a ≡ absorb.Memory (item.Offered event)) }
        ensures same { OnErr result ((f : Phase) (b : Bool) →
            seen self.new f b ≡ seen self.old f b) }
        ensures seed { self.new.draw.seed ≡ self.old.draw.seed }
    {
        let Ok(kept) = event.copy() else {
            return Err(Absorb::Memory(Item::Offered(event)));
        };
        self.floor.enqueue(event)?;
        self.records.push_reserved(Record::In(injector, kept));
        Ok(())
    }

    /// The item of an injector enters.
    pub fn absorb(&mut self, injector: u32, item: Item) -> Result<(), Absorb>
        requires rest { self.old.floor.phase ≡ phase.Rest }
        requires sound { is_failed item ≡ false }
        requires fits { fits self.old.floor.pair.stand item ≡ true }
        requires place { HasPlace self.old }
        ensures absorbed { OnOk result ((f : Phase) (b : Bool) →
            seen self.new f b ≡ absorbed injector item (seen self.old f b)) }
        ensures refused { IfErr result (λ a. a ≡ absorb.Memory item) }
        ensures same { OnErr result ((f : Phase) (b : Bool) →
            seen self.new f b ≡ seen self.old f b) }
        ensures seed { self.new.draw.seed ≡ self.old.draw.seed }
    {
        match item {
            Item::Offered(event) => self.offer(injector, event),
            Item::Bad(line) => {
                self.reading.take_away(injector);
                self.bad = first_bad(self.bad, injector, line);
                self.records.push_reserved(Record::Bad(injector, line));
                Ok(())
            }
            Item::Failed => unreachable!(),
            Item::End => {
                self.reading.take_away(injector);
                self.records.push_reserved(Record::Eof(injector));
                Ok(())
            }
        }
    }

    /// Merges what the lent jobs did; a verdict gets its line and its record.
    pub fn seal(&mut self, alloc: Global, jobs: Vec<Job>) -> Result<Phase, Memory>
        requires lent { self.old.floor.phase ≡ phase.Lent }
        requires whole { self.old.floor.broken ≡ false }
        requires back { AreBack self.old.floor jobs.items }
        ensures answered { IfOk result (λ f. f ≡ self.new.floor.phase) }
        ensures turned { OnOk result (IsTurned self.old jobs.items self.new) }
        ensures beside { IsBeside self.old self.new }
        ensures failed { OnErr result (IsCutOff self.old jobs.items self.new) }
    {
        self.records.reserve(1)?;
        let phase = self.floor.seal(alloc, jobs)?;
        if let Some(verdict) = self.floor.verdict() {
            let verdict = verdict.copy()?;
            self.end(verdict)?;
        }
        Ok(phase)
    }

    /// The records, moved out.
    pub fn into_records(self) -> Records
        ensures { result ≡ self.records.items }
    {
        let Run {
            floor: _,
            draw: _,
            reading: _,
            bad: _,
            records,
        } = self;
        Records::new(records)
    }
}

/// The first bad line: the one that is there, or else this one.
fn first_bad(bad: Option<(u32, u32)>, injector: u32, line: u32) -> Option<(u32, u32)>
    ensures { result ≡ first_bad bad injector line }
{
    match bad {
        Some(first) => Some(first),
        None => Some((injector, line)),
    }
}
