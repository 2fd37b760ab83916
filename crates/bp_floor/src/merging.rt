//! Merging what bodies did, each function by one line of the definitions.
ghost use Rattle.std.specs.Prelude.{◌≡◌, ◌<◌, [], ℕ, length, map, OnOk, IfOk, Some};
ghost use Rattle.js_value.specs.Views.{plain_value};
ghost use Rattle.js_program.specs.declared.builtin.Mode.TheVariants as mode;
ghost use Rattle.js_meaning.specs.Bodies.{function};
ghost use Rattle.js_frames.specs.Places.{plain_effect, plain_effects, plain_ground};
ghost use Rattle.bp_log.specs.declared.limits.TheConstants.{MOST_THREADS};
ghost use Rattle.bp_run.specs.Bodies as run;
ghost use Rattle.bp_run.specs.Settling.{said, stopped, registered, unless_over, with_effect, with_effects, with_end, with_outcome, with_part, place_of};
ghost use Rattle.bp_meaning.specs.After.{effect_of};
ghost use Rattle.bp_floor.specs.inner.Entries.{entry_seen};
ghost use Rattle.bp_floor.specs.inner.Parts.{ending_seen, part_seen};
ghost use Rattle.bp_floor.specs.inner.Boards.{stand_of, pair_of, retired};
ghost use Rattle.bp_floor.specs.inner.Kept.{IsBelow, IsKept, IsOn, Running};

use crate::{Board, Ending, Entry, Part, Seat};
use bp_log::limits::{MOST_THREADS, MOST_WAITING};
use bp_log::{Line, Memory, Options, Place, Verdict};
use bp_thread::Job;
use js_data::{Event, Text};
use js_frames::{Effect, Effects, Ground};
use js_program::Mode;
use js_value::Value;
use std::alloc::{AllocError, Global};

impl Board {
    fn say(&mut self, line: Line) -> Result<(), Memory>
        ensures said { OnOk result (pair_of self.new ≡ said line (pair_of self.old)) }
        ensures keeps { OnOk result ((r : Running) (first : ℕ) → IsKept r first self.old →
            IsKept r first self.new) }
    {
        self.lines.push(line)
    }

    fn stop(&mut self, verdict: Verdict)
        ensures stopped { pair_of self.new ≡ stopped verdict (pair_of self.old) }
        ensures keeps { (r : Running) (first : ℕ) → IsKept r first self.old →
            IsKept r first self.new }
    {
        self.verdict = Some(verdict);
    }

    fn enqueue(&mut self, at: &Place, event: Event) -> Result<(), Memory>
        ensures merged { OnOk result (pair_of self.new
            ≡ with_effect at.now (run.Effect.Enqueue event) (pair_of self.old)) }
        ensures keeps { OnOk result ((r : Running) (first : ℕ) → IsKept r first self.old →
            IsKept r first self.new) }
    {
        if self.desk.waiting() == MOST_WAITING as usize {
            self.stop(Verdict::Queue);
            return Ok(());
        }
        self.desk.push(event)?;
        Ok(())
    }

    /// Puts a b-thread at the end, which runs next.
    fn admit(
        &mut self,
        alloc: Global,
        ground: &Ground,
        options: Options,
        number: u32,
        name: Text,
        callee: Value,
    ) -> Result<(), Memory>
        requires { number ≡ length self.old.seats }
        ensures merged { OnOk result (pair_of self.new
            ≡ registered name (function mode.Thread (plain_value callee) []) (pair_of self.old)) }
        ensures keeps { OnOk result (number < MOST_THREADS → (r : Running) (first : ℕ) →
            IsOn r (plain_ground ground.now) options → IsKept r first self.old →
            IsKept r first self.new) }
    {
        let named = name.copy()?;
        let budget = options.budget();
        let job = Job::start(
            alloc,
            ground,
            number,
            named,
            Mode::Thread,
            callee,
            Vec::new(alloc),
            budget,
        )?;
        self.seats.push(Seat {
            name,
            job: Some(job),
            ended: false,
        })?;
        self.wave.push(Entry::Runs(number))
    }

    fn register(
        &mut self,
        alloc: Global,
        ground: &Ground,
        options: Options,
        at: &Place,
        name: Text,
        callee: Value,
    ) -> Result<(), Memory>
        ensures merged { OnOk result (pair_of self.new
            ≡ with_effect at.now (run.Effect.Register name (function mode.Thread
            (plain_value callee) [])) (pair_of self.old)) }
        ensures keeps { OnOk result ((r : Running) (first : ℕ) →
            IsOn r (plain_ground ground.now) options → IsKept r first self.old →
            IsKept r first self.new) }
    {
        let number = self.seats.len();
        if number == MOST_THREADS as usize {
            self.stop(Verdict::Threads);
            return Ok(());
        }
        // Never this many: the limit is far below.
        if number > u32::MAX as usize {
            return Err(AllocError);
        }
        self.admit(alloc, ground, options, number as u32, name, callee)
    }

    fn effect(
        &mut self,
        alloc: Global,
        ground: &Ground,
        options: Options,
        at: &Place,
        effect: Effect,
    ) -> Result<(), Memory>
        ensures merged { OnOk result (pair_of self.new
            ≡ unless_over (with_effect at.now (effect_of (plain_effect effect)))
            (pair_of self.old)) }
        ensures keeps { OnOk result ((r : Running) (first : ℕ) →
            IsOn r (plain_ground ground.now) options → IsKept r first self.old →
            IsKept r first self.new) }
    {
        if self.verdict.is_some() {
            return Ok(());
        }
        match effect {
            Effect::Line(text) => self.say(Line::Log(at.copy()?, text)),
            Effect::Enqueue(event) => self.enqueue(at, event),
            Effect::Register(name, callee) => self.register(
                alloc, ground, options, at, name, callee,
            ),
            Effect::Handler(_) => Ok(()),
        }
    }

    fn effects(
        &mut self,
        alloc: Global,
        ground: &Ground,
        options: Options,
        at: &Place,
        effects: Effects,
    ) -> Result<(), Memory>
        ensures merged { OnOk result (pair_of self.new
            ≡ with_effects at.now (map effect_of (plain_effects effects)) (pair_of self.old)) }
        ensures keeps { OnOk result ((r : Running) (first : ℕ) →
            IsOn r (plain_ground ground.now) options → IsKept r first self.old →
            IsKept r first self.new) }
    {
        for effect in effects.items {
            self.effect(alloc, ground, options, at, effect)?;
        }
        Ok(())
    }

    /// The place of an entry, in lines and verdicts.
    fn place(&self, entry: &Entry) -> Result<Place, Memory>
        requires { IsBelow (length self.now.seats) (entry_seen entry.now) }
        ensures { IfOk result (λ p. p ≡ place_of (stand_of self.now) (entry_seen entry.now)) }
    {
        match entry {
            Entry::Top => Ok(Place::Top),
            Entry::Runs(number) => Ok(Place::Thread(self.seats.name_of(*number as usize).copy()?)),
            Entry::Stops(number, _) => {
                Ok(Place::Thread(self.seats.name_of(*number as usize).copy()?))
            }
        }
    }

    /// A b-thread has come to its end.
    fn retire(&mut self, number: u32) -> Result<(), Memory>
        requires { number < length self.old.seats }
        ensures merged { OnOk result (pair_of self.new ≡ retired number (pair_of self.old)) }
        ensures keeps { OnOk result ((r : Running) (first : ℕ) → number < first →
            IsKept r first self.old → IsKept r first self.new) }
    {
        self.restate(number, None)?;
        self.seats.end(number as usize);
        Ok(())
    }

    fn finish(&mut self, entry: &Entry) -> Result<(), Memory>
        requires { IsBelow (length self.old.seats) (entry_seen entry.now) }
        ensures merged { OnOk result (pair_of self.new
            ≡ with_end (entry_seen entry.now) (pair_of self.old)) }
        ensures keeps { OnOk result ((r : Running) (first : ℕ) →
            IsBelow first (entry_seen entry.now) → IsKept r first self.old →
            IsKept r first self.new) }
    {
        match entry {
            Entry::Top => Ok(()),
            Entry::Runs(number) => {
                let name = self.seats.name_of(*number as usize).copy()?;
                self.say(Line::Done(name))?;
                self.retire(*number)
            }
            Entry::Stops(number, _) => {
                let name = self.seats.name_of(*number as usize).copy()?;
                self.say(Line::Interrupted(name))
            }
        }
    }

    fn ending(&mut self, entry: &Entry, ending: Ending) -> Result<(), Memory>
        requires { IsBelow (length self.old.seats) (entry_seen entry.now) }
        ensures merged { OnOk result (pair_of self.new
            ≡ with_outcome (entry_seen entry.now) (ending_seen ending) (pair_of self.old)) }
        ensures keeps { OnOk result ((r : Running) (first : ℕ) →
            IsBelow first (entry_seen entry.now) → IsKept r first self.old →
            IsKept r first self.new) }
    {
        match ending {
            Ending::Stopped => Ok(()),
            Ending::Ended => self.finish(entry),
            Ending::Broken(fault, line) => {
                let place = self.place(entry)?;
                self.stop(Verdict::Fault(place, line, fault));
                Ok(())
            }
            Ending::Violated(text) => {
                let place = self.place(entry)?;
                self.stop(Verdict::Violated(place, text));
                Ok(())
            }
            Ending::Spent => {
                let place = self.place(entry)?;
                self.stop(Verdict::Spent(place));
                Ok(())
            }
        }
    }

    /// Merges the effects of an entry. Where there are none, its place is not made.
    fn effects_of(
        &mut self,
        alloc: Global,
        ground: &Ground,
        options: Options,
        entry: &Entry,
        effects: Effects,
    ) -> Result<(), Memory>
        requires { IsBelow (length self.old.seats) (entry_seen entry.now) }
        ensures merged { OnOk result (pair_of self.new
            ≡ with_effects (place_of (stand_of self.old) (entry_seen entry.now)) (map effect_of
            (plain_effects effects)) (pair_of self.old)) }
        ensures keeps { OnOk result ((r : Running) (first : ℕ) →
            IsOn r (plain_ground ground.now) options → IsKept r first self.old →
            IsKept r first self.new) }
    {
        if effects.items.is_empty() {
            return Ok(());
        }
        let place = self.place(entry)?;
        self.effects(alloc, ground, options, &place, effects)
    }

    /// Merges what the body of an entry did.
    pub fn part(
        &mut self,
        alloc: Global,
        ground: &Ground,
        options: Options,
        entry: &Entry,
        part: Part,
    ) -> Result<(), Memory>
        requires { IsBelow (length self.old.seats) (entry_seen entry.now) }
        ensures merged { OnOk result (pair_of self.new
            ≡ unless_over (with_part (entry_seen entry.now) (part_seen part)) (pair_of self.old)) }
        ensures keeps { OnOk result ((r : Running) (first : ℕ) →
            IsOn r (plain_ground ground.now) options → IsBelow first (entry_seen entry.now) →
            IsKept r first self.old → IsKept r first self.new) }
    {
        if self.verdict.is_some() {
            return Ok(());
        }
        self.effects_of(alloc, ground, options, entry, part.effects)?;
        if self.verdict.is_some() {
            return Ok(());
        }
        self.ending(entry, part.ending)
    }
}
