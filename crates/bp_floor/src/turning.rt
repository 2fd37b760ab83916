//! A turn: the jobs come back, and what they did is merged.
ghost use Rattle.std.specs.Prelude.{◌≡◌, ◌<◌, ◌∷◌, [], ℕ, List, length, map, option_map, OnOk, OnErr, IfOk, None, Some, true};
ghost use Rattle.std.specs.Vec.Iter.{into_iter_items};
ghost use Rattle.js_value.specs.Value.{PlainSet};
ghost use Rattle.bp_thread.specs.declared.job.Job.{Job};
ghost use Rattle.js_meaning.specs.Bodies.{Origin, the_top};
ghost use Rattle.js_frames.specs.Places.{plain_ground};
ghost use Rattle.bp_run.specs.Bodies as run;
ghost use Rattle.bp_run.specs.Settling as settling;
ghost use Rattle.bp_run.specs.Settling.{merged, turn, before};
ghost use Rattle.bp_live.specs.Placing.{live_at};
ghost use Rattle.bp_thread.specs.Views.{plain_statement};
ghost use Rattle.bp_thread.specs.Jobs.{plain_job, is_ended};
ghost use Rattle.bp_floor.specs.inner.Seats.{seated, stop_at};
ghost use Rattle.bp_floor.specs.inner.Entries.{entry_seen};
ghost use Rattle.bp_floor.specs.inner.Parts.{part_seen, ending_seen, unstated};
ghost use Rattle.bp_code.specs.Code.{sealed_code_of as code_of};
ghost use Rattle.bp_floor.specs.inner.Boards.{stand_of, pair_of};
ghost use Rattle.bp_floor.specs.Forgetting.{forgotten};
ghost use Rattle.bp_floor.specs.inner.Kept.{Running, AreBelow, IsKept, IsOn};
ghost use Rattle.bp_floor.specs.Loans.{filled, filled_pair, has_body};
ghost use Rattle.bp_floor.specs.Returns.{IsBack, IsPut, IsSameBut, IsFilled, IsKeptBy, RunsBelow, Puts, AreAllBack, entry_in, turned_apart};

use crate::{Board, Ending, Entry, Part, Ran, Rans, Wave};
use bp_log::{Lines, Memory, Options};
use bp_thread::{Job, Outcome, Statement};
use js_frames::{Effects, Ground};
use std::alloc::Global;
use std::mem;
use std::vec::IntoIter;

impl Entry {
    /// Whether it has a body.
    fn has_body(&self) -> bool
        ensures { result ≡ has_body (entry_seen self.now) }
    {
        match self {
            Entry::Top => true,
            Entry::Runs(_) => true,
            Entry::Stops(_, handler) => handler.is_some(),
        }
    }
}

/// How a job came to a stop.
fn ending_of(job: &Job) -> Result<Ending, Memory>
    ensures { IfOk result (λ e. (x : run.Outcome PlainSet) → (plain_job job.now).outcome ≡ Some x →
        ending_seen e ≡ unstated x) }
{
    match job.outcome() {
        None => Ok(Ending::Ended),
        Some(Outcome::Stopped(_)) => Ok(Ending::Stopped),
        Some(Outcome::Ended) => Ok(Ending::Ended),
        Some(Outcome::Broken(fault, line)) => Ok(Ending::Broken(*fault, *line)),
        Some(Outcome::Violated(text)) => Ok(Ending::Violated(text.copy()?)),
        Some(Outcome::Spent) => Ok(Ending::Spent),
    }
}

/// What a job states.
fn statement_of(job: &Job) -> Result<Option<Statement>, Memory>
    ensures { IfOk result (λ s. (k : ℕ) → stop_at k (plain_job job.now).outcome
        ≡ live_at k (option_map plain_statement s)) }
{
    match job.outcome() {
        None => Ok(None),
        Some(Outcome::Stopped(statement)) => Ok(Some(statement.copy()?)),
        Some(Outcome::Ended) => Ok(None),
        Some(Outcome::Broken(_, _)) => Ok(None),
        Some(Outcome::Violated(_)) => Ok(None),
        Some(Outcome::Spent) => Ok(None),
    }
}

/// Whether a job came to its end.
fn has_ended(job: &Job) -> bool
    ensures { result ≡ is_ended (plain_job job.now).outcome }
{
    matches!(job.outcome(), Some(Outcome::Ended))
}

/// The constants are those that the top level leaves, if it came to its end.
fn fill(ground: &mut Ground, job: Job)
    ensures program { ground.new.program ≡ ground.old.program }
    ensures filled { IsFilled job (plain_ground ground.old) (plain_ground ground.new) }
{
    if has_ended(&job) {
        ground.fill(job.constants());
    }
}

impl Board {
    /// A job is back in its place.
    fn put(&mut self, number: u32, job: Job) -> Result<(), Memory>
        requires { number < length self.old.seats }
        ensures { OnOk result (IsPut number job self.old self.new) }
    {
        let statement = statement_of(&job)?;
        self.restate(number, statement)?;
        self.seats.put(number as usize, job);
        Ok(())
    }

    /// A job whose effects were taken goes to its place: only a b-thread's own is kept.
    fn keep(&mut self, ground: &mut Ground, entry: &Entry, job: Job) -> Result<(), Memory>
        requires { RunsBelow (length self.old.seats) (entry_seen entry.now) }
        ensures program { ground.new.program ≡ ground.old.program }
        ensures kept { OnOk result (IsKeptBy (entry_seen entry.now) job
            (plain_ground ground.old) self.old (plain_ground ground.new) self.new) }
    {
        match entry {
            Entry::Top => {
                fill(ground, job);
                Ok(())
            }
            Entry::Runs(number) => self.put(*number, job),
            Entry::Stops(_, _) => Ok(()),
        }
    }

    /// The job of an entry comes back.
    fn back(&mut self, ground: &mut Ground, entry: &Entry, mut job: Job) -> Result<Part, Memory>
        requires below { RunsBelow (length self.old.seats) (entry_seen entry.now) }
        requires body { has_body (entry_seen entry.now) ≡ true }
        ensures program { ground.new.program ≡ ground.old.program }
        ensures puts { IfOk result (λ p. (js : List Job) →
            Puts (entry_seen entry.now) (job ∷ js) (plain_ground ground.old) self.old js
            (plain_ground ground.new) self.new (part_seen p)) }
    {
        let effects = job.take_effects();
        let ending = ending_of(&job)?;
        self.keep(ground, entry, job)?;
        Ok(Part { effects, ending })
    }

    /// What the body of the next entry did, if it has one. Its job comes back.
    fn next_part(
        &mut self,
        alloc: Global,
        ground: &mut Ground,
        entry: &Entry,
        jobs: &mut IntoIter<Job>,
    ) -> Result<Part, Memory>
        requires { (r : Running) × (ns : List (settling.Entry Origin))
            × IsBack r (plain_ground ground.old) (entry_seen entry.now ∷ ns)
            (into_iter_items jobs.old) self.old }
        ensures program { ground.new.program ≡ ground.old.program }
        ensures puts { IfOk result (λ p. Puts (entry_seen entry.now) (into_iter_items jobs.old)
            (plain_ground ground.old) self.old
            (into_iter_items jobs.new) (plain_ground ground.new) self.new (part_seen p)) }
    {
        let idle = Part {
            effects: Effects::new(alloc),
            ending: Ending::Ended,
        };
        if !entry.has_body() {
            return Ok(idle);
        }
        match jobs.next() {
            None => Ok(idle),
            Some(job) => self.back(ground, entry, job),
        }
    }

    /// The jobs come back, and what their bodies did is told.
    fn put_back(
        &mut self,
        alloc: Global,
        ground: &mut Ground,
        wave: Wave,
        mut jobs: IntoIter<Job>,
    ) -> Result<Rans, Memory>
        requires { (r : Running)
            × IsBack r (plain_ground ground.old) wave (into_iter_items jobs) self.old }
        ensures program { ground.new.program ≡ ground.old.program }
        ensures back { IfOk result (λ rans. (r : Running) →
            IsBack r (plain_ground ground.old) wave (into_iter_items jobs) self.old →
            AreAllBack r wave (filled wave (into_iter_items jobs) (map seated self.old.seats))
            (plain_ground ground.new) self.new rans) }
        ensures same { OnOk result (IsSameBut self.old self.new) }
    {
        let entries = wave.into_vec();
        let mut rans = Rans::with_capacity(alloc, entries.len())?;
        for entry in entries {
            let part = self.next_part(alloc, ground, &entry, &mut jobs)?;
            rans.push(Ran { entry, part })?;
        }
        Ok(rans)
    }

    /// Merges what bodies did, in order.
    fn merge(
        &mut self,
        alloc: Global,
        ground: &Ground,
        options: Options,
        rans: Rans,
    ) -> Result<(), Memory>
        requires { AreBelow (length self.old.seats) (map entry_in rans) }
        ensures merged { OnOk result (pair_of self.new ≡ merged rans (pair_of self.old)) }
        ensures keeps { OnOk result ((r : Running) (first : ℕ) →
            IsOn r (plain_ground ground.now) options → AreBelow first (map entry_in rans) →
            IsKept r first self.old → IsKept r first self.new) }
    {
        for Ran { entry, part } in rans.into_vec() {
            self.part(alloc, ground, options, &entry, part)?;
        }
        Ok(())
    }

    /// A turn of a board that has neither lines nor entries.
    fn turn_apart(
        &mut self,
        alloc: Global,
        ground: &mut Ground,
        options: Options,
        wave: Wave,
        jobs: IntoIter<Job>,
    ) -> Result<(), Memory>
        requires back { (r : Running) × (options ≡ r.options)
            × IsBack r (plain_ground ground.old) wave (into_iter_items jobs) self.old }
        requires clear { self.old.wave ≡ [] }
        ensures program { ground.new.program ≡ ground.old.program }
        ensures turned { OnOk result ((r : Running) → options ≡ r.options →
            IsBack r (plain_ground ground.old) wave (into_iter_items jobs) self.old →
            pair_of self.new ≡ turned_apart r wave (filled wave (into_iter_items jobs)
            (map seated self.old.seats)) (stand_of self.old)) }
        ensures kept { OnOk result ((r : Running) → options ≡ r.options →
            IsBack r (plain_ground ground.old) wave (into_iter_items jobs) self.old →
            IsKept r 0 self.new × IsOn r (plain_ground ground.new) options) }
    {
        let rans = self.put_back(alloc, ground, wave, jobs)?;
        self.merge(alloc, ground, options, rans)?;
        self.seats.sweep();
        Ok(())
    }

    /// A turn, with what the jobs did.
    pub fn turn(
        &mut self,
        alloc: Global,
        ground: &mut Ground,
        options: Options,
        jobs: Vec<Job>,
    ) -> Result<(), Memory>
        requires back { (r : Running) × (options ≡ r.options)
            × IsBack r (plain_ground ground.old) self.old.wave jobs.items self.old }
        requires open { self.old.verdict ≡ None }
        ensures program { ground.new.program ≡ ground.old.program }
        ensures turned { OnOk result ((r : Running) → options ≡ r.options →
            IsBack r (plain_ground ground.old) self.old.wave jobs.items self.old →
            pair_of self.new ≡ forgotten the_top (turn (code_of r.program r.options)
            (filled_pair jobs.items (pair_of self.old)))) }
        ensures kept { OnOk result ((r : Running) → options ≡ r.options →
            IsBack r (plain_ground ground.old) self.old.wave jobs.items self.old →
            IsKept r 0 self.new × IsOn r (plain_ground ground.new) options) }
        ensures lines { OnErr result (self.new.lines ≡ self.old.lines) }
        ensures verdict { OnErr result (self.new.verdict ≡ None) }
    {
        let pending = self.lines.take();
        let wave = mem::replace(&mut self.wave, Wave::new(alloc));
        match self.turn_apart(alloc, ground, options, wave, jobs.into_iter()) {
            Ok(()) => self.join_lines(pending),
            Err(error) => {
                self.give_up(pending);
                Err(error)
            }
        }
    }

    /// The lines of a turn come after those that were not taken yet.
    fn join_lines(&mut self, pending: Lines) -> Result<(), Memory>
        ensures joined { OnOk result (pair_of self.new ≡ before pending (pair_of self.old)) }
        ensures keeps { OnOk result ((r : Running) (first : ℕ) → IsKept r first self.old →
            IsKept r first self.new) }
        ensures lines { OnErr result (self.new.lines ≡ pending) }
        ensures verdict { OnErr result (self.new.verdict ≡ None) }
    {
        let fresh = mem::replace(&mut self.lines, pending);
        if let Err(error) = self.lines.append(fresh) {
            self.verdict = None;
            return Err(error);
        }
        Ok(())
    }

    /// Lines and verdict as they were before a turn that was given up.
    fn give_up(&mut self, pending: Lines)
        ensures lines { self.new.lines ≡ pending }
        ensures verdict { self.new.verdict ≡ None }
    {
        self.lines = pending;
        self.verdict = None;
    }
}
