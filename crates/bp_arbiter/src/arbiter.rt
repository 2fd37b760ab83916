//! The arbiter.
ghost use Rattle.std.specs.Prelude.{◌≡◌, ◌↔◌, ◌<◌, ◌≤◌, ◌+◌, ◌++◌, [], List, nat_eq, not, length, option_map, option_to_list, OnOk, OnErr, IfOk, IfErr, IsErr, IsSome, MatchResult, Some, true, false};
ghost use Rattle.std.specs.List.{list_any};
ghost use Rattle.js_meaning.specs.Bodies.{Origin};
ghost use Rattle.js_frames.specs.Places.{plain_ground};
ghost use Rattle.bp_log.specs.Records.{is_complete, verdict_of};
ghost use Rattle.bp_log.specs.declared.limits.TheConstants.{MOST_THREADS};
ghost use Rattle.bp_log.specs.declared.trace.Line.{Line};
ghost use Rattle.bp_log.specs.declared.verdict.Verdict.{Verdict as End};
ghost use Rattle.bp_run.specs.Configuration.{Configuration};
ghost use Rattle.bp_run.specs.Settling.{Pair, opening};
ghost use Rattle.bp_run.specs.Selecting.{selectable};
ghost use Rattle.bp_run.specs.Story.{has_room, record_of};
ghost use Rattle.bp_run.specs.Story as story;
ghost use Rattle.bp_thread.specs.declared.job.Job.{Job as Lent};
ghost use Rattle.bp_thread.specs.Carried.{HaveDistinctNumbers};
ghost use Rattle.bp_floor.specs.declared.phase.Phase.TheVariants as phase;
ghost use Rattle.bp_select.specs.Answers.{AnswersAs, enabled_of};
ghost use Rattle.bp_floor.specs.Floors.{IsPhased, has_on, is_idle, live_on, phase_of};
ghost use Rattle.bp_arbiter.specs.declared.picked.Picked.TheVariants as picked;
ghost use Rattle.bp_arbiter.specs.Arbiters.{opened, code_in, options_in, stand_in, Recounts, coming, StandsFor, StandsSomewhere, Tells, is_lent, is_over, HadMemory, IsGivenUp, Keeps, Shows};
ghost use Rattle.bp_arbiter.specs.Absorb.{is_failed, fits, ComesBack, with_item, absorbed};
ghost use Rattle.bp_arbiter.specs.Pick.{picked_of, after_pick, phase_after};
ghost use Rattle.bp_arbiter.specs.Lend.{AreOut, AreBack, AreReturned};
ghost use Rattle.bp_arbiter.specs.Seal.{ending, after_turn};

use crate::numbers::Numbers;
use crate::picked::Picked;
use crate::run::Run;
use bp_draw::Draw;
use bp_floor::{Absorb, Floor, Phase};
use bp_log::limits::MOST_WAITING;
use bp_log::{Item, Lines, Memory, Options, Record, Records, Verdict, verdict_of};
use bp_select::{Enabled, SelectFault};
use bp_thread::Job;
use js_frames::Ground;
use js_program::Program;
use std::alloc::{AllocError, Global};
use std::marker::Model;

/// The arbiter of a run.
///
/// It stands for the story of its records: at `Rest` and `Over` its floor is where the story leads, and
/// at `Ready` and `Lent` turns are left on the way there. After memory ran out from `pick`, `lend` or
/// `seal` each later one of them answers it too; the records are a story still, and the lines taken and to
/// be taken are the first of its lines.
pub struct Arbiter {
    run: Run,
    /// After memory ran out, that before the call.
    phase: Phase,
    /// Memory ran out.
    broken: bool,
}

impl Drop for Arbiter {
    fn drop(self) {
        let Arbiter {
            run: _,
            phase: _,
            broken: _,
        } = self;
    }
}

impl Model for Arbiter {
    ghost use Rattle.std.specs.Coded.{codes};
    ghost use Rattle.js_data.specs.Codes.{event_code};
    ghost use Rattle.js_value.specs.Codes.{value_code};
    ghost use Rattle.bp_log.specs.contracts.trace.Line as e;
    ghost use Rattle.bp_log.specs.contracts.verdict.Verdict as v;
    ghost use Rattle.bp_log.specs.contracts.record.Record as r;
    ghost use Rattle.bp_log.specs.contracts.options.Strategy as s;
    ghost use Rattle.bp_floor.specs.contracts.phase.Phase as ph;
    ghost use Rattle.bp_arbiter.specs.Arbiters.{PlainArbiter};
    ghost use Rattle.bp_arbiter.specs.Runs.{seen};
    ghost use Rattle.bp_arbiter.specs.Sound.{IsSound};

    ghost Value = { PlainArbiter };

    ghost coded = { Prim.hlevel (
      codes,
      event_code,
      value_code,
      e.the_row.coded,
      v.the_row.coded,
      r.the_row.coded,
      s.the_row.coded,
      ph.the_row.coded,
    ) };

    ghost view = { λ a. seen a.run a.phase a.broken };

    ghost invariant = { λ a. IsSound a.run.draw.seed (seen a.run a.phase a.broken) };
}

impl Arbiter {
    /// The arbiter of a program before anything has run: its top level is to be run.
    pub fn open(alloc: Global, program: Program, options: Options) -> Result<Arbiter, Memory>
        ensures opened { IfOk result (λ a. a ≡ opened program options) }
        ensures stands { IfOk result (λ a. StandsFor a [] [] opening) }
    {
        Ok(Arbiter {
            run: Run {
                floor: Floor::open(alloc, program, options)?,
                draw: Draw::new(options.seed()),
                reading: Numbers::below(alloc, options.injectors())?,
                bad: None,
                records: Vec::new(alloc),
            },
            phase: Phase::Ready,
            broken: false,
        })
    }

    /// What an arbiter keeps unless memory ran out, as a fact for its callers. Does nothing.
    pub fn keeps(&self)
        ensures stands { self.now.broken ≡ false → is_lent self.now.phase ≡ false →
            StandsSomewhere self.now }
        ensures kept { self.now.broken ≡ false → Keeps self.now }
        ensures few { self.now.broken ≡ false → length (stand_in self.now).threads ≤ MOST_THREADS }
        ensures complete { is_complete self.now.records ≡ is_over self.now.phase }
        ensures phased { self.now.broken ≡ false → IsPhased self.now.floor }
        ensures tells { (jobs : List Lent) (taken : List Line) (p : Pair Origin) →
            StandsFor self.now jobs taken p → Tells self.now taken }
        ensures exact { (taken : List Line) (p : Pair Origin) → StandsFor self.now [] taken p →
            is_idle self.now.phase ≡ true →
            (c : Configuration Origin) → Recounts self.now c →
            c.stand.lines ≡ taken ++ (stand_in self.now).lines }
    {
        // Reads a field for the proof alone: so what the type keeps is known.
        let _run = &self.run;
        // For the proof: what the floor keeps.
        self.run.floor.keeps();
    }

    /// What can be done: after memory ran out that before the call.
    pub fn phase(&self) -> Phase
        ensures { result ≡ self.now.phase }
    {
        self.phase
    }

    /// The floor: at `Rest` and `Over` its queue, transitions and live b-threads are those of the
    /// story, until memory runs out.
    pub fn floor(&self) -> &Floor
        ensures floor { result.now ≡ self.now.floor }
        ensures shows { self.now.broken ≡ false → is_idle self.now.phase ≡ true →
            (c : Configuration Origin) → Recounts self.now c → Shows (stand_in self.now) c.stand }
    {
        // For the proof: what the floor keeps.
        self.run.floor.keeps();
        &self.run.floor
    }

    /// The program, with its constants once the top level has run: the ground of the jobs that are lent.
    pub fn ground(&self) -> &Ground
        ensures { plain_ground result.now ≡ self.now.floor.base }
    {
        self.run.floor.ground()
    }

    /// What was recorded, in order.
    pub fn records(&self) -> &[Record]
        ensures { result.now ≡ self.now.records }
    {
        self.run.records.as_slice()
    }

    /// The verdict, exactly at `Over`.
    pub fn verdict(&self) -> Option<&Verdict>
        ensures recorded { option_map (λ v. v.now) result ≡ verdict_of self.now.records }
        ensures over { IsSome result ↔ (self.now.phase ≡ phase.Over) }
    {
        verdict_of(self.run.records.as_slice())
    }

    /// Whether the injector has ended.
    pub fn ended(&self, injector: u32) -> bool
        requires { injector < (options_in self.now).injectors }
        ensures { result ≡ not (list_any (nat_eq injector) self.now.reading) }
    {
        !self.run.reading.contains(injector)
    }

    /// Whether an injector of this number has not ended.
    pub fn reads(&self, injector: u32) -> bool
        ensures { result ≡ list_any (nat_eq injector) self.now.reading }
    {
        self.run.reading.contains(injector)
    }

    /// The injectors that have not ended, in order.
    pub fn reading(&self) -> &[u32]
        ensures { result.now ≡ self.now.reading }
    {
        self.run.reading.as_slice()
    }

    /// How many words of the random choice were drawn.
    pub fn drawn(&self) -> u64
        ensures { result ≡ self.now.drawn }
    {
        self.run.draw.drawn()
    }

    /// Whether a further event may wait.
    pub fn room(&self) -> bool
        ensures { result ≡ has_room (stand_in self.now) }
    {
        self.run.floor.queue().len() < MOST_WAITING as usize
    }

    /// The lines since the last taking.
    pub fn take_lines(&mut self) -> Lines
        ensures taken { (stand_in self.old).lines ≡ result }
        ensures none { (stand_in self.new).lines ≡ [] }
        ensures records { self.new.records ≡ self.old.records }
        ensures phase { self.new.phase ≡ self.old.phase }
        ensures broken { self.new.broken ≡ self.old.broken }
        ensures ground { self.new.floor.base ≡ self.old.floor.base }
        ensures options { options_in self.new ≡ options_in self.old }
        ensures stands { (jobs : List Lent) (taken : List Line) (p : Pair Origin) →
            StandsFor self.old jobs taken p → StandsFor self.new jobs (taken ++ result) p }
        ensures tells { (taken : List Line) → Tells self.old taken →
            Tells self.new (taken ++ result) }
    {
        self.run.floor.take_lines()
    }

    /// The records, moved out.
    pub fn into_records(self) -> Records
        ensures { result ≡ self.records }
    {
        let Arbiter {
            run,
            phase: _,
            broken: _,
        } = self;
        run.into_records()
    }

    /// Whether the item needs no place of the queue, or has one.
    pub fn fits(&self, item: &Item) -> bool
        ensures { result ≡ fits (stand_in self.now) item.now }
    {
        match item {
            Item::Offered(_) => self.room(),
            _ => true,
        }
    }

    /// The item of an injector enters: an event waits at the end of the queue, and at a bad line or at its
    /// end the injector has ended.
    ///
    /// # Errors
    ///
    /// `Full` exactly where the item is an event and as many wait as may, and `Memory`, also after want of
    /// memory of another call. Both hand the item back, and nothing has changed.
    pub fn absorb(&mut self, injector: u32, item: Item) -> Result<(), Absorb>
        requires rest { self.old.phase ≡ phase.Rest }
        requires read { list_any (nat_eq injector) self.old.reading ≡ true }
        requires sound { is_failed item ≡ false }
        ensures absorbed { OnOk result (self.new ≡ absorbed injector item self.old) }
        ensures fits { OnOk result (fits (stand_in self.old) item ≡ true) }
        ensures stands { OnOk result ((taken : List Line) (p : Pair Origin) →
            StandsFor self.old [] taken p → StandsFor self.new [] taken (with_item item p)) }
        ensures refused { IfErr result (ComesBack (stand_in self.old) item) }
        ensures same { OnErr result (self.new ≡ self.old) }
        ensures stays { self.old.broken ≡ true → IsErr result }
    {
        if !self.fits(&item) {
            return Err(Absorb::Full(item));
        }
        if self.broken || self.run.records.reserve(1).is_err() {
            return Err(Absorb::Memory(item));
        }
        // For the proof: what the floor keeps.
        self.run.floor.keeps();
        self.run.absorb(injector, item)
    }

    /// What can be selected.
    ///
    /// # Errors
    ///
    /// The first fault of a set that is asked; after memory ran out `Memory` alone.
    pub fn enabled(&mut self, alloc: Global) -> Result<Enabled, SelectFault>
        requires rest { self.old.phase ≡ phase.Rest }
        ensures enabled { AnswersAs enabled_of (selectable (has_on self.old.floor)
            (live_on self.old.floor) (stand_in self.old).queue) result }
        ensures same { self.new ≡ self.old }
    {
        if self.broken {
            return Err(SelectFault::Memory);
        }
        self.run.floor.enabled(alloc)
    }

    /// What comes next by the definitions of a run: an event is selected, or the run waits for an injector,
    /// or there is a verdict. Its only error is out of memory, after which each later call answers it.
    pub fn pick(&mut self, alloc: Global) -> Result<Picked, Memory>
        requires rest { self.old.phase ≡ phase.Rest }
        ensures picked { IfOk result (λ k. (c : Configuration Origin) → Recounts self.old c →
            k ≡ picked_of (coming self.old c)) }
        ensures recorded { OnOk result ((c : Configuration Origin) → Recounts self.old c →
            self.new.records ≡ self.old.records ++ option_to_list (record_of (coming self.old c))) }
        ensures stands { OnOk result ((taken : List Line) (p : Pair Origin) (c : Configuration Origin) →
            StandsFor self.old [] taken p → Recounts self.old c →
            StandsFor self.new [] taken (after_pick (code_in self.old) p (coming self.old c))) }
        ensures phase { IfOk result (λ k. self.new.phase ≡
            phase_after k self.new.floor.pair.entries) }
        ensures counted { IfOk result (λ k. k ≡ picked.Moved →
            (stand_in self.new).transitions ≡ (stand_in self.old).transitions + 1) }
        ensures ground { self.new.floor.base ≡ self.old.floor.base }
        ensures options { options_in self.new ≡ options_in self.old }
        ensures memory { MatchResult result (λ _. HadMemory self.old self.new)
            (λ _. IsGivenUp (λ lent. lent ≡ []) self.old self.new) }
    {
        if self.broken {
            return Err(AllocError);
        }
        // For the proof: what the floor keeps.
        self.run.floor.keeps();
        self.broken = true;
        let picked = self.run.pick(alloc)?;
        self.phase = self.run.floor.phase();
        self.broken = false;
        Ok(picked)
    }

    /// The jobs of what is to be run, in order: at `Ready`, and then it is `Lent`. Its only error is out of
    /// memory, after which each later call answers it.
    pub fn lend(&mut self, alloc: Global) -> Result<Vec<Job>, Memory>
        requires ready { self.old.phase ≡ phase.Ready }
        ensures lent { IfOk result (λ jobs. AreOut self.new jobs.items) }
        ensures stands { IfOk result (λ jobs. (taken : List Line) (p : Pair Origin) →
            StandsFor self.old [] taken p → StandsFor self.new jobs.items taken p) }
        ensures distinct { IfOk result (λ jobs. HaveDistinctNumbers jobs.items) }
        ensures phase { OnOk result (self.new.phase ≡ phase.Lent) }
        ensures count { OnOk result (length (stand_in self.new).threads ≡
            length (stand_in self.old).threads) }
        ensures records { self.new.records ≡ self.old.records }
        ensures ground { self.new.floor.base ≡ self.old.floor.base }
        ensures options { options_in self.new ≡ options_in self.old }
        ensures memory { MatchResult result (λ _. HadMemory self.old self.new)
            (λ _. IsGivenUp (λ lent. lent ≡ []) self.old self.new) }
    {
        if self.broken {
            return Err(AllocError);
        }
        // For the proof: what the floor keeps.
        self.run.floor.keeps();
        self.broken = true;
        let jobs = self.run.floor.lend(alloc)?;
        self.phase = Phase::Lent;
        self.broken = false;
        Ok(jobs)
    }

    /// Merges what the lent jobs did, one turn: they are the lent ones in the same order, each carried to its
    /// outcome with its effects whole. `Ready` where those that they registered are to be run, `Over` where
    /// one of them ends the run, and else `Rest`. Its only error is out of memory, after which each later
    /// call answers it; the jobs are let go.
    pub fn seal(&mut self, alloc: Global, jobs: Vec<Job>) -> Result<Phase, Memory>
        requires lent { self.old.phase ≡ phase.Lent }
        requires back { self.old.broken ≡ false → AreBack self.old jobs.items }
        ensures answered { IfOk result (λ f. f ≡ self.new.phase) }
        ensures phase { OnOk result (self.new.phase ≡ phase_of self.new.floor.pair) }
        ensures stands { OnOk result ((lent : List Lent) (taken : List Line) (p : Pair Origin) →
            StandsFor self.old lent taken p → AreReturned self.old jobs.items lent →
            StandsFor self.new [] taken (after_turn (code_in self.old) p)) }
        ensures recorded { OnOk result (self.new.records ≡
            self.old.records ++ ending (stand_in self.new).verdict) }
        ensures over { OnOk result ((c : Configuration Origin) → Recounts self.old c → (v : End) →
            (stand_in self.new).verdict ≡ Some v →
            coming self.old c ≡ story.Next.Ends v) }
        ensures grows { IfOk result (λ f. f ≡ phase.Ready →
            length (stand_in self.old).threads < length (stand_in self.new).threads) }
        ensures program { self.new.floor.base.program ≡ self.old.floor.base.program }
        ensures options { options_in self.new ≡ options_in self.old }
        ensures memory { MatchResult result (λ _. HadMemory self.old self.new)
            (λ _. IsGivenUp (AreReturned self.old jobs.items) self.old self.new) }
    {
        if self.broken {
            return Err(AllocError);
        }
        // For the proof: what the floor keeps.
        self.run.floor.keeps();
        self.broken = true;
        self.run.seal(alloc, jobs)?;
        self.phase = self.run.floor.phase();
        self.broken = false;
        Ok(self.phase)
    }
}
