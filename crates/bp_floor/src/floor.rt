//! A floor: where the b-threads of a run stand.
ghost use Rattle.std.specs.Prelude.{◌≡◌, ◌<◌, ◌≤◌, ◌+◌, ◌^◌, ◌++◌, [], List, length, option_map, slice_get, None, Some, OnOk, OnErr, IfOk, IfErr, MatchResult, Ok, Err, true, false};
ghost use Rattle.js_meaning.specs.Bodies.{Origin, bare};
ghost use Rattle.js_frames.specs.Places.{plain_ground};
ghost use Rattle.bp_log.specs.declared.limits.TheConstants.{MOST_WAITING};
ghost use Rattle.bp_log.specs.declared.item.Item.TheVariants as item;
ghost use Rattle.bp_log.specs.declared.trace.Line.{Line};
ghost use Rattle.bp_draw.specs.Words.{draw_word};
ghost use Rattle.bp_run.specs.Configuration.{name_in, not_ended};
ghost use Rattle.bp_run.specs.Settling.{Pair, turn, before, opening, queued};
ghost use Rattle.bp_run.specs.Selecting.{selectable, blocker, requested};
ghost use Rattle.bp_run.specs.Choosing.{choice};
ghost use Rattle.bp_run.specs.Story.{over};
ghost use Rattle.bp_select.specs.declared.answers.Choice.TheVariants as choice_made;
ghost use Rattle.bp_select.specs.declared.answers.SelectFault.TheVariants as select_fault;
ghost use Rattle.bp_select.specs.Answers.{AnswersAs, IsWithin, chosen_of, enabled_of};
ghost use Rattle.bp_thread.specs.Carried.{HaveDistinctNumbers};
ghost use Rattle.bp_thread.specs.Views.{plain_statement};
ghost use Rattle.bp_floor.specs.declared.phase.Phase.TheVariants as phase;
ghost use Rattle.bp_floor.specs.inner.Boards.{pair_of};
ghost use Rattle.bp_floor.specs.Stops.{stop_in};
ghost use Rattle.bp_floor.specs.Loans.{AreLent, filled_pair, standing};
ghost use Rattle.bp_floor.specs.Floors.{StandsFor, StandsWith, AreBack, IsSealed, HadMemory, IsGivenUp, IsPhased, is_idle, CanGo, GoesAs, GoesFrom, ShowsOf, stop_of, told_verdict, code_on, has_on, live_on};
ghost use Rattle.bp_floor.specs.inner.Absorbing.{IsRefused};

use crate::{Absorb, Board, Desk, Entry, Phase, Seats, Wave, Went, stop_of_job};
use bp_draw::Draw;
use bp_log::limits::MOST_WAITING;
use bp_log::{Item, Line, Lines, Memory, Options, Verdict};
use bp_select::{Choice, Enabled, SelectFault};
use bp_sets::SetFault;
use bp_thread::{Job, Statement};
use js_data::{Event, Text};
use js_frames::Ground;
use js_program::Program;
use std::alloc::{AllocError, Global};
use std::marker::Model;

/// Where the b-threads of a run stand. Contracts see its pair, with the lines that were not taken
/// yet.
///
/// After memory ran out each later call that lends, seals or goes on answers it too.
pub struct Floor {
    ground: Ground,
    options: Options,
    board: Board,
    phase: Phase,
    broken: bool,
}

impl Drop for Floor {
    fn drop(self) {
        let Floor {
            ground: _,
            options: _,
            board: _,
            phase: _,
            broken: _,
        } = self;
    }
}

impl Model for Floor {
    ghost use Rattle.std.specs.Prelude.{◌≡◌, false};
    ghost use Rattle.std.specs.Coded.{codes};
    ghost use Rattle.js_data.specs.Codes.{event_code};
    ghost use Rattle.js_value.specs.Codes.{value_code};
    ghost use Rattle.js_frames.specs.Places.{plain_ground};
    ghost use Rattle.bp_log.specs.contracts.trace.Line as e;
    ghost use Rattle.bp_log.specs.contracts.verdict.Verdict as v;
    ghost use Rattle.bp_log.specs.contracts.options.Strategy as s;
    ghost use Rattle.bp_floor.specs.contracts.phase.Phase as ph;
    ghost use Rattle.bp_floor.specs.inner.Boards.{pair_of};
    ghost use Rattle.bp_floor.specs.Floors.{PlainFloor, IsSound};

    ghost Value = { PlainFloor };

    ghost coded = { Prim.hlevel (
      codes,
      event_code,
      value_code,
      e.the_row.coded,
      v.the_row.coded,
      s.the_row.coded,
      ph.the_row.coded,
    ) };

    ghost view = { λ f. record {
      base = plain_ground f.ground;
      options = f.options;
      pair = pair_of f.board;
      phase = f.phase;
      broken = f.broken;
    } };

    ghost invariant = { λ f. f.broken ≡ false
        → IsSound (record { program = f.ground.program; options = f.options })
        (plain_ground f.ground) f.board f.phase };
}

impl Floor {
    /// The floor of a program before anything has run: its top level is to be run.
    pub fn open(alloc: Global, program: Program, options: Options) -> Result<Floor, Memory>
        ensures { IfOk result (λ f. f ≡ record {
          base = bare program;
          options = options;
          pair = opening;
          phase = phase.Ready;
          broken = false;
        }) }
    {
        let mut wave = Wave::new(alloc);
        wave.push(Entry::Top)?;
        let ground = Ground::bare(alloc, program);
        let seats = Seats::new(alloc);
        let desk = Desk::new(alloc);
        let lines = Lines::new(Vec::new(alloc));
        let board = Board {
            seats,
            desk,
            transitions: 0,
            weight: 0,
            lines,
            verdict: None,
            wave,
        };
        Ok(Floor {
            ground,
            options,
            board,
            phase: Phase::Ready,
            broken: false,
        })
    }

    /// What a floor keeps while memory never ran out, as a fact for its callers. Does nothing.
    pub fn keeps(&self)
        ensures { self.now.broken ≡ false → IsPhased self.now }
    {
        // Reads a field for the proof alone: so what the type keeps is known.
        let _ground = &self.ground;
    }

    /// What each pair shows that a floor stands for, as a fact for its callers. Does nothing.
    pub fn shows(&self)
        ensures { (taken : List Line) (p : Pair Origin) →
            StandsFor self.now taken p → ShowsOf self.now p }
    {}

    /// What can be done.
    pub fn phase(&self) -> Phase
        ensures { result ≡ self.now.phase }
    {
        self.phase
    }

    /// The program, with its constants once the top level has run.
    pub fn ground(&self) -> &Ground
        ensures { plain_ground result.now ≡ self.now.base }
    {
        &self.ground
    }

    /// The options.
    pub fn options(&self) -> Options
        ensures { result ≡ self.now.options }
    {
        self.options
    }

    /// The verdict, if there is one.
    pub fn verdict(&self) -> Option<&Verdict>
        ensures { option_map (λ v. v.now) result ≡ self.now.pair.stand.verdict }
    {
        self.board.verdict.as_ref()
    }

    /// The events that wait, in order.
    pub fn queue(&self) -> &[Event]
        ensures { result.now ≡ self.now.pair.stand.queue }
    {
        self.board.desk.queue()
    }

    /// How many transitions were made.
    pub fn transitions(&self) -> u32
        ensures { result ≡ self.now.pair.stand.transitions }
    {
        self.board.transitions
    }

    /// The jobs of what is to be run, in order.
    pub fn lend(&mut self, alloc: Global) -> Result<Vec<Job>, Memory>
        requires ready { self.old.phase ≡ phase.Ready }
        ensures filled { IfOk result (λ jobs. filled_pair jobs.items self.new.pair
            ≡ self.old.pair) }
        ensures lent { IfOk result (λ jobs. AreLent self.old.base.program self.old.options
            (standing self.old.pair.stand.threads) self.old.pair.entries jobs.items) }
        ensures stands { IfOk result (λ jobs. (taken : List Line) (p : Pair Origin) →
            StandsFor self.old taken p → StandsWith self.new jobs.items taken p) }
        ensures distinct { IfOk result (λ jobs. HaveDistinctNumbers jobs.items) }
        ensures phase { OnOk result (self.new.phase ≡ phase.Lent) }
        ensures ground { self.new.base ≡ self.old.base }
        ensures options { self.new.options ≡ self.old.options }
        ensures memory { MatchResult result (λ _. HadMemory self.old self.new) (λ _.
            IsGivenUp self.old self.new) }
    {
        if self.broken {
            return Err(AllocError);
        }
        self.broken = true;
        let jobs = self
            .board
            .seats
            .lend(alloc, &self.ground, self.options, &self.board.wave)?;
        self.phase = Phase::Lent;
        self.broken = false;
        Ok(jobs)
    }

    /// Merges what the lent jobs did: they are the lent ones in the same order, each carried to its
    /// outcome with its effects whole. Its only error is out of memory; the jobs are let go.
    pub fn seal(&mut self, alloc: Global, jobs: Vec<Job>) -> Result<Phase, Memory>
        requires lent { self.old.phase ≡ phase.Lent }
        requires back { self.old.broken ≡ false → AreBack self.old jobs.items }
        ensures sealed { OnOk result (IsSealed self.old jobs.items self.new) }
        ensures answered { IfOk result (λ p. p ≡ self.new.phase) }
        ensures stands { OnOk result ((taken : List Line) (p : Pair Origin) →
            StandsWith self.old jobs.items taken p →
            StandsFor self.new taken (turn (code_on self.old) p)) }
        ensures program { self.new.base.program ≡ self.old.base.program }
        ensures options { self.new.options ≡ self.old.options }
        ensures memory { MatchResult result (λ _. HadMemory self.old self.new) (λ _.
            IsGivenUp self.old self.new) }
    {
        if self.broken {
            return Err(AllocError);
        }
        self.broken = true;
        self.board
            .turn(alloc, &mut self.ground, self.options, jobs)?;
        self.phase = self.board.phase();
        self.broken = false;
        Ok(self.phase)
    }

    /// Makes the transition of an event that can be selected at this place, unless it would stop
    /// the run.
    pub fn go(&mut self, alloc: Global, event: &Event, place: Option<u32>) -> Result<Went, Memory>
        requires rest { self.old.phase ≡ phase.Rest }
        requires can { self.old.broken ≡ false → CanGo self.old event.now place }
        ensures goes { IfOk result (λ w. GoesAs self.old event.now place w self.new) }
        ensures stands { IfOk result (λ w. (taken : List Line) (p : Pair Origin) →
            StandsFor self.old taken p →
            GoesFrom (code_on self.old) taken p event.now place w self.new) }
        ensures ground { self.new.base ≡ self.old.base }
        ensures options { self.new.options ≡ self.old.options }
        ensures memory { MatchResult result (λ _. HadMemory self.old self.new) (λ _.
            IsGivenUp self.old self.new) }
    {
        if self.broken {
            return Err(AllocError);
        }
        self.broken = true;
        let went = self
            .board
            .go(alloc, &self.ground, self.options, event, place)?;
        self.phase = self.board.phase();
        self.broken = false;
        Ok(went)
    }

    /// The verdict with which `go` would stop at the event, if there is one, wherever the event
    /// stands.
    pub fn stop(
        &mut self,
        alloc: Global,
        event: &Event,
        _place: Option<u32>,
    ) -> Result<Option<Verdict>, Memory>
        requires rest { self.old.phase ≡ phase.Rest }
        requires can { self.old.broken ≡ false → CanGo self.old event.now _place }
        ensures stop { IfOk result (λ v. v ≡ stop_of self.old event.now) }
        ensures whole { OnOk result (self.old.broken ≡ false) }
        ensures same { self.new ≡ self.old }
    {
        if self.broken {
            return Err(AllocError);
        }
        self.board.stop_at(alloc, &self.ground, self.options, event)
    }

    /// Puts an event at the end of the queue.
    ///
    /// # Errors
    ///
    /// `Full` exactly where as many events wait as may, and `Memory`; both give the event back as
    /// an offer.
    pub fn enqueue(&mut self, event: Event) -> Result<(), Absorb>
        requires rest { self.old.phase ≡ phase.Rest }
        ensures queued { OnOk result (self.new ≡ record self.old {
          pair = record self.old.pair { stand = queued event self.old.pair.stand };
        }) }
        ensures stands { OnOk result ((taken : List Line) (p : Pair Origin) →
            StandsFor self.old taken p →
            StandsFor self.new taken (record p { stand = queued event p.stand })) }
        ensures refused { IfErr result (IsRefused (length self.old.pair.stand.queue)
            (item.Offered event)) }
        ensures same { OnErr result (self.new ≡ self.old) }
        ensures room { OnOk result (length self.old.pair.stand.queue < MOST_WAITING) }
    {
        if self.board.desk.waiting() >= MOST_WAITING as usize {
            return Err(Absorb::Full(Item::Offered(event)));
        }
        match self.board.desk.push(event) {
            Ok(()) => Ok(()),
            Err(failed) => Err(Absorb::Memory(Item::Offered(failed.value))),
        }
    }

    /// What can be selected.
    ///
    /// # Errors
    ///
    /// Those of the bench; after memory ran out `Memory` alone.
    pub fn enabled(&mut self, alloc: Global) -> Result<Enabled, SelectFault>
        requires rest { self.old.phase ≡ phase.Rest }
        ensures enabled { AnswersAs enabled_of
            (selectable (has_on self.old) (live_on self.old) self.old.pair.stand.queue) result }
        ensures broken { self.old.broken ≡ true → result ≡ Err select_fault.Memory }
        ensures same { self.new ≡ self.old }
    {
        if self.broken {
            return Err(SelectFault::Memory);
        }
        let budget = self.options.budget();
        self.board.desk.enabled(alloc, &self.ground, budget)
    }

    /// The first live b-thread that blocks the event.
    ///
    /// # Errors
    ///
    /// Those of the bench; after memory ran out `Memory` alone.
    pub fn blocker(&mut self, alloc: Global, event: &Event) -> Result<Option<u32>, SelectFault>
        requires rest { self.old.phase ≡ phase.Rest }
        ensures blocker { AnswersAs (λ o. o)
            (blocker (has_on self.old) (live_on self.old) event.now) result }
        ensures broken { self.old.broken ≡ true → result ≡ Err select_fault.Memory }
        ensures same { self.new ≡ self.old }
    {
        if self.broken {
            return Err(SelectFault::Memory);
        }
        let budget = self.options.budget();
        self.board.desk.blocker(alloc, &self.ground, event, budget)
    }

    /// The lines since the last taking.
    pub fn take_lines(&mut self) -> Lines
        ensures taken { self.old.pair ≡ before result self.new.pair }
        ensures none { self.new.pair.stand.lines ≡ [] }
        ensures phase { self.new.phase ≡ self.old.phase }
        ensures broken { self.new.broken ≡ self.old.broken }
        ensures ground { self.new.base ≡ self.old.base }
        ensures options { self.new.options ≡ self.old.options }
        ensures stands { (taken : List Line) (p : Pair Origin) →
            StandsFor self.old taken p → StandsFor self.new (taken ++ result) p }
    {
        self.board.lines.take()
    }

    /// Which event comes next; a word is drawn where several can.
    ///
    /// # Errors
    ///
    /// Those of the bench; after memory ran out `Memory` alone.
    pub fn choose(&mut self, alloc: Global, draw: &mut Draw) -> Result<Choice, SelectFault>
        requires rest { self.old.phase ≡ phase.Rest }
        requires words { draw.old.drawn + 1 < 2 ^ 64 }
        ensures chosen { AnswersAs (chosen_of self.old.pair.stand.queue draw.new.drawn)
            (choice (has_on self.old) (draw_word draw.old.seed) self.old.options.strategy
            (live_on self.old) self.old.pair.stand.queue draw.old.drawn) result }
        ensures within { IfOk result (IsWithin (length self.old.pair.stand.queue)) }
        ensures seed { draw.new.seed ≡ draw.old.seed }
        ensures drawn { (draw.old.drawn ≤ draw.new.drawn) × (draw.new.drawn ≤ draw.old.drawn + 1) }
        ensures nothing { result ≡ Ok choice_made.Nothing → draw.new ≡ draw.old }
        ensures failed { OnErr result (draw.new ≡ draw.old) }
        ensures broken { self.old.broken ≡ true → result ≡ Err select_fault.Memory }
        ensures same { self.new ≡ self.old }
    {
        if self.broken {
            return Err(SelectFault::Memory);
        }
        let budget = self.options.budget();
        self.board
            .desk
            .choose(alloc, &self.ground, self.options.strategy(), budget, draw)
    }

    /// Whether a live b-thread requests the event.
    pub fn requested(&self, event: &Event) -> bool
        requires rest { self.now.phase ≡ phase.Rest }
        ensures { self.now.broken ≡ false → result ≡ requested (live_on self.now) event.now }
    {
        self.board.desk.requested(event)
    }

    /// How many b-threads have not ended; 0 after memory ran out.
    pub fn live(&self) -> u32
        ensures live { self.now.broken ≡ false → result ≡ not_ended self.now.pair.stand }
        ensures broken { self.now.broken ≡ true → result ≡ 0 }
    {
        if self.broken {
            return 0;
        }
        self.board.seats.live()
    }

    /// How many b-threads were registered.
    pub fn count(&self) -> usize
        ensures { result ≡ length self.now.pair.stand.threads }
    {
        self.board.seats.len()
    }

    /// The name of a b-thread.
    pub fn name_of(&self, number: u32) -> &Text
        requires { number < length self.now.pair.stand.threads }
        ensures { result.now ≡ name_in (slice_get self.now.pair.stand.threads number) }
    {
        self.board.seats.name_of(number as usize)
    }

    /// The line and the statement of the stop where a b-thread stands; nothing where it has ended.
    pub fn stopped(&self, number: u32) -> Option<(u32, &Statement)>
        requires sound { self.now.broken ≡ false }
        requires rest { self.now.phase ≡ phase.Rest }
        requires there { number < length self.now.pair.stand.threads }
        ensures { option_map (λ p. (p.0, plain_statement p.1.now)) result
            ≡ stop_in self.now.base.program self.now.options
            (slice_get self.now.pair.stand.threads number) }
    {
        if self.board.seats.has_ended(number as usize) {
            return None;
        }
        match self.board.seats.job(number as usize) {
            None => None,
            Some(job) => stop_of_job(job),
        }
    }

    /// The fault of a set, as the verdict in the name of its b-thread.
    pub fn fault_verdict(&self, number: u32, fault: SetFault) -> Result<Verdict, Memory>
        requires { number < length self.now.pair.stand.threads }
        ensures { IfOk result (λ v. told_verdict self.now.pair.stand number fault ≡ Some v) }
    {
        self.board.fault_verdict(number, fault)
    }

    /// The verdict is that of the floor, with its line; the phase is `Over`.
    pub fn end(&mut self, verdict: Verdict) -> Result<(), Memory>
        requires idle { is_idle self.old.phase ≡ true }
        ensures ground { self.new.base ≡ self.old.base }
        ensures options { self.new.options ≡ self.old.options }
        ensures ended { OnOk result (self.new ≡ record self.old {
          pair = record self.old.pair { stand = over self.old.pair.stand verdict };
          phase = phase.Over;
        }) }
        ensures memory { MatchResult result (λ _. HadMemory self.old self.new) (λ _.
            IsGivenUp self.old self.new) }
    {
        if self.broken {
            return Err(AllocError);
        }
        self.broken = true;
        let line = Line::Verdict(verdict.copy()?);
        self.board.lines.push(line)?;
        self.board.verdict = Some(verdict);
        self.phase = Phase::Over;
        self.broken = false;
        Ok(())
    }
}
