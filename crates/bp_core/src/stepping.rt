//! A core: an arbiter together with its lent jobs.
ghost use Rattle.std.specs.Prelude.{◌≡◌, ◌++◌, [], IfOk, IfErr, OnOk, OnErr, IsErr, Err, List, length, nat_eq, slice_get, ◌<◌, ◌^◌, Some, None, true, false};
ghost use Rattle.std.specs.List.{list_any, list_all};
ghost use Rattle.js_meaning.specs.Bodies.{Origin};
ghost use Rattle.bp_log.specs.declared.trace.Line.{Line};
ghost use Rattle.bp_code.specs.Code.{code_of};
ghost use Rattle.bp_thread.specs.declared.job.Job.{Job as Lent};
ghost use Rattle.bp_thread.specs.Jobs.{plain_job};
ghost use Rattle.bp_steps.specs.declared.step.CoreStep.TheVariants as step;
ghost use Rattle.bp_steps.specs.Steps.{Moment};
ghost use Rattle.bp_steps.specs.Steps as steps;
ghost use Rattle.bp_floor.specs.declared.absorb.Absorb.TheVariants as absorb;
ghost use Rattle.bp_floor.specs.declared.phase.Phase.TheVariants as phase;
ghost use Rattle.bp_arbiter.specs.Arbiters.{opened, is_lent, coming, stand_in, Tells};
ghost use Rattle.bp_arbiter.specs.Pick.{picked_of};
ghost use Rattle.bp_arbiter.specs.Absorb.{is_failed, absorbed, ComesBack};
ghost use Rattle.bp_core.specs.declared.play_fault.PlayFault.TheVariants as play_fault;
ghost use Rattle.bp_core.specs.Cores.{KeepsProgram, HasLent, is_rest, has_outcome};
ghost use Rattle.bp_core.specs.Moments.{is_ready, IsReadyAt, IsAt};

use crate::play_fault::PlayFault;
use bp_arbiter::{Absorb, Arbiter, Phase, Picked};
use bp_log::{Item, Lines, Memory, Options, Records};
use bp_steps::CoreStep;
use bp_thread::Job;
use js_program::Program;
use std::alloc::{AllocError, Global};
use std::mem;

fn is_rest(phase: Phase) -> bool
    ensures { result ≡ is_rest phase }
{
    match phase {
        Phase::Rest => true,
        Phase::Ready | Phase::Lent | Phase::Over => false,
    }
}

fn is_lent(phase: Phase) -> bool
    ensures { result ≡ is_lent phase }
{
    match phase {
        Phase::Lent => true,
        Phase::Ready | Phase::Rest | Phase::Over => false,
    }
}

fn has_outcome(job: &Job) -> bool
    ensures { result ≡ has_outcome job.now }
{
    job.outcome().is_some()
}

/// Whether each job has its outcome.
fn are_done(jobs: &[Job]) -> bool
    ensures { result ≡ list_all has_outcome jobs.now }
{
    for job in jobs {
        if !has_outcome(job) {
            return false;
        }
    }
    true
}

fn is_ready(phase: Phase) -> bool
    ensures { result ≡ is_ready phase }
{
    match phase {
        Phase::Ready => true,
        Phase::Lent | Phase::Rest | Phase::Over => false,
    }
}

/// The jobs of what is to be run, if something is.
fn lend_on(alloc: Global, arbiter: &mut Arbiter) -> Result<Vec<Job>, Memory>
    requires unlent { is_lent arbiter.old.phase ≡ false }
    ensures at { IfOk result (λ jobs. (taken : List Line) (m : Moment Origin) →
        IsReadyAt arbiter.old taken m → IsAt arbiter.new jobs.items taken m) }
    ensures kept { KeepsProgram arbiter.old arbiter.new }
    ensures records { arbiter.new.records ≡ arbiter.old.records }
    ensures tells { OnErr result ((taken : List Line) (m : Moment Origin) →
        IsReadyAt arbiter.old taken m → Tells arbiter.new taken) }
    ensures lent { OnOk result (arbiter.new.phase ≡ phase.Lent → HasLent arbiter.old arbiter.new) }
{
    // For the proof: what the arbiter keeps.
    arbiter.keeps();
    if !is_ready(arbiter.phase()) {
        return Ok(Vec::new(alloc));
    }
    let jobs = arbiter.lend(alloc)?;
    Ok(jobs)
}

/// An arbiter together with its lent jobs.
///
/// It is at an exact moment between two steps, until memory runs out. Its jobs can be handed out,
/// and come back carried on.
pub struct Core {
    alloc: Global,
    arbiter: Arbiter,
    /// The lent jobs, unless they are out.
    jobs: Vec<Job>,
    out: bool,
    /// Memory ran out.
    broken: bool,
}

impl Drop for Core {
    fn drop(self) {
        let Core {
            alloc: _,
            arbiter: _,
            jobs: _,
            out: _,
            broken: _,
        } = self;
    }
}

impl Core {
    ghost use Rattle.bp_core.specs.Cores.{IsCoreAt, IsSomewhere, Makes, AreDone, HandsIn, CanRunNow, Cuts, takes, is_open, is_legal, Plays, PlayEnds};

    /// An opened arbiter whose first job is lent.
    pub fn open(alloc: Global, program: Program, options: Options) -> Result<Core, Memory>
        ensures at { IfOk result (λ c. IsCoreAt c c.jobs.items []
            (steps.opened (code_of program options) options)) }
        ensures kept { IfOk result (λ c. KeepsProgram (opened program options) c.arbiter) }
        ensures inside { IfOk result (λ c. c.out ≡ false) }
    {
        let mut arbiter = Arbiter::open(alloc, program, options)?;
        let jobs = lend_on(alloc, &mut arbiter)?;
        Ok(Core {
            alloc,
            arbiter,
            jobs,
            out: false,
            broken: false,
        })
    }

    /// What comes next comes, and what is to be run then is lent. Its only error is out of memory,
    /// after which each later call that makes a step answers it and changes nothing.
    pub fn pick(&mut self) -> Result<Picked, Memory>
        requires rest { self.old.arbiter.phase ≡ phase.Rest }
        ensures leads { OnOk result (Makes self.old self.new step.Pick) }
        ensures picked { IfOk result (λ k. (taken : List Line) (m : Moment Origin) →
            IsCoreAt self.old self.old.jobs.items taken m →
            k ≡ picked_of (coming self.old.arbiter m.told)) }
        ensures broken { OnErr result (self.new.broken ≡ true) }
        ensures stays { self.old.broken ≡ true → IsErr result }
        ensures same { self.old.broken ≡ true → self.new ≡ self.old }
        ensures cut { OnErr result (Cuts self.old self.new step.Pick) }
        ensures kept { KeepsProgram self.old.arbiter self.new.arbiter }
        ensures inside { self.new.out ≡ self.old.out }
    {
        if self.broken {
            return Err(AllocError);
        }
        // For the proof: what the arbiter keeps.
        self.arbiter.keeps();
        self.broken = true;
        let picked = self.arbiter.pick(self.alloc)?;
        self.jobs = lend_on(self.alloc, &mut self.arbiter)?;
        self.broken = false;
        Ok(picked)
    }

    /// The item of an injector enters.
    ///
    /// # Errors
    ///
    /// `Full` exactly where the item is an event and as many wait as may, and `Memory`, also after want
    /// of memory of another call. Both hand the item back, and nothing has changed.
    pub fn absorb(&mut self, injector: u32, item: Item) -> Result<(), Absorb>
        requires rest { self.old.arbiter.phase ≡ phase.Rest }
        requires read { list_any (nat_eq injector) self.old.arbiter.reading ≡ true }
        requires sound { is_failed item ≡ false }
        ensures leads { OnOk result (Makes self.old self.new (step.Absorb injector item)) }
        ensures entered { OnOk result (self.new ≡ record self.old {
          arbiter = absorbed injector item self.old.arbiter;
        }) }
        ensures kept { KeepsProgram self.old.arbiter self.new.arbiter }
        ensures refused { IfErr result (λ e. self.old.broken ≡ false →
            ComesBack (stand_in self.old.arbiter) item e) }
        ensures stays { self.old.broken ≡ true → result ≡ Err (absorb.Memory item) }
        ensures same { OnErr result (self.new ≡ self.old) }
        ensures inside { self.new.out ≡ self.old.out }
    {
        if self.broken {
            return Err(Absorb::Memory(item));
        }
        // For the proof: what the arbiter keeps.
        self.arbiter.keeps();
        self.arbiter.absorb(injector, item)
    }

    /// The turn of the lent jobs, each of which has its outcome, is merged, and what is to be run then
    /// is lent: there is something only if b-threads were added. Its only error is out of memory, after
    /// which each later call that makes a step answers it and changes nothing.
    pub fn seal(&mut self) -> Result<(), Memory>
        requires lent { self.old.arbiter.phase ≡ phase.Lent }
        requires done { AreDone self.old.jobs.items }
        requires somewhere { self.old.broken ≡ false → IsSomewhere self.old self.old.jobs.items }
        ensures leads { OnOk result (Makes self.old self.new step.Seal) }
        ensures grows { OnOk result (self.new.arbiter.phase ≡ phase.Lent →
            length (stand_in self.old.arbiter).threads
            < length (stand_in self.new.arbiter).threads) }
        ensures broken { OnErr result (self.new.broken ≡ true) }
        ensures stays { self.old.broken ≡ true → IsErr result }
        ensures same { self.old.broken ≡ true → self.new ≡ self.old }
        ensures cut { OnErr result (Cuts self.old self.new step.Seal) }
        ensures kept { KeepsProgram self.old.arbiter self.new.arbiter }
        ensures inside { self.new.out ≡ self.old.out }
    {
        if self.broken {
            return Err(AllocError);
        }
        // For the proof: what the arbiter keeps.
        self.arbiter.keeps();
        self.broken = true;
        let jobs = mem::replace(&mut self.jobs, Vec::new(self.alloc));
        self.arbiter.seal(self.alloc, jobs)?;
        self.jobs = lend_on(self.alloc, &mut self.arbiter)?;
        self.broken = false;
        Ok(())
    }

    /// The lent job at this place is carried on by at most this many nodes. Its only error is out of
    /// memory, after which each later call that makes a step answers it.
    fn carry_on(&mut self, place: usize, nodes: u64) -> Result<(), Memory>
        requires lent { self.old.arbiter.phase ≡ phase.Lent }
        requires some { 0 < nodes }
        requires there { place < length self.old.jobs.items }
        requires open { (j : Lent) → slice_get self.old.jobs.items place ≡ Some j →
            (plain_job j).outcome ≡ None }
        requires somewhere { IsSomewhere self.old self.old.jobs.items }
        ensures leads { OnOk result (Makes self.old self.new (step.Slice place nodes)) }
        ensures broken { OnErr result (self.new.broken ≡ true) }
        ensures cut { OnErr result (Cuts self.old self.new (step.Slice place nodes)) }
        ensures kept { KeepsProgram self.old.arbiter self.new.arbiter }
        ensures inside { self.new.out ≡ self.old.out }
    {
        self.broken = true;
        self.jobs[place].slice(self.arbiter.ground(), nodes)?;
        self.broken = false;
        Ok(())
    }

    /// Whether the lent jobs are out.
    pub fn out(&self) -> bool
        ensures { result ≡ self.now.out }
    {
        self.out
    }

    /// The arbiter.
    pub fn arbiter(&self) -> &Arbiter
        ensures { result.now ≡ self.now.arbiter }
    {
        &self.arbiter
    }

    /// The lent jobs, in order; they are out then.
    pub fn hand_out(&mut self) -> Vec<Job>
        requires lent { self.old.arbiter.phase ≡ phase.Lent }
        requires inside { self.old.out ≡ false }
        ensures jobs { result.items ≡ self.old.jobs.items }
        ensures out { self.new.out ≡ true }
        ensures arbiter { self.new.arbiter ≡ self.old.arbiter }
        ensures broken { self.new.broken ≡ self.old.broken }
        ensures can_run { (taken : List Line) (m : Moment Origin) →
            IsCoreAt self.old self.old.jobs.items taken m →
            CanRunNow self.old.arbiter result.items m }
    {
        self.out = true;
        mem::replace(&mut self.jobs, Vec::new(self.alloc))
    }

    /// The lent jobs come back, in the same order, each carried on or to its outcome.
    pub fn hand_in(&mut self, jobs: Vec<Job>)
        requires out { self.old.out ≡ true }
        ensures at { HandsIn self.old jobs.items self.new }
        ensures jobs { self.new.jobs.items ≡ jobs.items }
        ensures inside { self.new.out ≡ false }
        ensures arbiter { self.new.arbiter ≡ self.old.arbiter }
        ensures broken { self.new.broken ≡ self.old.broken }
    {
        self.jobs = jobs;
        self.out = false;
    }

    /// The lines since the last taking.
    pub fn take_lines(&mut self) -> Lines
        ensures taken { (stand_in self.old.arbiter).lines ≡ result }
        ensures none { (stand_in self.new.arbiter).lines ≡ [] }
        ensures records { self.new.arbiter.records ≡ self.old.arbiter.records }
        ensures phase { self.new.arbiter.phase ≡ self.old.arbiter.phase }
        ensures kept { KeepsProgram self.old.arbiter self.new.arbiter }
        ensures jobs { self.new.jobs ≡ self.old.jobs }
        ensures inside { self.new.out ≡ self.old.out }
        ensures broken { self.new.broken ≡ self.old.broken }
        ensures at { (lent : List Lent) (taken : List Line) (m : Moment Origin) →
            IsCoreAt self.old lent taken m → IsCoreAt self.new lent (taken ++ result) m }
        ensures tells { (taken : List Line) → Tells self.old.arbiter taken →
            Tells self.new.arbiter (taken ++ result) }
    {
        self.arbiter.take_lines()
    }

    /// The records, moved out.
    pub fn into_records(self) -> Records
        ensures { result ≡ self.arbiter.records }
    {
        let Core {
            alloc: _,
            arbiter,
            jobs: _,
            out: _,
            broken: _,
        } = self;
        arbiter.into_records()
    }

    /// Whether an item of this injector may enter.
    fn takes(&self, injector: u32, item: &Item) -> bool
        ensures { result ≡ takes self.now.arbiter injector item.now }
    {
        !matches!(item, Item::Failed) && self.arbiter.reads(injector) && self.arbiter.fits(item)
    }

    /// Whether the lent job at this place is there, and goes on.
    fn is_open(&self, place: usize) -> bool
        ensures { result ≡ is_open (slice_get self.now.jobs.items place) }
    {
        match self.jobs.as_slice().get(place) {
            None => false,
            Some(job) => !has_outcome(job),
        }
    }

    /// Whether the step is legal.
    fn is_legal(&self, step: &CoreStep) -> bool
        ensures { result ≡ is_legal self.now.arbiter self.now.jobs.items step.now }
    {
        match step {
            CoreStep::Absorb(injector, item) => {
                is_rest(self.arbiter.phase()) && self.takes(*injector, item)
            }
            CoreStep::Pick => is_rest(self.arbiter.phase()),
            CoreStep::Slice(place, nodes) => {
                is_lent(self.arbiter.phase()) && 0 < *nodes && self.is_open(*place as usize)
            }
            CoreStep::Seal => { is_lent(self.arbiter.phase()) && are_done(self.jobs.as_slice()) }
        }
    }

    /// A legal step is made. Its only error is out of memory, after which each later call that makes a
    /// step answers it.
    fn make(&mut self, step: CoreStep) -> Result<(), Memory>
        requires legal { is_legal self.old.arbiter self.old.jobs.items step ≡ true }
        requires somewhere { IsSomewhere self.old self.old.jobs.items }
        ensures leads { OnOk result (Makes self.old self.new step) }
        ensures kept { KeepsProgram self.old.arbiter self.new.arbiter }
        ensures inside { self.new.out ≡ self.old.out }
        ensures broken { OnErr result (self.new.broken ≡ true) }
        ensures cut { OnErr result (Cuts self.old self.new step) }
    {
        match step {
            CoreStep::Absorb(injector, item) => {
                match self.absorb(injector, item) {
                    Ok(()) => Ok(()),
                    Err(_item) => {
                        self.broken = true;
                        Err(AllocError)
                    }
                }
            }
            CoreStep::Pick => {
                let _picked = self.pick()?;
                Ok(())
            }
            CoreStep::Slice(place, nodes) => self.carry_on(place as usize, nodes),
            CoreStep::Seal => self.seal(),
        }
    }

    /// Makes the steps in order, and lends where a wave follows.
    ///
    /// # Errors
    ///
    /// `Illegal` exactly where the step at that place is the first that is not legal; the steps before
    /// it were made, and nothing of it. `Memory` where memory ran out in that step, and at the first
    /// place where it ran out in an earlier call; the steps before it were made.
    pub fn play(&mut self, steps: Vec<CoreStep>) -> Result<(), PlayFault>
        requires inside { self.old.out ≡ false }
        requires few { length steps.items < 2 ^ 32 }
        requires somewhere { self.old.broken ≡ false → IsSomewhere self.old self.old.jobs.items }
        ensures played { OnOk result (Plays self.old self.new steps.items) }
        ensures ends { IfErr result (PlayEnds self.old self.new steps.items) }
        ensures stays { self.old.broken ≡ true → 0 < length steps.items →
            result ≡ Err (play_fault.Memory 0) }
        ensures same { self.old.broken ≡ true → self.new ≡ self.old }
        ensures kept { KeepsProgram self.old.arbiter self.new.arbiter }
        ensures inside { self.new.out ≡ false }
    {
        let mut at = 0;
        for step in steps {
            if self.broken {
                return Err(PlayFault::Memory { at });
            }
            if !self.is_legal(&step) {
                return Err(PlayFault::Illegal { at, step });
            }
            match self.make(step) {
                Ok(()) => at += 1,
                Err(_memory) => return Err(PlayFault::Memory { at }),
            }
        }
        Ok(())
    }
}
