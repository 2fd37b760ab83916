//! Jobs: bodies that are carried on slice by slice, and stop at `bp.sync`.
ghost use Rattle.std.specs.Prelude.{◌≡◌, ◌↔◌, ℕ, ◌++◌, ◌∷◌, [], List, map, option_map, IfOk, IfSome, OnOk, OnErr, IsErr, IsSome, IsTrue, None, Some, true, false};
ghost use Rattle.std.specs.Arc.{arc_value};
ghost use Rattle.js_value.specs.Views.{plain_value};
ghost use Rattle.js_program.specs.PlainProgram.{PlainProgram};
ghost use Rattle.js_meaning.specs.State as js;
ghost use Rattle.js_meaning.specs.Bodies.{the_top, function, evaluation, constants_left};
ghost use Rattle.js_frames.specs.Places.{plain_ground, plain_effects};
ghost use Rattle.js_frames.specs.Runs.{Stands, untaken};
ghost use Rattle.js_meaning.specs.State.{effects_since};
ghost use Rattle.bp_meaning.specs.After.{after, handler as handler_set};
ghost use Rattle.bp_thread.specs.Kept.{fits_outcome};
ghost use Rattle.bp_thread.specs.Views.{plain_outcome, plain_origin};

use crate::keeping::{append, set_handler};
use crate::origin::Origin;
use crate::outcome::Outcome;
use crate::pausing::outcome_at;
use crate::replies::Replies;
use js_data::{Event, Memory, Text};
use js_frames::{Constants, Effects, Ground, Machine};
use js_program::Mode;
use js_value::{Items, Value};
use std::alloc::{AllocError, Global};
use std::mem;
use std::sync::Arc;

/// What a job is made of.
struct JobParts {
    alloc: Global,
    number: u32,
    name: Text,
    origin: Origin,
    replies: Replies,
    /// Nothing after memory ran out.
    machine: Option<Machine>,
    effects: Effects,
    handler: Option<Value>,
    outcome: Option<Outcome>,
    /// Where the outcome is there, so is the machine; and where it is a stop, the machine asks.
    ghost kept: { fits_outcome machine outcome ≡ true },
}

impl Drop for JobParts {
    fn drop(self) {
        let JobParts {
            alloc: _,
            number: _,
            name: _,
            origin: _,
            replies: _,
            machine: _,
            effects: _,
            handler: _,
            outcome: _,
        } = self;
    }
}

impl JobParts {
    /// Its machine, moved out, unless that is lost.
    fn into_machine(self) -> Option<Machine>
        ensures { result ≡ self.machine }
    {
        let JobParts {
            alloc: _,
            number: _,
            name: _,
            origin: _,
            replies: _,
            machine,
            effects: _,
            handler: _,
            outcome: _,
        } = self;
        machine
    }
}

/// A body that is carried on slice by slice, with the events that it was given and what it did.
///
/// A job is a plain value: it moves between threads, and its calls need nothing but its ground. It is
/// on the heap, so that moving it copies one pointer.
pub struct Job {
    parts: Box<JobParts>,
}

impl Drop for Job {
    fn drop(self) {
        let Job { parts: _ } = self;
    }
}

impl Job {
    ghost use Rattle.bp_thread.specs.Jobs.{plain_job, machine_of, IsOf, IsLost, is_stopped, is_ended, stop_line, StandsAt, StandsFor, IsWhole, IsFresh, IsSame, Sliced};
    ghost use Rattle.bp_thread.specs.Carried.{carried, Carries};

    /// A job that has this machine, which has not begun.
    fn on(
        alloc: Global,
        number: u32,
        name: Text,
        origin: Origin,
        machine: Machine,
    ) -> Result<Job, Memory>
        ensures made { IfOk result (λ j. plain_job j ≡ record {
          number = number;
          name = name;
          origin = plain_origin origin;
          replies = [];
          effects = [];
          handler = None;
          outcome = None;
        }) }
        ensures machine { IfOk result (λ j. machine_of j ≡ Some machine) }
        ensures fresh { (base : js.Ground) → (budget : ℕ) →
            Stands base budget (plain_origin origin) [] 0 [] machine → untaken machine ≡ [] →
            IfOk result (λ j. IsFresh base budget j) }
    {
        let parts = JobParts {
            alloc,
            number,
            name,
            origin,
            replies: Replies::new(alloc),
            machine: Some(machine),
            effects: Effects::new(alloc),
            handler: None,
            outcome: None,
        };
        let parts = Box::new(alloc, parts)?;
        Ok(Job { parts })
    }

    /// A job that stands at the start of a call of a function.
    ///
    /// Its number and name are those of its b-thread, and its mode is that of a b-thread or of a
    /// handler.
    pub fn start(
        alloc: Global,
        ground: &Ground,
        number: u32,
        name: Text,
        kind: Mode,
        callee: Value,
        args: Vec<Value>,
        budget: u64,
    ) -> Result<Job, Memory>
        ensures program { IfOk result (λ j. IsOf (plain_ground ground.now).program j) }
        ensures made { IfOk result (λ j. plain_job j ≡ record {
          number = number;
          name = name;
          origin = function kind (plain_value callee) (map plain_value args.items);
          replies = [];
          effects = [];
          handler = None;
          outcome = None;
        }) }
        ensures fresh { IfOk result (λ j. IsFresh (plain_ground ground.now) budget j) }
    {
        let args = Items::new(alloc, args)?;
        let machine = Machine::start(alloc, ground, &callee, args.as_slice(), kind, budget)?;
        let origin = Origin::Call(kind, callee, args);
        Job::on(alloc, number, name, origin, machine)
    }

    /// A job that stands at the start of the top level. Its number is 0, and its name is empty.
    pub fn top(alloc: Global, ground: &Ground, budget: u64) -> Result<Job, Memory>
        ensures program { IfOk result (λ j. IsOf (plain_ground ground.now).program j) }
        ensures made { IfOk result (λ j. plain_job j ≡ record {
          number = 0;
          name = [];
          origin = the_top;
          replies = [];
          effects = [];
          handler = None;
          outcome = None;
        }) }
        ensures fresh { IfOk result (λ j. IsFresh (plain_ground ground.now) budget j) }
    {
        let machine = Machine::top(alloc, ground, budget)?;
        let name = Text::new(String::new(alloc));
        Job::on(alloc, 0, name, Origin::Top, machine)
    }

    /// Its number.
    pub fn number(&self) -> u32
        ensures { result ≡ (plain_job self.now).number }
    {
        self.parts.number
    }

    /// Its name.
    pub fn name(&self) -> &Text
        ensures { result.now ≡ (plain_job self.now).name }
    {
        &self.parts.name
    }

    /// The events that it was given, in order, each shared by all that were given it.
    pub fn replies(&self) -> &[Arc<Event>]
        ensures { map arc_value result.now ≡ (plain_job self.now).replies }
    {
        self.parts.replies.as_slice()
    }

    /// Where its body stands; nothing from the start or a `give` on until a `slice` answers true.
    pub fn outcome(&self) -> Option<&Outcome>
        ensures held { option_map (λ o. plain_outcome o.now) result ≡ (plain_job self.now).outcome }
        ensures exact { (base : js.Ground) → (budget : ℕ) → StandsFor base budget self.now →
            IfSome result (λ o. plain_outcome o.now ≡ (after base budget
            (plain_job self.now).origin (plain_job self.now).replies).outcome) }
    {
        self.parts.outcome.as_ref()
    }

    /// The line of the `bp.sync` where its body stands, where it stands at one.
    pub fn line(&self) -> Option<u32>
        ensures exact { (base : js.Ground) → (budget : ℕ) → StandsFor base budget self.now →
            is_stopped (plain_job self.now).outcome ≡ true →
            result ≡ stop_line (evaluation base budget
            (plain_job self.now).origin (plain_job self.now).replies) }
        ensures none { is_stopped (plain_job self.now).outcome ≡ false → result ≡ None }
    {
        let Some(machine) = &self.parts.machine else {
            return None;
        };
        match &self.parts.outcome {
            Some(outcome) => match outcome {
                Outcome::Stopped(_) => Some(machine.line()),
                _ => None,
            },
            None => None,
        }
    }

    /// The function that its body set last as its handler, if it set one.
    pub fn handler(&self) -> Option<&Value>
        ensures held { option_map (λ v. plain_value v.now) result ≡ (plain_job self.now).handler }
        ensures exact { (base : js.Ground) → (budget : ℕ) → StandsFor base budget self.now →
            IsSome (plain_job self.now).outcome → option_map (λ v. plain_value v.now) result
            ≡ handler_set base budget (plain_job self.now).origin (plain_job self.now).replies }
    {
        self.parts.handler.as_ref()
    }

    /// What each job with an outcome is whose effects are whole, as a fact for its callers. Does
    /// nothing.
    pub fn keeps(&self)
        ensures { (base : js.Ground) → (budget : ℕ) → IsWhole base budget self.now →
            IsSome (plain_job self.now).outcome →
            plain_job self.now ≡ carried base budget (plain_job self.now) }
    {}

    /// The constants, as the top level left them.
    pub fn constants(self) -> Constants
        requires { is_ended (plain_job self).outcome ≡ true }
        ensures { (base : js.Ground) → (budget : ℕ) → StandsFor base budget self →
            (plain_job self).origin ≡ the_top →
            result ≡ constants_left (evaluation base budget the_top (plain_job self).replies) }
    {
        let Job { parts } = self;
        match Box::into_inner(parts).into_machine() {
            Some(machine) => machine.constants(),
            None => unreachable!(),
        }
    }

    /// The event stands at the end of the replies, and the body goes on with it; both share it. Its
    /// only error is out of memory, also where a count of owners is full, and then nothing has changed.
    pub fn give(&mut self, event: &Arc<Event>) -> Result<(), Memory>
        requires stopped { is_stopped (plain_job self.old).outcome ≡ true }
        requires taken { (plain_job self.old).effects ≡ [] }
        ensures program { (program : PlainProgram) → IsOf program self.old → IsOf program self.new }
        ensures given { OnOk result (plain_job self.new ≡ record (plain_job self.old) {
          replies = (plain_job self.old).replies ++ arc_value event.now ∷ [];
          outcome = None;
        }) }
        ensures fresh { (base : js.Ground) → (budget : ℕ) → StandsFor base budget self.old →
            OnOk result (IsFresh base budget self.new) }
        ensures err { OnErr result (self.new ≡ self.old) }
    {
        let kept = event.clone()?;
        let answer = event.clone()?;
        let parts = &mut *self.parts;
        parts.replies.push(kept)?;
        parts.outcome = None;
        if let Some(machine) = &mut parts.machine {
            machine.resume(answer);
        }
        Ok(())
    }

    /// Carries the body on by at most this many nodes. After memory ran out the machine may stand
    /// anywhere.
    fn step(&mut self, ground: &Ground, nodes: u64) -> Result<bool, Memory>
        requires program { IsOf (plain_ground ground.now).program self.old }
        requires open { (plain_job self.old).outcome ≡ None }
        ensures same { IsSame (plain_job self.old) (plain_job self.new) }
        ensures program { OnOk result (IsOf (plain_ground ground.now).program self.new) }
        ensures done { IfOk result (λ done. IsTrue done ↔ IsSome (plain_job self.new).outcome) }
        ensures stands { (budget begun : ℕ) → (made : List js.Effect) →
            StandsAt (plain_ground ground.now) budget begun made self.old →
            IfOk result (λ done. Sliced (plain_ground ground.now) budget begun made nodes done
            self.old self.new) }
        ensures open { OnErr result ((plain_job self.new).outcome ≡ None) }
        ensures stays_lost { IsLost self.old → IsErr result }
    {
        let parts = &mut *self.parts;
        let Some(machine) = &mut parts.machine else {
            return Err(AllocError);
        };
        let pause = machine.run(ground, nodes)?;
        let fresh = machine.take_effects();
        set_handler(&mut parts.handler, fresh.items.as_slice())?;
        append(&mut parts.effects, fresh)?;
        let outcome = outcome_at(parts.alloc, machine, pause)?;
        let done = outcome.is_some();
        parts.outcome = outcome;
        Ok(done)
    }

    /// Carries the body on by at most this many nodes: true where the outcome is there now, and false
    /// where this many nodes began, another must begin and budget is left. After memory ran out it
    /// answers nothing else.
    pub fn slice(&mut self, ground: &Ground, nodes: u64) -> Result<bool, Memory>
        requires program { IsOf (plain_ground ground.now).program self.old }
        requires open { (plain_job self.old).outcome ≡ None }
        ensures program { IsOf (plain_ground ground.now).program self.new }
        ensures same { IsSame (plain_job self.old) (plain_job self.new) }
        ensures done { IfOk result (λ done. IsTrue done ↔ IsSome (plain_job self.new).outcome) }
        ensures stands { (budget begun : ℕ) → (made : List js.Effect) →
            StandsAt (plain_ground ground.now) budget begun made self.old →
            IfOk result (λ done. Sliced (plain_ground ground.now) budget begun made nodes done
            self.old self.new) }
        ensures carries { (budget : ℕ) →
            OnOk result (Carries (plain_ground ground.now) budget self.old self.new) }
        ensures open { OnErr result ((plain_job self.new).outcome ≡ None) }
        ensures lost { OnErr result (IsLost self.new) }
        ensures stays_lost { IsLost self.old → IsErr result }
    {
        let Ok(there) = self.step(ground, nodes) else {
            self.parts.machine = None;
            return Err(AllocError);
        };
        Ok(there)
    }

    /// The effects since the start or the last `give` that were not taken yet, in order.
    pub fn take_effects(&mut self) -> Effects
        ensures program { (program : PlainProgram) → IsOf program self.old → IsOf program self.new }
        ensures given { plain_effects result ≡ (plain_job self.old).effects }
        ensures left { plain_job self.new ≡ record (plain_job self.old) { effects = [] } }
        ensures stands { (base : js.Ground) → (budget begun : ℕ) → (made : List js.Effect) →
            StandsAt base budget begun made self.old → StandsAt base budget begun made self.new }
        ensures exact { (base : js.Ground) → (budget : ℕ) → IsWhole base budget self.old →
            IsSome (plain_job self.old).outcome → plain_effects result ≡ effects_since
            (evaluation base budget (plain_job self.old).origin (plain_job self.old).replies) }
    {
        let parts = &mut *self.parts;
        mem::replace(&mut parts.effects, Effects::new(parts.alloc))
    }
}
