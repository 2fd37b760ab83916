//! The machine.
ghost use Rattle.std.specs.Prelude.{◌≡◌, ℕ, ◌++◌, ◌∷◌, [], List, map, IfOk, OnOk, OnErr, IsErr, IsSome, Some};
ghost use Rattle.std.specs.Arc.{arc_value};
ghost use Rattle.js_data.specs.Event.{PlainEvent};
ghost use Rattle.js_value.specs.Views.{plain_value};
ghost use Rattle.js_program.specs.PlainProgram.{PlainProgram};
ghost use Rattle.js_meaning.specs.State as js;
ghost use Rattle.js_meaning.specs.Bodies.{Origin, the_top, function};
ghost use Rattle.js_frames.specs.Places.{plain_ground, plain_effects};
ghost use Rattle.js_frames.specs.Runs.{IsOfProgram, IsLost, Stands, Runs, untaken, asked_by, line_asked, answer_by, constants_by, pause_of};

use crate::effect::Effects;
use crate::engine::Engine;
use crate::ground::Ground;
use crate::slots::{Constants, constants_start};
use crate::step::{Completion, Step, give};
use crate::values::Values;
use js_data::{Event, Fault, Memory, Text};
use js_program::Mode;
use js_value::{Value, copy};
use std::alloc::{AllocError, Global};
use std::sync::Arc;

/// Why a machine stops.
#[derive(Drop)]
pub enum Pause {
    /// As many nodes began as were asked for, another must, and there is budget.
    More,
    /// At `bp.sync`.
    AtSync,
    /// At the end.
    Ended,
    /// A fault, and its line.
    Broken(Fault, u32),
    /// An assertion failed: its text.
    Violated(Text),
    /// The budget's nodes have begun, and another must.
    Spent,
}

/// A machine, which runs the top level or a call of a function in slices.
pub struct Machine {
    engine: Engine,
    /// The step that comes next; nothing where it was given nothing to do yet, or memory ran out.
    pending: Option<Step>,
}

impl Drop for Machine {
    fn drop(self) {
        let Machine {
            engine: _,
            pending: _,
        } = self;
    }
}

/// Copies of values, where there were none.
fn push_copies(made: &mut Values, values: &[Value]) -> Result<(), Memory>
    requires { made.old ≡ [] }
    ensures { OnOk result (made.new ≡ map plain_value values.now) }
{
    for value in values {
        let copied = copy(value)?;
        made.push(copied)?;
    }
    Ok(())
}

impl Machine {
    /// A machine that stands at the start of the top level.
    pub fn top(alloc: Global, base: &Ground, budget: u64) -> Result<Machine, Memory>
        ensures program { IfOk result (λ m. IsOfProgram (plain_ground base.now).program m) }
        ensures effects { IfOk result (λ m. untaken m ≡ []) }
        ensures stands { IfOk result (λ m.
            Stands (plain_ground base.now) budget the_top [] 0 [] m) }
    {
        let constants = constants_start(alloc, base.program())?;
        let mut engine = Engine::new(alloc, Mode::Top, budget, Some(constants));
        let step = engine.begin_top(base)?;
        Ok(Machine {
            engine,
            pending: Some(step),
        })
    }

    /// A machine that stands at the start of a call of a function.
    pub fn start(
        alloc: Global,
        base: &Ground,
        callee: &Value,
        args: &[Value],
        mode: Mode,
        budget: u64,
    ) -> Result<Machine, Memory>
        ensures program { IfOk result (λ m. IsOfProgram (plain_ground base.now).program m) }
        ensures effects { IfOk result (λ m. untaken m ≡ []) }
        ensures stands { IfOk result (λ m. Stands (plain_ground base.now) budget
            (function mode (plain_value callee.now) (map plain_value args.now)) [] 0 [] m) }
    {
        let mut machine = Machine::idle(alloc);
        machine.restart(base, callee, args, mode, budget)?;
        Ok(machine)
    }

    /// A machine that stands for nothing.
    pub fn idle(alloc: Global) -> Machine
        ensures { IsLost result }
    {
        Machine {
            engine: Engine::new(alloc, Mode::Top, 0, None),
            pending: None,
        }
    }

    /// The machine stands at the start of a call of a function from now on; of what it stood for, the
    /// room alone serves the call. After memory ran out it stands for nothing.
    pub fn restart(
        &mut self,
        base: &Ground,
        callee: &Value,
        args: &[Value],
        mode: Mode,
        budget: u64,
    ) -> Result<(), Memory>
        ensures program { OnOk result (IsOfProgram (plain_ground base.now).program self.new) }
        ensures effects { OnOk result (untaken self.new ≡ []) }
        ensures stands { OnOk result (Stands (plain_ground base.now) budget
            (function mode (plain_value callee.now) (map plain_value args.now)) [] 0 [] self.new) }
        ensures lost { OnErr result (IsLost self.new) }
    {
        self.pending = None;
        self.engine.begin_anew(mode, budget);
        let mut values = self.engine.no_values();
        push_copies(&mut values, args)?;
        let function = copy(callee)?;
        let step = self.engine.call(base, 0, function, values)?;
        self.pending = Some(step);
        Ok(())
    }

    /// Begins at most this many nodes, and says why it stops. After memory ran out it answers nothing
    /// else.
    pub fn run(&mut self, base: &Ground, nodes: u64) -> Result<Pause, Memory>
        requires { IsOfProgram (plain_ground base.now).program self.old }
        ensures program { IsOfProgram (plain_ground base.now).program self.new }
        ensures stands { (budget : ℕ) → (o : Origin) → (replies : List PlainEvent) →
            (begun : ℕ) → (taken : List js.Effect) →
            Stands (plain_ground base.now) budget o replies begun taken self.old →
            IfOk result (λ pause.
            Runs (plain_ground base.now) budget o replies begun taken nodes pause self.new) }
        ensures at_sync { IfOk result (λ pause. pause ≡ Pause.AtSync → IsSome (asked_by self.new)) }
        ensures lost { OnErr result (IsLost self.new) }
        ensures stays_lost { IsLost self.old → IsErr result }
    {
        let Some(step) = self.pending.take() else {
            return Err(AllocError);
        };
        let last = self.engine.advance(base, step, nodes)?;
        let pause = pause_at(self.engine.fuel, &last)?;
        self.pending = Some(last);
        Ok(pause)
    }

    /// What is asked at `bp.sync`: the statement and the priority.
    pub fn asked(&self) -> (&Value, &Value)
        requires { IsSome (asked_by self.now) }
        ensures { asked_by self.now ≡ Some (plain_value result.0.now, plain_value result.1.now) }
    {
        match &self.pending {
            Some(step) => match step {
                Step::Ask(statement, priority, _) => (statement, priority),
                _ => unreachable!(),
            },
            None => unreachable!(),
        }
    }

    /// The line of the `bp.sync` that asks.
    pub fn line(&self) -> u32
        requires { IsSome (asked_by self.now) }
        ensures { line_asked self.now ≡ Some result }
    {
        match &self.pending {
            Some(step) => match step {
                Step::Ask(_, _, line) => *line,
                _ => unreachable!(),
            },
            None => unreachable!(),
        }
    }

    /// The value with which the next step goes on: at the body's end, what it answers.
    pub fn answer(&self) -> &Value
        requires { IsSome (answer_by self.now) }
        ensures { answer_by self.now ≡ Some (plain_value result.now) }
    {
        match &self.pending {
            Some(step) => match step {
                Step::Give(completion) => match completion {
                    Completion::Normal(value) => value,
                    _ => unreachable!(),
                },
                _ => unreachable!(),
            },
            None => unreachable!(),
        }
    }

    /// The event is the value of the `bp.sync`, which shares it, and the budget is whole again.
    pub fn resume(&mut self, event: Arc<Event>)
        requires { IsSome (asked_by self.old) }
        ensures program { (program : PlainProgram) →
            IsOfProgram program self.old → IsOfProgram program self.new }
        ensures effects { untaken self.new ≡ untaken self.old }
        ensures stands { (base : js.Ground) → (budget : ℕ) → (o : Origin) →
            (replies : List PlainEvent) → (begun : ℕ) → (taken : List js.Effect) →
            Stands base budget o replies begun taken self.old →
            Stands base budget o (replies ++ arc_value event ∷ []) 0 taken self.new }
    {
        self.engine.refill();
        self.pending = Some(give(Value::Event(event)));
    }

    /// The effects since the last taking, in order.
    pub fn take_effects(&mut self) -> Effects
        ensures program { (program : PlainProgram) →
            IsOfProgram program self.old → IsOfProgram program self.new }
        ensures given { plain_effects result ≡ untaken self.old }
        ensures left { untaken self.new ≡ [] }
        ensures asked { asked_by self.new ≡ asked_by self.old }
        ensures line { line_asked self.new ≡ line_asked self.old }
        ensures answer { answer_by self.new ≡ answer_by self.old }
        ensures constants { constants_by self.new ≡ constants_by self.old }
        ensures stands { (base : js.Ground) → (budget : ℕ) → (o : Origin) →
            (replies : List PlainEvent) → (begun : ℕ) → (taken : List js.Effect) →
            Stands base budget o replies begun taken self.old →
            Stands base budget o replies begun (taken ++ plain_effects result) self.new }
    {
        self.engine.take_effects()
    }

    /// The constants, as the top level left them.
    pub fn constants(self) -> Constants
        ensures { result ≡ constants_by self }
    {
        let Machine { engine, pending: _ } = self;
        engine.into_constants()
    }
}

/// Why a machine stops at this step.
fn pause_at(fuel: u64, step: &Step) -> Result<Pause, Memory>
    ensures { IfOk result (λ pause. pause ≡ pause_of fuel step.now) }
{
    match step {
        Step::Begin(_) => {
            if fuel == 0 {
                Ok(Pause::Spent)
            } else {
                Ok(Pause::More)
            }
        }
        Step::Give(_) => Ok(Pause::Ended),
        Step::Ask(_, _, _) => Ok(Pause::AtSync),
        Step::Fail(fault, line) => Ok(Pause::Broken(*fault, *line)),
        Step::Violate(text) => {
            let copied = text.copy()?;
            Ok(Pause::Violated(copied))
        }
    }
}
