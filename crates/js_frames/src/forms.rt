//! The forms of `bp` and `Math`, with their arguments.
ghost use Rattle.std.specs.Prelude.{◌≡◌, IfOk, option_map};
ghost use Rattle.js_data.specs.JsonText.{data_text};
ghost use Rattle.js_value.specs.Value.{set, text as text_that_is};
ghost use Rattle.js_value.specs.Views.{plain_value, plain_set};
ghost use Rattle.js_value.specs.DataValues.{value_data};
ghost use Rattle.js_meaning.specs.State.{gives};
ghost use Rattle.js_meaning.specs.Forms.{argument, does_to_run, registers_thread, asks, asserted, enqueues_event, sets_handler, log_text, logs, floors, takes_effect, applies_form};
ghost use Rattle.js_frames.specs.Places.{here, plain_effect};
ghost use Rattle.js_frames.specs.Fits.{StackFits};
ghost use Rattle.js_frames.specs.inner.Leads.{Goes, Becomes};

use crate::effect::Effect;
use crate::engine::Engine;
use crate::ground::Ground;
use crate::step::{Step, answered, give, leave, mistyped};
use crate::values::Values;
use js_data::{Fault, Memory, Text};
use js_json::{data_text, event_text};
use js_ops::make;
use js_program::{Builtin, has_effect_in};
use js_value::{EventSet, Make, SetTree, Value, data_of_value, text_of, truthy};
use std::alloc::Global;

/// A set is given.
fn set(alloc: Global, tree: SetTree) -> Result<Step, Memory>
    ensures { IfOk result (Becomes (λ g. gives (set (plain_set tree)))) }
{
    let made = EventSet::new(alloc, tree)?;
    Ok(give(Value::Set(made)))
}

/// A statement asks.
fn ask(line: u32, args: &mut Values) -> Step
    ensures { Becomes (λ g s.
        asks g.budget line (argument 0 args.old) (argument 1 args.old) s.replies s) result }
{
    let priority = args.take(1);
    Step::Ask(args.take(0), priority, line)
}

/// An assertion.
fn asserted(line: u32, args: &mut Values) -> Result<Step, Memory>
    ensures { IfOk result
        (Becomes (λ g. asserted line (argument 0 args.old) (argument 1 args.old))) }
{
    let text = args.take(1);
    assert_with(line, &args.take(0), &text)
}

fn assert_with(line: u32, condition: &Value, text: &Value) -> Result<Step, Memory>
    ensures { IfOk result
        (Becomes (λ g. asserted line (plain_value condition.now) (plain_value text.now))) }
{
    let Value::Text(content) = text else {
        return Ok(mistyped(line));
    };
    if truthy(condition) {
        Ok(leave())
    } else {
        let copied = content.copy()?;
        Ok(Step::Violate(copied))
    }
}

/// `Math.floor` of anything but a division.
fn floored(line: u32, args: &mut Values) -> Step
    ensures { Becomes (λ g. floors line (argument 0 args.old)) result }
{
    let Value::Whole(n) = args.take(0) else {
        return mistyped(line);
    };
    give(Value::Whole(n))
}

/// The text of a value in the log; none where it has no such text.
fn log_text(alloc: Global, value: &Value) -> Result<Option<Text>, Memory>
    ensures { IfOk result (λ o. o ≡ log_text (plain_value value.now)) }
{
    match value {
        Value::Event(event) => Ok(Some(event_text(alloc, event)?)),
        Value::List(_) => json_text(alloc, value),
        Value::Fields(_) => json_text(alloc, value),
        _ => text_of(alloc, value),
    }
}

/// The compact JSON of a value that is data.
fn json_text(alloc: Global, value: &Value) -> Result<Option<Text>, Memory>
    ensures { IfOk result (λ o. o ≡ option_map data_text (value_data (plain_value value.now))) }
{
    // For the proof: what the value keeps.
    value.keeps();
    match data_of_value(alloc, value)? {
        None => Ok(None),
        Some(tree) => Ok(Some(data_text(alloc, &tree)?)),
    }
}

impl Engine {
    /// In a mode where the form has no effect it is the fault `mode`. The form is done with its
    /// arguments.
    pub(crate) fn apply_form(
        &mut self,
        base: &Ground,
        line: u32,
        form: Builtin,
        args: Values,
    ) -> Result<Step, Memory>
        requires { StackFits base.now.program self.old.stack.items }
        ensures { Goes base.now self.old (applies_form (here base.now self.old) line form args)
            self.new result }
    {
        if has_effect_in(self.mode, form) {
            self.finish_form(base, line, form, args)
        } else {
            Ok(Step::Fail(Fault::Mode, line))
        }
    }

    fn finish_form(
        &mut self,
        base: &Ground,
        line: u32,
        form: Builtin,
        mut args: Values,
    ) -> Result<Step, Memory>
        requires { StackFits base.now.program self.old.stack.items }
        ensures { Goes base.now self.old (takes_effect self.old.budget line form args)
            self.new result }
    {
        let step = self.take_effect(base, line, form, &mut args)?;
        self.done_with(args);
        Ok(step)
    }

    fn take_effect(
        &mut self,
        base: &Ground,
        line: u32,
        form: Builtin,
        args: &mut Values,
    ) -> Result<Step, Memory>
        requires { StackFits base.now.program self.old.stack.items }
        ensures { Goes base.now self.old (takes_effect self.old.budget line form args.old)
            self.new result }
    {
        match form {
            Builtin::RegisterBThread => self.register(base, line, args),
            Builtin::Sync => Ok(ask(line, args)),
            Builtin::Event => answered(make(self.alloc, Make::Event, args.as_slice(), &[]), line),
            Builtin::EventSet => answered(make(self.alloc, Make::Set, args.as_slice(), &[]), line),
            Builtin::All => set(self.alloc, SetTree::All),
            Builtin::Nothing => set(self.alloc, SetTree::Nothing),
            Builtin::Assert => asserted(line, args),
            Builtin::EnqueueExternalEvent => self.enqueue(base, line, args),
            Builtin::SetInterruptHandler => self.handle(base, line, args),
            Builtin::LogInfo => self.log(base, line, args),
            Builtin::Floor => Ok(floored(line, args)),
        }
    }

    /// One more effect.
    fn act(&mut self, base: &Ground, effect: Effect) -> Result<Step, Memory>
        requires { StackFits base.now.program self.old.stack.items }
        ensures { Goes base.now self.old (does_to_run (plain_effect effect)) self.new result }
    {
        self.effects.push(effect)?;
        Ok(leave())
    }

    fn register(&mut self, base: &Ground, line: u32, args: &mut Values) -> Result<Step, Memory>
        requires { StackFits base.now.program self.old.stack.items }
        ensures { Goes base.now self.old
            (registers_thread line (argument 0 args.old) (argument 1 args.old)) self.new result }
    {
        let function = args.take(1);
        let name = args.take(0);
        self.register_with(base, line, &name, function)
    }

    fn register_with(
        &mut self,
        base: &Ground,
        line: u32,
        name: &Value,
        function: Value,
    ) -> Result<Step, Memory>
        requires { StackFits base.now.program self.old.stack.items }
        ensures { Goes base.now self.old
            (registers_thread line (plain_value name.now) (plain_value function)) self.new result }
    {
        match name {
            Value::Text(text) => self.register_named(base, line, text, function),
            _ => Ok(mistyped(line)),
        }
    }

    fn register_named(
        &mut self,
        base: &Ground,
        line: u32,
        name: &Text,
        function: Value,
    ) -> Result<Step, Memory>
        requires { StackFits base.now.program self.old.stack.items }
        ensures { Goes base.now self.old
            (registers_thread line (text_that_is name.now) (plain_value function)) self.new result }
    {
        match function {
            Value::Function { code, captured } => {
                let copied = name.copy()?;
                self.act(
                    base,
                    Effect::Register(copied, Value::Function { code, captured }),
                )
            }
            _ => Ok(mistyped(line)),
        }
    }

    fn enqueue(&mut self, base: &Ground, line: u32, args: &mut Values) -> Result<Step, Memory>
        requires { StackFits base.now.program self.old.stack.items }
        ensures { Goes base.now self.old (enqueues_event line (argument 0 args.old))
            self.new result }
    {
        match args.take(0) {
            Value::Event(event) => {
                let copied = event.copy()?;
                self.act(base, Effect::Enqueue(copied))
            }
            _ => Ok(mistyped(line)),
        }
    }

    fn handle(&mut self, base: &Ground, line: u32, args: &mut Values) -> Result<Step, Memory>
        requires { StackFits base.now.program self.old.stack.items }
        ensures { Goes base.now self.old (sets_handler line (argument 0 args.old)) self.new result }
    {
        match args.take(0) {
            Value::Function { code, captured } => {
                self.act(base, Effect::Handler(Value::Function { code, captured }))
            }
            _ => Ok(mistyped(line)),
        }
    }

    fn log(&mut self, base: &Ground, line: u32, args: &mut Values) -> Result<Step, Memory>
        requires { StackFits base.now.program self.old.stack.items }
        ensures { Goes base.now self.old (logs line (log_text (argument 0 args.old)))
            self.new result }
    {
        let value = args.take(0);
        match log_text(self.alloc, &value)? {
            None => Ok(mistyped(line)),
            Some(text) => self.act(base, Effect::Line(text)),
        }
    }
}
