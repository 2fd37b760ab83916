//! Calls of functions.
ghost use Rattle.std.specs.Prelude.{◌≡◌, ◌<◌, ◌+◌, [], Some, None, IfOk, OnOk, IsSome, option_map, slice_get};
ghost use Rattle.js_value.specs.Value.{function};
ghost use Rattle.js_value.specs.Lists.{values_in};
ghost use Rattle.js_value.specs.Views.{plain_value};
ghost use Rattle.js_program.specs.PlainProgram.{content_parts};
ghost use Rattle.js_program.specs.Views.{plain_body, plain_content};
ghost use Rattle.js_meaning.specs.Calls.{enters, calls, answer_of};
ghost use Rattle.js_meaning.specs.Meaning.{eval};
ghost use Rattle.js_frames.specs.Places.{place_of, here, plain_effects};
ghost use Rattle.js_frames.specs.Frames.{plain_completion, statements_in, statements_of};
ghost use Rattle.js_frames.specs.Fits.{StackFits, AreNodes, SequenceFits};
ghost use Rattle.js_frames.specs.inner.Leads.{Goes, Gives, IsBegin, entered, first_of};

use crate::engine::Engine;
use crate::frame::{Frame, Part, Sequence};
use crate::ground::Ground;
use crate::slots::Slots;
use crate::step::{Completion, Step, give, leave, mistyped};
use crate::values::{Values, number_at};
use js_data::{Fault, Memory};
use js_meaning::MOST_CALLS;
use js_program::{Body, Content};
use js_value::{Items, Value};
use std::mem;

/// What a call answers whose body completes so.
fn answer(completion: Completion) -> Value
    ensures { plain_value result ≡ answer_of (plain_completion completion) }
{
    match completion {
        Completion::Returned(value) => value,
        _ => Value::Undefined,
    }
}

/// The function of this number, if there is one.
pub(crate) fn function_of(base: &Ground, code: u32) -> Option<&Body>
    ensures { option_map (λ b. plain_body b.now) result
        ≡ slice_get base.now.program.functions code }
{
    if code < base.program().functions() {
        Some(base.program().function(code))
    } else {
        None
    }
}

/// The node that a body begins with, if it has one.
pub(crate) fn first_in(content: &Content) -> Option<u32>
    ensures { result ≡ first_of (plain_content content.now) }
{
    match content {
        Content::Statements(statements) => number_at(statements, 0),
        Content::OneValue(part) => Some(*part),
    }
}

impl Engine {
    /// A call of a value: what is no function cannot be called, and neither can one more than 200.
    pub(crate) fn call(
        &mut self,
        base: &Ground,
        line: u32,
        function: Value,
        args: Values,
    ) -> Result<Step, Memory>
        requires { StackFits base.now.program self.old.stack.items }
        ensures goes { let g = here base.now self.old in Goes base.now self.old
            (calls g (eval g) line (plain_value function) args) self.new result }
        ensures effects { OnOk result
            (plain_effects self.new.effects ≡ plain_effects self.old.effects) }
    {
        match function {
            Value::Function { code, captured } => {
                self.call_function(base, line, code, &captured, args)
            }
            _ => Ok(mistyped(line)),
        }
    }

    fn call_function(
        &mut self,
        base: &Ground,
        line: u32,
        code: u32,
        captured: &Items,
        args: Values,
    ) -> Result<Step, Memory>
        requires { StackFits base.now.program self.old.stack.items }
        ensures goes { let g = here base.now self.old in Goes base.now self.old
            (calls g (eval g) line (function code captured.now) args) self.new result }
        ensures effects { OnOk result
            (plain_effects self.new.effects ≡ plain_effects self.old.effects) }
    {
        if self.calls >= MOST_CALLS {
            return Ok(Step::Fail(Fault::Depth, line));
        }
        let active = self.calls + 1;
        // For the proof: what the ground keeps.
        base.keeps();
        match function_of(base, code) {
            None => Ok(leave()),
            Some(body) => self.enter(base, body, Sequence::Function(code), active, captured, args),
        }
    }

    /// A body begins with its own slots, while this many calls are active.
    pub(crate) fn enter(
        &mut self,
        base: &Ground,
        body: &Body,
        sequence: Sequence,
        active: u32,
        captured: &Items,
        args: Values,
    ) -> Result<Step, Memory>
        requires parts { AreNodes base.now.program
            (content_parts (plain_content body.now.content)) }
        requires statements { statements_of base.now.program sequence
            ≡ statements_in (plain_content body.now.content) }
        requires sequence { SequenceFits base.now.program sequence }
        requires fits { StackFits base.now.program self.old.stack.items }
        ensures goes { Goes base.now self.old
            (enters (eval (here base.now self.old)) active (plain_body body.now)
            (values_in captured.now) args)
            self.new result }
        ensures begins { IsSome (first_of (plain_content body.now.content)) → IfOk result IsBegin }
        ensures effects { OnOk result
            (plain_effects self.new.effects ≡ plain_effects self.old.effects) }
    {
        let Some(first) = first_in(&body.content) else {
            return Ok(leave());
        };
        let mut values = args;
        let slots = Slots::of_call(self.alloc, body, captured, &mut values)?;
        self.done_with(values);
        self.push_call(slots, active)?;
        match &body.content {
            Content::Statements(_) => {
                self.wait(first, Frame::Waiting(Part::Statements(sequence, 1)))
            }
            Content::OneValue(_) => self.wait(first, Frame::Waiting(Part::Returned)),
        }
    }

    /// These slots, and a frame that keeps the caller's.
    fn push_call(&mut self, slots: Slots, active: u32) -> Result<(), Memory>
        ensures { OnOk result (place_of self.new ≡ entered (place_of self.old) slots active) }
    {
        let callers = mem::replace(&mut self.slots, slots);
        self.stack.push(Frame::Called(callers, self.calls))?;
        self.calls = active;
        Ok(())
    }

    /// The caller's slots again, and what the call answers.
    #[inline(never)]
    pub(crate) fn return_to(&mut self, slots: Slots, calls: u32, completion: Completion) -> Step
        ensures step { Gives (answer_of (plain_completion completion)) result }
        ensures place { place_of self.new
            ≡ record (place_of self.old) { slots = slots; calls = calls } }
    {
        self.slots = slots;
        self.calls = calls;
        give(answer(completion))
    }

    /// The top level begins.
    pub(crate) fn begin_top(&mut self, base: &Ground) -> Result<Step, Memory>
        requires { StackFits base.now.program self.old.stack.items }
        ensures goes { Goes base.now self.old
            (enters (eval (here base.now self.old)) 0 base.now.program.top [] [])
            self.new result }
        ensures effects { OnOk result
            (plain_effects self.new.effects ≡ plain_effects self.old.effects) }
    {
        // For the proof: what the ground keeps.
        base.keeps();
        let captured = Items::new(self.alloc, Vec::new(self.alloc))?;
        let args = Values::new(self.alloc);
        self.enter(
            base,
            base.program().top(),
            Sequence::Top,
            0,
            &captured,
            args,
        )
    }
}
