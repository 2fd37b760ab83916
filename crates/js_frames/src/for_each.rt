//! `forEach`.
ghost use Rattle.std.specs.Prelude.{◌≡◌, ◌<◌, ◌+◌, ◌^◌, ◌∷◌, [], pos, IfOk, IsSome, Some, slice_get};
ghost use Rattle.js_value.specs.Value.{function, list, whole};
ghost use Rattle.js_value.specs.Views.{plain_value};
ghost use Rattle.js_meaning.specs.declared.limits.TheConstants.{MOST_CALLS};
ghost use Rattle.js_meaning.specs.Variables.{padded};
ghost use Rattle.js_meaning.specs.Calls.{for_each_call};
ghost use Rattle.js_meaning.specs.Meaning.{eval};
ghost use Rattle.js_frames.specs.Places.{here};
ghost use Rattle.js_frames.specs.Frames.{walk_from};
ghost use Rattle.js_frames.specs.Fits.{StackFits, AreNodes};
ghost use Rattle.js_program.specs.PlainProgram.{content_parts};
ghost use Rattle.js_program.specs.Views.{plain_body, plain_content};
ghost use Rattle.js_frames.specs.inner.Leads.{Goes, first_of, AreElementArgs};

use crate::calls::{first_in, function_of};
use crate::engine::Engine;
use crate::frame::{Frame, Part, Sequence, Walk};
use crate::ground::Ground;
use crate::step::{Step, leave, mistyped};
use crate::values::{Values, item_at};
use js_data::{Fault, Memory, Whole};
use js_meaning::MOST_CALLS;
use js_program::Body;
use js_value::{Items, Value, copy};
use std::alloc::AllocError;

/// An index as a value: no list has more places than there are whole numbers.
fn index_value(index: usize) -> Result<Value, Memory>
    ensures { IfOk result (λ v. plain_value v ≡ whole (pos index)) }
{
    match i64::try_from(index) {
        Ok(n) => match Whole::new(n) {
            Some(number) => Ok(Value::Whole(number)),
            None => Err(AllocError),
        },
        Err(_) => Err(AllocError),
    }
}

/// The arguments of the function: the element, its index and the list, but no more than it has
/// parameters.
fn element_args(
    none: Values,
    wanted: u32,
    item: &Value,
    index: usize,
    items: &Items,
) -> Result<Values, Memory>
    requires { none ≡ [] }
    ensures { IfOk result (λ args. padded wanted args
        ≡ padded wanted (plain_value item.now ∷ whole (pos index) ∷ list items.now ∷ [])) }
{
    let mut args = none;
    let element = copy(item)?;
    args.push(element)?;
    if wanted <= 1 {
        return Ok(args);
    }
    let place = index_value(index)?;
    args.push(place)?;
    if wanted <= 2 {
        return Ok(args);
    }
    let list = items.copy()?;
    args.push(Value::List(list))?;
    Ok(args)
}

impl Engine {
    /// `forEach` with its arguments.
    pub(crate) fn for_each(
        &mut self,
        base: &Ground,
        line: u32,
        items: Items,
        mut args: Values,
    ) -> Result<Step, Memory>
        requires { StackFits base.now.program self.old.stack.items }
        ensures { let g = here base.now self.old in Goes base.now self.old
            (for_each_call g (eval g) line items args) self.new result }
    {
        let function = args.take(0);
        self.done_with(args);
        match function {
            Value::Function { code, captured } => self.walk(
                base,
                Walk {
                    code,
                    captured,
                    items,
                    index: 0,
                    line,
                },
            ),
            _ => Ok(mistyped(line)),
        }
    }

    /// The function is called with the element at the index, if there is one.
    #[inline(never)]
    pub(crate) fn walk(&mut self, base: &Ground, walk: Walk) -> Result<Step, Memory>
        requires { StackFits base.now.program self.old.stack.items }
        ensures { Goes base.now self.old (walk_from (here base.now self.old) walk) self.new result }
    {
        let Some(item) = item_at(&walk.items, walk.index) else {
            return Ok(leave());
        };
        if self.calls >= MOST_CALLS {
            return Ok(Step::Fail(Fault::Depth, walk.line));
        }
        let Some(body) = function_of(base, walk.code) else {
            return Ok(leave());
        };
        // A function that begins nothing does nothing for any element.
        let Some(_first) = first_in(&body.content) else {
            return Ok(leave());
        };
        let none = self.no_values();
        let args = element_args(none, body.parameters, item, walk.index, &walk.items)?;
        // For the proof: what the ground keeps.
        base.keeps();
        self.walk_on(base, body, walk, args)
    }

    /// The call for an element, and a frame for those after it.
    fn walk_on(
        &mut self,
        base: &Ground,
        body: &Body,
        walk: Walk,
        args: Values,
    ) -> Result<Step, Memory>
        requires room { self.old.calls < MOST_CALLS }
        requires places { walk.index + 1 < 2 ^ 64 }
        requires found { slice_get base.now.program.functions walk.code
            ≡ Some (plain_body body.now) }
        requires parts { AreNodes base.now.program
            (content_parts (plain_content body.now.content)) }
        requires starts { IsSome (first_of (plain_content body.now.content)) }
        requires args { AreElementArgs walk body.now.parameters args }
        requires fits { StackFits base.now.program self.old.stack.items }
        ensures { Goes base.now self.old (walk_from (here base.now self.old) walk) self.new result }
    {
        let captured = walk.captured.copy()?;
        let sequence = Sequence::Function(walk.code);
        let active = self.calls + 1;
        let further = Walk {
            code: walk.code,
            captured: walk.captured,
            items: walk.items,
            index: walk.index + 1,
            line: walk.line,
        };
        self.stack.push(Frame::Waiting(Part::Walked(further)))?;
        self.enter(base, body, sequence, active, &captured, args)
    }
}
