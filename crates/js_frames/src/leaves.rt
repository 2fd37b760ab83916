//! Parts that give a value at once: what would wait for one goes on with it, without a frame.
ghost use Rattle.std.specs.Prelude.{◌≡◌, ◌≤◌, ◌<◌, ◌⊎◌, IfOk, IfSome, IfNone, Ok, Some, None, option_map, slice_get};
ghost use Rattle.js_value.specs.Views.{plain_value};
ghost use Rattle.js_ops.specs.Operators.{value_of, unary_of};
ghost use Rattle.js_frames.specs.Places.{plain_ground, place_of, here};
ghost use Rattle.js_frames.specs.Fits.{StackFits, IsNode, HasForm, IsShort, IsDouble};
ghost use Rattle.js_frames.specs.inner.Leads.{Goes, leaf_of, waits_for};
ghost use Rattle.js_frames.specs.inner.Giving.{Gave, with_fuel, skips, value_by};

use crate::branches::{choose, when};
use crate::engine::Engine;
use crate::frame::{Frame, Part};
use crate::ground::Ground;
use crate::nodes::node_of;
use crate::operators::{op_for, unary_for};
use crate::step::{Completion, Step};
use js_data::Memory;
use js_ops::{on_wholes, unary};
use js_program::NodeForm;
use js_tree::Operator;
use js_value::{Op, Unary, Value, copy, truthy};

/// How many nodes deep arithmetic is done at once.
pub(crate) const MOST_DEPTH: u32 = 8;

/// The same for a part of what was tried as a whole before and is not all plain, so that little is looked
/// at in vain: where many texts are joined, for one.
pub(crate) const AGAIN_DEPTH: u32 = 3;

/// Whether an operator has the value of its left side, and skips the right one.
#[inline(always)]
fn skips(operator: Operator, left: &Value) -> bool
    ensures { result ≡ skips operator (plain_value left.now) }
{
    match operator {
        Operator::Or => truthy(left),
        Operator::And => !truthy(left),
        _ => false,
    }
}

/// The value of an operator on two whole numbers; none on any others, or where it is at fault.
#[inline(always)]
fn on_two(op: Op, left: &Value, right: &Value) -> Option<Value>
    ensures { IfSome result (λ x.
        value_of op (plain_value left.now) (plain_value right.now) ≡ Ok (plain_value x)) }
{
    match (left, right) {
        (Value::Whole(m), Value::Whole(n)) => match on_wholes(op, *m, *n) {
            Ok(value) => Some(value),
            Err(_) => None,
        },
        _ => None,
    }
}

/// The value of two by an operator of whole numbers, the same way; where there is no operator, the
/// second.
#[inline(always)]
pub(crate) fn value_by(op: Option<Op>, first: &Value, second: Value) -> Option<Value>
    ensures { IfSome result (λ x.
        value_by op (plain_value first.now) (plain_value second) ≡ Ok (plain_value x)) }
{
    match op {
        None => Some(second),
        Some(op) => on_two(op, first, &second),
    }
}

/// The value of a unary operator; none where it is at fault.
#[inline(always)]
pub(crate) fn on_one(op: Unary, value: &Value) -> Option<Value>
    ensures { IfSome result (λ x. unary_of op (plain_value value.now) ≡ Ok (plain_value x)) }
{
    match unary(op, value) {
        Ok(new) => Some(new),
        Err(_) => None,
    }
}

impl Engine {
    /// The value of a number or of a variable that is declared; none of any other node.
    #[inline(always)]
    pub(crate) fn leaf_value(&self, base: &Ground, number: u32) -> Result<Option<Value>, Memory>
        requires { IsNode base.now.program number }
        ensures { IfOk result (λ found. option_map plain_value found ≡ leaf_of
            (plain_ground base.now) (place_of self.now) (slice_get base.now.program.nodes number)) }
    {
        match &node_of(base, number).form {
            NodeForm::Number(n) => Ok(Some(Value::Whole(*n))),
            NodeForm::Read(variable) => match self.held(base, *variable) {
                None => Ok(None),
                Some(value) => {
                    let copied = copy(value)?;
                    Ok(Some(copied))
                }
            },
            _ => Ok(None),
        }
    }

    /// The value that a plain part comes to from this fuel, and the fuel that is left: of a number, of
    /// a variable that holds one, and of operators of such; none where it is too deep, where the slice
    /// ends within it, or where anything is at fault.
    pub(crate) fn quick_value(
        &self,
        base: &Ground,
        number: u32,
        fuel: u64,
        depth: u32,
    ) -> Option<(Value, u64)>
        requires { IsNode base.now.program number }
        ensures { IfSome result (λ found. Gave (plain_ground base.now)
            (with_fuel (place_of self.now) fuel) number (plain_value found.0)
            (with_fuel (place_of self.now) found.1)) }
    {
        if fuel <= self.floor || depth == 0 {
            return None;
        }
        match &node_of(base, number).form {
            NodeForm::Number(n) => Some((Value::Whole(*n), fuel - 1)),
            NodeForm::Read(variable) => match self.held(base, *variable) {
                Some(Value::Whole(n)) => Some((Value::Whole(*n), fuel - 1)),
                _ => None,
            },
            NodeForm::Unary(sign, part) => {
                let (value, rest) = self.quick_value(base, *part, fuel - 1, depth - 1)?;
                let signed = on_one(unary_for(*sign), &value)?;
                Some((signed, rest))
            }
            NodeForm::Binary(operator, left, right) => {
                let (first, between) = self.quick_value(base, *left, fuel - 1, depth - 1)?;
                if skips(*operator, &first) {
                    return Some((first, between));
                }
                let (second, rest) = self.quick_value(base, *right, between, depth - 1)?;
                let value = value_by(op_for(*operator), &first, second)?;
                Some((value, rest))
            }
            _ => None,
        }
    }

    /// A part begins and gives its value, if it is a number, a variable that is declared or plain
    /// arithmetic of such that is not too deep, and the slice allows all of its nodes.
    #[inline(always)]
    pub(crate) fn begin_leaf(
        &mut self,
        base: &Ground,
        part: u32,
        depth: u32,
    ) -> Result<Option<Value>, Memory>
        requires { IsNode base.now.program part }
        ensures some { IfOk result (λ found. IfSome found (λ value. Gave (plain_ground base.now)
            (place_of self.old) part (plain_value value) (place_of self.new))) }
        ensures none { IfOk result (λ found. IfNone found
            (place_of self.new ≡ place_of self.old)) }
        ensures only { IfOk result (λ found. IfNone found ((self.old.fuel ≤ self.old.floor)
            ⊎ (leaf_of (plain_ground base.now) (place_of self.old)
            (slice_get base.now.program.nodes part) ≡ None))) }
    {
        if self.fuel <= self.floor {
            return Ok(None);
        }
        let found = self.leaf_value(base, part)?;
        match found {
            None => match self.quick_value(base, part, self.fuel, depth) {
                None => Ok(None),
                Some((value, rest)) => {
                    self.fuel = rest;
                    Ok(Some(value))
                }
            },
            Some(value) => {
                self.fuel -= 1;
                Ok(Some(value))
            }
        }
    }

    /// The first part of a node with one or two: the node goes on with its value, or waits for it.
    #[inline(always)]
    pub(crate) fn begin_first(
        &mut self,
        base: &Ground,
        number: u32,
        part: u32,
    ) -> Result<Step, Memory>
        requires number { IsNode base.now.program number }
        requires form { HasForm IsShort base.now.program number }
        requires part { IsNode base.now.program part }
        requires fits { StackFits base.now.program self.old.stack.items }
        ensures { Goes base.now self.old
            (waits_for (here base.now self.old) (Frame.Waiting (Part.First number)) part)
            self.new result }
    {
        let found = self.begin_leaf(base, part, AGAIN_DEPTH)?;
        match found {
            None => self.wait(part, Frame::Waiting(Part::First(number))),
            Some(value) => self.first(base, number, value),
        }
    }

    /// The second part of a node with two, the same way.
    #[inline(always)]
    pub(crate) fn begin_second(
        &mut self,
        base: &Ground,
        number: u32,
        first: Value,
        part: u32,
    ) -> Result<Step, Memory>
        requires number { IsNode base.now.program number }
        requires form { HasForm IsDouble base.now.program number }
        requires part { IsNode base.now.program part }
        requires fits { StackFits base.now.program self.old.stack.items }
        ensures { Goes base.now self.old
            (waits_for (here base.now self.old) (Frame.Waiting (Part.Second number first)) part)
            self.new result }
    {
        let found = self.begin_leaf(base, part, MOST_DEPTH)?;
        match found {
            None => self.wait(part, Frame::Waiting(Part::Second(number, first))),
            Some(value) => self.second(base, number, first, value),
        }
    }

    /// The test of an `if` begins: its value decides at once, or is waited for.
    #[inline(always)]
    pub(crate) fn begin_when(&mut self, base: &Ground, part: u32, body: u32) -> Result<Step, Memory>
        requires part { IsNode base.now.program part }
        requires body { IsNode base.now.program body }
        requires fits { StackFits base.now.program self.old.stack.items }
        ensures { Goes base.now self.old
            (waits_for (here base.now self.old) (Frame.Waiting (Part.When body)) part)
            self.new result }
    {
        let found = self.begin_leaf(base, part, MOST_DEPTH)?;
        match found {
            None => self.wait(part, Frame::Waiting(Part::When(body))),
            Some(value) => Ok(when(body, &value)),
        }
    }

    /// The test of what begins one of two, the same way.
    #[inline(always)]
    pub(crate) fn begin_choice(
        &mut self,
        base: &Ground,
        part: u32,
        yes: u32,
        no: u32,
    ) -> Result<Step, Memory>
        requires part { IsNode base.now.program part }
        requires yes { IsNode base.now.program yes }
        requires no { IsNode base.now.program no }
        requires fits { StackFits base.now.program self.old.stack.items }
        ensures { Goes base.now self.old
            (waits_for (here base.now self.old) (Frame.Waiting (Part.Choice yes no)) part)
            self.new result }
    {
        let found = self.begin_leaf(base, part, MOST_DEPTH)?;
        match found {
            None => self.wait(part, Frame::Waiting(Part::Choice(yes, no))),
            Some(value) => Ok(choose(yes, no, &value)),
        }
    }

    /// The value that is returned, the same way.
    #[inline(always)]
    pub(crate) fn begin_returned(&mut self, base: &Ground, part: u32) -> Result<Step, Memory>
        requires part { IsNode base.now.program part }
        requires fits { StackFits base.now.program self.old.stack.items }
        ensures { Goes base.now self.old
            (waits_for (here base.now self.old) (Frame.Waiting Part.Returned) part)
            self.new result }
    {
        let found = self.begin_leaf(base, part, MOST_DEPTH)?;
        match found {
            None => self.wait(part, Frame::Waiting(Part::Returned)),
            Some(value) => Ok(Step::Give(Completion::Returned(value))),
        }
    }
}
