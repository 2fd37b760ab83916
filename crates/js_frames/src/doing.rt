//! Parts that are done at once, without a frame: assignments and updates of plain values.
ghost use Rattle.std.specs.Prelude.{◌≡◌, ◌<◌, Some, true, false, slice_get};
ghost use Rattle.js_program.specs.Views.{plain_node};
ghost use Rattle.js_frames.specs.Places.{plain_ground, place_of, here};
ghost use Rattle.js_frames.specs.Fits.{StackFits, IsNode, LoopFits};
ghost use Rattle.js_frames.specs.inner.Leads.{Goes, waits_for};
ghost use Rattle.js_frames.specs.inner.Doing.{Did};

use crate::engine::Engine;
use crate::frame::{Frame, Loop, Part};
use crate::ground::Ground;
use crate::leaves::{MOST_DEPTH, on_one, value_by};
use crate::nodes::node_of;
use crate::operators::{op_before, step_for};
use crate::step::{Step, leave};
use js_data::Memory;
use js_program::{Node, NodeForm};
use js_tree::{AssignOp, Fix, Step as Change};

impl Engine {
    /// An assignment of a plain value.
    #[inline(always)]
    fn assign_at_once(
        &mut self,
        base: &Ground,
        number: u32,
        node: &Node,
        operator: AssignOp,
        slot: u32,
        part: u32,
    ) -> bool
        requires node { slice_get base.now.program.nodes number ≡ Some (plain_node node.now) }
        requires form { node.now.form ≡ NodeForm.Assign operator slot part }
        requires part { IsNode base.now.program part }
        requires room { self.old.floor < self.old.fuel }
        ensures done { result ≡ true →
            Did (plain_ground base.now) (place_of self.old) number (place_of self.new) }
        ensures none { result ≡ false → place_of self.new ≡ place_of self.old }
    {
        let Some(held) = self.slots.get(slot) else {
            return false;
        };
        let Some((value, rest)) = self.quick_value(base, part, self.fuel - 1, MOST_DEPTH) else {
            return false;
        };
        let Some(new) = value_by(op_before(operator), held, value) else {
            return false;
        };
        self.slots.set(slot, Some(new));
        self.fuel = rest;
        true
    }

    /// An update.
    #[inline(always)]
    fn update_at_once(
        &mut self,
        base: &Ground,
        number: u32,
        node: &Node,
        step: Change,
        fix: Fix,
        slot: u32,
    ) -> bool
        requires node { slice_get base.now.program.nodes number ≡ Some (plain_node node.now) }
        requires form { node.now.form ≡ NodeForm.Update step fix slot }
        requires room { self.old.floor < self.old.fuel }
        ensures done { result ≡ true →
            Did (plain_ground base.now) (place_of self.old) number (place_of self.new) }
        ensures none { result ≡ false → place_of self.new ≡ place_of self.old }
    {
        let Some(held) = self.slots.get(slot) else {
            return false;
        };
        let Some(new) = on_one(step_for(step), held) else {
            return false;
        };
        self.slots.set(slot, Some(new));
        self.fuel -= 1;
        true
    }

    /// A part begins and is done, if it assigns or updates plain values, the slice allows all of its
    /// nodes, and nothing is at fault; else nothing has happened.
    #[inline(always)]
    pub(crate) fn do_at_once(&mut self, base: &Ground, number: u32) -> bool
        requires { IsNode base.now.program number }
        ensures done { result ≡ true →
            Did (plain_ground base.now) (place_of self.old) number (place_of self.new) }
        ensures none { result ≡ false → place_of self.new ≡ place_of self.old }
    {
        if self.fuel <= self.floor {
            return false;
        }
        let node = node_of(base, number);
        match &node.form {
            NodeForm::Assign(operator, slot, part) => {
                self.assign_at_once(base, number, node, *operator, *slot, *part)
            }
            NodeForm::Update(step, fix, slot) => {
                self.update_at_once(base, number, node, *step, *fix, *slot)
            }
            _ => false,
        }
    }

    /// A statement begins and is done, if it is an expression that is; else nothing has happened.
    #[inline(always)]
    pub(crate) fn state_at_once(&mut self, base: &Ground, number: u32) -> bool
        requires { IsNode base.now.program number }
        ensures done { result ≡ true →
            Did (plain_ground base.now) (place_of self.old) number (place_of self.new) }
        ensures none { result ≡ false → place_of self.new ≡ place_of self.old }
    {
        if self.fuel <= self.floor {
            return false;
        }
        let node = node_of(base, number);
        match &node.form {
            NodeForm::Expression(part) => {
                self.fuel -= 1;
                if self.do_at_once(base, *part) {
                    true
                } else {
                    self.fuel += 1;
                    false
                }
            }
            _ => false,
        }
    }

    /// An expression as a statement: it is done at once, or is waited for.
    #[inline(always)]
    pub(crate) fn begin_dropped(&mut self, base: &Ground, part: u32) -> Result<Step, Memory>
        requires part { IsNode base.now.program part }
        requires fits { StackFits base.now.program self.old.stack.items }
        ensures { Goes base.now self.old
            (waits_for (here base.now self.old) (Frame.Waiting Part.Dropped) part)
            self.new result }
    {
        if self.do_at_once(base, part) {
            Ok(leave())
        } else {
            self.wait(part, Frame::Waiting(Part::Dropped))
        }
    }

    /// What comes between two iterations, the same way; then the test follows.
    #[inline(always)]
    pub(crate) fn begin_between(
        &mut self,
        base: &Ground,
        cycle: Loop,
        part: u32,
    ) -> Result<Step, Memory>
        requires cycle { LoopFits base.now.program cycle }
        requires part { IsNode base.now.program part }
        requires fits { StackFits base.now.program self.old.stack.items }
        ensures { Goes base.now self.old
            (waits_for (here base.now self.old) (Frame.Waiting (Part.Between cycle)) part)
            self.new result }
    {
        if self.do_at_once(base, part) {
            self.test(base, cycle)
        } else {
            self.wait(part, Frame::Waiting(Part::Between(cycle)))
        }
    }
}
