//! What a frame does once what it waits for completes.
ghost use Rattle.js_value.specs.Views.{plain_value};
ghost use Rattle.js_meaning.specs.State.{went};
ghost use Rattle.js_frames.specs.Places.{here};
ghost use Rattle.js_frames.specs.Frames.{plain_completion, rest, resume};
ghost use Rattle.js_frames.specs.Fits.{StackFits, PartFits, FrameFits};
ghost use Rattle.js_frames.specs.inner.Leads.{Goes};

use crate::branches::{and, choose, or, when};
use crate::engine::Engine;
use crate::frame::{Frame, Part};
use crate::ground::Ground;
use crate::step::{Completion, Step, leave};
use js_data::Memory;
use js_value::Value;

impl Engine {
    /// What a frame does once what it waits for completes.
    #[inline(always)]
    pub(crate) fn give(
        &mut self,
        base: &Ground,
        frame: Frame,
        completion: Completion,
    ) -> Result<Step, Memory>
        requires frame { FrameFits base.now.program frame }
        requires fits { StackFits base.now.program self.old.stack.items }
        ensures { Goes base.now self.old
            (λ s. resume (here base.now self.old) frame (went (plain_completion completion) s))
            self.new result }
    {
        match frame {
            Frame::Waiting(part) => match completion {
                Completion::Normal(value) => self.give_value(base, part, value),
                other => Ok(Step::Give(other)),
            },
            Frame::Iterating(iteration) => {
                let step = self.give_iteration(base, iteration, completion)?;
                Ok(step)
            }
            Frame::Called(slots, calls) => Ok(self.return_to(slots, calls, completion)),
        }
    }

    /// What a node does that has the value of its part: the parts that loops are made of stand here.
    #[inline(always)]
    fn give_value(&mut self, base: &Ground, part: Part, value: Value) -> Result<Step, Memory>
        requires part { PartFits base.now.program part }
        requires fits { StackFits base.now.program self.old.stack.items }
        ensures { Goes base.now self.old
            (rest (here base.now self.old) part (plain_value value))
            self.new result }
    {
        match part {
            Part::First(number) => self.first(base, number, value),
            Part::Second(number, first) => self.second(base, number, first, value),
            Part::Assigned(slot, line) => self.assigned(base, slot, line, value),
            Part::Dropped => Ok(leave()),
            Part::Statements(sequence, place) => self.go_on(base, sequence, place),
            Part::Tested(cycle) => self.tested(base, cycle, value),
            Part::Between(cycle) => self.test(base, cycle),
            other => {
                let step = self.give_any(base, other, value)?;
                Ok(step)
            }
        }
    }

    /// What any node does that has the value of its part.
    #[inline(never)]
    fn give_any(&mut self, base: &Ground, part: Part, value: Value) -> Result<Step, Memory>
        requires part { PartFits base.now.program part }
        requires fits { StackFits base.now.program self.old.stack.items }
        ensures { Goes base.now self.old
            (rest (here base.now self.old) part (plain_value value))
            self.new result }
    {
        match part {
            Part::First(number) => self.first(base, number, value),
            Part::Second(number, first) => self.second(base, number, first, value),
            Part::Further(number, done) => self.further(base, number, done, value),
            Part::Or(right) => Ok(or(right, value)),
            Part::And(right) => Ok(and(right, value)),
            Part::Choice(yes, no) => Ok(choose(yes, no, &value)),
            Part::When(body) => Ok(when(body, &value)),
            Part::Assigned(slot, line) => self.assigned(base, slot, line, value),
            Part::AssignedWith(op, old, slot, line) => {
                self.assigned_with(base, op, old, slot, line, value)
            }
            Part::Declared(number, variable, place) => {
                self.declared(base, number, variable, place, value)
            }
            Part::Dropped => Ok(leave()),
            Part::Returned => Ok(Step::Give(Completion::Returned(value))),
            Part::Statements(sequence, place) => self.go_on(base, sequence, place),
            Part::Started(cycle) => self.test(base, cycle),
            Part::Tested(cycle) => self.tested(base, cycle, value),
            Part::Between(cycle) => self.test(base, cycle),
            Part::Listed(slot, body, line) => self.listed(base, slot, body, line, value),
            Part::Walked(walk) => self.walk(base, walk),
        }
    }
}
