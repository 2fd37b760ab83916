//! Steps from one begun node to the next.
ghost use Rattle.std.specs.Prelude.{ℕ, IfOk};
ghost use Rattle.js_frames.specs.Places.{plain_ground, place_of};
ghost use Rattle.js_frames.specs.Fits.{StackFits, StepFits};
ghost use Rattle.js_frames.specs.inner.Leads.{Keeps, IsSettled, Advanced};

use crate::engine::Engine;
use crate::ground::Ground;
use crate::step::{Completion, Step};
use js_data::Memory;

impl Engine {
    /// Goes on until a node must begin, or something else must come from outside.
    #[inline(always)]
    fn settle(&mut self, base: &Ground, step: Step) -> Result<Step, Memory>
        requires step { StepFits base.now.program step }
        requires fits { StackFits base.now.program self.old.stack.items }
        ensures keeps { IfOk result (λ last.
            Keeps (plain_ground base.now) (place_of self.old) step (place_of self.new) last) }
        ensures settled { IfOk result (λ last. IsSettled last self.new.stack.items) }
    {
        match step {
            Step::Give(completion) => self.unwind(base, completion),
            other => Ok(other),
        }
    }

    /// The same, in a function of its own: `advance` holds `settle` in its loop alone.
    #[inline(never)]
    fn settle_once(&mut self, base: &Ground, step: Step) -> Result<Step, Memory>
        requires step { StepFits base.now.program step }
        requires fits { StackFits base.now.program self.old.stack.items }
        ensures keeps { IfOk result (λ last.
            Keeps (plain_ground base.now) (place_of self.old) step (place_of self.new) last) }
        ensures settled { IfOk result (λ last. IsSettled last self.new.stack.items) }
    {
        self.settle(base, step)
    }

    /// Gives a completion to the last frame, what comes of it to the one before, and so on.
    #[inline(always)]
    fn unwind(&mut self, base: &Ground, completion: Completion) -> Result<Step, Memory>
        requires fits { StackFits base.now.program self.old.stack.items }
        ensures keeps { IfOk result (λ last. Keeps (plain_ground base.now)
            (place_of self.old) (Step.Give completion) (place_of self.new) last) }
        ensures settled { IfOk result (λ last. IsSettled last self.new.stack.items) }
    {
        let mut current = completion;
        while let Some(frame) = self.stack.pop() {
            match self.give(base, frame, current)? {
                Step::Give(next) => current = next,
                other => return Ok(other),
            }
        }
        Ok(Step::Give(current))
    }

    /// Goes on until this many nodes have begun and another must, or until something else stops it.
    pub(crate) fn advance(&mut self, base: &Ground, step: Step, nodes: u64) -> Result<Step, Memory>
        requires step { StepFits base.now.program step }
        requires fits { StackFits base.now.program self.old.stack.items }
        ensures { IfOk result (λ last. (begun : ℕ) × Advanced (plain_ground base.now)
            (place_of self.old) step (place_of self.new) last nodes begun) }
    {
        self.floor = self.fuel.saturating_sub(nodes);
        let settled = self.settle_once(base, step)?;
        let mut current = match settled {
            Step::Begin(number) => number,
            other => return Ok(other),
        };
        while self.fuel > self.floor {
            self.fuel -= 1;
            let next = self.begin(base, current)?;
            let last = self.settle(base, next)?;
            match last {
                Step::Begin(number) => current = number,
                other => return Ok(other),
            }
        }
        Ok(Step::Begin(current))
    }
}
