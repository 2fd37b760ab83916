//! What a b-thread states at `bp.sync`.
ghost use Rattle.std.specs.Prelude.{◌≡◌, IfOk};
ghost use Rattle.bp_thread.specs.Views.{plain_statement};

use crate::requests::Requests;
use js_data::{Memory, Whole};
use js_value::EventSet;

/// What a b-thread states at `bp.sync`.
pub struct Statement {
    /// The events that it requests, in order.
    pub request: Requests,
    /// The events that it waits for; none where it states no such set.
    pub wait_for: Option<EventSet>,
    /// The events that it blocks; none where it states no such set.
    pub block: Option<EventSet>,
    /// The events that interrupt it; none where it states no such set.
    pub interrupt: Option<EventSet>,
    /// Its priority.
    pub priority: Whole,
}

impl Drop for Statement {
    fn drop(self) {
        let Statement {
            request: _,
            wait_for: _,
            block: _,
            interrupt: _,
            priority: _,
        } = self;
    }
}

/// The same set, which is shared.
fn copy_set(set: &Option<EventSet>) -> Result<Option<EventSet>, Memory>
    ensures { IfOk result (λ s. s ≡ set.now) }
{
    match set {
        None => Ok(None),
        Some(set) => Ok(Some(set.copy()?)),
    }
}

impl Statement {
    /// An equal statement, which shares the requested events and the sets.
    pub fn copy(&self) -> Result<Statement, Memory>
        ensures { IfOk result (λ s. plain_statement s ≡ plain_statement self.now) }
    {
        Ok(Statement {
            request: self.request.copy()?,
            wait_for: copy_set(&self.wait_for)?,
            block: copy_set(&self.block)?,
            interrupt: copy_set(&self.interrupt)?,
            priority: self.priority,
        })
    }
}
