//! The outcome that a pause of a machine is.
ghost use Rattle.std.specs.Prelude.{◌≡◌, IfOk, IsSome, Some, option_map, true};
ghost use Rattle.js_frames.specs.Runs.{asked_by, line_asked};
ghost use Rattle.bp_thread.specs.Kept.{fits_outcome};
ghost use Rattle.bp_thread.specs.Views.{plain_outcome};
ghost use Rattle.bp_thread.specs.Pauses.{outcome_of_pause};

use crate::outcome::Outcome;
use crate::reading::{StatementFault, statement_of};
use js_data::{Fault, Memory};
use js_frames::{Machine, Pause};
use std::alloc::{AllocError, Global};

/// At `bp.sync`: the statement, or the fault of values that are none.
fn outcome_at_sync(alloc: Global, machine: &Machine) -> Result<Outcome, Memory>
    requires { IsSome (asked_by machine.now) }
    ensures { IfOk result (λ o. Some (plain_outcome o)
        ≡ outcome_of_pause Pause.AtSync (asked_by machine.now) (line_asked machine.now)) }
{
    let (statement, priority) = machine.asked();
    let line = machine.line();
    match statement_of(alloc, statement, priority) {
        Ok(statement) => Ok(Outcome::Stopped(statement)),
        Err(StatementFault::Shape) => Ok(Outcome::Broken(Fault::Statement, line)),
        Err(StatementFault::Memory) => Err(AllocError),
    }
}

/// The outcome that a pause of this machine is: none where it can go on.
pub(crate) fn outcome_at(
    alloc: Global,
    machine: &Machine,
    pause: Pause,
) -> Result<Option<Outcome>, Memory>
    requires { pause ≡ Pause.AtSync → IsSome (asked_by machine.now) }
    ensures outcome { IfOk result (λ o. option_map plain_outcome o
        ≡ outcome_of_pause pause (asked_by machine.now) (line_asked machine.now)) }
    ensures fits { IfOk result (λ o. fits_outcome (Some machine.now) o ≡ true) }
{
    match pause {
        Pause::More => Ok(None),
        Pause::AtSync => Ok(Some(outcome_at_sync(alloc, machine)?)),
        Pause::Ended => Ok(Some(Outcome::Ended)),
        Pause::Broken(fault, line) => Ok(Some(Outcome::Broken(fault, line))),
        Pause::Violated(text) => Ok(Some(Outcome::Violated(text))),
        Pause::Spent => Ok(Some(Outcome::Spent)),
    }
}
