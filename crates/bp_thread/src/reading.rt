//! A statement, read from the two values that `bp.sync` is given.
ghost use Rattle.std.specs.Prelude.{◌≡◌, unwrap_or, option_map};
ghost use Rattle.js_value.specs.Value.{undefined};
ghost use Rattle.js_value.specs.Views.{plain_value};
ghost use Rattle.bp_meaning.specs.Statements.{statement_of as statement_that_is, requested as requested_by, set_stated as set_that_is, priority_stated as priority_that_is, events_in};
ghost use Rattle.bp_thread.specs.Views.{plain_statement, stated_set, Reads};

use crate::events::Events;
use crate::parts::parts_of;
use crate::requests::Requests;
use crate::statement::Statement;
use js_data::{Memory, Whole};
use js_value::{EventSet, Items, Value, set_of_value};
use std::alloc::Global;
use thiserror::Error;

/// Why two values give no statement.
#[derive(Debug, Clone, Copy, Error)]
pub enum StatementFault {
    /// The values are no statement and its priority.
    #[error("the values are no statement")]
    Shape,
    /// Memory ran out.
    #[error("out of memory")]
    Memory,
}

impl From<Memory> for StatementFault {
    ghost use Rattle.std.specs.Prelude.{◌≡◌};
    ghost use Rattle.bp_thread.specs.declared.reading.StatementFault.TheVariants as fault;

    ghost from_gives = { λ _ f. f ≡ fault.Memory };

    fn from(_error: Memory) -> StatementFault {
        StatementFault::Memory
    }
}

/// The events of a list of events.
fn events_of(alloc: Global, items: &Items) -> Result<Events, StatementFault>
    ensures { Reads (λ es. es) (events_in items.now) result }
{
    let mut events = Events::new(alloc);
    for item in items.as_slice() {
        match item {
            Value::Event(event) => events.push(event.copy()?)?,
            _ => return Err(StatementFault::Shape),
        }
    }
    Ok(events)
}

/// What is requested: an event or a list of events; undefined is the empty list.
fn requested(alloc: Global, stated: Option<&Value>) -> Result<Requests, StatementFault>
    ensures { Reads (λ es. es) (requested_by
        (unwrap_or (option_map (λ v. plain_value v.now) stated.entry) undefined)) result }
{
    match stated {
        None | Some(Value::Undefined) => Ok(Requests::none()),
        Some(Value::Event(event)) => {
            let mut events = Events::new(alloc);
            events.push(event.copy()?)?;
            Ok(Requests::new(alloc, events)?)
        }
        Some(Value::List(items)) => Ok(Requests::new(alloc, events_of(alloc, items)?)?),
        Some(_) => Err(StatementFault::Shape),
    }
}

/// An event, a set, or a list of such, nested or not; undefined is the empty list.
fn set_stated(alloc: Global, stated: Option<&Value>) -> Result<Option<EventSet>, StatementFault>
    ensures { Reads stated_set (set_that_is
        (unwrap_or (option_map (λ v. plain_value v.now) stated.entry) undefined)) result }
{
    match stated {
        None | Some(Value::Undefined) => Ok(None),
        Some(value) => match set_of_value(alloc, value)? {
            Some(set) => Ok(Some(set)),
            None => Err(StatementFault::Shape),
        },
    }
}

/// A whole number, and 0 for undefined.
fn priority_stated(value: &Value) -> Result<Whole, StatementFault>
    ensures { Reads (λ n. n) (priority_that_is (plain_value value.now)) result }
{
    match value {
        Value::Undefined => Whole::new(0).ok_or(StatementFault::Shape),
        Value::Whole(number) => Ok(*number),
        _ => Err(StatementFault::Shape),
    }
}

/// The statement that the two values are.
///
/// # Errors
///
/// `Shape` exactly where the values are no statement and its priority; and `Memory`.
pub fn statement_of(
    alloc: Global,
    asked: &Value,
    priority: &Value,
) -> Result<Statement, StatementFault>
    ensures { Reads plain_statement
        (statement_that_is (plain_value asked.now) (plain_value priority.now)) result }
{
    let Value::Fields(fields) = asked else {
        return Err(StatementFault::Shape);
    };
    let Some(parts) = parts_of(fields) else {
        return Err(StatementFault::Shape);
    };
    Ok(Statement {
        request: requested(alloc, parts.request)?,
        wait_for: set_stated(alloc, parts.wait_for)?,
        block: set_stated(alloc, parts.block)?,
        interrupt: set_stated(alloc, parts.interrupt)?,
        priority: priority_stated(priority)?,
    })
}
