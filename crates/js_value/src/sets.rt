//! The set that a value stands for.
ghost use Rattle.std.specs.Prelude.{◌≡◌, IfOk, option_map};
ghost use Rattle.js_value.specs.Views.{plain_value, set_list_of};
ghost use Rattle.js_value.specs.Sets.{set_of, sets_of, called_on as set_called_on};

use crate::value::{EventSet, Items, SetTree, Value};
use js_data::Memory;
use std::alloc::Global;

/// The set of an event, a set itself, or the union of a list of such; `None` exactly where the value is
/// none of these. The set shares the events and sets of the value. A count of owners that is full is
/// answered `Memory` too, and nothing changes.
#[cycle(set_of)]
pub fn set_of_value(alloc: Global, v: &Value) -> Result<Option<EventSet>, Memory>
    ensures { IfOk result (λ o. o ≡ set_of (plain_value v.now)) }
{
    match v {
        Value::Event(event) => Ok(Some(EventSet::new(alloc, SetTree::Only(event.clone()?))?)),
        Value::Set(set) => Ok(Some(set.copy()?)),
        Value::List(items) => match sets_of_values(alloc, items)? {
            None => Ok(None),
            Some(made) => Ok(Some(EventSet::new(alloc, SetTree::Any(made))?)),
        },
        Value::Undefined
        | Value::Null
        | Value::Truth(_)
        | Value::Whole(_)
        | Value::Text(_)
        | Value::Fields(_)
        | Value::Function { .. } => Ok(None),
    }
}

#[cycle(set_of)]
fn sets_of_values(alloc: Global, items: &Items) -> Result<Option<Vec<EventSet>>, Memory>
    ensures { IfOk result (λ o. option_map (λ v. set_list_of v.items) o ≡ sets_of items.now) }
{
    let mut made = Vec::with_capacity(alloc, items.as_slice().len())?;
    for item in items.as_slice() {
        match set_of_value(alloc, item)? {
            None => return Ok(None),
            Some(set) => made.push(set)?,
        }
    }
    Ok(Some(made))
}

/// The set of an event or a set itself, on which the methods of sets are called; `None` exactly where the
/// value is neither. The set shares the event or is one more owner. A count of owners that is full is
/// answered `Memory` too, and nothing changes.
pub fn called_on(alloc: Global, v: &Value) -> Result<Option<EventSet>, Memory>
    ensures { IfOk result (λ o. o ≡ set_called_on (plain_value v.now)) }
{
    match v {
        Value::Event(event) => Ok(Some(EventSet::new(alloc, SetTree::Only(event.clone()?))?)),
        Value::Set(set) => Ok(Some(set.copy()?)),
        _ => Ok(None),
    }
}
