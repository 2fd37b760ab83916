//! The weight and nesting of values, and of the parts of lists, fields and sets.
//!
//! The weights of parts also say that what the parts keep of the order of keys holds of them together.
ghost use Rattle.std.specs.Prelude.{◌≡◌};
ghost use Rattle.js_data.specs.Capped.{capped};
ghost use Rattle.js_value.specs.Value.{value_weight, value_list_weight, value_fields_weight, set_weight, set_list_weight, value_nesting, value_list_nesting, value_fields_nesting, set_nesting, set_list_nesting, AreSortedValues, AreSortedFields, IsSortedSet, AreSortedSets};
ghost use Rattle.js_value.specs.Kept.{HaveSortedKeys};
ghost use Rattle.js_value.specs.Views.{plain_value, plain_set, value_list_view, value_fields_view, set_list_of};

use crate::value::{EventSet, SetTree, Value};
use js_data::{Text, text_weight};
use std::sync::Arc;

/// The weight of the value, or the greatest u64 where it is more. Reads numbers that are kept, but for the
/// data of an event.
pub fn weight(v: &Value) -> u64
    ensures { result ≡ capped (value_weight (plain_value v.now)) }
{
    match v {
        Value::Undefined | Value::Null | Value::Truth(_) | Value::Whole(_) => 1,
        Value::Text(text) => text_weight(text),
        Value::List(items) => items.weight().saturating_add(1),
        Value::Fields(fields) => fields.weight().saturating_add(1),
        Value::Event(event) => event.weight(),
        Value::Set(set) => set.weight(),
        Value::Function { captured, .. } => captured.weight().saturating_add(1),
    }
}

/// The nesting of the value, or the greatest u64 where it is more. Reads numbers that are kept, but for the
/// data of an event.
pub fn nesting(v: &Value) -> u64
    ensures { result ≡ capped (value_nesting (plain_value v.now)) }
{
    match v {
        Value::Undefined | Value::Null | Value::Truth(_) | Value::Whole(_) | Value::Text(_) => 1,
        Value::List(items) => items.nesting().saturating_add(1),
        Value::Fields(fields) => fields.nesting().saturating_add(1),
        Value::Event(event) => event.nesting(),
        Value::Set(set) => set.nesting(),
        Value::Function { captured, .. } => captured.nesting().saturating_add(1),
    }
}

pub(crate) fn items_weight(items: &[Value]) -> u64
    ensures sorted { AreSortedValues (value_list_view items.now) }
    ensures weight { result ≡ capped (value_list_weight (value_list_view items.now)) }
{
    let mut sum = 0u64;
    for item in items {
        // For the proof: what the value keeps.
        item.keeps();
        sum = sum.saturating_add(weight(item));
    }
    sum
}

pub(crate) fn items_nesting(items: &[Value]) -> u64
    ensures { result ≡ capped (value_list_nesting (value_list_view items.now)) }
{
    let mut most = 0u64;
    for item in items {
        most = most.max(nesting(item));
    }
    most
}

pub(crate) fn fields_weight(fields: &[(Arc<Text>, Value)]) -> u64
    ensures sorted { HaveSortedKeys (value_fields_view fields.now)
        → AreSortedFields (value_fields_view fields.now) }
    ensures weight { result ≡ capped (value_fields_weight (value_fields_view fields.now)) }
{
    let mut sum = 0u64;
    for field in fields {
        // For the proof: what the value keeps.
        field.1.keeps();
        sum = sum.saturating_add(text_weight(&field.0));
        sum = sum.saturating_add(weight(&field.1));
    }
    sum
}

pub(crate) fn fields_nesting(fields: &[(Arc<Text>, Value)]) -> u64
    ensures { result ≡ capped (value_fields_nesting (value_fields_view fields.now)) }
{
    let mut most = 0u64;
    for field in fields {
        most = most.max(nesting(&field.1));
    }
    most
}

fn sets_weight(sets: &[EventSet]) -> u64
    ensures sorted { AreSortedSets (set_list_of sets.now) }
    ensures weight { result ≡ capped (set_list_weight (set_list_of sets.now)) }
{
    let mut sum = 0u64;
    for set in sets {
        // For the proof: what the set keeps.
        set.keeps();
        sum = sum.saturating_add(set.weight());
    }
    sum
}

fn sets_nesting(sets: &[EventSet]) -> u64
    ensures { result ≡ capped (set_list_nesting (set_list_of sets.now)) }
{
    let mut most = 0u64;
    for set in sets {
        most = most.max(set.nesting());
    }
    most
}

pub(crate) fn tree_weight(tree: &SetTree) -> u64
    ensures sorted { IsSortedSet (plain_set tree.now) }
    ensures weight { result ≡ capped (set_weight (plain_set tree.now)) }
{
    match tree {
        SetTree::Only(event) => {
            // For the proof: what the event keeps.
            event.keeps();
            event.weight()
        }
        SetTree::Any(sets) => sets_weight(sets).saturating_add(1),
        SetTree::All | SetTree::Nothing => 1,
        SetTree::Or(a, b) | SetTree::And(a, b) | SetTree::Xor(a, b) => {
            // For the proof: what the set keeps.
            a.keeps();
            b.keeps();
            a.weight().saturating_add(b.weight()).saturating_add(1)
        }
        SetTree::Negate(a) => {
            // For the proof: what the set keeps.
            a.keeps();
            a.weight().saturating_add(1)
        }
        SetTree::Predicate { name, captured, .. } => {
            // For the proof: what the value keeps.
            captured.keeps();
            text_weight(name)
                .saturating_add(captured.weight())
                .saturating_add(1)
        }
    }
}

pub(crate) fn tree_nesting(tree: &SetTree) -> u64
    ensures { result ≡ capped (set_nesting (plain_set tree.now)) }
{
    match tree {
        SetTree::Only(event) => event.nesting(),
        SetTree::Any(sets) => sets_nesting(sets).saturating_add(1),
        SetTree::All | SetTree::Nothing => 1,
        SetTree::Or(a, b) | SetTree::And(a, b) | SetTree::Xor(a, b) => {
            a.nesting().max(b.nesting()).saturating_add(1)
        }
        SetTree::Negate(a) => a.nesting().saturating_add(1),
        SetTree::Predicate { captured, .. } => captured.nesting().max(1).saturating_add(1),
    }
}
