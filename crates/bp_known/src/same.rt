//! Whether two sets are made alike.
ghost use Rattle.std.specs.Prelude.{◌≡◌, option_map, true};
ghost use Rattle.js_value.specs.Views.{plain_value, set_list_of, value_list_view};
ghost use Rattle.bp_known.specs.Same.{same_block, same_leaf, same_leaves, same_set, same_sets};

use js_value::{EventSet, SetTree, Value};

/// Whether the two values are equal and have no parts, but for an event's data.
fn same_leaf(left: &Value, right: &Value) -> bool
    ensures { result ≡ same_leaf (plain_value left.now) (plain_value right.now) }
{
    match (left, right) {
        (Value::Undefined, Value::Undefined) => true,
        (Value::Null, Value::Null) => true,
        (Value::Truth(a), Value::Truth(b)) => *a == *b,
        (Value::Whole(a), Value::Whole(b)) => a.get() == b.get(),
        (Value::Text(a), Value::Text(b)) => a.same(b),
        (Value::Event(a), Value::Event(b)) => a.same(b),
        _ => false,
    }
}

/// Whether the values are equal leaves, one after another.
fn same_leaves(left: &[Value], right: &[Value]) -> bool
    ensures { result ≡ same_leaves (value_list_view left.now) (value_list_view right.now) }
{
    if left.len() != right.len() {
        return false;
    }
    for at in 0..left.len() {
        if !same_leaf(&left[at], &right[at]) {
            return false;
        }
    }
    true
}

/// Whether the sets are made alike, one after another.
#[cycle(same)]
fn same_sets(left: &[EventSet], right: &[EventSet]) -> bool
    ensures { result ≡ same_sets (set_list_of left.now) (set_list_of right.now) }
{
    if left.len() != right.len() {
        return false;
    }
    for at in 0..left.len() {
        if !same_set(&left[at], &right[at]) {
            return false;
        }
    }
    true
}

/// Whether the two sets are made alike, of the same events and of predicates of the same function
/// that captured equal leaves.
#[cycle(same)]
fn same_set(left: &EventSet, right: &EventSet) -> bool
    ensures { result ≡ same_set left.now right.now }
{
    match (left.tree(), right.tree()) {
        (SetTree::Only(a), SetTree::Only(b)) => a.same(b),
        (SetTree::Any(a), SetTree::Any(b)) => same_sets(a, b),
        (SetTree::All, SetTree::All) => true,
        (SetTree::Nothing, SetTree::Nothing) => true,
        (SetTree::Or(a, b), SetTree::Or(c, d)) => same_set(a, c) && same_set(b, d),
        (SetTree::And(a, b), SetTree::And(c, d)) => same_set(a, c) && same_set(b, d),
        (SetTree::Xor(a, b), SetTree::Xor(c, d)) => same_set(a, c) && same_set(b, d),
        (SetTree::Negate(a), SetTree::Negate(b)) => same_set(a, b),
        (
            SetTree::Predicate {
                name,
                code,
                captured,
            },
            SetTree::Predicate {
                name: called,
                code: other,
                captured: held,
            },
        ) => {
            *code == *other
                && name.same(called)
                && same_leaves(captured.as_slice(), held.as_slice())
        }
        _ => false,
    }
}

/// Whether neither is there, or both are and are made alike; then they are equal.
pub fn is_same(left: Option<&EventSet>, right: Option<&EventSet>) -> bool
    ensures same { result ≡ same_block (option_map (λ s. s.now) left.entry)
        (option_map (λ s. s.now) right.entry) }
    ensures equal { result ≡ true → option_map (λ s. s.now) left.entry
        ≡ option_map (λ s. s.now) right.entry }
{
    match (left, right) {
        (None, None) => true,
        (Some(a), Some(b)) => same_set(a, b),
        _ => false,
    }
}
