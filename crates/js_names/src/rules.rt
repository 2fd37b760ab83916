//! The rules of names, each a test of a mention.
ghost use Rattle.std.specs.Prelude.{◌≡◌, IfOk, map, length};
ghost use Rattle.js_names.specs.Slots.{assigned_in, assigned_at, is_constant, can_copy, is_outer, variable_at};
ghost use Rattle.js_names.specs.Rules.{fails_unknown, fails_const, fails_capture, fails_loop_word, fails_return, fails_slots};
ghost use Rattle.js_names.specs.Views.{mention_of};
ghost use Rattle.js_names.specs.Held.{held_in};

use crate::holdings::slot_count;
use crate::limits::MOST_SLOTS;
use crate::mention::{Declared, Mention, Role, What};
use crate::scope::TOP;
use indexmap::{IndexMap, IndexSet};
use std::alloc::{AllocError, Global};

/// A name that nothing declares, or a use of `bp` or `Math` that is not a form.
pub(crate) fn fails_unknown(mention: &Mention) -> bool
    ensures { result ≡ fails_unknown (mention_of mention.now) }
{
    match mention.what {
        What::Misuses => true,
        What::Reads | What::Assigns => mention.declared.is_none(),
        What::Declares(_) | What::LoopWord | What::Returns | What::Begins => false,
    }
}

/// An assignment to or an update of a `const` or a function declaration.
pub(crate) fn fails_const(mention: &Mention) -> bool
    ensures { result ≡ fails_const (mention_of mention.now) }
{
    if let What::Assigns = mention.what
        && let Some(declared) = mention.declared
    {
        return declared.role == Role::Const || declared.role == Role::Function;
    }
    false
}

/// Whether a declaration is a constant.
pub fn is_constant(assigned: &IndexSet<u32>, declared: Declared) -> bool
    ensures { result ≡ is_constant assigned.now.keys declared }
{
    declared.role == Role::Function
        || declared.owner == TOP && declared.direct && !assigned.contains(&declared.offset)
}

/// Whether a variable's value can be copied into a function that begins at the offset.
pub(crate) fn can_copy(assigned: &IndexSet<u32>, declared: Declared, begins: u32) -> bool
    ensures { result ≡ can_copy assigned.now.keys declared begins }
{
    (declared.role != Role::Var || declared.direct)
        && !assigned.contains(&declared.offset)
        && declared.end <= begins
}

/// Whether a variable belongs to an outer function or to the top level, and is not a constant.
pub(crate) fn is_outer(assigned: &IndexSet<u32>, mention: &Mention, declared: Declared) -> bool
    ensures { result ≡ is_outer assigned.now.keys (mention_of mention.now) declared }
{
    declared.owner != mention.around.owner && !is_constant(assigned, declared)
}

/// The variable that a mention declares: a `var` may name a parameter, and then it declares none.
pub fn variable_at(mention: &Mention) -> Option<Declared>
    ensures { result ≡ variable_at mention.now.what mention.now.declared }
{
    if let What::Declares(_) = mention.what
        && let Some(declared) = mention.declared
        && declared.role != Role::Parameter
    {
        return Some(declared);
    }
    None
}

/// A variable of an outer function or of the top level, no constant, whose value can't be copied as the
/// inner function begins.
pub(crate) fn fails_capture(assigned: &IndexSet<u32>, mention: &Mention) -> bool
    ensures { result ≡ fails_capture assigned.now.keys (mention_of mention.now) }
{
    match mention.what {
        What::Reads | What::Assigns => match mention.declared {
            None => false,
            Some(declared) => {
                is_outer(assigned, mention, declared)
                    && !can_copy(assigned, declared, mention.around.owner)
            }
        },
        What::Misuses | What::Declares(_) | What::LoopWord | What::Returns | What::Begins => false,
    }
}

/// `break` or `continue` outside a loop of its function.
pub(crate) fn fails_loop_word(mention: &Mention) -> bool
    ensures { result ≡ fails_loop_word (mention_of mention.now) }
{
    match mention.what {
        What::LoopWord => !mention.around.looped,
        _ => false,
    }
}

/// `return` at the top level.
pub(crate) fn fails_return(mention: &Mention) -> bool
    ensures { result ≡ fails_return (mention_of mention.now) }
{
    match mention.what {
        What::Returns => mention.around.owner == TOP,
        _ => false,
    }
}

/// More slots than a function may have.
pub(crate) fn fails_slots(held: &IndexMap<u32, IndexSet<u32>>, mention: &Mention) -> bool
    ensures { result ≡ fails_slots (λ f. length (held_in held.now f)) (mention_of mention.now) }
{
    match mention.what {
        What::Begins => slot_count(held, mention.around.owner) > MOST_SLOTS,
        _ => false,
    }
}

/// The variable that a mention assigns or updates.
fn assigned_at(mention: &Mention) -> Option<u32>
    ensures { result ≡ assigned_at (mention_of mention.now) }
{
    match mention.what {
        What::Assigns => mention.declared.map(|declared| declared.offset),
        _ => None,
    }
}

/// The variables that some mention assigns or updates, by the offsets of their declared names.
#[tactic(auto, unfolding(crate::specs::Slots::assigned_in))]
pub(crate) fn assigned_in(alloc: Global, mentions: &[Mention]) -> Result<IndexSet<u32>, AllocError>
    ensures { IfOk result (λ s. s.keys ≡ assigned_in (map mention_of mentions.now)) }
{
    let mut assigned = IndexSet::new(alloc);
    for mention in mentions {
        if let Some(variable) = assigned_at(mention) {
            assigned.insert(variable)?;
        }
    }
    Ok(assigned)
}
