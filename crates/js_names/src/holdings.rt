//! The variables that each function holds in its slots.
ghost use Rattle.std.specs.Prelude.{◌≡◌, ◌∷◌, [], ◌++◌, false, IfOk, IsTrue, OnOk, map, length, nat_eq};
ghost use Rattle.std.specs.List.{flat_map};
ghost use Rattle.indexmap.specs.IndexMap.{get};
ghost use Rattle.js_names.specs.Slots.{hold, holds_all, copies, inside, slots_of, captures, captures_in, parameter_in, variable_in, var_in, vars_of};
ghost use Rattle.js_names.specs.Views.{mention_of};
ghost use Rattle.js_names.specs.Held.{Holds, IsMade, held_in, own_in};

use crate::mention::{Declared, Mention, Role, What};
use crate::rules::{can_copy, is_constant, is_outer, variable_at};
use indexmap::{IndexMap, IndexSet};
use std::alloc::{AllocError, Global};

/// What functions hold of their own, which is all but captures.
#[derive(Clone, Copy)]
enum Own {
    Parameters,
    /// The variables that are not parameters and no constants.
    Variables,
    /// Those of them that are `var`s.
    Vars,
}

/// How many variables a function holds.
pub fn slot_count(held: &IndexMap<u32, IndexSet<u32>>, function: u32) -> usize
    ensures { result ≡ length (held_in held.now function) }
{
    match held.get(&function) {
        Some(variables) => variables.len(),
        None => 0,
    }
}

/// Takes the set of a function out of the map.
fn take_set(alloc: Global, held: &mut IndexMap<u32, IndexSet<u32>>, function: u32) -> IndexSet<u32>
    ensures set { result.keys ≡ held_in held.old function }
    ensures others { (q : _) → nat_eq function q ≡ false → get nat_eq held.new q
        ≡ get nat_eq held.old q }
{
    match held.swap_remove(&function) {
        Some(variables) => variables,
        None => IndexSet::new(alloc),
    }
}

/// One more variable that a function holds, unless it holds it.
fn hold(
    alloc: Global,
    held: &mut IndexMap<u32, IndexSet<u32>>,
    function: u32,
    variable: u32,
) -> Result<(), AllocError>
    ensures { OnOk result (Holds held.old held.new (hold function variable ∷ [])) }
{
    let mut variables = take_set(alloc, held, function);
    variables.insert(variable)?;
    held.insert(function, variables)?;
    Ok(())
}

/// A parameter.
fn hold_parameter(
    alloc: Global,
    held: &mut IndexMap<u32, IndexSet<u32>>,
    mention: &Mention,
) -> Result<(), AllocError>
    ensures { OnOk result (Holds held.old held.new (parameter_in (mention_of mention.now))) }
{
    match mention.what {
        What::Declares(Role::Parameter) => {
            hold(alloc, held, mention.around.owner, mention.name.spot.at)
        }
        _ => Ok(()),
    }
}

/// A variable is copied into each of these functions up to its own.
fn hold_inside(
    alloc: Global,
    held: &mut IndexMap<u32, IndexSet<u32>>,
    functions: &[u32],
    declared: Declared,
) -> Result<(), AllocError>
    ensures { OnOk result (Holds held.old held.new
        (holds_all declared.offset (inside declared.owner functions.now))) }
{
    for function in functions {
        if *function == declared.owner {
            return Ok(());
        }
        hold(alloc, held, *function, declared.offset)?;
    }
    Ok(())
}

/// Whether a mention makes functions copy the variable that it uses.
fn copies(assigned: &IndexSet<u32>, mention: &Mention, declared: Declared) -> bool
    ensures { result ≡ copies assigned.now.keys (mention_of mention.now) declared }
{
    match mention.what {
        What::Reads | What::Assigns => {
            is_outer(assigned, mention, declared)
                && can_copy(assigned, declared, mention.around.owner)
        }
        _ => false,
    }
}

/// The captures that a mention makes.
fn hold_captures(
    alloc: Global,
    held: &mut IndexMap<u32, IndexSet<u32>>,
    assigned: &IndexSet<u32>,
    mention: &Mention,
) -> Result<(), AllocError>
    ensures { OnOk result (Holds held.old held.new
        (captures_in assigned.now.keys (mention_of mention.now))) }
{
    match mention.declared {
        Some(declared) if copies(assigned, mention, declared) => {
            hold_inside(alloc, held, mention.functions.as_slice(), declared)
        }
        _ => Ok(()),
    }
}

/// Whether a mention makes the captures of this variable into these functions.
fn makes(assigned: &IndexSet<u32>, mention: &Mention, declared: Declared, functions: &[u32]) -> bool
    ensures { IsTrue result → captures_in assigned.now.keys (mention_of mention.now)
        ≡ holds_all declared.offset (inside declared.owner functions.now) }
{
    match mention.declared {
        Some(other) => {
            other.offset == declared.offset
                && other.owner == declared.owner
                && copies(assigned, mention, other)
                && mention.functions.as_slice() == functions
        }
        None => false,
    }
}

/// Whether a mention before this one is known that makes the same captures.
fn is_made(
    assigned: &IndexSet<u32>,
    known: &IndexMap<(u32, u32), usize>,
    before: &[Mention],
    mention: &Mention,
) -> bool
    ensures { IsTrue result → IsMade assigned.now.keys before.now (mention_of mention.now) }
{
    if let Some(declared) = mention.declared
        && copies(assigned, mention, declared)
        && let Some(at) = known.get(&(mention.around.owner, declared.offset))
        && let Some(earlier) = before.get(*at)
    {
        return makes(assigned, earlier, declared, mention.functions.as_slice());
    }
    false
}

/// Notes the mention as one that makes captures. How fast later mentions are passed over is all that hangs on it.
fn note_captures(
    known: &mut IndexMap<(u32, u32), usize>,
    assigned: &IndexSet<u32>,
    mention: &Mention,
    at: usize,
) -> Result<(), AllocError> {
    if let Some(declared) = mention.declared
        && copies(assigned, mention, declared)
    {
        known.insert((mention.around.owner, declared.offset), at)?;
    }
    Ok(())
}

/// A variable that is not a parameter and no constant.
fn hold_variable(
    alloc: Global,
    held: &mut IndexMap<u32, IndexSet<u32>>,
    assigned: &IndexSet<u32>,
    mention: &Mention,
) -> Result<(), AllocError>
    ensures { OnOk result (Holds held.old held.new
        (variable_in assigned.now.keys (mention_of mention.now))) }
{
    match variable_at(mention) {
        Some(declared) if !is_constant(assigned, declared) => {
            hold(alloc, held, declared.owner, declared.offset)
        }
        _ => Ok(()),
    }
}

/// A `var` that is not a parameter and no constant.
fn hold_var(
    alloc: Global,
    held: &mut IndexMap<u32, IndexSet<u32>>,
    assigned: &IndexSet<u32>,
    mention: &Mention,
) -> Result<(), AllocError>
    ensures { OnOk result (Holds held.old held.new
        (var_in assigned.now.keys (mention_of mention.now))) }
{
    match variable_at(mention) {
        Some(declared) if declared.role == Role::Var && !is_constant(assigned, declared) => {
            hold(alloc, held, declared.owner, declared.offset)
        }
        _ => Ok(()),
    }
}

/// One more variable that a function holds of its own, where this mention declares one.
fn hold_own(
    alloc: Global,
    held: &mut IndexMap<u32, IndexSet<u32>>,
    assigned: &IndexSet<u32>,
    own: Own,
    mention: &Mention,
) -> Result<(), AllocError>
    ensures { OnOk result (Holds held.old held.new
        (own_in own assigned.now.keys (mention_of mention.now))) }
{
    match own {
        Own::Parameters => hold_parameter(alloc, held, mention),
        Own::Variables => hold_variable(alloc, held, assigned, mention),
        Own::Vars => hold_var(alloc, held, assigned, mention),
    }
}

/// What all functions hold of their own.
fn hold_each_own(
    alloc: Global,
    held: &mut IndexMap<u32, IndexSet<u32>>,
    assigned: &IndexSet<u32>,
    own: Own,
    mentions: &[Mention],
) -> Result<(), AllocError>
    ensures { OnOk result (Holds held.old held.new
        (flat_map (λ p. own_in own assigned.now.keys (mention_of p)) mentions.now)) }
{
    for mention in mentions {
        hold_own(alloc, held, assigned, own, mention)?;
    }
    Ok(())
}

/// The captures of all functions. Those that a mention before made are not held once more: a function that uses a
/// variable a thousand times, far inside that of the variable, walks over the functions between them once.
fn hold_all_captures(
    alloc: Global,
    held: &mut IndexMap<u32, IndexSet<u32>>,
    assigned: &IndexSet<u32>,
    mentions: &[Mention],
) -> Result<(), AllocError>
    ensures { OnOk result (Holds held.old held.new
        (flat_map (λ p. captures_in assigned.now.keys (mention_of p)) mentions.now)) }
{
    let mut known = IndexMap::new(alloc);
    for (at, mention) in mentions.iter().enumerate() {
        if !is_made(assigned, &known, &mentions[..at], mention) {
            hold_captures(alloc, held, assigned, mention)?;
            note_captures(&mut known, assigned, mention, at)?;
        }
    }
    Ok(())
}

/// All that the functions hold, in the order of their slots.
fn hold_all(
    alloc: Global,
    held: &mut IndexMap<u32, IndexSet<u32>>,
    assigned: &IndexSet<u32>,
    mentions: &[Mention],
) -> Result<(), AllocError>
    ensures { OnOk result (Holds held.old held.new
        (flat_map (λ p. parameter_in (mention_of p)) mentions.now
        ++ (flat_map (λ p. captures_in assigned.now.keys (mention_of p)) mentions.now ++ flat_map
        (λ p. variable_in assigned.now.keys (mention_of p)) mentions.now))) }
{
    hold_each_own(alloc, held, assigned, Own::Parameters, mentions)?;
    hold_all_captures(alloc, held, assigned, mentions)?;
    hold_each_own(alloc, held, assigned, Own::Variables, mentions)?;
    Ok(())
}

/// The variables of each function and of the top level, in the order of their slots.
pub(crate) fn slots(
    alloc: Global,
    assigned: &IndexSet<u32>,
    mentions: &[Mention],
) -> Result<IndexMap<u32, IndexSet<u32>>, AllocError>
    ensures { IfOk result (λ m. (f : _) → held_in m f ≡ slots_of assigned.now.keys f
        (map mention_of mentions.now)) }
{
    let mut held = IndexMap::new(alloc);
    hold_all(alloc, &mut held, assigned, mentions)?;
    Ok(held)
}

/// The captures of each function, in the order of their first uses.
pub fn captured(
    alloc: Global,
    assigned: &IndexSet<u32>,
    mentions: &[Mention],
) -> Result<IndexMap<u32, IndexSet<u32>>, AllocError>
    ensures { IfOk result (λ m. (f : _) → held_in m f ≡ captures assigned.now.keys f
        (map mention_of mentions.now)) }
{
    let mut held = IndexMap::new(alloc);
    hold_all_captures(alloc, &mut held, assigned, mentions)?;
    Ok(held)
}

/// The `var`s of each function that are not constants, in the order of their first declarations.
pub fn vars(
    alloc: Global,
    assigned: &IndexSet<u32>,
    mentions: &[Mention],
) -> Result<IndexMap<u32, IndexSet<u32>>, AllocError>
    ensures { IfOk result (λ m. (f : _) → held_in m f ≡ vars_of assigned.now.keys f
        (map mention_of mentions.now)) }
{
    let mut held = IndexMap::new(alloc);
    hold_each_own(alloc, &mut held, assigned, Own::Vars, mentions)?;
    Ok(held)
}
