//! What the names of a program stand for.
ghost use Rattle.std.specs.Prelude.{◌≡◌, ◌++◌, ◌∷◌, [], IfOk, OnOk, map, nat_eq};
ghost use Rattle.indexmap.specs.IndexMap.{get};
ghost use Rattle.js_names.specs.Slots.{constant_at, constants_of, function_at, functions_in};
ghost use Rattle.js_names.specs.Views.{mention_of};
ghost use Rattle.js_names.specs.Held.{held_in};
ghost use Rattle.js_resolver.specs.inner.Tables.{Notes};
ghost use Rattle.js_names.specs.Entries.{top};
ghost use Rattle.js_resolver.specs.Variables.{index_in, second, variable_with, named_there, around_there, name_key, owner_key, known_in, slots_among};

use indexmap::{IndexMap, IndexSet};
use js_names::{Declared, Mention, TOP, What, is_constant, variable_at};
use js_program::Variable;
use std::alloc::{AllocError, Global};

/// Where a number stands in a set. No program has this many that it would pass 32 bits.
pub(crate) fn index_in(set: &IndexSet<u32>, number: u32) -> Result<u32, AllocError>
    ensures { IfOk result (λ n. n ≡ index_in set.now.keys number) }
{
    let index = set.get_index_of(&number).unwrap_or(0);
    if index > u32::MAX as usize {
        return Err(AllocError);
    }
    Ok(index as u32)
}

/// The slot of a variable in a function.
fn slot_in(
    held: &IndexMap<u32, IndexSet<u32>>,
    function: u32,
    variable: u32,
) -> Result<u32, AllocError>
    ensures { IfOk result (λ n. n ≡ index_in (held_in held.now function) variable) }
{
    match held.get(&function) {
        Some(variables) => index_in(variables, variable),
        None => Ok(0),
    }
}

/// A variable as a function names it.
fn variable_with(
    assigned: &IndexSet<u32>,
    constants: &IndexSet<u32>,
    held: &IndexMap<u32, IndexSet<u32>>,
    function: u32,
    declared: Declared,
) -> Result<Variable, AllocError>
    ensures { IfOk result (λ v. v ≡ variable_with assigned.now.keys constants.now.keys
        (held_in held.now function) declared) }
{
    if is_constant(assigned, declared) {
        let number = index_in(constants, declared.offset)?;
        Ok(Variable::Constant(number))
    } else {
        let slot = slot_in(held, function, declared.offset)?;
        Ok(Variable::Slot(slot))
    }
}

/// What the name of a mention stands for.
fn named_there(
    assigned: &IndexSet<u32>,
    constants: &IndexSet<u32>,
    held: &IndexMap<u32, IndexSet<u32>>,
    mention: &Mention,
) -> Result<Option<Variable>, AllocError>
    ensures { IfOk result (λ v. v ≡ named_there assigned.now.keys constants.now.keys
        (λ f. held_in held.now f) (mention_of mention.now)) }
{
    match mention.declared {
        None => Ok(None),
        Some(declared) => {
            let function = mention.around.owner;
            let variable = variable_with(assigned, constants, held, function, declared)?;
            Ok(Some(variable))
        }
    }
}

/// Notes what the name at an offset of the text stands for, unless that is known.
fn note(
    named: &mut IndexMap<u32, Variable>,
    at: u32,
    variable: Option<Variable>,
) -> Result<(), AllocError>
    ensures { OnOk result (Notes named.old named.new at variable) }
{
    if let Some(variable) = variable
        && !named.contains_key(&at)
    {
        named.insert(at, variable)?;
    }
    Ok(())
}

/// What the name at each offset of the text stands for.
pub(crate) fn variables_by_offset(
    alloc: Global,
    assigned: &IndexSet<u32>,
    constants: &IndexSet<u32>,
    held: &IndexMap<u32, IndexSet<u32>>,
    mentions: &[Mention],
) -> Result<IndexMap<u32, Variable>, AllocError>
    ensures { IfOk result (λ m. (q : _) → get nat_eq m q ≡ known_in name_key
        (named_there assigned.now.keys constants.now.keys (λ f. held_in held.now f)) q
        (map mention_of mentions.now)) }
{
    let mut named = IndexMap::new(alloc);
    for mention in mentions {
        let variable = named_there(assigned, constants, held, mention)?;
        note(&mut named, mention.name.spot.at, variable)?;
    }
    Ok(named)
}

/// The constant that a mention declares.
fn constant_at(assigned: &IndexSet<u32>, mention: &Mention) -> Option<u32>
    ensures { result ≡ constant_at assigned.now.keys (mention_of mention.now) }
{
    match variable_at(mention) {
        Some(declared) if is_constant(assigned, declared) => Some(declared.offset),
        _ => None,
    }
}

/// The constants, in the order of their declarations.
pub(crate) fn constants_of(
    alloc: Global,
    assigned: &IndexSet<u32>,
    mentions: &[Mention],
) -> Result<IndexSet<u32>, AllocError>
    ensures { IfOk result (λ s. s.keys
        ≡ constants_of assigned.now.keys (map mention_of mentions.now)) }
{
    let mut constants = IndexSet::new(alloc);
    for mention in mentions {
        if let Some(constant) = constant_at(assigned, mention) {
            constants.insert(constant)?;
        }
    }
    Ok(constants)
}

/// The function that begins at a mention, if one does.
fn function_at(mention: &Mention) -> Option<u32>
    ensures { result ≡ function_at (mention_of mention.now) }
{
    match mention.what {
        What::Begins => {
            if mention.around.owner == TOP {
                None
            } else {
                Some(mention.around.owner)
            }
        }
        _ => None,
    }
}

/// The functions, in the order of their first tokens.
pub(crate) fn functions_in(alloc: Global, mentions: &[Mention]) -> Result<IndexSet<u32>, AllocError>
    ensures { IfOk result (λ s. s.keys ≡ functions_in (map mention_of mentions.now)) }
{
    let mut functions = IndexSet::new(alloc);
    for mention in mentions {
        if let Some(function) = function_at(mention) {
            functions.insert(function)?;
        }
    }
    Ok(functions)
}

/// The function around the one that begins at a mention, if one does.
fn around_there(mention: &Mention) -> Option<u32>
    ensures { result ≡ around_there (mention_of mention.now) }
{
    match mention.what {
        What::Begins => Some(second(mention.functions.as_slice())),
        _ => None,
    }
}

/// The second of some functions, or the top level.
fn second(functions: &[u32]) -> u32
    ensures { result ≡ second top functions.now }
{
    match functions {
        [_, around, ..] => *around,
        _ => TOP,
    }
}

/// Notes the function around a function, unless that is known.
fn note_around(
    around: &mut IndexMap<u32, u32>,
    function: u32,
    owner: Option<u32>,
) -> Result<(), AllocError>
    ensures { OnOk result (Notes around.old around.new function owner) }
{
    if let Some(owner) = owner
        && !around.contains_key(&function)
    {
        around.insert(function, owner)?;
    }
    Ok(())
}

/// The function around each function.
pub(crate) fn functions_around(
    alloc: Global,
    mentions: &[Mention],
) -> Result<IndexMap<u32, u32>, AllocError>
    ensures { IfOk result (λ m. (q : _) → get nat_eq m q
        ≡ known_in owner_key around_there q (map mention_of mentions.now)) }
{
    let mut around = IndexMap::new(alloc);
    for mention in mentions {
        let owner = around_there(mention);
        note_around(&mut around, mention.around.owner, owner)?;
    }
    Ok(around)
}

/// One more slot.
fn push_slot(
    slots: &mut Vec<u32>,
    held: &IndexMap<u32, IndexSet<u32>>,
    function: u32,
    variable: u32,
) -> Result<(), AllocError>
    ensures { OnOk result (slots.new.items ≡ slots.old.items
        ++ index_in (held_in held.now function) variable ∷ []) }
{
    let slot = slot_in(held, function, variable)?;
    slots.push(slot)?;
    Ok(())
}

/// The slots of some variables in a function.
pub(crate) fn slots_among(
    alloc: Global,
    held: &IndexMap<u32, IndexSet<u32>>,
    function: u32,
    variables: &[u32],
) -> Result<Vec<u32>, AllocError>
    ensures { IfOk result (λ v. v.items ≡ slots_among (held_in held.now function) variables.now) }
{
    let mut slots = Vec::new(alloc);
    for variable in variables {
        push_slot(&mut slots, held, function, *variable)?;
    }
    Ok(slots)
}
