//! What the constants of a program are before it runs.
ghost use Rattle.std.specs.Prelude.{◌≡◌, IfOk, OnOk, Some, None, map, nat_eq, unwrap_or, if◌then◌else◌};
ghost use Rattle.js_tree.specs.Views.{plain_item};
ghost use Rattle.js_program.specs.PlainProgram.{undeclared, unset};
ghost use Rattle.js_program.specs.Views.{plain_constant};
ghost use Rattle.js_names.specs.Mentions.{is_var};
ghost use Rattle.js_names.specs.Slots.{assigned_in, constants_of};
ghost use Rattle.js_names.specs.Views.{mention_of};
ghost use Rattle.js_resolver.specs.Resolved.{constant_of, constant_there, function_named};
ghost use Rattle.js_resolver.specs.inner.Starts.{NotesStart, first_of, start_in};

use crate::name_tables::NameTables;
use indexmap::IndexMap;
use js_names::{Mention, Role};
use js_program::ConstantStart;
use js_tree::Item;
use std::alloc::{AllocError, Global};

/// Notes what a constant is, unless that is known.
fn note_start(
    starts: &mut IndexMap<u32, ConstantStart>,
    constant: u32,
    start: ConstantStart,
) -> Result<(), AllocError>
    ensures { OnOk result (NotesStart starts.old starts.new
        (λ q. if nat_eq constant q then Some (plain_constant start) else None)) }
{
    if !starts.contains_key(&constant) {
        starts.insert(constant, start)?;
    }
    Ok(())
}

/// What a variable is before it is declared.
fn before(role: Role) -> ConstantStart
    ensures { plain_constant result ≡ (if is_var role then unset else undeclared) }
{
    match role {
        Role::Var => ConstantStart::Unset,
        _ => ConstantStart::Undeclared,
    }
}

/// Notes what a mention says of the variable that it names.
fn note_mention(
    starts: &mut IndexMap<u32, ConstantStart>,
    mention: &Mention,
) -> Result<(), AllocError>
    ensures { OnOk result (NotesStart starts.old starts.new
        (λ q. constant_there q (mention_of mention.now).declared)) }
{
    match mention.declared {
        Some(declared) => note_start(starts, declared.offset, before(declared.role)),
        None => Ok(()),
    }
}

/// Notes what all mentions say.
fn note_mentions(
    starts: &mut IndexMap<u32, ConstantStart>,
    mentions: &[Mention],
) -> Result<(), AllocError>
    ensures { OnOk result (NotesStart starts.old starts.new
        (λ q. first_of (map (λ p. constant_there q (mention_of p).declared) mentions.now))) }
{
    for mention in mentions {
        note_mention(starts, mention)?;
    }
    Ok(())
}

/// Notes the function that an item declares.
fn note_item(
    tables: &NameTables,
    starts: &mut IndexMap<u32, ConstantStart>,
    item: &Item,
) -> Result<(), AllocError>
    ensures { OnOk result (NotesStart starts.old starts.new
        (λ q. function_named tables.now q (plain_item item.now))) }
{
    match item {
        Item::Statement(_, _) => Ok(()),
        Item::Function(spot, name, _, _) => {
            let code = tables.code(spot.at)?;
            note_start(starts, name.spot.at, ConstantStart::OfFunction(code))
        }
    }
}

/// Notes the functions that all items declare.
fn note_items(
    tables: &NameTables,
    starts: &mut IndexMap<u32, ConstantStart>,
    items: &[Item],
) -> Result<(), AllocError>
    ensures { OnOk result (NotesStart starts.old starts.new
        (λ q. first_of (map (λ i. function_named tables.now q (plain_item i)) items.now))) }
{
    for item in items {
        note_item(tables, starts, item)?;
    }
    Ok(())
}

/// What is known of a constant.
fn start_of(starts: &IndexMap<u32, ConstantStart>, constant: u32) -> ConstantStart
    ensures { plain_constant result ≡ unwrap_or (start_in starts.now constant) undeclared }
{
    match starts.get(&constant) {
        Some(start) => *start,
        None => ConstantStart::Undeclared,
    }
}

/// What is known of some constants.
fn starts_of(
    alloc: Global,
    starts: &IndexMap<u32, ConstantStart>,
    constants: &[u32],
) -> Result<Vec<ConstantStart>, AllocError>
    ensures { IfOk result (λ v. map plain_constant v.items
        ≡ map (λ q. unwrap_or (start_in starts.now q) undeclared) constants.now) }
{
    let mut found = Vec::new(alloc);
    for constant in constants {
        found.push(start_of(starts, *constant))?;
    }
    Ok(found)
}

/// What each constant is before the program runs, in the order of their declarations.
pub(crate) fn constant_starts(
    alloc: Global,
    tables: &NameTables,
    items: &[Item],
) -> Result<Vec<ConstantStart>, AllocError>
    ensures { IfOk result (λ v. map plain_constant v.items
        ≡ map (constant_of (map plain_item items.now) tables.now)
        (constants_of (assigned_in tables.now) tables.now)) }
{
    let mut starts = IndexMap::new(alloc);
    note_items(tables, &mut starts, items)?;
    note_mentions(&mut starts, tables.mentions())?;
    starts_of(alloc, &starts, tables.constants())
}
