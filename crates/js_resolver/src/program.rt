//! From a tree to its program.
ghost use Rattle.std.specs.Prelude.{◌≡◌, ◌≢◌, Some, IfOk, IfErr, OnOk, map};
ghost use Rattle.js_tree.specs.Views.{plain_item, plain_tree};
ghost use Rattle.js_program.specs.PlainProgram.{statements};
ghost use Rattle.js_program.specs.Sound.{IsSound};
ghost use Rattle.js_program.specs.Views.{plain_body};
ghost use Rattle.js_names.specs.Entries.{top};
ghost use Rattle.js_names.specs.Rules.{name_fault};
ghost use Rattle.js_names.specs.Slots.{assigned_in, slots_of};
ghost use Rattle.js_names.specs.Views.{mention_of};
ghost use Rattle.js_names.specs.Held.{held_in};
ghost use Rattle.js_resolver.specs.inner.Emits.{Adds, count};
ghost use Rattle.js_resolver.specs.Nodes.{items_piece};
ghost use Rattle.js_resolver.specs.inner.Parts.{plain_parts};
ghost use Rattle.js_resolver.specs.Resolved.{program_from, resolved};
ghost use Rattle.js_resolver.specs.Spelled.{IsSpelled};
ghost use Rattle.js_resolver.specs.Variables.{first_line, body_of};

use crate::constants::constant_starts;
use crate::emit::emit_items;
use crate::emitter::Emitter;
use crate::name_tables::NameTables;
use js_names::{NameFault, Names, TOP, check_names};
use js_program::{Body, ConstantStart, Content, Node, Program};
use js_tree::{Item, Tree};
use std::alloc::{AllocError, Global};

/// The parts of a resolved program.
#[derive(Drop)]
struct Parts {
    nodes: Vec<Node>,
    functions: Vec<Body>,
    constants: Vec<ConstantStart>,
    top: Body,
}

/// The nodes and functions of these items, and what the top level runs.
fn emit_top(tables: &NameTables, emitter: &mut Emitter, items: &[Item]) -> Result<Body, AllocError>
    ensures emitted { OnOk result (Adds emitter.old emitter.new
        (items_piece tables.now (count emitter.old) (map plain_item items.now))) }
    ensures body { IfOk result (λ b. plain_body b ≡ body_of tables.now top 0
        (statements (items_piece tables.now (count emitter.old) (map plain_item items.now)).parts)
        (first_line tables.now)) }
{
    let numbers = emit_items(tables, emitter, items)?;
    let alloc = emitter.alloc;
    let top = tables.body(alloc, TOP, 0, Content::Statements(numbers), tables.line())?;
    Ok(top)
}

/// The parts of the program that these items are, from the tables of its names.
fn parts_of(alloc: Global, tables: &NameTables, items: &[Item]) -> Result<Parts, AllocError>
    ensures { IfOk result (λ p. plain_parts p ≡ program_from (map plain_item items.now) tables.now) }
{
    let constants = constant_starts(alloc, tables, items)?;
    let mut emitter = Emitter {
        alloc,
        nodes: Vec::new(alloc),
        functions: Vec::new(alloc),
    };
    let top = emit_top(tables, &mut emitter, items)?;
    let Emitter {
        nodes,
        functions,
        ..
    } = emitter;
    Ok(Parts {
        nodes,
        functions,
        constants,
        top,
    })
}

/// The program of these parts.
fn program_of(parts: Parts) -> Program
    requires { IsSound (plain_parts parts) }
    ensures { result ≡ plain_parts parts }
{
    Program::new(parts.nodes, parts.functions, parts.constants, parts.top)
}

/// The program of these items, from what the check of names answers of their mentions.
fn program_of_names(alloc: Global, names: Names, items: &[Item]) -> Result<Program, AllocError>
    requires assigned { names.assigned.keys ≡ assigned_in (map mention_of names.mentions.items) }
    requires slots { (f : _) → held_in names.slots f
        ≡ slots_of (assigned_in (map mention_of names.mentions.items)) f
        (map mention_of names.mentions.items) }
    requires sound { IsSound (program_from (map plain_item items.now)
        (map mention_of names.mentions.items)) }
    ensures { IfOk result (λ p. p ≡ program_from (map plain_item items.now)
        (map mention_of names.mentions.items)) }
{
    let tables = NameTables::new(alloc, names)?;
    let parts = parts_of(alloc, &tables, items)?;
    Ok(program_of(parts))
}

/// The program of a tree that tokens spell, exactly where no mention breaks a rule of names. Else the fault of the
/// first mention that breaks one. Takes memory for the mentions, their tables and the program.
///
/// # Errors
///
/// The fault of a name; or `Memory`, when out of memory.
pub fn resolve(alloc: Global, tree: &Tree) -> Result<Program, NameFault>
    requires spelled { IsSpelled (plain_tree tree.now) }
    ensures resolved { IfOk result (λ p. resolved (plain_tree tree.now) ≡ Some p) }
    ensures refused { IfErr result (λ f. f ≢ NameFault.Memory → name_fault (plain_tree tree.now)
        ≡ Some f) }
{
    let names = check_names(alloc, tree)?;
    let program = program_of_names(alloc, names, &tree.items)?;
    Ok(program)
}
