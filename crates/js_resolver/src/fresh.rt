//! The slots that are not declared yet as a block begins.
ghost use Rattle.std.specs.Prelude.{◌≡◌, ◌++◌, IfOk, OnOk, false, map};
ghost use Rattle.js_tree.specs.Plain.{declarators_of, stmts_of};
ghost use Rattle.js_tree.specs.Views.{plain_declarator, plain_start, plain_stmt};
ghost use Rattle.js_names.specs.Entries.{own_declarators, own_of, own_of_all, own_of_start};
ghost use Rattle.js_names.specs.Taken.{own_of_declarator};
ghost use Rattle.js_resolver.specs.NodeForms.{fresh};

use crate::name_tables::NameTables;
use js_tree::{Declarator, DeclareKind, Start, Stmt, StmtForm};
use std::alloc::{AllocError, Global};

/// The slot of a declarator of `let` or `const`.
fn push_declarator(
    tables: &NameTables,
    slots: &mut Vec<u32>,
    kind: DeclareKind,
    declarator: &Declarator,
) -> Result<(), AllocError>
    ensures { OnOk result (slots.new.items ≡ slots.old.items
        ++ fresh tables.now (own_of_declarator 0 false kind declarator.now)) }
{
    match kind {
        DeclareKind::Const | DeclareKind::Let => {
            slots.push(tables.slot(declarator.name.spot.at))?;
            Ok(())
        }
        DeclareKind::Var => Ok(()),
    }
}

/// The slots of some declarators.
fn push_declarators(
    tables: &NameTables,
    slots: &mut Vec<u32>,
    kind: DeclareKind,
    declarators: &[Declarator],
) -> Result<(), AllocError>
    ensures { OnOk result (slots.new.items ≡ slots.old.items
        ++ fresh tables.now (own_declarators 0 false kind
        (declarators_of (map plain_declarator declarators.now)))) }
{
    for declarator in declarators {
        push_declarator(tables, slots, kind, declarator)?;
    }
    Ok(())
}

/// The slots of what a statement declares for its block.
fn push_stmt(tables: &NameTables, slots: &mut Vec<u32>, stmt: &Stmt) -> Result<(), AllocError>
    ensures { OnOk result (slots.new.items ≡ slots.old.items
        ++ fresh tables.now (own_of 0 false (plain_stmt stmt.now))) }
{
    match &stmt.form {
        StmtForm::Declaration(kind, declarators) => {
            push_declarators(tables, slots, *kind, declarators)
        }
        _ => Ok(()),
    }
}

/// The slots of the `let` and `const` of a block.
pub(crate) fn block_slots(
    alloc: Global,
    tables: &NameTables,
    body: &[Stmt],
) -> Result<Vec<u32>, AllocError>
    ensures { IfOk result (λ v. v.items ≡ fresh tables.now
        (own_of_all 0 false (stmts_of (map plain_stmt body.now)))) }
{
    let mut slots = Vec::new(alloc);
    for stmt in body {
        push_stmt(tables, &mut slots, stmt)?;
    }
    Ok(slots)
}

/// The slots of the `let` and `const` of the head of a `for`.
pub(crate) fn start_slots(
    alloc: Global,
    tables: &NameTables,
    start: &Start,
) -> Result<Vec<u32>, AllocError>
    ensures { IfOk result (λ v. v.items ≡ fresh tables.now
        (own_of_start 0 (plain_start start.now))) }
{
    let mut slots = Vec::new(alloc);
    push_start(tables, &mut slots, start)?;
    Ok(slots)
}

/// The slots of what the head of a `for` declares.
fn push_start(tables: &NameTables, slots: &mut Vec<u32>, start: &Start) -> Result<(), AllocError>
    ensures { OnOk result (slots.new.items ≡ slots.old.items
        ++ fresh tables.now (own_of_start 0 (plain_start start.now))) }
{
    match start {
        Start::Declares(_, kind, declarators) => {
            push_declarators(tables, slots, *kind, declarators)
        }
        _ => Ok(()),
    }
}
