//! The names that statements declare, put into maps.
ghost use Rattle.std.specs.Prelude.{◌≡◌, OnOk, option_copied};
ghost use Rattle.std.specs.List.{flat_map};
ghost use Rattle.std.specs.HashMap.{get_by_text};
ghost use Rattle.js_names.specs.Entries.{given_at, own_of_start, vars_of_start};
ghost use Rattle.js_names.specs.Scopes.{merge};
ghost use Rattle.js_tree.specs.Views.{plain_declarator, plain_start};
ghost use Rattle.js_names.specs.Taken.{TakesOwn, TakesVars, keeps, alone, own_of_declarator, vars_of_declarator, own_of_stmt, vars_of_stmt};

use crate::mention::{Declared, Role};
use crate::scope::TOP;
use indexmap::IndexMap;
use js_tree::{Declarator, DeclareKind, Name, Start, Stmt, StmtForm};
use std::alloc::{AllocError, Global};

/// Declares a name, unless the map has it.
pub(crate) fn declare_own(
    alloc: Global,
    map: &mut IndexMap<String, Declared>,
    name: &Name,
    declared: Declared,
) -> Result<(), AllocError>
    ensures { OnOk result (TakesOwn map.old map.new (alone name.now.text declared)) }
{
    let text = name.text.as_str();
    if !map.contains_key(text) {
        map.insert(String::from_str(alloc, text)?, declared)?;
    }
    Ok(())
}

/// Declares what a declarator of `let` or `const` declares.
fn declare_own_declarator(
    alloc: Global,
    map: &mut IndexMap<String, Declared>,
    owner: u32,
    direct: bool,
    kind: DeclareKind,
    declarator: &Declarator,
) -> Result<(), AllocError>
    ensures { OnOk result (TakesOwn map.old map.new
        (own_of_declarator owner direct kind declarator.now)) }
{
    let role = match kind {
        DeclareKind::Const => Role::Const,
        DeclareKind::Let => Role::Let,
        DeclareKind::Var => return Ok(()),
    };
    let declared = Declared {
        role,
        offset: declarator.name.spot.at,
        end: declarator.end,
        owner,
        direct,
        given: 0,
    };
    declare_own(alloc, map, &declarator.name, declared)
}

/// The same of declarators.
fn declare_own_declarators(
    alloc: Global,
    map: &mut IndexMap<String, Declared>,
    owner: u32,
    direct: bool,
    kind: DeclareKind,
    declarators: &[Declarator],
) -> Result<(), AllocError>
    ensures { OnOk result (TakesOwn map.old map.new
        (flat_map (own_of_declarator owner direct kind) declarators.now)) }
{
    for declarator in declarators {
        declare_own_declarator(alloc, map, owner, direct, kind, declarator)?;
    }
    Ok(())
}

/// Declares the `let` or `const` names of a statement, for the list in which it stands.
pub(crate) fn declare_own_stmt(
    alloc: Global,
    map: &mut IndexMap<String, Declared>,
    owner: u32,
    direct: bool,
    stmt: &Stmt,
) -> Result<(), AllocError>
    ensures { OnOk result (TakesOwn map.old map.new (own_of_stmt owner direct stmt.now)) }
{
    match &stmt.form {
        StmtForm::Declaration(kind, declarators) => {
            declare_own_declarators(alloc, map, owner, direct, *kind, declarators)
        }
        _ => Ok(()),
    }
}

/// The same of a list of statements.
pub(crate) fn declare_own_stmts(
    alloc: Global,
    map: &mut IndexMap<String, Declared>,
    owner: u32,
    direct: bool,
    body: &[Stmt],
) -> Result<(), AllocError>
    ensures { OnOk result (TakesOwn map.old map.new
        (flat_map (own_of_stmt owner direct) body.now)) }
{
    for stmt in body {
        declare_own_stmt(alloc, map, owner, direct, stmt)?;
    }
    Ok(())
}

/// The variable of a `var`: the first one's, where there is one.
fn merged(map: &IndexMap<String, Declared>, text: &str, declared: Declared) -> Declared
    ensures { Some result ≡ merge (get_by_text map.now text.now) (Some declared) }
{
    match map.get(text) {
        Some(first) => Declared {
            direct: false,
            given: first.given.max(declared.given),
            ..*first
        },
        None => declared,
    }
}

/// Whether a scope keeps a `var` of this name: a block keeps those that its own names can clash with.
fn keeps(own: Option<&IndexMap<String, Declared>>, text: &str) -> bool
    ensures { result ≡ keeps (option_copied own.entry) text.now }
{
    match own {
        Some(own) => own.contains_key(text),
        None => true,
    }
}

/// Declares a `var`, which is one variable with earlier ones of its name, unless the own names of a block are
/// given and this is none of them.
fn declare_var(
    alloc: Global,
    map: &mut IndexMap<String, Declared>,
    own: Option<&IndexMap<String, Declared>>,
    name: &Name,
    declared: Declared,
) -> Result<(), AllocError>
    ensures { OnOk result (TakesVars (keeps (option_copied own.entry)) map.old map.new
        (alone name.now.text declared)) }
{
    let text = name.text.as_str();
    if !keeps(own, text) {
        return Ok(());
    }
    let merged = merged(map, text, declared);
    map.insert(String::from_str(alloc, text)?, merged)?;
    Ok(())
}

/// The offset from which on a `var` that names a parameter keeps its value: a nested one may run again.
fn given_at(direct: bool, declarator: &Declarator) -> u32
    ensures { result ≡ given_at direct (plain_declarator declarator.now).value
        (plain_declarator declarator.now).end }
{
    match declarator.value {
        Some(_) => { if direct { declarator.end } else { TOP } }
        None => 0,
    }
}

/// Declares what a declarator of `var` declares.
fn declare_var_declarator(
    alloc: Global,
    map: &mut IndexMap<String, Declared>,
    own: Option<&IndexMap<String, Declared>>,
    owner: u32,
    direct: bool,
    kind: DeclareKind,
    declarator: &Declarator,
) -> Result<(), AllocError>
    ensures { OnOk result (TakesVars (keeps (option_copied own.entry)) map.old map.new
        (vars_of_declarator owner direct kind declarator.now)) }
{
    if kind != DeclareKind::Var {
        return Ok(());
    }
    let declared = Declared {
        role: Role::Var,
        offset: declarator.name.spot.at,
        end: declarator.end,
        owner,
        direct,
        given: given_at(direct, declarator),
    };
    declare_var(alloc, map, own, &declarator.name, declared)
}

/// The same of declarators.
fn declare_var_declarators(
    alloc: Global,
    map: &mut IndexMap<String, Declared>,
    own: Option<&IndexMap<String, Declared>>,
    owner: u32,
    direct: bool,
    kind: DeclareKind,
    declarators: &[Declarator],
) -> Result<(), AllocError>
    ensures { OnOk result (TakesVars (keeps (option_copied own.entry)) map.old map.new
        (flat_map (vars_of_declarator owner direct kind) declarators.now)) }
{
    for declarator in declarators {
        declare_var_declarator(alloc, map, own, owner, direct, kind, declarator)?;
    }
    Ok(())
}

/// Declares the `var` names of the head of a `for`.
pub(crate) fn declare_start_vars(
    alloc: Global,
    map: &mut IndexMap<String, Declared>,
    own: Option<&IndexMap<String, Declared>>,
    owner: u32,
    start: &Start,
) -> Result<(), AllocError>
    ensures { OnOk result (TakesVars (keeps (option_copied own.entry)) map.old map.new
        (vars_of_start owner (plain_start start.now))) }
{
    match start {
        Start::Declares(_, kind, declarators) => {
            declare_var_declarators(alloc, map, own, owner, false, *kind, declarators)
        }
        Start::Nothing | Start::Evaluates(_) => Ok(()),
    }
}

/// Declares the `let` and `const` names of the head of a `for`.
pub(crate) fn declare_start_own(
    alloc: Global,
    map: &mut IndexMap<String, Declared>,
    owner: u32,
    start: &Start,
) -> Result<(), AllocError>
    ensures { OnOk result (TakesOwn map.old map.new (own_of_start owner (plain_start start.now))) }
{
    match start {
        Start::Declares(_, kind, declarators) => {
            declare_own_declarators(alloc, map, owner, false, *kind, declarators)
        }
        Start::Nothing | Start::Evaluates(_) => Ok(()),
    }
}

/// Declares the `var` names in a statement, at any depth outside inner functions.
#[cycle(vars)]
pub(crate) fn declare_stmt_vars(
    alloc: Global,
    map: &mut IndexMap<String, Declared>,
    own: Option<&IndexMap<String, Declared>>,
    owner: u32,
    direct: bool,
    stmt: &Stmt,
) -> Result<(), AllocError>
    ensures { OnOk result (TakesVars (keeps (option_copied own.entry)) map.old map.new
        (vars_of_stmt owner direct stmt.now)) }
{
    match &stmt.form {
        StmtForm::Block(body) => declare_list_vars(alloc, map, own, owner, false, body),
        StmtForm::Declaration(kind, declarators) => {
            declare_var_declarators(alloc, map, own, owner, direct, *kind, declarators)
        }
        StmtForm::If(_, body) => declare_stmt_vars(alloc, map, own, owner, false, body),
        StmtForm::IfElse(_, body, other) => {
            declare_stmt_vars(alloc, map, own, owner, false, body)?;
            declare_stmt_vars(alloc, map, own, owner, false, other)
        }
        StmtForm::While(_, body) => declare_stmt_vars(alloc, map, own, owner, false, body),
        StmtForm::ForThree(start, _, _, body) => {
            declare_start_vars(alloc, map, own, owner, start)?;
            declare_stmt_vars(alloc, map, own, owner, false, body)
        }
        StmtForm::ForOf(_, _, _, body) => declare_stmt_vars(alloc, map, own, owner, false, body),
        _ => Ok(()),
    }
}

/// The same of a list of statements.
#[cycle(vars)]
pub(crate) fn declare_list_vars(
    alloc: Global,
    map: &mut IndexMap<String, Declared>,
    own: Option<&IndexMap<String, Declared>>,
    owner: u32,
    direct: bool,
    body: &[Stmt],
) -> Result<(), AllocError>
    ensures { OnOk result (TakesVars (keeps (option_copied own.entry)) map.old map.new
        (flat_map (vars_of_stmt owner direct) body.now)) }
{
    for stmt in body {
        declare_stmt_vars(alloc, map, own, owner, direct, stmt)?;
    }
    Ok(())
}
