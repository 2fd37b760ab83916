//! The scopes of blocks, loops and the program, made from their trees.
ghost use Rattle.std.specs.Prelude.{◌≡◌, ◌∷◌, [], IfOk, None, OnOk, false, map};
ghost use Rattle.std.specs.List.{flat_map};
ghost use Rattle.js_tree.specs.Plain.{stmts_of};
ghost use Rattle.js_tree.specs.Views.{plain_stmt, plain_start, plain_tree};
ghost use Rattle.std.specs.HashMap.{get_by_text};
ghost use Rattle.js_names.specs.Entries.{entry};
ghost use Rattle.js_names.specs.Scopes.{given_of, parameter, parameters, function_scope, block_scope, for_three_scope, list_scope, for_of_scope, for_of_role, program_scope};
ghost use Rattle.js_names.specs.Views.{scope_of};
ghost use Rattle.js_names.specs.Taken.{TakesOwn, TakesVars, in_map, keeps, own_of_tree_item, vars_of_tree_item};

use crate::declare::{
    declare_list_vars, declare_own, declare_own_stmt, declare_own_stmts, declare_start_own,
    declare_start_vars, declare_stmt_vars,
};
use crate::mention::{Declared, Role};
use crate::scope::{Scope, TOP};
use crate::steps::for_of_role;
use indexmap::IndexMap;
use js_tree::{DeclareKind, Item, Name, Start, Stmt, Tree};
use std::alloc::{AllocError, Global};

/// The scope of a block.
pub(crate) fn block_scope(alloc: Global, owner: u32, body: &[Stmt]) -> Result<Scope, AllocError>
    ensures { IfOk result (λ s. scope_of s ≡ block_scope owner
        (stmts_of (map plain_stmt body.now))) }
{
    let mut scope = Scope {
        own: IndexMap::new(alloc),
        vars: IndexMap::new(alloc),
        whole: false,
        owner,
    };
    declare_own_stmts(alloc, &mut scope.own, owner, false, body)?;
    declare_list_vars(alloc, &mut scope.vars, Some(&scope.own), owner, false, body)?;
    Ok(scope)
}

/// The scope of a `for` with three parts.
pub(crate) fn for_three_scope(
    alloc: Global,
    owner: u32,
    start: &Start,
    body: &Stmt,
) -> Result<Scope, AllocError>
    ensures { IfOk result (λ s. scope_of s ≡ for_three_scope owner (plain_start start.now)
        (plain_stmt body.now)) }
{
    let mut scope = Scope {
        own: IndexMap::new(alloc),
        vars: IndexMap::new(alloc),
        whole: false,
        owner,
    };
    declare_start_own(alloc, &mut scope.own, owner, start)?;
    declare_start_vars(alloc, &mut scope.vars, Some(&scope.own), owner, start)?;
    declare_stmt_vars(alloc, &mut scope.vars, Some(&scope.own), owner, false, body)?;
    Ok(scope)
}

/// Declares the name of a `for` over a list, which can be copied from this offset on.
fn declare_for_of(
    alloc: Global,
    own: &mut IndexMap<String, Declared>,
    owner: u32,
    kind: DeclareKind,
    name: &Name,
    end: u32,
) -> Result<(), AllocError>
    ensures { OnOk result (TakesOwn own.old own.new
        (entry name.now (for_of_role kind) end owner false 0 ∷ [])) }
{
    let role = for_of_role(kind);
    let declared = Declared {
        role,
        offset: name.spot.at,
        end,
        owner,
        direct: false,
        given: 0,
    };
    declare_own(alloc, own, name, declared)
}

/// The scope of the list of a `for`, in which no function can copy the name.
pub(crate) fn list_scope(
    alloc: Global,
    owner: u32,
    kind: DeclareKind,
    name: &Name,
) -> Result<Scope, AllocError>
    ensures { IfOk result (λ s. scope_of s ≡ list_scope owner kind name.now) }
{
    let mut scope = Scope {
        own: IndexMap::new(alloc),
        vars: IndexMap::new(alloc),
        whole: false,
        owner,
    };
    declare_for_of(alloc, &mut scope.own, owner, kind, name, TOP)?;
    Ok(scope)
}

/// The scope of the body of a `for` over a list.
pub(crate) fn for_of_scope(
    alloc: Global,
    owner: u32,
    kind: DeclareKind,
    name: &Name,
    body: &Stmt,
) -> Result<Scope, AllocError>
    ensures { IfOk result (λ s. scope_of s ≡ for_of_scope owner kind name.now (plain_stmt body.now)) }
{
    let mut scope = Scope {
        own: IndexMap::new(alloc),
        vars: IndexMap::new(alloc),
        whole: false,
        owner,
    };
    declare_for_of(alloc, &mut scope.own, owner, kind, name, name.spot.at)?;
    declare_stmt_vars(alloc, &mut scope.vars, Some(&scope.own), owner, false, body)?;
    Ok(scope)
}

/// From where on the values of the `var`s of this name stay.
fn given_of(vars: &IndexMap<String, Declared>, text: &str) -> u32
    ensures { result ≡ given_of (get_by_text vars.now text.now) }
{
    match vars.get(text) {
        Some(declared) => declared.given,
        None => 0,
    }
}

/// Declares a parameter of a function with these `var`s.
fn declare_parameter(
    alloc: Global,
    own: &mut IndexMap<String, Declared>,
    vars: &IndexMap<String, Declared>,
    owner: u32,
    name: &Name,
) -> Result<(), AllocError>
    ensures { OnOk result (TakesOwn own.old own.new
        (parameter owner (in_map vars.now) name.now ∷ [])) }
{
    let given = given_of(vars, name.text.as_str());
    let declared = Declared {
        role: Role::Parameter,
        offset: name.spot.at,
        end: name.spot.at.max(given),
        owner,
        direct: false,
        given: 0,
    };
    declare_own(alloc, own, name, declared)
}

/// Declares the parameters of a function with these `var`s.
fn declare_parameters(
    alloc: Global,
    own: &mut IndexMap<String, Declared>,
    vars: &IndexMap<String, Declared>,
    owner: u32,
    names: &[Name],
) -> Result<(), AllocError>
    ensures { OnOk result (TakesOwn own.old own.new
        (parameters owner (in_map vars.now) names.now)) }
{
    for name in names {
        declare_parameter(alloc, own, vars, owner, name)?;
    }
    Ok(())
}

/// The scope of a function.
pub(crate) fn function_scope(
    alloc: Global,
    owner: u32,
    names: &[Name],
    body: &[Stmt],
) -> Result<Scope, AllocError>
    ensures { IfOk result (λ s. scope_of s ≡ function_scope owner names.now
        (stmts_of (map plain_stmt body.now))) }
{
    let mut scope = Scope {
        own: IndexMap::new(alloc),
        vars: IndexMap::new(alloc),
        whole: true,
        owner,
    };
    declare_list_vars(alloc, &mut scope.vars, None, owner, true, body)?;
    declare_parameters(alloc, &mut scope.own, &scope.vars, owner, names)?;
    declare_own_stmts(alloc, &mut scope.own, owner, true, body)?;
    Ok(scope)
}

/// Declares the `let`, `const` or function name of an item of the program.
fn declare_item(
    alloc: Global,
    own: &mut IndexMap<String, Declared>,
    item: &Item,
) -> Result<(), AllocError>
    ensures { OnOk result (TakesOwn own.old own.new (own_of_tree_item item.now)) }
{
    match item {
        Item::Statement(_, stmt) => declare_own_stmt(alloc, own, TOP, true, stmt),
        Item::Function(_, name, _, _) => {
            let declared = Declared {
                role: Role::Function,
                offset: name.spot.at,
                end: name.spot.at,
                owner: TOP,
                direct: true,
                given: 0,
            };
            declare_own(alloc, own, name, declared)
        }
    }
}

/// Declares the `var` names of an item of the program.
fn declare_item_vars(
    alloc: Global,
    vars: &mut IndexMap<String, Declared>,
    item: &Item,
) -> Result<(), AllocError>
    ensures { OnOk result (TakesVars (keeps None) vars.old vars.new (vars_of_tree_item item.now)) }
{
    match item {
        Item::Statement(_, stmt) => declare_stmt_vars(alloc, vars, None, TOP, true, stmt),
        Item::Function(_, _, _, _) => Ok(()),
    }
}

/// The own names of the program.
fn own_of_items(
    alloc: Global,
    own: &mut IndexMap<String, Declared>,
    items: &[Item],
) -> Result<(), AllocError>
    ensures { OnOk result (TakesOwn own.old own.new (flat_map own_of_tree_item items.now)) }
{
    for item in items {
        declare_item(alloc, own, item)?;
    }
    Ok(())
}

/// The `var` names of the program.
fn vars_of_items(
    alloc: Global,
    vars: &mut IndexMap<String, Declared>,
    items: &[Item],
) -> Result<(), AllocError>
    ensures { OnOk result (TakesVars (keeps None) vars.old vars.new
        (flat_map vars_of_tree_item items.now)) }
{
    for item in items {
        declare_item_vars(alloc, vars, item)?;
    }
    Ok(())
}

/// The scope of the program.
pub(crate) fn program_scope(alloc: Global, tree: &Tree) -> Result<Scope, AllocError>
    ensures { IfOk result (λ s. scope_of s ≡ program_scope (plain_tree tree.now)) }
{
    let mut scope = Scope {
        own: IndexMap::new(alloc),
        vars: IndexMap::new(alloc),
        whole: true,
        owner: TOP,
    };
    own_of_items(alloc, &mut scope.own, &tree.items)?;
    vars_of_items(alloc, &mut scope.vars, &tree.items)?;
    Ok(scope)
}
